// Soundness: of a record beside slices of given lengths, of nodes, and of slots.
ghost use Rattle.std.specs.Prelude.{◌≡◌, ◌&&◌, ◌+◌, ◌≤◌, min, leb, length};
ghost use Rattle.rules.specs.Node.{valid_node};
ghost use Rattle.rules.specs.State.{limits_sound, atoms_sound_at, pairs_sound_at, slots_sound_at, bytes_sound_at, lists_sound_at, range_sound, children_sound};
ghost use Rattle.rules.specs.State.{atom_slots_sound, pair_slots_sound};
ghost use Rattle.rules.specs.Lent.{atoms_of, pairs_of};
ghost use Rattle.rules.proofs.Limits.{Limits};
ghost use Rattle.rules.proofs.Sound.{AtomsLent, PairsLent, SlotsLent, StoreLent, ListsLent};
ghost use Rattle.std.specs.Bool.{OnTrue};

use rules::{Allocator, AtomSlots, Counts, PairSlots, View};

// The most atoms, and the most pairs, that there may be.
pub const MOST: usize = 62500000;

// x + y, or the largest usize where the sum is past it: a test against a smaller number then judges the exact sum.
pub fn total(x: usize, y: usize) -> usize
    ensures { result ≡ min (x + y) 18446744073709551615 }
{
    x.saturating_add(y)
}

// Whether the record's own numbers are within the limits.
pub fn limits_sound(a: &Allocator) -> bool
    ensures value { result ≡ limits_sound a.now }
    ensures facts { OnTrue result (Limits a.now) }
{
    if super::record::TOP < a.used.bytes {
        return false;
    }
    if super::record::TOP < a.limit {
        return false;
    }
    let all_atoms = total(a.used.atoms, a.ghosts.atoms);
    if MOST < all_atoms {
        return false;
    }
    let all_pairs = total(a.used.pairs, a.ghosts.pairs);
    if MOST < all_pairs {
        return false;
    }
    total(a.used.bytes, a.ghosts.bytes) <= a.limit + 3 * all_atoms
}

// Whether n entries fit two slices of these lengths.
pub fn fit(n: usize, one: usize, other: usize) -> bool
    ensures { result ≡ (leb n one && leb n other) }
{
    n <= one && n <= other
}

// Whether the record is sound beside atom slots of these lengths.
pub fn atoms_sound(a: &Allocator, starts: usize, ends: usize) -> bool
    ensures value { result ≡ atoms_sound_at a.now starts ends }
    ensures facts { OnTrue result (AtomsLent a.now starts ends) }
{
    limits_sound(a) && fit(a.used.atoms, starts, ends)
}

// Whether the record is sound beside pair slots of these lengths.
pub fn pairs_sound(a: &Allocator, firsts: usize, rests: usize) -> bool
    ensures value { result ≡ pairs_sound_at a.now firsts rests }
    ensures facts { OnTrue result (PairsLent a.now firsts rests) }
{
    limits_sound(a) && fit(a.used.pairs, firsts, rests)
}

// Whether the record is sound beside atom and pair slots of these lengths.
pub fn slots_sound(a: &Allocator, starts: usize, ends: usize, firsts: usize, rests: usize) -> bool
    ensures value { result ≡ slots_sound_at a.now starts ends firsts rests }
    ensures facts { OnTrue result (SlotsLent a.now starts ends firsts rests) }
{
    atoms_sound(a, starts, ends) && fit(a.used.pairs, firsts, rests)
}

// Whether the record is sound beside bytes and atom slots of these lengths.
pub fn bytes_sound(a: &Allocator, bytes: usize, starts: usize, ends: usize) -> bool
    ensures value { result ≡ bytes_sound_at a.now bytes starts ends }
    ensures facts { OnTrue result (StoreLent a.now bytes starts ends) }
{
    atoms_sound(a, starts, ends) && a.used.bytes <= bytes
}

// Whether the record is sound beside all five slices.
pub fn lists_sound(
    a: &Allocator,
    bytes: usize,
    starts: usize,
    ends: usize,
    firsts: usize,
    rests: usize,
) -> bool
    ensures value { result ≡ lists_sound_at a.now bytes starts ends firsts rests }
    ensures facts { OnTrue result (ListsLent a.now bytes starts ends firsts rests) }
{
    slots_sound(a, starts, ends, firsts, rests) && a.used.bytes <= bytes
}

// Whether a node is valid where so many atoms and pairs are used.
pub fn valid(n: u32, atoms: usize, pairs: usize) -> bool
    ensures { result ≡ valid_node atoms pairs n }
{
    match node::view(n) {
        Ok(View::Pair(i)) => i < pairs,
        Ok(View::Bytes(i)) => i < atoms,
        Ok(View::Small(_)) => true,
        Err(_) => false,
    }
}

// Whether a range lies within so many bytes.
pub fn range_sound(start: u32, end: u32, bytes: usize) -> bool
    ensures { result ≡ range_sound bytes start end }
{
    start <= end && end as usize <= bytes
}

// Whether pair slot i may hold these children.
pub fn children_sound(first: u32, rest: u32, atoms: usize, i: usize) -> bool
    ensures { result ≡ children_sound atoms i first rest }
{
    valid(first, atoms, i) && valid(rest, atoms, i)
}

// Whether the first atom slots lie within the first bytes, both as used says.
pub fn atom_slots_sound(used: &Counts, atoms: AtomSlots) -> bool
    requires { (used.now.atoms ≤ length atoms.starts.now) × (used.now.atoms ≤ length atoms.ends.now) }
    ensures { result ≡ atom_slots_sound used.now (atoms_of atoms.entry) }
{
    for i in 0..used.atoms {
        if !range_sound(atoms.starts[i], atoms.ends[i], used.bytes) {
            return false;
        }
    }
    true
}

// Whether the first pair slots have their children among the atoms that used says and the pairs before them.
pub fn pair_slots_sound(used: &Counts, pairs: PairSlots) -> bool
    requires { (used.now.pairs ≤ length pairs.firsts.now) × (used.now.pairs ≤ length pairs.rests.now) }
    ensures { result ≡ pair_slots_sound used.now (pairs_of pairs.entry) }
{
    for i in 0..used.pairs {
        if !children_sound(pairs.firsts[i], pairs.rests[i], used.atoms, i) {
            return false;
        }
    }
    true
}
