// A part of an atom.
#![tactic(auto, unfolding(rules::specs::Said::need))]

ghost use Rattle.std.specs.Prelude.{◌≡◌, ◌+◌, ◌≤◌, ◌<◌, IfOk, length};
ghost use Rattle.std.proofs.Math.Seq.{slice};
ghost use Rattle.rules.specs.Small.{fits, len_for, small_bytes};
ghost use Rattle.rules.specs.Lent.{atoms_of, store_lent, SameStore, AtomsWithin};
ghost use Rattle.rules.specs.Reads.{atom_length, atom_of};
ghost use Rattle.rules.specs.Creates.{bounded, share_range, small_or, new_substr};
ghost use Rattle.rules.specs.Paper.{said_by, atom_paper, made};
ghost use Rattle.rules.proofs.Args.{AtomIn};

use reads::arg;
use rules::{Allocator, Atom, AtomSlots, AtomStore, Code, NIL, ObjectType, Refusal, need};
use state::{record, sound};

// The atom of a node, if a part of it has these bounds: 5 not valid, 1 unsound slot, 6 a pair, then, with the node, 7 start or 8 end out of
// bounds, 9 start past end.
fn bounded_atom(
    a: &Allocator,
    atoms: AtomSlots,
    n: u32,
    start: usize,
    end: usize,
) -> Result<Atom, Refusal>
    requires { AtomsWithin a.now atoms.starts.now atoms.ends.now }
    ensures value { said_by atom_paper result ≡ bounded n start end (atom_of a.now (atoms_of atoms.entry) n) }
    ensures facts { IfOk result (λ x. AtomIn a.now (atom_paper x) × (start ≤ end) × (end ≤ atom_length (atom_paper x))) }
{
    let found = arg::atom_of(a, atoms, n)?;
    let len = arg::length(found);
    need(start <= len, Code::StartOutOfBounds, n)?;
    need(end <= len, Code::EndOutOfBounds, n)?;
    need(start <= end, Code::InvalidBounds, n)?;
    Ok(found)
}

// A new slot over bytes that are there, where there is room for it.
#[tactic(auto, unfolding(rules::specs::Said::need, rules::specs::Creates::share_range))]
fn share_range(
    a: &mut Allocator,
    store: &mut AtomStore,
    start: usize,
    end: usize,
) -> Result<u32, Refusal>
    requires { (a.old.used.atoms < 62500000) × (a.old.used.bytes ≤ 4294967295) × (start ≤ 4294967295) × (end ≤ 4294967295) }
    ensures value { made result a.new (store_lent store.new) ≡ share_range a.old start end (store_lent store.old) }
    ensures same { SameStore store.old store.new }
{
    let at = a.used.atoms;
    need(
        sound::fit(at + 1, store.starts.len(), store.ends.len()),
        Code::Full,
        NIL,
    )?;
    store.starts[at] = start as u32;
    store.ends[at] = end as u32;
    *a = record::used_atom(0, *a);
    Ok(node::of(ObjectType::Bytes, at as u32))
}

// A part of a small atom: small again where it fits, with the heap unchanged, else stored, with no heap test.
fn part_of_small(
    a: &mut Allocator,
    store: &mut AtomStore,
    v: u32,
    start: usize,
    end: usize,
) -> Result<u32, Refusal>
    requires counts { (a.old.used.atoms + a.old.ghosts.atoms < 62500000) × (a.old.ghosts.bytes ≤ 8589934590) }
    requires part { (v < 67108864) × (start ≤ end) × (end ≤ len_for v) }
    ensures value { made result a.new (store_lent store.new)
        ≡ small_or (fits (slice start end (small_bytes v))) 0 a.old (slice start end (small_bytes v)) (store_lent store.old) }
    ensures same { SameStore store.old store.new }
{
    let (buf, from) = node::small_bytes(v);
    let own = &buf[from..];
    super::atom::small_or(a, store, &own[start..end], 0)
}

// A new atom that is the part of an atom from start up to end: 1 unsound, 3 too many atoms, then the atom and the bounds.
#[tactic(auto, unfolding(rules::specs::Said::need, rules::specs::Creates::substr_tests))]
pub fn new_substr(
    a: &mut Allocator,
    store: &mut AtomStore,
    n: u32,
    start: u32,
    end: u32,
) -> Result<u32, Refusal>
    ensures value { made result a.new (store_lent store.new)
        ≡ new_substr a.old n start end (store_lent store.old) }
    ensures same { SameStore store.old store.new }
{
    let i = start as usize;
    let j = end as usize;
    need(
        sound::bytes_sound(a, store.bytes.len(), store.starts.len(), store.ends.len()),
        Code::Unsound,
        NIL,
    )?;
    need(
        a.used.atoms + a.ghosts.atoms < sound::MOST,
        Code::TooManyAtoms,
        NIL,
    )?;
    match bounded_atom(a, store.slots(), n, i, j)? {
        Atom::Range(from, _) => share_range(a, store, from + i, from + j),
        Atom::Value(v) => part_of_small(a, store, v, i, j),
    }
}
