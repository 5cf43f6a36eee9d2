// new_concat: the bytes of several atoms, joined.
#![tactic(auto, unfolding(rules::specs::Said::need))]

mod copies;
mod sizes;

ghost use Rattle.std.specs.Prelude.{◌≡◌, List, [], ◌∷◌, ℕ, ◌+◌, ◌≤◌, ◌<◌, length};
ghost use Rattle.rules.specs.State.{Store, store};
ghost use Rattle.rules.specs.Lent.{atoms_of, store_lent, SameStore, AtomsWithin};
ghost use Rattle.rules.specs.Creates.{concat_put, new_concat};
ghost use Rattle.rules.specs.Paper.{made};
ghost use Rattle.rules.proofs.Sound.{StoreLent};
ghost use Rattle.concat.specs.Concat.{concat_all};

use creates::atom;
use rules::{Allocator, AtomSlots, AtomStore, Code, NIL, ObjectType, Refusal, need};
use state::{record, sound};

// Nothing joined is nil, counted as if it had been allocated.
fn concat_none(a: &mut Allocator, size: usize) -> Result<u32, Refusal>
    requires { (a.old.ghosts.atoms < 62500000) × (a.old.ghosts.bytes ≤ 8589934590) }
    ensures { (s : Store) → made result a.new s ≡ concat_put a.old size [] s }
{
    need(0 == size, Code::InvalidSize, NIL)?;
    *a = record::ghost_atom(0, *a);
    Ok(NIL)
}

// One atom joined is that atom, counted as if it had been allocated again.
fn concat_one(a: &mut Allocator, atoms: AtomSlots, size: usize, n: u32) -> Result<u32, Refusal>
    requires atoms_within { AtomsWithin a.old atoms.starts.now atoms.ends.now }
    requires counts { (a.old.ghosts.atoms < 62500000) × (a.old.ghosts.bytes + size ≤ 8589934590) }
    ensures { (b : List ℕ) → made result a.new (store b (atoms_of atoms.entry)) ≡ concat_put a.old size (n ∷ []) (store b (atoms_of atoms.entry)) }
{
    sizes::measure_one(a, atoms, size, n)?;
    *a = record::ghost_atom(size, *a);
    Ok(n)
}

// Several atoms joined: all are measured, then there must be room, and only then a byte is written, behind the used ones, and a slot over them.
#[tactic(auto, unfolding(rules::specs::Said::need, rules::specs::Creates::store_atom))]
fn concat_all(
    a: &mut Allocator,
    store: &mut AtomStore,
    size: usize,
    nodes: &[u32],
) -> Result<u32, Refusal>
    requires lent { StoreLent a.old (length store.old.bytes.now) (length store.old.starts.now) (length store.old.ends.now) }
    requires counts { (size ≤ 4294967295) × (a.old.used.atoms < 62500000) }
    ensures value { made result a.new (store_lent store.new) ≡ concat_all a.old size nodes.now (store_lent store.old) }
    ensures same { SameStore store.old store.new }
{
    sizes::measure(a, store.slots(), size, nodes)?;
    let (starts, ends) = (store.starts.len(), store.ends.len());
    let room = atom::store_room(a, size, store.bytes.len(), starts, ends);
    need(room, Code::Full, NIL)?;
    let from = a.used.bytes;
    let at = a.used.atoms;
    let bytes = &mut *store.bytes;
    let starts = &mut *store.starts;
    let ends = &mut *store.ends;
    copies::copy_terms(a, bytes, AtomSlots { starts, ends }, nodes);
    starts[at] = from as u32;
    ends[at] = (from + size) as u32;
    *a = record::used_atom(size, *a);
    Ok(node::of(ObjectType::Bytes, at as u32))
}

// The atoms' bytes one behind the other, as a new atom of that size: 1 unsound, 3 too many atoms, 2 out of memory, then the nodes. Nothing is
// written unless all tests pass.
#[tactic(auto, unfolding(rules::specs::Said::need, rules::specs::Creates::concat_tests))]
pub fn new_concat(
    a: &mut Allocator,
    store: &mut AtomStore,
    new_size: usize,
    nodes: &[u32],
) -> Result<u32, Refusal>
    ensures value { made result a.new (store_lent store.new) ≡ new_concat a.old new_size nodes.now (store_lent store.old) }
    ensures same { SameStore store.old store.new }
{
    need(
        sound::bytes_sound(a, store.bytes.len(), store.starts.len(), store.ends.len()),
        Code::Unsound,
        NIL,
    )?;
    need(
        a.used.atoms + a.ghosts.atoms < sound::MOST,
        Code::TooManyAtoms,
        NIL,
    )?;
    need(
        sound::total(a.used.bytes + a.ghosts.bytes, new_size) <= a.limit,
        Code::OutOfMemory,
        NIL,
    )?;
    match nodes {
        [] => concat_none(a, new_size),
        [n] => concat_one(a, store.slots(), new_size, *n),
        _ => concat_all(a, store, new_size, nodes),
    }
}
