// Going back to a checkpoint: plainly, transparently, or with a node that is to be kept. A refusal changes nothing, and no
// slot is cleared.
#![tactic(auto)]

mod course;

ghost use Rattle.std.specs.Prelude.{◌≡◌, ◌-◌, ◌≤◌, Ok, length, take};
ghost use Rattle.std.proofs.Math.Seq.{slice};
ghost use Rattle.rules.specs.Lent.{store_lent, SameStore, pair_store_of, slots_of};
ghost use Rattle.rules.specs.Restores.{share as share_course, restore_plain, restore_transparent, restore_by, clone, maybe_restore};
ghost use Rattle.rules.specs.Paper.{changed, restored};
ghost use Rattle.restores.specs.Able.{Shareable, Copyable};

use course::Course;
use creates::atom;
use rules::{
    Allocator, AtomSlots, AtomStore, Checkpoint, Code, Counts, MaybeRestore, NIL, ObjectType,
    PairSlots, Refusal, need,
};
use state::{record, sound};

// Cuts the used counts to the checkpoint; what was cut stays counted, as ghosts: 1 unsound, 11 not usable.
#[tactic(auto, unfolding(rules::specs::Said::need, rules::specs::Restores::restore_transparent))]
pub fn restore_transparent_checkpoint(
    a: &mut Allocator,
    atoms: AtomSlots,
    pairs: PairSlots,
    k: &Counts,
) -> Result<(), Refusal>
    ensures { changed result a.new ≡ restore_transparent k.now a.old (slots_of atoms.entry pairs.entry) }
{
    need(
        sound::slots_sound(
            a,
            atoms.starts.len(),
            atoms.ends.len(),
            pairs.firsts.len(),
            pairs.rests.len(),
        ),
        Code::Unsound,
        NIL,
    )?;
    need(course::usable(k, a, atoms, pairs), Code::NotUsable, NIL)?;
    *a = record::cut(*k, *a);
    Ok(())
}

// Cuts the used counts to the checkpoint and sets its ghosts: all counters are as they were. It must give a sound record: 1 unsound, 11 not usable.
#[tactic(auto, unfolding(rules::specs::Said::need, rules::specs::Restores::restore_plain))]
pub fn restore_checkpoint(
    a: &mut Allocator,
    atoms: AtomSlots,
    pairs: PairSlots,
    k: &Checkpoint,
) -> Result<(), Refusal>
    ensures { changed result a.new ≡ restore_plain k.now a.old (slots_of atoms.entry pairs.entry) }
{
    let (starts, ends) = (atoms.starts.len(), atoms.ends.len());
    let (firsts, rests) = (pairs.firsts.len(), pairs.rests.len());
    need(
        sound::slots_sound(a, starts, ends, firsts, rests),
        Code::Unsound,
        NIL,
    )?;
    need(
        course::usable(&k.used, a, atoms, pairs),
        Code::NotUsable,
        NIL,
    )?;
    let back = record::cut_plain(*k, *a);
    need(
        sound::slots_sound(&back, starts, ends, firsts, rests),
        Code::NotUsable,
        NIL,
    )?;
    *a = back;
    Ok(())
}

// Restores, and gives the range a new slot.
fn share(
    a: &mut Allocator,
    store: &mut AtomStore,
    k: &Counts,
    start: usize,
    end: usize,
) -> MaybeRestore
    requires { Shareable k.now a.old (length store.old.starts.now) (length store.old.ends.now) start end }
    ensures value { restored (Ok result) a.new (store_lent store.new) ≡ restore_by k.now a.old (store_lent store.old) (share_course start end) }
    ensures same { SameStore store.old store.new }
{
    let at = k.atoms;
    store.starts[at] = start as u32;
    store.ends[at] = end as u32;
    *a = record::used_atom(0, record::less_ghosts(0, record::cut(*k, *a)));
    MaybeRestore::Replace(node::of(ObjectType::Bytes, at as u32))
}

// The bytes from start to end, in front, to be kept over a restore.
fn kept_bytes(bytes: &[u8], start: usize, end: usize) -> [u8; 48]
    requires { (start ≤ end) × (end ≤ length bytes.now) × (end - start ≤ 48) }
    ensures { take (end - start) result ≡ slice start end bytes.now }
{
    let mut saved = [0; 48];
    octets::copy(&bytes[start..end], &mut saved);
    saved
}

// Saves the bytes, restores, and makes an atom of them again: new_atom's tests were passed before, and are not made twice.
fn copy_node(
    a: &mut Allocator,
    store: &mut AtomStore,
    k: &Counts,
    start: usize,
    end: usize,
) -> Result<MaybeRestore, Refusal>
    requires { Copyable k.now a.old (store_lent store.old) start end }
    ensures value { restored result a.new (store_lent store.new) ≡ clone k.now start end a.old (store_lent store.old) }
    ensures same { SameStore store.old store.new }
{
    let len = end - start;
    let bytes = &mut *store.bytes;
    let saved = kept_bytes(bytes, start, end);
    let mut less = record::less_ghosts(len, record::cut(*k, *a));
    let n = atom::small_or(&mut less, store, &saved[..len], len)?;
    *a = less;
    Ok(MaybeRestore::Replace(n))
}

// Tries to restore and to keep what a node shows: NoReplace, Replace with the node that stands for it, or Aborted.
pub fn maybe_restore_with_node(
    a: &mut Allocator,
    store: &mut AtomStore,
    pairs: PairSlots,
    k: &Counts,
    n: u32,
) -> Result<MaybeRestore, Refusal>
    ensures value { restored result a.new (store_lent store.new) ≡ maybe_restore k.now n a.old (store_lent store.old) (pair_store_of pairs.entry) }
    ensures same { SameStore store.old store.new }
{
    let bytes = &mut *store.bytes;
    let starts = &mut *store.starts;
    let ends = &mut *store.ends;
    match course::course_of(k, a, bytes, AtomSlots { starts, ends }, pairs, n)? {
        Course::Abort => Ok(MaybeRestore::Aborted),
        Course::Keep => {
            *a = record::cut(*k, *a);
            Ok(MaybeRestore::NoReplace)
        }
        Course::Share(start, end) => Ok(share(a, store, k, start, end)),
        Course::Copy(start, end) => copy_node(a, store, k, start, end),
    }
}
