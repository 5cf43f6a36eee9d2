// A state: its record and the slices lent beside it. The public calls that make a record, read its counts, take a
// checkpoint of it, or say whether a state is well-formed.
#![tactic(auto, unfolding(rules::specs::Said::need))]

pub mod record;
pub mod sound;

ghost use Rattle.std.specs.Prelude.{◌≡◌};
ghost use Rattle.rules.specs.Node.{nil};
ghost use Rattle.rules.specs.Said.{says, need};
ghost use Rattle.rules.specs.State.{limits_sound, well_formed};
ghost use Rattle.rules.specs.Lent.{lists_of};
ghost use Rattle.rules.specs.Record.{atom_count, allocated_atom_count, pair_count, allocated_pair_count};
ghost use Rattle.rules.specs.Record.{heap_size, allocated_heap_size, checkpoint as checkpoint_of};
ghost use Rattle.rules.specs.Record.{transparent_checkpoint, new_limited};
ghost use Rattle.rules.specs.Paper.{said_in, changed};

use rules::{Allocator, Checkpoint, Code, Counts, NIL, Refusal, Slices, need};

// A fresh record: nil and one are counted as if they had been allocated. A refused limit gives the record for limit 0.
#[tactic(auto, unfolding(rules::specs::Said::need, rules::specs::Record::new_limited))]
pub fn new_limited(a: &mut Allocator, limit: usize) -> Result<(), Refusal>
    ensures { changed result a.new ≡ new_limited limit }
{
    *a = record::fresh(0);
    need(limit <= record::TOP, Code::Unsound, NIL)?;
    *a = record::fresh(limit);
    Ok(())
}

// A count of a sound record.
fn counted(a: &Allocator, count: usize) -> Result<usize, Refusal>
    ensures { said_in result ≡ need (limits_sound a.now) 1 nil (says count) }
{
    need(sound::limits_sound(a), Code::Unsound, NIL)?;
    Ok(count)
}

pub fn atom_count(a: &Allocator) -> Result<usize, Refusal>
    ensures { said_in result ≡ atom_count a.now }
{
    counted(a, sound::total(a.used.atoms, a.ghosts.atoms))
}

pub fn allocated_atom_count(a: &Allocator) -> Result<usize, Refusal>
    ensures { said_in result ≡ allocated_atom_count a.now }
{
    counted(a, a.used.atoms)
}

pub fn pair_count(a: &Allocator) -> Result<usize, Refusal>
    ensures { said_in result ≡ pair_count a.now }
{
    counted(a, sound::total(a.used.pairs, a.ghosts.pairs))
}

pub fn allocated_pair_count(a: &Allocator) -> Result<usize, Refusal>
    ensures { said_in result ≡ allocated_pair_count a.now }
{
    counted(a, a.used.pairs)
}

pub fn heap_size(a: &Allocator) -> Result<usize, Refusal>
    ensures { said_in result ≡ heap_size a.now }
{
    counted(a, sound::total(a.used.bytes, a.ghosts.bytes))
}

pub fn allocated_heap_size(a: &Allocator) -> Result<usize, Refusal>
    ensures { said_in result ≡ allocated_heap_size a.now }
{
    counted(a, a.used.bytes)
}

// The six numbers to which a plain restore goes back.
pub fn checkpoint(a: &Allocator) -> Result<Checkpoint, Refusal>
    ensures { said_in result ≡ checkpoint_of a.now }
{
    need(sound::limits_sound(a), Code::Unsound, NIL)?;
    Ok(record::checkpoint(*a))
}

// The three used counts to which a transparent restore cuts.
pub fn transparent_checkpoint(a: &Allocator) -> Result<Counts, Refusal>
    ensures { said_in result ≡ transparent_checkpoint a.now }
{
    need(sound::limits_sound(a), Code::Unsound, NIL)?;
    Ok(a.used)
}

// Whether the record and all used slots are sound.
#[tactic(auto, unfolding(rules::specs::State::well_formed))]
pub fn well_formed(a: &Allocator, lists: Slices) -> bool
    ensures { result ≡ well_formed a.now (lists_of lists.entry) }
{
    let Slices {
        bytes,
        atoms,
        pairs,
    } = lists;
    if sound::lists_sound(
        a,
        bytes.len(),
        atoms.starts.len(),
        atoms.ends.len(),
        pairs.firsts.len(),
        pairs.rests.len(),
    ) {
        return sound::atom_slots_sound(&a.used, atoms) && sound::pair_slots_sound(&a.used, pairs);
    }
    false
}
