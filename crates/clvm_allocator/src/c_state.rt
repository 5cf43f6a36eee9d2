// The record alone: a fresh one, its counts and checkpoints; and whether a whole state is well-formed.
ghost use Rattle.std.specs.Prelude.{◌≡◌};
ghost use Rattle.rules.specs.Said.{no_lists};
ghost use Rattle.rules.specs.State.{well_formed};
ghost use Rattle.rules.specs.Lent.{lists_in};
ghost use Rattle.rules.specs.Record.{atom_count, allocated_atom_count, pair_count, allocated_pair_count, heap_size, allocated_heap_size};
ghost use Rattle.rules.specs.Record.{checkpoint as checkpoint_rule, transparent_checkpoint, new_limited};
ghost use Rattle.rules.specs.Paper.{said_in};
ghost use Rattle.clvm_allocator.specs.Answers.{bit, number_c, done_c, given, crossed, taken_c};

use super::answers::{CAnswer, CNumber};
use rules::{Allocator, AtomSlots, Checkpoint, Counts, PairSlots, Refusal, Slices};

pub fn clvm_new_limited(a: &mut Allocator, limit: usize) -> CAnswer
    ensures { given result a.new no_lists ≡ crossed done_c (new_limited limit) }
{
    state::new_limited(a, limit).into()
}

pub fn clvm_atom_count(a: &Allocator) -> CNumber
    ensures { result ≡ number_c (atom_count a.now) }
{
    state::atom_count(a).into()
}

pub fn clvm_allocated_atom_count(a: &Allocator) -> CNumber
    ensures { result ≡ number_c (allocated_atom_count a.now) }
{
    state::allocated_atom_count(a).into()
}

pub fn clvm_pair_count(a: &Allocator) -> CNumber
    ensures { result ≡ number_c (pair_count a.now) }
{
    state::pair_count(a).into()
}

pub fn clvm_allocated_pair_count(a: &Allocator) -> CNumber
    ensures { result ≡ number_c (allocated_pair_count a.now) }
{
    state::allocated_pair_count(a).into()
}

pub fn clvm_heap_size(a: &Allocator) -> CNumber
    ensures { result ≡ number_c (heap_size a.now) }
{
    state::heap_size(a).into()
}

pub fn clvm_allocated_heap_size(a: &Allocator) -> CNumber
    ensures { result ≡ number_c (allocated_heap_size a.now) }
{
    state::allocated_heap_size(a).into()
}

// A checkpoint of either sort that was asked for; a refusal leaves k as it was.
fn taken<K: Copy>(found: Result<K, Refusal>, k: &mut K) -> CAnswer
    ensures { given result k.new no_lists ≡ taken_c k.old (said_in found) }
{
    match found {
        Ok(new) => {
            *k = new;
            Ok::<(), Refusal>(()).into()
        }
        Err(refusal) => Err::<(), Refusal>(refusal).into(),
    }
}

// In C a type has the name clvm_checkpoint. A refusal leaves k as it was.
pub fn clvm_checkpoint_of(a: &Allocator, k: &mut Checkpoint) -> CAnswer
    ensures { given result k.new no_lists
        ≡ taken_c k.old (checkpoint_rule a.now) }
{
    taken(state::checkpoint(a), k)
}

pub fn clvm_transparent_checkpoint(a: &Allocator, k: &mut Counts) -> CAnswer
    ensures { given result k.new no_lists
        ≡ taken_c k.old (transparent_checkpoint a.now) }
{
    taken(state::transparent_checkpoint(a), k)
}

// 1 for yes, 0 for no.
pub fn clvm_well_formed(
    a: &Allocator,
    bytes: &[u8],
    starts: &[u32],
    ends: &[u32],
    firsts: &[u32],
    rests: &[u32],
) -> u32
    ensures { result
        ≡ bit (well_formed a.now (lists_in bytes.now starts.now ends.now firsts.now rests.now)) }
{
    let lists = Slices {
        bytes,
        atoms: AtomSlots { starts, ends },
        pairs: PairSlots { firsts, rests },
    };
    state::well_formed(a, lists) as u32
}
