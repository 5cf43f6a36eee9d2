// The record alone, and whether a whole state is well-formed, for C.
ghost use Rattle.std.specs.Prelude.{◌≡◌};
ghost use Rattle.rules.specs.Said.{no_lists};
ghost use Rattle.rules.specs.State.{well_formed};
ghost use Rattle.rules.specs.Lent.{lists_in};
ghost use Rattle.rules.specs.Record.{atom_count, allocated_atom_count, pair_count, allocated_pair_count, heap_size, allocated_heap_size};
ghost use Rattle.rules.specs.Record.{checkpoint as checkpoint_rule, transparent_checkpoint, new_limited};
ghost use Rattle.clvm_allocator.specs.Answers.{bit, number_c, done_c, given, crossed, taken_c};

use clvm_allocator::answers::{CAnswer, CNumber};
use rules::{Allocator, Checkpoint, Counts};

#[unsafe(no_mangle)]
pub extern "C" fn clvm_new_limited(a: &mut Allocator, limit: usize) -> CAnswer
    ensures { given result a.new no_lists ≡ crossed done_c (new_limited limit) }
{
    clvm_allocator::c_state::clvm_new_limited(a, limit)
}

#[unsafe(no_mangle)]
pub extern "C" fn clvm_atom_count(a: &Allocator) -> CNumber
    ensures { result ≡ number_c (atom_count a.now) }
{
    clvm_allocator::c_state::clvm_atom_count(a)
}

#[unsafe(no_mangle)]
pub extern "C" fn clvm_allocated_atom_count(a: &Allocator) -> CNumber
    ensures { result ≡ number_c (allocated_atom_count a.now) }
{
    clvm_allocator::c_state::clvm_allocated_atom_count(a)
}

#[unsafe(no_mangle)]
pub extern "C" fn clvm_pair_count(a: &Allocator) -> CNumber
    ensures { result ≡ number_c (pair_count a.now) }
{
    clvm_allocator::c_state::clvm_pair_count(a)
}

#[unsafe(no_mangle)]
pub extern "C" fn clvm_allocated_pair_count(a: &Allocator) -> CNumber
    ensures { result ≡ number_c (allocated_pair_count a.now) }
{
    clvm_allocator::c_state::clvm_allocated_pair_count(a)
}

#[unsafe(no_mangle)]
pub extern "C" fn clvm_heap_size(a: &Allocator) -> CNumber
    ensures { result ≡ number_c (heap_size a.now) }
{
    clvm_allocator::c_state::clvm_heap_size(a)
}

#[unsafe(no_mangle)]
pub extern "C" fn clvm_allocated_heap_size(a: &Allocator) -> CNumber
    ensures { result ≡ number_c (allocated_heap_size a.now) }
{
    clvm_allocator::c_state::clvm_allocated_heap_size(a)
}

#[unsafe(no_mangle)]
pub extern "C" fn clvm_checkpoint_of(a: &Allocator, k: &mut Checkpoint) -> CAnswer
    ensures { given result k.new no_lists
        ≡ taken_c k.old (checkpoint_rule a.now) }
{
    clvm_allocator::c_state::clvm_checkpoint_of(a, k)
}

#[unsafe(no_mangle)]
pub extern "C" fn clvm_transparent_checkpoint(a: &Allocator, k: &mut Counts) -> CAnswer
    ensures { given result k.new no_lists
        ≡ taken_c k.old (transparent_checkpoint a.now) }
{
    clvm_allocator::c_state::clvm_transparent_checkpoint(a, k)
}

#[unsafe(no_mangle)]
pub extern "C" fn clvm_well_formed(
    a: &Allocator,
    bytes: &[u8],
    starts: &[u32],
    ends: &[u32],
    firsts: &[u32],
    rests: &[u32],
) -> u32
    ensures { result
        ≡ bit (well_formed a.now (lists_in bytes.now starts.now ends.now firsts.now rests.now)) }
{
    clvm_allocator::c_state::clvm_well_formed(a, bytes, starts, ends, firsts, rests)
}
