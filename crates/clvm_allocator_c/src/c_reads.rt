// The reads, for C.
ghost use Rattle.std.specs.Prelude.{◌≡◌};
ghost use Rattle.rules.specs.Said.{says_of};
ghost use Rattle.rules.specs.Lent.{atom_slots_in, pair_slots_in};
ghost use Rattle.rules.specs.Reads.{scratch_after, atom_len, small_number, atom_eq, node as node_rule, sexp as sexp_rule, node_status};
ghost use Rattle.clvm_allocator.specs.Answers.{bit, number_c, option_c, visited_c, children_c, part_c, status_c};
ghost use Rattle.reads.specs.Parts.{atom_lent};

use clvm_allocator::answers::{CChildren, CNumber, COption, CPart, CStatus, CVisited};
use rules::{Allocator, Counts};

#[unsafe(no_mangle)]
pub extern "C" fn clvm_node(
    a: &Allocator,
    starts: &[u32],
    ends: &[u32],
    firsts: &[u32],
    rests: &[u32],
    n: u32,
) -> CVisited
    ensures { result
        ≡ visited_c (node_rule a.now (atom_slots_in starts.now ends.now) (pair_slots_in firsts.now rests.now) n) }
{
    clvm_allocator::c_reads::clvm_node(a, starts, ends, firsts, rests, n)
}

#[unsafe(no_mangle)]
pub extern "C" fn clvm_sexp(a: &Allocator, firsts: &[u32], rests: &[u32], n: u32) -> CChildren
    ensures { result ≡ children_c (sexp_rule a.now (pair_slots_in firsts.now rests.now) n) }
{
    clvm_allocator::c_reads::clvm_sexp(a, firsts, rests, n)
}

#[unsafe(no_mangle)]
pub extern "C" fn clvm_next(a: &Allocator, firsts: &[u32], rests: &[u32], n: u32) -> CChildren
    ensures { result ≡ children_c (sexp_rule a.now (pair_slots_in firsts.now rests.now) n) }
{
    clvm_allocator::c_reads::clvm_next(a, firsts, rests, n)
}

#[unsafe(no_mangle)]
pub extern "C" fn clvm_atom(
    a: &Allocator,
    bytes: &[u8],
    starts: &[u32],
    ends: &[u32],
    scratch: &mut [u8],
    n: u32,
) -> CPart
    ensures answer { result ≡ part_c (atom_lent a.now bytes.now (atom_slots_in starts.now ends.now) scratch.old n) }
    ensures scratch { scratch.new
        ≡ scratch_after (atom_lent a.now bytes.now (atom_slots_in starts.now ends.now) scratch.old n) scratch.old }
{
    clvm_allocator::c_reads::clvm_atom(a, bytes, starts, ends, scratch, n)
}

#[unsafe(no_mangle)]
pub extern "C" fn clvm_atom_len(a: &Allocator, starts: &[u32], ends: &[u32], n: u32) -> CNumber
    ensures { result ≡ number_c (atom_len a.now (atom_slots_in starts.now ends.now) n) }
{
    clvm_allocator::c_reads::clvm_atom_len(a, starts, ends, n)
}

#[unsafe(no_mangle)]
pub extern "C" fn clvm_small_number(
    a: &Allocator,
    bytes: &[u8],
    starts: &[u32],
    ends: &[u32],
    n: u32,
) -> COption
    ensures { result
        ≡ option_c (small_number a.now bytes.now (atom_slots_in starts.now ends.now) n) }
{
    clvm_allocator::c_reads::clvm_small_number(a, bytes, starts, ends, n)
}

#[unsafe(no_mangle)]
pub extern "C" fn clvm_atom_eq(
    a: &Allocator,
    bytes: &[u8],
    starts: &[u32],
    ends: &[u32],
    lhs: u32,
    rhs: u32,
) -> CNumber
    ensures { result
        ≡ number_c (says_of bit (atom_eq a.now bytes.now (atom_slots_in starts.now ends.now) lhs rhs)) }
{
    clvm_allocator::c_reads::clvm_atom_eq(a, bytes, starts, ends, lhs, rhs)
}

#[unsafe(no_mangle)]
pub extern "C" fn clvm_checkpoint_node_status(
    a: &Allocator,
    starts: &[u32],
    ends: &[u32],
    k: &Counts,
    n: u32,
) -> CStatus
    ensures { result
        ≡ status_c (node_status k.now a.now (atom_slots_in starts.now ends.now) n) }
{
    clvm_allocator::c_reads::clvm_checkpoint_node_status(a, starts, ends, k, n)
}
