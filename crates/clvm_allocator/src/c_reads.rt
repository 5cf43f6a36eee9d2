// The calls that only read.
ghost use Rattle.std.specs.Prelude.{◌≡◌};
ghost use Rattle.rules.specs.Said.{says_of};
ghost use Rattle.rules.specs.Lent.{atom_slots_in, pair_slots_in};
ghost use Rattle.rules.specs.Reads.{scratch_after, atom_len, small_number, atom_eq, node as node_rule, sexp as sexp_rule, node_status};
ghost use Rattle.clvm_allocator.specs.Answers.{bit, number_c, option_c, visited_c, children_c, part_c, status_c};
ghost use Rattle.reads.specs.Parts.{atom_lent};

use super::answers::{CChildren, CNumber, COption, CPart, CStatus, CVisited};
use reads::{eq, part};
use rules::{Allocator, AtomSlots, Counts, PairSlots};

pub fn clvm_node(
    a: &Allocator,
    starts: &[u32],
    ends: &[u32],
    firsts: &[u32],
    rests: &[u32],
    n: u32,
) -> CVisited
    ensures { result
        ≡ visited_c (node_rule a.now (atom_slots_in starts.now ends.now) (pair_slots_in firsts.now rests.now) n) }
{
    let atoms = AtomSlots { starts, ends };
    let pairs = PairSlots { firsts, rests };
    reads::node(a, atoms, pairs, n).into()
}

pub fn clvm_sexp(a: &Allocator, firsts: &[u32], rests: &[u32], n: u32) -> CChildren
    ensures { result ≡ children_c (sexp_rule a.now (pair_slots_in firsts.now rests.now) n) }
{
    reads::sexp(a, PairSlots { firsts, rests }, n).into()
}

// An atom has no next, as it is no pair: to C that is sexp.
pub fn clvm_next(a: &Allocator, firsts: &[u32], rests: &[u32], n: u32) -> CChildren
    ensures { result ≡ children_c (sexp_rule a.now (pair_slots_in firsts.now rests.now) n) }
{
    clvm_sexp(a, firsts, rests, n)
}

// A part cannot be handed back as such: C gets its place, offset and length.
pub fn clvm_atom(
    a: &Allocator,
    bytes: &[u8],
    starts: &[u32],
    ends: &[u32],
    scratch: &mut [u8],
    n: u32,
) -> CPart
    ensures answer { result ≡ part_c (atom_lent a.now bytes.now (atom_slots_in starts.now ends.now) scratch.old n) }
    ensures scratch { scratch.new
        ≡ scratch_after (atom_lent a.now bytes.now (atom_slots_in starts.now ends.now) scratch.old n) scratch.old }
{
    part::filled(a, bytes, AtomSlots { starts, ends }, scratch, n).into()
}

pub fn clvm_atom_len(a: &Allocator, starts: &[u32], ends: &[u32], n: u32) -> CNumber
    ensures { result ≡ number_c (atom_len a.now (atom_slots_in starts.now ends.now) n) }
{
    reads::atom_len(a, AtomSlots { starts, ends }, n).into()
}

pub fn clvm_small_number(
    a: &Allocator,
    bytes: &[u8],
    starts: &[u32],
    ends: &[u32],
    n: u32,
) -> COption
    ensures { result
        ≡ option_c (small_number a.now bytes.now (atom_slots_in starts.now ends.now) n) }
{
    reads::small_number(a, bytes, AtomSlots { starts, ends }, n).into()
}

pub fn clvm_atom_eq(
    a: &Allocator,
    bytes: &[u8],
    starts: &[u32],
    ends: &[u32],
    lhs: u32,
    rhs: u32,
) -> CNumber
    ensures { result
        ≡ number_c (says_of bit (atom_eq a.now bytes.now (atom_slots_in starts.now ends.now) lhs rhs)) }
{
    eq::atom_eq(a, bytes, AtomSlots { starts, ends }, lhs, rhs).into()
}

pub fn clvm_checkpoint_node_status(
    a: &Allocator,
    starts: &[u32],
    ends: &[u32],
    k: &Counts,
    n: u32,
) -> CStatus
    ensures { result
        ≡ status_c (node_status k.now a.now (atom_slots_in starts.now ends.now) n) }
{
    reads::checkpoint_node_status(a, AtomSlots { starts, ends }, k, n).into()
}
