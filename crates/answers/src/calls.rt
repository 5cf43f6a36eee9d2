// Makes a call.
use super::seen::Seen;
use super::{lent, seen};
use clvm_allocator::{c_concat, c_creates, c_load, c_node, c_reads, c_restores, c_save, c_state};
use compare::lists::Lists;
use rules::Allocator;
use script::call::{Call, Plain, Transparent};
use script::kind::{OfAmount, OfNode, OfRecord};
use script::line::Answer;
use std::alloc::AllocError;

// A checkpoint's numbers: a refused call leaves the noughts that were there.
fn checkpoint(a: &Allocator) -> Answer {
    let mut k = lent::plain(&[0; 6]);
    let r = c_state::clvm_checkpoint_of(a, &mut k);
    seen::answer(r.code, r.node, lent::plain_of(&k))
}

fn transparent_checkpoint(a: &Allocator) -> Answer {
    let mut k = lent::transparent(&[0; 3]);
    let r = c_state::clvm_transparent_checkpoint(a, &mut k);
    seen::answer(r.code, r.node, lent::transparent_of(&k))
}

fn atom(a: &Allocator, lists: &Lists, n: u32, length: usize) -> Answer {
    let mut scratch = [170; 8];
    let length = length.min(8);
    let bytes = lists.bytes.part();
    let starts = lists.starts.part();
    let ends = lists.ends.part();
    let part = c_reads::clvm_atom(a, bytes, starts, ends, &mut scratch[..length], n);
    seen::part(part, &scratch[..length])
}

fn atom_eq(a: &Allocator, lists: &Lists, left: u32, right: u32) -> Answer {
    let bytes = lists.bytes.part();
    let starts = lists.starts.part();
    c_reads::clvm_atom_eq(a, bytes, starts, lists.ends.part(), left, right).seen()
}

fn small_number(a: &Allocator, lists: &Lists, n: u32) -> Answer {
    let bytes = lists.bytes.part();
    c_reads::clvm_small_number(a, bytes, lists.starts.part(), lists.ends.part(), n).seen()
}

fn node(a: &Allocator, lists: &Lists, n: u32) -> Answer {
    let starts = lists.starts.part();
    let ends = lists.ends.part();
    c_reads::clvm_node(a, starts, ends, lists.firsts.part(), lists.rests.part(), n).seen()
}

fn atom_len(a: &Allocator, lists: &Lists, n: u32) -> Answer {
    c_reads::clvm_atom_len(a, lists.starts.part(), lists.ends.part(), n).seen()
}

fn sexp(a: &Allocator, lists: &Lists, n: u32) -> Answer {
    c_reads::clvm_sexp(a, lists.firsts.part(), lists.rests.part(), n).seen()
}

fn next(a: &Allocator, lists: &Lists, n: u32) -> Answer {
    c_reads::clvm_next(a, lists.firsts.part(), lists.rests.part(), n).seen()
}

fn status(a: &Allocator, lists: &Lists, used: &Transparent, n: u32) -> Answer {
    let k = lent::transparent(used);
    let starts = lists.starts.part();
    c_reads::clvm_checkpoint_node_status(a, starts, lists.ends.part(), &k, n).seen()
}

fn well_formed(a: &Allocator, lists: &Lists) -> Answer {
    let bytes = lists.bytes.part();
    let starts = lists.starts.part();
    let ends = lists.ends.part();
    let firsts = lists.firsts.part();
    let yes = c_state::clvm_well_formed(a, bytes, starts, ends, firsts, lists.rests.part());
    seen::plain(u64::from(yes))
}

fn save(a: &Allocator, lists: &mut Lists, n: u32) -> Answer {
    let bytes = lists.bytes.part();
    let starts = lists.starts.part();
    let ends = lists.ends.part();
    let firsts = lists.firsts.part();
    let rests = lists.rests.part();
    c_save::clvm_save(
        a,
        bytes,
        starts,
        ends,
        firsts,
        rests,
        n,
        lists.file.part_mut(),
    )
    .seen()
}

fn restore(a: &mut Allocator, lists: &Lists, k: &Plain) -> Answer {
    let k = lent::plain(k);
    let starts = lists.starts.part();
    let ends = lists.ends.part();
    let firsts = lists.firsts.part();
    c_restores::clvm_restore_checkpoint(a, starts, ends, firsts, lists.rests.part(), &k).seen()
}

fn restore_transparent(a: &mut Allocator, lists: &Lists, k: &Transparent) -> Answer {
    let k = lent::transparent(k);
    let starts = lists.starts.part();
    let ends = lists.ends.part();
    let firsts = lists.firsts.part();
    let rests = lists.rests.part();
    c_restores::clvm_restore_transparent_checkpoint(a, starts, ends, firsts, rests, &k).seen()
}

fn maybe_restore(a: &mut Allocator, lists: &mut Lists, k: &Transparent, n: u32) -> Answer {
    let k = lent::transparent(k);
    let bytes = lists.bytes.part_mut();
    let starts = lists.starts.part_mut();
    let ends = lists.ends.part_mut();
    let firsts = lists.firsts.part();
    let rests = lists.rests.part();
    c_restores::clvm_maybe_restore_with_node(a, bytes, starts, ends, firsts, rests, &k, n).seen()
}

fn new_pair(a: &mut Allocator, lists: &mut Lists, first: u32, rest: u32) -> Answer {
    let firsts = lists.firsts.part_mut();
    c_creates::clvm_new_pair(a, firsts, lists.rests.part_mut(), first, rest).seen()
}

// The file is lent up to a length.
fn load(a: &mut Allocator, lists: &mut Lists, length: usize) -> Answer {
    let bytes = lists.bytes.part_mut();
    let starts = lists.starts.part_mut();
    let ends = lists.ends.part_mut();
    let firsts = lists.firsts.part_mut();
    let rests = lists.rests.part_mut();
    let file = lists.file.part();
    let length = length.min(file.len());
    c_load::clvm_load(a, bytes, starts, ends, firsts, rests, &file[..length]).seen()
}

fn new_atom(a: &mut Allocator, lists: &mut Lists) -> Answer {
    let bytes = lists.bytes.part_mut();
    let starts = lists.starts.part_mut();
    c_creates::clvm_new_atom(a, bytes, starts, lists.ends.part_mut(), &lists.handed).seen()
}

fn new_u64(a: &mut Allocator, lists: &mut Lists, x: u64) -> Answer {
    let bytes = lists.bytes.part_mut();
    let starts = lists.starts.part_mut();
    c_creates::clvm_new_u64(a, bytes, starts, lists.ends.part_mut(), x).seen()
}

fn new_i64(a: &mut Allocator, lists: &mut Lists, x: i64) -> Answer {
    let bytes = lists.bytes.part_mut();
    let starts = lists.starts.part_mut();
    c_creates::clvm_new_i64(a, bytes, starts, lists.ends.part_mut(), x).seen()
}

fn new_substr(a: &mut Allocator, lists: &mut Lists, n: u32, start: u32, end: u32) -> Answer {
    let bytes = lists.bytes.part_mut();
    let starts = lists.starts.part_mut();
    c_creates::clvm_new_substr(a, bytes, starts, lists.ends.part_mut(), n, start, end).seen()
}

fn new_concat(a: &mut Allocator, lists: &mut Lists, size: usize, nodes: &[u32]) -> Answer {
    let bytes = lists.bytes.part_mut();
    let starts = lists.starts.part_mut();
    c_concat::clvm_new_concat(a, bytes, starts, lists.ends.part_mut(), size, nodes).seen()
}

fn of_node(which: &OfNode, n: u32, a: &mut Allocator, lists: &mut Lists) -> Answer {
    match which {
        OfNode::ObjectType => c_node::clvm_object_type(n).seen(),
        OfNode::Index => c_node::clvm_index(n).seen(),
        OfNode::IsAtom => c_node::clvm_is_atom(n).seen(),
        OfNode::IsPair => c_node::clvm_is_pair(n).seen(),
        OfNode::LenForValue => seen::plain(c_node::clvm_len_for_value(n) as u64),
        OfNode::NewSmallNumber => c_creates::clvm_new_small_number(a, n).seen(),
        OfNode::Save => save(a, lists, n),
        OfNode::AtomLen => atom_len(a, lists, n),
        OfNode::SmallNumber => small_number(a, lists, n),
        OfNode::Node => node(a, lists, n),
        OfNode::Sexp => sexp(a, lists, n),
        OfNode::Next => next(a, lists, n),
    }
}

fn of_record(which: &OfRecord, a: &Allocator, lists: &Lists) -> Answer {
    match which {
        OfRecord::AtomCount => c_state::clvm_atom_count(a).seen(),
        OfRecord::AllocatedAtomCount => c_state::clvm_allocated_atom_count(a).seen(),
        OfRecord::PairCount => c_state::clvm_pair_count(a).seen(),
        OfRecord::AllocatedPairCount => c_state::clvm_allocated_pair_count(a).seen(),
        OfRecord::HeapSize => c_state::clvm_heap_size(a).seen(),
        OfRecord::AllocatedHeapSize => c_state::clvm_allocated_heap_size(a).seen(),
        OfRecord::Checkpoint => checkpoint(a),
        OfRecord::TransparentCheckpoint => transparent_checkpoint(a),
        OfRecord::WellFormed => well_formed(a, lists),
    }
}

fn of_amount(which: &OfAmount, amount: usize, a: &mut Allocator) -> Answer {
    match which {
        OfAmount::NewLimited => c_state::clvm_new_limited(a, amount).seen(),
        OfAmount::AddGhostPair => c_creates::clvm_add_ghost_pair(a, amount).seen(),
        OfAmount::RemoveGhostPair => c_creates::clvm_remove_ghost_pair(a, amount).seen(),
        OfAmount::AddGhostAtom => c_creates::clvm_add_ghost_atom(a, amount).seen(),
    }
}

// What a call answers.
pub fn made(call: &Call<'_>, a: &mut Allocator, lists: &mut Lists) -> Result<Answer, AllocError> {
    Ok(match call {
        Call::Node(which, n) => of_node(which, *n, a, lists),
        Call::Record(which) => of_record(which, a, lists),
        Call::Amount(which, amount) => of_amount(which, *amount, a),
        Call::FitsInSmallAtom(v) => {
            lists.hand(v)?;
            c_node::clvm_fits_in_small_atom(&lists.handed).seen()
        }
        Call::RestoreCheckpoint(k) => restore(a, lists, k),
        Call::RestoreTransparentCheckpoint(k) => restore_transparent(a, lists, k),
        Call::CheckpointNodeStatus(k, n) => status(a, lists, k, *n),
        Call::AtomEq(left, right) => atom_eq(a, lists, *left, *right),
        Call::Atom(n, length) => atom(a, lists, *n, *length),
        Call::MaybeRestoreWithNode(k, n) => maybe_restore(a, lists, k, *n),
        Call::NewPair(first, rest) => new_pair(a, lists, *first, *rest),
        Call::Load(length) => load(a, lists, *length),
        Call::NewAtom(v) => {
            lists.hand(v)?;
            new_atom(a, lists)
        }
        Call::NewU64(x) => new_u64(a, lists, *x),
        Call::NewI64(x) => new_i64(a, lists, *x),
        Call::NewSubstr(n, start, end) => new_substr(a, lists, *n, *start, *end),
        Call::NewConcat(size, nodes) => new_concat(a, lists, *size, nodes),
    })
}
