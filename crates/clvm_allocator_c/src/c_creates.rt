// Atoms, integers, pairs, ghosts and parts of atoms, for C.
ghost use Rattle.std.specs.Prelude.{◌≡◌};
ghost use Rattle.rules.specs.Said.{no_lists};
ghost use Rattle.rules.specs.Lent.{store_in, pair_store_in};
ghost use Rattle.rules.specs.Creates.{new_atom, new_small_number, new_u64, new_i64, new_pair, add_ghost_pair, remove_ghost_pair, add_ghost_atom, new_substr};
ghost use Rattle.clvm_allocator.specs.Answers.{given, crossed, answer_c, done_c};

use clvm_allocator::answers::CAnswer;
use rules::Allocator;

#[unsafe(no_mangle)]
pub extern "C" fn clvm_new_atom(
    a: &mut Allocator,
    bytes: &mut [u8],
    starts: &mut [u32],
    ends: &mut [u32],
    v: &[u8],
) -> CAnswer
    ensures { given result a.new (store_in bytes.new starts.new ends.new)
        ≡ crossed answer_c (new_atom a.old v.now (store_in bytes.old starts.old ends.old)) }
{
    clvm_allocator::c_creates::clvm_new_atom(a, bytes, starts, ends, v)
}

#[unsafe(no_mangle)]
pub extern "C" fn clvm_new_small_number(a: &mut Allocator, v: u32) -> CAnswer
    ensures { given result a.new no_lists ≡ crossed answer_c (new_small_number a.old v) }
{
    clvm_allocator::c_creates::clvm_new_small_number(a, v)
}

#[unsafe(no_mangle)]
pub extern "C" fn clvm_new_u64(
    a: &mut Allocator,
    bytes: &mut [u8],
    starts: &mut [u32],
    ends: &mut [u32],
    x: u64,
) -> CAnswer
    ensures { given result a.new (store_in bytes.new starts.new ends.new)
        ≡ crossed answer_c (new_u64 a.old x (store_in bytes.old starts.old ends.old)) }
{
    clvm_allocator::c_creates::clvm_new_u64(a, bytes, starts, ends, x)
}

#[unsafe(no_mangle)]
pub extern "C" fn clvm_new_i64(
    a: &mut Allocator,
    bytes: &mut [u8],
    starts: &mut [u32],
    ends: &mut [u32],
    x: i64,
) -> CAnswer
    ensures { given result a.new (store_in bytes.new starts.new ends.new)
        ≡ crossed answer_c (new_i64 a.old x (store_in bytes.old starts.old ends.old)) }
{
    clvm_allocator::c_creates::clvm_new_i64(a, bytes, starts, ends, x)
}

#[unsafe(no_mangle)]
pub extern "C" fn clvm_new_pair(
    a: &mut Allocator,
    firsts: &mut [u32],
    rests: &mut [u32],
    first: u32,
    rest: u32,
) -> CAnswer
    ensures { given result a.new (pair_store_in firsts.new rests.new)
        ≡ crossed answer_c (new_pair a.old first rest (pair_store_in firsts.old rests.old)) }
{
    clvm_allocator::c_creates::clvm_new_pair(a, firsts, rests, first, rest)
}

#[unsafe(no_mangle)]
pub extern "C" fn clvm_add_ghost_pair(a: &mut Allocator, amount: usize) -> CAnswer
    ensures { given result a.new no_lists ≡ crossed done_c (add_ghost_pair a.old amount) }
{
    clvm_allocator::c_creates::clvm_add_ghost_pair(a, amount)
}

#[unsafe(no_mangle)]
pub extern "C" fn clvm_remove_ghost_pair(a: &mut Allocator, amount: usize) -> CAnswer
    ensures { given result a.new no_lists ≡ crossed done_c (remove_ghost_pair a.old amount) }
{
    clvm_allocator::c_creates::clvm_remove_ghost_pair(a, amount)
}

#[unsafe(no_mangle)]
pub extern "C" fn clvm_add_ghost_atom(a: &mut Allocator, amount: usize) -> CAnswer
    ensures { given result a.new no_lists ≡ crossed done_c (add_ghost_atom a.old amount) }
{
    clvm_allocator::c_creates::clvm_add_ghost_atom(a, amount)
}

#[unsafe(no_mangle)]
pub extern "C" fn clvm_new_substr(
    a: &mut Allocator,
    bytes: &mut [u8],
    starts: &mut [u32],
    ends: &mut [u32],
    n: u32,
    start: u32,
    end: u32,
) -> CAnswer
    ensures { given result a.new (store_in bytes.new starts.new ends.new)
        ≡ crossed answer_c (new_substr a.old n start end (store_in bytes.old starts.old ends.old)) }
{
    clvm_allocator::c_creates::clvm_new_substr(a, bytes, starts, ends, n, start, end)
}
