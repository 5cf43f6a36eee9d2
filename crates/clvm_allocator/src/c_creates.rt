// The calls that count: atoms, integers, pairs, ghosts, parts of atoms. One equation is a call's contract: the answer, the record
// and the lent lists as the call leaves them.
ghost use Rattle.std.specs.Prelude.{◌≡◌};
ghost use Rattle.rules.specs.Said.{no_lists};
ghost use Rattle.rules.specs.Lent.{store_in, pair_store_in};
ghost use Rattle.rules.specs.Creates.{new_atom, new_small_number, new_u64, new_i64, new_pair, add_ghost_pair, remove_ghost_pair, add_ghost_atom, new_substr};
ghost use Rattle.clvm_allocator.specs.Answers.{given, crossed, answer_c, done_c};

use super::answers::CAnswer;
use creates::{atom, ghosts, pair, substr};
use rules::{Allocator, AtomStore, PairStore};

pub fn clvm_new_atom(
    a: &mut Allocator,
    bytes: &mut [u8],
    starts: &mut [u32],
    ends: &mut [u32],
    v: &[u8],
) -> CAnswer
    ensures { given result a.new (store_in bytes.new starts.new ends.new)
        ≡ crossed answer_c (new_atom a.old v.now (store_in bytes.old starts.old ends.old)) }
{
    let mut store = AtomStore {
        bytes,
        starts,
        ends,
    };
    atom::new_atom(a, &mut store, v).into()
}

pub fn clvm_new_small_number(a: &mut Allocator, v: u32) -> CAnswer
    ensures { given result a.new no_lists ≡ crossed answer_c (new_small_number a.old v) }
{
    atom::new_small_number(a, v).into()
}

pub fn clvm_new_u64(
    a: &mut Allocator,
    bytes: &mut [u8],
    starts: &mut [u32],
    ends: &mut [u32],
    x: u64,
) -> CAnswer
    ensures { given result a.new (store_in bytes.new starts.new ends.new)
        ≡ crossed answer_c (new_u64 a.old x (store_in bytes.old starts.old ends.old)) }
{
    let mut store = AtomStore {
        bytes,
        starts,
        ends,
    };
    atom::new_integer(a, &mut store, x).into()
}

pub fn clvm_new_i64(
    a: &mut Allocator,
    bytes: &mut [u8],
    starts: &mut [u32],
    ends: &mut [u32],
    x: i64,
) -> CAnswer
    ensures { given result a.new (store_in bytes.new starts.new ends.new)
        ≡ crossed answer_c (new_i64 a.old x (store_in bytes.old starts.old ends.old)) }
{
    let mut store = AtomStore {
        bytes,
        starts,
        ends,
    };
    atom::new_integer(a, &mut store, x).into()
}

pub fn clvm_new_pair(
    a: &mut Allocator,
    firsts: &mut [u32],
    rests: &mut [u32],
    first: u32,
    rest: u32,
) -> CAnswer
    ensures { given result a.new (pair_store_in firsts.new rests.new)
        ≡ crossed answer_c (new_pair a.old first rest (pair_store_in firsts.old rests.old)) }
{
    let mut store = PairStore { firsts, rests };
    pair::new_pair(a, &mut store, first, rest).into()
}

pub fn clvm_add_ghost_pair(a: &mut Allocator, amount: usize) -> CAnswer
    ensures { given result a.new no_lists ≡ crossed done_c (add_ghost_pair a.old amount) }
{
    ghosts::add_ghost_pair(a, amount).into()
}

pub fn clvm_remove_ghost_pair(a: &mut Allocator, amount: usize) -> CAnswer
    ensures { given result a.new no_lists ≡ crossed done_c (remove_ghost_pair a.old amount) }
{
    ghosts::remove_ghost_pair(a, amount).into()
}

pub fn clvm_add_ghost_atom(a: &mut Allocator, amount: usize) -> CAnswer
    ensures { given result a.new no_lists ≡ crossed done_c (add_ghost_atom a.old amount) }
{
    ghosts::add_ghost_atom(a, amount).into()
}

pub fn clvm_new_substr(
    a: &mut Allocator,
    bytes: &mut [u8],
    starts: &mut [u32],
    ends: &mut [u32],
    n: u32,
    start: u32,
    end: u32,
) -> CAnswer
    ensures { given result a.new (store_in bytes.new starts.new ends.new)
        ≡ crossed answer_c (new_substr a.old n start end (store_in bytes.old starts.old ends.old)) }
{
    let mut store = AtomStore {
        bytes,
        starts,
        ends,
    };
    substr::new_substr(a, &mut store, n, start, end).into()
}
