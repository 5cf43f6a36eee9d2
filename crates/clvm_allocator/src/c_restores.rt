// Going back to a checkpoint.
ghost use Rattle.std.specs.Prelude.{◌≡◌};
ghost use Rattle.rules.specs.Said.{no_lists};
ghost use Rattle.rules.specs.Lent.{store_in, pair_store_in, slots_in};
ghost use Rattle.rules.specs.Restores.{restore_plain, restore_transparent, maybe_restore};
ghost use Rattle.clvm_allocator.specs.Answers.{given, crossed, done_c, restored_c};

use super::answers::{CAnswer, CRestored};
use rules::{Allocator, AtomSlots, AtomStore, Checkpoint, Counts, PairSlots};

pub fn clvm_restore_checkpoint(
    a: &mut Allocator,
    starts: &[u32],
    ends: &[u32],
    firsts: &[u32],
    rests: &[u32],
    k: &Checkpoint,
) -> CAnswer
    ensures { given result a.new no_lists
        ≡ crossed done_c (restore_plain k.now a.old (slots_in starts.now ends.now firsts.now rests.now)) }
{
    let atoms = AtomSlots { starts, ends };
    let pairs = PairSlots { firsts, rests };
    restores::restore_checkpoint(a, atoms, pairs, k).into()
}

pub fn clvm_restore_transparent_checkpoint(
    a: &mut Allocator,
    starts: &[u32],
    ends: &[u32],
    firsts: &[u32],
    rests: &[u32],
    k: &Counts,
) -> CAnswer
    ensures { given result a.new no_lists
        ≡ crossed done_c (restore_transparent k.now a.old
        (slots_in starts.now ends.now firsts.now rests.now)) }
{
    let atoms = AtomSlots { starts, ends };
    let pairs = PairSlots { firsts, rests };
    restores::restore_transparent_checkpoint(a, atoms, pairs, k).into()
}

pub fn clvm_maybe_restore_with_node(
    a: &mut Allocator,
    bytes: &mut [u8],
    starts: &mut [u32],
    ends: &mut [u32],
    firsts: &[u32],
    rests: &[u32],
    k: &Counts,
    n: u32,
) -> CRestored
    ensures { given result a.new (store_in bytes.new starts.new ends.new)
        ≡ crossed restored_c (maybe_restore k.now n a.old (store_in bytes.old starts.old ends.old)
        (pair_store_in firsts.now rests.now)) }
{
    let pairs = PairSlots { firsts, rests };
    let mut store = AtomStore {
        bytes,
        starts,
        ends,
    };
    restores::maybe_restore_with_node(a, &mut store, pairs, k, n).into()
}
