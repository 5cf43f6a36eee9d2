// Program files written from the slots.
ghost use Rattle.std.specs.Prelude.{◌≡◌};
ghost use Rattle.rules.specs.Said.{no_lists};
ghost use Rattle.rules.specs.Lent.{lists_in};
ghost use Rattle.rules.specs.Save.{save as save_rule};
ghost use Rattle.clvm_allocator.specs.Answers.{given, written_c};

use super::answers::CNumber;
use rules::{Allocator, AtomSlots, PairSlots, Slices};

pub fn clvm_save(
    a: &Allocator,
    bytes: &[u8],
    starts: &[u32],
    ends: &[u32],
    firsts: &[u32],
    rests: &[u32],
    n: u32,
    file: &mut [u8],
) -> CNumber
    ensures { given result file.new no_lists
        ≡ written_c (save_rule a.now
        (lists_in bytes.now starts.now ends.now firsts.now rests.now) n file.old) }
{
    let slices = Slices {
        bytes,
        atoms: AtomSlots { starts, ends },
        pairs: PairSlots { firsts, rests },
    };
    save::save(a, slices, n, file).into()
}
