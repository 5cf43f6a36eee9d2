// Program files written from the slots, for C.
ghost use Rattle.std.specs.Prelude.{◌≡◌};
ghost use Rattle.rules.specs.Said.{no_lists};
ghost use Rattle.rules.specs.Lent.{lists_in};
ghost use Rattle.rules.specs.Save.{save as save_rule};
ghost use Rattle.clvm_allocator.specs.Answers.{given, written_c};

use clvm_allocator::answers::CNumber;
use rules::Allocator;

#[unsafe(no_mangle)]
pub extern "C" fn clvm_save(
    a: &Allocator,
    bytes: &[u8],
    starts: &[u32],
    ends: &[u32],
    firsts: &[u32],
    rests: &[u32],
    n: u32,
    file: &mut [u8],
) -> CNumber
    ensures { given result file.new no_lists
        ≡ written_c (save_rule a.now
        (lists_in bytes.now starts.now ends.now firsts.now rests.now) n file.old) }
{
    clvm_allocator::c_save::clvm_save(a, bytes, starts, ends, firsts, rests, n, file)
}
