// Program files read into the slots, for C.
ghost use Rattle.std.specs.Prelude.{◌≡◌};
ghost use Rattle.rules.specs.Lent.{lists_in};
ghost use Rattle.rules.specs.Load.{load as load_rule};
ghost use Rattle.clvm_allocator.specs.Answers.{given, read_c};

use clvm_allocator::answers::CLoaded;
use rules::Allocator;

#[unsafe(no_mangle)]
pub extern "C" fn clvm_load(
    a: &mut Allocator,
    bytes: &mut [u8],
    starts: &mut [u32],
    ends: &mut [u32],
    firsts: &mut [u32],
    rests: &mut [u32],
    file: &[u8],
) -> CLoaded
    ensures { given result a.new (lists_in bytes.new starts.new ends.new firsts.new rests.new)
        ≡ read_c (load_rule file.now a.old
        (lists_in bytes.old starts.old ends.old firsts.old rests.old)) }
{
    clvm_allocator::c_load::clvm_load(a, bytes, starts, ends, firsts, rests, file)
}
