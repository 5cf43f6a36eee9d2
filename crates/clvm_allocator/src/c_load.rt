// Program files read into the slots.
ghost use Rattle.std.specs.Prelude.{◌≡◌};
ghost use Rattle.rules.specs.Lent.{lists_in};
ghost use Rattle.rules.specs.Load.{load as load_rule};
ghost use Rattle.clvm_allocator.specs.Answers.{given, read_c};

use super::answers::CLoaded;
use rules::Allocator;

pub fn clvm_load(
    a: &mut Allocator,
    bytes: &mut [u8],
    starts: &mut [u32],
    ends: &mut [u32],
    firsts: &mut [u32],
    rests: &mut [u32],
    file: &[u8],
) -> CLoaded
    ensures { given result a.new (lists_in bytes.new starts.new ends.new firsts.new rests.new)
        ≡ read_c (load_rule file.now a.old
        (lists_in bytes.old starts.old ends.old firsts.old rests.old)) }
{
    load::load(a, bytes, starts, ends, firsts, rests, file).into()
}
