// Several atoms joined.
ghost use Rattle.std.specs.Prelude.{◌≡◌};
ghost use Rattle.rules.specs.Lent.{store_in};
ghost use Rattle.rules.specs.Creates.{new_concat};
ghost use Rattle.clvm_allocator.specs.Answers.{given, crossed, answer_c};

use super::answers::CAnswer;
use rules::{Allocator, AtomStore};

pub fn clvm_new_concat(
    a: &mut Allocator,
    bytes: &mut [u8],
    starts: &mut [u32],
    ends: &mut [u32],
    new_size: usize,
    nodes: &[u32],
) -> CAnswer
    ensures { given result a.new (store_in bytes.new starts.new ends.new)
        ≡ crossed answer_c (new_concat a.old new_size nodes.now (store_in bytes.old starts.old ends.old)) }
{
    let mut store = AtomStore {
        bytes,
        starts,
        ends,
    };
    concat::new_concat(a, &mut store, new_size, nodes).into()
}
