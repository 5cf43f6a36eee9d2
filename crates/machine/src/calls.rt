// What a request calls: a creating call, a ghost call or a restore, on the record and the lists that it is lent.
ghost use Rattle.std.specs.Prelude.{◌≡◌, length};
ghost use Rattle.rules.specs.Lent.{store_lent, lists_lent, pair_store_of, SameStore};
ghost use Rattle.rules.specs.State.{together};
ghost use Rattle.rules.specs.Paper.{said_by, option_paper, maybe_paper, made};
ghost use Rattle.rules.specs.Creates.{new_concat};
ghost use Rattle.rules.specs.Whole.{whole, call, restore_to};
ghost use Rattle.request.specs.Bytes.{u32s};
ghost use Rattle.request.specs.Request.{making_in, way_of};
ghost use Rattle.machine.specs.Machine.{state_in, SameStores};

use creates::{atom, ghosts, pair, substr};
use request::nodes::Nodes;
use request::{Making, Way, fields};
use rules::{Allocator, AtomStore, Checkpoint, MaybeRestore, PairSlots, Refusal, Stores};

// Room for the nodes of the longest payload.
fn node_buffer() -> [u32; 16384]
    ensures { 16384 ≡ length result }
{
    [0; 16384]
}

// A new atom of the bytes of a concat's nodes, which are read from the payload first.
fn new_concat(
    a: &mut Allocator,
    store: &mut AtomStore,
    size: usize,
    nodes: Nodes,
) -> Result<u32, Refusal>
    ensures value { made result a.new (store_lent store.new)
        ≡ new_concat a.old size (u32s nodes.entry.bytes.now) (store_lent store.old) }
    ensures same { SameStore store.old store.new }
{
    let mut numbers = node_buffer();
    let n = fields::put_u32s(&mut numbers, nodes.bytes);
    concat::new_concat(a, store, size, &numbers[..n])
}

// The node that a creating call makes; a ghost call makes none.
pub fn make(a: &mut Allocator, stores: &mut Stores, making: Making) -> Result<Option<u32>, Refusal>
    ensures value { whole (said_by option_paper result) a.new (lists_lent stores.new)
        ≡ call (making_in making.entry)
        (state_in a.old (lists_lent stores.old)) }
    ensures same { SameStores stores.old stores.new }
{
    let node = match making {
        Making::Atom(v) => atom::new_atom(a, &mut stores.atoms, v)?,
        Making::SmallNumber(v) => atom::new_small_number(a, v)?,
        Making::Pair(first, rest) => pair::new_pair(a, &mut stores.pairs, first, rest)?,
        Making::Substr(n, start, end) => {
            substr::new_substr(a, &mut stores.atoms, n, start, end)?
        }
        Making::Concat(size, nodes) => new_concat(a, &mut stores.atoms, size, nodes)?,
        Making::AddGhostPair(n) => return ghosts::add_ghost_pair(a, n).map(|_| None),
        Making::RemoveGhostPair(n) => return ghosts::remove_ghost_pair(a, n).map(|_| None),
        Making::AddGhostAtom(n) => return ghosts::add_ghost_atom(a, n).map(|_| None),
    };
    Ok(Some(node))
}

// A plain or transparent restore has no node to replace. The used counts of a checkpoint are the transparent one.
pub fn go_back(
    a: &mut Allocator,
    store: &mut AtomStore,
    pairs: PairSlots,
    way: Way,
    k: &Checkpoint,
) -> Result<MaybeRestore, Refusal>
    ensures value { whole (said_by maybe_paper result) a.new (together (store_lent store.new) (pair_store_of pairs.entry))
        ≡ restore_to (way_of way) k.now (state_in a.old (together (store_lent store.old) (pair_store_of pairs.entry))) }
    ensures same { SameStore store.old store.new }
{
    match way {
        Way::Plainly => {
            restores::restore_checkpoint(a, store.slots(), pairs, k)?;
            Ok(MaybeRestore::NoReplace)
        }
        Way::Transparently => {
            restores::restore_transparent_checkpoint(a, store.slots(), pairs, &k.used)?;
            Ok(MaybeRestore::NoReplace)
        }
        Way::WithNode(n) => { restores::maybe_restore_with_node(a, store, pairs, &k.used, n) }
    }
}
