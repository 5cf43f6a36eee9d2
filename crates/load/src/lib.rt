// Program files: the serialised form read into the slots through new_atom and new_pair (document 02, W1).
#![tactic(auto)]

mod token;

ghost use Rattle.std.specs.Prelude.{◌≡◌, ◌≤◌, ◌<◌, Err, length};
ghost use Rattle.rules.specs.Node.{nil};
ghost use Rattle.rules.specs.Said.{refuses};
ghost use Rattle.rules.specs.State.{Store, PairStore as Pairs, together};
ghost use Rattle.rules.specs.Lent.{lists_in, store_in, pair_store_in};
ghost use Rattle.rules.specs.Load.{reading, placed as placed_at, read_atom, read_pair, pair_item, item as item_of, at_end, levels_of, load as load_of};
ghost use Rattle.rules.specs.Paper.{code_number, said_in, loaded};
ghost use Rattle.load.specs.Readings.{Same, Always};

use rules::{Allocator, AtomStore, Code, Fault, Loaded, NIL, PairStore, Refusal};
use state::sound;
use token::Token;

// A fault of the item at a place, with a code that names no node.
fn fault(code: Code, at: usize) -> Fault
    ensures { Always (λ (a : Allocator). λ l. loaded (Err result) a l) (λ a. λ l. reading (refuses (code_number code) nil) at a l) }
{
    Fault {
        refusal: Refusal { code, node: NIL },
        at,
    }
}

// What a call made of the item at a place: the next item starts further on; a refused item is told by its own place.
fn placed(made: Result<u32, Refusal>, at: usize, next: usize) -> Result<Loaded, Fault>
    ensures { Always (λ (a : Allocator). λ l. loaded result a l)
        (λ a. λ l. reading (said_in made) (placed_at (said_in made) at next) a l) }
{
    match made {
        Ok(node) => Ok(Loaded { node, next }),
        Err(refusal) => Err(Fault { refusal, at }),
    }
}

// The atom whose bytes lie in the file from one place to another.
fn atom_item(
    f: &[u8],
    at: usize,
    from: usize,
    to: usize,
    a: &mut Allocator,
    bytes: &mut [u8],
    starts: &mut [u32],
    ends: &mut [u32],
) -> Result<Loaded, Fault>
    requires { (from ≤ to) × (to ≤ length f.now) }
    ensures { Same (λ (p : Pairs). loaded result a.new (together (store_in bytes.new starts.new ends.new) p))
        (λ p. read_atom f.now at from to a.old (together (store_in bytes.old starts.old ends.old) p)) }
{
    let mut store = AtomStore {
        bytes,
        starts,
        ends,
    };
    let made = creates::atom::new_atom(a, &mut store, &f[from..to]);
    placed(made, at, to)
}

// The pair of two nodes.
fn pair_item(
    at: usize,
    next: usize,
    first: u32,
    rest: u32,
    a: &mut Allocator,
    firsts: &mut [u32],
    rests: &mut [u32],
) -> Result<Loaded, Fault>
    ensures { Same (λ (s : Store). loaded result a.new (together s (pair_store_in firsts.new rests.new)))
        (λ s. read_pair at next first rest a.old (together s (pair_store_in firsts.old rests.old))) }
{
    let mut store = PairStore { firsts, rests };
    let made = creates::pair::new_pair(a, &mut store, first, rest);
    placed(made, at, next)
}

// The item at a place, with so many levels left.
#[cycle(item_pair)]
fn item(
    f: &[u8],
    at: usize,
    levels: usize,
    a: &mut Allocator,
    bytes: &mut [u8],
    starts: &mut [u32],
    ends: &mut [u32],
    firsts: &mut [u32],
    rests: &mut [u32],
) -> Result<Loaded, Fault>
    ensures { loaded result a.new (lists_in bytes.new starts.new ends.new firsts.new rests.new)
        ≡ item_of f.now levels at a.old (lists_in bytes.old starts.old ends.old firsts.old rests.old) }
{
    if levels == 0 {
        return Err(fault(Code::TooDeep, at));
    }
    match token::token_at(f, at) {
        None => Err(fault(Code::BadEncoding, at)),
        Some(Token::Opening) => pair(f, at, levels - 1, a, bytes, starts, ends, firsts, rests),
        Some(Token::String(from, to)) => atom_item(f, at, from, to, a, bytes, starts, ends),
    }
}

// The pair that opens at a place: first, rest, then the pair.
#[cycle(item_pair)]
fn pair(
    f: &[u8],
    at: usize,
    levels: usize,
    a: &mut Allocator,
    bytes: &mut [u8],
    starts: &mut [u32],
    ends: &mut [u32],
    firsts: &mut [u32],
    rests: &mut [u32],
) -> Result<Loaded, Fault>
    requires { at < length f.now }
    ensures { loaded result a.new (lists_in bytes.new starts.new ends.new firsts.new rests.new)
        ≡ pair_item (item_of f.now levels) at a.old (lists_in bytes.old starts.old ends.old firsts.old rests.old) }
{
    let first = item(f, at + 1, levels, a, bytes, starts, ends, firsts, rests)?;
    let rest = item(f, first.next, levels, a, bytes, starts, ends, firsts, rests)?;
    pair_item(at, rest.next, first.node, rest.node, a, firsts, rests)
}

// The whole file as one item: bytes after the root are bad encoding.
fn whole(
    a: &mut Allocator,
    bytes: &mut [u8],
    starts: &mut [u32],
    ends: &mut [u32],
    firsts: &mut [u32],
    rests: &mut [u32],
    f: &[u8],
) -> Result<Loaded, Fault>
    ensures { loaded result a.new (lists_in bytes.new starts.new ends.new firsts.new rests.new)
        ≡ at_end (length f.now) (item_of f.now levels_of 0 a.old (lists_in bytes.old starts.old ends.old firsts.old rests.old)) }
{
    let root = item(f, 0, prefix::LEVELS, a, bytes, starts, ends, firsts, rests)?;
    if root.next == f.len() {
        Ok(root)
    } else {
        Err(fault(Code::BadEncoding, root.next))
    }
}

// Reads a whole program file: its root, or the first fault in file order with its place. A refusal gives the record back as it was given.
#[tactic(auto, unfolding(rules::specs::Load::load))]
pub fn load(
    a: &mut Allocator,
    bytes: &mut [u8],
    starts: &mut [u32],
    ends: &mut [u32],
    firsts: &mut [u32],
    rests: &mut [u32],
    f: &[u8],
) -> Result<Loaded, Fault>
    ensures { loaded result a.new (lists_in bytes.new starts.new ends.new firsts.new rests.new)
        ≡ load_of f.now a.old (lists_in bytes.old starts.old ends.old firsts.old rests.old) }
{
    if !sound::lists_sound(
        a,
        bytes.len(),
        starts.len(),
        ends.len(),
        firsts.len(),
        rests.len(),
    ) {
        return Err(fault(Code::Unsound, 0));
    }
    let before = *a;
    let root = whole(a, bytes, starts, ends, firsts, rests, f);
    if root.is_err() {
        *a = before;
    }
    root
}
