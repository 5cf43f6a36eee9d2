// Saving a node as a program file: measured whole first, so that a refused write changes no byte (document 02, W1).
#![tactic(auto, unfolding(rules::specs::Said::need))]

mod atom;

ghost use Rattle.std.specs.Prelude.{◌≡◌, true, ◌+◌, ◌-◌, ◌≤◌, leb, length};
ghost use Rattle.rules.specs.Node.{nil};
ghost use Rattle.rules.specs.Said.{says, says_of, need as need_said};
ghost use Rattle.rules.specs.State.{lists_sound, over};
ghost use Rattle.rules.specs.Lent.{lists_of};
ghost use Rattle.rules.specs.Save.{form_of, save as save_rule};
ghost use Rattle.rules.proofs.Sound.{SlicesLent};
ghost use Rattle.rules.specs.Paper.{said_in};
ghost use Rattle.save.specs.Saves.{saving, formed, Accepted};

use rules::{Allocator, Code, NIL, NodeVisitor, Refusal, Slices, need};
use state::sound;

// A length, where there is room for it.
fn fitted(len: usize, room: usize) -> Result<usize, Refusal>
    ensures { said_in result ≡ need_said (leb len room) 19 nil (says len) }
{
    need(len <= room, Code::NoSpace, NIL)?;
    Ok(len)
}

// How many bytes a node's shortest form takes, with so many levels and so much room left; or the first fault in file order.
fn measure(
    a: &Allocator,
    lists: &Slices,
    levels: usize,
    room: usize,
    n: u32,
) -> Result<usize, Refusal>
    requires sound { lists_sound a.now (lists_of lists.now) ≡ true }
    requires lent { SlicesLent a.now lists.now }
    ensures { said_in result ≡ says_of length (form_of a.now (lists_of lists.now) levels room n) }
{
    need(levels != 0, Code::TooDeep, NIL)?;
    match reads::node(a, lists.atoms, lists.pairs, n)? {
        NodeVisitor::Buffer(start, end) => fitted(atom::form_len(&lists.bytes[start..end]), room),
        NodeVisitor::U32(v) => fitted(atom::small_len(v), room),
        NodeVisitor::Pair(first, rest) => {
            need(room != 0, Code::NoSpace, NIL)?;
            let left = room - 1;
            let one = measure(a, lists, levels - 1, left, first)?;
            let other = measure(a, lists, levels - 1, left - one, rest)?;
            Ok(1 + one + other)
        }
    }
}

// Writes a node's shortest form at a place, and says where the next begins. What was measured is not tested again: the room is there.
fn put(a: &Allocator, lists: &Slices, levels: usize, n: u32, file: &mut [u8], at: usize) -> usize
    requires sound { lists_sound a.now (lists_of lists.now) ≡ true }
    requires lent { SlicesLent a.now lists.now }
    requires fits { (at ≤ length file.old)
        × Accepted (form_of a.now (lists_of lists.now) levels (length file.old - at) n) }
    ensures written { file.new
        ≡ over file.old at (formed (form_of a.now (lists_of lists.now) levels (length file.old - at) n)) }
    ensures end { result ≡ at + length (formed (form_of a.now (lists_of lists.now) levels (length file.old - at) n)) }
{
    match reads::node(a, lists.atoms, lists.pairs, n) {
        Ok(NodeVisitor::Buffer(start, end)) => atom::put_form(&lists.bytes[start..end], file, at),
        Ok(NodeVisitor::U32(v)) => atom::put_small(v, file, at),
        Ok(NodeVisitor::Pair(first, rest)) => {
            let less = levels - 1;
            file[at] = prefix::PAIR;
            let mid = put(a, lists, less, first, file, at + 1);
            put(a, lists, less, rest, file, mid)
        }
        // Never the case: the measuring pass met every node that is written.
        Err(_) => at,
    }
}

// Writes a node as a program file, and answers how many bytes that took.
#[tactic(auto, unfolding(rules::specs::Said::need, rules::specs::Save::save))]
pub fn save(a: &Allocator, lists: Slices, n: u32, file: &mut [u8]) -> Result<usize, Refusal>
    ensures { saving result file.new ≡ save_rule a.now (lists_of lists.entry) n file.old }
{
    need(
        sound::lists_sound(
            a,
            lists.bytes.len(),
            lists.atoms.starts.len(),
            lists.atoms.ends.len(),
            lists.pairs.firsts.len(),
            lists.pairs.rests.len(),
        ),
        Code::Unsound,
        NIL,
    )?;
    measure(a, &lists, prefix::LEVELS, file.len(), n)?;
    Ok(put(a, &lists, prefix::LEVELS, n, file, 0))
}
