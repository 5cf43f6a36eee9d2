// The outline of a tree: a line a node, two spaces further in at each level, down to a depth.
#![tactic(auto)]

mod hex;

ghost use Rattle.std.specs.Prelude.{◌+◌, ◌≤◌};

use reads::part;
use rules::{Allocator, NodeVisitor, Slices};
use std::io::{Result, Write};

// No outline goes deeper, for each level takes some of the stack; a file that is read has no more levels.
pub const DEEPEST: usize = 4096;

// What a tree lies in: the record and the lent slices.
#[derive(Clone, Copy)]
pub struct Tree<'a> {
    pub a: &'a Allocator,
    pub lists: Slices<'a>,
}

impl Tree<'_> {
    // Writes the outline of a node, itself at level 1, down to a depth; 0 shows nothing.
    pub fn outline<W: Write>(&self, to: &mut W, root: u32, depth: usize) -> Result<()> {
        self.subtree(to, root, 0, depth.min(DEEPEST))
    }

    // The lines of a node and of what is below it, with so many levels left.
    fn subtree<W: Write>(&self, to: &mut W, n: u32, level: usize, left: usize) -> Result<()>
        requires { level + left ≤ 4096 }
    {
        if left == 0 {
            return Ok(());
        }
        let lists = self.lists;
        write!(to, "{:1$}", "", 2 * level)?;
        match reads::node(self.a, lists.atoms, lists.pairs, n) {
            Ok(NodeVisitor::Pair(first, rest)) => {
                writeln!(to, "pair {n}{}", if left == 1 { " .." } else { "" })?;
                self.subtree(to, first, level + 1, left - 1)?;
                self.subtree(to, rest, level + 1, left - 1)
            }
            Ok(NodeVisitor::Buffer(_, _)) => self.atom(to, "bytes", n),
            Ok(NodeVisitor::U32(_)) => self.atom(to, "small", n),
            Err(_) => writeln!(to, "refused {n}"),
        }
    }

    // The rest of an atom's line: its kind, its number and its bytes; an empty atom has none.
    fn atom<W: Write>(&self, to: &mut W, kind: &str, n: u32) -> Result<()> {
        let mut scratch = [0u8; 4];
        let Slices { bytes, atoms, .. } = self.lists;
        let _ = part::fill(self.a, bytes, atoms, &mut scratch, n);
        let part = part::atom(self.a, bytes, atoms, &scratch, n);
        if part.is_empty() {
            return writeln!(to, "{kind} {n}");
        }
        write!(to, "{kind} {n} ")?;
        hex::print(to, part)?;
        writeln!(to)
    }
}
