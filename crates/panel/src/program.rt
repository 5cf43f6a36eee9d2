// A program file that was read: its length, its root, what was counted, and its outline.
use super::lines;
use outline::Tree;
use rules::{AtomSlots, Fault, Loaded, PairSlots, Slices};
use std::io::{Result, Write};

// Writes a file's length, and what a load of it into a fresh allocator leaves: the root, the counts, the outline; or the refusal and the
// counts, which are those from before.
// The stores are as large as the longest file can need, so that 15 never arises. Atoms hold no more bytes than the file has. Each pair is
// a byte, each atom one at least, and there is one atom more than pairs: n bytes hold at most (n + 1) / 2 atoms and fewer pairs.
pub fn show<W: Write>(to: &mut W, f: &[u8], depth: usize) -> Result<()> {
    let mut bytes = [0u8; 131072];
    let mut starts = [0u32; 65536];
    let mut ends = [0u32; 65536];
    let mut firsts = [0u32; 65536];
    let mut rests = [0u32; 65536];
    writeln!(to, "bytes {}", f.len())?;
    let mut a = state::record::fresh(state::record::TOP);
    let root = load::load(
        &mut a,
        &mut bytes,
        &mut starts,
        &mut ends,
        &mut firsts,
        &mut rests,
        f,
    );
    match root {
        Ok(Loaded { node, .. }) => {
            writeln!(to, "root {node}")?;
            lines::counts(to, &a)?;
            let atoms = AtomSlots {
                starts: &starts,
                ends: &ends,
            };
            let pairs = PairSlots {
                firsts: &firsts,
                rests: &rests,
            };
            let lists = Slices {
                bytes: &bytes,
                atoms,
                pairs,
            };
            let tree = Tree { a: &a, lists };
            tree.outline(to, node, depth)
        }
        Err(Fault { refusal, at }) => {
            lines::refusal(to, refusal.code, at)?;
            lines::counts(to, &a)
        }
    }
}
