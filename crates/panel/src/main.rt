// Shows program files: the length, the root, the counts that a run starts from, and an outline of the tree.
//     panel [-DEPTH] [FILE..]
// -DEPTH is how many levels of the outline are shown, 8 unless it is given. With no FILE, or for `-`, standard input is read.
#![tactic(auto)]

mod depth;
mod lines;
mod page;
mod program;
mod source;

use page::Page;
use source::Failure;
use std::io::{Read, Result, Write};
use std::rt::Files;

// Where a run reads and writes, and what the arguments so far have come to: the depth, and whether one of them was a file.
#[derive(Drop)]
struct Panel<'a, R, I, W, E> {
    rt: &'a R,
    input: Option<I>,
    to: Page<W>,
    err: E,
    depth: usize,
    shown: bool,
}

impl<R: Files, I: Read + Drop, W: Write, E: Write> Panel<'_, R, I, W, E> {
    // One argument: a depth, or a file to show.
    fn argument(&mut self, arg: &[u8]) -> Result<()> {
        if let Some(depth) = depth::in_argument(arg) {
            self.depth = depth;
            return Ok(());
        }
        self.shown = true;
        self.show(arg)
    }

    // Shows the file of a name, and writes out what waits.
    fn show(&mut self, name: &[u8]) -> Result<()> {
        let mut file = [0; source::ROOM];
        self.to.write_all(b"file ")?;
        self.to.write_all(name)?;
        writeln!(self.to)?;
        match source::fetch(self.rt, &mut self.input, name, &mut file) {
            Ok(bytes) => program::show(&mut self.to, bytes, self.depth)?,
            Err(failure) => return self.give_up(name, failure),
        }
        self.to.flush()
    }

    // Writes out what waits, with a word on why a file is not shown, and to standard error the file's name and the system's reason.
    fn give_up(&mut self, name: &[u8], failure: Failure) -> Result<()> {
        writeln!(self.to, "{failure}")?;
        self.to.flush()?;
        let Some(reason) = failure.reason() else {
            return Ok(());
        };
        self.err.write_all(name)?;
        writeln!(self.err, ": {reason}")
    }
}

// All arguments, and standard input where none of them is a file.
fn main(rt: HostRuntime) -> Result<()> {
    let mut panel = Panel {
        rt: &rt,
        input: Some(rt.reader()),
        to: Page::new(rt.stdout()),
        err: rt.stderr(),
        depth: 8,
        shown: false,
    };
    given::each_argument(&rt, |arg| panel.argument(arg))?;
    if panel.shown {
        return Ok(());
    }
    panel.show(b"-")
}
