// Replays the traces that its arguments name, one after the other: the name, and then what `replay` prints of the file.
// ../make.py writes the files in data, the arguments and what is to be printed, which it reckons by a model in Python.
#![tactic(auto)]

use std::io::{Result, Write};
use std::rt::Files;

// One trace, and a word where there is no such file.
fn show<R: Files, W: Write>(rt: &R, to: &mut W, name: &[u8]) -> Result<()> {
    to.write_all(b"trace ")?;
    to.write_all(name)?;
    writeln!(to)?;
    let Ok(mut from) = given::open(rt, name) else {
        return writeln!(to, "cannot be opened");
    };
    trace::program::replay(&mut from, to)
}

fn main(rt: HostRuntime) -> Result<()> {
    let mut to = rt.stdout();
    given::each_argument(&rt, |name| show(&rt, &mut to, name))
}
