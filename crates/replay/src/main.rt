// Reads records from standard input and prints their rows (document 01, "The request program").
#![tactic(auto)]

use std::io::Result;

fn main(rt: HostRuntime) -> Result<()> {
    trace::program::replay(&mut rt.stdin(), &mut rt.stdout())
}
