// How often each call answered each code.
use script::kind::CALLS;
use std::alloc::{AllocError, Global};
use std::io;
use std::io::Write;

// The codes are below this number.
const CODES: usize = 20;

#[derive(Drop)]
pub struct Tally {
    calls: Vec<[u64; CODES]>,
}

impl Tally {
    pub fn new(alloc: Global) -> Result<Tally, AllocError> {
        Ok(Tally {
            calls: vec![in alloc; [0; CODES]; CALLS.len()]?,
        })
    }

    // One more answer. A code that there is not is counted as the last.
    pub fn count(&mut self, row: usize, code: u64) {
        if let Some(codes) = self.calls.get_mut(row) {
            let code = (code as usize).min(CODES - 1);
            codes[code] = codes[code].saturating_add(1);
        }
    }

    // A line for each call that was made, and how many answers there were.
    pub fn print<W: Write>(&self, out: &mut W) -> io::Result<()> {
        let mut all: u64 = 0;
        for ((_, name, _), codes) in CALLS.iter().zip(&self.calls) {
            let made = print_codes(out, name, codes)?;
            all = all.saturating_add(made);
        }
        writeln!(out, "{all} answers compared")
    }
}

// Each code that a call answered, and how often; nothing where it was not made. How often it was made.
fn print_codes<W: Write>(out: &mut W, name: &str, codes: &[u64; CODES]) -> io::Result<u64> {
    let mut made: u64 = 0;
    for (code, n) in codes.iter().enumerate() {
        if *n == 0 {
            continue;
        }
        if made == 0 {
            write!(out, "{name}: {code} ({n})")?;
        } else {
            write!(out, ", {code} ({n})")?;
        }
        made = made.saturating_add(*n);
    }
    if made > 0 {
        writeln!(out)?;
    }
    Ok(made)
}
