// The lines of the panel before the outline: the table of counts, and refusals.
use rules::{Allocator, Code, Refusal};
use std::io;
use std::io::Write;

// A row of the table: what lies in the slots, what is counted beside it, and what consensus counts in all. A record that a load leaves is sound,
// and none of its counts is refused.
fn row<W: Write>(
    to: &mut W,
    name: &str,
    used: Result<usize, Refusal>,
    ghosts: usize,
    total: Result<usize, Refusal>,
) -> io::Result<()> {
    writeln!(
        to,
        "{name} {} {ghosts} {}",
        used.unwrap_or(0),
        total.unwrap_or(0)
    )
}

// The table of a record's counts.
pub fn counts<W: Write>(to: &mut W, a: &Allocator) -> io::Result<()> {
    let ghosts = a.ghosts;
    writeln!(to, "count used ghost total")?;
    row(
        to,
        "atoms",
        state::allocated_atom_count(a),
        ghosts.atoms,
        state::atom_count(a),
    )?;
    row(
        to,
        "pairs",
        state::allocated_pair_count(a),
        ghosts.pairs,
        state::pair_count(a),
    )?;
    row(
        to,
        "heap",
        state::allocated_heap_size(a),
        ghosts.bytes,
        state::heap_size(a),
    )
}

// A few words on a code that a load can give.
fn words(code: Code) -> &'static str {
    match code {
        Code::OutOfMemory => "out of memory",
        Code::TooManyAtoms => "too many atoms",
        Code::TooManyPairs => "too many pairs",
        Code::Full => "no slot left",
        Code::BadEncoding => "bad encoding",
        Code::TooDeep => "too deep",
        _ => "not loaded",
    }
}

// Why a file was not loaded, and the place of the item at fault.
pub fn refusal<W: Write>(to: &mut W, code: Code, at: usize) -> io::Result<()> {
    writeln!(to, "refused {} at {at}: {}", u32::from(code), words(code))
}
