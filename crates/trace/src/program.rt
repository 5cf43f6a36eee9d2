// The request program: records in, their text to standard output.
use crate::rows;
use std::io::{Read, Result, Write};

// Reads records from a reader and prints their rows, with the stores of document 01.
pub fn replay<R: Read, W: Write>(from: &mut R, to: &mut W) -> Result<()> {
    // One byte more than the longest input, so that a longer one is seen.
    let mut input = [0u8; 65537];
    let n = given::read_full(from, &mut input)?;
    let mut bytes = [0u8; 32768];
    let mut starts = [0u32; 2048];
    let mut ends = [0u32; 2048];
    let mut firsts = [0u32; 2048];
    let mut rests = [0u32; 2048];
    let mut out = [0u8; 65536];
    rows::print(
        to,
        &mut bytes,
        &mut starts,
        &mut ends,
        &mut firsts,
        &mut rests,
        &input[..n],
        &mut out,
    )?;
    Ok(())
}
