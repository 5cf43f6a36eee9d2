// Bytes in hexadecimal, two digits a byte.
use std::io::{Result, Write};

const DIGITS: [u8; 16] = *b"0123456789abcdef";

// Writes the bytes' digits, those of some bytes at a time: a write for each byte would cost more than the digits.
pub(crate) fn print<W: Write>(to: &mut W, bytes: &[u8]) -> Result<()> {
    for part in bytes.chunks(64) {
        let mut digits = [[0u8; 2]; 64];
        for (two, b) in digits.iter_mut().zip(part) {
            *two = [DIGITS[(b >> 4) as usize], DIGITS[(b & 15) as usize]];
        }
        let n = part.len().min(64);
        to.write_all(digits[..n].as_flattened())?;
    }
    Ok(())
}
