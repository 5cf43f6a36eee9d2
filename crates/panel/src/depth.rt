// The argument that sets the outline's depth: `-` and decimal digits.
use outline::DEEPEST;
use std::str;

// The depth that an argument asks for; None where it is a file's name. A number that fits no usize is deeper than any outline.
pub fn in_argument(arg: &[u8]) -> Option<usize> {
    let digits = str::from_utf8(arg).ok()?.strip_prefix('-')?;
    if digits.is_empty() || !digits.bytes().all(|b| b.is_ascii_digit()) {
        return None;
    }
    Some(digits.parse().unwrap_or(DEEPEST))
}
