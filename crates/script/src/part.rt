// What a line lays down: bytes by a pattern, slots by steps.
ghost use Rattle.std.specs.Prelude.{◌<◌, IfSome};

use super::words::{Unread, Words};
use super::{BYTES, SLOTS};
use std::alloc::AllocError;

// What can be laid into a list of such entries.
pub trait Laid<T> {
    // How many entries it has.
    fn len(&self) -> usize;

    // Lays down as many of them as there is room for.
    fn lay(&self, to: &mut [T]);
}

// So many bytes, whose hexadecimal digits are those of a pattern that is repeated from its start.
#[derive(Clone, Copy)]
pub struct Pattern<'a> {
    len: usize,
    digits: &'a [u8],
}

// The value of a hexadecimal digit.
fn digit(b: u8) -> Option<u8>
    ensures { IfSome result (λ d. d < 16) }
{
    match b {
        b'0'..=b'9' => Some(b - b'0'),
        b'a'..=b'f' => Some(b - b'a' + 10),
        _ => None,
    }
}

fn byte(high: u8, low: u8) -> u8 {
    let high = digit(high).unwrap_or(0);
    let low = digit(low).unwrap_or(0);
    (high << 4) | low
}

impl<'a> Pattern<'a> {
    // Two words: how many bytes, and the pattern; that of no bytes is `-`.
    pub fn read(words: &mut Words<'a>) -> Result<Pattern<'a>, Unread> {
        let len = words.count(BYTES)?;
        let digits = words.word()?.as_bytes();
        let is_pattern = if len == 0 {
            digits == b"-".as_slice()
        } else {
            !digits.is_empty()
                && digits.len() % 2 == 0
                && digits.iter().all(|b| digit(*b).is_some())
        };
        if is_pattern {
            Ok(Pattern { len, digits })
        } else {
            Err(Unread::NotUnderstood)
        }
    }

    // Lays the bytes themselves into a buffer, in the place of what it held.
    pub fn put_into(&self, bytes: &mut Vec<u8>) -> Result<(), AllocError> {
        bytes.resize(self.len, 0)?;
        self.lay(bytes);
        Ok(())
    }
}

impl Laid<u8> for Pattern<'_> {
    fn len(&self) -> usize {
        self.len
    }

    fn lay(&self, to: &mut [u8]) {
        let (pairs, _) = self.digits.as_chunks::<2>();
        if let [[high, low]] = pairs {
            let only = byte(*high, *low);
            for slot in to.iter_mut() {
                *slot = only;
            }
            return;
        }
        for (slot, [high, low]) in to.iter_mut().zip(pairs.iter().cycle()) {
            *slot = byte(*high, *low);
        }
    }
}

// So many slots: each is a step above the one before, modulo 2^32.
#[derive(Clone, Copy)]
pub struct Steps {
    len: usize,
    first: u32,
    by: u32,
}

impl Steps {
    fn read(words: &mut Words<'_>, len: usize) -> Result<Steps, Unread> {
        Ok(Steps {
            len,
            first: words.narrow()?,
            by: words.narrow()?,
        })
    }
}

impl Laid<u32> for Steps {
    fn len(&self) -> usize {
        self.len
    }

    fn lay(&self, to: &mut [u32]) {
        let Steps { by, .. } = *self;
        let mut next = self.first;
        for slot in to.iter_mut() {
            *slot = next;
            next = next.wrapping_add(by);
        }
    }
}

// What `put` and `now` lay into the lists, and from which index on.
#[derive(Clone, Copy)]
pub enum Part<'a> {
    Bytes(usize, Pattern<'a>),
    File(usize, Pattern<'a>),
    Atoms(usize, Steps, Steps),
    Pairs(usize, Steps, Steps),
}

impl<'a> Part<'a> {
    // What stands behind `put` or `now`.
    pub fn read(words: &mut Words<'a>) -> Result<Part<'a>, Unread> {
        let list = words.word()?;
        let at = words.count(BYTES)?;
        let part = match list {
            "bytes" => Part::Bytes(at, Pattern::read(words)?),
            "file" => Part::File(at, Pattern::read(words)?),
            "atoms" => {
                let n = words.count(SLOTS)?;
                Part::Atoms(at, Steps::read(words, n)?, Steps::read(words, n)?)
            }
            "pairs" => {
                let n = words.count(SLOTS)?;
                Part::Pairs(at, Steps::read(words, n)?, Steps::read(words, n)?)
            }
            _ => return Err(Unread::NotUnderstood),
        };
        words.end()?;
        Ok(part)
    }
}
