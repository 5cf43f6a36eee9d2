// The words of a line: between two stands one space.
use std::alloc::AllocFailed;
use std::num::{ParseIntError, TryFromIntError};

// Why a line is not read.
#[derive(Clone, Copy)]
pub enum Unread {
    // It is none of those in FORMAT.md, or stands where it may not.
    NotUnderstood,
    OutOfMemory,
}

impl From<ParseIntError> for Unread {
    fn from(_e: ParseIntError) -> Unread {
        Unread::NotUnderstood
    }
}

impl From<TryFromIntError> for Unread {
    fn from(_e: TryFromIntError) -> Unread {
        Unread::NotUnderstood
    }
}

impl<T: Drop> From<AllocFailed<T>> for Unread {
    fn from(_e: AllocFailed<T>) -> Unread {
        Unread::OutOfMemory
    }
}

// A decimal number below 2^64. Digits alone are one: `parse` would take a sign before them.
pub fn number(word: &str) -> Result<u64, Unread> {
    if !word.bytes().all(|b| b.is_ascii_digit()) {
        return Err(Unread::NotUnderstood);
    }
    Ok(word.parse::<u64>()?)
}

// The words that are left.
#[derive(Drop)]
pub struct Words<'a> {
    rest: Option<&'a str>,
}

impl<'a> Words<'a> {
    pub fn new(text: &'a str) -> Words<'a> {
        Words { rest: Some(text) }
    }

    pub fn word(&mut self) -> Result<&'a str, Unread> {
        let rest = self.rest.ok_or(Unread::NotUnderstood)?;
        match rest.split_once(' ') {
            Some((word, after)) => {
                self.rest = Some(after);
                Ok(word)
            }
            None => {
                self.rest = None;
                Ok(rest)
            }
        }
    }

    pub fn number(&mut self) -> Result<u64, Unread> {
        number(self.word()?)
    }

    // A number of 32 bits: a node, a slot, or a small value.
    pub fn narrow(&mut self) -> Result<u32, Unread> {
        Ok(u32::try_from(self.number()?)?)
    }

    // A count of at most so many.
    pub fn count(&mut self, most: usize) -> Result<usize, Unread> {
        let n = self.size()?;
        if n <= most {
            Ok(n)
        } else {
            Err(Unread::NotUnderstood)
        }
    }

    pub fn size(&mut self) -> Result<usize, Unread> {
        Ok(self.number()? as usize)
    }

    pub fn numbers<const N: usize>(&mut self) -> Result<[u64; N], Unread> {
        let mut numbers = [0; N];
        for number in numbers.iter_mut() {
            *number = self.number()?;
        }
        Ok(numbers)
    }

    // So many numbers, and no word behind them.
    pub fn only<const N: usize>(&mut self) -> Result<[u64; N], Unread> {
        let numbers = self.numbers()?;
        self.end()?;
        Ok(numbers)
    }

    // No word is left.
    pub fn end(&self) -> Result<(), Unread> {
        match self.rest {
            None => Ok(()),
            Some(_) => Err(Unread::NotUnderstood),
        }
    }

    pub fn is_empty(&self) -> bool {
        self.rest.is_none()
    }
}
