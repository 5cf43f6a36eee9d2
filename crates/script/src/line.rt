// A line: what it is, with its numbers.
use super::call::Call;
use super::kind::CALLS;
use super::part::Part;
use super::words::{Unread, Words};
use super::{BYTES, SLOTS};
use std::alloc::Global;

// The record's numbers, in the order of the C header.
pub type Record = [u64; 7];

// How much of each list is lent: bytes, starts, ends, firsts, rests, file.
pub type Lengths = [usize; 6];

// A call's code, its node and its values: those that it has not are nought.
#[derive(Clone, Copy, PartialEq, Eq)]
pub struct Answer {
    pub code: u64,
    pub node: u64,
    pub values: [u64; 6],
}

// A call, and what must come of it: the record only where it changes.
#[derive(Drop)]
pub struct Asked<'a> {
    // Which of `CALLS` it is, and how many values its answer has.
    pub row: usize,
    pub values: usize,
    pub call: Call<'a>,
    pub answer: Answer,
    pub record: Option<Record>,
}

#[derive(Drop)]
pub enum Line<'a> {
    Comment,
    Case,
    Lent(Lengths),
    Record(Record),
    Put(Part<'a>),
    Now(Part<'a>),
    Call(Asked<'a>),
}

// What stands behind the name of a line that is text.
pub fn text_of<'a>(line: &'a [u8], name: &[u8]) -> Option<&'a [u8]> {
    match line.strip_prefix(name)? {
        [] => Some(&[]),
        [b' ', text @ ..] => Some(text),
        _ => None,
    }
}

// The first number behind a line's name of one or two words.
pub fn first_number(text: &[u8]) -> Option<u64> {
    let text = str::from_utf8(text).ok()?;
    let (call, _) = text.split_once(" = ").unwrap_or((text, ""));
    let mut words = Words::new(call);
    words.word().ok()?;
    match words.number() {
        Ok(first) => Some(first),
        Err(_) => words.number().ok(),
    }
}

impl<'a> Line<'a> {
    // The line that a text is, behind lines of which the last that has a number begins with that: whether it may stand there is not asked.
    pub fn read(alloc: Global, text: &'a [u8], above: u64) -> Result<Line<'a>, Unread> {
        if text_of(text, b"#").is_some() {
            return Ok(Line::Comment);
        }
        if text_of(text, b"case").is_some() {
            return Ok(Line::Case);
        }
        let Ok(text) = str::from_utf8(text) else {
            return Err(Unread::NotUnderstood);
        };
        let mut words = Words::new(text);
        match words.word()? {
            "lent" => Ok(Line::Lent(lengths(&mut words)?)),
            "record" => Ok(Line::Record(words.only()?)),
            "put" => Ok(Line::Put(Part::read(&mut words)?)),
            "now" => Ok(Line::Now(Part::read(&mut words)?)),
            _ => Ok(Line::Call(Asked::read(alloc, text, above)?)),
        }
    }
}

fn lengths(words: &mut Words<'_>) -> Result<Lengths, Unread> {
    let lengths = [
        words.count(BYTES)?,
        words.count(SLOTS)?,
        words.count(SLOTS)?,
        words.count(SLOTS)?,
        words.count(SLOTS)?,
        words.count(BYTES)?,
    ];
    words.end()?;
    Ok(lengths)
}

impl<'a> Asked<'a> {
    fn read(alloc: Global, text: &'a str, above: u64) -> Result<Asked<'a>, Unread> {
        let (call, answer) = text.split_once(" = ").ok_or(Unread::NotUnderstood)?;
        let mut words = Words::new(call);
        let name = words.word()?;
        let row = CALLS
            .iter()
            .position(|row| row.1 == name)
            .ok_or(Unread::NotUnderstood)?;
        let (kind, _, values) = CALLS[row];
        let call = Call::read(alloc, kind, &mut words, above)?;
        words.end()?;
        let (answer, record) = match answer.split_once(" | ") {
            Some((answer, record)) => (answer, Some(Words::new(record).only()?)),
            None => (answer, None),
        };
        Ok(Asked {
            row,
            values,
            call,
            answer: Answer::read(Words::new(answer), values)?,
            record,
        })
    }
}

impl Answer {
    fn read(mut words: Words<'_>, shown: usize) -> Result<Answer, Unread> {
        let code = words.number()?;
        let node = words.number()?;
        let mut values = [0; 6];
        for value in values.iter_mut().take(shown) {
            *value = words.number()?;
        }
        words.end()?;
        Ok(Answer { code, node, values })
    }
}
