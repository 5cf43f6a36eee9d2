// Where a program file's bytes come from: a file by its name, or standard input, whose name is `-`.
ghost use Rattle.std.specs.Prelude.{◌<◌, length, IfOk};

use std::fmt;
use std::io::{Error, Read};
use std::rt::Files;

// The longest file.
const LONGEST: usize = 131072;

// One byte more than the longest file, so that a longer one is seen.
pub const ROOM: usize = LONGEST + 1;

// The system's number for a descriptor that is not open.
const CLOSED: i32 = 9;

// Why a file is not shown, with the system's reason where there is one.
#[derive(Clone, Copy)]
pub enum Failure {
    TooLong,
    NotOpened(Error),
    NotRead(Error),
}

impl Failure {
    pub fn reason(&self) -> Option<Error> {
        match self {
            Failure::TooLong => None,
            Failure::NotOpened(e) | Failure::NotRead(e) => Some(*e),
        }
    }
}

impl fmt::Display for Failure {
    fn fmt<W: fmt::Write>(&self, f: &mut fmt::Formatter<W>) -> fmt::Result {
        match self {
            Failure::TooLong => write!(f, "too long: at most {LONGEST} bytes"),
            Failure::NotOpened(_) => write!(f, "cannot be opened"),
            Failure::NotRead(_) => write!(f, "cannot be read"),
        }
    }
}

// Reads to the end of the file. One that fills the buffer is too long.
fn read_all<'b, R: Read>(from: &mut R, buf: &'b mut [u8]) -> Result<&'b [u8], Failure>
    ensures { IfOk result (λ s. length s.now < length buf.old) }
{
    let n = given::read_full(from, buf).map_err(Failure::NotRead)?;
    if n == buf.len() {
        return Err(Failure::TooLong);
    }
    Ok(&buf[..n])
}

// Reads the file of a name, which is closed before its end is told. Standard input is read once: it counts as closed behind that.
pub fn fetch<'b, R: Files, I: Read + Drop>(
    rt: &R,
    input: &mut Option<I>,
    name: &[u8],
    buf: &'b mut [u8],
) -> Result<&'b [u8], Failure>
    ensures { IfOk result (λ s. length s.now < length buf.old) }
{
    if matches!(name, b"-") {
        let Some(mut from) = input.take() else {
            return Err(Failure::NotRead(Error::from_raw_os_error(CLOSED)));
        };
        return read_all(&mut from, buf);
    }
    let mut from = given::open(rt, name).map_err(Failure::NotOpened)?;
    read_all(&mut from, buf)
}
