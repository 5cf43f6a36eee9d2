// What a program is given by its caller: its arguments, files by their names, and the bytes of an input. A name is bytes, for it may be no text.
#![tactic(auto)]

ghost use Rattle.std.specs.Prelude.{◌≤◌, length, IfSome};
ghost use Rattle.std.specs.Io.{ReadsAtMost};

use std::env::FillError;
use std::io::{Error, ErrorKind, Read, Result};
use std::rt::{Env, Files};
use std::{fs, str};

// Argument i, which is put at the start of the buffer, or nothing past the last argument. One that is longer than the buffer counts as empty.
pub fn argument<'a, R: Env>(rt: &R, i: usize, name: &'a mut [u8]) -> Option<&'a [u8]>
    ensures { IfSome result (λ s. length s.now ≤ length name.old) }
{
    match rt.arg(i, name) {
        Ok(k) => Some(&name[..k]),
        Err(FillError::TooLong) => Some(&name[..0]),
        Err(FillError::NotPresent) => None,
    }
}

// Calls f with each argument in turn, but for the program's name, until it fails. An argument of more than 4,096 bytes counts as empty.
pub fn each_argument<R: Env, F: FnMut(&[u8]) -> Result<()>>(rt: &R, mut f: F) -> Result<()>
    requires { F.IsAlwaysCallable f }
{
    for i in 1..usize::MAX {
        let mut name = [0; 4096];
        let Some(arg) = argument(rt, i, &mut name) else {
            break;
        };
        f(arg)?;
    }
    Ok(())
}

// The file of a name to read from. A name that is not UTF-8 opens none, for std's names are text.
pub fn open<R: Files>(rt: &R, name: &[u8]) -> Result<R::File> {
    let text = str::from_utf8(name).map_err(|_| Error::from(ErrorKind::InvalidFilename))?;
    fs::open(rt, text)
}

// Reads until the buffer is full or the input ends, and answers how many bytes came. Each read is lent all that is left of the buffer: an
// input of messages loses what a shorter read leaves.
pub fn read_full<R: Read>(from: &mut R, buf: &mut [u8]) -> Result<usize>
    ensures { ReadsAtMost result buf.new }
{
    let mut done = 0;
    while done < buf.len() {
        let n = from.read(&mut buf[done..])?;
        if n == 0 {
            return Ok(done);
        }
        done += n;
    }
    Ok(done)
}
