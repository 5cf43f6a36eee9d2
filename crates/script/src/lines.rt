// The lines of a file.
ghost use Rattle.std.specs.Prelude.{◌≡◌, ◌≤◌, length, IfOk};
ghost use Rattle.script.specs.Lines.{bytes_read};

use std::alloc::Global;
use std::io;
use std::io::{BufRead, BufReader, Read, Seek, SeekFrom, Take};

// The most characters of a line.
const LONGEST: usize = 20000;

// How many bytes are looked at for a line's end, so that one that is too long is seen.
pub const WINDOW: usize = 20480;

// A file longer than any that is kept here is read no further.
const FAR: u64 = 1 << 32;

// What was read.
#[derive(Clone, Copy)]
pub enum Found {
    Line,
    // A line that is too long, or ends with the file and not with a newline.
    Unended,
    End,
}

#[derive(Drop)]
pub struct Lines<F: Read + Drop> {
    reader: Take<BufReader<F>>,
    at: u64,
}

impl<F: Read + Seek + Drop> Lines<F> {
    // The lines from a file's start on. What has no start to go to, as a pipe has none, is no file of lines.
    pub fn from_start(alloc: Global, mut file: F) -> io::Result<Lines<F>> {
        file.seek(SeekFrom::Start(0))?;
        Lines::new(alloc, file)
    }
}

impl<F: Read + Drop> Lines<F> {
    // The lines from where a file stands on.
    pub fn new(alloc: Global, file: F) -> io::Result<Lines<F>>
        ensures { IfOk result (λ lines. bytes_read lines ≡ 0) }
    {
        Ok(Lines {
            reader: BufReader::new(alloc, file)?.take(WINDOW as u64),
            at: 0,
        })
    }

    // Lays what is at hand, up to the next newline, behind a line: whether that was come to, or the end of what is looked at.
    fn append(&mut self, line: &mut Vec<u8>) -> io::Result<bool> {
        let part = self.reader.fill_buf()?;
        let newline = memchr::memchr(b'\n', part);
        let n = match newline {
            Some(i) => i.saturating_add(1).min(part.len()),
            None => part.len(),
        };
        line.extend_from_slice(&part[..n])?;
        self.reader.consume(n);
        Ok(n == 0 || newline.is_some())
    }

    // Lays the next line into a buffer, without its newline.
    pub fn next(&mut self, line: &mut Vec<u8>) -> io::Result<Found>
        ensures { IfOk result (λ found. found ≡ Found.Line → length line.new.items ≤ 20000) }
    {
        line.clear();
        if FAR <= self.at {
            return Ok(Found::End);
        }
        self.reader.set_limit(WINDOW as u64);
        for _ in 0..WINDOW {
            if self.append(line)? {
                break;
            }
        }
        let n = line.len();
        self.at = self.at.saturating_add(n as u64);
        if n == 0 {
            return Ok(Found::End);
        }
        if line.last() != Some(&b'\n') {
            return Ok(Found::Unended);
        }
        line.pop();
        if LONGEST < line.len() {
            return Ok(Found::Unended);
        }
        Ok(Found::Line)
    }
}

#[cfg(test)]
mod tests {
    use super::*;
    use std::test::Fail;

    // What has no place to go to has lines all the same.
    #[test]
    fn new_reads_what_cannot_seek(rt: HostRuntime) -> Result<(), Fail> {
        let mut lines = Lines::new(rt.alloc(), b"one\n\nthree".as_slice())?;
        let mut line = Vec::new(rt.alloc());
        assert!(rt; matches!(lines.next(&mut line)?, Found::Line));
        assert_eq!(rt; line.as_slice(), b"one".as_slice());
        assert!(rt; matches!(lines.next(&mut line)?, Found::Line));
        assert_eq!(rt; line.as_slice(), b"".as_slice());
        assert!(rt; matches!(lines.next(&mut line)?, Found::Unended));
        assert!(rt; matches!(lines.next(&mut line)?, Found::End));
        Ok(())
    }
}
