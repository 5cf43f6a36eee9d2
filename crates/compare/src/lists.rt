// The lists that the calls are lent, each beside what it is expected to hold. They lie on the heap, since the stack would not hold them
// beside the deepest file that is loaded. Where they have all their room from the start, memory does not run out later.
ghost use Rattle.std.specs.Prelude.{◌≡◌};
ghost use Rattle.compare.specs.Lent.{lent_of, lent_in_all};

use script::line::Lengths;
use script::part::{Laid, Part, Pattern};
use script::{BYTES, SLOTS};
use std::alloc::{AllocError, Global};
use std::fmt;

// What bytes and slots hold when a case begins.
const BYTE: u8 = 165;

const SLOT: u32 = 2779096485;

// Where a list is not as it must be.
#[derive(Clone, Copy)]
pub struct Difference {
    list: &'static str,
    at: usize,
    expected: u64,
    came: u64,
}

impl fmt::Display for Difference {
    fn fmt<W: fmt::Write>(&self, f: &mut fmt::Formatter<W>) -> fmt::Result {
        let list = self.list;
        let at = self.at;
        let expected = self.expected;
        let came = self.came;
        write!(f, "{list} at {at}: expected {expected}, came {came}")
    }
}

// A list whose first entries are lent. Entries that were not yet lent since the case began hold the filler, and are made once they are.
#[derive(Drop)]
pub struct Lent<T> {
    name: &'static str,
    filler: T,
    lent: usize,
    came: Vec<T>,
    expected: Vec<T>,
}

fn lay<T, L: Laid<T>>(to: &mut [T], at: usize, laid: &L) {
    let end = at.saturating_add(laid.len());
    if end <= to.len() {
        laid.lay(&mut to[at..end]);
    }
}

impl<T: Copy + PartialEq + Into<u64>> Lent<T> {
    fn new(alloc: Global, name: &'static str, filler: T) -> Lent<T>
        ensures { lent_of result ≡ 0 }
    {
        Lent {
            name,
            filler,
            lent: 0,
            came: Vec::new(alloc),
            expected: Vec::new(alloc),
        }
    }

    fn with_room(
        alloc: Global,
        name: &'static str,
        filler: T,
        room: usize,
    ) -> Result<Lent<T>, AllocError> {
        Ok(Lent {
            name,
            filler,
            lent: 0,
            came: Vec::with_capacity(alloc, room)?,
            expected: Vec::with_capacity(alloc, room)?,
        })
    }

    fn begin(&mut self) {
        self.lent = 0;
        self.came.clear();
        self.expected.clear();
    }

    fn lend(&mut self, n: usize) -> Result<(), AllocError> {
        let most = n.max(self.came.len());
        self.came.resize(most, self.filler)?;
        self.expected.resize(most, self.filler)?;
        self.lent = n;
        Ok(())
    }

    // How many entries are lent.
    pub fn lent(&self) -> usize
        ensures { result ≡ lent_of self.now }
    {
        self.lent
    }

    // What is lent, to be read.
    pub fn part(&self) -> &[T] {
        let n = self.lent.min(self.came.len());
        &self.came[..n]
    }

    // What is lent, to be changed.
    pub fn part_mut(&mut self) -> &mut [T] {
        let n = self.lent.min(self.came.len());
        &mut self.came[..n]
    }

    // Whether what would be laid there stays within what is lent.
    fn has_room<L: Laid<T>>(&self, at: usize, laid: &L) -> bool {
        at.saturating_add(laid.len()) <= self.lent
    }

    fn put<L: Laid<T>>(&mut self, at: usize, laid: &L) {
        lay(&mut self.came, at, laid);
        lay(&mut self.expected, at, laid);
    }

    fn expect<L: Laid<T>>(&mut self, at: usize, laid: &L) {
        lay(&mut self.expected, at, laid);
    }

    // The first entry that is lent and not as it must be.
    fn difference(&self) -> Option<Difference> {
        for (at, (came, expected)) in self.part().iter().zip(&self.expected).enumerate() {
            if came != expected {
                return Some(Difference {
                    list: self.name,
                    at,
                    expected: (*expected).into(),
                    came: (*came).into(),
                });
            }
        }
        None
    }
}

#[derive(Drop)]
pub struct Lists {
    pub bytes: Lent<u8>,
    pub starts: Lent<u32>,
    pub ends: Lent<u32>,
    pub firsts: Lent<u32>,
    pub rests: Lent<u32>,
    pub file: Lent<u8>,
    // The bytes that a call is handed.
    pub handed: Vec<u8>,
}

impl Lists {
    // Lists without room, which they get as they are lent. Nothing is lent yet.
    pub fn new(alloc: Global) -> Lists
        ensures { lent_in_all result ≡ 0 }
    {
        Lists {
            bytes: Lent::new(alloc, "bytes", BYTE),
            starts: Lent::new(alloc, "starts", SLOT),
            ends: Lent::new(alloc, "ends", SLOT),
            firsts: Lent::new(alloc, "firsts", SLOT),
            rests: Lent::new(alloc, "rests", SLOT),
            file: Lent::new(alloc, "file", BYTE),
            handed: Vec::new(alloc),
        }
    }

    // Lists that have all their room from the start.
    pub fn with_room(alloc: Global) -> Result<Lists, AllocError> {
        Ok(Lists {
            bytes: Lent::with_room(alloc, "bytes", BYTE, BYTES)?,
            starts: Lent::with_room(alloc, "starts", SLOT, SLOTS)?,
            ends: Lent::with_room(alloc, "ends", SLOT, SLOTS)?,
            firsts: Lent::with_room(alloc, "firsts", SLOT, SLOTS)?,
            rests: Lent::with_room(alloc, "rests", SLOT, SLOTS)?,
            file: Lent::with_room(alloc, "file", BYTE, BYTES)?,
            handed: Vec::with_capacity(alloc, BYTES)?,
        })
    }

    // What a call is handed next.
    pub fn hand(&mut self, bytes: &Pattern<'_>) -> Result<(), AllocError> {
        bytes.put_into(&mut self.handed)
    }

    // A case begins: nothing is lent.
    pub fn begin(&mut self) {
        self.bytes.begin();
        self.starts.begin();
        self.ends.begin();
        self.firsts.begin();
        self.rests.begin();
        self.file.begin();
    }

    // So much of each list is lent from here on: the lists keep what they hold.
    pub fn lend(&mut self, lengths: &Lengths) -> Result<(), AllocError> {
        let [bytes, starts, ends, firsts, rests, file] = *lengths;
        self.bytes.lend(bytes)?;
        self.starts.lend(starts)?;
        self.ends.lend(ends)?;
        self.firsts.lend(firsts)?;
        self.rests.lend(rests)?;
        self.file.lend(file)
    }

    // Whether a part stays within what is lent.
    pub fn have_room(&self, part: &Part<'_>) -> bool {
        match part {
            Part::Bytes(at, bytes) => self.bytes.has_room(*at, bytes),
            Part::File(at, bytes) => self.file.has_room(*at, bytes),
            Part::Atoms(at, starts, ends) => {
                self.starts.has_room(*at, starts) && self.ends.has_room(*at, ends)
            }
            Part::Pairs(at, firsts, rests) => {
                self.firsts.has_room(*at, firsts) && self.rests.has_room(*at, rests)
            }
        }
    }

    // Lays a part into the lists.
    pub fn put(&mut self, part: &Part<'_>) {
        match part {
            Part::Bytes(at, bytes) => self.bytes.put(*at, bytes),
            Part::File(at, bytes) => self.file.put(*at, bytes),
            Part::Atoms(at, starts, ends) => {
                self.starts.put(*at, starts);
                self.ends.put(*at, ends);
            }
            Part::Pairs(at, firsts, rests) => {
                self.firsts.put(*at, firsts);
                self.rests.put(*at, rests);
            }
        }
    }

    // Has the lists hold a part once the call above has written it.
    pub fn expect(&mut self, part: &Part<'_>) {
        match part {
            Part::Bytes(at, bytes) => self.bytes.expect(*at, bytes),
            Part::File(at, bytes) => self.file.expect(*at, bytes),
            Part::Atoms(at, starts, ends) => {
                self.starts.expect(*at, starts);
                self.ends.expect(*at, ends);
            }
            Part::Pairs(at, firsts, rests) => {
                self.firsts.expect(*at, firsts);
                self.rests.expect(*at, rests);
            }
        }
    }

    // The first difference, in the order of the lists.
    pub fn difference(&self) -> Option<Difference> {
        self.bytes
            .difference()
            .or(self.starts.difference())
            .or(self.ends.difference())
            .or(self.firsts.difference())
            .or(self.rests.difference())
            .or(self.file.difference())
    }
}

#[cfg(test)]
mod tests {
    use super::*;
    use std::test::Fail;

    // Lists made without room hold the fillers once they are lent, and tell what came to differ.
    #[test]
    fn new_lists_are_lent(rt: HostRuntime) -> Result<(), Fail> {
        let mut lists = Lists::new(rt.alloc());
        assert_eq!(rt; lists.bytes.part(), [].as_slice());
        lists.lend(&[3, 1, 2, 1, 1, 2])?;
        assert_eq!(rt; lists.bytes.lent(), 3);
        assert_eq!(rt; lists.bytes.part(), [165; 3].as_slice());
        assert_eq!(rt; lists.ends.part(), [2779096485; 2].as_slice());
        assert!(rt; lists.difference().is_none());
        if let Some(byte) = lists.file.part_mut().first_mut() {
            *byte = 7;
        }
        let told = format!(in rt.alloc(); "{}", lists.difference().ok_or("none")?)?;
        assert_eq!(rt; told.as_str(), "file at 0: expected 165, came 7");
        Ok(())
    }
}
