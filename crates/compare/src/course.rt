// A course through the files: what their lines have done so far, and what is printed of it.
use super::fault::Fault;
use super::lists::Lists;
use super::tally::Tally;
use script::call::Call;
use script::line::{Answer, Asked, Line, Record, first_number, text_of};
use script::lines::WINDOW;
use std::alloc::{AllocError, Global};
use std::io;
use std::io::Write;

// What is told of the file that is read: its name, its cases and calls, its line's number, its case, and its last call.
#[derive(Drop)]
struct Place {
    name: &'static str,
    cases: u64,
    calls: u64,
    line: u64,
    case: Vec<u8>,
    call: Vec<u8>,
    call_line: u64,
}

#[derive(Drop)]
pub struct Course {
    alloc: Global,
    place: Place,
    tally: Tally,
    record: Record,
    pub lists: Lists,
    // The number that the last line with one begins with.
    first: u64,
    // Whether the lists have not been compared since the last call.
    is_pending: bool,
}

impl Place {
    fn new(alloc: Global) -> Result<Place, AllocError> {
        Ok(Place {
            name: "",
            cases: 0,
            calls: 0,
            line: 0,
            case: Vec::with_capacity(alloc, WINDOW)?,
            call: Vec::with_capacity(alloc, WINDOW)?,
            call_line: 0,
        })
    }

    // A file begins.
    fn begin(&mut self, name: &'static str) {
        self.name = name;
        self.cases = 0;
        self.calls = 0;
        self.line = 0;
        self.case.clear();
        self.call.clear();
        self.call_line = 0;
    }

    // The last call's line, with its case.
    fn show_call<W: Write>(&self, out: &mut W) -> io::Result<()> {
        let name = self.name;
        let line = self.call_line;
        write!(out, "{name} line {line}, case ")?;
        out.write_all(&self.case)?;
        writeln!(out, ": differs")?;
        out.write_all(&self.call)?;
        writeln!(out)
    }
}

impl Course {
    pub fn new(alloc: Global) -> Result<Course, AllocError> {
        Ok(Course {
            alloc,
            place: Place::new(alloc)?,
            tally: Tally::new(alloc)?,
            record: [0; 7],
            lists: Lists::with_room(alloc)?,
            first: 0,
            is_pending: false,
        })
    }

    // A file begins.
    pub fn open(&mut self, name: &'static str) {
        self.place.begin(name);
        self.is_pending = false;
    }

    // The record before the call that is to be made.
    pub fn record(&self) -> Record {
        self.record
    }

    // A line is read from here on.
    pub fn count_line(&mut self) {
        self.place.line = self.place.line.saturating_add(1);
    }

    // Does what a line says, but for a call, which is to be made.
    pub fn turn<'a>(&mut self, text: &'a [u8]) -> Result<Option<Asked<'a>>, Fault> {
        let line = Line::read(self.alloc, text, self.first)?;
        if !self.may_stand(&line) {
            return Err(Fault::NotUnderstood);
        }
        if !matches!(line, Line::Now(_)) {
            self.compare()?;
        }
        if !matches!(line, Line::Comment | Line::Case) {
            self.first = first_number(text).unwrap_or(self.first);
        }
        match line {
            Line::Comment => {}
            Line::Case => self.begin(text)?,
            Line::Lent(lengths) => self.lists.lend(&lengths)?,
            Line::Record(record) => self.record = record,
            Line::Put(part) => self.lists.put(&part),
            Line::Now(part) => self.lists.expect(&part),
            Line::Call(asked) => return Ok(Some(asked)),
        }
        Ok(None)
    }

    // Whether a line may stand where it does: in a case, within what is lent, and `now` behind a call.
    fn may_stand(&self, line: &Line<'_>) -> bool {
        match line {
            Line::Comment | Line::Case => true,
            _ if self.place.cases == 0 => false,
            Line::Put(part) => self.lists.have_room(part),
            Line::Now(part) => self.is_pending && self.lists.have_room(part),
            Line::Call(asked) => match asked.call {
                Call::Load(n) => n <= self.lists.file.lent(),
                _ => true,
            },
            _ => true,
        }
    }

    // Compares the lists, where a call was made since they were compared.
    pub fn compare(&mut self) -> Result<(), Fault> {
        if !self.is_pending {
            return Ok(());
        }
        self.is_pending = false;
        match self.lists.difference() {
            Some(difference) => Err(Fault::Left(difference)),
            None => Ok(()),
        }
    }

    // A case begins: nothing is lent, and the record is seven noughts.
    fn begin(&mut self, text: &[u8]) -> Result<(), AllocError> {
        self.place.cases = self.place.cases.saturating_add(1);
        self.place.case.clear();
        if let Some(name) = text_of(text, b"case") {
            self.place.case.extend_from_slice(name)?;
        }
        self.record = [0; 7];
        self.lists.begin();
        Ok(())
    }

    // Compares the answer that came, and the record that the call left, with what its line expects, and counts it.
    pub fn answer(
        &mut self,
        text: &[u8],
        asked: &Asked<'_>,
        came: Answer,
        record: Record,
    ) -> Result<(), Fault> {
        self.place.call_line = self.place.line;
        self.place.call.clear();
        self.place.call.extend_from_slice(text)?;
        if came != asked.answer || record != asked.record.unwrap_or(self.record) {
            let changed = if record == self.record {
                None
            } else {
                Some(record)
            };
            return Err(Fault::Answered {
                came,
                values: asked.values,
                record: changed,
            });
        }
        self.record = record;
        self.is_pending = true;
        self.place.calls = self.place.calls.saturating_add(1);
        self.tally.count(asked.row, came.code);
        Ok(())
    }

    // Says why a file is read no further, with the line that it came to.
    pub fn show<W: Write>(&self, out: &mut W, text: &[u8], fault: &Fault) -> io::Result<()> {
        let name = self.place.name;
        let line = self.place.line;
        match fault {
            Fault::NotUnderstood => {
                writeln!(out, "{name} line {line}: not understood")?;
                out.write_all(text)?;
                writeln!(out)
            }
            Fault::Left(difference) => {
                self.place.show_call(out)?;
                writeln!(out, "{difference}")
            }
            Fault::Answered {
                came,
                values,
                record,
            } => {
                self.place.show_call(out)?;
                show_answer(out, came, *values, record)
            }
            Fault::OutOfMemory => Err(AllocError.into()),
        }
    }

    // The end of a file: what was compared in it.
    pub fn close<W: Write>(&self, out: &mut W) -> io::Result<()> {
        let name = self.place.name;
        let cases = self.place.cases;
        let calls = self.place.calls;
        writeln!(out, "{name}: {cases} cases, {calls} calls")
    }

    // The end of the files: how often each call answered each code.
    pub fn total<W: Write>(&self, out: &mut W) -> io::Result<()> {
        self.tally.print(out)
    }
}

// An answer with so many values, and the record where it changed.
fn show_answer<W: Write>(
    out: &mut W,
    came: &Answer,
    values: usize,
    record: &Option<Record>,
) -> io::Result<()> {
    let code = came.code;
    let node = came.node;
    write!(out, "came: {code} {node}")?;
    for value in came.values.iter().take(values) {
        write!(out, " {value}")?;
    }
    if let Some(record) = record {
        write!(out, " |")?;
        for number in record {
            write!(out, " {number}")?;
        }
    }
    writeln!(out)
}
