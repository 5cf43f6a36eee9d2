// All records of an input: their rows, and the text in one piece or in several.
ghost use Rattle.std.specs.Prelude.{◌≡◌, ◌+◌, ◌*◌, ◌≤◌, ◌<◌, ◌++◌, length, IfOk};
ghost use Rattle.rules.specs.Small.{Octets};
ghost use Rattle.rules.specs.Lent.{lists_in, lists_lent};
ghost use Rattle.rules.proofs.Limits.{Limits};
ghost use Rattle.text.specs.Page.{written, capacity, SamePage};
ghost use Rattle.text.specs.Text.{row_text};
ghost use Rattle.machine.specs.Machine.{SameStores};
ghost use Rattle.machine.specs.Sane.{Ready};
ghost use Rattle.trace.specs.Step.{row_of, with_row};
ghost use Rattle.trace.specs.Trace.{text_of};
ghost use Rattle.trace.specs.Run.{Advanced, RanFrom};

use crate::step;
use machine::{Machine, Told};
use rules::{AtomStore, PairStore, Stores};
use std::io::{Result, Write};
use text::page::Page;

// The longest input.
const LONGEST: usize = 65536;
// Room for a row, 126 bytes, and for the last line, 46.
const ROOM: usize = 172;

// The row of what a record was told, onto the page; the machine counts it.
fn show(m: &mut Machine, told: Told, page: &mut Page)
    requires bounds { (m.old.shown < 18446744073709551615) × Limits m.old.state }
    requires room { length (written page.old) + 126 ≤ capacity page.old }
    ensures machine { m.new ≡ with_row m.old }
    ensures text { written page.new ≡ written page.old ++ row_text (row_of (with_row m.old) told) }
    ensures capacity { capacity page.new ≡ capacity page.old }
    ensures same { SamePage page.old page.new }
    ensures bound { length (written page.new) ≤ length (written page.old) + 126 }
{
    m.shown += 1;
    text::put_row(page, step::row_of(m, told));
}

// The record at the front of the rest of the input, and its row onto the page; answers the record's length, or nothing where a bad one
// ended the run.
fn advance(m: &mut Machine, stores: &mut Stores, rest: &[u8], page: &mut Page) -> Option<usize>
    requires ready { Ready m.old (lists_lent stores.old) }
    requires bounds { (m.old.shown < 536870912) × (0 < length rest.now) × (length (written page.old) + 126 ≤ capacity page.old) }
    ensures value { Advanced
        m.old (lists_lent stores.old) rest.now page.old
        m.new (lists_lent stores.new) page.new result }
    ensures same { SameStores stores.old stores.new × SamePage page.old page.new }
{
    let asked = request::read(rest);
    let told = m.act(stores, asked.request);
    show(m, told, page);
    match asked.request {
        Some(_) => Some(asked.size),
        None => None,
    }
}

// The records of input from at0 on, until none is left, a bad one ends the run, or the page has no room for a row and the last
// line. Their rows go onto the page, and after the last record the last line. Answers where the rest of the input begins, or nothing
// once the last line is written.
pub fn run(
    m: &mut Machine,
    stores: &mut Stores,
    input: &[u8],
    at0: usize,
    page: &mut Page,
) -> Option<usize>
    requires ready { Ready m.old (lists_lent stores.old) }
    requires bounds { (4 * m.old.shown ≤ at0) × (at0 ≤ length input.now) × (length input.now ≤ 1048576)
        × (length (written page.old) + 46 ≤ capacity page.old) }
    ensures value { RanFrom
        m.old (lists_lent stores.old) input.now at0 page.old
        m.new (lists_lent stores.new) page.new result }
    ensures same { SameStores stores.old stores.new × SamePage page.old page.new }
{
    let mut at = at0;
    while at < input.len() {
        if page.room() < ROOM {
            return Some(at);
        }
        let Some(size) = advance(m, stores, &input[at..], page) else {
            text::put_end(page, m.shown, m.released);
            return None;
        };
        at += size;
    }
    text::put_end(page, m.shown, m.released);
    None
}

// Each item of a slice of bytes is one: said of a slice by itself, which a struct that holds it does not tell.
fn are_octets(bytes: &[u8])
    ensures { Octets bytes.now }
{}

// Writes the whole text of an input, a page at a time; answers how many bytes that were, or why a write failed: then a part of the text may
// have been written, and of what is lent nothing is said.
pub fn print<W: Write>(
    to: &mut W,
    bytes: &mut [u8],
    starts: &mut [u32],
    ends: &mut [u32],
    firsts: &mut [u32],
    rests: &mut [u32],
    input: &[u8],
    out: &mut [u8],
) -> Result<usize>
    requires { 201 ≤ length out.old }
    ensures { IfOk result (λ n. n
        ≡ length (text_of (lists_in bytes.old starts.old ends.old firsts.old rests.old) input.now)) }
{
    let mut page = Page::new(out);
    if LONGEST < input.len() {
        text::put_long(&mut page);
        let whole = page.text();
        to.write_all(whole)?;
        return Ok(whole.len());
    }
    text::put_head(&mut page);
    let mut m = Machine::new();
    are_octets(bytes);
    let mut stores = Stores {
        atoms: AtomStore {
            bytes,
            starts,
            ends,
        },
        pairs: PairStore { firsts, rests },
    };
    let mut at = 0;
    let mut sent = 0;
    loop {
        let next = run(&mut m, &mut stores, input, at, &mut page);
        let piece = page.text();
        to.write_all(piece)?;
        sent += piece.len();
        let Some(rest) = next else {
            return Ok(sent);
        };
        at = rest;
        page.clear();
    }
}
