// Makes the calls of data/*.txt by the functions that the C library's exports call, and compares every answer, every record and all that is
// lent with what the file expects; FORMAT.md describes the files. It stops at the first difference.
#![tactic(auto)]

mod calls;
mod lent;
mod seen;

use compare::course::Course;
use compare::fault::Fault;
use script::lines::{Found, Lines, WINDOW};
use std::alloc::Global;
use std::fs::File;
use std::io::Write;
use std::ops::Range;
use std::rt::Files;
use std::{fs, io};

const FILES: [&str; 4] = ["document.txt", "runs.txt", "files.txt", "rust.txt"];

// The most lines that are read.
const TURNS: u64 = 1000000000;

// Makes the call of a line, where it is one, and does else what the line says.
fn turn(course: &mut Course, text: &[u8]) -> Result<(), Fault> {
    let Some(asked) = course.turn(text)? else {
        return Ok(());
    };
    let mut record = lent::record(&course.record());
    let came = calls::made(&asked.call, &mut record, &mut course.lists)?;
    course.answer(text, &asked, came, lent::record_of(&record))
}

// Goes through a file: whether its end was come to.
fn follow<R: Files<File = File>, W: Write>(
    rt: &R,
    alloc: Global,
    out: &mut W,
    course: &mut Course,
    turns: &mut Range<u64>,
    text: &mut Vec<u8>,
    name: &'static str,
) -> io::Result<bool> {
    let Ok(file) = fs::open(rt, name) else {
        writeln!(out, "{name}: cannot be opened")?;
        return Ok(false);
    };
    let mut lines = Lines::from_start(alloc, file)?;
    course.open(name);
    for _ in turns.by_ref() {
        course.count_line();
        let found = lines.next(text)?;
        let told = match found {
            Found::Line => turn(course, text),
            Found::Unended => Err(Fault::NotUnderstood),
            Found::End => course.compare(),
        };
        if let Err(fault) = told {
            course.show(out, text, &fault)?;
            return Ok(false);
        }
        if let Found::End = found {
            course.close(out)?;
            return Ok(true);
        }
    }
    Ok(false)
}

fn main(rt: HostRuntime) -> io::Result<()> {
    let mut out = io::writer(&rt);
    let alloc = rt.alloc();
    let mut course = Course::new(alloc)?;
    let mut text = Vec::with_capacity(alloc, WINDOW)?;
    let mut turns = 0..TURNS;
    for name in FILES {
        if turns.is_empty()
            || !follow(
                &rt,
                alloc,
                &mut out,
                &mut course,
                &mut turns,
                &mut text,
                name,
            )?
        {
            return Ok(());
        }
    }
    course.total(&mut out)
}
