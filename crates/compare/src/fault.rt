// Why a file is read no further.
use super::lists::Difference;
use script::line::{Answer, Record};
use script::words::Unread;
use std::alloc::{AllocError, AllocFailed};

#[derive(Drop)]
pub enum Fault {
    // The line is none of those in FORMAT.md, or stands where it may not.
    NotUnderstood,
    // The call above has left a list otherwise.
    Left(Difference),
    // The call answers otherwise: with so many values, and with a record where it changes.
    Answered {
        came: Answer,
        values: usize,
        record: Option<Record>,
    },
    OutOfMemory,
}

impl From<Unread> for Fault {
    fn from(e: Unread) -> Fault {
        match e {
            Unread::NotUnderstood => Fault::NotUnderstood,
            Unread::OutOfMemory => Fault::OutOfMemory,
        }
    }
}

impl From<AllocError> for Fault {
    fn from(_e: AllocError) -> Fault {
        Fault::OutOfMemory
    }
}
