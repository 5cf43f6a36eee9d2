// What a record of the request program asks, read from the input alone: numbers, and the parts of the input where bytes or nodes stand.
#![tactic(auto)]

pub mod fields;
pub mod kind;
pub mod nodes;
pub mod record;

ghost use Rattle.std.specs.Prelude.{◌≡◌};
ghost use Rattle.request.specs.Request.{meant, request_at, frame_of, frame_size};

use nodes::Nodes;
use record::Record;

// A call that creates, or counts ghosts. The bytes of an atom and the nodes of a concat are lent by the input.
#[derive(Clone, Copy)]
pub enum Making<'a> {
    Atom(&'a [u8]),
    SmallNumber(u32),
    Pair(u32, u32),
    Substr(u32, u32, u32),
    Concat(usize, Nodes<'a>),
    AddGhostPair(usize),
    RemoveGhostPair(usize),
    AddGhostAtom(usize),
}

// How a restore goes back to a checkpoint.
#[derive(Clone, Copy)]
pub enum Way {
    Plainly,
    Transparently,
    WithNode(u32),
}

// A restore names its checkpoint by the number that it was taken as.
#[derive(Clone, Copy)]
pub enum Request<'a> {
    Make(Making<'a>),
    TakeCheckpoint,
    Restore(Way, usize),
}

// A request, if the record is one, and how many bytes of the input are the record: none where it is cut short.
#[derive(Clone, Copy)]
pub struct Asked<'a> {
    pub request: Option<Request<'a>>,
    pub size: usize,
}

// What the record at the front of the input asks; nothing where it is cut short, of no kind or of a wrong length.
pub fn read<'a>(rest: &'a [u8]) -> Asked<'a>
    ensures meaning { meant result.request ≡ request_at rest.now }
    ensures size { result.size ≡ frame_size (frame_of rest.now) }
{
    match Record::first(rest) {
        Some(record) => Asked {
            request: record.request(),
            size: record.size(),
        },
        None => Asked {
            request: None,
            size: 0,
        },
    }
}
