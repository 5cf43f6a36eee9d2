// A whole record of the input, and what it asks.
ghost use Rattle.std.specs.Prelude.{◌≡◌, ◌<◌, length};

use crate::fields::{u16_at, u32_at, u64_at};
use crate::kind::Kind;
use crate::nodes::Nodes;
use crate::{Making, Request, Way};

// A record begins with its payload's length and its kind, a u16 each.
const HEAD: usize = 4;
// The payload of a concat begins with the size, a u64.
const SIZE: usize = 8;

// The number of its kind, and its payload.
#[derive(Clone, Copy)]
pub struct Record<'a> {
    pub kind: u16,
    pub payload: &'a [u8],
    ghost short: { length payload.now < 65536 },
}

impl<'a> Record<'a> {
    ghost use Rattle.std.specs.Prelude.{◌+◌};
    ghost use Rattle.request.specs.Request.{meant, concat_of, request_of, seen, frame_of};

    // The record at the front of the input, if a whole one stands there.
    pub fn first(rest: &'a [u8]) -> Option<Record<'a>>
        ensures { seen result ≡ frame_of rest.now }
    {
        if rest.len() < HEAD {
            return None;
        }
        let end = HEAD + u16_at(rest, 0) as usize;
        if rest.len() < end {
            return None;
        }
        Some(Record {
            kind: u16_at(rest, 2),
            payload: &rest[HEAD..end],
        })
    }

    // The bytes that it takes.
    pub fn size(self) -> usize
        ensures { result ≡ 4 + length self.entry.payload.now }
    {
        HEAD + self.payload.len()
    }

    // What it asks; nothing where its kind is unknown, or its payload is not as long as that kind's is.
    pub fn request(self) -> Option<Request<'a>>
        ensures { meant result ≡ request_of self.entry.kind self.entry.payload.now }
    {
        let p = self.payload;
        let kind = Kind::of(self.kind)?;
        Some(match (kind, p.len()) {
            (Kind::Atom, _) => Request::Make(Making::Atom(p)),
            (Kind::Pair, 8) => Request::Make(Making::Pair(u32_at(p, 0), u32_at(p, 4))),
            (Kind::Substr, 12) => {
                Request::Make(Making::Substr(u32_at(p, 0), u32_at(p, 4), u32_at(p, 8)))
            }
            (Kind::Concat, _) => return self.concat(),
            (Kind::SmallNumber, 4) => Request::Make(Making::SmallNumber(u32_at(p, 0))),
            (Kind::Checkpoint, 0) => Request::TakeCheckpoint,
            (Kind::Restore, 2) => Request::Restore(Way::Plainly, u16_at(p, 0) as usize),
            (Kind::RestoreTransparent, 2) => {
                Request::Restore(Way::Transparently, u16_at(p, 0) as usize)
            }
            (Kind::MaybeRestore, 6) => {
                Request::Restore(Way::WithNode(u32_at(p, 2)), u16_at(p, 0) as usize)
            }
            (Kind::AddGhostPair, 8) => Request::Make(Making::AddGhostPair(u64_at(p, 0) as usize)),
            (Kind::RemoveGhostPair, 8) => {
                Request::Make(Making::RemoveGhostPair(u64_at(p, 0) as usize))
            }
            (Kind::AddGhostAtom, 8) => Request::Make(Making::AddGhostAtom(u64_at(p, 0) as usize)),
            _ => return None,
        })
    }

    // A concat's payload: a u64, the size, and then a u32 for each node.
    fn concat(self) -> Option<Request<'a>>
        ensures { meant result ≡ concat_of self.entry.payload.now }
    {
        let p = self.payload;
        if p.len() < SIZE || (p.len() - SIZE) % 4 != 0 {
            return None;
        }
        let nodes = Nodes { bytes: &p[SIZE..] };
        Some(Request::Make(Making::Concat(u64_at(p, 0) as usize, nodes)))
    }
}
