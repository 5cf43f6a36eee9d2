// A call with its arguments.
use super::kind::{Kind, OfAmount, OfNode, OfRecord};
use super::part::Pattern;
use super::words::{Unread, Words};
use super::{BYTES, SCRATCH};
use std::alloc::Global;

// The numbers of a plain checkpoint, and of a transparent one.
pub type Plain = [u64; 6];

pub type Transparent = [u64; 3];

// The groups of `Kind`, and then the calls that are handed something else.
#[derive(Drop)]
pub enum Call<'a> {
    Node(OfNode, u32),
    Record(OfRecord),
    Amount(OfAmount, usize),
    FitsInSmallAtom(Pattern<'a>),
    RestoreCheckpoint(Plain),
    RestoreTransparentCheckpoint(Transparent),
    CheckpointNodeStatus(Transparent, u32),
    AtomEq(u32, u32),
    Atom(u32, usize),
    MaybeRestoreWithNode(Transparent, u32),
    NewPair(u32, u32),
    Load(usize),
    NewAtom(Pattern<'a>),
    NewU64(u64),
    NewI64(i64),
    NewSubstr(u32, u32, u32),
    NewConcat(usize, Vec<u32>),
}

// The integer of a sign, 1 where it is below zero and 0 elsewhere, and a size.
fn signed(words: &mut Words<'_>) -> Result<i64, Unread> {
    let sign = words.number()?;
    let size = words.number()?;
    match sign {
        0 => Ok(i64::try_from(size)?),
        1 if size > 0 && size <= 1 << 63 => Ok(size.wrapping_neg().cast_signed()),
        _ => Err(Unread::NotUnderstood),
    }
}

// The size and at most 16 nodes. With no word at all, the size is that which was given.
fn concat<'a>(alloc: Global, words: &mut Words<'_>, size: u64) -> Result<Call<'a>, Unread> {
    let mut nodes = Vec::new(alloc);
    if words.is_empty() {
        return Ok(Call::NewConcat(size as usize, nodes));
    }
    let size = words.size()?;
    for _ in 0..16 {
        if words.is_empty() {
            break;
        }
        nodes.push(words.narrow()?)?;
    }
    Ok(Call::NewConcat(size, nodes))
}

impl<'a> Call<'a> {
    // A call of this kind, with the words behind its name, and the first number of the lines above, which a `new_concat` with no word has
    // for its size.
    pub fn read(
        alloc: Global,
        kind: Kind,
        words: &mut Words<'a>,
        above: u64,
    ) -> Result<Call<'a>, Unread> {
        Ok(match kind {
            Kind::Node(which) => Call::Node(which, words.narrow()?),
            Kind::Record(which) => Call::Record(which),
            Kind::Amount(which) => Call::Amount(which, words.size()?),
            Kind::FitsInSmallAtom => Call::FitsInSmallAtom(Pattern::read(words)?),
            Kind::RestoreCheckpoint => Call::RestoreCheckpoint(words.numbers()?),
            Kind::RestoreTransparentCheckpoint => {
                Call::RestoreTransparentCheckpoint(words.numbers()?)
            }
            Kind::CheckpointNodeStatus => {
                Call::CheckpointNodeStatus(words.numbers()?, words.narrow()?)
            }
            Kind::AtomEq => Call::AtomEq(words.narrow()?, words.narrow()?),
            Kind::Atom => Call::Atom(words.narrow()?, words.count(SCRATCH)?),
            Kind::MaybeRestoreWithNode => {
                Call::MaybeRestoreWithNode(words.numbers()?, words.narrow()?)
            }
            Kind::NewPair => Call::NewPair(words.narrow()?, words.narrow()?),
            Kind::Load => Call::Load(words.count(BYTES)?),
            Kind::NewAtom => Call::NewAtom(Pattern::read(words)?),
            Kind::NewU64 => Call::NewU64(words.number()?),
            Kind::NewI64 => Call::NewI64(signed(words)?),
            Kind::NewSubstr => Call::NewSubstr(words.narrow()?, words.narrow()?, words.narrow()?),
            Kind::NewConcat => concat(alloc, words, above)?,
        })
    }
}
