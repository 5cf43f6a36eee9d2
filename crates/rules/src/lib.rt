// The types of the port: the record, the lent slices, checkpoints, codes and refusals, and what the calls answer; and a test of a call.
// What each case means, with document 01's numbers, is set out in specs/Paper.antt.
#![tactic(auto)]

pub mod words;

ghost use Rattle.std.specs.Prelude.{◌≡◌, MatchResult, true, false};

// How many atoms, pairs and bytes.
#[repr(C)]
#[derive(Clone, Copy, PartialEq, Eq)]
pub struct Counts {
    pub atoms: usize,
    pub pairs: usize,
    pub bytes: usize,
}

// The record: seven numbers. What is used lies in the lent slices; ghosts are counted as if they did.
#[repr(C)]
#[derive(Clone, Copy, PartialEq, Eq)]
pub struct Allocator {
    pub used: Counts,
    pub ghosts: Counts,
    pub limit: usize,
}

// The atom slots, lent to be read: where the bytes of each atom begin and end.
#[derive(Clone, Copy)]
pub struct AtomSlots<'a> {
    pub starts: &'a [u32],
    pub ends: &'a [u32],
}

// The pair slots, lent to be read: the two nodes of each pair.
#[derive(Clone, Copy)]
pub struct PairSlots<'a> {
    pub firsts: &'a [u32],
    pub rests: &'a [u32],
}

// The five slices that a tree is read from, lent to be read.
#[derive(Clone, Copy)]
pub struct Slices<'a> {
    pub bytes: &'a [u8],
    pub atoms: AtomSlots<'a>,
    pub pairs: PairSlots<'a>,
}

// The byte store and the atom slots, lent to be written.
#[derive(Drop)]
pub struct AtomStore<'a> {
    pub bytes: &'a mut [u8],
    pub starts: &'a mut [u32],
    pub ends: &'a mut [u32],
}

impl AtomStore<'_> {
    ghost use Rattle.std.specs.Prelude.{◌≡◌};
    ghost use Rattle.rules.specs.Lent.{atoms_of, atom_slots_in};

    // The slots, to be read.
    pub fn slots(&self) -> AtomSlots<'_>
        ensures { atoms_of result ≡ atom_slots_in self.now.starts.now self.now.ends.now }
    {
        AtomSlots {
            starts: self.starts,
            ends: self.ends,
        }
    }
}

// The pair slots, lent to be written.
#[derive(Drop)]
pub struct PairStore<'a> {
    pub firsts: &'a mut [u32],
    pub rests: &'a mut [u32],
}

impl PairStore<'_> {
    ghost use Rattle.std.specs.Prelude.{◌≡◌};
    ghost use Rattle.rules.specs.Lent.{pairs_of, pair_slots_in};

    // The slots, to be read.
    pub fn slots(&self) -> PairSlots<'_>
        ensures { pairs_of result ≡ pair_slots_in self.now.firsts.now self.now.rests.now }
    {
        PairSlots {
            firsts: self.firsts,
            rests: self.rests,
        }
    }
}

// All five slices, lent to be written: two lifetimes, for either part is lent on alone.
#[derive(Drop)]
pub struct Stores<'a, 'b> {
    pub atoms: AtomStore<'a>,
    pub pairs: PairStore<'b>,
}

// A plain checkpoint. A transparent one is the used counts alone.
#[repr(C)]
#[derive(Clone, Copy, PartialEq, Eq)]
pub struct Checkpoint {
    pub used: Counts,
    pub ghosts: Counts,
}

// Why a call refuses, with the number of document 01's table; the only place in the code that knows the numbers. 16 is the request program's
// own, and the numbers after it are document 02's.
#[derive(Clone, Copy, PartialEq, Eq)]
pub enum Code {
    Unsound = 1,
    OutOfMemory = 2,
    TooManyAtoms = 3,
    TooManyPairs = 4,
    NotValid = 5,
    ExpectedAtom = 6,
    StartOutOfBounds = 7,
    EndOutOfBounds = 8,
    InvalidBounds = 9,
    InvalidSize = 10,
    NotUsable = 11,
    InvalidRange = 12,
    TooLarge = 13,
    TooFewGhosts = 14,
    Full = 15,
    BadEncoding = 17,
    TooDeep = 18,
    NoSpace = 19,
}

impl From<Code> for u32 {
    ghost use Rattle.std.specs.Prelude.{◌≡◌};
    ghost use Rattle.rules.specs.Paper.{code_number};

    ghost from_gives = { λ code n. n ≡ code_number code };

    fn from(code: Code) -> u32 {
        code as u32
    }
}

// The small atom 0: it stands beside a code that names no node of its own.
pub const NIL: u32 = 134217728;

// What a call answers that refuses: the code, and the node that goes with it.
#[derive(Clone, Copy, PartialEq, Eq)]
pub struct Refusal {
    pub code: Code,
    pub node: u32,
}

// The kind of a node.
#[derive(Clone, Copy, PartialEq, Eq)]
pub enum ObjectType {
    Pair,
    Bytes,
    SmallAtom,
}

// A node's bits taken apart: its index, or its value.
#[derive(Clone, Copy, PartialEq, Eq)]
pub enum View {
    Pair(usize),
    Bytes(usize),
    Small(u32),
}

// A node argument after its tests: a pair's index; a Bytes node's index, start and end; a value.
#[derive(Clone, Copy, PartialEq, Eq)]
pub enum Arg {
    Pair(usize),
    Bytes(usize, usize, usize),
    Small(u32),
}

// An atom argument after its tests: the range of its bytes, or its value.
#[derive(Clone, Copy, PartialEq, Eq)]
pub enum Atom {
    Range(usize, usize),
    Value(u32),
}

// What node() answers: where the bytes lie, the value, or the two children.
#[derive(Clone, Copy, PartialEq, Eq)]
pub enum NodeVisitor {
    Buffer(usize, usize),
    U32(u32),
    Pair(u32, u32),
}

#[derive(Clone, Copy, PartialEq, Eq)]
pub enum SExp {
    Atom,
    Pair(u32, u32),
}

// Whether a node outlives a restore, and if not whether its bytes do.
#[derive(Clone, Copy, PartialEq, Eq)]
pub enum NodeStatus {
    Before,
    AfterNewBytes,
    AfterOldBytes(usize, usize),
}

#[derive(Clone, Copy, PartialEq, Eq)]
pub enum MaybeRestore {
    NoReplace,
    Replace(u32),
    Aborted,
}

// What reading an item of a file comes to: its node, and where in the file the next item starts.
#[derive(Clone, Copy, PartialEq, Eq)]
pub struct Loaded {
    pub node: u32,
    pub next: usize,
}

// Why a file is refused, and where in it the item at fault starts.
#[derive(Clone, Copy, PartialEq, Eq)]
pub struct Fault {
    pub refusal: Refusal,
    pub at: usize,
}

// A test of a call, as document 01's table has it: a call goes on where it holds, and else refuses with a code and a node.
pub fn need(holds: bool, code: Code, node: u32) -> Result<(), Refusal>
    ensures { MatchResult result (λ u. holds ≡ true) (λ r. (holds ≡ false) × (r.code ≡ code) × (r.node ≡ node)) }
{
    if holds {
        Ok(())
    } else {
        Err(Refusal { code, node })
    }
}
