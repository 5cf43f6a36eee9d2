// The answers that cross to C, and what each answer of the calls becomes: no enum crosses. On a refusal every value is 0, but for the place in
// CLoaded; where a call is accepted, node is nil if it made none.
ghost use Rattle.std.specs.Prelude.{◌≡◌};
ghost use Rattle.clvm_allocator.specs.Answers.{part_at, standing, went};

use rules::{
    Atom, Fault, Loaded, MaybeRestore, NIL, NodeStatus, NodeVisitor, ObjectType, Refusal, SExp,
};

// A number; yes is 1 and no is 0.
#[repr(C)]
#[derive(Clone, Copy)]
pub struct CNumber {
    pub code: u32,
    pub node: u32,
    pub value: usize,
}

impl From<Result<usize, Refusal>> for CNumber {
    ghost use Rattle.std.specs.Prelude.{◌≡◌};
    ghost use Rattle.clvm_allocator.specs.Answers.{number_c};
    ghost use Rattle.rules.specs.Paper.{said_in};

    ghost from_gives = { λ r c. c ≡ number_c (said_in r) };

    fn from(found: Result<usize, Refusal>) -> CNumber {
        match found {
            Ok(value) => CNumber {
                code: 0,
                node: NIL,
                value,
            },
            Err(Refusal { code, node }) => CNumber {
                code: code.into(),
                node,
                value: 0,
            },
        }
    }
}

impl From<Result<bool, Refusal>> for CNumber {
    ghost use Rattle.std.specs.Prelude.{◌≡◌};
    ghost use Rattle.clvm_allocator.specs.Answers.{number_c, bit};
    ghost use Rattle.rules.specs.Paper.{said_in};
    ghost use Rattle.rules.specs.Said.{says_of};

    ghost from_gives = { λ r c. c ≡ number_c (says_of bit (said_in r)) };

    fn from(found: Result<bool, Refusal>) -> CNumber {
        match found {
            Ok(yes) => CNumber {
                code: 0,
                node: NIL,
                value: yes as usize,
            },
            Err(Refusal { code, node }) => CNumber {
                code: code.into(),
                node,
                value: 0,
            },
        }
    }
}

impl From<Result<ObjectType, Refusal>> for CNumber {
    ghost use Rattle.std.specs.Prelude.{◌≡◌};
    ghost use Rattle.clvm_allocator.specs.Answers.{number_c};
    ghost use Rattle.rules.specs.Paper.{said_by, kind_paper};
    ghost use Rattle.rules.specs.Said.{says_of};
    ghost use Rattle.rules.specs.Reads.{kind_number};

    ghost from_gives = { λ r c. c ≡ number_c (says_of kind_number (said_by kind_paper r)) };

    fn from(found: Result<ObjectType, Refusal>) -> CNumber {
        found.map(|kind| kind as usize).into()
    }
}

// A value that may be missing.
#[repr(C)]
#[derive(Clone, Copy)]
pub struct COption {
    pub code: u32,
    pub node: u32,
    pub some: u32,
    pub value: u32,
}

impl From<Result<Option<u32>, Refusal>> for COption {
    ghost use Rattle.std.specs.Prelude.{◌≡◌};
    ghost use Rattle.clvm_allocator.specs.Answers.{option_c};
    ghost use Rattle.rules.specs.Paper.{said_by, option_paper};

    ghost from_gives = { λ r c. c ≡ option_c (said_by option_paper r) };

    fn from(found: Result<Option<u32>, Refusal>) -> COption {
        match found {
            Ok(Some(value)) => COption {
                code: 0,
                node: NIL,
                some: 1,
                value,
            },
            Ok(None) => COption {
                code: 0,
                node: NIL,
                some: 0,
                value: 0,
            },
            Err(Refusal { code, node }) => COption {
                code: code.into(),
                node,
                some: 0,
                value: 0,
            },
        }
    }
}

// What a node is: kind 0 with its two nodes, 1 with where its bytes begin and end, 2 with the value.
#[repr(C)]
#[derive(Clone, Copy)]
pub struct CVisited {
    pub code: u32,
    pub node: u32,
    pub kind: u32,
    pub first: usize,
    pub second: usize,
}

impl From<Result<NodeVisitor, Refusal>> for CVisited {
    ghost use Rattle.std.specs.Prelude.{◌≡◌};
    ghost use Rattle.clvm_allocator.specs.Answers.{visited_c};
    ghost use Rattle.rules.specs.Paper.{said_by, visitor_paper};

    ghost from_gives = { λ r c. c ≡ visited_c (said_by visitor_paper r) };

    fn from(found: Result<NodeVisitor, Refusal>) -> CVisited {
        match found {
            Ok(NodeVisitor::Pair(first, rest)) => CVisited {
                code: 0,
                node: NIL,
                kind: 0,
                first: first as usize,
                second: rest as usize,
            },
            Ok(NodeVisitor::Buffer(start, end)) => CVisited {
                code: 0,
                node: NIL,
                kind: 1,
                first: start,
                second: end,
            },
            Ok(NodeVisitor::U32(v)) => CVisited {
                code: 0,
                node: NIL,
                kind: 2,
                first: v as usize,
                second: 0,
            },
            Err(Refusal { code, node }) => CVisited {
                code: code.into(),
                node,
                kind: 0,
                first: 0,
                second: 0,
            },
        }
    }
}

// The two nodes of a pair.
#[repr(C)]
#[derive(Clone, Copy)]
pub struct CChildren {
    pub code: u32,
    pub node: u32,
    pub is_pair: u32,
    pub first: u32,
    pub rest: u32,
}

impl From<Result<SExp, Refusal>> for CChildren {
    ghost use Rattle.std.specs.Prelude.{◌≡◌};
    ghost use Rattle.clvm_allocator.specs.Answers.{children_c};
    ghost use Rattle.rules.specs.Paper.{said_by, sexp_paper};

    ghost from_gives = { λ r c. c ≡ children_c (said_by sexp_paper r) };

    fn from(found: Result<SExp, Refusal>) -> CChildren {
        match found {
            Ok(SExp::Pair(first, rest)) => CChildren {
                code: 0,
                node: NIL,
                is_pair: 1,
                first,
                rest,
            },
            Ok(SExp::Atom) => CChildren {
                code: 0,
                node: NIL,
                is_pair: 0,
                first: 0,
                rest: 0,
            },
            Err(Refusal { code, node }) => CChildren {
                code: code.into(),
                node,
                is_pair: 0,
                first: 0,
                rest: 0,
            },
        }
    }
}

// Where an atom's bytes are: place 0 is the byte store, 1 the scratch.
#[repr(C)]
#[derive(Clone, Copy)]
pub struct CPart {
    pub code: u32,
    pub node: u32,
    pub place: u32,
    pub offset: usize,
    pub length: usize,
}

fn part_at(place: u32, offset: usize, length: usize) -> CPart
    ensures { result ≡ part_at place offset length }
{
    CPart {
        code: 0,
        node: NIL,
        place,
        offset,
        length,
    }
}

impl From<Result<Atom, Refusal>> for CPart {
    ghost use Rattle.std.specs.Prelude.{◌≡◌};
    ghost use Rattle.clvm_allocator.specs.Answers.{part_c};
    ghost use Rattle.rules.specs.Paper.{said_by, atom_paper};

    ghost from_gives = { λ r c. c ≡ part_c (said_by atom_paper r) };

    fn from(found: Result<Atom, Refusal>) -> CPart {
        match found {
            Ok(Atom::Range(start, end)) => part_at(0, start, end.saturating_sub(start)),
            Ok(Atom::Value(v)) => {
                let len = node::len_for_value(v);
                part_at(1, 4usize.saturating_sub(len), len)
            }
            Err(Refusal { code, node }) => CPart {
                code: code.into(),
                node,
                place: 0,
                offset: 0,
                length: 0,
            },
        }
    }
}

// Whether a node outlives a restore: 0 before, 1 after with new bytes, 2 after with old bytes.
#[repr(C)]
#[derive(Clone, Copy)]
pub struct CStatus {
    pub code: u32,
    pub node: u32,
    pub status: u32,
    pub start: usize,
    pub end: usize,
}

fn standing(status: u32, start: usize, end: usize) -> CStatus
    ensures { result ≡ standing status start end }
{
    CStatus {
        code: 0,
        node: NIL,
        status,
        start,
        end,
    }
}

impl From<Result<NodeStatus, Refusal>> for CStatus {
    ghost use Rattle.std.specs.Prelude.{◌≡◌};
    ghost use Rattle.clvm_allocator.specs.Answers.{status_c};
    ghost use Rattle.rules.specs.Paper.{said_by, status_paper};

    ghost from_gives = { λ r c. c ≡ status_c (said_by status_paper r) };

    fn from(found: Result<NodeStatus, Refusal>) -> CStatus {
        match found {
            Ok(NodeStatus::Before) => standing(0, 0, 0),
            Ok(NodeStatus::AfterNewBytes) => standing(1, 0, 0),
            Ok(NodeStatus::AfterOldBytes(start, end)) => standing(2, start, end),
            Err(Refusal { code, node }) => CStatus {
                code: code.into(),
                node,
                status: 0,
                start: 0,
                end: 0,
            },
        }
    }
}

// The node that a call made; what the call did to the record stands in the record.
#[repr(C)]
#[derive(Clone, Copy)]
pub struct CAnswer {
    pub code: u32,
    pub node: u32,
}

impl From<Result<u32, Refusal>> for CAnswer {
    ghost use Rattle.std.specs.Prelude.{◌≡◌};
    ghost use Rattle.clvm_allocator.specs.Answers.{answer_c};
    ghost use Rattle.rules.specs.Paper.{said_in};

    ghost from_gives = { λ r c. c ≡ answer_c (said_in r) };

    fn from(found: Result<u32, Refusal>) -> CAnswer {
        match found {
            Ok(node) => CAnswer { code: 0, node },
            Err(Refusal { code, node }) => CAnswer {
                code: code.into(),
                node,
            },
        }
    }
}

impl From<Result<(), Refusal>> for CAnswer {
    ghost use Rattle.std.specs.Prelude.{◌≡◌};
    ghost use Rattle.clvm_allocator.specs.Answers.{done_c};
    ghost use Rattle.rules.specs.Paper.{verdict_paper};

    ghost from_gives = { λ r c. c ≡ done_c (verdict_paper r) };

    fn from(found: Result<(), Refusal>) -> CAnswer {
        found.map(|_| NIL).into()
    }
}

// What a restore with a node did: 0 no replacement, 1 replaced, 2 aborted.
#[repr(C)]
#[derive(Clone, Copy)]
pub struct CRestored {
    pub code: u32,
    pub node: u32,
    pub outcome: u32,
}

fn went(node: u32, outcome: u32) -> CRestored
    ensures { result ≡ went node outcome }
{
    CRestored {
        code: 0,
        node,
        outcome,
    }
}

impl From<Result<MaybeRestore, Refusal>> for CRestored {
    ghost use Rattle.std.specs.Prelude.{◌≡◌};
    ghost use Rattle.clvm_allocator.specs.Answers.{restored_c};
    ghost use Rattle.rules.specs.Paper.{said_by, maybe_paper};

    ghost from_gives = { λ r c. c ≡ restored_c (said_by maybe_paper r) };

    fn from(found: Result<MaybeRestore, Refusal>) -> CRestored {
        match found {
            Ok(MaybeRestore::NoReplace) => went(NIL, 0),
            Ok(MaybeRestore::Replace(node)) => went(node, 1),
            Ok(MaybeRestore::Aborted) => went(NIL, 2),
            Err(Refusal { code, node }) => CRestored {
                code: code.into(),
                node,
                outcome: 0,
            },
        }
    }
}

// The root of a program file, and where reading came to; on a refusal, where the item at fault starts.
#[repr(C)]
#[derive(Clone, Copy)]
pub struct CLoaded {
    pub code: u32,
    pub node: u32,
    pub at: usize,
}

impl From<Result<Loaded, Fault>> for CLoaded {
    ghost use Rattle.std.specs.Prelude.{◌≡◌};
    ghost use Rattle.clvm_allocator.specs.Answers.{file_c};

    ghost from_gives = { λ r c. c ≡ file_c r };

    fn from(found: Result<Loaded, Fault>) -> CLoaded {
        match found {
            Ok(Loaded { node, next }) => CLoaded {
                code: 0,
                node,
                at: next,
            },
            Err(Fault { refusal, at }) => CLoaded {
                code: refusal.code.into(),
                node: refusal.node,
                at,
            },
        }
    }
}
