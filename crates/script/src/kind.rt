// The calls by their names.

// The calls that are handed a node or a value of 32 bits.
#[derive(Clone, Copy)]
pub enum OfNode {
    ObjectType,
    Index,
    IsAtom,
    IsPair,
    LenForValue,
    NewSmallNumber,
    Save,
    AtomLen,
    SmallNumber,
    Node,
    Sexp,
    Next,
}

// The calls that are handed nothing.
#[derive(Clone, Copy)]
pub enum OfRecord {
    AtomCount,
    AllocatedAtomCount,
    PairCount,
    AllocatedPairCount,
    HeapSize,
    AllocatedHeapSize,
    Checkpoint,
    TransparentCheckpoint,
    WellFormed,
}

// The calls that are handed an amount.
#[derive(Clone, Copy)]
pub enum OfAmount {
    NewLimited,
    AddGhostPair,
    RemoveGhostPair,
    AddGhostAtom,
}

// Which function of the C library is called.
#[derive(Clone, Copy)]
pub enum Kind {
    Node(OfNode),
    Record(OfRecord),
    Amount(OfAmount),
    FitsInSmallAtom,
    RestoreCheckpoint,
    RestoreTransparentCheckpoint,
    CheckpointNodeStatus,
    AtomEq,
    Atom,
    MaybeRestoreWithNode,
    NewPair,
    Load,
    NewAtom,
    NewU64,
    NewI64,
    NewSubstr,
    NewConcat,
}

// A call, its name, and how many values its answer has behind code and node.
pub type Row = (Kind, &'static str, usize);

// The calls, in the order in which they are counted.
pub static CALLS: [Row; 39] = [
    (Kind::Node(OfNode::ObjectType), "object_type", 1),
    (Kind::Node(OfNode::Index), "index", 1),
    (Kind::Node(OfNode::IsAtom), "is_atom", 1),
    (Kind::Node(OfNode::IsPair), "is_pair", 1),
    (Kind::FitsInSmallAtom, "fits_in_small_atom", 2),
    (Kind::Node(OfNode::LenForValue), "len_for_value", 1),
    (Kind::Amount(OfAmount::NewLimited), "new_limited", 0),
    (Kind::Record(OfRecord::AtomCount), "atom_count", 1),
    (
        Kind::Record(OfRecord::AllocatedAtomCount),
        "allocated_atom_count",
        1,
    ),
    (Kind::Record(OfRecord::PairCount), "pair_count", 1),
    (
        Kind::Record(OfRecord::AllocatedPairCount),
        "allocated_pair_count",
        1,
    ),
    (Kind::Record(OfRecord::HeapSize), "heap_size", 1),
    (
        Kind::Record(OfRecord::AllocatedHeapSize),
        "allocated_heap_size",
        1,
    ),
    (Kind::Record(OfRecord::Checkpoint), "checkpoint", 6),
    (
        Kind::Record(OfRecord::TransparentCheckpoint),
        "transparent_checkpoint",
        3,
    ),
    (Kind::Node(OfNode::NewSmallNumber), "new_small_number", 0),
    (Kind::Amount(OfAmount::AddGhostPair), "add_ghost_pair", 0),
    (
        Kind::Amount(OfAmount::RemoveGhostPair),
        "remove_ghost_pair",
        0,
    ),
    (Kind::Amount(OfAmount::AddGhostAtom), "add_ghost_atom", 0),
    (Kind::RestoreCheckpoint, "restore_checkpoint", 0),
    (
        Kind::RestoreTransparentCheckpoint,
        "restore_transparent_checkpoint",
        0,
    ),
    (Kind::Node(OfNode::Save), "save", 1),
    (Kind::CheckpointNodeStatus, "checkpoint_node_status", 3),
    (Kind::AtomEq, "atom_eq", 1),
    (Kind::Atom, "atom", 4),
    (Kind::Node(OfNode::AtomLen), "atom_len", 1),
    (Kind::Node(OfNode::SmallNumber), "small_number", 2),
    (Kind::Node(OfNode::Node), "node", 3),
    (Kind::Node(OfNode::Sexp), "sexp", 3),
    (Kind::Node(OfNode::Next), "next", 3),
    (Kind::Record(OfRecord::WellFormed), "well_formed", 1),
    (Kind::MaybeRestoreWithNode, "maybe_restore_with_node", 1),
    (Kind::NewPair, "new_pair", 0),
    (Kind::Load, "load", 1),
    (Kind::NewAtom, "new_atom", 0),
    (Kind::NewU64, "new_u64", 0),
    (Kind::NewI64, "new_i64", 0),
    (Kind::NewSubstr, "new_substr", 0),
    (Kind::NewConcat, "new_concat", 0),
];
