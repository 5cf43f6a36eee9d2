// How a record changes: each call changes it by one of these, and one function alone makes a record from another.
ghost use Rattle.std.specs.Prelude.{◌≡◌, ◌+◌, ◌-◌, ◌≤◌, ◌<◌};
ghost use Rattle.rules.specs.State.{atoms, pairs, heap, moved as moved_to, used_atom, used_pair, ghost_atom};
ghost use Rattle.rules.specs.State.{with_ghosts, cut as cut_to, cut_plain, less_ghosts};
ghost use Rattle.rules.specs.Record.{checkpoint_of, fresh as fresh_of};
ghost use Rattle.rules.specs.Restores.{savings as savings_of};
ghost use Rattle.rules.proofs.Limits.{Limits, Below};

use rules::{Allocator, Checkpoint, Counts};

// The most bytes, and the largest heap limit.
pub const TOP: usize = 4294967295;

// The record of a new allocator.
pub fn fresh(limit: usize) -> Allocator
    ensures { result ≡ fresh_of limit }
{
    let used = Counts {
        atoms: 0,
        pairs: 0,
        bytes: 0,
    };
    let ghosts = Counts {
        atoms: 2,
        pairs: 0,
        bytes: 1,
    };
    Allocator {
        used,
        ghosts,
        limit,
    }
}

// Other counts, and all else as in the record before: the one place where a record is made from another.
fn moved(used: Counts, ghosts: Counts, a: Allocator) -> Allocator
    ensures { result ≡ moved_to used ghosts a }
{
    Allocator { used, ghosts, ..a }
}

// The plain checkpoint of a record.
pub fn checkpoint(a: Allocator) -> Checkpoint
    ensures { result ≡ checkpoint_of a }
{
    Checkpoint {
        used: a.used,
        ghosts: a.ghosts,
    }
}

// One stored atom more, of len bytes.
pub fn used_atom(len: usize, a: Allocator) -> Allocator
    requires { (a.used.atoms < 62500000) × (a.used.bytes + len ≤ 4294967295) }
    ensures { result ≡ used_atom len a }
{
    let used = Counts {
        atoms: a.used.atoms + 1,
        bytes: a.used.bytes + len,
        ..a.used
    };
    moved(used, a.ghosts, a)
}

// One pair more.
pub fn used_pair(a: Allocator) -> Allocator
    requires { a.used.pairs < 62500000 }
    ensures { result ≡ used_pair a }
{
    let used = Counts {
        pairs: a.used.pairs + 1,
        ..a.used
    };
    moved(used, a.ghosts, a)
}

// One ghost atom more, of len ghost bytes. Ghost bytes may pass the limit by 3 for each atom.
pub fn ghost_atom(len: usize, a: Allocator) -> Allocator
    requires { (a.ghosts.atoms < 62500000) × (a.ghosts.bytes + len ≤ 8589934590) }
    ensures { result ≡ ghost_atom len a }
{
    let ghosts = Counts {
        atoms: a.ghosts.atoms + 1,
        bytes: a.ghosts.bytes + len,
        ..a.ghosts
    };
    moved(a.used, ghosts, a)
}

// Other ghost atoms and ghost pairs.
pub fn with_ghosts(atoms: usize, pairs: usize, a: Allocator) -> Allocator
    ensures { result ≡ with_ghosts atoms pairs a }
{
    let ghosts = Counts {
        atoms,
        pairs,
        ..a.ghosts
    };
    moved(a.used, ghosts, a)
}

// What a cut to k frees: bytes cut + 8 × (atoms cut + pairs cut).
pub fn savings(k: Counts, a: Allocator) -> usize
    requires { Limits a }
    ensures value { result ≡ savings_of k a }
    ensures bound { result < 8589934592 }
{
    let bytes = a.used.bytes.saturating_sub(k.bytes);
    let atoms = a.used.atoms.saturating_sub(k.atoms);
    let pairs = a.used.pairs.saturating_sub(k.pairs);
    bytes + 8 * (atoms + pairs)
}

// The used counts cut to k; what was cut becomes ghosts.
pub fn cut(k: Counts, a: Allocator) -> Allocator
    requires below { Below k a.used }
    requires limits { (atoms a ≤ 62500000) × (pairs a ≤ 62500000) × (heap a ≤ 8589934590) }
    ensures { result ≡ cut_to k a }
{
    let ghosts = Counts {
        atoms: a.ghosts.atoms + (a.used.atoms - k.atoms),
        pairs: a.ghosts.pairs + (a.used.pairs - k.pairs),
        bytes: a.ghosts.bytes + (a.used.bytes - k.bytes),
    };
    moved(k, ghosts, a)
}

// The used counts and the ghosts of a plain checkpoint.
pub fn cut_plain(k: Checkpoint, a: Allocator) -> Allocator
    ensures { result ≡ cut_plain k a }
{
    moved(k.used, k.ghosts, a)
}

// One ghost atom less, and len ghost bytes less: they are there, which is proved of every caller.
pub fn less_ghosts(len: usize, a: Allocator) -> Allocator
    requires { (1 ≤ a.ghosts.atoms) × (len ≤ a.ghosts.bytes) }
    ensures { result ≡ less_ghosts len a }
{
    let ghosts = Counts {
        atoms: a.ghosts.atoms - 1,
        bytes: a.ghosts.bytes - len,
        ..a.ghosts
    };
    moved(a.used, ghosts, a)
}
