// atom_eq: whether two atoms have the same bytes, whatever their kinds.
ghost use Rattle.std.specs.Prelude.{◌<◌, ◌≡◌, length};
ghost use Rattle.rules.specs.Small.{small_bytes};
ghost use Rattle.rules.specs.Said.{says};
ghost use Rattle.rules.specs.Lent.{atoms_of};
ghost use Rattle.rules.specs.Reads.{atom_bytes, same_bytes, atom_eq};
ghost use Rattle.rules.specs.Paper.{said_in, atom_paper};
ghost use Rattle.rules.proofs.Args.{Inside};

use super::arg;
use rules::{Allocator, Atom, AtomSlots, Code, NIL, Refusal, need};
use state::sound;

// Whether a byte string is that of a small value: only the bytes that fit a small atom are those of one.
fn same_small(v: u32, x: &[u8]) -> bool
    requires { v < 67108864 }
    ensures { result ≡ same_bytes (small_bytes v) x.now }
{
    node::fits_in_small_atom(x) == Some(v)
}

// Whether two atoms have the same bytes. As a call of its own it would be handed both through memory.
#[inline(always)]
fn equal(bytes: &[u8], x: Atom, y: Atom) -> bool
    requires { Inside (length bytes.now) (says (atom_paper x)) × Inside (length bytes.now) (says (atom_paper y)) }
    ensures { result ≡ same_bytes (atom_bytes bytes.now (atom_paper x)) (atom_bytes bytes.now (atom_paper y)) }
{
    match (x, y) {
        (Atom::Range(from, to), Atom::Range(start, end)) => bytes[from..to] == bytes[start..end],
        (Atom::Range(start, end), Atom::Value(v)) => same_small(v, &bytes[start..end]),
        (Atom::Value(v), Atom::Range(start, end)) => same_small(v, &bytes[start..end]),
        (Atom::Value(v), Atom::Value(w)) => v == w,
    }
}

// Whether two atoms have the same bytes: 1 unsound, then 5 not valid and 1 unsound slot of the left, of the right, then 6 a pair: the left's,
// else the right's.
#[tactic(auto, unfolding(rules::specs::Said::need, rules::specs::Reads::atom_eq))]
pub fn atom_eq(
    a: &Allocator,
    bytes: &[u8],
    atoms: AtomSlots,
    lhs: u32,
    rhs: u32,
) -> Result<bool, Refusal>
    ensures { said_in result ≡ atom_eq a.now bytes.now (atoms_of atoms.entry) lhs rhs }
{
    need(
        sound::bytes_sound(a, bytes.len(), atoms.starts.len(), atoms.ends.len()),
        Code::Unsound,
        NIL,
    )?;
    let left = arg::arg(a, atoms, lhs)?;
    let right = arg::arg(a, atoms, rhs)?;
    let x = arg::atom_arg(lhs, Ok(left))?;
    let y = arg::atom_arg(rhs, Ok(right))?;
    Ok(equal(bytes, x, y))
}
