// A node argument: 5 where it is not valid, 1 where its atom slot is unsound, 6 where a pair stands for an atom.
#![tactic(auto, unfolding(rules::specs::Said::need, rules::specs::Reads::arg_of))]

ghost use Rattle.std.specs.Prelude.{◌≡◌, IfOk};
ghost use Rattle.rules.proofs.Args.{ArgIn, AtomIn};
ghost use Rattle.rules.specs.Node.{bytes_at};
ghost use Rattle.rules.specs.Said.{says};
ghost use Rattle.rules.specs.Lent.{atoms_of, AtomsWithin};
ghost use Rattle.rules.specs.Reads.{arg_of, arg as arg_rule, atom_arg, atom_of, atom_length};
ghost use Rattle.rules.specs.Paper.{said_by, arg_paper, atom_paper};

use rules::{Allocator, Arg, Atom, AtomSlots, Code, NIL, Refusal, View, need};
use state::sound;

// The Bytes node of an index, its slot tested.
fn slot(a: &Allocator, atoms: AtomSlots, i: usize) -> Result<Arg, Refusal>
    requires { AtomsWithin a.now atoms.starts.now atoms.ends.now }
    ensures { said_by arg_paper result ≡ arg_of a.now (atoms_of atoms.entry) (bytes_at i) }
{
    need(i < a.used.atoms, Code::NotValid, NIL)?;
    let start = atoms.starts[i];
    let end = atoms.ends[i];
    need(
        sound::range_sound(start, end, a.used.bytes),
        Code::Unsound,
        NIL,
    )?;
    Ok(Arg::Bytes(i, start as usize, end as usize))
}

// A node argument, tested for 5 not valid, then its slot for 1 unsound.
pub fn arg(a: &Allocator, atoms: AtomSlots, n: u32) -> Result<Arg, Refusal>
    requires { AtomsWithin a.now atoms.starts.now atoms.ends.now }
    ensures value { said_by arg_paper result ≡ arg_rule a.now (atoms_of atoms.entry) n }
    ensures facts { IfOk result (λ x. ArgIn a.now (atoms_of atoms.entry) (arg_paper x)) }
{
    match node::view(n)? {
        View::Pair(i) => {
            need(i < a.used.pairs, Code::NotValid, NIL)?;
            Ok(Arg::Pair(i))
        }
        View::Bytes(i) => slot(a, atoms, i),
        View::Small(v) => Ok(Arg::Small(v)),
    }
}

// An argument as an atom: a pair is refused with that node, and what was refused before stays so.
pub fn atom_arg(n: u32, x: Result<Arg, Refusal>) -> Result<Atom, Refusal>
    ensures { said_by atom_paper result ≡ atom_arg n (said_by arg_paper x) }
{
    match x? {
        Arg::Pair(_) => Err(Refusal {
            code: Code::ExpectedAtom,
            node: n,
        }),
        Arg::Bytes(_, start, end) => Ok(Atom::Range(start, end)),
        Arg::Small(v) => Ok(Atom::Value(v)),
    }
}

// How many bytes an atom has.
pub fn length(x: Atom) -> usize
    ensures { result ≡ atom_length (atom_paper x) }
{
    match x {
        Atom::Range(start, end) => end.saturating_sub(start),
        Atom::Value(v) => node::len_for_value(v),
    }
}

// An atom argument, tested for 5 not valid, 1 unsound slot and 6 a pair.
pub fn atom_of(a: &Allocator, atoms: AtomSlots, n: u32) -> Result<Atom, Refusal>
    requires { AtomsWithin a.now atoms.starts.now atoms.ends.now }
    ensures value { said_by atom_paper result ≡ atom_of a.now (atoms_of atoms.entry) n }
    ensures facts { IfOk result (λ x. AtomIn a.now (atom_paper x)) }
{
    atom_arg(n, arg(a, atoms, n))
}
