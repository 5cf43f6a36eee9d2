// The measuring of a concat's terms: left to right, stopping at the first faulty one. It writes nothing.
#![tactic(auto, unfolding(rules::specs::Said::need))]

ghost use Rattle.std.specs.Prelude.{◌≡◌, ◌+◌, ◌≤◌, IfOk};
ghost use Rattle.rules.specs.Lent.{atoms_of, AtomsWithin};
ghost use Rattle.rules.specs.Reads.{atom_of};
ghost use Rattle.rules.specs.Creates.{one_term, scan};
ghost use Rattle.rules.specs.Paper.{said_in, verdict_paper};
ghost use Rattle.concat.specs.Concat.{ran};

use reads::arg;
use rules::{Allocator, Atom, AtomSlots, Code, NIL, Refusal, need};

// Whether an atom has that many bytes.
pub fn measure_one(a: &Allocator, atoms: AtomSlots, size: usize, n: u32) -> Result<(), Refusal>
    requires { AtomsWithin a.now atoms.starts.now atoms.ends.now }
    ensures { verdict_paper result ≡ one_term size (atom_of a.now (atoms_of atoms.entry) n) }
{
    let len = arg::length(arg::atom_of(a, atoms, n)?);
    need(len == size, Code::InvalidSize, NIL)
}

// The running length after one term. Only a Bytes term is tested against the size. A length is kept at one past the size: from there on every
// length is equally wrong, and none overflows.
fn add_term(
    a: &Allocator,
    atoms: AtomSlots,
    size: usize,
    counter: usize,
    n: u32,
) -> Result<usize, Refusal>
    requires atoms_within { AtomsWithin a.now atoms.starts.now atoms.ends.now }
    requires bounds { (a.now.used.bytes ≤ 4294967295) × (size ≤ 4294967295) × (counter ≤ size + 1) }
    ensures value { said_in result ≡ ran size n counter (atom_of a.now (atoms_of atoms.entry) n) }
    ensures bound { IfOk result (λ x. x ≤ size + 1) }
{
    match arg::atom_of(a, atoms, n)? {
        Atom::Range(start, end) => {
            let to = counter + (end - start);
            need(to <= size, Code::InvalidSize, n)?;
            Ok(to)
        }
        Atom::Value(v) => Ok((counter + node::len_for_value(v)).min(size + 1)),
    }
}

// All terms, and at the end their whole length.
pub fn measure(a: &Allocator, atoms: AtomSlots, size: usize, nodes: &[u32]) -> Result<(), Refusal>
    requires atoms_within { AtomsWithin a.now atoms.starts.now atoms.ends.now }
    requires bounds { (a.now.used.bytes ≤ 4294967295) × (size ≤ 4294967295) }
    ensures { verdict_paper result ≡ scan a.now (atoms_of atoms.entry) size nodes.now 0 }
{
    let mut counter: usize = 0;
    for n in nodes {
        counter = add_term(a, atoms, size, counter, *n)?;
    }
    need(counter == size, Code::InvalidSize, NIL)
}
