// atom: the bytes of an atom, as a part of the byte store or of a scratch of four bytes. Two calls with the same arguments: the first
// writes a small atom's value into the scratch and tells the code, or where the bytes are; the second hands back the part.
#![tactic(auto, unfolding(rules::specs::Said::need))]

ghost use Rattle.std.specs.Prelude.{◌≡◌, IfOk, length};
ghost use Rattle.rules.specs.Said.{says, done, says_of};
ghost use Rattle.rules.specs.Lent.{atoms_of};
ghost use Rattle.rules.specs.Reads.{atom as atom_rule, scratch_after, part_bytes};
ghost use Rattle.rules.specs.Paper.{said_by, atom_paper, verdict_paper};
ghost use Rattle.reads.specs.Parts.{block_of, offset_of, atom_lent, PartIn};

use super::arg;
use rules::{Allocator, Atom, AtomSlots, Code, NIL, Refusal, need};
use state::sound;

// Where an atom's bytes are to be found, beside a scratch of this length.
#[tactic(auto, unfolding(rules::specs::Said::need, rules::specs::Reads::atom))]
fn part_of(
    a: &Allocator,
    bytes: &[u8],
    atoms: AtomSlots,
    n: u32,
    scratch: usize,
) -> Result<Atom, Refusal>
    ensures value { said_by atom_paper result ≡ atom_rule a.now bytes.now (atoms_of atoms.entry) n scratch }
    ensures facts { IfOk result (λ x. PartIn (length bytes.now) scratch (says (atom_paper x))) }
{
    need(
        sound::bytes_sound(a, bytes.len(), atoms.starts.len(), atoms.ends.len()),
        Code::Unsound,
        NIL,
    )?;
    match arg::atom_of(a, atoms, n)? {
        Atom::Range(start, end) => Ok(Atom::Range(start, end)),
        Atom::Value(v) => {
            need(scratch == 4, Code::Full, NIL)?;
            Ok(Atom::Value(v))
        }
    }
}

// Writes a small atom's value into the scratch, else leaves it as it was; and tells where the bytes are.
pub fn filled(
    a: &Allocator,
    bytes: &[u8],
    atoms: AtomSlots,
    scratch: &mut [u8],
    n: u32,
) -> Result<Atom, Refusal>
    ensures answer { said_by atom_paper result ≡ atom_lent a.now bytes.now (atoms_of atoms.entry) scratch.old n }
    ensures scratch { scratch.new ≡ scratch_after (atom_lent a.now bytes.now (atoms_of atoms.entry) scratch.old n) scratch.old }
{
    let part = part_of(a, bytes, atoms, n, scratch.len())?;
    if let Atom::Value(v) = part {
        node::put_be(scratch, v as u64, 4);
    }
    Ok(part)
}

// The same, telling the code alone.
pub fn fill(
    a: &Allocator,
    bytes: &[u8],
    atoms: AtomSlots,
    scratch: &mut [u8],
    n: u32,
) -> Result<(), Refusal>
    ensures answer { verdict_paper result ≡ says_of (λ x. done) (atom_lent a.now bytes.now (atoms_of atoms.entry) scratch.old n) }
    ensures scratch { scratch.new ≡ scratch_after (atom_lent a.now bytes.now (atoms_of atoms.entry) scratch.old n) scratch.old }
{
    filled(a, bytes, atoms, scratch, n)?;
    Ok(())
}

// The part that holds an atom's bytes, once the scratch is filled; an empty one where the first call refuses.
pub fn atom<'a>(
    a: &Allocator,
    bytes: &'a [u8],
    atoms: AtomSlots,
    scratch: &'a [u8],
    n: u32,
) -> &'a [u8]
    ensures part { result.now
        ≡ part_bytes bytes.now scratch.now (atom_lent a.now bytes.now (atoms_of atoms.entry) scratch.now n) }
    ensures block { result.ref_ptr.0
        ≡ block_of bytes.entry.ref_ptr.0 scratch.entry.ref_ptr.0 (atom_lent a.now bytes.now (atoms_of atoms.entry) scratch.now n) }
    ensures offset { result.ref_ptr.1
        ≡ offset_of bytes.entry.ref_ptr.1 scratch.entry.ref_ptr.1 (atom_lent a.now bytes.now (atoms_of atoms.entry) scratch.now n) }
{
    match part_of(a, bytes, atoms, n, scratch.len()) {
        Ok(Atom::Range(start, end)) => &bytes[start..end],
        Ok(Atom::Value(v)) => {
            let from = 4 - node::len_for_value(v);
            &scratch[from..]
        }
        Err(_) => &bytes[0..0],
    }
}
