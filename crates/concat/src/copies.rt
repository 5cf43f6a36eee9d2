// The copying of a concat's terms behind the used bytes, after all tests.
#![tactic(auto)]

ghost use Rattle.std.specs.Prelude.{◌≡◌, ◌+◌, ◌-◌, ◌≤◌, length};
ghost use Rattle.std.proofs.Math.Seq.{slice};
ghost use Rattle.rules.specs.Small.{len_for, small_bytes};
ghost use Rattle.rules.specs.State.{over, store};
ghost use Rattle.rules.specs.Lent.{atoms_of, AtomsWithin};
ghost use Rattle.rules.specs.Reads.{atom_of};
ghost use Rattle.rules.specs.Creates.{term_bytes, joined};

use reads::arg;
use rules::{Allocator, Atom, AtomSlots};

// A small atom's bytes at `at`, and where they end.
fn copy_small(bytes: &mut [u8], v: u32, at: usize) -> usize
    requires { at + len_for v ≤ length bytes.old }
    ensures written { bytes.new ≡ over bytes.old at (small_bytes v) }
    ensures end { result ≡ at + len_for v }
{
    let len = node::len_for_value(v);
    node::put_be(&mut bytes[at..], v as u64, len);
    at + len
}

// bytes[start..end] again at `at`, which lies behind them.
fn copy_range(bytes: &mut [u8], start: usize, end: usize, at: usize)
    requires { (start ≤ end) × (end ≤ at) × (at + (end - start) ≤ length bytes.old) }
    ensures { bytes.new ≡ over bytes.old at (slice start end bytes.old) }
{
    let (used, free) = bytes.split_at_mut(at);
    octets::copy(&used[start..end], free);
}

// One term's bytes at `at`, and where the next term's begin. What is read lies before the used bytes' end, so before `at`.
fn copy_term(a: &Allocator, bytes: &mut [u8], atoms: AtomSlots, n: u32, at: usize) -> usize
    requires atoms_within { AtomsWithin a.now atoms.starts.now atoms.ends.now × (a.now.used.bytes ≤ at) }
    requires fits { at + length (term_bytes bytes.old (atom_of a.now (atoms_of atoms) n)) ≤ length bytes.old }
    ensures written { bytes.new ≡ over bytes.old at (term_bytes bytes.old (atom_of a.now (atoms_of atoms.entry) n)) }
    ensures end { result ≡ at + length (term_bytes bytes.old (atom_of a.now (atoms_of atoms.entry) n)) }
{
    match arg::atom_of(a, atoms, n) {
        Ok(Atom::Range(start, end)) => {
            copy_range(bytes, start, end, at);
            at + (end - start)
        }
        Ok(Atom::Value(v)) => copy_small(bytes, v, at),
        Err(_) => at,
    }
}

// All terms, one behind the other, from the end of the used bytes on.
pub fn copy_terms(a: &Allocator, bytes: &mut [u8], atoms: AtomSlots, nodes: &[u32])
    requires atoms_within { AtomsWithin a.now atoms.starts.now atoms.ends.now }
    requires fits { a.now.used.bytes + length (joined a.now (store bytes.old (atoms_of atoms)) nodes.now) ≤ length bytes.old }
    ensures { bytes.new ≡ over bytes.old a.now.used.bytes (joined a.now (store bytes.old (atoms_of atoms.entry)) nodes.now) }
{
    let mut at = a.used.bytes;
    for n in nodes {
        at = copy_term(a, bytes, atoms, *n, at);
    }
}
