// What a restore with a node is to do, decided on numbers before any slot is touched.
#![tactic(auto, unfolding(rules::specs::Said::need))]

ghost use Rattle.std.specs.Prelude.{◌≡◌, ◌&&◌, true, leb, IfOk};
ghost use Rattle.std.specs.Bool.{OnTrue};
ghost use Rattle.rules.specs.State.{slots_sound, lists};
ghost use Rattle.rules.specs.Lent.{atoms_of, pairs_of, AtomsWithin, PairsWithin};
ghost use Rattle.rules.specs.Reads.{arg as arg_rule, node as node_rule};
ghost use Rattle.rules.specs.Restores.{usable as usable_rule, node_course, course as course_rule};
ghost use Rattle.rules.specs.Paper.{said_by};
ghost use Rattle.rules.proofs.Limits.{Below};
ghost use Rattle.restores.specs.Course.{course_paper, visited_course};
ghost use Rattle.restores.specs.Able.{Able};

use reads::arg;
use rules::{Allocator, Arg, AtomSlots, Code, Counts, NIL, NodeVisitor, PairSlots, Refusal, need};
use state::{record, sound};

// An atom of more bytes is not cloned.
const CLONE_ATOM_LIMIT: usize = 48;
// A restore that frees less is not worth it.
const MIN_SAVINGS: usize = 1024;

// Leave all as it is; restore; restore and give a range a new slot; restore and make an atom of the bytes again.
#[derive(Clone, Copy)]
pub enum Course {
    Abort,
    Keep,
    Share(usize, usize),
    Copy(usize, usize),
}

// Whether none of the checkpoint's counts is above the used one.
fn within(k: &Counts, used: &Counts) -> bool
    ensures value { result ≡ (leb k.now.bytes used.now.bytes && leb k.now.atoms used.now.atoms && leb k.now.pairs used.now.pairs) }
    ensures facts { OnTrue result (Below k.now used.now) }
{
    k.bytes <= used.bytes && k.atoms <= used.atoms && k.pairs <= used.pairs
}

// Whether the state can be cut to k: by a scan of the slots that would be kept.
#[tactic(auto, unfolding(rules::specs::Restores::usable))]
pub fn usable(k: &Counts, a: &Allocator, atoms: AtomSlots, pairs: PairSlots) -> bool
    requires { AtomsWithin a.now atoms.starts.now atoms.ends.now × PairsWithin a.now pairs.firsts.now pairs.rests.now }
    ensures value { result ≡ usable_rule k.now a.now (atoms_of atoms.entry) (pairs_of pairs.entry) }
    ensures facts { OnTrue result (Below k.now a.now.used) }
{
    within(k, &a.used) && sound::atom_slots_sound(k, atoms) && sound::pair_slots_sound(k, pairs)
}

// A node whose bytes are new: an atom of few bytes can be made again; the heap is tested before anything is cut.
fn new_course(a: &Allocator, atoms: AtomSlots, pairs: PairSlots, n: u32) -> Result<Course, Refusal>
    requires { slots_sound a.now (atoms_of atoms) (pairs_of pairs) ≡ true }
    ensures { said_by course_paper result ≡ visited_course a.now (node_rule a.now (atoms_of atoms.entry) (pairs_of pairs.entry) n) }
{
    let Ok(NodeVisitor::Buffer(start, end)) = reads::node(a, atoms, pairs, n) else {
        return Ok(Course::Abort);
    };
    if CLONE_ATOM_LIMIT < end - start {
        return Ok(Course::Abort);
    }
    need(
        a.used.bytes + a.ghosts.bytes <= a.limit,
        Code::OutOfMemory,
        NIL,
    )?;
    Ok(Course::Copy(start, end))
}

// By the status of the node: before the checkpoint, with old bytes, or with new ones: 5 not valid, 1 unsound slot, 12 invalid range.
#[tactic(auto, using(crate::proofs::Visits::course_by_arg), unfolding(rules::specs::Said::need))]
fn node_course(
    k: &Counts,
    a: &Allocator,
    atoms: AtomSlots,
    pairs: PairSlots,
    n: u32,
) -> Result<Course, Refusal>
    requires { slots_sound a.now (atoms_of atoms) (pairs_of pairs) ≡ true }
    ensures { said_by course_paper result ≡ node_course k.now a.now (arg_rule a.now (atoms_of atoms.entry) n) }
{
    match arg::arg(a, atoms, n)? {
        Arg::Small(_) => Ok(Course::Keep),
        Arg::Pair(i) if i < k.pairs => Ok(Course::Keep),
        Arg::Pair(_) => new_course(a, atoms, pairs, n),
        Arg::Bytes(i, _, _) if i < k.atoms => Ok(Course::Keep),
        Arg::Bytes(_, start, end) if start < k.bytes => {
            need(end <= k.bytes, Code::InvalidRange, NIL)?;
            Ok(Course::Share(start, end))
        }
        Arg::Bytes(..) => new_course(a, atoms, pairs, n),
    }
}

// All in order: 1 unsound, 11 not usable, the savings with no look at the node, then the node.
#[tactic(auto, unfolding(rules::specs::Said::need, rules::specs::Restores::course))]
pub fn course_of(
    k: &Counts,
    a: &Allocator,
    bytes: &[u8],
    atoms: AtomSlots,
    pairs: PairSlots,
    n: u32,
) -> Result<Course, Refusal>
    ensures value { said_by course_paper result ≡ course_rule k.now n a.now (lists bytes.now (atoms_of atoms.entry) (pairs_of pairs.entry)) }
    ensures facts { IfOk result (λ c. Able k.now a.now (lists bytes.now (atoms_of atoms.entry) (pairs_of pairs.entry)) (course_paper c)) }
{
    need(
        sound::lists_sound(
            a,
            bytes.len(),
            atoms.starts.len(),
            atoms.ends.len(),
            pairs.firsts.len(),
            pairs.rests.len(),
        ),
        Code::Unsound,
        NIL,
    )?;
    need(usable(k, a, atoms, pairs), Code::NotUsable, NIL)?;
    if record::savings(*k, *a) < MIN_SAVINGS {
        return Ok(Course::Abort);
    }
    node_course(k, a, atoms, pairs, n)
}
