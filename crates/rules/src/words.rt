// The record and a checkpoint as words of the memory in which they lie, for they cross to C as they are: a word's number says how far
// from the start it lies, eight bytes each, and so which number of the C header's struct it is.
ghost use Rattle.std.specs.Prelude.{◌≡◌, ◌+◌, ◌*◌, ◌<◌, get_or};
ghost use Rattle.rules.specs.Words.{counts_words, plain_words, record_words};

use super::{Allocator, Checkpoint, Counts};

// Word i of a transparent checkpoint, and of the counts of a record.
pub fn of_counts(k: &Counts, i: usize) -> &usize
    requires { i < 3 }
    ensures block { result.ref_ptr.0 ≡ k.entry.ref_ptr.0 }
    ensures place { result.ref_ptr.1 ≡ k.entry.ref_ptr.1 + 8 * i }
    ensures value { result.now ≡ get_or (counts_words k.now) i 0 }
{
    match i {
        0 => &k.atoms,
        1 => &k.pairs,
        _ => &k.bytes,
    }
}

// Word i of a plain checkpoint.
pub fn of_plain(k: &Checkpoint, i: usize) -> &usize
    requires { i < 6 }
    ensures block { result.ref_ptr.0 ≡ k.entry.ref_ptr.0 }
    ensures place { result.ref_ptr.1 ≡ k.entry.ref_ptr.1 + 8 * i }
    ensures value { result.now ≡ get_or (plain_words k.now) i 0 }
{
    match i {
        0..=2 => of_counts(&k.used, i),
        _ => of_counts(&k.ghosts, i - 3),
    }
}

// Word i of a record.
pub fn of_record(a: &Allocator, i: usize) -> &usize
    requires { i < 7 }
    ensures block { result.ref_ptr.0 ≡ a.entry.ref_ptr.0 }
    ensures place { result.ref_ptr.1 ≡ a.entry.ref_ptr.1 + 8 * i }
    ensures value { result.now ≡ get_or (record_words a.now) i 0 }
{
    match i {
        0..=2 => of_counts(&a.used, i),
        3..=5 => of_counts(&a.ghosts, i - 3),
        _ => &a.limit,
    }
}
