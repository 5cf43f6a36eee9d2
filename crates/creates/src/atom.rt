// New atoms: from bytes, from a small number, from integers.
#![tactic(auto, unfolding(rules::specs::Said::need))]

ghost use Rattle.std.specs.Prelude.{◌≡◌, ◌+◌, ◌≤◌, ◌<◌, length, OnOk};
ghost use Rattle.std.specs.Bool.{OnTrue};
ghost use Rattle.rules.specs.Small.{fits};
ghost use Rattle.rules.specs.Said.{no_lists};
ghost use Rattle.rules.specs.Lent.{store_lent, SameStore};
ghost use Rattle.rules.specs.Creates.{limit_tests, store_room_at, store_atom, small_or, new_atom, new_small_number, new_i64};
ghost use Rattle.rules.specs.Paper.{verdict_paper, made};
ghost use Rattle.rules.proofs.Limits.{Limits};

use integer::Integer;
use rules::{Allocator, AtomStore, Code, NIL, ObjectType, Refusal, need};
use state::{record, sound};

// Whether an atom of len bytes is within the limits: 2 out of memory, then 3 too many atoms.
fn limit_tests(a: &Allocator, len: usize) -> Result<(), Refusal>
    requires { Limits a.now }
    ensures value { verdict_paper result ≡ limit_tests a.now len }
    ensures room { OnOk result ((a.now.used.bytes + a.now.ghosts.bytes + len ≤ a.now.limit) × (a.now.used.atoms + a.now.ghosts.atoms < 62500000)) }
{
    need(
        sound::total(a.used.bytes + a.ghosts.bytes, len) <= a.limit,
        Code::OutOfMemory,
        NIL,
    )?;
    need(
        a.used.atoms + a.ghosts.atoms < sound::MOST,
        Code::TooManyAtoms,
        NIL,
    )
}

// Whether slices of these lengths can hold len bytes and one slot more.
pub fn store_room(a: &Allocator, len: usize, bytes: usize, starts: usize, ends: usize) -> bool
    requires { a.now.used.atoms < 62500000 }
    ensures value { result ≡ store_room_at a.now len bytes starts ends }
    ensures room { OnTrue result ((a.now.used.bytes + len ≤ 4294967295) × (a.now.used.bytes + len ≤ bytes)
        × (a.now.used.atoms < starts) × (a.now.used.atoms < ends)) }
{
    let end = sound::total(a.used.bytes, len);
    if record::TOP < end {
        return false;
    }
    if bytes < end {
        return false;
    }
    sound::fit(a.used.atoms + 1, starts, ends)
}

// Bytes and one slot for v, where there is room for them.
#[tactic(auto, unfolding(rules::specs::Said::need, rules::specs::Creates::store_atom))]
pub fn store_atom(a: &mut Allocator, store: &mut AtomStore, v: &[u8]) -> Result<u32, Refusal>
    requires { a.old.used.atoms < 62500000 }
    ensures value { made result a.new (store_lent store.new)
        ≡ store_atom a.old v.now (store_lent store.old) }
    ensures same { SameStore store.old store.new }
{
    let (starts, ends) = (store.starts.len(), store.ends.len());
    let room = store_room(a, v.len(), store.bytes.len(), starts, ends);
    need(room, Code::Full, NIL)?;
    let from = a.used.bytes;
    let at = a.used.atoms;
    octets::copy(v, &mut store.bytes[from..]);
    store.starts[at] = from as u32;
    store.ends[at] = (from + v.len()) as u32;
    *a = record::used_atom(v.len(), *a);
    Ok(node::of(ObjectType::Bytes, at as u32))
}

// A fitting value becomes small, counted as so many ghost bytes; another is stored.
pub fn small_or(
    a: &mut Allocator,
    store: &mut AtomStore,
    v: &[u8],
    counted: usize,
) -> Result<u32, Refusal>
    requires { (a.old.used.atoms + a.old.ghosts.atoms < 62500000) × (a.old.ghosts.bytes + counted ≤ 8589934590) }
    ensures value { made result a.new (store_lent store.new)
        ≡ small_or (fits v.now) counted a.old v.now (store_lent store.old) }
    ensures same { SameStore store.old store.new }
{
    match node::fits_in_small_atom(v) {
        Some(n) => {
            *a = record::ghost_atom(counted, *a);
            Ok(node::of(ObjectType::SmallAtom, n))
        }
        None => store_atom(a, store, v),
    }
}

// A new atom of the bytes v.
#[tactic(auto, unfolding(rules::specs::Said::need, rules::specs::Creates::atom_tests))]
pub fn new_atom(a: &mut Allocator, store: &mut AtomStore, v: &[u8]) -> Result<u32, Refusal>
    ensures value { made result a.new (store_lent store.new)
        ≡ new_atom a.old v.now (store_lent store.old) }
    ensures same { SameStore store.old store.new }
{
    need(
        sound::bytes_sound(a, store.bytes.len(), store.starts.len(), store.ends.len()),
        Code::Unsound,
        NIL,
    )?;
    limit_tests(a, v.len())?;
    small_or(a, store, v, v.len())
}

// A new small atom of the value v: only ghosts grow.
#[tactic(auto, unfolding(rules::specs::Said::need, rules::specs::Creates::small_tests))]
pub fn new_small_number(a: &mut Allocator, v: u32) -> Result<u32, Refusal>
    ensures { made result a.new no_lists ≡ new_small_number a.old v }
{
    let len = node::len_for_value(v);
    need(sound::limits_sound(a), Code::Unsound, NIL)?;
    need(v <= node::LARGEST_SMALL, Code::TooLarge, NIL)?;
    limit_tests(a, len)?;
    *a = record::ghost_atom(len, *a);
    Ok(node::of(ObjectType::SmallAtom, v))
}

// A new atom of an integer: its shortest bytes in two's complement. new_u64 and new_i64 are this, of the two types.
pub fn new_integer<T: Integer>(
    a: &mut Allocator,
    store: &mut AtomStore,
    x: T,
) -> Result<u32, Refusal>
    ensures value { made result a.new (store_lent store.new)
        ≡ new_i64 a.old (T.value x) (store_lent store.old) }
    ensures same { SameStore store.old store.new }
{
    let mut buf = [0u8; 9];
    let n = integer::write(&mut buf, x);
    new_atom(a, store, &buf[..n])
}
