// The bits of a node, small atoms, and the big-endian bytes of a number.
#![tactic(auto, unfolding(rules::specs::Reads::object_type_of, rules::specs::Node::view, rules::specs::Node::view_of))]

ghost use Rattle.std.specs.Prelude.{IfSome, IfErr, ◌≡◌, ◌∷◌, ◌++◌, ◌≤◌, ◌<◌, length, drop, take, ◌-◌};
ghost use Rattle.rules.specs.Node.{view as viewed, node_of};
ghost use Rattle.rules.proofs.Args.{Low};
ghost use Rattle.rules.specs.Small.{big as big_of, be, fits, len_for, small_bytes as own_bytes};
ghost use Rattle.rules.specs.Reads.{kind_number, object_type, node_index, is_atom, is_pair};
ghost use Rattle.rules.specs.Paper.{said_in, said_by, view_in, kind_paper, option_paper};

use rules::{Code, NIL, ObjectType, Refusal, View};

// How many indices, or small values, a kind has: an index takes 26 bits.
const INDICES: u32 = 67108864;
// The largest value of a small atom.
pub const LARGEST_SMALL: u32 = 67108863;

// The number that a first digit and at most seven bytes write, big-endian.
pub fn read_be(first: u64, more: &[u8]) -> u64
    requires { (first < 256) × (length more.now ≤ 7) }
    ensures { result ≡ big_of (first ∷ more.now) }
{
    let mut n = first;
    for b in more {
        n = n * 256 + u64::from(*b);
    }
    n
}

// The number that at most four big-endian bytes write.
fn big(v: &[u8]) -> u32
    requires { length v.now ≤ 4 }
    ensures { result ≡ big_of v.now }
{
    read_be(0, v) as u32
}

// What a number is as a node: the kind in the top 6 bits, the index or the value in the low 26. Above 2 there is no kind: such a node is valid
// in no state.
pub fn view(n: u32) -> Result<View, Refusal>
    ensures value { view_in result ≡ viewed n }
    ensures low { Low (view_in result) }
    ensures refused { IfErr result (λ r. (r.code ≡ Code.NotValid) × (r.node ≡ 134217728)) }
{
    let index = n % INDICES;
    match n / INDICES {
        0 => Ok(View::Pair(index as usize)),
        1 => Ok(View::Bytes(index as usize)),
        2 => Ok(View::Small(index)),
        _ => Err(Refusal {
            code: Code::NotValid,
            node: NIL,
        }),
    }
}

// The node of a kind's number with an index or a value, which the caller keeps within the bits they have.
pub fn new(kind: u32, index: u32) -> u32
    requires { (kind < 64) × (index < 67108864) }
    ensures { result ≡ node_of kind index }
{
    kind * INDICES + index
}

// The node of a kind.
pub fn of(kind: ObjectType, index: u32) -> u32
    requires { index < 67108864 }
    ensures { result ≡ node_of (kind_number (kind_paper kind)) index }
{
    new(kind as u32, index)
}

// The kind of a node.
pub fn object_type(n: u32) -> Result<ObjectType, Refusal>
    ensures { said_by kind_paper result ≡ object_type n }
{
    match view(n)? {
        View::Pair(_) => Ok(ObjectType::Pair),
        View::Bytes(_) => Ok(ObjectType::Bytes),
        View::Small(_) => Ok(ObjectType::SmallAtom),
    }
}

// The low 26 bits of a node that has a kind.
pub fn index(n: u32) -> Result<usize, Refusal>
    ensures { said_in result ≡ node_index n }
{
    object_type(n)?;
    Ok((n % INDICES) as usize)
}

// Whether a node is an atom, of either kind.
pub fn is_atom(n: u32) -> Result<bool, Refusal>
    ensures { said_in result ≡ is_atom n }
{
    match view(n)? {
        View::Pair(_) => Ok(false),
        View::Bytes(_) => Ok(true),
        View::Small(_) => Ok(true),
    }
}

// Whether a node is a pair.
pub fn is_pair(n: u32) -> Result<bool, Refusal>
    ensures { said_in result ≡ is_pair n }
{
    match view(n)? {
        View::Pair(_) => Ok(true),
        View::Bytes(_) | View::Small(_) => Ok(false),
    }
}

// How many bytes the shortest form of a value takes: the top bit of the first byte is a sign, so one byte holds the values below 0x80 only.
pub fn len_for_value(v: u32) -> usize
    ensures { result ≡ len_for v }
{
    if v == 0 {
        0
    } else if v < 0x80 {
        1
    } else if v < 0x8000 {
        2
    } else if v < 0x800000 {
        3
    } else if v < 0x80000000 {
        4
    } else {
        5
    }
}

// Whether bytes are the shortest form of a number of 26 bits, and that number. A first byte from 0x80 on is a minus sign; a first 00 is
// allowed only where the next byte would else be one.
pub fn fits_in_small_atom(v: &[u8]) -> Option<u32>
    ensures value { option_paper result ≡ fits v.now }
    ensures low { IfSome result (λ x. x < 67108864) }
{
    let n = v.len();
    if n == 0 {
        return Some(0);
    }
    if 4 < n {
        return None;
    }
    let first = v[0];
    if 0x80 <= first {
        return None;
    }
    if first == 0 {
        if n == 1 {
            return None;
        }
        if v[1] < 0x80 {
            return None;
        }
        return Some(big(v));
    }
    if n == 4 {
        if 3 < first {
            return None;
        }
        return Some(big(v));
    }
    Some(big(v))
}

// Writes the low n bytes of v at the front of buf, the last byte first.
pub fn put_be(buf: &mut [u8], v: u64, n: usize)
    requires { n ≤ length buf.old }
    ensures { buf.new ≡ be n v ++ drop n buf.old }
{
    let mut rest = v;
    for i in (0..n).rev() {
        buf[i] = (rest % 256) as u8;
        rest /= 256;
    }
}

// A small atom's bytes: they are the last of the value's four, from the place beside them.
pub fn small_bytes(v: u32) -> ([u8; 4], usize)
    requires { v < 67108864 }
    ensures bytes { take (4 - result.1) (drop result.1 result.0) ≡ own_bytes v }
    ensures within { result.1 ≤ 4 }
{
    let mut buf = [0u8; 4];
    put_be(&mut buf, v as u64, 4);
    (buf, 4 - len_for_value(v))
}
