// An atom's shortest form: a byte below 80 for itself, else the shortest prefix and the bytes.
#![tactic(auto)]

ghost use Rattle.std.specs.Prelude.{◌≡◌, ◌&&◌, ◌+◌, ◌≤◌, ◌<◌, eqb, ltb, length, get_or, take, drop, ◌-◌};
ghost use Rattle.rules.specs.Small.{small_bytes};
ghost use Rattle.rules.specs.State.{over};
ghost use Rattle.rules.specs.Serial.{prefix as prefix_of, extra_for, shortest_atom};

// Whether the bytes stand for themselves.
fn alone(v: &[u8]) -> bool
    ensures { result ≡ (eqb (length v.now) 1 && ltb (get_or v.now 0 0) 0x80) }
{
    v.len() == 1 && v[0] < 0x80
}

// How many bytes the form takes.
pub fn form_len(v: &[u8]) -> usize
    requires { length v.now ≤ 4294967295 }
    ensures { result ≡ length (shortest_atom v.now) }
{
    if alone(v) {
        return 1;
    }
    1 + prefix::extra_for(v.len() as u64) + v.len()
}

// Writes the shortest prefix for a length, and says where the bytes begin. The length is big-endian, with the base added to its first byte.
fn put_prefix(len: usize, file: &mut [u8], at: usize) -> usize
    requires { (len ≤ 4294967295) × (at + (1 + extra_for len) ≤ length file.old) }
    ensures written { file.new ≡ over file.old at (prefix_of (extra_for len) len) }
    ensures end { result ≡ at + (1 + extra_for len) }
{
    let extra = prefix::extra_for(len as u64);
    node::put_be(&mut file[at..], len as u64, extra + 1);
    file[at] += prefix::base(extra) as u8;
    at + 1 + extra
}

// Writes the form at a place, and says where the next begins.
pub fn put_form(v: &[u8], file: &mut [u8], at: usize) -> usize
    requires { (length v.now ≤ 4294967295) × (at + length (shortest_atom v.now) ≤ length file.old) }
    ensures written { file.new ≡ over file.old at (shortest_atom v.now) }
    ensures end { result ≡ at + length (shortest_atom v.now) }
{
    let len = v.len();
    if alone(v) {
        octets::copy(v, &mut file[at..]);
        return at + len;
    }
    let from = put_prefix(len, file, at);
    octets::copy(v, &mut file[from..]);
    from + len
}

// How many bytes the form of a small atom takes.
pub fn small_len(v: u32) -> usize
    requires { v < 67108864 }
    ensures { result ≡ length (shortest_atom (small_bytes v)) }
{
    let (buf, from) = node::small_bytes(v);
    form_len(&buf[from..])
}

// Writes the form of a small atom.
pub fn put_small(v: u32, file: &mut [u8], at: usize) -> usize
    requires { (v < 67108864) × (at + length (shortest_atom (small_bytes v)) ≤ length file.old) }
    ensures written { file.new ≡ over file.old at (shortest_atom (small_bytes v)) }
    ensures end { result ≡ at + length (shortest_atom (small_bytes v)) }
{
    let (buf, from) = node::small_bytes(v);
    put_form(&buf[from..], file, at)
}
