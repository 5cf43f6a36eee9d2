// Little-endian numbers in a payload.
ghost use Rattle.std.specs.Prelude.{◌≡◌, ◌+◌, ◌/◌, ◌≤◌, length, take};
ghost use Rattle.io.specs.Counts.{IsPrefixLen};
ghost use Rattle.request.specs.Bytes.{u16_at, u32_at, u64_at, u32s};

pub fn u16_at(s: &[u8], i: usize) -> u16
    requires { i + 2 ≤ length s.now }
    ensures { result ≡ u16_at s.now i }
{
    u16::from_le_bytes([s[i], s[i + 1]])
}

pub fn u32_at(s: &[u8], i: usize) -> u32
    requires { i + 4 ≤ length s.now }
    ensures { result ≡ u32_at s.now i }
{
    u32::from_le_bytes([s[i], s[i + 1], s[i + 2], s[i + 3]])
}

pub fn u64_at(s: &[u8], i: usize) -> u64
    requires { i + 8 ≤ length s.now }
    ensures { result ≡ u64_at s.now i }
{
    u64::from_le_bytes([
        s[i],
        s[i + 1],
        s[i + 2],
        s[i + 3],
        s[i + 4],
        s[i + 5],
        s[i + 6],
        s[i + 7],
    ])
}

// Puts the u32 numbers of s at the front of out, and answers how many there are.
pub fn put_u32s(out: &mut [u32], s: &[u8]) -> usize
    requires { length s.now / 4 ≤ length out.old }
    ensures numbers { take result out.new ≡ u32s s.now }
    ensures prefix { IsPrefixLen result out.new }
{
    let n = s.len() / 4;
    for i in 0..n {
        out[i] = u32_at(s, 4 * i);
    }
    n
}
