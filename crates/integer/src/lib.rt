// The shortest big-endian two's complement bytes of an integer of 64 bits, signed or not.
#![tactic(auto)]

ghost use Rattle.std.specs.Prelude.{◌≡◌, ◌≤◌, ℤ, pos, length};
ghost use Rattle.std.specs.Int.Signed.{mag};
ghost use Rattle.std.specs.Int.{w64, cast_unsigned, is_negative};
ghost use Rattle.rules.specs.Integer.{count_from, count_of};
ghost use Rattle.integer.specs.Word.{IsWord};
ghost use Rattle.integer.specs.Written.{Written};

// 2^7, 2^15 to 2^63: half of each power of 256.
const THRESHOLDS: [u64; 8] = [
    128,
    32768,
    8388608,
    2147483648,
    549755813888,
    140737488355328,
    36028797018963968,
    9223372036854775808,
];

// An integer of 64 bits.
pub trait Integer: Copy {
    // The number that it is.
    ghost value: { Self → ℤ };

    // Whether it is below zero.
    fn below_zero(self) -> bool
        ensures { result ≡ is_negative (value self) };

    // Its 64 bits, in two's complement.
    fn bits(self) -> u64
        ensures fits { IsWord (value self) }
        ensures value { result ≡ cast_unsigned w64 (value self) };
}

impl Integer for u64 {
    ghost value = { pos };

    fn below_zero(self) -> bool {
        false
    }

    fn bits(self) -> u64 {
        self
    }
}

impl Integer for i64 {
    ghost value = { λ x. x };

    fn below_zero(self) -> bool {
        self < 0
    }

    fn bits(self) -> u64 {
        self.cast_unsigned()
    }
}

// The number, or below zero its mirror, -1 less the number, which takes as many bytes.
fn magnitude<T: Integer>(x: T) -> u64
    ensures { result ≡ mag (T.value x) }
{
    let bits = x.bits();
    if x.below_zero() {
        u64::MAX - bits
    } else {
        bits
    }
}

// How many bytes keep the sign bit clear of a magnitude: one for each threshold that it reaches, and one.
fn width(m: u64) -> usize
    ensures { result ≡ count_from 8 1 m }
{
    THRESHOLDS.iter().position(|t| m < *t).unwrap_or(8) + 1
}

// How many bytes x takes: none if it is zero.
pub fn count<T: Integer>(x: T) -> usize
    ensures { result ≡ count_of (T.value x) }
{
    if x.bits() == 0 {
        0
    } else {
        width(magnitude(x))
    }
}

// Writes x to the front of buf, and answers how many bytes it took.
pub fn write<T: Integer>(buf: &mut [u8], x: T) -> usize
    requires { 9 ≤ length buf.old }
    ensures { Written (T.value x) result buf.old buf.new }
{
    let n = count(x);
    node::put_be(buf, x.bits(), n);
    n
}
