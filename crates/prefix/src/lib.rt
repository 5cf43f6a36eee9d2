// The numbers of the serialised form, and the prefixes of its atoms: one small table, and the two searches of it (document 02, W1).
#![tactic(auto)]

ghost use Rattle.std.specs.Prelude.{◌≡◌, ◌≤◌, ◌<◌};
ghost use Rattle.rules.specs.Serial.{base_of, limit_of, extra as extra_of, extra_for};

// The levels that a file may have, the root being level 1.
pub const LEVELS: usize = 4096;
// What a pair starts with.
pub const PAIR: u8 = 0xff;

// A prefix: where its first byte starts, and the first length that is too long for it.
#[derive(Clone, Copy)]
struct Prefix {
    base: u8,
    limit: u64,
}

// Entry k is the prefix of k + 1 bytes.
const PREFIXES: [Prefix; 5] = [
    Prefix {
        base: 0x80,
        limit: 0x40,
    },
    Prefix {
        base: 0xc0,
        limit: 0x2000,
    },
    Prefix {
        base: 0xe0,
        limit: 0x100000,
    },
    Prefix {
        base: 0xf0,
        limit: 0x8000000,
    },
    Prefix {
        base: 0xf8,
        limit: 0x400000000,
    },
];

// Entry k, by the table's rule.
#[tactic(auto, unfolding(rules::specs::Serial::base_of, rules::specs::Serial::limit_of))]
fn entry(k: usize) -> Prefix
    requires { k < 5 }
    ensures base { result.base ≡ base_of k }
    ensures limit { result.limit ≡ limit_of k }
{
    PREFIXES[k]
}

// Where a prefix of k + 1 bytes starts.
pub fn base(k: usize) -> u64
    requires { k < 5 }
    ensures { result ≡ base_of k }
{
    u64::from(entry(k).base)
}

// How many bytes a prefix that starts with b has after it: the next base is above b.
pub fn extra(b: u8) -> usize
    ensures { (result ≡ extra_of b) × (result ≤ 4) }
{
    PREFIXES[1..]
        .iter()
        .position(|next| b < next.base)
        .unwrap_or(4)
}

// How many bytes the shortest prefix for a length has after its first.
pub fn extra_for(len: u64) -> usize
    ensures { (result ≡ extra_for len) × (result ≤ 4) }
{
    PREFIXES[..4]
        .iter()
        .position(|prefix| len < prefix.limit)
        .unwrap_or(4)
}
