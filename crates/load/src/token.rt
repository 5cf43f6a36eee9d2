// What stands in a program file at a place: a pair's first byte, an atom, or nothing that an item starts with.
#![tactic(auto, unfolding(rules::specs::Serial::token))]

ghost use Rattle.std.specs.Prelude.{◌≡◌, ◌≤◌, ◌<◌, length, get_or};
ghost use Rattle.rules.specs.Serial.{base_of, prefixed as prefixed_of, token as token_of};
ghost use Rattle.load.specs.Tokens.{token_paper};

// What starts an item: ff; or an atom, from where its bytes start to where the next item does.
#[derive(Clone, Copy)]
pub enum Token {
    Opening,
    String(usize, usize),
}

// From here on no prefix starts.
const NO_PREFIX: u8 = 0xfc;

// The atom behind a prefix that has k bytes after its first, unless the file cuts it short.
fn prefixed(f: &[u8], at: usize, k: usize) -> Option<Token>
    requires { (k ≤ 4) × (at < length f.now) × (base_of k ≤ get_or f.now at 0) }
    ensures { token_paper result ≡ prefixed_of f.now at k }
{
    let left = f.len() - at - 1;
    if left < k {
        return None;
    }
    let from = at + 1 + k;
    let first = f[at] as u64 - prefix::base(k);
    let len = node::read_be(first, &f[at + 1..from]) as usize;
    if left - k < len {
        return None;
    }
    Some(Token::String(from, from + len))
}

// The token at a place, by its first byte; none past the end, behind a byte that starts nothing, or cut short.
pub fn token_at(f: &[u8], at: usize) -> Option<Token>
    ensures { token_paper result ≡ token_of f.now at }
{
    if f.len() <= at {
        return None;
    }
    let b = f[at];
    if b < 0x80 {
        return Some(Token::String(at, at + 1));
    }
    if b == prefix::PAIR {
        return Some(Token::Opening);
    }
    if NO_PREFIX <= b {
        return None;
    }
    prefixed(f, at, prefix::extra(b))
}
