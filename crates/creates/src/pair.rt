// New pairs.
ghost use Rattle.std.specs.Prelude.{◌≡◌};
ghost use Rattle.rules.specs.Lent.{pair_store_lent, SamePairStore};
ghost use Rattle.rules.specs.Creates.{new_pair};
ghost use Rattle.rules.specs.Paper.{made};

use rules::{Allocator, Code, NIL, ObjectType, PairStore, Refusal, need};
use state::{record, sound};

// A new pair of two nodes: 1 unsound, 5 not valid for first, then for rest, 4 too many pairs, 15 full.
#[tactic(auto, unfolding(rules::specs::Said::need, rules::specs::Creates::pair_tests))]
pub fn new_pair(
    a: &mut Allocator,
    store: &mut PairStore,
    first: u32,
    rest: u32,
) -> Result<u32, Refusal>
    ensures value { made result a.new (pair_store_lent store.new)
        ≡ new_pair a.old first rest (pair_store_lent store.old) }
    ensures same { SamePairStore store.old store.new }
{
    let at = a.used.pairs;
    need(
        sound::pairs_sound(a, store.firsts.len(), store.rests.len()),
        Code::Unsound,
        NIL,
    )?;
    need(sound::valid(first, a.used.atoms, at), Code::NotValid, NIL)?;
    need(sound::valid(rest, a.used.atoms, at), Code::NotValid, NIL)?;
    need(at + a.ghosts.pairs < sound::MOST, Code::TooManyPairs, NIL)?;
    need(
        sound::fit(at + 1, store.firsts.len(), store.rests.len()),
        Code::Full,
        NIL,
    )?;
    store.firsts[at] = first;
    store.rests[at] = rest;
    *a = record::used_pair(*a);
    Ok(node::of(ObjectType::Pair, at as u32))
}
