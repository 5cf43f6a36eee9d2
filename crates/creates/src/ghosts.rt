// Ghosts: atoms and pairs that are counted and not stored.
ghost use Rattle.std.specs.Prelude.{◌≡◌};
ghost use Rattle.rules.specs.Creates.{add_ghost_pair, remove_ghost_pair, add_ghost_atom};
ghost use Rattle.rules.specs.Paper.{changed};

use rules::{Allocator, Code, NIL, Refusal, need};
use state::{record, sound};

// Counts pairs that a caller keeps elsewhere: 1 unsound, 4 too many pairs.
#[tactic(auto, unfolding(rules::specs::Said::need, rules::specs::Creates::add_ghost_pair))]
pub fn add_ghost_pair(a: &mut Allocator, amount: usize) -> Result<(), Refusal>
    ensures { changed result a.new ≡ add_ghost_pair a.old amount }
{
    need(sound::limits_sound(a), Code::Unsound, NIL)?;
    let all = sound::total(a.used.pairs + a.ghosts.pairs, amount);
    need(all <= sound::MOST, Code::TooManyPairs, NIL)?;
    *a = record::with_ghosts(a.ghosts.atoms, a.ghosts.pairs + amount, *a);
    Ok(())
}

// Takes such pairs back, when they are made after all: 1 unsound, 14 too few ghosts.
#[tactic(auto, unfolding(rules::specs::Said::need, rules::specs::Creates::remove_ghost_pair))]
pub fn remove_ghost_pair(a: &mut Allocator, amount: usize) -> Result<(), Refusal>
    ensures { changed result a.new ≡ remove_ghost_pair a.old amount }
{
    need(sound::limits_sound(a), Code::Unsound, NIL)?;
    need(amount <= a.ghosts.pairs, Code::TooFewGhosts, NIL)?;
    *a = record::with_ghosts(a.ghosts.atoms, a.ghosts.pairs - amount, *a);
    Ok(())
}

// Counts atoms that are not stored: 1 unsound, 3 too many atoms.
#[tactic(auto, unfolding(rules::specs::Said::need, rules::specs::Creates::add_ghost_atom))]
pub fn add_ghost_atom(a: &mut Allocator, amount: usize) -> Result<(), Refusal>
    ensures { changed result a.new ≡ add_ghost_atom a.old amount }
{
    need(sound::limits_sound(a), Code::Unsound, NIL)?;
    let all = sound::total(a.used.atoms + a.ghosts.atoms, amount);
    need(all <= sound::MOST, Code::TooManyAtoms, NIL)?;
    *a = record::with_ghosts(a.ghosts.atoms + amount, a.ghosts.pairs, *a);
    Ok(())
}
