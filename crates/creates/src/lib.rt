// The calls that count: atoms, integers, pairs, ghosts, parts of atoms. Each makes a node, or changes ghosts alone, or refuses: then the record is
// as it was, and no slot is written.
#![tactic(auto)]

pub mod atom;
pub mod ghosts;
pub mod pair;
pub mod substr;
