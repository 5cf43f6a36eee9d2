// The request program's library: the row of each record, and the text of a whole input.
#![tactic(auto)]

pub mod program;
pub mod rows;
mod step;
