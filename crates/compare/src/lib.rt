// Recorded calls beside what came of them: what they are lent and must leave, what is said of a difference, and how often each code came.
#![tactic(auto)]

pub mod course;
pub mod fault;
pub mod lists;
pub mod tally;
