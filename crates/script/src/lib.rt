// Recorded calls as text (../answers/FORMAT.md): what a line says.
#![tactic(auto)]

pub mod call;
pub mod kind;
pub mod line;
pub mod lines;
pub mod part;
pub mod words;

// The most bytes, bytes of the file and slots of each sort that are lent.
pub const BYTES: usize = 1048640;

pub const SLOTS: usize = 4160;

// The most bytes of a scratch.
pub const SCRATCH: usize = 8;
