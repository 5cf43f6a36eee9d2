// The C calls: one for each public call of the port, under its name with the prefix clvm_. include/clvm_allocator.h declares them,
// and the crate clvm_allocator_c exports them.
// None has a precondition: the calls beneath do their own checking. Each contract is the rule of the call beneath, as numbers.
// A file c_NAME has the calls of the crate NAME.
#![tactic(auto)]

pub mod answers;
pub mod c_concat;
pub mod c_creates;
pub mod c_load;
pub mod c_node;
pub mod c_reads;
pub mod c_restores;
pub mod c_save;
pub mod c_state;
