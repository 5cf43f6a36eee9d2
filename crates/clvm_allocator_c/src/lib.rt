// The exports for C, which tools/archive makes libclvm_allocator.a of: each call of the crate clvm_allocator, under its name and with its clauses.
// A file c_NAME has the exports of clvm_allocator's c_NAME.
#![tactic(auto)]

pub mod c_concat;
pub mod c_creates;
pub mod c_load;
pub mod c_node;
pub mod c_reads;
pub mod c_restores;
pub mod c_save;
pub mod c_state;
