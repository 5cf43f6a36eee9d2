// A node's bits, and what bytes or a value are as a small atom: no record is asked for.
ghost use Rattle.std.specs.Prelude.{◌≡◌};
ghost use Rattle.rules.specs.Small.{fits, len_for};
ghost use Rattle.rules.specs.Said.{says, says_of};
ghost use Rattle.rules.specs.Reads.{kind_number, object_type, node_index, is_atom, is_pair};
ghost use Rattle.clvm_allocator.specs.Answers.{bit, number_c, option_c};

use super::answers::{CNumber, COption};

pub fn clvm_object_type(n: u32) -> CNumber
    ensures { result ≡ number_c (says_of kind_number (object_type n)) }
{
    node::object_type(n).into()
}

pub fn clvm_index(n: u32) -> CNumber
    ensures { result ≡ number_c (node_index n) }
{
    node::index(n).into()
}

pub fn clvm_is_atom(n: u32) -> CNumber
    ensures { result ≡ number_c (says_of bit (is_atom n)) }
{
    node::is_atom(n).into()
}

pub fn clvm_is_pair(n: u32) -> CNumber
    ensures { result ≡ number_c (says_of bit (is_pair n)) }
{
    node::is_pair(n).into()
}

pub fn clvm_fits_in_small_atom(v: &[u8]) -> COption
    ensures { result ≡ option_c (says (fits v.now)) }
{
    Ok(node::fits_in_small_atom(v)).into()
}

pub fn clvm_len_for_value(v: u32) -> usize
    ensures { result ≡ len_for v }
{
    node::len_for_value(v)
}
