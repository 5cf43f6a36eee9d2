// A node's bits, and small atoms, for C.
ghost use Rattle.std.specs.Prelude.{◌≡◌};
ghost use Rattle.rules.specs.Small.{fits, len_for};
ghost use Rattle.rules.specs.Said.{says, says_of};
ghost use Rattle.rules.specs.Reads.{kind_number, object_type, node_index, is_atom, is_pair};
ghost use Rattle.clvm_allocator.specs.Answers.{bit, number_c, option_c};

use clvm_allocator::answers::{CNumber, COption};

#[unsafe(no_mangle)]
pub extern "C" fn clvm_object_type(n: u32) -> CNumber
    ensures { result ≡ number_c (says_of kind_number (object_type n)) }
{
    clvm_allocator::c_node::clvm_object_type(n)
}

#[unsafe(no_mangle)]
pub extern "C" fn clvm_index(n: u32) -> CNumber
    ensures { result ≡ number_c (node_index n) }
{
    clvm_allocator::c_node::clvm_index(n)
}

#[unsafe(no_mangle)]
pub extern "C" fn clvm_is_atom(n: u32) -> CNumber
    ensures { result ≡ number_c (says_of bit (is_atom n)) }
{
    clvm_allocator::c_node::clvm_is_atom(n)
}

#[unsafe(no_mangle)]
pub extern "C" fn clvm_is_pair(n: u32) -> CNumber
    ensures { result ≡ number_c (says_of bit (is_pair n)) }
{
    clvm_allocator::c_node::clvm_is_pair(n)
}

#[unsafe(no_mangle)]
pub extern "C" fn clvm_fits_in_small_atom(v: &[u8]) -> COption
    ensures { result ≡ option_c (says (fits v.now)) }
{
    clvm_allocator::c_node::clvm_fits_in_small_atom(v)
}

#[unsafe(no_mangle)]
pub extern "C" fn clvm_len_for_value(v: u32) -> usize
    ensures { result ≡ len_for v }
{
    clvm_allocator::c_node::clvm_len_for_value(v)
}
