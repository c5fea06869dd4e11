//! XDR (RFC 4506) over slices: unsigned and signed integers, bools and variable-length opaques, read from a slice
//! that is borrowed and written into a slice that the caller holds. A string is read and written as an opaque.
//! No call allocates, and none copies an opaque that it reads.
#![tactic(auto)]

mod fault;
mod reader;
mod theorems;
mod writer;

pub use fault::{Full, XdrErr};
pub use reader::Reader;
pub use theorems::{
    no_prefix, one_spelling, read_again, read_is_spelled, same_word, spelling_spells,
};
pub use writer::Writer;
