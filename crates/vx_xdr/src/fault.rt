/// Why bytes aren't a value (RFC 4506).
#[derive(Clone, Copy, Debug, PartialEq, Eq)]
pub enum XdrErr {
    /// Fewer bytes are left than the value needs.
    Short,
    /// All bytes are there, and one of the zero to three padding bytes isn't zero.
    Pad,
    /// The word of a bool is neither 0 nor 1.
    Bool,
    /// The length word of an opaque is above what its declaration allows.
    Long,
}

/// The room left is smaller than the value's bytes.
#[derive(Clone, Copy, Debug, PartialEq, Eq)]
pub struct Full;
