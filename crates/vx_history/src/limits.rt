/// The longest trace, in bytes.
pub const TRACE_MAX: usize = 1_073_741_824;
