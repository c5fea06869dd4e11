/// How many mappings a table may have.
pub const PORTS_MAX: usize = 16;

/// The longest message, a call's or a reply's, in bytes.
pub const MESSAGE_MAX: usize = 1024;

/// How many bytes are received on one stream, at most.
pub const STREAM_MAX: usize = 16_777_216;
