//! How the work over a stream ends.

/// How the work over a stream ended.
#[derive(Clone, Copy, Debug, PartialEq, Eq)]
pub enum MapEnd {
    /// The input ended behind a whole record, or before the first.
    Closed,
    /// It ended so many bytes behind the last whole record.
    CutShort { bytes: usize },
    /// A whole record has no reply.
    Junk,
    /// A record goes above [`MESSAGE_MAX`](crate::MESSAGE_MAX) bytes.
    TooLong,
    /// As many bytes were received as [`STREAM_MAX`](crate::STREAM_MAX), and nothing else ended the work.
    Spent,
    /// A receive failed.
    ReadFault,
    /// A send failed.
    WriteFault,
}
