//! How a stream ends.
ghost use Rattle.std.specs.Prelude.{◌≡◌};
ghost use Rattle.vx_stream.specs.Stopping.{input_end};

/// Why a stream is no longer read.
#[derive(Clone, Copy, Debug, PartialEq, Eq)]
pub enum End {
    /// The input ended behind a whole record, or before the first.
    Closed,
    /// It ended so many bytes behind the last whole record; more than 2^62 are told as 2^62.
    CutShort { bytes: usize },
    /// A whole record of this length has no reply.
    Junk { length: usize },
    /// A record goes above the limit of its stream.
    TooLong,
    /// A receive failed.
    ReadFault,
    /// A send failed.
    WriteFault,
}

/// How a stream ends whose input ended so many bytes behind the last whole record.
pub(crate) fn end_of_input(bytes: usize) -> End
    ensures { result ≡ input_end bytes }
{
    match bytes {
        0 => End::Closed,
        _ => End::CutShort { bytes },
    }
}
