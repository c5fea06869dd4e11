//! Records on a byte stream, as ONC RPC marks them over TCP (RFC 5531, section 11): a record is one or more
//! fragments, each behind a word whose top bit marks the last one and whose low 31 bits are the fragment's length.
//!
//! A [`RecordBuf`] takes the stream in any pieces and gives it back record by record. After it is made it takes no
//! memory, and each byte is copied once.
#![tactic(auto)]

mod buffer;
mod theorems;

ghost use Rattle.std.specs.Prelude.{◌≡◌, ◌<◌, ◌^◌};
ghost use Rattle.vx_record.specs.Fragments.{last_header};

pub use buffer::RecordBuf;
use byteorder::{BigEndian, ByteOrder};
pub use theorems::{cut_law, end_law, feed_law, mark_law, pieces_law, records_law};

/// There was no memory for the buffer.
#[derive(Clone, Copy, Debug, PartialEq, Eq)]
pub struct NoMemory;

/// What the last byte that a buffer took brought.
#[derive(Clone, Copy, PartialEq, Eq)]
pub enum Feed {
    /// The record isn't whole yet.
    More,
    /// The record is whole: it was the record's last byte.
    Whole,
    /// It ended the header of a fragment that takes the record above the limit.
    TooLong,
}

/// How many bytes of a piece a buffer took, and its state then.
#[derive(Clone, Copy, PartialEq, Eq)]
pub struct Fed {
    /// How many bytes of the front of the piece were taken.
    pub took: usize,
    /// What the last of them brought.
    pub state: Feed,
}

/// The header of a record's last fragment of `len` bytes, in the order of the stream.
pub fn mark(len: u32) -> [u8; 4]
    requires { len < 2 ^ 31 }
    ensures { result ≡ last_header len }
{
    let mut header = [0; 4];
    BigEndian::write_u32(&mut header, LAST + len);
    header
}

/// The top bit of a fragment's header, which marks the last fragment of a record.
const LAST: u32 = 1 << 31;
