//! What becomes of a stream of records.

ghost use Rattle.std.specs.Prelude.{◌<◌};

use crate::mapper_tools::both;
use crate::word_tools::spelled;
use std::alloc::{AllocError, Global};
use std::test::Fail;
use vx_memory::MemLink;
use vx_portmap::*;
use vx_record::RecordBuf;

// A stream, as words; the numbers of the link's calls that fail; how it ends; and what is written, as words.
struct Row {
    stream: &'static [u32],
    fails: &'static [u64],
    end: MapEnd,
    written: &'static [u32],
}

// Streams over a link of which no call fails.
static STREAMS: [Row; 8] = [
    // Nothing.
    Row {
        stream: &[],
        fails: &[],
        end: MapEnd::Closed,
        written: &[],
    },
    // One record, and two.
    Row {
        stream: &[
            0x80000038, 9, 0, 2, 100000, 2, 3, 0, 0, 0, 0, 0x0607AF, 1, 6, 0,
        ],
        fails: &[],
        end: MapEnd::Closed,
        written: &[0x8000001C, 9, 1, 0, 0, 0, 0, 9010],
    },
    Row {
        stream: &[
            0x80000028, 5, 0, 2, 100000, 3, 0, 0, 0, 0, 0, 0x80000028, 6, 0, 2, 100000, 2, 0, 0, 0,
            0, 0,
        ],
        fails: &[],
        end: MapEnd::Closed,
        written: &[
            0x80000020, 5, 1, 0, 0, 0, 2, 2, 2, 0x80000018, 6, 1, 0, 0, 0, 0,
        ],
    },
    // One record of two fragments.
    Row {
        stream: &[0x00000014, 9, 0, 2, 100000, 2, 0x80000014, 0, 0, 0, 0, 0],
        fails: &[],
        end: MapEnd::Closed,
        written: &[0x80000018, 9, 1, 0, 0, 0, 0],
    },
    // A record, and the beginning of another.
    Row {
        stream: &[
            0x80000028, 6, 0, 2, 100000, 2, 0, 0, 0, 0, 0, 0x80000028, 7, 0, 2,
        ],
        fails: &[],
        end: MapEnd::CutShort { bytes: 16 },
        written: &[0x80000018, 6, 1, 0, 0, 0, 0],
    },
    // A record, then a reply, and a record behind it that isn't looked at.
    Row {
        stream: &[
            0x80000028, 6, 0, 2, 100000, 2, 0, 0, 0, 0, 0, 0x80000018, 6, 1, 0, 0, 0, 0,
            0x80000028, 7, 0, 2, 100000, 2, 0, 0, 0, 0, 0,
        ],
        fails: &[],
        end: MapEnd::Junk,
        written: &[0x80000018, 6, 1, 0, 0, 0, 0],
    },
    // A record of no bytes.
    Row {
        stream: &[0x80000000, 0x80000028, 6, 0, 2, 100000, 2, 0, 0, 0, 0, 0],
        fails: &[],
        end: MapEnd::Junk,
        written: &[],
    },
    // A record, and a header of 1,025 bytes.
    Row {
        stream: &[
            0x80000028, 6, 0, 2, 100000, 2, 0, 0, 0, 0, 0, 0x80000401, 7, 0, 2,
        ],
        fails: &[],
        end: MapEnd::TooLong,
        written: &[0x80000018, 6, 1, 0, 0, 0, 0],
    },
];

// Streams in one piece over a link of which a call fails: a receive, a send, and a receive behind a send.
static FAULTS: [Row; 3] = [
    Row {
        stream: &[0x80000028, 6, 0, 2, 100000, 2, 0, 0, 0, 0, 0],
        fails: &[1],
        end: MapEnd::ReadFault,
        written: &[],
    },
    Row {
        stream: &[0x80000028, 6, 0, 2, 100000, 2, 0, 0, 0, 0, 0],
        fails: &[2],
        end: MapEnd::WriteFault,
        written: &[],
    },
    Row {
        stream: &[0x80000028, 6, 0, 2, 100000, 2, 0, 0, 0, 0, 0],
        fails: &[3],
        end: MapEnd::ReadFault,
        written: &[0x80000018, 6, 1, 0, 0, 0, 0],
    },
];

/// How the stream of a link ends, or none where there is no memory.
fn serve(alloc: Global, ports: &Ports, link: &mut MemLink) -> Option<MapEnd> {
    match RecordBuf::new(alloc, MESSAGE_MAX) {
        Ok(mut buf) => Some(map_stream(ports, link, &mut buf)),
        Err(_) => None,
    }
}

/// Whether a row's stream, in pieces of so many bytes, ends as it is written.
fn is_so(alloc: Global, row: &Row, piece: usize) -> Result<bool, AllocError>
    requires { 0 < piece }
{
    let fails = row.fails.to_vec(alloc)?;
    let written = spelled(alloc, row.written)?;
    let stream = spelled(alloc, row.stream)?;
    let mut link = MemLink::new(stream, piece, Vec::new(alloc), fails);
    let end = serve(alloc, &both(), &mut link);
    Ok(end == Some(row.end) && link.bytes() == written.as_slice())
}

#[test]
fn records_are_answered_in_order(rt: HostRuntime) -> Result<(), Fail> {
    for (number, row) in STREAMS.iter().enumerate() {
        let is_so = [is_so(rt.alloc(), row, 4096)?, is_so(rt.alloc(), row, 1)?];
        assert!(rt; is_so == [true; 2], "in row {number}");
    }
    for (number, row) in FAULTS.iter().enumerate() {
        let is_so = is_so(rt.alloc(), row, 4096)?;
        assert!(rt; is_so, "in row {number} of faults");
    }
    Ok(())
}
