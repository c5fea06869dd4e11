//! Calls of a user over memory. Records are composed by hand from their words; the record's mark stands first.

use crate::client_tools::{line_words, run_so};
use crate::word_tools::{behind, link_of, reach_of};
use std::alloc::{AllocError, Global};
use vx_memory::{MemLink, MemReach, MemSink};

/// A create_link that made link 7, of 65,536 bytes a write, as the reply to the first call.
const MADE: [u32; 11] = [0x80000028, 1, 1, 0, 0, 0, 0, 0, 7, 9011, 65536];

/// The create_link that is sent for the device gpib0,5.
const CREATE: [u32; 17] = [
    0x80000040, 1, 0, 2, 0x0607AF, 1, 10, 0, 0, 0, 0, 0, 0, 0, 7, 0x67706962, 0x302C3500,
];

const USAGE: &str = "usage: vxcall HOST PORT DEVICE COMMAND\n";

/// A call of a user of the server at port 9010 of the host `h`.
#[derive(Clone, Copy)]
struct Row {
    /// The words of the command, a space between two.
    line: &'static str,
    /// What the server gives: these words, and then these.
    front: &'static [u32],
    gives: &'static [u32],
    /// Which calls of the link fail, and which of the sink.
    link_fails: &'static [u64],
    sink_fails: &'static [u64],
    status: u8,
    text: &'static str,
    /// What the server took, record by record, where it is looked at.
    sent: Option<&'static [&'static [u32]]>,
    /// How often it was tried to reach.
    dials: u64,
}

/// A status byte from a server that makes the link and gives nothing more.
const STB: Row = Row {
    line: "h 9010 gpib0,5 stb",
    front: &MADE,
    gives: &[],
    link_fails: &[],
    sink_fails: &[],
    status: 4,
    text: "broken closed\n",
    sent: None,
    dials: 1,
};

static ROWS: [Row; 27] = [
    // What ends before a link is made: the end; a server that isn't reached; the number of another call; a link that takes
    // no writes; error 21; GarbageArgs.
    Row { front: &[], ..STB },
    Row {
        line: "h 9011 gpib0,5 stb",
        front: &[],
        status: 2,
        text: "unreachable\n",
        ..STB
    },
    Row {
        line: "i 9010 gpib0,5 stb",
        front: &[],
        status: 2,
        text: "unreachable\n",
        ..STB
    },
    Row {
        front: &[0x80000028, 2, 1, 0, 0, 0, 0, 0, 7, 9011, 65536],
        text: "broken reply\n",
        ..STB
    },
    Row {
        front: &[0x80000028, 1, 1, 0, 0, 0, 0, 0, 7, 9011, 0],
        text: "broken reply\n",
        ..STB
    },
    Row {
        front: &[0x80000028, 1, 1, 0, 0, 0, 0, 21, 0, 0, 0],
        status: 3,
        text: "error 21\n",
        ..STB
    },
    Row {
        front: &[0x80000018, 1, 1, 0, 0, 0, 4],
        text: "broken rpc\n",
        ..STB
    },
    // What a command comes to, by the replies behind that of the create_link. No byte and no reason.
    Row {
        line: "h 9010 gpib0,5 read",
        gives: &[0x80000024, 2, 1, 0, 0, 0, 0, 0, 0, 0],
        text: "broken reply\n",
        ..STB
    },
    Row {
        line: "h 9010 gpib0,5 read",
        gives: &[0x80000028, 2, 1, 0, 0, 0, 0, 0, 4, 3, 0xABCDEF00],
        status: 0,
        text: "ABCDEF\n",
        ..STB
    },
    // END, and no byte.
    Row {
        line: "h 9010 gpib0,5 read",
        gives: &[0x80000024, 2, 1, 0, 0, 0, 0, 0, 4, 0],
        status: 0,
        text: "\n",
        ..STB
    },
    Row {
        gives: &[0x80000020, 2, 1, 0, 0, 0, 0, 0, 80],
        status: 0,
        text: "50\n",
        ..STB
    },
    Row {
        gives: &[0x80000020, 2, 1, 0, 0, 0, 0, 15, 0],
        status: 3,
        text: "error 15\n",
        ..STB
    },
    Row {
        line: "h 9010 gpib0,5 clear",
        gives: &[0x8000001C, 2, 1, 0, 0, 0, 0, 0],
        status: 0,
        text: "done\n",
        ..STB
    },
    Row {
        line: "h 9010 gpib0,5 trigger",
        gives: &[0x8000001C, 2, 1, 0, 0, 0, 0, 0],
        status: 0,
        text: "done\n",
        ..STB
    },
    Row {
        line: "h 9010 gpib0,5 write A",
        gives: &[0x80000020, 2, 1, 0, 0, 0, 0, 0, 2],
        status: 0,
        text: "done\n",
        ..STB
    },
    Row {
        line: "h 9010 gpib0,5 query A",
        gives: &[
            0x80000020, 2, 1, 0, 0, 0, 0, 0, 2, // written
            0x80000028, 3, 1, 0, 0, 0, 0, 0, 4, 2, 0x410A0000,
        ],
        status: 0,
        text: "410A\n",
        ..STB
    },
    // A write that the device refuses is followed by no read.
    Row {
        line: "h 9010 gpib0,5 query A",
        gives: &[0x80000020, 2, 1, 0, 0, 0, 0, 11, 0],
        status: 3,
        text: "error 11\n",
        ..STB
    },
    // The last port.
    Row {
        line: "h 65535 gpib0 stb",
        status: 2,
        text: "unreachable\n",
        ..STB
    },
    // A query sends a create_link, a device_write of A and LF with END, a device_read of 65,536 bytes, and a destroy_link,
    // whose error counts for nothing.
    Row {
        line: "h 9010 gpib0,5 query A",
        gives: &[
            0x80000020, 2, 1, 0, 0, 0, 0, 0, 2, // written
            0x80000028, 3, 1, 0, 0, 0, 0, 0, 4, 2, 0x410A0000, // read
            0x8000001C, 4, 1, 0, 0, 0, 0, 4, // an error of the destroy_link
        ],
        status: 0,
        text: "410A\n",
        sent: Some(&[
            &CREATE,
            &[
                0x80000040, 2, 0, 2, 0x0607AF, 1, 11, 0, 0, 0, 0, 7, 10000, 0, 8, 2, 0x410A0000,
            ],
            &[
                0x80000040, 3, 0, 2, 0x0607AF, 1, 12, 0, 0, 0, 0, 7, 65536, 10000, 0, 0, 0,
            ],
            &[0x8000002C, 4, 0, 2, 0x0607AF, 1, 23, 0, 0, 0, 0, 7],
        ]),
        ..STB
    },
    // A refused command is followed by a destroy_link, and one whose reply is none by nothing.
    Row {
        line: "h 9010 gpib0,5 clear",
        gives: &[0x8000001C, 2, 1, 0, 0, 0, 0, 11],
        status: 3,
        text: "error 11\n",
        sent: Some(&[
            &CREATE,
            &[
                0x80000038, 2, 0, 2, 0x0607AF, 1, 15, 0, 0, 0, 0, 7, 0, 0, 10000,
            ],
            &[0x8000002C, 3, 0, 2, 0x0607AF, 1, 23, 0, 0, 0, 0, 7],
        ]),
        ..STB
    },
    Row {
        line: "h 9010 gpib0,5 clear",
        gives: &[0x8000001C, 3, 1, 0, 0, 0, 0, 11],
        text: "broken reply\n",
        sent: Some(&[
            &CREATE,
            &[
                0x80000038, 2, 0, 2, 0x0607AF, 1, 15, 0, 0, 0, 0, 7, 0, 0, 10000,
            ],
        ]),
        ..STB
    },
    // The first call of the link is the send of the create_link, the second a receive; the first write is that of the line.
    Row {
        link_fails: &[1],
        text: "broken write\n",
        ..STB
    },
    Row {
        link_fails: &[2],
        text: "broken read\n",
        ..STB
    },
    Row {
        sink_fails: &[1],
        status: 6,
        text: "",
        ..STB
    },
    // The create_link, the command and the destroy_link are sent before anything is printed.
    Row {
        line: "h 9010 gpib0,5 trigger",
        gives: &[0x8000001C, 2, 1, 0, 0, 0, 0, 0],
        sink_fails: &[1],
        status: 6,
        text: "",
        sent: Some(&[
            &CREATE,
            &[
                0x80000038, 2, 0, 2, 0x0607AF, 1, 14, 0, 0, 0, 0, 7, 0, 0, 10000,
            ],
            &[0x8000002C, 3, 0, 2, 0x0607AF, 1, 23, 0, 0, 0, 0, 7],
        ]),
        ..STB
    },
    Row {
        line: "h 9011 gpib0,5 stb",
        sink_fails: &[1],
        status: 6,
        text: "",
        ..STB
    },
    Row {
        line: "h 0 gpib0 stb",
        sink_fails: &[1],
        status: 6,
        text: "",
        dials: 0,
        ..STB
    },
];

// Words of another form.
static OTHER_LINES: [&str; 16] = [
    "",
    "h",
    "h 9010",
    "h 9010 gpib0",
    "h 0 gpib0 stb",
    "h 09010 gpib0 stb",
    "h +9010 gpib0 stb",
    "h 65536 gpib0 stb",
    "h 18446744073709551617 gpib0 stb",
    "h  gpib0 stb",
    "h 9010 gpib0 query",
    "h 9010 gpib0 write",
    "h 9010 gpib0 query A B",
    "h 9010 gpib0 stb A",
    "h 9010 gpib0 STB",
    "h 9010 gpib0 lock",
];

/// What is printed for them, and that nothing is sent.
static OTHER: Row = Row {
    status: 1,
    text: USAGE,
    sent: Some(&[]),
    dials: 0,
    ..STB
};

/// Whether bytes are these records, one behind the other.
fn are_records(bytes: &[u8], records: &[&[u32]]) -> bool {
    let mut rest = Some(bytes);
    for record in records {
        rest = rest.and_then(|bytes| behind(bytes, record));
    }
    rest.is_some_and(|bytes| bytes.is_empty())
}

/// Whether the link of a reach took these records, where they are looked at.
fn took(reach: &MemReach<MemLink>, records: Option<&[&[u32]]>) -> bool {
    records.is_none_or(|records| are_records(reach.link().bytes(), records))
}

/// An output of which the writes fail that do in a row.
fn sink_of(alloc: Global, row: &Row) -> Result<MemSink, AllocError> {
    let fails = row.sink_fails.to_vec(alloc)?;
    Ok(MemSink::new(Vec::new(alloc), fails))
}

/// Whether a call with these words comes to what a row says over this reach and this output.
fn comes_so(
    alloc: Global,
    list: &[String],
    reach: MemReach<MemLink>,
    sink: &mut MemSink,
    row: &Row,
) -> bool {
    let (reach, is_so) = run_so(alloc, list, reach, sink, row.status, row.text);
    is_so && reach.tried() == row.dials && took(&reach, row.sent)
}

/// The same for the words of a line, over a link that gives what the server of a row does, seven bytes a receive.
fn line_comes_so(alloc: Global, line: &str, row: &Row) -> Result<bool, AllocError> {
    let list = line_words(alloc, line)?;
    let mut sink = sink_of(alloc, row)?;
    let link = link_of(alloc, row.front, row.gives, 7, row.link_fails)?;
    let reach = reach_of(alloc, "h", link)?;
    Ok(comes_so(alloc, list.as_slice(), reach, &mut sink, row))
}

#[test]
fn tells_what_came(rt: HostRuntime) {
    for (place, row) in ROWS.iter().enumerate() {
        let is_so = line_comes_so(rt.alloc(), row.line, row);
        assert!(rt; is_so == Ok(true), "row {place}: {}", row.line);
    }
}

#[test]
fn refuses_other_words(rt: HostRuntime) {
    for line in &OTHER_LINES {
        let is_so = line_comes_so(rt.alloc(), line, &OTHER);
        assert!(rt; is_so == Ok(true), "{line}");
    }
}

/// The line of a call for a device whose text has so many characters.
fn long_line(alloc: Global, count: u32) -> Result<String, AllocError> {
    let mut line = String::from_str(alloc, "h 9010 ")?;
    for _ in 0..count {
        line.push('x')?;
    }
    line.push_str(" stb")?;
    Ok(line)
}

/// What ends before a link is made.
static UNMADE: Row = Row { front: &[], ..STB };

/// Whether a call for a device of so many characters comes to what a row says.
fn long_comes_so(alloc: Global, count: u32, row: &Row) -> Result<bool, AllocError> {
    let line = long_line(alloc, count)?;
    line_comes_so(alloc, line.as_str(), row)
}

// A device's text has at most 255 bytes.
#[test]
fn refuses_a_long_device(rt: HostRuntime) {
    let longest = long_comes_so(rt.alloc(), 255, &UNMADE);
    let longer = long_comes_so(rt.alloc(), 256, &OTHER);
    assert!(rt; longest == Ok(true) && longer == Ok(true));
}
