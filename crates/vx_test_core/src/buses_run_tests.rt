//! What the program of four buses does, over a door in memory. The records are those of RFC 5531, sections 9 and 11, and of VXI-11.
ghost use Rattle.std.specs.Prelude.{◌≡◌, length, IfSome};

use crate::buses_tools::rack_of;
use crate::run_tools::{Outside, StillTools, outside_of, went_so};
use std::alloc::Global;
use std::sync::Wait;
use vx_buses::buses_run;
use vx_rack::{Echo, Spare};

// create_link of `gpib2,5` and of `GPIB0,5`; device_write of `A` with END on links 3 and 2; destroy_intr_chan
const FIRST: [u32; 79] = [
    0x80000040, 1, 0, 2, 0x607AF, 1, 10, 0, 0, 0, 0, 42, 0, 0, 7, 0x67706962, 0x322C3500,
    0x80000040, 2, 0, 2, 0x607AF, 1, 10, 0, 0, 0, 0, 42, 0, 0, 7, 0x47504942, 0x302C3500,
    0x80000040, 3, 0, 2, 0x607AF, 1, 11, 0, 0, 0, 0, 3, 10000, 0, 8, 1, 0x41000000, 0x80000040, 4,
    0, 2, 0x607AF, 1, 11, 0, 0, 0, 0, 2, 10000, 0, 8, 1, 0x41000000, 0x80000028, 5, 0, 2, 0x607AF,
    1, 26, 0, 0, 0, 0,
];

// links 3 and 1; one byte written; no link 2 yet; no channel
const FIRST_TOOK: [u32; 48] = [
    0x80000028, 1, 1, 0, 0, 0, 0, 0, 3, 9011, 262144, 0x80000028, 2, 1, 0, 0, 0, 0, 0, 1, 9011,
    262144, 0x80000020, 3, 1, 0, 0, 0, 0, 0, 1, 0x80000020, 4, 1, 0, 0, 0, 0, 4, 0, 0x8000001C, 5,
    1, 0, 0, 0, 0, 6,
];

// create_link on each bus; device_read on each of the four, bus 2 last; device_write of `B`, `C` and `D` on buses 1, 3 and 0; and again
// device_read on each
const SECOND: [u32; 255] = [
    0x80000040, 11, 0, 2, 0x607AF, 1, 10, 0, 0, 0, 0, 42, 0, 0, 7, 0x67706962, 0x302C3500,
    0x80000040, 12, 0, 2, 0x607AF, 1, 10, 0, 0, 0, 0, 42, 0, 0, 7, 0x67706962, 0x312C3500,
    0x80000040, 13, 0, 2, 0x607AF, 1, 10, 0, 0, 0, 0, 42, 0, 0, 7, 0x67706962, 0x322C3500,
    0x80000040, 14, 0, 2, 0x607AF, 1, 10, 0, 0, 0, 0, 42, 0, 0, 7, 0x67706962, 0x332C3500,
    0x80000040, 15, 0, 2, 0x607AF, 1, 12, 0, 0, 0, 0, 5, 10, 0, 0, 0, 0, 0x80000040, 16, 0, 2,
    0x607AF, 1, 12, 0, 0, 0, 0, 2, 10, 0, 0, 0, 0, 0x80000040, 17, 0, 2, 0x607AF, 1, 12, 0, 0, 0,
    0, 4, 10, 0, 0, 0, 0, 0x80000040, 18, 0, 2, 0x607AF, 1, 12, 0, 0, 0, 0, 7, 10, 10000, 0, 0, 0,
    0x80000040, 19, 0, 2, 0x607AF, 1, 11, 0, 0, 0, 0, 2, 10000, 0, 8, 1, 0x42000000, 0x80000040,
    20, 0, 2, 0x607AF, 1, 11, 0, 0, 0, 0, 4, 10000, 0, 8, 1, 0x43000000, 0x80000040, 21, 0, 2,
    0x607AF, 1, 11, 0, 0, 0, 0, 5, 10000, 0, 8, 1, 0x44000000, 0x80000040, 22, 0, 2, 0x607AF, 1,
    12, 0, 0, 0, 0, 7, 10, 0, 0, 0, 0, 0x80000040, 23, 0, 2, 0x607AF, 1, 12, 0, 0, 0, 0, 2, 10,
    10000, 0, 0, 0, 0x80000040, 24, 0, 2, 0x607AF, 1, 12, 0, 0, 0, 0, 4, 10, 10000, 0, 0, 0,
    0x80000040, 25, 0, 2, 0x607AF, 1, 12, 0, 0, 0, 0, 5, 10, 10000, 0, 0, 0,
];

// links 5, 2, 7 and 4; nothing heard on buses 0, 1 and 3, and `A` on bus 2; three bytes written; nothing more heard on bus 2, and on each
// other bus what was written there
const SECOND_TOOK: [u32; 155] = [
    0x80000028, 11, 1, 0, 0, 0, 0, 0, 5, 9011, 262144, 0x80000028, 12, 1, 0, 0, 0, 0, 0, 2, 9011,
    262144, 0x80000028, 13, 1, 0, 0, 0, 0, 0, 7, 9011, 262144, 0x80000028, 14, 1, 0, 0, 0, 0, 0, 4,
    9011, 262144, 0x80000024, 15, 1, 0, 0, 0, 0, 15, 0, 0, 0x80000024, 16, 1, 0, 0, 0, 0, 15, 0, 0,
    0x80000024, 17, 1, 0, 0, 0, 0, 15, 0, 0, 0x80000028, 18, 1, 0, 0, 0, 0, 0, 4, 1, 0x41000000,
    0x80000020, 19, 1, 0, 0, 0, 0, 0, 1, 0x80000020, 20, 1, 0, 0, 0, 0, 0, 1, 0x80000020, 21, 1, 0,
    0, 0, 0, 0, 1, 0x80000024, 22, 1, 0, 0, 0, 0, 15, 0, 0, 0x80000028, 23, 1, 0, 0, 0, 0, 0, 4, 1,
    0x42000000, 0x80000028, 24, 1, 0, 0, 0, 0, 0, 4, 1, 0x43000000, 0x80000028, 25, 1, 0, 0, 0, 0,
    0, 4, 1, 0x44000000,
];

// create_link on buses 3, 1, 0 and 2; device_readstb on each, in the order of the buses
const THIRD: [u32; 128] = [
    0x80000040, 31, 0, 2, 0x607AF, 1, 10, 0, 0, 0, 0, 42, 0, 0, 7, 0x67706962, 0x332C3500,
    0x80000040, 32, 0, 2, 0x607AF, 1, 10, 0, 0, 0, 0, 42, 0, 0, 7, 0x67706962, 0x312C3500,
    0x80000040, 33, 0, 2, 0x607AF, 1, 10, 0, 0, 0, 0, 42, 0, 0, 7, 0x67706962, 0x302C3500,
    0x80000040, 34, 0, 2, 0x607AF, 1, 10, 0, 0, 0, 0, 42, 0, 0, 7, 0x67706962, 0x322C3500,
    0x80000038, 35, 0, 2, 0x607AF, 1, 13, 0, 0, 0, 0, 1, 0, 0, 10000, 0x80000038, 36, 0, 2,
    0x607AF, 1, 13, 0, 0, 0, 0, 2, 0, 0, 10000, 0x80000038, 37, 0, 2, 0x607AF, 1, 13, 0, 0, 0, 0,
    3, 0, 0, 10000, 0x80000038, 38, 0, 2, 0x607AF, 1, 13, 0, 0, 0, 0, 4, 0, 0, 10000,
];

// links 4, 2, 1 and 3; and the status byte of the instrument of each bus, which is the one of its place in the rack
const THIRD_TOOK: [u32; 80] = [
    0x80000028, 31, 1, 0, 0, 0, 0, 0, 4, 9011, 262144, 0x80000028, 32, 1, 0, 0, 0, 0, 0, 2, 9011,
    262144, 0x80000028, 33, 1, 0, 0, 0, 0, 0, 1, 9011, 262144, 0x80000028, 34, 1, 0, 0, 0, 0, 0, 3,
    9011, 262144, 0x80000020, 35, 1, 0, 0, 0, 0, 0, 10, 0x80000020, 36, 1, 0, 0, 0, 0, 0, 11,
    0x80000020, 37, 1, 0, 0, 0, 0, 0, 12, 0x80000020, 38, 1, 0, 0, 0, 0, 0, 13,
];

// The words; what each peer gives; the numbers of the door's calls and of the sink's that fail; the status, what is printed, and what
// each peer that was met is sent; and the port that is opened.
#[derive(Clone, Copy)]
struct Row {
    words: &'static [&'static str],
    gives: &'static [&'static [u32]],
    door_fails: &'static [u64],
    sink_fails: &'static [u64],
    status: u8,
    text: &'static str,
    took: &'static [&'static [u32]],
    port: Option<u16>,
}

const USAGE: &str = "usage: vxbuses PORT N\n";

const ROW: Row = Row {
    words: &["9010", "1"],
    gives: &[&FIRST],
    door_fails: &[],
    sink_fails: &[],
    status: 0,
    text: "served 1\n",
    took: &[&FIRST_TOOK],
    port: Some(9010),
};

static ROWS: [Row; 11] = [
    ROW,
    // what the first peer wrote on bus 2 is read there alone by the second, behind it
    Row {
        words: &["9010", "2"],
        gives: &[&FIRST, &SECOND],
        text: "served 2\n",
        took: &[&FIRST_TOOK, &SECOND_TOOK],
        ..ROW
    },
    // each bus has the instrument of its place in the rack
    Row {
        gives: &[&THIRD],
        took: &[&THIRD_TOOK],
        ..ROW
    },
    // no more are served than are asked for
    Row {
        words: &["1", "1"],
        gives: &[&FIRST, &SECOND],
        port: Some(1),
        ..ROW
    },
    // the door has fewer
    Row {
        words: &["65535", "1000000"],
        gives: &[&FIRST, &SECOND],
        text: "served 2\n",
        took: &[&FIRST_TOOK, &SECOND_TOOK],
        port: Some(65535),
        ..ROW
    },
    Row {
        gives: &[],
        text: "served 0\n",
        took: &[],
        ..ROW
    },
    // the port can't be opened; the next peer can't be met
    Row {
        door_fails: &[1],
        status: 3,
        text: "",
        took: &[],
        port: None,
        ..ROW
    },
    Row {
        door_fails: &[2],
        status: 3,
        text: "",
        took: &[],
        ..ROW
    },
    // a fault of a peer's link ends that link alone
    Row {
        words: &["9010", "2"],
        gives: &[&SECOND, &FIRST],
        door_fails: &[3],
        text: "served 2\n",
        took: &[&[], &FIRST_TOOK],
        ..ROW
    },
    Row {
        sink_fails: &[1],
        status: 6,
        text: "",
        ..ROW
    },
    Row {
        words: &["9010"],
        sink_fails: &[1],
        status: 6,
        text: "",
        took: &[],
        port: None,
        ..ROW
    },
];

// Words of another form.
static OTHER_WORDS: [&[&str]; 10] = [
    &[],
    &["9010"],
    &["9010", "1", "1"],
    &["0", "1"],
    &["65536", "1"],
    &["9010", "0"],
    &["9010", "1000001"],
    &["09010", "1"],
    &["9010", "+1"],
    &["--help", "1"],
];

/// Runs the program, where there is a rack, and answers its status.
fn run<R: Wait>(
    rt: &R,
    alloc: Global,
    outside: &mut Outside,
    rack: Option<Vec<Spare<Echo>>>,
) -> Option<u8>
    requires { IfSome rack (λ r. length r.items ≡ 4) }
{
    let rack = rack?;
    let Outside { words, door, sink } = outside;
    let mut tools = StillTools { alloc };
    Some(buses_run(rt, alloc, words, door, &mut tools, sink, rack))
}

/// Whether a row comes out as it is written, where there is memory for it.
fn comes_out<R: Wait>(rt: &R, alloc: Global, row: &Row) -> Option<bool> {
    let mut outside = outside_of(alloc, row.words, row.gives, row.door_fails, row.sink_fails)?;
    let status = run(rt, alloc, &mut outside, rack_of(alloc));
    let is_so = went_so(&outside, row.text.as_bytes(), row.took, row.port);
    Some(status == Some(row.status) && is_so)
}

#[test]
fn each_run_comes_out(rt: HostRuntime) {
    for (place, row) in ROWS.iter().enumerate() {
        let is_so = comes_out(&rt, rt.alloc(), row);
        assert!(rt; is_so == Some(true), "row {place}");
    }
}

#[test]
fn words_of_another_form(rt: HostRuntime) {
    for (place, words) in OTHER_WORDS.iter().enumerate() {
        let row = Row {
            words,
            status: 1,
            text: USAGE,
            took: &[],
            port: None,
            ..ROW
        };
        let is_so = comes_out(&rt, rt.alloc(), &row);
        assert!(rt; is_so == Some(true), "words {place}");
    }
}
