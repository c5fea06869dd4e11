//! What the guard's program does, over a door in memory, each of whose peers is 127.0.0.1.
ghost use Rattle.std.specs.Prelude.{◌≡◌, IfSome, vec_len};

use crate::guard_tools::{BOTH_DENIED, CREATE_AND_WRITE, CREATED, DENIED, WRITTEN};
use crate::run_tools::{Outside, StillTools, add, outside_of, went_so};
use std::alloc::{AllocError, Global};
use std::sync::Wait;
use vx_guard::guard_run;
use vx_memory::MemSource;
use vx_rack::{Echo, Spare};

/// The words; the rules, so many times, and so many `#` behind them; what each peer gives; which reads of the rules fail, which calls
/// of the door, and which writes to the sink; the status, what is printed, and what each peer that was met is sent; and the port that
/// is opened.
#[derive(Clone, Copy)]
struct Row {
    name: &'static str,
    words: &'static [&'static str],
    rules: &'static [u8],
    times: usize,
    pad: usize,
    gives: &'static [&'static [u32]],
    source_fails: &'static [u64],
    door_fails: &'static [u64],
    sink_fails: &'static [u64],
    status: u8,
    text: &'static [u8],
    took: &'static [&'static [u32]],
    port: Option<u16>,
}

/// The replies to a peer that makes link 2: the write on link 1 has error 4.
const UNKNOWN: [u32; 20] = [
    0x80000028, 1, 1, 0, 0, 0, 0, 0, 2, 9011, 262144, 0x80000020, 2, 1, 0, 0, 0, 0, 4, 0,
];

const USAGE: &[u8] = b"usage: vxguard PORT N\n";

const ROW: Row = Row {
    name: "a write that a rule denies",
    words: &["111", "1"],
    rules: b"deny * write 5\nallow 127.0.0.0/8 * *\n",
    times: 1,
    pad: 0,
    gives: &[&CREATE_AND_WRITE],
    source_fails: &[],
    door_fails: &[],
    sink_fails: &[],
    status: 0,
    text: b"deny 1 1\nserved 1\n",
    took: &[&DENIED],
    port: Some(111),
};

/// No peer is met.
const EARLY: Row = Row { took: &[], ..ROW };

/// The port isn't opened.
const CLOSED: Row = Row {
    port: None,
    ..EARLY
};

static ROWS: [Row; 27] = [
    ROW,
    // behind the denied write a read of link 1, of at most one byte and without a wait for it, ends with error 15: the device, which
    // gives back what it is sent, has nothing to give
    Row {
        name: "a device that heard nothing",
        gives: &[&[
            0x80000040, 1, 0, 2, 0x0607AF, 1, 10, 0, 0, 0, 0, 42, 0, 0, 7, 0x67706962, 0x302C3500,
            0x80000040, 2, 0, 2, 0x0607AF, 1, 11, 0, 0, 0, 0, 1, 10000, 0, 8, 1, 0x41000000,
            0x80000040, 3, 0, 2, 0x0607AF, 1, 12, 0, 0, 0, 0, 1, 1, 0, 0, 0, 0,
        ]],
        took: &[&[
            0x80000028, 1, 1, 0, 0, 0, 0, 0, 1, 9011, 262144, 0x80000020, 2, 1, 0, 0, 0, 0, 3, 0,
            0x80000024, 3, 1, 0, 0, 0, 0, 15, 0, 0,
        ]],
        ..ROW
    },
    Row {
        name: "a write that a rule allows",
        rules: b"allow 127.0.0.1/32 * *",
        text: b"served 1\n",
        took: &[&WRITTEN],
        ..ROW
    },
    // of three; the second makes link 2, so link 1 isn't its own: only a rule for all targets matches, and the core knows no such link
    Row {
        name: "two peers",
        words: &["65535", "2"],
        gives: &[&CREATE_AND_WRITE, &CREATE_AND_WRITE, &CREATE_AND_WRITE],
        text: b"deny 1 1\nserved 2\n",
        took: &[&DENIED, &UNKNOWN],
        port: Some(65535),
        ..ROW
    },
    Row {
        name: "fewer peers than are asked for",
        words: &["1", "1000000"],
        port: Some(1),
        ..ROW
    },
    Row {
        name: "no peer",
        gives: &[],
        text: b"served 0\n",
        ..EARLY
    },
    Row {
        name: "no rule, and so no call",
        rules: b"",
        text: b"deny 1 0\ndeny 1 0\nserved 1\n",
        took: &[&BOTH_DENIED],
        ..ROW
    },
    Row {
        name: "a note whose first write fails: the denied call has no reply, and no further peer is met",
        words: &["111", "2"],
        gives: &[&CREATE_AND_WRITE, &CREATE_AND_WRITE],
        sink_fails: &[1],
        status: 6,
        text: b"",
        took: &[&CREATED],
        ..ROW
    },
    Row {
        name: "a note whose second write fails, in the session of the second peer",
        words: &["111", "3"],
        rules: b"deny * create *\nallow * * *",
        gives: &[&CREATE_AND_WRITE, &CREATE_AND_WRITE, &CREATE_AND_WRITE],
        sink_fails: &[2],
        status: 6,
        text: b"deny 1 1\n",
        took: &[
            &[
                0x80000028, 1, 1, 0, 0, 0, 0, 3, 0, 0, 0, 0x80000020, 2, 1, 0, 0, 0, 0, 4, 0,
            ],
            &[],
        ],
        ..ROW
    },
    Row {
        name: "the last line isn't taken",
        sink_fails: &[2],
        status: 6,
        text: b"deny 1 1\n",
        ..ROW
    },
    Row {
        name: "the port can't be opened",
        door_fails: &[1],
        status: 3,
        text: b"",
        ..CLOSED
    },
    Row {
        name: "the first peer can't be met",
        door_fails: &[2],
        status: 3,
        text: b"",
        ..EARLY
    },
    Row {
        name: "a receive that fails ends its session alone",
        door_fails: &[3],
        text: b"served 1\n",
        took: &[&[]],
        ..ROW
    },
    Row {
        name: "a target that there is not",
        rules: b"allow * * 31",
        status: 2,
        text: b"fault line 1 form\n",
        ..CLOSED
    },
    Row {
        name: "the first line of another form, where skipped ones count",
        rules: b"# all may read\n\nallow * read *\nallow *\nother\n",
        status: 2,
        text: b"fault line 4 form\n",
        ..CLOSED
    },
    Row {
        name: "257 rules",
        rules: b"allow * * *\n",
        times: 257,
        status: 2,
        text: b"fault many\n",
        ..CLOSED
    },
    Row {
        name: "256 rules, in as many bytes as there may be",
        rules: b"allow * * *\n",
        times: 256,
        pad: 1_045_504,
        text: b"served 1\n",
        took: &[&WRITTEN],
        ..ROW
    },
    Row {
        name: "one byte more",
        rules: b"allow * * *\n",
        times: 256,
        pad: 1_045_505,
        status: 2,
        text: b"fault long\n",
        ..CLOSED
    },
    Row {
        name: "a policy's fault that isn't taken",
        rules: b"allow * * 31",
        sink_fails: &[1],
        status: 6,
        text: b"",
        ..CLOSED
    },
    Row {
        name: "a source that fails",
        source_fails: &[1],
        status: 7,
        text: b"",
        ..CLOSED
    },
    Row {
        name: "a source that fails behind the rules",
        source_fails: &[2],
        status: 7,
        text: b"",
        ..CLOSED
    },
    Row {
        name: "no words",
        words: &[],
        source_fails: &[1],
        status: 1,
        text: USAGE,
        ..CLOSED
    },
    Row {
        name: "one word",
        words: &["111"],
        status: 1,
        text: USAGE,
        ..CLOSED
    },
    Row {
        name: "a port above the greatest",
        words: &["65536", "1"],
        status: 1,
        text: USAGE,
        ..CLOSED
    },
    Row {
        name: "a leading zero",
        words: &["0111", "1"],
        status: 1,
        text: USAGE,
        ..CLOSED
    },
    Row {
        name: "too many links",
        words: &["111", "1000001"],
        status: 1,
        text: USAGE,
        ..CLOSED
    },
    Row {
        name: "a usage line that isn't taken",
        words: &["111", "1", "1"],
        sink_fails: &[1],
        status: 6,
        text: b"",
        ..CLOSED
    },
];

/// The text of the rules of a row.
fn text_of(alloc: Global, row: &Row) -> Result<Vec<u8>, AllocError> {
    let mut text = Vec::new(alloc);
    for _ in 0..row.times {
        text.extend_from_slice(row.rules)?;
    }
    for _ in 0..row.pad {
        text.push(b'#')?;
    }
    Ok(text)
}

/// The source of the rules of a row.
fn rules_of(alloc: Global, row: &Row) -> Option<MemSource> {
    let fails = row.source_fails.to_vec(alloc).ok()?;
    let text = text_of(alloc, row).ok()?;
    Some(MemSource::new(text, 1_000_000, fails))
}

/// One instrument, which gives back what it is sent.
fn rack_of(alloc: Global) -> Option<Vec<Spare<Echo>>>
    ensures { IfSome result (λ rack. vec_len rack ≡ 1) }
{
    let mut rack = Vec::new(alloc);
    add(alloc, &mut rack, 0)?;
    Some(rack)
}

/// Runs a guard by these rules, where there is a rack, and answers its status.
fn run<R: Wait>(
    rt: &R,
    alloc: Global,
    rules: &mut MemSource,
    outside: &mut Outside,
    rack: Option<Vec<Spare<Echo>>>,
) -> Option<u8>
    requires { IfSome rack (λ r. vec_len r ≡ 1) }
{
    let rack = rack?;
    let Outside { words, door, sink } = outside;
    let mut tools = StillTools { alloc };
    Some(guard_run(rt, alloc, words, rules, door, &mut tools, sink, rack))
}

/// Runs a row, and answers whether it went as the row says.
fn went<R: Wait>(rt: &R, alloc: Global, row: &Row) -> Option<bool> {
    let mut rules = rules_of(alloc, row)?;
    let mut outside = outside_of(alloc, row.words, row.gives, row.door_fails, row.sink_fails)?;
    let status = run(rt, alloc, &mut rules, &mut outside, rack_of(alloc));
    Some(status == Some(row.status) && went_so(&outside, row.text, row.took, row.port))
}

#[test]
fn runs(rt: HostRuntime) {
    for row in &ROWS {
        assert!(rt; went(&rt, rt.alloc(), row) == Some(true), "{}", row.name);
    }
}
