//! Plays whose words, source or sink fail, and scripts that are too long for a file. Other scripts are rows of `vx_measure`.
//! Records are composed by hand from their words; the record's mark stands first.

use crate::text_tools::{Piece, text_of, words_of};
use arrayvec::ArrayString;
use std::alloc::{AllocError, Global};
use std::test::Fail;
use vx_io_traits::{ReadOut, Source};
use vx_memory::{MemSink, MemSource};
use vx_play::*;
use vx_rack::{Echo, Spare};

const USAGE: &[u8] = b"usage: vxplay COMMAND\n";

/// What a play prints.
#[derive(Clone, Copy)]
enum Printed {
    /// These pieces, one behind the other.
    All(&'static [Piece]),
    /// A front of this text, and not all of it.
    FrontOf(&'static str),
}

/// A play of a script in pieces, whose source gives at most so many bytes at once. The reads and writes of these numbers
/// fail.
#[derive(Clone, Copy)]
struct Row {
    name: &'static str,
    script: &'static [Piece],
    read: usize,
    read_fails: &'static [u64],
    write_fails: &'static [u64],
    status: u8,
    printed: Printed,
}

/// A script that prints three lines.
const THREE_LINES: &[Piece] = &[("up 1 core\ndown 1\nup 2 core\ndown 2\n", 1)];

/// What it prints.
const THREE_PRINTED: Printed = Printed::FrontOf("gone 1 down\ngone 2 down\ndone\n");

/// The lines of a slice: 256 transfers that each put the byte 41, and the wait for the next poll.
const SLICE_OF_41: &str =
    "bus 1 p41 p41 p41 p41 p41 p41 p41 p41 p41 p41 p41 p41 p41 p41 p41 p41 p41 p41 p41 p41 p41 p41 p41 p41 p41 p41 p41 p41 p41 p41 p41 p41 p41 p41 p41 p41 p41 p41 p41 p41 p41 p41 p41 p41 p41 p41 p41 p41 p41 p41 p41 p41 p41 p41 p41 p41 p41 p41 p41 p41 p41 p41 p41 p41 p41 p41 p41 p41 p41 p41 p41 p41 p41 p41 p41 p41 p41 p41 p41 p41 p41 p41 p41 p41 p41 p41 p41 p41 p41 p41 p41 p41 p41 p41 p41 p41 p41 p41 p41 p41 p41 p41 p41 p41 p41 p41 p41 p41 p41 p41 p41 p41 p41 p41 p41 p41 p41 p41 p41 p41 p41 p41 p41 p41 p41 p41 p41 p41 p41 p41 p41 p41 p41 p41 p41 p41 p41 p41 p41 p41 p41 p41 p41 p41 p41 p41 p41 p41 p41 p41 p41 p41 p41 p41 p41 p41 p41 p41 p41 p41 p41 p41 p41 p41 p41 p41 p41 p41 p41 p41 p41 p41 p41 p41 p41 p41 p41 p41 p41 p41 p41 p41 p41 p41 p41 p41 p41 p41 p41 p41 p41 p41 p41 p41 p41 p41 p41 p41 p41 p41 p41 p41 p41 p41 p41 p41 p41 p41 p41 p41 p41 p41 p41 p41 p41 p41 p41 p41 p41 p41 p41 p41 p41 p41 p41 p41 p41 p41 p41 p41 p41 p41 p41 p41 p41 p41 p41 p41 p41 p41 p41 p41 p41 p41 p41 p41 p41 p41 p41 p41 p41 p41 p41 p41 p41 p41
wait 1 slice
";

static ROWS: [Row; 17] = [
    // A source whose second read fails: nothing is written.
    Row {
        name: "second read fails, a byte a read",
        script: THREE_LINES,
        read: 1,
        read_fails: &[2],
        write_fails: &[],
        status: 2,
        printed: Printed::All(&[]),
    },
    Row {
        name: "second read fails, ten bytes a read",
        script: THREE_LINES,
        read: 10,
        read_fails: &[2],
        write_fails: &[],
        status: 2,
        printed: Printed::All(&[]),
    },
    Row {
        name: "second read fails, at the end",
        script: THREE_LINES,
        read: 100,
        read_fails: &[2],
        write_fails: &[],
        status: 2,
        printed: Printed::All(&[]),
    },
    // Sinks of which a write fails: a front of the text.
    Row {
        name: "no room for the last line",
        script: &[],
        read: 100,
        read_fails: &[],
        write_fails: &[1],
        status: 4,
        printed: Printed::FrontOf("done\n"),
    },
    Row {
        name: "no room for a fault",
        script: &[("UP 1 core\n", 1)],
        read: 100,
        read_fails: &[],
        write_fails: &[1],
        status: 4,
        printed: Printed::FrontOf("fault line 1 form\n"),
    },
    Row {
        name: "first write fails",
        script: THREE_LINES,
        read: 100,
        read_fails: &[],
        write_fails: &[1],
        status: 4,
        printed: THREE_PRINTED,
    },
    Row {
        name: "second write fails",
        script: THREE_LINES,
        read: 100,
        read_fails: &[],
        write_fails: &[2],
        status: 4,
        printed: THREE_PRINTED,
    },
    Row {
        name: "third write fails",
        script: THREE_LINES,
        read: 100,
        read_fails: &[],
        write_fails: &[3],
        status: 4,
        printed: THREE_PRINTED,
    },
    // A script of a byte more than one may have; a line as long as may be, and one byte longer.
    Row {
        name: "long script",
        script: &[("\n", 67_108_865)],
        read: 65_536,
        read_fails: &[],
        write_fails: &[],
        status: 6,
        printed: Printed::All(&[("fault long\n", 1)]),
    },
    Row {
        name: "longest line",
        script: &[("#", 1_048_576)],
        read: 65_536,
        read_fails: &[],
        write_fails: &[],
        status: 0,
        printed: Printed::All(&[("done\n", 1)]),
    },
    Row {
        name: "long line",
        script: &[("#", 1_048_577)],
        read: 65_536,
        read_fails: &[],
        write_fails: &[],
        status: 3,
        printed: Printed::All(&[("fault line 1 form\n", 1)]),
    },
    // A line of version 2 that is as long as may be, and one byte longer, which is outside the grammar even where it would be skipped.
    Row {
        name: "longest line of version 2",
        script: &[("vxscript 2\n", 1), ("#", 1_048_600)],
        read: 65_536,
        read_fails: &[],
        write_fails: &[],
        status: 0,
        printed: Printed::All(&[("vxtrace 2\ndone\n", 1)]),
    },
    Row {
        name: "long line of version 2",
        script: &[("vxscript 2\n", 1), ("#", 1_048_601)],
        read: 65_536,
        read_fails: &[],
        write_fails: &[],
        status: 3,
        printed: Printed::All(&[("vxtrace 2\nfault line 2 form\n", 1)]),
    },
    Row {
        name: "longest step of version 2",
        script: &[("vxscript 2\n7 inst 5 ", 1), ("#", 1_048_591)],
        read: 65_536,
        read_fails: &[],
        write_fails: &[],
        status: 3,
        printed: Printed::All(&[("vxtrace 2\nfault line 2 json\n", 1)]),
    },
    Row {
        name: "long step of version 2",
        script: &[("vxscript 2\n7 inst 5 ", 1), ("#", 1_048_592)],
        read: 65_536,
        read_fails: &[],
        write_fails: &[],
        status: 3,
        printed: Printed::All(&[("vxtrace 2\nfault line 2 form\n", 1)]),
    },
    // A write of 65,537 bytes is made whole, in slices of 256 transfers: its 65,540 take 257 polls, the last of 4.
    Row {
        name: "a write in 257 polls",
        script: &[
            (
                "plug 5 echo
up 1 core
in 1 80000040000000010000000000000002000607AF000000010000000A000000000000000000000000000000000000000000000000000000000000000767706962302C3500
in 1 80010040000000020000000000000002000607AF000000010000000B000000000000000000000000000000000000000100002710000000000000000800010001",
                1,
            ),
            ("41", 65_537),
            ("000000", 1),
            ("\npoll 1", 256),
        ],
        read: 4096,
        read_fails: &[],
        write_fails: &[],
        status: 0,
        printed: Printed::All(&[
            (
                "out 1 8000002800000001000000010000000000000000000000000000000000000000000000010000233300040000
bus 1 c3F c40 c25",
                1,
            ),
            (" p41", 253),
            ("\nwait 1 slice\n", 1),
            (SLICE_OF_41, 255),
            (
                "bus 1 p41 p41 p41 P41
out 1 800000200000000200000001000000000000000000000000000000000000000000010001
done
",
                1,
            ),
        ]),
    },
    // A write of 262,145 bytes is refused before anything is put. One of 262,144 is begun.
    Row {
        name: "longest write",
        script: &[
            (
                "plug 5 echo
up 1 core
in 1 80000040000000010000000000000002000607AF000000010000000A000000000000000000000000000000000000000000000000000000000000000767706962302C3500
in 1 80040040000000020000000000000002000607AF000000010000000B000000000000000000000000000000000000000100002710000000000000000800040001",
                1,
            ),
            ("41", 262_145),
            (
                "000000
in 1 8004003C000000030000000000000002000607AF000000010000000B000000000000000000000000000000000000000100002710000000000000000800040000",
                1,
            ),
            ("41", 262_144),
            ("\ndown 1\n", 1),
        ],
        read: 4096,
        read_fails: &[],
        write_fails: &[],
        status: 0,
        printed: Printed::All(&[
            (
                "out 1 8000002800000001000000010000000000000000000000000000000000000000000000010000233300040000
out 1 800000200000000200000001000000000000000000000000000000000000000500000000
bus 1 c3F c40 c25",
                1,
            ),
            (" p41", 253),
            ("\nwait 1 slice\ngone 1 down\ndone\n", 1),
        ]),
    },
];

/// Adds a spare instrument of this name.
fn add_spare(alloc: Global, name: &str, rack: &mut Vec<Spare<Echo>>) -> Result<(), AllocError> {
    let mut text = ArrayString::new();
    match (text.try_push_str(name), Echo::new(alloc)) {
        (Ok(()), Ok(inst)) => rack
            .push(Spare { name: text, inst })
            .map_err(|_| AllocError),
        _ => Err(AllocError),
    }
}

/// A rack of spare instruments of these names.
fn rack_of(alloc: Global, names: &[&str]) -> Result<Vec<Spare<Echo>>, AllocError> {
    let mut rack = Vec::new(alloc);
    for name in names {
        add_spare(alloc, name, &mut rack)?;
    }
    Ok(rack)
}

/// Plays these words with spare instruments of these names, and answers the status.
fn play(
    alloc: Global,
    names: &[&str],
    words: &[&str],
    source: &mut MemSource,
    sink: &mut MemSink,
) -> Result<u8, AllocError> {
    let words = words_of(alloc, words)?;
    let rack = rack_of(alloc, names)?;
    Ok(play_run(alloc, &words, source, sink, rack))
}

/// Whether the words of a row, which play no script, end so with these spares, and leave the source unread: its first read, which
/// fails, is still to come.
fn ends_unread(alloc: Global, row: &Unread) -> Result<bool, AllocError> {
    let (names, words, write_fails, status, text) = *row;
    let mut source = MemSource::new(Vec::new(alloc), 1, [1u64].to_vec(alloc)?);
    let mut sink = MemSink::new(Vec::new(alloc), write_fails.to_vec(alloc)?);
    let ended = play(alloc, names, words, &mut source, &mut sink)?;
    Ok(ended == status && sink.bytes() == text && source.read(&mut [0]) == ReadOut::Failed)
}

/// Spare instruments, words, the write that fails, if one does, the status, and what is printed.
type Unread = (
    &'static [&'static str],
    &'static [&'static str],
    &'static [u64],
    u8,
    &'static [u8],
);

/// The words of a run.
const RUN: &[&str] = &["gen", "1", "4"];

static UNREAD: [Unread; 20] = [
    // words that are no command, in front of a sink that takes all, and of one whose first write fails
    (&["echo"], &[], &[], 1, USAGE),
    (&["echo"], &["play"], &[], 1, USAGE),
    (&["echo"], &["run", "x"], &[], 1, USAGE),
    (&["echo"], &["RUN"], &[], 1, USAGE),
    (&["echo"], &[""], &[], 1, USAGE),
    (&["echo"], &["--version"], &[], 1, USAGE),
    (&["echo"], &[], &[1], 4, b""),
    (&["echo"], &["play"], &[1], 4, b""),
    (&["echo"], &["run", "x"], &[1], 4, b""),
    (&["echo"], &["RUN"], &[1], 4, b""),
    (&["echo"], &[""], &[1], 4, b""),
    (&["echo"], &["--version"], &[1], 4, b""),
    // a run without a spare that its head plugs: `slow`, where the first or the second write fails too; and each of the three
    (&["echo"], RUN, &[], 3, b"gen 1 4\nfault line 2 spare\n"),
    (&["echo"], RUN, &[1], 4, b""),
    (&["echo"], RUN, &[2], 4, b"gen 1 4\n"),
    (&[], RUN, &[], 3, b"gen 1 4\nfault line 1 spare\n"),
    (
        &["slow", "asker"],
        RUN,
        &[],
        3,
        b"gen 1 4\nfault line 1 spare\n",
    ),
    (
        &["asker", "echo"],
        RUN,
        &[],
        3,
        b"gen 1 4\nfault line 2 spare\n",
    ),
    (
        &["echo", "slow"],
        RUN,
        &[],
        3,
        b"gen 1 4\nfault line 3 spare\n",
    ),
    (
        &["meter", "slow", "echo", "slow"],
        RUN,
        &[],
        3,
        b"gen 1 4\nfault line 3 spare\n",
    ),
];

#[test]
fn plays_without_a_script(rt: HostRuntime) -> Result<(), Fail> {
    for (place, row) in UNREAD.iter().enumerate() {
        let is_so = ends_unread(rt.alloc(), row)?;
        assert!(rt; is_so, "row {place}");
    }
    Ok(())
}

fn is_printed(alloc: Global, text: &[u8], printed: Printed) -> Result<bool, AllocError> {
    match printed {
        Printed::All(pieces) => Ok(text_of(alloc, pieces)?.as_slice() == text),
        Printed::FrontOf(whole) => {
            Ok(whole.as_bytes().starts_with(text) && text.len() < whole.len())
        }
    }
}

/// Whether a row's play ends as it says.
fn is_right(alloc: Global, row: &Row) -> Result<bool, AllocError> {
    let script = text_of(alloc, row.script)?;
    let mut source = MemSource::new(script, row.read.max(1), row.read_fails.to_vec(alloc)?);
    let mut sink = MemSink::new(Vec::new(alloc), row.write_fails.to_vec(alloc)?);
    let status = play(alloc, &["echo"], &["run"], &mut source, &mut sink)?;
    Ok(status == row.status && is_printed(alloc, sink.bytes(), row.printed)?)
}

#[test]
fn plays(rt: HostRuntime) -> Result<(), Fail> {
    for row in &ROWS {
        let is_so = is_right(rt.alloc(), row)?;
        assert!(rt; is_so, "{}", row.name);
    }
    Ok(())
}
