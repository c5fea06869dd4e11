//! Lines that are printed, both ways. That no other text is read is what the readers promise.

use vx_488::Transfer;
use vx_calls::Role;
use vx_trace::*;

const READ: [Transfer; 5] = [
    Transfer::Cmd(0x3F),
    Transfer::Cmd(0x20),
    Transfer::Cmd(0x45),
    Transfer::Got {
        b: 0x41,
        end: false,
    },
    Transfer::Got { b: 0x42, end: true },
];

const OTHERS: [Transfer; 10] = [
    Transfer::Put {
        b: 0x0A,
        end: false,
    },
    Transfer::Put { b: 0xFF, end: true },
    Transfer::Ren(true),
    Transfer::Ren(false),
    Transfer::Atn(true),
    Transfer::Atn(false),
    Transfer::Ifc,
    Transfer::Own(0),
    Transfer::Own(30),
    Transfer::Own(255),
];

/// Each kind of line, beside its text.
static LINES: [(Line<'static>, &[u8]); 25] = [
    (
        Line::Bus {
            conn: 1,
            moves: &READ,
        },
        b"bus 1 c3F c20 c45 g41 G42\n",
    ),
    (
        Line::Bus {
            conn: 4294967295,
            moves: &OTHERS,
        },
        b"bus 4294967295 p0A PFF ren1 ren0 atn1 atn0 ifc own0 own30 own255\n",
    ),
    (
        Line::Out {
            conn: 3,
            bytes: b"\x80\x00\x00\x02\x0A\xF9",
        },
        b"out 3 800000020AF9\n",
    ),
    (
        Line::Irq {
            conn: 20,
            bytes: b"\x80\x00\x00\x00",
        },
        b"irq 20 80000000\n",
    ),
    (Line::IrqNone { conn: 1 }, b"irq 1 none\n"),
    (Line::IrqClosed { conn: 1 }, b"irq 1 closed\n"),
    (
        Line::WaitLock {
            conn: 2,
            lid: 1073741823,
        },
        b"wait 2 lock 1073741823\n",
    ),
    (Line::WaitTurn { conn: 2, by: 1 }, b"wait 2 turn 1\n"),
    (Line::WaitBehind { conn: 2, by: 1 }, b"wait 2 behind 1\n"),
    (
        Line::WaitBehind {
            conn: 0,
            by: 4294967295,
        },
        b"wait 0 behind 4294967295\n",
    ),
    (Line::WaitHeld { conn: 2 }, b"wait 2 held\n"),
    (
        Line::WaitSlice { conn: 2147483647 },
        b"wait 2147483647 slice\n",
    ),
    (
        Line::WaitDial { conn: 2147483647 },
        b"wait 2147483647 dial\n",
    ),
    (Line::GoneDown { conn: 5 }, b"gone 5 down\n"),
    (Line::GoneJunk { conn: 0 }, b"gone 0 junk\n"),
    (Line::GoneLong { conn: 5 }, b"gone 5 long\n"),
    (Line::Done, b"done\n"),
    (
        Line::FaultLine {
            line: 1,
            word: b"form",
        },
        b"fault line 1 form\n",
    ),
    (
        Line::FaultLine {
            line: 67108865,
            word: b"number",
        },
        b"fault line 67108865 number\n",
    ),
    (
        Line::FaultLine {
            line: u64::MAX,
            word: b"absent",
        },
        b"fault line 18446744073709551615 absent\n",
    ),
    (
        Line::FaultLine {
            line: 3,
            word: b"own",
        },
        b"fault line 3 own\n",
    ),
    (
        Line::FaultLine {
            line: 3,
            word: b"json",
        },
        b"fault line 3 json\n",
    ),
    (
        Line::FaultLine {
            line: 3,
            word: b"taken",
        },
        b"fault line 3 taken\n",
    ),
    (Line::FaultLong, b"fault long\n"),
    (Line::Usage, b"usage: vxplay COMMAND\n"),
];

/// Lines of version 2: the moment and the line, their text, and the moment that is read of it.
static LINES2: [(u64, Line<'static>, &[u8], u64); 21] = [
    (0, Line::TraceHead, b"vxtrace 2\n", 0),
    (u64::MAX, Line::TraceHead, b"vxtrace 2\n", 0),
    (
        u64::MAX,
        Line::Up {
            conn: 1,
            role: Role::Core,
        },
        b"18446744073709551615 up 1 core\n",
        u64::MAX,
    ),
    (
        u64::MAX,
        Line::Up {
            conn: 4294967295,
            role: Role::Abort,
        },
        b"18446744073709551615 up 4294967295 abort\n",
        u64::MAX,
    ),
    (
        u64::MAX,
        Line::Call {
            conn: 1,
            bytes: b"\x00\x0A\xF9\xFF",
        },
        b"18446744073709551615 call 1 000AF9FF\n",
        u64::MAX,
    ),
    (
        u64::MAX,
        Line::Call {
            conn: 4294967295,
            bytes: b"",
        },
        b"18446744073709551615 call 4294967295 \n",
        u64::MAX,
    ),
    (
        u64::MAX,
        Line::Begin { conn: 0 },
        b"18446744073709551615 begin 0\n",
        u64::MAX,
    ),
    (
        u64::MAX,
        Line::DialDone { conn: 3, up: true },
        b"18446744073709551615 dial 3 ok\n",
        u64::MAX,
    ),
    (
        u64::MAX,
        Line::DialDone { conn: 3, up: false },
        b"18446744073709551615 dial 3 fail\n",
        u64::MAX,
    ),
    (
        u64::MAX,
        Line::Srq { level: false },
        b"18446744073709551615 srq 0\n",
        u64::MAX,
    ),
    (
        u64::MAX,
        Line::Srq { level: true },
        b"18446744073709551615 srq 1\n",
        u64::MAX,
    ),
    (u64::MAX, Line::Done, b"done\n", 0),
    (
        7,
        Line::Bus {
            conn: 1,
            moves: &READ,
        },
        b"7 bus 1 c3F c20 c45 g41 G42\n",
        7,
    ),
    (
        10,
        Line::Out {
            conn: 3,
            bytes: b"\x80\x00\x00\x02\x0A\xF9",
        },
        b"10 out 3 800000020AF9\n",
        10,
    ),
    (100, Line::IrqNone { conn: 1 }, b"100 irq 1 none\n", 100),
    (
        0,
        Line::WaitBehind { conn: 2, by: 1 },
        b"0 wait 2 behind 1\n",
        0,
    ),
    (1, Line::WaitDial { conn: 2 }, b"1 wait 2 dial\n", 1),
    (9, Line::GoneLong { conn: 5 }, b"9 gone 5 long\n", 9),
    (
        9,
        Line::FaultLine {
            line: 3,
            word: b"form",
        },
        b"fault line 3 form\n",
        0,
    ),
    (9, Line::FaultLong, b"fault long\n", 0),
    (9, Line::Usage, b"usage: vxplay COMMAND\n", 0),
];

/// What a line is written as in version 1, or at this moment in version 2; nothing where the version has no such line.
fn put(moment: Option<u64>, line: &Line, out: &mut [u8]) -> Option<Result<usize, Full>> {
    if !line.is_whole() {
        return None;
    }
    match moment {
        Some(moment) => Some(put_line2(moment, line, out)),
        None if line.is_first() => Some(put_line(line, out)),
        None => None,
    }
}

/// Whether a line is written as this text, into room for 72 bytes of which the rest stays as it was.
fn is_written(moment: Option<u64>, line: &Line, text: &[u8]) -> bool {
    let mut out = [b'#'; 72];
    put(moment, line, &mut out) == Some(Ok(text.len()))
        && out.starts_with(text)
        && out.get(text.len()) == Some(&b'#')
}

/// Whether a text of at most 72 bytes is read as this line of version 1.
fn is_read(text: &[u8], line: Line) -> bool {
    let len = text.len();
    let mut moves = [Transfer::Ifc; 72];
    let mut bytes = [0; 72];
    len <= 72 && read_line(text, &mut moves[..len], &mut bytes[..len]) == Some(line)
}

/// The same of version 2, with its moment.
fn is_read2(text: &[u8], moment: u64, line: Line) -> bool {
    let len = text.len();
    let mut moves = [Transfer::Ifc; 72];
    let mut bytes = [0; 72];
    len <= 72 && read_line2(text, &mut moves[..len], &mut bytes[..len]) == Some((moment, line))
}

// Each line is written, and read back; of version 2 at its moment, and with it.
#[test]
fn lines(rt: HostRuntime) {
    for (place, (line, text)) in LINES.iter().enumerate() {
        let is_so = is_written(None, line, text) && is_read(text, *line);
        assert!(rt; is_so, "line {place}");
    }
    for (place, (moment, line, text, read)) in LINES2.iter().enumerate() {
        let is_so = is_written(Some(*moment), line, text);
        assert!(rt;
            is_so && is_read2(text, *read, *line),
            "line {place} of version 2"
        );
    }
}
