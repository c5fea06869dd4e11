//! What lines of a script of version 2 say. Lines of version 1, and scripts, are rows of `vx_measure`.

use vx_calls::Role;
use vx_script::*;

/// What is read of a line of version 2.
type Timed<'a> = Result<Option<(u64, Step<'a>)>, Cause>;

/// Lines of version 2, each with what it says.
static TIMED_LINES: [(&[u8], Timed<'static>); 34] = [
    (b"", Ok(None)),
    (b"#", Ok(None)),
    (b"# 5 sample", Ok(None)),
    (b"0 sample", Ok(Some((0, Step::Sample)))),
    (b"7 sample", Ok(Some((7, Step::Sample)))),
    (
        b"0 up 1 core",
        Ok(Some((
            0,
            Step::Up {
                conn: 1,
                role: Role::Core,
            },
        ))),
    ),
    (
        b"5 in 1 0aFF",
        Ok(Some((
            5,
            Step::In {
                conn: 1,
                bytes: b"\x0A\xFF",
            },
        ))),
    ),
    (
        b"10 inst 5,0 {\"a\": [1, 2]}  ",
        Ok(Some((
            10,
            Step::Inst {
                p: 5,
                s: Some(0),
                text: b"{\"a\": [1, 2]}  ",
            },
        ))),
    ),
    // A CR in front of the LF is a part of the text.
    (
        b"10 inst 5 {}\r",
        Ok(Some((
            10,
            Step::Inst {
                p: 5,
                s: None,
                text: b"{}\r",
            },
        ))),
    ),
    (
        b"18446744073709551615 fail 4294967295",
        Ok(Some((u64::MAX, Step::Fail(u32::MAX)))),
    ),
    (b"18446744073709551616 fail 4294967295", Err(Cause::Form)),
    (b"100000000000000000000 sample", Err(Cause::Form)),
    // A moment has no leading zero, no sign, and one space behind it alone.
    (b"00 sample", Err(Cause::Form)),
    (b"05 sample", Err(Cause::Form)),
    (b"+5 sample", Err(Cause::Form)),
    (b"-1 sample", Err(Cause::Form)),
    (b"5a sample", Err(Cause::Form)),
    (b"5  sample", Err(Cause::Form)),
    (b" 5 sample", Err(Cause::Form)),
    (b" sample", Err(Cause::Form)),
    (b"5\tsample", Err(Cause::Form)),
    (b"5 sample ", Err(Cause::Form)),
    (b"5 sample\r", Err(Cause::Form)),
    // There is a step behind the moment, and a moment in front of the step.
    (b"5", Err(Cause::Form)),
    (b"5 ", Err(Cause::Form)),
    (b"5 5 sample", Err(Cause::Form)),
    (b"sample", Err(Cause::Form)),
    (b"up 1 core", Err(Cause::Form)),
    // It is no remark, no `at`, and no head of a script.
    (b"5 #", Err(Cause::Form)),
    (b"5 # text", Err(Cause::Form)),
    (b"5 at 9", Err(Cause::Form)),
    (b"at 5", Err(Cause::Form)),
    (b"vxscript 2", Err(Cause::Form)),
    (b"5 UP 1 core", Err(Cause::Form)),
];

/// Whether a line of version 2 of at most 64 bytes says this.
fn says_timed(line: &[u8], wanted: &Timed) -> bool {
    let mut room = [0u8; 64];
    line.len() <= 64 && read_step2(line, &mut room[..line.len()]) == *wanted
}

#[test]
fn timed_lines(rt: HostRuntime) {
    for (place, (line, wanted)) in TIMED_LINES.iter().enumerate() {
        assert!(rt; says_timed(line, wanted), "line {place}");
    }
}
