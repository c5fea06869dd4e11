//! Lifts whose sink fails, and lifts of the longest lines. Other scripts are rows of `vx_measure`.

use crate::text_tools::{Piece, text_of};
use std::alloc::{AllocError, Global};
use std::test::Fail;
use vx_lift::*;
use vx_memory::MemSink;
use vx_script::LINE_MAX;

/// A script of three steps.
const THREE_STEPS: &[u8] = b"up 1 core\nat 20\n# a pause\npoll 1\ndown 1\n";

/// The writes of a sink that fail, and what is written of those steps.
static FAILURES: [(&[u64], &[u8]); 4] = [
    (&[1], b""),
    (&[2], b"vxscript 2\n"),
    (&[3], b"vxscript 2\n0 up 1 core\n"),
    (&[4], b"vxscript 2\n0 up 1 core\n20 poll 1\n"),
];

/// Whether a script is lifted so.
fn is_lifted(
    alloc: Global,
    script: &[u8],
    write_fails: &[u64],
    ended: LiftEnd,
    lifted: &[u8],
) -> Result<bool, AllocError> {
    let mut sink = MemSink::new(Vec::new(alloc), write_fails.to_vec(alloc)?);
    let end = lift_script(alloc, script, &mut sink);
    Ok(end == ended && sink.bytes() == lifted)
}

#[test]
fn lifts_whose_sink_fails(rt: HostRuntime) -> Result<(), Fail> {
    for row in &FAILURES {
        let (write_fails, lifted) = *row;
        let ended = LiftEnd::SinkFailed;
        let is_so = is_lifted(rt.alloc(), THREE_STEPS, write_fails, ended, lifted)?;
        assert!(rt; is_so, "writes {write_fails:?}");
    }
    Ok(())
}

/// The lengths of lines that begin with `inst 5 ` and go on with `#`, how a lift behind the greatest moment ends, and what is
/// written.
static LONG_LINES: [(usize, LiftEnd, &[Piece]); 2] = [
    (
        LINE_MAX,
        LiftEnd::Whole,
        &[
            ("vxscript 2\n18446744073709551615 inst 5 ", 1),
            ("#", LINE_MAX - 7),
            ("\n18446744073709551615 sample\n", 1),
        ],
    ),
    (
        LINE_MAX + 1,
        LiftEnd::Fault { line: 2 },
        &[("vxscript 2\n", 1)],
    ),
];

/// Whether a line of this length is lifted so.
fn is_long_lifted(
    alloc: Global,
    len: usize,
    ended: LiftEnd,
    lifted: &[Piece],
) -> Result<bool, AllocError> {
    let script = text_of(
        alloc,
        &[
            ("at 18446744073709551615\ninst 5 ", 1),
            ("#", len.saturating_sub(7)),
            ("\nsample\n", 1),
        ],
    )?;
    let lifted = text_of(alloc, lifted)?;
    is_lifted(alloc, &script, &[], ended, &lifted)
}

#[test]
fn lifts_of_long_lines(rt: HostRuntime) -> Result<(), Fail> {
    for row in &LONG_LINES {
        let (len, ended, lifted) = *row;
        let is_so = is_long_lifted(rt.alloc(), len, ended, lifted)?;
        assert!(rt; is_so, "of {len} bytes");
    }
    Ok(())
}
