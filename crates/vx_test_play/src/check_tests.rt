//! Checks of traces whose words, source or sink fail. What is found of worked traces are rows of `vx_measure`.

use crate::text_tools::words_of;
use std::alloc::{AllocError, Global};
use std::test::Fail;
use vx_check::{TRACE_MAX, check_run, check_up_to};
use vx_memory::{MemSink, MemSource};

/// A trace that is legal.
const LEGAL: &[u8] = b"vxtrace 2\ndone\n";

/// The words, a trace, the reads and the writes that fail, the status, and what is printed.
type Row = (
    &'static [&'static str],
    &'static [u8],
    &'static [u64],
    &'static [u64],
    u8,
    &'static [u8],
);

static ROWS: [Row; 6] = [
    (&[], LEGAL, &[1], &[], 2, b""),
    (&[], LEGAL, &[3], &[], 2, b""),
    (&[], LEGAL, &[], &[1], 4, b""),
    (&[], b"done\n", &[], &[1], 4, b""),
    // where there are words the trace isn't read
    (&[""], LEGAL, &[], &[], 1, b"usage: vxcheck\n"),
    (&[""], LEGAL, &[1], &[1], 4, b""),
];

/// The longest trace, a trace, the writes that fail, the status, and what is printed.
type Long = (usize, &'static [u8], &'static [u64], u8, &'static [u8]);

static LONG: [Long; 7] = [
    (15, LEGAL, &[], 0, b"legal\n"),
    (14, LEGAL, &[], 6, b"long\n"),
    (14, LEGAL, &[1], 4, b""),
    // no line ends within the longest trace
    (9, b"vxtrace 3\ndone\n", &[], 6, b"long\n"),
    (10, b"vxtrace 3\ndone\n", &[], 3, b"line 1 form\n"),
    (14, b"vxtrace 3\ndone\n", &[], 3, b"line 1 form\n"),
    (0, b"d", &[], 6, b"long\n"),
];

/// Whether the check of a row's trace, of which four bytes are read at once, ends as it says.
fn ends_so(alloc: Global, row: &Row) -> Result<bool, AllocError> {
    let (words, trace, read_fails, write_fails, status, printed) = *row;
    let words = words_of(alloc, words)?;
    let mut source = MemSource::new(trace.to_vec(alloc)?, 4, read_fails.to_vec(alloc)?);
    let mut sink = MemSink::new(Vec::new(alloc), write_fails.to_vec(alloc)?);
    let ended = check_run(alloc, &words, &mut source, &mut sink);
    Ok(ended == status && sink.bytes() == printed)
}

/// Whether the check of a trace of which the longest has so many bytes ends as its row says.
fn is_long_so(alloc: Global, row: &Long) -> Result<bool, AllocError> {
    let (most, trace, write_fails, status, printed) = *row;
    let mut source = MemSource::new(trace.to_vec(alloc)?, 4, Vec::new(alloc));
    let mut sink = MemSink::new(Vec::new(alloc), write_fails.to_vec(alloc)?);
    let ended = check_up_to(alloc, &[], &mut source, &mut sink, most.min(TRACE_MAX));
    Ok(ended == status && sink.bytes() == printed)
}

#[test]
fn failures_have_statuses(rt: HostRuntime) -> Result<(), Fail> {
    for (place, row) in ROWS.iter().enumerate() {
        let is_so = ends_so(rt.alloc(), row)?;
        assert!(rt; is_so, "row {place}");
    }
    Ok(())
}

#[test]
fn longer_traces_are_judged_by_their_front(rt: HostRuntime) -> Result<(), Fail> {
    for (place, row) in LONG.iter().enumerate() {
        let is_so = is_long_so(rt.alloc(), row)?;
        assert!(rt; is_so, "row {place}");
    }
    Ok(())
}
