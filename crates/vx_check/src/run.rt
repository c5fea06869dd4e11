//! A whole check: the words, the trace, its lines, the line that is printed, and the status.
ghost use Rattle.std.specs.Prelude.{◌≡◌, ℕ, List, ◌+◌, ◌<◌, ◌^◌, ◌≤◌, length, map, string_bytes};
ghost use Rattle.vx_text.specs.Ends.{source_shown, sink_shown};
ghost use Rattle.vx_text.specs.Reading.{GivesUpTo};
ghost use Rattle.vx_text.specs.TextLines.{lines};
ghost use Rattle.vx_history.specs.Shown.{whole_lines};
ghost use Rattle.vx_history.specs.declared.limits.TheConstants.{TRACE_MAX};
ghost use Rattle.vx_check.specs.Outcome.{CheckEndsSo, IsOutcome, cause_name, check_status_number, spoiled_line};
ghost use Rattle.vx_check.specs.Verdicts.{Completes, CompletesLong, EndsFormed};
ghost use Rattle.vx_check.specs.Telling.{CheckPutsLine, IsJudged, IsFrontJudged, IsCheckTold, verdict_of};

use std::alloc::Global;
use vx_history::{
    Cause, Far, TRACE_MAX, Trace, end_lines, formed_runs, lawful_histories, one_history,
    read_trace, walk,
};
use vx_io_traits::{Sink, Source};
use vx_text::{put_all, put_number, put_text};

/// How a check ended, as the program's exit status tells it.
#[derive(Clone, Copy, PartialEq, Eq)]
pub(crate) enum CheckStatus {
    /// 0: the trace's history is legal.
    Legal,
    /// 1: there are words.
    Usage,
    /// 2: the source failed.
    SourceFailed,
    /// 3: a line has a cause against it.
    Spoiled,
    /// 4: the sink failed.
    SinkFailed,
    /// 5: memory ran out.
    NoMemory,
    /// 6: the trace is too long.
    TooLong,
}

impl CheckStatus {
    /// The exit status.
    fn number(self) -> u8
        ensures { result ≡ check_status_number self }
    {
        match self {
            CheckStatus::Legal => 0,
            CheckStatus::Usage => 1,
            CheckStatus::SourceFailed => 2,
            CheckStatus::Spoiled => 3,
            CheckStatus::SinkFailed => 4,
            CheckStatus::NoMemory => 5,
            CheckStatus::TooLong => 6,
        }
    }
}

/// What a trace is.
#[derive(Clone, Copy)]
pub(crate) enum Verdict {
    Legal,
    Spoiled { line: u64, cause: Cause },
    TooLong,
    NoMemory,
}

/// Room for the line that names a line, in bytes: `line`, a number of 20 digits, a cause of 6 letters, two spaces and LF.
const LINE_ROOM: usize = 33;

/// The name of a cause that is printed.
fn word_of(cause: Cause) -> &'static [u8]
    ensures { result.now ≡ cause_name cause }
{
    match cause {
        Cause::Form => b"form",
        Cause::Moment => b"moment",
        Cause::Place => b"place",
        Cause::Reply => b"reply",
        Cause::Entry => b"entry",
    }
}

/// The line that names a line and its cause, at the front of the room.
fn spoiled_line(line: u64, cause: Cause, room: &mut [u8; LINE_ROOM]) -> &[u8]
    ensures { result.now ≡ spoiled_line line cause }
{
    let end = put_text(room, 0, b"line ");
    let end = put_number(room, end, line);
    let end = put_text(room, end, b" ");
    let end = put_text(room, end, word_of(cause));
    let end = put_text(room, end, b"\n");
    &room[..end]
}

/// Writes the line of a check that ends so.
fn put_line<K: Sink>(sink: &mut K, line: &[u8], how: CheckStatus) -> CheckStatus
    ensures { CheckPutsLine how line.now
        (sink_shown K.Sink sink.old) (sink_shown K.Sink sink.new) result }
{
    match put_all(sink, line) {
        Ok(()) => how,
        Err(_) => CheckStatus::SinkFailed,
    }
}

/// What the walk along all lines of a trace finds.
fn verdict_of(far: Far) -> Verdict
    ensures { result ≡ verdict_of far }
{
    match far {
        Far::Through { over: true, .. } => Verdict::Legal,
        Far::Through { next, over: false } => Verdict::Spoiled {
            line: next,
            cause: Cause::Place,
        },
        Far::Stops { line, cause } => Verdict::Spoiled { line, cause },
        Far::NoMemory => Verdict::NoMemory,
    }
}

/// What a whole trace is.
fn judge_whole(alloc: Global, mut trace: Vec<u8>) -> Verdict
    requires { length trace.items ≤ TRACE_MAX }
    ensures { IsJudged trace.items result }
{
    match end_lines(&mut trace) {
        Ok(()) => judge_ended(alloc, &trace),
        Err(_) => Verdict::NoMemory,
    }
}

/// What a whole trace is, whose lines are ended.
fn judge_ended(alloc: Global, text: &[u8]) -> Verdict
    requires { length text.now < 2 ^ 31 }
    ensures { (bytes : List ℕ) → whole_lines text.now ≡ lines bytes → IsJudged bytes result }
{
    lawful_histories();
    verdict_of(walk(alloc, text))
}

/// What a trace is of which one byte more was read than it may have.
fn judge_front(alloc: Global, trace: &[u8], most: usize) -> Verdict
    requires limit { most ≤ TRACE_MAX }
    requires above { most ≤ length trace.now }
    ensures { IsFrontJudged most trace.now result }
{
    match walk(alloc, &trace[..most]) {
        Far::Through { .. } => Verdict::TooLong,
        Far::Stops { line, cause } => Verdict::Spoiled { line, cause },
        Far::NoMemory => Verdict::NoMemory,
    }
}

/// Prints what a trace is.
fn tell<K: Sink>(sink: &mut K, verdict: Verdict) -> CheckStatus
    ensures { IsCheckTold verdict
        (sink_shown K.Sink sink.old) (sink_shown K.Sink sink.new) result }
{
    match verdict {
        Verdict::Legal => put_line(sink, b"legal\n", CheckStatus::Legal),
        Verdict::Spoiled { line, cause } => {
            let mut room = [0; LINE_ROOM];
            put_line(
                sink,
                spoiled_line(line, cause, &mut room),
                CheckStatus::Spoiled,
            )
        }
        Verdict::TooLong => put_line(sink, b"long\n", CheckStatus::TooLong),
        Verdict::NoMemory => CheckStatus::NoMemory,
    }
}

/// Checks the trace of at most so many bytes that the source gives, where there are no words.
fn check<S: Source, K: Sink>(
    alloc: Global,
    words: &[String],
    source: &mut S,
    sink: &mut K,
    most: usize,
) -> CheckStatus
    requires { most ≤ TRACE_MAX }
    ensures outcome { IsOutcome most (map string_bytes words.now) (record {
      source = source_shown S.Source source.old;
      source_after = source_shown S.Source source.new;
      sink = sink_shown K.Sink sink.old;
      sink_after = sink_shown K.Sink sink.new;
    }) result }
{
    if !words.is_empty() {
        return put_line(sink, b"usage: vxcheck\n", CheckStatus::Usage);
    }
    match read_trace(alloc, source, most) {
        Trace::Whole(trace) => tell(sink, judge_whole(alloc, trace)),
        Trace::Longer(trace) => tell(sink, judge_front(alloc, &trace, most)),
        Trace::Failed => CheckStatus::SourceFailed,
        Trace::NoMemory => CheckStatus::NoMemory,
    }
}

/// What `check_run` does, where the longest trace has `most` bytes.
pub fn check_up_to<S: Source, K: Sink>(
    alloc: Global,
    words: &[String],
    source: &mut S,
    sink: &mut K,
    most: usize,
) -> u8
    requires { most ≤ TRACE_MAX }
    ensures outcome { CheckEndsSo most (map string_bytes words.now) (record {
      source = source_shown S.Source source.old;
      source_after = source_shown S.Source source.new;
      sink = sink_shown K.Sink sink.old;
      sink_after = sink_shown K.Sink sink.new;
    }) result }
{
    check(alloc, words, source, sink, most).number()
}

/// All that the program `vxcheck` does, without words: it reads a trace of version 2 to its end, says whether the history that the
/// trace tells is one of the gateway of one thread, and answers the exit status.
///
/// - 0, `legal`: each line tells what can happen at its place, the first is `vxtrace 2` and the last is `done`; the events of the lines
///   linearize to a legal history.
/// - 1, `usage: vxcheck`: there are words; the source isn't read.
/// - 2, nothing printed: the source failed.
/// - 3, `line N CAUSE`: this line, counted from 1, is the first that has a cause against it: `form`, version 2 has no such line;
///   `moment`, its moment is below that of an earlier line; `place`, it can't stand there; `reply`, its bytes aren't the record that
///   they have to be; `entry`, the gateway of one thread doesn't do so. Where `done` is missing, the line behind the last is named.
/// - 4: the sink failed; a front of what was due was written.
/// - 5, nothing printed: memory ran out.
/// - 6, `long`: more than 1,073,741,824 bytes came before such a line ended.
pub fn check_run<S: Source, K: Sink>(
    alloc: Global,
    words: &[String],
    source: &mut S,
    sink: &mut K,
) -> u8
    ensures outcome { CheckEndsSo TRACE_MAX (map string_bytes words.now) (record {
      source = source_shown S.Source source.old;
      source_after = source_shown S.Source source.new;
      sink = sink_shown K.Sink sink.old;
      sink_after = sink_shown K.Sink sink.new;
    }) result }

    // Whatever comes of it, no more than 1,073,741,825 bytes are read.
    ensures read { GivesUpTo (TRACE_MAX + 1)
        (source_shown S.Source source.old) (source_shown S.Source source.new) }

    // The other direction: where there are no words, the source tells its bytes and neither count of faults rose, a trace that tells a
    // legal history is answered with 0, one that tells its first line with a cause with 3 and that line; or it is 5.
    ensures complete { Completes TRACE_MAX (map string_bytes words.now) (record {
      source = source_shown S.Source source.old;
      source_after = source_shown S.Source source.new;
      sink = sink_shown K.Sink sink.old;
      sink_after = sink_shown K.Sink sink.new;
    }) result }

    // The same of a longer one: 3 and the first line with a cause among those that end within its first 1,073,741,824 bytes, else 6;
    // or it is 5.
    ensures complete_long { CompletesLong TRACE_MAX (map string_bytes words.now) (record {
      source = source_shown S.Source source.old;
      source_after = source_shown S.Source source.new;
      sink = sink_shown K.Sink sink.old;
      sink_after = sink_shown K.Sink sink.new;
    }) result }

    // Where there are no words, the source gives the trace of a formed run, which isn't too long, and neither count of faults rose, the
    // status is 0 or 5.
    ensures formed { EndsFormed (map string_bytes words.now) (record {
      source = source_shown S.Source source.old;
      source_after = source_shown S.Source source.new;
      sink = sink_shown K.Sink sink.old;
      sink_after = sink_shown K.Sink sink.new;
    }) result }
{
    formed_runs();
    one_history();
    check_up_to(alloc, words, source, sink, TRACE_MAX)
}
