//! The lines of a server, written, and the status that comes of it.
ghost use Rattle.std.specs.Prelude.{◌≤◌, ℕ};
ghost use Rattle.vx_text.specs.Ends.{sink_shown};
ghost use Rattle.vx_text.specs.Writing.{IsPut};
ghost use Rattle.vx_script.specs.Cause.{cause_word};
ghost use Rattle.vx_trace.specs.Output.{FaultLine};
ghost use Rattle.vx_trace.specs.Text.{line_text};
ghost use Rattle.vx_startup.specs.Lines.{listening_line};
ghost use Rattle.vx_startup.specs.Running.{LinksServed, NetShown, TookLinks};
ghost use Rattle.vx_startup.specs.Outcome.{EndsStopped, PutsLast};

use crate::lines::{LINE_ROOM, fault_line, listening_line, served_line};
use crate::status::ServerStatus;
use vx_io_traits::Sink;
use vx_script::Cause;
use vx_setup::BenchStop;
use vx_text::{SinkFailed, put_all};

/// Writes a line behind which nothing more comes, and answers how the server ends: so, or with a sink that failed.
pub fn put_last<K: Sink>(sink: &mut K, line: &[u8], how: ServerStatus) -> ServerStatus
    ensures { PutsLast how line.now
        (sink_shown K.Sink sink.old) (sink_shown K.Sink sink.new) result }
{
    match put_all(sink, line) {
        Ok(()) => how,
        Err(_) => ServerStatus::SinkFailed,
    }
}

/// Writes the line of a bench of which a line is refused.
fn put_fault<K: Sink>(sink: &mut K, line: u64, cause: Cause) -> ServerStatus
    ensures { PutsLast ServerStatus.BenchFault (line_text (FaultLine line (cause_word cause)))
        (sink_shown K.Sink sink.old) (sink_shown K.Sink sink.new) result }
{
    let mut room = [0; LINE_ROOM];
    let len = fault_line(line, cause, &mut room);
    put_last(sink, &room[..len], ServerStatus::BenchFault)
}

/// Ends a server whose bench isn't set up, with the line that says why.
pub fn end_bench<K: Sink>(sink: &mut K, stop: BenchStop) -> ServerStatus
    ensures { EndsStopped stop
        (sink_shown K.Sink sink.old) (sink_shown K.Sink sink.new) result }
{
    match stop {
        BenchStop::Refused { line, cause } => put_fault(sink, line, cause),
        BenchStop::NoMemory => ServerStatus::NoMemory,
    }
}

/// Writes `listening CORE ABORT`: the ports that are open.
pub fn announce<K: Sink>(sink: &mut K, core: u16, abort: u16) -> Result<(), SinkFailed>
    ensures put { IsPut
        (sink_shown K.Sink sink.old) (sink_shown K.Sink sink.new) (listening_line core abort) result }
    ensures counted { K.faults sink.old ≤ K.faults sink.new }
{
    let mut room = [0; LINE_ROOM];
    put_all(sink, listening_line(core, abort, &mut room))
}

/// Writes `served NUMBER`: how many core links were served. Where the net gave so many, the server ends with this status.
pub fn tell_served<K: Sink>(sink: &mut K, number: u64) -> ServerStatus
    ensures { (limit : ℕ) (before after : NetShown) → TookLinks limit before after number → LinksServed limit
        (record { net = before; sink = sink_shown K.Sink sink.old })
        (record { net = after; sink = sink_shown K.Sink sink.new }) number result }
{
    let mut room = [0; LINE_ROOM];
    put_last(sink, served_line(number, &mut room), ServerStatus::Served)
}
