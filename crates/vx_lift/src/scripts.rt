//! A whole script: the head, and what its lines are lifted to, one after the other.
ghost use Rattle.std.specs.Prelude.{◌≤◌, length};
ghost use Rattle.vx_text.specs.Ends.{sink_shown};
ghost use Rattle.vx_lift.specs.Lifting.{EndsLift, EndsLiftScript};

use crate::lines::{LineEnd, TEXT_ROOM, lift_line};
use std::alloc::Global;
use vx_io_traits::Sink;
use vx_script::LINE_MAX;
use vx_text::{first_line, put_all, zeros};

/// How a lift ended.
#[derive(Clone, Copy, PartialEq, Eq)]
pub enum Lifting {
    /// The whole script was lifted.
    Whole,
    /// This line, counted from 1, is outside the grammar; what stands in front of it was lifted.
    Fault { line: u64 },
    /// The sink failed; a front of what was due was written.
    SinkFailed,
}

/// How a lift ended that makes its own room.
#[derive(Clone, Copy, PartialEq, Eq)]
pub enum LiftEnd {
    /// The whole script was lifted.
    Whole,
    /// This line, counted from 1, is outside the grammar; what stands in front of it was lifted.
    Fault { line: u64 },
    /// The sink failed; a front of what was due was written.
    SinkFailed,
    /// Memory ran out; nothing was written.
    NoMemory,
}

/// Writes the script of version 2 that a script of version 1 is lifted to, up to its first line outside the grammar.
/// `room` is for the bytes of an `in`, and `text` for a line that is lifted.
pub fn lift_lines<K: Sink>(script: &[u8], room: &mut [u8], text: &mut [u8], sink: &mut K) -> Lifting
    requires room { LINE_MAX ≤ length room.old }
    requires text { TEXT_ROOM ≤ length text.old }
    ensures ended { EndsLift script.now
        (sink_shown K.Sink sink.old) (sink_shown K.Sink sink.new) result }
    ensures counted { K.faults sink.old ≤ K.faults sink.new }
{
    let Ok(()) = put_all(sink, b"vxscript 2\n") else {
        return Lifting::SinkFailed;
    };
    let mut rest = script;
    let mut line = 0u64;
    let mut greatest = 0u64;
    while !rest.is_empty() {
        let (first, behind) = first_line(rest);
        line += 1;
        match lift_line(greatest, first, room, text, sink) {
            LineEnd::Lifted { moment } => greatest = moment,
            LineEnd::Outside => return Lifting::Fault { line },
            LineEnd::SinkFailed => return Lifting::SinkFailed,
        }
        rest = behind;
    }
    Lifting::Whole
}

/// Writes the script of version 2 that a script of version 1 is lifted to, up to its first line outside the grammar, in room
/// that it makes.
pub fn lift_script<K: Sink>(alloc: Global, script: &[u8], sink: &mut K) -> LiftEnd
    ensures ended { EndsLiftScript script.now
        (sink_shown K.Sink sink.old) (sink_shown K.Sink sink.new) result }
    ensures counted { K.faults sink.old ≤ K.faults sink.new }
{
    let Ok(mut room) = zeros(alloc, LINE_MAX) else {
        return LiftEnd::NoMemory;
    };
    let Ok(mut text) = zeros(alloc, TEXT_ROOM) else {
        return LiftEnd::NoMemory;
    };
    match lift_lines(script, &mut room, &mut text, sink) {
        Lifting::Whole => LiftEnd::Whole,
        Lifting::Fault { line } => LiftEnd::Fault { line },
        Lifting::SinkFailed => LiftEnd::SinkFailed,
    }
}
