//! One line: what it is to a lift, and the line of version 2 that it is lifted to.
ghost use Rattle.std.specs.Prelude.{◌≡◌, ◌≤◌, ◌+◌, length};
ghost use Rattle.vx_text.specs.Ends.{sink_shown};
ghost use Rattle.vx_script.specs.Grammar.{reading};
ghost use Rattle.vx_lift.specs.Lifted.{lifted_line};
ghost use Rattle.vx_lift.specs.LineLifted.{IsSaid, EndsLine};

use vx_io_traits::Sink;
use vx_script::{LINE_MAX, Step, read_step};
use vx_text::{put_all, put_number, put_text};

/// Room for a moment of at most 20 digits, a space and LF.
const MOMENT_ROOM: usize = 22;

/// Room for the longest line that a step is lifted to, in bytes, its LF with it.
pub const TEXT_ROOM: usize = LINE_MAX + MOMENT_ROOM;

/// What a line is to a lift.
#[derive(Clone, Copy)]
pub enum Said {
    /// A line to skip.
    Nothing,
    /// The moment of the next steps, in milliseconds.
    Moment(u64),
    /// A step that is lifted.
    Step,
    /// A line outside the grammar.
    Outside,
}

/// How the lift of a line ended.
#[derive(Clone, Copy)]
pub enum LineEnd {
    /// Its text was written, where it has one; this is the greatest moment so far, in milliseconds.
    Lifted { moment: u64 },
    /// The line is outside the grammar.
    Outside,
    SinkFailed,
}

/// What a line is to a lift. `room` is for the bytes of an `in`.
fn said_of(line: &[u8], room: &mut [u8]) -> Said
    requires { length room.old ≡ length line.now }
    ensures { IsSaid (reading line.now) result }
{
    match read_step(line, room) {
        Ok(None) => Said::Nothing,
        Ok(Some(Step::At(moment))) => Said::Moment(moment),
        Ok(Some(_)) => Said::Step,
        Err(_) => Said::Outside,
    }
}

/// The line that a step's line is lifted to at a moment, in milliseconds, written at the front of `text`.
fn lift_step<'a>(moment: u64, line: &[u8], text: &'a mut [u8]) -> &'a [u8]
    requires { length line.now + MOMENT_ROOM ≤ length text.old }
    ensures { result.now ≡ lifted_line moment line.now }
{
    let end = put_number(text, 0, moment);
    let end = put_text(text, end, b" ");
    let end = put_text(text, end, line);
    let end = put_text(text, end, b"\n");
    &text[..end]
}

/// Lifts one line behind the greatest moment so far, in milliseconds: what it is lifted to is written. `room` is for the bytes
/// of an `in`.
pub fn lift_line<K: Sink>(
    moment: u64,
    line: &[u8],
    room: &mut [u8],
    text: &mut [u8],
    sink: &mut K,
) -> LineEnd
    requires room { LINE_MAX ≤ length room.old }
    requires text { TEXT_ROOM ≤ length text.old }
    ensures ended { EndsLine moment line.now (reading line.now)
        (sink_shown K.Sink sink.old) (sink_shown K.Sink sink.new) result }
    ensures counted { K.faults sink.old ≤ K.faults sink.new }
{
    if line.len() > LINE_MAX {
        return LineEnd::Outside;
    }
    match said_of(line, &mut room[..line.len()]) {
        Said::Nothing => LineEnd::Lifted { moment },
        Said::Moment(at) => LineEnd::Lifted {
            moment: moment.max(at),
        },
        Said::Step => match put_all(sink, lift_step(moment, line, text)) {
            Ok(()) => LineEnd::Lifted { moment },
            Err(_) => LineEnd::SinkFailed,
        },
        Said::Outside => LineEnd::Outside,
    }
}
