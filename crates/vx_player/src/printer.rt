//! The lines of a play, written into room that is made once.
ghost use Rattle.std.specs.Prelude.{◌≡◌, ◌≤◌, ◌++◌, ◌+◌, ◌-◌, false, length, take, vec_len, None, Some, IfSome};
ghost use Rattle.std.specs.List.{All};
ghost use Rattle.vx_trace.specs.Text.{HasRanges, IsWhole, is_timed, line_text};
ghost use Rattle.vx_trace.specs.Output.{line_shown};
ghost use Rattle.vx_player.specs.declared.printer.TheConstants.{TEXT_ROOM};
ghost use Rattle.vx_player.specs.Printing.{option_text, outputs_of, stamped, IsClosing, AreWritable, Writable};

use std::alloc::{AllocError, Global};
use vx_calls::{RECORD_MAX, SLICE_MAX};
use vx_exchange::REPLY_ROOM;
use vx_text::zeros;
use vx_trace::{Line, put_line, put_line2};

/// Room for a moment and the space behind it, in bytes: it has at most 20 digits.
const STAMP_ROOM: usize = 21;

/// Room for the line of a message, in bytes: `call`, a connection's number of ten digits, two spaces and LF take at most 17, and
/// each byte of a message two digits.
const INTAKE_ROOM: usize = STAMP_ROOM + 32 + 2 * RECORD_MAX;

/// Room for the line of a turn that begins, in bytes.
const BEGUN_ROOM: usize = STAMP_ROOM + 32;

/// Room for both, in bytes.
const HEAD_ROOM: usize = INTAKE_ROOM + BEGUN_ROOM;

/// Room for the longest line of a poll's transfers, in bytes: `bus`, a connection's number of ten digits and LF take at most
/// 15, and each transfer of a slice at most 7.
const MOVES_ROOM: usize = STAMP_ROOM + 15 + 7 * SLICE_MAX as usize;

/// Room for the longest other line, in bytes: `out`, a connection's number of ten digits, a space and LF take at most 16, and
/// each byte of a reply's record two digits.
const NOTE_ROOM: usize = STAMP_ROOM + 16 + 2 * REPLY_ROOM;

/// Room for the longest text of a step, in bytes.
const TEXT_ROOM: usize = HEAD_ROOM + MOVES_ROOM + NOTE_ROOM;

/// Prints lines into room that is made once. In version 2 a line of a step has the step's moment in front, in version 1 none.
#[derive(Drop)]
pub struct Printer {
    room: Vec<u8>,
    ghost wide: { vec_len room ≡ TEXT_ROOM },
}

impl Printer {
    /// A printer with room for the longest text of a step.
    pub fn new(alloc: Global) -> Result<Printer, AllocError> {
        let room = zeros(alloc, TEXT_ROOM)?;
        Ok(Printer { room })
    }

    /// The text of the lines of a step, of those that are there, with its moment in front of each where there is one: what it gave
    /// the gateway, the turn that it began, the transfers that it made, and what else there is to tell.
    pub fn lines(
        &mut self,
        moment: Option<u64>,
        intake: &Option<Line<'_>>,
        begun: &Option<Line<'_>>,
        moves: &Option<Line<'_>>,
        note: &Option<Line<'_>>,
    ) -> &[u8]
        requires { AreWritable moment intake.now begun.now moves.now note.now }
        ensures text { result.now ≡ (option_text moment intake.now ++ option_text moment begun.now) ++ (option_text moment moves.now ++ option_text moment note.now) }
        ensures fits { All HasRanges ((outputs_of intake.now ++ outputs_of begun.now) ++ (outputs_of moves.now ++ outputs_of note.now)) }
    {
        let len = put_four(moment, intake, begun, moves, note, &mut self.room);
        &self.room[..len]
    }

    /// The text of a line that has no moment.
    pub fn line(&mut self, line: &Line<'_>) -> &[u8]
        requires { IsClosing line.now }
        ensures { result.now ≡ line_text (line_shown line.now) }
    {
        let len = put_one(Some(0), line, &mut self.room);
        &self.room[..len]
    }
}

/// Writes the text of four lines, of those that are there, at the front of the room, and answers how long it is.
fn put_four(
    moment: Option<u64>,
    intake: &Option<Line<'_>>,
    begun: &Option<Line<'_>>,
    moves: &Option<Line<'_>>,
    note: &Option<Line<'_>>,
    room: &mut [u8],
) -> usize
    requires room { length room.old ≡ TEXT_ROOM }
    requires lines { AreWritable moment intake.now begun.now moves.now note.now }
    ensures text { take result room.new ≡ (option_text moment intake.now ++ option_text moment begun.now) ++ (option_text moment moves.now ++ option_text moment note.now) }
    ensures fits { All HasRanges ((outputs_of intake.now ++ outputs_of begun.now) ++ (outputs_of moves.now ++ outputs_of note.now)) }
    ensures within { result ≤ length room.new }
    ensures len { length room.new ≡ length room.old }
{
    let len = put_two(moment, intake, begun, INTAKE_ROOM, &mut room[..HEAD_ROOM]);
    let more = put_two(moment, moves, note, MOVES_ROOM, &mut room[len..]);
    len + more
}

/// Writes the text of a line, which has room in so many bytes, and of another behind it, of those that are there, at the front
/// of the room, and answers how long both are.
fn put_two(
    moment: Option<u64>,
    first: &Option<Line<'_>>,
    second: &Option<Line<'_>>,
    front: usize,
    room: &mut [u8],
) -> usize
    requires front { front ≤ length room.old }
    requires first { IfSome first.now (λ l. Writable moment l front) }
    requires second { IfSome second.now (λ l. Writable moment l (length room.old - front)) }
    ensures text { take result room.new ≡ option_text moment first.now ++ option_text moment second.now }
    ensures fits { All HasRanges (outputs_of first.now ++ outputs_of second.now) }
    ensures within { result ≤ length room.new }
    ensures len { length room.new ≡ length room.old }
{
    let len = put(moment, first, &mut room[..front]);
    let more = put(moment, second, &mut room[len..]);
    len + more
}

/// Writes the text of a line, where there is one, at the front of the room, and answers how long it is.
fn put(moment: Option<u64>, line: &Option<Line<'_>>, room: &mut [u8]) -> usize
    requires { IfSome line.now (λ l. Writable moment l (length room.old)) }
    ensures text { take result room.new ≡ option_text moment line.now }
    ensures fits { All HasRanges (outputs_of line.now) }
    ensures long { result ≡ length (option_text moment line.now) }
    ensures within { result ≤ length room.new }
    ensures len { length room.new ≡ length room.old }
{
    match line {
        Some(line) => put_one(moment, line, room),
        None => 0,
    }
}

/// Writes the text of a line at the front of the room, and answers how long it is.
fn put_one(moment: Option<u64>, line: &Line<'_>, room: &mut [u8]) -> usize
    requires { Writable moment line.now (length room.old) }
    ensures text { take result room.new ≡ stamped moment (line_shown line.now) }
    ensures fits { HasRanges (line_shown line.now) }
    ensures long { result ≡ length (stamped moment (line_shown line.now)) }
    ensures within { result ≤ length room.new }
    ensures len { length room.new ≡ length room.old }
{
    let put = match moment {
        None => put_line(line, room),
        Some(moment) => put_line2(moment, line, room),
    };
    match put {
        Ok(len) => len,
        Err(_) => unreachable!(),
    }
}
