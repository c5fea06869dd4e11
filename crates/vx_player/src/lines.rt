//! The lines of a step that was taken: what it gave the gateway, the turn that it began, its transfers, and what else there is to
//! tell.
ghost use Rattle.std.specs.Prelude.{◌≡◌, length, option_map, Some};
ghost use Rattle.vx_trace.specs.Output.{line_shown};
ghost use Rattle.vx_player.specs.Standing.{NoteWithin, intake_lines, begun_lines, moves_lines, note_line as line_of_note, gone_line as line_of_end};
ghost use Rattle.vx_run.specs.Notes.{wait_line as line_of_wait};
ghost use Rattle.vx_player.specs.Printing.{outputs_of};

use crate::note::{Gone, Intake, Note};
use vx_488::Transfer;
use vx_core::Why;
use vx_trace::Line;

/// The line of what a step gave the gateway, which version 2 has, where it gave it anything. The message of a record is this.
pub fn intake_line<'a>(intake: Intake, message: &'a [u8]) -> Option<Line<'a>>
    ensures { outputs_of result ≡ intake_lines message.now intake }
{
    match intake {
        Intake::Nothing => None,
        Intake::Up { conn, role } => Some(Line::Up { conn, role }),
        Intake::Message { conn } => Some(Line::Call {
            conn,
            bytes: message,
        }),
        Intake::Dialed { conn, up } => Some(Line::DialDone { conn, up }),
        Intake::Sampled { level } => Some(Line::Srq { level }),
    }
}

/// The line of the turn that a poll of this connection began, which version 2 has, where it began one.
pub fn begun_line(polled: Option<u32>, began: bool) -> Option<Line<'static>>
    ensures { outputs_of result ≡ begun_lines polled began }
{
    match polled {
        Some(conn) if began => Some(Line::Begin { conn }),
        _ => None,
    }
}

/// The line of the transfers that a poll of this connection made, where it made any.
pub fn moves_line(polled: Option<u32>, moves: &[Transfer]) -> Option<Line<'_>>
    ensures { outputs_of result ≡ moves_lines polled moves.now }
{
    match polled {
        Some(conn) if !moves.is_empty() => Some(Line::Bus { conn, moves }),
        _ => None,
    }
}

/// The line of a note, whose record stands at the front of the room.
pub fn note_line(note: Note, room: &[u8]) -> Option<Line<'_>>
    requires { NoteWithin (length room.now) note }
    ensures { option_map line_shown result ≡ line_of_note room.now note }
{
    match note {
        Note::Nothing => None,
        Note::Replied { conn, len } => Some(Line::Out {
            conn,
            bytes: &room[..len],
        }),
        Note::Waiting { conn, why } => Some(wait_line(conn, why)),
        Note::Dialing { conn } => Some(Line::WaitDial { conn }),
        Note::Interrupt { conn, len } => Some(Line::Irq {
            conn,
            bytes: &room[..len],
        }),
        Note::NoInterrupt { conn } => Some(Line::IrqNone { conn }),
        Note::NoChannel { conn } => Some(Line::IrqClosed { conn }),
        Note::Ended { conn, how } => Some(gone_line(conn, how)),
    }
}

/// The line of a call that waits.
fn wait_line(conn: u32, why: Why) -> Line<'static>
    ensures { line_shown result ≡ line_of_wait conn why }
{
    match why {
        Why::Locked { by } => Line::WaitLock { conn, lid: by },
        Why::Behind { by } => Line::WaitBehind { conn, by },
        Why::Turn { by } => Line::WaitTurn { conn, by },
        Why::Held => Line::WaitHeld { conn },
        Why::Slice => Line::WaitSlice { conn },
    }
}

/// The line of a connection that ended.
fn gone_line(conn: u32, how: Gone) -> Line<'static>
    ensures { line_shown result ≡ line_of_end conn how }
{
    match how {
        Gone::Down => Line::GoneDown { conn },
        Gone::Junk => Line::GoneJunk { conn },
        Gone::Long => Line::GoneLong { conn },
    }
}
