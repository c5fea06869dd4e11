//! A trace read from its source.
ghost use Rattle.std.specs.Prelude.{◌≤◌, ◌<◌, length};
ghost use Rattle.vx_text.specs.Ends.{source_shown};
ghost use Rattle.vx_history.specs.Reading.{IsTrace, IsPiece};
ghost use Rattle.vx_history.specs.declared.limits.TheConstants.{TRACE_MAX};

use std::alloc::Global;
use vx_io_traits::{ReadOut, Source};
use vx_text::zeros;

/// How many bytes are asked of the source at once.
const PIECE: usize = 65_536;

/// What a source gave.
#[derive(Drop)]
pub enum Trace {
    /// All that it had.
    Whole(Vec<u8>),
    /// One byte more than a trace may have.
    Longer(Vec<u8>),
    /// It failed.
    Failed,
    NoMemory,
}

/// What one read of the source brought.
#[derive(Clone, Copy)]
pub(crate) enum Piece {
    More,
    End,
    Failed,
    NoMemory,
}

/// Reads a piece into the room, and puts it behind the bytes.
fn read_piece<S: Source>(source: &mut S, room: &mut [u8], bytes: &mut Vec<u8>) -> Piece
    requires { 0 < length room.old }
    ensures read { IsPiece (length room.old) bytes.old.items bytes.new.items
        (source_shown S.Source source.old) (source_shown S.Source source.new) result }
    ensures counted { S.faults source.old ≤ S.faults source.new }
{
    match source.read(room) {
        ReadOut::Got(count) => match bytes.extend_from_slice(&room[..count]) {
            Ok(()) => Piece::More,
            Err(_) => Piece::NoMemory,
        },
        ReadOut::End => Piece::End,
        ReadOut::Failed => Piece::Failed,
    }
}

/// Reads a trace to its end, or up to one byte more than `most`.
pub fn read_trace<S: Source>(alloc: Global, source: &mut S, most: usize) -> Trace
    requires { most ≤ TRACE_MAX }
    ensures read { IsTrace most
        (source_shown S.Source source.old) (source_shown S.Source source.new) result }
    ensures counted { S.faults source.old ≤ S.faults source.new }
{
    let mut bytes = Vec::new(alloc);
    let Ok(mut piece) = zeros(alloc, PIECE) else {
        return Trace::NoMemory;
    };
    while bytes.len() <= most {
        let room = piece.len().min(most - bytes.len() + 1);
        match read_piece(source, &mut piece[..room], &mut bytes) {
            Piece::More => {}
            Piece::End => return Trace::Whole(bytes),
            Piece::Failed => return Trace::Failed,
            Piece::NoMemory => return Trace::NoMemory,
        }
    }
    Trace::Longer(bytes)
}
