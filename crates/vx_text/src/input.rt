//! A source read to its end.
ghost use Rattle.std.specs.Prelude.{◌≡◌, ◌≤◌, ◌<◌, length, IfOk};
ghost use Rattle.std.specs.List.{All};
ghost use Rattle.vx_text.specs.Ends.{source_shown};
ghost use Rattle.vx_text.specs.Reading.{IsInput, IsPiece};

use std::alloc::{AllocError, Global};
use vx_io_traits::{ReadOut, Source};

/// How many bytes are asked of the source at once.
const PIECE: usize = 65_536;

/// A source read to its end.
#[derive(Drop)]
pub enum Input {
    /// All that it had.
    Whole(Vec<u8>),
    /// It gave more bytes than it may.
    TooLong,
    Failed,
    NoMemory,
}

/// What one read of the source brought.
#[derive(Clone, Copy)]
pub enum Piece {
    More,
    End,
    Failed,
    NoMemory,
}

/// So many zeros.
pub fn zeros(alloc: Global, len: usize) -> Result<Vec<u8>, AllocError>
    ensures len { IfOk result (λ v. length v.items ≡ len) }
    ensures zeros { IfOk result (λ v. All (λ byte. byte ≡ 0) v.items) }
{
    vec![in alloc; 0; len]
}

/// Reads a piece into the room, and puts it behind the bytes.
fn read_piece<S: Source>(source: &mut S, room: &mut [u8], bytes: &mut Vec<u8>) -> Piece
    requires { 0 < length room.old }
    ensures read { IsPiece (length room.old) bytes.old.items bytes.new.items
        (source_shown S.Source source.old) (source_shown S.Source source.new) result }
    ensures counted { S.faults source.old ≤ S.faults source.new }
{
    match source.read(room) {
        ReadOut::Got(count) => match bytes.extend_from_slice(&room[..count]) {
            Ok(()) => Piece::More,
            Err(_) => Piece::NoMemory,
        },
        ReadOut::End => Piece::End,
        ReadOut::Failed => Piece::Failed,
    }
}

/// Reads a source to its end, or up to one byte more than `most`.
pub fn read_all<S: Source>(alloc: Global, source: &mut S, most: usize) -> Input
    ensures read { IsInput most
        (source_shown S.Source source.old) (source_shown S.Source source.new) result }
    ensures counted { S.faults source.old ≤ S.faults source.new }
{
    let mut bytes = Vec::new(alloc);
    let Ok(mut piece) = zeros(alloc, PIECE) else {
        return Input::NoMemory;
    };
    while bytes.len() <= most {
        let room = piece.len().min((most - bytes.len()).saturating_add(1));
        match read_piece(source, &mut piece[..room], &mut bytes) {
            Piece::More => {}
            Piece::End => return Input::Whole(bytes),
            Piece::Failed => return Input::Failed,
            Piece::NoMemory => return Input::NoMemory,
        }
    }
    Input::TooLong
}
