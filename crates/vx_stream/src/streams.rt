//! A whole stream.
ghost use Rattle.std.specs.Prelude.{◌≡◌, ◌≤◌, ◌<◌, length, None, Some};
ghost use Rattle.vx_record.specs.Buffer.{fresh};
ghost use Rattle.vx_record.specs.declared.Feed.TheVariants as feed;
ghost use Rattle.vx_door.specs.Going.{Went};
ghost use Rattle.vx_stream.specs.Pieces.{AnswersNext};
ghost use Rattle.vx_stream.specs.Stopping.{StreamAnswered};

use crate::answers::Answers;
use crate::ends::{End, end_of_input};
use crate::pieces::answer_piece;
use std::sync::Wait;
use vx_io_traits::{Link, ReadOut};
use vx_record::{RecordBuf, pieces_law};

/// Why no further piece is received, or how many bytes came in one.
#[derive(Clone, Copy)]
enum Next {
    Came { count: usize },
    Ends(End),
}

/// Receives the next piece of a stream and answers its records; says why the stream ends, where it does.
fn answer_next<S: Answers, L: Link>(
    server: S,
    link: &mut L,
    incoming: &mut RecordBuf,
    piece: &mut [u8],
    reply: &mut [u8],
) -> (S, Next)
    requires can { S.can server }
    requires more { incoming.old.state ≡ feed.More }
    requires limit { incoming.old.limit ≤ S.longest }
    requires piece { 0 < length piece.old }
    requires room { S.room ≤ length reply.old }
    ensures answers { AnswersNext S.does L.Link (length piece.old) server link.old
        incoming.old result.1 result.0 link.new incoming.new }
    ensures went { Went L.receives L.sends link.old link.new }
    ensures can { S.can result.0 }
    ensures limit { incoming.new.limit ≡ incoming.old.limit }
    ensures piece { length piece.new ≡ length piece.old }
    ensures len { length reply.new ≡ length reply.old }
{
    match link.receive(piece) {
        ReadOut::Failed => (server, Next::Ends(End::ReadFault)),
        ReadOut::End => (server, Next::Ends(end_of_input(incoming.rest()))),
        ReadOut::Got(count) => {
            let (server, end) = answer_piece(server, link, incoming, &piece[..count], reply);
            match end {
                None => (server, Next::Came { count }),
                Some(end) => (server, Next::Ends(end)),
            }
        }
    }
}

/// Answers the records of a stream, each before the next is looked for, to the end of its input or to where another end comes.
/// `piece` is the room for what is received at once, and `reply` that for the record of a reply.
pub fn answer_stream<R: Wait, S: Answers, L: Link>(
    rt: &R,
    server: S,
    link: &mut L,
    incoming: &mut RecordBuf,
    piece: &mut [u8],
    reply: &mut [u8],
) -> (S, End)
    requires can { S.can server }
    requires buffer { incoming.old ≡ fresh incoming.old.limit }
    requires limit { incoming.old.limit ≤ S.longest }
    requires piece { 0 < length piece.old }
    requires room { S.room ≤ length reply.old }
    ensures answers { StreamAnswered S.does L.Link incoming.old.limit (length piece.old) None (record { server = server; link = link.old })
        (Some result.1) (record { server = result.0; link = link.new }) }
    ensures went { Went L.receives L.sends link.old link.new }
    ensures can { S.can result.0 }
    ensures limit { incoming.new.limit ≡ incoming.old.limit }
    ensures piece { length piece.new ≡ length piece.old }
    ensures len { length reply.new ≡ length reply.old }
{
    pieces_law();
    let mut server = server;
    for _ in rt.forever() {
        let (served, next) = answer_next(server, link, incoming, piece, reply);
        server = served;
        if let Next::Ends(end) = next {
            return (server, end);
        }
    }
    unreachable!()
}

/// Does what `answer_stream` does, but receives at most `most` bytes. `None` where as many came.
pub fn answer_up_to<S: Answers, L: Link>(
    most: usize,
    server: S,
    link: &mut L,
    incoming: &mut RecordBuf,
    piece: &mut [u8],
    reply: &mut [u8],
) -> (S, Option<End>)
    requires can { S.can server }
    requires buffer { incoming.old ≡ fresh incoming.old.limit }
    requires limit { incoming.old.limit ≤ S.longest }
    requires piece { 0 < length piece.old }
    requires room { S.room ≤ length reply.old }
    ensures answers { StreamAnswered S.does L.Link incoming.old.limit (length piece.old) (Some most) (record { server = server; link = link.old })
        result.1 (record { server = result.0; link = link.new }) }
    ensures went { Went L.receives L.sends link.old link.new }
    ensures can { S.can result.0 }
    ensures limit { incoming.new.limit ≡ incoming.old.limit }
{
    pieces_law();
    let mut server = server;
    let mut left = most;
    while left > 0 {
        let fits = left.min(piece.len());
        let (served, next) = answer_next(server, link, incoming, &mut piece[..fits], reply);
        server = served;
        match next {
            Next::Came { count } => left -= count,
            Next::Ends(end) => return (server, Some(end)),
        }
    }
    (server, None)
}
