//! A piece of a stream.
ghost use Rattle.std.specs.Prelude.{◌≡◌, ◌≤◌, ◌<◌, length};
ghost use Rattle.vx_record.specs.Buffer.{fresh};
ghost use Rattle.vx_record.specs.declared.Feed.TheVariants as feed;
ghost use Rattle.vx_door.specs.Going.{Went};
ghost use Rattle.vx_stream.specs.Pieces.{AnswersWhole, AnswersPiece};

use crate::answers::Answers;
use crate::ends::End;
use crate::sending::send_all;
use vx_io_traits::Link;
use vx_record::{Feed, RecordBuf};

/// Answers the record that is whole in the buffer, and begins the next; or says why the stream ends.
fn answer_whole<S: Answers, L: Link>(
    server: S,
    link: &mut L,
    incoming: &mut RecordBuf,
    reply: &mut [u8],
) -> (S, Option<End>)
    requires can { S.can server }
    requires whole { incoming.old.state ≡ feed.Whole }
    requires limit { incoming.old.limit ≤ S.longest }
    requires room { S.room ≤ length reply.old }
    ensures answers { AnswersWhole S.does L.Link server link.old
        incoming.old.kept result.1 result.0 link.new }
    ensures went { Went L.receives L.sends link.old link.new }
    ensures can { S.can result.0 }
    ensures buffer { incoming.new ≡ fresh incoming.old.limit }
    ensures len { length reply.new ≡ length reply.old }
{
    let message = incoming.whole();
    let length = message.len();
    let (server, answered) = server.answer(message, reply);
    incoming.next();
    match answered {
        None => (server, Some(End::Junk { length })),
        Some(len) if send_all(link, &reply[..len]) => (server, None),
        Some(_) => (server, Some(End::WriteFault)),
    }
}

/// Answers the records of a piece, each before the next is looked for, and says why the stream ends, where it does.
pub(crate) fn answer_piece<S: Answers, L: Link>(
    server: S,
    link: &mut L,
    incoming: &mut RecordBuf,
    piece: &[u8],
    reply: &mut [u8],
) -> (S, Option<End>)
    requires can { S.can server }
    requires more { incoming.old.state ≡ feed.More }
    requires limit { incoming.old.limit ≤ S.longest }
    requires room { S.room ≤ length reply.old }
    ensures answers { AnswersPiece S.does L.Link server link.old
        incoming.old piece.now result.1 result.0 link.new incoming.new }
    ensures went { Went L.receives L.sends link.old link.new }
    ensures can { S.can result.0 }
    ensures limit { incoming.new.limit ≡ incoming.old.limit }
    ensures len { length reply.new ≡ length reply.old }
{
    let mut server = server;
    let mut at = 0;
    while at < piece.len() {
        let fed = incoming.feed(&piece[at..]);
        at += fed.took;
        match fed.state {
            Feed::More => {}
            Feed::TooLong => return (server, Some(End::TooLong)),
            Feed::Whole => {
                let (served, end) = answer_whole(server, link, incoming, reply);
                server = served;
                if end.is_some() {
                    return (server, end);
                }
            }
        }
    }
    (server, None)
}
