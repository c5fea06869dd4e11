//! The answers to the records of a stream.
ghost use Rattle.std.specs.Prelude.{◌≡◌};
ghost use Rattle.vx_record.specs.Buffer.{fresh};
ghost use Rattle.vx_door.specs.Going.{Went};
ghost use Rattle.vx_portmap.specs.declared.limits.TheConstants.{MESSAGE_MAX};
ghost use Rattle.vx_portmap.specs.Streaming.{StreamDid, map_end};

use crate::ends::MapEnd;
use crate::limits::{MESSAGE_MAX, STREAM_MAX};
use crate::sending::put_record;
use crate::table::Ports;
use std::marker::Model;
use vx_io_traits::Link;
use vx_record::RecordBuf;
use vx_stream::{Answers, End, answer_up_to};

/// How many bytes are received at once, at most.
const PIECE: usize = 1024;

/// A table, as what answers the messages of a stream.
#[derive(Drop)]
struct Lookup<'a> {
    ports: &'a Ports,
}

impl<'a> Model for Lookup<'a> {
    ghost use Rattle.std.specs.Prelude.{List};
    ghost use Rattle.vx_portmap.specs.declared.table.Mapping.{Mapping};

    ghost Value = { List Mapping };

    ghost view = { λ l. l.ports.now };
}

impl<'a> Answers for Lookup<'a> {
    ghost use Rattle.std.specs.Prelude.{⊤, ◌+◌};
    ghost use Rattle.vx_portmap.specs.declared.limits.TheConstants.{MESSAGE_MAX};
    ghost use Rattle.vx_portmap.specs.Streaming.{Maps};

    ghost can = { λ _. ⊤ };

    ghost does = { Maps };

    ghost longest = { MESSAGE_MAX };

    ghost room = { MESSAGE_MAX + 4 };

    /// Answers a message, and leaves the table.
    fn answer(self, message: &[u8], reply: &mut [u8]) -> (Self, Option<usize>) {
        let answered = put_record(self.ports, message, reply);
        (self, answered)
    }
}

/// How a stream ended of which at most [`STREAM_MAX`] bytes are received.
fn end_of_stream(end: Option<End>) -> MapEnd
    ensures { result ≡ map_end end }
{
    match end {
        None => MapEnd::Spent,
        Some(End::Closed) => MapEnd::Closed,
        Some(End::CutShort { bytes }) => MapEnd::CutShort { bytes },
        Some(End::Junk { .. }) => MapEnd::Junk,
        Some(End::TooLong) => MapEnd::TooLong,
        Some(End::ReadFault) => MapEnd::ReadFault,
        Some(End::WriteFault) => MapEnd::WriteFault,
    }
}

/// Answers the records of a stream, each before the next is looked for, up to the end of its input or to where another end
/// comes. At most [`STREAM_MAX`] bytes are received.
pub fn map_stream<L: Link>(ports: &Ports, link: &mut L, buf: &mut RecordBuf) -> MapEnd
    requires { buf.old ≡ fresh MESSAGE_MAX }
    ensures did { StreamDid L.Link ports.now link.old result link.new }
    ensures went { Went L.receives L.sends link.old link.new }
    ensures limit { buf.new.limit ≡ MESSAGE_MAX }
{
    let mut piece = [0u8; PIECE];
    let mut reply = [0u8; MESSAGE_MAX + 4];
    let (_, end) = answer_up_to(
        STREAM_MAX,
        Lookup { ports },
        link,
        buf,
        &mut piece,
        &mut reply,
    );
    end_of_stream(end)
}
