//! What a client receives: the bytes that no reply has used yet, and the record of a reply that comes in.

ghost use Rattle.std.specs.Prelude.{◌≡◌, ◌+◌, ◌≤◌, ◌<◌, ◌++◌, [], length, take, drop, min, IfOk};
ghost use Rattle.vx_record.specs.Buffer.{fresh, fed, taken};
ghost use Rattle.vx_client.specs.Inbox.{IsClientReady, last_of, Refills, IsBrought};
ghost use Rattle.vx_client.specs.Ending.{TellsRefill, TellsBrought};
ghost use Rattle.vx_client.specs.declared.inbox.TheConstants.{PIECE};

use std::alloc::Global;
use std::marker::Model;
use vx_calls::REPLY_MAX;
use vx_io_traits::{Link, ReadOut};
use vx_record::{Fed, Feed, RecordBuf, end_law};

/// The most stream bytes of a reply, the headers of its fragments included.
pub(crate) const REPLY_STREAM_MAX: usize = 1_048_576;

/// How many bytes are asked of the link at once.
pub(crate) const PIECE: usize = 65_536;

/// There was no memory for the room.
#[derive(Clone, Copy)]
pub(crate) struct NoMemory;

/// Whether there are bytes that no reply has used.
#[derive(Clone, Copy)]
pub(crate) enum Refill {
    Some,
    End,
    Failed,
}

/// What the stream brought for a reply.
#[derive(Clone, Copy)]
pub(crate) enum Brought {
    /// A whole record.
    Record,
    /// More than a reply may have.
    TooLong,
    /// The input ended before.
    End,
    /// A receive failed before.
    Failed,
}

/// The room of what came in, the place of the bytes that no reply has used, and the record of the reply.
#[derive(Drop)]
pub(crate) struct Inbox {
    room: Vec<u8>,
    from: usize,
    to: usize,
    reply: RecordBuf,
    whole: bool,
}

impl Model for Inbox {
    ghost use Rattle.std.specs.Prelude.{◌≡◌, ◌<◌, ◌≤◌, ◌↔◌, IsTrue, drop, take, vec_len};
    ghost use Rattle.vx_record.specs.declared.Feed.TheVariants.{Whole};
    ghost use Rattle.vx_calls.specs.declared.limits.TheConstants.{REPLY_MAX};
    ghost use Rattle.vx_client.specs.declared.inbox.TheConstants.{PIECE};
    ghost use Rattle.vx_client.specs.Inbox.{InboxState};

    ghost Value = { InboxState };

    ghost view = { λ b. record {
      kept = drop b.from (take b.to b.room.items);
      reply = b.reply;
    } };

    ghost invariant = { λ b. (vec_len b.room ≡ PIECE) × (b.from ≤ b.to) × (b.to ≤ vec_len b.room)
        × (b.reply.limit ≡ REPLY_MAX) × (IsTrue b.whole ↔ (b.reply.state ≡ Whole)) };
}

impl Inbox {
    /// An inbox into which nothing has come.
    pub(crate) fn new(alloc: Global) -> Result<Inbox, NoMemory>
        ensures { IfOk result (λ b. (b.kept ≡ []) × (b.reply ≡ fresh REPLY_MAX)) }
    {
        let Ok(room) = vec![in alloc; 0; PIECE] else {
            return Err(NoMemory);
        };
        let Ok(reply) = RecordBuf::new(alloc, REPLY_MAX) else {
            return Err(NoMemory);
        };
        Ok(Inbox {
            room,
            from: 0,
            to: 0,
            reply,
            whole: false,
        })
    }

    /// Lets the record of the last reply go.
    pub(crate) fn begin(&mut self)
        requires { IsClientReady self.old.reply }
        ensures kept { self.new.kept ≡ self.old.kept }
        ensures reply { self.new.reply ≡ fresh REPLY_MAX }
    {
        if self.whole {
            self.reply.next();
            self.whole = false;
        }
    }

    /// Lets all go that came, used or not, and the record with it, whole or not.
    pub(crate) fn renew(&mut self)
        ensures kept { self.new.kept ≡ [] }
        ensures reply { self.new.reply ≡ fresh REPLY_MAX }
    {
        self.from = 0;
        self.to = 0;
        self.reply.restart();
        self.whole = false;
    }

    /// The record of the last reply, or nothing where none is whole.
    pub(crate) fn last(&self) -> &[u8]
        ensures bytes { result.now ≡ last_of self.now.reply }
        ensures fits { length result.now ≤ REPLY_MAX }
    {
        if self.whole { self.reply.whole() } else { &[] }
    }

    /// Receives bytes where all that came have been used.
    fn refill<L: Link>(&mut self, link: &mut L) -> Refill
        ensures brought { Refills L.stands L.left L.receive_faults link.old link.new self.old.kept self.new.kept result }
        ensures told { TellsRefill L.receives link.old link.new result }
        ensures few { length self.new.kept ≤ PIECE }
        ensures reply { self.new.reply ≡ self.old.reply }
        ensures receives { L.receive_faults link.old ≤ L.receive_faults link.new }
        ensures sends { L.send_faults link.new ≡ L.send_faults link.old }
    {
        if self.from < self.to {
            return Refill::Some;
        }
        self.from = 0;
        self.to = 0;
        match link.receive(self.room.as_mut_slice()) {
            ReadOut::Got(count) => {
                self.to = count;
                Refill::Some
            }
            ReadOut::End => Refill::End,
            ReadOut::Failed => Refill::Failed,
        }
    }

    /// Uses at most `most` of the bytes that came for the record of the reply.
    fn feed(&mut self, most: usize) -> Fed
        requires more { self.old.reply.state ≡ Feed.More }
        requires some { 0 < length self.old.kept }
        requires most { 0 < most }
        ensures reply { self.new.reply ≡ fed self.old.reply (take most self.old.kept) }
        ensures took { result.took ≡ taken self.old.reply (take most self.old.kept) }
        ensures kept { self.new.kept ≡ drop result.took self.old.kept }
        ensures state { result.state ≡ self.new.reply.state }
        ensures some_took { 0 < result.took }
        ensures within { result.took ≤ min most (length self.old.kept) }
    {
        let part = most.min(self.to - self.from);
        let fed = self.reply.feed(&self.room[self.from..self.from + part]);
        self.from += fed.took;
        self.whole = matches!(&fed.state, Feed::Whole);
        fed
    }

    /// Reads the record of one reply off the front of the stream.
    pub(crate) fn read_record<L: Link>(&mut self, link: &mut L) -> Brought
        requires { self.old.reply ≡ fresh REPLY_MAX }
        ensures brought { IsBrought L.stands L.left L.receive_faults link.old link.new self.old.kept self.new result }
        ensures told { TellsBrought L.receives link.old link.new result }
        ensures receives { L.receive_faults link.old ≤ L.receive_faults link.new }
        ensures sends { L.send_faults link.new ≡ L.send_faults link.old }
    {
        end_law();
        let mut left = REPLY_STREAM_MAX;
        loop {
            match self.refill(link) {
                Refill::Some => {}
                Refill::End => return Brought::End,
                Refill::Failed => return Brought::Failed,
            }
            if left == 0 {
                return Brought::TooLong;
            }
            let fed = self.feed(left);
            left -= fed.took;
            match fed.state {
                Feed::More => {}
                Feed::Whole => return Brought::Record,
                Feed::TooLong => return Brought::TooLong,
            }
        }
    }
}
