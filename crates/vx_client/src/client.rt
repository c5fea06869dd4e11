//! The client and the one exchange that every call stands on.

ghost use Rattle.std.specs.Prelude.{◌≡◌, ◌≤◌, ◌<◌, ◌^◌, ◌||◌, false, [], length, IfOk, IfErr};
ghost use Rattle.std.specs.Io.KnownBytes.{Keeps};
ghost use Rattle.vx_io_traits.specs.Faults.{Rose};
ghost use Rattle.vx_io_traits.specs.Rung.{OnDialFailed, is_up};
ghost use Rattle.vx_io_traits.specs.Stands.{Stays};
ghost use Rattle.vx_calls.specs.Call.{call_shown};
ghost use Rattle.vx_record.specs.Buffer.{fresh};
ghost use Rattle.vx_calls.specs.declared.limits.TheConstants.{PIECE_MAX};
ghost use Rattle.vx_client.specs.State.{new_client, over_link, client_with_link};
ghost use Rattle.vx_client.specs.Message.{call_record, IsSendable};
ghost use Rattle.vx_client.specs.Chunks.{write_call};
ghost use Rattle.vx_client.specs.Meaning.{meaning, nothing_of};
ghost use Rattle.vx_client.specs.Settled.{answer_of};
ghost use Rattle.vx_client.specs.Exchange.{IsCalled};
ghost use Rattle.vx_client.specs.Ending.{TellsEnd, TellsCalls};
ghost use Rattle.vx_client.specs.Swapped.{IsSwapped, returned_by, settled_bad};
ghost use Rattle.vx_client.specs.Calls.{IsFilled};

use crate::answers::{CallOpts, ClientErr, NewRefused};
use crate::inbox::{Brought, Inbox};
use crate::outbox::{CALL_ROOM, put_record, send_all};
use crate::settling::{Answer, Settled, settle};
use std::alloc::Global;
use std::marker::Model;
use std::mem::swap;
use vx_calls::{CallRef, REPLY_MAX};
use vx_io_traits::{DialOut, Link, Reach};

/// What a client keeps of its calls, whatever link they go over: the number of the next one, whether a further one is
/// sent, the record of the last reply, and the bytes that came behind that.
#[derive(Drop)]
struct Talk {
    next: u32,
    spent: bool,
    room: Vec<u8>,
    inbox: Inbox,
}

impl Model for Talk {
    ghost use Rattle.vx_client.specs.State.{TalkState};

    ghost Value = { TalkState };

    ghost use Rattle.std.specs.Prelude.{◌≡◌, false, vec_len};
    ghost use Rattle.vx_client.specs.Inbox.{IsClientReady, last_of};
    ghost use Rattle.vx_client.specs.declared.outbox.TheConstants.{CALL_ROOM};

    ghost view = { λ t. record {
      next = t.next;
      spent = t.spent;
      last = last_of t.inbox.reply;
      kept = t.inbox.kept;
    } };

    ghost invariant = { λ t. (t.spent ≡ false → IsClientReady t.inbox.reply) × (vec_len t.room ≡ CALL_ROOM) };
}

/// A client of a VXI-11 server over a link, on the core channel. Contracts see its link, the number of its next call,
/// whether it is spent, the record of its last reply, and the bytes that came behind that.
#[derive(Drop)]
pub struct Client<L> {
    link: L,
    talk: Talk,
}

impl<L> Model for Client<L> {
    ghost use Rattle.vx_client.specs.State.{ClientState, over_link};

    ghost Value = { ClientState L };

    ghost view = { λ c. over_link c.link c.talk };
}

/// Sends the call of this number and receives the record of a reply into the inbox.
fn exchange<L: Link>(
    link: &mut L,
    room: &mut [u8],
    inbox: &mut Inbox,
    xid: u32,
    call: &CallRef<'_>,
) -> Result<(), ClientErr>
    requires sendable { IsSendable (call_shown call.now) }
    requires room { CALL_ROOM ≤ length room.old }
    requires inbox { inbox.old.reply ≡ fresh REPLY_MAX }
    ensures swapped { IsSwapped L.stands L.left L.receive_faults L.send_faults link.old link.new inbox.old.kept inbox.new
        (call_record xid (call_shown call.now)) result }
    ensures told { TellsCalls L.receives L.sends link.old link.new (call_record xid (call_shown call.now)) result }
    ensures receives { L.receive_faults link.old ≤ L.receive_faults link.new }
    ensures sends { L.send_faults link.old ≤ L.send_faults link.new }
{
    let len = put_record(xid, call, room);
    if send_all(link, &room[..len]).is_err() {
        return Err(ClientErr::WriteFault);
    }
    match inbox.read_record(link) {
        Brought::Record => Ok(()),
        Brought::TooLong => Err(ClientErr::BadReply {
            length: REPLY_MAX + 1,
        }),
        Brought::End => Err(ClientErr::Closed),
        Brought::Failed => Err(ClientErr::ReadFault),
    }
}

/// Whether what came is no reply.
fn is_bad(settled: Settled) -> bool
    ensures { result ≡ settled_bad settled }
{
    matches!(&settled, Settled::Bad)
}

/// What a call returns for what a record of so many bytes came to.
fn returned(settled: Settled, length: usize) -> Result<Answer, ClientErr>
    ensures { result ≡ returned_by length settled }
{
    match settled {
        Settled::Done(answer) => Ok(answer),
        Settled::Failed(error) => Err(ClientErr::Device(error)),
        Settled::Refused(refusal) => Err(ClientErr::Rpc(refusal)),
        Settled::Bad => Err(ClientErr::BadReply { length }),
    }
}

impl Talk {
    /// Makes one call over a link and answers by the record that comes. The bytes of its results go to the front of
    /// `into`.
    fn ask<L: Link>(
        &mut self,
        link: &mut L,
        call: &CallRef<'_>,
        into: &mut [u8],
    ) -> Result<Answer, ClientErr>
        requires { IsSendable (call_shown call.now) }
        ensures called { IsCalled L.stands L.left L.receive_faults L.send_faults (over_link link.old self.old) (over_link link.new self.new)
            (call_shown call.now) (length into.old) answer_of result }
        ensures told { TellsCalls L.receives L.sends link.old link.new (call_record self.old.next (call_shown call.now)) result }
        ensures into { IsFilled (meaning self.old.next (call_shown call.now) (length into.old) self.new.last) into.old into.new result }
    {
        if self.spent {
            return Err(ClientErr::Spent);
        }
        let xid = self.next;
        self.next = xid.wrapping_add(1);
        self.spent = true;
        self.inbox.begin();
        exchange(link, self.room.as_mut_slice(), &mut self.inbox, xid, call)?;
        let reply = self.inbox.last();
        let length = reply.len();
        let settled = settle(xid, call, reply, into);
        self.spent = is_bad(settled);
        returned(settled, length)
    }

    /// Keeps what a client keeps that has made no call.
    fn renew(&mut self)
        ensures { self.new ≡ record { next = 1; spent = false; last = []; kept = [] } }
    {
        self.next = 1;
        self.spent = false;
        self.inbox.renew();
    }

    /// The number of the next call.
    fn number(&self) -> u32
        ensures { result ≡ self.now.next }
    {
        self.next
    }

    /// Makes a call whose results are its error alone over a link.
    fn order<L: Link>(&mut self, link: &mut L, call: &CallRef<'_>) -> Result<(), ClientErr>
        requires { IsSendable (call_shown call.now) }
        ensures called { IsCalled L.stands L.left L.receive_faults L.send_faults (over_link link.old self.old) (over_link link.new self.new)
            (call_shown call.now) 0 nothing_of result }
        ensures told { TellsCalls L.receives L.sends link.old link.new (call_record self.old.next (call_shown call.now)) result }
    {
        self.ask(link, call, &mut [])?;
        Ok(())
    }
}

impl<L: Link> Client<L> {
    /// A client over `link` that has made no call. Its room is made here; where there is no memory for it, the link
    /// comes back.
    pub fn new(alloc: Global, link: L) -> Result<Client<L>, NewRefused<L>>
        ensures made { IfOk result (λ c. c ≡ record { link = link; next = 1; spent = false; last = []; kept = [] }) }
        ensures refused { IfErr result (λ e. e.link ≡ link) }
    {
        let Ok(room) = vec![in alloc; 0; CALL_ROOM] else {
            return Err(NewRefused { link });
        };
        let Ok(inbox) = Inbox::new(alloc) else {
            return Err(NewRefused { link });
        };
        let talk = Talk {
            next: 1,
            spent: false,
            room,
            inbox,
        };
        Ok(Client { link, talk })
    }

    /// The record that the last call got, without its marks: its reply, or what came in place of one. It is empty
    /// where that call got none, where its record was longer than `REPLY_MAX` bytes, and before the first call. A
    /// call that answered `Spent` leaves it was.
    pub fn last(&self) -> &[u8]
        ensures { result.now ≡ self.now.last }
    {
        self.talk.inbox.last()
    }

    /// The link, in whatever state the calls left it.
    pub fn into_link(self) -> L
        ensures { result ≡ self.link }
    {
        let Client { link, .. } = self;
        link
    }

    /// Makes one call and answers by the record that comes. The bytes of its results go to the front of `into`.
    pub(crate) fn ask(&mut self, call: &CallRef<'_>, into: &mut [u8]) -> Result<Answer, ClientErr>
        requires { IsSendable (call_shown call.now) }
        ensures called { IsCalled L.stands L.left L.receive_faults L.send_faults self.old self.new (call_shown call.now)
            (length into.old) answer_of result }
        ensures last { TellsEnd L.receives L.sends self.new.link result }
        ensures into { IsFilled (meaning self.old.next (call_shown call.now) (length into.old) self.new.last) into.old into.new result }
    {
        self.talk.ask(&mut self.link, call, into)
    }

    /// Makes a call whose results are its error alone.
    pub(crate) fn order(&mut self, call: &CallRef<'_>) -> Result<(), ClientErr>
        requires { IsSendable (call_shown call.now) }
        ensures called { IsCalled L.stands L.left L.receive_faults L.send_faults self.old self.new (call_shown call.now) 0 nothing_of result }
        ensures last { TellsEnd L.receives L.sends self.new.link result }
    {
        self.talk.order(&mut self.link, call)
    }
}

impl<L> Client<L> {
    /// Begins anew over the link that it has, as a client that has made no call: also where it was spent. Bytes that came
    /// and that no reply has used are let go, and it takes no memory.
    pub fn renew(&mut self)
        ensures { self.new ≡ new_client self.old.link }
    {
        self.talk.renew();
    }

    /// Goes over this link from now on, and gives the one that it went over.
    pub fn swap_link(&mut self, link: &mut L)
        ensures over { self.new ≡ client_with_link self.old link.old }
        ensures given { link.new ≡ self.old.link }
    {
        swap(&mut self.link, link);
    }

    /// One device_write of at most `PIECE_MAX` bytes with these flags over another link, as the client's next call. Its own
    /// link is left alone.
    pub fn write_piece_over<K: Link>(
        &mut self,
        link: &mut K,
        lid: u32,
        opts: &CallOpts,
        flags: u32,
        bytes: &[u8],
    ) -> Result<(), ClientErr>
        requires { length bytes.now ≤ PIECE_MAX }
        ensures called { IsCalled K.stands K.left K.receive_faults K.send_faults (client_with_link self.old link.old) (client_with_link self.new link.new)
            (write_call lid opts.now flags bytes.now) 0 nothing_of result }
        ensures last { TellsEnd K.receives K.sends link.new result }
        ensures told { TellsCalls K.receives K.sends link.old link.new (call_record self.old.next (write_call lid opts.now flags bytes.now)) result }
        ensures own { self.new.link ≡ self.old.link }
        ensures number { self.old.next < 2 ^ 32 }
    {
        let _number = self.talk.number();
        let call = CallRef::Write {
            lid,
            io_timeout: opts.io_timeout,
            lock_timeout: opts.lock_timeout,
            flags,
            bytes,
        };
        self.talk.order(link, &call)
    }
}

impl<L: Reach> Client<L> {
    /// Connects its link to a port of a host. Beside its link it keeps what it kept: over a link that was made anew it is to
    /// be renewed, since what came by an older one has no use there.
    pub fn reach(&mut self, host: &str, port: u16) -> DialOut
        ensures over { self.new ≡ client_with_link self.old self.new.link }
        ensures tries { L.tries self.old.link host.now port result self.new.link }
        ensures ready { L.is_ready self.new.link ≡ (is_up result || L.is_ready self.old.link) }
        ensures counted { L.refused self.old.link ≤ L.refused self.new.link }
        ensures failed { OnDialFailed result (Rose (L.refused self.old.link) (L.refused self.new.link)) }
        ensures receives { L.receive_faults self.new.link ≡ L.receive_faults self.old.link }
        ensures sends { L.send_faults self.new.link ≡ L.send_faults self.old.link }
        ensures left { Keeps (L.left self.old.link) (L.left self.new.link) }
        ensures stays { Stays L.stands self.old.link self.new.link }
    {
        self.link.reach(host, port)
    }
}
