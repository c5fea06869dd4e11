//! Calls that come to a core, their polls, and the records of their replies.
ghost use Rattle.std.specs.Prelude.{◌≡◌, ◌==◌, ◌≤◌, max, true, length, IsSome};
ghost use Rattle.std.specs.List.{list_any};
ghost use Rattle.vx_calls.specs.declared.calls.Role.TheVariants as role;
ghost use Rattle.vx_calls.specs.Call.{call_shown};
ghost use Rattle.vx_calls.specs.Reply.{reply_shown};
ghost use Rattle.vx_rules.specs.State.{pending_at, is_idle, lives_as};
ghost use Rattle.vx_rules.specs.AtomicStep.{may_wait};
ghost use Rattle.vx_rules.specs.Calls.{IsShort};
ghost use Rattle.vx_exchange.specs.declared.record.TheConstants.{REPLY_ROOM};
ghost use Rattle.vx_exchange.specs.Doing.{reply_error, Came, Settles, Aborts};
ghost use Rattle.vx_exchange.specs.Doing as doing;

use crate::record::put_success_record;
use vx_488::Bus;
use vx_calls::{CallRef, ErrorCode, ReplyRef};
use vx_core::{Core, Polled, Why};

/// How a poll of a call ended.
#[derive(Clone, Copy)]
pub enum PollEnd {
    /// The call was answered, by a reply of this error (`Ok` where it has none); the record of its reply, of so many bytes,
    /// stands at the front of the room.
    Replied { len: usize, error: ErrorCode },
    /// It has no answer yet.
    NotYet(Why),
    /// It asks for a dial of this IPv4 address and port.
    Dial { host: u32, port: u16 },
}

/// The answer of a create_intr_chan whose dial was made.
#[derive(Clone, Copy)]
pub struct DialAnswered {
    /// `Ok` where the dial came up, and `NoChannel` where it didn't.
    pub error: ErrorCode,
    /// The number of the new channel, where the dial came up.
    pub chan: Option<u32>,
    /// The record of the reply, of so many bytes, stands at the front of the room.
    pub len: usize,
}

/// The answer of a device_abort.
#[derive(Clone, Copy)]
pub struct Aborted {
    /// `Ok`, or `InvalidLink` where no link of the number lives.
    pub error: ErrorCode,
    /// The record of the reply, of so many bytes, stands at the front of the room.
    pub len: usize,
}

/// The error of a reply; `Ok` for one that has none.
fn error_of(answer: &ReplyRef<'_>) -> ErrorCode
    ensures { result ≡ reply_error (reply_shown answer.now) }
{
    match *answer {
        ReplyRef::Null => ErrorCode::Ok,
        ReplyRef::CreateLink { error, .. } => error,
        ReplyRef::Write { error, .. } => error,
        ReplyRef::Read { error, .. } => error,
        ReplyRef::Stb { error, .. } => error,
        ReplyRef::Docmd { error, .. } => error,
        ReplyRef::Error { error } => error,
    }
}

/// Keeps a call that came on an idle core connection at this moment, and polls it. A moment before the core's counts as that.
pub fn come<B: Bus>(
    core: &mut Core<B>,
    conn: u32,
    xid: u32,
    call: &CallRef<'_>,
    now: u64,
    reply: &mut [u8],
) -> PollEnd
    requires idle { is_idle core.old.interleaved.state.tables conn ≡ true }
    requires waits { may_wait (call_shown call.now) ≡ true }
    requires short { IsShort (call_shown call.now) }
    requires room { REPLY_ROOM ≤ length reply.old }
    ensures came { Came B.Bus core.old conn (call_shown call.now) (max core.old.interleaved.state.moment now) xid reply.new result core.new }
    ensures len { length reply.new ≡ length reply.old }
{
    core.arrive(conn, call, now);
    again(core, conn, xid, now, reply)
}

/// Polls the call of a connection, of this xid, at this moment.
pub fn again<B: Bus>(core: &mut Core<B>, conn: u32, xid: u32, now: u64, reply: &mut [u8]) -> PollEnd
    requires pending { IsSome (pending_at core.old.interleaved.state.tables conn) }
    requires room { REPLY_ROOM ≤ length reply.old }
    ensures polled { doing.Polled B.Bus core.old conn (max core.old.interleaved.state.moment now) xid reply.new result core.new }
    ensures len { length reply.new ≡ length reply.old }
{
    match core.poll(conn, now) {
        Polled::Answer(answer) => PollEnd::Replied {
            len: put_success_record(xid, &answer, reply),
            error: error_of(&answer),
        },
        Polled::NotYet(why) => PollEnd::NotYet(why),
        Polled::Dial { host, port } => PollEnd::Dial { host, port },
    }
}

/// Answers the call of a connection, of this xid, of which a dial was asked for: the dial came up, or failed.
pub fn settle<B: Bus>(
    core: &mut Core<B>,
    conn: u32,
    xid: u32,
    up: bool,
    now: u64,
    reply: &mut [u8],
) -> DialAnswered
    requires dialed { list_any (λ n. n == conn) core.old.interleaved.dialed ≡ true }
    requires room { REPLY_ROOM ≤ length reply.old }
    ensures settles { Settles B.Bus core.old conn (max core.old.interleaved.state.moment now) xid up reply.new result core.new }
    ensures len { length reply.new ≡ length reply.old }
{
    let settled = core.settle(conn, up, now);
    let error = settled.error;
    DialAnswered {
        error,
        chan: settled.chan,
        len: put_success_record(xid, &ReplyRef::Error { error }, reply),
    }
}

/// Answers a device_abort of a link, of this xid, that came on an abort connection (VXI-11, device_abort).
pub fn abort<B: Bus>(core: &mut Core<B>, conn: u32, xid: u32, lid: u32, reply: &mut [u8]) -> Aborted
    requires lives { lives_as core.old.interleaved.state.tables conn role.Abort ≡ true }
    requires room { REPLY_ROOM ≤ length reply.old }
    ensures aborts { Aborts B.Bus core.old conn lid xid reply.new result core.new }
    ensures len { length reply.new ≡ length reply.old }
{
    let error = core.abort(conn, lid);
    Aborted {
        error,
        len: put_success_record(xid, &ReplyRef::Error { error }, reply),
    }
}
