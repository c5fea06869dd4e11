//! How it is told that a call is denied, and the reply to it.
ghost use Rattle.std.specs.Prelude.{◌≡◌, ◌≤◌, ◌<◌, [], length, take, option_map, IfSome};
ghost use Rattle.vx_calls.specs.declared.codes.ErrorCode.TheVariants as code;
ghost use Rattle.vx_calls.specs.Call.{call_shown};
ghost use Rattle.vx_calls.specs.Reply.{reply_shown};
ghost use Rattle.vx_rules.specs.Effects.{stopped_reply};
ghost use Rattle.vx_text.specs.Ends.{End, sink_shown};
ghost use Rattle.vx_exchange.specs.declared.record.TheConstants.{REPLY_ROOM};
ghost use Rattle.vx_desks.specs.Judged.{denied_record};
ghost use Rattle.vx_desks.specs.Noting.{IsTold, IsNoted};

use vx_calls::{CallRef, ErrorCode, ReplyRef};
use vx_exchange::put_success_record;
use vx_io_traits::Sink;
use vx_policy::{LINE_ROOM, deny_line};
use vx_text::put_all;

/// Where it is told that a rule denies a call.
pub trait Note {
    // The lines that it took so far, where it can tell them, and how often it failed.
    ghost took: { Self → End };

    /// Tells that this rule denies a call of the connection of this number. Answers whether it could be told: where it couldn't, the
    /// session ends.
    fn tell(&mut self, conn: u32, rule: u32, call: &CallRef<'_>) -> bool
        ensures { IsTold conn rule result (took self.old) (took self.new) };
}

/// A note of lines `deny CONN RULE`.
impl<K: Sink> Note for K {
    ghost took = { λ k. sink_shown K.Sink k };

    fn tell(&mut self, conn: u32, rule: u32, _call: &CallRef<'_>) -> bool {
        let mut line = [0u8; LINE_ROOM];
        put_all(self, deny_line(conn, rule, &mut line)).is_ok()
    }
}

/// The reply to a denied call: the error is `NotAccessible`, and all else is zero or empty.
fn denied(call: &CallRef<'_>) -> ReplyRef<'static>
    ensures { reply_shown result ≡ stopped_reply (call_shown call.now) code.NotAccessible [] }
{
    let error = ErrorCode::NotAccessible;
    match call {
        CallRef::Null => ReplyRef::Null,
        CallRef::CreateLink { .. } => ReplyRef::CreateLink {
            error,
            lid: 0,
            abort_port: 0,
            max: 0,
        },
        CallRef::Write { .. } => ReplyRef::Write { error, size: 0 },
        CallRef::Read { .. } => ReplyRef::Read {
            error,
            reason: 0,
            bytes: &[],
        },
        CallRef::ReadStb(_) => ReplyRef::Stb { error, stb: 0 },
        CallRef::Docmd { .. } => ReplyRef::Docmd { error, bytes: &[] },
        _ => ReplyRef::Error { error },
    }
}

/// Writes the record of the reply to a denied call, of this xid, and answers how long it is.
fn put_denied(xid: u32, call: &CallRef<'_>, reply: &mut [u8]) -> usize
    requires room { REPLY_ROOM ≤ length reply.old }
    ensures record { take result reply.new ≡ denied_record xid (call_shown call.now) }
    ensures within { result ≤ length reply.new }
    ensures len { length reply.new ≡ length reply.old }
{
    put_success_record(xid, &denied(call), reply)
}

/// Tells of a denial, and writes the reply to the call that is denied: of so many bytes, or none where the note failed.
pub(crate) fn deny<N: Note>(
    conn: u32,
    rule: u32,
    xid: u32,
    call: &CallRef<'_>,
    note: &mut N,
    reply: &mut [u8],
) -> Option<usize>
    requires room { REPLY_ROOM ≤ length reply.old }
    ensures noted { IsNoted conn rule xid (call_shown call.now)
        (N.took note.old) (option_map (λ n. take n reply.new) result)
        (N.took note.new) }
    ensures within { IfSome result (λ n. n ≤ length reply.new) }
    ensures len { length reply.new ≡ length reply.old }
{
    if note.tell(conn, rule, call) {
        Some(put_denied(xid, call, reply))
    } else {
        None
    }
}
