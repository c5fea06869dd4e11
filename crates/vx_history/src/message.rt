//! What a message on a connection means.
ghost use Rattle.std.specs.Prelude.{◌≡◌, IsTrue, OnOk, ◌++◌, length, take, drop, ◌≤◌};
ghost use Rattle.vx_record.specs.Fragments.{record_of};
ghost use Rattle.vx_rpc.specs.Wording.{success_message, refusal_message};
ghost use Rattle.vx_rpc.specs.Sorting.{is_sent};
ghost use Rattle.vx_exchange.specs.Meaning.{meaning, by_call};
ghost use Rattle.vx_calls.specs.Call.{call_shown};
ghost use Rattle.vx_history.specs.Messages.{message_shown, IsTraceSent};

use vx_calls::{CallRef, Role};
use vx_codec::read_args;
use vx_model::NoMemory;
use vx_record::mark;
use vx_rpc::{RpcRefusal, Sorted, put_refusal, put_reply, sort_call};

/// What a message on a connection means to the gateway.
#[derive(Drop)]
pub(crate) enum Message<'a> {
    /// It is no call.
    Junk,
    /// It is refused.
    Refused { xid: u32, refusal: RpcRefusal },
    /// It is of the null procedure, which is answered at once.
    Null { xid: u32 },
    /// It is a call to the core.
    Asks { xid: u32, call: CallRef<'a> },
    /// It is a device_abort of this link.
    Aborts { xid: u32, lid: u32 },
}

/// What a call means.
fn called<'a>(xid: u32, call: CallRef<'a>) -> Message<'a>
    ensures meaning { message_shown result ≡ by_call xid (call_shown call.entry) }
    ensures sent { IsTraceSent result }
{
    match call {
        CallRef::Null => Message::Null { xid },
        CallRef::DeviceAbort { lid } => Message::Aborts { xid, lid },
        _ => Message::Asks { xid, call },
    }
}

/// What a message on a connection of this role means (RFC 5531, section 9).
pub(crate) fn meaning_of<'a>(message: &'a [u8], role: Role) -> Message<'a>
    ensures meaning { message_shown result ≡ meaning message.now role }
    ensures sent { IsTraceSent result }
{
    match sort_call(message, role) {
        Sorted::Junk => Message::Junk,
        Sorted::Refuse { xid, refusal } => Message::Refused { xid, refusal },
        Sorted::Call { xid, proc, args } => match read_args(proc, args) {
            Some(call) => called(xid, call),
            None => Message::Refused {
                xid,
                refusal: RpcRefusal::GarbageArgs,
            },
        },
    }
}

/// Room for the record of a refusal, in bytes: its mark, and at most eight words.
const ROOM: usize = 36;

/// Keeps, in place of what was due, the record of the message that stands behind the first four bytes of the room.
fn keep_due(due: &mut Vec<u8>, room: &mut [u8; ROOM], len: usize) -> Result<(), NoMemory>
    requires { len ≤ 32 }
    ensures { OnOk result (due.new.items ≡ record_of (take len (drop 4 room.old))) }
{
    room[..4].copy_from_slice(&mark(len as u32));
    due.clear();
    match due.extend_from_slice(&room[..len + 4]) {
        Ok(()) => Ok(()),
        Err(_) => Err(NoMemory),
    }
}

/// Keeps the record that refuses a call.
pub(crate) fn keep_refusal(due: &mut Vec<u8>, xid: u32, refusal: RpcRefusal) -> Result<(), NoMemory>
    requires { IsTrue (is_sent refusal) }
    ensures { OnOk result (due.new.items ≡ record_of (refusal_message xid refusal)) }
{
    let mut room = [0; ROOM];
    match put_refusal(xid, refusal, &mut room[4..]) {
        Ok(len) => keep_due(due, &mut room, len),
        Err(_) => unreachable!(),
    }
}

/// Keeps the record that answers the null procedure.
pub(crate) fn keep_null(due: &mut Vec<u8>, xid: u32) -> Result<(), NoMemory>
    ensures { OnOk result (due.new.items ≡ record_of (success_message xid)) }
{
    let mut room = [0; ROOM];
    match put_reply(xid, &mut room[4..]) {
        Ok(len) => keep_due(due, &mut room, len),
        Err(_) => unreachable!(),
    }
}
