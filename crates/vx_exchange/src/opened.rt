//! A message on a connection, before the core is asked.
ghost use Rattle.std.specs.Prelude.{◌≡◌, ◌≤◌, length};
ghost use Rattle.vx_calls.specs.declared.limits.TheConstants.{RECORD_MAX};
ghost use Rattle.vx_calls.specs.declared.calls.Role.{Role};
ghost use Rattle.vx_calls.specs.Call.{call_shown};
ghost use Rattle.vx_rules.specs.Calls.{IsShort};
ghost use Rattle.vx_exchange.specs.declared.record.TheConstants.{REPLY_ROOM};
ghost use Rattle.vx_exchange.specs.Meaning.{meaning, by_call};
ghost use Rattle.vx_exchange.specs.Opening.{Opens, FitsRole, IsOfRole};

use crate::record::{put_refusal_record, put_success_record};
use vx_calls::{CallRef, ReplyRef, Role};
use vx_codec::read_args;
use vx_rpc::{RpcRefusal, Sorted, sort_call};

/// What a message on a connection is.
#[derive(Drop)]
pub enum Opened<'a> {
    /// No call.
    Junk,
    /// A call that is answered without the core: it is refused, or of the null procedure. The record of its reply, of so many
    /// bytes, stands at the front of the room.
    Answered { len: usize },
    /// A call to the core, of this xid.
    Asks { xid: u32, call: CallRef<'a> },
    /// A device_abort of this link, of this xid.
    Aborts { xid: u32, lid: u32 },
}

/// Opens a message that came on a connection of this role: its header is sorted and its arguments are read, and what needs no
/// core is answered (RFC 5531, section 9).
pub fn open<'a>(message: &'a [u8], role: Role, reply: &mut [u8]) -> Opened<'a>
    requires short { length message.now ≤ RECORD_MAX }
    requires room { REPLY_ROOM ≤ length reply.old }
    ensures opens { Opens (meaning message.now role) reply.new result }
    ensures role { IsOfRole role result }
    ensures len { length reply.new ≡ length reply.old }
{
    match sort_call(message, role) {
        Sorted::Junk => Opened::Junk,
        Sorted::Refuse { xid, refusal } => Opened::Answered {
            len: put_refusal_record(xid, refusal, reply),
        },
        Sorted::Call { xid, proc, args } => match read_args(proc, args) {
            None => Opened::Answered {
                len: put_refusal_record(xid, RpcRefusal::GarbageArgs, reply),
            },
            Some(call) => open_call(xid, call, reply),
        },
    }
}

/// A call whose arguments were read.
fn open_call<'a>(xid: u32, call: CallRef<'a>, reply: &mut [u8]) -> Opened<'a>
    requires room { REPLY_ROOM ≤ length reply.old }
    ensures opens { Opens (by_call xid (call_shown call.entry)) reply.new result }
    ensures role { (r : Role) → FitsRole r (call_shown call.entry) → IsShort (call_shown call.entry) → IsOfRole r result }
    ensures len { length reply.new ≡ length reply.old }
{
    match call {
        CallRef::Null => Opened::Answered {
            len: put_success_record(xid, &ReplyRef::Null, reply),
        },
        CallRef::DeviceAbort { lid } => Opened::Aborts { xid, lid },
        _ => Opened::Asks { xid, call },
    }
}
