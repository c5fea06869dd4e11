//! The records of calls, and how they are sent.

ghost use Rattle.std.specs.Prelude.{◌≡◌, ◌+◌, ◌≤◌, ◌<◌, ◌^◌, ◌++◌, [], length, take, drop};
ghost use Rattle.std.specs.Io.KnownBytes.{Keeps};
ghost use Rattle.vx_calls.specs.Call.{call_shown};
ghost use Rattle.vx_codec.specs.Asked.{proc_of};
ghost use Rattle.vx_rpc.specs.Procedure.{proc_number};
ghost use Rattle.vx_client.specs.Message.{message, call_record, IsSendable};
ghost use Rattle.vx_record.specs.Fragments.{record_of};
ghost use Rattle.vx_client.specs.Exchange.{IsClientSent};
ghost use Rattle.vx_client.specs.Ending.{TellsSends};

use vx_calls::{CallRef, PIECE_MAX, Proc};
use vx_codec::put_args;
use vx_io_traits::{Link, WriteOut};
use vx_record::mark;
use vx_rpc::put_call;

/// The longest message of a call that a client sends, in bytes: its data, at most `PIECE_MAX` or `DOCMD_MAX`, and no more than
/// so many for its header (40, RFC 5531, section 9) and its other arguments.
pub(crate) const CALL_MAX: usize = PIECE_MAX as usize + 1024;

/// The longest record of a call, its mark included, in bytes.
pub(crate) const CALL_ROOM: usize = CALL_MAX + 4;

/// The program of the core channel (VXI-11, DEVICE_CORE).
const CORE: u32 = 0x0607AF;

/// The procedure of a call.
pub(crate) fn procedure(call: &CallRef<'_>) -> Proc
    ensures { result ≡ proc_of (call_shown call.now) }
{
    match call {
        CallRef::Null => Proc::Null,
        CallRef::CreateLink { .. } => Proc::CreateLink,
        CallRef::Write { .. } => Proc::Write,
        CallRef::Read { .. } => Proc::Read,
        CallRef::ReadStb(_) => Proc::ReadStb,
        CallRef::Trigger(_) => Proc::Trigger,
        CallRef::Clear(_) => Proc::Clear,
        CallRef::Remote(_) => Proc::Remote,
        CallRef::Local(_) => Proc::Local,
        CallRef::Lock { .. } => Proc::Lock,
        CallRef::Unlock { .. } => Proc::Unlock,
        CallRef::EnableSrq { .. } => Proc::EnableSrq,
        CallRef::Docmd { .. } => Proc::Docmd,
        CallRef::DestroyLink { .. } => Proc::DestroyLink,
        CallRef::CreateIntr { .. } => Proc::CreateIntr,
        CallRef::DestroyIntr => Proc::DestroyIntr,
        CallRef::DeviceAbort { .. } => Proc::DeviceAbort,
    }
}

/// The number of a procedure in its program (VXI-11, programs DEVICE_CORE and DEVICE_ASYNC).
fn number(procedure: Proc) -> u32
    ensures { result ≡ proc_number procedure }
{
    match procedure {
        Proc::Null => 0,
        Proc::CreateLink => 10,
        Proc::Write => 11,
        Proc::Read => 12,
        Proc::ReadStb => 13,
        Proc::Trigger => 14,
        Proc::Clear => 15,
        Proc::Remote => 16,
        Proc::Local => 17,
        Proc::Lock => 18,
        Proc::Unlock => 19,
        Proc::EnableSrq => 20,
        Proc::Docmd => 22,
        Proc::DestroyLink => 23,
        Proc::CreateIntr => 25,
        Proc::DestroyIntr => 26,
        Proc::DeviceAbort => 1,
    }
}

/// Writes the message of a call at the front of `out`, and answers how long it is.
fn put_message(xid: u32, call: &CallRef<'_>, out: &mut [u8]) -> usize
    requires sendable { IsSendable (call_shown call.now) }
    requires room { CALL_MAX ≤ length out.old }
    ensures text { take result out.new ≡ message xid (call_shown call.now) }
    ensures len { result ≤ CALL_MAX }
{
    let proc = number(procedure(call));
    let Ok(head) = put_call(xid, CORE, 1, proc, out) else {
        unreachable!()
    };
    let Ok(body) = put_args(call, &mut out[head..]) else {
        unreachable!()
    };
    head + body
}

/// Writes the mark of a message of `len` bytes that stands behind it, and answers how long the record is.
fn close_record(out: &mut [u8], len: usize) -> usize
    requires fits { len + 4 ≤ length out.old }
    requires short { len < 2 ^ 31 }
    ensures text { take result out.new ≡ record_of (take len (drop 4 out.old)) }
    ensures within { result ≤ length out.new }
    ensures some { 0 < result }
{
    out[..4].copy_from_slice(&mark(len as u32));
    len + 4
}

/// Writes the record of a call at the front of `out`, and answers how long it is.
pub(crate) fn put_record(xid: u32, call: &CallRef<'_>, out: &mut [u8]) -> usize
    requires sendable { IsSendable (call_shown call.now) }
    requires room { CALL_ROOM ≤ length out.old }
    ensures text { take result out.new ≡ call_record xid (call_shown call.now) }
    ensures within { result ≤ length out.new }
    ensures some { 0 < result }
{
    let len = put_message(xid, call, &mut out[4..]);
    close_record(out, len)
}

/// A send failed.
#[derive(Clone, Copy)]
pub(crate) struct SendFailed;

/// Sends all of a text.
pub(crate) fn send_all<L: Link>(link: &mut L, text: &[u8]) -> Result<(), SendFailed>
    ensures sent { IsClientSent L.stands L.send_faults link.old link.new text.now result }
    ensures told { TellsSends L.sends link.old link.new text.now result }
    ensures left { Keeps (L.left link.old) (L.left link.new) }
    ensures receives { L.receive_faults link.new ≡ L.receive_faults link.old }
    ensures sends { L.send_faults link.old ≤ L.send_faults link.new }
{
    let mut done = 0;
    while done < text.len() {
        match link.send(&text[done..]) {
            WriteOut::Took(count) => done += count,
            WriteOut::Failed => return Err(SendFailed),
        }
    }
    Ok(())
}
