//! The records of the calls that are drawn.
ghost use Rattle.vx_record.specs.Fragments.{record_of};
ghost use Rattle.std.specs.Prelude.{◌≡◌, ◌+◌, ◌≤◌, ◌<◌, ◌^◌, ◌++◌, length, take, drop};
ghost use Rattle.vx_calls.specs.Call.{call_shown};
ghost use Rattle.vx_codec.specs.Asked.{arguments, IsPuttable};
ghost use Rattle.vx_rpc.specs.Wording.{call_message};

use vx_calls::CallRef;
use vx_codec::put_args;
use vx_record::mark;
use vx_rpc::put_call;

/// The most bytes of arguments of a call that is drawn.
const ARGUMENTS_MAX: usize = 64;

/// Room for the longest record of a call that is drawn, in bytes: its mark, its header (RFC 5531, section 9) and its arguments.
pub const RECORD_ROOM: usize = ARGUMENTS_MAX + 44;

/// Writes the message of a call at the front of `out`, and answers how long it is.
fn put_message(xid: u32, program: u32, number: u32, call: &CallRef<'_>, out: &mut [u8]) -> usize
    requires puttable { IsPuttable (call_shown call.now) }
    requires short { length (arguments (call_shown call.now)) ≤ ARGUMENTS_MAX }
    requires room { ARGUMENTS_MAX + 40 ≤ length out.old }
    ensures text { take result out.new ≡ call_message xid program 1 number ++ arguments (call_shown call.now) }
    ensures len { result ≤ ARGUMENTS_MAX + 40 }
{
    let Ok(head) = put_call(xid, program, 1, number, out) else {
        unreachable!()
    };
    let Ok(body) = put_args(call, &mut out[head..]) else {
        unreachable!()
    };
    head + body
}

/// Writes the mark of a message of `len` bytes that stands behind it, and answers how long the record is.
fn close_record(out: &mut [u8], len: usize) -> usize
    requires fits { len + 4 ≤ length out.old }
    requires short { len < 2 ^ 31 }
    ensures text { take result out.new ≡ record_of (take len (drop 4 out.old)) }
    ensures within { result ≤ length out.new }
    ensures some { 0 < result }
{
    out[..4].copy_from_slice(&mark(len as u32));
    len + 4
}

/// The record of a call of version 1 of a program, written at the front of `room`.
pub(crate) fn record<'a>(
    xid: u32,
    program: u32,
    number: u32,
    call: &CallRef<'_>,
    room: &'a mut [u8],
) -> &'a [u8]
    requires puttable { IsPuttable (call_shown call.now) }
    requires short { length (arguments (call_shown call.now)) ≤ ARGUMENTS_MAX }
    requires room { RECORD_ROOM ≤ length room.old }
    ensures text { result.now ≡ record_of (call_message xid program 1 number ++ arguments (call_shown call.now)) }
    ensures some { 0 < length result.now }
{
    let len = put_message(xid, program, number, call, &mut room[4..]);
    let len = close_record(room, len);
    &room[..len]
}
