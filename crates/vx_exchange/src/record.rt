//! The records that the gateway sends, each as one fragment.
ghost use Rattle.std.specs.Prelude.{◌≡◌, ◌+◌, ◌≤◌, ◌<◌, ◌^◌, ◌++◌, IsTrue, length, take, drop};
ghost use Rattle.vx_calls.specs.Reply.{reply_shown};
ghost use Rattle.vx_rpc.specs.Sorting.{is_sent};
ghost use Rattle.vx_rpc.specs.Wording.{success_message, refusal_message, call_message};
ghost use Rattle.vx_codec.specs.Spelling.{opaque};
ghost use Rattle.vx_srq.specs.Shown.{handle_shown};
ghost use Rattle.vx_codec.specs.Answered.{results, IsPuttableReply};
ghost use Rattle.vx_record.specs.Fragments.{record_of};
ghost use Rattle.vx_exchange.specs.Meaning.{reply_record, srq_record, intr_srq};

use vx_calls::{Interrupt, READ_MAX, ReplyRef};
use vx_codec::{put_results, put_srq};
use vx_record::mark;
use vx_rpc::{RpcRefusal, put_call, put_refusal, put_reply};

/// The longest record of a reply, in bytes: that of the longest device_read, with the mark (4), the header of an accepted
/// reply (24, RFC 5531, section 9), and the read's error, reason and length (12). A device_docmd's is no longer. It is also
/// room for an interrupt call, of [`SRQ_ROOM`] bytes.
pub const REPLY_ROOM: usize = READ_MAX as usize + 40;

/// The longest record of an interrupt call, its mark included, in bytes: ten words and a handle of 40 bytes.
pub const SRQ_ROOM: usize = 88;

/// Writes the mark of a message of `len` bytes that stands behind it, and answers how long the record is.
fn close_record(reply: &mut [u8], len: usize) -> usize
    requires fits { len + 4 ≤ length reply.old }
    requires short { len < 2 ^ 31 }
    ensures record { take result reply.new ≡ record_of (take len (drop 4 reply.old)) }
    ensures some { 0 < result }
    ensures within { result ≤ length reply.new }
    ensures len { length reply.new ≡ length reply.old }
{
    reply[..4].copy_from_slice(&mark(len as u32));
    len + 4
}

/// Writes the record of a reply that refuses a call, and answers how long it is.
pub fn put_refusal_record(xid: u32, refusal: RpcRefusal, reply: &mut [u8]) -> usize
    requires sent { IsTrue (is_sent refusal) }
    requires room { REPLY_ROOM ≤ length reply.old }
    ensures record { take result reply.new ≡ record_of (refusal_message xid refusal) }
    ensures some { 0 < result }
    ensures within { result ≤ length reply.new }
    ensures len { length reply.new ≡ length reply.old }
{
    match put_refusal(xid, refusal, &mut reply[4..]) {
        Ok(len) => close_record(reply, len),
        Err(_) => unreachable!(),
    }
}

/// Writes the message of a reply to a call that was executed, with these results, and answers how long it is.
fn put_success(xid: u32, answer: &ReplyRef<'_>, out: &mut [u8]) -> usize
    requires puttable { IsPuttableReply (reply_shown answer.now) }
    requires room { 24 + length (results (reply_shown answer.now)) ≤ length out.old }
    ensures message { take result out.new ≡ success_message xid ++ results (reply_shown answer.now) }
    ensures len { result ≡ 24 + length (results (reply_shown answer.now)) }
{
    let Ok(head) = put_reply(xid, out) else {
        unreachable!()
    };
    let Ok(body) = put_results(answer, &mut out[head..]) else {
        unreachable!()
    };
    head + body
}

/// Writes the record of a reply to a call that was executed, with these results, and answers how long it is.
pub fn put_success_record(xid: u32, answer: &ReplyRef<'_>, reply: &mut [u8]) -> usize
    requires puttable { IsPuttableReply (reply_shown answer.now) }
    requires short { 28 + length (results (reply_shown answer.now)) ≤ REPLY_ROOM }
    requires room { REPLY_ROOM ≤ length reply.old }
    ensures record { take result reply.new ≡ reply_record xid (reply_shown answer.now) }
    ensures some { 0 < result }
    ensures within { result ≤ length reply.new }
    ensures len { length reply.new ≡ length reply.old }
{
    let len = put_success(xid, answer, &mut reply[4..]);
    close_record(reply, len)
}

/// The procedure of an interrupt call (VXI-11, device_intr_srq).
const INTR_SRQ: u32 = 30;

/// Writes the message of an interrupt call, and answers how long it is.
fn put_srq_message(interrupt: &Interrupt, out: &mut [u8]) -> usize
    requires { 84 ≤ length out.old }
    ensures message { take result out.new ≡ call_message interrupt.now.xid interrupt.now.prog interrupt.now.vers intr_srq ++ opaque (handle_shown interrupt.now.handle) }
    ensures within { result ≤ 84 }
{
    // a handle has at most 40 bytes
    let _ = interrupt.handle.bytes.len();
    let Ok(head) = put_call(interrupt.xid, interrupt.prog, interrupt.vers, INTR_SRQ, out) else {
        unreachable!()
    };
    let Ok(body) = put_srq(&interrupt.handle, &mut out[head..]) else {
        unreachable!()
    };
    head + body
}

/// Writes the record of an interrupt call, and answers how long it is.
pub fn put_srq_record(interrupt: &Interrupt, reply: &mut [u8]) -> usize
    requires { SRQ_ROOM ≤ length reply.old }
    ensures record { take result reply.new ≡ srq_record (record { xid = interrupt.now.xid; program = interrupt.now.prog; version = interrupt.now.vers; handle = handle_shown interrupt.now.handle }) }
    ensures some { 0 < result }
    ensures within { result ≤ length reply.new }
    ensures len { length reply.new ≡ length reply.old }
{
    let len = put_srq_message(interrupt, &mut reply[4..]);
    close_record(reply, len)
}
