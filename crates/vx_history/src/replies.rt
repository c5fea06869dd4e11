//! The replies and the interrupt calls that records spell. A record spells what is read in it where writing that again gives the same
//! bytes.
ghost use Rattle.std.specs.Prelude.{◌≡◌, ◌≤◌, ◌<◌, ◌^◌, ◌++◌, length, take, drop, ◌&&◌, option_map, Some, IfOk, IfSome, MatchOption};
ghost use Rattle.std.specs.Result.{result_ok};
ghost use Rattle.std.specs.Str.{bytes_eq};
ghost use Rattle.vx_calls.specs.declared.limits.TheConstants.{HANDLE_MAX};
ghost use Rattle.vx_calls.specs.Reply.{reply_shown};
ghost use Rattle.vx_xdr.specs.Spelling.{Opaque};
ghost use Rattle.vx_xdr.specs.Reading.{reading};
ghost use Rattle.vx_codec.specs.Row.{whole};
ghost use Rattle.vx_codec.specs.Answered.{results_shown, IsPuttableReply, results};
ghost use Rattle.vx_srq.specs.Shown.{handle_shown};
ghost use Rattle.vx_record.specs.Fragments.{last_header, record_of};
ghost use Rattle.vx_rpc.specs.Wording.{success_message};
ghost use Rattle.vx_rpc.specs.CallMeaning.{call_meaning};
ghost use Rattle.vx_exchange.specs.Meaning.{reply_record, srq_record};
ghost use Rattle.vx_history.specs.Replies.{error_of, results_told, error_told, reply_told, reply_of, error_alone, abort_in, srq_told, srq_in};
ghost use Rattle.vx_history.specs.Spelling.{IsPuttableOutcome, interrupt_shown};

use arrayvec::ArrayVec;
use std::alloc::Global;
use vx_calls::{ErrorCode, HANDLE_MAX, Handle, Interrupt, Proc, ReplyRef};
use vx_codec::{Results, put_results, read_results};
use vx_exchange::{SRQ_ROOM, put_srq_record};
use vx_model::NoMemory;
use vx_record::mark;
use vx_rpc::{CallRead, put_reply, read_call};
use vx_text::zeros;
use vx_xdr::Reader;

/// The errors that a reply may tell (VXI-11, Device_ErrorCode).
const ERRORS: [ErrorCode; 15] = [
    ErrorCode::Ok,
    ErrorCode::Syntax,
    ErrorCode::NotAccessible,
    ErrorCode::InvalidLink,
    ErrorCode::Parameter,
    ErrorCode::NoChannel,
    ErrorCode::NotSupported,
    ErrorCode::NoResources,
    ErrorCode::Locked,
    ErrorCode::NotHeld,
    ErrorCode::Timeout,
    ErrorCode::BusFault,
    ErrorCode::InvalidAddress,
    ErrorCode::Abort,
    ErrorCode::ChannelUp,
];

/// The error of this number, where there is one.
fn error_of(number: u32) -> Option<ErrorCode>
    ensures { result ≡ error_of number }
{
    ERRORS
        .iter()
        .copied()
        .find(|error| error.number() == number)
}

/// The first bytes, so many of them, or all where there are fewer.
#[tactic(auto, using(std::proofs::lemmas::List::take_all))]
fn front_of(bytes: &[u8], count: usize) -> &[u8]
    ensures { result.now ≡ take count bytes.now }
{
    if bytes.len() <= count {
        bytes
    } else {
        &bytes[..count]
    }
}

/// What stands behind so many bytes; nothing where there are fewer.
#[tactic(auto, using(std::proofs::lemmas::List::drop_all))]
fn behind(bytes: &[u8], count: usize) -> &[u8]
    ensures { result.now ≡ drop count bytes.now }
{
    if bytes.len() <= count {
        &[]
    } else {
        &bytes[count..]
    }
}

/// The bytes of a reply's record in front of its results: the mark (4), and the header of an accepted reply (24).
const FRONT: usize = 28;

/// The results that a record tells of a call of this procedure.
pub(crate) fn results_told<'a>(proc: Proc, bytes: &'a [u8]) -> Option<Results<'a>>
    ensures told { option_map results_shown result ≡ results_told proc bytes.now }
    ensures puttable { IfSome result (λ found. IsPuttableOutcome (results_shown found)) }
{
    read_results(proc, behind(bytes, FRONT))
}

/// The number of the error that results tell; 0 where they tell none.
pub(crate) fn error_told(told: &Results<'_>) -> u32
    ensures { result ≡ error_told (results_shown told.now) }
{
    match *told {
        Results::Null => 0,
        Results::CreateLink { error, .. } => error,
        Results::Write { error, .. } => error,
        Results::Read { error, .. } => error,
        Results::Stb { error, .. } => error,
        Results::Docmd { error, .. } => error,
        Results::Error { error } => error,
    }
}

/// The reply with these results, whose error is this.
fn reply_with<'a>(error: ErrorCode, told: Results<'a>) -> ReplyRef<'a>
    requires error { error_of (error_told (results_shown told)) ≡ Some error }
    requires puttable { IsPuttableOutcome (results_shown told) }
    ensures told { Some (reply_shown result) ≡ reply_told (results_shown told.entry) }
    ensures puttable { IsPuttableReply (reply_shown result) }
{
    match told {
        Results::Null => ReplyRef::Null,
        Results::CreateLink {
            lid,
            abort_port,
            max,
            ..
        } => ReplyRef::CreateLink {
            error,
            lid,
            abort_port,
            max,
        },
        Results::Write { size, .. } => ReplyRef::Write { error, size },
        Results::Read { reason, bytes, .. } => ReplyRef::Read {
            error,
            reason,
            bytes,
        },
        Results::Stb { stb, .. } => ReplyRef::Stb { error, stb },
        Results::Docmd { bytes, .. } => ReplyRef::Docmd { error, bytes },
        Results::Error { .. } => ReplyRef::Error { error },
    }
}

/// The reply with these results, where their error is one.
fn reply_told<'a>(told: Results<'a>) -> Option<ReplyRef<'a>>
    requires { IsPuttableOutcome (results_shown told) }
    ensures told { option_map reply_shown result ≡ reply_told (results_shown told.entry) }
    ensures puttable { IfSome result (λ reply. IsPuttableReply (reply_shown reply)) }
{
    match error_of(error_told(&told)) {
        Some(error) => Some(reply_with(error, told)),
        None => None,
    }
}

/// Writes the message of a reply to the call of this xid to the front of `out`, and answers its length; none where there isn't room.
fn put_message(xid: u32, reply: &ReplyRef<'_>, out: &mut [u8]) -> Option<usize>
    requires { IsPuttableReply (reply_shown reply.now) }
    ensures message { MatchOption result (length out.old < length (success_message xid ++ results (reply_shown reply.now)))
        (λ len. (take len out.new ≡ success_message xid ++ results (reply_shown reply.now)) × (len ≡ length (success_message xid ++ results (reply_shown reply.now))) × (len ≤ length out.new)) }
    ensures len { length out.new ≡ length out.old }
{
    match put_reply(xid, out) {
        Ok(head) => match put_results(reply, &mut out[head..]) {
            Ok(body) => Some(head + body),
            Err(_) => None,
        },
        Err(_) => None,
    }
}

/// Whether these bytes, a front and what is behind it, are the mark of a message and the message.
fn is_marked(message: &[u8], front: &[u8], behind: &[u8]) -> bool
    requires { length message.now < 2 ^ 31 }
    ensures { result ≡ (bytes_eq (last_header (length message.now)) front.now && bytes_eq message.now behind.now) }
{
    mark(message.len() as u32).as_slice() == front && message == behind
}

/// Whether these bytes are a message as a record.
fn is_record_of(message: &[u8], bytes: &[u8]) -> bool
    requires { length message.now < 2 ^ 31 }
    ensures { result ≡ bytes_eq (record_of message.now) bytes.now }
{
    is_marked(message, front_of(bytes, 4), behind(bytes, 4))
}

/// Whether these bytes are the record of a reply to the call of this xid.
fn is_record(alloc: Global, xid: u32, reply: &ReplyRef<'_>, bytes: &[u8]) -> Result<bool, NoMemory>
    requires puttable { IsPuttableReply (reply_shown reply.now) }
    requires short { length bytes.now < 2 ^ 31 }
    ensures { IfOk result (λ yes. yes ≡ bytes_eq (reply_record xid (reply_shown reply.now)) bytes.now) }
{
    let Ok(mut room) = zeros(alloc, bytes.len()) else {
        return Err(NoMemory);
    };
    Ok(is_record_in(xid, reply, bytes, &mut room))
}

/// The same, in a room that is as long as the bytes.
fn is_record_in(xid: u32, reply: &ReplyRef<'_>, bytes: &[u8], room: &mut [u8]) -> bool
    requires puttable { IsPuttableReply (reply_shown reply.now) }
    requires short { length bytes.now < 2 ^ 31 }
    requires room { length room.old ≡ length bytes.now }
    ensures { result ≡ bytes_eq (reply_record xid (reply_shown reply.now)) bytes.now }
{
    match put_message(xid, reply, room) {
        Some(len) => is_record_of(&room[..len], bytes),
        None => false,
    }
}

/// The reply with these results whose record these bytes are, to the call of this xid.
pub(crate) fn reply_of<'a>(
    alloc: Global,
    xid: u32,
    bytes: &[u8],
    told: Results<'a>,
) -> Result<Option<ReplyRef<'a>>, NoMemory>
    requires puttable { IsPuttableOutcome (results_shown told) }
    requires short { length bytes.now < 2 ^ 31 }
    ensures { IfOk result (λ found. option_map reply_shown found ≡ reply_of xid bytes.now (results_shown told.entry)) }
{
    let Some(reply) = reply_told(told) else {
        return Ok(None);
    };
    if is_record(alloc, xid, &reply, bytes)? {
        Ok(Some(reply))
    } else {
        Ok(None)
    }
}

/// The error of a reply that has nothing else.
fn error_alone(reply: ReplyRef<'_>) -> Option<ErrorCode>
    ensures { result ≡ error_alone (reply_shown reply.entry) }
{
    match reply {
        ReplyRef::Error { error } => Some(error),
        _ => None,
    }
}

/// The error of the reply to the device_abort of this xid that a record spells.
pub(crate) fn abort_in(alloc: Global, xid: u32, bytes: &[u8]) -> Result<Option<ErrorCode>, NoMemory>
    requires short { length bytes.now < 2 ^ 31 }
    ensures { IfOk result (λ found. found ≡ abort_in xid bytes.now) }
{
    let Some(told) = results_told(Proc::DeviceAbort, bytes) else {
        return Ok(None);
    };
    match reply_of(alloc, xid, bytes, told)? {
        Some(reply) => Ok(error_alone(reply)),
        None => Ok(None),
    }
}

/// The handle that arguments are, all of them: an opaque of at most 40 bytes (VXI-11, Device_SrqParms).
fn handle_in(args: &[u8]) -> Option<Handle>
    ensures { option_map handle_shown result ≡ whole (result_ok (reading (Opaque HANDLE_MAX) args.now)) }
{
    let mut reader = Reader::new(args);
    let bytes = reader.opaque(HANDLE_MAX as u32).ok()?;
    if !reader.at_end() {
        return None;
    }
    let mut kept = ArrayVec::new();
    let _ = kept.try_extend_from_slice(bytes);
    Some(Handle { bytes: kept })
}

/// The interrupt call that a message tells, whatever its procedure.
fn srq_told(message: &[u8]) -> Option<Interrupt>
    ensures { option_map interrupt_shown result ≡ srq_told (call_meaning message.now) }
{
    let CallRead::Call {
        xid,
        program,
        version,
        args,
        ..
    } = read_call(message)
    else {
        return None;
    };
    Some(Interrupt {
        xid,
        prog: program,
        vers: version,
        handle: handle_in(args)?,
    })
}

/// Whether these bytes are the record of an interrupt call.
fn is_srq_record(interrupt: &Interrupt, bytes: &[u8]) -> bool
    ensures { result ≡ bytes_eq (srq_record (interrupt_shown interrupt.now)) bytes.now }
{
    let mut room = [0; SRQ_ROOM];
    let len = put_srq_record(interrupt, &mut room);
    &room[..len] == bytes
}

/// The interrupt call that a record tells; its mark is four bytes.
fn srq_behind(bytes: &[u8]) -> Option<Interrupt>
    ensures { option_map interrupt_shown result ≡ srq_told (call_meaning (drop 4 bytes.now)) }
{
    srq_told(behind(bytes, 4))
}

/// The interrupt call that a record spells (VXI-11, device_intr_srq).
pub(crate) fn srq_in(bytes: &[u8]) -> Option<Interrupt>
    ensures { option_map interrupt_shown result ≡ srq_in bytes.now }
{
    match srq_behind(bytes) {
        Some(interrupt) if is_srq_record(&interrupt, bytes) => Some(interrupt),
        _ => None,
    }
}
