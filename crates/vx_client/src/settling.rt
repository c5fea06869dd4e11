//! What the record of a reply says of the call that it answers.

ghost use Rattle.std.specs.Prelude.{◌≡◌, length};
ghost use Rattle.vx_calls.specs.Call.{call_shown};
ghost use Rattle.vx_codec.specs.Answered.{results_shown};
ghost use Rattle.vx_client.specs.Meaning.{is_size, is_read, is_due, can_be, error_of, client_bytes_of, made_of, stb_of, client_reason_of, judged, meaning};
ghost use Rattle.vx_client.specs.Settled.{settled_of, written};

use crate::answers::LinkMade;
use crate::outbox::procedure;
use vx_calls::CallRef;
use vx_codec::{Results, read_results};
use vx_rpc::{ReplyRead, RpcRefusal, read_reply};

/// What calls return of their results; what a call's results lack is 0.
#[derive(Clone, Copy)]
pub(crate) struct Answer {
    pub(crate) made: LinkMade,
    pub(crate) stb: u8,
    pub(crate) reason: u32,
    pub(crate) len: usize,
}

/// What a record came to for a call.
#[derive(Clone, Copy)]
pub(crate) enum Settled {
    Done(Answer),
    Failed(u32),
    Refused(RpcRefusal),
    Bad,
}

/// Whether a size is that of the bytes that a write sent.
fn is_size(call: &CallRef<'_>, size: u32) -> bool
    ensures { result ≡ is_size (call_shown call.now) size }
{
    match call {
        CallRef::Write { bytes, .. } => size as usize == bytes.len(),
        _ => true,
    }
}

/// Whether a read can bring so many bytes with this error and this reason.
fn is_read(call: &CallRef<'_>, error: u32, reason: u32, len: usize) -> bool
    ensures { result ≡ is_read (call_shown call.now) error reason len }
{
    match call {
        CallRef::Read { request, .. } => {
            len <= *request as usize && (error != 0 || *request == 0 || reason != 0 || len != 0)
        }
        _ => true,
    }
}

/// Whether the call can have these results.
fn is_due(call: &CallRef<'_>, results: &Results<'_>) -> bool
    ensures { result ≡ is_due (call_shown call.now) (results_shown results.now) }
{
    match results {
        Results::CreateLink { error, max, .. } => *error != 0 || *max != 0,
        Results::Write { error, size } => *error != 0 || is_size(call, *size),
        Results::Read {
            error,
            reason,
            bytes,
        } => is_read(call, *error, *reason, bytes.len()),
        _ => true,
    }
}

/// The error of results, 0 where they have none.
fn error(results: &Results<'_>) -> u32
    ensures { result ≡ error_of (results_shown results.now) }
{
    match results {
        Results::Null => 0,
        Results::CreateLink { error, .. } => *error,
        Results::Write { error, .. } => *error,
        Results::Read { error, .. } => *error,
        Results::Stb { error, .. } => *error,
        Results::Docmd { error, .. } => *error,
        Results::Error { error } => *error,
    }
}

/// The bytes of results.
pub(crate) fn bytes<'a>(results: Results<'a>) -> &'a [u8]
    ensures { result.now ≡ client_bytes_of (results_shown results.entry) }
{
    match results {
        Results::Read { bytes, .. } => bytes,
        Results::Docmd { bytes, .. } => bytes,
        _ => &[],
    }
}

/// The link that results made.
fn made(results: &Results<'_>) -> LinkMade
    ensures { result ≡ made_of (results_shown results.now) }
{
    match results {
        Results::CreateLink {
            lid,
            abort_port,
            max,
            ..
        } => LinkMade {
            lid: *lid,
            abort_port: *abort_port,
            max: *max,
        },
        _ => LinkMade {
            lid: 0,
            abort_port: 0,
            max: 0,
        },
    }
}

/// The status byte of results.
fn stb(results: &Results<'_>) -> u8
    ensures { result ≡ stb_of (results_shown results.now) }
{
    match results {
        Results::Stb { stb, .. } => *stb,
        _ => 0,
    }
}

/// Why a read ended.
pub(crate) fn reason(results: &Results<'_>) -> u32
    ensures { result ≡ client_reason_of (results_shown results.now) }
{
    match results {
        Results::Read { reason, .. } => *reason,
        _ => 0,
    }
}

/// What results come to for a call, whose bytes go to the front of `into`.
fn settle_results(call: &CallRef<'_>, results: Results<'_>, into: &mut [u8]) -> Settled
    ensures settled { result ≡ settled_of (judged (call_shown call.now) (length into.old) (results_shown results.entry)) }
    ensures into { into.new ≡ written into.old (judged (call_shown call.now) (length into.old) (results_shown results.entry)) }
{
    let bytes = bytes(results);
    if bytes.len() > into.len() || !is_due(call, &results) {
        return Settled::Bad;
    }
    let error = error(&results);
    if error != 0 {
        return Settled::Failed(error);
    }
    into[..bytes.len()].copy_from_slice(bytes);
    Settled::Done(Answer {
        made: made(&results),
        stb: stb(&results),
        reason: reason(&results),
        len: bytes.len(),
    })
}

/// What a message comes to for the call of this number, whose bytes go to the front of `into`.
pub(crate) fn settle(xid: u32, call: &CallRef<'_>, reply: &[u8], into: &mut [u8]) -> Settled
    ensures settled { result ≡ settled_of (meaning xid (call_shown call.now) (length into.old) reply.now) }
    ensures into { into.new ≡ written into.old (meaning xid (call_shown call.now) (length into.old) reply.now) }
{
    match read_reply(reply) {
        ReplyRead::Success {
            xid: number,
            results,
        } if number == xid => match read_results(procedure(call), results) {
            Some(results) => settle_results(call, results, into),
            None => Settled::Bad,
        },
        ReplyRead::Refused {
            xid: number,
            refusal,
        } if number == xid => Settled::Refused(refusal),
        _ => Settled::Bad,
    }
}
