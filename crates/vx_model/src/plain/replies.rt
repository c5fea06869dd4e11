//! The replies of calls, and what they take from transfers.
ghost use Rattle.std.specs.Prelude.{◌≡◌, ◌≤◌, ◌+◌, ◌&&◌, ◌==◌, ◌++◌, List, length, IfOk, OnOk};
ghost use Rattle.std.specs.Str.{bytes_eq};
ghost use Rattle.vx_calls.specs.ErrorCode.{same_error};
ghost use Rattle.vx_calls.specs.declared.codes.ErrorCode.TheVariants as code;
ghost use Rattle.vx_calls.specs.Reply.{same_reply, reply_shown};
ghost use Rattle.vx_calls.specs.Reply as replies;
ghost use Rattle.vx_rules.specs.SrqState.{Srq};
ghost use Rattle.vx_srq.specs.Shown.{given_shown};
ghost use Rattle.vx_plan.specs.declared.tasks.TheConstants.{TURN_MAX};
ghost use Rattle.vx_plan.specs.Places.{last_after};
ghost use Rattle.vx_plan.specs.Results as results;
ghost use Rattle.vx_plan.specs.Transfers.{got_of};
ghost use Rattle.vx_rules.specs.AtomicStep.{same_given};
ghost use Rattle.vx_model.specs.Stepping.{model_byte_of};

use std::alloc::Global;
use vx_488::{Transfer, Wire};
use vx_calls::{ErrorCode, Interrupt, ReplyRef, Taken};
use vx_plan::Task;
use vx_state::NoMemory;

/// Whether two errors are one.
pub(crate) fn same_error(a: ErrorCode, b: ErrorCode) -> bool
    ensures { result ≡ same_error a b }
{
    a.number() == b.number()
}

/// Whether two replies are one.
pub(crate) fn same_reply(a: &ReplyRef<'_>, b: &ReplyRef<'_>) -> bool
    ensures { result ≡ same_reply (reply_shown a.now) (reply_shown b.now) }
{
    match *a {
        ReplyRef::Null => matches!(b, ReplyRef::Null),
        ReplyRef::CreateLink {
            error,
            lid,
            abort_port,
            max,
        } => is_created(b, error, lid, abort_port, max),
        ReplyRef::Write { error, size } => is_written(b, error, size),
        ReplyRef::Read {
            error,
            reason,
            bytes,
        } => is_read(b, error, reason, bytes),
        ReplyRef::Stb { error, stb } => is_polled(b, error, stb),
        ReplyRef::Docmd { error, bytes } => is_commanded(b, error, bytes),
        ReplyRef::Error { error } => is_error(b, error),
    }
}

fn is_created(b: &ReplyRef<'_>, error: ErrorCode, lid: u32, abort_port: u32, max: u32) -> bool
    ensures { result ≡ same_reply (replies.CreateLink error lid abort_port max) (reply_shown b.now) }
{
    match *b {
        ReplyRef::CreateLink {
            error: e,
            lid: l,
            abort_port: p,
            max: m,
        } => same_error(error, e) && lid == l && abort_port == p && max == m,
        _ => false,
    }
}

fn is_written(b: &ReplyRef<'_>, error: ErrorCode, size: u32) -> bool
    ensures { result ≡ same_reply (replies.Write error size) (reply_shown b.now) }
{
    match *b {
        ReplyRef::Write { error: e, size: n } => same_error(error, e) && size == n,
        _ => false,
    }
}

fn is_read(b: &ReplyRef<'_>, error: ErrorCode, reason: u32, bytes: &[u8]) -> bool
    ensures { result ≡ same_reply (replies.Read error reason bytes.now) (reply_shown b.now) }
{
    match *b {
        ReplyRef::Read {
            error: e,
            reason: r,
            bytes: others,
        } => same_error(error, e) && reason == r && bytes == others,
        _ => false,
    }
}

fn is_polled(b: &ReplyRef<'_>, error: ErrorCode, stb: u8) -> bool
    ensures { result ≡ same_reply (replies.Stb error stb) (reply_shown b.now) }
{
    match *b {
        ReplyRef::Stb { error: e, stb: n } => same_error(error, e) && stb == n,
        _ => false,
    }
}

fn is_commanded(b: &ReplyRef<'_>, error: ErrorCode, bytes: &[u8]) -> bool
    ensures { result ≡ same_reply (replies.Docmd error bytes.now) (reply_shown b.now) }
{
    match *b {
        ReplyRef::Docmd {
            error: e,
            bytes: others,
        } => same_error(error, e) && bytes == others,
        _ => false,
    }
}

fn is_error(b: &ReplyRef<'_>, error: ErrorCode) -> bool
    ensures { result ≡ same_reply (replies.Error error) (reply_shown b.now) }
{
    match *b {
        ReplyRef::Error { error: e } => same_error(error, e),
        _ => false,
    }
}

/// Whether two takes gave the same.
pub(crate) fn same_taken(a: &Taken, b: &Taken) -> bool
    ensures { result ≡ same_given (given_shown a.now) (given_shown b.now) }
{
    match a {
        Taken::Srq(i) => match b {
            Taken::Srq(j) => same_interrupt(i, j),
            _ => false,
        },
        Taken::Empty => matches!(b, Taken::Empty),
        Taken::Gone => matches!(b, Taken::Gone),
    }
}

fn same_interrupt(a: &Interrupt, b: &Interrupt) -> bool
    ensures { result
        ≡ ((a.now.xid == b.now.xid) && (a.now.prog == b.now.prog) && (a.now.vers == b.now.vers) && bytes_eq a.now.handle.bytes.items b.now.handle.bytes.items) }
{
    a.xid == b.xid
        && a.prog == b.prog
        && a.vers == b.vers
        && a.handle.bytes.as_slice() == b.handle.bytes.as_slice()
}

/// The bytes that transfers got.
pub(crate) fn bytes_got(alloc: Global, moves: &[Transfer]) -> Result<Vec<u8>, NoMemory>
    ensures { IfOk result (λ got. got.items ≡ results.bytes_got moves.now) }
{
    let mut got = Vec::new(alloc);
    for t in moves {
        let Ok(()) = push_got(&mut got, *t) else {
            return Err(NoMemory);
        };
    }
    Ok(got)
}

/// Puts the byte of a transfer behind these bytes, where it got one.
fn push_got(got: &mut Vec<u8>, t: Transfer) -> Result<(), NoMemory>
    ensures { OnOk result (got.new.items ≡ got.old.items ++ model_byte_of (got_of t)) }
{
    match t {
        Transfer::Got { b, .. } => match got.push(b) {
            Ok(()) => Ok(()),
            Err(_) => Err(NoMemory),
        },
        _ => Ok(()),
    }
}

/// The last byte that transfers got, and whether END stood on it.
fn last_got(moves: &[Transfer]) -> Option<(u8, bool)>
    ensures { result ≡ results.last_got moves.now }
{
    let mut last = None;
    for t in moves {
        last = last_after(last, *t);
    }
    last
}

/// The last byte got after one more transfer.
fn last_after(before: Option<(u8, bool)>, t: Transfer) -> Option<(u8, bool)>
    ensures { result ≡ last_after before (got_of t) }
{
    match t {
        Transfer::Got { b, end } => Some((b, end)),
        _ => before,
    }
}

/// How many data bytes transfers put.
pub(crate) fn puts_made(moves: &[Transfer]) -> u32
    requires { length moves.now ≤ TURN_MAX }
    ensures { result ≡ results.puts_made moves.now }
{
    moves.iter().filter(|t| is_put(t)).count() as u32
}

fn is_put(t: &Transfer) -> bool
    ensures { result ≡ results.is_put t.now }
{
    match t {
        Transfer::Put { .. } => true,
        _ => false,
    }
}

/// Why a read of at most `max` bytes ended after so many, of which this was the last (VXI-11, device_read).
fn read_reason(max: u32, stop: Option<u8>, count: usize, last: Option<(u8, bool)>) -> u32
    ensures { result ≡ results.reason_of max stop count last }
{
    let full = count == max as usize;
    let stopped = last.is_some_and(|(b, _)| Some(b) == stop);
    let ended = last.is_some_and(|(_, end)| end);
    u32::from(full) + 2 * u32::from(stopped) + 4 * u32::from(ended)
}

/// The status byte of a serial poll.
fn status_got(moves: &[Transfer]) -> u8
    ensures { result ≡ results.status_got moves.now }
{
    match last_got(moves) {
        Some((b, _)) => b,
        None => 0,
    }
}

/// What bus status tells of a selector, on this bus and with this level of SRQ or NDAC (VXI-11.2).
fn status_number(selector: u16, wire: &Wire, level: bool) -> u16
    ensures { result ≡ results.status_number selector wire.now level }
{
    match selector {
        1 => u16::from(wire.ren),
        2 | 3 => u16::from(level),
        4 => 1,
        5 => u16::from(wire.incharge),
        6 => u16::from(wire.is_talker()),
        7 => u16::from(wire.is_listener()),
        _ => u16::from(wire.own),
    }
}

/// A number as two bytes, the high one first or last.
fn two_bytes(big: bool, n: u16) -> [u8; 2]
    ensures { result ≡ results.two_bytes big n }
{
    let high = (n / 256) as u8;
    let low = (n % 256) as u8;
    if big { [high, low] } else { [low, high] }
}

/// What is known of a job that was done: its bytes, their order, the bus before it, its transfers, what they got, and the
/// level that the bus gave.
#[derive(Clone, Copy)]
pub(crate) struct Done<'a> {
    pub(crate) bytes: &'a [u8],
    pub(crate) big: bool,
    pub(crate) wire: &'a Wire,
    pub(crate) moves: &'a [Transfer],
    pub(crate) got: &'a [u8],
    pub(crate) level: bool,
}

/// Whether this is the reply of a job that was done.
pub(crate) fn is_whole_reply(job: &Task, done: &Done<'_>, reply: &ReplyRef<'_>) -> bool
    requires { done.now.got.now ≡ results.bytes_got done.now.moves.now }
    ensures { result
        ≡ same_reply (results.whole_reply job.now done.now.bytes.now done.now.wire.now done.now.big done.now.level done.now.moves.now) (reply_shown reply.now) }
{
    match *job {
        Task::Write { len, .. } => is_written(reply, ErrorCode::Ok, len),
        Task::Read { max, stop, .. } => is_whole_read(max, stop, done, reply),
        Task::Stb { .. } => is_polled(reply, ErrorCode::Ok, status_got(done.moves)),
        Task::Clear { .. } | Task::Trigger { .. } | Task::Remote { .. } | Task::Local { .. } => {
            is_error(reply, ErrorCode::Ok)
        }
        Task::Status { selector } => {
            let number = status_number(selector, done.wire, done.level);
            is_commanded(reply, ErrorCode::Ok, &two_bytes(done.big, number))
        }
        _ => is_commanded(reply, ErrorCode::Ok, done.bytes),
    }
}

/// Whether this is the reply of a read that was done.
fn is_whole_read(max: u32, stop: Option<u8>, done: &Done<'_>, reply: &ReplyRef<'_>) -> bool
    requires { done.now.got.now ≡ results.bytes_got done.now.moves.now }
    ensures { result
        ≡ same_reply (replies.Read code.Ok (results.read_reason max stop done.now.moves.now) (results.bytes_got done.now.moves.now)) (reply_shown reply.now) }
{
    let reason = read_reason(max, stop, done.got.len(), last_got(done.moves));
    is_read(reply, ErrorCode::Ok, reason, done.got)
}
