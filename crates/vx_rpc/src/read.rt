ghost use Rattle.std.specs.Prelude.{◌≡◌, List, ℕ};
ghost use Rattle.vx_xdr.specs.Spelling.{Word};
ghost use Rattle.vx_xdr.specs.Reading.{reading};
ghost use Rattle.vx_rpc.specs.Header.{accepted_body};
ghost use Rattle.vx_rpc.specs.ReplyMeaning.{read_shown, reply_meaning, reply_body, accepted, denied, refused, accept_refusal, reject_refusal, ResultsEnd, ResultsBehind};

use crate::header::{accepted_header, three_words};
use crate::refusal::RpcRefusal;
use vx_xdr::Reader;

/// What a reply says.
#[derive(Clone, Copy, PartialEq, Eq)]
pub enum ReplyRead<'a> {
    /// The call was executed. `results` is the end of the message, unread.
    Success { xid: u32, results: &'a [u8] },
    /// The call was refused.
    Refused { xid: u32, refusal: RpcRefusal },
    /// No reply.
    Bad,
}

/// Reads the header of a reply (RFC 5531, section 9). Its verifier may be of any flavor, the two version mismatches
/// may carry any two versions, and an error of authentication any cause.
///
/// `Bad` is a message that is no reply, one that ends too early, an unknown status, and a refusal with bytes behind
/// it.
pub fn read_reply<'a>(message: &'a [u8]) -> ReplyRead<'a>
    ensures read { read_shown result ≡ reply_meaning message.now }
    ensures results { ResultsEnd message.now result }
{
    match three_words(message) {
        Ok((xid, 1, status)) => read_body(xid, status, &message[12..]),
        _ => ReplyRead::Bad,
    }
}

// A reply behind its first three words, of which the third is `status`.
fn read_body<'a>(xid: u32, status: u32, body: &'a [u8]) -> ReplyRead<'a>
    ensures read { read_shown result ≡ reply_body xid status body.now }
    ensures results { ResultsBehind 12 body.now result }
{
    match status {
        0 => read_accepted(xid, body),
        1 => read_denied(xid, body),
        _ => ReplyRead::Bad,
    }
}

// A reply to a call that was accepted, behind its first three words.
fn read_accepted<'a>(xid: u32, body: &'a [u8]) -> ReplyRead<'a>
    ensures read { read_shown result ≡ accepted xid (accepted_body body.now) }
    ensures results { ResultsBehind 12 body.now result }
{
    let Ok((status, len)) = accepted_header(body) else {
        return ReplyRead::Bad;
    };
    let carried = &body[len..];
    if status == 0 {
        ReplyRead::Success {
            xid,
            results: carried,
        }
    } else {
        refused_with(xid, accept_refusal(status), carried)
    }
}

// A reply to a call that was denied, behind its first three words.
fn read_denied<'a>(xid: u32, body: &'a [u8]) -> ReplyRead<'a>
    ensures read { read_shown result ≡ denied xid (reading Word body.now) }
    ensures results { ResultsBehind 12 body.now result }
{
    match Reader::new(body).u32() {
        Ok(status) => refused_with(xid, reject_refusal(status), &body[4..]),
        Err(_) => ReplyRead::Bad,
    }
}

// A refusal that carries so many bytes, where there are so many.
fn refused_with<'a>(xid: u32, refusal: Option<(RpcRefusal, usize)>, carried: &[u8]) -> ReplyRead<'a>
    ensures read { read_shown result ≡ refused xid refusal carried.now }
    ensures results { (least : ℕ) (text : List ℕ) → ResultsBehind least text result }
{
    match refusal {
        Some((refusal, size)) if carried.len() == size => ReplyRead::Refused { xid, refusal },
        _ => ReplyRead::Bad,
    }
}

// The refusal of an accepted call that wasn't executed, and how many bytes it carries.
fn accept_refusal(status: u32) -> Option<(RpcRefusal, usize)>
    ensures { result ≡ accept_refusal status }
{
    match status {
        1 => Some((RpcRefusal::ProgUnavail, 0)),
        2 => Some((RpcRefusal::ProgMismatch, 8)),
        3 => Some((RpcRefusal::ProcUnavail, 0)),
        4 => Some((RpcRefusal::GarbageArgs, 0)),
        5 => Some((RpcRefusal::SystemErr, 0)),
        _ => None,
    }
}

// The refusal of a denied call, and how many bytes it carries.
fn reject_refusal(status: u32) -> Option<(RpcRefusal, usize)>
    ensures { result ≡ reject_refusal status }
{
    match status {
        0 => Some((RpcRefusal::RpcMismatch, 8)),
        1 => Some((RpcRefusal::AuthError, 4)),
        _ => None,
    }
}
