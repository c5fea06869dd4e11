//! The headers of messages, and what a message is as a call.
ghost use Rattle.std.specs.Prelude.{◌≡◌, ◌≤◌, IfOk, IfErr, Ok, Err, length, drop};
ghost use Rattle.vx_xdr.specs.Reading.{Gives};
ghost use Rattle.vx_rpc.specs.Header.{three_words, behind_auth, call_body, body_shown, accepted_body};
ghost use Rattle.vx_rpc.specs.CallMeaning.{call_shown, call_meaning, call_of, CallArgsBehind};

use vx_xdr::{Reader, XdrErr};

/// What a message is as a call, whatever its program.
#[derive(Clone, Copy, PartialEq, Eq)]
pub enum CallRead<'a> {
    /// A call of RPC version 2. `args` is the end of the message, unread.
    Call {
        xid: u32,
        program: u32,
        version: u32,
        procedure: u32,
        args: &'a [u8],
    },
    /// A call of another version of RPC.
    OtherVersion {
        xid: u32,
    },
    /// No call, or one whose header can't be read.
    Junk,
}

/// Reads the header of a call of any program: the credential and the verifier may be of any flavor and aren't looked
/// at (RFC 5531, section 9).
///
/// The first that holds decides: `Junk` for fewer than 12 bytes or a second word other than 0; `OtherVersion` for an
/// RPC version other than 2; `Junk` where the rest of the header can't be read; else the call.
pub fn read_call<'a>(message: &'a [u8]) -> CallRead<'a>
    ensures read { call_shown result ≡ call_meaning message.now }
    ensures args { CallArgsBehind 40 message.now result }
{
    match three_words(message) {
        Ok((xid, 0, 2)) => call_behind(xid, &message[12..]),
        Ok((xid, 0, _)) => CallRead::OtherVersion { xid },
        _ => CallRead::Junk,
    }
}

// A call of RPC version 2, behind its first three words.
fn call_behind<'a>(xid: u32, body: &'a [u8]) -> CallRead<'a>
    ensures read { call_shown result ≡ call_of xid (call_body body.now) }
    ensures args { CallArgsBehind 28 body.now result }
{
    let Ok(header) = call_header(body) else {
        return CallRead::Junk;
    };
    CallRead::Call {
        xid,
        program: header.program,
        version: header.version,
        procedure: header.procedure,
        args: &body[header.len..],
    }
}

/// The longest body of a credential or a verifier, in bytes (RFC 5531, section 8.2).
const AUTH_MAX: u32 = 400;

/// A call's program, version and procedure, and how many bytes stand before its arguments.
#[derive(Clone, Copy)]
pub(crate) struct CallHeader {
    pub(crate) program: u32,
    pub(crate) version: u32,
    pub(crate) procedure: u32,
    pub(crate) len: usize,
}

/// Reads the first three words of a message.
pub(crate) fn three_words(message: &[u8]) -> Result<(u32, u32, u32), XdrErr>
    ensures { Gives (λ x. x) result (three_words message.now) }
{
    let mut r = Reader::new(message);
    let first = r.u32()?;
    let second = r.u32()?;
    let third = r.u32()?;
    Ok((first, second, third))
}

/// Reads a credential or a verifier of any flavor, and tells how many bytes it takes.
fn auth_len(r: &mut Reader) -> Result<usize, XdrErr>
    ensures ok { IfOk result (λ n. behind_auth r.old ≡ Ok r.new) }
    ensures taken { IfOk result (λ n. r.new ≡ drop n r.old) }
    ensures within { IfOk result (λ n. (8 ≤ n) × (n ≤ length r.old)) }
    ensures err { IfErr result (λ e. behind_auth r.old ≡ Err e) }
{
    r.u32()?;
    let body = r.opaque(AUTH_MAX)?;
    Ok(8 + body.len().next_multiple_of(4))
}

/// Reads a call behind its first three words.
pub(crate) fn call_header(bytes: &[u8]) -> Result<CallHeader, XdrErr>
    ensures shown { Gives (body_shown bytes.now) result (call_body bytes.now) }
    ensures within { IfOk result (λ h. (28 ≤ h.len) × (h.len ≤ length bytes.now)) }
{
    let mut r = Reader::new(bytes);
    let program = r.u32()?;
    let version = r.u32()?;
    let procedure = r.u32()?;
    let cred = auth_len(&mut r)?;
    let verf = auth_len(&mut r)?;
    Ok(CallHeader {
        program,
        version,
        procedure,
        len: 12 + cred + verf,
    })
}

/// Reads an accepted reply behind its first three words: its status, and how many bytes stand before what that
/// status carries.
pub(crate) fn accepted_header(bytes: &[u8]) -> Result<(u32, usize), XdrErr>
    ensures shown { Gives (λ x. (x.0, drop x.1 bytes.now)) result (accepted_body bytes.now) }
    ensures within { IfOk result (λ x. (12 ≤ x.1) × (x.1 ≤ length bytes.now)) }
{
    let mut r = Reader::new(bytes);
    let verf = auth_len(&mut r)?;
    let status = r.u32()?;
    Ok((status, verf + 4))
}
