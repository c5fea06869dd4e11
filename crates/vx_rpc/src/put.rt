ghost use Rattle.std.specs.Prelude.{◌≡◌, ◌≤◌, ◌<◌, ◌*◌, ◌↔◌, IfOk, OnErr, IsErr, IsTrue, length};
ghost use Rattle.vx_xdr.specs.Writing.{WritesFirst};
ghost use Rattle.vx_rpc.specs.Sorting.{is_sent};
ghost use Rattle.vx_rpc.specs.Wording.{words, call_message, success_message, refusal_message};

use crate::refusal::RpcRefusal;
use vx_xdr::{Full, Writer};

/// Writes the header of a call of RPC version 2, without credential and verifier, at the front of `out`, and answers
/// its length, 40 bytes (RFC 5531, section 9). `Full`, with nothing written, exactly where `out` has fewer.
pub fn put_call(xid: u32, prog: u32, vers: u32, proc: u32, out: &mut [u8]) -> Result<usize, Full>
    ensures ok { IfOk result (λ n. WritesFirst (call_message xid prog vers proc) out.old n out.new) }
    ensures len { IfOk result (λ n. n ≡ 40) }
    ensures full { IsErr result ↔ (length out.old < 40) }
    ensures err { OnErr result (out.new ≡ out.old) }
{
    put_words(&[xid, 0, 2, prog, vers, proc, 0, 0, 0, 0], out)
}

/// Writes the header of a reply to a call that was executed, without verifier, at the front of `out`, and answers
/// its length, 24 bytes (RFC 5531, section 9). The results follow it. `Full`, with nothing written, exactly where
/// `out` has fewer.
pub fn put_reply(xid: u32, out: &mut [u8]) -> Result<usize, Full>
    ensures ok { IfOk result (λ n. WritesFirst (success_message xid) out.old n out.new) }
    ensures len { IfOk result (λ n. n ≡ 24) }
    ensures full { IsErr result ↔ (length out.old < 24) }
    ensures err { OnErr result (out.new ≡ out.old) }
{
    put_words(&[xid, 1, 0, 0, 0, 0], out)
}

/// Writes a reply that refuses a call at the front of `out`, and answers its length, 24 bytes, or 32 for a mismatch
/// of the program's version (RFC 5531, section 9). The one version that is served, of RPC 2 and of a program 1, is
/// told as lowest and highest. `Full`, with nothing written, exactly where `out` has fewer bytes.
pub fn put_refusal(xid: u32, refusal: RpcRefusal, out: &mut [u8]) -> Result<usize, Full>
    requires { IsTrue (is_sent refusal) }
    ensures ok { IfOk result (λ n. WritesFirst (refusal_message xid refusal) out.old n out.new) }
    ensures len { IfOk result (λ n. (24 ≤ n) × (n ≤ 32)) }
    ensures full { IsErr result ↔ (length out.old < length (refusal_message xid refusal)) }
    ensures err { OnErr result (out.new ≡ out.old) }
{
    match refusal {
        RpcRefusal::RpcMismatch => put_words(&[xid, 1, 1, 0, 2, 2], out),
        RpcRefusal::ProgUnavail => put_words(&[xid, 1, 0, 0, 0, 1], out),
        RpcRefusal::ProgMismatch => put_words(&[xid, 1, 0, 0, 0, 2, 1, 1], out),
        RpcRefusal::ProcUnavail => put_words(&[xid, 1, 0, 0, 0, 3], out),
        RpcRefusal::GarbageArgs => put_words(&[xid, 1, 0, 0, 0, 4], out),
        RpcRefusal::AuthError | RpcRefusal::SystemErr => unreachable!(),
    }
}

// A header is at most ten words.
fn put_words(numbers: &[u32], out: &mut [u8]) -> Result<usize, Full>
    requires { length numbers.now ≤ 10 }
    ensures ok { IfOk result (λ n. WritesFirst (words numbers.now) out.old n out.new) }
    ensures full { IsErr result ↔ (length out.old < 4 * length numbers.now) }
    ensures err { OnErr result (out.new ≡ out.old) }
{
    if out.len() < 4 * numbers.len() {
        return Err(Full);
    }
    let mut w = Writer::new();
    for number in numbers {
        w.u32(out, *number)?;
    }
    Ok(w.len())
}
