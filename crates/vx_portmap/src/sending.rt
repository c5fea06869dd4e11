//! Records of replies.
ghost use Rattle.std.specs.Prelude.{◌≡◌, ◌<◌, ◌≤◌, ◌+◌, length, take, drop, option_map, IfSome};
ghost use Rattle.vx_portmap.specs.declared.limits.TheConstants.{MESSAGE_MAX};
ghost use Rattle.vx_portmap.specs.Answering.{reply};
ghost use Rattle.vx_record.specs.Fragments.{record_of};

use crate::answers::{MapAnswer, map_answer};
use crate::limits::MESSAGE_MAX;
use crate::table::Ports;
use vx_record::mark;

// Writes the mark of a reply of `len` bytes that stands behind it, and answers how long the record is.
fn close_record(out: &mut [u8], len: usize) -> usize
    requires short { len ≤ MESSAGE_MAX }
    requires room { MESSAGE_MAX + 4 ≤ length out.old }
    ensures record { take result out.new ≡ record_of (take len (drop 4 out.old)) }
    ensures within { (0 < result) × (result ≤ length out.new) }
{
    out[..4].copy_from_slice(&mark(len as u32));
    len + 4
}

/// Writes the record of the reply to a message at the front of `out`, and answers how long it is; or `None`, where the message
/// has no reply.
pub(crate) fn put_record(ports: &Ports, message: &[u8], out: &mut [u8]) -> Option<usize>
    requires { MESSAGE_MAX + 4 ≤ length out.old }
    ensures record { option_map (λ n. take n out.new) result ≡ option_map record_of (reply ports.now message.now) }
    ensures within { IfSome result (λ n. n ≤ length out.new) }
{
    match map_answer(ports, message, &mut out[4..]) {
        MapAnswer::Silent => None,
        MapAnswer::Reply(len) => Some(close_record(out, len)),
    }
}
