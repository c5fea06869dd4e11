//! Bytes that go out on a link whole.
ghost use Rattle.vx_door.specs.Going.{Went};
ghost use Rattle.vx_stream.specs.Sending.{SendsAll};

use vx_io_traits::{Link, WriteOut};

/// Hands bytes to the link, and what it didn't take again, until it has taken all; or answers false at its first fault.
pub fn send_all<L: Link>(link: &mut L, bytes: &[u8]) -> bool
    ensures sends { SendsAll L.Link link.old bytes.now result link.new }
    ensures went { Went L.receives L.sends link.old link.new }
{
    let mut sent = 0;
    while sent < bytes.len() {
        match link.send(&bytes[sent..]) {
            WriteOut::Took(count) => sent += count,
            WriteOut::Failed => return false,
        }
    }
    true
}
