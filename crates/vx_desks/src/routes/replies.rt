//! The records of replies to calls on several buses.
ghost use Rattle.std.specs.Prelude.{◌≡◌, ◌<◌, ◌≤◌, ◌^◌, ℕ};
ghost use Rattle.vx_calls.specs.declared.codes.ErrorCode.{ErrorCode};
ghost use Rattle.vx_calls.specs.Reply as reply;
ghost use Rattle.vx_desks.specs.Replying.{success_record, renumbered, told_number};

use crate::routes::numbers::global;
use byteorder::{BigEndian, ByteOrder};
use vx_calls::LINK_LAST;

/// Where the number of the link stands in the record of a create_link's reply, behind its mark (4), the header of an accepted
/// reply (24) and the error (4).
const LINK_AT: usize = 32;

/// The number that a client is told of a link of a bus. What is no link's number is told as it is: 0, of a link that wasn't made.
fn told_number(bus: u8, lid: u32) -> u32
    requires { bus ≤ 3 }
    ensures { result ≡ told_number bus lid }
{
    if 1 <= lid && lid <= LINK_LAST {
        global(bus, lid)
    } else {
        lid
    }
}

/// Changes the number of the link, in the record of a create_link's reply of a bus, to the one over all buses.
pub fn renumber(bus: u8, bytes: &mut [u8])
    requires { bus ≤ 3 }
    ensures { bytes.new ≡ renumbered bus bytes.old }
{
    if bytes.len() < LINK_AT + 4 {
        return;
    }
    let link = &mut bytes[LINK_AT..LINK_AT + 4];
    let told = told_number(bus, BigEndian::read_u32(link));
    BigEndian::write_u32(link, told);
}

/// The record of a create_link's reply that is changed so is the record of the reply with that number.
pub fn renumbered_law()
    ensures { (bus xid lid port max : ℕ) (error : ErrorCode) → lid < 2 ^ 32
        → renumbered bus (success_record xid (reply.CreateLink error lid port max)) ≡ success_record xid (reply.CreateLink error (told_number bus lid) port max) }
{}
