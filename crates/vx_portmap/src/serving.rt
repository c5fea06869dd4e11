//! The answers to packets.
ghost use Rattle.std.specs.Prelude.{◌≡◌, ◌≤◌, length};
ghost use Rattle.vx_portmap.specs.declared.limits.TheConstants.{MESSAGE_MAX};
ghost use Rattle.vx_portmap.specs.Packing.{MapAnswers, AnswersPacket, IsEarly, PacketsDid, PacketsCounted, box_shown};

use crate::answers::{MapAnswer, map_answer};
use crate::boxes::{Given, Packet, Packets};
use crate::limits::MESSAGE_MAX;
use crate::table::Ports;

/// How the work over packets ended.
#[derive(Clone, Copy, PartialEq, Eq)]
pub enum PacketEnd {
    /// As many packets were taken as were asked for.
    Served,
    /// No more packets come.
    Ended,
    /// A take failed.
    ReadFault,
    /// A give failed.
    WriteFault,
}

// Gives the reply to a packet that was taken, where it has one; says why the work ends, where it does.
fn answer_packet<P: Packets>(
    ports: &Ports,
    packets: &mut P,
    packet: &[u8],
    reply: &mut [u8],
) -> Option<PacketEnd>
    requires { MESSAGE_MAX ≤ length reply.old }
    ensures { AnswersPacket ports.now packet.now (box_shown P.packets_left P.packets_given P.packets_moved P.packets_ended P.take_faults P.give_faults packets.old) result
        (box_shown P.packets_left P.packets_given P.packets_moved P.packets_ended P.take_faults P.give_faults packets.new) }
{
    match map_answer(ports, packet, reply) {
        MapAnswer::Silent => None,
        MapAnswer::Reply(len) => match packets.give(&reply[..len]) {
            Given::Sent => None,
            Given::Failed => Some(PacketEnd::WriteFault),
        },
    }
}

// Takes the next packet and gives its reply; says why the work ends, where it does.
fn serve_packet<P: Packets>(
    ports: &Ports,
    packets: &mut P,
    packet: &mut [u8],
    reply: &mut [u8],
) -> Option<PacketEnd>
    requires packet { length packet.old ≡ MESSAGE_MAX }
    requires reply { MESSAGE_MAX ≤ length reply.old }
    ensures answers { MapAnswers ports.now 1 (box_shown P.packets_left P.packets_given P.packets_moved P.packets_ended P.take_faults P.give_faults packets.old) result
        (box_shown P.packets_left P.packets_given P.packets_moved P.packets_ended P.take_faults P.give_faults packets.new) }
    ensures early { IsEarly result }
{
    match packets.take(packet) {
        Packet::Failed => Some(PacketEnd::ReadFault),
        Packet::Ended => Some(PacketEnd::Ended),
        Packet::Got(len) => answer_packet(ports, packets, &packet[..len], reply),
    }
}

// Does what `map_packets` does, and counts the packets that were taken; the one whose reply couldn't be given isn't counted.
pub(crate) fn serve_packets<P: Packets>(
    ports: &Ports,
    packets: &mut P,
    limit: u32,
) -> (PacketEnd, u32)
    ensures { PacketsCounted ports.now limit (box_shown P.packets_left P.packets_given P.packets_moved P.packets_ended P.take_faults P.give_faults packets.old) result.0 result.1
        (box_shown P.packets_left P.packets_given P.packets_moved P.packets_ended P.take_faults P.give_faults packets.new) }
{
    let mut packet = [0u8; MESSAGE_MAX];
    let mut reply = [0u8; MESSAGE_MAX];
    let mut taken = 0;
    while taken < limit {
        if let Some(end) = serve_packet(ports, packets, &mut packet, &mut reply) {
            return (end, taken);
        }
        taken += 1;
    }
    (PacketEnd::Served, taken)
}

/// Takes packets, of each the first [`MESSAGE_MAX`] bytes, and gives their replies, each before it takes the next, until it
/// took `limit` of them, no more come, or a call fails. A packet without a reply counts, too.
pub fn map_packets<P: Packets>(ports: &Ports, packets: &mut P, limit: u32) -> PacketEnd
    ensures { PacketsDid ports.now limit (box_shown P.packets_left P.packets_given P.packets_moved P.packets_ended P.take_faults P.give_faults packets.old) result
        (box_shown P.packets_left P.packets_given P.packets_moved P.packets_ended P.take_faults P.give_faults packets.new) }
{
    serve_packets(ports, packets, limit).0
}
