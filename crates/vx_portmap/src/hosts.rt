//! A net that is a door for streams and a box for packets, each apart from the other.

use crate::boxes::{Given, Packet, PacketBox, Packets};
use crate::nets::MapNet;
use std::marker::Model;
use vx_door::{Door, Met};
use vx_io_traits::{DialOut, Link, ReadOut, WriteOut};

/// A door, and a box of packets. What a net does of either it hands on, and it is seen as what that is.
#[derive(Drop)]
pub struct MapHost<D, B> {
    door: D,
    packets: B,
}

impl<D, B> Model for MapHost<D, B> {
    ghost use Rattle.vx_portmap.specs.Host.{HostState};

    ghost Value = { HostState D B };

    ghost view = { λ h. record { door = h.door; packets = h.packets } };
}

impl<D, B> MapHost<D, B> {
    ghost use Rattle.std.specs.Prelude.{◌≡◌};

    /// A net of this door and this box.
    pub fn new(door: D, packets: B) -> MapHost<D, B>
        ensures door { result.door ≡ door }
        ensures packets { result.packets ≡ packets }
    {
        MapHost { door, packets }
    }

    /// Its door, and its box.
    pub fn parts(&self) -> (&D, &B)
        ensures door { result.0.now ≡ self.now.door }
        ensures packets { result.1.now ≡ self.now.packets }
    {
        (&self.door, &self.packets)
    }
}

impl<D: Link, B> Link for MapHost<D, B> {
    ghost stands = { λ h. D.stands h.door };

    ghost left = { λ h. D.left h.door };

    ghost receive_faults = { λ h. D.receive_faults h.door };

    ghost send_faults = { λ h. D.send_faults h.door };

    ghost peers = { λ h. D.peers h.door };

    ghost is_ready = { λ h. D.is_ready h.door };

    ghost receives = { λ old slice answer received new. D.receives old.door slice answer received new.door };

    ghost sends = { λ old bytes answer new. D.sends old.door bytes answer new.door };

    fn receive(&mut self, into: &mut [u8]) -> ReadOut {
        self.door.receive(into)
    }

    fn send(&mut self, from: &[u8]) -> WriteOut {
        self.door.send(from)
    }
}

impl<D: Door, B> Door for MapHost<D, B> {
    ghost use Rattle.std.specs.Prelude.{◌≡◌};

    ghost met = { λ h. D.met h.door };

    ghost ended = { λ h. D.ended h.door };

    ghost faults = { λ h. D.faults h.door };

    ghost tells = { D.tells };

    // the box stays as it is
    ghost opens = { λ old port answer new. D.opens old.door port answer new.door × (new.packets ≡ old.packets) };

    ghost meets = { λ old answer new. D.meets old.door answer new.door };

    fn open(&mut self, port: u16) -> DialOut {
        self.door.open(port)
    }

    fn next(&mut self) -> Met {
        self.door.next()
    }

    ghost receive_keeps = { λ old new slice given answer call. D.receive_keeps old.door new.door slice given answer call };

    ghost send_keeps = { λ old new bytes answer call. D.send_keeps old.door new.door bytes answer call };
}

impl<D, B: Packets> Packets for MapHost<D, B> {
    ghost packets_left = { λ h. B.packets_left h.packets };

    ghost packets_given = { λ h. B.packets_given h.packets };

    ghost packets_moved = { λ h. B.packets_moved h.packets };

    ghost packets_ended = { λ h. B.packets_ended h.packets };

    ghost take_faults = { λ h. B.take_faults h.packets };

    ghost give_faults = { λ h. B.give_faults h.packets };

    fn take(&mut self, into: &mut [u8]) -> Packet {
        self.packets.take(into)
    }

    fn give(&mut self, from: &[u8]) -> Given {
        self.packets.give(from)
    }
}

impl<D: Door, B: PacketBox> MapNet for MapHost<D, B> {
    ghost use Rattle.std.specs.Prelude.{◌≡◌};

    ghost box_faults = { λ h. B.open_faults h.packets };

    // the door stays as it is
    ghost opens_box = { λ old port answer new. B.opens old.packets port answer new.packets × (new.door ≡ old.door) };

    fn packets(&mut self, port: u16) -> DialOut {
        self.packets.open(port)
    }
}
