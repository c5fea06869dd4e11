//! A box of packets over memory.

ghost use Rattle.std.specs.Prelude.{◌≡◌, ◌≤◌, length, IfSome};

use crate::word_tools::spelled;
use std::alloc::{AllocError, Global};
use vx_io_traits::DialOut;
use vx_portmap::{Given, Packet, PacketBox, Packets};

/// What goes through a box: whether it is given to it, or taken from it, and the packet, as words.
pub(crate) type Move<'a> = (bool, &'a [u32]);

/// A packet that was given, or one that was taken, as it was read.
#[derive(Drop)]
struct MemMoved {
    is_given: bool,
    packet: Vec<u8>,
}

/// Packets that are handed out in order, and all that went through, both ways. It keeps the port that it was opened at last. The calls
/// whose numbers, counted from 1 over openings, takes and gives together, stand in `fails` fail, and so does a take and a give for which
/// there is no memory.
#[derive(Drop)]
pub(crate) struct MemPackets {
    alloc: Global,
    packets: Vec<Vec<u8>>,
    at: usize,
    moved: Vec<MemMoved>,
    port: Option<u16>,
    fails: Vec<u64>,
    calls: u64,
    ended: u64,
    take_faults: u64,
    give_faults: u64,
    open_faults: u64,
}

/// Copies the front of a packet, and answers how many bytes there was room for.
fn copy_front(packet: &[u8], into: &mut [u8]) -> usize
    ensures { result ≤ length into.old }
{
    let len = packet.len().min(into.len());
    into[..len].copy_from_slice(&packet[..len]);
    len
}

impl MemPackets {
    pub(crate) fn new(alloc: Global, packets: Vec<Vec<u8>>, fails: Vec<u64>) -> MemPackets {
        MemPackets {
            alloc,
            packets,
            at: 0,
            moved: Vec::new(alloc),
            port: None,
            fails,
            calls: 0,
            ended: 0,
            take_faults: 0,
            give_faults: 0,
            open_faults: 0,
        }
    }

    /// Whether this went through it and nothing else, in this order.
    pub(crate) fn moved_so(&self, alloc: Global, wanted: &[Move<'_>]) -> Result<bool, AllocError> {
        let mut same = self.moved.len() == wanted.len();
        for (moved, (is_given, words)) in self.moved.iter().zip(wanted.iter()) {
            let packet = spelled(alloc, words)?;
            same = same && moved.is_given == *is_given && moved.packet == packet;
        }
        Ok(same)
    }

    /// The first packet that it was given, or nothing.
    pub(crate) fn first_given(&self) -> &[u8] {
        for moved in &self.moved {
            if moved.is_given {
                return moved.packet.as_slice();
            }
        }
        &[]
    }

    /// The port that it was opened at last, or none.
    pub(crate) fn port(&self) -> Option<u16> {
        self.port
    }

    /// How often it told that no more packets come.
    pub(crate) fn ended(&self) -> u64 {
        self.ended
    }

    /// Counts a call, and answers whether it is one that fails.
    fn fails_now(&mut self) -> bool
        ensures ended { self.new.ended ≡ self.old.ended }
        ensures take_faults { self.new.take_faults ≡ self.old.take_faults }
        ensures give_faults { self.new.give_faults ≡ self.old.give_faults }
        ensures open_faults { self.new.open_faults ≡ self.old.open_faults }
    {
        self.calls = self.calls.saturating_add(1);
        self.fails.contains(&self.calls)
    }

    /// Keeps a packet that was given or taken, where there is memory for it.
    fn keep(&mut self, is_given: bool, packet: &[u8]) -> bool
        ensures ended { self.new.ended ≡ self.old.ended }
        ensures take_faults { self.new.take_faults ≡ self.old.take_faults }
        ensures give_faults { self.new.give_faults ≡ self.old.give_faults }
    {
        match packet.to_vec(self.alloc) {
            Ok(packet) => self.moved.push(MemMoved { is_given, packet }).is_ok(),
            Err(_) => false,
        }
    }

    /// Takes the next packet into the front of a slice: how many of its bytes, where there is one.
    fn next(&mut self, into: &mut [u8]) -> Option<usize>
        ensures within { IfSome result (λ n. n ≤ length into.old) }
        ensures ended { self.new.ended ≡ self.old.ended }
        ensures take_faults { self.new.take_faults ≡ self.old.take_faults }
        ensures give_faults { self.new.give_faults ≡ self.old.give_faults }
    {
        let len = copy_front(self.packets.get(self.at)?, into);
        self.at = self.at.saturating_add(1);
        Some(len)
    }
}

/// It tells of no packet what it is, so its calls say nothing of that.
impl Packets for MemPackets {
    ghost packets_ended = { λ b. b.ended };

    ghost take_faults = { λ b. b.take_faults };

    ghost give_faults = { λ b. b.give_faults };

    fn take(&mut self, into: &mut [u8]) -> Packet {
        if self.fails_now() {
            self.take_faults = self.take_faults.saturating_add(1);
            return Packet::Failed;
        }
        let Some(len) = self.next(into) else {
            self.ended = self.ended.saturating_add(1);
            return Packet::Ended;
        };
        if !self.keep(false, &into[..len]) {
            self.take_faults = self.take_faults.saturating_add(1);
            return Packet::Failed;
        }
        Packet::Got(len)
    }

    fn give(&mut self, from: &[u8]) -> Given {
        if !self.fails_now() && self.keep(true, from) {
            return Given::Sent;
        }
        self.give_faults = self.give_faults.saturating_add(1);
        Given::Failed
    }
}

impl PacketBox for MemPackets {
    ghost open_faults = { λ b. b.open_faults };

    fn open(&mut self, port: u16) -> DialOut {
        if self.fails_now() {
            self.open_faults = self.open_faults.saturating_add(1);
            return DialOut::Failed;
        }
        self.port = Some(port);
        DialOut::Up
    }
}
