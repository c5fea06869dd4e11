//! Packets over UDP: the trusted edge, a few lines. No contract knows the bytes of a real packet; the box is seen as its counts.
ghost use Rattle.std.specs.Prelude.{◌≡◌, ◌≢◌, ◌<◌, ◌≤◌, length, IfSome};
ghost use Rattle.vx_io_traits.specs.Faults.{one_more};
ghost use Rattle.vx_io_traits.specs.Rung.{OnDialFailed};
ghost use Rattle.vx_portmap.specs.Boxes.{IfPacket, OnTakeFailed, OnGiveFailed};
ghost use Rattle.vx_portmap.specs.declared.boxes.Packet.TheVariants.{Ended};

use std::io::ErrorKind;
use std::marker::Model;
use std::net::{Ipv4Addr, Net as Sockets, SocketAddr, UdpSocket};
use vx_io_traits::DialOut;
use vx_portmap::{Given, Packet, PacketBox, Packets};

/// How often a call that a signal interrupts is made anew.
const TRIES: u32 = 64;

// errors of a socket that is lost
const EBADF: i32 = 9;

const EPIPE: i32 = 32;

const ENOTSOCK: i32 = 88;

/// A box of packets over a UDP socket of the system. It never tells that no more packets come.
#[derive(Drop)]
pub struct UdpBox<R> {
    rt: R,
    socket: Option<UdpSocket>,
    last: Option<SocketAddr>,
    take_faults: u64,
    give_faults: u64,
    open_faults: u64,
}

impl<R> Model for UdpBox<R> {
    ghost use Rattle.vx_udp.specs.UdpState.{UdpBoxState};

    ghost Value = { UdpBoxState };

    ghost view = { λ b. record { take_faults = b.take_faults; give_faults = b.give_faults; open_faults = b.open_faults } };
}

impl<R> UdpBox<R> {
    /// A box over the runtime `rt`, which isn't open yet.
    pub fn new(rt: R) -> UdpBox<R>
        ensures take_faults { result.take_faults ≡ 0 }
        ensures give_faults { result.give_faults ≡ 0 }
        ensures open_faults { result.open_faults ≡ 0 }
    {
        UdpBox {
            rt,
            socket: None,
            last: None,
            take_faults: 0,
            give_faults: 0,
            open_faults: 0,
        }
    }
}

/// How many bytes of the next packet were read, and where it came from, or none where that failed.
fn take_retrying(socket: &UdpSocket, into: &mut [u8]) -> Option<(usize, SocketAddr)>
    ensures within { IfSome result (λ r. r.0 ≤ length into.old) }
{
    for _ in 0..TRIES {
        match socket.recv_from(into) {
            Ok((len, from)) => return Some((len, from)),
            Err(error) if error.kind() == ErrorKind::Interrupted => {}
            Err(_) => return None,
        }
    }
    None
}

/// Whether the socket is lost, where the system refused to send for this error. Any other is of the one packet: nobody can be reached at
/// its address, as at port 0, a rule of this host's forbids it, or the system has no room for it.
fn is_lost(number: Option<i32>) -> bool {
    matches!(number, Some(EBADF | EPIPE | ENOTSOCK))
}

/// Sends a packet, and tells whether it went, be it to the peer or to nobody: a packet may be lost on its way, and this one is lost at
/// its first step where the system refuses to send it.
fn send_once(socket: &UdpSocket, from: &[u8], peer: SocketAddr) -> bool {
    match socket.send_to(from, peer) {
        Ok(count) => count == from.len(),
        Err(error) => !is_lost(error.raw_os_error()),
    }
}

impl<R> Packets for UdpBox<R> {
    ghost packets_ended = { λ _. 0 };

    ghost take_faults = { λ b. b.take_faults };

    ghost give_faults = { λ b. b.give_faults };

    /// Reads the next packet. A read that errs counts a fault, and so does one while no port is open.
    fn take(&mut self, into: &mut [u8]) -> Packet
        requires { 0 < length into.old }
        ensures counted { self.old.take_faults ≤ self.new.take_faults }
        ensures apart { self.new.give_faults ≡ self.old.give_faults }
        ensures goes_on { result ≢ Ended }
        ensures got { IfPacket result (λ n. n ≤ length into.old) }
        ensures failed { OnTakeFailed result (self.new.take_faults ≡ one_more self.old.take_faults) }
    {
        let taken = match &self.socket {
            Some(socket) => take_retrying(socket, into),
            None => None,
        };
        match taken {
            Some((len, from)) => {
                self.last = Some(from);
                Packet::Got(len)
            }
            None => {
                self.take_faults = self.take_faults.saturating_add(1);
                Packet::Failed
            }
        }
    }

    /// Sends a packet to where the last one came from. One that the system can't send there, as to port 0 or to an address that is everybody's,
    /// is lost, as any packet may be on its way: it went. A send that finds its socket lost or cuts the packet counts a fault, and so
    /// does one before the first packet.
    fn give(&mut self, from: &[u8]) -> Given
        ensures counted { self.old.give_faults ≤ self.new.give_faults }
        ensures apart { self.new.take_faults ≡ self.old.take_faults }
        ensures failed { OnGiveFailed result (self.new.give_faults ≡ one_more self.old.give_faults) }
    {
        let went = match (&self.socket, &self.last) {
            (Some(socket), Some(peer)) => send_once(socket, from, *peer),
            _ => false,
        };
        if went {
            return Given::Sent;
        }
        self.give_faults = self.give_faults.saturating_add(1);
        Given::Failed
    }
}

impl<R: Sockets> PacketBox for UdpBox<R> {
    ghost open_faults = { λ b. b.open_faults };

    /// Opens this port of 0.0.0.0. A port that can't be had counts a fault, and one that was open stays so.
    fn open(&mut self, port: u16) -> DialOut
        ensures counted { self.old.open_faults ≤ self.new.open_faults }
        ensures failed { OnDialFailed result (self.new.open_faults ≡ one_more self.old.open_faults) }
        ensures takes { self.new.take_faults ≡ self.old.take_faults }
        ensures gives { self.new.give_faults ≡ self.old.give_faults }
    {
        match UdpSocket::bind(&self.rt, (Ipv4Addr::UNSPECIFIED, port)) {
            Ok(socket) => {
                self.socket = Some(socket);
                DialOut::Up
            }
            Err(_) => {
                self.open_faults = self.open_faults.saturating_add(1);
                DialOut::Failed
            }
        }
    }
}
