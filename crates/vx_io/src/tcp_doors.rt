//! A door over the system's sockets: the trusted edge, as the other adapters of TCP.

ghost use Rattle.std.specs.Prelude.{◌≡◌, ◌≢◌, ◌<◌, ◌≤◌, ◌||◌, false, length, None};
ghost use Rattle.vx_io_traits.specs.Faults.{one_more};
ghost use Rattle.vx_io_traits.specs.Outs.{IfGot, IfTook, OnEnd, OnReadFailed, OnWriteFailed};
ghost use Rattle.vx_io_traits.specs.Rung.{OnDialFailed};
ghost use Rattle.vx_door.specs.Meeting.{is_met, met_after, OnMeetFailed};
ghost use Rattle.vx_io.specs.SocketState.{TellsNone, KeepsOwnCounts};

use super::accepting::accept_from;
use super::addresses::number_of;
use super::sockets::TcpLink;
use std::marker::Model;
use std::net::{Ipv4Addr, Net as Sockets, TcpListener, TcpStream};
use std::time::Duration;
use vx_door::{Door, Met, Peered};
use vx_io_traits::{DialOut, Link, ReadOut, WriteOut};

/// How long a receive or a send waits for the peer, in seconds; one that waits longer fails.
const PEER_SECONDS: u64 = 30;

/// A door over the system's sockets, on each of its IPv4 addresses. It never answers `Ended`.
#[derive(Drop)]
pub struct TcpDoor<R> {
    rt: R,
    own: Option<TcpListener>,
    // that of the present peer
    link: Option<TcpLink>,
    has_met: bool,
    // the address of the peer of that link
    address: u32,
    met: u64,
    faults: u64,
    receive_faults: u64,
    send_faults: u64,
}

impl<R> Model for TcpDoor<R> {
    ghost use Rattle.vx_io.specs.SocketState.{TcpDoorState};

    ghost Value = { TcpDoorState };

    ghost view = { λ s. record {
      is_at_peer = s.has_met;
      met = s.met;
      faults = s.faults;
      receive_faults = s.receive_faults;
      send_faults = s.send_faults;
    } };
}

impl<R: Sockets> TcpDoor<R> {
    /// A door over the runtime `rt`, which isn't open yet and has met no peer.
    pub fn new(rt: R) -> TcpDoor<R>
        ensures is_at_peer { result.is_at_peer ≡ false }
        ensures met { result.met ≡ 0 }
        ensures faults { result.faults ≡ 0 }
        ensures receive_faults { result.receive_faults ≡ 0 }
        ensures send_faults { result.send_faults ≡ 0 }
    {
        TcpDoor {
            rt,
            own: None,
            link: None,
            has_met: false,
            address: 0,
            met: 0,
            faults: 0,
            receive_faults: 0,
            send_faults: 0,
        }
    }
}

impl<R: Sockets<Stream = TcpStream>> Link for TcpDoor<R> {
    ghost stands = { TellsNone };

    ghost left = { λ _. None };

    ghost receive_faults = { λ s. s.receive_faults };

    ghost send_faults = { λ s. s.send_faults };

    ghost is_ready = { λ s. s.is_at_peer };

    ghost receives = { λ old _ _ _ new. KeepsOwnCounts old new };

    ghost sends = { λ old _ _ new. KeepsOwnCounts old new };

    /// One receive of the present peer's stream, as a `TcpLink` makes it; it fails where the peer sends nothing for 30 s, and
    /// before the first peer.
    fn receive(&mut self, into: &mut [u8]) -> ReadOut
        requires { 0 < length into.old }
        ensures counted { self.old.receive_faults ≤ self.new.receive_faults }
        ensures apart { self.new.send_faults ≡ self.old.send_faults }
        ensures own { KeepsOwnCounts self.old self.new }
        ensures is_at_peer { self.new.is_at_peer ≡ self.old.is_at_peer }
        ensures early { self.old.is_at_peer ≡ false → result ≡ ReadOut.Failed }
        ensures got { IfGot result (λ n. (0 < n) × (n ≤ length into.new) × (self.new ≡ self.old)) }
        ensures end { OnEnd result (self.new ≡ self.old) }
        ensures failed { OnReadFailed result (self.new.receive_faults ≡ one_more self.old.receive_faults) }
    {
        let given = match &mut self.link {
            Some(link) if self.has_met => link.receive(into),
            _ => ReadOut::Failed,
        };
        match given {
            ReadOut::Got(count) => ReadOut::Got(count),
            ReadOut::End => ReadOut::End,
            ReadOut::Failed => {
                self.receive_faults = self.receive_faults.saturating_add(1);
                ReadOut::Failed
            }
        }
    }

    /// One send to the present peer's stream, as a `TcpLink` makes it; it fails where the peer takes nothing for 30 s, and
    /// before the first peer.
    fn send(&mut self, from: &[u8]) -> WriteOut
        requires { 0 < length from.now }
        ensures counted { self.old.send_faults ≤ self.new.send_faults }
        ensures apart { self.new.receive_faults ≡ self.old.receive_faults }
        ensures own { KeepsOwnCounts self.old self.new }
        ensures is_at_peer { self.new.is_at_peer ≡ self.old.is_at_peer }
        ensures early { self.old.is_at_peer ≡ false → result ≡ WriteOut.Failed }
        ensures took { IfTook result (λ n. (0 < n) × (n ≤ length from.now) × (self.new ≡ self.old)) }
        ensures failed { OnWriteFailed result (self.new.send_faults ≡ one_more self.old.send_faults) }
    {
        let taken = match &mut self.link {
            Some(link) if self.has_met => link.send(from),
            _ => WriteOut::Failed,
        };
        match taken {
            WriteOut::Took(count) => WriteOut::Took(count),
            WriteOut::Failed => {
                self.send_faults = self.send_faults.saturating_add(1);
                WriteOut::Failed
            }
        }
    }
}

/// Has the receives and sends of a stream wait for 30 s at most, and tells whether the system does that.
fn is_timed(stream: &TcpStream) -> bool {
    let time = Some(Duration::from_secs(PEER_SECONDS));
    stream.set_read_timeout(time).is_ok() && stream.set_write_timeout(time).is_ok()
}

/// The link of the next connection to a port whose receives and sends wait for 30 s at most, and the address of its peer; or none where
/// the wait failed. A connection for which the system refuses such limits is closed.
fn accept_timed(listener: &TcpListener) -> Option<(TcpLink, u32)> {
    for _ in 0..u64::MAX {
        let (stream, address) = accept_from(listener, &None).ok()?;
        if is_timed(&stream) {
            return Some((TcpLink::waiting(stream), number_of(&address)));
        }
    }
    None
}

impl<R: Sockets<Listener = TcpListener, Stream = TcpStream>> Door for TcpDoor<R> {
    ghost met = { λ s. s.met };

    ghost ended = { λ _. 0 };

    ghost faults = { λ s. s.faults };

    /// Listens at this port of 0.0.0.0. A port that can't be had counts a fault, and a port that was open stays so.
    fn open(&mut self, port: u16) -> DialOut
        ensures counted { self.old.faults ≤ self.new.faults }
        ensures failed { OnDialFailed result (self.new.faults ≡ one_more self.old.faults) }
        ensures met { self.new.met ≡ self.old.met }
        ensures receives { self.new.receive_faults ≡ self.old.receive_faults }
        ensures sends { self.new.send_faults ≡ self.old.send_faults }
        ensures is_at_peer { self.new.is_at_peer ≡ self.old.is_at_peer }
    {
        match TcpListener::bind(&self.rt, (Ipv4Addr::UNSPECIFIED, port)) {
            Ok(listener) => {
                self.own = Some(listener);
                DialOut::Up
            }
            Err(_) => {
                self.faults = self.faults.saturating_add(1);
                DialOut::Failed
            }
        }
    }

    /// Closes the connection of the present peer, and waits for the next one to its port. A peer that hasn't closed its side is waited
    /// for up to a second first, as a [`TcpLink`] tells. A wait that finds its socket lost counts a fault, and so does one while no port
    /// is open; an error of one peer or of a moment is waited over.
    fn next(&mut self) -> Met
        ensures counted { self.old.faults ≤ self.new.faults }
        ensures goes_on { result ≢ Met.Ended }
        ensures failed { OnMeetFailed result (self.new.faults ≡ one_more self.old.faults) }
        ensures met { self.new.met ≡ met_after result self.old.met }
        ensures receives { self.new.receive_faults ≡ self.old.receive_faults }
        ensures sends { self.new.send_faults ≡ self.old.send_faults }
        ensures is_at_peer { self.new.is_at_peer ≡ (is_met result || self.old.is_at_peer) }
    {
        self.link = None;
        let link = match &self.own {
            Some(listener) => accept_timed(listener),
            None => None,
        };
        match link {
            Some((link, address)) => {
                self.link = Some(link);
                self.has_met = true;
                self.address = address;
                self.met = self.met.saturating_add(1);
                Met::Peer
            }
            None => {
                self.faults = self.faults.saturating_add(1);
                Met::Failed
            }
        }
    }

    ghost receive_keeps = { λ old new slice given answer same. same };

    ghost send_keeps = { λ old new bytes answer same. same };
}

impl<R: Sockets<Stream = TcpStream>> Peered for TcpDoor<R> {
    /// The address that the system told as it took the connection of the present peer.
    fn peer(&self) -> u32 {
        self.address
    }
}
