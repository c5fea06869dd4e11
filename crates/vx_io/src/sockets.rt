//! TCP over the system's sockets as links, ports, a net and a reach: the trusted edge, a few lines each. No contract knows
//! the bytes of a real stream; each is seen as its counts.

ghost use Rattle.std.specs.Prelude.{◌≡◌, ◌<◌, ◌≤◌, ◌||◌, true, false, length, None, IfSome};
ghost use Rattle.vx_io_traits.specs.Faults.{one_more};
ghost use Rattle.vx_io_traits.specs.Outs.{IfGot, IfTook, OnEnd, OnReadFailed, OnWriteFailed};
ghost use Rattle.vx_io_traits.specs.Rung.{OnDialFailed, is_up};
ghost use Rattle.vx_io_traits.specs.Accepts.{OnAcceptFailed, OnBindFailed, GoesOn, given_after};
ghost use Rattle.vx_io.specs.SocketState.{TellsNone};
ghost use Rattle.vx_io.specs.Looking.{OnGot};

use super::accepting::accept_retrying;
use super::addresses::number_of;
use super::keeping::bear_with;
use super::parting::{OwnPartings, Partings, Parts, share};
use super::patience::{LOOKS, Patience};
use super::places::{Crowd, Place};
use super::standard::{read_retrying, write_retrying};
use super::timeouts::{ReachTimeouts, Timeouts};
use std::alloc::Global;
use std::hint::spin_loop;
use std::io::{ErrorKind, Read, Write};
use std::marker::Model;
use std::net::{Ipv4Addr, Net as Sockets, TcpListener, TcpStream, ToSocketAddrs};
use std::sync::Arc;
use std::time::Duration;
use vx_door::Peered;
use vx_io_traits::{Accepted, Bound, DialOut, Link, Listen, Net, Reach, ReadOut, WriteOut};

/// A link over a TCP stream of the system, which is closed where the link is dropped. Where it came of a door, or of a net that bears
/// with its peers, and its peer hasn't closed its side yet, the writing side alone is shut then. What comes is dropped for up to a
/// second, up to 16 MiB, so that the peer loses nothing of what was sent to it.
pub struct TcpLink {
    stream: TcpStream,
    patience: Patience,
    place: Option<Place>,
    parts: Parts,
    // whether the peer's side ended, or a call failed
    is_over: bool,
    receive_faults: u64,
    send_faults: u64,
}

impl Model for TcpLink {
    ghost use Rattle.vx_io.specs.SocketState.{TcpLinkState};

    ghost Value = { TcpLinkState };

    ghost view = { λ s. record { receive_faults = s.receive_faults; send_faults = s.send_faults } };
}

impl TcpLink {
    /// A link over `stream`, with no fault yet. It asks the system to send small pieces at once (`TCP_NODELAY`), and takes
    /// the stream as it is where that is refused.
    pub fn new(stream: TcpStream) -> TcpLink
        ensures receive_faults { result.receive_faults ≡ 0 }
        ensures send_faults { result.send_faults ≡ 0 }
    {
        TcpLink::placed(stream, None, Parts::AtOnce)
    }

    /// A link over `stream`, with no fault yet. Whoever drops it waits for its peer to part.
    pub(super) fn waiting(stream: TcpStream) -> TcpLink
        ensures receive_faults { result.receive_faults ≡ 0 }
        ensures send_faults { result.send_faults ≡ 0 }
    {
        TcpLink::placed(stream, None, Parts::Waiting)
    }

    /// A link over `stream`, in this place, which parts so from its peer.
    fn placed(stream: TcpStream, place: Option<Place>, parts: Parts) -> TcpLink
        ensures receive_faults { result.receive_faults ≡ 0 }
        ensures send_faults { result.send_faults ≡ 0 }
    {
        let _ = stream.set_nodelay(true);
        let _ = stream.set_nonblocking(true);
        TcpLink {
            stream,
            patience: Patience::NEW,
            place,
            parts,
            is_over: false,
            receive_faults: 0,
            send_faults: 0,
        }
    }
}

impl Drop for TcpLink {
    fn drop(self) {
        let TcpLink {
            stream,
            patience: _,
            place,
            parts,
            is_over,
            receive_faults: _,
            send_faults: _,
        } = self;
        drop(place);
        if !is_over {
            parts.part(stream);
        }
    }
}

/// What looks at a stream met that didn't sleep.
#[derive(Clone, Copy)]
enum Seen {
    /// A read gave so many bytes, 0 at the end.
    Got(usize),
    /// Nothing came.
    Nothing,
    /// A read failed. The system tells an error once, so a later read doesn't.
    Failed,
}

/// What a stream has, looking at most so often.
fn look(stream: &mut TcpStream, into: &mut [u8]) -> Seen
    ensures { OnGot result (λ n. n ≤ length into.new) }
{
    for _ in 0..LOOKS {
        match stream.read(into) {
            Ok(count) => return Seen::Got(count),
            Err(error) if error.kind() == ErrorKind::WouldBlock => spin_loop(),
            Err(error) if error.kind() == ErrorKind::Interrupted => {}
            Err(_) => return Seen::Failed,
        }
    }
    Seen::Nothing
}

/// How many bytes a read gave that slept for them, 0 at the end, or none where it failed, or its place was given up.
fn wait_for(stream: &mut TcpStream, place: &Option<Place>, into: &mut [u8]) -> Option<usize>
    ensures { IfSome result (λ n. n ≤ length into.new) }
{
    let _ = stream.set_nonblocking(false);
    let given = match place {
        Some(place) => place.wait_for(stream, into),
        None => read_retrying(stream, into),
    };
    let _ = stream.set_nonblocking(true);
    given
}

impl TcpLink {
    /// How many bytes one read gave, 0 at the end, or none where it failed.
    fn read(&mut self, into: &mut [u8]) -> Option<usize>
        ensures given { IfSome result (λ n. n ≤ length into.new) }
        ensures same { self.new ≡ self.old }
    {
        if let Some(place) = &mut self.place {
            place.taken();
        }
        if self.patience.looks() {
            match look(&mut self.stream, into) {
                Seen::Got(count) => {
                    self.patience.paid();
                    return Some(count);
                }
                Seen::Failed => return None,
                Seen::Nothing => self.patience.failed(),
            }
        }
        wait_for(&mut self.stream, &self.place, into)
    }
}

impl Link for TcpLink {
    ghost stands = { TellsNone };

    ghost left = { λ _. None };

    ghost receive_faults = { λ s. s.receive_faults };

    ghost send_faults = { λ s. s.send_faults };

    /// One read of the stream, straight into the slice; `End` is told where the peer closed its side. A read that errs
    /// counts a fault, and so does one that a signal interrupts each of 64 times.
    fn receive(&mut self, into: &mut [u8]) -> ReadOut
        requires { 0 < length into.old }
        ensures counted { self.old.receive_faults ≤ self.new.receive_faults }
        ensures apart { self.new.send_faults ≡ self.old.send_faults }
        ensures got { IfGot result (λ n. (0 < n) × (n ≤ length into.new) × (self.new ≡ self.old)) }
        ensures end { OnEnd result (self.new ≡ self.old) }
        ensures failed { OnReadFailed result (self.new.receive_faults ≡ one_more self.old.receive_faults) }
    {
        match self.read(into) {
            Some(0) => {
                self.is_over = true;
                ReadOut::End
            }
            Some(count) => ReadOut::Got(count),
            None => {
                self.is_over = true;
                self.receive_faults = self.receive_faults.saturating_add(1);
                ReadOut::Failed
            }
        }
    }

    /// One write of the stream. A write that errs or takes nothing counts a fault, and so does one that a signal
    /// interrupts each of 64 times.
    fn send(&mut self, from: &[u8]) -> WriteOut
        requires { 0 < length from.now }
        ensures counted { self.old.send_faults ≤ self.new.send_faults }
        ensures apart { self.new.receive_faults ≡ self.old.receive_faults }
        ensures took { IfTook result (λ n. (0 < n) × (n ≤ length from.now) × (self.new ≡ self.old)) }
        ensures failed { OnWriteFailed result (self.new.send_faults ≡ one_more self.old.send_faults) }
    {
        match write_now(&mut self.stream, from) {
            Some(count) if count > 0 => WriteOut::Took(count),
            _ => {
                self.is_over = true;
                self.send_faults = self.send_faults.saturating_add(1);
                WriteOut::Failed
            }
        }
    }
}

impl TcpLink {
    /// Where the stream's other end is, as the system tells it: its IPv4 address as a number, its first part in the high byte, and its
    /// port. Both are 0 where it tells none, and the address is 0 where it is of another kind.
    pub fn peer_place(&self) -> (u32, u16) {
        match self.stream.peer_addr() {
            Ok(address) => (number_of(&address), address.port()),
            Err(_) => (0, 0),
        }
    }
}

impl Peered for TcpLink {
    /// The address that the system tells of the stream's other end.
    fn peer(&self) -> u32 {
        let (host, _) = self.peer_place();
        host
    }
}

/// How many bytes a write took, or none where it failed. It sleeps where the system's buffer is full.
fn write_now(stream: &mut TcpStream, from: &[u8]) -> Option<usize>
    ensures { IfSome result (λ n. n ≤ length from.now) }
{
    match stream.write(from) {
        Ok(count) => return Some(count),
        Err(error) if error.kind() == ErrorKind::WouldBlock => {}
        Err(_) => return write_retrying(stream, from),
    }
    let _ = stream.set_nonblocking(false);
    let taken = write_retrying(stream, from);
    let _ = stream.set_nonblocking(true);
    taken
}

/// A port over a TCP listener of the system. It never answers `Ended`.
#[derive(Drop)]
pub struct TcpPort {
    listener: TcpListener,
    timeouts: Timeouts,
    crowd: Option<Arc<Crowd, Global>>,
    partings: Option<Arc<Partings, Global>>,
    faults: u64,
    lost: Option<i32>,
}

impl Model for TcpPort {
    ghost use Rattle.std.specs.Prelude.{ℕ};

    // How many waits failed.
    ghost Value = { ℕ };

    ghost view = { λ s. s.faults };
}

impl TcpPort {
    /// A port over `listener`, with no fault yet.
    pub fn new(listener: TcpListener) -> TcpPort
        ensures { result ≡ 0 }
    {
        TcpPort::crowded(listener, Timeouts::NONE, None, None)
    }

    /// A port over `listener`, with no fault yet, whose links bear with their peers for so long, are of this crowd, and part from their
    /// peers among these.
    fn crowded(
        listener: TcpListener,
        timeouts: Timeouts,
        crowd: Option<Arc<Crowd, Global>>,
        partings: Option<Arc<Partings, Global>>,
    ) -> TcpPort
        ensures { result ≡ 0 }
    {
        TcpPort {
            listener,
            timeouts,
            crowd,
            partings,
            faults: 0,
            lost: None,
        }
    }

    /// The link over a stream that it gave.
    fn link_of(&self, stream: TcpStream) -> TcpLink {
        let place = Place::among(&self.crowd, self.timeouts.abort_idle);
        let idle = if place.is_some() {
            self.timeouts.abort_idle
        } else {
            0
        };
        bear_with(&stream, &self.timeouts, idle);
        TcpLink::placed(stream, place, Parts::among(share(&self.partings)))
    }

    /// The system's number of the error for which the last wait failed, where it told one.
    pub fn lost(&self) -> Option<i32> {
        self.lost
    }
}

impl Listen for TcpPort {
    type Peer = TcpLink;

    ghost faults = { λ s. s };

    /// Waits for the next connection. A wait that finds its socket lost counts a fault; an error of one peer or of a moment is
    /// waited over.
    fn accept(&mut self) -> Accepted<TcpLink>
        ensures counted { self.old ≤ self.new }
        ensures goes_on { GoesOn result }
        ensures failed { OnAcceptFailed result (self.new ≡ one_more self.old) }
    {
        match accept_retrying(&self.listener, &self.partings) {
            Ok(stream) => Accepted::Peer(self.link_of(stream)),
            Err(number) => {
                self.lost = number;
                self.faults = self.faults.saturating_add(1);
                Accepted::Failed
            }
        }
    }
}

/// A net over the system's sockets, on each of its IPv4 addresses. It never answers `Ended`.
#[derive(Drop)]
pub struct TcpNet<R> {
    rt: R,
    timeouts: Timeouts,
    // that of its further ports
    crowd: Option<Arc<Crowd, Global>>,
    own: Option<TcpListener>,
    partings: OwnPartings,
    faults: u64,
    given: u64,
    lost: Option<i32>,
}

impl<R> Model for TcpNet<R> {
    ghost use Rattle.std.specs.Prelude.{is_some};
    ghost use Rattle.vx_io.specs.SocketState.{TcpNetState};

    ghost Value = { TcpNetState };

    ghost view = { λ s. record { is_open = is_some s.own; faults = s.faults; given = s.given } };
}

impl<R: Sockets> TcpNet<R> {
    /// A net over the runtime `rt`, of which no port is open yet.
    pub fn new(rt: R) -> TcpNet<R>
        ensures is_open { result.is_open ≡ false }
        ensures faults { result.faults ≡ 0 }
        ensures given { result.given ≡ 0 }
    {
        TcpNet::crowded(rt, Timeouts::NONE, None, OwnPartings::NONE)
    }

    /// A net over the runtime `rt`, of which no port is open yet, whose further ports' links are of this crowd, and whose links part from
    /// their peers among these.
    fn crowded(
        rt: R,
        timeouts: Timeouts,
        crowd: Option<Arc<Crowd, Global>>,
        partings: OwnPartings,
    ) -> TcpNet<R>
        ensures is_open { result.is_open ≡ false }
        ensures faults { result.faults ≡ 0 }
        ensures given { result.given ≡ 0 }
    {
        TcpNet {
            rt,
            timeouts,
            crowd,
            own: None,
            partings,
            faults: 0,
            given: 0,
            lost: None,
        }
    }

    /// A further port of it.
    fn port_of(&self, listener: TcpListener) -> TcpPort {
        let crowd = match &self.crowd {
            Some(crowd) => Arc::try_clone(crowd).ok(),
            None => None,
        };
        TcpPort::crowded(listener, self.timeouts, crowd, self.partings.share())
    }

    /// The system's number of the error for which the last wait at its own port failed, where it told one.
    pub fn lost(&self) -> Option<i32> {
        self.lost
    }
}

impl<R: Sockets + AllocGlobal> TcpNet<R> {
    /// A net over the runtime `rt`, of which no port is open yet, and whose links bear with their peers for so long. Where there is
    /// no memory for what the links of its further ports share, `abort_idle` isn't in force. Where there is none for the places of those
    /// who are parting, each link is closed where it is dropped.
    pub fn with_timeouts(rt: R, timeouts: Timeouts) -> TcpNet<R>
        ensures is_open { result.is_open ≡ false }
        ensures faults { result.faults ≡ 0 }
        ensures given { result.given ≡ 0 }
    {
        let mut timeouts = timeouts;
        let crowd = crowd_of(rt.alloc(), timeouts.abort_idle);
        if crowd.is_none() {
            timeouts.abort_idle = 0;
        }
        let partings = OwnPartings::new(rt.alloc());
        TcpNet::crowded(rt, timeouts, crowd, partings)
    }
}

/// A crowd of links that are idle for so long at most; none where that is without end, or there is no memory for it.
fn crowd_of(alloc: Global, idle: u32) -> Option<Arc<Crowd, Global>> {
    if idle == 0 {
        return None;
    }
    Arc::new(alloc, Crowd::new()).ok()
}

impl<R: Sockets<Listener = TcpListener, Stream = TcpStream>> Net for TcpNet<R> {
    type Port = TcpPort;

    ghost is_open = { λ s. s.is_open };

    ghost faults = { λ s. s.faults };

    ghost given = { λ s. s.given };

    ghost ended = { λ _. 0 };

    /// Listens at this port of 0.0.0.0. A port that can't be had counts a fault.
    fn open(&mut self, port: u16) -> DialOut
        ensures counted { self.old.faults ≤ self.new.faults }
        ensures opened { self.new.is_open ≡ (is_up result || self.old.is_open) }
        ensures given { self.new.given ≡ self.old.given }
        ensures failed { OnDialFailed result (self.new.faults ≡ one_more self.old.faults) }
    {
        match TcpListener::bind(&self.rt, (Ipv4Addr::UNSPECIFIED, port)) {
            Ok(listener) => {
                self.own = Some(listener);
                DialOut::Up
            }
            Err(_) => {
                self.faults = self.faults.saturating_add(1);
                DialOut::Failed
            }
        }
    }

    /// Waits for the next connection to its own port. A wait that finds its socket lost counts a fault; an error of one peer or of
    /// a moment is waited over. So would the wait after 2^64 - 1 connections, which could not be counted.
    fn accept(&mut self) -> Accepted<TcpLink>
        requires { self.old.is_open ≡ true }
        ensures counted { self.old.faults ≤ self.new.faults }
        ensures opened { self.new.is_open ≡ true }
        ensures given { self.new.given ≡ given_after result self.old.given }
        ensures goes_on { GoesOn result }
        ensures failed { OnAcceptFailed result (self.new.faults ≡ one_more self.old.faults) }
    {
        let stream = match &self.own {
            Some(listener) if self.given < u64::MAX => {
                accept_retrying(listener, self.partings.shared())
            }
            _ => Err(None),
        };
        match stream {
            Ok(stream) => {
                self.given += 1;
                bear_with(&stream, &self.timeouts, self.timeouts.idle);
                let parts = Parts::among(self.partings.share());
                Accepted::Peer(TcpLink::placed(stream, None, parts))
            }
            Err(number) => {
                self.lost = number;
                self.faults = self.faults.saturating_add(1);
                Accepted::Failed
            }
        }
    }

    /// Listens at this port of 0.0.0.0 as well. A port that can't be had counts a fault.
    fn bind(&mut self, port: u16) -> Bound<TcpPort>
        ensures counted { self.old.faults ≤ self.new.faults }
        ensures opened { self.new.is_open ≡ self.old.is_open }
        ensures given { self.new.given ≡ self.old.given }
        ensures failed { OnBindFailed result (self.new.faults ≡ one_more self.old.faults) }
    {
        match TcpListener::bind(&self.rt, (Ipv4Addr::UNSPECIFIED, port)) {
            Ok(listener) => Bound::Port(self.port_of(listener)),
            Err(_) => {
                self.faults = self.faults.saturating_add(1);
                Bound::Failed
            }
        }
    }
}

/// A reach over the system's sockets.
#[derive(Drop)]
pub struct TcpReach<R> {
    rt: R,
    timeouts: Option<ReachTimeouts>,
    stream: Option<TcpStream>,
    receive_faults: u64,
    send_faults: u64,
    refused: u64,
}

impl<R> Model for TcpReach<R> {
    ghost use Rattle.std.specs.Prelude.{is_some};
    ghost use Rattle.vx_io.specs.SocketState.{TcpReachState};

    ghost Value = { TcpReachState };

    ghost view = { λ s. record {
      is_up = is_some s.stream;
      receive_faults = s.receive_faults;
      send_faults = s.send_faults;
      refused = s.refused;
    } };
}

/// How many addresses of a host a reach with timeouts tries.
const ADDRESSES: usize = 4;

/// So many milliseconds.
fn millis(number: u32) -> Duration {
    Duration::from_millis(u64::from(number))
}

/// A stream to the first address of a host that answers in time, whose receives and sends end in time.
fn connect_within<R: Sockets<Stream = TcpStream>>(
    rt: &R,
    host: &str,
    port: u16,
    timeouts: ReachTimeouts,
) -> Option<TcpStream> {
    let addresses = (host, port).to_socket_addrs(rt).ok()?;
    for address in addresses.take(ADDRESSES) {
        if let Ok(stream) = TcpStream::connect_timeout(rt, &address, millis(timeouts.connect)) {
            stream
                .set_read_timeout(Some(millis(timeouts.receive)))
                .ok()?;
            stream.set_write_timeout(Some(millis(timeouts.send))).ok()?;
            return Some(stream);
        }
    }
    None
}

impl<R: Sockets> TcpReach<R> {
    /// A reach over the runtime `rt`, which has reached nothing yet. It bears with a server for as long as the system does.
    pub fn new(rt: R) -> TcpReach<R>
        ensures is_up { result.is_up ≡ false }
        ensures receive_faults { result.receive_faults ≡ 0 }
        ensures send_faults { result.send_faults ≡ 0 }
        ensures refused { result.refused ≡ 0 }
    {
        TcpReach::bearing(rt, None)
    }

    /// One that bears with its server for so long.
    pub fn with_timeouts(rt: R, timeouts: ReachTimeouts) -> TcpReach<R>
        ensures is_up { result.is_up ≡ false }
        ensures receive_faults { result.receive_faults ≡ 0 }
        ensures send_faults { result.send_faults ≡ 0 }
        ensures refused { result.refused ≡ 0 }
    {
        TcpReach::bearing(rt, Some(timeouts))
    }

    /// One with these timeouts, or with those of the system.
    fn bearing(rt: R, timeouts: Option<ReachTimeouts>) -> TcpReach<R>
        ensures is_up { result.is_up ≡ false }
        ensures receive_faults { result.receive_faults ≡ 0 }
        ensures send_faults { result.send_faults ≡ 0 }
        ensures refused { result.refused ≡ 0 }
    {
        TcpReach {
            rt,
            timeouts,
            stream: None,
            receive_faults: 0,
            send_faults: 0,
            refused: 0,
        }
    }
}

impl<R: Sockets<Stream = TcpStream>> Link for TcpReach<R> {
    ghost stands = { TellsNone };

    ghost left = { λ _. None };

    ghost receive_faults = { λ s. s.receive_faults };

    ghost send_faults = { λ s. s.send_faults };

    ghost is_ready = { λ s. s.is_up };

    /// One read of the stream, as a `TcpLink` makes it. It fails before the first reach with `Up`.
    fn receive(&mut self, into: &mut [u8]) -> ReadOut
        requires { 0 < length into.old }
        ensures counted { self.old.receive_faults ≤ self.new.receive_faults }
        ensures apart { self.new.send_faults ≡ self.old.send_faults }
        ensures refused { self.new.refused ≡ self.old.refused }
        ensures is_up { self.new.is_up ≡ self.old.is_up }
        ensures early { self.old.is_up ≡ false → result ≡ ReadOut.Failed }
        ensures got { IfGot result (λ n. (0 < n) × (n ≤ length into.new) × (self.new ≡ self.old)) }
        ensures end { OnEnd result (self.new ≡ self.old) }
        ensures failed { OnReadFailed result (self.new.receive_faults ≡ one_more self.old.receive_faults) }
    {
        let given = match &mut self.stream {
            Some(stream) => read_retrying(stream, into),
            None => None,
        };
        match given {
            Some(0) => ReadOut::End,
            Some(count) => ReadOut::Got(count),
            None => {
                self.receive_faults = self.receive_faults.saturating_add(1);
                ReadOut::Failed
            }
        }
    }

    /// One write of the stream, as a `TcpLink` makes it. It fails before the first reach with `Up`.
    fn send(&mut self, from: &[u8]) -> WriteOut
        requires { 0 < length from.now }
        ensures counted { self.old.send_faults ≤ self.new.send_faults }
        ensures apart { self.new.receive_faults ≡ self.old.receive_faults }
        ensures refused { self.new.refused ≡ self.old.refused }
        ensures is_up { self.new.is_up ≡ self.old.is_up }
        ensures early { self.old.is_up ≡ false → result ≡ WriteOut.Failed }
        ensures took { IfTook result (λ n. (0 < n) × (n ≤ length from.now) × (self.new ≡ self.old)) }
        ensures failed { OnWriteFailed result (self.new.send_faults ≡ one_more self.old.send_faults) }
    {
        let taken = match &mut self.stream {
            Some(stream) => write_retrying(stream, from),
            None => None,
        };
        match taken {
            Some(count) if count > 0 => WriteOut::Took(count),
            _ => {
                self.send_faults = self.send_faults.saturating_add(1);
                WriteOut::Failed
            }
        }
    }
}

impl<R: Sockets<Stream = TcpStream>> Reach for TcpReach<R> {
    ghost refused = { λ s. s.refused };

    /// Connects to a port of a host: an IPv4 address such as `192.0.2.7`, an IPv6 address, or a name that the system's
    /// resolver knows, of which up to 32 addresses are tried in turn, or up to 4 where the reach has timeouts. Where none answers, a
    /// fault is counted, and a stream that stood stays.
    fn reach(&mut self, host: &str, port: u16) -> DialOut
        ensures counted { self.old.refused ≤ self.new.refused }
        ensures is_up { self.new.is_up ≡ (is_up result || self.old.is_up) }
        ensures failed { OnDialFailed result (self.new.refused ≡ one_more self.old.refused) }
        ensures receives { self.new.receive_faults ≡ self.old.receive_faults }
        ensures sends { self.new.send_faults ≡ self.old.send_faults }
    {
        let connected = match self.timeouts {
            None => TcpStream::connect(&self.rt, (host, port)).ok(),
            Some(timeouts) => connect_within(&self.rt, host, port, timeouts),
        };
        match connected {
            Some(stream) => {
                let _ = stream.set_nodelay(true);
                self.stream = Some(stream);
                DialOut::Up
            }
            None => {
                self.refused = self.refused.saturating_add(1);
                DialOut::Failed
            }
        }
    }
}
