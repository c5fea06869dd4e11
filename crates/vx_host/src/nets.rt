//! A net over TCP whose links know where their peers are, and whose lost sockets are told on standard error.
ghost use Rattle.std.specs.Prelude.{◌≡◌, ◌<◌, ◌≤◌, false, length, None};
ghost use Rattle.vx_io.specs.Faults.{one_more};
ghost use Rattle.vx_io.specs.Outs.{IfGot, IfTook, OnEnd, OnReadFailed, OnWriteFailed};
ghost use Rattle.vx_io.specs.SocketState.{TellsNone};

use std::io::{Eprint, Error};
use std::marker::Model;
use std::net::{Net as Sockets, TcpListener, TcpStream};
use vx_io::{
    Accepted, Bound, DialOut, Link, Listen, Net, ReadOut, TcpLink, TcpNet, TcpPort, Timeouts,
    WriteOut,
};
use vx_startup::{Place, Placed};

/// A link over TCP ([`TcpLink`]), and where its peer was as it came.
#[derive(Drop)]
pub struct HostLink {
    link: TcpLink,
    place: Place,
}

impl Model for HostLink {
    ghost use Rattle.vx_io.specs.SocketState.{TcpLinkState};

    ghost Value = { TcpLinkState };

    ghost view = { λ s. s.link };
}

impl HostLink {
    /// A link that came just now.
    fn new(link: TcpLink) -> HostLink
        ensures { result ≡ link }
    {
        let (host, port) = link.peer_place();
        HostLink {
            link,
            place: Place { host, port },
        }
    }
}

impl Placed for HostLink {
    fn place(&self) -> Place {
        self.place
    }
}

impl Link for HostLink {
    ghost stands = { TellsNone };

    ghost left = { λ _. None };

    ghost receive_faults = { λ s. s.receive_faults };

    ghost send_faults = { λ s. s.send_faults };

    fn receive(&mut self, into: &mut [u8]) -> ReadOut
        requires { 0 < length into.old }
        ensures counted { self.old.receive_faults ≤ self.new.receive_faults }
        ensures apart { self.new.send_faults ≡ self.old.send_faults }
        ensures got { IfGot result (λ n. (0 < n) × (n ≤ length into.new) × (self.new ≡ self.old)) }
        ensures end { OnEnd result (self.new ≡ self.old) }
        ensures failed { OnReadFailed result (self.new.receive_faults ≡ one_more self.old.receive_faults) }
    {
        self.link.receive(into)
    }

    fn send(&mut self, from: &[u8]) -> WriteOut
        requires { 0 < length from.now }
        ensures counted { self.old.send_faults ≤ self.new.send_faults }
        ensures apart { self.new.receive_faults ≡ self.old.receive_faults }
        ensures took { IfTook result (λ n. (0 < n) × (n ≤ length from.now) × (self.new ≡ self.old)) }
        ensures failed { OnWriteFailed result (self.new.send_faults ≡ one_more self.old.send_faults) }
    {
        self.link.send(from)
    }
}

/// Tells that no connection can be taken at a port any more, and the system's error, where there is one.
fn tell_lost<R: Eprint>(rt: &R, what: &str, number: Option<i32>) {
    let _ = match number {
        Some(number) => eprintln!(rt; "vxgate: {what}: {}", Error::from_raw_os_error(number)),
        None => eprintln!(rt; "vxgate: {what}"),
    };
}

/// A net over TCP ([`TcpNet`]). Where a wait at one of its ports fails it tells so on standard error, with the cause.
#[derive(Drop)]
pub struct HostNet<R> {
    rt: R,
    net: TcpNet<R>,
}

impl<R> Model for HostNet<R> {
    ghost use Rattle.vx_io.specs.SocketState.{TcpNetState};

    ghost Value = { TcpNetState };

    ghost view = { λ s. s.net };
}

impl<R: Sockets + AllocGlobal + Copy> HostNet<R> {
    /// A net over the runtime `rt`, of which no port is open yet, and whose links and ports bear with their peers for so long.
    pub fn new(rt: R, timeouts: Timeouts) -> HostNet<R>
        ensures is_open { result.is_open ≡ false }
        ensures faults { result.faults ≡ 0 }
        ensures given { result.given ≡ 0 }
    {
        HostNet {
            rt,
            net: TcpNet::with_timeouts(rt, timeouts),
        }
    }
}

impl<R: Sockets<Listener = TcpListener, Stream = TcpStream> + Eprint + Copy> Net for HostNet<R> {
    type Port = HostPort<R>;

    ghost is_open = { λ s. s.is_open };

    ghost faults = { λ s. s.faults };

    ghost given = { λ s. s.given };

    ghost ended = { λ _. 0 };

    fn open(&mut self, port: u16) -> DialOut {
        self.net.open(port)
    }

    fn accept(&mut self) -> Accepted<HostLink> {
        match self.net.accept() {
            Accepted::Peer(link) => Accepted::Peer(HostLink::new(link)),
            Accepted::Ended => Accepted::Ended,
            Accepted::Failed => {
                tell_lost(&self.rt, "the core port is lost", self.net.lost());
                Accepted::Failed
            }
        }
    }

    fn bind(&mut self, port: u16) -> Bound<HostPort<R>> {
        match self.net.bind(port) {
            Bound::Port(port) => Bound::Port(HostPort { rt: self.rt, port }),
            Bound::Failed => Bound::Failed,
        }
    }
}

/// A port over TCP ([`TcpPort`]), which tells on standard error where a wait fails.
#[derive(Drop)]
pub struct HostPort<R> {
    rt: R,
    port: TcpPort,
}

impl<R> Model for HostPort<R> {
    ghost use Rattle.std.specs.Prelude.{ℕ};

    // How many waits failed.
    ghost Value = { ℕ };

    ghost view = { λ s. s.port };
}

impl<R: Eprint> Listen for HostPort<R> {
    type Peer = HostLink;

    ghost faults = { λ s. s };

    fn accept(&mut self) -> Accepted<HostLink> {
        match self.port.accept() {
            Accepted::Peer(link) => Accepted::Peer(HostLink::new(link)),
            Accepted::Ended => Accepted::Ended,
            Accepted::Failed => {
                let lost = "the abort port is lost, and no new abort connection is served";
                tell_lost(&self.rt, lost, self.port.lost());
                Accepted::Failed
            }
        }
    }
}
