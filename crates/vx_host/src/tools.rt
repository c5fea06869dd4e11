//! Interrupt channels over TCP: dials, and the streams that they hand to the pumps.
ghost use Rattle.std.specs.Prelude.{◌≡◌, ℕ, ◌≤◌, None};
ghost use Rattle.vx_io.specs.Faults.{one_more};
ghost use Rattle.vx_io.specs.Rung.{OnDialFailed};

use crate::logs::ErrorLog;
use crossbeam_channel::{Receiver, Sender};
use std::io::Stderr;
use std::marker::Model;
use std::net::{Ipv4Addr, Net as Sockets, SocketAddr, TcpStream};
use std::rt::Clock as SystemClock;
use std::sync::Wait;
use std::time::Duration;
use vx_io::{Dial, DialOut, Handed, StdClock, StdPause, Streams, TcpLink};
use vx_policy::Policy;
use vx_session::Tools;
use vx_startup::{Logs, Rules};

/// How long a dial waits for its peer to come up, and a send for it to take what it is sent, in milliseconds.
const PEER_WAITS: u64 = 5_000;

/// A stream that was dialed, for the channel `chan` of the connection `conn`.
#[derive(Drop)]
pub struct Dialed {
    conn: u32,
    chan: u32,
    link: TcpLink,
}

/// Dials interrupt channels over TCP.
#[derive(Drop)]
pub struct TcpDial<R> {
    rt: R,
    pumps: Option<Sender<Dialed>>,
    stream: Option<TcpStream>,
    faults: u64,
}

impl<R> Model for TcpDial<R> {
    ghost use Rattle.std.specs.Prelude.{ℕ};

    // How many dials failed.
    ghost Value = { ℕ };

    ghost view = { λ s. s.faults };
}

impl<R: Sockets<Stream = TcpStream>> Dial for TcpDial<R> {
    ghost calls = { λ _. None };

    ghost faults = { λ s. s };

    /// Connects to this host and port. It fails where none answers within 5 seconds. A send over the stream fails where its
    /// peer takes nothing for as long, so that no peer keeps a pump for good; where the system refuses that, the stream is
    /// taken as it is.
    fn dial(&mut self, host: u32, port: u16) -> DialOut
        ensures counted { self.old ≤ self.new }
        ensures failed { OnDialFailed result (self.new ≡ one_more self.old) }
    {
        let peer = SocketAddr::from((Ipv4Addr::from(host), port));
        let patience = Duration::from_millis(PEER_WAITS);
        let dialed = TcpStream::connect_timeout(&self.rt, &peer, patience);
        match (dialed, &self.pumps) {
            (Ok(stream), Some(_)) => {
                let _ = stream.set_write_timeout(Some(patience));
                self.stream = Some(stream);
                DialOut::Up
            }
            _ => {
                self.faults = self.faults.saturating_add(1);
                DialOut::Failed
            }
        }
    }

    /// Hands the last stream that stood to the pumps, once. It waits where 64 streams have no pump yet.
    fn hand<W: Wait>(&mut self, rt: &W, conn: u32, chan: u32)
        ensures counted { self.new ≡ self.old }
    {
        if let (Some(stream), Some(pumps)) = (self.stream.take(), &self.pumps) {
            let link = TcpLink::new(stream);
            let _ = pumps.send(rt, Dialed { conn, chan, link });
        }
    }
}

/// The streams that dials hand over.
#[derive(Drop)]
pub struct TcpStreams {
    dialed: Option<Receiver<Dialed>>,
}

impl Streams for TcpStreams {
    type Peer = TcpLink;

    fn next<R: Wait>(&mut self, rt: &R) -> Handed<TcpLink> {
        let Some(dialed) = &self.dialed else {
            return Handed::Ended;
        };
        match dialed.recv(rt) {
            Ok(Dialed { conn, chan, link }) => Handed::Stream { conn, chan, link },
            Err(_) => Handed::Ended,
        }
    }
}

/// Clocks and pauses of the host, dials and streams of TCP, logs on standard error, and access rules that it was given.
#[derive(Drop)]
pub struct TcpTools<R> {
    rt: R,
    pumps: Sender<Dialed>,
    dialed: Receiver<Dialed>,
    stderr: Stderr,
    has_log: bool,
    policy: Option<Policy>,
}

impl<R> TcpTools<R> {
    /// Tools over this runtime, whose dials hand their streams over by this channel, and whose logs go to this standard error
    /// where there is a log; and with these access rules, where there are some.
    pub fn new(
        rt: R,
        pumps: Sender<Dialed>,
        dialed: Receiver<Dialed>,
        stderr: Stderr,
        has_log: bool,
        policy: Option<Policy>,
    ) -> TcpTools<R> {
        TcpTools {
            rt,
            pumps,
            dialed,
            stderr,
            has_log,
            policy,
        }
    }
}

impl<R> Logs for TcpTools<R> {
    type L = ErrorLog;

    fn log(&mut self) -> ErrorLog {
        ErrorLog::new(self.stderr, self.has_log)
    }
}

impl<R> Rules for TcpTools<R> {
    fn rules(&mut self) -> Option<Policy> {
        self.policy.take()
    }
}

impl<R: Sockets<Stream = TcpStream> + SystemClock + Copy> Tools for TcpTools<R> {
    type C = StdClock<R>;

    type P = StdPause<R>;

    type D = TcpDial<R>;

    type S = TcpStreams;

    fn clock(&mut self) -> StdClock<R> {
        StdClock::new(self.rt)
    }

    /// A pause of at most one millisecond: the first ones of a wait are short.
    fn pause(&mut self) -> StdPause<R> {
        StdPause::new(self.rt)
    }

    /// A pause of one millisecond.
    fn whole_pause(&mut self) -> StdPause<R> {
        StdPause::whole(self.rt)
    }

    /// A dial. Each dial of one that has no way to the pumps, since memory ran out, fails.
    fn dial(&mut self) -> TcpDial<R> {
        TcpDial {
            rt: self.rt,
            pumps: self.pumps.clone().ok(),
            stream: None,
            faults: 0,
        }
    }

    fn streams(&mut self) -> TcpStreams {
        TcpStreams {
            dialed: self.dialed.clone().ok(),
        }
    }
}
