//! What the program has of its host for its sessions: a clock and a pause. It has no interrupt channels, so it dials nobody.
use std::rt::Clock as SystemClock;
use std::sync::Wait;
use vx_io::{Handed, StdClock, StdPause, Streams, TcpLink};
use vx_session::{NoTools, Tools};

/// The clock and the pauses of the host.
#[derive(Drop)]
pub struct HostTools<R> {
    rt: R,
}

impl<R> HostTools<R> {
    /// The tools of this runtime.
    pub fn new(rt: R) -> HostTools<R> {
        HostTools { rt }
    }
}

/// No streams.
#[derive(Drop)]
pub struct NoStreams {
    asked: bool,
}

impl Streams for NoStreams {
    type Peer = TcpLink;

    fn next<R: Wait>(&mut self, _rt: &R) -> Handed<TcpLink> {
        self.asked = true;
        Handed::Ended
    }
}

impl<R: SystemClock + Copy> Tools for HostTools<R> {
    type C = StdClock<R>;

    type P = StdPause<R>;

    type D = NoTools;

    type S = NoStreams;

    fn clock(&mut self) -> StdClock<R> {
        StdClock::new(self.rt)
    }

    /// A pause of at most one millisecond.
    fn pause(&mut self) -> StdPause<R> {
        StdPause::new(self.rt)
    }

    fn dial(&mut self) -> NoTools {
        NoTools::new()
    }

    fn streams(&mut self) -> NoStreams {
        NoStreams { asked: false }
    }
}
