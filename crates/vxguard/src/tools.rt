//! What the guard has of its host: clocks and pauses. It makes no interrupt channels, so each of its dials fails.
ghost use Rattle.std.specs.Prelude.{◌≡◌, ◌≤◌, ℕ, None};
ghost use Rattle.vx_io_traits.specs.Faults.{one_more};
ghost use Rattle.vx_io_traits.specs.Rung.{OnDialFailed};

use std::marker::Model;
use std::rt::Clock as SystemClock;
use std::sync::Wait;
use vx_io::{Dial, DialOut, Handed, StdClock, StdPause, Streams, TcpLink};
use vx_session::Tools;

/// A dial that always fails, and counts that.
#[derive(Drop)]
pub struct NoDial {
    faults: u64,
}

impl Model for NoDial {
    ghost use Rattle.std.specs.Prelude.{ℕ};

    // How many dials failed.
    ghost Value = { ℕ };

    ghost view = { λ s. s.faults };
}

impl Dial for NoDial {
    ghost calls = { λ _. None };

    ghost faults = { λ s. s };

    /// Fails.
    fn dial(&mut self, _host: u32, _port: u16) -> DialOut
        ensures counted { self.old ≤ self.new }
        ensures failed { OnDialFailed result (self.new ≡ one_more self.old) }
    {
        self.faults = self.faults.saturating_add(1);
        DialOut::Failed
    }

    /// There is no stream to hand on.
    fn hand<W: Wait>(&mut self, _rt: &W, _conn: u32, _chan: u32)
        ensures counted { self.new ≡ self.old }
    {}
}

/// The streams of no dial.
#[derive(Drop)]
pub struct NoStreams;

impl Streams for NoStreams {
    type Peer = TcpLink;

    fn next<R: Wait>(&mut self, _rt: &R) -> Handed<TcpLink> {
        Handed::Ended
    }
}

/// Clocks and pauses of the host, and dials that fail.
#[derive(Drop)]
pub struct GuardTools<R> {
    rt: R,
}

impl<R> GuardTools<R> {
    /// Tools over this runtime.
    pub fn new(rt: R) -> GuardTools<R> {
        GuardTools { rt }
    }
}

impl<R: SystemClock + Copy> Tools for GuardTools<R> {
    type C = StdClock<R>;

    type P = StdPause<R>;

    type D = NoDial;

    type S = NoStreams;

    fn clock(&mut self) -> StdClock<R> {
        StdClock::new(self.rt)
    }

    fn pause(&mut self) -> StdPause<R> {
        StdPause::new(self.rt)
    }

    fn dial(&mut self) -> NoDial {
        NoDial { faults: 0 }
    }

    fn streams(&mut self) -> NoStreams {
        NoStreams
    }
}
