//! The system's clock and pause.

ghost use Rattle.std.specs.Prelude.{◌≡◌, ◌≤◌, max};

use std::marker::Model;
use std::rt::Clock as SystemClock;
use std::thread;
use std::time::Duration;
use vx_io_traits::{Clock, Pause};

/// A clock over the system's monotonic clock. Its moments begin where that clock begins, so that two of them tell
/// moments that can be compared; where the system tells none, the last moment told comes again.
#[derive(Drop)]
pub struct StdClock<R> {
    rt: R,
    last: u64,
    told: u64,
}

impl<R> Model for StdClock<R> {
    ghost use Rattle.std.specs.Prelude.{ℕ};

    // The greatest moment that it has told.
    ghost Value = { ℕ };

    ghost view = { λ s. s.told };
}

impl<R: SystemClock> StdClock<R> {
    /// A clock over the runtime `rt`, which has told nothing yet.
    pub fn new(rt: R) -> StdClock<R>
        ensures { result ≡ 0 }
    {
        StdClock {
            rt,
            last: 0,
            told: 0,
        }
    }
}

impl<R: SystemClock> Clock for StdClock<R> {
    ghost told = { λ s. s };

    /// The system's moment now, in milliseconds; one above `u64::MAX` is told as that.
    fn now(&mut self) -> u64
        ensures rises { self.old ≤ self.new }
        ensures within { result ≤ self.new }
        ensures told { self.new ≡ max self.old result }
    {
        if let Ok(moment) = self.rt.monotonic() {
            self.last = u64::try_from(moment.as_millis()).unwrap_or(u64::MAX);
        }
        self.told = self.told.max(self.last);
        self.last
    }
}

/// How long a pause lasts at most, in microseconds.
const PAUSE: u64 = 1_000;

/// How long one of a young wait lasts, in microseconds: about as long as the bus is free between two turns of a client that
/// writes without a break.
const SHORT_PAUSE: u64 = 100;

/// How long a wait is young, in microseconds.
const YOUNG: u64 = 5_000;

/// How long the time between two pauses of one wait is at most, in microseconds: a look at the gateway is shorter, and an answer
/// with the next call behind it mostly longer.
const LOOK: u64 = 20;

/// A wait, of pauses one after another: when it began, and when the last of them ended, by the system's monotonic clock.
#[derive(Clone, Copy)]
struct Span {
    began: Duration,
    ended: Duration,
}

impl Span {
    /// The wait to which a pause belongs that begins now.
    fn at(self, now: Duration) -> Span {
        let began = if now.saturating_sub(self.ended) > Duration::from_micros(LOOK) {
            now
        } else {
            self.began
        };
        Span { began, ended: now }
    }

    /// How long the pause lasts that begins at its end, in microseconds.
    fn pause(self) -> u64 {
        if self.ended.saturating_sub(self.began) < Duration::from_micros(YOUNG) {
            SHORT_PAUSE
        } else {
            PAUSE
        }
    }
}

/// A pause of the system, of one millisecond, or shorter where its wait is young: who waits for a turn on the bus looks often
/// between two turns of another, and who waits for seconds sleeps most of them.
#[derive(Drop)]
pub struct StdPause<R> {
    rt: R,
    // none where each pause is whole
    span: Option<Span>,
}

impl<R: SystemClock> StdPause<R> {
    /// A pause of the runtime `rt`, which is short where its wait is young.
    pub fn new(rt: R) -> StdPause<R> {
        let span = Span {
            began: Duration::ZERO,
            ended: Duration::ZERO,
        };
        StdPause {
            rt,
            span: Some(span),
        }
    }

    /// A pause of the runtime `rt`, of a whole millisecond each time.
    pub fn whole(rt: R) -> StdPause<R> {
        StdPause { rt, span: None }
    }
}

impl<R: SystemClock> Pause for StdPause<R> {
    fn pause(&mut self) {
        let (Some(span), Ok(now)) = (self.span, self.rt.monotonic()) else {
            thread::sleep(&self.rt, Duration::from_micros(PAUSE));
            return;
        };
        let span = span.at(now);
        thread::sleep(&self.rt, Duration::from_micros(span.pause()));
        let ended = self.rt.monotonic().unwrap_or(span.ended);
        self.span = Some(Span { ended, ..span });
    }
}
