//! What takes links in, and what hands work to workers.

ghost use Rattle.std.specs.Prelude.{ℕ, ◌≤◌};
ghost use Rattle.vx_io_traits.specs.Faults.{Rose};
ghost use Rattle.vx_io_traits.specs.Accepts.{OnAcceptFailed, OnRefused};

use super::links::Link;
use std::sync::Wait;

/// What a wait for a link answers.
#[derive(Drop)]
pub enum Accepted<L> {
    /// A peer's link.
    Peer(L),
    /// No more links come.
    Ended,
    /// None could be taken; the count of faults rose.
    Failed,
}

/// What a port's opening answers.
#[derive(Drop)]
pub enum Bound<P> {
    /// The port, which takes links from now on.
    Port(P),
    /// It couldn't be opened; the count of faults rose.
    Failed,
}

/// What the start of a work answers.
#[derive(Clone, Copy, PartialEq, Eq)]
pub enum Started {
    /// The work runs, or will.
    Up,
    /// It can't, and was dropped; the count of faults rose.
    Refused,
}

/// What a wait for a stream that was handed over answers.
#[derive(Drop)]
pub enum Handed<L> {
    /// The stream of the channel `chan` of the connection `conn`.
    Stream { conn: u32, chan: u32, link: L },
    /// No more streams come.
    Ended,
}

/// A port that takes links.
pub trait Listen {
    type Peer: Link;

    // How many waits failed: a `u64` that stays at its greatest value.
    ghost faults: { Self → ℕ };

    /// Waits for the next link.
    fn accept(&mut self) -> Accepted<Self::Peer>
        ensures counted { faults self.old ≤ faults self.new }
        ensures failed { OnAcceptFailed result (Rose (faults self.old) (faults self.new)) };
}

/// A work that a worker runs once.
pub trait Work {
    fn run<R: Wait>(self, rt: &R);
}

/// What starts works, each on a worker of its own.
pub trait Spawner<J: Work> {
    // How many works were refused: a `u64` that stays at its greatest value.
    ghost faults: { Self → ℕ };

    /// Starts a work, which runs once, with a runtime that the spawner holds. A work that is refused is dropped.
    fn start(&mut self, job: J) -> Started
        ensures counted { faults self.old ≤ faults self.new }
        ensures refused { OnRefused result (Rose (faults self.old) (faults self.new)) };
}
