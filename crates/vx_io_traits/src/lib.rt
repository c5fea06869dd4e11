//! What the programs have of the outside world, as traits: bytes that come in and bytes that go out, links both ways and
//! what makes them, clocks and workers. `vx_io` has a form of each over the standard library for a `main`, and `vx_memory`
//! one over memory for tests.
//!
//! A trait that can fail counts its faults in a `u64` that stays at its greatest value, and `Failed` is answered only
//! where that count rose in the call. Where an implementation can tell its bytes, the contracts say which bytes
//! each call moved; an adapter of the real world tells none.
#![tactic(auto)]

ghost use Rattle.std.specs.Prelude.{ℕ, ◌<◌, ◌≤◌, List, Option, length, take};
ghost use Rattle.std.specs.Io.KnownBytes.{Appends, Consumes, IsAtEnd, Keeps};
ghost use Rattle.vx_io_traits.specs.Faults.{Rose};
ghost use Rattle.vx_io_traits.specs.Outs.{IfGot, IfTook, OnEnd, OnReadFailed, OnWriteFailed};

mod clocks;
mod dials;
mod links;
mod listeners;
mod nets;
mod reaches;
mod streams;

pub use clocks::{Clock, Pause};
pub use dials::{Dial, DialOut, Rang};
pub use links::Link;
pub use listeners::{Accepted, Bound, Handed, Listen, Spawner, Started, Work};
pub use nets::Net;
pub use reaches::Reach;
pub use streams::Streams;

/// What a read answers.
#[derive(Clone, Copy, PartialEq, Eq)]
pub enum ReadOut {
    /// So many bytes, at least one, stand at the front of the slice.
    Got(usize),
    /// Nothing is left to read.
    End,
    /// The read failed, and gave no byte; the count of faults rose.
    Failed,
}

/// What a write answers.
#[derive(Clone, Copy, PartialEq, Eq)]
pub enum WriteOut {
    /// So many bytes, at least one, of the front of the slice were taken.
    Took(usize),
    /// The write failed, and took no byte; the count of faults rose.
    Failed,
}

/// Bytes that come in, in order.
pub trait Source {
    // What it has left to give, where it can tell it.
    ghost left: { Self → Option (List ℕ) };

    // How many reads failed: a `u64` that stays at its greatest value.
    ghost faults: { Self → ℕ };

    /// Reads the next bytes into the front of `into`, as many as there are at hand.
    fn read(&mut self, into: &mut [u8]) -> ReadOut
        requires { 0 < length into.old }
        ensures counted { faults self.old ≤ faults self.new }
        ensures got { IfGot result (λ n. (0 < n) × (n ≤ length into.new)
            × Consumes (left self.old) (left self.new) (take n into.new)) }
        ensures end { OnEnd result (IsAtEnd (left self.old) × Keeps (left self.old) (left self.new)) }
        ensures failed { OnReadFailed result (Rose (faults self.old) (faults self.new)
            × Keeps (left self.old) (left self.new)) };
}

/// Bytes that go out, in order.
pub trait Sink {
    // What it took so far, where it can tell it.
    ghost taken: { Self → Option (List ℕ) };

    // How many writes failed: a `u64` that stays at its greatest value.
    ghost faults: { Self → ℕ };

    /// Writes a front of `from`, and answers how long that front is.
    fn write(&mut self, from: &[u8]) -> WriteOut
        requires { 0 < length from.now }
        ensures counted { faults self.old ≤ faults self.new }
        ensures took { IfTook result (λ n. (0 < n) × (n ≤ length from.now)
            × Appends (taken self.old) (taken self.new) (take n from.now)) }
        ensures failed { OnWriteFailed result (Rose (faults self.old) (faults self.new)
            × Keeps (taken self.old) (taken self.new)) };
}
