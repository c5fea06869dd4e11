//! Dials: what connects to another host, and hands the stream on to the worker that writes to it.

ghost use Rattle.std.specs.Prelude.{◌≡◌, ℕ, ◌≤◌, List, [], ◌∷◌, Option};
ghost use Rattle.vx_io_traits.specs.Faults.{Rose};
ghost use Rattle.vx_io_traits.specs.Rung.{AddsCalls, OnDialFailed, dialed, handed};
ghost use Rattle.vx_io_traits.specs.declared.dials.Rang.{Rang};

use std::sync::Wait;

/// What a dial, or another call that opens a way out, answers.
#[derive(Clone, Copy, PartialEq, Eq)]
pub enum DialOut {
    /// The stream stands.
    Up,
    /// It couldn't be made; the count of faults rose.
    Failed,
}

/// A call of a dial, as a dial that tells its calls tells it.
#[derive(Clone, Copy, PartialEq, Eq)]
pub enum Rang {
    /// It dialed this IPv4 address and port, and whether the stream stood.
    Dialed { host: u32, port: u16, up: bool },
    /// It handed the stream on to the channel `chan` of the connection `conn`.
    Handed { conn: u32, chan: u32 },
}

/// What dials other hosts.
pub trait Dial {
    // The calls of it, in order, where it tells them.
    ghost calls: { Self → Option (List Rang) };

    // How many dials failed: a `u64` that stays at its greatest value.
    ghost faults: { Self → ℕ };

    /// Dials the port of an IPv4 address, of which the first number is the word's high byte.
    fn dial(&mut self, host: u32, port: u16) -> DialOut
        ensures counted { faults self.old ≤ faults self.new }
        ensures told { AddsCalls (calls self.old) (calls self.new) (dialed host port result ∷ []) }
        ensures failed { OnDialFailed result (Rose (faults self.old) (faults self.new)) };

    /// Hands the stream of the last dial that answered `Up` on to the worker of that channel. It has no fault: a stream
    /// that can't be handed on is dropped.
    fn hand<R: Wait>(&mut self, rt: &R, conn: u32, chan: u32)
        ensures counted { faults self.new ≡ faults self.old }
        ensures told { AddsCalls (calls self.old) (calls self.new) (handed conn chan ∷ []) };
}
