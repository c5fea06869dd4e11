//! What stands in for a clock, a pause and a dial where a session needs none: an abort session waits for nobody.
ghost use Rattle.std.specs.Prelude.{◌≡◌, ◌≤◌, max, None, [], ◌∷◌};
ghost use Rattle.vx_io_traits.specs.Faults.{Rose};
ghost use Rattle.vx_io_traits.specs.Rung.{AddsCalls, OnDialFailed, dialed, handed};

use std::sync::Wait;
use vx_io_traits::{Clock, Dial, DialOut, Pause};

/// Tells moment 0, pauses for no time, and dials nobody.
#[derive(Drop)]
pub struct NoTools {
    asked: bool,
}

impl NoTools {
    /// One that was asked nothing yet.
    pub fn new() -> NoTools {
        NoTools { asked: false }
    }
}

impl Clock for NoTools {
    ghost told = { λ _. 0 };

    fn now(&mut self) -> u64 {
        self.asked = true;
        0
    }
}

impl Pause for NoTools {
    fn pause(&mut self) {
        self.asked = true;
    }
}

impl Dial for NoTools {
    ghost calls = { λ _. None };

    ghost faults = { λ _. 0 };

    fn dial(&mut self, _host: u32, _port: u16) -> DialOut {
        self.asked = true;
        DialOut::Up
    }

    fn hand<R: Wait>(&mut self, _rt: &R, _conn: u32, _chan: u32) {
        self.asked = true;
    }
}
