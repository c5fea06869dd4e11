//! A clock of the moments of a list.

ghost use Rattle.std.specs.Prelude.{◌≡◌};

use std::marker::Model;
use vx_io_traits::Clock;

/// A clock that tells the moments of a list in turn, and at its end the last of them again, or 0 of an empty list.
#[derive(Drop)]
pub struct MemClock {
    moments: Vec<u64>,
    at: usize,
    last: u64,
    told: u64,
}

impl Model for MemClock {
    ghost use Rattle.std.specs.Prelude.{◌≤◌, drop, vec_len};
    ghost use Rattle.vx_memory.specs.ClockState.{ClockState};

    ghost Value = { ClockState };

    ghost view = { λ s. record { moments = drop s.at s.moments.items; last = s.last; told = s.told } };

    ghost invariant = { λ s. s.at ≤ vec_len s.moments };
}

impl MemClock {
    /// A clock that tells these moments, in milliseconds.
    pub fn new(moments: Vec<u64>) -> MemClock
        ensures moments { result.moments ≡ moments.items }
        ensures last { result.last ≡ 0 }
        ensures told { result.told ≡ 0 }
    {
        MemClock {
            moments,
            at: 0,
            last: 0,
            told: 0,
        }
    }
}

impl Clock for MemClock {
    ghost use Rattle.std.specs.Prelude.{◌≡◌, ◌≤◌, max};
    ghost use Rattle.vx_memory.specs.ClockState.{next_moment, after_now};

    ghost told = { λ s. s.told };

    /// The next moment of the list, or at its end the last one again.
    fn now(&mut self) -> u64
        ensures moment { result ≡ next_moment self.old }
        ensures after { self.new ≡ after_now self.old }
        ensures rises { self.old.told ≤ self.new.told }
        ensures within { result ≤ self.new.told }
        ensures told { self.new.told ≡ max self.old.told result }
    {
        if self.at < self.moments.len() {
            self.last = self.moments[self.at];
            self.at += 1;
        }
        self.told = self.told.max(self.last);
        self.last
    }
}
