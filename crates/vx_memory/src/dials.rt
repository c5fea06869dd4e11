//! A dial over memory, of which chosen dials fail.

ghost use Rattle.std.specs.Prelude.{◌≡◌};
ghost use Rattle.vx_io_traits.specs.declared.dials.Rang.{Rang};

use std::marker::Model;
use std::sync::Wait;
use vx_io_traits::{Dial, DialOut, Rang};

/// A dial of which chosen dials fail, and which tells its calls as long as its list can grow.
#[derive(Drop)]
pub struct MemDial {
    calls: Vec<Rang>,
    tells: bool,
    fails: Vec<u64>,
    dials: u64,
    faults: u64,
}

impl Model for MemDial {
    ghost use Rattle.vx_memory.specs.DialState.{DialState, told_calls};

    ghost Value = { DialState };

    ghost view = { λ s. record {
      calls = told_calls s.tells s.calls.items;
      fails = s.fails.items;
      dials = s.dials;
      faults = s.faults;
    } };
}

impl MemDial {
    ghost use Rattle.std.specs.Prelude.{◌≡◌, None, Some, MatchOption};
    ghost use Rattle.vx_memory.specs.DialState.{MemoryTells};

    /// A dial that tells `calls` and those that follow. The dials whose numbers, counted from 1 over the object, stand in
    /// `fails` fail.
    pub fn new(calls: Vec<Rang>, fails: Vec<u64>) -> MemDial
        ensures calls { result.calls ≡ Some calls.items }
        ensures fails { result.fails ≡ fails.items }
        ensures dials { result.dials ≡ 0 }
        ensures faults { result.faults ≡ 0 }
    {
        MemDial {
            calls,
            tells: true,
            fails,
            dials: 0,
            faults: 0,
        }
    }

    /// The calls so far, behind those that it was made with, or none where the list couldn't grow.
    pub fn calls(&self) -> Option<&[Rang]>
        ensures { MatchOption result (self.now.calls ≡ None) (λ calls. self.now.calls ≡ Some calls.now) }
    {
        if self.tells {
            Some(self.calls.as_slice())
        } else {
            None
        }
    }

    /// Adds a call to the list, or tells no more.
    fn tell(&mut self, call: Rang)
        ensures { MemoryTells self.old self.new call }
    {
        if self.tells && self.calls.push(call).is_err() {
            self.tells = false;
        }
    }
}

impl Dial for MemDial {
    ghost use Rattle.std.specs.Prelude.{◌≡◌, ◌≤◌, [], ◌∷◌};
    ghost use Rattle.vx_io_traits.specs.Faults.{Rose};
    ghost use Rattle.vx_io_traits.specs.Rung.{AddsCalls, OnDialFailed, dialed, handed};
    ghost use Rattle.vx_memory.specs.DialState.{dial_answer, IsAfterDial, IsAfterHand};

    ghost calls = { λ s. s.calls };

    ghost faults = { λ s. s.faults };

    /// Answers `Up`, unless the dial is one that fails.
    fn dial(&mut self, host: u32, port: u16) -> DialOut
        ensures answer { result ≡ dial_answer self.old }
        ensures after { IsAfterDial self.old self.new result }
        ensures counted { self.old.faults ≤ self.new.faults }
        ensures told { AddsCalls self.old.calls self.new.calls (dialed host port result ∷ []) }
        ensures failed { OnDialFailed result (Rose self.old.faults self.new.faults) }
    {
        self.dials = self.dials.saturating_add(1);
        let up = !self.fails.contains(&self.dials);
        self.tell(Rang::Dialed { host, port, up });
        if up {
            return DialOut::Up;
        }
        self.faults = self.faults.saturating_add(1);
        DialOut::Failed
    }

    /// Tells the call; there is no stream to hand on.
    fn hand<R: Wait>(&mut self, _rt: &R, conn: u32, chan: u32)
        ensures after { IsAfterHand self.old self.new }
        ensures counted { self.new.faults ≡ self.old.faults }
        ensures told { AddsCalls self.old.calls self.new.calls (handed conn chan ∷ []) }
    {
        self.tell(Rang::Handed { conn, chan });
    }
}
