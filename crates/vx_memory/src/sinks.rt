//! A sink over memory, whose faults a test chooses.

ghost use Rattle.std.specs.Prelude.{◌≡◌, ◌<◌, ◌≤◌, Some, length, take};
ghost use Rattle.std.specs.Io.KnownBytes.{Appends, Keeps};
ghost use Rattle.vx_io_traits.specs.Faults.{Rose};
ghost use Rattle.vx_io_traits.specs.Outs.{IfTook, OnWriteFailed};
ghost use Rattle.vx_memory.specs.SinkState.{SinkState, IsWriteAnswer, after_write};

use std::marker::Model;
use vx_io_traits::{Sink, WriteOut};

/// A sink that keeps what it takes behind what its room held, and of which chosen writes fail.
#[derive(Drop)]
pub struct MemSink {
    room: Vec<u8>,
    fails: Vec<u64>,
    calls: u64,
    faults: u64,
}

impl Model for MemSink {
    ghost use Rattle.vx_memory.specs.SinkState.{SinkState};

    ghost Value = { SinkState };

    ghost view = { λ s. record {
      taken = s.room.items;
      fails = s.fails.items;
      calls = s.calls;
      faults = s.faults;
    } };
}

impl MemSink {
    /// A sink that has taken what `room` holds. The writes whose numbers, counted from 1 over the sink, stand in
    /// `fails` fail.
    pub fn new(room: Vec<u8>, fails: Vec<u64>) -> MemSink
        ensures taken { result.taken ≡ room.items }
        ensures fails { result.fails ≡ fails.items }
        ensures calls { result.calls ≡ 0 }
        ensures faults { result.faults ≡ 0 }
    {
        MemSink {
            room,
            fails,
            calls: 0,
            faults: 0,
        }
    }

    /// What the sink took, behind what its room held at first.
    pub fn bytes(&self) -> &[u8]
        ensures { result.now ≡ self.now.taken }
    {
        self.room.as_slice()
    }
}

impl Sink for MemSink {
    ghost taken = { λ s. Some s.taken };

    ghost faults = { λ s. s.faults };

    /// Takes the whole slice, unless the call is one that fails or the room can't grow, which counts as a fault.
    fn write(&mut self, from: &[u8]) -> WriteOut
        requires { 0 < length from.now }

        // What it answers, and what the sink is afterwards.
        ensures answer { IsWriteAnswer self.old (length from.now) result }
        ensures after { self.new ≡ after_write self.old from.now result }

        // What every sink says.
        ensures counted { self.old.faults ≤ self.new.faults }
        ensures took { IfTook result (λ n. (0 < n) × (n ≤ length from.now)
            × Appends (Some self.old.taken) (Some self.new.taken) (take n from.now)) }
        ensures failed { OnWriteFailed result (Rose self.old.faults self.new.faults
            × Keeps (Some self.old.taken) (Some self.new.taken)) }
    {
        self.calls = self.calls.saturating_add(1);
        if self.fails.contains(&self.calls) || self.room.extend_from_slice(from).is_err() {
            self.faults = self.faults.saturating_add(1);
            return WriteOut::Failed;
        }
        WriteOut::Took(from.len())
    }
}
