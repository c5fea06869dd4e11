//! Doors: what meets peers one after another, and is the link of the one that it met last.

ghost use Rattle.std.specs.Prelude.{◌≡◌, ℕ, ◌≤◌, ◌||◌, ⊤, Bool, false, List};
ghost use Rattle.std.specs.Io.KnownBytes.{Keeps};
ghost use Rattle.vx_io_traits.specs.Faults.{Rose};
ghost use Rattle.vx_io_traits.specs.Rung.{OnDialFailed};
ghost use Rattle.vx_io_traits.specs.Stands.{Stays};
ghost use Rattle.vx_io_traits.specs.declared.ReadOut.{ReadOut};
ghost use Rattle.vx_io_traits.specs.declared.WriteOut.{WriteOut};
ghost use Rattle.vx_io_traits.specs.declared.dials.DialOut.{DialOut};
ghost use Rattle.vx_door.specs.Meeting.{IfMet, UnlessMet, OnMeetFailed, is_met, met_after, ended_after, MeetsAt, IsFresh, KeepsCounts};
ghost use Rattle.vx_door.specs.declared.doors.Met.{Met};

use vx_io_traits::{DialOut, Link};

/// What a wait for the next peer answers.
#[derive(Clone, Copy, PartialEq, Eq)]
pub enum Met {
    /// The door met another peer, and is its link from now on.
    Peer,
    /// No more peers come.
    Ended,
    /// None could be met; the count of faults rose.
    Failed,
}

/// The link of the peer that it met last. Before the first its receives and sends fail.
pub trait Door: Link {
    // How many peers it met: a `u64` that stays at its greatest value.
    ghost met: { Self → ℕ };

    // How often it told that no more peers come: a `u64` that stays at its greatest value.
    ghost ended: { Self → ℕ };

    // How many openings and waits failed: a `u64` that stays at its greatest value.
    ghost faults: { Self → ℕ };

    // Whether it tells, of each peer that it meets, the bytes that it gave and took and those that it has left.
    ghost tells: { Bool } = { false };

    // What one opening does, where the door tells it: the door before, the port, the answer, and the door after.
    ghost opens: { Self → ℕ → DialOut → Self → Type 0 } = { λ _ _ _ _. ⊤ };

    // What one wait does, where the door tells it: the door before, the answer, and the door after.
    ghost meets: { Self → Met → Self → Type 0 } = { λ _ _ _. ⊤ };

    /// Opens the port at which it meets peers. It stays the link that it is.
    fn open(&mut self, port: u16) -> DialOut
        ensures counted { faults self.old ≤ faults self.new }
        ensures failed { OnDialFailed result (Rose (faults self.old) (faults self.new)) }
        ensures met { met self.new ≡ met self.old }
        ensures ended { ended self.new ≡ ended self.old }
        ensures receives { Self.receive_faults self.new ≡ Self.receive_faults self.old }
        ensures sends { Self.send_faults self.new ≡ Self.send_faults self.old }
        ensures ready { Self.is_ready self.new ≡ Self.is_ready self.old }
        ensures peers { Keeps (Self.peers self.old) (Self.peers self.new) }
        ensures left { Keeps (Self.left self.old) (Self.left self.new) }
        ensures stays { Stays Self.stands self.old self.new }
        ensures opens { opens self.old port result self.new };

    /// Waits for the next peer, and is its link from then on: nothing was taken from it and nothing given yet. Where none comes
    /// it stays the link that it is.
    fn next(&mut self) -> Met
        ensures counted { faults self.old ≤ faults self.new }
        ensures failed { OnMeetFailed result (Rose (faults self.old) (faults self.new)) }
        ensures met { met self.new ≡ met_after result (met self.old) }
        ensures ended { ended self.new ≡ ended_after result (ended self.old) }
        ensures receives { Self.receive_faults self.new ≡ Self.receive_faults self.old }
        ensures sends { Self.send_faults self.new ≡ Self.send_faults self.old }
        ensures ready { Self.is_ready self.new ≡ (is_met result || Self.is_ready self.old) }
        ensures peers { MeetsAt result (Self.peers self.old) (Self.peers self.new) }
        ensures fresh { IfMet result (IsFresh tells Self.stands Self.left self.new) }
        ensures left { UnlessMet result (Keeps (Self.left self.old) (Self.left self.new)) }
        ensures stays { UnlessMet result (Stays Self.stands self.old self.new) }
        ensures meets { meets self.old result self.new };

    // What it counts of its own is apart from its link: no receive and no send changes it.
    ghost receive_keeps: { (old new : Self) (slice given : List ℕ) (answer : ReadOut)
        → Self.receives old slice answer given new → KeepsCounts met ended faults old new };

    ghost send_keeps: { (old new : Self) (bytes : List ℕ) (answer : WriteOut)
        → Self.sends old bytes answer new → KeepsCounts met ended faults old new };
}
