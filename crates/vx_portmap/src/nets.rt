//! What the port mapper has of a host: a door for streams, and a box for packets.
ghost use Rattle.std.specs.Prelude.{◌≡◌, ℕ, ⊤, ◌≤◌};
ghost use Rattle.vx_io_traits.specs.Faults.{Rose};
ghost use Rattle.vx_io_traits.specs.Rung.{OnDialFailed};
ghost use Rattle.vx_io_traits.specs.declared.dials.DialOut.{DialOut};

use crate::boxes::Packets;
use vx_door::Door;
use vx_io_traits::DialOut;

/// A door whose peers send streams, as over TCP, and a box of packets, as over UDP.
pub trait MapNet: Door + Packets {
    // How many openings of the box failed: a `u64` that stays at its greatest value.
    ghost box_faults: { Self → ℕ };

    // What one opening of the box does, where the net tells it: the net before, the port, the answer, and the net after.
    ghost opens_box: { Self → ℕ → DialOut → Self → Type 0 } = { λ _ _ _ _. ⊤ };

    /// Opens the port at which packets come. It takes none and gives none.
    fn packets(&mut self, port: u16) -> DialOut
        ensures counted { box_faults self.old ≤ box_faults self.new }
        ensures failed { OnDialFailed result (Rose (box_faults self.old) (box_faults self.new)) }
        ensures ended { Self.packets_ended self.new ≡ Self.packets_ended self.old }
        ensures takes { Self.take_faults self.new ≡ Self.take_faults self.old }
        ensures gives { Self.give_faults self.new ≡ Self.give_faults self.old }
        ensures opens { opens_box self.old port result self.new };
}
