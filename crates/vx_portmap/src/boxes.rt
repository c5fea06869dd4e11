//! What packets come from and go to.
ghost use Rattle.std.specs.Prelude.{◌≡◌, ℕ, ⊤, ◌<◌, ◌≤◌, List, [], Option, None, length};
ghost use Rattle.vx_io_traits.specs.Faults.{Rose};
ghost use Rattle.vx_io_traits.specs.Rung.{OnDialFailed};
ghost use Rattle.vx_io_traits.specs.declared.dials.DialOut.{DialOut};
ghost use Rattle.vx_portmap.specs.Moves.{Moved, all_taken, all_given};
ghost use Rattle.vx_portmap.specs.Boxes.{MapTakes, MapAdds, NoneLeft, read_by, ended_after, IfPacket, OnLast, OnTakeFailed, given_by, OnGiveFailed};

use vx_io_traits::DialOut;

/// What a take answers.
#[derive(Clone, Copy)]
pub enum Packet {
    /// So many bytes of a packet, and maybe none, stand at the front of the slice.
    Got(usize),
    /// No more packets come.
    Ended,
    /// None could be taken; the count of faults rose.
    Failed,
}

/// What a give answers.
#[derive(Clone, Copy)]
pub enum Given {
    /// The packet went.
    Sent,
    /// It didn't; the count of faults rose.
    Failed,
}

/// Packets that come in, one after another, and packets that go out to where the last one came from, as over UDP.
pub trait Packets {
    // The packets that it has left to hand out, in order, where it can tell them; those that it was given; and what went
    // through it, both ways, in the order of the calls.
    ghost packets_left: { Self → Option (List (List ℕ)) } = { λ _. None };

    ghost packets_given: { Self → Option (List (List ℕ)) } = { λ _. None };

    ghost packets_moved: { Self → Option (List Moved) } = { λ _. None };

    // How often a take answered that no more packets come, how many takes failed, and how many gives: `u64`s that stay at
    // their greatest value.
    ghost packets_ended: { Self → ℕ };

    ghost take_faults: { Self → ℕ };

    ghost give_faults: { Self → ℕ };

    /// Takes the next packet into the front of `into`. What doesn't fit there is lost.
    fn take(&mut self, into: &mut [u8]) -> Packet
        requires { 0 < length into.old }
        ensures counted { take_faults self.old ≤ take_faults self.new }
        ensures apart { give_faults self.new ≡ give_faults self.old }
        ensures ended { packets_ended self.new ≡ ended_after result (packets_ended self.old) }
        ensures given { MapAdds (packets_given self.old) (packets_given self.new) [] }
        ensures moved { MapAdds (packets_moved self.old) (packets_moved self.new) (all_taken (read_by result into.new)) }
        ensures left { MapTakes (length into.old) (packets_left self.old) (packets_left self.new) (read_by result into.new) }
        ensures got { IfPacket result (λ n. n ≤ length into.old) }
        ensures last { OnLast result (NoneLeft (packets_left self.new)) }
        ensures failed { OnTakeFailed result (Rose (take_faults self.old) (take_faults self.new)) };

    /// Gives a packet for where the last one that was taken came from.
    fn give(&mut self, from: &[u8]) -> Given
        ensures counted { give_faults self.old ≤ give_faults self.new }
        ensures apart { take_faults self.new ≡ take_faults self.old }
        ensures ended { packets_ended self.new ≡ packets_ended self.old }
        ensures left { MapTakes 0 (packets_left self.old) (packets_left self.new) [] }
        ensures given { MapAdds (packets_given self.old) (packets_given self.new) (given_by result from.now) }
        ensures moved { MapAdds (packets_moved self.old) (packets_moved self.new) (all_given (given_by result from.now)) }
        ensures failed { OnGiveFailed result (Rose (give_faults self.old) (give_faults self.new)) };
}

/// A box of packets at a port that is yet to be opened.
pub trait PacketBox: Packets {
    // How many openings failed: a `u64` that stays at its greatest value.
    ghost open_faults: { Self → ℕ };

    // What one opening does, where the box tells it: the box before, the port, the answer, and the box after. One that tells its
    // packets tells here that they are still those that it had.
    ghost opens: { Self → ℕ → DialOut → Self → Type 0 } = { λ _ _ _ _. ⊤ };

    /// Opens the port at which packets come. It takes none and gives none.
    fn open(&mut self, port: u16) -> DialOut
        ensures counted { open_faults self.old ≤ open_faults self.new }
        ensures failed { OnDialFailed result (Rose (open_faults self.old) (open_faults self.new)) }
        ensures ended { Self.packets_ended self.new ≡ Self.packets_ended self.old }
        ensures takes { Self.take_faults self.new ≡ Self.take_faults self.old }
        ensures gives { Self.give_faults self.new ≡ Self.give_faults self.old }
        ensures opens { opens self.old port result self.new };
}
