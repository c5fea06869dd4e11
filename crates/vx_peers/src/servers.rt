//! What serves the peers of a door.
ghost use Rattle.std.specs.Prelude.{◌≡◌, ℕ, ◌≤◌, ◌<◌, ◌+◌, ◌⊎◌, Bool, true};
ghost use Rattle.vx_io_traits.specs.Faults.{Rose};
ghost use Rattle.vx_peers.specs.Serving.{is_cut};
ghost use Rattle.vx_peers.specs.declared.words.TheConstants.{PEERS_MAX};

use vx_door::Door;

/// What serves the peers of a door one after another, until it stops.
pub trait PeerServer<N: Door>: Sized {
    /// How serving one peer ended.
    type End: Drop;

    // It may serve a peer, behind so many.
    ghost can: { Self → ℕ → Type 0 };

    // What serving a peer does: the server and the door before, how it ended, and the server and the door after.
    ghost did: { Self → N → Self.End → Self → N → Type 0 };

    // Whether it ended for a cause of the server's own, for which it may leave bytes of the peer unread.
    ghost is_own: { Self.End → Bool };

    // Whether all was sent that was to be.
    ghost is_whole: { Self.End → Bool };

    // Whether it serves no further peer.
    ghost is_stopped: { Self → Bool };

    /// Serves the peer that the door met last, behind so many. What it leaves unread without a cause of its own, or doesn't send, it
    /// leaves for a fault of a receive or of a send.
    fn serve(self, behind: u32, door: &mut N) -> (Self, Self::End)
        requires can { can self behind }
        requires few { behind < PEERS_MAX }
        requires ready { N.is_ready door.old ≡ true }
        ensures can { can result.0 (behind + 1) }
        ensures did { did self door.old result.1 result.0 door.new }
        ensures receives { N.receive_faults door.old ≤ N.receive_faults door.new }
        ensures sends { N.send_faults door.old ≤ N.send_faults door.new }
        ensures cut { is_cut (is_own result.1) (is_whole result.1) (N.left door.old) (N.left door.new) ≡ true
            → Rose (N.receive_faults door.old) (N.receive_faults door.new) ⊎ Rose (N.send_faults door.old) (N.send_faults door.new) };

    /// Whether it serves no further peer.
    fn is_stopped(&self) -> bool
        ensures { result ≡ is_stopped self.now };
}
