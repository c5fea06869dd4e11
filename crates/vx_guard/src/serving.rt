//! What serves the peers of a door by the rules of a policy.
ghost use Rattle.std.specs.Prelude.{◌≡◌, ◌||◌};
ghost use Rattle.vx_guard.specs.Peers.{is_note_fault};

use std::sync::Wait;
use vx_488::Bus;
use vx_core::Core;
use vx_desks::{Gateway, GuardEnd, Guarded, Kit, guarded_link};
use vx_door::{Door, Peered};
use vx_gate::{Pass, Turns};
use vx_io_traits::{Clock, Dial, Pause, Sink};
use vx_peers::PeerServer;
use vx_policy::Policy;

/// A gateway and the rules by which its links are guarded. The pass is out of its place while a link is served, and at no other time.
/// Where the note fails no further link is served.
#[derive(Drop)]
pub(crate) struct Guard<
    'g,
    'h,
    'p,
    'k,
    'n,
    R,
    B: Bus,
    T,
    C: Clock + Drop,
    P: Pause + Drop,
    D: Dial + Drop,
    K,
> {
    pub gateway: Gateway<'g, R, T>,
    pub held: &'h mut Option<Pass<Core<B>>>,
    pub policy: &'p Policy,
    pub kit: &'k mut Kit<C, P, D>,
    pub note: &'n mut K,
    /// Whether the note failed.
    pub failed: bool,
}

/// Whether the note failed, before or in a link's session.
fn fails(failed: bool, how: Guarded) -> bool
    ensures { result ≡ (failed || is_note_fault how) }
{
    match how {
        Guarded::Ended(GuardEnd::NoteFault) => true,
        Guarded::Ended(GuardEnd::Ended(_)) | Guarded::Full | Guarded::NoMemory => failed,
    }
}

impl<
    'g,
    'h,
    'p,
    'k,
    'n,
    R: Wait,
    B: Bus,
    T: Turns<Core<B>>,
    N: Door + Peered,
    C: Clock + Drop,
    P: Pause + Drop,
    D: Dial + Drop,
    K: Sink,
> PeerServer<N> for Guard<'g, 'h, 'p, 'k, 'n, R, B, T, C, P, D, K> {
    ghost use Rattle.std.specs.Prelude.{◌≡◌};
    ghost use Rattle.vx_session.specs.Origin.{origin};
    ghost use Rattle.vx_door.specs.Shown.{door_shown};
    ghost use Rattle.vx_guard.specs.Peers.{IsGuardReady, GuardsPeer, guard_has, guard_shown, is_own, is_whole, pass_in};

    type End = Guarded;

    ghost can = { λ s count. IsGuardReady (T.gate s.gateway.turns.now) count s.held.now };

    ghost did = { λ s door how s' door'. GuardsPeer (guard_shown (origin B.Bus (T.first s.gateway.turns.now)) C.Clock N.Link N.Door) s.policy.now
        (guard_has C.Clock D.Dial K.Sink (pass_in s.held.now) s.kit.now.clock s.kit.now.dial s.note.now s.failed) door how
        (guard_has C.Clock D.Dial K.Sink (pass_in s'.held.now) s'.kit.now.clock s'.kit.now.dial s'.note.now s'.failed) door'
        × (T.first s'.gateway.turns.now ≡ T.first s.gateway.turns.now) × (s'.policy.now ≡ s.policy.now) × (s'.note.ghost_name ≡ s.note.ghost_name) };

    ghost is_own = { is_own };

    ghost is_whole = { is_whole };

    ghost is_stopped = { λ s. s.failed };

    /// Serves the peer's link by the rules.
    fn serve(self, _behind: u32, door: &mut N) -> (Self, Guarded) {
        let Guard {
            gateway,
            held,
            policy,
            kit,
            note,
            failed,
        } = self;
        let Some(pass) = held.take() else {
            unreachable!()
        };
        let (pass, how) = guarded_link(&gateway, pass, policy, door, kit, note);
        *held = Some(pass);
        let failed = fails(failed, how);
        let guard = Guard {
            gateway,
            held,
            policy,
            kit,
            note,
            failed,
        };
        (guard, how)
    }

    fn is_stopped(&self) -> bool {
        self.failed
    }
}
