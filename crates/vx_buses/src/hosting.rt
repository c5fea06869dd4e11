//! Four gateways as what serves the links of a door.
use std::alloc::Global;
use std::sync::Wait;
use vx_488::Bus;
use vx_desks::{BusPass, Buses, LinkServer, many_link};
use vx_door::Door;
use vx_io_traits::{Clock, Pause};
use vx_peers::PeerServer;
use vx_session::{Linked, Room};

/// Four gateways, and what a session to them wants.
#[derive(Drop)]
pub(crate) struct Host<'a, R, B: Bus, C, P> {
    pub rt: &'a R,
    pub alloc: Global,
    pub buses: Buses<B>,
    pub passes: BusPass<B>,
    pub clock: C,
    pub pause: P,
    pub room: Room,
}

impl<'a, R: Wait, N: Door, B: Bus, C: Clock, P: Pause> PeerServer<N> for Host<'a, R, B, C, P> {
    ghost use Rattle.std.specs.Prelude.{false};
    ghost use Rattle.vx_desks.specs.Passing.{passes_shown};
    ghost use Rattle.vx_desks.specs.Standing.{gates_shown, firsts_shown};
    ghost use Rattle.vx_buses.specs.Hosting.{IsFleetReady, PeerDid};
    ghost use Rattle.vx_desks.specs.FleetLinking.{is_own, is_whole};

    type End = Linked;

    ghost can = { λ s count. IsFleetReady count (passes_shown s.passes) (gates_shown s.buses) };

    ghost did = { λ s door how s' door'. PeerDid B.Bus C.tells N.Link
        (record { passes = passes_shown s.passes; firsts = firsts_shown s.buses; clock = s.clock; told = C.told s.clock }) door how
        (record { passes = passes_shown s'.passes; firsts = firsts_shown s'.buses; clock = s'.clock; told = C.told s'.clock }) door' };

    ghost is_own = { is_own };

    ghost is_whole = { is_whole };

    // it serves as many as come
    ghost is_stopped = { λ s. false };

    /// Has a connection to each bus come up, and has them serve the link's records, to their end.
    fn serve(self, _behind: u32, door: &mut N) -> (Self, Linked) {
        let Host {
            rt,
            alloc,
            buses,
            passes,
            mut clock,
            mut pause,
            mut room,
        } = self;
        let (passes, how) = many_link(
            &LinkServer {
                rt,
                alloc,
                buses: &buses,
            },
            passes,
            door,
            &mut clock,
            &mut pause,
            &mut room,
        );
        let host = Host {
            rt,
            alloc,
            buses,
            passes,
            clock,
            pause,
            room,
        };
        (host, how)
    }

    fn is_stopped(&self) -> bool {
        false
    }
}
