//! The desk of one to four buses: its connections are ones of the passes of the gates round the cores, one of each of four buses.
ghost use Rattle.std.specs.Prelude.{◌≡◌, option_map, Some};
ghost use Rattle.vx_calls.specs.declared.calls.Role.TheVariants as role;
ghost use Rattle.vx_exchange.specs.Meaning.{Asks, Aborts};
ghost use Rattle.vx_desks.specs.FleetDesk.{AreAtGates, AreIdleAt, FleetJoins, FleetLeaves};
ghost use Rattle.vx_desks.specs.Holding.{four_of};
ghost use Rattle.vx_desks.specs.Origins.{origins};
ghost use Rattle.vx_desks.specs.Passing.{passes_shown};
ghost use Rattle.vx_desks.specs.FleetServing.{MeaningDoes, fleet_state};
ghost use Rattle.vx_desks.specs.Standing.{gates_shown, firsts_shown};

use crate::BusPass;
use crate::answering::serve_call;
use crate::asking::{FleetWorker, abort_on_bus};
use crate::joining::{join_all, outcome, undo_all};
use crate::leaving::leave_all;
use crate::routes::place_of;
use std::alloc::Global;
use std::sync::Wait;
use vx_488::Bus;
use vx_calls::Role;
use vx_core::Connect;
use vx_io_traits::{Clock, Pause};
use vx_session::{Desk, Request};

/// What answers the calls of a worker's connections, of as many buses as it serves: turns at the gates, a clock and a pause. A connection of
/// each of the four buses comes up and goes, also of those that aren't served. The passes of the turns are out of their place while turns
/// are taken, and at no other time.
#[derive(Drop)]
pub struct Fleet<'w, 'h, 'c, 'u, R, B: Bus, C, P> {
    /// Who takes the turns; its connections' numbers are those of the connections that came up last.
    pub worker: FleetWorker<'w, R, B>,
    pub held: &'h mut Option<BusPass<B>>,
    pub clock: &'c mut C,
    pub pause: &'u mut P,
}

impl<'w, 'h, 'c, 'u, R: Wait, B: Bus, C: Clock, P: Pause> Desk
    for Fleet<'w, 'h, 'c, 'u, R, B, C, P> {
    // that of bus 0
    ghost number = { λ s. (four_of s.worker.conns).zero_ };

    ghost free = { λ s. AreAtGates (gates_shown s.worker.buses.now)
        (fleet_state C.Clock s.worker.count role.Core (four_of s.worker.conns) (option_map passes_shown s.held.now) s.clock.now) };

    ghost idle = { λ s r. AreIdleAt (gates_shown s.worker.buses.now) r
        (fleet_state C.Clock s.worker.count r (four_of s.worker.conns) (option_map passes_shown s.held.now) s.clock.now) };

    ghost joins = { λ s r answer s'. FleetJoins (origins B.Bus (firsts_shown s.worker.buses.now))
        (fleet_state C.Clock s.worker.count r (four_of s.worker.conns) (option_map passes_shown s.held.now) s.clock.now) r answer
        (fleet_state C.Clock s'.worker.count r (four_of s'.worker.conns) (option_map passes_shown s'.held.now) s'.clock.now)
        × (s'.held.ghost_name ≡ s.held.ghost_name) × (s'.clock.ghost_name ≡ s.clock.ghost_name) × (s'.worker.buses.now ≡ s.worker.buses.now) };

    ghost asks = { λ s xid call reply s'. MeaningDoes (origins B.Bus (firsts_shown s.worker.buses.now)) C.tells
        (fleet_state C.Clock s.worker.count role.Core (four_of s.worker.conns) (option_map passes_shown s.held.now) s.clock.now) (Asks xid call) reply
        (fleet_state C.Clock s'.worker.count role.Core (four_of s'.worker.conns) (option_map passes_shown s'.held.now) s'.clock.now)
        × (s'.held.ghost_name ≡ s.held.ghost_name) × (s'.clock.ghost_name ≡ s.clock.ghost_name) × (s'.worker.buses.now ≡ s.worker.buses.now) };

    ghost aborts = { λ s xid lid reply s'. MeaningDoes (origins B.Bus (firsts_shown s.worker.buses.now)) C.tells
        (fleet_state C.Clock s.worker.count role.Abort (four_of s.worker.conns) (option_map passes_shown s.held.now) s.clock.now) (Aborts xid lid) (Some reply)
        (fleet_state C.Clock s'.worker.count role.Abort (four_of s'.worker.conns) (option_map passes_shown s'.held.now) s'.clock.now)
        × (s'.held.ghost_name ≡ s.held.ghost_name) × (s'.clock.ghost_name ≡ s.clock.ghost_name) × (s'.worker.buses.now ≡ s.worker.buses.now) };

    ghost leaves = { λ s s'. FleetLeaves (origins B.Bus (firsts_shown s.worker.buses.now))
        (fleet_state C.Clock s.worker.count role.Core (four_of s.worker.conns) (option_map passes_shown s.held.now) s.clock.now)
        (fleet_state C.Clock s'.worker.count role.Core (four_of s'.worker.conns) (option_map passes_shown s'.held.now) s'.clock.now)
        × (s'.held.ghost_name ≡ s.held.ghost_name) × (s'.clock.ghost_name ≡ s.clock.ghost_name) × (s'.worker.buses.now ≡ s.worker.buses.now) };

    fn number(&self) -> u32 {
        self.worker.conns[0]
    }

    fn join(self, alloc: Global, role: Role) -> (Self, Result<(), Connect>) {
        let mut desk = self;
        let Some(passes) = desk.held.take() else {
            unreachable!()
        };
        let FleetWorker { rt, buses, .. } = desk.worker;
        let (passes, joined) = join_all(rt, alloc, buses, passes, role);
        match outcome(&joined) {
            Ok(conns) => {
                *desk.held = Some(passes);
                let worker = FleetWorker {
                    conns,
                    role,
                    ..desk.worker
                };
                (Fleet { worker, ..desk }, Ok(()))
            }
            Err(why) => {
                *desk.held = Some(undo_all(rt, buses, passes, &joined));
                (desk, Err(why))
            }
        }
    }

    fn ask(self, request: &Request<'_>, reply: &mut [u8]) -> (Self, Option<usize>) {
        let Fleet {
            worker,
            held,
            clock,
            pause,
        } = self;
        let Some(passes) = held.take() else {
            unreachable!()
        };
        let (passes, len) = serve_call(&worker, passes, request, clock, pause, reply);
        *held = Some(passes);
        let desk = Fleet {
            worker,
            held,
            clock,
            pause,
        };
        (desk, Some(len))
    }

    fn abort(self, xid: u32, lid: u32, reply: &mut [u8]) -> (Self, usize) {
        let Fleet {
            worker,
            held,
            clock,
            pause,
        } = self;
        let Some(passes) = held.take() else {
            unreachable!()
        };
        let (bus, link) = place_of(worker.count, lid);
        let (passes, len) = abort_on_bus(&worker, passes, bus, xid, link, reply);
        *held = Some(passes);
        let desk = Fleet {
            worker,
            held,
            clock,
            pause,
        };
        (desk, len)
    }

    fn leave(self) -> Self {
        let mut desk = self;
        let Some(passes) = desk.held.take() else {
            unreachable!()
        };
        let FleetWorker { rt, buses, .. } = desk.worker;
        *desk.held = Some(leave_all(rt, buses, passes, &desk.worker.conns));
        desk
    }
}
