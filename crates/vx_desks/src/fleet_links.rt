//! One link of the program, from its connects to its end.
ghost use Rattle.std.specs.Prelude.{◌≡◌, ◌≤◌};
ghost use Rattle.vx_door.specs.Going.{Went};
ghost use Rattle.vx_desks.specs.Four.{Each};
ghost use Rattle.vx_desks.specs.Passing.{passes_shown, IsOf};
ghost use Rattle.vx_desks.specs.Standing.{gates_shown, firsts_shown};
ghost use Rattle.vx_session.specs.Progress.{Clocked};
ghost use Rattle.vx_desks.specs.Origins.{origins};
ghost use Rattle.vx_desks.specs.FleetLinking.{LinkDid};

use crate::asking::FleetWorker;
use crate::fleet_desk::Fleet;
use crate::routes::{Count, fleet_law};
use crate::{BusPass, Buses};
use std::alloc::Global;
use std::sync::Wait;
use vx_488::Bus;
use vx_calls::Role;
use vx_io_traits::{Clock, Link, Pause};
use vx_session::{Linked, Room, serve_link};

/// What serves links: four buses, and the memory of the links' connections.
#[derive(Drop)]
pub struct LinkServer<'a, R, B: Bus> {
    pub rt: &'a R,
    pub alloc: Global,
    pub buses: &'a Buses<B>,
}

/// Serves a link: a core connection to each bus comes up, they have their session, and end. Where one doesn't come up, the link is
/// untouched, and the others go again. It takes memory for the connections alone.
pub fn many_link<R: Wait, B: Bus, L: Link, C: Clock, P: Pause>(
    server: &LinkServer<'_, R, B>,
    passes: BusPass<B>,
    link: &mut L,
    clock: &mut C,
    pause: &mut P,
    room: &mut Room,
) -> (BusPass<B>, Linked)
    requires gates { Each IsOf (passes_shown passes) (gates_shown server.now.buses.now) }
    ensures did { LinkDid (origins B.Bus (firsts_shown server.now.buses.now)) L.Link (Clocked C.tells clock.old clock.new) (C.told clock.new) (record { passes = passes_shown passes; link = link.old })
        result.1 (record { passes = passes_shown result.0; link = link.new }) }
    ensures went { Went L.receives L.sends link.old link.new }
    ensures gates { Each IsOf (passes_shown result.0) (gates_shown server.now.buses.now) }
    ensures told { C.told clock.old ≤ C.told clock.new }
{
    fleet_law();
    let mut held = Some(passes);
    let desk = Fleet {
        worker: FleetWorker {
            rt: server.rt,
            buses: server.buses,
            count: Count::Four,
            conns: [0; 4],
            role: Role::Core,
        },
        held: &mut held,
        clock,
        pause,
    };
    let (_, how) = serve_link(server.rt, server.alloc, desk, Role::Core, link, room);
    let Some(passes) = held else { unreachable!() };
    (passes, how)
}
