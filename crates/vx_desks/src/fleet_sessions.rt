//! The session of connections to four buses, one of each.
ghost use Rattle.std.specs.Prelude.{◌≡◌, ◌≤◌};
ghost use Rattle.vx_calls.specs.declared.calls.Role.TheVariants as role;
ghost use Rattle.vx_door.specs.Going.{Went};
ghost use Rattle.vx_desks.specs.Passing.{passes_shown};
ghost use Rattle.vx_desks.specs.Standing.{gates_shown, firsts_shown};
ghost use Rattle.vx_session.specs.Progress.{Clocked, ClockedAs, unclocked};
ghost use Rattle.vx_desks.specs.Origins.{origins};
ghost use Rattle.vx_desks.specs.FleetEnding.{FleetSessionDid, SessionDid};
ghost use Rattle.vx_desks.specs.Holding.{four_of, FleetHolds};

use crate::asking::FleetWorker;
use crate::fleet_desk::Fleet;
use crate::routes::{Count, fleet_law};
use crate::{BusPass, Buses};
use std::sync::Wait;
use vx_488::Bus;
use vx_calls::Role;
use vx_io_traits::{Clock, Link, Pause};
use vx_session::{NoTools, Room, serve_session};
use vx_stream::End;

/// A session at the desk of as many buses as the worker serves.
fn run_session<R: Wait, B: Bus, L: Link, C: Clock, P: Pause>(
    worker: &FleetWorker<'_, R, B>,
    pass: BusPass<B>,
    link: &mut L,
    clock: &mut C,
    pause: &mut P,
    room: &mut Room,
) -> (BusPass<B>, End)
    requires holds { FleetHolds (passes_shown pass) (gates_shown worker.now.buses.now) (four_of worker.now.conns) worker.now.role }
    ensures did { FleetSessionDid worker.now.count (origins B.Bus (firsts_shown worker.now.buses.now)) L.Link (ClockedAs worker.now.role C.tells clock.old clock.new) (C.told clock.new) worker.now.role (four_of worker.now.conns) (record { passes = passes_shown pass; link = link.old })
        result.1 (record { passes = passes_shown result.0; link = link.new }) }
    ensures went { Went L.receives L.sends link.old link.new }
    ensures told { C.told clock.old ≤ C.told clock.new }
{
    fleet_law();
    let mut held = Some(pass);
    let desk = Fleet {
        worker: FleetWorker { ..*worker },
        held: &mut held,
        clock,
        pause,
    };
    let (_, end) = serve_session(worker.rt, desk, worker.role, link, room);
    let Some(pass) = held else { unreachable!() };
    (pass, end)
}

/// The session of core connections, one of each bus in their order: it reads records from the link, has each whole one answered by its
/// bus, in their order, and ends with the connections. A create_link goes to the bus that its device text names, `gpib0` to `gpib3`, or
/// else to bus 0; any other call goes to the bus of its link, by the link's number over all buses. A create_intr_chan is answered by
/// error 8, and a destroy_intr_chan by 6. The connections are ones that the passes made.
pub fn many_session<R: Wait, B: Bus, L: Link, C: Clock, P: Pause>(
    rt: &R,
    buses: &Buses<B>,
    pass: BusPass<B>,
    conns: [u32; 4],
    link: &mut L,
    clock: &mut C,
    pause: &mut P,
    room: &mut Room,
) -> (BusPass<B>, End)
    requires holds { FleetHolds (passes_shown pass) (gates_shown buses.now) (four_of conns) role.Core }
    ensures did { SessionDid (origins B.Bus (firsts_shown buses.now)) L.Link (Clocked C.tells clock.old clock.new) (C.told clock.new) role.Core (four_of conns) (record { passes = passes_shown pass; link = link.old })
        result.1 (record { passes = passes_shown result.0; link = link.new }) }
    ensures went { Went L.receives L.sends link.old link.new }
    ensures told { C.told clock.old ≤ C.told clock.new }
{
    let worker = FleetWorker {
        rt,
        buses,
        count: Count::Four,
        conns,
        role: Role::Core,
    };
    run_session(&worker, pass, link, clock, pause, room)
}

/// The session of abort connections, one of each bus, which waits for nobody but its turns: a device_abort goes to the bus of its link.
pub fn many_abort<R: Wait, B: Bus, L: Link>(
    rt: &R,
    buses: &Buses<B>,
    pass: BusPass<B>,
    conns: [u32; 4],
    link: &mut L,
    room: &mut Room,
) -> (BusPass<B>, End)
    requires holds { FleetHolds (passes_shown pass) (gates_shown buses.now) (four_of conns) role.Abort }
    ensures did { SessionDid (origins B.Bus (firsts_shown buses.now)) L.Link unclocked 0 role.Abort (four_of conns) (record { passes = passes_shown pass; link = link.old })
        result.1 (record { passes = passes_shown result.0; link = link.new }) }
    ensures went { Went L.receives L.sends link.old link.new }
{
    let worker = FleetWorker {
        rt,
        buses,
        count: Count::Four,
        conns,
        role: Role::Abort,
    };
    run_session(
        &worker,
        pass,
        link,
        &mut NoTools::new(),
        &mut NoTools::new(),
        room,
    )
}
