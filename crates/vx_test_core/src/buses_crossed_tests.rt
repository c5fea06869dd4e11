//! Two workers on two passes of the four gates, each in a thread: one has a read that waits, and the other tells its abort. The records
//! are those of RFC 5531, sections 9 and 11, and of VXI-11.
ghost use Rattle.std.specs.Prelude.{◌≡◌, IfSome};
ghost use Rattle.vx_calls.specs.declared.calls.Role.TheVariants as role;
ghost use Rattle.vx_desks.specs.Four.{Each};
ghost use Rattle.vx_desks.specs.Passing.{passes_shown, IsOf, IsFirst};
ghost use Rattle.vx_desks.specs.Standing.{gates_shown};
ghost use Rattle.vx_desks.specs.Holding.{four_of, FleetHolds};

use crate::buses_tools::{fleet, serve_many};
use crate::crossing_tools::{Crossing, Flags, Pausing, Ran, Side};
use std::alloc::Global;
use std::sync::Wait;
use std::test::Fail;
use std::thread::{self, Threads};
use vx_488::Bus;
use vx_buses::{BusPass, Buses, many_abort};
use vx_calls::Role;
use vx_desks::Passes;
use vx_session::{End, Linked, Room, join};

/// An abort connection to each bus, where all come up.
fn join_aborts<R: Wait, B: Bus>(
    rt: &R,
    alloc: Global,
    buses: &Buses<B>,
    passes: BusPass<B>,
) -> (BusPass<B>, Option<[u32; 4]>)
    requires gates { Each IsOf (passes_shown passes) (gates_shown buses.now) }
    ensures gates { Each IsOf (passes_shown result.0) (gates_shown buses.now) }
    ensures held { IfSome result.1 (λ conns. FleetHolds (passes_shown result.0) (gates_shown buses.now) (four_of conns) role.Abort) }
{
    let (zero, zeroth) = join(rt, alloc, &buses.zero, passes.zero, Role::Abort);
    let (one, first) = join(rt, alloc, &buses.one, passes.one, Role::Abort);
    let (two, second) = join(rt, alloc, &buses.two, passes.two, Role::Abort);
    let (three, third) = join(rt, alloc, &buses.three, passes.three, Role::Abort);
    let passes = Passes {
        zero,
        one,
        two,
        three,
    };
    match (zeroth, first, second, third) {
        (Ok(zero), Ok(one), Ok(two), Ok(three)) => (passes, Some([zero, one, two, three])),
        _ => (passes, None),
    }
}

/// Serves the link whose read waits.
fn run_reader<R: Wait, B: Bus>(
    rt: &R,
    alloc: Global,
    buses: &Buses<B>,
    passes: BusPass<B>,
    flags: &Flags,
    room: Room,
) -> (BusPass<B>, Ran)
    requires { Each IsOf (passes_shown passes) (gates_shown buses.now) }
    ensures { Each IsOf (passes_shown result.0) (gates_shown buses.now) }
{
    let mut link = Crossing::new(alloc, Side::Reader, flags);
    let mut pause = Pausing { flags, count: 0 };
    let (passes, how) = serve_many(rt, alloc, buses, passes, &mut link, &mut pause, room);
    let end = match how {
        Linked::Ended(end) => Some(end),
        Linked::Full | Linked::NoMemory => None,
    };
    let took = link.took_all();
    let pauses = pause.count;
    (passes, Ran { end, took, pauses })
}

/// Serves the link of the abort.
fn run_aborter<R: Wait, B: Bus>(
    rt: &R,
    alloc: Global,
    buses: &Buses<B>,
    passes: BusPass<B>,
    flags: &Flags,
    room: Room,
) -> (BusPass<B>, Ran)
    requires { Each IsOf (passes_shown passes) (gates_shown buses.now) }
    ensures { Each IsOf (passes_shown result.0) (gates_shown buses.now) }
{
    let mut room = room;
    let mut link = Crossing::new(alloc, Side::Aborter, flags);
    let (passes, end) = serve_aborter(rt, alloc, buses, passes, &mut link, &mut room);
    let took = link.took_all();
    let pauses = 0;
    (passes, Ran { end, took, pauses })
}

/// Serves it on connections of its own.
fn serve_aborter<R: Wait, B: Bus>(
    rt: &R,
    alloc: Global,
    buses: &Buses<B>,
    passes: BusPass<B>,
    link: &mut Crossing<'_>,
    room: &mut Room,
) -> (BusPass<B>, Option<End>)
    requires { Each IsOf (passes_shown passes) (gates_shown buses.now) }
    ensures { Each IsOf (passes_shown result.0) (gates_shown buses.now) }
{
    let (passes, joined) = join_aborts(rt, alloc, buses, passes);
    let Some(conns) = joined else {
        return (passes, None);
    };
    let (passes, end) = many_abort(rt, buses, passes, conns, link, room);
    (passes, Some(end))
}

/// Runs both sides at once, each in a thread.
fn run_both<R: Threads + Wait + Sync, B: Bus + Send>(
    rt: &R,
    alloc: Global,
    buses: &Buses<B>,
    one: BusPass<B>,
    two: BusPass<B>,
    flags: &Flags,
    rooms: (Room, Room),
) -> (Ran, Ran)
    requires one { Each IsOf (passes_shown one) (gates_shown buses.now) }
    requires two { Each IsOf (passes_shown two) (gates_shown buses.now) }
{
    let (first_room, second_room) = rooms;
    let ((one, first), (two, second)) = thread::join(
        rt,
        move ||
            requires { Each IsOf (passes_shown one) (gates_shown buses.now) }
            ensures { Each IsOf (passes_shown result.0) (gates_shown buses.entry.now) }
        { run_reader(rt, alloc, buses, one, flags, first_room) },
        move ||
            requires { Each IsOf (passes_shown two) (gates_shown buses.now) }
            ensures { Each IsOf (passes_shown result.0) (gates_shown buses.entry.now) }
        { run_aborter(rt, alloc, buses, two, flags, second_room) },
    );
    let _ = buses.meet(one, two);
    (first, second)
}

/// What came of both sides: how they ended, and whether their links took what they should.
type Came = ([Option<End>; 2], [bool; 2]);

fn cross<R: Threads + Wait + Sync, B: Bus + Drop + Send>(
    rt: &R,
    alloc: Global,
    fleet: Option<(Buses<B>, BusPass<B>)>,
    rooms: (Room, Room),
) -> Option<Came>
    requires { IfSome fleet (λ r. Each IsFirst (passes_shown r.1) (gates_shown r.0)) }
{
    let flags = Flags::new();
    let (buses, passes) = fleet?;
    let (one, two) = buses.part(passes);
    let (reader, aborter) = run_both(rt, alloc, &buses, one, two, &flags, rooms);
    Some(([reader.end, aborter.end], [reader.took, aborter.took]))
}

fn cross_anew<R: Threads + Wait + Sync>(rt: &R, alloc: Global) -> Option<Came> {
    let rooms = (Room::new(alloc).ok()?, Room::new(alloc).ok()?);
    cross(rt, alloc, fleet(alloc), rooms)
}

#[test]
fn abort_of_a_read_on_another_pass(rt: HostRuntime) -> Result<(), Fail> {
    let closed = Some(End::Closed);
    assert_eq!(rt;
        cross_anew(&rt, rt.alloc()),
        Some(([closed, closed], [true, true]))
    );
    Ok(())
}
