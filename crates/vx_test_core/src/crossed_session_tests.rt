//! Two sessions at one gate, each in a thread: one waits for a lock that the other frees. The records are those of RFC 5531,
//! sections 9 and 11, and of VXI-11.
ghost use Rattle.std.specs.Prelude.{◌≡◌, ◌+◌, IfSome};
ghost use Rattle.vx_488.specs.Means.{first_means};
ghost use Rattle.vx_gate.specs.Gates.{gate_of};
ghost use Rattle.std.specs.Thread.{IsSync};

use crate::crossing_tools::{Crossing, Flags, Pausing, Ran, Side, TURNS};
use crate::gateway_tools::{gateway, mem_bus};
use std::alloc::Global;
use std::sync::Wait;
use std::test::Fail;
use std::thread::{self, Threads};
use vx_488::Bus;
use vx_calls::Role;
use vx_core::Core;
use vx_gate::{Gate, Pass, Turns};
use vx_io_traits::Clock;
use vx_memory::MemDial;
use vx_session::{End, Room, core_session, join};

/// Tells one more each time.
#[derive(Drop)]
struct Counting {
    told: u64,
}

impl Clock for Counting {
    ghost told = { λ c. c.told };

    fn now(&mut self) -> u64 {
        self.told = self.told.saturating_add(1);
        self.told
    }
}

/// Runs the session of a side, by a pass of its own.
fn run_side<R: Wait, B: Bus, T: Turns<Core<B>>>(
    rt: &R,
    alloc: Global,
    turns: &T,
    pass: Pass<Core<B>>,
    side: Side,
    flags: &Flags,
    room: Room,
) -> (Pass<Core<B>>, Ran)
    requires { pass.gate ≡ T.gate turns.now }
    ensures { (result.0.gate ≡ pass.gate) × (result.0.parts ≡ pass.parts) }
{
    let mut room = room;
    let mut link = Crossing::new(alloc, side, flags);
    let mut pause = Pausing { flags, count: 0 };
    let (pass, end) = serve_side(rt, alloc, turns, pass, &mut link, &mut pause, &mut room);
    let took = link.took_all();
    let pauses = pause.count;
    (pass, Ran { end, took, pauses })
}

/// Serves the link of a side, on a connection of this pass.
fn serve_side<R: Wait, B: Bus, T: Turns<Core<B>>>(
    rt: &R,
    alloc: Global,
    turns: &T,
    pass: Pass<Core<B>>,
    link: &mut Crossing<'_>,
    pause: &mut Pausing<'_>,
    room: &mut Room,
) -> (Pass<Core<B>>, Option<End>)
    requires { pass.gate ≡ T.gate turns.now }
    ensures { (result.0.gate ≡ pass.gate) × (result.0.parts ≡ pass.parts) }
{
    let (pass, joined) = join(rt, alloc, turns, pass, Role::Core);
    let Ok(conn) = joined else {
        return (pass, None);
    };
    let mut clock = Counting { told: 0 };
    let mut dial = MemDial::new(Vec::new(alloc), Vec::new(alloc));
    let (pass, end) = core_session(
        rt, turns, pass, conn, link, &mut clock, pause, &mut dial, room,
    );
    (pass, Some(end))
}

/// Runs both sides at once, each in a thread.
fn run_both<R: Threads + Wait + Sync, B: Bus + Send>(
    rt: &R,
    alloc: Global,
    gate: &Gate<Core<B>>,
    one: Pass<Core<B>>,
    two: Pass<Core<B>>,
    flags: &Flags,
    rooms: (Room, Room),
) -> (Pass<Core<B>>, Ran, Ran)
    requires { (one.gate ≡ gate_of gate.now) × (two.gate ≡ gate_of gate.now) }
    ensures { (result.0.gate ≡ one.gate) × (result.0.parts ≡ one.parts + two.parts) }
{
    let (first_room, second_room) = rooms;
    let ((one, first), (two, second)) = thread::join(
        rt,
        move ||
            requires { one.gate ≡ gate_of gate.now }
            ensures { (result.0.gate ≡ one.gate) × (result.0.parts ≡ one.parts) }
        { run_side(rt, alloc, gate, one, Side::First, flags, first_room) },
        move ||
            requires { two.gate ≡ gate_of gate.now }
            ensures { (result.0.gate ≡ two.gate) × (result.0.parts ≡ two.parts) }
        { run_side(rt, alloc, gate, two, Side::Second, flags, second_room) },
    );
    (gate.meet(one, two), first, second)
}

/// What came of both sessions: how they ended, whether their links took what they should, whether the first paused, and the roles of
/// connections 1 and 2 then.
type Came = ([Option<End>; 2], [bool; 2], bool, [Option<Role>; 2]);

fn cross<R: Threads + Wait + Sync, B: Bus + Drop + Send>(
    rt: &R,
    alloc: Global,
    gate: Gate<Core<B>>,
    pass: Pass<Core<B>>,
    flags: &Flags,
    rooms: (Room, Room),
) -> Came
    requires gate { pass.gate ≡ gate_of gate }
    requires parts { pass.parts ≡ 4294967296 }
{
    let (one, two) = gate.part(pass);
    let (pass, first, second) = run_both(rt, alloc, &gate, one, two, flags, rooms);
    let (core, _pass) = gate.close(pass);
    (
        [first.end, second.end],
        [first.took, second.took],
        first.pauses >= 1 && first.pauses <= TURNS,
        [core.role(1), core.role(2)],
    )
}

/// The same at a gate of its own, over a bus.
fn cross_over<R: Threads + Wait + Sync, B: Bus + Drop + Send>(
    rt: &R,
    alloc: Global,
    bus: Option<B>,
    flags: &Flags,
    rooms: (Room, Room),
) -> Option<Came>
    requires { IfSome bus (λ b. B.means b ≡ first_means) }
{
    let (gate, pass) = gateway(alloc, bus)?;
    Some(cross(rt, alloc, gate, pass, flags, rooms))
}

fn cross_anew<R: Threads + Wait + Sync>(rt: &R, alloc: Global) -> Option<Came> {
    let flags = Flags::new();
    let rooms = (Room::new(alloc).ok()?, Room::new(alloc).ok()?);
    cross_over(rt, alloc, mem_bus(alloc, &[], &[], &[]), &flags, rooms)
}

#[test]
fn crossed_sessions(rt: HostRuntime) -> Result<(), Fail> {
    let closed = Some(End::Closed);
    let wanted = ([closed, closed], [true, true], true, [None, None]);
    let came = cross_anew(&rt, rt.alloc());
    assert!(rt; came == Some(wanted));
    Ok(())
}
