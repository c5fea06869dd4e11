//! Links that are served at once, each by a pass of its own to each bus.
ghost use Rattle.std.specs.Prelude.{◌≤◌};
ghost use Rattle.vx_desks.specs.Four.{Each};
ghost use Rattle.vx_desks.specs.Passing.{passes_shown, IsOf, IsFirst};
ghost use Rattle.vx_desks.specs.Standing.{gates_shown};

use std::alloc::Global;
use std::rt::Clock as SystemClock;
use std::sync::Wait;
use std::thread::{self, Threads};
use vx_488::Bus;
use vx_buses::{BusPass, Buses, LinkServer, many_link};
use vx_io::{StdClock, StdPause, TcpLink};
use vx_session::{End, Linked, Room};

/// A link that came, and the room of its session.
#[derive(Drop)]
pub(crate) struct Comer {
    pub(crate) link: TcpLink,
    pub(crate) room: Room,
}

/// Serves a link, and answers whether it was to its end.
pub(crate) fn serve<R: SystemClock + Wait + Copy, B: Bus>(
    rt: &R,
    alloc: Global,
    buses: &Buses<B>,
    passes: BusPass<B>,
    comer: &mut Comer,
) -> bool
    requires { Each IsOf (passes_shown passes) (gates_shown buses.now) }
{
    let (_, how) = many_link(
        &LinkServer { rt, alloc, buses },
        passes,
        &mut comer.link,
        &mut StdClock::new(*rt),
        &mut StdPause::new(*rt),
        &mut comer.room,
    );
    matches!(how, Linked::Ended(End::Closed))
}

/// What a thread does to its end, well or not.
pub(crate) trait Task {
    // when it may be done
    ghost may: { Self → Type 0 };

    fn run(self) -> bool
        requires { may self };
}

/// A link that is served by a pass of its own to each bus.
#[derive(Drop)]
struct Served<'a, R, B: Bus> {
    rt: &'a R,
    alloc: Global,
    buses: &'a Buses<B>,
    passes: BusPass<B>,
    comer: Comer,
}

impl<'a, R: SystemClock + Wait + Copy, B: Bus> Task for Served<'a, R, B> {
    ghost may = { λ s. Each IsOf (passes_shown s.passes) (gates_shown s.buses.now) };

    fn run(self) -> bool {
        let Served {
            rt,
            alloc,
            buses,
            passes,
            mut comer,
        } = self;
        serve(rt, alloc, buses, passes, &mut comer)
    }
}

/// Does both at once, each in a thread, and answers whether both went well.
fn run_both<R: Threads, T: Task + Send + Drop>(rt: &R, one: T, other: T) -> bool
    requires one { T.may one }
    requires other { T.may other }
{
    let (one, other) = thread::join(
        rt,
        move ||
            requires { T.may one }
        { one.run() },
        move ||
            requires { T.may other }
        { other.run() },
    );
    one && other
}

/// Serves two links at once, each in a thread, and answers whether both were to their ends.
pub(crate) fn serve_both<R: Threads + SystemClock + Wait + Copy + Sync, B: Bus + Send>(
    rt: &R,
    alloc: Global,
    buses: &Buses<B>,
    passes: BusPass<B>,
    comers: (Comer, Comer),
) -> bool
    requires { Each IsFirst (passes_shown passes) (gates_shown buses.now) }
{
    let (one, other) = comers;
    let (first, second) = buses.part(passes);
    run_both(
        rt,
        Served {
            rt,
            alloc,
            buses,
            passes: first,
            comer: one,
        },
        Served {
            rt,
            alloc,
            buses,
            passes: second,
            comer: other,
        },
    )
}
