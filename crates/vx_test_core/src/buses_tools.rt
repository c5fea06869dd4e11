//! Four buses, each with an echo at address 5, which has a status byte of its own, and links that they serve.
ghost use Rattle.std.specs.Prelude.{◌≡◌, length, IfSome};
ghost use Rattle.vx_desks.specs.Four.{Each};
ghost use Rattle.vx_desks.specs.Passing.{passes_shown, IsOf, IsFirst};
ghost use Rattle.vx_desks.specs.Standing.{gates_shown};

use crate::run_tools::add;
use std::alloc::Global;
use std::sync::Wait;
use vx_488::Bus;
use vx_buses::{BusPass, Buses, LinkServer, many_link, start_buses};
use vx_io_traits::{Link, Pause};
use vx_rack::{Echo, Spare};
use vx_session::{Linked, NoTools, Room};
use vx_sim::SimBus;

pub(crate) type Bench = SimBus<Echo>;

/// An echo for each bus, each with a status byte of its own.
pub(crate) fn rack_of(alloc: Global) -> Option<Vec<Spare<Echo>>>
    ensures { IfSome result (λ rack. length rack.items ≡ 4) }
{
    let mut rack = Vec::new(alloc);
    add(alloc, &mut rack, 10)?;
    add(alloc, &mut rack, 11)?;
    add(alloc, &mut rack, 12)?;
    add(alloc, &mut rack, 13)?;
    Some(rack)
}

/// The four, each behind a gate of its own, and the first pass to each.
pub(crate) fn fleet(alloc: Global) -> Option<(Buses<Bench>, BusPass<Bench>)>
    ensures { IfSome result (λ r. Each IsFirst (passes_shown r.1) (gates_shown r.0)) }
{
    start_buses(alloc, rack_of(alloc)?)
}

/// Serves a link, with a clock that tells moment 0.
pub(crate) fn serve_many<R: Wait, B: Bus, L: Link, P: Pause>(
    rt: &R,
    alloc: Global,
    buses: &Buses<B>,
    passes: BusPass<B>,
    link: &mut L,
    pause: &mut P,
    room: Room,
) -> (BusPass<B>, Linked)
    requires { Each IsOf (passes_shown passes) (gates_shown buses.now) }
    ensures { Each IsOf (passes_shown result.0) (gates_shown buses.now) }
{
    let mut room = room;
    let mut clock = NoTools::new();
    let server = LinkServer { rt, alloc, buses };
    many_link(&server, passes, link, &mut clock, pause, &mut room)
}
