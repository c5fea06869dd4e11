//! Links that come to a port, and are served by four buses.
ghost use Rattle.std.specs.Prelude.{◌≡◌, length};
ghost use Rattle.vx_desks.specs.Four.{Each};
ghost use Rattle.vx_desks.specs.Passing.{passes_shown, IsFirst};
ghost use Rattle.vx_desks.specs.Standing.{gates_shown};

use crate::racks::rack_of;
use crate::serving::{Comer, serve, serve_both};
use crate::status::Status;
use crate::words::Links;
use std::alloc::Global;
use std::rt::Clock as SystemClock;
use std::sync::Wait;
use std::thread::Threads;
use vx_488::Bus;
use vx_buses::{BusPass, Buses, start_buses};
use vx_inst::Instrument;
use vx_io::{Accepted, Listen, TcpPort};
use vx_rack::Spare;
use vx_session::Room;

/// The next link, and a room for its session.
fn next_comer(alloc: Global, port: &mut TcpPort) -> Option<Comer> {
    let room = Room::new(alloc).ok()?;
    match port.accept() {
        Accepted::Peer(link) => Some(Comer { link, room }),
        Accepted::Ended | Accepted::Failed => None,
    }
}

/// The links that are served.
#[derive(Drop)]
enum Comers {
    One(Comer),
    Two(Comer, Comer),
}

/// The links that come, so many.
fn comers_at(alloc: Global, port: &mut TcpPort, links: Links) -> Option<Comers> {
    let first = next_comer(alloc, port)?;
    match links {
        Links::One => Some(Comers::One(first)),
        Links::Two => next_comer(alloc, port).map(|second| Comers::Two(first, second)),
    }
}

/// Serves links by buses that no other link knows, and answers whether each was served to its end.
fn serve_on<R: Threads + SystemClock + Wait + Copy + Sync, B: Bus + Send>(
    rt: &R,
    alloc: Global,
    buses: &Buses<B>,
    passes: BusPass<B>,
    comers: Comers,
) -> bool
    requires { Each IsFirst (passes_shown passes) (gates_shown buses.now) }
{
    match comers {
        Comers::One(mut comer) => serve(rt, alloc, buses, passes, &mut comer),
        Comers::Two(one, other) => serve_both(rt, alloc, buses, passes, (one, other)),
    }
}

/// Serves links by four buses with an instrument of the rack each, and answers whether each was served to its end.
fn serve_links<R: Threads + SystemClock + Wait + Copy + Sync, I: Instrument + Send>(
    rt: &R,
    alloc: Global,
    rack: Vec<Spare<I>>,
    comers: Comers,
) -> bool
    requires { length rack.items ≡ 4 }
{
    match start_buses(alloc, rack) {
        Some((buses, passes)) => serve_on(rt, alloc, &buses, passes, comers),
        None => false,
    }
}

/// Serves the links that come, and answers whether all came, and each was served to its end.
fn run<R: Threads + SystemClock + Wait + Copy + Sync>(
    rt: &R,
    alloc: Global,
    port: &mut TcpPort,
    links: Links,
) -> bool {
    match (comers_at(alloc, port, links), rack_of(alloc)) {
        (Some(comers), Some(rack)) => serve_links(rt, alloc, rack, comers),
        _ => false,
    }
}

/// Tells that the port is open, and serves the links that come there.
pub(crate) fn serve_at<R: Threads + SystemClock + Wait + Print + AllocGlobal + Copy + Sync>(
    rt: &R,
    mut port: TcpPort,
    links: Links,
) -> Status {
    if println!(rt; "ready").is_ok() && run(rt, rt.alloc(), &mut port, links) {
        Status::Done
    } else {
        Status::Refused
    }
}
