//! All that the program `vxbuses` does: the words, the port, the links that come there, the lines that are printed, and the status.
ghost use Rattle.std.specs.Prelude.{◌≡◌, length, map, string_bytes};
ghost use Rattle.vx_lone.specs.Lone.{handed, lone};
ghost use Rattle.std.specs.List.{All, AllZip};
ghost use Rattle.vx_desks.specs.Four.{Each, listed};
ghost use Rattle.vx_desks.specs.Passing.{passes_shown, IsFirst};
ghost use Rattle.vx_peers.specs.Asked.{IsPeerInRange};
ghost use Rattle.vx_desks.specs.Standing.{gates_shown, firsts_shown};
ghost use Rattle.vx_text.specs.Ends.{sink_shown};
ghost use Rattle.vx_buses.specs.Starting.{Begins, StandInOrder};
ghost use Rattle.vx_buses.specs.Outcome.{Hosts, IsFleetAskRun, IsFleetRun, FleetEndsRun, fleet_shows};

use crate::hosting::Host;
use crate::starting::{BusOver, start_over};
use std::alloc::Global;
use std::marker::Brand;
use std::sync::Wait;
use vx_488::Bus;
use vx_desks::{BusPass, Buses};
use vx_door::Door;
use vx_inst::Instrument;
use vx_io_traits::Sink;
use vx_lone::{LoneBus, Racked};
use vx_peers::{Ask, DoorStatus, ask_of, put_line, serve_peers};
use vx_rack::Spare;
use vx_session::{Room, Tools};

/// Four gateways, the passes of their gates, and the room of the sessions to them.
#[derive(Drop)]
struct Started<B: Bus> {
    buses: Buses<B>,
    passes: BusPass<B>,
    room: Room,
}

/// Serves what is asked for by four gateways that nobody has asked yet.
fn serve_ask<R: Wait, B: Bus + Drop, N: Door, X: Tools, K: Sink>(
    rt: &R,
    alloc: Global,
    ask: &Ask,
    started: Started<B>,
    net: &mut N,
    tools: &mut X,
    sink: &mut K,
) -> DoorStatus
    requires range { IsPeerInRange ask.now }
    requires first { Each IsFirst (passes_shown started.passes) (gates_shown started.buses) }
    ensures { Hosts B.Bus X.C.tells (fleet_shows N.Link N.Door) (λ firsts. firsts ≡ firsts_shown started.buses) ask.now net.old net.new
        (sink_shown K.Sink sink.old) (sink_shown K.Sink sink.new) result }
{
    let Started {
        buses,
        passes,
        room,
    } = started;
    let host = Host {
        rt,
        alloc,
        buses,
        passes,
        clock: tools.clock(),
        pause: tools.pause(),
        room,
    };
    let (_, how) = serve_peers(ask, host, net, sink);
    how
}

/// Does what is asked, over buses of one kind with the instruments of the rack. All memory but that of the links' connections is taken
/// before the port is opened.
fn run_over<R: Wait, I: Instrument, B: BusOver<I> + Drop, N: Door, X: Tools, K: Sink>(
    rt: &R,
    alloc: Global,
    ask: &Ask,
    net: &mut N,
    tools: &mut X,
    sink: &mut K,
    rack: Vec<Spare<I>>,
) -> DoorStatus
    requires range { IsPeerInRange ask.now }
    requires four { length rack.items ≡ 4 }
    requires may { All B.may (handed (λ i. I.behaves i) (λ i. I.nature i) rack.items) }
    ensures { IsFleetAskRun B.Bus X.C.tells (fleet_shows N.Link N.Door) (λ firsts. AllZip (Begins B.Bus B.stands) (handed (λ i. I.behaves i) (λ i. I.nature i) rack.items) (listed firsts)) ask.now net.old net.new
        (sink_shown K.Sink sink.old) (sink_shown K.Sink sink.new) result }
{
    let Ok(room) = Room::new(alloc) else {
        return DoorStatus::NoMemory;
    };
    match start_over::<I, B>(alloc, rack) {
        Some((buses, passes)) => {
            let started = Started {
                buses,
                passes,
                room,
            };
            serve_ask(rt, alloc, ask, started, net, tools, sink)
        }
        None => DoorStatus::NoMemory,
    }
}

/// Does what is asked, over buses that have one instrument of the rack each. `M` names the rack.
fn run_racked<R: Wait, I: Instrument, N: Door, X: Tools, K: Sink, M: Racked>(
    rt: &R,
    alloc: Global,
    ask: &Ask,
    net: &mut N,
    tools: &mut X,
    sink: &mut K,
    rack: Vec<Spare<I>>,
) -> DoorStatus
    requires range { IsPeerInRange ask.now }
    requires four { length rack.items ≡ 4 }
    requires racked { M.rack ≡ handed (λ i. I.behaves i) (λ i. I.nature i) rack.items }
    ensures { IsFleetAskRun (lone M.rack) X.C.tells (fleet_shows N.Link N.Door) (StandInOrder M.rack) ask.now net.old net.new
        (sink_shown K.Sink sink.old) (sink_shown K.Sink sink.new) result }
{
    run_over::<R, I, LoneBus<I, M>, N, X, K>(rt, alloc, ask, net, tools, sink, rack)
}

/// Does what is asked, over buses with the spares of the rack.
fn run_ask<R: Wait, I: Instrument, N: Door, X: Tools, K: Sink>(
    rt: &R,
    alloc: Global,
    ask: &Ask,
    net: &mut N,
    tools: &mut X,
    sink: &mut K,
    rack: Vec<Spare<I>>,
) -> DoorStatus
    requires range { IsPeerInRange ask.now }
    requires four { length rack.items ≡ 4 }
    ensures { IsFleetAskRun (lone (handed (λ i. I.behaves i) (λ i. I.nature i) rack.items)) X.C.tells (fleet_shows N.Link N.Door) (StandInOrder (handed (λ i. I.behaves i) (λ i. I.nature i) rack.items)) ask.now net.old net.new
        (sink_shown K.Sink sink.old) (sink_shown K.Sink sink.new) result }
{
    run_racked::<R, I, N, X, K, Brand>(rt, alloc, ask, net, tools, sink, rack)
}

fn run<R: Wait, I: Instrument, N: Door, X: Tools, K: Sink>(
    rt: &R,
    alloc: Global,
    words: &[String],
    net: &mut N,
    tools: &mut X,
    sink: &mut K,
    rack: Vec<Spare<I>>,
) -> DoorStatus
    requires four { length rack.items ≡ 4 }
    ensures { IsFleetRun (lone (handed (λ i. I.behaves i) (λ i. I.nature i) rack.items)) X.C.tells (fleet_shows N.Link N.Door) (StandInOrder (handed (λ i. I.behaves i) (λ i. I.nature i) rack.items)) (map string_bytes words.now) net.old net.new
        (sink_shown K.Sink sink.old) (sink_shown K.Sink sink.new) result }
{
    match ask_of(words) {
        Some(ask) => run_ask(rt, alloc, &ask, net, tools, sink, rack),
        None => put_line(sink, b"usage: vxbuses PORT N\n", DoorStatus::Usage),
    }
}

/// All that the program `vxbuses` does: it serves links to four buses, `gpib0` to `gpib3`, one link after another, and answers the exit
/// status.
///
/// The words are `PORT N`, with a port 1 to 65,535 and N 1 to 1,000,000, in decimal digits without a leading zero. Each bus is a
/// simulated one with the instrument of its place in the rack at primary address 5, and is a gateway behind a gate of its own; their
/// histories begin with nothing. Each link that comes to the port has a connection to each bus, and their session ([`many_link`]). A
/// link for whose connections there is no memory gets nothing, and counts as served. At the end `served N` is printed with the number of
/// links: those asked for, or fewer where no more come.
///
/// - 0: the line was printed.
/// - 1, `usage: vxbuses PORT N`: the words have another form. Nothing is opened.
/// - 3, nothing printed: the port couldn't be opened, or a wait for a link failed.
/// - 5, nothing printed and nothing opened: there was no memory.
/// - 6: the sink failed; a front of what was due was written.
///
/// Each bus's history goes on, step after step, from the one bus that its gate was started over, on which the instrument of its place in
/// the rack stood. The four gateways begin with nothing in them and with their abort channels at port 9011, which a create_link tells.
///
/// A fault of a link ends that link alone. One port is opened, once: that of the words, as a door tells it that tells its openings. That
/// each bus has one instrument of the rack at that address, and nothing else, is part of what is said of each poll
/// ([`LoneBus`](vx_lone::LoneBus)).
pub fn buses_run<R: Wait, I: Instrument, N: Door, X: Tools, K: Sink>(
    rt: &R,
    alloc: Global,
    words: &[String],
    net: &mut N,
    tools: &mut X,
    sink: &mut K,
    rack: Vec<Spare<I>>,
) -> u8
    requires four { length rack.items ≡ 4 }
    ensures { FleetEndsRun (lone (handed (λ i. I.behaves i) (λ i. I.nature i) rack.items)) X.C.tells (fleet_shows N.Link N.Door) (StandInOrder (handed (λ i. I.behaves i) (λ i. I.nature i) rack.items)) (map string_bytes words.now) net.old net.new
        (sink_shown K.Sink sink.old) (sink_shown K.Sink sink.new) result }
{
    run(rt, alloc, words, net, tools, sink, rack).number()
}
