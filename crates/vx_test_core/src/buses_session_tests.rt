//! Links over four buses, and over the first two of them. The records are those of RFC 5531, sections 9 and 11, and of VXI-11.
ghost use Rattle.std.specs.Prelude.{IfSome};
ghost use Rattle.vx_desks.specs.Four.{Each};
ghost use Rattle.vx_desks.specs.Passing.{passes_shown, IsOf, IsFirst};
ghost use Rattle.vx_desks.specs.Standing.{gates_shown};

use crate::buses_tools::fleet;
use crate::desk_tools::serve_at_desk;
use crate::record_tools::{are_words, words};
use std::alloc::Global;
use std::sync::Wait;
use vx_488::Bus;
use vx_calls::Role;
use vx_desks::{BusPass, Buses, Count, Fleet, FleetWorker};
use vx_memory::MemLink;
use vx_session::{End, Linked, NoTools, Room};

// create_link of `gpib2,5` and of `GPIB0,5`; device_write of `A` with END on links 3 and 2; destroy_intr_chan; create_intr_chan;
// device_read on link 3, and on link 1 with no time; create_link of `gpib1,5` and of `gpib3,5`; device_readstb on links 1 to 4
const GIVES: [u32; 223] = [
    0x80000040, 1, 0, 2, 0x0607AF, 1, 10, 0, 0, 0, 0, 42, 0, 0, 7, 0x67706962, 0x322C3500,
    0x80000040, 2, 0, 2, 0x0607AF, 1, 10, 0, 0, 0, 0, 42, 0, 0, 7, 0x47504942, 0x302C3500,
    0x80000040, 3, 0, 2, 0x0607AF, 1, 11, 0, 0, 0, 0, 3, 10000, 0, 8, 1, 0x41000000, 0x80000040, 4,
    0, 2, 0x0607AF, 1, 11, 0, 0, 0, 0, 2, 10000, 0, 8, 1, 0x41000000, 0x80000028, 5, 0, 2,
    0x0607AF, 1, 26, 0, 0, 0, 0, 0x8000003C, 14, 0, 2, 0x0607AF, 1, 25, 0, 0, 0, 0, 0x7F000001,
    9012, 0x0607B1, 1, 0, 0x80000040, 6, 0, 2, 0x0607AF, 1, 12, 0, 0, 0, 0, 3, 10, 10000, 0, 0, 0,
    0x80000040, 7, 0, 2, 0x0607AF, 1, 12, 0, 0, 0, 0, 1, 10, 0, 0, 0, 0, 0x80000040, 8, 0, 2,
    0x0607AF, 1, 10, 0, 0, 0, 0, 42, 0, 0, 7, 0x67706962, 0x312C3500, 0x80000040, 9, 0, 2,
    0x0607AF, 1, 10, 0, 0, 0, 0, 42, 0, 0, 7, 0x67706962, 0x332C3500, 0x80000038, 10, 0, 2,
    0x0607AF, 1, 13, 0, 0, 0, 0, 1, 0, 0, 10000, 0x80000038, 11, 0, 2, 0x0607AF, 1, 13, 0, 0, 0, 0,
    2, 0, 0, 10000, 0x80000038, 12, 0, 2, 0x0607AF, 1, 13, 0, 0, 0, 0, 3, 0, 0, 10000, 0x80000038,
    13, 0, 2, 0x0607AF, 1, 13, 0, 0, 0, 0, 4, 0, 0, 10000,
];

// links 3 and 1; one byte written; no link 2 yet; no channel, and none over several buses; `A` with END; nothing in the time; links 2
// and 4; and the status byte of the echo of each bus
const TOOK: [u32; 135] = [
    0x80000028, 1, 1, 0, 0, 0, 0, 0, 3, 9011, 262144, 0x80000028, 2, 1, 0, 0, 0, 0, 0, 1, 9011,
    262144, 0x80000020, 3, 1, 0, 0, 0, 0, 0, 1, 0x80000020, 4, 1, 0, 0, 0, 0, 4, 0, 0x8000001C, 5,
    1, 0, 0, 0, 0, 6, 0x8000001C, 14, 1, 0, 0, 0, 0, 8, 0x80000028, 6, 1, 0, 0, 0, 0, 0, 4, 1,
    0x41000000, 0x80000024, 7, 1, 0, 0, 0, 0, 15, 0, 0, 0x80000028, 8, 1, 0, 0, 0, 0, 0, 2, 9011,
    262144, 0x80000028, 9, 1, 0, 0, 0, 0, 0, 4, 9011, 262144, 0x80000020, 10, 1, 0, 0, 0, 0, 0, 10,
    0x80000020, 11, 1, 0, 0, 0, 0, 0, 11, 0x80000020, 12, 1, 0, 0, 0, 0, 0, 12, 0x80000020, 13, 1,
    0, 0, 0, 0, 0, 13,
];

// create_link of `gpib1,5`, of `GPIB2,5` and of `gpib3,5`; device_readstb on links 2, 3 and 4
const FEW: [u32; 96] = [
    0x80000040, 1, 0, 2, 0x0607AF, 1, 10, 0, 0, 0, 0, 42, 0, 0, 7, 0x67706962, 0x312C3500,
    0x80000040, 2, 0, 2, 0x0607AF, 1, 10, 0, 0, 0, 0, 42, 0, 0, 7, 0x47504942, 0x322C3500,
    0x80000040, 3, 0, 2, 0x0607AF, 1, 10, 0, 0, 0, 0, 42, 0, 0, 7, 0x67706962, 0x332C3500,
    0x80000038, 4, 0, 2, 0x0607AF, 1, 13, 0, 0, 0, 0, 2, 0, 0, 10000, 0x80000038, 5, 0, 2,
    0x0607AF, 1, 13, 0, 0, 0, 0, 3, 0, 0, 10000, 0x80000038, 6, 0, 2, 0x0607AF, 1, 13, 0, 0, 0, 0,
    4, 0, 0, 10000,
];

// link 2, no device, no device; the status byte of the echo of bus 1; no links 3 and 4
const FEW_TOOK: [u32; 60] = [
    0x80000028, 1, 1, 0, 0, 0, 0, 0, 2, 9011, 262144, 0x80000028, 2, 1, 0, 0, 0, 0, 3, 0, 0, 0,
    0x80000028, 3, 1, 0, 0, 0, 0, 3, 0, 0, 0, 0x80000020, 4, 1, 0, 0, 0, 0, 0, 11, 0x80000020, 5,
    1, 0, 0, 0, 0, 4, 0, 0x80000020, 6, 1, 0, 0, 0, 0, 4, 0,
];

// How many buses are served, what a link gives, and what it takes.
static ROWS: [(Count, &[u32], &[u32]); 2] = [
    (Count::Four, &GIVES, &TOOK),
    (Count::Two, &FEW, &FEW_TOOK),
];

/// Serves a link by so many of these buses.
fn serve_by<R: Wait, B: Bus>(
    rt: &R,
    alloc: Global,
    buses: &Buses<B>,
    passes: BusPass<B>,
    count: Count,
    link: &mut MemLink,
    room: &mut Room,
) -> Linked
    requires { Each IsOf (passes_shown passes) (gates_shown buses.now) }
{
    let mut held = Some(passes);
    let desk = Fleet {
        worker: FleetWorker {
            rt,
            buses,
            count,
            conns: [0; 4],
            role: Role::Core,
        },
        held: &mut held,
        clock: &mut NoTools::new(),
        pause: &mut NoTools::new(),
    };
    serve_at_desk(rt, alloc, desk, link, room)
}

/// Serves a link by so many of four buses of its own, where there are these.
fn serve<R: Wait, B: Bus + Drop>(
    rt: &R,
    alloc: Global,
    fleet: Option<(Buses<B>, BusPass<B>)>,
    count: Count,
    link: &mut MemLink,
    room: &mut Room,
) -> Option<Linked>
    requires { IfSome fleet (λ r. Each IsFirst (passes_shown r.1) (gates_shown r.0)) }
{
    let (buses, passes) = fleet?;
    Some(serve_by(rt, alloc, &buses, passes, count, link, room))
}

/// Serves a link that gives these words: how it ends, where there are buses, and whether it takes these.
fn goes<R: Wait>(
    rt: &R,
    alloc: Global,
    count: Count,
    gives: &[u32],
    took: &[u32],
) -> Option<(Option<Linked>, bool)> {
    let gives = words(alloc, gives, &[]).ok()?;
    let mut room = Room::new(alloc).ok()?;
    let mut link = MemLink::new(gives, 100, Vec::new(alloc), Vec::new(alloc));
    let how = serve(rt, alloc, fleet(alloc), count, &mut link, &mut room);
    Some((how, are_words(link.bytes(), took)))
}

#[test]
fn calls_go_to_their_buses(rt: HostRuntime) {
    let closed = Some(Linked::Ended(End::Closed));
    for (place, (count, gives, took)) in ROWS.iter().enumerate() {
        let came = goes(&rt, rt.alloc(), *count, gives, took);
        assert!(rt; came == Some((closed, true)), "row {place}");
    }
}
