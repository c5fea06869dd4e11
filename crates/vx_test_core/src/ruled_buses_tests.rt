//! A session to four buses whose calls are judged by rules: a ruled desk over a fleet. The records are those of RFC 5531, sections 9
//! and 11, and of VXI-11.
ghost use Rattle.std.specs.Prelude.{IfSome};
ghost use Rattle.vx_desks.specs.Four.{Each};
ghost use Rattle.vx_desks.specs.Passing.{passes_shown, IsOf, IsFirst};
ghost use Rattle.vx_desks.specs.Standing.{gates_shown};

use crate::buses_tools::fleet;
use crate::desk_tools::serve_at_desk;
use crate::record_tools::{are_words, words};
use std::alloc::Global;
use std::sync::Wait;
use vx_488::Bus;
use vx_calls::Role;
use vx_desks::{BusPass, Buses, Count, Fleet, FleetWorker, Ruled};
use vx_memory::{MemLink, MemSink};
use vx_policy::{KnownLinks, Policy};
use vx_session::{Desk, End, Linked, NoTools, Room};

// create_link of `gpib2,5`; device_write of `A` with END on link 3; device_readstb on link 3
const GIVES: [u32; 49] = [
    0x80000040, 1, 0, 2, 0x0607AF, 1, 10, 0, 0, 0, 0, 42, 0, 0, 7, 0x67706962, 0x322C3500,
    0x80000040, 2, 0, 2, 0x0607AF, 1, 11, 0, 0, 0, 0, 3, 10000, 0, 8, 1, 0x41000000, 0x80000038, 3,
    0, 2, 0x0607AF, 1, 13, 0, 0, 0, 0, 3, 0, 0, 10000,
];

// link 3; error 3, and no byte written; the status byte of the echo of bus 2
const TOOK: [u32; 29] = [
    0x80000028, 1, 1, 0, 0, 0, 0, 0, 3, 9011, 262144, 0x80000020, 2, 1, 0, 0, 0, 0, 3, 0,
    0x80000020, 3, 1, 0, 0, 0, 0, 0, 12,
];

/// What a session by rules has: the rules, the links that it knows, its room, its link, and the note.
#[derive(Drop)]
struct Kit {
    policy: Policy,
    made: KnownLinks,
    room: Room,
    link: MemLink,
    note: MemSink,
}

/// The same by rules that let nobody write.
fn kit_of(alloc: Global) -> Option<Kit> {
    let gives = words(alloc, &GIVES, &[]).ok()?;
    let policy = Policy::from_text(alloc, b"deny * write *\nallow * * *").ok()?;
    let made = KnownLinks::new(alloc).ok()?;
    let room = Room::new(alloc).ok()?;
    Some(Kit {
        policy,
        made,
        room,
        link: MemLink::new(gives, 100, Vec::new(alloc), Vec::new(alloc)),
        note: MemSink::new(Vec::new(alloc), Vec::new(alloc)),
    })
}

/// Serves its link at this desk by its rules.
fn serve_ruled<R: Wait, D: Desk + Drop>(rt: &R, alloc: Global, desk: D, kit: &mut Kit) -> Linked
    requires { D.free desk }
{
    let Kit {
        policy,
        made,
        room,
        link,
        note,
    } = kit;
    let ruled = Ruled {
        desk,
        policy,
        peer: 0x7F000001,
        made,
        note,
        failed: false,
    };
    serve_at_desk(rt, alloc, ruled, link, room)
}

/// The same at the desk of these buses.
fn serve_by<R: Wait, B: Bus>(
    rt: &R,
    alloc: Global,
    buses: &Buses<B>,
    passes: BusPass<B>,
    kit: &mut Kit,
) -> Linked
    requires { Each IsOf (passes_shown passes) (gates_shown buses.now) }
{
    let mut held = Some(passes);
    let desk = Fleet {
        worker: FleetWorker {
            rt,
            buses,
            count: Count::Four,
            conns: [0; 4],
            role: Role::Core,
        },
        held: &mut held,
        clock: &mut NoTools::new(),
        pause: &mut NoTools::new(),
    };
    serve_ruled(rt, alloc, desk, kit)
}

/// The same by four buses of its own, where there are these.
fn serve<R: Wait, B: Bus + Drop>(
    rt: &R,
    alloc: Global,
    fleet: Option<(Buses<B>, BusPass<B>)>,
    kit: &mut Kit,
) -> Option<Linked>
    requires { IfSome fleet (λ r. Each IsFirst (passes_shown r.1) (gates_shown r.0)) }
{
    let (buses, passes) = fleet?;
    Some(serve_by(rt, alloc, &buses, passes, kit))
}

/// How it ends, where there are buses, and whether the link and the note took what they should.
fn goes<R: Wait>(rt: &R, alloc: Global) -> Option<(Option<Linked>, bool)> {
    let mut kit = kit_of(alloc)?;
    let how = serve(rt, alloc, fleet(alloc), &mut kit);
    let is_told = are_words(kit.link.bytes(), &TOOK)
        && kit.note.bytes() == b"deny 1 1\n".as_slice();
    Some((how, is_told))
}

#[test]
fn rules_over_buses(rt: HostRuntime) {
    let closed = Some(Linked::Ended(End::Closed));
    assert!(rt; goes(&rt, rt.alloc()) == Some((closed, true)));
}
