//! One core link whose client knows devices by names, from its connect to its end; and one whose calls are judged by rules besides.
ghost use Rattle.std.specs.Prelude.{◌≡◌, ◌≤◌, IsSome, IfSome};
ghost use Rattle.vx_calls.specs.declared.calls.Role.TheVariants as role;
ghost use Rattle.vx_session.specs.Origin.{origin};
ghost use Rattle.vx_session.specs.Dialing.{dial_shown};
ghost use Rattle.vx_session.specs.Progress.{Clocked};
ghost use Rattle.vx_session.specs.Linking.{LinkDid};
ghost use Rattle.vx_session.specs.Desks.{DeskLink};
ghost use Rattle.vx_desks.specs.NamedDesk.{read_ways};
ghost use Rattle.vx_desks.specs.Names.{named, named_meaning};
ghost use Rattle.std.specs.Option.{option_copied};
ghost use Rattle.vx_desks.specs.RuledLinking.{GuardLinkDid, LabLinkDid, guarded_as};
ghost use Rattle.vx_door.specs.Peering.{IsPeer};

use crate::denying::Note;
use crate::named::Named;
use crate::ruled::Ruled;
use crate::ruled_laws::guard_laws;
use crate::ruled_links::{Gateway, Kit};
use crate::ruled_sessions::GuardRoom;
use std::alloc::Global;
use std::sync::Wait;
use vx_488::Bus;
use vx_calls::Role;
use vx_core::Core;
use vx_gate::{Pass, Turns};
use vx_group::{claims_law, owned_law};
use vx_io_traits::{Clock, Dial, Link, Pause};
use vx_policy::{NameTable, Policy};
use vx_session::{Desk, LinkDone, OneBus, Room, Worker, serve_core_link};

/// Serves a core link at a desk, as one whose calls are read with these names before they come there. How it went stands in `done`
/// then: what comes back holds what is lent to the desk, and nothing else.
fn serve_named<R: Wait, K: Desk, L: Link + Drop>(
    rt: &R,
    alloc: Global,
    desk: K,
    names: &NameTable,
    link: L,
    room: &mut Room,
    done: &mut Option<LinkDone<L>>,
) -> K
    requires free { K.free desk }
    ensures some { IsSome done.new }
    ensures did { IfSome done.new (λ d. DeskLink (read_ways (named names.now) K.Desk) L.Link role.Core (record { server = desk; link = link }) d.how (record { server = result; link = d.link })) }
    ensures free { K.free result }
{
    let (Named { desk, .. }, served) = serve_core_link(
        rt,
        alloc,
        Named { desk, names },
        link,
        room,
    );
    *done = Some(served);
    desk
}

/// Serves a core link as [`core_link`](vx_session::core_link) does, but that a create_link asks for what the table has for its device
/// text (VXI-11, create_link). It takes memory for the connection alone.
pub fn named_link<R: Wait, B: Bus, T: Turns<Core<B>>, L: Link + Drop, C: Clock, P: Pause, D: Dial>(
    gateway: &Gateway<'_, R, T>,
    pass: Pass<Core<B>>,
    names: &NameTable,
    link: L,
    clock: &mut C,
    pause: &mut P,
    dial: &mut D,
    room: &mut Room,
) -> (Pass<Core<B>>, LinkDone<L>)
    requires gate { pass.gate ≡ T.gate gateway.now.turns.now }
    ensures did { LinkDid (named_meaning names.now) (origin B.Bus (T.first gateway.now.turns.now)) L.Link (Clocked C.tells clock.old clock.new) (C.told clock.new) role.Core
        (record { pass = pass; link = link; dial = dial_shown D.Dial dial.old })
        result.1.how (record { pass = result.0; link = result.1.link; dial = dial_shown D.Dial dial.new }) }
    ensures told { C.told clock.old ≤ C.told clock.new }
{
    claims_law();
    owned_law();
    let mut held = Some(pass);
    let desk = OneBus {
        worker: Worker {
            rt: gateway.rt,
            turns: gateway.turns,
            conn: 0,
            role: Role::Core,
        },
        held: &mut held,
        clock,
        pause,
        dial,
    };
    let mut done = None;
    let _ = serve_named(
        gateway.rt,
        gateway.alloc,
        desk,
        names,
        link,
        room,
        &mut done,
    );
    let Some(done) = done else { unreachable!() };
    let Some(pass) = held else { unreachable!() };
    (pass, done)
}

/// Serves a core link of this peer as [`named_link`] does, but that each readable call but the null procedure is judged by the rules, as
/// the names have it. Answers also whether the note failed, by which the session ended then.
fn ruled_link<
    R: Wait,
    B: Bus,
    T: Turns<Core<B>>,
    L: Link + Drop,
    C: Clock + Drop,
    P: Pause + Drop,
    D: Dial + Drop,
    N: Note,
>(
    gateway: &Gateway<'_, R, T>,
    pass: Pass<Core<B>>,
    names: &NameTable,
    policy: &Policy,
    peer: u32,
    link: L,
    kit: &mut Kit<C, P, D>,
    note: &mut N,
) -> (Pass<Core<B>>, LinkDone<L>, bool)
    requires gate { pass.gate ≡ T.gate gateway.now.turns.now }
    requires peer { IsPeer (L.peers link) peer }
    ensures did { GuardLinkDid (named_meaning names.now) (origin B.Bus (T.first gateway.now.turns.now)) L.Link (Clocked C.tells kit.old.clock kit.new.clock) (C.told kit.new.clock) policy.now
        (record { pass = pass; link = link; dial = dial_shown D.Dial kit.old.dial; note = N.took note.old }) (guarded_as result.2 result.1.how)
        (record { pass = result.0; link = result.1.link; dial = dial_shown D.Dial kit.new.dial; note = N.took note.new }) }
    ensures told { C.told kit.old.clock ≤ C.told kit.new.clock }
{
    guard_laws::<B>();
    pass.order();
    let Kit {
        clock,
        pause,
        dial,
        room,
    } = kit;
    let GuardRoom { room, made } = room;
    let mut held = Some(pass);
    let desk = OneBus {
        worker: Worker {
            rt: gateway.rt,
            turns: gateway.turns,
            conn: 0,
            role: Role::Core,
        },
        held: &mut held,
        clock,
        pause,
        dial,
    };
    let ruled = Ruled {
        desk,
        policy,
        peer,
        made,
        note,
        failed: false,
    };
    let mut done = None;
    let Ruled { failed, .. } = serve_named(
        gateway.rt,
        gateway.alloc,
        ruled,
        names,
        link,
        room,
        &mut done,
    );
    let Some(done) = done else { unreachable!() };
    let Some(pass) = held else { unreachable!() };
    (pass, done, failed)
}

/// What a lab wrote down: the names of its devices, and its access rules, where it has some.
#[derive(Clone, Copy)]
pub struct Lab<'a> {
    pub names: &'a NameTable,
    pub policy: Option<&'a Policy>,
}

/// Serves a core link of this peer as [`named_link`] does. Where there are rules each readable call but the null procedure is judged by
/// them, by the peer's address and as the names have it. A call that is denied doesn't reach the core: it is told to the note, and then
/// its reply has the error `NotAccessible` (3), and all else is zero or empty. Where the note fails the session ends without a reply; the
/// answer's last part says whether that was so. It takes memory for the connection alone.
pub fn lab_link<
    R: Wait,
    B: Bus,
    T: Turns<Core<B>>,
    L: Link + Drop,
    C: Clock + Drop,
    P: Pause + Drop,
    D: Dial + Drop,
    N: Note,
>(
    gateway: &Gateway<'_, R, T>,
    pass: Pass<Core<B>>,
    lab: Lab<'_>,
    peer: u32,
    link: L,
    kit: &mut Kit<C, P, D>,
    note: &mut N,
) -> (Pass<Core<B>>, LinkDone<L>, bool)
    requires gate { pass.gate ≡ T.gate gateway.now.turns.now }
    requires peer { IsPeer (L.peers link) peer }
    ensures did { LabLinkDid lab.entry.names.now (option_copied lab.entry.policy) (origin B.Bus (T.first gateway.now.turns.now)) L.Link (Clocked C.tells kit.old.clock kit.new.clock) (C.told kit.new.clock)
        (record { pass = pass; link = link; dial = dial_shown D.Dial kit.old.dial; note = N.took note.old }) result.1.how result.2
        (record { pass = result.0; link = result.1.link; dial = dial_shown D.Dial kit.new.dial; note = N.took note.new }) }
    ensures told { C.told kit.old.clock ≤ C.told kit.new.clock }
{
    match lab.policy {
        Some(policy) => ruled_link(gateway, pass, lab.names, policy, peer, link, kit, note),
        None => {
            let Kit {
                clock,
                pause,
                dial,
                room,
            } = kit;
            let room = &mut room.room;
            let (pass, done) = named_link(gateway, pass, lab.names, link, clock, pause, dial, room);
            (pass, done, false)
        }
    }
}
