//! One link of a guard, from its connect to its end.
ghost use Rattle.std.specs.Prelude.{◌≡◌, ◌≤◌};
ghost use Rattle.vx_session.specs.Origin.{origin};
ghost use Rattle.vx_exchange.specs.Meaning.{meaning};
ghost use Rattle.vx_door.specs.Going.{Went};
ghost use Rattle.vx_text.specs.Ends.{sink_shown};
ghost use Rattle.vx_session.specs.Dialing.{dial_shown};
ghost use Rattle.vx_session.specs.Progress.{Clocked};
ghost use Rattle.vx_desks.specs.RuledLinking.{GuardLinkDid, guarded_as};

use crate::ruled::Ruled;
use crate::ruled_laws::guard_laws;
use crate::ruled_sessions::{GuardEnd, GuardRoom, guard_end};
use std::alloc::Global;
use std::sync::Wait;
use vx_488::Bus;
use vx_calls::Role;
use vx_core::Core;
use vx_door::Peered;
use vx_gate::{Pass, Turns};
use vx_io_traits::{Clock, Dial, Pause, Sink};
use vx_policy::Policy;
use vx_session::{Linked, OneBus, Worker, serve_link};

/// What a gateway's links are served by: the runtime, the memory, and the turns at its gate.
#[derive(Drop)]
pub struct Gateway<'a, R, T> {
    pub rt: &'a R,
    pub alloc: Global,
    pub turns: &'a T,
}

/// What a guard uses for one link after another.
#[derive(Drop)]
pub struct Kit<C: Clock + Drop, P: Pause + Drop, D: Dial + Drop> {
    pub clock: C,
    pub pause: P,
    pub dial: D,
    pub room: GuardRoom,
}

/// How a guarded link's work ended.
#[derive(Clone, Copy)]
pub enum Guarded {
    /// Its connection had a guarded session, which ended so.
    Ended(GuardEnd),
    /// The connection was refused: 64 of the role live, or no number is left. The link is untouched.
    Full,
    /// There was no memory for the connection. The link is untouched.
    NoMemory,
}

/// How a guarded link's work ended whose link was served so, where its note failed or not.
fn guarded_as(failed: bool, how: Linked) -> Guarded
    ensures { result ≡ guarded_as failed how }
{
    match how {
        Linked::Ended(end) => Guarded::Ended(guard_end(failed, end)),
        Linked::Full => Guarded::Full,
        Linked::NoMemory => Guarded::NoMemory,
    }
}

/// Serves a link by the rules of a policy: a core connection comes up, has its guarded session, and ends. The links by which that
/// judges are exactly those that the connection has, at each moment between two messages. It takes memory for the connection alone.
pub fn guarded_link<
    R: Wait,
    B: Bus,
    T: Turns<Core<B>>,
    L: Peered,
    C: Clock + Drop,
    P: Pause + Drop,
    D: Dial + Drop,
    K: Sink,
>(
    gateway: &Gateway<'_, R, T>,
    pass: Pass<Core<B>>,
    policy: &Policy,
    link: &mut L,
    kit: &mut Kit<C, P, D>,
    note: &mut K,
) -> (Pass<Core<B>>, Guarded)
    requires gate { pass.gate ≡ T.gate gateway.now.turns.now }
    ensures did { GuardLinkDid meaning (origin B.Bus (T.first gateway.now.turns.now)) L.Link (Clocked C.tells kit.old.clock kit.new.clock) (C.told kit.new.clock) policy.now
        (record { pass = pass; link = link.old; dial = dial_shown D.Dial kit.old.dial; note = sink_shown K.Sink note.old }) result.1
        (record { pass = result.0; link = link.new; dial = dial_shown D.Dial kit.new.dial; note = sink_shown K.Sink note.new }) }
    ensures told { C.told kit.old.clock ≤ C.told kit.new.clock }
    ensures went { Went L.receives L.sends link.old link.new }
{
    guard_laws::<B>();
    pass.order();
    let Kit {
        clock,
        pause,
        dial,
        room,
    } = kit;
    let GuardRoom { room, made } = room;
    let peer = link.peer();
    let mut held = Some(pass);
    let desk = OneBus {
        worker: Worker {
            rt: gateway.rt,
            turns: gateway.turns,
            conn: 0,
            role: Role::Core,
        },
        held: &mut held,
        clock,
        pause,
        dial,
    };
    let ruled = Ruled {
        desk,
        policy,
        peer,
        made,
        note,
        failed: false,
    };
    let (Ruled { failed, .. }, how) = serve_link(
        gateway.rt,
        gateway.alloc,
        ruled,
        Role::Core,
        link,
        room,
    );
    let how = guarded_as(failed, how);
    let Some(pass) = held else { unreachable!() };
    (pass, how)
}
