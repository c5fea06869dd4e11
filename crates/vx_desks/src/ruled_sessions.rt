//! The guarded session of one core connection.
ghost use Rattle.std.specs.Prelude.{◌≡◌, ◌≤◌, ℕ};
ghost use Rattle.vx_session.specs.Origin.{origin};
ghost use Rattle.vx_exchange.specs.Meaning.{meaning};
ghost use Rattle.vx_door.specs.Going.{Went};
ghost use Rattle.vx_calls.specs.declared.calls.Role.TheVariants as role;
ghost use Rattle.vx_group.specs.Phases.{Idle};
ghost use Rattle.vx_session.specs.Turning.{phase_at};
ghost use Rattle.vx_session.specs.Dialing.{dial_shown};
ghost use Rattle.vx_door.specs.Peering.{IsPeer};
ghost use Rattle.vx_text.specs.Ends.{sink_shown};
ghost use Rattle.vx_session.specs.Progress.{Clocked};
ghost use Rattle.vx_desks.specs.Wholes.{GuardDid, guard_end};

use crate::NoMemory;
use crate::ruled::Ruled;
use crate::ruled_laws::guard_laws;
use std::alloc::Global;
use std::marker::Model;
use std::sync::Wait;
use vx_488::Bus;
use vx_calls::Role;
use vx_core::Core;
use vx_door::Peered;
use vx_gate::{Pass, Turns};
use vx_io_traits::{Clock, Dial, Pause, Sink};
use vx_policy::{KnownLinks, Policy};
use vx_session::{OneBus, Room, Worker, serve_session};
use vx_stream::End;

/// How a guarded session ended.
#[derive(Clone, Copy, PartialEq, Eq)]
pub enum GuardEnd {
    /// As each session may end.
    Ended(End),
    /// The note failed in the line of a denial; the denied call has no reply.
    NoteFault,
}

/// The room of one guarded session at a time, which may be used again by the next: for the record that comes in, a piece of the
/// stream, a reply, and the links that the session made. A session takes no memory besides.
#[derive(Drop)]
pub struct GuardRoom {
    pub(crate) room: Room,
    pub(crate) made: KnownLinks,
}

impl Model for GuardRoom {
    ghost use Rattle.std.specs.Prelude.{⊤};

    // nothing of it matters to who uses it
    ghost Value = { ⊤ };

    ghost view = { λ _. tt };
}

impl GuardRoom {
    /// Makes the room of a session.
    pub fn new(alloc: Global) -> Result<GuardRoom, NoMemory> {
        let Ok(room) = Room::new(alloc) else {
            return Err(NoMemory);
        };
        let Ok(made) = KnownLinks::new(alloc) else {
            return Err(NoMemory);
        };
        Ok(GuardRoom { room, made })
    }
}

/// How a session ended whose stream ended so, where its note failed or not.
pub(crate) fn guard_end(failed: bool, end: End) -> GuardEnd
    ensures { result ≡ guard_end failed end }
{
    if failed {
        GuardEnd::NoteFault
    } else {
        GuardEnd::Ended(end)
    }
}

/// The session of a core connection that is guarded by a policy. It does what `core_session` does, save that each readable call
/// but the null procedure is judged as its record is taken, by the address of the peer that the link tells as the session
/// begins. A call that is denied doesn't reach the core: the line `deny CONN RULE` goes to the note, and then its reply has the
/// error `NotAccessible` (3), and all else is zero or empty. Where the connection had no link as the session began, the links by
/// which it judges are exactly those that the connection has, at each moment between two messages.
pub fn guarded_session<
    R: Wait,
    B: Bus,
    T: Turns<Core<B>>,
    L: Peered,
    C: Clock,
    P: Pause,
    D: Dial,
    K: Sink,
>(
    rt: &R,
    turns: &T,
    pass: Pass<Core<B>>,
    conn: u32,
    policy: &Policy,
    link: &mut L,
    clock: &mut C,
    pause: &mut P,
    dial: &mut D,
    room: &mut GuardRoom,
    note: &mut K,
) -> (Pass<Core<B>>, GuardEnd)
    requires gate { pass.gate ≡ T.gate turns.now }
    requires phase { phase_at pass conn ≡ Idle role.Core }
    ensures did { (peer : ℕ) × IsPeer (L.peers link.old) peer × GuardDid meaning (origin B.Bus (T.first turns.now)) L.Link (Clocked C.tells clock.old clock.new) (C.told clock.new) policy.now peer conn
        (record { pass = pass; link = link.old; dial = dial_shown D.Dial dial.old; note = sink_shown K.Sink note.old }) result.1
        (record { pass = result.0; link = link.new; dial = dial_shown D.Dial dial.new; note = sink_shown K.Sink note.new }) }
    ensures told { C.told clock.old ≤ C.told clock.new }
    ensures went { Went L.receives L.sends link.old link.new }
{
    guard_laws::<B>();
    pass.order();
    let GuardRoom { room, made } = room;
    made.clear();
    let peer = link.peer();
    let mut held = Some(pass);
    let desk = OneBus {
        worker: Worker {
            rt,
            turns,
            conn,
            role: Role::Core,
        },
        held: &mut held,
        clock,
        pause,
        dial,
    };
    let ruled = Ruled {
        desk,
        policy,
        peer,
        made,
        note,
        failed: false,
    };
    let (Ruled { failed, .. }, end) = serve_session(rt, ruled, Role::Core, link, room);
    let how = guard_end(failed, end);
    let Some(pass) = held else { unreachable!() };
    (pass, how)
}
