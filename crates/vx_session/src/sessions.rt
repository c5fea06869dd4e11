//! The session of one connection.
ghost use Rattle.std.specs.Prelude.{◌≡◌, ◌≤◌, None, Some};
ghost use Rattle.vx_session.specs.Origin.{origin};
ghost use Rattle.vx_calls.specs.declared.limits.TheConstants.{RECORD_MAX};
ghost use Rattle.vx_calls.specs.declared.calls.Role.TheVariants as role;
ghost use Rattle.vx_exchange.specs.Meaning.{meaning};
ghost use Rattle.vx_group.specs.Phases.{Idle};
ghost use Rattle.vx_session.specs.Turning.{phase_at};
ghost use Rattle.vx_door.specs.Going.{Went};
ghost use Rattle.vx_exchange.specs.declared.record.TheConstants.{REPLY_ROOM};
ghost use Rattle.vx_stream.specs.Stopping.{StreamAnswered};
ghost use Rattle.vx_session.specs.Desks.{DeskSession};
ghost use Rattle.vx_session.specs.Dialing.{dial_shown, no_dial};
ghost use Rattle.vx_session.specs.Progress.{Clocked, ClockedAs, unclocked};
ghost use Rattle.vx_session.specs.declared.sessions.TheConstants.{PIECE};
ghost use Rattle.vx_session.specs.Ending.{SessionDid};

use crate::attending::Attending;
use crate::desks::Desk;
use crate::one_bus::OneBus;
use crate::still::NoTools;
use crate::turns::Worker;
use std::alloc::Global;
use std::marker::Model;
use std::sync::Wait;
use vx_488::Bus;
use vx_calls::{RECORD_MAX, Role};
use vx_core::Core;
use vx_exchange::REPLY_ROOM;
use vx_gate::{Pass, Turns};
use vx_group::{claims_law, owned_law};
use vx_io_traits::{Clock, Dial, Link, Pause};
use vx_record::RecordBuf;
use vx_stream::{Answers, End, answer_stream};

/// There was no memory for the room.
#[derive(Clone, Copy, Debug, PartialEq, Eq)]
pub struct NoMemory;

/// How many bytes are received at once, at most.
const PIECE: usize = 4096;

/// The room of one session at a time, which may be used again by the next: for the record that comes in, a piece of the
/// stream, and a reply. A session takes no memory besides.
#[derive(Drop)]
pub struct Room {
    incoming: RecordBuf,
    piece: Vec<u8>,
    reply: Vec<u8>,
}

impl Model for Room {
    ghost use Rattle.std.specs.Prelude.{◌≡◌, ⊤, length};
    ghost use Rattle.vx_calls.specs.declared.limits.TheConstants.{RECORD_MAX};
    ghost use Rattle.vx_exchange.specs.declared.record.TheConstants.{REPLY_ROOM};
    ghost use Rattle.vx_session.specs.declared.sessions.TheConstants.{PIECE};

    // nothing of it matters to who uses it
    ghost Value = { ⊤ };

    ghost view = { λ _. tt };

    ghost invariant = { λ r. (r.incoming.limit ≡ RECORD_MAX) × (length r.piece.items ≡ PIECE) × (length r.reply.items ≡ REPLY_ROOM) };
}

impl Room {
    /// Makes the room of a session.
    pub fn new(alloc: Global) -> Result<Room, NoMemory> {
        let Ok(incoming) = RecordBuf::new(alloc, RECORD_MAX) else {
            return Err(NoMemory);
        };
        let Ok(piece) = vec![in alloc; 0; PIECE] else {
            return Err(NoMemory);
        };
        let Ok(reply) = vec![in alloc; 0; REPLY_ROOM] else {
            return Err(NoMemory);
        };
        Ok(Room {
            incoming,
            piece,
            reply,
        })
    }

    /// Has the records of a link's stream answered in this room, each before the next is looked for, to the end of the input or to
    /// where another end comes.
    pub fn answer<R: Wait, S: Answers, L: Link>(
        &mut self,
        rt: &R,
        server: S,
        link: &mut L,
    ) -> (S, End)
        requires can { S.can server }
        requires longest { RECORD_MAX ≤ S.longest }
        requires room { S.room ≤ REPLY_ROOM }
        ensures answers { StreamAnswered S.does L.Link RECORD_MAX PIECE None (record { server = server; link = link.old })
            (Some result.1) (record { server = result.0; link = link.new }) }
        ensures went { Went L.receives L.sends link.old link.new }
        ensures can { S.can result.0 }
    {
        let Room {
            incoming,
            piece,
            reply,
        } = self;
        incoming.restart();
        answer_stream(
            rt,
            server,
            link,
            incoming,
            piece.as_mut_slice(),
            reply.as_mut_slice(),
        )
    }
}

/// The session of a connection of this role at a desk: the records of the link's stream are answered there, each before the next, and
/// then the connection goes.
pub fn serve_session<R: Wait, K: Desk, L: Link>(
    rt: &R,
    desk: K,
    role: Role,
    link: &mut L,
    room: &mut Room,
) -> (K, End)
    requires idle { K.idle desk role }
    ensures did { DeskSession K.Desk L.Link role (record { server = desk; link = link.old }) result.1 (record { server = result.0; link = link.new }) }
    ensures went { Went L.receives L.sends link.old link.new }
    ensures free { K.free result.0 }
{
    let (Attending { desk, .. }, end) = room.answer(rt, Attending { desk, role }, link);
    (desk.leave(), end)
}

/// A session at the desk of one bus.
fn run_session<R: Wait, B: Bus, T: Turns<Core<B>>, L: Link, C: Clock, P: Pause, D: Dial>(
    worker: &Worker<'_, R, T>,
    pass: Pass<Core<B>>,
    link: &mut L,
    clock: &mut C,
    pause: &mut P,
    dial: &mut D,
    room: &mut Room,
) -> (Pass<Core<B>>, End)
    requires gate { pass.gate ≡ T.gate worker.now.turns.now }
    requires phase { phase_at pass worker.now.conn ≡ Idle worker.now.role }
    ensures did { SessionDid meaning (origin B.Bus (T.first worker.now.turns.now)) L.Link (ClockedAs worker.now.role C.tells clock.old clock.new) (C.told clock.new) worker.now.role worker.now.conn (record { pass = pass; link = link.old; dial = dial_shown D.Dial dial.old })
        result.1 (record { pass = result.0; link = link.new; dial = dial_shown D.Dial dial.new }) }
    ensures told { C.told clock.old ≤ C.told clock.new }
{
    claims_law();
    owned_law();
    let mut held = Some(pass);
    let desk = OneBus {
        worker: Worker { ..*worker },
        held: &mut held,
        clock,
        pause,
        dial,
    };
    let (_, end) = serve_session(worker.rt, desk, worker.role, link, room);
    let Some(pass) = held else { unreachable!() };
    (pass, end)
}

/// The session of a core connection: it reads records from the link, answers each whole one, in their order, pauses between two
/// polls of a call that has no answer yet, and ends with the connection. The connection is one that the pass made.
pub fn core_session<R: Wait, B: Bus, T: Turns<Core<B>>, L: Link, C: Clock, P: Pause, D: Dial>(
    rt: &R,
    turns: &T,
    pass: Pass<Core<B>>,
    conn: u32,
    link: &mut L,
    clock: &mut C,
    pause: &mut P,
    dial: &mut D,
    room: &mut Room,
) -> (Pass<Core<B>>, End)
    requires gate { pass.gate ≡ T.gate turns.now }
    requires phase { phase_at pass conn ≡ Idle role.Core }
    ensures did { SessionDid meaning (origin B.Bus (T.first turns.now)) L.Link (Clocked C.tells clock.old clock.new) (C.told clock.new) role.Core conn (record { pass = pass; link = link.old; dial = dial_shown D.Dial dial.old })
        result.1 (record { pass = result.0; link = link.new; dial = dial_shown D.Dial dial.new }) }
    ensures told { C.told clock.old ≤ C.told clock.new }
{
    let worker = Worker {
        rt,
        turns,
        conn,
        role: Role::Core,
    };
    run_session(&worker, pass, link, clock, pause, dial, room)
}

/// The session of an abort connection, which waits for nobody but its turn.
pub fn abort_session<R: Wait, B: Bus, T: Turns<Core<B>>, L: Link>(
    rt: &R,
    turns: &T,
    pass: Pass<Core<B>>,
    conn: u32,
    link: &mut L,
    room: &mut Room,
) -> (Pass<Core<B>>, End)
    requires gate { pass.gate ≡ T.gate turns.now }
    requires phase { phase_at pass conn ≡ Idle role.Abort }
    ensures did { SessionDid meaning (origin B.Bus (T.first turns.now)) L.Link unclocked 0 role.Abort conn (record { pass = pass; link = link.old; dial = no_dial })
        result.1 (record { pass = result.0; link = link.new; dial = no_dial }) }
{
    let worker = Worker {
        rt,
        turns,
        conn,
        role: Role::Abort,
    };
    run_session(
        &worker,
        pass,
        link,
        &mut NoTools::new(),
        &mut NoTools::new(),
        &mut NoTools::new(),
        room,
    )
}
