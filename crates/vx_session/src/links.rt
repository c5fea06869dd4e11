//! One link of a server, from its connect to its end, and the count of those that were served.
ghost use Rattle.std.specs.Prelude.{◌≡◌, ◌≤◌, ◌+◌, ◌-◌, ◌^◌, min};
ghost use Rattle.vx_session.specs.Origin.{origin};
ghost use Rattle.vx_calls.specs.declared.calls.Role.TheVariants as role;
ghost use Rattle.vx_exchange.specs.Meaning.{meaning};
ghost use Rattle.vx_door.specs.Going.{Went};
ghost use Rattle.vx_session.specs.Desks.{DeskLink};
ghost use Rattle.vx_session.specs.Dialing.{dial_shown, no_dial};
ghost use Rattle.vx_session.specs.Progress.{Clocked, ClockedAs, unclocked};
ghost use Rattle.vx_session.specs.Linking.{LinkDid, refused_as};

use crate::desks::Desk;
use crate::one_bus::OneBus;
use crate::sessions::{Room, serve_session};
use crate::still::NoTools;
use crate::turns::Worker;
use std::alloc::Global;
use std::marker::Model;
use std::sync::Wait;
use vx_488::Bus;
use vx_calls::Role;
use vx_core::{Connect, Core};
use vx_gate::{Pass, Turns};
use vx_group::{claims_law, owned_law};
use vx_io_traits::{Clock, Dial, Link, Pause};
use vx_stream::End;

/// How a link's work ended.
#[derive(Clone, Copy, PartialEq, Eq)]
pub enum Linked {
    /// Its connection had a session, which ended so.
    Ended(End),
    /// The connection was refused: 64 of the role live, or no number is left. The link is untouched.
    Full,
    /// There was no memory for the connection. The link is untouched.
    NoMemory,
}

/// A core link that was served, or refused. Only [`serve_core_link`] and [`core_link`] make one.
#[derive(Drop)]
pub struct LinkDone<L: Link> {
    how: Linked,
    link: L,
}

impl<L: Link> Model for LinkDone<L> {
    ghost use Rattle.vx_session.specs.Linking.{Done};

    ghost Value = { Done L };

    ghost view = { λ d. record { how = d.how; link = d.link } };
}

impl<L: Link> LinkDone<L> {
    /// How its work ended.
    pub fn how(&self) -> &Linked
        ensures { result.now ≡ self.now.how }
    {
        &self.how
    }

    /// The link.
    pub fn link(&self) -> &L
        ensures { result.now ≡ self.now.link }
    {
        &self.link
    }
}

/// How many links were served.
#[derive(Drop)]
pub struct Tally {
    number: u64,
}

impl Model for Tally {
    ghost use Rattle.std.specs.Prelude.{ℕ};

    ghost Value = { ℕ };

    ghost view = { λ t. t.number };
}

impl Tally {
    /// Nothing was served yet.
    pub fn new() -> Tally
        ensures { result ≡ 0 }
    {
        Tally { number: 0 }
    }

    /// The number of links that were added, up to 2^64 - 1.
    pub fn number(&self) -> u64
        ensures { result ≡ self.now }
    {
        self.number
    }

    /// Counts a link, and drops it, which closes it.
    pub fn add<L: Link + Drop>(&mut self, done: LinkDone<L>)
        ensures { self.new ≡ min (self.old + 1) (2 ^ 64 - 1) }
    {
        let LinkDone { how: _, link: _ } = done;
        self.number = self.number.saturating_add(1);
    }
}

/// Serves a link at a desk: a connection of this role comes up there, has its session, and ends. It takes memory for the connection
/// alone.
pub fn serve_link<R: Wait, K: Desk, L: Link>(
    rt: &R,
    alloc: Global,
    desk: K,
    role: Role,
    link: &mut L,
    room: &mut Room,
) -> (K, Linked)
    requires free { K.free desk }
    ensures did { DeskLink K.Desk L.Link role (record { server = desk; link = link.old }) result.1 (record { server = result.0; link = link.new }) }
    ensures went { Went L.receives L.sends link.old link.new }
    ensures free { K.free result.0 }
{
    let (desk, joined) = desk.join(alloc, role);
    match joined {
        Err(why) => (desk, refused(why)),
        Ok(()) => {
            let (desk, end) = serve_session(rt, desk, role, link, room);
            (desk, Linked::Ended(end))
        }
    }
}

/// Serves a core link at a desk, as [`serve_link`] does.
pub fn serve_core_link<R: Wait, K: Desk, L: Link>(
    rt: &R,
    alloc: Global,
    desk: K,
    link: L,
    room: &mut Room,
) -> (K, LinkDone<L>)
    requires free { K.free desk }
    ensures did { DeskLink K.Desk L.Link role.Core (record { server = desk; link = link }) result.1.how (record { server = result.0; link = result.1.link }) }
    ensures went { Went L.receives L.sends link result.1.link }
    ensures free { K.free result.0 }
{
    let mut link = link;
    let (desk, how) = serve_link(rt, alloc, desk, Role::Core, &mut link, room);
    (desk, LinkDone { how, link })
}

/// A link at the desk of one bus, of the worker's role. A connection that comes up has a number of its own.
fn run_link<R: Wait, B: Bus, T: Turns<Core<B>>, L: Link, C: Clock, P: Pause, D: Dial>(
    alloc: Global,
    worker: &Worker<'_, R, T>,
    pass: Pass<Core<B>>,
    link: &mut L,
    clock: &mut C,
    pause: &mut P,
    dial: &mut D,
    room: &mut Room,
) -> (Pass<Core<B>>, Linked)
    requires gate { pass.gate ≡ T.gate worker.now.turns.now }
    ensures did { LinkDid meaning (origin B.Bus (T.first worker.now.turns.now)) L.Link (ClockedAs worker.now.role C.tells clock.old clock.new) (C.told clock.new) worker.now.role (record { pass = pass; link = link.old; dial = dial_shown D.Dial dial.old })
        result.1 (record { pass = result.0; link = link.new; dial = dial_shown D.Dial dial.new }) }
    ensures told { C.told clock.old ≤ C.told clock.new }
{
    claims_law();
    owned_law();
    let mut held = Some(pass);
    let desk = OneBus {
        worker: Worker { ..*worker },
        held: &mut held,
        clock,
        pause,
        dial,
    };
    let (_, how) = serve_link(worker.rt, alloc, desk, worker.role, link, room);
    let Some(pass) = held else { unreachable!() };
    (pass, how)
}

/// Serves a core link: a connection comes up, has its session, and ends. It takes memory for the connection alone.
pub fn core_link<R: Wait, B: Bus, T: Turns<Core<B>>, L: Link, C: Clock, P: Pause, D: Dial>(
    rt: &R,
    alloc: Global,
    turns: &T,
    pass: Pass<Core<B>>,
    link: L,
    clock: &mut C,
    pause: &mut P,
    dial: &mut D,
    room: &mut Room,
) -> (Pass<Core<B>>, LinkDone<L>)
    requires gate { pass.gate ≡ T.gate turns.now }
    ensures did { LinkDid meaning (origin B.Bus (T.first turns.now)) L.Link (Clocked C.tells clock.old clock.new) (C.told clock.new) role.Core (record { pass = pass; link = link; dial = dial_shown D.Dial dial.old })
        result.1.how (record { pass = result.0; link = result.1.link; dial = dial_shown D.Dial dial.new }) }
    ensures told { C.told clock.old ≤ C.told clock.new }
{
    let worker = Worker {
        rt,
        turns,
        conn: 0,
        role: Role::Core,
    };
    let mut link = link;
    let (pass, how) = run_link(alloc, &worker, pass, &mut link, clock, pause, dial, room);
    (pass, LinkDone { how, link })
}

/// Serves an abort link in the same way.
pub fn abort_link<R: Wait, B: Bus, T: Turns<Core<B>>, L: Link>(
    rt: &R,
    alloc: Global,
    turns: &T,
    pass: Pass<Core<B>>,
    link: &mut L,
    room: &mut Room,
) -> (Pass<Core<B>>, Linked)
    requires gate { pass.gate ≡ T.gate turns.now }
    ensures { LinkDid meaning (origin B.Bus (T.first turns.now)) L.Link unclocked 0 role.Abort (record { pass = pass; link = link.old; dial = no_dial })
        result.1 (record { pass = result.0; link = link.new; dial = no_dial }) }
{
    let worker = Worker {
        rt,
        turns,
        conn: 0,
        role: Role::Abort,
    };
    run_link(
        alloc,
        &worker,
        pass,
        link,
        &mut NoTools::new(),
        &mut NoTools::new(),
        &mut NoTools::new(),
        room,
    )
}

/// Why a connection didn't come up, as its link is told.
fn refused(why: Connect) -> Linked
    ensures { result ≡ refused_as why }
{
    match why {
        Connect::Full => Linked::Full,
        Connect::NoMemory => Linked::NoMemory,
    }
}
