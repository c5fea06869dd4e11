//! The right of one worker to take turns at the gate of its server, and what it does in them.
ghost use Rattle.std.specs.Prelude.{◌≡◌, ◌≤◌, ◌-◌, ◌<◌, ℕ, [], IfOk};
ghost use Rattle.std.specs.Arc.{arc_value};
ghost use Rattle.vx_calls.specs.declared.calls.Role.TheVariants as role;
ghost use Rattle.vx_gate.specs.Gates.{first_of, gate_of};
ghost use Rattle.vx_488.specs.Means.{first_means};
ghost use Rattle.vx_core.specs.InterleavedState.{first_interleaved};
ghost use Rattle.vx_session.specs.Dialing.{dial_shown, no_dial};
ghost use Rattle.vx_door.specs.Peering.{IsPeer};
ghost use Rattle.vx_session.specs.Origin.{origin};
ghost use Rattle.vx_session.specs.Progress.{Clocked, unclocked};
ghost use Rattle.vx_workers.specs.ByLab.{IsServed};
ghost use Rattle.vx_workers.specs.Logged.{untold};
ghost use Rattle.vx_workers.specs.Working.{Serving};

use std::alloc::{AllocError, Global};
use std::sync::{Arc, Wait};
use vx_488::Bus;
use vx_core::Core;
use vx_desks::{Gateway, Kit, Lab, Note, lab_link};
use vx_gate::{Gate, Pass};
use vx_io_traits::{Clock, Dial, Link, Pause};
use vx_policy::{NameTable, Policy};
use vx_session::{LinkDone, Linked, Room, abort_link, pump, sample_turn};

/// The right of one worker to take turns at the gate of its server, in so many parts. What it does comes back with it.
pub trait Access: Sized {
    // How many parts it has.
    ghost parts: { Self → ℕ };

    // That two are of one gateway.
    ghost together: { Self → Self → Type 0 };

    /// Cuts off an access with one part of this one, which comes second. Both are of its gateway.
    fn part(self) -> Result<(Self, Self), AllocError>
        requires { 2 ≤ parts self }
        ensures parts { IfOk result (λ both. parts both.0 ≡ parts self - 1) }
        ensures together { IfOk result (λ both. together self both.0 × together self both.1) };

    /// Writes the interrupts of a channel to its stream, until either is gone.
    fn pump<R: Wait, L: Link, P: Pause>(
        self,
        rt: &R,
        conn: u32,
        chan: u32,
        link: &mut L,
        pause: &mut P,
    ) -> Self;

    /// Looks at the SRQ line once.
    fn sample<R: Wait, C: Clock>(self, rt: &R, clock: &mut C) -> Self;
}

/// An access by which a worker serves links.
pub trait LinkAccess<L: Link>: Access {
    // What serving a link does.
    ghost serves: { Serving Self L };

    /// Serves a core link of this peer: a connection comes up, has its session, and ends. The note is told each call that a rule denies.
    fn core_link<R: Wait, C: Clock + Drop, P: Pause + Drop, D: Dial + Drop, N: Note>(
        self,
        rt: &R,
        link: L,
        peer: u32,
        kit: &mut Kit<C, P, D>,
        note: &mut N,
    ) -> (Self, LinkDone<L>)
        requires peer { IsPeer (L.peers link) peer }
        ensures { serves (Clocked C.tells kit.old.clock kit.new.clock) (C.told kit.new.clock) role.Core (record { access = self; link = link; dial = dial_shown D.Dial kit.old.dial; note = N.took note.old })
            result.1.how (record { access = result.0; link = result.1.link; dial = dial_shown D.Dial kit.new.dial; note = N.took note.new }) };

    /// Serves an abort link in the same way.
    fn abort_link<R: Wait>(self, rt: &R, link: &mut L, room: &mut Room) -> (Self, Linked)
        ensures { serves unclocked 0 role.Abort (record { access = self; link = link.old; dial = no_dial; note = untold })
            result.1 (record { access = result.0; link = link.new; dial = no_dial; note = untold }) };
}

/// What a lab wrote down: the names of its devices, and its access rules, where it has some.
#[derive(Drop)]
pub struct LabBook {
    pub names: NameTable,
    pub policy: Option<Policy>,
}

/// What the accesses of one gateway share: the gate round it, and what its lab wrote down.
#[derive(Drop)]
struct Shared<B: Bus + Drop> {
    alloc: Global,
    gate: Arc<Gate<Core<B>>, Global>,
    book: Arc<LabBook, Global>,
}

impl<B: Bus + Drop> Shared<B> {
    /// Shares them once more.
    fn again(&self) -> Result<Shared<B>, AllocError>
        ensures { IfOk result (λ other. (arc_value other.gate ≡ arc_value self.now.gate) × (arc_value other.book ≡ arc_value self.now.book)) }
    {
        Ok(Shared {
            alloc: self.alloc,
            gate: Arc::try_clone(&self.gate)?,
            book: Arc::try_clone(&self.book)?,
        })
    }
}

/// An access to a gate round a gateway over a bus: what all accesses of the gateway share, and a pass of the gate.
#[derive(Drop)]
pub struct GateAccess<B: Bus + Drop> {
    shared: Shared<B>,
    pass: Pass<Core<B>>,
    ghost same: { pass.gate ≡ gate_of (arc_value shared.gate) },
}

impl<B: Bus + Drop> GateAccess<B> {
    /// A gateway over the bus, on which nobody asked anything yet, behind a gate, and the access with all parts of it, for this lab.
    pub fn start(
        alloc: Global,
        bus: B,
        abort_port: u16,
        book: LabBook,
    ) -> Result<GateAccess<B>, AllocError>
        requires fresh { B.means bus ≡ first_means }
        requires port { 0 < abort_port }
        ensures parts { IfOk result (λ access. access.pass.parts ≡ 4294967296) }
        ensures begins { IfOk result (λ access. (access.pass.seen ≡ []) × (access.pass.own ≡ [])) }
        ensures first { IfOk result (λ access. ((first_of (arc_value access.shared.gate)).interleaved ≡ first_interleaved abort_port) × ((first_of (arc_value access.shared.gate)).bus ≡ bus)) }
        ensures lab { IfOk result (λ access. arc_value access.shared.book ≡ book) }
    {
        let Ok(core) = Core::start(alloc, bus, abort_port) else {
            return Err(AllocError);
        };
        let Ok((gate, pass)) = Gate::start(alloc, core) else {
            return Err(AllocError);
        };
        let shared = Shared {
            alloc,
            gate: Arc::new(alloc, gate)?,
            book: Arc::new(alloc, book)?,
        };
        Ok(GateAccess { shared, pass })
    }
}

impl<B: Bus + Drop> Access for GateAccess<B> {
    ghost parts = { λ access. access.pass.parts };

    ghost together = { λ access other. (arc_value other.shared.gate ≡ arc_value access.shared.gate) × (arc_value other.shared.book ≡ arc_value access.shared.book) };

    fn part(self) -> Result<(GateAccess<B>, GateAccess<B>), AllocError> {
        let GateAccess { shared, pass } = self;
        let theirs = shared.again()?;
        let (pass, other) = shared.gate.part(pass);
        let theirs = GateAccess {
            shared: theirs,
            pass: other,
        };
        Ok((GateAccess { shared, pass }, theirs))
    }

    fn pump<R: Wait, L: Link, P: Pause>(
        self,
        rt: &R,
        conn: u32,
        chan: u32,
        link: &mut L,
        pause: &mut P,
    ) -> GateAccess<B> {
        let GateAccess { shared, pass } = self;
        let (pass, _) = pump(rt, &*shared.gate, pass, conn, chan, link, pause);
        GateAccess { shared, pass }
    }

    fn sample<R: Wait, C: Clock>(self, rt: &R, clock: &mut C) -> GateAccess<B> {
        let GateAccess { shared, pass } = self;
        let pass = sample_turn(rt, &*shared.gate, pass, clock);
        GateAccess { shared, pass }
    }
}

impl<B: Bus + Drop, L: Link + Drop> LinkAccess<L> for GateAccess<B> {
    // What is claimed of a link that is served at the gate, where core connections know devices by the names, and are judged by the rules.
    ghost serves = { λ clocked told r before how after. IsServed (arc_value before.access.shared.book) (origin B.Bus (first_of (arc_value before.access.shared.gate))) L.Link clocked told r
        (record { pass = before.access.pass; link = before.link; dial = before.dial; note = before.note }) how
        (record { pass = after.access.pass; link = after.link; dial = after.dial; note = after.note })
        × (arc_value after.access.shared.gate ≡ arc_value before.access.shared.gate) × (arc_value after.access.shared.book ≡ arc_value before.access.shared.book) };

    fn core_link<R: Wait, C: Clock + Drop, P: Pause + Drop, D: Dial + Drop, N: Note>(
        self,
        rt: &R,
        link: L,
        peer: u32,
        kit: &mut Kit<C, P, D>,
        note: &mut N,
    ) -> (GateAccess<B>, LinkDone<L>) {
        let GateAccess { shared, pass } = self;
        let gateway = Gateway {
            rt,
            alloc: shared.alloc,
            turns: &*shared.gate,
        };
        let book = &*shared.book;
        let lab = Lab {
            names: &book.names,
            policy: book.policy.as_ref(),
        };
        let (pass, done, _) = lab_link(&gateway, pass, lab, peer, link, kit, note);
        (GateAccess { shared, pass }, done)
    }

    fn abort_link<R: Wait>(self, rt: &R, link: &mut L, room: &mut Room) -> (GateAccess<B>, Linked) {
        let GateAccess { shared, pass } = self;
        let (pass, how) = abort_link(rt, shared.alloc, &*shared.gate, pass, link, room);
        (GateAccess { shared, pass }, how)
    }
}
