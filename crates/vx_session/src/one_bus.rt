//! The desk of one bus: its connections are ones of a pass of the gate round the core.
ghost use Rattle.std.specs.Prelude.{◌≡◌, Some};
ghost use Rattle.vx_calls.specs.declared.calls.Role.TheVariants as role;
ghost use Rattle.vx_session.specs.Origin.{origin};
ghost use Rattle.vx_session.specs.Progress.{session_state};
ghost use Rattle.vx_session.specs.OneBusDesk.{IsAtGate, IsIdleAt, OneBusJoins, OneBusAsks, OneBusAborts, OneBusLeaves};

use crate::answering::answer_call;
use crate::desks::Desk;
use crate::turns::{Request, Worker, abort, join, leave};
use std::alloc::Global;
use std::sync::Wait;
use vx_488::Bus;
use vx_calls::Role;
use vx_core::{Connect, Core};
use vx_gate::{Pass, Turns};
use vx_io_traits::{Clock, Dial, Pause};

/// What answers the calls of a worker's connection: turns at the gate, a clock, a pause and a dial. The pass of the turns is out of its
/// place while one is taken, and at no other time.
#[derive(Drop)]
pub struct OneBus<'w, 'h, 'c, 'u, 'd, R, B: Bus, T, C, P, D> {
    /// Who takes the turns; its connection's number is that of the connection that came up last.
    pub worker: Worker<'w, R, T>,
    pub held: &'h mut Option<Pass<Core<B>>>,
    pub clock: &'c mut C,
    pub pause: &'u mut P,
    pub dial: &'d mut D,
}

impl<'w, 'h, 'c, 'u, 'd, R: Wait, B: Bus, T: Turns<Core<B>>, C: Clock, P: Pause, D: Dial> Desk
    for OneBus<'w, 'h, 'c, 'u, 'd, R, B, T, C, P, D> {
    ghost number = { λ s. s.worker.conn };

    ghost free = { λ s. IsAtGate (T.gate s.worker.turns.now) (session_state C.Clock D.Dial role.Core s.worker.conn s.held.now s.clock.now s.dial.now) };

    ghost idle = { λ s r. IsIdleAt (T.gate s.worker.turns.now) r (session_state C.Clock D.Dial r s.worker.conn s.held.now s.clock.now s.dial.now) };

    ghost joins = { λ s r answer s'. OneBusJoins (origin B.Bus (T.first s.worker.turns.now))
        (session_state C.Clock D.Dial r s.worker.conn s.held.now s.clock.now s.dial.now) r answer
        (session_state C.Clock D.Dial r s'.worker.conn s'.held.now s'.clock.now s'.dial.now)
        × (s'.held.ghost_name ≡ s.held.ghost_name) × (s'.clock.ghost_name ≡ s.clock.ghost_name) × (s'.dial.ghost_name ≡ s.dial.ghost_name) × (T.first s'.worker.turns.now ≡ T.first s.worker.turns.now) };

    ghost asks = { λ s xid call reply s'. OneBusAsks (origin B.Bus (T.first s.worker.turns.now)) C.tells
        (session_state C.Clock D.Dial role.Core s.worker.conn s.held.now s.clock.now s.dial.now) xid call reply
        (session_state C.Clock D.Dial role.Core s'.worker.conn s'.held.now s'.clock.now s'.dial.now)
        × (s'.held.ghost_name ≡ s.held.ghost_name) × (s'.clock.ghost_name ≡ s.clock.ghost_name) × (s'.dial.ghost_name ≡ s.dial.ghost_name) × (T.first s'.worker.turns.now ≡ T.first s.worker.turns.now) };

    ghost aborts = { λ s xid lid reply s'. OneBusAborts (origin B.Bus (T.first s.worker.turns.now)) C.tells
        (session_state C.Clock D.Dial role.Abort s.worker.conn s.held.now s.clock.now s.dial.now) xid lid reply
        (session_state C.Clock D.Dial role.Abort s'.worker.conn s'.held.now s'.clock.now s'.dial.now)
        × (s'.held.ghost_name ≡ s.held.ghost_name) × (s'.clock.ghost_name ≡ s.clock.ghost_name) × (s'.dial.ghost_name ≡ s.dial.ghost_name) × (T.first s'.worker.turns.now ≡ T.first s.worker.turns.now) };

    ghost leaves = { λ s s'. OneBusLeaves (origin B.Bus (T.first s.worker.turns.now))
        (session_state C.Clock D.Dial role.Core s.worker.conn s.held.now s.clock.now s.dial.now)
        (session_state C.Clock D.Dial role.Core s'.worker.conn s'.held.now s'.clock.now s'.dial.now)
        × (s'.held.ghost_name ≡ s.held.ghost_name) × (s'.clock.ghost_name ≡ s.clock.ghost_name) × (s'.dial.ghost_name ≡ s.dial.ghost_name) × (T.first s'.worker.turns.now ≡ T.first s.worker.turns.now) };

    fn number(&self) -> u32 {
        self.worker.conn
    }

    fn join(self, alloc: Global, role: Role) -> (Self, Result<(), Connect>) {
        let mut desk = self;
        let Some(pass) = desk.held.take() else {
            unreachable!()
        };
        let (pass, joined) = join(desk.worker.rt, alloc, desk.worker.turns, pass, role);
        *desk.held = Some(pass);
        match joined {
            Ok(conn) => {
                let worker = Worker {
                    conn,
                    role,
                    ..desk.worker
                };
                (OneBus { worker, ..desk }, Ok(()))
            }
            Err(why) => (desk, Err(why)),
        }
    }

    fn ask(self, request: &Request<'_>, reply: &mut [u8]) -> (Self, Option<usize>) {
        let OneBus {
            worker,
            held,
            clock,
            pause,
            dial,
        } = self;
        let Some(pass) = held.take() else {
            unreachable!()
        };
        let (pass, len) = answer_call(&worker, pass, request, clock, pause, dial, reply);
        *held = Some(pass);
        let desk = OneBus {
            worker,
            held,
            clock,
            pause,
            dial,
        };
        (desk, Some(len))
    }

    fn abort(self, xid: u32, lid: u32, reply: &mut [u8]) -> (Self, usize) {
        let mut desk = self;
        let Some(pass) = desk.held.take() else {
            unreachable!()
        };
        let Worker {
            rt,
            turns,
            conn,
            ..
        } = desk.worker;
        let (pass, aborted) = abort(rt, turns, pass, conn, xid, lid, reply);
        *desk.held = Some(pass);
        (desk, aborted.len)
    }

    fn leave(self) -> Self {
        let mut desk = self;
        let Some(pass) = desk.held.take() else {
            unreachable!()
        };
        let Worker {
            rt,
            turns,
            conn,
            ..
        } = desk.worker;
        *desk.held = Some(leave(rt, turns, pass, conn));
        desk
    }
}
