//! Turns at the gate round a core, as what they add to the history.
ghost use Rattle.std.specs.Prelude.{◌≡◌, ◌≤◌, ℕ, Bool, true, length};
ghost use Rattle.vx_calls.specs.declared.calls.Role.TheVariants as role;
ghost use Rattle.vx_calls.specs.Call.{Call, call_shown};
ghost use Rattle.vx_srq.specs.Shown.{given_shown};
ghost use Rattle.vx_rules.specs.AtomicStep.{may_wait};
ghost use Rattle.vx_rules.specs.Calls.{IsShort};
ghost use Rattle.vx_exchange.specs.declared.record.TheConstants.{REPLY_ROOM};
ghost use Rattle.vx_group.specs.Phases.{Idle, Asked, is_up};
ghost use Rattle.vx_session.specs.Turning.{phase_at, SessionComes, PollsAgain, Settles, SessionAborts, Leaves, Joins, Samples, TakesTurn};
ghost use Rattle.vx_session.specs.Origin.{origin};

use crate::acts::{AbortLink, Again, Come, ConnectAs, Leave, SampleAt, Settle, TakeFrom};
use std::alloc::Global;
use std::sync::Wait;
use vx_488::Bus;
use vx_calls::{CallRef, Role, Taken};
use vx_core::{Connect, Core};
use vx_exchange::{Aborted, DialAnswered, PollEnd};
use vx_gate::{Pass, Turns};
use vx_group::phase_law;

/// Who takes the turns of a connection at the gate.
#[derive(Drop)]
pub struct Worker<'a, R, T> {
    pub rt: &'a R,
    pub turns: &'a T,
    /// The connection's number.
    pub conn: u32,
    pub role: Role,
}

/// A call that came, and its xid (RFC 5531, section 9).
#[derive(Drop)]
pub struct Request<'c> {
    pub xid: u32,
    pub call: &'c CallRef<'c>,
}

/// A call comes on an idle core connection of the pass, and is polled, both in one turn. The record of its reply, where it is
/// answered, stands at the front of `reply` then. Like each turn here it waits for its place at the gate.
pub fn come<R: Wait, B: Bus, T: Turns<Core<B>>>(
    worker: &Worker<'_, R, T>,
    pass: Pass<Core<B>>,
    request: &Request<'_>,
    now: u64,
    reply: &mut [u8],
) -> (Pass<Core<B>>, PollEnd)
    requires gate { pass.gate ≡ T.gate worker.now.turns.now }
    requires phase { phase_at pass worker.now.conn ≡ Idle role.Core }
    requires waits { may_wait (call_shown request.now.call.now) ≡ true }
    requires short { IsShort (call_shown request.now.call.now) }
    requires room { REPLY_ROOM ≤ length reply.old }
    ensures comes { SessionComes (origin B.Bus (T.first worker.now.turns.now)) now pass worker.now.conn request.now.xid (call_shown request.now.call.now) reply.new result.1 result.0 }
    ensures len { length reply.new ≡ length reply.old }
{
    phase_law();
    let mut coming = Come {
        conn: worker.conn,
        xid: request.xid,
        now,
        call: request.call,
        reply,
    };
    worker.turns.turn(worker.rt, pass, &mut coming)
}

/// The call of a core connection of the pass is polled again.
pub fn poll_again<R: Wait, B: Bus, T: Turns<Core<B>>>(
    worker: &Worker<'_, R, T>,
    pass: Pass<Core<B>>,
    xid: u32,
    now: u64,
    reply: &mut [u8],
) -> (Pass<Core<B>>, PollEnd)
    requires gate { pass.gate ≡ T.gate worker.now.turns.now }
    requires phase { (call : Call) × (dialed : Bool) × (phase_at pass worker.now.conn ≡ Asked call dialed) }
    requires room { REPLY_ROOM ≤ length reply.old }
    ensures polls { (call : Call) (dialed : Bool) → phase_at pass worker.now.conn ≡ Asked call dialed → PollsAgain (origin B.Bus (T.first worker.now.turns.now)) now pass worker.now.conn xid call dialed reply.new result.1 result.0 }
    ensures len { length reply.new ≡ length reply.old }
{
    phase_law();
    let mut polling = Again {
        conn: worker.conn,
        xid,
        now,
        reply,
    };
    worker.turns.turn(worker.rt, pass, &mut polling)
}

/// The call of a core connection of the pass, of which a dial was asked for, is answered: the dial came up, or failed. The
/// record of its reply stands at the front of `reply` then.
pub fn settle<R: Wait, B: Bus, T: Turns<Core<B>>>(
    worker: &Worker<'_, R, T>,
    pass: Pass<Core<B>>,
    xid: u32,
    up: bool,
    now: u64,
    reply: &mut [u8],
) -> (Pass<Core<B>>, DialAnswered)
    requires gate { pass.gate ≡ T.gate worker.now.turns.now }
    requires phase { (call : Call) × (phase_at pass worker.now.conn ≡ Asked call true) }
    requires room { REPLY_ROOM ≤ length reply.old }
    ensures settles { Settles (origin B.Bus (T.first worker.now.turns.now)) now pass worker.now.conn xid up reply.new result.1 result.0 }
    ensures len { length reply.new ≡ length reply.old }
{
    phase_law();
    let mut settling = Settle {
        conn: worker.conn,
        xid,
        up,
        now,
        reply,
    };
    worker.turns.turn(worker.rt, pass, &mut settling)
}

/// A device_abort of a link comes on an abort connection of the pass, and is answered (VXI-11, device_abort). The record of its
/// reply stands at the front of `reply` then.
pub fn abort<R: Wait, B: Bus, T: Turns<Core<B>>>(
    rt: &R,
    turns: &T,
    pass: Pass<Core<B>>,
    conn: u32,
    xid: u32,
    lid: u32,
    reply: &mut [u8],
) -> (Pass<Core<B>>, Aborted)
    requires gate { pass.gate ≡ T.gate turns.now }
    requires phase { phase_at pass conn ≡ Idle role.Abort }
    requires room { REPLY_ROOM ≤ length reply.old }
    ensures aborts { SessionAborts (origin B.Bus (T.first turns.now)) pass conn lid xid reply.new result.1 result.0 }
    ensures len { length reply.new ≡ length reply.old }
{
    phase_law();
    let mut aborting = AbortLink {
        conn,
        xid,
        lid,
        reply,
    };
    turns.turn(rt, pass, &mut aborting)
}

/// A connection of the pass goes.
pub fn leave<R: Wait, B: Bus, T: Turns<Core<B>>>(
    rt: &R,
    turns: &T,
    pass: Pass<Core<B>>,
    conn: u32,
) -> Pass<Core<B>>
    requires gate { pass.gate ≡ T.gate turns.now }
    requires phase { is_up (phase_at pass conn) ≡ true }
    ensures { Leaves (origin B.Bus (T.first turns.now)) pass conn result }
{
    phase_law();
    let (pass, ()) = turns.turn(rt, pass, &mut Leave { conn });
    pass
}

/// A connection of this role comes up, as one of the pass, or is refused. It takes memory.
pub fn join<R: Wait, B: Bus, T: Turns<Core<B>>>(
    rt: &R,
    alloc: Global,
    turns: &T,
    pass: Pass<Core<B>>,
    role: Role,
) -> (Pass<Core<B>>, Result<u32, Connect>)
    requires gate { pass.gate ≡ T.gate turns.now }
    ensures { Joins (origin B.Bus (T.first turns.now)) pass role result.1 result.0 }
{
    turns.turn(rt, pass, &mut ConnectAs { alloc, role })
}

/// The SRQ line is looked at.
pub fn sample<R: Wait, B: Bus, T: Turns<Core<B>>>(
    rt: &R,
    turns: &T,
    pass: Pass<Core<B>>,
    now: u64,
) -> Pass<Core<B>>
    requires gate { pass.gate ≡ T.gate turns.now }
    ensures { Samples (origin B.Bus (T.first turns.now)) now pass result }
{
    let (pass, ()) = turns.turn(rt, pass, &mut SampleAt { now });
    pass
}

/// The front of the outbox of this channel is taken, whatever pass the connection is of: `Gone` where the connection isn't up
/// or has another channel, or none.
pub fn take<R: Wait, B: Bus, T: Turns<Core<B>>>(
    rt: &R,
    turns: &T,
    pass: Pass<Core<B>>,
    conn: u32,
    chan: u32,
) -> (Pass<Core<B>>, Taken)
    requires gate { pass.gate ≡ T.gate turns.now }
    ensures { TakesTurn (origin B.Bus (T.first turns.now)) pass conn chan (given_shown result.1) result.0 }
{
    turns.turn(rt, pass, &mut TakeFrom { conn, chan })
}
