//! A call, or a device_abort, at the one of several buses that it goes to.
ghost use Rattle.std.specs.Prelude.{◌≡◌, ◌≤◌, ◌<◌, true, length, take};
ghost use Rattle.vx_calls.specs.declared.calls.Role.TheVariants as role;
ghost use Rattle.vx_calls.specs.Call.{call_shown};
ghost use Rattle.vx_exchange.specs.declared.record.TheConstants.{REPLY_ROOM};
ghost use Rattle.vx_desks.specs.Four.{at, Each};
ghost use Rattle.vx_desks.specs.Passing.{passes_shown, IsOf};
ghost use Rattle.vx_desks.specs.Standing.{gates_shown, firsts_shown};
ghost use Rattle.vx_group.specs.Phases.{Idle};
ghost use Rattle.vx_rules.specs.Calls.{IsShort};
ghost use Rattle.vx_rules.specs.AtomicStep.{may_wait};
ghost use Rattle.vx_session.specs.Turning.{phase_at};
ghost use Rattle.vx_session.specs.Serving.{IsAborted};
ghost use Rattle.vx_session.specs.Progress.{Clocked, unclocked};
ghost use Rattle.vx_desks.specs.Origins.{origins, on};
ghost use Rattle.vx_desks.specs.Asking.{OnBus};
ghost use Rattle.vx_desks.specs.Holding.{four_of};
ghost use Rattle.vx_desks.specs.FleetServing.{IsFleetAsked, outward};
ghost use Rattle.std.specs.Prelude.{[]};

use crate::fleet::Passes;
use crate::routes::{Count, renumber};
use crate::{BusPass, Buses};
use std::sync::Wait;
use vx_488::Bus;
use vx_calls::{CallRef, Role};
use vx_io_traits::{Clock, Pause};
use vx_session::{NoTools, Request, Worker, abort, answer_call};

/// Who takes the turns of the connections of a session, one of each bus, at their gates.
#[derive(Drop)]
pub struct FleetWorker<'a, R, B: Bus> {
    pub rt: &'a R,
    pub buses: &'a Buses<B>,
    /// How many of the buses are served. The gates of the others are turned for nothing but the ups and downs of their connections.
    pub count: Count,
    /// The connections' numbers, by their buses.
    pub conns: [u32; 4],
    pub role: Role,
}

/// Changes the record of a reply to a call of a bus to the one that the client is told.
fn tell_outward(call: &CallRef<'_>, bus: u8, bytes: &mut [u8])
    requires { bus ≤ 3 }
    ensures { bytes.new ≡ outward (call_shown call.now) bus bytes.old }
{
    match call {
        CallRef::CreateLink { .. } => renumber(bus, bytes),
        _ => {}
    }
}

/// Has a call answered by its bus, as a session there does. The record of the reply, as the client is told it, stands at the front of
/// `reply` then, of so many bytes.
pub(crate) fn ask_bus<R: Wait, B: Bus, C: Clock, P: Pause>(
    worker: &FleetWorker<'_, R, B>,
    passes: BusPass<B>,
    bus: u8,
    request: &Request<'_>,
    clock: &mut C,
    pause: &mut P,
    reply: &mut [u8],
) -> (BusPass<B>, usize)
    requires gates { Each IsOf (passes_shown passes) (gates_shown worker.now.buses.now) }
    requires bus { bus ≤ 3 }
    requires phase { phase_at (at bus (passes_shown passes)) (at bus (four_of worker.now.conns)) ≡ Idle role.Core }
    requires waits { may_wait (call_shown request.now.call.now) ≡ true }
    requires short { IsShort (call_shown request.now.call.now) }
    requires room { REPLY_ROOM ≤ length reply.old }
    ensures asks { OnBus (Clocked C.tells clock.old clock.new) (C.told clock.new) (passes_shown passes) bus
        (λ placed. IsFleetAsked (on bus (origins B.Bus (firsts_shown worker.now.buses.now))) (at bus (passes_shown passes)).number (at bus (four_of worker.now.conns)) request.now.xid (call_shown request.now.call.now) bus placed (take result.1 reply.new))
        (passes_shown result.0) }
    ensures phase { phase_at (at bus (passes_shown result.0)) (at bus (four_of worker.now.conns)) ≡ Idle role.Core }
    ensures told { C.told clock.old ≤ C.told clock.new }
    ensures within { result.1 ≤ length reply.new }
    ensures len { length reply.new ≡ length reply.old }
{
    let Passes {
        zero: own,
        one,
        two,
        three,
    } = passes.swapped(bus);
    let here = Worker {
        rt: worker.rt,
        turns: worker.buses.gate(bus),
        conn: worker.conns[bus as usize],
        role: worker.role,
    };
    let (own, len) = answer_call(
        &here,
        own,
        request,
        clock,
        pause,
        &mut NoTools::new(),
        reply,
    );
    tell_outward(request.call, bus, &mut reply[..len]);
    let passes = Passes {
        zero: own,
        one,
        two,
        three,
    };
    (passes.swapped(bus), len)
}

/// Has a device_abort of a link of a bus told there (VXI-11, device_abort). The record of the reply stands at the front of `reply` then,
/// of so many bytes.
pub(crate) fn abort_on_bus<R: Wait, B: Bus>(
    worker: &FleetWorker<'_, R, B>,
    passes: BusPass<B>,
    bus: u8,
    xid: u32,
    lid: u32,
    reply: &mut [u8],
) -> (BusPass<B>, usize)
    requires gates { Each IsOf (passes_shown passes) (gates_shown worker.now.buses.now) }
    requires bus { bus ≤ 3 }
    requires phase { phase_at (at bus (passes_shown passes)) (at bus (four_of worker.now.conns)) ≡ Idle role.Abort }
    requires room { REPLY_ROOM ≤ length reply.old }
    ensures aborts { OnBus unclocked 0 (passes_shown passes) bus (λ placed. IsAborted (at bus (four_of worker.now.conns)) xid lid placed [] (take result.1 reply.new)) (passes_shown result.0) }
    ensures phase { phase_at (at bus (passes_shown result.0)) (at bus (four_of worker.now.conns)) ≡ Idle role.Abort }
    ensures within { result.1 ≤ length reply.new }
    ensures len { length reply.new ≡ length reply.old }
{
    let Passes {
        zero: own,
        one,
        two,
        three,
    } = passes.swapped(bus);
    let conn = worker.conns[bus as usize];
    let (own, aborted) = abort(
        worker.rt,
        worker.buses.gate(bus),
        own,
        conn,
        xid,
        lid,
        reply,
    );
    let passes = Passes {
        zero: own,
        one,
        two,
        three,
    };
    (passes.swapped(bus), aborted.len)
}
