//! A call of the core connections of a session to several buses, answered by the record of its reply.
ghost use Rattle.std.specs.Prelude.{◌≡◌, ◌≤◌, true, length, take};
ghost use Rattle.vx_calls.specs.declared.calls.Role.TheVariants as role;
ghost use Rattle.vx_calls.specs.Call.{call_shown};
ghost use Rattle.vx_exchange.specs.declared.record.TheConstants.{REPLY_ROOM};
ghost use Rattle.vx_desks.specs.Passing.{passes_shown};
ghost use Rattle.vx_desks.specs.Standing.{gates_shown, firsts_shown};
ghost use Rattle.vx_rules.specs.Calls.{IsShort};
ghost use Rattle.vx_rules.specs.AtomicStep.{may_wait};
ghost use Rattle.vx_desks.specs.Routing.{route_of};
ghost use Rattle.vx_desks.specs.Origins.{origins};
ghost use Rattle.vx_desks.specs.Holding.{four_of, FleetHolds};
ghost use Rattle.vx_desks.specs.Meant.{by_way};
ghost use Rattle.vx_session.specs.Progress.{Clocked};
ghost use Rattle.vx_desks.specs.FleetServing.{ServesCall};

use crate::BusPass;
use crate::asking::{FleetWorker, ask_bus};
use crate::routes::{Destination, route};
use std::sync::Wait;
use vx_488::Bus;
use vx_calls::DEVICE_MAX;
use vx_exchange::put_success_record;
use vx_io_traits::{Clock, Pause};
use vx_session::Request;

/// Serves a call of core connections: by its bus, or by the reply that it is refused with. The record of the reply, of so many bytes,
/// stands at the front of `reply` then.
pub(crate) fn serve_call<R: Wait, B: Bus, C: Clock, P: Pause>(
    worker: &FleetWorker<'_, R, B>,
    passes: BusPass<B>,
    request: &Request<'_>,
    clock: &mut C,
    pause: &mut P,
    reply: &mut [u8],
) -> (BusPass<B>, usize)
    requires holds { FleetHolds (passes_shown passes) (gates_shown worker.now.buses.now) (four_of worker.now.conns) role.Core }
    requires waits { may_wait (call_shown request.now.call.now) ≡ true }
    requires short { IsShort (call_shown request.now.call.now) }
    requires room { REPLY_ROOM ≤ length reply.old }
    ensures served { ServesCall worker.now.count (origins B.Bus (firsts_shown worker.now.buses.now)) (Clocked C.tells clock.old clock.new) (C.told clock.new) (passes_shown passes) (four_of worker.now.conns)
        (by_way request.now.xid (route_of worker.now.count (call_shown request.now.call.now))) (take result.1 reply.new) (passes_shown result.0) }
    ensures holds { FleetHolds (passes_shown result.0) (gates_shown worker.now.buses.now) (four_of worker.now.conns) role.Core }
    ensures told { C.told clock.old ≤ C.told clock.new }
    ensures within { result.1 ≤ length reply.new }
    ensures len { length reply.new ≡ length reply.old }
{
    let mut room = [0u8; DEVICE_MAX];
    match route(worker.count, request.call, &mut room) {
        Destination::Refused { answer } => {
            let len = put_success_record(request.xid, &answer, reply);
            (passes, len)
        }
        Destination::Goes { bus, call } => {
            let there = Request {
                xid: request.xid,
                call: &call,
            };
            ask_bus(worker, passes, bus, &there, clock, pause, reply)
        }
    }
}
