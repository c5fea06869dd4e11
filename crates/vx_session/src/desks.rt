//! Desks: what the calls of one connection after another are answered by, whatever stands behind it.
ghost use Rattle.std.specs.Prelude.{◌≡◌, ◌≤◌, ℕ, true, List, Option, Result, length, take, option_map, IfSome, IfOk, IfErr};
ghost use Rattle.vx_calls.specs.declared.calls.Role.{Role};
ghost use Rattle.vx_calls.specs.declared.calls.Role.TheVariants as role;
ghost use Rattle.vx_calls.specs.Call.{Call, call_shown};
ghost use Rattle.vx_exchange.specs.declared.record.TheConstants.{REPLY_ROOM};
ghost use Rattle.vx_rules.specs.AtomicStep.{may_wait};
ghost use Rattle.vx_rules.specs.Calls.{IsShort};
ghost use Rattle.vx_state.specs.declared.tables.Connect.{Connect};

use crate::turns::Request;
use std::alloc::Global;
use vx_calls::Role;
use vx_core::Connect;

/// What answers the calls of one connection after another. A message that is no call, or that is answered without the core, doesn't
/// reach it.
pub trait Desk: Sized {
    // The number by which its connection is told.
    ghost number: { Self → ℕ };

    // It has no connection, and one may come up.
    ghost free: { Self → Type 0 };

    // Its connection is of this role, is up, and has no call.
    ghost idle: { Self → Role → Type 0 };

    // What becomes of a connection of this role that is to come up: the desk before, the role, the answer, and the desk after.
    ghost joins: { Self → Role → Result Unit Connect → Self → Type 0 };

    // What a call does: the desk before, its xid, the call, the record of its reply, and the desk after. Behind a call without a
    // reply the session ends.
    ghost asks: { Self → ℕ → Call → Option (List ℕ) → Self → Type 0 };

    // What a device_abort does: the desk before, its xid, the number of the link, the record of its reply, and the desk after.
    ghost aborts: { Self → ℕ → ℕ → List ℕ → Self → Type 0 };

    // What the end of the connection does.
    ghost leaves: { Self → Self → Type 0 };

    /// The number by which its connection is told, in lines that a person reads.
    fn number(&self) -> u32
        ensures { result ≡ number self.now };

    /// A connection of this role comes up, or is refused. It takes memory.
    fn join(self, alloc: Global, role: Role) -> (Self, Result<(), Connect>)
        requires free { free self }
        ensures joins { joins self role result.1 result.0 }
        ensures idle { IfOk result.1 (λ _. idle result.0 role) }
        ensures free { IfErr result.1 (λ _. free result.0) };

    /// Has a call of its core connection answered: the record of the reply, of so many bytes, stands at the front of `reply` then.
    fn ask(self, request: &Request<'_>, reply: &mut [u8]) -> (Self, Option<usize>)
        requires idle { idle self role.Core }
        requires waits { may_wait (call_shown request.now.call.now) ≡ true }
        requires short { IsShort (call_shown request.now.call.now) }
        requires room { REPLY_ROOM ≤ length reply.old }
        ensures asks { asks self request.now.xid (call_shown request.now.call.now) (option_map (λ n. take n reply.new) result.1) result.0 }
        ensures idle { idle result.0 role.Core }
        ensures within { IfSome result.1 (λ n. n ≤ length reply.new) }
        ensures len { length reply.new ≡ length reply.old };

    /// Has a device_abort of its abort connection answered, of this link (VXI-11, device_abort). The record of the reply, of so many
    /// bytes, stands at the front of `reply` then.
    fn abort(self, xid: u32, lid: u32, reply: &mut [u8]) -> (Self, usize)
        requires idle { idle self role.Abort }
        requires room { REPLY_ROOM ≤ length reply.old }
        ensures aborts { aborts self xid lid (take result.1 reply.new) result.0 }
        ensures idle { idle result.0 role.Abort }
        ensures within { result.1 ≤ length reply.new }
        ensures len { length reply.new ≡ length reply.old };

    /// Its connection goes.
    fn leave(self) -> Self
        requires idle { (r : Role) × idle self r }
        ensures leaves { leaves self result }
        ensures free { free result };
}
