//! The end of the connections of a session to four buses.
ghost use Rattle.std.specs.Prelude.{◌≡◌};
ghost use Rattle.vx_calls.specs.declared.calls.Role.{Role};
ghost use Rattle.vx_desks.specs.Four.{Each};
ghost use Rattle.vx_desks.specs.Passing.{passes_shown, IsOf};
ghost use Rattle.vx_desks.specs.Standing.{gates_shown, firsts_shown};
ghost use Rattle.vx_desks.specs.FleetEnding.{LeavesAll};
ghost use Rattle.vx_desks.specs.Origins.{origins};
ghost use Rattle.vx_desks.specs.Holding.{four_of, AreIdle};

use crate::fleet::Passes;
use crate::{BusPass, Buses};
use std::sync::Wait;
use vx_488::Bus;
use vx_session::leave;

/// The connection of each bus goes.
pub(crate) fn leave_all<R: Wait, B: Bus>(
    rt: &R,
    buses: &Buses<B>,
    passes: BusPass<B>,
    conns: &[u32; 4],
) -> BusPass<B>
    requires gates { Each IsOf (passes_shown passes) (gates_shown buses.now) }
    requires idle { (r : Role) × AreIdle (passes_shown passes) (four_of conns.now) r }
    ensures { LeavesAll (origins B.Bus (firsts_shown buses.now)) (passes_shown passes) (four_of conns.now) (passes_shown result) }
{
    let [zero, one, two, three] = *conns;
    Passes {
        zero: leave(rt, &buses.zero, passes.zero, zero),
        one: leave(rt, &buses.one, passes.one, one),
        two: leave(rt, &buses.two, passes.two, two),
        three: leave(rt, &buses.three, passes.three, three),
    }
}
