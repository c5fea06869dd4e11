//! The connections of a link to four buses: one of each comes up, or none stays.
ghost use Rattle.std.specs.Prelude.{◌≡◌, ◌≤◌, Ok, Err, IfOk, IfErr};
ghost use Rattle.vx_calls.specs.declared.calls.Role.{Role};
ghost use Rattle.vx_gate.specs.Gates.{gate_of, first_of};
ghost use Rattle.vx_desks.specs.Four.{Each};
ghost use Rattle.vx_desks.specs.Passing.{passes_shown, IsOf};
ghost use Rattle.vx_desks.specs.Standing.{gates_shown, firsts_shown};
ghost use Rattle.vx_group.specs.Phases.{Idle};
ghost use Rattle.vx_session.specs.Origin.{origin};
ghost use Rattle.vx_session.specs.Turning.{phase_at};
ghost use Rattle.vx_desks.specs.Holding.{four_of};
ghost use Rattle.vx_desks.specs.Origins.{origins};
ghost use Rattle.vx_desks.specs.Joining.{JoinsAll, Undone, UndoneAll, joined_shown, outcome};

use crate::fleet::Passes;
use crate::{BusPass, Buses};
use std::alloc::Global;
use std::sync::Wait;
use vx_488::Bus;
use vx_calls::Role;
use vx_core::{Connect, Core};
use vx_gate::{Gate, Pass};
use vx_session::{join, leave};

/// What each bus answered that was asked for a connection.
#[derive(Clone, Copy)]
pub(crate) struct Joined {
    pub(crate) zero: Result<u32, Connect>,
    pub(crate) one: Result<u32, Connect>,
    pub(crate) two: Result<u32, Connect>,
    pub(crate) three: Result<u32, Connect>,
}

/// Asks each bus for a connection of this role. It takes memory.
pub(crate) fn join_all<R: Wait, B: Bus>(
    rt: &R,
    alloc: Global,
    buses: &Buses<B>,
    passes: BusPass<B>,
    role: Role,
) -> (BusPass<B>, Joined)
    requires gates { Each IsOf (passes_shown passes) (gates_shown buses.now) }
    ensures joins { JoinsAll (origins B.Bus (firsts_shown buses.now)) role (passes_shown passes) (joined_shown result.1) (passes_shown result.0) }
    ensures gates { Each IsOf (passes_shown result.0) (gates_shown buses.now) }
{
    let (zero, zeroth) = join(rt, alloc, &buses.zero, passes.zero, role);
    let (one, first) = join(rt, alloc, &buses.one, passes.one, role);
    let (two, second) = join(rt, alloc, &buses.two, passes.two, role);
    let (three, third) = join(rt, alloc, &buses.three, passes.three, role);
    let joined = Joined {
        zero: zeroth,
        one: first,
        two: second,
        three: third,
    };
    let passes = Passes {
        zero,
        one,
        two,
        three,
    };
    (passes, joined)
}

/// The connections, where all came up, or else why the first that didn't come up was refused.
pub(crate) fn outcome(joined: &Joined) -> Result<[u32; 4], Connect>
    ensures ok { IfOk result (λ conns. outcome (joined_shown joined.now) ≡ Ok (four_of conns)) }
    ensures err { IfErr result (λ why. outcome (joined_shown joined.now) ≡ Err why) }
{
    let zero = joined.zero?;
    let one = joined.one?;
    let two = joined.two?;
    let three = joined.three?;
    Ok([zero, one, two, three])
}

/// Lets a connection go again, where it came up.
fn undo<R: Wait, B: Bus>(
    rt: &R,
    gate: &Gate<Core<B>>,
    pass: Pass<Core<B>>,
    joined: Result<u32, Connect>,
) -> Pass<Core<B>>
    requires gate { pass.gate ≡ gate_of gate.now }
    requires phase { (r : Role) × IfOk joined (λ conn. phase_at pass conn ≡ Idle r) }
    ensures { Undone (origin B.Bus (first_of gate.now)) pass joined result }
{
    match joined {
        Ok(conn) => leave(rt, gate, pass, conn),
        Err(_) => pass,
    }
}

/// Lets each connection that came up go again.
pub(crate) fn undo_all<R: Wait, B: Bus>(
    rt: &R,
    buses: &Buses<B>,
    passes: BusPass<B>,
    joined: &Joined,
) -> BusPass<B>
    requires gates { Each IsOf (passes_shown passes) (gates_shown buses.now) }
    requires phases { (r : Role) × Each (λ pass answer. IfOk answer (λ conn. phase_at pass conn ≡ Idle r)) (passes_shown passes) (joined_shown joined.now) }
    ensures { UndoneAll (origins B.Bus (firsts_shown buses.now)) (passes_shown passes) (joined_shown joined.now) (passes_shown result) }
{
    Passes {
        zero: undo(rt, &buses.zero, passes.zero, joined.zero),
        one: undo(rt, &buses.one, passes.one, joined.one),
        two: undo(rt, &buses.two, passes.two, joined.two),
        three: undo(rt, &buses.three, passes.three, joined.three),
    }
}
