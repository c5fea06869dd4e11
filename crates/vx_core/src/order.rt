//! A poll of a call, by the order of answers.
ghost use Rattle.std.specs.Prelude.{◌≡◌, ◌≤◌, ◌&&◌, not, true, max, Some, IsSome};
ghost use Rattle.vx_calls.specs.declared.limits.TheConstants.{READ_MAX};
ghost use Rattle.vx_rules.specs.State.{Pending, pending_at};
ghost use Rattle.vx_rules.specs.Calls as calls;
ghost use Rattle.vx_flow.specs.Poll.{begins};
ghost use Rattle.vx_core.specs.Shown.{interleaved_of};
ghost use Rattle.vx_core.specs.Ending.{ended_len, has_run, why_barred};
ghost use Rattle.vx_core.specs.Keeping.{Keeps};
ghost use Rattle.vx_core.specs.Leaving.{Leaves, EndsFrom};
ghost use Rattle.vx_core.specs.Turning.{HasHeard, HasPassed, HasTurn, IsFree};

use crate::ended::Ended;
use crate::kernel::Kernel;
use vx_488::Bus;
use vx_calls::ErrorCode;
use vx_ctrl::Went;
use vx_flow::{Ran, Why};
use vx_state::{Admission, Bar};

/// Answers the call of a connection by the first line of the order of answers that holds, or says why it isn't answered.
pub(crate) fn poll<B: Bus>(kernel: &mut Kernel<B>, conn: u32, now: u64) -> Ended
    requires pending { IsSome (pending_at kernel.old.tables conn) }
    requires keeps { Keeps B.means kernel.old }
    ensures keeps { Keeps B.means kernel.new }
    ensures last { kernel.new.last ≡ Some result }
    ensures began { kernel.new.began ≡ begins (interleaved_of B.means kernel.old) conn (max kernel.old.moment now) }
    ensures within { ended_len result ≤ READ_MAX }
    ensures leaves { Leaves B.means B.through B.srq_level B.ndac_level kernel.old conn now result kernel.new }
{
    let had_turn = kernel.has_turn();
    kernel.hear(now);
    let ended = answer(kernel, conn);
    let began = began_by(had_turn, ended);
    kernel.note_end(ended, began);
    ended
}

/// Whether a poll that ended so began its call's turn: none was under way before it, and it went on with one.
fn began_by(had_turn: bool, ended: Ended) -> bool
    ensures { result ≡ (not had_turn && has_run ended) }
{
    !had_turn && ended.has_run()
}

/// The first lines of the order of answers, and those behind them.
fn answer<B: Bus>(kernel: &mut Kernel<B>, conn: u32) -> Ended
    requires heard { HasHeard B.means kernel.old conn }
    ensures { EndsFrom B.means B.through B.srq_level B.ndac_level kernel.old conn result kernel.new }
{
    match kernel.lines(conn) {
        Admission::Refused(error) => kernel.stop(conn, Ran::Still, error),
        Admission::Waiting(bar) => Ended::Waited(barred(bar)),
        Admission::Passed => pass(kernel, conn),
    }
}

/// Why a call waits that is kept off its target.
fn barred(bar: Bar) -> Why
    ensures { result ≡ why_barred bar }
{
    match bar {
        Bar::HeldBy { link } => Why::Locked { by: link },
        Bar::Behind { conn } => Why::Behind { by: conn },
    }
}

/// A call that the first lines let pass.
fn pass<B: Bus>(kernel: &mut Kernel<B>, conn: u32) -> Ended
    requires heard { HasHeard B.means kernel.old conn }
    requires passed { HasPassed B.means kernel.old conn }
    ensures { EndsFrom B.means B.through B.srq_level B.ndac_level kernel.old conn result kernel.new }
{
    if let Some(by) = kernel.turn_against(conn) {
        Ended::Waited(Why::Turn { by })
    } else if kernel.is_bus_call(conn) {
        run(kernel, conn)
    } else if kernel.asks_dial(conn) {
        kernel.dial(conn)
    } else {
        kernel.effect(conn)
    }
}

/// A bus call that waits for nobody's turn: its turn goes on, or begins where the gateway has the role for it.
fn run<B: Bus>(kernel: &mut Kernel<B>, conn: u32) -> Ended
    requires heard { HasHeard B.means kernel.old conn }
    requires passed { HasPassed B.means kernel.old conn }
    requires free { IsFree B.means kernel.old conn }
    requires bus { (p : Pending) → pending_at kernel.old.tables conn ≡ Some p → calls.is_bus_call p.call ≡ true }
    ensures { EndsFrom B.means B.through B.srq_level B.ndac_level kernel.old conn result kernel.new }
{
    if !kernel.has_turn() && !kernel.begin(conn) {
        return kernel.stop(conn, Ran::Still, ErrorCode::BusFault);
    }
    go(kernel, conn)
}

/// Goes on with the turn of the connection's call, which is under way.
fn go<B: Bus>(kernel: &mut Kernel<B>, conn: u32) -> Ended
    requires turn { HasTurn B.means kernel.old conn }
    ensures { EndsFrom B.means B.through B.srq_level B.ndac_level kernel.old conn result kernel.new }
{
    let (went, turn) = kernel.move_on(conn);
    match went {
        Went::Finished => kernel.finish(conn, &turn),
        Went::Broken => kernel.stop(conn, Ran::Broken, ErrorCode::BusFault),
        Went::Held if kernel.is_over(conn, &turn) => {
            kernel.stop(conn, Ran::Paused, ErrorCode::Timeout)
        }
        Went::Held => Ended::Waited(Why::Held),
        Went::Slice => Ended::Waited(Why::Slice),
    }
}
