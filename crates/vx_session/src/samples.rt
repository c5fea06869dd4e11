//! Samples of the SRQ line.
ghost use Rattle.std.specs.Prelude.{◌≡◌, ◌≤◌};
ghost use Rattle.vx_session.specs.Pumping.{SamplesNow};
ghost use Rattle.vx_session.specs.Origin.{origin};

use crate::turns::sample;
use std::sync::Wait;
use vx_488::Bus;
use vx_core::Core;
use vx_gate::{Pass, Turns};
use vx_io_traits::Clock;

/// Looks at the SRQ line in one turn at the gate, at a moment that the clock tells, in milliseconds: at a rise each enabled
/// link gets one interrupt.
pub fn sample_turn<R: Wait, B: Bus, T: Turns<Core<B>>, C: Clock>(
    rt: &R,
    turns: &T,
    pass: Pass<Core<B>>,
    clock: &mut C,
) -> Pass<Core<B>>
    requires gate { pass.gate ≡ T.gate turns.now }
    ensures samples { SamplesNow (origin B.Bus (T.first turns.now)) C.Clock clock.old pass result clock.new }
    ensures told { C.told clock.old ≤ C.told clock.new }
{
    let now = clock.now();
    sample(rt, turns, pass, now)
}
