//! The gateway of a guard, behind its gate.
ghost use Rattle.std.specs.Prelude.{◌≡◌, [], IfSome, vec_len};
ghost use Rattle.vx_488.specs.Means.{first_means};
ghost use Rattle.vx_gate.specs.Gates.{gate_of, first_of};
ghost use Rattle.vx_guard.specs.Peers.{CanServe};
ghost use Rattle.vx_guard.specs.Outcome.{IsNew};
ghost use Rattle.vx_lone.specs.Lone.{handed};

use std::alloc::Global;
use vx_488::Bus;
use vx_core::Core;
use vx_gate::{Gate, Pass};
use vx_inst::Instrument;
use vx_lone::{LoneBus, Racked};
use vx_rack::Spare;

/// The port of the abort channel, which create_link tells.
const ABORT_PORT: u16 = 9011;

/// A bus with the one spare of the rack at primary address 5, and nothing else, that nobody asked yet.
pub(crate) fn bus_of<I: Instrument, M: Racked>(
    alloc: Global,
    rack: Vec<Spare<I>>,
) -> Option<LoneBus<I, M>>
    requires rack { vec_len rack ≡ 1 }
    requires racked { M.rack ≡ handed (λ i. I.behaves i) (λ i. I.nature i) rack.items }
    ensures fresh { IfSome result (λ bus. bus.means ≡ first_means) }
{
    let mut rack = rack;
    let Some(Spare { inst, .. }) = rack.pop() else {
        unreachable!()
    };
    match LoneBus::new(alloc, inst) {
        Ok(bus) => Some(bus),
        Err(_) => None,
    }
}

/// A gateway over a bus that nobody asked yet, behind a gate; and the gate's first pass.
pub(crate) fn start<B: Bus + Drop>(alloc: Global, bus: B) -> Option<(Gate<Core<B>>, Pass<Core<B>>)>
    requires fresh { B.means bus ≡ first_means }
    ensures can { IfSome result (λ r. CanServe (gate_of r.0) r.1) }
    ensures fresh { IfSome result (λ r. (r.1.seen ≡ []) × (r.1.own ≡ [])) }
    ensures first { IfSome result (λ r. IsNew (first_of r.0)) }
{
    let Ok(core) = Core::start(alloc, bus, ABORT_PORT) else {
        return None;
    };
    match Gate::start(alloc, core) {
        Ok(started) => Some(started),
        Err(_) => None,
    }
}
