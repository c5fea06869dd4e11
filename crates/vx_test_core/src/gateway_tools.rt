//! Gateways over a bus in memory.
ghost use Rattle.std.specs.Prelude.{◌≡◌, [], IfSome};
ghost use Rattle.vx_488.specs.Means.{first_means};
ghost use Rattle.vx_core.specs.Standing.{Became};
ghost use Rattle.vx_gate.specs.Gates.{gate_of};

use std::alloc::Global;
use vx_488::Bus;
use vx_bus::MemBus;
use vx_core::Core;
use vx_gate::{Gate, Pass};

/// The port of the abort channel.
pub(crate) const PORT: u16 = 9011;

/// A bus over memory that gives these bytes, and of whose moving calls these are held, and these fail.
pub(crate) fn mem_bus(
    alloc: Global,
    gets: &[(u8, bool)],
    holds: &[u64],
    fails: &[u64],
) -> Option<MemBus>
    ensures { IfSome result (λ bus. bus.means ≡ first_means) }
{
    let gets = gets.to_vec(alloc).ok()?;
    let holds = holds.to_vec(alloc).ok()?;
    let fails = fails.to_vec(alloc).ok()?;
    MemBus::new(alloc, gets, holds, fails).ok()
}

/// A gateway with nothing in it, over a bus, where there is one.
pub(crate) fn core_over<B: Bus + Drop>(alloc: Global, bus: Option<B>) -> Option<Core<B>>
    requires { IfSome bus (λ b. B.means b ≡ first_means) }
    ensures { IfSome result (λ core. Became B.means B.through core core []) }
{
    Core::start(alloc, bus?, PORT).ok()
}

/// A gate round a gateway with nothing in it, and its pass.
pub(crate) fn gate_round<B: Bus + Drop>(
    alloc: Global,
    core: Core<B>,
) -> Option<(Gate<Core<B>>, Pass<Core<B>>)>
    requires { Became B.means B.through core core [] }
    ensures gate { IfSome result (λ r. r.1.gate ≡ gate_of r.0) }
    ensures parts { IfSome result (λ r. r.1.parts ≡ 4294967296) }
{
    match Gate::start(alloc, core) {
        Ok(started) => Some(started),
        Err(_) => None,
    }
}

/// A gate round a gateway with nothing in it, over a bus, where there is one, and its pass.
pub(crate) fn gateway<B: Bus + Drop>(
    alloc: Global,
    bus: Option<B>,
) -> Option<(Gate<Core<B>>, Pass<Core<B>>)>
    requires { IfSome bus (λ b. B.means b ≡ first_means) }
    ensures gate { IfSome result (λ r. r.1.gate ≡ gate_of r.0) }
    ensures parts { IfSome result (λ r. r.1.parts ≡ 4294967296) }
{
    gate_round(alloc, core_over(alloc, bus)?)
}
