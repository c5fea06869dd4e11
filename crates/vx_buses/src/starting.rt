//! The gateways of the program as they start: each over a simulated bus with one instrument.
ghost use Rattle.std.specs.Prelude.{◌≡◌, ◌<◌, ◌+◌, [], ⊤, length, IfSome};
ghost use Rattle.std.specs.List.{All, AllZip};
ghost use Rattle.vx_488.specs.Means.{first_means};
ghost use Rattle.vx_desks.specs.Four.{Each, listed};
ghost use Rattle.vx_desks.specs.Passing.{passes_shown, IsFirst};
ghost use Rattle.vx_desks.specs.Standing.{gates_shown, firsts_shown};
ghost use Rattle.vx_lone.specs.Lone.{handed, IsOneOf};
ghost use Rattle.vx_sim.specs.Attaching.{IsAttached};
ghost use Rattle.vx_sim.specs.Occupants.{Seated, Boxed, handed_in};
ghost use Rattle.vx_sim.specs.SimState.{first_state};
ghost use Rattle.vx_buses.specs.Starting.{place, Begins, AddsCore, AreFurnished};

use std::alloc::Global;
use vx_488::{Addr, Bus};
use vx_core::Core;
use vx_desks::{BusPass, Buses};
use vx_inst::Instrument;
use vx_lone::{LoneBus, Racked};
use vx_rack::Spare;
use vx_sim::SimBus;

/// The TCP port of the abort channels, which a create_link tells.
const ABORT_PORT: u16 = 9011;

/// The primary address at which the instrument of each bus stands.
const PLACE: u8 = 5;

/// A bus that is made with one instrument on it.
pub(crate) trait BusOver<I: Instrument>: Bus + Sized {
    // Which instruments, as they are handed in, it is made with.
    ghost may: { Seated → Type 0 };

    // This instrument stands on it.
    ghost stands: { Seated → Self → Type 0 };

    /// A bus that nobody has asked yet, with this instrument on it; none where there is no memory.
    fn over(alloc: Global, inst: I) -> Option<Self>
        requires { may (handed_in (λ i. I.behaves i) (λ i. I.nature i) inst) }
        ensures fresh { IfSome result (λ bus. Self.means bus ≡ first_means) }
        ensures stands { IfSome result (λ bus. stands (handed_in (λ i. I.behaves i) (λ i. I.nature i) inst) bus) };
}

impl<I: Instrument> BusOver<I> for SimBus<I> {
    ghost may = { λ inst. ⊤ };

    ghost stands = { λ inst bus. IsAttached place (Boxed inst) first_state bus };

    fn over(alloc: Global, inst: I) -> Option<Self> {
        let Ok(mut bus) = SimBus::new(alloc) else {
            return None;
        };
        let place = Addr { p: PLACE, s: None };
        match bus.attach_box(place, inst) {
            Ok(()) => Some(bus),
            Err(_) => None,
        }
    }
}

impl<I: Instrument, M: Racked> BusOver<I> for LoneBus<I, M> {
    ghost may = { IsOneOf M.rack };

    ghost stands = { λ inst bus. IsAttached place (Boxed inst) first_state bus };

    fn over(alloc: Global, inst: I) -> Option<Self> {
        LoneBus::new(alloc, inst).ok()
    }
}

/// Adds a gateway with nothing in it over a bus with the first instrument of the rack, which is taken from there.
fn add_core<I: Instrument, B: BusOver<I> + Drop>(
    alloc: Global,
    cores: &mut Vec<Core<B>>,
    rack: &mut Vec<Spare<I>>,
) -> Option<()>
    requires some { 0 < length rack.old.items }
    requires may { All B.may (handed (λ i. I.behaves i) (λ i. I.nature i) rack.old.items) }
    ensures taken { length rack.old.items ≡ length rack.new.items + 1 }
    ensures may { All B.may (handed (λ i. I.behaves i) (λ i. I.nature i) rack.new.items) }
    ensures added { IfSome result (λ _. AddsCore B.Bus B.stands (λ i. I.behaves i) (λ i. I.nature i) rack.old.items cores.old.items rack.new.items cores.new.items) }
{
    let Spare { inst, .. } = rack.remove(0);
    let Some(bus) = B::over(alloc, inst) else {
        return None;
    };
    let Ok(core) = Core::start(alloc, bus, ABORT_PORT) else {
        return None;
    };
    cores.push(core).ok()
}

/// Adds a gateway for each of four instruments, in their order.
fn add_cores<I: Instrument, B: BusOver<I> + Drop>(
    alloc: Global,
    cores: &mut Vec<Core<B>>,
    rack: &mut Vec<Spare<I>>,
) -> Option<()>
    requires none { cores.old.items ≡ [] }
    requires four { length rack.old.items ≡ 4 }
    requires may { All B.may (handed (λ i. I.behaves i) (λ i. I.nature i) rack.old.items) }
    ensures { IfSome result (λ _. AllZip (Begins B.Bus B.stands) (handed (λ i. I.behaves i) (λ i. I.nature i) rack.old.items) cores.new.items) }
{
    add_core(alloc, cores, rack)?;
    add_core(alloc, cores, rack)?;
    add_core(alloc, cores, rack)?;
    add_core(alloc, cores, rack)
}

/// A gateway for each of four instruments, in their order; none where there is no memory.
fn cores_over<I: Instrument, B: BusOver<I> + Drop>(
    alloc: Global,
    rack: Vec<Spare<I>>,
) -> Option<Vec<Core<B>>>
    requires four { length rack.items ≡ 4 }
    requires may { All B.may (handed (λ i. I.behaves i) (λ i. I.nature i) rack.items) }
    ensures { IfSome result (λ cores. AllZip (Begins B.Bus B.stands) (handed (λ i. I.behaves i) (λ i. I.nature i) rack.items) cores.items) }
{
    let mut rack = rack;
    let mut cores = Vec::new(alloc);
    match add_cores(alloc, &mut cores, &mut rack) {
        Some(()) => Some(cores),
        None => None,
    }
}

/// Four gateways behind gates of their own, bus 0 to 3, each over a bus with the instrument of its place in the rack, and the first
/// passes; none where there is no memory.
pub(crate) fn start_over<I: Instrument, B: BusOver<I> + Drop>(
    alloc: Global,
    rack: Vec<Spare<I>>,
) -> Option<(Buses<B>, BusPass<B>)>
    requires four { length rack.items ≡ 4 }
    requires may { All B.may (handed (λ i. I.behaves i) (λ i. I.nature i) rack.items) }
    ensures started { IfSome result (λ r. Each IsFirst (passes_shown r.1) (gates_shown r.0)) }
    ensures begin { IfSome result (λ r. AllZip (Begins B.Bus B.stands) (handed (λ i. I.behaves i) (λ i. I.nature i) rack.items) (listed (firsts_shown r.0))) }
{
    let Some(cores) = cores_over::<I, B>(alloc, rack) else {
        return None;
    };
    Buses::start(alloc, cores).ok()
}

/// Four gateways behind gates of their own, bus 0 to 3, each over a bus with the instrument of its place in the rack at primary address
/// 5, whose abort channels are at port 9011, and the first passes; none where there is no memory.
pub fn start_buses<I: Instrument>(
    alloc: Global,
    rack: Vec<Spare<I>>,
) -> Option<(Buses<SimBus<I>>, BusPass<SimBus<I>>)>
    requires { length rack.items ≡ 4 }
    ensures started { IfSome result (λ r. Each IsFirst (passes_shown r.1) (gates_shown r.0)) }
    ensures furnished { IfSome result (λ r. AreFurnished (handed (λ i. I.behaves i) (λ i. I.nature i) rack.items) (listed (firsts_shown r.0))) }
{
    start_over::<I, SimBus<I>>(alloc, rack)
}
