//! A bus with one instrument.

ghost use Rattle.std.specs.Prelude.{◌≡◌, IfSome};
ghost use Rattle.vx_488.specs.Means.{first_means};

use std::alloc::Global;
use vx_488::Addr;
use vx_inst::Instrument;
use vx_sim::SimBus;

/// A bus with an instrument at 5, where there is one.
pub(crate) fn bus_with<I: Instrument>(alloc: Global, inst: Option<I>) -> Option<SimBus<I>>
    ensures { IfSome result (λ bus. bus.means ≡ first_means) }
{
    let inst = inst?;
    let mut bus = SimBus::new(alloc).ok()?;
    match bus.attach_box(Addr { p: 5, s: None }, inst) {
        Ok(()) => Some(bus),
        Err(_) => None,
    }
}
