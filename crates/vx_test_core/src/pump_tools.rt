//! A bus with an instrument that asks for service, and handles as their bytes.
ghost use Rattle.std.specs.Prelude.{◌≡◌, IfSome};
ghost use Rattle.vx_488.specs.Means.{first_means};

use arrayvec::ArrayVec;
use std::alloc::Global;
use vx_488::Addr;
use vx_calls::Handle;
use vx_rack::Echo;
use vx_sim::SimBus;

/// An instrument that gives back what it is sent stands at 5, with this status byte.
fn hang(bus: &mut SimBus<Echo>, echo: Echo, status: u8) -> bool
    ensures { bus.new.means ≡ bus.old.means }
{
    let at = Addr { p: 5, s: None };
    match bus.attach_box(at, echo) {
        Err(_) => false,
        Ok(()) => match bus.set_status(at, status) {
            Err(_) => false,
            Ok(()) => true,
        },
    }
}

/// A bus with such an instrument, which asks for service where its status byte has the bit 0x40.
pub(crate) fn echo_bus(alloc: Global, status: u8) -> Option<SimBus<Echo>>
    ensures { IfSome result (λ bus. bus.means ≡ first_means) }
{
    let Ok(echo) = Echo::new(alloc) else {
        return None;
    };
    let Ok(mut bus) = SimBus::new(alloc) else {
        return None;
    };
    hang(&mut bus, echo, status).then_some(bus)
}

/// A handle of these bytes, of which there are at most 40.
pub(crate) fn handle(bytes: &[u8]) -> Handle {
    let mut all = ArrayVec::new();
    let _ = all.try_extend_from_slice(bytes);
    Handle { bytes: all }
}
