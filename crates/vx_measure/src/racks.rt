//! The instruments of the buses.
ghost use Rattle.std.specs.Prelude.{◌≡◌, ◌+◌, length, IfSome};

use arrayvec::ArrayString;
use std::alloc::Global;
use vx_rack::{Echo, Spare};

/// Adds an echo to the rack.
fn add(alloc: Global, rack: &mut Vec<Spare<Echo>>) -> Option<()>
    ensures { IfSome result (λ _. length rack.new.items ≡ length rack.old.items + 1) }
{
    let inst = Echo::new(alloc).ok()?;
    let name = ArrayString::new();
    rack.push(Spare { name, inst }).ok()
}

/// An echo for each bus.
pub(crate) fn rack_of(alloc: Global) -> Option<Vec<Spare<Echo>>>
    ensures { IfSome result (λ rack. length rack.items ≡ 4) }
{
    let mut rack = Vec::new(alloc);
    add(alloc, &mut rack)?;
    add(alloc, &mut rack)?;
    add(alloc, &mut rack)?;
    add(alloc, &mut rack)?;
    Some(rack)
}
