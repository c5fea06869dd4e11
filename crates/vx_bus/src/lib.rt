//! The trait of an IEEE 488 bus, which stands in `vx_488`, with a form over memory, whose bytes, holds and faults a
//! test chooses. Nothing but tests stands on this crate.
#![tactic(auto)]

mod memory;

pub use memory::{MemBus, NoMemory};
pub use vx_488::{ASK_MAX, Ask, Bus, GetOut, Many, ManyGot, Move, Stop, Tweak};
