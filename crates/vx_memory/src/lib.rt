//! The outside of a program over memory, for its tests: a form of each trait of `vx_io_traits` that bytes, links, dials or moments
//! come through, and of a door. A test chooses what each gives and which of its calls fail, and looks afterwards at what it took; the
//! contracts say all of that exactly, so that a proof over them is one over lists.
#![tactic(auto)]

mod clocks;
mod dials;
mod doors;
mod links;
mod nets;
mod reaches;
mod sinks;
mod sources;
mod streams;

pub use clocks::MemClock;
pub use dials::MemDial;
pub use doors::{MemDoor, NoMemory};
pub use links::MemLink;
pub use nets::{MemNet, MemPort};
pub use reaches::MemReach;
pub use sinks::MemSink;
pub use sources::MemSource;
pub use streams::MemStreams;
