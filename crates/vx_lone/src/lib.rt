//! A simulated bus with one instrument of a rack on it, at primary address 5, and nothing else. That is so at every step, so whatever
//! is said of a session over it is said of such a bus.
#![tactic(auto)]

mod lone;

pub use lone::{LoneBus, Racked};
pub use vx_sim::NoMemory;
