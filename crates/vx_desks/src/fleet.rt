//! Four gates side by side, each round a value of its own and with a history of its own, so that a turn at one never waits for
//! another's. Who takes turns at them has a pass of each.
mod gates;
mod passes;

pub use gates::{Gates, GatesRefused};
pub use passes::Passes;
