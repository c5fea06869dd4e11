//! A simulated IEEE 488 bus with instruments on it: each stands at an address, hears what is put while it listens, gives
//! what is got while it talks, and obeys the commands that reach it.
//!
//! It takes memory only where it is made.
#![tactic(auto)]

mod attach;
mod bench;
mod places;
mod seat;
mod signals;
mod sim;
mod theorems;

pub use attach::{Absent, Attach, Refused};
pub use signals::Signal;
pub use sim::SimBus;
pub use theorems::heard_is_taken;

/// The most instruments on a bus.
pub const PLACES_MAX: usize = 31;

/// There was no memory for a bus.
#[derive(Clone, Copy, Debug, PartialEq, Eq)]
pub struct NoMemory;
