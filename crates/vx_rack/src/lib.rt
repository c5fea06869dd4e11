//! The instruments that come with the gateway, each a small model of one on an IEEE 488 bus: one that gives back what it
//! is sent, one that measures, one that is slow, and one that asks for service.
//!
//! A model takes memory only where it is made.
#![tactic(auto)]

mod asker;
mod echo;
mod meter;
mod slow;

use arrayvec::ArrayString;
pub use asker::Asker;
pub use echo::Echo;
pub use meter::Meter;
pub use slow::Slow;

/// There was no memory for an instrument.
#[derive(Clone, Copy, Debug, PartialEq, Eq)]
pub struct NoMemory;

/// A spare instrument, with the name, at most 16 bytes, that it is plugged in by.
#[derive(Drop)]
pub struct Spare<I> {
    pub name: ArrayString<16>,
    pub inst: I,
}
