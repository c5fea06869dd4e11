//! Interleaved events of the gateway, and the laws that make their histories those of a gateway of one thread.
#![tactic(auto)]

mod progress;
mod theorems;

pub use progress::{Ran, Why};
pub use theorems::{
    claims_law, does_law, earlier_law, frame_law, heard_law, interrupt_law, linearization_law,
    poll_ways, reached_law, sound_law, turn_free_law,
};
