//! Doors, which meet peers one after another and are the link of the one that they met last, and links that know the address of their
//! peer.
#![tactic(auto)]

mod doors;
mod peered;

pub use doors::{Door, Met};
pub use peered::Peered;
