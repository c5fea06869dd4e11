//! The gateway of one thread as a plain, slow program that computes the definitions of `vx_rules`. Nothing but tests stands
//! on it.
#![tactic(auto)]

mod entry;
mod plain;

pub use entry::EntryRef;
pub use plain::Plain;
pub use vx_state::NoMemory;
