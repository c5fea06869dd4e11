//! The locks of a gateway: who holds which target, in order of grant, in room that is made once (VXI-11, device_lock).
#![tactic(auto)]

mod locks;

pub use locks::{Locks, NoMemory};
