//! The service requests of a gateway: interrupt channels with their outboxes, the links that are enabled, and the level
//! of the SRQ line (VXI-11, create_intr_chan and device_enable_srq).
#![tactic(auto)]

mod enables;
mod slots;
mod srq;

pub use srq::{Channel, NoMemory, NoNumber, Srq};
