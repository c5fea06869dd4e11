//! A bus that another box drives: each ask of the gateway goes over a link to that box's GPIB interface, as a call of
//! VXI-11 and VXI-11.2. What is proved is what is sent and how the answers are taken. What the box does with its bus is its
//! own affair.
#![tactic(auto)]

mod bus;
mod calls;
mod judging;
mod open;
mod orders;
mod telling;
mod theorems;
mod tries;
mod upstream;

pub use open::OpenErr;
pub use theorems::{calls_law, restoring_law};
pub use upstream::UpstreamBus;
