//! The state that all connections of a gateway share: each call to it is a group of interleaved events, and says through
//! which steps the bus went.
#![tactic(auto)]

mod ended;
mod kept;
mod kernel;
mod moves;
mod order;
mod polled;
mod replies;
mod running;
mod shared;
mod theorems;

pub use ended::Settled;
pub use polled::Polled;
pub use shared::{Core, StartRefused};
pub use theorems::became_law;
pub use vx_flow::{Ran, Why};
pub use vx_state::Connect;
