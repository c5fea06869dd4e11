//! A gateway over a simulated bus as a link: what is sent over it comes on connection 1 of the gateway, and what is
//! received are the gateway's replies. A client over such a link talks to the gateway in the same thread. What its writes
//! let the instruments hear is proved from the one end to the other, and so is why one gets no reply.
#![tactic(auto)]

mod link;
mod marked;
mod served;
mod theorems;
mod through;

pub use link::{LoopLink, LoopRefused};
pub use theorems::resting_law;
pub use through::through_client;
