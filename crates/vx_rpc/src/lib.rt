//! RPC version 2 (RFC 5531) for the VXI-11 channels: the sorting of the messages that a server gets, and the headers
//! of calls and replies, written into a slice that the caller holds and read from a slice that is borrowed. No call
//! allocates.
#![tactic(auto)]

mod header;
mod put;
mod read;
mod refusal;
mod sort;
mod theorems;

pub use header::{CallRead, read_call};
pub use put::{put_call, put_refusal, put_reply};
pub use read::{ReplyRead, read_reply};
pub use refusal::RpcRefusal;
pub use sort::{Sorted, sort_call};
pub use theorems::{
    calls_are_sorted, calls_are_spelled, refusals_are_read, replies_are_spelled, successes_are_read,
};
