//! A client of a VXI-11 server over a link: its calls on the core channel, one after the other, each as one record, and
//! each answered by one.
//!
//! A client makes its room when it is made and takes no memory after that. Calls are numbered 1, 2, 3 and so on modulo
//! 2^32. A call that ended with `BadReply`, `Closed`, `ReadFault` or `WriteFault` leaves the client spent: no further one
//! is sent, until it is renewed.
//!
//! `call_run` is the program `vxcall`: one command of a user, by such calls.
#![tactic(auto)]

mod answers;
mod bulk;
mod calls;
mod client;
mod gains;
mod inbox;
mod lines;
mod outbox;
mod run;
mod settling;
mod telling;
mod words;

pub use answers::{CallOpts, ClientErr, LinkMade, NewRefused, ReadEnd};
pub use client::Client;
pub use run::{call_over, call_run, is_call};
