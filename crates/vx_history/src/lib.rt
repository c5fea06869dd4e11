//! The history that a trace of version 2 tells: the trace read from its source, its lines taken one after the other, each behind those
//! before it; and the laws of what traces tell.
#![tactic(auto)]

mod cause;
mod checker;
mod formed;
mod kept;
mod limits;
mod lines;
mod message;
mod replies;
mod theorems;
mod trace;

pub use cause::Cause;
pub use formed::formed_runs;
pub use limits::TRACE_MAX;
pub use lines::{Far, end_lines, walk};
pub use theorems::{lawful_histories, one_history, replies_are_read};
pub use trace::{Trace, read_trace};
