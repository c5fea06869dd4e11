//! A checker of traces: whether the history that a trace of version 2 tells is one of the gateway of one thread, and if it isn't, the
//! first line that has a cause against it.
#![tactic(auto)]

mod run;

pub use run::{check_run, check_up_to};
pub use vx_history::{
    Cause, TRACE_MAX, formed_runs, lawful_histories, one_history, replies_are_read,
};
