//! The arguments and results of the VXI-11 procedures as bytes (RFC 4506), both ways: a server reads arguments and
//! writes results, a client writes arguments and reads results. What is read lies in the slice that it was read
//! from, what is written goes into the caller's slice, and no call allocates.
#![tactic(auto)]

mod arguments;
mod fields;
mod results;
mod theorems;

pub use arguments::{put_args, put_srq, read_args};
pub use results::{Results, put_results, read_results};
pub use theorems::{
    answered_again, answered_is_spelled, asked_again, asked_is_spelled, no_prefix, one_spelling,
};
