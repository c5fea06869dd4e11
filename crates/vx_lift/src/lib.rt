//! A script of version 1 written as one of version 2: each step behind its moment.
#![tactic(auto)]

mod lines;
mod scripts;
mod theorems;

pub use lines::TEXT_ROOM;
pub use scripts::{LiftEnd, Lifting, lift_lines, lift_script};
pub use theorems::lines_of_lifts;
