//! A server whose bus is behind another box: its words, the taking of the box's bus, and then what each server does.
//!
//! The words are `HOST PORT [NAME]`, where the box is and which of its interfaces is meant, and then the options of `vxgate`.
#![tactic(auto)]

mod run;
mod telling;
mod words;

pub use run::relay_run;
pub use words::{Upstream, place_of};
