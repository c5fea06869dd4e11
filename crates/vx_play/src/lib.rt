//! A script of interleaved connections played through the gateway, every reply and transfer printed; or a run that a number makes.
#![tactic(auto)]

mod run;
mod theorems;

pub use run::play_run;
pub use theorems::plays_of_lifts;
