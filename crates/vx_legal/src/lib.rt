//! The law that joins the player and the checker: what the player writes of a script of version 2 that it plays to its end is a trace
//! that the checker calls legal. There is no code in it.
#![tactic(auto)]

mod theorems;

pub use theorems::plays_are_legal;
