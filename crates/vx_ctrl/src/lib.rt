//! A turn on an IEEE 488 bus: it asks for the transfers of its job one after the other, and for nothing else.
#![tactic(auto)]

mod asking;
mod theorems;
mod turn;

pub use theorems::{walk_appends, walk_went};
pub use turn::{Turn, Went};
