//! A run of the player that a number makes: its words, its draws, the steps that they choose, and the text that tells its counts.
#![tactic(auto)]

mod draws;
mod records;
mod steps;
mod telling;
mod words;

pub use draws::{connection_of, next_draw};
pub use records::RECORD_ROOM;
pub use steps::{HEAD_STEPS, drawn_step, head_step};
pub use telling::{Counts, SUMMARY_ROOM, TITLE_ROOM, summary, title};
pub use words::{Ask, ask_of};
