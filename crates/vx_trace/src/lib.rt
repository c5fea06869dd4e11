//! The lines that the player prints, both ways: each line has one text, and each such text is read back as its line.
//! Version 2 has lines of its own, and a moment before each line but the first and the last. No call takes memory.
#![tactic(auto)]

mod lines;
mod put;
mod read;
mod theorems;
mod transfers;
mod values;

pub use lines::{Full, Line};
pub use put::{put_line, put_line2};
pub use read::{read_line, read_line2};
pub use theorems::{one_end, one_end2, one_text, one_text2};
