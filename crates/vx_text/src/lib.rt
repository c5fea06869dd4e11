//! Whole texts: a source read to its end, a text written to its end, the lines of a text, and numbers as text.
#![tactic(auto)]

mod input;
mod lines;
mod numbers;
mod output;

pub use input::{Input, read_all, zeros};
pub use lines::first_line;
pub use numbers::{DIGITS_MAX, number_line, number_within, put_number, put_text};
pub use output::{SinkFailed, put_all};
