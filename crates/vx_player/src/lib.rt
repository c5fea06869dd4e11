//! The player of a script's steps: the core over a simulated bus, what each step does there, the steps of a run that a number makes,
//! and the lines that there are to print.
#![tactic(auto)]

mod bench;
mod lines;
mod made_run;
mod message;
mod note;
mod pieces;
mod player;
mod printer;
mod serve;

pub use lines::{begun_line, intake_line, moves_line, note_line};
pub use made_run::{Halt, take_all};
pub use note::{Gone, Intake, Note, StepMade};
pub use player::Player;
pub use printer::Printer;
