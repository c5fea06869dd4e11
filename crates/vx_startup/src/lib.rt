//! How a server starts and ends, told over plain values: its words, what these and its bench come to, the links that its net gives
//! it, the lines that it prints, its exit status, and its log.
//!
//! The words are the options of `vxgate`, each a number in a range with a default, two flags, names for devices, and the file of its
//! access rules. They are read with `clap`, as one simple command. Nothing is printed there, and no memory is taken but `clap`'s and
//! that of the table of names and of the file's name.
#![tactic(auto)]

mod command;
mod lines;
mod logging;
mod preparing;
mod rules;
mod status;
mod taking;
mod telling;
mod words;

pub use logging::{Channel, Journal, Logs, News, Place, Placed, Reason};
pub use preparing::{BENCH_MAX, prepare};
pub use rules::Rules;
pub use status::ServerStatus;
pub use taking::{next_link, open_ports};
pub use telling::{announce, end_bench, put_last, tell_served};
pub use words::{Asked, Options, read_words};
