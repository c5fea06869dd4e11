//! The instruments that lines of a script describe: what each line's is, why it isn't attached, and a bench, a text of such
//! lines alone, set up on a simulated bus.
#![tactic(auto)]

mod bench;
mod shelf;
mod stops;
mod table;

pub use bench::{BenchStop, set_up};
pub use shelf::{refused_for, spare_place};
pub use stops::Refusal;
pub use table::table_of;
