//! Which of several buses a call of a VXI-11 client goes to, as which call there, and how the reply comes back: the buses are
//! `gpib0` to `gpib3`, or the first of them, each with links of its own, which a client knows by numbers of which none is given by two
//! buses. No call here allocates.
mod counts;
mod names;
mod numbers;
mod replies;
mod routing;
mod theorems;

pub use counts::Count;
pub use numbers::{global, local};
pub use replies::{renumber, renumbered_law};
pub use routing::{Destination, place_of, route};
pub use theorems::{fewer_law, fleet_law, four_law};
