//! The links of a gateway that live: a table of at most 1,024 rows, in room that is made once, which gives each link a
//! number of its own and finds links by number, by connection and by bus address.
#![tactic(auto)]

mod links;

pub use links::{Full, LinkRow, Links, NoMemory};
