//! Desks over the desk of one bus: a fleet of one to four buses, `gpib0` to `gpib3`, each a gateway behind a gate of its own, so that a turn on one
//! bus never waits for another's gate; and, over any desk, one whose calls are judged by written rules, and one that knows devices by names as
//! well. And the sessions and the links of connections to four buses, and of connections that are guarded by rules.
#![tactic(auto)]

mod answering;
mod asking;
mod denying;
mod fleet;
mod fleet_desk;
mod fleet_links;
mod fleet_sessions;
mod joining;
mod leaving;
mod named;
mod named_laws;
mod named_links;
mod routes;
mod ruled;
mod ruled_laws;
mod ruled_links;
mod ruled_sessions;

pub use asking::FleetWorker;
pub use denying::Note;
pub use fleet::{Gates, GatesRefused, Passes};
pub use fleet_desk::Fleet;
pub use fleet_links::{LinkServer, many_link};
pub use fleet_sessions::{many_abort, many_session};
pub use named::Named;
pub use named_laws::names_law;
pub use named_links::{Lab, lab_link, named_link};
pub use routes::{Count, fewer_law, four_law, global, local};
pub use ruled::Ruled;
pub use ruled_links::{Gateway, Guarded, Kit, guarded_link};
pub use ruled_sessions::{GuardEnd, GuardRoom, guarded_session};
use vx_core::Core;
pub use vx_policy::{NAMES_MAX, NameRefused, NameTable};

/// Four gateways, each behind a gate of its own.
pub type Buses<B> = Gates<Core<B>>;

/// A pass of each of four gateways, in the order of their buses.
pub type BusPass<B> = Passes<Core<B>>;

/// There was no memory for the gates. Four gateways come back, to whose histories no group was added.
pub type BusesRefused<B> = GatesRefused<Core<B>>;

/// There was no memory for the room of a guarded session.
#[derive(Clone, Copy, Debug, PartialEq, Eq)]
pub struct NoMemory;
