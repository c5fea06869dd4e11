//! The workers of a server: links are taken, and handed to workers that serve them by turns at one gate.
#![tactic(auto)]

mod accepting;
mod access;
mod planning;
mod served;
mod starting;
mod workers;

pub use accepting::accept_links;
pub use access::{Access, GateAccess, LabBook, LinkAccess};
pub use served::Served;
pub use starting::{Acceptor, AcceptorOf, Unstarted, start_all};
pub use workers::{Attend, CoreKit, CoreWorker, Duty, Job, Peer, ServeBus};
