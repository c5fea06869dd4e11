//! Programs over a door that serve so many peers one after another: their words, the loop over the peers, the line that they print, and
//! their statuses. What serves a peer is a `PeerServer` of the program at hand.
#![tactic(auto)]

mod servers;
mod serving;
mod stopping;
mod words;

pub use servers::PeerServer;
pub use serving::{DoorStatus, PortEnd, put_line, serve_peers, serve_port};
pub use stopping::{DoorEnd, WhyStopped, serve_all};
pub use words::{Ask, PEERS_MAX, ask_of, number_of, port_of};
