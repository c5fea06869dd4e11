//! The outside world of the programs: the traits of `vx_io_traits` and `vx_door` over the standard library and over the system's
//! sockets, for a `main`. Only programs, what they have of their host, and tests stand on this crate.
#![tactic(auto)]

mod accepting;
mod addresses;
mod clocks;
mod keeping;
mod parting;
mod patience;
mod places;
mod sockets;
mod standard;
mod tcp_doors;
mod timeouts;

pub use clocks::{StdClock, StdPause};
pub use sockets::{TcpLink, TcpNet, TcpPort, TcpReach};
pub use standard::{StdSink, StdSource};
pub use tcp_doors::TcpDoor;
pub use timeouts::{ReachTimeouts, Timeouts};
pub use vx_door::{Door, Met, Peered};
pub use vx_io_traits::{
    Accepted, Bound, Clock, Dial, DialOut, Handed, Link, Listen, Net, Pause, Rang, Reach, ReadOut,
    Sink, Source, Spawner, Started, Streams, Work, WriteOut,
};
