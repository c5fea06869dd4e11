//! What the server program has of its host: workers as threads, a net whose links know where their peers are, interrupt channels over
//! TCP, and on standard error a log, and its lost sockets. It is the trusted edge, a few lines each, as the adapters of `vx_io` are.
#![tactic(auto)]

mod logs;
mod nets;
mod spawner;
mod tools;
mod wiring;

pub use logs::ErrorLog;
pub use nets::{HostLink, HostNet, HostPort};
pub use spawner::{ThreadSpawner, start_threads};
pub use tools::{Dialed, TcpDial, TcpStreams, TcpTools};
pub use wiring::{Wiring, wire};
