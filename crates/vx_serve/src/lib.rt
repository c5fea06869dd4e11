//! The server: its words, its bench, its ports, its workers, and the links that it takes.
#![tactic(auto)]

mod server;

pub use server::{Ended, Host, Serve, serve_bus, serve_run};
pub use vx_startup::{BENCH_MAX, Logs, Place, Placed, Rules, ServerStatus};
pub use vx_workers::ServeBus;
