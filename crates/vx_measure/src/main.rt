//! What a benchmark, a trial of memory and the gate start beside the programs, in one program with a word for each:
//!
//! - `vx_measure gate THREADS TURNS`: so many threads, 0 to 64, take so many turns each at one gate, and the number of all turns is
//!   printed.
//! - `vx_measure buses PORT LINKS`: serves so many links that come to PORT, one or two, both at once, by four simulated buses with
//!   an echo at address 5 each. It prints `ready` once the port is open, and ends with the links.
//! - `vx_measure loop`: a client and a gateway in one program. A text is written to an instrument that gives it back, is read again,
//!   and what came back is printed.
//! - `vx_measure rows`: the scripts and traces of the folder that it runs in are played and judged, and what is printed of them is
//!   compared with what is written down there. Behind it may stand `gate THREADS TURNS`, which is done then.
//!
//! Other words get a line of usage. What these runs take is for others to measure.
#![tactic(auto)]

mod asking;
mod comers;
mod racks;
mod rows;
mod serving;
mod status;
mod takers;
mod words;

use crate::asking::ask_once;
use crate::comers::serve_at;
use crate::rows::tell_rows;
use crate::status::Status;
use crate::takers::tell_turns;
use crate::words::{Asked, asked_of};
use std::process::ExitCode;
use vx_io::{Bound, Net, TcpNet};

fn main(rt: HostRuntime) -> ExitCode {
    let status = match asked_of(&rt) {
        Ok(Asked::Gate(turns)) => tell_turns(rt, turns),
        Ok(Asked::Buses { port, links }) => match TcpNet::new(&rt).bind(port) {
            Bound::Port(port) => serve_at(&rt, port, links),
            Bound::Failed => Status::NoPort,
        },
        Ok(Asked::Loop) => ask_once(&rt),
        Ok(Asked::Rows) => tell_rows(&rt),
        Ok(Asked::RowsAndGate(turns)) => match tell_rows(&rt) {
            Status::Done => tell_turns(rt, turns),
            status => status,
        },
        Err(status) => status,
    };
    if status == Status::Usage {
        let _ = println!(rt;
            "usage: vx_measure gate THREADS TURNS | buses PORT LINKS | loop | rows [gate THREADS TURNS]"
        );
    }
    ExitCode::from(status.number())
}
