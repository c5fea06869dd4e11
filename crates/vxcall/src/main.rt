//! `vxcall HOST PORT DEVICE COMMAND`: asks one thing of one device of a VXI-11 server over TCP, and prints what came of it.
#![tactic(auto)]

use std::env::{self, Env};
use std::io::{self, ErrorKind};
use std::process::ExitCode;
use vx_client::call_run;
use vx_io::{StdSink, TcpReach};

/// The exit status where there is no memory for the words.
const NO_MEMORY: u8 = 5;

/// The words after the program's name.
fn words_of<R: Env + AllocGlobal>(rt: &R) -> io::Result<Vec<String>> {
    Ok(env::args(rt)?.skip(1).collect(rt.alloc())?)
}

/// Ends with the status of the call. Words of which one isn't UTF-8 have no form, so they then count as none.
fn main(rt: HostRuntime) -> ExitCode {
    let words = match words_of(&rt) {
        Ok(words) => words,
        Err(error) if error.kind() == ErrorKind::InvalidData => Vec::new(rt.alloc()),
        Err(_) => return ExitCode::from(NO_MEMORY),
    };
    let mut sink = StdSink::new(rt.stdout());
    let (status, _) = call_run(rt.alloc(), words.as_slice(), TcpReach::new(&rt), &mut sink);
    ExitCode::from(status)
}
