//! `vxmap KIND PORT CORE ABORT N`: a port mapper (RFC 1833) that tells the ports of a VXI-11 gateway, over TCP or UDP.
#![tactic(auto)]

use std::env::{self, Env};
use std::io::{self, ErrorKind};
use std::process::ExitCode;
use vx_io::{StdSink, TcpDoor};
use vx_portmap::{MapHost, map_run};
use vx_udp::UdpBox;

/// The exit status where there is no memory for the words.
const NO_MEMORY: u8 = 5;

/// The words after the program's name.
fn words_of<R: Env + AllocGlobal>(rt: &R) -> io::Result<Vec<String>> {
    Ok(env::args(rt)?.skip(1).collect(rt.alloc())?)
}

/// Ends with the status of the run. Words of which one isn't UTF-8 have no form, so they then count as none.
fn main(rt: HostRuntime) -> ExitCode {
    let words = match words_of(&rt) {
        Ok(words) => words,
        Err(error) if error.kind() == ErrorKind::InvalidData => Vec::new(rt.alloc()),
        Err(_) => return ExitCode::from(NO_MEMORY),
    };
    let mut net = MapHost::new(TcpDoor::new(&rt), UdpBox::new(&rt));
    let mut sink = StdSink::new(rt.stdout());
    let status = map_run(rt.alloc(), words.as_slice(), &mut net, &mut sink);
    ExitCode::from(status)
}
