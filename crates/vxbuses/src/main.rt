//! `vxbuses PORT N`: serves VXI-11 clients over TCP by four simulated buses, `gpib0` to `gpib3`, each with an echo at address 5.
#![tactic(auto)]

mod tools;

ghost use Rattle.std.specs.Prelude.{◌≡◌, ◌+◌, length, IfSome};

use crate::tools::HostTools;
use arrayvec::ArrayString;
use std::alloc::Global;
use std::env::{self, Env};
use std::io::{self, ErrorKind};
use std::process::ExitCode;
use vx_buses::buses_run;
use vx_io::{StdSink, TcpDoor};
use vx_rack::{Echo, Spare};

/// The exit status where there is no memory for the words or the instruments.
const NO_MEMORY: u8 = 5;

/// Adds an echo to the rack.
fn add(alloc: Global, rack: &mut Vec<Spare<Echo>>) -> Option<()>
    ensures { IfSome result (λ _. length rack.new.items ≡ length rack.old.items + 1) }
{
    let inst = Echo::new(alloc).ok()?;
    let name = ArrayString::new();
    rack.push(Spare { name, inst }).ok()
}

/// An echo for each bus.
fn rack_of(alloc: Global) -> Option<Vec<Spare<Echo>>>
    ensures { IfSome result (λ rack. length rack.items ≡ 4) }
{
    let mut rack = Vec::new(alloc);
    add(alloc, &mut rack)?;
    add(alloc, &mut rack)?;
    add(alloc, &mut rack)?;
    add(alloc, &mut rack)?;
    Some(rack)
}

/// The words after the program's name.
fn words_of<R: Env + AllocGlobal>(rt: &R) -> io::Result<Vec<String>> {
    Ok(env::args(rt)?.skip(1).collect(rt.alloc())?)
}

/// Ends with the status of the run. Words of which one isn't UTF-8 have no form, so they then count as none.
fn main(rt: HostRuntime) -> ExitCode {
    let words = match words_of(&rt) {
        Ok(words) => words,
        Err(error) if error.kind() == ErrorKind::InvalidData => Vec::new(rt.alloc()),
        Err(_) => return ExitCode::from(NO_MEMORY),
    };
    let Some(rack) = rack_of(rt.alloc()) else {
        return ExitCode::from(NO_MEMORY);
    };
    let status = buses_run(
        &rt,
        rt.alloc(),
        words.as_slice(),
        &mut TcpDoor::new(&rt),
        &mut HostTools::new(rt),
        &mut StdSink::new(rt.stdout()),
        rack,
    );
    ExitCode::from(status)
}
