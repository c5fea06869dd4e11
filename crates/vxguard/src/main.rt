//! `vxguard PORT N`: serves VXI-11 clients over TCP, one after another, as far as the written rules on standard input allow it.
#![tactic(auto)]

ghost use Rattle.std.specs.Prelude.{◌≡◌, IfSome, vec_len};

mod tools;

use crate::tools::GuardTools;
use arrayvec::ArrayString;
use std::alloc::{AllocError, Global};
use std::env::{self, Env};
use std::io::ErrorKind;
use std::process::ExitCode;
use vx_guard::guard_run;
use vx_io::{StdSink, StdSource, TcpDoor};
use vx_rack::{Echo, Spare};

/// The exit status where there is no memory for the words or the instrument.
const NO_MEMORY: u8 = 5;

/// The words after the program's name. Words of which one isn't UTF-8 have no form, so they then count as none.
fn words_of<R: Env + AllocGlobal>(rt: &R) -> Result<Vec<String>, AllocError> {
    match env::args(rt) {
        Ok(words) => words.skip(1).collect(rt.alloc()),
        Err(error) if error.kind() == ErrorKind::InvalidData => Ok(Vec::new(rt.alloc())),
        Err(_) => Err(AllocError),
    }
}

/// The one instrument: it gives back what it is sent.
fn rack_of(alloc: Global) -> Option<Vec<Spare<Echo>>>
    ensures { IfSome result (λ rack. vec_len rack ≡ 1) }
{
    let mut name = ArrayString::new();
    let _ = name.try_push_str("echo");
    let Ok(inst) = Echo::new(alloc) else {
        return None;
    };
    let mut rack = Vec::new(alloc);
    match rack.push(Spare { name, inst }) {
        Ok(()) => Some(rack),
        Err(_) => None,
    }
}

/// Ends with the status of the run.
fn main(rt: HostRuntime) -> ExitCode {
    let Ok(words) = words_of(&rt) else {
        return ExitCode::from(NO_MEMORY);
    };
    let Some(rack) = rack_of(rt.alloc()) else {
        return ExitCode::from(NO_MEMORY);
    };
    let status = guard_run(
        &rt,
        rt.alloc(),
        words.as_slice(),
        &mut StdSource::new(rt.stdin()),
        &mut TcpDoor::new(&rt),
        &mut GuardTools::new(rt),
        &mut StdSink::new(rt.stdout()),
        rack,
    );
    ExitCode::from(status)
}
