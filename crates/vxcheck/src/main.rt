//! `vxcheck`: reads a trace of version 2 from standard input, and prints on standard output whether its history is legal.
#![tactic(auto)]

use std::env::{self, Env};
use std::io::{self, ErrorKind};
use std::process::ExitCode;
use vx_check::check_run;
use vx_io::{StdSink, StdSource};

/// The exit status where there is no memory for the words.
const NO_MEMORY: u8 = 5;

/// The words after the program's name.
fn words_of<R: Env + AllocGlobal>(rt: &R) -> io::Result<Vec<String>> {
    Ok(env::args(rt)?.skip(1).collect(rt.alloc())?)
}

/// A word that stands for those of which one isn't UTF-8: any word is too many.
fn some_word<R: AllocGlobal>(rt: &R) -> io::Result<Vec<String>> {
    Ok(vec![in rt.alloc(); String::new(rt.alloc())]?)
}

/// Ends with the status of the check.
fn main(rt: HostRuntime) -> ExitCode {
    let words = match words_of(&rt) {
        Err(error) if error.kind() == ErrorKind::InvalidData => some_word(&rt),
        words => words,
    };
    let Ok(words) = words else {
        return ExitCode::from(NO_MEMORY);
    };
    let mut source = StdSource::new(rt.stdin());
    let mut sink = StdSink::new(rt.stdout());
    let status = check_run(rt.alloc(), words.as_slice(), &mut source, &mut sink);
    ExitCode::from(status)
}
