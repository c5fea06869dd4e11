//! `vxplay COMMAND`: plays the script on standard input, and prints on standard output what the gateway answers.
#![tactic(auto)]

use arrayvec::ArrayString;
use std::alloc::{AllocError, AllocFailed};
use std::env::{self, Env};
use std::io::{self, ErrorKind};
use std::process::ExitCode;
use vx_inst::Instrument;
use vx_io::{StdSink, StdSource};
use vx_play::play_run;
use vx_rack::{Asker, Echo, Meter, NoMemory, Slow, Spare};

/// The exit status where there is no memory for the words or the spare instruments.
const NO_MEMORY: u8 = 5;

/// How many spare instruments there are of each model.
const SPARES: usize = 4;

/// An instrument of any model.
type Boxed = Box<dyn Instrument + Send>;

/// The words after the program's name.
fn words_of<R: Env + AllocGlobal>(rt: &R) -> io::Result<Vec<String>> {
    Ok(env::args(rt)?.skip(1).collect(rt.alloc())?)
}

/// Adds a spare instrument under a name of at most 16 bytes.
fn add(rack: &mut Vec<Spare<Boxed>>, name: &str, inst: Boxed) -> Result<(), AllocError> {
    let mut text = ArrayString::new();
    if text.try_push_str(name).is_ok() {
        rack.push(Spare { name: text, inst })?;
    }
    Ok(())
}

/// Plays the script on standard input, with four spare instruments of each model.
fn play(rt: &HostRuntime, words: &[String]) -> Result<u8, Unmade> {
    let alloc = rt.alloc();
    let mut rack = Vec::new(alloc);
    for _ in 0..SPARES {
        add(&mut rack, "echo", Box::new(alloc, Echo::new(alloc)?)?)?;
        add(&mut rack, "meter", Box::new(alloc, Meter::new(alloc)?)?)?;
        add(&mut rack, "slow", Box::new(alloc, Slow::new(alloc)?)?)?;
        add(&mut rack, "asker", Box::new(alloc, Asker::new(alloc)?)?)?;
    }
    let mut source = StdSource::new(rt.stdin());
    let mut sink = StdSink::new(rt.stdout());
    Ok(play_run(alloc, words, &mut source, &mut sink, rack))
}

/// There was no memory for the spare instruments.
#[derive(Drop)]
struct Unmade;

impl From<AllocError> for Unmade {
    fn from(_: AllocError) -> Unmade {
        Unmade
    }
}

impl<T: Drop> From<AllocFailed<T>> for Unmade {
    fn from(_: AllocFailed<T>) -> Unmade {
        Unmade
    }
}

impl From<NoMemory> for Unmade {
    fn from(_: NoMemory) -> Unmade {
        Unmade
    }
}

/// Ends with the status of the play. A word that isn't UTF-8 is no command, so the words then count as none.
fn main(rt: HostRuntime) -> ExitCode {
    let words = match words_of(&rt) {
        Ok(words) => words,
        Err(error) if error.kind() == ErrorKind::InvalidData => Vec::new(rt.alloc()),
        Err(_) => return ExitCode::from(NO_MEMORY),
    };
    ExitCode::from(play(&rt, words.as_slice()).unwrap_or(NO_MEMORY))
}
