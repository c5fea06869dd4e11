//! The words of the program.

use crate::status::Status;
use std::env::{self, Env};
use std::io::{self, ErrorKind};

/// How many links are served.
#[derive(Clone, Copy)]
pub(crate) enum Links {
    One,
    Two,
}

/// So many threads, which take so many turns each.
#[derive(Clone, Copy)]
pub(crate) struct Turns {
    pub(crate) threads: u32,
    pub(crate) turns: u64,
}

/// What the words ask for.
#[derive(Clone, Copy)]
pub(crate) enum Asked {
    /// Turns at a gate.
    Gate(Turns),
    /// So many links at this port.
    Buses { port: u16, links: Links },
    /// A client over a gateway of its own.
    Loop,
    /// The rows of the folder.
    Rows,
    /// The rows, and then turns at a gate.
    RowsAndGate(Turns),
}

/// The numbers of a gate's run.
fn turns_of(threads: &str, turns: &str) -> Option<Turns> {
    Some(Turns {
        threads: threads.parse().ok()?,
        turns: turns.parse().ok()?,
    })
}

/// The port, and how many links.
fn buses_of(port: &str, links: &str) -> Option<Asked> {
    let links = match links {
        "1" => Links::One,
        "2" => Links::Two,
        _ => return None,
    };
    Some(Asked::Buses {
        port: port.parse().ok()?,
        links,
    })
}

/// What these words ask for, where they have one of the forms.
fn read_words(words: &[String]) -> Option<Asked> {
    match words {
        [work] if work.as_str() == "loop" => Some(Asked::Loop),
        [work, threads, turns] if work.as_str() == "gate" => {
            turns_of(threads, turns).map(Asked::Gate)
        }
        [work, port, links] if work.as_str() == "buses" => buses_of(port, links),
        [work] if work.as_str() == "rows" => Some(Asked::Rows),
        [work, other, threads, turns] if work.as_str() == "rows" && other.as_str() == "gate" => {
            turns_of(threads, turns).map(Asked::RowsAndGate)
        }
        _ => None,
    }
}

/// The words after the program's name.
fn words_of<R: Env + AllocGlobal>(rt: &R) -> io::Result<Vec<String>> {
    Ok(env::args(rt)?.skip(1).collect(rt.alloc())?)
}

/// What the words ask for, or how the program ends. Words of which one isn't UTF-8 have none of the forms.
pub(crate) fn asked_of<R: Env + AllocGlobal>(rt: &R) -> Result<Asked, Status> {
    match words_of(rt) {
        Ok(words) => read_words(words.as_slice()).ok_or(Status::Usage),
        Err(error) if error.kind() == ErrorKind::InvalidData => Err(Status::Usage),
        Err(_) => Err(Status::Refused),
    }
}
