//! The access rules of the server, which are read from their file before all else.
ghost use Rattle.std.specs.Prelude.{◌≤◌, length};
ghost use Rattle.vx_policy.specs.declared.policy.TheConstants.{TEXT_MAX};

use std::alloc::Global;
use std::fs;
use std::io::Eprint;
use std::rt::Files;
use vx_io::{Sink, StdSource};
use vx_policy::{LINE_ROOM, Policy, PolicyErr, TEXT_MAX, form_line};
use vx_text::{Input, put_all, read_all};

/// The exit status of rules that are refused.
const REFUSED: u8 = 2;

/// The exit status where memory ran out.
const NO_MEMORY: u8 = 5;

/// The exit status where the line of a refusal isn't taken.
const SINK_FAILED: u8 = 6;

/// The exit status where the file can't be read.
const UNREAD: u8 = 7;

/// Prints the line of a refusal, and answers the exit status.
fn refuse<K: Sink>(sink: &mut K, line: &[u8]) -> u8 {
    match put_all(sink, line) {
        Ok(()) => REFUSED,
        Err(_) => SINK_FAILED,
    }
}

/// The rules of a text, or the exit status where it has a line that is none, or too many.
fn policy_of<K: Sink>(alloc: Global, text: &[u8], sink: &mut K) -> Result<Policy, u8>
    requires { length text.now ≤ TEXT_MAX }
{
    match Policy::from_text(alloc, text) {
        Ok(policy) => Ok(policy),
        Err(PolicyErr::Form { line }) => {
            let mut room = [0u8; LINE_ROOM];
            Err(refuse(sink, form_line(line, &mut room)))
        }
        Err(PolicyErr::TooMany) => Err(refuse(sink, b"fault many\n")),
        Err(PolicyErr::NoMemory) => Err(NO_MEMORY),
    }
}

/// The rules of a file, or the exit status where it can't be read, or is refused.
fn rules_in<R: Files + Eprint, K: Sink>(
    rt: &R,
    alloc: Global,
    file: &str,
    sink: &mut K,
) -> Result<Policy, u8> {
    let Ok(opened) = fs::open(rt, file) else {
        let _ = eprintln!(rt; "vxgate: {file}: the file of rules can't be opened");
        return Err(UNREAD);
    };
    match read_all(alloc, &mut StdSource::new(opened), TEXT_MAX) {
        Input::Whole(text) => policy_of(alloc, &text, sink),
        Input::TooLong => Err(refuse(sink, b"fault long\n")),
        Input::Failed => {
            let _ = eprintln!(rt; "vxgate: {file}: the file of rules can't be read");
            Err(UNREAD)
        }
        Input::NoMemory => Err(NO_MEMORY),
    }
}

/// The rules of the file that is named, where one is; or the exit status where it can't be read, or is refused. Each refusal is a
/// line of the sink.
pub fn rules_of<R: Files + Eprint, K: Sink>(
    rt: &R,
    alloc: Global,
    file: Option<&str>,
    sink: &mut K,
) -> Result<Option<Policy>, u8> {
    match file {
        Some(file) => Ok(Some(rules_in(rt, alloc, file, sink)?)),
        None => Ok(None),
    }
}
