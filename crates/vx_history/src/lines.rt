//! The lines of a trace, taken one after the other.
ghost use Rattle.std.specs.Prelude.{◌≡◌, ◌≤◌, ◌<◌, ◌^◌, ◌+◌, ◌++◌, ◌==◌, ℕ, List, [], length, codes, position, MatchOption, OnOk, IsTrue, IsFalse};
ghost use Rattle.vx_text.specs.TextLines.{lines};
ghost use Rattle.vx_history.specs.Shown.{whole_lines};
ghost use Rattle.vx_history.specs.CheckState.{beginning};
ghost use Rattle.vx_history.specs.Stepping.{checker_shown};
ghost use Rattle.vx_history.specs.Walking.{EndsWalk, AllWithin, IsFirstLine, TakesText};

use crate::cause::{Cause, Stop};
use crate::checker::Checker;
use std::alloc::Global;
use vx_488::Transfer;
use vx_model::NoMemory;
use vx_text::zeros;
use vx_trace::read_line2;

/// How far the lines of a trace are taken.
#[derive(Clone, Copy)]
pub enum Far {
    /// All of them, and the line behind has this number; `over` where the trace is then at its end.
    Through { next: u64, over: bool },
    /// Up to this line, counted from 1, for this cause.
    Stops { line: u64, cause: Cause },
    NoMemory,
}

/// Where the first LF of a text stands.
fn line_end(text: &[u8]) -> Option<usize>
    ensures { result ≡ position (λ byte. byte == 10) text.now }
{
    text.iter().position(|byte| *byte == b'\n')
}

/// The first line that ends at an LF, which it has, and what stands behind it; none where no LF is left.
fn first_whole(text: &[u8]) -> Option<(&[u8], &[u8])>
    ensures { MatchOption result (whole_lines text.now ≡ []) (λ p. IsFirstLine text.now p.0.now p.1.now) }
{
    match line_end(text) {
        Some(end) => Some((&text[..end + 1], &text[end + 1..])),
        None => None,
    }
}

/// The length of the longest line that ends at an LF, its LF with it.
fn longest(text: &[u8]) -> usize
    ensures { AllWithin result (whole_lines text.now) }
{
    let mut rest = text;
    let mut most = 0;
    while let Some((line, behind)) = first_whole(rest) {
        most = most.max(line.len());
        rest = behind;
    }
    most
}

/// Takes a line, which ends at an LF. The rooms are as long as it.
fn take_line(
    checker: &mut Checker,
    text: &[u8],
    moves: &mut [Transfer],
    bytes: &mut [u8],
) -> Result<(), Stop>
    requires moves { length moves.old ≡ length text.now }
    requires bytes { length bytes.old ≡ length text.now }
    requires short { length text.now < 2 ^ 31 }
    ensures { (line : List ℕ) → text.now ≡ line ++ codes "\n" → TakesText (checker_shown checker.old) line result (checker_shown checker.new) }
{
    checker.take(read_line2(text, moves, bytes))
}

/// Takes the lines of a text that end at an LF, in rooms as long as the longest of them.
fn walk_in(checker: &mut Checker, text: &[u8], moves: &mut [Transfer], bytes: &mut [u8]) -> Far
    requires begins { checker_shown checker.old ≡ beginning }
    requires moves { AllWithin (length moves.old) (whole_lines text.now) }
    requires bytes { AllWithin (length bytes.old) (whole_lines text.now) }
    requires short { length text.now < 2 ^ 31 }
    ensures { EndsWalk (whole_lines text.now) result }
{
    let mut rest = text;
    let mut line = 0u64;
    while let Some((first, behind)) = first_whole(rest) {
        line += 1;
        let len = first.len();
        match take_line(checker, first, &mut moves[..len], &mut bytes[..len]) {
            Ok(()) => rest = behind,
            Err(Stop::Spoiled(cause)) => return Far::Stops { line, cause },
            Err(Stop::NoMemory) => return Far::NoMemory,
        }
    }
    Far::Through {
        next: line + 1,
        over: checker.is_over(),
    }
}

/// Takes the lines of a text that end at an LF, with a checker that begins.
fn walk_with(alloc: Global, checker: &mut Checker, text: &[u8]) -> Far
    requires begins { checker_shown checker.old ≡ beginning }
    requires short { length text.now < 2 ^ 31 }
    ensures { EndsWalk (whole_lines text.now) result }
{
    let most = longest(text);
    let Ok(mut moves) = vec![in alloc; Transfer::Ifc; most] else {
        return Far::NoMemory;
    };
    let Ok(mut bytes) = zeros(alloc, most) else {
        return Far::NoMemory;
    };
    walk_in(checker, text, &mut moves, &mut bytes)
}

/// Takes the lines of a text that end at an LF.
pub fn walk(alloc: Global, text: &[u8]) -> Far
    requires { length text.now < 2 ^ 31 }
    ensures { EndsWalk (whole_lines text.now) result }
{
    match Checker::new(alloc) {
        Ok(mut checker) => walk_with(alloc, &mut checker, text),
        Err(_) => Far::NoMemory,
    }
}

/// Whether a text ends at an LF, or has nothing.
fn is_whole(text: &[u8]) -> bool
    ensures whole { IsTrue result → whole_lines text.now ≡ lines text.now }
    ensures cut { IsFalse result → whole_lines (text.now ++ codes "\n") ≡ lines text.now }
{
    if text.is_empty() {
        return true;
    }
    text[text.len() - 1] == b'\n'
}

/// Puts an LF behind a last piece of a trace without one, so that each of its lines ends at an LF.
pub fn end_lines(text: &mut Vec<u8>) -> Result<(), NoMemory>
    ensures lines { OnOk result (whole_lines text.new.items ≡ lines text.old.items) }
    ensures longer { length text.new.items ≤ length text.old.items + 1 }
{
    if is_whole(text) {
        return Ok(());
    }
    match text.push(b'\n') {
        Ok(()) => Ok(()),
        Err(_) => Err(NoMemory),
    }
}
