//! The step of a line, by its first word and what stands behind it.
ghost use Rattle.std.specs.Prelude.{◌≡◌, ◌≤◌, ◌-◌, ◌^◌, ℕ, false, length, option_copied, option_map, option_and_then, IfSome};
ghost use Rattle.vx_script.specs.Command.{Command, step_shown};
ghost use Rattle.vx_script.specs.Grammar.{role_of, dialed_of, at_connection, behind_connection, of_connection, is_bus_word, at_address, behind_address, of_address, behind_word, command_of, said};
ghost use Rattle.vx_script.specs.Plain.{IsConnection, IsAddress, IsPlainStep};
ghost use Rattle.vx_script.specs.Reads.{stamped, found_at};
ghost use Rattle.vx_script.specs.Timed.{is_at, at_moment, timed_by};
ghost use Rattle.vx_script.specs.Words.{cut, number_up_to, address_of, connection_of};

use crate::Step;
use crate::values::{
    Address, address_of, byte_of, bytes_of, connection_of, cut, is, is_name, number_up_to,
    positive_up_to,
};
use vx_calls::Role;

fn role_of(text: &[u8]) -> Option<Role>
    ensures { result ≡ role_of text.now }
{
    if is(text, b"core") {
        Some(Role::Core)
    } else if is(text, b"abort") {
        Some(Role::Abort)
    } else {
        None
    }
}

/// Whether a dial came up.
fn dialed_of(text: &[u8]) -> Option<bool>
    ensures { result ≡ dialed_of text.now }
{
    if is(text, b"ok") {
        Some(true)
    } else if is(text, b"fail") {
        Some(false)
    } else {
        None
    }
}

/// The step of a word and a connection.
fn at_connection(word: &[u8], conn: u32) -> Option<Step<'static>>
    requires { IsConnection conn }
    ensures value { option_map step_shown result ≡ at_connection word.now conn }
    ensures plain { IfSome result IsPlainStep }
{
    if is(word, b"down") {
        Some(Step::Down { conn })
    } else if is(word, b"poll") {
        Some(Step::Poll { conn })
    } else if is(word, b"take") {
        Some(Step::Take { conn })
    } else {
        None
    }
}

/// The step of a word, a connection and what stands behind its number.
fn behind_connection<'a>(
    word: &[u8],
    conn: u32,
    rest: &[u8],
    room: &'a mut [u8],
) -> Option<Step<'a>>
    requires conn { IsConnection conn }
    requires room { length rest.now ≤ length room.old }
    ensures value { option_map step_shown result ≡ behind_connection word.now conn rest.now }
    ensures plain { IfSome result IsPlainStep }
{
    if is(word, b"up") {
        let role = role_of(rest)?;
        Some(Step::Up { conn, role })
    } else if is(word, b"in") {
        let bytes = bytes_of(rest, room)?;
        Some(Step::In { conn, bytes })
    } else if is(word, b"dial") {
        let up = dialed_of(rest)?;
        Some(Step::Dial { conn, up })
    } else {
        None
    }
}

fn of_connection<'a>(
    word: &[u8],
    conn: u32,
    rest: Option<&[u8]>,
    room: &'a mut [u8],
) -> Option<Step<'a>>
    requires conn { IsConnection conn }
    requires room { IfSome (option_copied rest) (λ text. length text ≤ length room.old) }
    ensures value { option_map step_shown result ≡ of_connection word.now conn (option_copied rest.entry) }
    ensures plain { IfSome result IsPlainStep }
{
    match rest {
        None => at_connection(word, conn),
        Some(rest) => behind_connection(word, conn, rest, room),
    }
}

/// Whether a bus address stands behind the word.
fn is_bus_word(word: &[u8]) -> bool
    ensures { result ≡ is_bus_word word.now }
{
    is(word, b"inst") || is(word, b"plug") || is(word, b"pull") || is(word, b"set")
}

/// The step of a word and an address.
fn at_address(word: &[u8], a: Address) -> Option<Step<'static>>
    requires { IsAddress a.p a.s }
    ensures value { option_map step_shown result ≡ at_address word.now a }
    ensures plain { IfSome result IsPlainStep }
{
    if is(word, b"pull") {
        Some(Step::Pull { p: a.p, s: a.s })
    } else {
        None
    }
}

/// The step of a word, an address and what stands behind it.
fn behind_address<'a>(word: &[u8], a: Address, rest: &'a [u8]) -> Option<Step<'a>>
    requires { IsAddress a.p a.s }
    ensures value { option_map step_shown result ≡ behind_address word.now a rest.now }
    ensures plain { IfSome result IsPlainStep }
{
    let Address { p, s } = a;
    if is(word, b"inst") {
        Some(Step::Inst { p, s, text: rest })
    } else if is(word, b"plug") {
        if is_name(rest) {
            Some(Step::Plug { p, s, name: rest })
        } else {
            None
        }
    } else if is(word, b"set") {
        let b = byte_of(rest)?;
        Some(Step::Set { p, s, b })
    } else {
        None
    }
}

fn of_address<'a>(word: &[u8], a: Address, rest: Option<&'a [u8]>) -> Option<Step<'a>>
    requires { IsAddress a.p a.s }
    ensures value { option_map step_shown result ≡ of_address word.now a (option_copied rest.entry) }
    ensures plain { IfSome result IsPlainStep }
{
    match rest {
        None => at_address(word, a),
        Some(rest) => behind_address(word, a, rest),
    }
}

/// The step of a word behind which a bus address stands, and of that.
fn behind_bus_word<'a>(word: &[u8], rest: &'a [u8]) -> Option<Step<'a>>
    ensures value { option_map step_shown result ≡ option_and_then (λ a. of_address word.now a (cut 32 rest.now).1) (address_of (cut 32 rest.now).0) }
    ensures plain { IfSome result IsPlainStep }
{
    let (address, rest) = cut(rest, b' ');
    of_address(word, address_of(address)?, rest)
}

/// The step of a word behind which a connection's number stands, and of that.
fn behind_other_word<'a>(word: &[u8], rest: &[u8], room: &'a mut [u8]) -> Option<Step<'a>>
    requires { length rest.now ≤ length room.old }
    ensures value { option_map step_shown result ≡ option_and_then (λ conn. of_connection word.now conn (cut 32 rest.now).1) (connection_of (cut 32 rest.now).0) }
    ensures plain { IfSome result IsPlainStep }
{
    let (number, rest) = cut(rest, b' ');
    of_connection(word, connection_of(number)?, rest, room)
}

/// The step of a word and what stands behind it.
fn behind_word<'a>(word: &[u8], rest: &'a [u8], room: &'a mut [u8]) -> Option<Step<'a>>
    requires { length rest.now ≤ length room.old }
    ensures value { option_map step_shown result ≡ behind_word word.now rest.now }
    ensures plain { IfSome result IsPlainStep }
{
    if is(word, b"at") {
        let moment = number_up_to(rest, u64::MAX)?;
        Some(Step::At(moment))
    } else if is(word, b"fail") {
        let n = positive_up_to(rest, u64::from(u32::MAX))?;
        Some(Step::Fail(n as u32))
    } else if is_bus_word(word) {
        behind_bus_word(word, rest)
    } else {
        behind_other_word(word, rest, room)
    }
}

/// The step that a line asks for, of a line that isn't skipped. `room` is for the bytes of an `in`.
pub fn command_of<'a>(line: &'a [u8], room: &'a mut [u8]) -> Option<Step<'a>>
    requires { length line.now ≤ length room.old }
    ensures value { option_map step_shown result ≡ command_of (cut 32 line.now).0 (cut 32 line.now).1 }
    ensures plain { IfSome result IsPlainStep }
{
    match cut(line, b' ') {
        (word, None) if is(word, b"sample") => Some(Step::Sample),
        (_, None) => None,
        (word, Some(rest)) => behind_word(word, rest, room),
    }
}

/// Whether a step is a moment of its own.
fn is_at(step: &Step<'_>) -> bool
    ensures { result ≡ is_at (step_shown step.now) }
{
    matches!(step, Step::At(_))
}

/// The step that stands behind the moment of a line of version 2.
fn behind_moment<'a>(text: &'a [u8], room: &'a mut [u8]) -> Option<Step<'a>>
    requires { length text.now ≤ length room.old }
    ensures value { (moment : ℕ) → stamped moment result ≡ at_moment moment (said text.now) }
    ensures plain { IfSome result IsPlainStep }
    ensures other { IfSome result (λ step. is_at (step_shown step) ≡ false) }
{
    let step = command_of(text, room)?;
    if is_at(&step) { None } else { Some(step) }
}

/// The moment and the step of a line of version 2 that isn't skipped. `room` is for the bytes of an `in`.
pub fn timed_of<'a>(line: &'a [u8], room: &'a mut [u8]) -> Option<(u64, Step<'a>)>
    requires { length line.now ≤ length room.old }
    ensures value { found_at result ≡ timed_by (number_up_to (2 ^ 64 - 1) (cut 32 line.now).0) (cut 32 line.now).1 }
    ensures plain { IfSome result (λ found. IsPlainStep found.1) }
    ensures other { IfSome result (λ found. is_at (step_shown found.1) ≡ false) }
{
    let (number, rest) = cut(line, b' ');
    let moment = number_up_to(number, u64::MAX)?;
    let step = behind_moment(rest?, room)?;
    Some((moment, step))
}
