//! The script of the player, line by line: the steps that it asks for, and why a step is refused.
#![tactic(auto)]

ghost use Rattle.std.specs.Prelude.{◌≡◌, ◌↔◌, false, length, IfSome, IfOk};
ghost use Rattle.vx_script.specs.Cause.{cause_word};
ghost use Rattle.vx_script.specs.Command.{step_shown};
ghost use Rattle.vx_script.specs.Grammar.{Skipped, Outside, reading};
ghost use Rattle.vx_script.specs.Plain.{IsPlainStep};
ghost use Rattle.vx_script.specs.Reads.{Reads, ReadsAt, answered, answered_at};
ghost use Rattle.vx_script.specs.Table.{SaysWithin, TimedSays};
ghost use Rattle.vx_script.specs.Timed.{Blank, Strange, is_at, timed};
ghost use Rattle.vx_script.specs.Version.{version_by};

mod lines;
mod theorems;
mod values;

use lines::{command_of, timed_of};
pub use theorems::{grammar, one_command, timed_grammar, within_limit};
use values::is;
use vx_calls::Role;

/// The longest line, in bytes, its LF left out.
pub const LINE_MAX: usize = 1_048_576;

/// The longest line of a script of version 2, in bytes, its LF left out.
pub const LINE2_MAX: usize = 1_048_600;

/// The greatest part of a bus address. The least is 0.
pub const ADDRESS_LAST: u8 = 30;

/// The longest name of a spare instrument, in bytes.
pub const NAME_MAX: usize = 16;

/// The version of a script.
#[derive(Clone, Copy, PartialEq, Eq)]
pub enum Version {
    /// Each line that isn't skipped is a step; `at` is one of them.
    One,
    /// Each line behind the first that isn't skipped is a moment, a space and a step other than `at`.
    Two,
}

/// The version of a script with this first line, its LF left out: 2 where it is `vxscript 2` to the byte, and else 1.
pub fn version_of(first: &[u8]) -> Version
    ensures { result ≡ version_by first.now }
{
    if is(first, b"vxscript 2") {
        Version::Two
    } else {
        Version::One
    }
}

/// Why a step of a script is refused.
#[derive(Clone, Copy, Debug, PartialEq, Eq)]
pub enum Cause {
    /// The line isn't in the grammar.
    Form,
    /// The connection's number isn't the next one.
    Number,
    /// No more connections of the role are taken.
    Full,
    /// The connection doesn't live, or isn't one that the step is for.
    Conn,
    /// The connection has a pending call.
    Busy,
    /// Bytes follow a whole record, or one that is too long.
    After,
    /// The connection has no pending call, or none that asked for a dial.
    Idle,
    /// The text of a table instrument isn't JSON.
    Json,
    /// The JSON isn't the rules of a table instrument.
    Rule,
    /// No spare instrument of the name is left.
    Spare,
    /// The address is the gateway's own.
    Own,
    /// An instrument stands at the address.
    Taken,
    /// The bus has no place for one more instrument.
    Bench,
    /// No instrument stands at the address.
    Absent,
}

impl Cause {
    /// The word that is printed for this cause: its name in lower case.
    pub fn word(self) -> &'static [u8]
        ensures { result.now ≡ cause_word self }
    {
        match self {
            Cause::Form => b"form",
            Cause::Number => b"number",
            Cause::Full => b"full",
            Cause::Conn => b"conn",
            Cause::Busy => b"busy",
            Cause::After => b"after",
            Cause::Idle => b"idle",
            Cause::Json => b"json",
            Cause::Rule => b"rule",
            Cause::Spare => b"spare",
            Cause::Own => b"own",
            Cause::Taken => b"taken",
            Cause::Bench => b"bench",
            Cause::Absent => b"absent",
        }
    }
}

/// A step of a script. A connection's number is 1 to 2147483647; `p` and `s` are the primary address and perhaps the
/// secondary one, each 0 to 30.
#[derive(Clone, Copy, PartialEq, Eq)]
pub enum Step<'a> {
    /// A connection of this role comes up, under this number.
    Up {
        conn: u32,
        role: Role,
    },
    /// These bytes, at least one, come on the stream of a connection.
    In {
        conn: u32,
        bytes: &'a [u8],
    },
    /// A connection goes down.
    Down {
        conn: u32,
    },
    /// The moment of the next steps, in milliseconds.
    At(u64),
    /// A connection's pending call is polled.
    Poll {
        conn: u32,
    },
    /// The service request line is looked at.
    Sample,
    /// A connection's next interrupt is taken.
    Take {
        conn: u32,
    },
    /// The dial that a connection's call asked for came up, or failed.
    Dial {
        conn: u32,
        up: bool,
    },
    /// A table instrument is made of a JSON text and attached.
    Inst {
        p: u8,
        s: Option<u8>,
        text: &'a [u8],
    },
    /// The first spare instrument of this name, 1 to 16 lower case letters, is attached.
    Plug {
        p: u8,
        s: Option<u8>,
        name: &'a [u8],
    },
    /// An instrument is taken off the bus.
    Pull {
        p: u8,
        s: Option<u8>,
    },
    /// An instrument gets this status byte.
    Set {
        p: u8,
        s: Option<u8>,
        b: u8,
    },
    /// The moving call of the bus of this number, at least 1, counted from now, fails.
    Fail(u32),
}

/// Reads a line of a script, its LF left out: its step, or none for a line to skip. `bytes` is room for the bytes of
/// an `in` line. The one refusal is `Form`, for a line outside the grammar; one above `LINE_MAX` bytes is outside.
pub fn read_step<'a>(line: &'a [u8], bytes: &'a mut [u8]) -> Result<Option<Step<'a>>, Cause>
    requires { length bytes.old ≡ length line.now }
    ensures table { SaysWithin line.now (answered result) }
    ensures reads { Reads (reading line.now) result }
    ensures form { (result ≡ Err Cause.Form) ↔ (reading line.now ≡ Outside) }
    ensures skipped { (result ≡ Ok None) ↔ (reading line.now ≡ Skipped) }
    ensures plain { IfOk result (λ found. IfSome found IsPlainStep) }
{
    if line.len() > LINE_MAX {
        return Err(Cause::Form);
    }
    if matches!(line, [] | [b'#', ..]) {
        return Ok(None);
    }
    match command_of(line, bytes) {
        Some(step) => Ok(Some(step)),
        None => Err(Cause::Form),
    }
}

/// Reads a line of a script of version 2, not its first one, its LF left out: its moment, in milliseconds, and its step,
/// which is no `at`; or none for a line to skip. `bytes` is room for the bytes of an `in` line. The one refusal is `Form`,
/// for a line outside the grammar; one above `LINE2_MAX` bytes is outside.
pub fn read_step2<'a>(line: &'a [u8], bytes: &'a mut [u8]) -> Result<Option<(u64, Step<'a>)>, Cause>
    requires { length bytes.old ≡ length line.now }
    ensures table { TimedSays line.now (answered_at result) }
    ensures reads { ReadsAt (timed line.now) result }
    ensures form { (result ≡ Err Cause.Form) ↔ (timed line.now ≡ Strange) }
    ensures skipped { (result ≡ Ok None) ↔ (timed line.now ≡ Blank) }
    ensures plain { IfOk result (λ found. IfSome found (λ x. IsPlainStep x.1)) }
    ensures other { IfOk result (λ found. IfSome found (λ x. is_at (step_shown x.1) ≡ false)) }
{
    if line.len() > LINE2_MAX {
        return Err(Cause::Form);
    }
    if matches!(line, [] | [b'#', ..]) {
        return Ok(None);
    }
    let Some((moment, step)) = timed_of(line, bytes) else {
        return Err(Cause::Form);
    };
    Ok(Some((moment, step)))
}
