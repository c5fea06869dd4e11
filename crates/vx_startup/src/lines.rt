//! The lines that a server prints.
ghost use Rattle.std.specs.Prelude.{◌≡◌, ◌≤◌, length, take};
ghost use Rattle.vx_script.specs.Cause.{cause_word};
ghost use Rattle.vx_trace.specs.Output.{FaultLine};
ghost use Rattle.vx_trace.specs.Text.{line_text};
ghost use Rattle.vx_startup.specs.Lines.{listening_line, server_served_line};

use vx_script::Cause;
use vx_text::{number_line, put_number, put_text};
use vx_trace::{Line, put_line};

/// Room for the longest line, in bytes: two numbers of 20 digits, and the words between them.
pub(crate) const LINE_ROOM: usize = 64;

/// The ports that are open: that of the core channel and that of the abort channel.
pub(crate) fn listening_line(core: u16, abort: u16, out: &mut [u8]) -> &[u8]
    requires { LINE_ROOM ≤ length out.old }
    ensures { result.now ≡ listening_line core abort }
{
    let end = put_text(out, 0, b"listening ");
    let end = put_number(out, end, u64::from(core));
    let end = put_text(out, end, b" ");
    let end = put_number(out, end, u64::from(abort));
    let end = put_text(out, end, b"\n");
    &out[..end]
}

/// How many core links were served.
pub(crate) fn served_line(number: u64, out: &mut [u8]) -> &[u8]
    requires { LINE_ROOM ≤ length out.old }
    ensures { result.now ≡ server_served_line number }
{
    number_line(b"served ", number, out)
}

/// Writes the line of a bench of which this line is refused for this cause at the front of `out`, and answers how long it is.
pub(crate) fn fault_line(line: u64, cause: Cause, out: &mut [u8]) -> usize
    requires { LINE_ROOM ≤ length out.old }
    ensures text { take result out.new ≡ line_text (FaultLine line (cause_word cause)) }
    ensures within { result ≤ length out.new }
{
    let word = cause.word();
    match put_line(&Line::FaultLine { line, word }, out) {
        Ok(len) => len,
        Err(_) => unreachable!(),
    }
}
