//! The lines that a guard prints.
ghost use Rattle.std.specs.Prelude.{◌≡◌, ◌≤◌, length};
ghost use Rattle.vx_policy.specs.declared.texts.TheConstants.{LINE_ROOM};
ghost use Rattle.vx_policy.specs.Texts.{deny_line, policy_served_line, form_line};

use vx_text::{number_line, put_number, put_text};

/// Room for the longest line, in bytes: two numbers of 20 digits, and the words between them.
pub const LINE_ROOM: usize = 64;

/// A call of this connection was denied by the rule of this number.
pub fn deny_line(conn: u32, rule: u32, out: &mut [u8]) -> &[u8]
    requires { LINE_ROOM ≤ length out.old }
    ensures { result.now ≡ deny_line conn rule }
{
    let end = put_text(out, 0, b"deny ");
    let end = put_number(out, end, u64::from(conn));
    let end = put_text(out, end, b" ");
    let end = put_number(out, end, u64::from(rule));
    let end = put_text(out, end, b"\n");
    &out[..end]
}

/// How many peers were served.
pub fn served_line(number: u32, out: &mut [u8]) -> &[u8]
    requires { LINE_ROOM ≤ length out.old }
    ensures { result.now ≡ policy_served_line number }
{
    number_line(b"served ", u64::from(number), out)
}

/// This line of a policy has another form than a rule.
pub fn form_line(line: u32, out: &mut [u8]) -> &[u8]
    requires { LINE_ROOM ≤ length out.old }
    ensures { result.now ≡ form_line line }
{
    let end = put_text(out, 0, b"fault line ");
    let end = put_number(out, end, u64::from(line));
    let end = put_text(out, end, b" form\n");
    &out[..end]
}
