//! The counts of a run, and the text that tells them.
ghost use Rattle.std.specs.Prelude.{◌≡◌, ◌≤◌, ◌+◌, ◌++◌, length, take, decimal};
ghost use Rattle.vx_gen.specs.SummaryText.{title_text, summary_text};

use crate::words::Ask;
use vx_text::{put_number, put_text};

/// What is counted of a run.
#[derive(Clone, Copy, Default, PartialEq, Eq)]
pub struct Counts {
    /// The calls that were answered.
    pub answers: u64,
    /// Those of them whose error isn't 0.
    pub errors: u64,
    /// The transfers over the bus.
    pub transfers: u64,
    /// The interrupts that were taken.
    pub interrupts: u64,
    /// How often a call was told to wait.
    pub waits: u64,
}

/// Room for a text of at most 12 bytes and a number of at most 20 digits.
const NUMBER_ROOM: usize = 32;

/// Room for the first line of a run, in bytes.
pub const TITLE_ROOM: usize = 2 * NUMBER_ROOM + 1;

/// Room for the lines that tell the counts of a run, and for its last line, in bytes.
pub const SUMMARY_ROOM: usize = 5 * NUMBER_ROOM + 6;

/// Writes a text of at most 12 bytes and a number in decimal digits behind the first `at` bytes of `out`, and answers where it ends.
fn put_told(text: &[u8], number: u64, at: usize, out: &mut [u8]) -> usize
    requires text { length text.now ≤ 12 }
    requires room { at + NUMBER_ROOM ≤ length out.old }
    ensures text { take result out.new ≡ take at out.old ++ (text.now ++ decimal number) }
    ensures end { result ≤ at + NUMBER_ROOM }
    ensures len { length out.new ≡ length out.old }
{
    let end = put_text(out, at, text);
    put_number(out, end, number)
}

/// The first line of a run, written at the front of `out`.
pub fn title<'a>(ask: Ask, out: &'a mut [u8]) -> &'a [u8]
    requires { TITLE_ROOM ≤ length out.old }
    ensures { result.now ≡ title_text ask }
{
    let end = put_told(b"gen ", u64::from(ask.seed), 0, out);
    let end = put_told(b" ", u64::from(ask.steps), end, out);
    let end = put_text(out, end, b"\n");
    &out[..end]
}

/// The lines that tell the counts of a run that was made whole, and its last line, written at the front of `out`.
pub fn summary<'a>(counts: &Counts, out: &'a mut [u8]) -> &'a [u8]
    requires { SUMMARY_ROOM ≤ length out.old }
    ensures { result.now ≡ summary_text counts.now }
{
    let end = put_told(b"answers ", counts.answers, 0, out);
    let end = put_told(b" errors ", counts.errors, end, out);
    let end = put_told(b"\ntransfers ", counts.transfers, end, out);
    let end = put_told(b"\ninterrupts ", counts.interrupts, end, out);
    let end = put_told(b"\nwaits ", counts.waits, end, out);
    let end = put_text(out, end, b"\ndone\n");
    &out[..end]
}
