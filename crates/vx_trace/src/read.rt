//! Reading a line back from its text.
ghost use Rattle.std.specs.Prelude.{◌≡◌, ◌≢◌, ℕ, ◌^◌, ◌<◌, ◌≤◌, true, false, length, IfNone, IfSome, option_map};
ghost use Rattle.vx_trace.specs.Output.{Output, line_shown};
ghost use Rattle.vx_trace.specs.Text.{IsLine, is_first, is_timed, line_text, line_text2};
ghost use Rattle.vx_trace.specs.Reading.{irq_of, wait_for, wait_of, gone_of, role_of, dial_of, short_of, out_of, call_of, movesless_of, bus_of, by_word, begin_of, fault_for, fault_of, behind_word, numbered_of, line_of, if_first, line1_of, moment_of, timed_of, untimed_of, line2_of};

use crate::lines::{Line, is_cause};
use crate::transfers::moves_of;
use crate::values::{any_bytes_of, bytes_of, cut, is, number_of, word_of};
use vx_488::Transfer;
use vx_calls::Role;

fn irq_of<'a>(conn: u32, rest: &[u8], room: &'a mut [u8]) -> Option<Line<'a>>
    requires { length rest.now ≤ length room.old }
    ensures { option_map line_shown result ≡ irq_of conn rest.now }
{
    if is(rest, b"none") {
        Some(Line::IrqNone { conn })
    } else if is(rest, b"closed") {
        Some(Line::IrqClosed { conn })
    } else {
        let bytes = bytes_of(rest, room)?;
        Some(Line::Irq { conn, bytes })
    }
}

fn wait_for(conn: u32, what: &[u8], number: u32) -> Option<Line<'static>>
    ensures { option_map line_shown result ≡ wait_for conn what.now number }
{
    if is(what, b"lock") {
        Some(Line::WaitLock { conn, lid: number })
    } else if is(what, b"turn") {
        Some(Line::WaitTurn { conn, by: number })
    } else if is(what, b"behind") {
        Some(Line::WaitBehind { conn, by: number })
    } else {
        None
    }
}

fn wait_of(conn: u32, rest: &[u8]) -> Option<Line<'static>>
    ensures { option_map line_shown result ≡ wait_of conn rest.now }
{
    if is(rest, b"held") {
        return Some(Line::WaitHeld { conn });
    }
    if is(rest, b"slice") {
        return Some(Line::WaitSlice { conn });
    }
    if is(rest, b"dial") {
        return Some(Line::WaitDial { conn });
    }
    let (what, number) = cut(rest)?;
    wait_for(conn, what, word_of(number)?)
}

fn gone_of(conn: u32, rest: &[u8]) -> Option<Line<'static>>
    ensures { option_map line_shown result ≡ gone_of conn rest.now }
{
    if is(rest, b"down") {
        Some(Line::GoneDown { conn })
    } else if is(rest, b"junk") {
        Some(Line::GoneJunk { conn })
    } else if is(rest, b"long") {
        Some(Line::GoneLong { conn })
    } else {
        None
    }
}

fn role_of(text: &[u8]) -> Option<Role>
    ensures { result ≡ role_of text.now }
{
    if is(text, b"core") {
        Some(Role::Core)
    } else if is(text, b"abort") {
        Some(Role::Abort)
    } else {
        None
    }
}

fn dial_of(conn: u32, rest: &[u8]) -> Option<Line<'static>>
    ensures { option_map line_shown result ≡ dial_of conn rest.now }
{
    if is(rest, b"ok") {
        Some(Line::DialDone { conn, up: true })
    } else if is(rest, b"fail") {
        Some(Line::DialDone { conn, up: false })
    } else {
        None
    }
}

fn bus_of<'a>(conn: u32, rest: &[u8], room: &'a mut [Transfer]) -> Option<Line<'a>>
    requires { length rest.now < length room.old }
    ensures { option_map line_shown result ≡ bus_of conn rest.now }
{
    let moves = moves_of(rest, room)?;
    Some(Line::Bus { conn, moves })
}

fn out_of<'a>(conn: u32, rest: &[u8], room: &'a mut [u8]) -> Option<Line<'a>>
    requires { length rest.now ≤ length room.old }
    ensures { option_map line_shown result ≡ out_of conn rest.now }
{
    let bytes = bytes_of(rest, room)?;
    Some(Line::Out { conn, bytes })
}

fn call_of<'a>(conn: u32, rest: &[u8], room: &'a mut [u8]) -> Option<Line<'a>>
    requires { length rest.now ≤ length room.old }
    ensures { option_map line_shown result ≡ call_of conn rest.now }
{
    let bytes = any_bytes_of(rest, room)?;
    Some(Line::Call { conn, bytes })
}

/// The line of a word and a connection, and of what stands behind them: one without transfers or bytes.
fn short_of(word: &[u8], conn: u32, rest: &[u8]) -> Option<Line<'static>>
    ensures { option_map line_shown result ≡ short_of word.now conn rest.now }
{
    if is(word, b"wait") {
        wait_of(conn, rest)
    } else if is(word, b"gone") {
        gone_of(conn, rest)
    } else if is(word, b"up") {
        let role = role_of(rest)?;
        Some(Line::Up { conn, role })
    } else if is(word, b"dial") {
        dial_of(conn, rest)
    } else {
        None
    }
}

/// The same, of a line without transfers.
fn movesless_of<'a>(word: &[u8], conn: u32, rest: &[u8], bytes: &'a mut [u8]) -> Option<Line<'a>>
    requires { length rest.now ≤ length bytes.old }
    ensures { option_map line_shown result ≡ movesless_of word.now conn rest.now }
{
    if is(word, b"out") {
        out_of(conn, rest, bytes)
    } else if is(word, b"irq") {
        irq_of(conn, rest, bytes)
    } else if is(word, b"call") {
        call_of(conn, rest, bytes)
    } else {
        short_of(word, conn, rest)
    }
}

/// The same, of any line of a connection.
fn by_word<'a>(
    word: &[u8],
    conn: u32,
    rest: &[u8],
    moves: &'a mut [Transfer],
    bytes: &'a mut [u8],
) -> Option<Line<'a>>
    requires moves { length rest.now < length moves.old }
    requires bytes { length rest.now ≤ length bytes.old }
    ensures { option_map line_shown result ≡ by_word word.now conn rest.now }
{
    if is(word, b"bus") {
        bus_of(conn, rest, moves)
    } else {
        movesless_of(word, conn, rest, bytes)
    }
}

/// The line of a word and what stands behind it, which begins with a connection's number.
fn behind_word<'a>(
    word: &[u8],
    rest: &[u8],
    moves: &'a mut [Transfer],
    bytes: &'a mut [u8],
) -> Option<Line<'a>>
    requires moves { length rest.now ≤ length moves.old }
    requires bytes { length rest.now ≤ length bytes.old }
    ensures { option_map line_shown result ≡ behind_word word.now rest.now }
{
    let (number, rest) = cut(rest)?;
    by_word(word, word_of(number)?, rest, moves, bytes)
}

fn begin_of(number: &[u8]) -> Option<Line<'static>>
    ensures { option_map line_shown result ≡ begin_of number.now }
{
    let conn = word_of(number)?;
    Some(Line::Begin { conn })
}

/// The line of a refused step, by its number and the name of its cause.
fn fault_for<'a>(line: u64, name: &[u8], room: &'a mut [u8]) -> Option<Line<'a>>
    requires { length name.now ≤ length room.old }
    ensures { option_map line_shown result ≡ fault_for line name.now }
{
    if !is_cause(name) {
        return None;
    }
    let word = &mut room[..name.len()];
    word.copy_from_slice(name);
    Some(Line::FaultLine { line, word })
}

/// The line of a refused step, behind its first two words.
fn fault_of<'a>(rest: &[u8], room: &'a mut [u8]) -> Option<Line<'a>>
    requires { length rest.now ≤ length room.old }
    ensures { option_map line_shown result ≡ fault_of rest.now }
{
    let (number, name) = cut(rest)?;
    fault_for(number_of(number)?, name, room)
}

/// The line of a text with a number.
fn numbered_of<'a>(text: &[u8], moves: &'a mut [Transfer], bytes: &'a mut [u8]) -> Option<Line<'a>>
    requires moves { length text.now ≤ length moves.old }
    requires bytes { length text.now ≤ length bytes.old }
    ensures { option_map line_shown result ≡ numbered_of text.now }
{
    if let Some(rest) = text.strip_prefix(b"fault line ".as_slice()) {
        return fault_of(rest, bytes);
    }
    match text.strip_prefix(b"begin ".as_slice()) {
        Some(number) => begin_of(number),
        None => {
            let (word, rest) = cut(text)?;
            behind_word(word, rest, moves, bytes)
        }
    }
}

/// The line of a text, its LF and its moment left out.
fn line_of<'a>(text: &[u8], moves: &'a mut [Transfer], bytes: &'a mut [u8]) -> Option<Line<'a>>
    requires moves { length text.now ≤ length moves.old }
    requires bytes { length text.now ≤ length bytes.old }
    ensures { option_map line_shown result ≡ line_of text.now }
{
    if is(text, b"done") {
        return Some(Line::Done);
    }
    if is(text, b"fault long") {
        return Some(Line::FaultLong);
    }
    if is(text, b"usage: vxplay COMMAND") {
        return Some(Line::Usage);
    }
    if is(text, b"vxtrace 2") {
        return Some(Line::TraceHead);
    }
    if is(text, b"srq 0") {
        return Some(Line::Srq { level: false });
    }
    if is(text, b"srq 1") {
        return Some(Line::Srq { level: true });
    }
    numbered_of(text, moves, bytes)
}

/// The line, where version 1 has it.
fn if_first(line: Line<'_>) -> Option<Line<'_>>
    ensures { option_map line_shown result ≡ if_first (line_shown line.entry) }
{
    if line.is_first() { Some(line) } else { None }
}

/// The line of version 1 of a text, its LF left out.
fn line1_of<'a>(text: &[u8], moves: &'a mut [Transfer], bytes: &'a mut [u8]) -> Option<Line<'a>>
    requires moves { length text.now ≤ length moves.old }
    requires bytes { length text.now ≤ length bytes.old }
    ensures { option_map line_shown result ≡ line1_of text.now }
{
    if_first(line_of(text, moves, bytes)?)
}

/// The moment that a text begins with, and what stands behind it.
fn moment_of(text: &[u8]) -> Option<(u64, &[u8])>
    ensures { option_map (λ p. (p.0, p.1.now)) result ≡ moment_of text.now }
{
    let (number, rest) = cut(text)?;
    let moment = number_of(number)?;
    Some((moment, rest))
}

/// The line of a text behind its moment, where it has one.
fn timed_of<'a>(
    moment: u64,
    text: &[u8],
    moves: &'a mut [Transfer],
    bytes: &'a mut [u8],
) -> Option<(u64, Line<'a>)>
    requires moves { length text.now ≤ length moves.old }
    requires bytes { length text.now ≤ length bytes.old }
    ensures { option_map (λ p. (p.0, line_shown p.1)) result ≡ timed_of moment text.now }
{
    let line = line_of(text, moves, bytes)?;
    if line.is_timed() {
        Some((moment, line))
    } else {
        None
    }
}

/// The line of a text without a moment in front, where it has none.
fn untimed_of<'a>(
    text: &[u8],
    moves: &'a mut [Transfer],
    bytes: &'a mut [u8],
) -> Option<(u64, Line<'a>)>
    requires moves { length text.now ≤ length moves.old }
    requires bytes { length text.now ≤ length bytes.old }
    ensures { option_map (λ p. (p.0, line_shown p.1)) result ≡ untimed_of text.now }
{
    let line = line_of(text, moves, bytes)?;
    if line.is_timed() {
        None
    } else {
        Some((0, line))
    }
}

/// The line of version 2 of a text, its LF left out, and its moment. No line's own text begins with a number.
fn line2_of<'a>(
    text: &[u8],
    moves: &'a mut [Transfer],
    bytes: &'a mut [u8],
) -> Option<(u64, Line<'a>)>
    requires moves { length text.now ≤ length moves.old }
    requires bytes { length text.now ≤ length bytes.old }
    ensures { option_map (λ p. (p.0, line_shown p.1)) result ≡ line2_of text.now }
{
    match moment_of(text) {
        Some((moment, rest)) => timed_of(moment, rest, moves, bytes),
        None => untimed_of(text, moves, bytes),
    }
}

/// Reads a line of version 1 from its text, which ends with LF. None exactly where no line of version 1 has this text:
/// each line has one text.
/// `moves` and `bytes`, as long as the text, are room for the line's transfers and bytes.
pub fn read_line<'a>(
    text: &[u8],
    moves: &'a mut [Transfer],
    bytes: &'a mut [u8],
) -> Option<Line<'a>>
    requires moves { length moves.old ≡ length text.now }
    requires bytes { length bytes.old ≡ length text.now }
    ensures some { IfSome result (λ line. IsLine (line_shown line) × (is_first (line_shown line) ≡ true) × (line_text (line_shown line) ≡ text.now)) }
    ensures none { IfNone result ((line : Output) → IsLine line → is_first line ≡ true → line_text line ≢ text.now) }
{
    line1_of(text.strip_suffix(b"\n".as_slice())?, moves, bytes)
}

/// Reads a line of version 2 and its moment in milliseconds from its text, which ends with LF; the moment is 0 where the
/// line has none. None exactly where no line of version 2 has this text at any moment. `moves` and `bytes` as for
/// `read_line`.
pub fn read_line2<'a>(
    text: &[u8],
    moves: &'a mut [Transfer],
    bytes: &'a mut [u8],
) -> Option<(u64, Line<'a>)>
    requires moves { length moves.old ≡ length text.now }
    requires bytes { length bytes.old ≡ length text.now }
    ensures some { IfSome result (λ p. IsLine (line_shown p.1) × (line_text2 p.0 (line_shown p.1) ≡ text.now) × (is_timed (line_shown p.1) ≡ false → p.0 ≡ 0)) }
    ensures none { IfNone result ((moment : ℕ) (line : Output) → moment < 2 ^ 64 → IsLine line → line_text2 moment line ≢ text.now) }
{
    line2_of(text.strip_suffix(b"\n".as_slice())?, moves, bytes)
}
