//! Writing a line: first its length is measured, so that a room that is too small stays as it was.
ghost use Rattle.std.specs.Prelude.{◌≡◌, true, ◌+◌, ◌*◌, ◌^◌, ◌<◌, ◌≤◌, ◌↔◌, IsErr, IfOk, IfNone, OnOk, OnErr, MatchOption, [], ◌∷◌, ◌++◌, length, decimal, codes};
ghost use Rattle.std.specs.List.{All};
ghost use Rattle.hex.specs.Hex.{encode_upper};
ghost use Rattle.vx_trace.specs.Output.{line_shown};
ghost use Rattle.vx_trace.specs.Text.{IsWhole, IsLine, HasRanges, IsByteTransfer, is_first, role_text, dial_text, line_text, line_text2, text_room, text_room2, transfer_text, moves_text};
ghost use Rattle.vx_trace.specs.Numbered.{TailFits, tail_text, tail_room, numbered_text, numbered_room, PartsFit, parts_text, parts_room, is_named, is_short};
ghost use Rattle.vx_trace.specs.Writing.{WritesFirst, Puts, PutsBehind, overwritten};

use crate::lines::{Full, Line};
use vx_488::Transfer;
use vx_calls::Role;

/// What stands behind a line's number.
#[derive(Clone, Copy)]
enum Tail<'a> {
    Number(u32),
    Word(&'a [u8]),
    /// Each byte as two hexadecimal digits.
    Hex(&'a [u8]),
    /// Each transfer with a space before it.
    Moves(&'a [Transfer]),
}

/// The parts of a line.
#[derive(Clone, Copy)]
enum Parts<'a> {
    /// A text as it stands.
    Text(&'static [u8]),
    /// A text, the number of a connection, another text, and a tail.
    About(&'static [u8], u32, &'static [u8], Tail<'a>),
    /// The number of a script's line, and the name of a cause.
    Fault { line: u64, word: &'a [u8] },
}

// ---- how much room is left behind a text

fn number_len(n: u64) -> usize
    ensures value { result ≡ length (decimal n) }
    ensures short { result ≤ 20 }
    ensures word { n < 2 ^ 32 → result ≤ 10 }
    ensures byte { n < 2 ^ 8 → result ≤ 3 }
{
    itoa::Buffer::new().format(n).len()
}

fn transfer_len(t: Transfer) -> usize
    ensures value { result ≡ length (transfer_text t) }
    ensures short { result ≤ 6 }
{
    match t {
        Transfer::Cmd(_) | Transfer::Put { .. } | Transfer::Got { .. } | Transfer::Ifc => 3,
        Transfer::Ren(_) | Transfer::Atn(_) => 4,
        Transfer::Own(a) => 3 + number_len(u64::from(a)),
    }
}

fn left_behind_moves(room: usize, moves: &[Transfer]) -> Option<usize>
    ensures left { MatchOption result (room < length (moves_text moves.now)) (λ left. left + length (moves_text moves.now) ≡ room) }
    ensures room { IfNone result (room < 7 * length moves.now) }
{
    let mut left = room;
    for t in moves {
        left = left.checked_sub(1 + transfer_len(*t))?;
    }
    Some(left)
}

#[tactic(auto, using(vx_lemmas::proofs::Laws::Hexadecimal::length_upper))]
fn left_behind_tail(room: usize, tail: &Tail<'_>) -> Option<usize>
    ensures left { MatchOption result (room < length (tail_text tail.now)) (λ left. left + length (tail_text tail.now) ≡ room) }
    ensures room { IfNone result (room < tail_room tail.now) }
{
    match *tail {
        Tail::Number(n) => room.checked_sub(number_len(u64::from(n))),
        Tail::Word(word) => room.checked_sub(word.len()),
        Tail::Hex(bytes) => room.checked_sub(bytes.len())?.checked_sub(bytes.len()),
        Tail::Moves(moves) => left_behind_moves(room, moves),
    }
}

/// What is left of a room behind a line with a number; none where the room is too small.
fn left_behind(
    room: usize,
    front: &[u8],
    number: u64,
    middle: &[u8],
    tail: &Tail<'_>,
) -> Option<usize>
    ensures left { MatchOption result (room < length (numbered_text front.now number middle.now tail.now)) (λ left. left + length (numbered_text front.now number middle.now tail.now) ≡ room) }
    ensures room { IfNone result (room < numbered_room front.now (length (decimal number)) middle.now tail.now) }
{
    let left = room
        .checked_sub(1)?
        .checked_sub(front.len())?
        .checked_sub(number_len(number))?
        .checked_sub(middle.len())?;
    left_behind_tail(left, tail)
}

// ---- writing at a place, which answers the place behind; `fits` says that what was written is in its type's range

fn put(out: &mut [u8], at: usize, bytes: &[u8]) -> usize
    requires { at + length bytes.now ≤ length out.old }
    ensures bytes { out.new ≡ overwritten out.old at bytes.now }
    ensures end { result ≡ at + length bytes.now }
{
    let end = at + bytes.len();
    out[at..end].copy_from_slice(bytes);
    end
}

fn put_number(out: &mut [u8], at: usize, n: u64) -> usize
    requires { at + length (decimal n) ≤ length out.old }
    ensures bytes { out.new ≡ overwritten out.old at (decimal n) }
    ensures end { result ≡ at + length (decimal n) }
{
    let mut buffer = itoa::Buffer::new();
    put(out, at, buffer.format(n).as_bytes())
}

#[tactic(auto, using(vx_lemmas::proofs::Laws::Hexadecimal::length_upper))]
fn put_hex(out: &mut [u8], at: usize, bytes: &[u8]) -> usize
    requires { at + length (encode_upper bytes.now) ≤ length out.old }
    ensures bytes { out.new ≡ overwritten out.old at (encode_upper bytes.now) }
    ensures end { result ≡ at + length (encode_upper bytes.now) }
    ensures fits { All (λ b. b < 2 ^ 8) bytes.now }
{
    let end = at + 2 * bytes.len();
    let digits = &mut out[at..end];
    match hex::encode_to_slice(bytes, digits) {
        Ok(()) => digits.make_ascii_uppercase(),
        Err(_) => unreachable!(),
    }
    end
}

fn put_lettered(out: &mut [u8], at: usize, letter: &'static [u8], b: u8) -> usize
    requires { at + length (letter.now ++ encode_upper (b ∷ [])) ≤ length out.old }
    ensures bytes { out.new ≡ overwritten out.old at (letter.now ++ encode_upper (b ∷ [])) }
    ensures end { result ≡ at + length (letter.now ++ encode_upper (b ∷ [])) }
{
    let behind = put(out, at, letter);
    put_hex(out, behind, &[b])
}

fn put_transfer(out: &mut [u8], at: usize, t: Transfer) -> usize
    requires { at + length (transfer_text t) ≤ length out.old }
    ensures bytes { out.new ≡ overwritten out.old at (transfer_text t) }
    ensures end { result ≡ at + length (transfer_text t) }
    ensures fits { IsByteTransfer t }
{
    match t {
        Transfer::Cmd(b) => put_lettered(out, at, b"c", b),
        Transfer::Put { b, end: false } => put_lettered(out, at, b"p", b),
        Transfer::Put { b, end: true } => put_lettered(out, at, b"P", b),
        Transfer::Got { b, end: false } => put_lettered(out, at, b"g", b),
        Transfer::Got { b, end: true } => put_lettered(out, at, b"G", b),
        Transfer::Ren(false) => put(out, at, b"ren0"),
        Transfer::Ren(true) => put(out, at, b"ren1"),
        Transfer::Atn(false) => put(out, at, b"atn0"),
        Transfer::Atn(true) => put(out, at, b"atn1"),
        Transfer::Ifc => put(out, at, b"ifc"),
        Transfer::Own(a) => put_own(out, at, a),
    }
}

fn put_own(out: &mut [u8], at: usize, a: u8) -> usize
    requires { at + length (codes "own" ++ decimal a) ≤ length out.old }
    ensures bytes { out.new ≡ overwritten out.old at (codes "own" ++ decimal a) }
    ensures end { result ≡ at + length (codes "own" ++ decimal a) }
{
    let behind = put(out, at, b"own");
    put_number(out, behind, u64::from(a))
}

fn put_move(out: &mut [u8], at: usize, t: Transfer) -> usize
    requires { at + length (codes " " ++ transfer_text t) ≤ length out.old }
    ensures bytes { out.new ≡ overwritten out.old at (codes " " ++ transfer_text t) }
    ensures end { result ≡ at + length (codes " " ++ transfer_text t) }
    ensures fits { IsByteTransfer t }
{
    let behind = put(out, at, b" ");
    put_transfer(out, behind, t)
}

fn put_moves(out: &mut [u8], at: usize, moves: &[Transfer]) -> usize
    requires { at + length (moves_text moves.now) ≤ length out.old }
    ensures bytes { out.new ≡ overwritten out.old at (moves_text moves.now) }
    ensures end { result ≡ at + length (moves_text moves.now) }
    ensures fits { All IsByteTransfer moves.now }
{
    let mut behind = at;
    for t in moves {
        behind = put_move(out, behind, *t);
    }
    behind
}

fn put_tail(out: &mut [u8], at: usize, tail: &Tail<'_>) -> usize
    requires { at + length (tail_text tail.now) ≤ length out.old }
    ensures bytes { out.new ≡ overwritten out.old at (tail_text tail.now) }
    ensures end { result ≡ at + length (tail_text tail.now) }
    ensures fits { TailFits tail.now }
{
    match *tail {
        Tail::Number(n) => put_number(out, at, u64::from(n)),
        Tail::Word(word) => put(out, at, word),
        Tail::Hex(bytes) => put_hex(out, at, bytes),
        Tail::Moves(moves) => put_moves(out, at, moves),
    }
}

/// Writes a line with a number to the front of `out`, which has room for it.
fn put_parts(out: &mut [u8], front: &[u8], number: u64, middle: &[u8], tail: &Tail<'_>) -> usize
    requires { length (numbered_text front.now number middle.now tail.now) ≤ length out.old }
    ensures bytes { WritesFirst (numbered_text front.now number middle.now tail.now) out.old result out.new }
    ensures fits { TailFits tail.now }
{
    let at = put(out, 0, front);
    let at = put_number(out, at, number);
    let at = put(out, at, middle);
    let at = put_tail(out, at, tail);
    put(out, at, b"\n")
}

/// Writes a line with a number, where there is room for it.
fn put_numbered(
    out: &mut [u8],
    front: &[u8],
    number: u64,
    middle: &[u8],
    tail: &Tail<'_>,
) -> Result<usize, Full>
    ensures puts { Puts (numbered_text front.now number middle.now tail.now) out.old result out.new }
    ensures fits { OnOk result (TailFits tail.now) }
    ensures room { OnErr result (length out.old < numbered_room front.now (length (decimal number)) middle.now tail.now) }
{
    match left_behind(out.len(), front, number, middle, tail) {
        Some(_) => Ok(put_parts(out, front, number, middle, tail)),
        None => Err(Full),
    }
}

/// Writes a line about a connection, where there is room for it.
fn put_about(
    out: &mut [u8],
    front: &[u8],
    conn: u32,
    middle: &[u8],
    tail: &Tail<'_>,
) -> Result<usize, Full>
    ensures puts { Puts (numbered_text front.now conn middle.now tail.now) out.old result out.new }
    ensures fits { OnOk result (TailFits tail.now) }
    ensures room { OnErr result (length out.old < numbered_room front.now 10 middle.now tail.now) }
{
    put_numbered(out, front, u64::from(conn), middle, tail)
}

/// Writes a text, where there is room for it.
fn put_text(out: &mut [u8], text: &[u8]) -> Result<usize, Full>
    ensures { Puts text.now out.old result out.new }
{
    if out.len() < text.len() {
        return Err(Full);
    }
    Ok(put(out, 0, text))
}

fn role_text(role: Role) -> &'static [u8]
    ensures { result.now ≡ role_text role }
{
    match role {
        Role::Core => b"core",
        Role::Abort => b"abort",
    }
}

fn dial_text(up: bool) -> &'static [u8]
    ensures { result.now ≡ dial_text up }
{
    if up { b"ok" } else { b"fail" }
}

/// The parts of a connection's line that says no more of it than a fixed word.
fn named_parts(line: &Line<'_>) -> Parts<'static>
    requires { is_named (line_shown line.now) ≡ true }
    ensures text { parts_text result ≡ line_text (line_shown line.now) }
    ensures fits { PartsFit result → HasRanges (line_shown line.now) }
    ensures room { IsWhole (line_shown line.now) → parts_room result ≤ text_room (line_shown line.now) }
{
    match *line {
        Line::IrqNone { conn } => Parts::About(b"irq ", conn, b" ", Tail::Word(b"none")),
        Line::IrqClosed { conn } => Parts::About(b"irq ", conn, b" ", Tail::Word(b"closed")),
        Line::WaitHeld { conn } => Parts::About(b"wait ", conn, b" ", Tail::Word(b"held")),
        Line::WaitSlice { conn } => Parts::About(b"wait ", conn, b" ", Tail::Word(b"slice")),
        Line::WaitDial { conn } => Parts::About(b"wait ", conn, b" ", Tail::Word(b"dial")),
        Line::GoneDown { conn } => Parts::About(b"gone ", conn, b" ", Tail::Word(b"down")),
        Line::GoneJunk { conn } => Parts::About(b"gone ", conn, b" ", Tail::Word(b"junk")),
        Line::GoneLong { conn } => Parts::About(b"gone ", conn, b" ", Tail::Word(b"long")),
        _ => unreachable!(),
    }
}

/// The parts of a line without transfers, bytes, a second number and a cause.
fn short_parts(line: &Line<'_>) -> Parts<'static>
    requires { is_short (line_shown line.now) ≡ true }
    ensures text { parts_text result ≡ line_text (line_shown line.now) }
    ensures fits { PartsFit result → HasRanges (line_shown line.now) }
    ensures room { IsWhole (line_shown line.now) → parts_room result ≤ text_room (line_shown line.now) }
{
    match *line {
        Line::Done => Parts::Text(b"done\n"),
        Line::FaultLong => Parts::Text(b"fault long\n"),
        Line::Usage => Parts::Text(b"usage: vxplay COMMAND\n"),
        Line::TraceHead => Parts::Text(b"vxtrace 2\n"),
        Line::Up { conn, role } => Parts::About(b"up ", conn, b" ", Tail::Word(role_text(role))),
        Line::Begin { conn } => Parts::About(b"begin ", conn, b"", Tail::Word(b"")),
        Line::DialDone { conn, up } => Parts::About(
            b"dial ",
            conn,
            b" ",
            Tail::Word(dial_text(up)),
        ),
        Line::Srq { level: false } => Parts::Text(b"srq 0\n"),
        Line::Srq { level: true } => Parts::Text(b"srq 1\n"),
        _ => named_parts(line),
    }
}

fn parts_of<'a>(line: &Line<'a>) -> Parts<'a>
    ensures text { parts_text result ≡ line_text (line_shown line.now) }
    ensures fits { PartsFit result → HasRanges (line_shown line.now) }
    ensures room { IsWhole (line_shown line.now) → parts_room result ≤ text_room (line_shown line.now) }
{
    match *line {
        Line::Bus { conn, moves } => Parts::About(b"bus ", conn, b"", Tail::Moves(moves)),
        Line::Out { conn, bytes } => Parts::About(b"out ", conn, b" ", Tail::Hex(bytes)),
        Line::Irq { conn, bytes } => Parts::About(b"irq ", conn, b" ", Tail::Hex(bytes)),
        Line::Call { conn, bytes } => Parts::About(b"call ", conn, b" ", Tail::Hex(bytes)),
        Line::WaitLock { conn, lid } => Parts::About(b"wait ", conn, b" lock ", Tail::Number(lid)),
        Line::WaitTurn { conn, by } => Parts::About(b"wait ", conn, b" turn ", Tail::Number(by)),
        Line::WaitBehind { conn, by } => Parts::About(
            b"wait ",
            conn,
            b" behind ",
            Tail::Number(by),
        ),
        Line::FaultLine { line, word } => Parts::Fault { line, word },
        _ => short_parts(line),
    }
}

/// Writes the parts of a line, where there is room for them.
fn put_line_parts(out: &mut [u8], parts: &Parts<'_>) -> Result<usize, Full>
    ensures puts { Puts (parts_text parts.now) out.old result out.new }
    ensures fits { OnOk result (PartsFit parts.now) }
    ensures room { OnErr result (length out.old < parts_room parts.now) }
{
    match *parts {
        Parts::Text(text) => put_text(out, text),
        Parts::About(front, conn, middle, tail) => put_about(out, front, conn, middle, &tail),
        Parts::Fault { line, word } => {
            put_numbered(out, b"fault line ", line, b" ", &Tail::Word(word))
        }
    }
}

fn write_line(line: &Line<'_>, out: &mut [u8]) -> Result<usize, Full>
    ensures puts { Puts (line_text (line_shown line.now)) out.old result out.new }
    ensures fits { OnOk result (HasRanges (line_shown line.now)) }
    ensures room { OnErr result (IsWhole (line_shown line.now) → length out.old < text_room (line_shown line.now)) }
{
    put_line_parts(out, &parts_of(line))
}

/// Writes a line behind the first `at` bytes of `out`, where there is room for it.
fn write_behind(line: &Line<'_>, out: &mut [u8], at: usize) -> Result<usize, Full>
    requires { at ≤ length out.old }
    ensures puts { PutsBehind at (line_text (line_shown line.now)) out.old result out.new }
    ensures fits { OnOk result (HasRanges (line_shown line.now)) }
    ensures room { OnErr result (IsWhole (line_shown line.now) → length out.old < at + text_room (line_shown line.now)) }
{
    write_line(line, &mut out[at..])
}

/// Writes a moment, a space and a line, where there is room for them: the line first, so that a room that is too small
/// for it stays as it was.
fn write_timed(moment: u64, line: &Line<'_>, out: &mut [u8]) -> Result<usize, Full>
    ensures puts { Puts (decimal moment ++ codes " " ++ line_text (line_shown line.now)) out.old result out.new }
    ensures fits { OnOk result (HasRanges (line_shown line.now)) }
    ensures room { OnErr result (IsWhole (line_shown line.now) → length out.old < text_room2 (line_shown line.now)) }
{
    let front = number_len(moment) + 1;
    if out.len() < front {
        return Err(Full);
    }
    let len = write_behind(line, out, front)?;
    let at = put_number(out, 0, moment);
    put(out, at, b" ");
    Ok(front + len)
}

/// Writes a line of version 1 (`Line::is_first`) that is whole (`Line::is_whole`), its LF included, to the front of
/// `out`, and answers its length in bytes; what lies behind it stays as it was. `Full`, with nothing changed, exactly
/// where the room is too small.
pub fn put_line(line: &Line<'_>, out: &mut [u8]) -> Result<usize, Full>
    requires whole { IsWhole (line_shown line.now) }
    requires first { is_first (line_shown line.now) ≡ true }
    ensures ok { IfOk result (λ n. WritesFirst (line_text (line_shown line.now)) out.old n out.new) }
    ensures full { IsErr result ↔ (length out.old < length (line_text (line_shown line.now))) }
    ensures err { OnErr result (out.new ≡ out.old) }

    // So the text is one that `read_line` reads.
    ensures is { OnOk result (IsLine (line_shown line.now)) }

    // So room for the longest text of such a line is enough, whatever its numbers.
    ensures room { OnErr result (length out.old < text_room (line_shown line.now)) }
{
    write_line(line, out)
}

/// Writes a line that is whole, as version 2 has it: its moment in milliseconds and a space stand before it, where it
/// has a moment (`Line::is_timed`). Else as `put_line`.
pub fn put_line2(moment: u64, line: &Line<'_>, out: &mut [u8]) -> Result<usize, Full>
    requires { IsWhole (line_shown line.now) }
    ensures ok { IfOk result (λ n. WritesFirst (line_text2 moment (line_shown line.now)) out.old n out.new) }
    ensures full { IsErr result ↔ (length out.old < length (line_text2 moment (line_shown line.now))) }
    ensures err { OnErr result (out.new ≡ out.old) }

    // So the text is one that `read_line2` reads.
    ensures is { OnOk result (IsLine (line_shown line.now)) }

    // So room for the longest text of such a line is enough, whatever its numbers and its moment.
    ensures room { OnErr result (length out.old < text_room2 (line_shown line.now)) }
{
    if line.is_timed() {
        write_timed(moment, line, out)
    } else {
        write_line(line, out)
    }
}
