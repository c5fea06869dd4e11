//! Transfers as a bus line writes them.
ghost use Rattle.std.specs.Prelude.{◌≡◌, ◌<◌, ◌≤◌, length, take, MatchOption, option_copied};
ghost use Rattle.vx_trace.specs.Reading.{of_letter, lettered, transfer_of, moves_of};

use crate::values::{byte_of, cut, is, small_of};
use vx_488::Transfer;

/// The transfer of a letter and a byte.
fn of_letter(letter: u8, b: u8) -> Option<Transfer>
    ensures { result ≡ of_letter letter b }
{
    match letter {
        b'c' => Some(Transfer::Cmd(b)),
        b'p' => Some(Transfer::Put { b, end: false }),
        b'P' => Some(Transfer::Put { b, end: true }),
        b'g' => Some(Transfer::Got { b, end: false }),
        b'G' => Some(Transfer::Got { b, end: true }),
        _ => None,
    }
}

/// The transfer of a letter and two hexadecimal digits.
fn lettered(word: &[u8]) -> Option<Transfer>
    ensures { result ≡ lettered word.now }
{
    match word {
        [] => None,
        [letter, digits @ ..] => of_letter(*letter, byte_of(digits)?),
    }
}

/// The transfer of a word.
fn transfer_of(word: &[u8]) -> Option<Transfer>
    ensures { result ≡ transfer_of word.now }
{
    if is(word, b"ren0") {
        return Some(Transfer::Ren(false));
    }
    if is(word, b"ren1") {
        return Some(Transfer::Ren(true));
    }
    if is(word, b"atn0") {
        return Some(Transfer::Atn(false));
    }
    if is(word, b"atn1") {
        return Some(Transfer::Atn(true));
    }
    if is(word, b"ifc") {
        return Some(Transfer::Ifc);
    }
    match word.strip_prefix(b"own".as_slice()) {
        Some(address) => Some(Transfer::Own(small_of(address)?)),
        None => lettered(word),
    }
}

/// Writes the transfers of one or more words to the front of `room`, and answers how many they are.
fn read_moves(text: &[u8], room: &mut [Transfer]) -> Option<usize>
    requires { length text.now < length room.old }
    ensures { MatchOption result (moves_of text.now ≡ None) (λ n. (moves_of text.now ≡ Some (take n room.new)) × (n ≤ length room.new)) }
{
    let mut rest = text;
    let mut count = 0;
    while let Some((word, behind)) = cut(rest) {
        room[count] = transfer_of(word)?;
        count += 1;
        rest = behind;
    }
    room[count] = transfer_of(rest)?;
    Some(count + 1)
}

/// The transfers of one or more words, written to the front of `room`.
pub fn moves_of<'a>(text: &[u8], room: &'a mut [Transfer]) -> Option<&'a [Transfer]>
    requires { length text.now < length room.old }
    ensures { option_copied result ≡ moves_of text.now }
{
    let count = read_moves(text, room)?;
    Some(&room[..count])
}
