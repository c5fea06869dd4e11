//! The words of a line: numbers, addresses, bytes and names.
ghost use Rattle.std.specs.Prelude.{◌≡◌, ◌+◌, ◌≤◌, ◌<◌, ◌==◌, ◌^◌, length, position, option_copied, option_map, IfSome, IsTrue};
ghost use Rattle.std.specs.List.{list_all};
ghost use Rattle.std.specs.Str.{bytes_eq};
ghost use Rattle.vx_calls.specs.Target.{is_digit};
ghost use Rattle.vx_script.specs.Words.{cut, is_positive, positive_up_to, number_up_to, connection_of, part_of, with_secondary, address_of, bytes_of, byte_of, is_lower_letter, is_name};
ghost use Rattle.vx_script.specs.Plain.{IsConnection, IsAddress};

use crate::{ADDRESS_LAST, NAME_MAX};
use vx_calls::CONNECTION_LAST;

/// Whether a text is this one.
pub fn is(text: &[u8], this: &'static [u8]) -> bool
    ensures { result ≡ bytes_eq text.now this.now }
{
    text == this
}

/// What stands before the first such byte, and what stands behind it where there is one.
pub fn cut(text: &[u8], mark: u8) -> (&[u8], Option<&[u8]>)
    ensures before { result.0.now ≡ (cut mark text.now).0 }
    ensures behind { option_copied result.1 ≡ (cut mark text.now).1 }
{
    match first_of(text, mark) {
        Some(i) => (&text[..i], Some(&text[i + 1..])),
        None => (text, None),
    }
}

fn first_of(text: &[u8], mark: u8) -> Option<usize>
    ensures { result ≡ position (λ b. b == mark) text.now }
{
    text.iter().position(|b| *b == mark)
}

/// Whether a text is decimal digits, at least one, and the first isn't 0.
fn is_positive(text: &[u8]) -> bool
    ensures { result ≡ is_positive text.now }
{
    match text {
        [] => false,
        [first, ..] => *first != b'0' && has_digits_only(text),
    }
}

fn has_digits_only(text: &[u8]) -> bool
    ensures { result ≡ list_all is_digit text.now }
{
    text.iter().all(|b| b.is_ascii_digit())
}

/// The number, 1 to 2^64 - 1, that decimal digits without a leading zero write.
fn positive_of(text: &[u8]) -> Option<u64>
    ensures value { result ≡ positive_up_to u64.MAX text.now }
    ensures range { IfSome result (λ n. 1 ≤ n) }
{
    if !is_positive(text) {
        return None;
    }
    str::from_utf8(text).ok()?.parse().ok()
}

/// The same, 1 to `last`.
pub fn positive_up_to(text: &[u8], last: u64) -> Option<u64>
    ensures value { result ≡ positive_up_to last text.now }
    ensures range { IfSome result (λ n. (1 ≤ n) × (n ≤ last)) }
{
    let n = positive_of(text)?;
    if n <= last { Some(n) } else { None }
}

/// The number, 0 to `last`, that decimal digits without a leading zero write.
pub fn number_up_to(text: &[u8], last: u64) -> Option<u64>
    ensures value { result ≡ number_up_to last text.now }
    ensures range { IfSome result (λ n. n ≤ last) }
{
    if is(text, b"0") {
        Some(0)
    } else {
        positive_up_to(text, last)
    }
}

/// A connection's number: 1 to 2147483647.
pub fn connection_of(text: &[u8]) -> Option<u32>
    ensures value { result ≡ connection_of text.now }
    ensures range { IfSome result IsConnection }
{
    Some(positive_up_to(text, u64::from(CONNECTION_LAST))? as u32)
}

/// A bus address: the primary address and perhaps the secondary one, each 0 to 30.
#[derive(Clone, Copy)]
pub struct Address {
    pub p: u8,
    pub s: Option<u8>,
}

/// A part of a bus address: 0 to 30.
fn part_of(text: &[u8]) -> Option<u8>
    ensures value { result ≡ part_of text.now }
    ensures range { IfSome result (λ n. n ≤ ADDRESS_LAST) }
{
    Some(number_up_to(text, u64::from(ADDRESS_LAST))? as u8)
}

/// The address of a primary part and of what stands behind its comma, where there is one.
fn with_secondary(p: u8, secondary: Option<&[u8]>) -> Option<Address>
    requires { p ≤ ADDRESS_LAST }
    ensures value { result ≡ with_secondary p (option_copied secondary.entry) }
    ensures range { IfSome result (λ a. IsAddress a.p a.s) }
{
    match secondary {
        None => Some(Address { p, s: None }),
        Some(text) => {
            let s = part_of(text)?;
            Some(Address { p, s: Some(s) })
        }
    }
}

/// A bus address: its primary part, or both parts and a comma between them.
pub fn address_of(text: &[u8]) -> Option<Address>
    ensures value { result ≡ address_of text.now }
    ensures range { IfSome result (λ a. IsAddress a.p a.s) }
{
    let (primary, secondary) = cut(text, b',');
    with_secondary(part_of(primary)?, secondary)
}

/// The bytes of one or more pairs of hexadecimal digits, written to the front of `room`.
pub fn bytes_of<'a>(text: &[u8], room: &'a mut [u8]) -> Option<&'a [u8]>
    requires { length text.now ≤ length room.old }
    ensures value { option_copied result ≡ bytes_of text.now }
    ensures some { IfSome result (λ bytes. 0 < length bytes.now) }
{
    if text.is_empty() {
        return None;
    }
    let out = &mut room[..text.len() / 2];
    match hex::decode_to_slice(text, out) {
        Ok(()) => Some(out),
        Err(_) => None,
    }
}

/// The byte of one pair of hexadecimal digits.
pub fn byte_of(text: &[u8]) -> Option<u8>
    ensures { result ≡ byte_of text.now }
{
    let mut byte = [0];
    match hex::decode_to_slice(text, &mut byte) {
        Ok(()) => Some(byte[0]),
        Err(_) => None,
    }
}

/// Whether a text is the name of a spare instrument: 1 to 16 lower case letters.
pub fn is_name(text: &[u8]) -> bool
    ensures { result ≡ is_name text.now }
{
    (1..=NAME_MAX).contains(&text.len()) && has_lower_letters_only(text)
}

fn has_lower_letters_only(text: &[u8]) -> bool
    ensures { result ≡ list_all is_lower_letter text.now }
{
    text.iter().all(|b| b.is_ascii_lowercase())
}
