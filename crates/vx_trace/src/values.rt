//! Words, numbers and bytes as a line writes them.
ghost use Rattle.std.specs.Prelude.{◌≡◌, ◌^◌, ◌≤◌, ◌==◌, length, position, option_copied, option_map};
ghost use Rattle.std.specs.List.{list_all, list_any};
ghost use Rattle.std.specs.Str.{bytes_eq};
ghost use Rattle.vx_trace.specs.Reading.{cut, is_digit, is_decimal, number_of, is_lower_digit, any_bytes_of, bytes_of, byte_of};

/// Whether a text is this one.
pub fn is(text: &[u8], this: &'static [u8]) -> bool
    ensures { result ≡ bytes_eq text.now this.now }
{
    text == this
}

/// What stands before and behind the first space.
pub fn cut(text: &[u8]) -> Option<(&[u8], &[u8])>
    ensures { option_map (λ p. (p.0.now, p.1.now)) result ≡ cut text.now }
{
    match first_space(text) {
        Some(i) => Some((&text[..i], &text[i + 1..])),
        None => None,
    }
}

fn first_space(text: &[u8]) -> Option<usize>
    ensures { result ≡ position (λ b. b == 32) text.now }
{
    text.iter().position(|b| *b == b' ')
}

fn has_digits_only(text: &[u8]) -> bool
    ensures { result ≡ list_all is_digit text.now }
{
    text.iter().all(|b| b.is_ascii_digit())
}

/// Whether a text is decimal digits, at least one, without a leading zero.
fn is_decimal(text: &[u8]) -> bool
    ensures { result ≡ is_decimal text.now }
{
    match text {
        [] => false,
        [b'0', _, ..] => false,
        _ => has_digits_only(text),
    }
}

/// The number that decimal digits write, without a leading zero; none above 2^64 - 1.
pub fn number_of(text: &[u8]) -> Option<u64>
    ensures { result ≡ number_of (2 ^ 64) text.now }
{
    if !is_decimal(text) {
        return None;
    }
    str::from_utf8(text).ok()?.parse().ok()
}

/// The same, below 2^32.
pub fn word_of(text: &[u8]) -> Option<u32>
    ensures { result ≡ number_of (2 ^ 32) text.now }
{
    u32::try_from(number_of(text)?).ok()
}

/// The same, below 2^8.
pub fn small_of(text: &[u8]) -> Option<u8>
    ensures { result ≡ number_of (2 ^ 8) text.now }
{
    u8::try_from(number_of(text)?).ok()
}

fn has_lower_digit(text: &[u8]) -> bool
    ensures { result ≡ list_any is_lower_digit text.now }
{
    text.iter().any(|b| (b'a'..=b'f').contains(b))
}

/// The bytes of one or more pairs of hexadecimal digits in upper case, written to the front of `room`.
pub fn bytes_of<'a>(text: &[u8], room: &'a mut [u8]) -> Option<&'a [u8]>
    requires { length text.now ≤ length room.old }
    ensures { option_copied result ≡ bytes_of text.now }
{
    if text.is_empty() {
        return None;
    }
    any_bytes_of(text, room)
}

/// The same, where there may be no pair.
pub fn any_bytes_of<'a>(text: &[u8], room: &'a mut [u8]) -> Option<&'a [u8]>
    requires { length text.now ≤ length room.old }
    ensures { option_copied result ≡ any_bytes_of text.now }
{
    if has_lower_digit(text) {
        return None;
    }
    let out = &mut room[..text.len() / 2];
    match hex::decode_to_slice(text, out) {
        Ok(()) => Some(out),
        Err(_) => None,
    }
}

/// The byte of one pair of hexadecimal digits in upper case.
pub fn byte_of(digits: &[u8]) -> Option<u8>
    ensures { result ≡ byte_of digits.now }
{
    if has_lower_digit(digits) {
        return None;
    }
    let mut byte = [0];
    match hex::decode_to_slice(digits, &mut byte) {
        Ok(()) => Some(byte[0]),
        Err(_) => None,
    }
}
