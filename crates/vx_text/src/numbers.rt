//! Numbers as decimal text: written behind other text, and read.
ghost use Rattle.std.specs.Prelude.{◌≡◌, ◌≢◌, ◌+◌, ◌≤◌, ◌<◌, ℕ, ◌++◌, length, take, drop, codes, decimal, IfSome, None};

use itoa::Buffer;

/// The most digits of a number of 64 bits.
pub const DIGITS_MAX: usize = 20;

/// Writes a text behind the first `at` bytes of `out`, and answers where it ends.
pub fn put_text(out: &mut [u8], at: usize, text: &[u8]) -> usize
    requires { at + length text.now ≤ length out.old }
    ensures text { take result out.new ≡ take at out.old ++ text.now }
    ensures end { result ≡ at + length text.now }
    ensures rest { drop result out.new ≡ drop result out.old }
    ensures len { length out.new ≡ length out.old }
{
    let end = at + text.len();
    out[at..end].copy_from_slice(text);
    end
}

/// Writes a number in decimal digits in the same way.
pub fn put_number(out: &mut [u8], at: usize, number: u64) -> usize
    requires { at + DIGITS_MAX ≤ length out.old }
    ensures text { take result out.new ≡ take at out.old ++ decimal number }
    ensures end { result ≡ at + length (decimal number) }
    ensures within { result ≤ at + DIGITS_MAX }
    ensures rest { drop result out.new ≡ drop result out.old }
    ensures len { length out.new ≡ length out.old }
{
    let mut buffer = Buffer::new();
    put_text(out, at, buffer.format(number).as_bytes())
}

/// A text, a number in decimal digits, and LF, written at the front of `out`.
pub fn number_line<'a>(text: &[u8], number: u64, out: &'a mut [u8]) -> &'a [u8]
    requires { length text.now + DIGITS_MAX < length out.old }
    ensures { result.now ≡ text.now ++ decimal number ++ codes "\n" }
{
    let end = put_text(out, 0, text);
    let end = put_number(out, end, number);
    let end = put_text(out, end, b"\n");
    &out[..end]
}

/// The number, `least` to `most`, that a text is in decimal digits, without a leading zero.
pub fn number_within(text: &[u8], least: u64, most: u64) -> Option<u64>
    ensures some { IfSome result (λ n. (least ≤ n) × (n ≤ most) × (text.now ≡ decimal n)) }
    ensures none { result ≡ None → (n : ℕ) → least ≤ n → n ≤ most → text.now ≢ decimal n }
{
    let Ok(text) = str::from_utf8(text) else {
        return None;
    };
    let Ok(n) = text.parse::<u64>() else {
        return None;
    };
    let mut buffer = Buffer::new();
    let is_printed = buffer.format(n).as_bytes() == text.as_bytes();
    if is_printed && least <= n && n <= most {
        Some(n)
    } else {
        None
    }
}
