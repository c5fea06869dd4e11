ghost use Rattle.std.specs.Prelude.{◌≡◌, ◌↔◌, ◌==◌, IsTrue, IsOk, IfOk, ◌||◌, true, min, if◌then◌else◌, [], ◌∷◌};
ghost use Rattle.std.specs.Bool.{IsFalse};
ghost use Rattle.std.specs.Option.{option_copied, option_map, option_map_or, option_to_list};
ghost use Rattle.std.specs.List.{list_all, position};
ghost use Rattle.vx_calls.specs.Target.{is_letter, is_digit, is_name, is_number, number_value, comma_parts, device_at, is_gateway, is_address, target_of_parts, target, is_device_text, names_gateway, names_device, IsReachable, conflict};

use crate::codes::ErrorCode;

/// The greatest bus address, primary or secondary (IEEE 488.1, 2.6).
const ADDRESS_MAX: u8 = 30;

/// What a link is to: the interface itself, or a device at a primary and perhaps a secondary address, each 0 to 30
/// (IEEE 488.1, 2.6).
#[derive(Clone, Copy, PartialEq, Eq)]
pub enum Target {
    Interface,
    Device { p: u8, s: Option<u8> },
}

/// What the device text of a create_link names, on a gateway whose own bus address is `own` (VXI-11, create_link;
/// VXI-11.2, device texts).
///
/// The text is NAME, or NAME and a comma and P, or that and a comma and S. NAME is an ASCII letter followed by ASCII
/// letters and digits; P and S are one or more decimal digits, the primary and the secondary address.
///
/// # Errors
///
/// The first that fits of: `Syntax` for any other text; `NotAccessible` where NAME isn't `gpib0` in any case;
/// `InvalidAddress` where P or S is above 30, or P is the gateway's own address.
pub fn target_of(text: &[u8], own: u8) -> Result<Target, ErrorCode>
    ensures value { result ≡ target text.now own }
    ensures reachable { IfOk result (IsReachable own) }

    // When each error comes, in this order.
    ensures syntax { (result ≡ Err ErrorCode.Syntax) ↔ IsFalse (is_device_text text.now) }
    ensures not_accessible { (result ≡ Err ErrorCode.NotAccessible)
        ↔ (IsTrue (is_device_text text.now) × IsFalse (names_gateway text.now)) }
    ensures invalid_address { (result ≡ Err ErrorCode.InvalidAddress)
        ↔ (IsTrue (is_device_text text.now) × IsTrue (names_gateway text.now)
        × IsFalse (names_device text.now own)) }
    ensures ok { IsOk result
        ↔ (IsTrue (is_device_text text.now) × IsTrue (names_gateway text.now)
        × IsTrue (names_device text.now own)) }
{
    let (name, numbers) = cut_at_comma(text);
    match numbers {
        None => interface_of(name),
        Some(numbers) => {
            let (primary, secondary) = cut_at_comma(numbers);
            device_of(name, primary, secondary, own)
        }
    }
}

/// What stands before the first comma, and what stands behind it where there is one.
fn cut_at_comma(text: &[u8]) -> (&[u8], Option<&[u8]>)
    ensures { comma_parts text.now ≡ result.0.now ∷ option_map_or comma_parts (option_copied result.1) [] }
{
    match first_comma(text) {
        Some(i) => (&text[..i], Some(&text[i + 1..])),
        None => (text, None),
    }
}

fn first_comma(text: &[u8]) -> Option<usize>
    ensures { result ≡ position (λ c. c == 44) text.now }
{
    text.iter().position(|c| *c == b',')
}

/// What a text without a comma names.
fn interface_of(name: &[u8]) -> Result<Target, ErrorCode>
    ensures { result ≡ target_of_parts 0 (name.now ∷ []) }
{
    if !is_name(name) {
        Err(ErrorCode::Syntax)
    } else if !is_gateway(name) {
        Err(ErrorCode::NotAccessible)
    } else {
        Ok(Target::Interface)
    }
}

/// What a name, a primary and perhaps a secondary address name.
fn device_of(
    name: &[u8],
    primary: &[u8],
    secondary: Option<&[u8]>,
    own: u8,
) -> Result<Target, ErrorCode>
    ensures { result
        ≡ target_of_parts own
        (name.now ∷ primary.now ∷ option_to_list (option_copied secondary.entry)) }
{
    if !is_name(name) || !is_number(primary) || !is_number_or_none(secondary) {
        Err(ErrorCode::Syntax)
    } else if !is_gateway(name) {
        Err(ErrorCode::NotAccessible)
    } else {
        device_at(own, primary, secondary)
    }
}

/// The device at a primary and perhaps a secondary address, both in decimal digits.
fn device_at(own: u8, primary: &[u8], secondary: Option<&[u8]>) -> Result<Target, ErrorCode>
    ensures { result
        ≡ device_at own (number_value primary.now)
        (option_map number_value (option_copied secondary.entry)) }
{
    let p = address_of(primary)?;
    if p == own {
        return Err(ErrorCode::InvalidAddress);
    }
    match secondary {
        None => Ok(Target::Device { p, s: None }),
        Some(secondary) => {
            let s = address_of(secondary)?;
            Ok(Target::Device { p, s: Some(s) })
        }
    }
}

/// Whether a text is a letter followed by letters and digits.
fn is_name(text: &[u8]) -> bool
    ensures { result ≡ is_name text.now }
{
    match text {
        [] => false,
        [first, rest @ ..] => first.is_ascii_alphabetic() && has_letters_and_digits_only(rest),
    }
}

fn has_letters_and_digits_only(text: &[u8]) -> bool
    ensures { result ≡ list_all (λ c. is_letter c || is_digit c) text.now }
{
    text.iter()
        .all(|c| c.is_ascii_alphabetic() || c.is_ascii_digit())
}

/// Whether a text is one or more decimal digits.
fn is_number(text: &[u8]) -> bool
    ensures { result ≡ is_number text.now }
{
    match text {
        [] => false,
        _ => has_digits_only(text),
    }
}

fn is_number_or_none(text: Option<&[u8]>) -> bool
    ensures { result ≡ option_map_or is_number (option_copied text.entry) true }
{
    match text {
        None => true,
        Some(text) => is_number(text),
    }
}

fn has_digits_only(text: &[u8]) -> bool
    ensures { result ≡ list_all is_digit text.now }
{
    text.iter().all(|c| c.is_ascii_digit())
}

/// Whether a name is that of the gateway's one interface.
fn is_gateway(name: &[u8]) -> bool
    ensures { result ≡ is_gateway name.now }
{
    name.eq_ignore_ascii_case(b"gpib0")
}

/// The bus address that decimal digits stand for, or `InvalidAddress` where that is above 30.
fn address_of(digits: &[u8]) -> Result<u8, ErrorCode>
    ensures { result
        ≡ (if is_address (number_value digits.now)
        then Ok (number_value digits.now)
        else Err ErrorCode.InvalidAddress) }
{
    let value = value_up_to_255(digits);
    if value <= ADDRESS_MAX {
        Ok(value)
    } else {
        Err(ErrorCode::InvalidAddress)
    }
}

/// What decimal digits stand for, or 255 where that is more.
fn value_up_to_255(digits: &[u8]) -> u8
    ensures { result ≡ min (number_value digits.now) 255 }
{
    digits.iter().fold(0u8, |value, digit| {
        value
            .saturating_mul(10)
            .saturating_add(digit.saturating_sub(b'0'))
    })
}

/// Whether a lock on one of these targets keeps other links off the other: where either is the interface, or both
/// have one primary address.
pub fn conflicts(a: &Target, b: &Target) -> bool
    ensures { result ≡ conflict a.now b.now }
{
    match (a, b) {
        (Target::Device { p, .. }, Target::Device { p: q, .. }) => p == q,
        _ => true,
    }
}
