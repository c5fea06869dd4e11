//! The buses that device texts name.
ghost use Rattle.std.specs.Prelude.{◌≡◌, ◌≤◌, ◌++◌, ◌==◌, length, codes, drop, IfSome};
ghost use Rattle.std.specs.List.{position};
ghost use Rattle.vx_desks.specs.Naming.{name_of, bus_named};

fn first_comma(text: &[u8]) -> Option<usize>
    ensures { result ≡ position (λ c. c == 44) text.now }
{
    text.iter().position(|c| *c == b',')
}

/// What stands before the first comma of a device text.
fn name_of(text: &[u8]) -> &[u8]
    ensures name { result.now ≡ name_of text.now }
    ensures within { length result.now ≤ length text.now }
{
    match first_comma(text) {
        Some(comma) => &text[..comma],
        None => text,
    }
}

/// The bus of this name, where it is `gpib0` to `gpib3` in any case.
fn bus_named(name: &[u8]) -> Option<u8>
    ensures value { result ≡ bus_named name.now }
    ensures within { IfSome result (λ bus. bus ≤ 3) }
    ensures long { IfSome result (λ bus. length name.now ≡ 5) }
{
    let [g, p, i, b, digit] = name else {
        return None;
    };
    let word = [*g, *p, *i, *b];
    if word.eq_ignore_ascii_case(b"gpib") && b'0' <= *digit && *digit <= b'3' {
        Some(*digit - b'0')
    } else {
        None
    }
}

/// The bus that a device text names, where it names one.
pub(crate) fn bus_of(text: &[u8]) -> Option<u8>
    ensures value { result ≡ bus_named (name_of text.now) }
    ensures within { IfSome result (λ bus. bus ≤ 3) }
    ensures long { IfSome result (λ bus. 5 ≤ length text.now) }
{
    bus_named(name_of(text))
}

/// A device text whose name, of five bytes, is `gpib0` in its place.
pub(crate) fn on_first<'a>(text: &[u8], room: &'a mut [u8]) -> &'a [u8]
    requires long { 5 ≤ length text.now }
    requires room { length text.now ≤ length room.old }
    ensures { result.now ≡ codes "gpib0" ++ drop 5 text.now }
{
    let len = text.len();
    room[..5].copy_from_slice(b"gpib0");
    room[5..len].copy_from_slice(&text[5..]);
    &room[..len]
}
