//! The words of a user: where a server is, which device of it is meant, and what is asked of that device.

ghost use Rattle.std.specs.Prelude.{◌≡◌, ◌≤◌, length, map, option_map, string_bytes, IfSome};
ghost use Rattle.std.specs.List.{list_all};
ghost use Rattle.vx_calls.specs.Target.{is_digit};
ghost use Rattle.vx_client.specs.Asked.{is_positive, port_of, bare_command, text_command, client_command_of, ask_at, ask_of, command_shown, ask_shown};

use vx_calls::DEVICE_MAX;

/// What is asked of a device.
#[derive(Clone, Copy)]
pub(crate) enum Command<'a> {
    /// Write this text, and read what the device says to it.
    Query(&'a [u8]),
    /// Write this text.
    Write(&'a [u8]),
    /// Read what the device says.
    Read,
    /// Take its status byte.
    Stb,
    /// Clear it.
    Clear,
    /// Trigger it.
    Trigger,
}

/// What a user asks.
#[derive(Clone, Copy)]
pub(crate) struct Ask<'a> {
    /// The server's host.
    pub host: &'a str,
    /// Its port.
    pub port: u16,
    /// The device's text, of at most `DEVICE_MAX` bytes.
    pub device: &'a [u8],
    pub command: Command<'a>,
}

fn has_digits_only(text: &[u8]) -> bool
    ensures { result ≡ list_all is_digit text.now }
{
    text.iter().all(|b| b.is_ascii_digit())
}

/// Whether a text is decimal digits, at least one, and the first isn't 0.
fn is_positive(text: &[u8]) -> bool
    ensures { result ≡ is_positive text.now }
{
    match text {
        [] => false,
        [first, ..] => *first != b'0' && has_digits_only(text),
    }
}

/// The port, 1 to 65,535, that decimal digits without a leading zero write.
fn port_of(text: &str) -> Option<u16>
    ensures { result ≡ port_of text.now }
{
    if !is_positive(text.as_bytes()) {
        return None;
    }
    text.parse().ok()
}

/// The command of one word.
fn bare_command(word: &[u8]) -> Option<Command<'static>>
    ensures { option_map command_shown result ≡ bare_command word.now }
{
    if word == b"read".as_slice() {
        Some(Command::Read)
    } else if word == b"stb".as_slice() {
        Some(Command::Stb)
    } else if word == b"clear".as_slice() {
        Some(Command::Clear)
    } else if word == b"trigger".as_slice() {
        Some(Command::Trigger)
    } else {
        None
    }
}

/// The command of a word and a text.
fn text_command<'a>(word: &[u8], text: &'a [u8]) -> Option<Command<'a>>
    ensures { option_map command_shown result ≡ text_command word.now text.now }
{
    if word == b"query".as_slice() {
        Some(Command::Query(text))
    } else if word == b"write".as_slice() {
        Some(Command::Write(text))
    } else {
        None
    }
}

/// The command of the words behind the device.
fn command_of(words: &[String]) -> Option<Command<'_>>
    ensures { option_map command_shown result ≡ client_command_of (map string_bytes words.now) }
{
    match words {
        [word] => bare_command(word.as_bytes()),
        [word, text] => text_command(word.as_bytes(), text.as_bytes()),
        _ => None,
    }
}

/// What is asked at a host, where the words behind it have their form.
fn ask_at<'a>(host: &'a str, port: &str, device: &'a [u8], rest: &'a [String]) -> Option<Ask<'a>>
    ensures ask { option_map ask_shown result ≡ ask_at host.now port.now device.now (map string_bytes rest.now) }
    ensures device { IfSome result (λ ask. length ask.device.now ≤ DEVICE_MAX) }
{
    if device.len() > DEVICE_MAX {
        return None;
    }
    let port = port_of(port)?;
    let command = command_of(rest)?;
    Some(Ask {
        host,
        port,
        device,
        command,
    })
}

/// What words ask: `HOST PORT DEVICE`, and then `query TEXT`, `write TEXT`, `read`, `stb`, `clear` or `trigger`. It is
/// none where they have another form, where the port isn't 1 to 65,535 in decimal digits without a leading zero, and
/// where the device's text has more than `DEVICE_MAX` bytes.
pub(crate) fn ask_of(words: &[String]) -> Option<Ask<'_>>
    ensures ask { option_map ask_shown result ≡ ask_of (map string_bytes words.now) }
    ensures device { IfSome result (λ ask. length ask.device.now ≤ DEVICE_MAX) }
{
    match words {
        [host, port, device, rest @ ..] => ask_at(
            host.as_str(),
            port.as_str(),
            device.as_bytes(),
            rest,
        ),
        _ => None,
    }
}
