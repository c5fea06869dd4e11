//! The box that the words of a server name.
ghost use Rattle.std.specs.Prelude.{◌≡◌, None, map, option_map, string_bytes, IfSome};
ghost use Rattle.vx_relay.specs.Place.{IsPlace, NoPlace, is_option, parts_behind, parts_of, parts_shown, place_shown};

use vx_calls::DEVICE_MAX;
use vx_peers::port_of;

/// The interface whose name the words leave out.
const INTERFACE: &str = "gpib0";

/// Where a box is, and the name of the interface behind which its bus is.
#[derive(Clone, Copy)]
pub struct Upstream<'a> {
    /// The box's host: an address or a name.
    pub host: &'a str,
    /// The port of its core channel, 1 to 65,535.
    pub port: u16,
    /// The name of its GPIB interface, of at most `DEVICE_MAX` bytes.
    pub name: &'a str,
}

/// The words that name a box, and those behind them.
#[derive(Clone, Copy)]
struct Split<'a> {
    host: &'a str,
    port: &'a str,
    name: &'a str,
    rest: &'a [String],
}

/// Whether a word begins an option.
fn is_option(word: &str) -> bool
    ensures { result ≡ is_option word.now }
{
    match word.as_bytes() {
        [first, ..] => *first == b'-',
        [] => false,
    }
}

/// The name that stands first of these words, where it doesn't begin an option.
fn parts_behind<'a>(host: &'a str, port: &'a str, rest: &'a [String]) -> Split<'a>
    ensures { parts_shown result ≡ parts_behind host.now port.now (map string_bytes rest.now) }
{
    let unnamed = Split {
        host,
        port,
        name: INTERFACE,
        rest,
    };
    match rest {
        [name, rest @ ..] => {
            if is_option(name.as_str()) {
                unnamed
            } else {
                let name = name.as_str();
                Split {
                    host,
                    port,
                    name,
                    rest,
                }
            }
        }
        [] => unnamed,
    }
}

/// The words `HOST PORT [NAME]`, and those behind them.
fn parts_of(words: &[String]) -> Option<Split<'_>>
    ensures { option_map parts_shown result ≡ parts_of (map string_bytes words.now) }
{
    match words {
        [host, port, rest @ ..] => Some(parts_behind(host.as_str(), port.as_str(), rest)),
        _ => None,
    }
}

/// The box that words name by `HOST PORT [NAME]`, and the words behind them. The name is `gpib0` where none is there, or where an
/// option stands in its place. There is no box where a host or a port isn't there, where the port isn't 1 to 65,535 in decimal digits
/// without a leading zero, and where the name has more than `DEVICE_MAX` bytes.
pub fn place_of(words: &[String]) -> Option<(Upstream<'_>, &[String])>
    ensures some { IfSome result (λ r. IsPlace (map string_bytes words.now) (place_shown r.0) (map string_bytes r.1.now)) }
    ensures none { result ≡ None → NoPlace (map string_bytes words.now) }
{
    let Split {
        host,
        port,
        name,
        rest,
    } = parts_of(words)?;
    if name.len() > DEVICE_MAX {
        return None;
    }
    let port = port_of(port)?;
    Some((Upstream { host, port, name }, rest))
}
