//! What the words of a user ask of the port mapper.
ghost use Rattle.std.specs.Prelude.{◌≡◌, ◌≢◌, map, string_bytes, IfSome, None};
ghost use Rattle.vx_portmap.specs.declared.words.Ask.{Ask};
ghost use Rattle.vx_portmap.specs.declared.words.Kind.{Kind};
ghost use Rattle.vx_portmap.specs.Asked.{kind_word, spelled, IsMapInRange};

use vx_peers::{number_of, port_of};

/// What messages come over.
#[derive(Clone, Copy)]
pub(crate) enum Kind {
    /// Streams of records, one after another, as over TCP.
    Stream,
    /// Packets, as over UDP.
    Packets,
}

/// What is asked.
#[derive(Clone, Copy)]
pub(crate) struct Ask {
    pub(crate) kind: Kind,
    /// The port to serve at, 1 to 65,535.
    pub(crate) port: u16,
    /// The port of the core channel, 1 to 65,535.
    pub(crate) core: u16,
    /// The port of the abort channel, 1 to 65,535.
    pub(crate) abort: u16,
    /// How many streams or packets are served, 1 to 1,000,000.
    pub(crate) number: u32,
}

fn kind_of(word: &[u8]) -> Option<Kind>
    ensures some { IfSome result (λ kind. word.now ≡ kind_word kind) }
    ensures none { result ≡ None → (kind : Kind) → word.now ≢ kind_word kind }
{
    if word == b"stream".as_slice() {
        Some(Kind::Stream)
    } else if word == b"packets".as_slice() {
        Some(Kind::Packets)
    } else {
        None
    }
}

/// What words ask: `stream PORT CORE ABORT N` or `packets PORT CORE ABORT N`, with ports 1 to 65,535 and N 1 to 1,000,000, in
/// decimal digits without a leading zero. It is none where they have another form.
pub(crate) fn ask_of(words: &[String]) -> Option<Ask>
    ensures some { IfSome result (λ ask. IsMapInRange ask × (map string_bytes words.now ≡ spelled ask)) }
    ensures none { result ≡ None → (ask : Ask) → IsMapInRange ask → map string_bytes words.now ≢ spelled ask }
{
    let [kind, port, core, abort, number] = words else {
        return None;
    };
    let kind = kind_of(kind.as_bytes())?;
    let port = port_of(port.as_str())?;
    let core = port_of(core.as_str())?;
    let abort = port_of(abort.as_str())?;
    let number = number_of(number.as_str())?;
    Some(Ask {
        kind,
        port,
        core,
        abort,
        number,
    })
}
