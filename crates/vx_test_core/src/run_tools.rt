//! What the tests of whole runs share.
ghost use Rattle.std.specs.Prelude.{◌≡◌, ◌+◌, length, IfSome};

use crate::record_tools::{are_words, words};
use arrayvec::ArrayString;
use std::alloc::{AllocError, Global};
use vx_inst::Instrument;
use vx_memory::{MemDoor, MemLink, MemSink, MemStreams};
use vx_rack::{Echo, Spare};
use vx_session::{NoTools, Tools};

/// Clocks that tell moment 0, no pauses, and dials that stand.
#[derive(Drop)]
pub(crate) struct StillTools {
    pub(crate) alloc: Global,
}

impl Tools for StillTools {
    type C = NoTools;

    type P = NoTools;

    type D = NoTools;

    type S = MemStreams<MemLink>;

    fn clock(&mut self) -> NoTools {
        NoTools::new()
    }

    fn pause(&mut self) -> NoTools {
        NoTools::new()
    }

    fn dial(&mut self) -> NoTools {
        NoTools::new()
    }

    fn streams(&mut self) -> MemStreams<MemLink> {
        MemStreams::new(Vec::new(self.alloc))
    }
}

/// Puts words behind others.
fn add_words(alloc: Global, words: &[&str], all: &mut Vec<String>) -> Result<(), AllocError> {
    for word in words {
        all.push(String::from_str(alloc, word)?)?;
    }
    Ok(())
}

/// Words as a program is given them.
fn words_of(alloc: Global, words: &[&str]) -> Result<Vec<String>, AllocError> {
    let mut all = Vec::new(alloc);
    add_words(alloc, words, &mut all)?;
    Ok(all)
}

/// What a run has outside: its words, a door over memory, and a sink.
#[derive(Drop)]
pub(crate) struct Outside {
    pub(crate) words: Vec<String>,
    pub(crate) door: MemDoor,
    pub(crate) sink: MemSink,
}

/// A door to peers that give these words, each its own, and of whose calls these fail.
fn door_of(alloc: Global, gives: &[&[u32]], fails: &[u64]) -> Option<MemDoor> {
    let fails = fails.to_vec(alloc).ok()?;
    let mut peers = Vec::new(alloc);
    for numbers in gives {
        peers.push(words(alloc, numbers, &[]).ok()?).ok()?;
    }
    MemDoor::new(alloc, peers, fails).ok()
}

/// Words, a door to peers that give these, and a sink; of the calls of the door and of the sink these fail.
pub(crate) fn outside_of(
    alloc: Global,
    words: &[&str],
    gives: &[&[u32]],
    door_fails: &[u64],
    sink_fails: &[u64],
) -> Option<Outside> {
    let fails = sink_fails.to_vec(alloc).ok()?;
    let words = words_of(alloc, words).ok()?;
    let door = door_of(alloc, gives, door_fails)?;
    let sink = MemSink::new(Vec::new(alloc), fails);
    Some(Outside { words, door, sink })
}

/// Whether the peers that the door met were sent these words, each its own, and no other was met.
fn were_sent(door: &MemDoor, took: &[&[u32]]) -> bool {
    let mut same = door.sent(took.len()).is_none();
    for (place, numbers) in took.iter().enumerate() {
        let sent = door.sent(place).unwrap_or(&[0]);
        same = are_words(sent, numbers) && same;
    }
    same
}

/// Whether a run wrote this text, sent these words to the peers that it met, and opened this port.
pub(crate) fn went_so(outside: &Outside, text: &[u8], took: &[&[u32]], port: Option<u16>) -> bool {
    let is_told = outside.sink.bytes() == text && outside.door.port() == port;
    is_told && were_sent(&outside.door, took)
}

/// Adds an echo with this status byte to a rack.
pub(crate) fn add(alloc: Global, rack: &mut Vec<Spare<Echo>>, status: u8) -> Option<()>
    ensures { IfSome result (λ _. length rack.new.items ≡ length rack.old.items + 1) }
{
    let mut inst = Echo::new(alloc).ok()?;
    inst.set_status(status);
    let name = ArrayString::new();
    rack.push(Spare { name, inst }).ok()
}
