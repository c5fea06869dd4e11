//! What the tests of clients share: calls as data, over any link.

use arrayvec::ArrayVec;
use std::alloc::{AllocError, Global};
use vx_calls::{DEVICE_MAX, Handle};
use vx_client::{CallOpts, Client, ClientErr, LinkMade, ReadEnd, call_run};
use vx_io_traits::{Link, Reach};
use vx_memory::MemSink;

/// A call of a client.
#[derive(Clone, Copy)]
pub(crate) enum Ask {
    Create {
        lock: bool,
        lock_timeout: u32,
        device: &'static [u8],
    },
    ReadStb,
    Trigger,
    Clear,
    Remote,
    Local,
    Lock,
    Unlock,
    Destroy,
    /// To this port of 127.0.0.1.
    CreateIntr(u32),
    /// With a handle of these bytes.
    EnableSrq(&'static [u8]),
    DestroyIntr,
    /// Over a link of this number a command of the bus, with at most four bytes.
    Docmd(u32, u32, &'static [u8]),
    Write(&'static [u8]),
    /// Into so many bytes, up to this character.
    Read {
        most: usize,
        term: u8,
    },
}

/// What a call gives.
#[derive(Clone, Copy, PartialEq)]
pub(crate) enum Got {
    Done,
    Link(LinkMade),
    Status(u8),
    Bytes(usize),
    End(ReadEnd),
}

pub(crate) type Answer = Result<Got, ClientErr>;

fn handle(bytes: &[u8]) -> Handle {
    let mut handle = ArrayVec::new();
    let _ = handle.try_extend_from_slice(bytes);
    Handle { bytes: handle }
}

/// What a call over a link of this number answers that gives nothing.
fn order<L: Link>(
    client: &mut Client<L>,
    lid: u32,
    opts: &CallOpts,
    ask: Ask,
) -> Result<(), ClientErr> {
    match ask {
        Ask::Trigger => client.trigger(lid, opts),
        Ask::Clear => client.clear(lid, opts),
        Ask::Remote => client.remote(lid, opts),
        Ask::Local => client.local(lid, opts),
        Ask::Lock => client.lock(lid, opts),
        Ask::Unlock => client.unlock(lid),
        Ask::Destroy => client.destroy_link(lid),
        Ask::CreateIntr(port) => client.create_intr_chan(0x7F000001, port, 0x0607B1, 1),
        Ask::EnableSrq(bytes) => client.enable_srq(lid, true, &handle(bytes)),
        Ask::DestroyIntr => client.destroy_intr_chan(),
        _ => Err(ClientErr::Spent),
    }
}

/// What a call over a link answers. What it reads goes into the room.
fn answer<L: Link>(
    client: &mut Client<L>,
    made: &LinkMade,
    opts: &CallOpts,
    ask: Ask,
    room: &mut [u8; 8],
) -> Answer {
    match ask {
        Ask::Create {
            lock,
            lock_timeout,
            device,
        } => client
            .create_link(lock, lock_timeout, &device[..device.len().min(DEVICE_MAX)])
            .map(Got::Link),
        Ask::ReadStb => client.readstb(made.lid, opts).map(Got::Status),
        Ask::Docmd(lid, cmd, bytes) => client
            .docmd(lid, opts, cmd, &bytes[..bytes.len().min(4)], &mut room[..4])
            .map(Got::Bytes),
        Ask::Read { most, term } => client
            .read(made.lid, opts, term, &mut room[..most.min(8)])
            .map(Got::End),
        Ask::Write(bytes) if 0 < made.max => client.write(made, opts, bytes).map(|_| Got::Done),
        _ => order(client, made.lid, opts, ask).map(|_| Got::Done),
    }
}

/// Whether calls over a link are answered so, one after the other.
pub(crate) fn are_answered<L: Link>(
    client: &mut Client<L>,
    made: &LinkMade,
    opts: &CallOpts,
    steps: &[(Ask, Answer)],
    room: &mut [u8; 8],
) -> bool {
    let mut same = true;
    for (ask, want) in steps {
        same &= answer(client, made, opts, *ask, room) == *want;
    }
    same
}

/// The words of a line, which stand between spaces; none where it is empty.
pub(crate) fn line_words(alloc: Global, line: &str) -> Result<Vec<String>, AllocError> {
    let mut list = Vec::new(alloc);
    if line.is_empty() {
        return Ok(list);
    }
    for word in line.split(' ') {
        list.push(String::from_str(alloc, word)?)?;
    }
    Ok(list)
}

/// Runs a command over a reach. Answers the reach, and whether the command ends with this status and prints this text.
pub(crate) fn run_so<R: Reach>(
    alloc: Global,
    words: &[String],
    reach: R,
    sink: &mut MemSink,
    status: u8,
    text: &str,
) -> (R, bool) {
    let (number, reach) = call_run(alloc, words, reach, sink);
    (reach, number == status && sink.bytes() == text.as_bytes())
}
