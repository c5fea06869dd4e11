//! A client over a link to a gateway with an instrument at 5 that gives back what it is sent.

use crate::bench_tools::bus_with;
use crate::client_tools::{Answer, Ask, Got, are_answered, line_words, run_so};
use crate::word_tools::reach_of;
use std::alloc::{AllocError, Global};
use vx_client::{CallOpts, Client, ClientErr, LinkMade, ReadEnd};
use vx_core::Core;
use vx_inst::Instrument;
use vx_io_traits::{Link, ReadOut, WriteOut};
use vx_loop::{LoopLink, through_client};
use vx_memory::MemSink;
use vx_rack::Echo;

const OPTS: CallOpts = CallOpts {
    flags: 8,
    io_timeout: 10000,
    lock_timeout: 0,
};

/// The first link that is made.
const LINK: LinkMade = LinkMade {
    lid: 1,
    abort_port: 9011,
    max: 262_144,
};

/// A link to a gateway over a bus with an instrument, where there is one. The gateway was told this moment.
fn link_to<I: Instrument>(alloc: Global, inst: Option<I>, now: u64) -> Option<LoopLink<I>> {
    let bus = bus_with(alloc, inst)?;
    let mut core = Core::start(alloc, bus, 9011).ok()?;
    core.sample(now);
    LoopLink::new(alloc, core).ok()
}

/// A link to a gateway over a bus with that instrument.
fn link(alloc: Global, now: u64) -> Option<LoopLink<Echo>> {
    link_to(alloc, Echo::new(alloc).ok(), now)
}

/// Whether a write of these bytes of a client goes through, in two pieces, and is read back.
fn client_writes<I: Instrument>(
    client: &mut Client<LoopLink<I>>,
    bytes: &[u8],
    into: &mut [u8],
) -> bool {
    // The last reply is that of call 3, with error 0, and tells the size of the second piece, 34,464.
    let last = [
        0, 0, 0, 3, 0, 0, 0, 1, 0, 0, 0, 0, 0, 0, 0, 0, 0, 0, 0, 0, 0, 0, 0, 0, 0, 0, 0, 0, 0, 0,
        0x86, 0xA0,
    ];
    let end = ReadEnd {
        len: 100_000,
        reason: 5,
    };
    let is_made = client.create_link(false, 0, b"gpib0,5") == Ok(LINK);
    let is_written = through_client(client, &LINK, &OPTS, bytes) == Ok(());
    let is_last = client.last() == last.as_slice();
    let is_read = client.read(1, &OPTS, 0, into) == Ok(end);
    is_made && is_written && is_last && is_read && &*into == bytes
}

/// A link over whose clients writes go through.
trait Through: Sized + Link + Drop {
    fn writes(client: &mut Client<Self>, bytes: &[u8], into: &mut [u8]) -> bool;
}

impl<I: Instrument> Through for LoopLink<I> {
    fn writes(client: &mut Client<LoopLink<I>>, bytes: &[u8], into: &mut [u8]) -> bool {
        client_writes(client, bytes, into)
    }
}

/// The same over a link, where there is one, and memory for its client.
fn goes_through<L: Through>(
    alloc: Global,
    link: Option<L>,
    bytes: &[u8],
    into: &mut [u8],
) -> Option<bool> {
    let mut client = Client::new(alloc, link?).ok()?;
    Some(L::writes(&mut client, bytes, into))
}

/// 100,000 bytes, the numbers from 0 to 250 over and over.
fn long_text(alloc: Global) -> Result<Vec<u8>, AllocError> {
    let mut bytes = vec![in alloc; 0u8; 100_000]?;
    for (i, byte) in bytes.iter_mut().enumerate() {
        *byte = (i % 251) as u8;
    }
    Ok(bytes)
}

/// Whether that text goes through over a link of its own, where there is memory for it.
fn long_goes_through(alloc: Global) -> Option<bool> {
    let bytes = long_text(alloc).ok()?;
    let mut into = vec![in alloc; 0u8; 100_000].ok()?;
    goes_through(alloc, link(alloc, 0), bytes.as_slice(), into.as_mut_slice())
}

#[test]
fn a_write_goes_through(rt: HostRuntime) {
    assert!(rt; long_goes_through(rt.alloc()) == Some(true));
}

const DONE: Answer = Ok(Got::Done);

const MADE: Answer = Ok(Got::Link(LINK));

/// The moment that a gateway was told, calls of a client over it, and the front of what the bytes go to, which are 0 before.
struct Row {
    now: u64,
    steps: &'static [(Ask, Answer)],
    room: &'static [u8],
}

static ROWS: [Row; 5] = [
    // Each call of a link to the device, and writes between them.
    Row {
        now: 0,
        steps: &[
            (
                Ask::Create {
                    lock: true,
                    lock_timeout: 0,
                    device: b"gpib0,5",
                },
                MADE,
            ),
            (Ask::ReadStb, Ok(Got::Status(0))),
            (Ask::Trigger, DONE),
            (Ask::Clear, DONE),
            (Ask::Write(b"B"), DONE),
            (Ask::Remote, DONE),
            (Ask::Local, DONE),
            (Ask::Unlock, DONE),
            (Ask::Lock, DONE),
            (Ask::Write(b"C"), DONE),
            (Ask::Destroy, DONE),
            (Ask::Destroy, Err(ClientErr::Device(4))),
        ],
        room: &[0],
    },
    // Those for interrupts. A dial fails: no channel.
    Row {
        now: 0,
        steps: &[
            (
                Ask::Create {
                    lock: false,
                    lock_timeout: 0,
                    device: b"gpib0,5",
                },
                MADE,
            ),
            (Ask::EnableSrq(&[]), DONE),
            (Ask::CreateIntr(9012), Err(ClientErr::Device(6))),
            (Ask::DestroyIntr, Err(ClientErr::Device(6))),
        ],
        room: &[0],
    },
    // A command of the bus is refused on a device, and sends its byte on the interface.
    Row {
        now: 0,
        steps: &[
            (
                Ask::Create {
                    lock: false,
                    lock_timeout: 0,
                    device: b"gpib0,5",
                },
                MADE,
            ),
            (
                Ask::Create {
                    lock: false,
                    lock_timeout: 0,
                    device: b"gpib0",
                },
                Ok(Got::Link(LinkMade {
                    lid: 2,
                    abort_port: 9011,
                    max: 262_144,
                })),
            ),
            (Ask::Docmd(1, 0x020000, &[0x3F]), Err(ClientErr::Device(8))),
            (Ask::Docmd(2, 0x020000, &[0x3F]), Ok(Got::Bytes(1))),
        ],
        room: &[0x3F, 0],
    },
    // Nobody takes the byte until the timeout has passed.
    Row {
        now: 0,
        steps: &[
            (
                Ask::Create {
                    lock: false,
                    lock_timeout: 0,
                    device: b"gpib0,6",
                },
                MADE,
            ),
            (Ask::Write(b"A"), Err(ClientErr::Device(15))),
        ],
        room: &[0],
    },
    // Nobody takes the byte, and no later moment is left to poll at.
    Row {
        now: u64::MAX,
        steps: &[
            (
                Ask::Create {
                    lock: false,
                    lock_timeout: 0,
                    device: b"gpib0,6",
                },
                MADE,
            ),
            (Ask::Write(b"A"), Err(ClientErr::ReadFault)),
        ],
        room: &[0],
    },
];

/// Whether the calls of a row are answered as it says, over a link, where there is one.
fn holds<L: Link + Drop>(alloc: Global, link: Option<L>, row: &Row) -> Option<bool> {
    let mut client = Client::new(alloc, link?).ok()?;
    let mut room = [0; 8];
    let same = are_answered(&mut client, &LINK, &OPTS, row.steps, &mut room);
    Some(same && room.starts_with(row.room))
}

/// The same over a link of its own.
fn row_holds(alloc: Global, row: &Row) -> Option<bool> {
    holds(alloc, link(alloc, row.now), row)
}

#[test]
fn calls_are_answered(rt: HostRuntime) {
    for (place, row) in ROWS.iter().enumerate() {
        let is_so = row_holds(rt.alloc(), row);
        assert!(rt; is_so == Some(true), "row {place}");
    }
}

/// Whether a command over the host `h`, which answers over a link, ends with a status and prints a text.
fn comes_so<L: Link + Drop>(
    alloc: Global,
    words: &[String],
    link: Option<L>,
    status: u8,
    text: &str,
) -> Option<bool> {
    let mut sink = MemSink::new(Vec::new(alloc), Vec::new(alloc));
    let reach = reach_of(alloc, "h", link?).ok()?;
    Some(run_so(alloc, words, reach, &mut sink, status, text).1)
}

/// The same for the words of a line, with a link of its own, where there is memory for them.
fn line_comes_so(alloc: Global, line: &str, status: u8, text: &str) -> Option<bool> {
    let list = line_words(alloc, line).ok()?;
    comes_so(alloc, list.as_slice(), link(alloc, 0), status, text)
}

/// Command lines, what each ends with, and what it prints.
static LINES: [(&str, u8, &str); 2] = [
    ("h 9010 gpib0,5 query A", 0, "410A\n"),
    ("h 9010 gpib0,31 query A", 3, "error 21\n"),
];

#[test]
fn a_command_is_done(rt: HostRuntime) {
    for (line, status, text) in &LINES {
        let is_so = line_comes_so(rt.alloc(), line, *status, text);
        assert!(rt; is_so == Some(true), "{line}");
    }
}

/// A send over a link and what it answers, or a receive of at most so many bytes, at most 20, what it answers, and the front
/// of what came.
#[derive(Clone, Copy)]
enum Act {
    Send(&'static [u8], WriteOut),
    Receive(usize, ReadOut, &'static [u8]),
}

/// The null procedure, as call 1.
const NULL: [u8; 44] = [
    0x80, 0, 0, 40, 0, 0, 0, 1, 0, 0, 0, 0, 0, 0, 0, 2, 0, 6, 7, 0xAF, 0, 0, 0, 1, 0, 0, 0, 0, 0,
    0, 0, 0, 0, 0, 0, 0, 0, 0, 0, 0, 0, 0, 0, 0,
];

/// The first 20 bytes of its reply.
const REPLY: [u8; 20] = [
    0x80, 0, 0, 24, 0, 0, 0, 1, 0, 0, 0, 1, 0, 0, 0, 0, 0, 0, 0, 0,
];

/// What a link does by turns.
static ACTS: [&[Act]; 3] = [
    // A record of one byte, which is no call, fails, and ends the connection.
    &[
        Act::Send(&[0x80, 0, 0, 1], WriteOut::Took(4)),
        Act::Receive(8, ReadOut::End, &[]),
        Act::Send(&[0], WriteOut::Failed),
        Act::Send(&[0, 1], WriteOut::Took(2)),
        Act::Receive(8, ReadOut::End, &[]),
    ],
    // So does one of 263,169 bytes, which is too long.
    &[Act::Send(&[0x80, 4, 4, 1, 0], WriteOut::Failed)],
    // A reply is given once, in parts of at most 20 bytes; and what comes before a whole reply was received ends the
    // connection.
    &[
        Act::Send(&NULL, WriteOut::Took(44)),
        Act::Receive(20, ReadOut::Got(20), &REPLY),
        Act::Receive(20, ReadOut::Got(8), &[]),
        Act::Receive(20, ReadOut::End, &[]),
        Act::Send(&NULL, WriteOut::Took(44)),
        Act::Send(&NULL, WriteOut::Took(44)),
        Act::Receive(20, ReadOut::Got(20), &[]),
        Act::Receive(20, ReadOut::Got(8), &[]),
        Act::Send(&NULL, WriteOut::Took(44)),
        Act::Receive(20, ReadOut::End, &[]),
    ],
];

/// Whether a send or a receive is answered so.
fn acts_so<L: Link>(link: &mut L, act: Act) -> bool {
    match act {
        Act::Send(bytes, want) => !bytes.is_empty() && link.send(bytes) == want,
        Act::Receive(most, want, front) => {
            let mut room = [9u8; 20];
            link.receive(&mut room[..most.clamp(1, 20)]) == want && room.starts_with(front)
        }
    }
}

/// Whether a link answers all of these so, where there is one.
fn acts<L: Link + Drop>(link: Option<L>, list: &[Act]) -> Option<bool> {
    let mut link = link?;
    let mut same = true;
    for act in list {
        same &= acts_so(&mut link, *act);
    }
    Some(same)
}

/// The same of a link of its own.
fn link_acts(alloc: Global, list: &[Act]) -> Option<bool> {
    acts(link(alloc, 0), list)
}

#[test]
fn records_are_answered(rt: HostRuntime) {
    for (place, list) in ACTS.iter().enumerate() {
        let is_so = link_acts(rt.alloc(), list);
        assert!(rt; is_so == Some(true), "list {place}");
    }
}
