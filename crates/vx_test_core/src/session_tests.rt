//! Links that are served, each by a gateway of its own. The records are those of RFC 5531, sections 9 and 11, and of VXI-11.
ghost use Rattle.std.specs.Prelude.{◌≡◌, IfSome};
ghost use Rattle.vx_488.specs.Means.{first_means};

use crate::gateway_tools::{gateway, mem_bus};
use crate::record_tools::{add_words, are_words};
use std::alloc::{AllocError, Global};
use std::sync::Wait;
use vx_488::Bus;
use vx_io_traits::{Clock, Pause, Rang};
use vx_memory::{MemClock, MemDial, MemLink};
use vx_session::{End, LinkDone, Linked, Room, Tally, core_link};

/// A link, what is outside of its session, and what is to come of it.
#[derive(Clone, Copy)]
struct Row {
    name: &'static str,
    /// The words that the link gives; a byte behind them, and how often; and pieces behind these, of words and so many words of 0.
    gives: &'static [u32],
    rest: (u8, usize),
    more: &'static [(&'static [u32], usize)],
    /// How many bytes a receive gives, at most.
    piece: usize,
    /// Which of its calls fail, of receives and sends together.
    fails: &'static [u64],
    /// Which moving calls of the bus are held.
    holds: &'static [u64],
    moments: &'static [u64],
    /// Which dials fail.
    dial_fails: &'static [u64],
    how: Linked,
    took: &'static [u32],
    rang: &'static [Rang],
    /// How often the session asks its clock, which it does once a poll, and how often it pauses, where that is looked at.
    waits: Option<[u64; 2]>,
}

/// A create_link: xid 1, client 42, no lock, the device `gpib0,5`.
const CREATE: [u32; 17] = [
    0x80000040, 1, 0, 2, 0x0607AF, 1, 10, 0, 0, 0, 0, 42, 0, 0, 7, 0x67706962, 0x302C3500,
];

/// Its reply: error 0, link 1, the abort port, and at most 262,144 bytes a write.
const CREATED: [u32; 11] = [0x80000028, 1, 1, 0, 0, 0, 0, 0, 1, 9011, 262144];

/// The reply to arguments that can't be read (RFC 5531, GARBAGE_ARGS).
const GARBAGE: [u32; 7] = [0x80000018, 1, 1, 0, 0, 0, 4];

/// A device_write of 254 bytes with END on link 1, before its data.
const WRITE_254: [u32; 16] = [
    0x8000013C, 2, 0, 2, 0x0607AF, 1, 11, 0, 0, 0, 0, 1, 1000, 0, 8, 254,
];

/// The create_link, of which nothing fails.
const PLAIN: Row = Row {
    name: "a create_link",
    gives: &CREATE,
    rest: (0, 0),
    more: &[],
    piece: 100,
    fails: &[],
    holds: &[],
    moments: &[],
    dial_fails: &[],
    how: Linked::Ended(End::Closed),
    took: &CREATED,
    rang: &[],
    waits: None,
};

/// The create_link, which is polled once, and a write of 257 transfers, a slice and one, in two polls: three commands, and 254 bytes.
/// Behind a call of more than a slice a session pauses once.
const SLICED: Row = Row {
    name: "a write of 257 transfers",
    more: &[(&WRITE_254, 64)],
    piece: 4096,
    took: &[
        0x80000028, 1, 1, 0, 0, 0, 0, 0, 1, 9011, 262144, 0x80000020, 2, 1, 0, 0, 0, 0, 0, 254,
    ],
    waits: Some([3, 1]),
    ..PLAIN
};

const HOST: u32 = 0x7F000001;

static ROWS: [Row; 26] = [
    PLAIN,
    Row {
        name: "a create_link by single bytes",
        piece: 1,
        ..PLAIN
    },
    Row {
        name: "an input that ends in a record",
        gives: &[0x80000040, 1],
        rest: (0, 2),
        piece: 4,
        how: Linked::Ended(End::CutShort { bytes: 10 }),
        took: &[],
        ..PLAIN
    },
    Row {
        name: "a record of one byte",
        gives: &[0x80000001],
        rest: (0, 1),
        piece: 4,
        how: Linked::Ended(End::Junk { length: 1 }),
        took: &[],
        ..PLAIN
    },
    Row {
        name: "a record of no bytes",
        gives: &[0x80000000],
        how: Linked::Ended(End::Junk { length: 0 }),
        took: &[],
        ..PLAIN
    },
    Row {
        name: "a record of two words",
        gives: &[0x80000008, 1, 0],
        how: Linked::Ended(End::Junk { length: 8 }),
        took: &[],
        ..PLAIN
    },
    Row {
        name: "a reply in place of a call",
        gives: &[0x8000000C, 1, 1, 2],
        how: Linked::Ended(End::Junk { length: 12 }),
        took: &[],
        ..PLAIN
    },
    // its 401 bytes, three of padding and an empty verifier are zeros
    Row {
        name: "a credential of 401 bytes",
        gives: &[0x800001BC, 1, 0, 2, 0x0607AF, 1, 10, 0, 401],
        rest: (0, 412),
        how: Linked::Ended(End::Junk { length: 444 }),
        took: &[],
        ..PLAIN
    },
    Row {
        name: "a fragment of 2,147,483,647 bytes",
        gives: &[0x7FFFFFFF],
        how: Linked::Ended(End::TooLong),
        took: &[],
        ..PLAIN
    },
    Row {
        name: "a lockDevice that is no boolean",
        gives: &[
            0x80000040, 1, 0, 2, 0x0607AF, 1, 10, 0, 0, 0, 0, 0, 2, 0, 7, 0x67706962, 0x302C3500,
        ],
        took: &GARBAGE,
        ..PLAIN
    },
    Row {
        name: "a device text of 256 bytes",
        gives: &[
            0x80000138, 1, 0, 2, 0x0607AF, 1, 10, 0, 0, 0, 0, 0, 0, 0, 256,
        ],
        rest: (0x67, 256),
        took: &GARBAGE,
        ..PLAIN
    },
    // its padding is the last three bytes
    Row {
        name: "a handle of 41 bytes",
        gives: &[
            0x80000060, 1, 0, 2, 0x0607AF, 1, 20, 0, 0, 0, 0, 1, 1, 41, 0, 0, 0, 0, 0, 0, 0, 0, 0,
            0, 0,
        ],
        took: &GARBAGE,
        ..PLAIN
    },
    Row {
        name: "data of 4,294,967,295 bytes",
        gives: &[
            0x8000003C, 1, 0, 2, 0x0607AF, 1, 11, 0, 0, 0, 0, 1, 0, 0, 0, 0xFFFFFFFF,
        ],
        took: &GARBAGE,
        ..PLAIN
    },
    Row {
        name: "a record that is too long",
        gives: &[0x80040401],
        piece: 4,
        how: Linked::Ended(End::TooLong),
        took: &[],
        ..PLAIN
    },
    Row {
        name: "a receive that fails",
        piece: 68,
        fails: &[1],
        how: Linked::Ended(End::ReadFault),
        took: &[],
        ..PLAIN
    },
    Row {
        name: "a send that fails",
        piece: 68,
        fails: &[2],
        how: Linked::Ended(End::WriteFault),
        took: &[],
        ..PLAIN
    },
    Row {
        name: "a receive that fails behind a reply",
        piece: 68,
        fails: &[3],
        how: Linked::Ended(End::ReadFault),
        ..PLAIN
    },
    // create_link of `gpib0,6`, and a device_write of one byte with an io_timeout of 100 ms; the byte behind UNL, MTA and MLA
    // is held, and held again
    Row {
        name: "a write that times out",
        gives: &[
            0x80000040, 1, 0, 2, 0x0607AF, 1, 10, 0, 0, 0, 0, 0, 0, 0, 7, 0x67706962, 0x302C3600,
            0x80000040, 2, 0, 2, 0x0607AF, 1, 11, 0, 0, 0, 0, 1, 100, 0, 8, 1, 0x41000000,
        ],
        piece: 4096,
        holds: &[4, 5],
        moments: &[0, 0, 100],
        took: &[
            0x80000028, 1, 1, 0, 0, 0, 0, 0, 1, 9011, 262144, 0x80000020, 2, 1, 0, 0, 0, 0, 15, 0,
        ],
        ..PLAIN
    },
    // create_intr_chan to 127.0.0.1, port 9012, twice
    Row {
        name: "a dial that fails, and one that stands",
        gives: &[
            0x8000003C, 1, 0, 2, 0x0607AF, 1, 25, 0, 0, 0, 0, 0x7F000001, 9012, 0x0607B1, 1, 0,
            0x8000003C, 2, 0, 2, 0x0607AF, 1, 25, 0, 0, 0, 0, 0x7F000001, 9012, 0x0607B1, 1, 0,
        ],
        piece: 4096,
        dial_fails: &[1],
        took: &[
            0x8000001C, 1, 1, 0, 0, 0, 0, 6, 0x8000001C, 2, 1, 0, 0, 0, 0, 0,
        ],
        rang: &[
            Rang::Dialed {
                host: HOST,
                port: 9012,
                up: false,
            },
            Rang::Dialed {
                host: HOST,
                port: 9012,
                up: true,
            },
            Rang::Handed { conn: 1, chan: 1 },
        ],
        ..PLAIN
    },
    SLICED,
    Row {
        name: "a write of 256 transfers, in one poll",
        more: &[(
            &[
                0x8000013C, 2, 0, 2, 0x0607AF, 1, 11, 0, 0, 0, 0, 1, 1000, 0, 8, 253,
            ],
            64,
        )],
        took: &[
            0x80000028, 1, 1, 0, 0, 0, 0, 0, 1, 9011, 262144, 0x80000020, 2, 1, 0, 0, 0, 0, 0, 253,
        ],
        waits: Some([2, 0]),
        ..SLICED
    },
    Row {
        name: "a write of 4,003 transfers: 15 full slices, and 163",
        more: &[(
            &[
                0x80000FDC, 2, 0, 2, 0x0607AF, 1, 11, 0, 0, 0, 0, 1, 1000, 0, 8, 4000,
            ],
            1000,
        )],
        took: &[
            0x80000028, 1, 1, 0, 0, 0, 0, 0, 1, 9011, 262144, 0x80000020, 2, 1, 0, 0, 0, 0, 0, 4000,
        ],
        waits: Some([17, 1]),
        ..SLICED
    },
    Row {
        name: "a write of one poll behind one of two",
        more: &[
            (&WRITE_254, 64),
            (
                &[
                    0x80000040, 2, 0, 2, 0x0607AF, 1, 11, 0, 0, 0, 0, 1, 1000, 0, 8, 1,
                ],
                1,
            ),
        ],
        took: &[
            0x80000028, 1, 1, 0, 0, 0, 0, 0, 1, 9011, 262144, 0x80000020, 2, 1, 0, 0, 0, 0, 0, 254,
            0x80000020, 2, 1, 0, 0, 0, 0, 0, 1,
        ],
        waits: Some([4, 1]),
        ..SLICED
    },
    Row {
        name: "two writes of two polls each",
        more: &[(&WRITE_254, 64), (&WRITE_254, 64)],
        took: &[
            0x80000028, 1, 1, 0, 0, 0, 0, 0, 1, 9011, 262144, 0x80000020, 2, 1, 0, 0, 0, 0, 0, 254,
            0x80000020, 2, 1, 0, 0, 0, 0, 0, 254,
        ],
        waits: Some([5, 2]),
        ..SLICED
    },
    Row {
        name: "a write that is held in its second slice",
        holds: &[257],
        waits: Some([4, 2]),
        ..SLICED
    },
    // create_link of `gpib0,5` twice, device_lock of the one link, and of the other, which waits 10 ms for the lock, in vain: each poll
    // but the last pauses
    Row {
        name: "a wait for a lock",
        more: &[(
            &[
                0x80000040, 2, 0, 2, 0x0607AF, 1, 10, 0, 0, 0, 0, 42, 0, 0, 7, 0x67706962,
                0x302C3500, 0x80000034, 3, 0, 2, 0x0607AF, 1, 18, 0, 0, 0, 0, 1, 0, 0, 0x80000034,
                4, 0, 2, 0x0607AF, 1, 18, 0, 0, 0, 0, 2, 1, 10,
            ],
            0,
        )],
        piece: 4096,
        moments: &[1, 2, 3, 4, 5, 6, 7, 8, 9, 10, 11, 12, 13, 14],
        took: &[
            0x80000028, 1, 1, 0, 0, 0, 0, 0, 1, 9011, 262144, 0x80000028, 2, 1, 0, 0, 0, 0, 0, 2,
            9011, 262144, 0x8000001C, 3, 1, 0, 0, 0, 0, 0, 0x8000001C, 4, 1, 0, 0, 0, 0, 11,
        ],
        waits: Some([3 + 11, 10]),
        ..PLAIN
    },
];

/// A clock over memory, and how often it was asked.
#[derive(Drop)]
struct Asked {
    clock: MemClock,
    asks: u64,
}

impl Clock for Asked {
    ghost told = { λ c. c.clock.told };

    fn now(&mut self) -> u64 {
        self.asks = self.asks.saturating_add(1);
        self.clock.now()
    }
}

/// Counts its pauses.
#[derive(Drop)]
pub(crate) struct Pauses {
    pub(crate) count: u64,
}

impl Pause for Pauses {
    fn pause(&mut self) {
        self.count = self.count.saturating_add(1);
    }
}

/// What a session has beside its link.
#[derive(Drop)]
struct Outside {
    clock: Asked,
    pauses: Pauses,
    dial: MemDial,
    room: Room,
}

/// The same of a row.
fn outside_of(alloc: Global, row: &Row) -> Option<Outside> {
    let moments = row.moments.to_vec(alloc).ok()?;
    let fails = row.dial_fails.to_vec(alloc).ok()?;
    let room = Room::new(alloc).ok()?;
    Some(Outside {
        clock: Asked {
            clock: MemClock::new(moments),
            asks: 0,
        },
        pauses: Pauses { count: 0 },
        dial: MemDial::new(Vec::new(alloc), fails),
        room,
    })
}

/// Puts a byte behind others, so often.
fn add_often(bytes: &mut Vec<u8>, byte: u8, times: usize) -> Result<(), AllocError> {
    for _ in 0..times {
        bytes.push(byte)?;
    }
    Ok(())
}

/// Puts what the link of a row gives behind other bytes.
fn add_given(bytes: &mut Vec<u8>, row: &Row) -> Result<(), AllocError> {
    let (byte, times) = row.rest;
    add_words(bytes, row.gives)?;
    add_often(bytes, byte, times)?;
    for (piece, zeros) in row.more {
        add_words(bytes, piece)?;
        add_often(bytes, 0, zeros.saturating_mul(4))?;
    }
    Ok(())
}

/// The link of a row.
fn link_of(alloc: Global, row: &Row) -> Result<MemLink, AllocError> {
    let mut gives = Vec::new(alloc);
    add_given(&mut gives, row)?;
    let fails = row.fails.to_vec(alloc)?;
    Ok(MemLink::new(gives, row.piece.max(1), Vec::new(alloc), fails))
}

/// Serves a link by a gateway of its own, over a bus.
fn serve<R: Wait, B: Bus + Drop>(
    rt: &R,
    alloc: Global,
    bus: Option<B>,
    link: MemLink,
    outside: &mut Outside,
) -> Option<LinkDone<MemLink>>
    requires { IfSome bus (λ b. B.means b ≡ first_means) }
{
    let (gate, pass) = gateway(alloc, bus)?;
    let Outside {
        clock,
        pauses,
        dial,
        room,
    } = outside;
    let (_pass, done) = core_link(rt, alloc, &gate, pass, link, clock, pauses, dial, room);
    Some(done)
}

/// Whether a link was served as its row says, and a count counts one link more.
fn is_so(done: LinkDone<MemLink>, outside: &Outside, row: &Row) -> bool {
    let is_told = *done.how() == row.how
        && are_words(done.link().bytes(), row.took)
        && outside.dial.calls() == Some(row.rang);
    let is_waited = match row.waits {
        Some(waits) => waits == [outside.clock.asks, outside.pauses.count],
        None => true,
    };
    let mut tally = Tally::new();
    let before = tally.number();
    tally.add(done);
    is_told && is_waited && (before, tally.number()) == (0, 1)
}

/// The same of a link that is served now, where there is memory for it.
fn goes_so<R: Wait>(rt: &R, alloc: Global, row: &Row) -> Option<bool> {
    let mut outside = outside_of(alloc, row)?;
    let link = link_of(alloc, row).ok()?;
    let bus = mem_bus(alloc, &[], row.holds, &[]);
    let done = serve(rt, alloc, bus, link, &mut outside)?;
    Some(is_so(done, &outside, row))
}

#[test]
fn links_are_served(rt: HostRuntime) {
    for row in &ROWS {
        assert!(rt; goes_so(&rt, rt.alloc(), row) == Some(true), "{}", row.name);
    }
}
