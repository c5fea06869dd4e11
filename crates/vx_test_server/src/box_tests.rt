//! A bus of a box over a link in memory. The box's replies are composed by hand from their words; the mark of a record stands first.

use crate::word_tools::{link_of, reach_of};
use std::alloc::{AllocError, Global};
use vx_488::{Bus, Move, Stop};
use vx_client::ClientErr;
use vx_io_traits::Reach;
use vx_memory::{MemLink, MemReach};
use vx_upstream::{OpenErr, UpstreamBus};

/// The host `box`, which answers at port 9010 over a link that gives these words, and then those.
pub(crate) fn box_of(
    alloc: Global,
    first: &[u32],
    more: &[u32],
) -> Result<MemReach<MemLink>, AllocError> {
    let link = link_of(alloc, first, more, 64, &[])?;
    reach_of(alloc, "box", link)
}

/// What comes of a bus whose box is looked for at this port of that host.
fn opened<L: Reach + Drop>(alloc: Global, reach: L, port: u16) -> Result<UpstreamBus<L>, OpenErr> {
    match String::from_str(alloc, "box") {
        Ok(host) => UpstreamBus::open(alloc, reach, host, port, b"gpib0", 10),
        Err(_) => Err(OpenErr::NoMemory),
    }
}

/// Link 7, whose writes take 1024 bytes.
const LINK: &[u32] = &[0x80000028, 1, 1, 0, 0, 0, 0, 0, 7, 9012, 1024];

/// The same, and three device_docmd with no error: no data, two bytes, four bytes.
pub(crate) const REST: &[u32] = &[
    0x80000028, 1, 1, 0, 0, 0, 0, 0, 7, 9012, 1024, 0x80000020, 2, 1, 0, 0, 0, 0, 0, 0, 0x80000024,
    3, 1, 0, 0, 0, 0, 0, 2, 0, 0x80000024, 4, 1, 0, 0, 0, 0, 0, 4, 0,
];

/// A port, what the box gives, and why there is no bus.
type Unopened = (u16, &'static [u32], &'static [u32], OpenErr);

// The first call that isn't answered with error 0 says why there is no bus. At last a box that isn't reached.
static UNOPENED: [Unopened; 7] = [
    (9010, &[], &[], OpenErr::NoLink(ClientErr::Closed)),
    (
        9010,
        &[0x80000028, 1, 1, 0, 0, 0, 0, 11, 0, 0, 0],
        &[],
        OpenErr::NoLink(ClientErr::Device(11)),
    ),
    (
        9010,
        LINK,
        &[0x80000020, 2, 1, 0, 0, 0, 0, 8, 0],
        OpenErr::NoClear(ClientErr::Device(8)),
    ),
    (
        9010,
        LINK,
        &[
            0x80000020, 2, 1, 0, 0, 0, 0, 0, 0, 0x80000020, 3, 1, 0, 0, 0, 0, 15, 0,
        ],
        OpenErr::NoRemoteOff(ClientErr::Device(15)),
    ),
    (
        9010,
        LINK,
        &[
            0x80000020, 2, 1, 0, 0, 0, 0, 0, 0, 0x80000020, 3, 1, 0, 0, 0, 0, 0, 0, 0x80000020, 4,
            1, 0, 0, 0, 0, 17, 0,
        ],
        OpenErr::NoAddress(ClientErr::Device(17)),
    ),
    (
        9010,
        LINK,
        &[0x80000020, 2, 1, 0, 0, 0, 0, 0, 0],
        OpenErr::NoRemoteOff(ClientErr::Closed),
    ),
    (9011, REST, &[], OpenErr::NoReach),
];

/// Whether there is no bus, as a row says.
fn is_unopened(alloc: Global, row: &Unopened) -> Result<bool, AllocError> {
    let (port, first, more, error) = *row;
    let reach = box_of(alloc, first, more)?;
    Ok(opened(alloc, reach, port).err() == Some(error))
}

#[test]
fn why_there_is_no_bus(rt: HostRuntime) {
    for (number, row) in UNOPENED.iter().enumerate() {
        let is_so = is_unopened(rt.alloc(), row);
        assert!(rt; is_so == Ok(true), "row {number}");
    }
}

/// What a bus is asked, and what comes of it.
#[derive(Clone, Copy)]
enum Act {
    Command(u8, Move),
    /// To put `ABCDE` with END: so many go, and what the last ask answers.
    Puts(usize, Move),
    /// To get four bytes, up to this one: so many come, and why no more do.
    Gets(Option<u8>, usize, Stop),
    /// The levels of SRQ and NDAC behind this moment.
    Levels(u64, bool, bool),
}

/// Whether a bus answers so.
fn answers<B: Bus>(bus: &mut B, act: Act, room: &mut [u8; 8]) -> bool {
    bus.cut();
    match act {
        Act::Command(b, went) => bus.command(b) == went,
        Act::Puts(moved, last) => {
            let many = bus.put_many(b"ABCDE", true);
            many.moved == moved && many.last == last
        }
        Act::Gets(stop, got, why) => {
            let many = bus.get_many(&mut room[..4], stop);
            many.got == got && many.stop == why
        }
        Act::Levels(now, srq, ndac) => {
            bus.moment(now);
            bus.srq() == srq && bus.ndac() == ndac
        }
    }
}

/// Whether a bus answers all of these so, and what it gets begins with these bytes.
fn answers_all<B: Bus>(bus: &mut B, acts: &[Act], bytes: &[u8]) -> bool {
    let mut room = [0u8; 8];
    let mut all = true;
    for act in acts {
        all &= answers(bus, *act, &mut room);
    }
    all && room.starts_with(bytes)
}

/// What the box gives behind its rest, what a bus is asked by turns, and the front of what it gets.
type Row = (&'static [u32], &'static [Act], &'static [u8]);

// Error 15 is I/O timeout, 17 I/O error. A device_write's reply is its error and size, a device_read's its error, reason, length and
// bytes (2 CHR, 4 END), a device_docmd's its error, length and bytes.
static ROWS: [Row; 23] = [
    (
        &[0x80000024, 5, 1, 0, 0, 0, 0, 0, 1, 0x14000000],
        &[Act::Command(0x14, Move::Went)],
        b"",
    ),
    (
        &[0x80000020, 5, 1, 0, 0, 0, 0, 15, 0],
        &[Act::Command(0x14, Move::Failed)],
        b"",
    ),
    (
        &[0x80000018, 5, 1, 0, 0, 0, 3],
        &[Act::Command(0x14, Move::Failed)],
        b"",
    ),
    (&[], &[Act::Command(0x14, Move::Failed)], b""),
    (
        &[0x80000020, 5, 1, 0, 0, 0, 0, 0, 5],
        &[Act::Puts(5, Move::Went)],
        b"",
    ),
    (
        &[0x80000020, 5, 1, 0, 0, 0, 0, 15, 2],
        &[Act::Puts(2, Move::Held)],
        b"",
    ),
    (
        &[0x80000020, 5, 1, 0, 0, 0, 0, 15, 5],
        &[Act::Puts(5, Move::Went)],
        b"",
    ),
    (
        &[0x80000020, 5, 1, 0, 0, 0, 0, 15, 6],
        &[Act::Puts(4, Move::Failed)],
        b"",
    ),
    (
        &[0x80000020, 5, 1, 0, 0, 0, 0, 17, 3],
        &[Act::Puts(3, Move::Failed)],
        b"",
    ),
    (
        &[0x80000020, 5, 1, 0, 0, 0, 0, 0, 4],
        &[Act::Puts(0, Move::Failed)],
        b"",
    ),
    (&[], &[Act::Puts(0, Move::Failed)], b""),
    (
        &[0x80000028, 5, 1, 0, 0, 0, 0, 0, 4, 2, 0x61620000],
        &[Act::Gets(None, 2, Stop::End)],
        b"ab\0",
    ),
    (
        &[0x80000028, 5, 1, 0, 0, 0, 0, 0, 1, 4, 0x61626364],
        &[Act::Gets(None, 4, Stop::Full)],
        b"abcd\0",
    ),
    (
        &[0x80000028, 5, 1, 0, 0, 0, 0, 15, 0, 2, 0x61620000],
        &[Act::Gets(None, 2, Stop::Held)],
        b"ab\0",
    ),
    (
        &[0x80000024, 5, 1, 0, 0, 0, 0, 15, 0, 0],
        &[Act::Gets(None, 0, Stop::Held)],
        b"\0",
    ),
    (
        &[0x80000028, 5, 1, 0, 0, 0, 0, 17, 0, 1, 0x61000000],
        &[Act::Gets(None, 1, Stop::Failed)],
        b"a\0",
    ),
    (
        &[0x80000024, 5, 1, 0, 0, 0, 0, 0, 4, 0],
        &[Act::Gets(None, 0, Stop::Failed)],
        b"\0",
    ),
    (
        &[0x80000028, 5, 1, 0, 0, 0, 0, 0, 2, 2, 0x61620000],
        &[Act::Gets(Some(0x62), 2, Stop::Char)],
        b"ab\0",
    ),
    (
        &[0x80000028, 5, 1, 0, 0, 0, 0, 0, 2, 3, 0x61626300],
        &[Act::Gets(Some(0x62), 0, Stop::Failed)],
        b"\0",
    ),
    (
        &[0x80000024, 5, 1, 0, 0, 0, 0, 0, 2, 0x00010000],
        &[Act::Levels(10, true, false)],
        b"",
    ),
    (
        &[0x80000024, 5, 1, 0, 0, 0, 0, 0, 2, 0x00010000],
        &[Act::Levels(9, false, false)],
        b"",
    ),
    (
        &[
            0x80000024, 5, 1, 0, 0, 0, 0, 0, 2, 0, 0x80000024, 6, 1, 0, 0, 0, 0, 0, 2, 0x00010000,
        ],
        &[Act::Levels(100, false, true)],
        b"",
    ),
    // A command that fails, one while the bus is away, a moment, and a command. The box answers error 15 to the first, and 0 to interface
    // clear, its address, remote enable, SPD and the last command.
    (
        &[
            0x80000020, 5, 1, 0, 0, 0, 0, 15, 0, 0x80000020, 6, 1, 0, 0, 0, 0, 0, 0, 0x80000024, 7,
            1, 0, 0, 0, 0, 0, 4, 0, 0x80000024, 8, 1, 0, 0, 0, 0, 0, 2, 0, 0x80000024, 9, 1, 0, 0,
            0, 0, 0, 1, 0x19000000, 0x80000024, 10, 1, 0, 0, 0, 0, 0, 1, 0x14000000,
        ],
        &[
            Act::Command(0x14, Move::Failed),
            Act::Command(0x14, Move::Failed),
            Act::Levels(0, false, false),
            Act::Command(0x14, Move::Went),
        ],
        b"",
    ),
];

/// Whether the bus of a box that is reached so answers as it should.
fn answers_over<L: Reach + Drop>(alloc: Global, reach: L, acts: &[Act], bytes: &[u8]) -> bool {
    match opened(alloc, reach, 9010) {
        Ok(mut bus) => answers_all(&mut bus, acts, bytes),
        Err(_) => false,
    }
}

/// Whether a bus answers as a row says.
fn comes_so(alloc: Global, row: &Row) -> Result<bool, AllocError> {
    let (gives, acts, bytes) = *row;
    let reach = box_of(alloc, REST, gives)?;
    Ok(answers_over(alloc, reach, acts, bytes))
}

#[test]
fn what_answers_of_a_box_come_to(rt: HostRuntime) {
    for (number, row) in ROWS.iter().enumerate() {
        let is_so = comes_so(rt.alloc(), row);
        assert!(rt; is_so == Ok(true), "row {number}");
    }
}
