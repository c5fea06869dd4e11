//! A table of names for devices, and sessions at a desk with names, each by a gateway of its own. The records are those of RFC 5531,
//! sections 9 and 11, and of VXI-11.
ghost use Rattle.std.specs.Prelude.{◌≡◌, IfSome};
ghost use Rattle.vx_488.specs.Means.{first_means};

use crate::desk_tools::serve_at_desk;
use crate::gateway_tools::{gateway, mem_bus};
use crate::guard_tools::{CREATE_AND_WRITE, WRITTEN};
use crate::record_tools::{are_words, words};
use std::alloc::Global;
use std::sync::Wait;
use vx_488::Bus;
use vx_calls::Role;
use vx_core::Core;
use vx_desks::{NameRefused, NameTable, Named};
use vx_gate::{Pass, Turns};
use vx_memory::MemLink;
use vx_session::{End, Linked, NoTools, OneBus, Room, Worker};

/// A name, and the device text that it is to stand for.
pub(crate) type Pair = (&'static [u8], &'static [u8]);

const LONGEST: &[u8] = &[0x67; 255];

const TOO_LONG: &[u8] = &[0x67; 256];

// Names and their device texts, and why each is refused as they are added in this order.
static ADDED: [(&[u8], &[u8], Option<NameRefused>); 8] = [
    (b"inst0", b"gpib0,5", None),
    (b"inst0", b"gpib0,6", Some(NameRefused::Known)),
    (b"inst1", b"inst0", None),
    (b"inst2", LONGEST, None),
    (LONGEST, b"gpib0", None),
    (TOO_LONG, b"gpib0", Some(NameRefused::TooLong)),
    (b"inst0", TOO_LONG, Some(NameRefused::TooLong)),
    (b"", b"gpib0,7", None),
];

// Texts that give a name, and why each is refused as they are added behind those.
static GIVEN: [(&[u8], Option<NameRefused>); 5] = [
    (b"scope=gpib0,9", None),
    (b"x=y=z", None),
    (b"scope", Some(NameRefused::Form)),
    (b"", Some(NameRefused::Form)),
    (b"inst0=gpib0,9", Some(NameRefused::Known)),
];

// Texts, and what each stands for then.
static STANDS: [Pair; 10] = [
    (b"inst0", b"gpib0,5"),
    (b"inst1", b"inst0"),
    (b"inst2", LONGEST),
    (LONGEST, b"gpib0"),
    (TOO_LONG, TOO_LONG),
    (b"", b"gpib0,7"),
    (b"INST0", b"INST0"),
    (b"scope", b"gpib0,9"),
    (b"x", b"y=z"),
    (b"gpib0,5", b"gpib0,5"),
];

/// Whether each name is added as its row says, and each text stands for what it should then.
fn are_added(names: &mut NameTable) -> bool {
    let mut all = true;
    for (name, device, refused) in &ADDED {
        all &= names.add(name, device).err() == *refused;
    }
    for (text, refused) in &GIVEN {
        all &= names.add_text(text).err() == *refused;
    }
    for (text, device) in &STANDS {
        all &= names.device_of(text) == *device;
    }
    all
}

/// The same of a table of their own.
fn are_added_anew(alloc: Global) -> Option<bool> {
    let mut names = NameTable::new(alloc).ok()?;
    Some(are_added(&mut names))
}

#[test]
fn names_are_added(rt: HostRuntime) {
    assert!(rt; are_added_anew(rt.alloc()) == Some(true));
}

// 65 names of one byte
const SHORT: &[u8] = b"ABCDEFGHIJKLMNOPQRSTUVWXYZabcdefghijklmnopqrstuvwxyz0123456789+-/";

/// How many names of one byte have a place in a table, and why one more is refused, and one that it has.
fn fill(names: &mut NameTable) -> (usize, [Option<NameRefused>; 2]) {
    let mut added = 0usize;
    for byte in SHORT {
        added = added.saturating_add(usize::from(names.add(&[*byte], b"gpib0").is_ok()));
    }
    let more = names.add(b"!", b"gpib0").err();
    let again = names.add(b"A", b"gpib0").err();
    (added, [more, again])
}

/// The same of a table of their own.
fn fill_anew(alloc: Global) -> Option<(usize, [Option<NameRefused>; 2])> {
    let mut names = NameTable::new(alloc).ok()?;
    Some(fill(&mut names))
}

#[test]
fn a_table_is_full(rt: HostRuntime) {
    let full = [Some(NameRefused::TooMany), Some(NameRefused::Known)];
    assert!(rt; fill_anew(rt.alloc()) == Some((64, full)));
}

/// A table of names, what a link gives, and what it takes.
#[derive(Clone, Copy)]
struct Row {
    name: &'static str,
    names: &'static [Pair],
    gives: &'static [u32],
    took: &'static [u32],
}

/// A create_link: xid 1, client 42, no lock, the device `inst0`; and a device_write: xid 2, link 1, the byte `A` with END.
pub(crate) const BY_NAME: [u32; 34] = [
    0x80000040, 1, 0, 2, 0x0607AF, 1, 10, 0, 0, 0, 0, 42, 0, 0, 5, 0x696E7374, 0x30000000,
    0x80000040, 2, 0, 2, 0x0607AF, 1, 11, 0, 0, 0, 0, 1, 10000, 0, 8, 1, 0x41000000,
];

/// The replies where the device isn't accessible (error 3), and the link isn't there (error 4).
const NO_DEVICE: [u32; 20] = [
    0x80000028, 1, 1, 0, 0, 0, 0, 3, 0, 0, 0, 0x80000020, 2, 1, 0, 0, 0, 0, 4, 0,
];

/// The replies where the device has no address (error 21), and the link isn't there.
const NO_ADDRESS: [u32; 20] = [
    0x80000028, 1, 1, 0, 0, 0, 0, 21, 0, 0, 0, 0x80000020, 2, 1, 0, 0, 0, 0, 4, 0,
];

pub(crate) const INST0: &[Pair] = &[(b"inst0", b"gpib0,5")];

const INST0_LAST: &[Pair] = &[(b"inst1", b"gpib0,31"), (b"inst0", b"gpib0,5")];

const INST0_TWICE: &[Pair] = &[(b"inst0", b"inst1"), (b"inst1", b"gpib0,5")];

const INST0_NOWHERE: &[Pair] = &[(b"inst0", b"gpib0,31")];

static ROWS: [Row; 6] = [
    Row {
        name: "a name",
        names: INST0,
        gives: &BY_NAME,
        took: &WRITTEN,
    },
    Row {
        name: "a device text beside a name",
        names: INST0,
        gives: &CREATE_AND_WRITE,
        took: &WRITTEN,
    },
    Row {
        name: "no name in a table",
        names: &[],
        gives: &BY_NAME,
        took: &NO_DEVICE,
    },
    Row {
        name: "the second name",
        names: INST0_LAST,
        gives: &BY_NAME,
        took: &WRITTEN,
    },
    Row {
        name: "a name of a name",
        names: INST0_TWICE,
        gives: &BY_NAME,
        took: &NO_DEVICE,
    },
    Row {
        name: "a name of no device",
        names: INST0_NOWHERE,
        gives: &BY_NAME,
        took: &NO_ADDRESS,
    },
];

/// Adds names to a table, and answers whether each was.
fn add_all(names: &mut NameTable, pairs: &[Pair]) -> bool {
    let mut all = true;
    for (name, device) in pairs {
        all &= names.add(name, device).is_ok();
    }
    all
}

/// A table of these names.
pub(crate) fn table_of(alloc: Global, pairs: &[Pair]) -> Option<NameTable> {
    let mut names = NameTable::new(alloc).ok()?;
    let is_whole = add_all(&mut names, pairs);
    is_whole.then_some(names)
}

/// Serves a link at a desk with these names.
fn serve_at<R: Wait, B: Bus, T: Turns<Core<B>>>(
    rt: &R,
    alloc: Global,
    turns: &T,
    pass: Pass<Core<B>>,
    names: &NameTable,
    room: &mut Room,
    link: &mut MemLink,
) -> Linked
    requires { pass.gate ≡ T.gate turns.now }
{
    let mut held = Some(pass);
    let desk = OneBus {
        worker: Worker {
            rt,
            turns,
            conn: 0,
            role: Role::Core,
        },
        held: &mut held,
        clock: &mut NoTools::new(),
        pause: &mut NoTools::new(),
        dial: &mut NoTools::new(),
    };
    serve_at_desk(rt, alloc, Named { desk, names }, link, room)
}

/// The same at a gateway of its own, over a bus.
fn serve<R: Wait, B: Bus + Drop>(
    rt: &R,
    alloc: Global,
    bus: Option<B>,
    names: &NameTable,
    room: &mut Room,
    link: &mut MemLink,
) -> Option<Linked>
    requires { IfSome bus (λ b. B.means b ≡ first_means) }
{
    let (gate, pass) = gateway(alloc, bus)?;
    Some(serve_at(rt, alloc, &gate, pass, names, room, link))
}

/// Serves the link of a row: how it ends, where there is a bus, and whether it takes what it should.
fn goes<R: Wait>(rt: &R, alloc: Global, row: &Row) -> Option<(Option<Linked>, bool)> {
    let gives = words(alloc, row.gives, &[]).ok()?;
    let names = table_of(alloc, row.names)?;
    let mut room = Room::new(alloc).ok()?;
    let mut link = MemLink::new(gives, 4096, Vec::new(alloc), Vec::new(alloc));
    let bus = mem_bus(alloc, &[], &[], &[]);
    let how = serve(rt, alloc, bus, &names, &mut room, &mut link);
    Some((how, are_words(link.bytes(), row.took)))
}

#[test]
fn sessions_at_a_desk_with_names(rt: HostRuntime) {
    let closed = Some(Linked::Ended(End::Closed));
    for row in &ROWS {
        let came = goes(&rt, rt.alloc(), row);
        assert!(rt; came == Some((closed, true)), "{}", row.name);
    }
}
