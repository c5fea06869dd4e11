//! Links of a lab that has names for its devices and, where a row has some, access rules; each by a gateway of its own. The records are
//! those of RFC 5531, sections 9 and 11, and of VXI-11.
ghost use Rattle.std.specs.Prelude.{◌≡◌, IfSome};
ghost use Rattle.vx_488.specs.Means.{first_means};

use crate::gateway_tools::{gateway, mem_bus};
use crate::guard_tools::{BOTH_DENIED, DENIED, WRITTEN};
use crate::names_tests::{BY_NAME, INST0, table_of};
use crate::record_tools::{are_words, words};
use std::alloc::Global;
use std::sync::Wait;
use vx_488::Bus;
use vx_core::Core;
use vx_desks::{Gateway, GuardRoom, Kit, Lab, lab_link};
use vx_gate::{Pass, Turns};
use vx_memory::{MemLink, MemSink};
use vx_policy::{NameTable, Policy};
use vx_session::{End, Linked, NoTools};

/// Rules, the address of a peer, which writes to the note fail, how its link ends and whether by the note, what it takes, and the note. It
/// creates a link to `inst0`, which is the device at address 5, and writes to it.
#[derive(Clone, Copy)]
struct Row {
    name: &'static str,
    rules: Option<&'static [u8]>,
    peer: u32,
    note_fails: &'static [u64],
    how: Linked,
    noted: bool,
    took: &'static [u32],
    note: &'static [u8],
}

const PLAIN: Row = Row {
    name: "no rules",
    rules: None,
    peer: 0x0A010203,
    note_fails: &[],
    how: Linked::Ended(End::Closed),
    noted: true,
    took: &WRITTEN,
    note: b"",
};

static ROWS: [Row; 5] = [
    PLAIN,
    Row {
        name: "a write to a named device that a rule denies",
        rules: Some(b"deny * write 5\nallow 10.0.0.0/8 * *"),
        took: &DENIED,
        note: b"deny 1 1\n",
        ..PLAIN
    },
    Row {
        name: "a named device that a rule allows",
        rules: Some(b"allow 10.1.2.3/32 * 5"),
        ..PLAIN
    },
    Row {
        name: "another peer than the one that a rule allows",
        rules: Some(b"allow 10.1.2.3/32 * 5"),
        peer: 0x0A010204,
        took: &BOTH_DENIED,
        note: b"deny 1 0\ndeny 1 0\n",
        ..PLAIN
    },
    Row {
        name: "a note whose first write fails",
        rules: Some(b""),
        note_fails: &[1],
        how: Linked::Ended(End::Junk { length: 64 }),
        noted: false,
        took: &[],
        ..PLAIN
    },
];

/// The policy of these rules, where there are some, and where they are a policy.
fn policy_of(alloc: Global, rules: Option<&[u8]>) -> Option<Option<Policy>> {
    match rules {
        None => Some(None),
        Some(text) if text.len() > 1_048_576 => None,
        Some(text) => Some(Some(Policy::from_text(alloc, text).ok()?)),
    }
}

/// What the lab of a row wrote down.
#[derive(Drop)]
struct Book {
    names: NameTable,
    policy: Option<Policy>,
}

/// The same, where there is memory for it.
fn book_of(alloc: Global, row: &Row) -> Option<Book> {
    let names = table_of(alloc, INST0)?;
    let policy = policy_of(alloc, row.rules)?;
    Some(Book { names, policy })
}

/// Serves a link of this peer, and answers how it ended, whether nothing that had to be noted failed, and whether it took these words.
fn serve_at<R: Wait, B: Bus, T: Turns<Core<B>>>(
    gateway: &Gateway<'_, R, T>,
    pass: Pass<Core<B>>,
    lab: Lab<'_>,
    row: &Row,
    link: MemLink,
    room: GuardRoom,
    note: &mut MemSink,
) -> (Linked, bool, bool)
    requires { pass.gate ≡ T.gate gateway.now.turns.now }
{
    let mut kit = Kit {
        clock: NoTools::new(),
        pause: NoTools::new(),
        dial: NoTools::new(),
        room,
    };
    let (_pass, done, failed) = lab_link(gateway, pass, lab, row.peer, link, &mut kit, note);
    (
        *done.how(),
        !failed,
        are_words(done.link().bytes(), row.took),
    )
}

/// The same at a gateway of its own, over a bus.
fn serve<R: Wait, B: Bus + Drop>(
    rt: &R,
    alloc: Global,
    bus: Option<B>,
    book: &Book,
    row: &Row,
    note: &mut MemSink,
) -> Option<(Linked, bool, bool)>
    requires { IfSome bus (λ b. B.means b ≡ first_means) }
{
    let gives = words(alloc, &BY_NAME, &[]).ok()?;
    let room = GuardRoom::new(alloc).ok()?;
    let (gate, pass) = gateway(alloc, bus)?;
    let link = MemLink::new(gives, 4096, Vec::new(alloc), Vec::new(alloc));
    let gateway = Gateway {
        rt,
        alloc,
        turns: &gate,
    };
    let lab = Lab {
        names: &book.names,
        policy: book.policy.as_ref(),
    };
    Some(serve_at(&gateway, pass, lab, row, link, room, note))
}

/// Serves the link of a row, and answers whether it went as the row says.
fn went<R: Wait>(rt: &R, alloc: Global, row: &Row) -> Option<bool> {
    let book = book_of(alloc, row)?;
    let fails = row.note_fails.to_vec(alloc).ok()?;
    let mut note = MemSink::new(Vec::new(alloc), fails);
    let bus = mem_bus(alloc, &[], &[], &[]);
    let came = serve(rt, alloc, bus, &book, row, &mut note)?;
    Some(came == (row.how, row.noted, true) && note.bytes() == row.note)
}

#[test]
fn links_of_a_lab(rt: HostRuntime) {
    for row in &ROWS {
        assert!(rt; went(&rt, rt.alloc(), row) == Some(true), "{}", row.name);
    }
}
