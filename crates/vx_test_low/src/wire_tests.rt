//! Tables of transfers, and of what they mean for the bus.

use crate::row_tools::compare;
use vx_488::*;

/// The bus after these transfers, from its beginning.
fn after(transfers: &[Transfer]) -> Wire {
    let mut wire = Wire::first();
    for transfer in transfers {
        wire.apply(transfer);
    }
    wire
}

/// The bus after these command bytes.
fn commanded(mut wire: Wire, bytes: &[u8]) -> Wire {
    for b in bytes {
        wire.apply(&Transfer::Cmd(*b));
    }
    wire
}

/// Whether this address listens just where the list has it.
fn is_as_listed(wire: &Wire, listed: &[Addr], a: Addr) -> bool {
    wire.listeners.has(a) == listed.contains(&a)
}

/// Whether the addresses at this primary listen just where the list has them.
fn are_as_listed(wire: &Wire, listed: &[Addr], p: u8) -> bool {
    is_as_listed(wire, listed, Addr { p, s: None })
        && (0..31).all(|s| is_as_listed(wire, listed, Addr { p, s: Some(s) }))
}

/// Whether these addresses listen, and no other of the bus.
fn listen_alone(wire: &Wire, listed: &[Addr]) -> bool {
    (0..31).all(|p| are_as_listed(wire, listed, p))
}

// The command bytes of IEEE 488.1; the eighth bit doesn't count.
static COMMAND_BYTES: [(u8, Command); 24] = [
    (0x00, Command::OtherPrimary),
    (0x01, Command::GoToLocal),
    (0x04, Command::SelectedClear),
    (0x05, Command::OtherPrimary),
    (0x08, Command::Trigger),
    (0x09, Command::TakeControl),
    (0x11, Command::LocalLockout),
    (0x14, Command::DeviceClear),
    (0x18, Command::PollEnable),
    (0x19, Command::PollDisable),
    (0x1F, Command::OtherPrimary),
    (0x20, Command::Listen(0)),
    (0x25, Command::Listen(5)),
    (0x3E, Command::Listen(30)),
    (0x3F, Command::Unlisten),
    (0x40, Command::Talk(0)),
    (0x5E, Command::Talk(30)),
    (0x5F, Command::Untalk),
    (0x60, Command::Secondary(0)),
    (0x7E, Command::Secondary(30)),
    (0x7F, Command::NoMeaning),
    (0x84, Command::SelectedClear),
    (0xA5, Command::Listen(5)),
    (0xFF, Command::NoMeaning),
];

#[test]
fn command_bytes(rt: HostRuntime) {
    for (row, (b, means)) in COMMAND_BYTES.iter().enumerate() {
        compare(&rt, row, &command_of(*b), means);
    }
}

/// What transfers mean for the addresses.
struct Addressed {
    sent: &'static [Transfer],
    listeners: &'static [Addr],
    talker: Option<Addr>,
}

const FOUR: Addr = Addr { p: 4, s: None };

const FIVE: Addr = Addr { p: 5, s: None };

const FIVE_ONE: Addr = Addr { p: 5, s: Some(1) };

const FIVE_TWO: Addr = Addr { p: 5, s: Some(2) };

const MLA_1: Transfer = Transfer::Cmd(0x21);

const MLA_5: Transfer = Transfer::Cmd(0x25);

const MTA_5: Transfer = Transfer::Cmd(0x45);

const MSA_1: Transfer = Transfer::Cmd(0x61);

const MSA_2: Transfer = Transfer::Cmd(0x62);

// Secondary addresses take the place of their primary, and gather at a listener.
static ADDRESSED: [Addressed; 9] = [
    Addressed {
        sent: &[MLA_5],
        listeners: &[FIVE],
        talker: None,
    },
    Addressed {
        sent: &[MLA_5, MSA_1, MSA_2],
        listeners: &[FIVE_ONE, FIVE_TWO],
        talker: None,
    },
    Addressed {
        sent: &[MLA_5, Transfer::Cmd(0x7F), MSA_1],
        listeners: &[FIVE_ONE],
        talker: None,
    },
    Addressed {
        sent: &[MTA_5, MSA_1, MSA_2],
        listeners: &[],
        talker: Some(FIVE_TWO),
    },
    Addressed {
        sent: &[MSA_1],
        listeners: &[],
        talker: None,
    },
    Addressed {
        sent: &[MLA_5, Transfer::Cmd(0x3F), MSA_1],
        listeners: &[],
        talker: None,
    },
    Addressed {
        sent: &[MLA_5, Transfer::Cmd(0x14), MSA_1],
        listeners: &[FIVE],
        talker: None,
    },
    Addressed {
        sent: &[Transfer::Cmd(0x3E), Transfer::Cmd(0x7E), MLA_1],
        listeners: &[Addr { p: 1, s: None }, Addr { p: 30, s: Some(30) }],
        talker: None,
    },
    Addressed {
        sent: &[MLA_5, MSA_1, Transfer::Put { b: 0x41, end: true }, MSA_2],
        listeners: &[FIVE_ONE, FIVE_TWO],
        talker: None,
    },
];

#[test]
fn secondary_addresses(rt: HostRuntime) {
    for (row, wanted) in ADDRESSED.iter().enumerate() {
        let wire = after(wanted.sent);
        let found = (listen_alone(&wire, wanted.listeners), wire.talker);
        compare(&rt, row, &found, &(true, wanted.talker));
    }
}

// What follows MLA 5, beside the primary address that a secondary one would belong to then.
static PENDING: [(Transfer, Pending); 15] = [
    (Transfer::Cmd(0x01), Pending::Nothing),
    (Transfer::Cmd(0x11), Pending::Nothing),
    (Transfer::Cmd(0x14), Pending::Nothing),
    (Transfer::Cmd(0x18), Pending::Nothing),
    (Transfer::Cmd(0x3F), Pending::Nothing),
    (Transfer::Cmd(0x46), Pending::Talk(6)),
    (Transfer::Cmd(0x5F), Pending::Nothing),
    (Transfer::Cmd(0x61), Pending::Listen(5)),
    (Transfer::Cmd(0x7F), Pending::Listen(5)),
    (
        Transfer::Put {
            b: 0x41,
            end: false,
        },
        Pending::Listen(5),
    ),
    (Transfer::Got { b: 0x41, end: true }, Pending::Listen(5)),
    (Transfer::Ren(true), Pending::Listen(5)),
    (Transfer::Atn(false), Pending::Listen(5)),
    (Transfer::Own(7), Pending::Listen(5)),
    (Transfer::Ifc, Pending::Nothing),
];

#[test]
fn pending_primary(rt: HostRuntime) {
    for (row, (transfer, pending)) in PENDING.iter().enumerate() {
        compare(&rt, row, &after(&[MLA_5, *transfer]).pending, pending);
    }
}

// Own address and commands, beside whether the gateway is in charge after them.
static CONTROL: [(u8, &[u8], bool); 6] = [
    (3, &[0x09], true),
    (3, &[0x43, 0x09], true),
    (3, &[0x43, 0x61, 0x09], true),
    (3, &[0x44, 0x09], false),
    (3, &[0x44, 0x09, 0x43, 0x09], false),
    (3, &[0x44, 0x5F, 0x09], true),
];

#[test]
fn control(rt: HostRuntime) {
    for (row, (own, bytes, in_charge)) in CONTROL.iter().enumerate() {
        let wire = commanded(after(&[Transfer::Own(*own)]), bytes);
        compare(&rt, row, &wire.incharge, in_charge);
    }
}

// Interface clear takes all back but REN and the own address.
#[test]
fn interface_clear(rt: HostRuntime) {
    let remote = after(&[Transfer::Own(3), Transfer::Ren(true)]);
    let mut wire = commanded(remote, &[0x18, 0x44, 0x25, 0x09, 0x26]);
    let before = [wire.polling, wire.incharge, wire.listeners.is_empty()];
    wire.apply(&Transfer::Ifc);
    let behind = [wire.polling, wire.incharge, wire.listeners.is_empty()];
    let kept = (wire.talker, wire.pending, wire.ren, wire.own);
    compare(
        &rt,
        0,
        &(before, behind, kept),
        &(
            [true, false, false],
            [false, true, true],
            (None, Pending::Nothing, true, 3),
        ),
    );
}

// Data bytes and ATN change nothing, and Own the own address alone.
static KEPT: [(Transfer, u8); 6] = [
    (Transfer::Put { b: 0x3F, end: true }, 3),
    (Transfer::Got { b: 0x3F, end: true }, 3),
    (Transfer::Atn(true), 3),
    (Transfer::Atn(false), 3),
    (Transfer::Cmd(0x7F), 3),
    (Transfer::Own(4), 4),
];

#[test]
fn kept(rt: HostRuntime) {
    for (row, (transfer, own)) in KEPT.iter().enumerate() {
        let remote = after(&[Transfer::Own(3), Transfer::Ren(true)]);
        let mut wire = commanded(remote, &[0x18, 0x44, 0x25]);
        wire.apply(transfer);
        let flags = [wire.ren, wire.incharge, wire.polling];
        let addresses = (listen_alone(&wire, &[FIVE]), wire.talker, wire.pending);
        compare(
            &rt,
            row,
            &(flags, addresses, wire.own),
            &([true; 3], (true, Some(FOUR), Pending::Listen(5)), *own),
        );
    }
}

// Whether the gateway itself, at address 0, talks and listens.
static OWN_ROLES: [(&[u8], bool, bool); 6] = [
    (&[], false, false),
    (&[0x20], false, true),
    (&[0x40], true, false),
    (&[0x40, 0x61, 0x20, 0x61], false, false),
    (&[0x41, 0x21], false, false),
    (&[0x40, 0x20, 0x25], true, true),
];

#[test]
fn own_roles(rt: HostRuntime) {
    for (row, (bytes, talks, listens)) in OWN_ROLES.iter().enumerate() {
        let wire = commanded(Wire::first(), bytes);
        let found = (wire.is_talker(), wire.is_listener());
        compare(&rt, row, &found, &(*talks, *listens));
    }
}

// Addresses with a part above 30 never listen.
static LISTENED: [(Addr, bool); 5] = [
    (Addr { p: 31, s: None }, false),
    (Addr { p: 31, s: Some(0) }, false),
    (Addr { p: 0, s: Some(31) }, false),
    (
        Addr {
            p: 255,
            s: Some(255),
        },
        false,
    ),
    (Addr { p: 30, s: Some(30) }, true),
];

// Whether an address that is added listens, and some address does, and whether one does once it is removed.
#[test]
fn outside_the_bus(rt: HostRuntime) {
    for (row, (a, listens)) in LISTENED.iter().enumerate() {
        let mut listeners = Listeners::none();
        listeners.add(*a);
        let added = [listeners.has(*a), !listeners.is_empty()];
        listeners.remove(*a);
        let removed = [listeners.has(*a), !listeners.is_empty()];
        compare(&rt, row, &(added, removed), &([*listens; 2], [false; 2]));
    }
}
