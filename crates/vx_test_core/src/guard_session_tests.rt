//! Sessions that are guarded by rules, each by a gateway of its own. The records are those of RFC 5531, sections 9 and 11, and of VXI-11.
ghost use Rattle.std.specs.Prelude.{◌≡◌, IfSome};
ghost use Rattle.vx_488.specs.Means.{first_means};

use crate::gateway_tools::{gateway, mem_bus};
use crate::guard_tools::{BOTH_DENIED, CREATE_AND_WRITE, CREATED, DENIED, WRITTEN};
use crate::record_tools::{are_words, words};
use std::alloc::Global;
use std::sync::Wait;
use vx_488::Bus;
use vx_calls::Role;
use vx_core::Core;
use vx_door::{Door, Met};
use vx_gate::{Pass, Turns};
use vx_guard::{GuardEnd, GuardRoom, guarded_session};
use vx_memory::{MemDoor, MemSink};
use vx_policy::Policy;
use vx_session::{End, NoTools, join};

/// Rules, what a peer of 127.0.0.1 sends, which writes to the note fail, how its session ends, what it is sent, and the note.
#[derive(Clone, Copy)]
struct Row {
    name: &'static str,
    rules: &'static [u8],
    gives: &'static [u32],
    note_fails: &'static [u64],
    how: GuardEnd,
    took: &'static [u32],
    note: &'static [u8],
}

const RULES: &[u8] = b"deny * write 5\nallow 127.0.0.0/8 * *";

const PLAIN: Row = Row {
    name: "a write that a rule denies",
    rules: RULES,
    gives: &CREATE_AND_WRITE,
    note_fails: &[],
    how: GuardEnd::Ended(End::Closed),
    took: &DENIED,
    note: b"deny 1 1\n",
};

static ROWS: [Row; 6] = [
    PLAIN,
    Row {
        name: "a note whose first write fails",
        note_fails: &[1],
        how: GuardEnd::NoteFault,
        took: &CREATED,
        note: b"",
        ..PLAIN
    },
    Row {
        name: "a write that a rule allows",
        rules: b"allow 127.0.0.1/32 * *",
        took: &WRITTEN,
        note: b"",
        ..PLAIN
    },
    Row {
        name: "a create_link that no rule allows, and a link that isn't known",
        rules: b"allow 127.0.0.0/8 * 6\nallow 10.0.0.0/8 * *",
        took: &BOTH_DENIED,
        note: b"deny 1 0\ndeny 1 0\n",
        ..PLAIN
    },
    // a destroyed link is no longer known: only a rule for all targets matches
    Row {
        name: "a destroy_link twice",
        rules: b"allow * * 5",
        gives: &[
            0x80000040, 1, 0, 2, 0x0607AF, 1, 10, 0, 0, 0, 0, 42, 0, 0, 7, 0x67706962, 0x302C3500,
            0x8000002C, 3, 0, 2, 0x0607AF, 1, 23, 0, 0, 0, 0, 1, 0x8000002C, 4, 0, 2, 0x0607AF, 1,
            23, 0, 0, 0, 0, 1,
        ],
        took: &[
            0x80000028, 1, 1, 0, 0, 0, 0, 0, 1, 9011, 262144, 0x8000001C, 3, 1, 0, 0, 0, 0, 0,
            0x8000001C, 4, 1, 0, 0, 0, 0, 3,
        ],
        note: b"deny 1 0\n",
        ..PLAIN
    },
    // the null procedure isn't judged
    Row {
        name: "a null call without a rule",
        rules: b"",
        gives: &[0x80000028, 7, 0, 2, 0x0607AF, 1, 0, 0, 0, 0, 0],
        took: &[0x80000018, 7, 1, 0, 0, 0, 0],
        note: b"",
        ..PLAIN
    },
];

/// A door that met a peer which gives these words.
fn met(alloc: Global, gives: &[u32]) -> Option<MemDoor> {
    let mut peers = Vec::new(alloc);
    peers.push(words(alloc, gives, &[]).ok()?).ok()?;
    let mut door = MemDoor::new(alloc, peers, Vec::new(alloc)).ok()?;
    match door.next() {
        Met::Peer => Some(door),
        _ => None,
    }
}

/// The policy of a row's rules.
fn policy_of(alloc: Global, rules: &[u8]) -> Option<Policy> {
    if rules.len() > 1_048_576 {
        return None;
    }
    Policy::from_text(alloc, rules).ok()
}

/// What a session has outside: the door that met its peer, its room, and the note.
#[derive(Drop)]
struct Outside {
    door: MemDoor,
    room: GuardRoom,
    note: MemSink,
}

/// The same of a row.
fn outside_of(alloc: Global, row: &Row) -> Option<Outside> {
    let fails = row.note_fails.to_vec(alloc).ok()?;
    let door = met(alloc, row.gives)?;
    let room = GuardRoom::new(alloc).ok()?;
    let note = MemSink::new(Vec::new(alloc), fails);
    Some(Outside { door, room, note })
}

/// Has the session of a peer on a connection of this pass, and answers how it ended.
fn serve_at<R: Wait, B: Bus, T: Turns<Core<B>>>(
    rt: &R,
    alloc: Global,
    turns: &T,
    pass: Pass<Core<B>>,
    policy: &Policy,
    outside: &mut Outside,
) -> Option<GuardEnd>
    requires gate { pass.gate ≡ T.gate turns.now }
{
    let (pass, joined) = join(rt, alloc, turns, pass, Role::Core);
    let Ok(conn) = joined else {
        return None;
    };
    let Outside { door, room, note } = outside;
    let mut clock = NoTools::new();
    let mut pause = NoTools::new();
    let mut dial = NoTools::new();
    let (_pass, how) = guarded_session(
        rt, turns, pass, conn, policy, door, &mut clock, &mut pause, &mut dial, room, note,
    );
    Some(how)
}

/// The same at a gateway of its own, over a bus.
fn serve<R: Wait, B: Bus + Drop>(
    rt: &R,
    alloc: Global,
    bus: Option<B>,
    policy: &Policy,
    outside: &mut Outside,
) -> Option<GuardEnd>
    requires { IfSome bus (λ b. B.means b ≡ first_means) }
{
    let (gate, pass) = gateway(alloc, bus)?;
    serve_at(rt, alloc, &gate, pass, policy, outside)
}

/// Has the session of a row, and answers whether it went as the row says.
fn went<R: Wait>(rt: &R, alloc: Global, row: &Row) -> Option<bool> {
    let policy = policy_of(alloc, row.rules)?;
    let mut outside = outside_of(alloc, row)?;
    let bus = mem_bus(alloc, &[], &[], &[]);
    let how = serve(rt, alloc, bus, &policy, &mut outside);
    let took = are_words(outside.door.sent(0).unwrap_or(&[0]), row.took);
    Some(how == Some(row.how) && took && outside.note.bytes() == row.note)
}

#[test]
fn sessions(rt: HostRuntime) {
    for row in &ROWS {
        assert!(rt; went(&rt, rt.alloc(), row) == Some(true), "{}", row.name);
    }
}
