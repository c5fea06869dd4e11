//! A gateway by itself, over a bus in memory: calls of one transfer to many. A poll makes 256 of them at most, and the next one goes
//! on. The list of a write or a read of a device has three commands (UNL, and the two addresses), and then one transfer a byte (IEEE
//! 488.1).
ghost use Rattle.std.specs.Prelude.{◌≡◌, true, IfSome};
ghost use Rattle.vx_488.specs.Means.{first_means};
ghost use Rattle.vx_calls.specs.Call.{call_shown};
ghost use Rattle.vx_rules.specs.AtomicStep.{may_wait};
ghost use Rattle.vx_rules.specs.Calls.{IsShort};

use crate::gateway_tools::{core_over, mem_bus};
use std::alloc::{AllocError, Global};
use vx_488::{Bus, Transfer};
use vx_calls::{CallRef, DEVICE_MAX, ErrorCode, ReplyRef, Role};
use vx_core::{Core, Polled, Why};

/// What comes of a poll: a reply with this error, and with the size of a write, the reason of a read, or else 0; or why there is none.
/// It is neither where no call is pending, and where a reply has other bytes than are wanted.
type Came = Result<(ErrorCode, u32), Option<Why>>;

/// How many polls had a full slice, one each second; how many transfers the next one made; and what came of it.
type Polls = (u64, usize, Came);

/// A call on device 5, what its bus does, and what is to come of its polls.
#[derive(Clone, Copy)]
struct Row {
    name: &'static str,
    /// How many bytes it reads at most, and else it is a write with END.
    reads: Option<u32>,
    /// How many bytes it writes, or the bus gives, with END on the last: 65, 66 and so on.
    len: usize,
    io_timeout: u32,
    /// Which moving calls of the bus are held, and which fail.
    holds: &'static [u64],
    fails: &'static [u64],
    wanted: Polls,
    /// The transfers of the last poll, where they are few.
    made: Option<&'static [Transfer]>,
}

/// A write of 300 bytes that has a second, on a bus that neither holds nor fails.
const PLAIN: Row = Row {
    name: "a write of 303 transfers",
    reads: None,
    len: 300,
    io_timeout: 1000,
    holds: &[],
    fails: &[],
    wanted: (1, 47, Ok((ErrorCode::Ok, 300))),
    made: None,
};

static ROWS: [Row; 15] = [
    PLAIN,
    Row {
        name: "the longest write, of 262,147 transfers",
        len: 262_144,
        wanted: (1024, 3, Ok((ErrorCode::Ok, 262_144))),
        ..PLAIN
    },
    Row {
        name: "a write of 256 transfers",
        len: 253,
        wanted: (0, 256, Ok((ErrorCode::Ok, 253))),
        ..PLAIN
    },
    Row {
        name: "a write of 257 transfers",
        len: 254,
        wanted: (1, 1, Ok((ErrorCode::Ok, 254))),
        ..PLAIN
    },
    Row {
        name: "a write of 512 transfers",
        len: 509,
        wanted: (1, 256, Ok((ErrorCode::Ok, 509))),
        ..PLAIN
    },
    // no time ends a poll whose slice is full
    Row {
        name: "a write that has no time",
        io_timeout: 0,
        ..PLAIN
    },
    // and each ends one that the bus holds, before the slice is full and behind it
    Row {
        name: "a write that has no time, held at transfer 256",
        io_timeout: 0,
        holds: &[256],
        wanted: (0, 255, Ok((ErrorCode::Timeout, 252))),
        ..PLAIN
    },
    Row {
        name: "a write that has no time, held at transfer 257",
        io_timeout: 0,
        holds: &[257],
        wanted: (1, 0, Ok((ErrorCode::Timeout, 253))),
        ..PLAIN
    },
    Row {
        name: "a write that has two seconds, held at transfer 257",
        io_timeout: 2000,
        holds: &[257],
        wanted: (1, 0, Err(Some(Why::Held))),
        ..PLAIN
    },
    Row {
        name: "a write that fails at transfer 257",
        fails: &[257],
        wanted: (1, 0, Ok((ErrorCode::BusFault, 253))),
        ..PLAIN
    },
    // the transfer before it stays made
    Row {
        name: "a write that fails at its second transfer",
        len: 1,
        fails: &[2],
        wanted: (0, 1, Ok((ErrorCode::BusFault, 0))),
        made: Some(&[Transfer::Cmd(0x3F)]),
        ..PLAIN
    },
    Row {
        name: "a read of 256 transfers",
        reads: Some(1000),
        len: 253,
        wanted: (0, 256, Ok((ErrorCode::Ok, 4))),
        ..PLAIN
    },
    Row {
        name: "a read of 303 transfers",
        reads: Some(1000),
        wanted: (1, 47, Ok((ErrorCode::Ok, 4))),
        ..PLAIN
    },
    Row {
        name: "a read to END",
        reads: Some(10),
        len: 2,
        wanted: (0, 5, Ok((ErrorCode::Ok, 4))),
        made: Some(&[
            Transfer::Cmd(0x3F),
            Transfer::Cmd(0x20),
            Transfer::Cmd(0x45),
            Transfer::Got { b: 65, end: false },
            Transfer::Got { b: 66, end: true },
        ]),
        ..PLAIN
    },
    Row {
        name: "a read of one byte",
        reads: Some(1),
        len: 2,
        wanted: (0, 4, Ok((ErrorCode::Ok, 1))),
        made: Some(&[
            Transfer::Cmd(0x3F),
            Transfer::Cmd(0x20),
            Transfer::Cmd(0x45),
            Transfer::Got { b: 65, end: false },
        ]),
        ..PLAIN
    },
];

/// So many bytes: 65 to 255, and again.
fn numbered(alloc: Global, len: usize) -> Result<Vec<u8>, AllocError> {
    let mut bytes = Vec::new(alloc);
    for at in 0..len {
        bytes.push((65 + at % 191) as u8)?;
    }
    Ok(bytes)
}

/// The same bytes as a bus gives them.
fn given(alloc: Global, bytes: &[u8]) -> Result<Vec<(u8, bool)>, AllocError> {
    let mut gets = Vec::new(alloc);
    for (at, b) in bytes.iter().enumerate() {
        gets.push((*b, at == bytes.len() - 1))?;
    }
    Ok(gets)
}

/// A reply, as tests compare it: that of a read is to have these bytes.
fn answered(reply: &ReplyRef<'_>, wanted: &[u8]) -> Came {
    match *reply {
        ReplyRef::Write { error, size } => Ok((error, size)),
        ReplyRef::Read {
            error,
            reason,
            bytes,
        } if bytes == wanted => Ok((error, reason)),
        ReplyRef::Docmd { error, bytes } if bytes.is_empty() => Ok((error, 0)),
        _ => Err(None),
    }
}

/// Polls the call of connection 1.
fn poll<B: Bus>(core: &mut Core<B>, now: u64, wanted: &[u8]) -> Came {
    if !core.pending(1) {
        return Err(None);
    }
    match core.poll(1, now) {
        Polled::Answer(reply) => answered(&reply, wanted),
        Polled::NotYet(why) => Err(Some(why)),
        Polled::Dial { .. } => Err(None),
    }
}

/// A call comes at moment 0 on a connection that waits for nothing.
fn arrive<B: Bus>(core: &mut Core<B>, conn: u32, call: &CallRef<'_>) -> bool
    requires waits { may_wait (call_shown call.now) ≡ true }
    requires short { IsShort (call_shown call.now) }
{
    let is_free = core.role(conn) == Some(Role::Core) && !core.pending(conn);
    if is_free {
        core.arrive(conn, call, 0);
    }
    is_free
}

/// A connection makes a link to a device of this text.
fn link<B: Bus>(core: &mut Core<B>, conn: u32, device: &[u8]) {
    if device.len() > DEVICE_MAX {
        return;
    }
    let call = CallRef::CreateLink {
        client: -1,
        lock: false,
        lock_timeout: 0,
        device,
    };
    if arrive(core, conn, &call) && core.pending(conn) {
        let _ = core.poll(conn, 0);
    }
}

/// The call of a row comes.
fn ask<B: Bus>(core: &mut Core<B>, row: &Row, bytes: &[u8]) -> bool {
    if let Some(request) = row.reads {
        let call = CallRef::Read {
            lid: 1,
            request,
            io_timeout: row.io_timeout,
            lock_timeout: 0,
            flags: 0,
            term: 0,
        };
        return arrive(core, 1, &call);
    }
    if bytes.len() > 262_144 {
        return false;
    }
    let call = CallRef::Write {
        lid: 1,
        io_timeout: row.io_timeout,
        lock_timeout: 0,
        flags: 8,
        bytes,
    };
    arrive(core, 1, &call)
}

/// Polls the call until one isn't a full slice of 256 transfers.
fn poll_on<B: Bus>(core: &mut Core<B>, wanted: &[u8]) -> Polls {
    for full in 0..2000u64 {
        let came = poll(core, full * 1000, wanted);
        let moved = core.moves().len();
        if came != Err(Some(Why::Slice)) || moved != 256 {
            return (full, moved, came);
        }
    }
    (2000, 0, Err(None))
}

/// Whether that comes of the call of a row, on link 1 to device 5 of connection 1, which is to come. A write is of these bytes, and a
/// read is to have the first of them.
fn comes_so<B: Bus>(core: &mut Core<B>, alloc: Global, row: &Row, bytes: &[u8]) -> bool {
    let most = row.reads.unwrap_or(0) as usize;
    let count = most.min(bytes.len());
    let _ = core.connect(alloc, Role::Core);
    link(core, 1, b"gpib0,5");
    let is_asked = ask(core, row, bytes);
    let polls = poll_on(core, &bytes[..count]);
    let is_made = match row.made {
        Some(made) => core.moves() == made,
        None => true,
    };
    is_asked && polls == row.wanted && is_made
}

/// The same on a gateway of its own, over a bus.
fn comes_so_over<B: Bus + Drop>(
    alloc: Global,
    bus: Option<B>,
    row: &Row,
    bytes: &[u8],
) -> Option<bool>
    requires { IfSome bus (λ b. B.means b ≡ first_means) }
{
    let mut core = core_over(alloc, bus)?;
    Some(comes_so(&mut core, alloc, row, bytes))
}

/// The same over the bus of the row.
fn comes_so_anew(alloc: Global, row: &Row) -> Option<bool> {
    let bytes = numbered(alloc, row.len).ok()?;
    let gets = given(alloc, &bytes).ok()?;
    comes_so_over(
        alloc,
        mem_bus(alloc, &gets, row.holds, row.fails),
        row,
        &bytes,
    )
}

#[test]
fn calls_on_a_device(rt: HostRuntime) {
    for row in &ROWS {
        assert!(rt;
            comes_so_anew(rt.alloc(), row) == Some(true),
            "{}",
            row.name
        );
    }
}

/// A change of the own address to 5 is held before its first transfer. Then another connection links to device 5: what comes of two
/// polls of the change, and how many transfers the second made.
fn change_address<B: Bus>(core: &mut Core<B>, alloc: Global) -> (Came, Came, usize) {
    let change = CallRef::Docmd {
        lid: 1,
        flags: 0,
        io_timeout: 1000,
        lock_timeout: 0,
        cmd: 0x2000A,
        big: true,
        size: 4,
        bytes: &[0, 0, 0, 5],
    };
    let _ = core.connect(alloc, Role::Core);
    let _ = core.connect(alloc, Role::Core);
    link(core, 1, b"gpib0");
    let _ = arrive(core, 1, &change);
    let first = poll(core, 0, &[]);
    link(core, 2, b"gpib0,5");
    (first, poll(core, 0, &[]), core.moves().len())
}

/// The same on a gateway of its own, over a bus.
fn change_address_over<B: Bus + Drop>(alloc: Global, bus: Option<B>) -> Option<(Came, Came, usize)>
    requires { IfSome bus (λ b. B.means b ≡ first_means) }
{
    let mut core = core_over(alloc, bus)?;
    Some(change_address(&mut core, alloc))
}

/// The same over a bus that holds the first transfer.
fn change_address_anew(alloc: Global) -> Option<(Came, Came, usize)> {
    change_address_over(alloc, mem_bus(alloc, &[], &[1], &[]))
}

#[test]
fn an_address_taken_meanwhile(rt: HostRuntime) {
    let refused = (Err(Some(Why::Held)), Ok((ErrorCode::Parameter, 0)), 0);
    assert!(rt; change_address_anew(rt.alloc()) == Some(refused));
}
