//! Arguments and results, both ways.

ghost use Rattle.std.specs.Prelude.{IsTrue};
ghost use Rattle.vx_calls.specs.Call.{call_shown};
ghost use Rattle.vx_calls.specs.Reply.{reply_shown};
ghost use Rattle.vx_codec.specs.Asked.{IsPuttable};
ghost use Rattle.vx_codec.specs.Answered.{IsPuttableReply};

use crate::word_tools::spelled;
use arrayvec::ArrayVec;
use std::test::Fail;
use vx_calls::{CallRef, ErrorCode, Generic, Handle, Proc, ReplyRef};
use vx_codec::*;
use vx_xdr::Full;

/// What a call is: its procedure; its link, flags, io timeout and lock timeout; its other numbers, in the order of the standard;
/// and its bytes. What it hasn't is 0, or no bytes.
type Shown<'a> = (Proc, [u32; 4], [u32; 5], &'a [u8]);

// Arguments put together by hand from the structures of VXI-11's appendix C, and the call that they are.
static CALLS: [(&[u32], Shown<'static>); 17] = [
    (&[], (Proc::Null, [0; 4], [0; 5], b"")),
    (
        &[0x2A, 0, 0, 7, 0x6770_6962, 0x302C_3500],
        (Proc::CreateLink, [0; 4], [42, 0, 0, 0, 0], b"gpib0,5"),
    ),
    (
        &[1, 10000, 2000, 8, 6, 0x2A49_444E, 0x3F0A_0000],
        (Proc::Write, [1, 8, 10000, 2000], [0; 5], b"*IDN?\n"),
    ),
    (
        &[1, 1024, 10000, 2000, 128, 10],
        (Proc::Read, [1, 128, 10000, 2000], [1024, 10, 0, 0, 0], b""),
    ),
    (&[1, 2, 3, 4], (Proc::ReadStb, [1, 2, 4, 3], [0; 5], b"")),
    (&[5, 6, 7, 8], (Proc::Trigger, [5, 6, 8, 7], [0; 5], b"")),
    (
        &[9, 10, 11, 12],
        (Proc::Clear, [9, 10, 12, 11], [0; 5], b""),
    ),
    (
        &[13, 14, 15, 16],
        (Proc::Remote, [13, 14, 16, 15], [0; 5], b""),
    ),
    (
        &[17, 18, 19, 20],
        (Proc::Local, [17, 18, 20, 19], [0; 5], b""),
    ),
    (&[1, 1, 5000], (Proc::Lock, [1, 1, 0, 5000], [0; 5], b"")),
    (&[2], (Proc::Unlock, [2, 0, 0, 0], [0; 5], b"")),
    (
        &[1, 1, 3, 0x0102_0300],
        (
            Proc::EnableSrq,
            [1, 0, 0, 0],
            [1, 0, 0, 0, 0],
            b"\x01\x02\x03",
        ),
    ),
    (
        &[2, 0, 10000, 2000, 0x2_0000, 1, 1, 1, 0x4000_0000],
        (
            Proc::Docmd,
            [2, 0, 10000, 2000],
            [0x2_0000, 1, 1, 0, 0],
            b"\x40",
        ),
    ),
    (&[3], (Proc::DestroyLink, [3, 0, 0, 0], [0; 5], b"")),
    (
        &[0x7F00_0001, 1024, 0x0006_07B1, 1, 0],
        (
            Proc::CreateIntr,
            [0; 4],
            [0x7F00_0001, 1024, 0x0006_07B1, 1, 0],
            b"",
        ),
    ),
    (&[], (Proc::DestroyIntr, [0; 4], [0; 5], b"")),
    (&[4], (Proc::DeviceAbort, [4, 0, 0, 0], [0; 5], b"")),
];

/// A call of a procedure that has a link, flags and both timeouts alone.
fn generic(proc: Proc, g: &Generic) -> Shown<'static> {
    let Generic {
        lid,
        flags,
        lock_timeout,
        io_timeout,
    } = *g;
    (proc, [lid, flags, io_timeout, lock_timeout], [0; 5], b"")
}

/// A call of a procedure that has a link alone.
fn linked(proc: Proc, lid: u32) -> Shown<'static> {
    (proc, [lid, 0, 0, 0], [0; 5], b"")
}

fn shown<'a>(call: &'a CallRef<'a>) -> Shown<'a> {
    match call {
        CallRef::Null => (Proc::Null, [0; 4], [0; 5], b""),
        CallRef::CreateLink {
            client,
            lock,
            lock_timeout,
            device,
        } => {
            (
                Proc::CreateLink,
                [0, 0, 0, *lock_timeout],
                [client.cast_unsigned(), u32::from(*lock), 0, 0, 0],
                device,
            )
        }
        CallRef::Write {
            lid,
            io_timeout,
            lock_timeout,
            flags,
            bytes,
        } => {
            (
                Proc::Write,
                [*lid, *flags, *io_timeout, *lock_timeout],
                [0; 5],
                bytes,
            )
        }
        CallRef::Read {
            lid,
            request,
            io_timeout,
            lock_timeout,
            flags,
            term,
        } => {
            (
                Proc::Read,
                [*lid, *flags, *io_timeout, *lock_timeout],
                [*request, u32::from(*term), 0, 0, 0],
                b"",
            )
        }
        CallRef::ReadStb(g) => generic(Proc::ReadStb, g),
        CallRef::Trigger(g) => generic(Proc::Trigger, g),
        CallRef::Clear(g) => generic(Proc::Clear, g),
        CallRef::Remote(g) => generic(Proc::Remote, g),
        CallRef::Local(g) => generic(Proc::Local, g),
        CallRef::Lock {
            lid,
            flags,
            lock_timeout,
        } => (Proc::Lock, [*lid, *flags, 0, *lock_timeout], [0; 5], b""),
        CallRef::Unlock { lid } => linked(Proc::Unlock, *lid),
        CallRef::EnableSrq {
            lid,
            enable,
            handle,
        } => {
            (
                Proc::EnableSrq,
                [*lid, 0, 0, 0],
                [u32::from(*enable), 0, 0, 0, 0],
                handle.bytes.as_slice(),
            )
        }
        CallRef::Docmd {
            lid,
            flags,
            io_timeout,
            lock_timeout,
            cmd,
            big,
            size,
            bytes,
        } => {
            (
                Proc::Docmd,
                [*lid, *flags, *io_timeout, *lock_timeout],
                [*cmd, u32::from(*big), *size, 0, 0],
                bytes,
            )
        }
        CallRef::DestroyLink { lid } => linked(Proc::DestroyLink, *lid),
        CallRef::CreateIntr {
            host,
            port,
            prog,
            vers,
            family,
        } => {
            (
                Proc::CreateIntr,
                [0; 4],
                [*host, *port, *prog, *vers, *family],
                b"",
            )
        }
        CallRef::DestroyIntr => (Proc::DestroyIntr, [0; 4], [0; 5], b""),
        CallRef::DeviceAbort { lid } => linked(Proc::DeviceAbort, *lid),
    }
}

/// Whether the call is written as these bytes, and has room in none only where there are none.
fn is_written(call: &CallRef<'_>, args: &[u8]) -> bool
    requires { IsPuttable (call_shown call.now) }
{
    let mut out = [0xff; 64];
    let fits = put_args(call, &mut out) == Ok(args.len());
    fits && out.starts_with(args) && put_args(call, &mut []).is_ok() == args.is_empty()
}

/// Whether these bytes are a call's arguments, both ways.
fn is_call(args: &[u8], want: &Shown<'_>) -> bool {
    match read_args(want.0, args) {
        Some(call) => shown(&call) == *want && is_written(&call, args),
        None => false,
    }
}

#[test]
fn each_call_both_ways(rt: HostRuntime) -> Result<(), Fail> {
    for (row, (words, want)) in CALLS.iter().enumerate() {
        let args = spelled(rt.alloc(), words)?;
        assert!(rt; is_call(&args, want), "in row {row}");
    }
    Ok(())
}

// A reply, its procedure, its bytes, and the results that they are.
static REPLIES: [(ReplyRef<'static>, Proc, &[u8], Results<'static>); 7] = [
    (ReplyRef::Null, Proc::Null, b"", Results::Null),
    (
        ReplyRef::CreateLink {
            error: ErrorCode::Ok,
            lid: 1,
            abort_port: 9011,
            max: 262_144,
        },
        Proc::CreateLink,
        b"\0\0\0\0\0\0\0\x01\0\0\x23\x33\0\x04\0\0",
        Results::CreateLink {
            error: 0,
            lid: 1,
            abort_port: 9011,
            max: 262_144,
        },
    ),
    (
        ReplyRef::Write {
            error: ErrorCode::BusFault,
            size: 3,
        },
        Proc::Write,
        b"\0\0\0\x11\0\0\0\x03",
        Results::Write { error: 17, size: 3 },
    ),
    (
        ReplyRef::Error {
            error: ErrorCode::NotHeld,
        },
        Proc::Unlock,
        b"\0\0\0\x0c",
        Results::Error { error: 12 },
    ),
    (
        ReplyRef::Read {
            error: ErrorCode::Ok,
            reason: 4,
            bytes: b"AB",
        },
        Proc::Read,
        b"\0\0\0\0\0\0\0\x04\0\0\0\x02AB\0\0",
        Results::Read {
            error: 0,
            reason: 4,
            bytes: b"AB",
        },
    ),
    (
        ReplyRef::Stb {
            error: ErrorCode::Ok,
            stb: 0x50,
        },
        Proc::ReadStb,
        b"\0\0\0\0\0\0\0\x50",
        Results::Stb { error: 0, stb: 80 },
    ),
    (
        ReplyRef::Docmd {
            error: ErrorCode::Ok,
            bytes: b"\x01",
        },
        Proc::Docmd,
        b"\0\0\0\0\0\0\0\x01\x01\0\0\0",
        Results::Docmd {
            error: 0,
            bytes: b"\x01",
        },
    ),
];

/// Whether a length word can count the reply's bytes.
fn is_puttable(reply: &ReplyRef<'_>) -> bool
    ensures { IsTrue result → IsPuttableReply (reply_shown reply.now) }
{
    match reply {
        ReplyRef::Read { bytes, .. } | ReplyRef::Docmd { bytes, .. } => bytes.len() < 1 << 32,
        _ => true,
    }
}

/// Whether the reply is put as these bytes.
fn is_put(reply: &ReplyRef<'_>, bytes: &[u8]) -> bool {
    let mut out = [0xff; 32];
    is_puttable(reply) && put_results(reply, &mut out) == Ok(bytes.len()) && out.starts_with(bytes)
}

#[test]
fn each_reply_both_ways(rt: HostRuntime) {
    for (row, (reply, proc, bytes, seen)) in REPLIES.iter().enumerate() {
        assert!(rt; is_put(reply, bytes), "written, in row {row}");
        assert!(rt;
            read_results(*proc, bytes) == Some(*seen),
            "read, in row {row}"
        );
    }
}

// What stands above a status byte isn't looked at.
#[test]
fn low_bytes(rt: HostRuntime) {
    let read = read_results(Proc::ReadStb, b"\0\0\0\0\xff\xff\xff\x41");
    assert!(rt; read == Some(Results::Stb { error: 0, stb: 65 }));
}

/// What writing a handle of 40 bytes answers, where there is room and where there is a byte too little, and whether it was
/// written.
fn put_handle(handle: &Handle) -> (Result<usize, Full>, Result<usize, Full>, bool) {
    let (mut out, mut short) = ([0xff; 44], [0xff; 43]);
    let len = put_srq(handle, &mut out);
    let stands = out.starts_with(b"\0\0\0\x28\x07\x07");
    (len, put_srq(handle, &mut short), stands)
}

#[test]
fn handles(rt: HostRuntime) {
    let handle = Handle {
        bytes: ArrayVec::from([7; 40]),
    };
    assert!(rt; put_handle(&handle) == (Ok(44), Err(Full), true));
}

// A handle of 41 bytes, with its padding.
const LONG_HANDLE: &[u8] = b"\0\0\0\0\0\0\0\0\0\0\0\x29\
    \0\0\0\0\0\0\0\0\0\0\0\0\0\0\0\0\0\0\0\0\0\0\
    \0\0\0\0\0\0\0\0\0\0\0\0\0\0\0\0\0\0\0\0\0\0";

static NO_CALLS: [(Proc, &[u8]); 7] = [
    (Proc::Null, b"\0\0\0\0"),
    (Proc::Unlock, b"\0\0\0"),
    (Proc::Unlock, b"\0\0\0\x01\0"),
    (Proc::EnableSrq, b"\0\0\0\x01\0\0\0\x02\0\0\0\0"),
    (
        Proc::EnableSrq,
        b"\0\0\0\x01\0\0\0\x01\0\0\0\x01\x09\0\0\x01",
    ),
    (Proc::EnableSrq, b"\0\0\0\x01\0\0\0\x01\0\0\0\x01\x09\0\0"),
    (Proc::EnableSrq, LONG_HANDLE),
];

#[test]
fn what_spells_no_call(rt: HostRuntime) {
    for (row, (proc, args)) in NO_CALLS.iter().enumerate() {
        assert!(rt; read_args(*proc, args).is_none(), "in row {row}");
    }
}
