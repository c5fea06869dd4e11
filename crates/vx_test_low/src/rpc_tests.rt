//! Headers of calls and replies: the words are those of RFC 5531, section 9.

use crate::word_tools::spelled;
use std::test::Fail;
use vx_calls::{Proc, Role};
use vx_rpc::*;
use vx_xdr::Full;

// The call of a create_link for the text gpib0,5, with xid 1 and client 42, and its arguments.
const CREATE_LINK: [u32; 16] = [
    1, 0, 2, 0x0607AF, 1, 10, 0, 0, 0, 0, 0x2A, 0, 0, 7, 0x67706962, 0x302C3500,
];

const CREATED: Sorted<'static> = Sorted::Call {
    xid: 1,
    proc: Proc::CreateLink,
    args: b"\0\0\0\x2A\0\0\0\0\0\0\0\0\0\0\0\x07gpib0,5\0",
};

const RPC_MISMATCH: Sorted<'static> = Sorted::Refuse {
    xid: 5,
    refusal: RpcRefusal::RpcMismatch,
};

const PROG_UNAVAIL: Sorted<'static> = Sorted::Refuse {
    xid: 5,
    refusal: RpcRefusal::ProgUnavail,
};

const PROG_MISMATCH: Sorted<'static> = Sorted::Refuse {
    xid: 5,
    refusal: RpcRefusal::ProgMismatch,
};

const PROC_UNAVAIL: Sorted<'static> = Sorted::Refuse {
    xid: 5,
    refusal: RpcRefusal::ProcUnavail,
};

const NULL: Sorted<'static> = Sorted::Call {
    xid: 5,
    proc: Proc::Null,
    args: &[],
};

const DESTROY_INTR: Sorted<'static> = Sorted::Call {
    xid: 5,
    proc: Proc::DestroyIntr,
    args: &[],
};

const DEVICE_ABORT: Sorted<'static> = Sorted::Call {
    xid: 5,
    proc: Proc::DeviceAbort,
    args: &[],
};

// Messages in words, the channel's role, and what becomes of them.
static MESSAGES: [(&[u32], Role, Sorted<'static>); 17] = [
    (&CREATE_LINK, Role::Core, CREATED),
    (&[5, 0, 3], Role::Core, RPC_MISMATCH),
    (&[5, 1], Role::Core, Sorted::Junk),
    (&[5, 1, 3], Role::Core, Sorted::Junk),
    (&[5, 0, 2, 0x0607AF, 1], Role::Core, Sorted::Junk),
    (
        &[5, 0, 2, 0x0607AF, 1, 0, 0, 0, 0],
        Role::Core,
        Sorted::Junk,
    ),
    (
        &[5, 0, 2, 0x0607AF, 1, 0, 0, 401, 0, 0],
        Role::Core,
        Sorted::Junk,
    ),
    (
        &[5, 0, 2, 0x0607AF, 1, 0, 0, 3, 0x01020304, 0, 0],
        Role::Core,
        Sorted::Junk,
    ),
    (
        &[5, 0, 2, 0x0607B0, 2, 99, 0, 0, 0, 0],
        Role::Core,
        PROG_UNAVAIL,
    ),
    (
        &[5, 0, 2, 0x0607AF, 1, 10, 0, 0, 0, 0],
        Role::Abort,
        PROG_UNAVAIL,
    ),
    (
        &[5, 0, 2, 0x0607AF, 2, 99, 0, 0, 0, 0],
        Role::Core,
        PROG_MISMATCH,
    ),
    (
        &[5, 0, 2, 0x0607AF, 1, 21, 0, 0, 0, 0],
        Role::Core,
        PROC_UNAVAIL,
    ),
    (
        &[5, 0, 2, 0x0607AF, 1, 1, 0, 0, 0, 0],
        Role::Core,
        PROC_UNAVAIL,
    ),
    (
        &[5, 0, 2, 0x0607B0, 1, 10, 0, 0, 0, 0],
        Role::Abort,
        PROC_UNAVAIL,
    ),
    (&[5, 0, 2, 0x0607AF, 1, 0, 0, 0, 0, 0], Role::Core, NULL),
    (
        &[5, 0, 2, 0x0607AF, 1, 26, 1, 5, 0x01020304, 0x05000000, 7, 0],
        Role::Core,
        DESTROY_INTR,
    ),
    (
        &[5, 0, 2, 0x0607B0, 1, 1, 0, 0, 0, 0],
        Role::Abort,
        DEVICE_ABORT,
    ),
];

#[test]
fn sorts_messages(rt: HostRuntime) -> Result<(), Fail> {
    for (row, (words, role, want)) in MESSAGES.iter().enumerate() {
        let bytes = spelled(rt.alloc(), words)?;
        assert!(rt; sort_call(&bytes, *role) == *want, "in row {row}");
    }
    Ok(())
}

/// A header that is written.
#[derive(Clone, Copy)]
enum Header {
    /// That of the create_link.
    Call,
    Reply,
    Refusal(u32, RpcRefusal),
}

fn put(header: Header, out: &mut [u8]) -> Result<usize, Full> {
    match header {
        Header::Call => put_call(1, 0x0607AF, 1, 10, out),
        Header::Reply => put_reply(1, out),
        Header::Refusal(_, RpcRefusal::AuthError | RpcRefusal::SystemErr) => Err(Full),
        Header::Refusal(xid, sent) => put_refusal(xid, sent, out),
    }
}

/// What writing a header into so many bytes of 0xEE answers, and whether these words and no others stand at their front then.
fn written(header: Header, room: usize, words: &[u8]) -> (Result<usize, Full>, bool) {
    let mut out = [0xEE; 44];
    let answer = put(header, &mut out[..room.min(44)]);
    let left = out.strip_prefix(words);
    (answer, left == Some(&[0xEE; 44][words.len().min(44)..]))
}

// Headers, the room for them, and their words in it. The last three have a byte too little.
static HEADERS: [(Header, usize, Result<usize, Full>, &[u32]); 10] = [
    (
        Header::Call,
        44,
        Ok(40),
        &[1, 0, 2, 0x0607AF, 1, 10, 0, 0, 0, 0],
    ),
    (Header::Reply, 44, Ok(24), &[1, 1, 0, 0, 0, 0]),
    (
        Header::Refusal(5, RpcRefusal::RpcMismatch),
        36,
        Ok(24),
        &[5, 1, 1, 0, 2, 2],
    ),
    (
        Header::Refusal(1, RpcRefusal::ProgUnavail),
        36,
        Ok(24),
        &[1, 1, 0, 0, 0, 1],
    ),
    (
        Header::Refusal(1, RpcRefusal::ProgMismatch),
        36,
        Ok(32),
        &[1, 1, 0, 0, 0, 2, 1, 1],
    ),
    (
        Header::Refusal(1, RpcRefusal::ProcUnavail),
        36,
        Ok(24),
        &[1, 1, 0, 0, 0, 3],
    ),
    (
        Header::Refusal(1, RpcRefusal::GarbageArgs),
        36,
        Ok(24),
        &[1, 1, 0, 0, 0, 4],
    ),
    (Header::Call, 39, Err(Full), &[]),
    (Header::Reply, 23, Err(Full), &[]),
    (
        Header::Refusal(1, RpcRefusal::ProgMismatch),
        31,
        Err(Full),
        &[],
    ),
];

#[test]
fn writes_headers(rt: HostRuntime) -> Result<(), Fail> {
    for (row, (header, room, answer, words)) in HEADERS.iter().enumerate() {
        let bytes = spelled(rt.alloc(), words)?;
        assert!(rt;
            written(*header, *room, &bytes) == (*answer, true),
            "in row {row}"
        );
    }
    Ok(())
}

// Replies in words that refuse a call, that are none, and that have results.
static REPLIES: [(&[u32], ReplyRead<'static>); 20] = [
    (
        &[5, 1, 0, 0, 0, 1],
        ReplyRead::Refused {
            xid: 5,
            refusal: RpcRefusal::ProgUnavail,
        },
    ),
    (
        &[5, 1, 0, 0, 0, 2, 3, 4],
        ReplyRead::Refused {
            xid: 5,
            refusal: RpcRefusal::ProgMismatch,
        },
    ),
    (
        &[5, 1, 0, 0, 0, 3],
        ReplyRead::Refused {
            xid: 5,
            refusal: RpcRefusal::ProcUnavail,
        },
    ),
    (
        &[5, 1, 0, 0, 0, 4],
        ReplyRead::Refused {
            xid: 5,
            refusal: RpcRefusal::GarbageArgs,
        },
    ),
    (
        &[5, 1, 0, 0, 0, 5],
        ReplyRead::Refused {
            xid: 5,
            refusal: RpcRefusal::SystemErr,
        },
    ),
    (
        &[5, 1, 1, 0, 2, 3],
        ReplyRead::Refused {
            xid: 5,
            refusal: RpcRefusal::RpcMismatch,
        },
    ),
    (
        &[5, 1, 1, 1, 5],
        ReplyRead::Refused {
            xid: 5,
            refusal: RpcRefusal::AuthError,
        },
    ),
    (&[5, 1], ReplyRead::Bad),
    (&[5, 0, 0, 0, 0, 0], ReplyRead::Bad),
    (&[5, 1, 2, 0, 0, 0], ReplyRead::Bad),
    (&[5, 1, 0, 0, 0], ReplyRead::Bad),
    (&[5, 1, 0, 0, 401, 0], ReplyRead::Bad),
    (&[5, 1, 0, 0, 0, 6], ReplyRead::Bad),
    (&[5, 1, 0, 0, 0, 1, 0], ReplyRead::Bad),
    (&[5, 1, 0, 0, 0, 2, 3], ReplyRead::Bad),
    (&[5, 1, 1, 0, 2], ReplyRead::Bad),
    (&[5, 1, 1, 1], ReplyRead::Bad),
    (&[5, 1, 1, 2, 0], ReplyRead::Bad),
    (
        &[5, 1, 0, 0, 0, 0],
        ReplyRead::Success {
            xid: 5,
            results: &[],
        },
    ),
    (
        &[5, 1, 0, 1, 4, 9, 0, 7],
        ReplyRead::Success {
            xid: 5,
            results: &[0, 0, 0, 7],
        },
    ),
];

#[test]
fn reads_replies(rt: HostRuntime) -> Result<(), Fail> {
    for (row, (words, read)) in REPLIES.iter().enumerate() {
        let bytes = spelled(rt.alloc(), words)?;
        assert!(rt; read_reply(&bytes) == *read, "in row {row}");
    }
    Ok(())
}
