//! Calls of a client over memory. Records are composed by hand from their words; the record's mark stands first.

use crate::client_tools::{Answer, Ask, Got, are_answered};
use crate::word_tools::{behind, link_of, push_words, words};
use std::alloc::{AllocError, Global};
use std::process::Abort;
use vx_client::{CallOpts, Client, ClientErr, LinkMade, ReadEnd};
use vx_memory::MemLink;
use vx_rpc::RpcRefusal;

/// Whether bytes are these words.
fn are_words(bytes: &[u8], numbers: &[u32]) -> bool {
    behind(bytes, numbers).is_some_and(|rest| rest.is_empty())
}

/// The link of all calls that name one.
const LID: u32 = 7;

const OPTS: CallOpts = CallOpts {
    flags: 1,
    io_timeout: 10000,
    lock_timeout: 500,
};

const DONE: Answer = Ok(Got::Done);

const CLOSED: Answer = Err(ClientErr::Closed);

const SPENT: Answer = Err(ClientErr::Spent);

/// Calls of a client over a link that gives these words, so many bytes a receive, and of which these calls fail.
#[derive(Clone, Copy)]
struct Row {
    gives: &'static [u32],
    piece: usize,
    fails: &'static [u64],
    first: (Ask, Answer),
    /// The words of the last record behind the first call.
    last: Option<&'static [u32]>,
    more: &'static [(Ask, Answer)],
    /// The front of what the bytes go to, which is eight characters 9 before.
    room: &'static [u8],
    /// The words that the link took.
    sent: Option<&'static [u32]>,
}

/// A row of one call that says just what is sent.
const ONE: Row = Row {
    gives: &[0x8000001C, 1, 1, 0, 0, 0, 0, 0],
    piece: 3,
    fails: &[],
    first: (Ask::Unlock, DONE),
    last: None,
    more: &[],
    room: &[],
    sent: None,
};

// One call of each kind.
static CALLS: [Row; 16] = [
    Row {
        gives: &[0x80000028, 1, 1, 0, 0, 0, 0, 0, 7, 9011, 65536],
        piece: 1,
        first: (
            Ask::Create {
                lock: true,
                lock_timeout: 500,
                device: DEVICE,
            },
            Ok(Got::Link(LinkMade {
                lid: 7,
                abort_port: 9011,
                max: 65536,
            })),
        ),
        last: Some(&[1, 1, 0, 0, 0, 0, 0, 7, 9011, 65536]),
        sent: Some(&[
            0x80000040, 1, 0, 2, 0x0607AF, 1, 10, 0, 0, 0, 0, 0, 1, 500, 7, 0x67706962, 0x302C3500,
        ]),
        ..ONE
    },
    Row {
        gives: &[0x80000020, 1, 1, 0, 0, 0, 0, 0, 80],
        piece: 1,
        first: (Ask::ReadStb, Ok(Got::Status(80))),
        sent: Some(&[
            0x80000038, 1, 0, 2, 0x0607AF, 1, 13, 0, 0, 0, 0, 7, 1, 500, 10000,
        ]),
        ..ONE
    },
    Row {
        first: (Ask::Trigger, DONE),
        sent: Some(&[
            0x80000038, 1, 0, 2, 0x0607AF, 1, 14, 0, 0, 0, 0, 7, 1, 500, 10000,
        ]),
        ..ONE
    },
    Row {
        first: (Ask::Clear, DONE),
        sent: Some(&[
            0x80000038, 1, 0, 2, 0x0607AF, 1, 15, 0, 0, 0, 0, 7, 1, 500, 10000,
        ]),
        ..ONE
    },
    Row {
        first: (Ask::Remote, DONE),
        sent: Some(&[
            0x80000038, 1, 0, 2, 0x0607AF, 1, 16, 0, 0, 0, 0, 7, 1, 500, 10000,
        ]),
        ..ONE
    },
    Row {
        first: (Ask::Local, DONE),
        sent: Some(&[
            0x80000038, 1, 0, 2, 0x0607AF, 1, 17, 0, 0, 0, 0, 7, 1, 500, 10000,
        ]),
        ..ONE
    },
    Row {
        gives: &[
            0x8000001C, 1, 1, 0, 0, 0, 0, 0, // locked
            0x8000001C, 2, 1, 0, 0, 0, 0, 0, // unlocked
            0x8000001C, 3, 1, 0, 0, 0, 0, 0,
        ],
        piece: 100,
        first: (Ask::Lock, DONE),
        more: &[(Ask::Unlock, DONE), (Ask::Destroy, DONE)],
        sent: Some(&[
            0x80000034, 1, 0, 2, 0x0607AF, 1, 18, 0, 0, 0, 0, 7, 1, 500, // lock
            0x8000002C, 2, 0, 2, 0x0607AF, 1, 19, 0, 0, 0, 0, 7, // unlock
            0x8000002C, 3, 0, 2, 0x0607AF, 1, 23, 0, 0, 0, 0, 7, // destroy
        ]),
        ..ONE
    },
    Row {
        gives: &[
            0x8000001C, 1, 1, 0, 0, 0, 0, 0, // a channel made
            0x8000001C, 2, 1, 0, 0, 0, 0, 0, // enabled
            0x8000001C, 3, 1, 0, 0, 0, 0, 0,
        ],
        piece: 1,
        first: (Ask::CreateIntr(9020), DONE),
        more: &[(Ask::EnableSrq(&[1, 2]), DONE), (Ask::DestroyIntr, DONE)],
        sent: Some(&[
            0x8000003C, 1, 0, 2, 0x0607AF, 1, 25, 0, 0, 0, 0, 0x7F000001, 9020, 0x0607B1, 1, 0,
            0x80000038, 2, 0, 2, 0x0607AF, 1, 20, 0, 0, 0, 0, 7, 1, 2, 0x01020000, // enable
            0x80000028, 3, 0, 2, 0x0607AF, 1, 26, 0, 0, 0, 0,
        ]),
        ..ONE
    },
    Row {
        gives: &[0x80000024, 1, 1, 0, 0, 0, 0, 0, 2, 0x00010000],
        piece: 1,
        first: (Ask::Docmd(LID, 0x020001, &[0, 1]), Ok(Got::Bytes(2))),
        room: &[0, 1, b'9', b'9'],
        sent: Some(&[
            0x8000004C, 1, 0, 2, 0x0607AF, 1, 22, 0, 0, 0, 0, 7, 1, 10000, 500, 0x020001, 1, 1, 2,
            0x00010000,
        ]),
        ..ONE
    },
    // A write of no bytes is one piece; one that is told another size isn't answered.
    Row {
        gives: &[0x80000020, 1, 1, 0, 0, 0, 0, 0, 0],
        piece: 1,
        first: (Ask::Write(b""), DONE),
        sent: Some(&[
            0x8000003C, 1, 0, 2, 0x0607AF, 1, 11, 0, 0, 0, 0, 7, 10000, 500, 1, 0,
        ]),
        ..ONE
    },
    Row {
        gives: &[0x80000020, 1, 1, 0, 0, 0, 0, 0, 0],
        piece: 1,
        first: (Ask::Write(b"a"), Err(ClientErr::BadReply { length: 32 })),
        ..ONE
    },
    // Two parts of two bytes, the second with reason 4, END.
    Row {
        gives: &[
            0x80000028, 1, 1, 0, 0, 0, 0, 0, 0, 2, 0x61620000, // no reason
            0x80000028, 2, 1, 0, 0, 0, 0, 0, 4, 2, 0x63640000,
        ],
        piece: 1,
        first: (
            Ask::Read { most: 5, term: 10 },
            Ok(Got::End(ReadEnd { len: 4, reason: 4 })),
        ),
        room: b"abcd9",
        sent: Some(&[
            0x80000040, 1, 0, 2, 0x0607AF, 1, 12, 0, 0, 0, 0, 7, 5, 10000, 500, 1, 10, // five
            0x80000040, 2, 0, 2, 0x0607AF, 1, 12, 0, 0, 0, 0, 7, 3, 10000, 500, 1, 10, // three
        ]),
        ..ONE
    },
    // Reads into two bytes: one that ends full without a reason; and three bytes, no byte and no reason, a timeout with a byte.
    Row {
        gives: &[0x80000028, 1, 1, 0, 0, 0, 0, 0, 0, 2, 0x61620000],
        piece: 1,
        first: (
            Ask::Read { most: 2, term: 0 },
            Ok(Got::End(ReadEnd { len: 2, reason: 0 })),
        ),
        ..ONE
    },
    Row {
        gives: &[0x80000028, 1, 1, 0, 0, 0, 0, 0, 4, 3, 0x61626300],
        piece: 1,
        first: (
            Ask::Read { most: 2, term: 0 },
            Err(ClientErr::BadReply { length: 40 }),
        ),
        ..ONE
    },
    Row {
        gives: &[0x80000024, 1, 1, 0, 0, 0, 0, 0, 0, 0],
        piece: 1,
        first: (
            Ask::Read { most: 2, term: 0 },
            Err(ClientErr::BadReply { length: 36 }),
        ),
        ..ONE
    },
    Row {
        gives: &[0x80000028, 1, 1, 0, 0, 0, 0, 15, 0, 1, 0x61000000],
        piece: 1,
        first: (Ask::Read { most: 2, term: 0 }, Err(ClientErr::Device(15))),
        ..ONE
    },
];

// What an unlock answers to a record that comes byte by byte, and what the next one answers.
static REPLIES: [Row; 12] = [
    // An error.
    Row {
        gives: &[0x8000001C, 1, 1, 0, 0, 0, 0, 11],
        piece: 1,
        first: (Ask::Unlock, Err(ClientErr::Device(11))),
        last: Some(&[1, 1, 0, 0, 0, 0, 11]),
        more: &[(Ask::Unlock, CLOSED)],
        ..ONE
    },
    // GarbageArgs.
    Row {
        gives: &[0x80000018, 1, 1, 0, 0, 0, 4],
        piece: 1,
        first: (Ask::Unlock, Err(ClientErr::Rpc(RpcRefusal::GarbageArgs))),
        last: Some(&[1, 1, 0, 0, 0, 4]),
        more: &[(Ask::Unlock, CLOSED)],
        ..ONE
    },
    // The number of another call.
    Row {
        gives: &[0x8000001C, 2, 1, 0, 0, 0, 0, 0],
        piece: 1,
        first: (Ask::Unlock, Err(ClientErr::BadReply { length: 28 })),
        last: Some(&[2, 1, 0, 0, 0, 0, 0]),
        more: &[(Ask::Unlock, SPENT)],
        ..ONE
    },
    // The refusal of another call.
    Row {
        gives: &[0x80000018, 2, 1, 0, 0, 0, 4],
        piece: 1,
        first: (Ask::Unlock, Err(ClientErr::BadReply { length: 24 })),
        last: Some(&[2, 1, 0, 0, 0, 4]),
        more: &[(Ask::Unlock, SPENT)],
        ..ONE
    },
    // Results with a word too many.
    Row {
        gives: &[0x80000020, 1, 1, 0, 0, 0, 0, 0, 0],
        piece: 1,
        first: (Ask::Unlock, Err(ClientErr::BadReply { length: 32 })),
        last: Some(&[1, 1, 0, 0, 0, 0, 0, 0]),
        more: &[(Ask::Unlock, SPENT)],
        ..ONE
    },
    // A call.
    Row {
        gives: &[0x80000028, 1, 0, 2, 0x0607AF, 1, 26, 0, 0, 0, 0],
        piece: 1,
        first: (Ask::Unlock, Err(ClientErr::BadReply { length: 40 })),
        last: Some(&[1, 0, 2, 0x0607AF, 1, 26, 0, 0, 0, 0]),
        more: &[(Ask::Unlock, SPENT)],
        ..ONE
    },
    // A record of REPLY_MAX + 1 bytes.
    Row {
        gives: &[0x80010401],
        piece: 1,
        first: (Ask::Unlock, Err(ClientErr::BadReply { length: 66561 })),
        last: Some(&[]),
        more: &[(Ask::Unlock, SPENT)],
        ..ONE
    },
    // The end, at once and in a record.
    Row {
        gives: &[],
        piece: 1,
        first: (Ask::Unlock, CLOSED),
        last: Some(&[]),
        more: &[(Ask::Unlock, SPENT)],
        ..ONE
    },
    Row {
        gives: &[0x8000001C, 1, 1],
        piece: 1,
        first: (Ask::Unlock, CLOSED),
        last: Some(&[]),
        more: &[(Ask::Unlock, SPENT)],
        ..ONE
    },
    // A link that takes no writes.
    Row {
        gives: &[0x80000028, 1, 1, 0, 0, 0, 0, 0, 7, 9011, 0],
        piece: 1,
        first: (
            Ask::Create {
                lock: false,
                lock_timeout: 0,
                device: DEVICE,
            },
            Err(ClientErr::BadReply { length: 40 }),
        ),
        ..ONE
    },
    // The send is the first call of the link; with one byte a receive, the fifth receive is its sixth.
    Row {
        piece: 1,
        fails: &[1],
        first: (Ask::Unlock, Err(ClientErr::WriteFault)),
        more: &[(Ask::Unlock, SPENT)],
        sent: Some(&[]),
        ..ONE
    },
    Row {
        piece: 1,
        fails: &[6],
        first: (Ask::Unlock, Err(ClientErr::ReadFault)),
        more: &[(Ask::Unlock, SPENT)],
        sent: Some(&[0x8000002C, 1, 0, 2, 0x0607AF, 1, 19, 0, 0, 0, 0, 7]),
        ..ONE
    },
];

const DEVICE: &[u8] = b"gpib0,5";

/// A link that takes a byte a write.
const NARROW: LinkMade = LinkMade {
    lid: LID,
    abort_port: 0,
    max: 1,
};

/// Whether the last record of a client is these words, where it is looked at.
fn is_last(client: &Client<MemLink>, numbers: Option<&[u32]>) -> bool {
    numbers.is_none_or(|numbers| are_words(client.last(), numbers))
}

/// Whether the calls of a row are answered as it says.
fn is_answered(client: &mut Client<MemLink>, row: &Row) -> bool {
    let mut room = [b'9'; 8];
    let first = are_answered(client, &NARROW, &OPTS, &[row.first], &mut room);
    let last = is_last(client, row.last);
    let more = are_answered(client, &NARROW, &OPTS, row.more, &mut room);
    first && last && more && room.starts_with(row.room)
}

/// Whether the link of a client took these words, where they are looked at.
fn took(client: Client<MemLink>, numbers: Option<&[u32]>) -> bool {
    let link = client.into_link();
    numbers.is_none_or(|numbers| are_words(link.bytes(), numbers))
}

/// Whether a row holds, where there is memory for its client.
fn holds(alloc: Global, row: &Row) -> Option<bool> {
    let link = link_of(alloc, row.gives, &[], row.piece, row.fails).ok()?;
    let mut client = Client::new(alloc, link).ok()?;
    let answered = is_answered(&mut client, row);
    Some(took(client, row.sent) && answered)
}

/// Sees that each of these rows holds.
fn all_hold<R: Abort>(rt: &R, alloc: Global, name: &str, rows: &[Row]) {
    for (place, row) in rows.iter().enumerate() {
        let is_so = holds(alloc, row);
        assert!(rt; is_so == Some(true), "{name} {place}");
    }
}

#[test]
fn calls_are_made_and_answered(rt: HostRuntime) {
    all_hold(&rt, rt.alloc(), "call", &CALLS);
    all_hold(&rt, rt.alloc(), "reply", &REPLIES);
}

/// Whether a write of this text goes over a link of any size, in these bytes.
fn writes(mut client: Client<MemLink>, text: &[u8], sent: &[u8]) -> bool {
    let made = LinkMade {
        lid: LID,
        abort_port: 9011,
        max: 0xFFFF_FFFF,
    };
    let opts = CallOpts {
        flags: 0x09,
        io_timeout: 10000,
        lock_timeout: 0,
    };
    let answer = client.write(&made, &opts, text);
    client.into_link().bytes() == sent && answer == Ok(())
}

/// The records of two pieces of a text, the words in front of each.
fn two_pieces(alloc: Global, text: &[u8]) -> Result<Vec<u8>, AllocError> {
    let (first, second) = text.split_at(text.len().min(65536));
    let mut sent = words(
        alloc,
        &[
            0x8001003C, 1, 0, 2, 0x0607AF, 1, 11, 0, 0, 0, 0, 7, 10000, 0, 1, 65536,
        ],
        &[],
    )?;
    sent.extend_from_slice(first)?;
    push_words(
        &mut sent,
        &[
            0x800086DC, 2, 0, 2, 0x0607AF, 1, 11, 0, 0, 0, 0, 7, 10000, 0, 9, 34464,
        ],
    )?;
    sent.extend_from_slice(second)?;
    Ok(sent)
}

/// The replies to two writes, of 65,536 bytes and of 34,464.
const WRITTEN: [u32; 18] = [
    0x80000020, 1, 1, 0, 0, 0, 0, 0, 65536, 0x80000020, 2, 1, 0, 0, 0, 0, 0, 34464,
];

/// Whether 100,000 bytes go in two pieces, where there is memory for them.
fn writes_long(alloc: Global) -> Option<bool> {
    let text = vec![in alloc; 0x61u8; 100_000].ok()?;
    let sent = two_pieces(alloc, text.as_slice()).ok()?;
    let link = link_of(alloc, &WRITTEN, &[], 1000, &[]).ok()?;
    let client = Client::new(alloc, link).ok()?;
    Some(writes(client, text.as_slice(), sent.as_slice()))
}

// 100,000 bytes in pieces of 65,536: the second piece has 34,464 = 0x86A0, and END alone.
#[test]
fn writes_in_pieces(rt: HostRuntime) {
    assert!(rt; writes_long(rt.alloc()) == Some(true));
}
