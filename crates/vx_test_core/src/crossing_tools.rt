//! What the tests of two sessions that wait for each other share, each of which runs in a thread. The records are those of RFC 5531,
//! sections 9 and 11, and of VXI-11.
ghost use Rattle.std.specs.Prelude.{None};

use crate::record_tools::are_words;
use std::alloc::Global;
use std::sync::atomic::{AtomicU64, Ordering};
use std::thread;
use vx_io_traits::{Link, Pause, ReadOut, WriteOut};
use vx_session::End;

/// What two sessions tell each other, each 1 once it is so.
#[derive(Drop)]
pub(crate) struct Flags {
    /// The first session's link was made.
    made: AtomicU64,
    /// The second session's device_lock was answered.
    locked: AtomicU64,
    /// The session that waits has paused.
    paused: AtomicU64,
}

impl Flags {
    /// None of it is so yet.
    pub(crate) fn new() -> Flags {
        Flags {
            made: AtomicU64::new(0),
            locked: AtomicU64::new(0),
            paused: AtomicU64::new(0),
        }
    }
}

/// The most turns that a link waits for its flag.
pub(crate) const TURNS: u64 = 1_000_000;

/// Waits for a flag, and says whether it is there.
fn comes(flag: &AtomicU64) -> bool {
    for _ in 0..TURNS {
        if flag.load(Ordering::SeqCst) > 0 {
            return true;
        }
        thread::yield_now();
    }
    false
}

// create_link of `gpib0,5`, xid 1
const CREATE: [u8; 68] =
    *b"\x80\0\0\x40\0\0\0\x01\0\0\0\0\0\0\0\x02\0\x06\x07\xaf\0\0\0\x01\0\0\0\x0a\0\0\0\0\0\0\0\0\0\0\0\0\0\0\0\0\0\0\0\0\0\0\0\0\0\0\0\0\0\0\0\x07gpib0,5\0";

// device_lock of link 1 with waitlock, for 1,000,000 ms at most, xid 2
const LOCK_WAITING: [u8; 56] =
    *b"\x80\0\0\x34\0\0\0\x02\0\0\0\0\0\0\0\x02\0\x06\x07\xaf\0\0\0\x01\0\0\0\x12\0\0\0\0\0\0\0\0\0\0\0\0\0\0\0\0\0\0\0\x01\0\0\0\x01\0\x0f\x42\x40";

// device_lock of link 2, xid 2
const LOCK: [u8; 56] =
    *b"\x80\0\0\x34\0\0\0\x02\0\0\0\0\0\0\0\x02\0\x06\x07\xaf\0\0\0\x01\0\0\0\x12\0\0\0\0\0\0\0\0\0\0\0\0\0\0\0\0\0\0\0\x02\0\0\0\0\0\0\0\0";

// device_unlock of link 2, xid 3
const UNLOCK: [u8; 48] =
    *b"\x80\0\0\x2c\0\0\0\x03\0\0\0\0\0\0\0\x02\0\x06\x07\xaf\0\0\0\x01\0\0\0\x13\0\0\0\0\0\0\0\0\0\0\0\0\0\0\0\0\0\0\0\x02";

// create_link of `gpib2,5`, xid 1
const CREATE_ON_2: [u8; 68] =
    *b"\x80\0\0\x40\0\0\0\x01\0\0\0\0\0\0\0\x02\0\x06\x07\xaf\0\0\0\x01\0\0\0\x0a\0\0\0\0\0\0\0\0\0\0\0\0\0\0\0\0\0\0\0\0\0\0\0\0\0\0\0\0\0\0\0\x07gpib2,5\0";

// device_read of at most 10 bytes on link 3, for 1,000,000 ms at most, xid 2
const READ: [u8; 68] =
    *b"\x80\0\0\x40\0\0\0\x02\0\0\0\0\0\0\0\x02\0\x06\x07\xaf\0\0\0\x01\0\0\0\x0c\0\0\0\0\0\0\0\0\0\0\0\0\0\0\0\0\0\0\0\x03\0\0\0\x0a\0\x0f\x42\x40\0\0\0\0\0\0\0\0\0\0\0\0";

// device_abort of link 3, xid 3
const ABORT: [u8; 48] =
    *b"\x80\0\0\x2c\0\0\0\x03\0\0\0\0\0\0\0\x02\0\x06\x07\xb0\0\0\0\x01\0\0\0\x01\0\0\0\0\0\0\0\0\0\0\0\0\0\0\0\0\0\0\0\x03";

// link 1; the lock
const FIRST_TOOK: [u32; 19] = [
    0x80000028, 1, 1, 0, 0, 0, 0, 0, 1, 9011, 262144, 0x8000001C, 2, 1, 0, 0, 0, 0, 0,
];

// link 2; the lock; done
const SECOND_TOOK: [u32; 27] = [
    0x80000028, 1, 1, 0, 0, 0, 0, 0, 2, 9011, 262144, 0x8000001C, 2, 1, 0, 0, 0, 0, 0, 0x8000001C,
    3, 1, 0, 0, 0, 0, 0,
];

// link 3; the read ended by the abort, with nothing
const READER_TOOK: [u32; 21] = [
    0x80000028, 1, 1, 0, 0, 0, 0, 0, 3, 9011, 262144, 0x80000024, 2, 1, 0, 0, 0, 0, 23, 0, 0,
];

// done
const ABORTER_TOOK: [u32; 8] = [0x8000001C, 3, 1, 0, 0, 0, 0, 0];

/// Which session.
#[derive(Clone, Copy)]
pub(crate) enum Side {
    /// It makes a link, and waits for a lock.
    First,
    /// It has the lock, and frees it.
    Second,
    /// It makes a link to bus 2, and waits for what it reads there.
    Reader,
    /// It aborts that read.
    Aborter,
}

/// The words that the link of a side is to take.
fn wanted_of(side: Side) -> &'static [u32] {
    match side {
        Side::First => &FIRST_TOOK,
        Side::Second => &SECOND_TOOK,
        Side::Reader => &READER_TOOK,
        Side::Aborter => &ABORTER_TOOK,
    }
}

/// The record that a side gives in its step of this number, once it may; none at its end.
fn record_of(side: Side, flags: &Flags, step: u64) -> &'static [u8] {
    match (side, step) {
        (Side::First, 0) => &CREATE,
        (Side::First, 1) if comes(&flags.locked) => &LOCK_WAITING,
        (Side::Second, 0) if comes(&flags.made) => &CREATE,
        (Side::Second, 1) => &LOCK,
        (Side::Second, 2) if comes(&flags.paused) => &UNLOCK,
        (Side::Reader, 0) => &CREATE_ON_2,
        (Side::Reader, 1) => &READ,
        (Side::Aborter, 0) if comes(&flags.paused) => &ABORT,
        _ => &[],
    }
}

/// The link of a side: it gives a record a receive, and keeps what it takes.
#[derive(Drop)]
pub(crate) struct Crossing<'a> {
    side: Side,
    flags: &'a Flags,
    gave: u64,
    took: Vec<u8>,
    replies: u64,
    faults: u64,
}

impl<'a> Crossing<'a> {
    /// Nothing went over it yet.
    pub(crate) fn new(alloc: Global, side: Side, flags: &'a Flags) -> Crossing<'a> {
        Crossing {
            side,
            flags,
            gave: 0,
            took: Vec::new(alloc),
            replies: 0,
            faults: 0,
        }
    }

    /// Whether it took the words that it is to take, and no more.
    pub(crate) fn took_all(&self) -> bool {
        are_words(&self.took, wanted_of(self.side))
    }
}

impl<'a> Link for Crossing<'a> {
    ghost stands = { λ _ taken given. ⊥ };

    ghost left = { λ _. None };

    ghost receive_faults = { λ _. 0 };

    ghost send_faults = { λ c. c.faults };

    fn receive(&mut self, into: &mut [u8]) -> ReadOut {
        let record = record_of(self.side, self.flags, self.gave);
        let count = record.len().min(into.len());
        if count == 0 {
            return ReadOut::End;
        }
        into[..count].copy_from_slice(&record[..count]);
        self.gave = self.gave.saturating_add(1);
        ReadOut::Got(count)
    }

    fn send(&mut self, from: &[u8]) -> WriteOut {
        if self.took.extend_from_slice(from).is_err() {
            self.faults = self.faults.saturating_add(1);
            return WriteOut::Failed;
        }
        self.replies = self.replies.saturating_add(1);
        match (self.side, self.replies) {
            (Side::First, 1) => self.flags.made.store(1, Ordering::SeqCst),
            (Side::Second, 2) => self.flags.locked.store(1, Ordering::SeqCst),
            _ => {}
        }
        WriteOut::Took(from.len())
    }
}

/// Counts its pauses, and raises the flag.
#[derive(Drop)]
pub(crate) struct Pausing<'a> {
    pub(crate) flags: &'a Flags,
    pub(crate) count: u64,
}

impl<'a> Pause for Pausing<'a> {
    fn pause(&mut self) {
        self.flags.paused.store(1, Ordering::SeqCst);
        self.count = self.count.saturating_add(1);
        thread::yield_now();
    }
}

/// How a side's session ended, whether its link took what it should, and how often it paused.
#[derive(Clone, Copy)]
pub(crate) struct Ran {
    pub(crate) end: Option<End>,
    pub(crate) took: bool,
    pub(crate) pauses: u64,
}
