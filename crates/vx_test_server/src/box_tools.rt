//! A gateway as a box: a link in memory to it, whose connection breaks where a test says.

ghost use Rattle.std.specs.Prelude.{◌≡◌, ◌<◌, ◌≤◌, length, None};
ghost use Rattle.vx_calls.specs.declared.limits.TheConstants.{RECORD_MAX};

use std::alloc::Global;
use std::sync::Arc;
use std::sync::atomic::{AtomicU64, Ordering};
use vx_488::Bus;
use vx_calls::{RECORD_MAX, Role};
use vx_core::Core;
use vx_exchange::{Opened, PollEnd, REPLY_ROOM, again, come, open};
use vx_io_traits::{DialOut, Link, Reach, ReadOut, WriteOut};

/// The bytes of a record's mark.
const MARK: usize = 4;

/// How often a call that waits is polled.
const POLLS: u32 = 20_000;

/// A gateway at the other end of a link. A record is handed over by one send, and is a call that is polled, a millisecond a poll, until it is
/// answered. A connection that broke ends there.
#[derive(Drop)]
pub(crate) struct Peer<B: Bus + Drop> {
    alloc: Global,
    core: Core<B>,
    /// The connection that there is; 0 where there is none.
    conn: u32,
    xid: u32,
    /// The room of a reply, and which part of it is still to be given.
    reply: Vec<u8>,
    from: usize,
    to: usize,
    /// How many records were sent.
    records: Count,
    /// How many reaches were made.
    reaches: u64,
    conduct: Conduct,
}

/// A number that others see too.
pub(crate) type Count = Arc<AtomicU64, Global>;

/// When a connection breaks and how time passes.
#[derive(Clone, Copy)]
pub(crate) struct Conduct {
    /// The number of the record, counted from 1, at which the connection breaks before it is handed over, and of the one at which it
    /// breaks once the call was done.
    pub before: u64,
    pub behind: u64,
    /// The first and the last of the reaches that are refused, counted from 1.
    pub refuses: (u64, u64),
    /// How many milliseconds pass with each record.
    pub pace: u64,
}

/// It never breaks, and no time passes.
pub(crate) const CALM: Conduct = Conduct {
    before: 0,
    behind: 0,
    refuses: (0, 0),
    pace: 0,
};

/// A link to a gateway. A reach makes another connection.
#[derive(Drop)]
pub(crate) struct BoxLink<B: Bus + Drop> {
    peer: Peer<B>,
    refused: u64,
    send_faults: u64,
}

/// A count of nothing yet.
pub(crate) fn count_of(alloc: Global) -> Option<Count> {
    Arc::new(alloc, AtomicU64::new(0)).ok()
}

/// A link of this conduct to this gateway. Its records are counted here.
pub(crate) fn box_link<B: Bus + Drop>(
    alloc: Global,
    core: Core<B>,
    conduct: Conduct,
    records: Count,
) -> Option<BoxLink<B>> {
    match vec![in alloc; 0u8; REPLY_ROOM] {
        Ok(reply) => Some(BoxLink {
            peer: Peer {
                alloc,
                core,
                conn: 0,
                xid: 0,
                reply,
                from: 0,
                to: 0,
                records,
                reaches: 0,
                conduct,
            },
            refused: 0,
            send_faults: 0,
        }),
        Err(_) => None,
    }
}

impl<B: Bus + Drop> Peer<B> {
    /// The connection ends, with what is left of a reply.
    fn fall(&mut self) {
        if self.core.role(self.conn).is_some() {
            self.core.disconnect(self.conn);
        }
        self.conn = 0;
        self.from = 0;
        self.to = 0;
    }

    /// The reply is what a poll came to.
    fn note(&mut self, end: PollEnd) {
        self.from = 0;
        self.to = match end {
            PollEnd::Replied { len, .. } => len,
            _ => 0,
        };
    }

    /// Hands a message to the gateway.
    fn serve(&mut self, message: &[u8])
        requires { length message.now ≤ RECORD_MAX }
    {
        if self.reply.len() < REPLY_ROOM {
            return;
        }
        match open(message, Role::Core, self.reply.as_mut_slice()) {
            Opened::Junk | Opened::Aborts { .. } | Opened::Answered { .. } => self.fall(),
            Opened::Asks { xid, call } => {
                if self.core.role(self.conn) == Some(Role::Core) && !self.core.pending(self.conn) {
                    let now = self.core.moment().saturating_add(self.conduct.pace);
                    self.xid = xid;
                    let end = come(
                        &mut self.core,
                        self.conn,
                        xid,
                        &call,
                        now,
                        self.reply.as_mut_slice(),
                    );
                    self.note(end);
                }
            }
        }
    }

    /// Takes a record.
    fn take(&mut self, record: &[u8]) {
        let number = self
            .records
            .fetch_add(1, Ordering::SeqCst)
            .saturating_add(1);
        if self.conduct.before == number {
            self.fall();
            return;
        }
        if MARK < record.len() && record.len() <= MARK + RECORD_MAX {
            self.serve(&record[MARK..]);
        }
        if self.conduct.behind == number {
            self.fall();
        }
    }

    /// Polls the call that waits, a millisecond later.
    fn poll(&mut self) {
        if self.core.pending(self.conn) && REPLY_ROOM <= self.reply.len() {
            let now = self.core.moment().saturating_add(1);
            let end = again(
                &mut self.core,
                self.conn,
                self.xid,
                now,
                self.reply.as_mut_slice(),
            );
            self.note(end);
        }
    }

    /// Polls it until it is answered.
    fn wait(&mut self) {
        for _ in 0..POLLS {
            if !self.core.pending(self.conn) {
                return;
            }
            self.poll();
        }
    }

    /// Gives the next bytes of the reply that there is.
    fn give(&mut self, into: &mut [u8]) -> usize
        requires { 0 < length into.old }
        ensures { result ≤ length into.old }
    {
        if self.to <= self.from || self.reply.len() < self.to {
            return 0;
        }
        let count = (self.to - self.from).min(into.len());
        let end = self.from + count;
        into[..count].copy_from_slice(&self.reply[self.from..end]);
        self.from = end;
        count
    }

    /// Makes another connection, and says whether there is one.
    fn connect(&mut self) -> bool {
        self.reaches = self.reaches.saturating_add(1);
        let (first, last) = self.conduct.refuses;
        if first <= self.reaches && self.reaches <= last {
            return false;
        }
        self.fall();
        match self.core.connect(self.alloc, Role::Core) {
            Ok(conn) => {
                self.conn = conn;
                true
            }
            Err(_) => false,
        }
    }
}

impl<B: Bus + Drop> Link for BoxLink<B> {
    ghost stands = { λ _ taken given. ⊥ };

    ghost left = { λ _. None };

    ghost receive_faults = { λ _. 0 };

    ghost send_faults = { λ l. l.send_faults };

    fn receive(&mut self, into: &mut [u8]) -> ReadOut {
        self.peer.wait();
        let count = self.peer.give(into);
        if count == 0 {
            return ReadOut::End;
        }
        ReadOut::Got(count)
    }

    fn send(&mut self, from: &[u8]) -> WriteOut {
        if self.peer.conn == 0 {
            self.send_faults = self.send_faults.saturating_add(1);
            return WriteOut::Failed;
        }
        self.peer.take(from);
        WriteOut::Took(from.len())
    }
}

impl<B: Bus + Drop> Reach for BoxLink<B> {
    ghost refused = { λ l. l.refused };

    fn reach(&mut self, _host: &str, _port: u16) -> DialOut {
        if self.peer.connect() {
            return DialOut::Up;
        }
        self.refused = self.refused.saturating_add(1);
        DialOut::Failed
    }
}
