//! How a server parts from a peer that may still be sending. Where a socket is closed with bytes unread, or bytes come to it later, the
//! system sends a reset, and replies that are still on their way are lost. So the writing side is shut first, and what comes is
//! dropped until the peer has closed its side too, for a bounded time and size. No contract speaks of it: it changes when a
//! connection is closed, not which bytes come and go.

use libc::net as c;
use libc::types::{pollfd, timespec};
use std::alloc::{AllocError, Global};
use std::io::{ErrorKind, Read};
use std::net::{Shutdown, TcpStream};
use std::os::fd::AsRawFd;
use std::sync::atomic::{AtomicU64, Ordering};
use std::sync::{Arc, Mutex};

/// How long a peer has to close its side, in milliseconds.
const PATIENCE: u64 = 1_000;

/// How many bytes of a peer are dropped at most: more than the buffers of both systems hold, as Linux comes.
const ROOM: usize = 16 << 20;

/// How many bytes are read at once.
const PIECE: usize = 4_096;

/// How many reads are made at a look at one peer, at most.
const READS: u32 = 64;

/// How many peers may be parting at once from all ports of a net.
const PLACES: usize = 64;

/// How long it is to the next look where a peer is parting, in milliseconds.
pub(super) const SOON: u16 = 10;

/// How long it is to the next look where none is, in milliseconds.
pub(super) const LATE: u16 = 100;

/// The moment that the system's monotonic clock tells, in milliseconds; without a handle for it, since a link has none. The last of all
/// moments where it tells none, so that nobody is waited for.
fn moment() -> u64 {
    let mut time = timespec {
        tv_sec: 0,
        tv_nsec: 0,
    };
    if libc::clock_gettime(libc::CLOCK_MONOTONIC, &mut time) < 0 {
        return u64::MAX;
    }
    let seconds = u64::try_from(time.tv_sec).unwrap_or(0);
    let nanos = u64::try_from(time.tv_nsec).unwrap_or(0);
    seconds
        .saturating_mul(1_000)
        .saturating_add(nanos / 1_000_000)
}

/// Whether something comes at this socket in so many milliseconds, or the system can't tell.
pub(super) fn comes<S: AsRawFd>(socket: &S, milliseconds: u16) -> bool {
    let mut asked = [pollfd {
        fd: socket.as_raw_fd(),
        events: c::POLLIN,
        revents: 0,
    }];
    c::poll(&mut asked, i32::from(milliseconds)) != 0
}

/// A stream whose writing side is shut, and of which what comes is dropped. It is closed where this is dropped.
#[derive(Drop)]
struct Parting {
    stream: TcpStream,
    until: u64,
    room: usize,
}

impl Parting {
    /// Shuts the writing side of a stream. There is none where its reads would wait.
    fn begin(stream: TcpStream) -> Option<Parting> {
        let _ = stream.shutdown(Shutdown::Write);
        stream.set_nonblocking(true).ok()?;
        let until = moment().saturating_add(PATIENCE);
        Some(Parting {
            stream,
            until,
            room: ROOM,
        })
    }

    /// Drops what has come, and tells whether more is waited for.
    fn goes_on(&mut self) -> bool {
        let mut piece = [0u8; PIECE];
        for _ in 0..READS {
            match self.stream.read(&mut piece) {
                Ok(0) => return false,
                Ok(count) => self.room = self.room.saturating_sub(count),
                Err(error) if error.kind() == ErrorKind::WouldBlock => break,
                Err(error) if error.kind() == ErrorKind::Interrupted => {}
                Err(_) => return false,
            }
        }
        self.room > 0 && moment() < self.until
    }
}

/// Parts from the peer of a stream, and waits for that.
fn part_waiting(stream: TcpStream) {
    let Some(mut parting) = Parting::begin(stream) else {
        return;
    };
    for _ in 0..u64::MAX {
        if !parting.goes_on() {
            return;
        }
        let _ = comes(&parting.stream, SOON);
    }
}

/// The peers that are parting from a net. Whoever waits for a connection to one of its ports looks at them in between.
#[derive(Drop)]
pub(super) struct Partings {
    places: Vec<Mutex<Option<Parting>>>,
    // the moment of the next look
    due: AtomicU64,
}

impl Partings {
    /// Those of a net that has parted from nobody.
    pub(super) fn new(alloc: Global) -> Result<Partings, AllocError> {
        let mut places = Vec::new(alloc);
        for _ in 0..PLACES {
            places.push(Mutex::new(None))?;
        }
        let due = AtomicU64::new(0);
        Ok(Partings { places, due })
    }

    /// Begins to part from the peer of a stream. Where no place is free, the stream is closed at once.
    fn add(&self, stream: TcpStream) {
        let Some(mut parting) = Parting::begin(stream) else {
            return;
        };
        if !parting.goes_on() {
            return;
        }
        for place in self.places.iter() {
            if let Some(mut held) = place.try_lock() {
                if held.is_none() {
                    *held = Some(parting);
                    return;
                }
            }
        }
    }

    /// Looks at each of them once, where that is due, and tells whether one is still parting. So it costs little to ask, however often
    /// connections come.
    pub(super) fn look(&self) -> bool {
        let now = moment();
        if now < self.due.load(Ordering::SeqCst) {
            return true;
        }
        let is_any = self.look_now();
        let wait = if is_any { u64::from(SOON) } else { 0 };
        self.due.store(now.saturating_add(wait), Ordering::SeqCst);
        is_any
    }

    /// Looks at each of them once, and tells whether one is still parting.
    fn look_now(&self) -> bool {
        let mut is_any = false;
        for place in self.places.iter() {
            is_any = goes_on_at(place) || is_any;
        }
        is_any
    }
}

/// Looks at the one in this place, which is free where that is over, and tells whether one is still parting here.
fn goes_on_at(place: &Mutex<Option<Parting>>) -> bool {
    // one at which somebody else looks just now
    let Some(mut held) = place.try_lock() else {
        return true;
    };
    let goes_on = match &mut *held {
        Some(parting) => parting.goes_on(),
        None => false,
    };
    if !goes_on {
        *held = None;
    }
    goes_on
}

/// The peers that are parting from a net, as the net itself has them: it ends when they have parted.
pub(super) struct OwnPartings {
    shared: Option<Arc<Partings, Global>>,
}

impl OwnPartings {
    /// None, whose net closes each stream at once.
    pub(super) const NONE: OwnPartings = OwnPartings { shared: None };

    /// Those of a net that has parted from nobody; none where there is no memory for them.
    pub(super) fn new(alloc: Global) -> OwnPartings {
        let shared = match Partings::new(alloc) {
            Ok(partings) => Arc::new(alloc, partings).ok(),
            Err(_) => None,
        };
        OwnPartings { shared }
    }

    /// The same, for a link or a port of the net.
    pub(super) fn share(&self) -> Option<Arc<Partings, Global>> {
        share(&self.shared)
    }

    /// The same, to be looked at.
    pub(super) fn shared(&self) -> &Option<Arc<Partings, Global>> {
        &self.shared
    }
}

/// The same once more, or none where the system can't share them.
pub(super) fn share(partings: &Option<Arc<Partings, Global>>) -> Option<Arc<Partings, Global>> {
    match partings {
        Some(partings) => Arc::try_clone(partings).ok(),
        None => None,
    }
}

impl Drop for OwnPartings {
    fn drop(self) {
        let OwnPartings { shared } = self;
        if let Some(partings) = shared {
            see_off(&partings);
        }
    }
}

/// Looks until none is parting, for as long as those have that came by now.
fn see_off(partings: &Partings) {
    let until = moment().saturating_add(PATIENCE);
    for _ in 0..u64::MAX {
        if !partings.look() || moment() >= until {
            return;
        }
        let _ = c::poll(&mut [], i32::from(SOON));
    }
}

/// How a link parts from a peer that has not been seen to end.
#[derive(Drop)]
pub(super) enum Parts {
    /// Its stream is closed.
    AtOnce,
    /// Whoever drops the link waits.
    Waiting,
    /// It is left to those who wait for connections.
    Among(Arc<Partings, Global>),
}

impl Parts {
    /// Among these, or at once where there are none.
    pub(super) fn among(partings: Option<Arc<Partings, Global>>) -> Parts {
        match partings {
            Some(partings) => Parts::Among(partings),
            None => Parts::AtOnce,
        }
    }

    /// Parts from the peer of a stream.
    pub(super) fn part(self, stream: TcpStream) {
        match self {
            Parts::AtOnce => {}
            Parts::Waiting => part_waiting(stream),
            Parts::Among(partings) => partings.add(stream),
        }
    }
}
