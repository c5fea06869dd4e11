//! The places of the links of a net's further ports: a link that gets no byte gives its place up where another waits for one. No
//! contract speaks of it: it changes when a receive fails, and that one may fail at any moment is said already.

ghost use Rattle.std.specs.Prelude.{◌≤◌, length, IfSome};

use super::keeping::time_of;
use super::standard::try_read;
use std::alloc::Global;
use std::io::ErrorKind;
use std::net::TcpStream;
use std::sync::Arc;
use std::sync::atomic::{AtomicU64, Ordering};
use std::time::Duration;

/// How often a link that is idle for long looks whether another waits for its place, in seconds.
const LOOK: u64 = 1;

/// The links of some ports, in three counts that never fall: how many came, how many of these wait for their first receive no
/// longer, and up to which of them places were given up. A link counts as one that came before it is handed to anybody, and once
/// as one that has left; all steps are in one order (`SeqCst`).
///
/// So where more links had come at one look than have left at a later one, some link waits from the one to the other. Two links
/// that free workers are just taking, one at each look, can't be taken for it.
#[derive(Drop)]
pub(super) struct Crowd {
    came: AtomicU64,
    left: AtomicU64,
    given: AtomicU64,
}

impl Crowd {
    /// That of a net without links.
    pub(super) fn new() -> Crowd {
        Crowd {
            came: AtomicU64::new(0),
            left: AtomicU64::new(0),
            given: AtomicU64::new(0),
        }
    }

    /// How many links have come.
    fn count(&self) -> u64 {
        self.came.load(Ordering::SeqCst)
    }

    /// One more link comes, and waits.
    fn enter(&self) {
        self.came.fetch_add(1, Ordering::SeqCst);
    }

    /// One link waits no longer, be it for a place that was given up or for another.
    fn leave(&self) {
        self.left.fetch_add(1, Ordering::SeqCst);
    }

    /// Whether this place is given up, for one of the first `came` links: one of them waits still, and no place was given up for
    /// it. If so, that counts. Where another place is given up at the same moment this one stays, until the next look.
    fn claims(&self, came: u64) -> bool {
        let given = self.given.load(Ordering::SeqCst);
        let provided = self.left.load(Ordering::SeqCst).max(given);
        if provided >= came {
            return false;
        }
        self.given
            .compare_exchange(given, provided + 1, Ordering::SeqCst, Ordering::SeqCst)
            .is_ok()
    }
}

/// One of those that wait, until it is let go.
struct Waits {
    crowd: Arc<Crowd, Global>,
}

impl Drop for Waits {
    fn drop(self) {
        let Waits { crowd } = self;
        crowd.leave();
    }
}

/// The place of a link, which has its first receive yet to come.
#[derive(Drop)]
pub(super) struct Place {
    crowd: Arc<Crowd, Global>,
    waits: Option<Waits>,
    idle: u32,
}

impl Place {
    /// A place that isn't given up before a receive has waited for so many seconds; none where they are 0, or the system can't
    /// share the crowd.
    pub(super) fn among(crowd: &Option<Arc<Crowd, Global>>, idle: u32) -> Option<Place> {
        let crowd = crowd.as_ref()?;
        let own = Arc::try_clone(crowd).ok()?;
        let shared = Arc::try_clone(crowd).ok()?;
        own.enter();
        Some(Place {
            crowd: own,
            waits: Some(Waits { crowd: shared }),
            idle,
        })
    }

    /// The link is served.
    pub(super) fn taken(&mut self) {
        self.waits = None;
    }

    /// How many bytes a read gave that slept for them, 0 at the end, or none where it failed, or got none for so long that the place
    /// was given up.
    pub(super) fn wait_for(&self, stream: &mut TcpStream, into: &mut [u8]) -> Option<usize>
        ensures { IfSome result (λ n. n ≤ length into.new) }
    {
        match try_read(stream, into) {
            Ok(count) => return Some(count),
            Err(ErrorKind::WouldBlock) => {}
            Err(_) => return None,
        }
        // idle for long: from here on it looks again and again whether another waits
        let _ = stream.set_read_timeout(Some(Duration::from_secs(LOOK)));
        let given = self.stay(stream, into);
        let _ = stream.set_read_timeout(time_of(self.idle));
        given
    }

    /// As `wait_for`, of a link that has been idle for so long. Its place is given up for a link that had come at the look before
    /// this one and waits still: a free worker would have taken it in the time between.
    fn stay(&self, stream: &mut TcpStream, into: &mut [u8]) -> Option<usize>
        ensures { IfSome result (λ n. n ≤ length into.new) }
    {
        let mut came = 0;
        for _ in 0..u64::MAX {
            if self.crowd.claims(came) {
                return None;
            }
            came = self.crowd.count();
            match try_read(stream, into) {
                Ok(count) => return Some(count),
                Err(ErrorKind::WouldBlock) => {}
                Err(_) => return None,
            }
        }
        None
    }
}
