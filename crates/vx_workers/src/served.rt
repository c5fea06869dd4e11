//! The core links that a server has served, and whether it has ended.
ghost use Rattle.std.specs.Prelude.{◌≡◌};

use std::mem;
use std::sync::atomic::{AtomicU64, Ordering};
use std::sync::{Condvar, Mutex, Wait};
use vx_io_traits::Link;
use vx_session::{LinkDone, Tally};

/// What the workers of one server share besides the gate: the count of the core links that came to their end, and whether the
/// server has ended.
#[derive(Drop)]
pub struct Served {
    tally: Mutex<Tally>,
    /// Told of each link that was added to the tally.
    added: Condvar,
    /// 0 until the server ends.
    over: AtomicU64,
}

impl Served {
    /// Nothing was served yet.
    pub fn new() -> Served {
        Served {
            tally: Mutex::new(Tally::new()),
            added: Condvar::new(),
            over: AtomicU64::new(0),
        }
    }

    /// Counts a link, and drops it, which closes it.
    pub fn add<R: Wait, L: Link + Drop>(&self, rt: &R, done: LinkDone<L>) {
        self.tally.lock(rt).add(done);
        self.added.notify_one();
    }

    /// Waits until so many links were served, and takes their count.
    pub fn wait_for<R: Wait>(&self, rt: &R, number: u64) -> Tally
        ensures { result ≡ number }
    {
        let mut served = self
            .added
            .wait_while(rt, self.tally.lock(rt), |tally| tally.number() != number);
        mem::replace(&mut *served, Tally::new())
    }

    /// Tells the workers that the server has ended.
    pub fn end(&self) {
        self.over.store(1, Ordering::SeqCst);
    }

    /// Whether it has.
    pub fn is_over(&self) -> bool {
        self.over.load(Ordering::SeqCst) > 0
    }
}
