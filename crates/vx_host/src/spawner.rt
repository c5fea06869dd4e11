//! Workers as threads of the host.
ghost use Rattle.std.specs.Prelude.{◌≡◌, ◌≤◌};
ghost use Rattle.vx_io.specs.Faults.{Rose, one_more};
ghost use Rattle.vx_io.specs.Accepts.{OnRefused};

use crossbeam_channel::{Receiver, Sender};
use std::marker::Model;
use std::sync::Wait;
use std::thread::{self, Threads};
use vx_io::{Spawner, Started, Work};

/// Starts each work in a thread of its own. A trait's method starts no thread itself: it hands the work to the one thread that
/// starts the others ([`start_threads`]), and waits for what came of it.
#[derive(Drop)]
pub struct ThreadSpawner<R, J: Drop> {
    rt: R,
    jobs: Sender<J>,
    started: Receiver<Started>,
    faults: u64,
}

impl<R, J: Drop> Model for ThreadSpawner<R, J> {
    ghost use Rattle.std.specs.Prelude.{ℕ};

    // How many works were refused.
    ghost Value = { ℕ };

    ghost view = { λ s. s.faults };
}

impl<R, J: Drop> ThreadSpawner<R, J> {
    /// A spawner that hands works over here and is told there what came of each.
    pub fn new(rt: R, jobs: Sender<J>, started: Receiver<Started>) -> ThreadSpawner<R, J>
        ensures { result ≡ 0 }
    {
        ThreadSpawner {
            rt,
            jobs,
            started,
            faults: 0,
        }
    }
}

impl<R: Wait, J: Work + Drop> Spawner<J> for ThreadSpawner<R, J> {
    ghost faults = { λ s. s };

    /// Starts a thread for the work. Where the host has none, the work is dropped and a fault is counted.
    fn start(&mut self, job: J) -> Started
        ensures counted { self.old ≤ self.new }
        ensures refused { OnRefused result (self.new ≡ one_more self.old) }
    {
        if self.jobs.send(&self.rt, job).is_ok() && self.started.recv(&self.rt) == Ok(Started::Up) {
            return Started::Up;
        }
        self.faults = self.faults.saturating_add(1);
        Started::Refused
    }
}

/// What the thread that starts the others does: it starts a thread for each work that is handed over, tells what came of it, and
/// ends where no more come.
pub fn start_threads<R: Threads + Wait + Copy + Send + 'static, J: Work + Send + Drop + 'static>(
    rt: R,
    jobs: Receiver<J>,
    started: Sender<Started>,
) {
    for _ in rt.forever() {
        let Ok(job) = jobs.recv(&rt) else {
            return;
        };
        let answer = match thread::spawn(&rt, move || job.run(&rt)) {
            Ok(_) => Started::Up,
            Err(_) => Started::Refused,
        };
        if started.send(&rt, answer).is_err() {
            return;
        }
    }
}
