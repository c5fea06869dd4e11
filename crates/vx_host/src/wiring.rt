//! What a server has of its host, wired up.
ghost use Rattle.std.specs.Prelude.{◌≡◌, IfOk};

use crate::spawner::{ThreadSpawner, start_threads};
use crate::tools::TcpTools;
use crossbeam_channel::bounded;
use std::alloc::{AllocError, Global};
use std::io::Stderr;
use std::sync::Wait;
use std::thread::{self, Threads};
use vx_io::Work;
use vx_policy::Policy;

/// How many streams wait for a pump, at most.
const STREAMS_WAITING: usize = 64;

/// What starts a server's workers, and its tools, which have channels to each other and to the thread that starts the workers.
#[derive(Drop)]
pub struct Wiring<R, J: Drop> {
    /// Starts the workers.
    pub spawner: ThreadSpawner<R, J>,
    /// The clocks, pauses, dials and logs of the workers, and their access rules.
    pub tools: TcpTools<R>,
}

/// Makes the channels, and starts the thread that starts the workers. Where the host has no thread for that, its ends of the channels
/// are gone, and each worker is refused. Logs go to this standard error where there is a log. The tools have these access rules.
pub fn wire<R, J>(
    rt: R,
    alloc: Global,
    stderr: Stderr,
    has_log: bool,
    policy: Option<Policy>,
) -> Result<Wiring<R, J>, AllocError>
where
    R: Threads + Wait + Copy + Send + 'static,
    J: Work + Send + Drop + 'static,
    ensures { IfOk result (λ wiring. wiring.spawner ≡ 0) }
{
    let (pumps, dialed) = bounded(alloc, STREAMS_WAITING)?;
    let (answers, started) = bounded(alloc, 1)?;
    let (jobs, queue) = bounded(alloc, 1)?;
    let _ = thread::spawn(&rt, move || start_threads(rt, queue, answers));
    Ok(Wiring {
        spawner: ThreadSpawner::new(rt, jobs, started),
        tools: TcpTools::new(rt, pumps, dialed, stderr, has_log, policy),
    })
}
