//! What a server starts before it takes its first link: its workers, each with a part of the access.
ghost use Rattle.std.specs.Prelude.{◌≡◌, ◌-◌, ◌≤◌, ◌<◌, vec_len, IfOk};
ghost use Rattle.vx_io_traits.specs.Faults.{Rose};
ghost use Rattle.vx_startup.specs.Meant.{IsServerInRange};
ghost use Rattle.vx_workers.specs.declared.starting.Unstarted.TheVariants.{NoMemory};
ghost use Rattle.vx_workers.specs.Starting.{OnUnstarted};

use crate::access::Access;
use crate::planning::{Plan, plan_all};
use crate::served::Served;
use crate::workers::{CoreWorker, Duty, Job, Peer};
use crossbeam_channel::Sender;
use std::alloc::{AllocError, Global};
use std::sync::Arc;
use vx_io_traits::{Net, Spawner, Started, Streams};
use vx_session::Tools;
use vx_startup::{Logs, Options};
use vx_stream::CountingLink;

/// Why the workers of a server aren't all started.
#[derive(Clone, Copy)]
pub enum Unstarted {
    /// The spawner refused one.
    Refused,
    /// There was no memory for what one needs.
    NoMemory,
}

impl From<AllocError> for Unstarted {
    ghost from_gives = { λ _ e. e ≡ NoMemory };

    fn from(_: AllocError) -> Unstarted {
        Unstarted::NoMemory
    }
}

/// Starts a worker, by a part of the access.
fn start_worker<A: Access + Drop, T: Drop, J: Job<A, T>, W: Spawner<J>>(
    spawner: &mut W,
    access: A,
    duty: T,
) -> Result<A, Unstarted>
    requires parts { 2 ≤ A.parts access }
    ensures parts { IfOk result (λ s. A.parts s ≡ A.parts access - 1) }
    ensures counted { W.faults spawner.old ≤ W.faults spawner.new }
    ensures refused { OnUnstarted result (Rose (W.faults spawner.old) (W.faults spawner.new)) }
{
    let (access, theirs) = access.part()?;
    match spawner.start(J::of(theirs, duty)) {
        Started::Up => Ok(access),
        Started::Refused => Err(Unstarted::Refused),
    }
}

/// Starts a worker for each of these duties, one after the other.
fn start_each<A: Access + Drop, T: Drop, J: Job<A, T>, W: Spawner<J>>(
    spawner: &mut W,
    access: A,
    duties: Vec<T>,
) -> Result<A, Unstarted>
    requires parts { vec_len duties < A.parts access }
    ensures counted { W.faults spawner.old ≤ W.faults spawner.new }
    ensures refused { OnUnstarted result (Rose (W.faults spawner.old) (W.faults spawner.new)) }
{
    let mut access = access;
    for duty in duties {
        access = start_worker::<A, T, J, W>(spawner, access, duty)?;
    }
    Ok(access)
}

/// What takes core links: where they go to, what serves one that comes back, and where they are counted.
#[derive(Drop)]
pub struct Acceptor<L: Drop, V: Drop> {
    pub links: Sender<CountingLink<L>>,
    pub worker: V,
    pub served: Arc<Served, Global>,
}

/// The one of these types.
pub type AcceptorOf<N, X, A> = Acceptor<
    Peer<N>,
    CoreWorker<A, <X as Tools>::C, <X as Tools>::P, <X as Tools>::D, <X as Logs>::L>,
>;

/// Starts all workers of a server. What takes core links comes back.
pub fn start_all<N: Net, X: Tools + Logs, A: Access + Drop, J: Job<A, Duty<N, X>>, W: Spawner<J>>(
    alloc: Global,
    spawner: &mut W,
    tools: &mut X,
    access: A,
    options: Options,
    port: N::Port,
) -> Result<AcceptorOf<N, X, A>, Unstarted>
where
    N::Port: Drop,
    Peer<N>: Drop,
    <X::S as Streams>::Peer: Drop,
    requires range { IsServerInRange options }
    requires parts { A.parts access ≡ 4294967296 }
    ensures counted { W.faults spawner.old ≤ W.faults spawner.new }
    ensures refused { OnUnstarted result (Rose (W.faults spawner.old) (W.faults spawner.new)) }
{
    let Plan {
        duties,
        links,
        kit,
        served,
    } = plan_all::<N, X>(alloc, tools, options, port)?;
    let access = start_each::<A, Duty<N, X>, J, W>(spawner, access, duties)?;
    Ok(Acceptor {
        links,
        worker: CoreWorker { access, kit },
        served,
    })
}
