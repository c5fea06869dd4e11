//! What the workers of a server are to do, before any of them is started.
ghost use Rattle.std.specs.Prelude.{◌≤◌, ◌+◌, ◌*◌, vec_len, IfOk};
ghost use Rattle.vx_calls.specs.declared.limits.TheConstants.{ROLE_MAX};

use crate::served::Served;
use crate::workers::{AbortKit, CoreKit, Duty, Pauses, Peer};
use crossbeam_channel::{Receiver, Sender, bounded};
use std::alloc::{AllocError, Global};
use std::sync::Arc;
use vx_calls::ROLE_MAX;
use vx_desks::{GuardRoom, Kit};
use vx_io_traits::{Net, Streams};
use vx_session::{Room, Tools};
use vx_startup::{Journal, Logs, Options};
use vx_stream::CountingLink;

/// How many links wait for a worker, at most.
const LINKS_WAITING: usize = 64;

/// What each worker of a server does, in the order in which they are started, and what the one has that takes core links: where they
/// go to, what it wants to serve one itself, and where they are counted.
#[derive(Drop)]
pub struct Plan<N: Net, X: Tools + Logs>
where
    N::Port: Drop,
    Peer<N>: Drop,
    <X::S as Streams>::Peer: Drop,
{
    pub duties: Vec<Duty<N, X>>,
    pub links: Sender<CountingLink<Peer<N>>>,
    pub kit: CoreKit<X::C, X::P, X::D, X::L>,
    pub served: Arc<Served, Global>,
}

/// The room of one session at a time.
fn room(alloc: Global) -> Result<Room, AllocError> {
    match Room::new(alloc) {
        Ok(room) => Ok(room),
        Err(_) => Err(AllocError),
    }
}

/// The room of one session at a time whose calls may be judged.
fn judged_room(alloc: Global) -> Result<GuardRoom, AllocError> {
    match GuardRoom::new(alloc) {
        Ok(room) => Ok(room),
        Err(_) => Err(AllocError),
    }
}

/// The log of one worker, with a clock of its own.
fn journal<X: Tools + Logs>(tools: &mut X) -> Journal<X::C, X::L> {
    Journal {
        clock: tools.clock(),
        sink: tools.log(),
    }
}

/// What serves one core link at a time.
fn core_kit<X: Tools + Logs>(
    alloc: Global,
    tools: &mut X,
    served: &Arc<Served, Global>,
) -> Result<CoreKit<X::C, X::P, X::D, X::L>, AllocError> {
    let served = Arc::try_clone(served)?;
    let room = judged_room(alloc)?;
    let kit = Kit {
        clock: tools.clock(),
        pause: tools.pause(),
        dial: tools.dial(),
        room,
    };
    Ok(CoreKit {
        tools: kit,
        journal: journal(tools),
        served,
    })
}

/// What serves one abort link at a time.
fn abort_kit<X: Tools + Logs>(
    alloc: Global,
    tools: &mut X,
) -> Result<AbortKit<X::C, X::L>, AllocError> {
    let room = room(alloc)?;
    Ok(AbortKit {
        room,
        journal: journal(tools),
    })
}

/// So many whole pauses in a row.
fn pauses<X: Tools>(tools: &mut X, times: u32) -> Pauses<X::P> {
    Pauses {
        one: tools.whole_pause(),
        times,
    }
}

/// Adds a worker of core links, and one of streams that are handed over, which makes `sample` pauses in a row.
fn add_pair<N: Net, X: Tools + Logs>(
    alloc: Global,
    tools: &mut X,
    served: &Arc<Served, Global>,
    links: &Receiver<CountingLink<Peer<N>>>,
    sample: u32,
    duties: &mut Vec<Duty<N, X>>,
) -> Result<(), AllocError>
where
    N::Port: Drop,
    Peer<N>: Drop,
    <X::S as Streams>::Peer: Drop,
    ensures { vec_len duties.new ≤ vec_len duties.old + 2 }
{
    let links = links.clone()?;
    let kit = core_kit(alloc, tools, served)?;
    duties.push(Duty::Core { links, kit })?;
    let pause = pauses(tools, sample);
    duties.push(Duty::Pump {
        streams: tools.streams(),
        pause,
    })?;
    Ok(())
}

/// Adds workers of core links, and of streams that are handed over, as many of each as the options say, and answers where the core
/// links go in. Where the workers are gone, each link comes back.
fn add_pairs<N: Net, X: Tools + Logs>(
    alloc: Global,
    tools: &mut X,
    served: &Arc<Served, Global>,
    options: Options,
    duties: &mut Vec<Duty<N, X>>,
) -> Result<Sender<CountingLink<Peer<N>>>, AllocError>
where
    N::Port: Drop,
    Peer<N>: Drop,
    <X::S as Streams>::Peer: Drop,
    ensures { vec_len duties.new ≤ vec_len duties.old + 2 * options.workers }
{
    let (links, takers) = bounded(alloc, LINKS_WAITING)?;
    for _ in 0..options.workers {
        add_pair::<N, X>(alloc, tools, served, &takers, options.sample, duties)?;
    }
    Ok(links)
}

/// Adds a worker of abort links.
fn add_abort<N: Net, X: Tools + Logs>(
    alloc: Global,
    tools: &mut X,
    links: &Receiver<CountingLink<Peer<N>>>,
    duties: &mut Vec<Duty<N, X>>,
) -> Result<(), AllocError>
where
    N::Port: Drop,
    Peer<N>: Drop,
    <X::S as Streams>::Peer: Drop,
    ensures { vec_len duties.new ≤ vec_len duties.old + 1 }
{
    let links = links.clone()?;
    let kit = abort_kit(alloc, tools)?;
    duties.push(Duty::Abort { links, kit })?;
    Ok(())
}

/// Adds the workers of abort links, and answers where these go in: as many workers as abort connections may live, so that none that
/// says nothing keeps the device_abort of another waiting.
fn add_aborts<N: Net, X: Tools + Logs>(
    alloc: Global,
    tools: &mut X,
    duties: &mut Vec<Duty<N, X>>,
) -> Result<Sender<CountingLink<Peer<N>>>, AllocError>
where
    N::Port: Drop,
    Peer<N>: Drop,
    <X::S as Streams>::Peer: Drop,
    ensures { vec_len duties.new ≤ vec_len duties.old + ROLE_MAX }
{
    let (links, takers) = bounded(alloc, LINKS_WAITING)?;
    for _ in 0..ROLE_MAX {
        add_abort::<N, X>(alloc, tools, &takers, duties)?;
    }
    Ok(links)
}

/// Adds the worker that takes abort links at the port, and the sampler, which comes last and makes `sample` pauses between two looks.
fn add_last<N: Net, X: Tools + Logs>(
    alloc: Global,
    tools: &mut X,
    served: Arc<Served, Global>,
    links: Sender<CountingLink<Peer<N>>>,
    sample: u32,
    port: N::Port,
    duties: &mut Vec<Duty<N, X>>,
) -> Result<(), AllocError>
where
    N::Port: Drop,
    Peer<N>: Drop,
    <X::S as Streams>::Peer: Drop,
    ensures { vec_len duties.new ≤ vec_len duties.old + 2 }
{
    let kit = abort_kit(alloc, tools)?;
    duties.push(Duty::Accept { port, links, kit })?;
    let pause = pauses(tools, sample);
    duties.push(Duty::Sample {
        clock: tools.clock(),
        pause,
        served,
    })?;
    Ok(())
}

/// The plan of a server that takes abort links at the port.
pub fn plan_all<N: Net, X: Tools + Logs>(
    alloc: Global,
    tools: &mut X,
    options: Options,
    port: N::Port,
) -> Result<Plan<N, X>, AllocError>
where
    N::Port: Drop,
    Peer<N>: Drop,
    <X::S as Streams>::Peer: Drop,
    ensures { IfOk result (λ plan. vec_len plan.duties ≤ 2 * options.workers + ROLE_MAX + 2) }
{
    let served = Arc::new(alloc, Served::new())?;
    let kit = core_kit(alloc, tools, &served)?;
    let mut duties = Vec::new(alloc);
    let links = add_pairs::<N, X>(alloc, tools, &served, options, &mut duties)?;
    let aborts = add_aborts::<N, X>(alloc, tools, &mut duties)?;
    let ours = Arc::try_clone(&served)?;
    add_last::<N, X>(
        alloc,
        tools,
        ours,
        aborts,
        options.sample,
        port,
        &mut duties,
    )?;
    Ok(Plan {
        duties,
        links,
        kit,
        served,
    })
}
