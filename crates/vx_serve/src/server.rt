//! The server: its words, its bench, its ports, its workers, and the links that it takes.
ghost use Rattle.std.specs.Prelude.{◌≡◌, map, string_bytes, true};
ghost use Rattle.vx_sim.specs.Means.{first_means};
ghost use Rattle.vx_startup.specs.Ends.{source_shown, sink_shown};
ghost use Rattle.vx_startup.specs.Meant.{IsServerInRange};
ghost use Rattle.vx_startup.specs.Spares.{spare_shown};
ghost use Rattle.vx_sim.specs.Occupants.{handed_in};
ghost use Rattle.vx_serve.specs.Hosting.{ports_shown};
ghost use Rattle.vx_startup.specs.Running.{ServerEndsRun, LinksEnd, LinksServed, net_shown};
ghost use Rattle.vx_startup.specs.Outcome.{ServerEnds, ServerEndsSo, IsDone};

use crossbeam_channel::Sender;
use std::alloc::Global;
use std::sync::Wait;
use vx_488::Bus;
use vx_inst::Instrument;
use vx_io_traits::{Net, Sink, Source, Spawner, Streams};
use vx_policy::NameTable;
use vx_rack::Spare;
use vx_session::{Tally, Tools};
use vx_sim::SimBus;
use vx_startup::{
    Logs, Options, Placed, Rules, ServerStatus, announce, open_ports, prepare, tell_served,
};
use vx_stream::CountingLink;
use vx_workers::{
    Acceptor, Attend, Duty, GateAccess, Job, LabBook, LinkAccess, Peer, ServeBus, Served,
    Unstarted, accept_links, start_all,
};

/// The work of one worker of a server over the simulated bus.
pub type Serve<N, X, I> = ServeBus<N, X, SimBus<I>>;

/// How a run of a server ended, and the links that it served.
#[derive(Drop)]
pub struct Ended {
    pub status: ServerStatus,
    pub tally: Tally,
}

impl Ended {
    /// An end of which no links are counted.
    pub fn early(status: ServerStatus) -> Ended
        ensures { result.status ≡ status }
    {
        Ended {
            status,
            tally: Tally::new(),
        }
    }
}

/// What a server has of its host: a runtime, memory, a net, the spawner of its workers, their tools, and where its lines go.
#[derive(Drop)]
pub struct Host<'r, 'n, 'w, 'x, 'k, R, N, W, X, K> {
    pub rt: &'r R,
    pub alloc: Global,
    pub net: &'n mut N,
    pub spawner: &'w mut W,
    pub tools: &'x mut X,
    pub sink: &'k mut K,
}

/// Takes links, waits until each was served, and tells how many there were.
fn serve_announced<R: Wait, N: Net, V: Attend<CountingLink<Peer<N>>> + Drop, K: Sink>(
    rt: &R,
    limit: u32,
    links: &Sender<CountingLink<Peer<N>>>,
    worker: V,
    served: &Served,
    net: &mut N,
    sink: &mut K,
) -> Ended
where
    Peer<N>: Placed + Drop,
    requires open { N.is_open net.old ≡ true }
    ensures { LinksServed limit
        (ports_shown N.Net K.Sink net.old sink.old)
        (ports_shown N.Net K.Sink net.new sink.new)
        result.tally result.status }
{
    let Some(number) = accept_links(rt, net, limit, links, worker) else {
        return Ended::early(ServerStatus::NetFailed);
    };
    let tally = served.wait_for(rt, number);
    let status = tell_served(sink, number);
    Ended { status, tally }
}

/// Announces the ports, and serves links at them.
fn serve_links<R: Wait, N: Net, V: Attend<CountingLink<Peer<N>>> + Drop, K: Sink>(
    rt: &R,
    options: Options,
    links: &Sender<CountingLink<Peer<N>>>,
    worker: V,
    served: &Served,
    net: &mut N,
    sink: &mut K,
) -> Ended
where
    Peer<N>: Placed + Drop,
    requires open { N.is_open net.old ≡ true }
    ensures { LinksEnd options
        (ports_shown N.Net K.Sink net.old sink.old)
        (ports_shown N.Net K.Sink net.new sink.new)
        result.tally result.status }
{
    match announce(sink, options.core, options.abort) {
        Ok(()) => serve_announced(rt, options.limit, links, worker, served, net, sink),
        Err(_) => Ended::early(ServerStatus::SinkFailed),
    }
}

/// Serves links with all the workers that are started. The sampler ends with it.
fn serve_accepting<R: Wait, N: Net, V: Attend<CountingLink<Peer<N>>> + Drop, K: Sink>(
    rt: &R,
    options: Options,
    acceptor: Acceptor<Peer<N>, V>,
    net: &mut N,
    sink: &mut K,
) -> Ended
where
    Peer<N>: Placed + Drop,
    requires open { N.is_open net.old ≡ true }
    ensures { LinksEnd options
        (ports_shown N.Net K.Sink net.old sink.old)
        (ports_shown N.Net K.Sink net.new sink.new)
        result.tally result.status }
{
    let Acceptor {
        links,
        worker,
        served,
    } = acceptor;
    let ended = serve_links(rt, options, &links, worker, &served, net, sink);
    served.end();
    ended
}

/// Starts the workers, each by a part of the access, and serves links at the ports, which are open.
fn serve_open<
    R: Wait,
    N: Net,
    X: Tools + Logs,
    A: LinkAccess<CountingLink<Peer<N>>> + Drop,
    J: Job<A, Duty<N, X>>,
    W: Spawner<J>,
    K: Sink,
>(
    host: &mut Host<'_, '_, '_, '_, '_, R, N, W, X, K>,
    options: Options,
    port: N::Port,
    access: A,
) -> Ended
where
    N::Port: Drop,
    Peer<N>: Placed + Drop,
    <X::S as Streams>::Peer: Drop,
    requires range { IsServerInRange options }
    requires open { N.is_open host.old.net.now ≡ true }
    requires parts { A.parts access ≡ 4294967296 }
    ensures ends { ServerEndsRun options
        (ports_shown N.Net K.Sink host.old.net.now host.old.sink.now) (W.faults host.old.spawner.now)
        (ports_shown N.Net K.Sink host.new.net.now host.new.sink.now) (W.faults host.new.spawner.now)
        result.tally result.status }
    ensures same { (host.new.net.ghost_name ≡ host.old.net.ghost_name) × (host.new.spawner.ghost_name ≡ host.old.spawner.ghost_name) × (host.new.sink.ghost_name ≡ host.old.sink.ghost_name) }
{
    match start_all::<N, X, A, J, W>(host.alloc, host.spawner, host.tools, access, options, port) {
        Ok(acceptor) => serve_accepting(host.rt, options, acceptor, host.net, host.sink),
        Err(Unstarted::Refused) => Ended::early(ServerStatus::WorkerRefused),
        Err(Unstarted::NoMemory) => Ended::early(ServerStatus::NoMemory),
    }
}

/// Starts the gateway over the bus behind its gate, and serves links at the ports, which are open.
fn serve_gate<
    R: Wait,
    N: Net,
    X: Tools + Logs + Rules,
    B: Bus + Drop,
    J: Job<GateAccess<B>, Duty<N, X>>,
    W: Spawner<J>,
    K: Sink,
>(
    host: &mut Host<'_, '_, '_, '_, '_, R, N, W, X, K>,
    options: Options,
    port: N::Port,
    names: NameTable,
    bus: B,
) -> Ended
where
    N::Port: Drop,
    Peer<N>: Placed + Drop,
    <X::S as Streams>::Peer: Drop,
    requires range { IsServerInRange options }
    requires open { N.is_open host.old.net.now ≡ true }
    requires fresh { B.means bus ≡ first_means }
    ensures ends { ServerEndsRun options
        (ports_shown N.Net K.Sink host.old.net.now host.old.sink.now) (W.faults host.old.spawner.now)
        (ports_shown N.Net K.Sink host.new.net.now host.new.sink.now) (W.faults host.new.spawner.now)
        result.tally result.status }
    ensures same { (host.new.net.ghost_name ≡ host.old.net.ghost_name) × (host.new.spawner.ghost_name ≡ host.old.spawner.ghost_name) × (host.new.sink.ghost_name ≡ host.old.sink.ghost_name) }
{
    let policy = host.tools.rules();
    let book = LabBook { names, policy };
    match GateAccess::start(host.alloc, bus, options.abort, book) {
        Ok(access) => serve_open::<R, N, X, GateAccess<B>, J, W, K>(host, options, port, access),
        Err(_) => Ended::early(ServerStatus::NoMemory),
    }
}

/// What a server does that has its options, the names that its clients know devices by, and its bus, of which nobody asked anything
/// yet. Its tools have the rules that calls are judged by, where there are some. It opens the core port and binds the abort port, starts
/// its workers, each over a pass of the one gate round a gateway over the bus, and then takes core links and hands them to the workers.
/// It ends as [`serve_run`] says of the statuses 0 and 3 to 6.
pub fn serve_bus<
    R: Wait,
    N: Net,
    W: Spawner<ServeBus<N, X, B>>,
    X: Tools + Logs + Rules,
    K: Sink,
    B: Bus + Drop,
>(
    host: &mut Host<'_, '_, '_, '_, '_, R, N, W, X, K>,
    options: Options,
    names: NameTable,
    bus: B,
) -> Ended
where
    N::Port: Drop,
    Peer<N>: Placed + Drop,
    <X::S as Streams>::Peer: Drop,
    requires range { IsServerInRange options }
    requires fresh { B.means bus ≡ first_means }
    ensures ends { ServerEndsRun options
        (ports_shown N.Net K.Sink host.old.net.now host.old.sink.now) (W.faults host.old.spawner.now)
        (ports_shown N.Net K.Sink host.new.net.now host.new.sink.now) (W.faults host.new.spawner.now)
        result.tally result.status }
    ensures same { (host.new.net.ghost_name ≡ host.old.net.ghost_name) × (host.new.spawner.ghost_name ≡ host.old.spawner.ghost_name) × (host.new.sink.ghost_name ≡ host.old.sink.ghost_name) }
{
    match open_ports(host.net, options.core, options.abort) {
        Some(port) => {
            serve_gate::<R, N, X, B, ServeBus<N, X, B>, W, K>(host, options, port, names, bus)
        }
        None => Ended::early(ServerStatus::NetFailed),
    }
}

/// Does what the words ask.
fn serve_words<
    R: Wait,
    N: Net,
    W: Spawner<Serve<N, X, I>>,
    X: Tools + Logs + Rules,
    S: Source,
    K: Sink,
    I: Instrument,
>(
    host: &mut Host<'_, '_, '_, '_, '_, R, N, W, X, K>,
    words: &[String],
    bench: &mut S,
    rack: Vec<Spare<I>>,
) -> Ended
where
    N::Port: Drop,
    Peer<N>: Placed + Drop,
    <X::S as Streams>::Peer: Drop,
    ensures ends { ServerEnds (map string_bytes words.now) (map (spare_shown (handed_in (λ i. I.behaves i) (λ i. I.nature i))) rack.items) (source_shown S.Source bench.old) (source_shown S.Source bench.new)
        (record { ports = ports_shown N.Net K.Sink host.old.net.now host.old.sink.now; refused = W.faults host.old.spawner.now })
        (record { ports = ports_shown N.Net K.Sink host.new.net.now host.new.sink.now; refused = W.faults host.new.spawner.now })
        result.tally result.status }
    ensures same { (host.new.net.ghost_name ≡ host.old.net.ghost_name) × (host.new.spawner.ghost_name ≡ host.old.spawner.ghost_name) × (host.new.sink.ghost_name ≡ host.old.sink.ghost_name) }
{
    let mut rack = rack;
    let prepared = prepare(host.alloc, words, bench, &mut rack, host.sink);
    drop(rack);
    match prepared {
        Ok((options, names, bus)) => serve_bus(host, options, names, bus),
        Err(status) => Ended::early(status),
    }
}

/// All that the program `vxgate` does: its words, its bench, its net, its workers; what comes back is the exit status and, at
/// status 0, the count of the core links that were taken, each of which had its session or was refused one.
///
/// It reads the words, and the bench to its end; opens the core port and binds the abort port; starts the workers; and then
/// takes core links and hands them to the workers. The causes of each status are met in this order.
///
/// - 0, `listening CORE ABORT` and `served N`: N core links were taken, the limit or as many as the net gave, and each came to its
///   end. `--help` and `--version` are told with this status too.
/// - 1, `usage: vxgate OPTIONS`: the words are refused, or a name among them; nothing else was touched.
/// - 2, `fault line N CAUSE` or `fault long`: a line of the bench, counted from 1, is refused, or it has more than 1,048,576 bytes.
/// - 3: the net failed.
/// - 4: the spawner refused a worker, before the first link was taken.
/// - 5: memory ran out, before the first link was taken.
/// - 6: the sink failed; a front of what was due was written.
/// - 7: the bench's source failed.
///
/// The sampler ends when this returns, and so do workers that are left without a link to serve; the taker of abort links ends
/// with its port, and a pump with its streams.
pub fn serve_run<
    R: Wait,
    N: Net,
    W: Spawner<Serve<N, X, I>>,
    X: Tools + Logs + Rules,
    S: Source,
    K: Sink,
    I: Instrument,
>(
    rt: &R,
    alloc: Global,
    words: &[String],
    bench: &mut S,
    net: &mut N,
    spawner: &mut W,
    tools: &mut X,
    sink: &mut K,
    rack: Vec<Spare<I>>,
) -> (u8, Tally)
where
    N::Port: Drop,
    Peer<N>: Placed + Drop,
    <X::S as Streams>::Peer: Drop,
    ensures outcome { ServerEndsSo (map string_bytes words.now) (map (spare_shown (handed_in (λ i. I.behaves i) (λ i. I.nature i))) rack.items) (source_shown S.Source bench.old) (source_shown S.Source bench.new)
        (record { ports = record { net = net_shown N.Net net.old; sink = sink_shown K.Sink sink.old }; refused = W.faults spawner.old })
        (record { ports = record { net = net_shown N.Net net.new; sink = sink_shown K.Sink sink.new }; refused = W.faults spawner.new })
        result.1 result.0 }
    ensures done { result.0 ≡ 0 → IsDone (map string_bytes words.now) (sink_shown K.Sink sink.old) (sink_shown K.Sink sink.new)
        result.1 }
{
    let mut host = Host {
        rt,
        alloc,
        net,
        spawner,
        tools,
        sink,
    };
    let Ended { status, tally } = serve_words(&mut host, words, bench, rack);
    (status.number(), tally)
}
