//! All that a server does whose bus is behind another box.
ghost use Rattle.std.specs.Prelude.{◌≡◌, ◌≤◌, length, map, string_bytes, IfOk, IfErr, OnOk, Option, String};
ghost use Rattle.std.specs.declared.alloc.Global.{Global};
ghost use Rattle.vx_calls.specs.declared.limits.TheConstants.{DEVICE_MAX};
ghost use Rattle.vx_488.specs.Means.{first_means};
ghost use Rattle.vx_text.specs.Ends.{source_shown, sink_shown};
ghost use Rattle.vx_startup.specs.Running.{net_shown};
ghost use Rattle.vx_startup.specs.Meant.{ServerAnswers, IsServerInRange};
ghost use Rattle.vx_startup.specs.Preparing.{Early, IsQuiet};
ghost use Rattle.vx_startup.specs.declared.words.Asked.TheVariants.{Serve};
ghost use Rattle.vx_serve.specs.Hosting.{ports_shown};
ghost use Rattle.vx_upstream.specs.Sending.{words_of};
ghost use Rattle.vx_upstream.specs.UpstreamState.{terms_of};
ghost use Rattle.vx_upstream.specs.Opening.{IsOpened};
ghost use Rattle.vx_relay.specs.Place.{place_shown};
ghost use Rattle.vx_relay.specs.Readying.{EndsAtWords, EndsAtBench, EndsAtOpening, HasNoBench, IsRelayReady};
ghost use Rattle.vx_relay.specs.Relaying.{RelayEnds, RelayEndsSo};

use crate::telling::end_unopened;
use crate::words::{Upstream, place_of};
use std::alloc::Global;
use std::sync::Wait;
use vx_io_traits::{Listen, Net, Reach, Sink, Source, Spawner, Streams};
use vx_policy::NameTable;
use vx_script::Cause;
use vx_serve::{Ended, Host, ServeBus, serve_bus};
use vx_session::{Tally, Tools};
use vx_setup::BenchStop;
use vx_startup::{
    Asked, BENCH_MAX, Logs, Options, Placed, Rules, ServerStatus, end_bench, put_last, read_words,
};
use vx_text::{Input, read_all};
use vx_upstream::UpstreamBus;

/// The line of words that have no form that the server knows.
const USAGE: &[u8] = b"usage: vxgate --upstream HOST PORT [NAME] OPTIONS\n";

/// The options and the names that the words behind a box set, or how the server ends that they don't ask to serve.
fn options_of<K: Sink>(
    alloc: Global,
    words: &[String],
    sink: &mut K,
) -> Result<(Options, NameTable), ServerStatus>
    ensures set { IfOk result (λ r. (file : Option (String Global)) × ServerAnswers (map string_bytes words.now) (Serve r.0 r.1 file)) }
    ensures silent { IfOk result (λ r. IsQuiet (sink_shown K.Sink sink.old) (sink_shown K.Sink sink.new)) }
    ensures early { IfErr result (λ how. EndsAtWords (map string_bytes words.now)
        (sink_shown K.Sink sink.old) (sink_shown K.Sink sink.new) how) }
{
    match read_words(alloc, words) {
        Asked::Serve(options, names, _) => Ok((options, names)),
        Asked::Tell(text) => Err(put_last(sink, text.as_bytes(), ServerStatus::Told)),
        Asked::Usage => Err(put_last(sink, USAGE, ServerStatus::Usage)),
        Asked::NoMemory => Err(ServerStatus::NoMemory),
    }
}

/// Reads the bench, in which nothing may stand, or how the server ends that has one.
fn no_bench<S: Source, K: Sink>(
    alloc: Global,
    bench: &mut S,
    sink: &mut K,
) -> Result<(), ServerStatus>
    ensures none { OnOk result (HasNoBench (source_shown S.Source bench.old) (source_shown S.Source bench.new)) }
    ensures silent { OnOk result (IsQuiet (sink_shown K.Sink sink.old) (sink_shown K.Sink sink.new)) }
    ensures early { IfErr result (λ how. EndsAtBench (source_shown S.Source bench.old) (source_shown S.Source bench.new)
        (sink_shown K.Sink sink.old) (sink_shown K.Sink sink.new) how) }
{
    match read_all(alloc, bench, BENCH_MAX) {
        Input::Whole(text) => match text.as_slice() {
            [] => Ok(()),
            [..] => {
                let stop = BenchStop::Refused {
                    line: 1,
                    cause: Cause::Form,
                };
                Err(end_bench(sink, stop))
            }
        },
        Input::TooLong => Err(put_last(sink, b"fault long\n", ServerStatus::BenchFault)),
        Input::Failed => Err(ServerStatus::SourceFailed),
        Input::NoMemory => Err(ServerStatus::NoMemory),
    }
}

/// The bus behind a box, or how the server ends that doesn't have it.
fn open_bus<L: Reach + Drop, K: Sink>(
    alloc: Global,
    link: L,
    upstream: Upstream<'_>,
    patience: u32,
    sink: &mut K,
) -> Result<UpstreamBus<L>, ServerStatus>
    requires { length upstream.name.now ≤ DEVICE_MAX }
    ensures fresh { IfOk result (λ bus. bus.kept.means ≡ first_means) }
    ensures opened { IfOk result (λ bus. IsOpened (words_of L.Link L.refused L.tries) link (terms_of upstream.entry.host.now upstream.entry.port upstream.entry.name.now patience) bus) }
    ensures silent { IfOk result (λ bus. IsQuiet (sink_shown K.Sink sink.old) (sink_shown K.Sink sink.new)) }
    ensures early { IfErr result (λ how. EndsAtOpening (words_of L.Link L.refused L.tries) link (place_shown upstream.entry) patience
        (sink_shown K.Sink sink.old) (sink_shown K.Sink sink.new) how) }
{
    let Upstream { host, port, name } = upstream;
    let Ok(host) = String::from_str(alloc, host) else {
        return Err(ServerStatus::NoMemory);
    };
    match UpstreamBus::open(alloc, link, host, port, name.as_bytes(), patience) {
        Ok(bus) => Ok(bus),
        Err(error) => Err(end_unopened(sink, error)),
    }
}

/// Reads the words, and the bench, in which nothing may stand, and takes the box's bus: the options of a server, its names and that bus. Or how the
/// server ends that doesn't come to its ports; the line that is due then was written.
fn prepare<S: Source, K: Sink, L: Reach + Drop>(
    alloc: Global,
    words: &[String],
    bench: &mut S,
    link: L,
    sink: &mut K,
) -> Result<(Options, NameTable, UpstreamBus<L>), ServerStatus>
    ensures range { IfOk result (λ r. IsServerInRange r.0) }
    ensures fresh { IfOk result (λ r. r.2.kept.means ≡ first_means) }
    ensures ready { IfOk result (λ r. IsRelayReady (words_of L.Link L.refused L.tries) link (map string_bytes words.now) (source_shown S.Source bench.old) (source_shown S.Source bench.new) r.0 r.1) }
    ensures silent { IfOk result (λ r. IsQuiet (sink_shown K.Sink sink.old) (sink_shown K.Sink sink.new)) }
    ensures early { IfErr result (λ how. Early (RelayEnds (words_of L.Link L.refused L.tries) link (map string_bytes words.now) (source_shown S.Source bench.old) (source_shown S.Source bench.new))
        (sink_shown K.Sink sink.old) (sink_shown K.Sink sink.new) how) }
{
    let Some((upstream, rest)) = place_of(words) else {
        return Err(put_last(sink, USAGE, ServerStatus::Usage));
    };
    let (options, names) = options_of(alloc, rest, sink)?;
    no_bench(alloc, bench, sink)?;
    let bus = open_bus(alloc, link, upstream, options.patience, sink)?;
    Ok((options, names, bus))
}

/// Does what the words ask.
fn serve_words<
    R: Wait,
    N: Net,
    W: Spawner<ServeBus<N, X, UpstreamBus<L>>>,
    X: Tools + Logs + Rules,
    S: Source,
    K: Sink,
    L: Reach + Drop,
>(
    host: &mut Host<'_, '_, '_, '_, '_, R, N, W, X, K>,
    words: &[String],
    bench: &mut S,
    link: L,
) -> Ended
where
    N::Port: Drop,
    <N::Port as Listen>::Peer: Placed + Drop,
    <X::S as Streams>::Peer: Drop,
    ensures ends { RelayEnds (words_of L.Link L.refused L.tries) link (map string_bytes words.now) (source_shown S.Source bench.old) (source_shown S.Source bench.new)
        (record { ports = ports_shown N.Net K.Sink host.old.net.now host.old.sink.now; refused = W.faults host.old.spawner.now })
        (record { ports = ports_shown N.Net K.Sink host.new.net.now host.new.sink.now; refused = W.faults host.new.spawner.now })
        result.tally result.status }
    ensures same { (host.new.net.ghost_name ≡ host.old.net.ghost_name) × (host.new.spawner.ghost_name ≡ host.old.spawner.ghost_name) × (host.new.sink.ghost_name ≡ host.old.sink.ghost_name) }
{
    match prepare(host.alloc, words, bench, link, host.sink) {
        Ok((options, names, bus)) => serve_bus(host, options, names, bus),
        Err(status) => Ended::early(status),
    }
}

/// All that the program `vxgate` does behind `--upstream`: a server whose bus is the one behind another VXI-11 box's GPIB interface. What
/// comes back is the exit status and, at status 0, the count of the core links that were taken.
///
/// The words are `HOST PORT [NAME]`, where the box is and the name of its interface, `gpib0` where none is named, and behind them the
/// options of `vxgate`. There is no bench: its source is read to its end, and a byte of it is refused. Then the box's bus is taken and
/// brought to rest ([`UpstreamBus::open`]), and the server goes on as [`serve_run`](vx_serve::serve_run). The causes of each status are
/// met in this order.
///
/// - 0, `listening CORE ABORT` and `served N`: as there. `--help` and `--version` are told with this status too.
/// - 1, `usage: vxgate --upstream HOST PORT [NAME] OPTIONS`: the words are refused, or a name among them; nothing else was touched.
/// - 2, `fault line 1 form` or `fault long`: there is a bench. Or `fault upstream STEP`, the step for which the bus isn't had: `reach`,
///   nobody answers at that host and port; `link`, the interface isn't given, or isn't locked; `clear`, `remote` or `address`, the box
///   doesn't clear its interface, switch remote enable off, or go to address 0. Where the box answered an error, its number stands
///   behind.
/// - 3: the net failed.
/// - 4: the spawner refused a worker, before the first link was taken.
/// - 5: memory ran out, before the first link was taken.
/// - 6: the sink failed; a front of what was due was written.
/// - 7: the bench's source failed.
pub fn relay_run<
    R: Wait,
    N: Net,
    W: Spawner<ServeBus<N, X, UpstreamBus<L>>>,
    X: Tools + Logs + Rules,
    S: Source,
    K: Sink,
    L: Reach + Drop,
>(
    rt: &R,
    alloc: Global,
    words: &[String],
    bench: &mut S,
    link: L,
    net: &mut N,
    spawner: &mut W,
    tools: &mut X,
    sink: &mut K,
) -> (u8, Tally)
where
    N::Port: Drop,
    <N::Port as Listen>::Peer: Placed + Drop,
    <X::S as Streams>::Peer: Drop,
    ensures outcome { RelayEndsSo (words_of L.Link L.refused L.tries) link (map string_bytes words.now) (source_shown S.Source bench.old) (source_shown S.Source bench.new)
        (record { ports = record { net = net_shown N.Net net.old; sink = sink_shown K.Sink sink.old }; refused = W.faults spawner.old })
        (record { ports = record { net = net_shown N.Net net.new; sink = sink_shown K.Sink sink.new }; refused = W.faults spawner.new })
        result.1 result.0 }
{
    let mut host = Host {
        rt,
        alloc,
        net,
        spawner,
        tools,
        sink,
    };
    let Ended { status, tally } = serve_words(&mut host, words, bench, link);
    (status.number(), tally)
}
