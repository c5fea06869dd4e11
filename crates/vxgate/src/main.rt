//! `vxgate OPTIONS`: serves VXI-11 clients over TCP, with the instruments that the bench on standard input describes.
//! `vxgate --upstream HOST PORT [NAME] OPTIONS`: serves them with those behind another VXI-11 box.
#![tactic(auto)]

mod mapping;
mod models;
mod rules;

use crate::mapping::{Mapped, map_ports};
use crate::models::AnyModel;
use crate::rules::rules_of;
use arrayvec::ArrayString;
use std::alloc::{AllocError, Global};
use std::env::{self, Env};
use std::io::ErrorKind;
use std::process::ExitCode;
use vx_host::{HostNet, TcpTools, wire};
use vx_io::{ReachTimeouts, StdSink, StdSource, TcpReach, Timeouts};
use vx_rack::{Asker, Echo, Meter, NoMemory, Slow, Spare};
use vx_relay::{place_of, relay_run};
use vx_serve::{Serve, ServeBus, serve_run};
use vx_startup::{Asked, Options, read_words};
use vx_upstream::UpstreamBus;

/// The exit status where there is no memory for the words, the spare instruments, or what starts the workers.
const NO_MEMORY: u8 = 5;

/// How many spare instruments there are of each model.
const SPARES: usize = 4;

/// How many milliseconds a box may take to be reached, to take a byte, and beyond its patience to answer.
const BOX_WAITS: u32 = 1_000;

/// The work of a worker over the bus behind a box.
type BoxJob = ServeBus<
    HostNet<HostRuntime>,
    TcpTools<HostRuntime>,
    UpstreamBus<TcpReach<HostRuntime>>,
>;

/// The work of a worker over the simulated bus.
type Job = Serve<HostNet<HostRuntime>, TcpTools<HostRuntime>, AnyModel>;

/// Adds a spare instrument under a name of at most 16 bytes.
fn add(rack: &mut Vec<Spare<AnyModel>>, name: &str, inst: AnyModel) -> Result<(), AllocError> {
    let mut text = ArrayString::new();
    if text.try_push_str(name).is_ok() {
        rack.push(Spare { name: text, inst })?;
    }
    Ok(())
}

/// Adds a spare instrument of each model.
fn add_each(alloc: Global, rack: &mut Vec<Spare<AnyModel>>) -> Result<(), Unmade> {
    add(rack, "echo", AnyModel::Echo(Echo::new(alloc)?))?;
    add(rack, "meter", AnyModel::Meter(Meter::new(alloc)?))?;
    add(rack, "slow", AnyModel::Slow(Slow::new(alloc)?))?;
    add(rack, "asker", AnyModel::Asker(Asker::new(alloc)?))?;
    Ok(())
}

/// Four spare instruments of each model.
fn rack_of(alloc: Global) -> Result<Vec<Spare<AnyModel>>, Unmade> {
    let mut rack = Vec::new(alloc);
    for _ in 0..SPARES {
        add_each(alloc, &mut rack)?;
    }
    Ok(rack)
}

/// There was no memory for the words, the spare instruments, or what starts the workers.
#[derive(Drop)]
struct Unmade;

impl From<AllocError> for Unmade {
    fn from(_: AllocError) -> Unmade {
        Unmade
    }
}

impl From<NoMemory> for Unmade {
    fn from(_: NoMemory) -> Unmade {
        Unmade
    }
}

/// One word that no option takes, in place of words of which one isn't UTF-8.
fn refused(alloc: Global) -> Result<Vec<String>, AllocError> {
    let mut words = Vec::new(alloc);
    words.push(String::from_str(alloc, "\u{FFFD}")?)?;
    Ok(words)
}

/// The words after the program's name.
fn words_of<R: Env + AllocGlobal>(rt: &R) -> Result<Vec<String>, AllocError> {
    match env::args(rt) {
        Ok(words) => words.skip(1).collect(rt.alloc()),
        Err(error) if error.kind() == ErrorKind::InvalidData => refused(rt.alloc()),
        Err(_) => Err(AllocError),
    }
}

/// The words behind `--upstream`, where that is the first of them.
fn behind_upstream(words: &[String]) -> Option<&[String]> {
    match words {
        [first, rest @ ..] if first.as_str() == "--upstream" => Some(rest),
        _ => None,
    }
}

/// The options behind the words that name a box, if these do; else all words.
fn options_of(words: &[String]) -> &[String] {
    let Some(words) = behind_upstream(words) else {
        return words;
    };
    match place_of(words) {
        Some((_, options)) => options,
        None => words,
    }
}

/// How long the sockets bear with a peer and with a box, whether there is a log, and the ports that a port mapper tells, if there is
/// one.
#[derive(Clone, Copy)]
struct Watch {
    timeouts: Timeouts,
    reach: ReachTimeouts,
    has_log: bool,
    mapped: Option<Mapped>,
}

/// How long a box is borne with that has so many milliseconds for one call.
fn reach_timeouts(patience: u32) -> ReachTimeouts {
    ReachTimeouts {
        connect: BOX_WAITS,
        receive: patience.saturating_add(BOX_WAITS),
        send: BOX_WAITS,
    }
}

/// What the options say of it.
fn watch_of(options: Options) -> Watch {
    Watch {
        timeouts: Timeouts {
            keepalive: options.keepalive,
            send: options.send_timeout,
            idle: options.idle,
            abort_idle: options.abort_idle,
        },
        reach: reach_timeouts(options.patience),
        has_log: options.log,
        mapped: options.map.then_some(Mapped {
            core: options.core,
            abort: options.abort,
        }),
    }
}

/// What is to be watched where the server isn't asked to serve.
const NOTHING: Watch = Watch {
    timeouts: Timeouts::NONE,
    reach: ReachTimeouts {
        connect: BOX_WAITS,
        receive: BOX_WAITS,
        send: BOX_WAITS,
    },
    has_log: false,
    mapped: None,
};

/// The same, and the file of the access rules, where the options name one. Those that don't ask to serve say nothing: the server meets
/// them itself.
fn asked_of(alloc: Global, options: &[String]) -> Result<(Watch, Option<String>), Unmade> {
    match read_words(alloc, options) {
        Asked::Serve(options, _, file) => Ok((watch_of(options), file)),
        Asked::Tell(_) | Asked::Usage => Ok((NOTHING, None)),
        Asked::NoMemory => Err(Unmade),
    }
}

/// What there is before the server is wired to its host.
#[derive(Drop)]
struct Made {
    words: Vec<String>,
    watch: Watch,
    file: Option<String>,
    rack: Vec<Spare<AnyModel>>,
}

/// Makes it; the words are read first.
fn make(rt: &HostRuntime) -> Result<Made, Unmade> {
    let alloc = rt.alloc();
    let words = words_of(rt)?;
    let (watch, file) = asked_of(alloc, options_of(words.as_slice()))?;
    let rack = rack_of(alloc)?;
    Ok(Made {
        words,
        watch,
        file,
        rack,
    })
}

/// Ends with the status of the server.
fn main(rt: HostRuntime) -> ExitCode {
    let Ok(made) = make(&rt) else {
        return ExitCode::from(NO_MEMORY);
    };
    let Made {
        words,
        watch,
        file,
        rack,
    } = made;
    let mut sink = StdSink::new(rt.stdout());
    let policy = match rules_of(&rt, rt.alloc(), file.as_deref(), &mut sink) {
        Ok(policy) => policy,
        Err(status) => return ExitCode::from(status),
    };
    if map_ports(rt, rt.alloc(), rt.stderr(), watch.mapped).is_err() {
        return ExitCode::from(NO_MEMORY);
    }
    let mut source = StdSource::new(rt.stdin());
    let mut net = HostNet::new(rt, watch.timeouts);
    let status = match behind_upstream(words.as_slice()) {
        None => {
            let Ok(mut wiring) = wire::<HostRuntime, Job>(
                rt,
                rt.alloc(),
                rt.stderr(),
                watch.has_log,
                policy,
            ) else {
                return ExitCode::from(NO_MEMORY);
            };
            let (status, _) = serve_run(
                &rt,
                rt.alloc(),
                words.as_slice(),
                &mut source,
                &mut net,
                &mut wiring.spawner,
                &mut wiring.tools,
                &mut sink,
                rack,
            );
            status
        }
        Some(words) => {
            let Ok(mut wiring) = wire::<HostRuntime, BoxJob>(
                rt,
                rt.alloc(),
                rt.stderr(),
                watch.has_log,
                policy,
            ) else {
                return ExitCode::from(NO_MEMORY);
            };
            let (status, _) = relay_run(
                &rt,
                rt.alloc(),
                words,
                &mut source,
                TcpReach::with_timeouts(rt, watch.reach),
                &mut net,
                &mut wiring.spawner,
                &mut wiring.tools,
                &mut sink,
            );
            status
        }
    };
    ExitCode::from(status)
}
