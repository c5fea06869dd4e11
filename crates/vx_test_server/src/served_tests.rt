//! Servers with real threads: a client's link is served, and interrupts and aborts go their ways while it lives. Records are
//! composed by hand from their words.
ghost use Rattle.std.specs.Prelude.{None};

use crate::client_tools::line_words;
use arrayvec::ArrayString;
use crossbeam_channel::{Receiver, Sender, unbounded};
use std::alloc::{AllocError, Global};
use std::io::Stderr;
use std::sync::atomic::{AtomicU64, Ordering};
use std::sync::{Arc, Wait};
use std::thread::{self, Threads};
use vx_host::{ThreadSpawner, Wiring, wire};
use vx_inst::Instrument;
use vx_io_traits::{
    Clock, Dial, DialOut, Handed, Link, Listen, Net, Pause, ReadOut, Sink, Spawner, Streams, Work,
    WriteOut,
};
use vx_memory::{MemNet, MemSink, MemSource};
use vx_policy::Policy;
use vx_rack::{Asker, Spare};
use vx_serve::{Logs, Place, Placed, Rules, Serve, serve_run};
use vx_session::Tools;

// create_link of `gpib0,5`, xid 1
static CREATE: [u8; 68] =
    *b"\x80\0\0@\0\0\0\x01\0\0\0\0\0\0\0\x02\0\x06\x07\xaf\0\0\0\x01\0\0\0\x0a\0\0\0\0\0\0\0\0\0\0\0\0\0\0\0\0\0\0\0\0\0\0\0\0\0\0\0\0\0\0\0\x07gpib0,5\0";

// create_intr_chan to 127.0.0.1, port 9012, xid 2
static CHANNEL: [u8; 64] =
    *b"\x80\0\0<\0\0\0\x02\0\0\0\0\0\0\0\x02\0\x06\x07\xaf\0\0\0\x01\0\0\0\x19\0\0\0\0\0\0\0\0\0\0\0\0\0\0\0\0\x7f\0\0\x01\0\0#4\0\x06\x07\xb1\0\0\0\x01\0\0\0\0";

// device_enable_srq of link 1 with the handle `a`, xid 3
static ENABLE: [u8; 60] =
    *b"\x80\0\08\0\0\0\x03\0\0\0\0\0\0\0\x02\0\x06\x07\xaf\0\0\0\x01\0\0\0\x14\0\0\0\0\0\0\0\0\0\0\0\0\0\0\0\0\0\0\0\x01\0\0\0\x01\0\0\0\x01a\0\0\0";

// device_write of `A` to link 1 with END, xid 4
static WRITE: [u8; 68] =
    *b"\x80\0\0@\0\0\0\x04\0\0\0\0\0\0\0\x02\0\x06\x07\xaf\0\0\0\x01\0\0\0\x0b\0\0\0\0\0\0\0\0\0\0\0\0\0\0\0\0\0\0\0\x01\0\0'\x10\0\0\0\0\0\0\0\x08\0\0\0\x01A\0\0\0";

// device_abort of link 1, xid 1
static ABORT: [u8; 48] =
    *b"\x80\0\0,\0\0\0\x01\0\0\0\0\0\0\0\x02\0\x06\x07\xb0\0\0\0\x01\0\0\0\x01\0\0\0\0\0\0\0\0\0\0\0\0\0\0\0\0\0\0\0\x01";

// all that a core link takes: the replies to create_link (link 1, abort port 9011, at most 262,144 bytes), create_intr_chan, device_enable_srq
// and device_write (one byte)
static CORE_TAKES: [u8; 144] =
    *b"\x80\0\0(\0\0\0\x01\0\0\0\x01\0\0\0\0\0\0\0\0\0\0\0\0\0\0\0\0\0\0\0\0\0\0\0\x01\0\0#3\0\x04\0\0\x80\0\0\x1c\0\0\0\x02\0\0\0\x01\0\0\0\0\0\0\0\0\0\0\0\0\0\0\0\0\0\0\0\0\x80\0\0\x1c\0\0\0\x03\0\0\0\x01\0\0\0\0\0\0\0\0\0\0\0\0\0\0\0\0\0\0\0\0\x80\0\0 \0\0\0\x04\0\0\0\x01\0\0\0\0\0\0\0\0\0\0\0\0\0\0\0\0\0\0\0\0\0\0\0\x01";

// the reply to device_abort
static ABORTED: [u8; 32] =
    *b"\x80\0\0\x1c\0\0\0\x01\0\0\0\x01\0\0\0\0\0\0\0\0\0\0\0\0\0\0\0\0\0\0\0\0";

// the interrupt call with the handle `a`, xid 1
static INTERRUPT: [u8; 52] =
    *b"\x80\0\00\0\0\0\x01\0\0\0\0\0\0\0\x02\0\x06\x07\xb1\0\0\0\x01\0\0\0\x1e\0\0\0\0\0\0\0\0\0\0\0\0\0\0\0\0\0\0\0\x01a\0\0\0";

/// The most turns that a link waits for another.
const TURNS: u64 = 1_000_000;

/// How many bytes the links of each side took that are those of its replies, at their places; how many lines were written into the
/// log; and how often each line was that is due there, in eight bits a line.
#[derive(Drop)]
pub(crate) struct Counts {
    core: AtomicU64,
    abort: AtomicU64,
    interrupt: AtomicU64,
    lines: AtomicU64,
    due_lines: AtomicU64,
}

/// Waits until a count is there, and says whether it is.
pub(crate) fn comes(count: &AtomicU64, most: u64) -> bool {
    for _ in 0..TURNS {
        if count.load(Ordering::SeqCst) >= most {
            return true;
        }
        thread::yield_now();
    }
    false
}

/// Which link.
#[derive(Clone, Copy)]
pub(crate) enum Side {
    /// It makes a link and ends its input.
    Short,
    /// It makes a link and an interrupt channel, asks for service, and ends its input once the abort link was answered.
    Core,
    /// It aborts once the interrupt came.
    Abort,
    /// It takes the interrupt.
    Interrupt,
}

/// The record that a side gives in its step of this number, once it may; none at its end.
fn record_of(side: Side, counts: &Counts, step: u64) -> &'static [u8] {
    match (side, step) {
        (Side::Short | Side::Core, 0) => &CREATE,
        (Side::Core, 1) => &CHANNEL,
        (Side::Core, 2) => &ENABLE,
        (Side::Core, 3) => &WRITE,
        (Side::Core, _) if comes(&counts.abort, 32) => &[],
        (Side::Abort, 0) if comes(&counts.interrupt, 52) => &ABORT,
        _ => &[],
    }
}

/// All that a side takes. The short one takes no more than the reply to its create_link.
fn due(side: Side) -> &'static [u8] {
    match side {
        Side::Short | Side::Core => &CORE_TAKES,
        Side::Abort => &ABORTED,
        Side::Interrupt => &INTERRUPT,
    }
}

/// A link of a side: it gives a record a receive, and compares each byte that it takes with the one that is due.
#[derive(Drop)]
pub(crate) struct Comparing {
    side: Side,
    counts: Arc<Counts, Global>,
    gave: u64,
    took: usize,
}

impl Comparing {
    fn new(side: Side, counts: Arc<Counts, Global>) -> Comparing {
        Comparing {
            side,
            counts,
            gave: 0,
            took: 0,
        }
    }

    fn count(&self) -> &AtomicU64 {
        match self.side {
            Side::Short | Side::Core => &self.counts.core,
            Side::Abort => &self.counts.abort,
            Side::Interrupt => &self.counts.interrupt,
        }
    }
}

impl Link for Comparing {
    ghost stands = { λ _ taken given. ⊥ };

    ghost left = { λ _. None };

    ghost receive_faults = { λ _. 0 };

    ghost send_faults = { λ _. 0 };

    fn receive(&mut self, into: &mut [u8]) -> ReadOut {
        let record = record_of(self.side, &self.counts, self.gave);
        let count = record.len().min(into.len());
        if count == 0 {
            return ReadOut::End;
        }
        into[..count].copy_from_slice(&record[..count]);
        self.gave = self.gave.saturating_add(1);
        ReadOut::Got(count)
    }

    fn send(&mut self, from: &[u8]) -> WriteOut {
        for byte in from {
            if due(self.side).get(self.took) == Some(byte) {
                self.count().fetch_add(1, Ordering::SeqCst);
            }
            self.took = self.took.saturating_add(1);
        }
        WriteOut::Took(from.len())
    }
}

impl Placed for Comparing {
    /// The peers of abort links are at 10.0.0.7, port 65535, and those of core links at 192.168.1.20, port 40124.
    fn place(&self) -> Place {
        match self.side {
            Side::Abort => Place {
                host: 0x0A00_0007,
                port: 65_535,
            },
            _ => Place {
                host: 0xC0A8_0114,
                port: 40_124,
            },
        }
    }
}

/// Tells one more each time.
#[derive(Drop)]
pub(crate) struct Counting {
    told: u64,
}

impl Clock for Counting {
    ghost told = { λ c. c.told };

    fn now(&mut self) -> u64 {
        self.told = self.told.saturating_add(1);
        self.told
    }
}

/// Gives the processor away.
#[derive(Drop)]
pub(crate) struct Yields;

impl Pause for Yields {
    fn pause(&mut self) {
        thread::yield_now();
    }
}

/// Answers `Up`, and hands a link that compares interrupts on.
#[derive(Drop)]
pub(crate) struct Handing {
    counts: Option<Arc<Counts, Global>>,
    streams: Option<Sender<Channel>>,
}

#[derive(Drop)]
struct Channel {
    conn: u32,
    chan: u32,
    link: Comparing,
}

impl Dial for Handing {
    ghost calls = { λ _. None };

    ghost faults = { λ _. 0 };

    fn dial(&mut self, _host: u32, _port: u16) -> DialOut {
        DialOut::Up
    }

    fn hand<R: Wait>(&mut self, rt: &R, conn: u32, chan: u32) {
        if let (Some(counts), Some(streams)) = (self.counts.take(), &self.streams) {
            let link = Comparing::new(Side::Interrupt, counts);
            let _ = streams.send(rt, Channel { conn, chan, link });
        }
    }
}

/// The links that dials hand on.
#[derive(Drop)]
pub(crate) struct Handled {
    streams: Option<Receiver<Channel>>,
}

impl Streams for Handled {
    type Peer = Comparing;

    fn next<R: Wait>(&mut self, rt: &R) -> Handed<Comparing> {
        let Some(streams) = &self.streams else {
            return Handed::Ended;
        };
        match streams.recv(rt) {
            Ok(Channel { conn, chan, link }) => Handed::Stream { conn, chan, link },
            Err(_) => Handed::Ended,
        }
    }
}

/// The log that is due. It is a name and not the lines, since a work with a reference in it can't be handed to a thread here.
#[derive(Clone, Copy)]
pub(crate) enum Log {
    Nothing,
    OneLink,
    Denied,
    TwoLinks,
    ThreeLinks,
    Interrupted,
}

impl Log {
    /// Its lines, and what each adds to the count of the lines that are due.
    fn lines(self) -> &'static [(&'static str, u64)] {
        match self {
            Log::Nothing => &THREE_LINKS[..0],
            Log::OneLink => &ONE_LINK,
            Log::Denied => &DENIED_LOG,
            Log::TwoLinks => &THREE_LINKS[..4],
            Log::ThreeLinks => &THREE_LINKS,
            Log::Interrupted => &INTERRUPTED_LOG,
        }
    }
}

/// The log of a link that a worker is handed. Who takes it and who serves it have a clock each, which tells 1 first.
static ONE_LINK: [(&str, u64); 2] = [
    ("1 core 1 192.168.1.20:40124 came\n", 1),
    (
        "1 core 1 192.168.1.20:40124 ended: closed by its peer, 1 calls\n",
        1 << 8,
    ),
];

/// The log of a link whose create_link a rule denies.
static DENIED_LOG: [(&str, u64); 3] = [
    ("1 core 1 192.168.1.20:40124 came\n", 1),
    (
        "1 core 1 192.168.1.20:40124 denied: create, rule 2\n",
        1 << 8,
    ),
    (
        "2 core 1 192.168.1.20:40124 ended: closed by its peer, 1 calls\n",
        1 << 16,
    ),
];

/// The log of three links, one after another, which whoever takes them serves: no clock but the log's has told these moments.
static THREE_LINKS: [(&str, u64); 6] = [
    ("1 core 1 192.168.1.20:40124 came\n", 1),
    (
        "2 core 1 192.168.1.20:40124 ended: closed by its peer, 1 calls\n",
        1 << 8,
    ),
    ("3 core 2 192.168.1.20:40124 came\n", 1 << 16),
    (
        "4 core 2 192.168.1.20:40124 ended: closed by its peer, 1 calls\n",
        1 << 24,
    ),
    ("5 core 3 192.168.1.20:40124 came\n", 1 << 32),
    (
        "6 core 3 192.168.1.20:40124 ended: closed by its peer, 1 calls\n",
        1 << 40,
    ),
];

/// The log of a core link and an abort link.
static INTERRUPTED_LOG: [(&str, u64); 4] = [
    ("1 core 1 192.168.1.20:40124 came\n", 1),
    (
        "1 core 1 192.168.1.20:40124 ended: closed by its peer, 4 calls\n",
        1 << 8,
    ),
    ("1 abort 1 10.0.0.7:65535 came\n", 1 << 16),
    (
        "1 abort 1 10.0.0.7:65535 ended: closed by its peer, 1 calls\n",
        1 << 24,
    ),
];

/// A log that counts its lines, and adds up what those add that are due.
#[derive(Drop)]
pub(crate) struct Recorder {
    due: Log,
    counts: Option<Arc<Counts, Global>>,
}

impl Sink for Recorder {
    ghost taken = { λ _. None };

    ghost faults = { λ _. 0 };

    fn write(&mut self, from: &[u8]) -> WriteOut {
        if let Some(counts) = &self.counts {
            for (line, one) in self.due.lines() {
                if line.as_bytes() == from {
                    counts.due_lines.fetch_add(*one, Ordering::SeqCst);
                }
            }
            counts.lines.fetch_add(1, Ordering::SeqCst);
        }
        WriteOut::Took(from.len())
    }
}

/// The tools of these tests.
#[derive(Drop)]
pub(crate) struct Bag {
    due: Log,
    counts: Arc<Counts, Global>,
    streams: Sender<Channel>,
    dialed: Receiver<Channel>,
    policy: Option<Policy>,
}

impl Rules for Bag {
    fn rules(&mut self) -> Option<Policy> {
        self.policy.take()
    }
}

impl Tools for Bag {
    type C = Counting;

    type P = Yields;

    type D = Handing;

    type S = Handled;

    fn clock(&mut self) -> Counting {
        Counting { told: 0 }
    }

    fn pause(&mut self) -> Yields {
        Yields
    }

    fn dial(&mut self) -> Handing {
        Handing {
            counts: Arc::try_clone(&self.counts).ok(),
            streams: self.streams.clone().ok(),
        }
    }

    fn streams(&mut self) -> Handled {
        Handled {
            streams: self.dialed.clone().ok(),
        }
    }
}

impl Logs for Bag {
    type L = Recorder;

    fn log(&mut self) -> Recorder {
        Recorder {
            due: self.due,
            counts: Arc::try_clone(&self.counts).ok(),
        }
    }
}

/// The work of a worker of these tests.
pub(crate) type Job = Serve<MemNet<Comparing>, Bag, Asker>;

/// One spare `asker`.
fn askers(alloc: Global) -> Option<Vec<Spare<Asker>>> {
    let mut name = ArrayString::new();
    let _ = name.try_push_str("asker");
    let inst = Asker::new(alloc).ok()?;
    let mut rack = Vec::new(alloc);
    match rack.push(Spare { name, inst }) {
        Ok(()) => Some(rack),
        Err(_) => None,
    }
}

pub(crate) fn counts_of(alloc: Global) -> Result<Arc<Counts, Global>, AllocError> {
    let counts = Counts {
        core: AtomicU64::new(0),
        abort: AtomicU64::new(0),
        interrupt: AtomicU64::new(0),
        lines: AtomicU64::new(0),
        due_lines: AtomicU64::new(0),
    };
    Ok(Arc::new(alloc, counts)?)
}

fn links_of(
    alloc: Global,
    sides: &[Side],
    counts: &Arc<Counts, Global>,
) -> Result<Vec<Comparing>, AllocError> {
    let mut links = Vec::new(alloc);
    for side in sides {
        links.push(Comparing::new(*side, Arc::try_clone(counts)?))?;
    }
    Ok(links)
}

/// A net with the links of a row, of which the row's calls fail.
fn net_of(
    alloc: Global,
    row: &Row,
    counts: &Arc<Counts, Global>,
) -> Result<MemNet<Comparing>, AllocError> {
    let core = links_of(alloc, row.core, counts)?;
    let abort = links_of(alloc, row.abort, counts)?;
    Ok(MemNet::new(core, abort, row.fails.to_vec(alloc)?))
}

/// The access rules of a row.
fn policy_of(alloc: Global, rules: Option<&str>) -> Result<Option<Policy>, AllocError> {
    match rules {
        None => Ok(None),
        Some(text) if text.len() > 1_048_576 => Err(AllocError),
        Some(text) => match Policy::from_text(alloc, text.as_bytes()) {
            Ok(policy) => Ok(Some(policy)),
            Err(_) => Err(AllocError),
        },
    }
}

fn bag_of(alloc: Global, row: &Row, counts: &Arc<Counts, Global>) -> Result<Bag, AllocError> {
    let counts = Arc::try_clone(counts)?;
    let (streams, dialed) = unbounded(alloc)?;
    let policy = policy_of(alloc, row.rules)?;
    Ok(Bag {
        due: row.log,
        counts,
        streams,
        dialed,
        policy,
    })
}

/// The bench of a row, and so many LFs behind it.
fn source_of(alloc: Global, row: &Row) -> Result<MemSource, AllocError> {
    let mut bench = row.bench.as_bytes().to_vec(alloc)?;
    bench.resize(row.bench.len().saturating_add(row.lines), b'\n')?;
    Ok(MemSource::new(bench, 4096, row.reads.to_vec(alloc)?))
}

/// A server: its words; its access rules, if it has some; its bench, and how many LFs are behind that; the links of its net at its two ports; which reads of the
/// bench, which writes, and which calls of the net fail, each counted from 1; which worker is refused, where it isn't 0. And
/// then how it ends, and the lines of its log, each once and in any order.
#[derive(Clone, Copy)]
pub(crate) struct Row {
    pub words: &'static str,
    pub rules: Option<&'static str>,
    pub bench: &'static str,
    pub lines: usize,
    pub core: &'static [Side],
    pub abort: &'static [Side],
    pub reads: &'static [u64],
    pub writes: &'static [u64],
    pub fails: &'static [u64],
    pub refuses: u64,
    pub ends: Ends,
    pub log: Log,
}

/// How a server ended: its status, what it wrote, and the number of its tally; and how many bytes that were due the core links
/// took, the abort links, and the peers of interrupt channels.
#[derive(Clone, Copy)]
pub(crate) struct Ends {
    pub status: u8,
    pub text: &'static str,
    pub number: u64,
    pub bytes: [u64; 3],
}

/// What the server of a row runs with: its words, the source of its bench, its net, its tools, and a sink of which the row's writes fail.
#[derive(Drop)]
pub(crate) struct Setting<N, X> {
    pub words: Vec<String>,
    pub source: MemSource,
    pub net: N,
    pub tools: X,
    pub sink: MemSink,
}

pub(crate) fn setting_of(
    alloc: Global,
    row: &Row,
    counts: &Arc<Counts, Global>,
) -> Result<Setting<MemNet<Comparing>, Bag>, AllocError> {
    let words = line_words(alloc, row.words)?;
    let source = source_of(alloc, row)?;
    let fails = row.writes.to_vec(alloc)?;
    let tools = bag_of(alloc, row, counts)?;
    let net = net_of(alloc, row, counts)?;
    Ok(Setting {
        words,
        source,
        net,
        tools,
        sink: MemSink::new(Vec::new(alloc), fails),
    })
}

/// Runs a server with these, and answers its status and the number of its tally.
fn run<R: Wait, N: Net, X: Tools + Logs + Rules, I: Instrument, W: Spawner<Serve<N, X, I>>>(
    rt: &R,
    alloc: Global,
    setting: &mut Setting<N, X>,
    rack: Vec<Spare<I>>,
    spawner: &mut W,
) -> (u8, u64)
where
    N::Port: Drop,
    <N::Port as Listen>::Peer: Placed + Drop,
    <X::S as Streams>::Peer: Drop,
{
    let (status, tally) = serve_run(
        rt,
        alloc,
        setting.words.as_slice(),
        &mut setting.source,
        &mut setting.net,
        spawner,
        &mut setting.tools,
        &mut setting.sink,
        rack,
    );
    (status, tally.number())
}

/// Whether each line that is due in the log comes once, and no other was written.
fn is_logged(row: &Row, counts: &Counts) -> bool {
    let mut all = 0u64;
    let mut due = 0u64;
    for (_, one) in row.log.lines() {
        all = all.saturating_add(1);
        due = due.saturating_add(*one);
    }
    comes(&counts.lines, all)
        && counts.lines.load(Ordering::SeqCst) == all
        && counts.due_lines.load(Ordering::SeqCst) == due
}

/// Whether a server that ended so ended as its row says.
pub(crate) fn is_ended(row: &Row, counts: &Counts, sink: &MemSink, ended: (u8, u64)) -> bool {
    let bytes = [
        counts.core.load(Ordering::SeqCst),
        counts.abort.load(Ordering::SeqCst),
        counts.interrupt.load(Ordering::SeqCst),
    ];
    let is_told = sink.bytes() == row.ends.text.as_bytes() && is_logged(row, counts);
    is_told && ended == (row.ends.status, row.ends.number) && bytes == row.ends.bytes
}

/// Whether a server with these ends as its row says.
fn ends_with<
    R: Wait,
    N: Net + Drop,
    X: Tools + Logs + Rules + Drop,
    I: Instrument,
    W: Spawner<Serve<N, X, I>>,
>(
    rt: &R,
    alloc: Global,
    row: &Row,
    counts: &Counts,
    setting: Setting<N, X>,
    rack: Vec<Spare<I>>,
    spawner: &mut W,
) -> bool
where
    N::Port: Drop,
    <N::Port as Listen>::Peer: Placed + Drop,
    <X::S as Streams>::Peer: Drop,
{
    let mut setting = setting;
    let ended = run(rt, alloc, &mut setting, rack, spawner);
    is_ended(row, counts, &setting.sink, ended)
}

/// Whether the server of a row ends as it says, where there is memory for it.
pub(crate) fn ends_so<R: Wait, W: Spawner<Job>>(
    rt: &R,
    alloc: Global,
    row: &Row,
    spawner: &mut W,
) -> Option<bool> {
    let counts = counts_of(alloc).ok()?;
    let rack = askers(alloc)?;
    let setting = setting_of(alloc, row, &counts).ok()?;
    Some(ends_with(rt, alloc, row, &counts, setting, rack, spawner))
}

/// The same where there is a spawner.
fn ends_so_by<R: Wait, W: Spawner<Job> + Drop>(
    rt: &R,
    alloc: Global,
    row: &Row,
    spawner: Option<W>,
) -> Option<bool> {
    let mut spawner = spawner?;
    ends_so(rt, alloc, row, &mut spawner)
}

/// What starts a thread for each work, where there is memory for it.
fn threads<R, J>(rt: R, alloc: Global, stderr: Stderr) -> Option<ThreadSpawner<R, J>>
where
    R: Threads + Wait + Copy + Send + 'static,
    J: Work + Send + Drop + 'static,
{
    match wire(rt, alloc, stderr, false, None) {
        Ok(Wiring { spawner, .. }) => Some(spawner),
        Err(_) => None,
    }
}

/// Whether the server of a row ends as it says, with a thread for each worker.
fn ends_so_in_threads<R: Threads + Wait + Copy + Send + 'static>(
    rt: R,
    alloc: Global,
    stderr: Stderr,
    row: &Row,
) -> Option<bool> {
    ends_so_by(&rt, alloc, row, threads(rt, alloc, stderr))
}

/// One worker of core links, and one of streams.
const ONE: &str = "--workers 1";

/// How a server ends whose one core link took the reply to a create_link.
const ENDED: Ends = Ends {
    status: 0,
    text: "listening 9010 9011\nserved 1\n",
    number: 1,
    bytes: [44, 0, 0],
};

/// One core link, which makes a link of the gateway.
const SHORT: Row = Row {
    words: ONE,
    rules: None,
    bench: "",
    lines: 0,
    core: &[Side::Short],
    abort: &[],
    reads: &[],
    writes: &[],
    fails: &[],
    refuses: 0,
    ends: ENDED,
    log: Log::OneLink,
};

/// The same, where a rule denies that. Of the reply 39 bytes are as before: the error, the link, the abort port and the greatest size
/// aren't.
static DENIED: Row = Row {
    rules: Some("allow 10.0.0.0/8 * *\ndeny 192.168.0.0/16 create *\nallow * * *"),
    ends: Ends {
        bytes: [39, 0, 0],
        ..ENDED
    },
    log: Log::Denied,
    ..SHORT
};

/// A core link that asks for service and is interrupted, and an abort link. Its replies have 44 bytes, 32, 32 and 36.
static INTERRUPTED: Row = Row {
    words: ONE,
    rules: None,
    bench: "plug 5 asker\n",
    lines: 0,
    core: &[Side::Core],
    abort: &[Side::Abort],
    reads: &[],
    writes: &[],
    fails: &[],
    refuses: 0,
    ends: Ends {
        status: 0,
        text: "listening 9010 9011\nserved 1\n",
        number: 1,
        bytes: [144, 32, 52],
    },
    log: Log::Interrupted,
};

#[test]
fn links_are_served_in_threads(rt: HostRuntime) {
    for (name, row) in [
        ("a link", &SHORT),
        ("a link whose call a rule denies", &DENIED),
        ("an interrupt and an abort", &INTERRUPTED),
    ] {
        let is_so = ends_so_in_threads(rt, rt.alloc(), rt.stderr(), row);
        assert!(rt; is_so == Some(true), "{name}");
    }
}
