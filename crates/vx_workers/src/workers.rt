//! What the workers of a server do, each in a thread of its own, by turns at the one gate.
ghost use Rattle.std.specs.Prelude.{◌≡◌, List};
ghost use Rattle.vx_session.specs.Dialing.{dial_shown};
ghost use Rattle.vx_stream.specs.Visiting.{VisitorState};
ghost use Rattle.vx_workers.specs.Logged.{news_of, reason_of, untold};
ghost use Rattle.vx_workers.specs.Working.{ServesCore, ServesAbort, ServesEach, core_worker};

use crate::access::{Access, GateAccess, LinkAccess};
use crate::served::Served;
use crossbeam_channel::{Receiver, Sender};
use std::alloc::Global;
use std::sync::{Arc, Wait};
use vx_488::Bus;
use vx_calls::CallRef;
use vx_desks::{Kit, Note};
use vx_io_traits::{Accepted, Clock, Dial, Handed, Link, Listen, Net, Pause, Sink, Streams, Work};
use vx_policy::proc_of;
use vx_session::{End, Linked, Room, Tools};
use vx_startup::{Channel, Journal, Logs, News, Place, Placed, Reason};
use vx_stream::CountingLink;

/// What one core link wants besides itself, the log that it is told in, and where it is counted. The log has a clock of its own: what is
/// claimed of a session's turns says for what theirs was called.
#[derive(Drop)]
pub struct CoreKit<C: Clock + Drop, P: Pause + Drop, D: Dial + Drop, G: Sink> {
    pub tools: Kit<C, P, D>,
    pub journal: Journal<C, G>,
    pub served: Arc<Served, Global>,
}

/// The log as what is told of denials: each has a line, with the number of its connection and the place of its peer. Where the log fails
/// no session ends by it.
#[derive(Drop)]
struct DenialLog<C: Clock, G: Sink> {
    journal: Journal<C, G>,
    number: u64,
    place: Place,
}

impl<C: Clock, G: Sink> Note for DenialLog<C, G> {
    ghost took = { λ _. untold };

    fn tell(&mut self, _conn: u32, rule: u32, call: &CallRef<'_>) -> bool {
        let news = News::Denied {
            rule,
            proc: proc_of(call),
        };
        let _ = self
            .journal
            .tell(Channel::Core, self.number, self.place, news);
        true
    }
}

/// What one abort link wants besides itself, and the log that it is told in.
#[derive(Drop)]
pub struct AbortKit<C: Clock, G: Sink> {
    pub room: Room,
    pub journal: Journal<C, G>,
}

/// So many pauses, one after the other.
#[derive(Drop)]
pub struct Pauses<P: Pause> {
    pub one: P,
    pub times: u32,
}

impl<P: Pause> Pause for Pauses<P> {
    fn pause(&mut self) {
        for _ in 0..self.times {
            self.one.pause();
        }
    }
}

/// Why a session ended, as the log tells it.
fn reason_of(end: End) -> Reason
    ensures { result ≡ reason_of end }
{
    match end {
        End::Closed => Reason::Closed,
        End::CutShort { bytes: _ } => Reason::CutShort,
        End::Junk { length: _ } => Reason::Junk,
        End::TooLong => Reason::TooLong,
        End::ReadFault => Reason::ReadFault,
        End::WriteFault => Reason::WriteFault,
    }
}

/// How a link's work ended, of whose calls so many were answered, as the log tells it.
fn news_of(how: Linked, calls: u64) -> News
    ensures { result ≡ news_of how calls }
{
    match how {
        Linked::Ended(end) => News::Ended {
            reason: reason_of(end),
            calls,
        },
        Linked::Full => News::Full,
        Linked::NoMemory => News::NoMemory,
    }
}

/// What serves links of one port, one after the other.
pub trait Attend<L>: Sized {
    // What serving a link does, which is gone then.
    ghost attends: { Self → L → Self → Type 0 };

    /// Tells of the link of this number, whose peer is here, in the log.
    fn tell(&mut self, number: u64, place: Place, news: News);

    /// Serves a link, and tells how it went.
    fn attend<R: Wait>(self, rt: &R, link: L) -> Self
        ensures served { attends self link result };
}

/// What serves core links: its access, and what it wants besides.
#[derive(Drop)]
pub struct CoreWorker<A, C: Clock + Drop, P: Pause + Drop, D: Dial + Drop, G: Sink> {
    pub access: A,
    pub kit: CoreKit<C, P, D, G>,
}

impl<
    A: LinkAccess<CountingLink<L>>,
    L: Placed + Drop,
    C: Clock + Drop,
    P: Pause + Drop,
    D: Dial + Drop,
    G: Sink,
> Attend<CountingLink<L>> for CoreWorker<A, C, P, D, G> {
    ghost attends = { λ w link w'. ServesCore A.serves C.tells C.told (core_worker D.Dial w.access w.kit.tools.clock w.kit.tools.dial) link (core_worker D.Dial w'.access w'.kit.tools.clock w'.kit.tools.dial) };

    fn tell(&mut self, number: u64, place: Place, news: News) {
        let _ = self.kit.journal.tell(Channel::Core, number, place, news);
    }

    /// Serves a core link, tells each call of it that a rule denies, and how it went, and counts it.
    fn attend<R: Wait>(self, rt: &R, link: CountingLink<L>) -> CoreWorker<A, C, P, D, G> {
        let CoreWorker { access, kit } = self;
        let CoreKit {
            mut tools,
            journal,
            served,
        } = kit;
        let number = link.number();
        let place = link.link().place();
        let mut note = DenialLog {
            journal,
            number,
            place,
        };
        let (access, done) = access.core_link(rt, link, place.host, &mut tools, &mut note);
        let DenialLog { mut journal, .. } = note;
        let news = news_of(*done.how(), done.link().answered());
        let _ = journal.tell(Channel::Core, number, place, news);
        served.add(rt, done);
        let kit = CoreKit {
            tools,
            journal,
            served,
        };
        CoreWorker { access, kit }
    }
}

/// What serves abort links: its access, and what it wants besides.
#[derive(Drop)]
pub struct AbortWorker<A, C: Clock, G: Sink> {
    pub access: A,
    pub kit: AbortKit<C, G>,
}

impl<A: LinkAccess<CountingLink<L>>, L: Placed + Drop, C: Clock, G: Sink> Attend<CountingLink<L>>
    for AbortWorker<A, C, G> {
    ghost attends = { λ w link w'. ServesAbort A.serves w.access link w'.access };

    fn tell(&mut self, number: u64, place: Place, news: News) {
        let _ = self.kit.journal.tell(Channel::Abort, number, place, news);
    }

    /// Serves an abort link, which is closed then, and tells how it went.
    fn attend<R: Wait>(self, rt: &R, link: CountingLink<L>) -> AbortWorker<A, C, G> {
        let AbortWorker { access, mut kit } = self;
        let mut link = link;
        let number = link.number();
        let place = link.link().place();
        let (access, how) = access.abort_link(rt, &mut link, &mut kit.room);
        let news = news_of(how, link.answered());
        let _ = kit.journal.tell(Channel::Abort, number, place, news);
        AbortWorker { access, kit }
    }
}

/// Serves the links that come, until no more come.
fn serve_each<R: Wait, L: Drop, V: Attend<L>>(rt: &R, worker: V, links: &Receiver<L>) -> V
    ensures served { (served : List L) × ServesEach V.attends worker served result }
{
    let mut worker = worker;
    for _ in rt.forever() {
        match links.recv(rt) {
            Ok(link) => worker = worker.attend(rt, link),
            Err(_) => return worker,
        }
    }
    unreachable!()
}

/// Tells that a link came, and hands it to the workers. It waits where 64 links wait for one, and serves a link that comes back
/// itself.
pub fn hand_on<R: Wait, L: Placed + Drop, V: Attend<CountingLink<L>>>(
    rt: &R,
    links: &Sender<CountingLink<L>>,
    worker: V,
    link: CountingLink<L>,
) -> V {
    let mut worker = worker;
    worker.tell(link.number(), link.link().place(), News::Came);
    match links.send(rt, link) {
        Ok(()) => worker,
        Err(back) => worker.attend(rt, back.into_inner()),
    }
}

/// The links of a net.
pub type Peer<N> = <<N as Net>::Port as Listen>::Peer;

/// What a worker does.
#[derive(Drop)]
pub enum Duty<N: Net, X: Tools + Logs>
where
    N::Port: Drop,
    Peer<N>: Drop,
    <X::S as Streams>::Peer: Drop,
{
    /// It serves core links, one after the other.
    Core {
        links: Receiver<CountingLink<Peer<N>>>,
        kit: CoreKit<X::C, X::P, X::D, X::L>,
    },
    /// It serves abort links.
    Abort {
        links: Receiver<CountingLink<Peer<N>>>,
        kit: AbortKit<X::C, X::L>,
    },
    /// It writes the interrupts of channels to the streams that dials hand over. Interrupts come at samples alone, so it looks
    /// for one as seldom as the sampler looks at the SRQ line.
    Pump {
        streams: X::S,
        pause: Pauses<X::P>,
    },
    /// It takes the links of the abort port and hands them to the abort workers, or serves one that comes back.
    Accept {
        port: N::Port,
        links: Sender<CountingLink<Peer<N>>>,
        kit: AbortKit<X::C, X::L>,
    },
    /// It looks at the SRQ line, and then pauses, until the server ends.
    Sample {
        clock: X::C,
        pause: Pauses<X::P>,
        served: Arc<Served, Global>,
    },
}

impl<N: Net, X: Tools + Logs> Duty<N, X>
where
    N::Port: Drop,
    Peer<N>: Placed + Drop,
    <X::S as Streams>::Peer: Drop,
{
    /// Does it, by this access.
    fn work<R: Wait, A: LinkAccess<CountingLink<Peer<N>>> + Drop>(self, rt: &R, access: A) {
        match self {
            Duty::Core { links, kit } => drop(serve_each(rt, CoreWorker { access, kit }, &links)),
            Duty::Abort { links, kit } => drop(serve_each(rt, AbortWorker { access, kit }, &links)),
            Duty::Pump { streams, pause } => run_pumps(rt, access, streams, pause),
            Duty::Accept { port, links, kit } => {
                accept_aborts(rt, port, &links, AbortWorker { access, kit })
            }
            Duty::Sample {
                clock,
                pause,
                served,
            } => sample_on(rt, access, &served, clock, pause),
        }
    }
}

/// A work by an access, which does this duty.
pub trait Job<A, T>: Work + Sized {
    fn of(access: A, duty: T) -> Self;
}

/// The work of one worker of a server over such a bus: a duty, by an access to the gate of the server.
#[derive(Drop)]
pub struct ServeBus<N: Net, X: Tools + Logs, B: Bus + Drop>
where
    N::Port: Drop,
    Peer<N>: Drop,
    <X::S as Streams>::Peer: Drop,
{
    access: GateAccess<B>,
    duty: Duty<N, X>,
}

impl<N: Net, X: Tools + Logs, B: Bus + Drop> Job<GateAccess<B>, Duty<N, X>> for ServeBus<N, X, B>
where
    N::Port: Drop,
    Peer<N>: Placed + Drop,
    <X::S as Streams>::Peer: Drop,
{
    fn of(access: GateAccess<B>, duty: Duty<N, X>) -> ServeBus<N, X, B> {
        ServeBus { access, duty }
    }
}

impl<N: Net, X: Tools + Logs, B: Bus + Drop> Work for ServeBus<N, X, B>
where
    N::Port: Drop,
    Peer<N>: Placed + Drop,
    <X::S as Streams>::Peer: Drop,
{
    fn run<R: Wait>(self, rt: &R) {
        let ServeBus { access, duty } = self;
        duty.work(rt, access)
    }
}

/// Takes the links of the abort port, counts them up to 2^64 - 1 and hands them on, until no more come or a wait fails.
fn accept_aborts<R: Wait, T: Listen + Drop, V: Attend<CountingLink<T::Peer>> + Drop>(
    rt: &R,
    port: T,
    links: &Sender<CountingLink<T::Peer>>,
    worker: V,
)
where
    T::Peer: Placed + Drop,
{
    let mut worker = worker;
    let mut port = port;
    let mut number = 0u64;
    for _ in rt.forever() {
        match port.accept() {
            Accepted::Peer(link) => {
                number = number.saturating_add(1);
                worker = hand_on(rt, links, worker, CountingLink::new(link, number));
            }
            Accepted::Ended | Accepted::Failed => return,
        }
    }
}

/// Runs a pump on each stream that is handed over, which is closed then, until no more come.
fn run_pumps<R: Wait, A: Access + Drop, S: Streams + Drop, P: Pause + Drop>(
    rt: &R,
    access: A,
    streams: S,
    pause: P,
)
where
    S::Peer: Drop,
{
    let mut access = access;
    let mut streams = streams;
    let mut pause = pause;
    for _ in rt.forever() {
        match streams.next(rt) {
            Handed::Stream { conn, chan, link } => {
                let mut link = link;
                access = access.pump(rt, conn, chan, &mut link, &mut pause);
            }
            Handed::Ended => return,
        }
    }
}

/// Looks at the SRQ line again and again until the server ends, and pauses between two looks.
fn sample_on<R: Wait, A: Access + Drop, C: Clock + Drop, P: Pause + Drop>(
    rt: &R,
    access: A,
    served: &Served,
    clock: C,
    pause: P,
) {
    let mut access = access;
    let mut clock = clock;
    let mut pause = pause;
    for _ in rt.forever() {
        if served.is_over() {
            return;
        }
        access = access.sample(rt, &mut clock);
        pause.pause();
    }
}
