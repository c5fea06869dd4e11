//! What the server has of its host: workers as threads, and dials over TCP.

use crossbeam_channel::{bounded, unbounded};
use std::alloc::{AllocError, Global};
use std::net::{Ipv4Addr, TcpListener, TcpStream};
use std::sync::Wait;
use vx_host::{Dialed, TcpTools, ThreadSpawner};
use vx_io::{
    Accepted, Clock, Dial, DialOut, Handed, Link, Listen, Pause, ReadOut, Spawner, Started,
    Streams, TcpLink, TcpPort, Work, WriteOut,
};
use vx_session::Tools;

/// A work that does nothing.
#[derive(Drop)]
struct Rests;

impl Work for Rests {
    fn run<R: Wait>(self, _rt: &R) {}
}

/// What comes of a work whose spawner has channels whose other ends are gone.
fn start_cut_off<R: Wait + Drop>(rt: R, alloc: Global) -> Result<Started, AllocError> {
    let (jobs, queue) = unbounded(alloc)?;
    drop(queue);
    let (answers, started) = unbounded(alloc)?;
    drop(answers);
    let mut spawner = ThreadSpawner::new(rt, jobs, started);
    Ok(spawner.start(Rests))
}

// Where nothing starts the works any more, each is refused.
#[test]
fn a_work_is_refused(rt: HostRuntime) {
    assert!(rt; start_cut_off(rt, rt.alloc()) == Ok(Started::Refused));
}

/// This host.
const HERE: u32 = 0x7F00_0001;

/// What came of a stream that was handed on: its connection and channel, how many bytes it took, and how many came at its peer.
type Carried = (u32, u32, WriteOut, ReadOut);

/// What a dial of an open port answered, what came of its stream, and what a dial of the closed port answered.
type Dialings = (DialOut, Option<Carried>, DialOut);

/// Hands the stream that was dialed last on, sends two bytes over it, and receives them at the port.
fn hand_on<R: Wait, D: Dial, S: Streams, P: Listen>(
    rt: &R,
    dial: &mut D,
    streams: &mut S,
    port: &mut P,
) -> Option<Carried>
where
    S::Peer: Drop,
    P::Peer: Drop,
{
    dial.hand(rt, 3, 7);
    let Handed::Stream { conn, chan, link } = streams.next(rt) else {
        return None;
    };
    let mut link = link;
    let sent = link.send(&[1, 2]);
    match port.accept() {
        Accepted::Peer(mut other) => Some((conn, chan, sent, other.receive(&mut [0u8; 4]))),
        _ => None,
    }
}

/// Dials a port that is open, hands the stream on, and dials the port again once it is closed.
fn dial_twice<R: Wait, T: Tools, P: Listen + Drop>(
    rt: &R,
    tools: &mut T,
    port: P,
    number: u16,
) -> Dialings
where
    <T::S as Streams>::Peer: Drop,
    P::Peer: Drop,
{
    let mut port = port;
    let mut dial = tools.dial();
    let mut streams = tools.streams();
    let first = dial.dial(HERE, number);
    let carried = hand_on(rt, &mut dial, &mut streams, &mut port);
    drop(port);
    (first, carried, dial.dial(HERE, number))
}

/// Whether a clock of these tools goes on from before a pause to behind it.
fn is_going_on<T: Tools>(tools: &mut T) -> bool {
    let mut clock = tools.clock();
    let before = clock.now();
    tools.pause().pause();
    clock.now() >= before
}

/// A port of this host, and its number.
fn open_port(rt: &HostRuntime) -> Option<(TcpPort, u16)> {
    let listener = TcpListener::bind(rt, (Ipv4Addr::LOCALHOST, 0)).ok()?;
    let number = listener.local_addr().ok()?.port();
    Some((TcpPort::new(listener), number))
}

/// Dials a port of this host twice, where there is one, by tools whose dials hand their streams on to each other; and whether their clocks
/// go on.
fn dialings<R: Wait>(rt: &R, host: HostRuntime) -> Option<(Dialings, bool)> {
    let (pumps, dialed) = bounded::<Dialed, Global>(host.alloc(), 64).ok()?;
    let (port, number) = open_port(&host)?;
    let mut tools = TcpTools::new(host, pumps, dialed, host.stderr(), false, None);
    let came = dial_twice(rt, &mut tools, port, number);
    Some((came, is_going_on(&mut tools)))
}

// A dial reaches a port of this host, and hands its stream on once; a port that nobody listens at fails. And clocks go on.
#[test]
fn a_dial_hands_its_stream_on(rt: HostRuntime) {
    let carried = Some((3, 7, WriteOut::Took(2), ReadOut::Got(2)));
    assert!(rt; dialings(&rt, rt) == Some(((DialOut::Up, carried, DialOut::Failed), true)));
}

/// Whether a link that reached a port of this host tells that its peer is there.
fn is_peer_told(rt: &HostRuntime) -> Option<bool> {
    let (_port, number) = open_port(rt)?;
    let stream = TcpStream::connect(rt, (Ipv4Addr::LOCALHOST, number)).ok()?;
    Some(TcpLink::new(stream).peer_place() == (HERE, number))
}

#[test]
fn a_link_tells_where_its_peer_is(rt: HostRuntime) {
    assert!(rt; is_peer_told(&rt) == Some(true));
}
