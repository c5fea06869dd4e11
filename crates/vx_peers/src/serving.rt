//! The peers of a door at a port, served, and told.
ghost use Rattle.std.specs.Prelude.{◌≡◌, ◌≤◌, false};
ghost use Rattle.vx_text.specs.Ends.{sink_shown};
ghost use Rattle.vx_peers.specs.declared.words.TheConstants.{PEERS_MAX};
ghost use Rattle.vx_peers.specs.Outcome.{IsPortServed, IsPeerTold, IsPeerServed, PeerPutsLine, peer_shows, peer_status_number};

use crate::servers::PeerServer;
use crate::stopping::{DoorEnd, WhyStopped, serve_each};
use crate::words::Ask;
use vx_door::Door;
use vx_io_traits::{DialOut, Sink};
use vx_text::{DIGITS_MAX, number_line, put_all};

/// Room for the line that is printed, its LF included.
const LINE_ROOM: usize = 7 + DIGITS_MAX + 1;

/// What became of a port.
#[derive(Clone, Copy)]
pub enum PortEnd {
    /// It couldn't be opened.
    Unopened,
    /// It was opened, and so many peers were served there, until this stopped it.
    Served { why: WhyStopped, number: u32 },
}

/// How a run ended, as the program's exit status tells it.
#[derive(Clone, Copy, Debug, PartialEq, Eq)]
pub enum DoorStatus {
    /// 0: as many were served as were asked for, or no more come.
    Served,
    /// 1: the words have another form.
    Usage,
    /// 3: the port couldn't be opened, or the door failed.
    NetFailed,
    /// 5: there was no memory.
    NoMemory,
    /// 6: the sink failed.
    SinkFailed,
}

impl DoorStatus {
    /// The exit status.
    pub fn number(self) -> u8
        ensures { result ≡ peer_status_number self }
    {
        match self {
            DoorStatus::Served => 0,
            DoorStatus::Usage => 1,
            DoorStatus::NetFailed => 3,
            DoorStatus::NoMemory => 5,
            DoorStatus::SinkFailed => 6,
        }
    }
}

/// Writes a line of a run that ends so.
pub fn put_line<K: Sink>(sink: &mut K, line: &[u8], how: DoorStatus) -> DoorStatus
    ensures { PeerPutsLine how line.now
        (sink_shown K.Sink sink.old) (sink_shown K.Sink sink.new) result }
{
    match put_all(sink, line) {
        Ok(()) => how,
        Err(_) => DoorStatus::SinkFailed,
    }
}

/// Tells how many peers were served, where the port was opened and the door didn't fail.
fn tell<K: Sink>(sink: &mut K, end: PortEnd) -> DoorStatus
    ensures { IsPeerTold end (sink_shown K.Sink sink.old) (sink_shown K.Sink sink.new) result }
{
    match end {
        PortEnd::Unopened => DoorStatus::NetFailed,
        PortEnd::Served {
            why: WhyStopped::Door(DoorEnd::Failed),
            ..
        } => DoorStatus::NetFailed,
        PortEnd::Served {
            why: WhyStopped::Door(DoorEnd::Served | DoorEnd::Ended) | WhyStopped::Server,
            number,
        } => {
            let mut out = [0u8; LINE_ROOM];
            let line = number_line(b"served ", u64::from(number), &mut out);
            put_line(sink, line, DoorStatus::Served)
        }
    }
}

/// Opens the port that is asked for and no other, and serves as many peers as are asked for there, or fewer where no more come or the
/// server is stopped behind one. Where the port can't be opened nobody is served. Nothing is printed.
pub fn serve_port<N: Door, S: PeerServer<N>>(ask: &Ask, server: S, net: &mut N) -> (S, PortEnd)
    requires can { S.can server 0 }
    requires going { S.is_stopped server ≡ false }
    requires few { ask.now.number ≤ PEERS_MAX }
    ensures { IsPortServed (peer_shows N.Door S.PeerServer) (record { opens = N.opens; ready = N.is_ready }) ask.now server net.old result.1 result.0 net.new }
{
    match net.open(ask.port) {
        DialOut::Failed => (server, PortEnd::Unopened),
        DialOut::Up => {
            let (server, why, number) = serve_each(server, net, ask.number);
            (server, PortEnd::Served { why, number })
        }
    }
}

/// Serves at the port that is asked for as [`serve_port`] does, by a server that never stops, and prints `served N` with the number of
/// peers. Where the port can't be opened nothing is served or printed; where the door fails nothing is printed.
pub fn serve_peers<N: Door, S: PeerServer<N>, K: Sink>(
    ask: &Ask,
    server: S,
    net: &mut N,
    sink: &mut K,
) -> (S, DoorStatus)
    requires can { S.can server 0 }
    requires lasting { (s : _) → S.is_stopped s ≡ false }
    requires few { ask.now.number ≤ PEERS_MAX }
    ensures { IsPeerServed (peer_shows N.Door S.PeerServer) (record { opens = N.opens; ready = N.is_ready }) ask.now server net.old result.0 net.new
        (sink_shown K.Sink sink.old) (sink_shown K.Sink sink.new) result.1 }
{
    let (server, end) = serve_port(ask, server, net);
    let how = tell(sink, end);
    (server, how)
}
