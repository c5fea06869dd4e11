//! Serving the peers of a door one after another, until it or what serves them stops.
ghost use Rattle.std.specs.Prelude.{◌≡◌, ◌≤◌, ◌<◌, ◌+◌, false};
ghost use Rattle.vx_door.specs.Meeting.{IfMet};
ghost use Rattle.vx_door.specs.Shown.{door_shown};
ghost use Rattle.vx_peers.specs.Serving.{ServesOne, ServesNone};
ghost use Rattle.vx_peers.specs.declared.words.TheConstants.{PEERS_MAX};
ghost use Rattle.vx_peers.specs.Outcome.{PeerServes, StopsPeers, peer_shows};

use crate::servers::PeerServer;
use vx_door::{Door, Met};

/// Why the door gave no more peers, or was asked for no more.
#[derive(Clone, Copy, Debug, PartialEq, Eq)]
pub enum DoorEnd {
    /// As many were served as were to be.
    Served,
    /// The door told that no more come.
    Ended,
    /// The door failed to meet another.
    Failed,
}

/// Why no more peers were served.
#[derive(Clone, Copy)]
pub enum WhyStopped {
    /// As many were served as were to be, or the door met no more.
    Door(DoorEnd),
    /// The server is stopped: it serves no further peer.
    Server,
}

/// Waits for the next peer, behind so many, and serves it where one comes.
#[tactic(auto, using(crate::proofs::Rounds::one_rose))]
fn serve_next<N: Door, S: PeerServer<N>>(server: S, behind: u32, door: &mut N) -> (S, Met)
    requires can { S.can server behind }
    requires few { behind < PEERS_MAX }
    ensures can { IfMet result.1 (S.can result.0 (behind + 1)) }
    ensures met { IfMet result.1 (ServesOne N.stands N.tells N.meets (door_shown N.Door)
        S.did S.is_own S.is_whole server door.old result.0 door.new) }
    ensures none { ServesNone N.stands N.meets (door_shown N.Door)
        server door.old result.1 result.0 door.new }
{
    match door.next() {
        Met::Peer => {
            let (server, _) = server.serve(behind, door);
            (server, Met::Peer)
        }
        Met::Ended => (server, Met::Ended),
        Met::Failed => (server, Met::Failed),
    }
}

/// Meets the peers of a door one after another, at most `limit` of them, and serves each before the next; behind one where the server
/// is stopped it meets no more. It answers why it served no more, and how many it served.
pub(crate) fn serve_each<N: Door, S: PeerServer<N>>(
    server: S,
    door: &mut N,
    limit: u32,
) -> (S, WhyStopped, u32)
    requires can { S.can server 0 }
    requires going { S.is_stopped server ≡ false }
    requires few { limit ≤ PEERS_MAX }
    ensures { StopsPeers (peer_shows N.Door S.PeerServer) limit result.1 result.2 server door.old result.0 door.new }
{
    let mut server = server;
    let mut number = 0;
    while number < limit {
        let (after, met) = serve_next(server, number, door);
        server = after;
        match met {
            Met::Peer => {
                number += 1;
                if server.is_stopped() {
                    return (server, WhyStopped::Server, number);
                }
            }
            Met::Ended => return (server, WhyStopped::Door(DoorEnd::Ended), number),
            Met::Failed => return (server, WhyStopped::Door(DoorEnd::Failed), number),
        }
    }
    (server, WhyStopped::Door(DoorEnd::Served), number)
}

/// Does the same by a server that never stops.
pub fn serve_all<N: Door, S: PeerServer<N>>(
    server: S,
    door: &mut N,
    limit: u32,
) -> (S, DoorEnd, u32)
    requires can { S.can server 0 }
    requires lasting { (s : _) → S.is_stopped s ≡ false }
    requires few { limit ≤ PEERS_MAX }
    ensures { PeerServes (peer_shows N.Door S.PeerServer) limit result.1 result.2 server door.old result.0 door.new }
{
    let (server, why, number) = serve_each(server, door, limit);
    match why {
        WhyStopped::Door(end) => (server, end, number),
        WhyStopped::Server => unreachable!(),
    }
}
