//! A door over memory, whose peers and faults a test chooses.

ghost use Rattle.std.specs.Prelude.{◌≡◌, ◌≤◌, ◌-◌, ◌++◌, nat_lt, [], ◌∷◌, take, replicate, vec_len, IfOk, if◌then◌else◌};
ghost use Rattle.vx_memory.specs.DoorState.{loopback};
ghost use Rattle.vx_door.specs.Peering.{last_address};

use super::sources::give;
use std::alloc::Global;
use std::collections::VecDeque;
use std::marker::Model;
use std::mem;
use vx_door::{Door, Met, Peered};
use vx_io_traits::{DialOut, Link, ReadOut, WriteOut};

/// The address of each peer: 127.0.0.1, its first part in the high byte.
const LOOPBACK: u32 = 0x7F00_0001;

/// There was no memory for what was to be made.
#[derive(Clone, Copy, Debug, PartialEq, Eq)]
pub struct NoMemory;

/// A peer that gives the bytes of a list, and keeps what it is sent.
#[derive(Drop)]
struct MemPeer {
    bytes: Vec<u8>,
    at: usize,
    room: Vec<u8>,
}

impl Model for MemPeer {
    ghost use Rattle.std.specs.Prelude.{◌≤◌, take, drop, vec_len};
    ghost use Rattle.vx_memory.specs.DoorState.{PeerShown};

    ghost Value = { PeerShown };

    ghost view = { λ p. record {
      received = take p.at p.bytes.items;
      left = drop p.at p.bytes.items;
      sent = p.room.items;
    } };

    ghost invariant = { λ p. p.at ≤ vec_len p.bytes };
}

impl MemPeer {
    ghost use Rattle.std.specs.Prelude.{◌≡◌, ◌++◌, min, length, take, drop, if◌then◌else◌};
    ghost use Rattle.vx_memory.specs.DoorState.{peer_of, gave, got};

    /// A peer that gives `bytes`, and was sent nothing yet.
    fn new(alloc: Global, bytes: Vec<u8>) -> MemPeer
        ensures { result ≡ peer_of bytes.items }
    {
        MemPeer {
            bytes,
            at: 0,
            room: Vec::new(alloc),
        }
    }

    /// Copies the next bytes into the front of `into`, and answers how many.
    fn give(&mut self, into: &mut [u8]) -> usize
        ensures count { result ≡ min (length into.old) (length self.old.left) }
        ensures slice { into.new ≡ take result self.old.left ++ drop result into.old }
        ensures after { self.new ≡ gave result self.old }
    {
        let count = give(&self.bytes[self.at..], usize::MAX, into);
        self.at += count;
        count
    }

    /// Keeps bytes behind those that it was sent, or answers false where its room can't grow.
    fn take(&mut self, from: &[u8]) -> bool
        ensures { self.new ≡ (if result then got from.now self.old else self.old) }
    {
        self.room.extend_from_slice(from).is_ok()
    }

    /// The bytes that it was sent.
    fn sent(&self) -> &[u8]
        ensures { result.now ≡ self.now.sent }
    {
        self.room.as_slice()
    }
}

/// A door that meets the peers of a list, each of which gives its bytes, and keeps what each was sent and the port that it was opened at
/// last; chosen calls fail.
#[derive(Drop)]
pub struct MemDoor {
    coming: VecDeque<Vec<u8>>,
    // a place for each peer, of which those before the present one are filled
    past: Vec<MemPeer>,
    present: MemPeer,
    met: usize,
    fails: Vec<u64>,
    calls: u64,
    faults: u64,
    receive_faults: u64,
    send_faults: u64,
    ended: u64,
    port: Option<u16>,
}

impl Model for MemDoor {
    ghost use Rattle.std.specs.Prelude.{◌+◌, ◌-◌, ◌≤◌, map, take, vec_len};
    ghost use Rattle.std.specs.VecDeque.{deque_len};
    ghost use Rattle.vx_memory.specs.DoorState.{DoorState};

    ghost Value = { DoorState };

    ghost view = { λ s. record {
      coming = map (λ v. v.items) s.coming.items;
      past = take (s.met - 1) s.past.items;
      present = s.present;
      met = s.met;
      fails = s.fails.items;
      calls = s.calls;
      faults = s.faults;
      receive_faults = s.receive_faults;
      send_faults = s.send_faults;
      ended = s.ended;
      port = s.port;
    } };

    ghost invariant = { λ s. s.met + deque_len s.coming ≤ vec_len s.past };
}

/// So many peers that have nothing.
fn places(alloc: Global, count: usize) -> Result<Vec<MemPeer>, NoMemory>
    ensures { IfOk result (λ peers. vec_len peers ≡ count) }
{
    let mut peers = Vec::new(alloc);
    for _ in 0..count {
        if peers.push(MemPeer::new(alloc, Vec::new(alloc))).is_err() {
            return Err(NoMemory);
        }
    }
    Ok(peers)
}

/// Puts the last of so many peers into its place.
fn keep(past: &mut Vec<MemPeer>, met: usize, peer: MemPeer)
    requires { met ≤ vec_len past.old }
    ensures kept { take met past.new.items ≡ take (met - 1) past.old.items ++ (if nat_lt 0 met then peer ∷ [] else []) }
    ensures same { vec_len past.new ≡ vec_len past.old }
{
    if met > 0 {
        past[met - 1] = peer;
    }
}

impl MemDoor {
    ghost use Rattle.std.specs.Prelude.{◌≡◌, ◌<◌, [], map, length, get_or, None, IfOk, MatchOption};
    ghost use Rattle.vx_io_traits.specs.Faults.{fails_next, one_more};
    ghost use Rattle.vx_memory.specs.DoorState.{peer_of, met_peers};

    /// A door that meets peers which give these bytes, in order. The calls whose numbers, counted from 1 over `open`, `next`,
    /// `receive` and `send` together, stand in `fails` fail.
    pub fn new(alloc: Global, peers: Vec<Vec<u8>>, fails: Vec<u64>) -> Result<MemDoor, NoMemory>
        ensures coming { IfOk result (λ door. door.coming ≡ map (λ v. v.items) peers.items) }
        ensures past { IfOk result (λ door. door.past ≡ []) }
        ensures present { IfOk result (λ door. door.present ≡ peer_of []) }
        ensures met { IfOk result (λ door. door.met ≡ 0) }
        ensures fails { IfOk result (λ door. door.fails ≡ fails.items) }
        ensures calls { IfOk result (λ door. door.calls ≡ 0) }
        ensures faults { IfOk result (λ door. door.faults ≡ 0) }
        ensures receive_faults { IfOk result (λ door. door.receive_faults ≡ 0) }
        ensures send_faults { IfOk result (λ door. door.send_faults ≡ 0) }
        ensures ended { IfOk result (λ door. door.ended ≡ 0) }
        ensures port { IfOk result (λ door. door.port ≡ None) }
    {
        match places(alloc, peers.len()) {
            Ok(past) => Ok(MemDoor {
                coming: VecDeque::from(peers),
                past,
                present: MemPeer::new(alloc, Vec::new(alloc)),
                met: 0,
                fails,
                calls: 0,
                faults: 0,
                receive_faults: 0,
                send_faults: 0,
                ended: 0,
                port: None,
            }),
            Err(NoMemory) => Err(NoMemory),
        }
    }

    /// The bytes that the peer of this number was sent, counted from 0 in the order of meeting; none for one that wasn't met.
    pub fn sent(&self, peer: usize) -> Option<&[u8]>
        ensures { MatchOption result (length (met_peers self.now) ≤ peer)
            (λ bytes. (peer < length (met_peers self.now)) × (bytes.now ≡ (get_or (met_peers self.now) peer (peer_of [])).sent)) }
    {
        if peer >= self.met {
            return None;
        }
        if peer == self.met - 1 {
            return Some(self.present.sent());
        }
        Some(self.past[peer].sent())
    }

    /// The port that it was opened at last, or none where it wasn't.
    pub fn port(&self) -> Option<u16>
        ensures { result ≡ self.now.port }
    {
        self.port
    }

    /// Counts a call, and tells whether it is one that fails.
    fn fails(&mut self) -> bool
        ensures answer { result ≡ fails_next self.old.fails self.old.calls }
        ensures after { self.new ≡ record self.old { calls = one_more self.old.calls } }
    {
        self.calls = self.calls.saturating_add(1);
        self.fails.contains(&self.calls)
    }
}

impl Link for MemDoor {
    ghost use Rattle.std.specs.Prelude.{◌≡◌, ◌<◌, ◌≤◌, nat_lt, false, length, take};
    ghost use Rattle.std.specs.Io.KnownBytes.{Consumes, IsAtEnd, Keeps};
    ghost use Rattle.vx_io_traits.specs.Faults.{Rose};
    ghost use Rattle.vx_io_traits.specs.Outs.{IfGot, IfTook, OnEnd, OnReadFailed, OnWriteFailed};
    ghost use Rattle.vx_io_traits.specs.Stands.{Gives, Takes, Stays};
    ghost use Rattle.vx_memory.specs.DoorState.{StandsForPeer, is_at_peer, peer_left, addresses, IsReceive, receive_answer, receive_slice, after_receive, IsSend, IsSendAnswer, after_send};

    ghost stands = { StandsForPeer };

    ghost left = { peer_left };

    ghost receive_faults = { λ s. s.receive_faults };

    ghost send_faults = { λ s. s.send_faults };

    ghost peers = { addresses };

    ghost is_ready = { is_at_peer };

    ghost receives = { IsReceive };

    ghost sends = { IsSend };

    /// Gives the least of the slice's length and what the present peer has left; `End` comes where nothing is left and the
    /// call isn't one that fails. Before the first peer it fails.
    fn receive(&mut self, into: &mut [u8]) -> ReadOut
        requires { 0 < length into.old }

        // What it answers, what stands in the slice and what the door is afterwards.
        ensures answer { result ≡ receive_answer self.old (length into.old) }
        ensures slice { into.new ≡ receive_slice self.old into.old result }
        ensures after { self.new ≡ after_receive self.old result }

        // What every link says.
        ensures counted { self.old.receive_faults ≤ self.new.receive_faults }
        ensures apart { self.new.send_faults ≡ self.old.send_faults }
        ensures ready { is_at_peer self.new ≡ is_at_peer self.old }
        ensures early { is_at_peer self.old ≡ false → result ≡ ReadOut.Failed }
        ensures peers { Keeps (addresses self.old) (addresses self.new) }
        ensures got { IfGot result (λ n. (0 < n) × (n ≤ length into.new)
            × Consumes (peer_left self.old) (peer_left self.new) (take n into.new)
            × Gives StandsForPeer self.old self.new (take n into.new)) }
        ensures end { OnEnd result (IsAtEnd (peer_left self.old)
            × Keeps (peer_left self.old) (peer_left self.new) × Stays StandsForPeer self.old self.new) }
        ensures failed { OnReadFailed result (Rose self.old.receive_faults self.new.receive_faults
            × Keeps (peer_left self.old) (peer_left self.new) × Stays StandsForPeer self.old self.new) }
    {
        if self.fails() || self.met == 0 {
            self.receive_faults = self.receive_faults.saturating_add(1);
            return ReadOut::Failed;
        }
        match self.present.give(into) {
            0 => ReadOut::End,
            count => ReadOut::Got(count),
        }
    }

    /// Sends the whole slice to the present peer, unless the call is one that fails or the peer's room can't grow, which counts
    /// as a fault. Before the first peer it fails.
    fn send(&mut self, from: &[u8]) -> WriteOut
        requires { 0 < length from.now }

        // What it answers, and what the door is afterwards.
        ensures answer { IsSendAnswer self.old (length from.now) result }
        ensures after { self.new ≡ after_send self.old from.now result }

        // What every link says.
        ensures counted { self.old.send_faults ≤ self.new.send_faults }
        ensures apart { self.new.receive_faults ≡ self.old.receive_faults }
        ensures ready { is_at_peer self.new ≡ is_at_peer self.old }
        ensures early { is_at_peer self.old ≡ false → result ≡ WriteOut.Failed }
        ensures peers { Keeps (addresses self.old) (addresses self.new) }
        ensures left { Keeps (peer_left self.old) (peer_left self.new) }
        ensures took { IfTook result (λ n. (0 < n) × (n ≤ length from.now)
            × Takes StandsForPeer self.old self.new (take n from.now)) }
        ensures failed { OnWriteFailed result (Rose self.old.send_faults self.new.send_faults
            × Stays StandsForPeer self.old self.new) }
    {
        if self.fails() || self.met == 0 || !self.present.take(from) {
            self.send_faults = self.send_faults.saturating_add(1);
            return WriteOut::Failed;
        }
        WriteOut::Took(from.len())
    }
}

impl Door for MemDoor {
    ghost use Rattle.std.specs.Prelude.{◌≡◌, ◌≤◌, ◌||◌, true};
    ghost use Rattle.std.specs.Io.KnownBytes.{Keeps};
    ghost use Rattle.vx_io_traits.specs.Faults.{Rose};
    ghost use Rattle.vx_io_traits.specs.Rung.{OnDialFailed};
    ghost use Rattle.vx_io_traits.specs.Stands.{Stays};
    ghost use Rattle.vx_door.specs.Meeting.{IfMet, UnlessMet, OnMeetFailed, is_met, met_after, ended_after, MeetsAt, IsFresh};
    ghost use Rattle.vx_memory.specs.DoorState.{StandsForPeer, is_at_peer, peer_left, addresses, open_answer, after_open, IsMemoryOpen, IsNext, next_answer, after_next};
    ghost use Rattle.vx_memory.specs.KeepingCounts.{receive_keeps_counts, send_keeps_counts};

    ghost met = { λ s. s.met };

    ghost ended = { λ s. s.ended };

    ghost faults = { λ s. s.faults };

    ghost tells = { true };

    ghost opens = { IsMemoryOpen };

    ghost meets = { IsNext };

    /// Answers `Up` and keeps the port, unless the call is one that fails.
    fn open(&mut self, port: u16) -> DialOut
        // What it answers, and what the door is afterwards.
        ensures answer { result ≡ open_answer self.old }
        ensures after { self.new ≡ after_open self.old port result }

        // What every door says.
        ensures counted { self.old.faults ≤ self.new.faults }
        ensures failed { OnDialFailed result (Rose self.old.faults self.new.faults) }
        ensures met { self.new.met ≡ self.old.met }
        ensures ended { self.new.ended ≡ self.old.ended }
        ensures receives { self.new.receive_faults ≡ self.old.receive_faults }
        ensures sends { self.new.send_faults ≡ self.old.send_faults }
        ensures ready { is_at_peer self.new ≡ is_at_peer self.old }
        ensures peers { Keeps (addresses self.old) (addresses self.new) }
        ensures left { Keeps (peer_left self.old) (peer_left self.new) }
        ensures stays { Stays StandsForPeer self.old self.new }
    {
        if self.fails() {
            self.faults = self.faults.saturating_add(1);
            return DialOut::Failed;
        }
        self.port = Some(port);
        DialOut::Up
    }

    /// Meets the peers of its list in order, and then answers `Ended`, unless the call is one that fails. It never waits.
    fn next(&mut self) -> Met
        // What it answers, and what the door is afterwards.
        ensures answer { result ≡ next_answer self.old }
        ensures after { self.new ≡ after_next self.old result }

        // What every door says.
        ensures counted { self.old.faults ≤ self.new.faults }
        ensures failed { OnMeetFailed result (Rose self.old.faults self.new.faults) }
        ensures met { self.new.met ≡ met_after result self.old.met }
        ensures ended { self.new.ended ≡ ended_after result self.old.ended }
        ensures receives { self.new.receive_faults ≡ self.old.receive_faults }
        ensures sends { self.new.send_faults ≡ self.old.send_faults }
        ensures ready { is_at_peer self.new ≡ (is_met result || is_at_peer self.old) }
        ensures peers { MeetsAt result (addresses self.old) (addresses self.new) }
        ensures fresh { IfMet result (IsFresh true StandsForPeer peer_left self.new) }
        ensures left { UnlessMet result (Keeps (peer_left self.old) (peer_left self.new)) }
        ensures stays { UnlessMet result (Stays StandsForPeer self.old self.new) }
    {
        if self.fails() {
            self.faults = self.faults.saturating_add(1);
            return Met::Failed;
        }
        match self.coming.pop_front() {
            Some(bytes) => {
                let peer = MemPeer::new(*self.fails.allocator(), bytes);
                let before = mem::replace(&mut self.present, peer);
                keep(&mut self.past, self.met, before);
                self.met += 1;
                Met::Peer
            }
            None => {
                self.ended = self.ended.saturating_add(1);
                Met::Ended
            }
        }
    }

    ghost receive_keeps = { receive_keeps_counts };

    ghost send_keeps = { send_keeps_counts };
}

/// The address of the last of so many peers, or 0.
fn last_address(met: usize) -> u32
    ensures { result ≡ last_address (replicate met loopback) }
{
    if met == 0 { 0 } else { LOOPBACK }
}

impl Peered for MemDoor {
    ghost use Rattle.vx_door.specs.Peering.{IsPeer};
    ghost use Rattle.vx_memory.specs.DoorState.{addresses};

    /// 127.0.0.1 for each peer that it met.
    fn peer(&self) -> u32
        ensures { IsPeer (addresses self.now) result }
    {
        last_address(self.met)
    }
}
