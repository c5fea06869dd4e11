//! A link over memory, whose pieces and faults a test chooses.

use super::sources::give;
use std::marker::Model;
use vx_io_traits::{Link, ReadOut, WriteOut};

/// A link that gives the bytes of a list, in pieces of a chosen length, and keeps what it takes behind what its room
/// held; chosen calls fail.
#[derive(Drop)]
pub struct MemLink {
    bytes: Vec<u8>,
    at: usize,
    piece: usize,
    room: Vec<u8>,
    fails: Vec<u64>,
    calls: u64,
    receive_faults: u64,
    send_faults: u64,
}

impl Model for MemLink {
    ghost use Rattle.std.specs.Prelude.{◌<◌, ◌≤◌, take, drop, vec_len};
    ghost use Rattle.vx_memory.specs.LinkState.{LinkState};

    ghost Value = { LinkState };

    ghost view = { λ s. record {
      given = take s.at s.bytes.items;
      left = drop s.at s.bytes.items;
      piece = s.piece;
      taken = s.room.items;
      fails = s.fails.items;
      calls = s.calls;
      receive_faults = s.receive_faults;
      send_faults = s.send_faults;
    } };

    ghost invariant = { λ s. (0 < s.piece) × (s.at ≤ vec_len s.bytes) };
}

impl MemLink {
    ghost use Rattle.std.specs.Prelude.{◌≡◌, ◌<◌, []};

    /// A link that gives `bytes`, at most `piece` of them a call, and has taken what `room` holds. The calls whose
    /// numbers, counted from 1 over receives and sends together, stand in `fails` fail.
    pub fn new(bytes: Vec<u8>, piece: usize, room: Vec<u8>, fails: Vec<u64>) -> MemLink
        requires { 0 < piece }
        ensures given { result.given ≡ [] }
        ensures left { result.left ≡ bytes.items }
        ensures piece { result.piece ≡ piece }
        ensures taken { result.taken ≡ room.items }
        ensures fails { result.fails ≡ fails.items }
        ensures calls { result.calls ≡ 0 }
        ensures receive_faults { result.receive_faults ≡ 0 }
        ensures send_faults { result.send_faults ≡ 0 }
    {
        MemLink {
            bytes,
            at: 0,
            piece,
            room,
            fails,
            calls: 0,
            receive_faults: 0,
            send_faults: 0,
        }
    }

    /// What the link took, behind what its room held at first.
    pub fn bytes(&self) -> &[u8]
        ensures { result.now ≡ self.now.taken }
    {
        self.room.as_slice()
    }
}

impl Link for MemLink {
    ghost use Rattle.std.specs.Prelude.{◌≡◌, ◌<◌, ◌≤◌, None, Some, length, take};
    ghost use Rattle.std.specs.Io.KnownBytes.{Consumes, IsAtEnd, Keeps};
    ghost use Rattle.vx_io_traits.specs.Faults.{Rose};
    ghost use Rattle.vx_io_traits.specs.Outs.{IfGot, IfTook, OnEnd, OnReadFailed, OnWriteFailed};
    ghost use Rattle.vx_io_traits.specs.Stands.{Gives, Takes, Stays};
    ghost use Rattle.vx_memory.specs.LinkState.{MemoryStandsFor, IsReceive, IsSend, receive_answer, receive_slice, after_receive, IsSendAnswer, after_send};

    ghost stands = { MemoryStandsFor };

    ghost left = { λ s. Some s.left };

    ghost receive_faults = { λ s. s.receive_faults };

    ghost send_faults = { λ s. s.send_faults };

    ghost receives = { IsReceive };

    ghost sends = { IsSend };

    /// Gives the least of the piece, the slice's length and what is left; `End` comes where nothing is left and the
    /// call isn't one that fails.
    fn receive(&mut self, into: &mut [u8]) -> ReadOut
        requires { 0 < length into.old }

        // What it answers, what stands in the slice and what the link is afterwards.
        ensures answer { result ≡ receive_answer self.old (length into.old) }
        ensures slice { into.new ≡ receive_slice self.old into.old result }
        ensures after { self.new ≡ after_receive self.old result }

        // What every link says.
        ensures counted { self.old.receive_faults ≤ self.new.receive_faults }
        ensures apart { self.new.send_faults ≡ self.old.send_faults }
        ensures peers { Keeps None None }
        ensures got { IfGot result (λ n. (0 < n) × (n ≤ length into.new)
            × Consumes (Some self.old.left) (Some self.new.left) (take n into.new)
            × Gives MemoryStandsFor self.old self.new (take n into.new)) }
        ensures end { OnEnd result (IsAtEnd (Some self.old.left)
            × Keeps (Some self.old.left) (Some self.new.left) × Stays MemoryStandsFor self.old self.new) }
        ensures failed { OnReadFailed result (Rose self.old.receive_faults self.new.receive_faults
            × Keeps (Some self.old.left) (Some self.new.left) × Stays MemoryStandsFor self.old self.new) }
    {
        self.calls = self.calls.saturating_add(1);
        if self.fails.contains(&self.calls) {
            self.receive_faults = self.receive_faults.saturating_add(1);
            return ReadOut::Failed;
        }
        let left = &self.bytes[self.at..];
        if left.is_empty() {
            return ReadOut::End;
        }
        let count = give(left, self.piece, into);
        self.at += count;
        ReadOut::Got(count)
    }

    /// Takes the whole slice, unless the call is one that fails or the room can't grow, which counts as a fault.
    fn send(&mut self, from: &[u8]) -> WriteOut
        requires { 0 < length from.now }

        // What it answers, and what the link is afterwards.
        ensures answer { IsSendAnswer self.old (length from.now) result }
        ensures after { self.new ≡ after_send self.old from.now result }

        // What every link says.
        ensures counted { self.old.send_faults ≤ self.new.send_faults }
        ensures apart { self.new.receive_faults ≡ self.old.receive_faults }
        ensures peers { Keeps None None }
        ensures left { Keeps (Some self.old.left) (Some self.new.left) }
        ensures took { IfTook result (λ n. (0 < n) × (n ≤ length from.now)
            × Takes MemoryStandsFor self.old self.new (take n from.now)) }
        ensures failed { OnWriteFailed result (Rose self.old.send_faults self.new.send_faults
            × Stays MemoryStandsFor self.old self.new) }
    {
        self.calls = self.calls.saturating_add(1);
        if self.fails.contains(&self.calls) || self.room.extend_from_slice(from).is_err() {
            self.send_faults = self.send_faults.saturating_add(1);
            return WriteOut::Failed;
        }
        WriteOut::Took(from.len())
    }
}
