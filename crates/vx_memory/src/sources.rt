//! A source over memory, whose pieces and faults a test chooses.

ghost use Rattle.std.specs.Prelude.{◌≡◌, ◌<◌, ◌≤◌, ◌++◌, min, Some, length, take, drop};
ghost use Rattle.std.specs.Io.KnownBytes.{Consumes, IsAtEnd, Keeps};
ghost use Rattle.vx_io_traits.specs.Faults.{Rose};
ghost use Rattle.vx_io_traits.specs.Outs.{IfGot, OnEnd, OnReadFailed};
ghost use Rattle.vx_memory.specs.SourceState.{SourceState, read_answer, read_slice, after_read};

use std::marker::Model;
use vx_io_traits::{ReadOut, Source};

/// A source of the bytes of a list, in pieces of a chosen length, of which chosen reads fail.
#[derive(Drop)]
pub struct MemSource {
    bytes: Vec<u8>,
    at: usize,
    piece: usize,
    fails: Vec<u64>,
    calls: u64,
    faults: u64,
}

impl Model for MemSource {
    ghost use Rattle.std.specs.Prelude.{◌<◌, ◌≤◌, drop, vec_len};
    ghost use Rattle.vx_memory.specs.SourceState.{SourceState};

    ghost Value = { SourceState };

    ghost view = { λ s. record {
      left = drop s.at s.bytes.items;
      piece = s.piece;
      fails = s.fails.items;
      calls = s.calls;
      faults = s.faults;
    } };

    ghost invariant = { λ s. (0 < s.piece) × (s.at ≤ vec_len s.bytes) };
}

impl MemSource {
    /// A source of `bytes`. A read gives at most `piece` bytes, and the reads whose numbers, counted from 1 over the
    /// source, stand in `fails` fail.
    pub fn new(bytes: Vec<u8>, piece: usize, fails: Vec<u64>) -> MemSource
        requires { 0 < piece }
        ensures left { result.left ≡ bytes.items }
        ensures piece { result.piece ≡ piece }
        ensures fails { result.fails ≡ fails.items }
        ensures calls { result.calls ≡ 0 }
        ensures faults { result.faults ≡ 0 }
    {
        MemSource {
            bytes,
            at: 0,
            piece,
            fails,
            calls: 0,
            faults: 0,
        }
    }
}

impl Source for MemSource {
    ghost left = { λ s. Some s.left };

    ghost faults = { λ s. s.faults };

    /// Gives the least of the piece, the slice's length and what is left; `End` comes where nothing is left and the
    /// call isn't one that fails.
    fn read(&mut self, into: &mut [u8]) -> ReadOut
        requires { 0 < length into.old }

        // What it answers, what stands in the slice and what the source is afterwards.
        ensures answer { result ≡ read_answer self.old (length into.old) }
        ensures slice { into.new ≡ read_slice self.old into.old result }
        ensures after { self.new ≡ after_read self.old result }

        // What every source says.
        ensures counted { self.old.faults ≤ self.new.faults }
        ensures got { IfGot result (λ n. (0 < n) × (n ≤ length into.new)
            × Consumes (Some self.old.left) (Some self.new.left) (take n into.new)) }
        ensures end { OnEnd result (IsAtEnd (Some self.old.left)
            × Keeps (Some self.old.left) (Some self.new.left)) }
        ensures failed { OnReadFailed result (Rose self.old.faults self.new.faults
            × Keeps (Some self.old.left) (Some self.new.left)) }
    {
        self.calls = self.calls.saturating_add(1);
        if self.fails.contains(&self.calls) {
            self.faults = self.faults.saturating_add(1);
            return ReadOut::Failed;
        }
        let left = &self.bytes[self.at..];
        if left.is_empty() {
            return ReadOut::End;
        }
        let count = give(left, self.piece, into);
        self.at += count;
        ReadOut::Got(count)
    }
}

/// Copies a front of `left` into `into`, of at most `piece` bytes, and answers how many.
pub(super) fn give(left: &[u8], piece: usize, into: &mut [u8]) -> usize
    ensures count { result ≡ min (min piece (length into.old)) (length left.now) }
    ensures slice { into.new ≡ take result left.now ++ drop result into.old }
{
    let count = piece.min(into.len()).min(left.len());
    into[..count].copy_from_slice(&left[..count]);
    count
}
