//! The buffer that puts a stream's records together.

ghost use Rattle.std.specs.Prelude.{◌≡◌, ◌<◌, ◌≤◌, ◌+◌, ◌^◌, ◌↔◌, length, drop, IfOk, IsTrue};
ghost use Rattle.vx_record.specs.Buffer.{fresh, counted, closed, opened, header_byte, body_bytes, fed, taken};

use super::{Fed, Feed, LAST, NoMemory};
use byteorder::{BigEndian, ByteOrder};
use std::alloc::Global;
use std::marker::Model;

/// The most stream bytes since the last whole record that are told.
const MOST_REST: usize = 1 << 62;

/// A buffer for one record at a time, of at most a given number of bytes.
#[derive(Drop)]
pub struct RecordBuf {
    limit: usize,
    kept: Vec<u8>,
    header: [u8; 4],
    seen: usize,
    last: bool,
    left: usize,
    state: Feed,
    rest: usize,
}

impl Model for RecordBuf {
    ghost use Rattle.std.specs.Prelude.{take};
    ghost use Rattle.vx_record.specs.Buffer.{BufState};

    ghost Value = { BufState };

    ghost view = { λ b. record {
      limit = b.limit;
      kept = b.kept.items;
      header = take b.seen b.header;
      last = b.last;
      left = b.left;
      state = b.state;
      rest = b.rest;
    } };

    ghost use Rattle.std.specs.Prelude.{◌+◌, ◌<◌, ◌≤◌, ◌^◌, vec_len, vec_capacity};

    ghost invariant = { λ b. (b.seen < 4) × (b.limit ≤ vec_capacity b.kept)
        × (vec_len b.kept + b.left ≤ b.limit) × (b.rest ≤ 2 ^ 62) };
}

impl RecordBuf {
    /// A buffer with nothing kept, for records of at most `limit` bytes. Its room is made here.
    pub fn new(alloc: Global, limit: usize) -> Result<RecordBuf, NoMemory>
        ensures { IfOk result (λ buf. buf ≡ fresh limit) }
    {
        let Ok(kept) = Vec::with_capacity(alloc, limit) else {
            return Err(NoMemory);
        };
        Ok(RecordBuf {
            limit,
            kept,
            header: [0; 4],
            seen: 0,
            last: false,
            left: 0,
            state: Feed::More,
            rest: 0,
        })
    }

    /// Takes stream bytes from the front of `piece`, up to the one that makes the record whole or too long, or else all.
    pub fn feed(&mut self, piece: &[u8]) -> Fed
        requires { self.old.state ≡ Feed.More }
        ensures after { self.new ≡ fed self.old piece.now }
        ensures took { result.took ≡ taken self.old piece.now }
        ensures some { 0 < length piece.now → 0 < result.took }
        ensures within { result.took ≤ length piece.now }
        ensures state { result.state ≡ self.new.state }
        ensures more { result.state ≡ Feed.More → result.took ≡ length piece.now }
        ensures limit { self.new.limit ≡ self.old.limit }
    {
        let mut took = 0;
        while took < piece.len() && self.wants_more() {
            took += self.take_part(&piece[took..]);
        }
        Fed {
            took,
            state: self.state,
        }
    }

    /// The bytes of the whole record.
    pub fn whole(&self) -> &[u8]
        requires { self.now.state ≡ Feed.Whole }
        ensures bytes { result.now ≡ self.now.kept }
        ensures fits { length result.now ≤ self.now.limit }
    {
        self.kept.as_slice()
    }

    /// Lets the whole record go, and begins the next one with nothing kept.
    pub fn next(&mut self)
        requires { self.old.state ≡ Feed.Whole }
        ensures { self.new ≡ fresh self.old.limit }
    {
        self.restart();
    }

    /// Lets go all that is kept, whatever state the last feed left, and begins a new stream.
    pub fn restart(&mut self)
        ensures { self.new ≡ fresh self.old.limit }
    {
        self.kept.clear();
        self.seen = 0;
        self.last = false;
        self.left = 0;
        self.state = Feed::More;
        self.rest = 0;
    }

    /// How many stream bytes came since the last whole record; more than 2^62 are told as 2^62.
    pub fn rest(&self) -> usize
        ensures rest { result ≡ self.now.rest }
        ensures most { result ≤ 2 ^ 62 }
    {
        self.rest
    }

    pub(crate) fn wants_more(&self) -> bool
        ensures { IsTrue result ↔ (self.now.state ≡ Feed.More) }
    {
        matches!(&self.state, Feed::More)
    }

    /// Takes a byte of a header, or what the piece has of the fragment's bytes, and answers how many those are.
    fn take_part(&mut self, piece: &[u8]) -> usize
        requires more { self.old.state ≡ Feed.More }
        requires some { 0 < length piece.now }
        ensures some { 0 < result }
        ensures within { result ≤ length piece.now }
        ensures after { fed self.old piece.now ≡ fed self.new (drop result piece.now) }
        ensures took { taken self.old piece.now ≡ result + taken self.new (drop result piece.now) }
    {
        if self.left == 0 {
            self.count(1);
            self.take_header_byte(piece[0]);
            1
        } else {
            let part = self.left.min(piece.len());
            self.count(part);
            self.take_body(&piece[..part]);
            part
        }
    }

    fn count(&mut self, bytes: usize)
        ensures { self.new ≡ counted self.old bytes }
    {
        self.rest = self.rest.saturating_add(bytes).min(MOST_REST);
    }

    /// Takes a byte of a header; the fourth begins the fragment.
    fn take_header_byte(&mut self, byte: u8)
        ensures { self.new ≡ header_byte self.old byte }
    {
        self.header[self.seen] = byte;
        if self.seen < 3 {
            self.seen += 1;
            return;
        }
        self.seen = 0;
        let header = self.header;
        self.open(&header);
    }

    /// Begins the fragment of a header, or refuses it where it takes the record above the limit.
    #[tactic(auto, unfolding(crate::specs::Fragments::fragment_length, crate::specs::Fragments::is_last))]
    fn open(&mut self, header: &[u8; 4])
        ensures { self.new ≡ opened self.old header.now }
    {
        self.seen = 0;
        let word = BigEndian::read_u32(header);
        let size = (word % LAST) as usize;
        if size > self.limit - self.kept.len() {
            self.state = Feed::TooLong;
            return;
        }
        self.last = word >= LAST;
        self.left = size;
        self.close();
    }

    /// Copies bytes of a fragment behind the record's.
    fn take_body(&mut self, bytes: &[u8])
        requires { length bytes.now ≤ self.old.left }
        ensures { self.new ≡ body_bytes self.old bytes.now }
    {
        self.kept.extend_from_slice(bytes).unwrap();
        self.left -= bytes.len();
        self.close();
    }

    /// Makes the record whole where its last fragment is at its end.
    fn close(&mut self)
        ensures { self.new ≡ closed self.old }
    {
        if self.left == 0 && self.last {
            self.state = Feed::Whole;
            self.rest = 0;
        }
    }
}
