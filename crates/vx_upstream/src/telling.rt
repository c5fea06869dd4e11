//! What became of the asks is told: transfer by transfer, a burst step by step.

ghost use Rattle.std.specs.Prelude.{◌≡◌, ◌<◌, ◌≤◌, ◌+◌, ◌↔◌, ◌⊎◌, ◌&&◌, ◌==◌, [], length, take, drop, slice_index};
ghost use Rattle.vx_calls.specs.declared.limits.TheConstants.{PIECE_MAX};
ghost use Rattle.vx_488.specs.declared.transfers.Transfer.TheVariants.{Put, Got};
ghost use Rattle.vx_488.specs.declared.asks.TheConstants.{ASK_MAX};
ghost use Rattle.vx_488.specs.Steps.{move_step};
ghost use Rattle.vx_488.specs.Walks.{Walk};
ghost use Rattle.vx_488.specs.Bursts.{puts_steps, gets_steps, StopsAt};
ghost use Rattle.vx_upstream.specs.UpstreamState.{IsHere, IsAway, lost, after, past};
ghost use Rattle.vx_upstream.specs.Sending.{words_of, Wrote, ReadMany};
ghost use Rattle.vx_upstream.specs.Stepping.{Through};

use crate::judging::is_end;
use crate::upstream::{Standing, UpstreamBus};
use vx_488::{Ask, Bus, Many, ManyGot, Move, Stop, Transfer};
use vx_io_traits::Reach;

/// The put of a byte of a burst, with END on the last one or not.
fn put_at(bytes: &[u8], end: bool, at: usize) -> Transfer
    requires { at < length bytes.now }
    ensures { result ≡ Put (slice_index bytes.now at) (end && (at + 1 == length bytes.now)) }
{
    Transfer::Put {
        b: bytes[at],
        end: end && at + 1 == bytes.len(),
    }
}

/// The get of a byte of a burst, with END on the last one or not.
fn got_at(bytes: &[u8], end: bool, at: usize) -> Transfer
    requires { at < length bytes.now }
    ensures { result ≡ Got (slice_index bytes.now at) (end && (at + 1 == length bytes.now)) }
{
    Transfer::Got {
        b: bytes[at],
        end: end && at + 1 == bytes.len(),
    }
}

/// Where a fault leaves a bus: one that is away stays so, with the moment of its next try.
fn lost(standing: Standing) -> Standing
    ensures { result ≡ lost standing }
{
    match standing {
        Standing::Here | Standing::Lost => Standing::Lost,
        Standing::Retry(from) => Standing::Retry(from),
    }
}

impl<L: Reach> UpstreamBus<L> {
    /// What came of an ask for this transfer.
    pub(crate) fn told(&mut self, t: Transfer, answer: Move) -> Move
        requires { self.old.kept.means.asks < ASK_MAX }
        ensures same { result ≡ answer }
        ensures after { self.new ≡ record self.old { kept = after self.old.kept (move_step t answer) } }
    {
        self.asks += 1;
        match answer {
            Move::Went => {
                self.wire.apply(&t);
                self.moves.push_reserved(t);
            }
            Move::Held => {
                self.holds = self.holds.saturating_add(1);
                self.refused = Some(Ask::from(t));
            }
            Move::Failed => {
                self.faults = self.faults.saturating_add(1);
                self.refused = Some(Ask::from(t));
                self.standing = lost(self.standing);
            }
        }
        answer
    }

    /// What came of a burst of puts.
    fn told_puts(&mut self, bytes: &[u8], end: bool, many: Many)
        requires room { self.old.kept.means.asks + length bytes.now ≤ ASK_MAX }
        requires within { many.moved ≤ length bytes.now }
        requires last { (many.last ≡ Move.Went) ↔ (many.moved ≡ length bytes.now) }
        ensures { self.new ≡ record self.old { kept = past self.old.kept (puts_steps bytes.now end many) } }
    {
        let mut moved = 0;
        while moved < many.moved {
            self.told(put_at(bytes, end, moved), Move::Went);
            moved += 1;
        }
        match many.last {
            Move::Went => {}
            Move::Held => {
                self.told(put_at(bytes, end, moved), Move::Held);
            }
            Move::Failed => {
                self.told(put_at(bytes, end, moved), Move::Failed);
            }
        }
    }

    /// A burst of puts by one device_write. So many went as the box tells that it took.
    fn put_call(&mut self, bytes: &[u8], end: bool) -> Many
        requires here { IsHere self.old }
        requires some { 0 < length bytes.now }
        requires short { length bytes.now ≤ PIECE_MAX }
        requires asks { self.old.kept.means.asks + length bytes.now ≤ ASK_MAX }
        ensures walk { Walk (λ s. s.kept.means) (λ old s new. Through (words_of L.Link L.refused L.tries) old s new) self.old (puts_steps bytes.now end result) self.new }
        ensures wrote { Wrote (words_of L.Link L.refused L.tries) bytes.now end result self.old self.new }
        ensures within { result.moved ≤ length bytes.now }
        ensures last { (result.last ≡ Move.Went) ↔ (result.moved ≡ length bytes.now) }
    {
        let many = self.write_some(bytes, end);
        self.told_puts(bytes, end, many);
        many
    }

    /// A burst of puts of a bus that is away: the first failed, and nothing was sent.
    fn refuse_puts(&mut self, bytes: &[u8], end: bool) -> Many
        requires away { IsAway self.old }
        requires free { self.old.due ≡ [] }
        requires some { 0 < length bytes.now }
        requires asks { self.old.kept.means.asks + length bytes.now ≤ ASK_MAX }
        ensures walk { Walk (λ s. s.kept.means) (λ old s new. Through (words_of L.Link L.refused L.tries) old s new) self.old (puts_steps bytes.now end result) self.new }
        ensures none { result ≡ record { moved = 0; last = Move.Failed } }
    {
        let many = Many {
            moved: 0,
            last: Move::Failed,
        };
        self.told_puts(bytes, end, many);
        many
    }

    /// A burst of puts by one device_write, or none where the bus is away.
    pub(crate) fn put_piece(&mut self, bytes: &[u8], end: bool) -> Many
        requires some { 0 < length bytes.now }
        requires short { length bytes.now ≤ PIECE_MAX }
        requires asks { self.old.kept.means.asks + length bytes.now ≤ ASK_MAX }
        ensures walk { Walk (λ s. s.kept.means) (λ old s new. Through (words_of L.Link L.refused L.tries) old s new) self.old (puts_steps bytes.now end result) self.new }
        ensures wrote { IsHere self.old → Wrote (words_of L.Link L.refused L.tries) bytes.now end result self.old self.new }
        ensures within { result.moved ≤ length bytes.now }
        ensures last { (result.last ≡ Move.Went) ↔ (result.moved ≡ length bytes.now) }
    {
        if self.is_here() {
            self.put_call(bytes, end)
        } else {
            self.refuse_puts(bytes, end)
        }
    }

    /// A burst of puts by a device_write for each, where the box doesn't take them all by one.
    pub(crate) fn put_each(&mut self, bytes: &[u8], end: bool) -> Many
        requires some { 0 < length bytes.now }
        requires asks { self.old.kept.means.asks + length bytes.now ≤ ASK_MAX }
        ensures walk { Walk (λ s. s.kept.means) (λ old s new. Through (words_of L.Link L.refused L.tries) old s new) self.old (puts_steps bytes.now end result) self.new }
        ensures within { result.moved ≤ length bytes.now }
        ensures last { (result.last ≡ Move.Went) ↔ (result.moved ≡ length bytes.now) }
    {
        let mut moved = 0;
        while moved < bytes.len() {
            match self.put(bytes[moved], end && moved + 1 == bytes.len()) {
                Move::Went => moved += 1,
                Move::Held => return Many {
                    moved,
                    last: Move::Held,
                },
                Move::Failed => return Many {
                    moved,
                    last: Move::Failed,
                },
            }
        }
        Many {
            moved,
            last: Move::Went,
        }
    }

    /// What came of a burst of gets.
    fn told_gets(&mut self, bytes: &[u8], stop: Stop)
        requires room { self.old.kept.means.asks + length bytes.now ≤ ASK_MAX }
        requires more { (stop ≡ Stop.Held ⊎ stop ≡ Stop.Failed) → self.old.kept.means.asks + length bytes.now < ASK_MAX }
        ensures { self.new ≡ record self.old { kept = past self.old.kept (gets_steps bytes.now stop) } }
    {
        let end = is_end(stop);
        let mut got = 0;
        while got < bytes.len() {
            self.told(got_at(bytes, end, got), Move::Went);
            got += 1;
        }
        match stop {
            Stop::Full => {}
            Stop::End => {}
            Stop::Char => {}
            Stop::Held => {
                self.told(Transfer::Got { b: 0, end: false }, Move::Held);
            }
            Stop::Failed => {
                self.told(Transfer::Got { b: 0, end: false }, Move::Failed);
            }
        }
    }

    /// A burst of gets by one device_read. All bytes that the box brings count, with an error too.
    fn get_call(&mut self, room: &mut [u8], stop: Option<u8>) -> ManyGot
        requires here { IsHere self.old }
        requires some { 0 < length room.old }
        requires asks { self.old.kept.means.asks + length room.old ≤ ASK_MAX }
        ensures walk { Walk (λ s. s.kept.means) (λ old s new. Through (words_of L.Link L.refused L.tries) old s new) self.old (gets_steps (take result.got room.new) result.stop) self.new }
        ensures read { ReadMany (words_of L.Link L.refused L.tries) (length room.old) stop (take result.got room.new) result self.old self.new }
        ensures stops { StopsAt stop (length room.old) (take result.got room.new) result.stop }
        ensures within { result.got ≤ length room.old }
        ensures rest { drop result.got room.new ≡ drop result.got room.old }
    {
        let many = self.read_some(room, stop);
        self.told_gets(&room[..many.got], many.stop);
        many
    }

    /// A burst of gets of a bus that is away: the first failed, and nothing was sent.
    fn refuse_gets(&mut self) -> ManyGot
        requires away { IsAway self.old }
        requires free { self.old.due ≡ [] }
        requires asks { self.old.kept.means.asks < ASK_MAX }
        ensures walk { Walk (λ s. s.kept.means) (λ old s new. Through (words_of L.Link L.refused L.tries) old s new) self.old (gets_steps [] result.stop) self.new }
        ensures none { result ≡ record { got = 0; stop = Stop.Failed } }
    {
        self.told_gets(&[], Stop::Failed);
        ManyGot {
            got: 0,
            stop: Stop::Failed,
        }
    }

    /// A burst of gets by one device_read, or none where the bus is away.
    pub(crate) fn get_piece(&mut self, room: &mut [u8], stop: Option<u8>) -> ManyGot
        requires some { 0 < length room.old }
        requires asks { self.old.kept.means.asks + length room.old ≤ ASK_MAX }
        ensures walk { Walk (λ s. s.kept.means) (λ old s new. Through (words_of L.Link L.refused L.tries) old s new) self.old (gets_steps (take result.got room.new) result.stop) self.new }
        ensures read { IsHere self.old → ReadMany (words_of L.Link L.refused L.tries) (length room.old) stop (take result.got room.new) result self.old self.new }
        ensures stops { StopsAt stop (length room.old) (take result.got room.new) result.stop }
        ensures within { result.got ≤ length room.old }
        ensures rest { drop result.got room.new ≡ drop result.got room.old }
    {
        if self.is_here() {
            self.get_call(room, stop)
        } else {
            self.refuse_gets()
        }
    }
}
