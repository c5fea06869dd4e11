//! The bus as the gateway asks it.

ghost use Rattle.std.specs.Prelude.{◌≡◌, ◌≢◌, ◌<◌, ◌≤◌, ◌+◌, ◌↔◌, ◌∷◌, [], length, take, drop, min};
ghost use Rattle.vx_calls.specs.declared.limits.TheConstants.{PIECE_MAX};
ghost use Rattle.vx_488.specs.declared.transfers.TheConstants.{ADDRESS_MAX};
ghost use Rattle.vx_488.specs.declared.transfers.Transfer.TheVariants.{Cmd, Put, Ifc, Own};
ghost use Rattle.vx_488.specs.declared.asks.TheConstants.{ASK_MAX};
ghost use Rattle.vx_488.specs.Steps.{Told, Cut, move_step, get_step, line_transfer, IsStepped};
ghost use Rattle.vx_488.specs.Walks.{Walk};
ghost use Rattle.vx_488.specs.Bursts.{puts_steps, gets_steps, StopsAt};
ghost use Rattle.vx_upstream.specs.Sending.{words_of, bit, Orders, Wrote, ReadMany, LooksAtSrq, LooksAtNdac};
ghost use Rattle.vx_upstream.specs.UpstreamState.{IsHere, level_seen};
ghost use Rattle.vx_upstream.specs.Stepping.{LooksHere, Through};

use crate::calls::{ATN_CONTROL, BUS_ADDRESS, REN_CONTROL, SEND_COMMAND};
use crate::judging::got_one;
use crate::upstream::UpstreamBus;
use vx_488::{Bus, GetOut, Line, Many, ManyGot, Move, Transfer, Wire};
use vx_io_traits::Reach;

/// The selectors of SRQ and NDAC (VXI-11.2, bus status).
const SRQ: u8 = 2;

const NDAC: u8 = 3;

/// How many milliseconds pass at least between two looks at SRQ, and at NDAC.
const SRQ_EVERY: u64 = 10;

const NDAC_EVERY: u64 = 100;

impl<L: Reach> UpstreamBus<L> {
    /// Has the box switch a line by a number of two bytes.
    fn switch(&mut self, cmd: u32, on: bool) -> Move
        ensures rest { self.new ≡ record self.old { client = self.new.client } }
        ensures due { self.old.due ≡ [] }
        ensures ordered { Orders (words_of L.Link L.refused L.tries) cmd (0 ∷ bit on ∷ []) result self.old self.new }
        ensures never_held { result ≢ Move.Held }
    {
        self.order(cmd, &[0, u8::from(on)])
    }

    /// Looks at SRQ, where the last look is long enough ago.
    fn look_at_srq(&mut self, now: u64)
        ensures rest { self.new ≡ record self.old { client = self.new.client; kept = self.new.kept; levels = self.new.levels } }
        ensures means { self.new.kept.means ≡ self.old.kept.means }
        ensures looked { LooksAtSrq (words_of L.Link L.refused L.tries) now self.old self.new }
    {
        if now.saturating_sub(self.levels.srq_asked) < SRQ_EVERY {
            return;
        }
        let level = self.level(SRQ, self.levels.srq);
        self.levels.srq = level;
        self.levels.srq_asked = now;
    }

    /// Looks at NDAC, where the last look is long enough ago.
    fn look_at_ndac(&mut self, now: u64)
        ensures rest { self.new ≡ record self.old { client = self.new.client; kept = self.new.kept; levels = self.new.levels } }
        ensures means { self.new.kept.means ≡ self.old.kept.means }
        ensures looked { LooksAtNdac (words_of L.Link L.refused L.tries) now self.old self.new }
    {
        if now.saturating_sub(self.levels.ndac_asked) < NDAC_EVERY {
            return;
        }
        let level = self.level(NDAC, self.levels.ndac);
        self.levels.ndac = level;
        self.levels.ndac_asked = now;
    }

    /// Keeps the moment that it is told.
    fn hear(&mut self, now: u64)
        ensures { self.new ≡ record self.old { moment = now } }
    {
        self.moment = now;
    }

    /// Looks at both, unless the bus is away.
    fn look(&mut self, now: u64)
        ensures rest { self.new ≡ record self.old { client = self.new.client; kept = self.new.kept; levels = self.new.levels } }
        ensures means { self.new.kept.means ≡ self.old.kept.means }
        ensures looked { LooksHere (words_of L.Link L.refused L.tries) now self.old self.new }
    {
        if !self.is_here() {
            return;
        }
        self.look_at_srq(now);
        self.look_at_ndac(now);
    }
}

impl<L: Reach> Bus for UpstreamBus<L> {
    ghost use Rattle.std.specs.Prelude.{◌≡◌, ◌≢◌, ◌<◌, ◌≤◌, ◌+◌, ◌↔◌, length, take, drop};
    ghost use Rattle.vx_488.specs.declared.transfers.Transfer.TheVariants.{Cmd, Put, Ifc, Own};
    ghost use Rattle.vx_488.specs.Steps.{Told, Cut, move_step, get_step, line_transfer, IsStepped};
    ghost use Rattle.vx_488.specs.Walks.{Walk};
    ghost use Rattle.vx_488.specs.Bursts.{puts_steps, gets_steps, StopsAt};
    ghost use Rattle.vx_upstream.specs.UpstreamState.{level_seen};
    ghost use Rattle.vx_upstream.specs.Sending.{words_of};
    ghost use Rattle.vx_upstream.specs.Stepping.{Through};

    ghost means = { λ s. s.kept.means };

    ghost srq_level = { λ s. level_seen s.levels.srq s.kept.standing };

    ghost ndac_level = { λ s. level_seen s.levels.ndac s.kept.standing };

    ghost through = { λ old s new. Through (words_of L.Link L.refused L.tries) old s new };

    /// Has the box send a command byte. It is never held.
    fn command(&mut self, b: u8) -> Move
        requires { self.old.kept.means.asks < ASK_MAX }
        ensures stepped { IsStepped self.old.kept.means (move_step (Cmd b) result) self.new.kept.means }
        ensures through { Through (words_of L.Link L.refused L.tries) self.old (move_step (Cmd b) result) self.new }
        ensures never_held { result ≢ Move.Held }
    {
        let answer = self.order(SEND_COMMAND, &[b]);
        self.told(Transfer::Cmd(b), answer)
    }

    /// Has the box send a data byte: a burst of one.
    fn put(&mut self, b: u8, end: bool) -> Move
        requires { self.old.kept.means.asks < ASK_MAX }
        ensures stepped { IsStepped self.old.kept.means (move_step (Put b end) result) self.new.kept.means }
        ensures through { Through (words_of L.Link L.refused L.tries) self.old (move_step (Put b end) result) self.new }
    {
        self.put_piece(&[b], end).last
    }

    /// Has the box send data bytes by one call, where it takes so many by one, and else by one for each. END goes with the last.
    fn put_many(&mut self, bytes: &[u8], end: bool) -> Many
        requires some { 0 < length bytes.now }
        requires asks { self.old.kept.means.asks + length bytes.now ≤ ASK_MAX }
        ensures walk { Walk (λ s. s.kept.means) (λ old s new. Through (words_of L.Link L.refused L.tries) old s new) self.old (puts_steps bytes.now end result) self.new }
        ensures one_call { IsHere self.old → length bytes.now ≤ min self.old.made.max PIECE_MAX → Wrote (words_of L.Link L.refused L.tries) bytes.now end result self.old self.new }
        ensures within { result.moved ≤ length bytes.now }
        ensures last { (result.last ≡ Move.Went) ↔ (result.moved ≡ length bytes.now) }
    {
        if bytes.len() <= self.most() {
            self.put_piece(bytes, end)
        } else {
            self.put_each(bytes, end)
        }
    }

    /// Has the box take a byte from the talker: a burst of one.
    fn get(&mut self) -> GetOut
        requires { self.old.kept.means.asks < ASK_MAX }
        ensures stepped { IsStepped self.old.kept.means (get_step result) self.new.kept.means }
        ensures through { Through (words_of L.Link L.refused L.tries) self.old (get_step result) self.new }
    {
        let mut one = [0u8; 1];
        let many = self.get_piece(&mut one, None);
        got_one(many, one[0])
    }

    /// Has the box take bytes from the talker by one call.
    fn get_many(&mut self, room: &mut [u8], stop: Option<u8>) -> ManyGot
        requires some { 0 < length room.old }
        requires asks { self.old.kept.means.asks + length room.old ≤ ASK_MAX }
        ensures walk { Walk (λ s. s.kept.means) (λ old s new. Through (words_of L.Link L.refused L.tries) old s new) self.old (gets_steps (take result.got room.new) result.stop) self.new }
        ensures one_call { IsHere self.old → ReadMany (words_of L.Link L.refused L.tries) (length room.old) stop (take result.got room.new) result self.old self.new }
        ensures stops { StopsAt stop (length room.old) (take result.got room.new) result.stop }
        ensures within { result.got ≤ length room.old }
        ensures rest { drop result.got room.new ≡ drop result.got room.old }
    {
        self.get_piece(room, stop)
    }

    /// Has the box switch a line. It is never held.
    fn line(&mut self, l: Line, on: bool) -> Move
        requires { self.old.kept.means.asks < ASK_MAX }
        ensures stepped { IsStepped self.old.kept.means (move_step (line_transfer l on) result) self.new.kept.means }
        ensures through { Through (words_of L.Link L.refused L.tries) self.old (move_step (line_transfer l on) result) self.new }
        ensures never_held { result ≢ Move.Held }
    {
        match l {
            Line::Ren => {
                let answer = self.switch(REN_CONTROL, on);
                self.told(Transfer::Ren(on), answer)
            }
            Line::Atn => {
                let answer = self.switch(ATN_CONTROL, on);
                self.told(Transfer::Atn(on), answer)
            }
        }
    }

    /// Has the box clear its interface. It is never held. Where control was passed on and the bus is away, that is a try to bring
    /// it back, once the moment of one has come.
    fn ifc(&mut self) -> Move
        requires { self.old.kept.means.asks < ASK_MAX }
        ensures stepped { IsStepped self.old.kept.means (move_step Ifc result) self.new.kept.means }
        ensures through { Through (words_of L.Link L.refused L.tries) self.old (move_step Ifc result) self.new }
        ensures never_held { result ≢ Move.Held }
    {
        let answer = self.clear();
        self.told(Transfer::Ifc, answer)
    }

    /// Has the box go to this address. It is never held.
    fn own(&mut self, address: u8) -> Move
        requires room { self.old.kept.means.asks < ASK_MAX }
        requires address { address ≤ ADDRESS_MAX }
        ensures stepped { IsStepped self.old.kept.means (move_step (Own address) result) self.new.kept.means }
        ensures through { Through (words_of L.Link L.refused L.tries) self.old (move_step (Own address) result) self.new }
        ensures never_held { result ≢ Move.Held }
    {
        let answer = self.order(BUS_ADDRESS, &[0, 0, 0, address]);
        self.told(Transfer::Own(address), answer)
    }

    /// The level of SRQ as the box told it last; false while the bus is away.
    fn srq(&self) -> bool
        ensures { result ≡ level_seen self.now.levels.srq self.now.kept.standing }
    {
        self.levels.srq && self.is_here()
    }

    /// The level of NDAC as the box told it last; false while the bus is away.
    fn ndac(&self) -> bool
        ensures { result ≡ level_seen self.now.levels.ndac self.now.kept.standing }
    {
        self.levels.ndac && self.is_here()
    }

    /// Brings the bus back, where it is away and its time has come. Then looks at the lines of the box whose last look is long
    /// enough ago; while it is away at none. Nothing else is asked of the box.
    fn moment(&mut self, now: u64)
        ensures stepped { self.new.kept.means ≡ self.old.kept.means }
        ensures through { Through (words_of L.Link L.refused L.tries) self.old (Told now) self.new }
    {
        self.hear(now);
        self.come_back();
        self.look(now);
    }

    /// Empties the list of transfers, and begins to count asks anew. The box is asked nothing.
    fn cut(&mut self)
        ensures stepped { IsStepped self.old.kept.means Cut self.new.kept.means }
        ensures through { Through (words_of L.Link L.refused L.tries) self.old Cut self.new }
    {
        self.moves.clear();
        self.asks = 0;
    }

    /// The transfers since the last cut, in order.
    fn moves(&self) -> &[Transfer]
        ensures { result.now ≡ self.now.kept.means.moves }
    {
        self.moves.as_slice()
    }

    /// What the transfers so far mean for the bus.
    fn wire(&self) -> Wire
        ensures { result ≡ self.now.kept.means.wire }
    {
        self.wire
    }
}
