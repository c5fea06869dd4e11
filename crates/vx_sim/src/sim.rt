//! The simulated bus.

ghost use Rattle.std.specs.Prelude.{◌≡◌, ◌<◌, ◌≤◌, ◌+◌, ◌∷◌, ◌++◌, ◌↔◌, [], length, take, drop, filter, position, None, Some, true, false, IfOk, MatchResult, is_ok, vec_len, vec_capacity};
ghost use Rattle.std.specs.List.{list_any, list_all};
ghost use Rattle.vx_488.specs.declared.transfers.TheConstants.{ADDRESS_MAX};
ghost use Rattle.vx_488.specs.declared.transfers.Transfer.TheVariants.{Cmd, Put, Got, Ren, Ifc, Own};
ghost use Rattle.vx_488.specs.declared.wire.Wire.{Wire};
ghost use Rattle.vx_488.specs.Address.{is_bus_address};
ghost use Rattle.vx_488.specs.Steps.{Went, Held, Failed, Told, Cut, move_step, get_step, line_transfer, IsStepped};
ghost use Rattle.vx_sim.specs.Occupants.{Table, Boxed, handed_in};
ghost use Rattle.vx_sim.specs.declared.TheConstants.{PLACES_MAX};
ghost use Rattle.vx_sim.specs.Bench.{stands_at, listens, talks, some_asks, some_refuses};
ghost use Rattle.vx_sim.specs.Finding.{indices};
ghost use Rattle.vx_488.specs.Walks.{Walk};
ghost use Rattle.vx_488.specs.Bursts.{ended, puts_steps, gets_steps, StopsAt, PutsSoFar};
ghost use Rattle.vx_sim.specs.SimState.{first_state, is_next, nearer, means_after, means_past, after_bytes, Through};
ghost use Rattle.vx_sim.specs.Attaching.{AreApart, AreKnown, refusal, taken_or_full, IsAttached, without_place, IsSet};
ghost use Rattle.vx_sim.specs.Shown.{occupant_of, reaches_nobody, is_byte, moved};

use crate::attach::{Absent, Attach, Refused};
use crate::bench::Bench;
use crate::places::Stand;
use crate::seat::Seat;
use crate::signals::{Question, Signal, Way, Whom};
use crate::{NoMemory, PLACES_MAX};
use std::alloc::Global;
use std::marker::Model;
use vx_488::{
    ASK_MAX, Addr, Ask, Bus, GetOut, Line, Many, ManyGot, Move, Stop, Transfer, Wire, command_of,
};
use vx_inst::Instrument;
use vx_table::TableInst;

/// A bus with up to [`PLACES_MAX`] instruments on it, each at an address of its own: table instruments, of which all is
/// known by their rules, and others, of the one type `I`, each with the calls that it had here: it is seen as it behaves after
/// just those. An instrument at an address that later becomes the gateway's own is addressed along with the gateway.
///
/// `I` may be a box of any instrument, or an enum of several.
#[derive(Drop)]
pub struct SimBus<I: Instrument> {
    bench: Bench<I>,
    // counted from 1, the next one
    failing: Option<u32>,
    // milliseconds
    told: u64,
    wire: Wire,
    moves: Vec<Transfer>,
    asks: u32,
    holds: u64,
    faults: u64,
    refused: Option<Ask>,
}

impl<I: Instrument> Model for SimBus<I> {
    ghost use Rattle.std.specs.Prelude.{◌≤◌, vec_len, vec_capacity};
    ghost use Rattle.vx_488.specs.declared.asks.TheConstants.{ASK_MAX};
    ghost use Rattle.vx_sim.specs.SimState.{SimState};

    ghost Value = { SimState };

    ghost view = { λ s. record {
      means = record {
        wire = s.wire;
        moves = s.moves.items;
        asks = s.asks;
        holds = s.holds;
        faults = s.faults;
        refused = s.refused;
      };
      bench = s.bench;
      failing = s.failing;
      told = s.told;
    } };

    ghost invariant = { λ s. (vec_len s.moves ≤ s.asks) × (ASK_MAX ≤ vec_capacity s.moves) };
}

impl<I: Instrument> SimBus<I> {
    /// A bus with nothing on it, at moment 0. Its room is made here.
    pub fn new(alloc: Global) -> Result<SimBus<I>, NoMemory>
        ensures { IfOk result (λ bus. bus ≡ first_state) }
    {
        let bench = Bench::new(alloc)?;
        let Ok(moves) = Vec::with_capacity(alloc, ASK_MAX as usize) else {
            return Err(NoMemory);
        };
        Ok(SimBus {
            bench,
            failing: None,
            told: 0,
            wire: Wire::first(),
            moves,
            asks: 0,
            holds: 0,
            faults: 0,
            refused: None,
        })
    }

    /// Attaches a table instrument at this address, both parts of which are at most 30, and tells it the last moment.
    /// It is handed back, and nothing changes, where it can't stand there.
    pub fn attach_table(&mut self, a: Addr, inst: TableInst) -> Result<(), Refused<TableInst>>
        requires { is_bus_address a ≡ true }
        ensures answer { MatchResult result (λ _. refusal self.old a ≡ None) (λ r. refusal self.old a ≡ Some r.why) }
        ensures attached { MatchResult result (λ _. IsAttached a (Table inst) self.old self.new) (λ r. (r.inst ≡ inst) × (self.new ≡ self.old)) }
    {
        match self.refusal(a) {
            Some(why) => Err(Refused { why, inst }),
            None => {
                self.place(a, Stand::Table(inst));
                Ok(())
            }
        }
    }

    /// Attaches any other instrument at this address, both parts of which are at most 30, and tells it the last moment.
    /// It is handed back, and nothing changes, where it can't stand there.
    pub fn attach_box(&mut self, a: Addr, inst: I) -> Result<(), Refused<I>>
        requires { is_bus_address a ≡ true }
        ensures answer { MatchResult result (λ _. refusal self.old a ≡ None) (λ r. refusal self.old a ≡ Some r.why) }
        ensures attached { MatchResult result (λ _. IsAttached a (Boxed (handed_in (λ i. I.behaves i) (λ i. I.nature i) inst)) self.old self.new) (λ r. (r.inst ≡ inst) × (self.new ≡ self.old)) }
    {
        match self.refusal(a) {
            Some(why) => Err(Refused { why, inst }),
            None => {
                self.place(a, Stand::Boxed(Seat::new(inst)));
                Ok(())
            }
        }
    }

    /// Does nothing. Its contract says what holds of the instruments at every moment: no two are in each other's way, both
    /// parts of each address are at most 30, there are at most [`PLACES_MAX`], and at most one is the talker. One that is no
    /// table is seen as an instrument that was handed in behaves after just the calls that it had.
    pub fn in_order(&self)
        ensures apart { AreApart self.now.bench }
        ensures addresses { list_all (λ p. is_bus_address p.at) self.now.bench ≡ true }
        ensures few { length self.now.bench ≤ PLACES_MAX }
        ensures known { AreKnown (λ i. I.behaves i) (λ i. I.nature i) self.now.bench }
        ensures one_talker { (w : Wire) → length (filter (talks w) self.now.bench) ≤ 1 }
    {
        self.bench.in_order();
    }

    /// Takes the instrument at this address off the bus, and drops it. Both parts of the address are at most 30.
    pub fn pull(&mut self, a: Addr) -> Result<(), Absent>
        requires { is_bus_address a ≡ true }
        ensures answer { is_ok result ≡ list_any (stands_at a) self.old.bench }
        ensures pulled { MatchResult result (λ _. self.new ≡ without_place a self.old) (λ _. self.new ≡ self.old) }
    {
        if !self.bench.any(&self.wire, Question::Stands(a)) {
            return Err(Absent);
        }
        self.bench.remove(a);
        Ok(())
    }

    /// Sets the status byte of the instrument at this address. Bit 6 says whether it asks for service.
    pub fn set_status(&mut self, a: Addr, b: u8) -> Result<(), Absent>
        ensures answer { is_ok result ≡ list_any (stands_at a) self.old.bench }
        ensures set { MatchResult result (λ _. IsSet a b self.old self.new) (λ _. self.new ≡ self.old) }
    {
        if !self.bench.any(&self.wire, Question::Stands(a)) {
            return Err(Absent);
        }
        self.bench.tell(&self.wire, Whom::At(a), Signal::Status(b));
        Ok(())
    }

    /// Makes the n-th moving call from now fail: of the commands, puts, gets, lines, interface clears and changes of the
    /// own address, counted together. An earlier order is forgotten.
    pub fn fail_after(&mut self, n: u32)
        requires { 1 ≤ n }
        ensures { self.new ≡ record self.old { failing = Some n } }
    {
        self.failing = Some(n);
    }

    /// Why no instrument can be attached at this address, where none can.
    fn refusal(&self, a: Addr) -> Option<Attach>
        ensures { result ≡ refusal self.now a }
    {
        if a.p == self.wire.own {
            return Some(Attach::OwnAddress);
        }
        match self.bench.holder(a) {
            Some(holder) => Some(Attach::Taken { holder }),
            None => self.full(),
        }
    }

    /// That there are as many instruments as a bus takes, where there are.
    fn full(&self) -> Option<Attach>
        ensures { result ≡ taken_or_full None (length self.now.bench) }
    {
        if self.bench.len() >= PLACES_MAX {
            Some(Attach::Full)
        } else {
            None
        }
    }

    /// Puts an instrument at the end of the bench, and tells it the last moment.
    fn place(&mut self, at: Addr, mut stand: Stand<I>)
        requires address { is_bus_address at ≡ true }
        requires free { refusal self.old at ≡ None }
        ensures { IsAttached at (occupant_of stand) self.old self.new }
    {
        stand.receive(Signal::Moment(self.told));
        self.bench.add(at, stand);
    }

    /// Whether the next moving call is the one that is told to fail.
    fn fails_next(&self) -> bool
        ensures { result ≡ is_next self.now.failing }
    {
        self.failing == Some(1)
    }

    /// Sends a data byte to these, which are the listeners, unless this is the call that is told to fail. It is held where
    /// there are none, or one can't take it.
    fn put_to(&mut self, hearers: &[u8], b: u8, end: bool) -> Move
        requires room { self.old.means.asks < ASK_MAX }
        requires hearers { hearers.now ≡ indices (listens self.old.means.wire) 0 self.old.bench }
        ensures through { Through self.old (move_step (Put b end) result) self.new }
        ensures hearers { hearers.now ≡ indices (listens self.new.means.wire) 0 self.new.bench }
    {
        if self.fails_next() {
            return self.failed(Ask::Put { b, end });
        }
        if self.bench.holds_put(&self.wire, hearers) {
            return self.held(Ask::Put { b, end });
        }
        self.bench.put(&self.wire, hearers, b, end);
        self.carried(Transfer::Put { b, end })
    }

    /// Sends data bytes to these, which are the listeners, until one doesn't go.
    fn put_all_to(&mut self, hearers: &[u8], bytes: &[u8], end: bool) -> Many
        requires room { self.old.means.asks + length bytes.now ≤ ASK_MAX }
        requires hearers { hearers.now ≡ indices (listens self.old.means.wire) 0 self.old.bench }
        ensures walk { Walk (λ s. s.means) Through self.old (puts_steps bytes.now end result) self.new }
        ensures within { result.moved ≤ length bytes.now }
        ensures last { (result.last ≡ Move.Went) ↔ (result.moved ≡ length bytes.now) }
    {
        let mut moved = self.put_front(hearers, bytes, end);
        while moved < bytes.len() {
            match self.put_to(hearers, bytes[moved], end && moved + 1 == bytes.len()) {
                Move::Went => moved += 1,
                Move::Held => return Many {
                    moved,
                    last: Move::Held,
                },
                Move::Failed => return Many {
                    moved,
                    last: Move::Failed,
                },
            }
        }
        Many {
            moved,
            last: Move::Went,
        }
    }

    /// Sends the first of these data bytes where no call is told to fail and there is one listener, until it can't take one:
    /// nothing is looked up anew for each. Answers how many went.
    fn put_front(&mut self, hearers: &[u8], bytes: &[u8], end: bool) -> usize
        requires room { self.old.means.asks + length bytes.now ≤ ASK_MAX }
        requires hearers { hearers.now ≡ indices (listens self.old.means.wire) 0 self.old.bench }
        ensures puts { PutsSoFar (λ s. s.means) Through bytes.now end result self.old self.new }
        ensures hearers { hearers.now ≡ indices (listens self.new.means.wire) 0 self.new.bench }
    {
        if hearers.len() == 1 && self.failing.is_none() {
            self.put_run(hearers[0], bytes, end)
        } else {
            0
        }
    }

    /// Sends data bytes to the only listener, until it can't take one. Answers how many went.
    fn put_run(&mut self, hearer: u8, bytes: &[u8], end: bool) -> usize
        requires room { self.old.means.asks + length bytes.now ≤ ASK_MAX }
        requires hearer { indices (listens self.old.means.wire) 0 self.old.bench ≡ hearer ∷ [] }
        requires ordered { self.old.failing ≡ None }
        ensures puts { PutsSoFar (λ s. s.means) Through bytes.now end result self.old self.new }
        ensures hearer { indices (listens self.new.means.wire) 0 self.new.bench ≡ hearer ∷ [] }
    {
        let taken = self.bench.put_run(usize::from(hearer), bytes, end);
        self.carried_all(Way::Put, bytes, end, taken);
        taken
    }

    /// So many of these data bytes were transferred, with END on the last of all or not.
    fn carried_all(&mut self, way: Way, bytes: &[u8], end: bool, taken: usize)
        requires room { self.old.means.asks + taken ≤ ASK_MAX }
        requires within { taken ≤ length bytes.now }
        ensures { self.new ≡ after_bytes (take taken (ended (moved way) end bytes.now)) self.old }
    {
        note(&mut self.moves, way, bytes, end, taken);
        self.asks += taken as u32;
    }

    /// Takes a byte from this one, which is the talker, unless this is the call that is told to fail: in serial poll mode its
    /// status byte, without END. It is held where there is none, or it has no byte to give.
    fn get_from(&mut self, speaker: Option<usize>) -> GetOut
        requires room { self.old.means.asks < ASK_MAX }
        requires speaker { speaker ≡ position (talks self.old.means.wire) self.old.bench }
        ensures through { Through self.old (get_step result) self.new }
        ensures speaker { speaker ≡ position (talks self.new.means.wire) self.new.bench }
    {
        if self.fails_next() {
            self.failed(Ask::Get);
            return GetOut::Failed;
        }
        if self.bench.holds_get(&self.wire, speaker) {
            self.held(Ask::Get);
            return GetOut::Held;
        }
        let (b, end) = self.bench.give(&self.wire, speaker);
        self.carried(Transfer::Got { b, end });
        GetOut::Byte { b, end }
    }

    /// Takes bytes from this one, which is the talker, one by one, until one ends the burst or doesn't go.
    fn get_each(&mut self, speaker: Option<usize>, room: &mut [u8], stop: Option<u8>) -> ManyGot
        requires asks { self.old.means.asks + length room.old ≤ ASK_MAX }
        requires speaker { speaker ≡ position (talks self.old.means.wire) self.old.bench }
        ensures walk { Walk (λ s. s.means) Through self.old (gets_steps (take result.got room.new) result.stop) self.new }
        ensures stops { StopsAt stop (length room.old) (take result.got room.new) result.stop }
        ensures within { result.got ≤ length room.old }
        ensures rest { drop result.got room.new ≡ drop result.got room.old }
    {
        let mut got = 0;
        while got < room.len() {
            match self.get_from(speaker) {
                GetOut::Held => {
                    return ManyGot {
                        got,
                        stop: Stop::Held,
                    };
                }
                GetOut::Failed => {
                    return ManyGot {
                        got,
                        stop: Stop::Failed,
                    };
                }
                GetOut::Byte { b, end } => {
                    room[got] = b;
                    got += 1;
                    if end {
                        return ManyGot {
                            got,
                            stop: Stop::End,
                        };
                    }
                    if stop == Some(b) {
                        return ManyGot {
                            got,
                            stop: Stop::Char,
                        };
                    }
                }
            }
        }
        ManyGot {
            got,
            stop: Stop::Full,
        }
    }

    /// Takes bytes from this one, which is the talker, as a run, where no call is told to fail and no status byte is asked for.
    fn get_run(&mut self, speaker: usize, room: &mut [u8], stop: Option<u8>) -> ManyGot
        requires asks { self.old.means.asks + length room.old ≤ ASK_MAX }
        requires speaker { position (talks self.old.means.wire) self.old.bench ≡ Some speaker }
        requires plain { self.old.means.wire.polling ≡ false }
        requires ordered { self.old.failing ≡ None }
        ensures walk { Walk (λ s. s.means) Through self.old (gets_steps (take result.got room.new) result.stop) self.new }
        ensures stops { StopsAt stop (length room.old) (take result.got room.new) result.stop }
        ensures within { result.got ≤ length room.old }
        ensures rest { drop result.got room.new ≡ drop result.got room.old }
    {
        let many = self.bench.give_run(speaker, room, stop);
        self.carried_gets(&room[..many.got], many.stop);
        many
    }

    /// These data bytes came, and then a burst stopped so.
    fn carried_gets(&mut self, bytes: &[u8], stop: Stop)
        requires room { self.old.means.asks + length bytes.now ≤ ASK_MAX }
        requires held { stop ≡ Stop.Held → self.old.means.asks + length bytes.now < ASK_MAX }
        requires ordered { self.old.failing ≡ None }
        requires went { stop ≡ Stop.Failed → ⊥ }
        ensures { self.new ≡ record self.old { means = means_past self.old.means (gets_steps bytes.now stop) } }
    {
        match stop {
            Stop::End => self.carried_all(Way::Got, bytes, true, bytes.len()),
            Stop::Held => {
                self.carried_all(Way::Got, bytes, false, bytes.len());
                self.held(Ask::Get);
            }
            Stop::Full | Stop::Char | Stop::Failed => {
                self.carried_all(Way::Got, bytes, false, bytes.len());
            }
        }
    }

    /// Switches remote enable, unless this is the call that is told to fail.
    fn remote(&mut self, on: bool) -> Move
        requires { self.old.means.asks < ASK_MAX }
        ensures { Through self.old (move_step (Ren on) result) self.new }
    {
        if self.fails_next() {
            return self.failed(Ask::Ren(on));
        }
        self.bench.remote(&self.wire, on);
        self.made(Transfer::Ren(on))
    }

    /// Makes a transfer that reaches no instrument, unless this is the call that is told to fail.
    fn send(&mut self, t: Transfer) -> Move
        requires room { self.old.means.asks < ASK_MAX }
        requires reaches { reaches_nobody t ≡ true }
        ensures { Through self.old (move_step t result) self.new }
    {
        if self.fails_next() {
            return self.failed(Ask::from(t));
        }
        self.made(t)
    }

    /// The transfer was made.
    fn made(&mut self, t: Transfer) -> Move
        requires { self.old.means.asks < ASK_MAX }
        ensures answer { result ≡ Move.Went }
        ensures after { self.new ≡ record self.old { means = means_after self.old.means (Went t); failing = nearer self.old.failing } }
    {
        self.wire.apply(&t);
        self.counted(t)
    }

    /// A data byte was transferred, which changes nothing of the wire.
    fn carried(&mut self, t: Transfer) -> Move
        requires room { self.old.means.asks < ASK_MAX }
        requires byte { is_byte t ≡ true }
        ensures answer { result ≡ Move.Went }
        ensures after { self.new ≡ record self.old { means = means_after self.old.means (Went t); failing = nearer self.old.failing } }
    {
        self.counted(t)
    }

    /// A transfer is the next, and is counted. What it means for the wire is told elsewhere.
    fn counted(&mut self, t: Transfer) -> Move
        requires { self.old.means.asks < ASK_MAX }
        ensures answer { result ≡ Move.Went }
        ensures after { self.new ≡ record self.old { means = record self.old.means { moves = self.old.means.moves ++ t ∷ []; asks = self.old.means.asks + 1 }; failing = nearer self.old.failing } }
    {
        self.asks += 1;
        self.failing = nearer(self.failing);
        self.moves.push_reserved(t);
        Move::Went
    }

    /// The ask didn't go, and is kept as the last that didn't.
    fn refused(&mut self, asked: Ask)
        requires { self.old.means.asks < ASK_MAX }
        ensures { self.new ≡ record self.old { means = record self.old.means { asks = self.old.means.asks + 1; refused = Some asked }; failing = nearer self.old.failing } }
    {
        self.asks += 1;
        self.failing = nearer(self.failing);
        self.refused = Some(asked);
    }

    /// The ask was held.
    fn held(&mut self, asked: Ask) -> Move
        requires { self.old.means.asks < ASK_MAX }
        ensures answer { result ≡ Move.Held }
        ensures after { self.new ≡ record self.old { means = means_after self.old.means (Held asked); failing = nearer self.old.failing } }
    {
        self.holds = self.holds.saturating_add(1);
        self.refused(asked);
        Move::Held
    }

    /// The ask failed.
    fn failed(&mut self, asked: Ask) -> Move
        requires { self.old.means.asks < ASK_MAX }
        ensures answer { result ≡ Move.Failed }
        ensures after { self.new ≡ record self.old { means = means_after self.old.means (Failed asked); failing = nearer self.old.failing } }
    {
        self.faults = self.faults.saturating_add(1);
        self.refused(asked);
        Move::Failed
    }
}

/// Notes so many of these data bytes as transfers, with END on the last of all or not.
fn note(moves: &mut Vec<Transfer>, way: Way, bytes: &[u8], end: bool, taken: usize)
    requires within { taken ≤ length bytes.now }
    requires room { vec_len moves.old + taken ≤ vec_capacity moves.old }
    ensures noted { moves.new.items ≡ moves.old.items ++ take taken (ended (moved way) end bytes.now) }
    ensures len { vec_len moves.new ≡ vec_len moves.old + taken }
    ensures room { vec_capacity moves.new ≡ vec_capacity moves.old }
{
    let mut noted = 0;
    while noted < taken {
        moves.push_reserved(way.transfer(bytes[noted], end && noted + 1 == bytes.len()));
        noted += 1;
    }
}

/// The order after one more moving call: it is nearer by one, or done.
fn nearer(failing: Option<u32>) -> Option<u32>
    ensures { result ≡ nearer failing }
{
    match failing {
        None | Some(1) => None,
        Some(n) => Some(n.saturating_sub(1)),
    }
}

impl<I: Instrument> Bus for SimBus<I> {
    ghost use Rattle.std.specs.Prelude.{◌≡◌, ◌<◌, ◌≤◌, ◌+◌, ◌↔◌, length, take, drop};
    ghost use Rattle.vx_488.specs.declared.transfers.Transfer.TheVariants.{Cmd, Put, Ifc, Own};
    ghost use Rattle.vx_488.specs.Walks.{Walk};
    ghost use Rattle.vx_488.specs.Bursts.{puts_steps, gets_steps, StopsAt};
    ghost use Rattle.vx_488.specs.Steps.{Told, Cut, move_step, get_step, line_transfer, IsStepped};
    ghost use Rattle.vx_sim.specs.Bench.{some_asks, some_refuses};
    ghost use Rattle.vx_sim.specs.SimState.{Through};

    ghost means = { λ s. s.means };

    ghost srq_level = { λ s. some_asks s.bench };

    ghost ndac_level = { λ s. some_refuses s.means.wire s.bench };

    ghost through = { Through };

    /// Sends a command byte, unless this is the call that is told to fail. SDC, GET and GTL reach the listeners, and DCL
    /// every instrument.
    fn command(&mut self, b: u8) -> Move
        requires { self.old.means.asks < ASK_MAX }
        ensures stepped { IsStepped self.old.means (move_step (Cmd b) result) self.new.means }
        ensures through { Through self.old (move_step (Cmd b) result) self.new }
    {
        if self.fails_next() {
            return self.failed(Ask::Cmd(b));
        }
        self.bench.command(&self.wire, command_of(b));
        self.made(Transfer::Cmd(b))
    }

    /// Sends a data byte to the listeners, unless this is the call that is told to fail. It is held where no instrument
    /// is a listener, or some listener can't take it.
    fn put(&mut self, b: u8, end: bool) -> Move
        requires { self.old.means.asks < ASK_MAX }
        ensures stepped { IsStepped self.old.means (move_step (Put b end) result) self.new.means }
        ensures through { Through self.old (move_step (Put b end) result) self.new }
    {
        let hearers = self.bench.hearers(&self.wire);
        self.put_to(&hearers, b, end)
    }

    /// Sends data bytes to the listeners, which are found once, until one doesn't go.
    fn put_many(&mut self, bytes: &[u8], end: bool) -> Many
        requires some { 0 < length bytes.now }
        requires asks { self.old.means.asks + length bytes.now ≤ ASK_MAX }
        ensures walk { Walk (λ s. s.means) Through self.old (puts_steps bytes.now end result) self.new }
        ensures within { result.moved ≤ length bytes.now }
        ensures last { (result.last ≡ Move.Went) ↔ (result.moved ≡ length bytes.now) }
    {
        let hearers = self.bench.hearers(&self.wire);
        self.put_all_to(&hearers, bytes, end)
    }

    /// Takes a byte from the talker, unless this is the call that is told to fail: in serial poll mode its status byte,
    /// without END. It is held where no instrument is the talker, or the talker has no byte to give.
    fn get(&mut self) -> GetOut
        requires { self.old.means.asks < ASK_MAX }
        ensures stepped { IsStepped self.old.means (get_step result) self.new.means }
        ensures through { Through self.old (get_step result) self.new }
    {
        let speaker = self.bench.speaker(&self.wire);
        self.get_from(speaker)
    }

    /// Takes bytes from the talker, which is found once, until one ends the burst or doesn't go.
    fn get_many(&mut self, room: &mut [u8], stop: Option<u8>) -> ManyGot
        requires some { 0 < length room.old }
        requires asks { self.old.means.asks + length room.old ≤ ASK_MAX }
        ensures walk { Walk (λ s. s.means) Through self.old (gets_steps (take result.got room.new) result.stop) self.new }
        ensures stops { StopsAt stop (length room.old) (take result.got room.new) result.stop }
        ensures within { result.got ≤ length room.old }
        ensures rest { drop result.got room.new ≡ drop result.got room.old }
    {
        let speaker = self.bench.speaker(&self.wire);
        if self.failing.is_none() && !self.wire.polling {
            if let Some(index) = speaker {
                return self.get_run(index, room, stop);
            }
        }
        self.get_each(speaker, room, stop)
    }

    /// Switches a line on or off, unless this is the call that is told to fail. REN that goes off sends every instrument
    /// to local control.
    fn line(&mut self, l: Line, on: bool) -> Move
        requires { self.old.means.asks < ASK_MAX }
        ensures stepped { IsStepped self.old.means (move_step (line_transfer l on) result) self.new.means }
        ensures through { Through self.old (move_step (line_transfer l on) result) self.new }
    {
        match l {
            Line::Ren => self.remote(on),
            Line::Atn => self.send(Transfer::Atn(on)),
        }
    }

    /// Sends interface clear, unless this is the call that is told to fail.
    fn ifc(&mut self) -> Move
        requires { self.old.means.asks < ASK_MAX }
        ensures stepped { IsStepped self.old.means (move_step Ifc result) self.new.means }
        ensures through { Through self.old (move_step Ifc result) self.new }
    {
        self.send(Transfer::Ifc)
    }

    /// Makes this the gateway's own address, 0 to 30, unless this is the call that is told to fail.
    fn own(&mut self, address: u8) -> Move
        requires room { self.old.means.asks < ASK_MAX }
        requires address { address ≤ ADDRESS_MAX }
        ensures stepped { IsStepped self.old.means (move_step (Own address) result) self.new.means }
        ensures through { Through self.old (move_step (Own address) result) self.new }
    {
        self.send(Transfer::Own(address))
    }

    /// Whether some instrument asks for service.
    fn srq(&self) -> bool
        ensures { result ≡ some_asks self.now.bench }
    {
        self.bench.any(&self.wire, Question::Asks)
    }

    /// Whether some instrument is a listener that can't take a byte.
    fn ndac(&self) -> bool
        ensures { result ≡ some_refuses self.now.means.wire self.now.bench }
    {
        self.bench.any(&self.wire, Question::Refuses)
    }

    /// Tells every instrument a moment, in milliseconds, that is later than the last one. Another changes nothing.
    fn moment(&mut self, now: u64)
        ensures stepped { self.new.means ≡ self.old.means }
        ensures through { Through self.old (Told now) self.new }
    {
        if now > self.told {
            self.bench
                .tell(&self.wire, Whom::Everyone, Signal::Moment(now));
            self.told = now;
        }
    }

    /// Empties the list of transfers, and begins to count asks anew.
    fn cut(&mut self)
        ensures stepped { IsStepped self.old.means Cut self.new.means }
        ensures through { Through self.old Cut self.new }
    {
        self.moves.clear();
        self.asks = 0;
    }

    /// The transfers since the last cut, in order.
    fn moves(&self) -> &[Transfer]
        ensures { result.now ≡ self.now.means.moves }
    {
        self.moves.as_slice()
    }

    /// What the transfers so far mean for the bus.
    fn wire(&self) -> Wire
        ensures { result ≡ self.now.means.wire }
    {
        self.wire
    }
}
