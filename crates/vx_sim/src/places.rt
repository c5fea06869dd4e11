//! An instrument at its place.

ghost use Rattle.std.specs.Prelude.{◌≡◌, ◌≤◌, true, false, length, take, drop};
ghost use Rattle.vx_488.specs.declared.transfers.Transfer.TheVariants.{Put};
ghost use Rattle.vx_488.specs.Bursts.{ended, gets_steps, StopsAt};
ghost use Rattle.vx_488.specs.Steps.{Path};
ghost use Rattle.vx_inst.specs.Laws.{takes_byte, gives_byte};
ghost use Rattle.vx_sim.specs.Occupants.{Table, Boxed, seen, TakesByte, TakesPuts, Receives, GivesByte, GivesStatus, GivesBy};
ghost use Rattle.vx_sim.specs.Bench.{listens, talks, refuses, can_answer, answers_get, PlaceWhere, PlaceTakes, PlaceGives, TalkerGives};
ghost use Rattle.vx_sim.specs.Attaching.{IsKnownOccupant};
ghost use Rattle.vx_sim.specs.Shown.{occupant_of, placed_of, is_meant, is_so};
ghost use Rattle.vx_sim.specs.Finding.{waits};

use crate::seat::Seat;
use crate::signals::{Question, Signal, Whom};
use vx_488::{Addr, ManyGot, Stop, Wire};
use vx_inst::Instrument;
use vx_table::TableInst;

/// What stands at a place: a table instrument, which is known by its rules, or any other, with the calls that it had.
#[derive(Drop)]
pub(crate) enum Stand<I: Instrument> {
    Table(TableInst),
    Boxed(Seat<I>),
}

/// An instrument at its address.
#[derive(Drop)]
pub(crate) struct Place<I: Instrument> {
    pub(crate) at: Addr,
    pub(crate) stand: Stand<I>,
}

impl<I: Instrument> Stand<I> {
    /// Does nothing. Its contract says what is known of an instrument that is no table.
    pub(crate) fn known(&self)
        ensures { IsKnownOccupant (λ i. I.behaves i) (λ i. I.nature i) (occupant_of self.now) }
    {
        match self {
            Stand::Table(_) => {}
            Stand::Boxed(seat) => seat.known(),
        }
    }

    fn can_take(&self) -> bool
        ensures { result ≡ takes_byte (seen (occupant_of self.now)) }
    {
        match self {
            Stand::Table(table) => table.can_take(),
            Stand::Boxed(seat) => seat.can_take(),
        }
    }

    fn can_give(&self) -> bool
        ensures { result ≡ gives_byte (seen (occupant_of self.now)) }
    {
        match self {
            Stand::Table(table) => table.can_give(),
            Stand::Boxed(seat) => seat.can_give(),
        }
    }

    fn requests(&self) -> bool
        ensures { result ≡ (seen (occupant_of self.now)).rqs }
    {
        match self {
            Stand::Table(table) => table.requests(),
            Stand::Boxed(seat) => seat.requests(),
        }
    }

    fn take(&mut self, b: u8, end: bool)
        requires { takes_byte (seen (occupant_of self.old)) ≡ true }
        ensures { TakesByte b end (occupant_of self.old) (occupant_of self.new) }
    {
        match self {
            Stand::Table(table) => table.take(b, end),
            Stand::Boxed(seat) => seat.take(b, end),
        }
    }

    /// Takes bytes, one after the other, until it can't take one or there is none left, with END on the last of all or not.
    /// Answers how many it took.
    fn take_many(&mut self, bytes: &[u8], end: bool) -> usize
        ensures takes { TakesPuts (take result (ended Put end bytes.now)) (occupant_of self.old) (occupant_of self.new) }
        ensures within { result ≤ length bytes.now }
    {
        match self {
            Stand::Table(table) => take_run(table, bytes, end),
            Stand::Boxed(seat) => seat.take_many(bytes, end),
        }
    }

    /// Gives the next byte, and whether END stands on it.
    fn give(&mut self) -> (u8, bool)
        requires { gives_byte (seen (occupant_of self.old)) ≡ true }
        ensures { GivesByte (record { value = result.0; end = result.1 }) (occupant_of self.old) (occupant_of self.new) }
    {
        match self {
            Stand::Table(table) => table.give(),
            Stand::Boxed(seat) => seat.give(),
        }
    }

    /// Gives bytes, one after the other, into a room: until one has END, or is the stop byte, or fills the room, or until it has
    /// none to give. It never answers that one failed.
    fn give_many(&mut self, room: &mut [u8], stop: Option<u8>) -> ManyGot
        ensures gives { Path GivesBy (occupant_of self.old) (gets_steps (take result.got room.new) result.stop) (occupant_of self.new) }
        ensures stops { StopsAt stop (length room.old) (take result.got room.new) result.stop }
        ensures within { result.got ≤ length room.old }
        ensures rest { drop result.got room.new ≡ drop result.got room.old }
        ensures goes { result.stop ≡ Stop.Failed → ⊥ }
    {
        match self {
            Stand::Table(table) => give_run(table, room, stop),
            Stand::Boxed(seat) => seat.give_many(room, stop),
        }
    }

    /// Gives its status byte.
    fn poll(&mut self) -> u8
        ensures { GivesStatus (record { value = result; end = false }) (occupant_of self.old) (occupant_of self.new) }
    {
        match self {
            Stand::Table(table) => table.poll(),
            Stand::Boxed(seat) => seat.poll(),
        }
    }

    /// Is told what it answers nothing to.
    pub(crate) fn receive(&mut self, signal: Signal)
        ensures { Receives signal (occupant_of self.old) (occupant_of self.new) }
    {
        match self {
            Stand::Table(table) => tell_table(table, signal),
            Stand::Boxed(seat) => tell_seat(seat, signal),
        }
    }
}

/// The table takes bytes, one after the other, until it can't take one or there is none left.
fn take_run(table: &mut TableInst, bytes: &[u8], end: bool) -> usize
    ensures takes { TakesPuts (take result (ended Put end bytes.now)) (Table table.old) (Table table.new) }
    ensures within { result ≤ length bytes.now }
{
    let mut taken = 0;
    while taken < bytes.len() && table.can_take() {
        table.take(bytes[taken], end && taken + 1 == bytes.len());
        taken += 1;
    }
    taken
}

/// The table gives bytes, one after the other, until the run ends.
fn give_run(table: &mut TableInst, room: &mut [u8], stop: Option<u8>) -> ManyGot
    ensures gives { Path GivesBy (Table table.old) (gets_steps (take result.got room.new) result.stop) (Table table.new) }
    ensures stops { StopsAt stop (length room.old) (take result.got room.new) result.stop }
    ensures within { result.got ≤ length room.old }
    ensures rest { drop result.got room.new ≡ drop result.got room.old }
    ensures goes { result.stop ≡ Stop.Failed → ⊥ }
{
    let mut got = 0;
    while got < room.len() {
        if !table.can_give() {
            return ManyGot {
                got,
                stop: Stop::Held,
            };
        }
        let (b, end) = table.give();
        room[got] = b;
        got += 1;
        if end {
            return ManyGot {
                got,
                stop: Stop::End,
            };
        }
        if stop == Some(b) {
            return ManyGot {
                got,
                stop: Stop::Char,
            };
        }
    }
    ManyGot {
        got,
        stop: Stop::Full,
    }
}

fn tell_table(table: &mut TableInst, signal: Signal)
    ensures { Receives signal (Table table.old) (Table table.new) }
{
    match signal {
        Signal::Clear => table.clear(),
        Signal::Trigger => table.trigger(),
        Signal::Local => table.local(),
        Signal::Moment(now) => table.moment(now),
        Signal::Status(b) => table.set_status(b),
    }
}

fn tell_seat<I: Instrument>(seat: &mut Seat<I>, signal: Signal)
    ensures { Receives signal (Boxed seat.old) (Boxed seat.new) }
{
    match signal {
        Signal::Clear => seat.clear(),
        Signal::Trigger => seat.trigger(),
        Signal::Local => seat.local(),
        Signal::Moment(now) => seat.moment(now),
        Signal::Status(b) => seat.set_status(b),
    }
}

impl<I: Instrument> Place<I> {
    /// Whether it is a listener that can't take a byte.
    fn refuses(&self, wire: &Wire) -> bool
        ensures { result ≡ refuses wire.now (placed_of self.now) }
    {
        wire.listeners.has(self.at) && !self.stand.can_take()
    }

    /// Whether it is the talker.
    fn talks(&self, wire: &Wire) -> bool
        ensures { result ≡ talks wire.now (placed_of self.now) }
    {
        wire.talker == Some(self.at)
    }

    /// Whether it can answer a get where it is the talker.
    pub(crate) fn can_answer(&self, wire: &Wire) -> bool
        ensures { result ≡ can_answer wire.now (placed_of self.now) }
    {
        wire.polling || self.stand.can_give()
    }

    /// What it answers to a question.
    pub(crate) fn is_so(&self, wire: &Wire, question: Question) -> bool
        ensures { result ≡ is_so wire.now question (placed_of self.now) }
    {
        match question {
            Question::Listens => wire.listeners.has(self.at),
            Question::Refuses => self.refuses(wire),
            Question::Talks => self.talks(wire),
            Question::Asks => self.stand.requests(),
            Question::Stands(a) => self.at == a,
        }
    }

    fn is_meant(&self, wire: &Wire, whom: Whom) -> bool
        ensures { result ≡ is_meant wire.now whom (placed_of self.now) }
    {
        match whom {
            Whom::Listeners => wire.listeners.has(self.at),
            Whom::Everyone => true,
            Whom::At(a) => self.at == a,
        }
    }

    /// Takes a byte: it is a listener on this wire.
    pub(crate) fn take(&mut self, wire: &Wire, b: u8, end: bool)
        requires listens { listens wire.now (placed_of self.old) ≡ true }
        requires takes { waits self.old ≡ false }
        ensures { PlaceWhere (listens wire.now) (TakesByte b end) (placed_of self.old) (placed_of self.new) }
    {
        self.stand.take(b, end);
    }

    /// Takes bytes, one after the other, until it can't take one or there is none left, with END on the last of all or not.
    /// Answers how many it took.
    pub(crate) fn take_many(&mut self, bytes: &[u8], end: bool) -> usize
        ensures takes { PlaceTakes (take result (ended Put end bytes.now)) (placed_of self.old) (placed_of self.new) }
        ensures within { result ≤ length bytes.now }
    {
        self.stand.take_many(bytes, end)
    }

    /// Gives bytes, one after the other, into a room: until one has END, or is the stop byte, or fills the room, or until it has
    /// none to give. It never answers that one failed.
    pub(crate) fn give_many(&mut self, room: &mut [u8], stop: Option<u8>) -> ManyGot
        ensures gives { PlaceGives (gets_steps (take result.got room.new) result.stop) (placed_of self.old) (placed_of self.new) }
        ensures stops { StopsAt stop (length room.old) (take result.got room.new) result.stop }
        ensures within { result.got ≤ length room.old }
        ensures rest { drop result.got room.new ≡ drop result.got room.old }
        ensures goes { result.stop ≡ Stop.Failed → ⊥ }
    {
        self.stand.give_many(room, stop)
    }

    /// Is told what it answers nothing to, where it is meant.
    pub(crate) fn receive(&mut self, wire: &Wire, whom: Whom, signal: Signal)
        ensures { PlaceWhere (is_meant wire.now whom) (Receives signal) (placed_of self.old) (placed_of self.new) }
    {
        if self.is_meant(wire, whom) {
            self.stand.receive(signal);
        }
    }

    /// Gives a byte: in serial poll mode its status byte, without END.
    pub(crate) fn give(&mut self, wire: &Wire) -> (u8, bool)
        requires { answers_get wire.now (placed_of self.old) ≡ true }
        ensures gives { TalkerGives wire.now.polling (record { value = result.0; end = result.1 }) (occupant_of self.old.stand) (occupant_of self.new.stand) }
        ensures stays { self.new.at ≡ self.old.at }
    {
        if wire.polling {
            (self.stand.poll(), false)
        } else {
            self.stand.give()
        }
    }
}
