//! The bench: the instruments on a bus, each at its address.

ghost use Rattle.std.specs.Prelude.{◌≡◌, ◌≤◌, ◌<◌, ◌+◌, ℕ, true, false, not, List, [], ◌∷◌, ◌++◌, length, take, drop, map, filter, position, find, IfOk, IfSome, vec_len, vec_capacity};
ghost use Rattle.std.specs.List.{list_any, insert};
ghost use Rattle.vx_sim.specs.declared.TheConstants.{PLACES_MAX};
ghost use Rattle.vx_488.specs.declared.transfers.Transfer.TheVariants.{Put};
ghost use Rattle.vx_488.specs.Address.{is_bus_address};
ghost use Rattle.vx_488.specs.Bursts.{ended, gets_steps, StopsAt};
ghost use Rattle.vx_sim.specs.Occupants.{TakesByte, Receives};
ghost use Rattle.vx_sim.specs.Bench.{listens, talks, some_refuses, holds_put, holds_get, stands_at, PlaceWhere, PlaceTakes, PlaceGives, BenchWhere, BenchAfterCommand, BenchAfterRemote, TalkerGives};
ghost use Rattle.vx_sim.specs.Attaching.{clashes, holder, AreApart, IsInOrder, AreKnown};
ghost use Rattle.vx_sim.specs.Finding.{indices, is_at, waits, ChangesAt};
ghost use Rattle.vx_sim.specs.Shown.{occupant_of, placed_of, bench_of, is_meant, is_so, AtPlace, TalkerGave};

use crate::places::{Place, Stand};
use crate::signals::{Question, Signal, Whom};
use crate::{NoMemory, PLACES_MAX};
use arrayvec::ArrayVec;
use std::alloc::Global;
use std::marker::Model;
use vx_488::{Addr, Command, ManyGot, Stop, Wire};
use vx_inst::Instrument;

/// Indices of instruments on a bench.
pub(crate) type Hearers = ArrayVec<u8, PLACES_MAX>;

/// The instruments on a bus, in the order in which they were attached, with room for as many as a bus takes. No two of
/// them are in each other's way, and each stands at an address of a bus.
#[derive(Drop)]
pub(crate) struct Bench<I: Instrument> {
    places: Vec<Place<I>>,
}

impl<I: Instrument> Model for Bench<I> {
    ghost use Rattle.std.specs.Prelude.{◌≤◌, List, vec_len, vec_capacity};
    ghost use Rattle.vx_sim.specs.declared.TheConstants.{PLACES_MAX};
    ghost use Rattle.vx_sim.specs.Occupants.{Placed};
    ghost use Rattle.vx_sim.specs.Attaching.{IsInOrder};
    ghost use Rattle.vx_sim.specs.Shown.{bench_of};

    ghost Value = { List Placed };

    ghost view = { λ b. bench_of b.places.items };

    ghost invariant = { λ b. (vec_len b.places ≤ PLACES_MAX) × (PLACES_MAX ≤ vec_capacity b.places)
        × IsInOrder (bench_of b.places.items) };
}

impl<I: Instrument> Bench<I> {
    /// An empty one. Its room is made here.
    pub(crate) fn new(alloc: Global) -> Result<Bench<I>, NoMemory>
        ensures { IfOk result (λ bench. bench ≡ []) }
    {
        let Ok(places) = Vec::with_capacity(alloc, PLACES_MAX) else {
            return Err(NoMemory);
        };
        Ok(Bench { places })
    }

    /// How many instruments there are.
    pub(crate) fn len(&self) -> usize
        ensures many { result ≡ length self.now }
        ensures within { length self.now ≤ PLACES_MAX }
    {
        self.places.len()
    }

    /// Whether this is so of some instrument.
    pub(crate) fn any(&self, wire: &Wire, question: Question) -> bool
        ensures { result ≡ list_any (is_so wire.now question) self.now }
    {
        first_place(&self.places, wire, question).is_some()
    }

    /// The first instrument that is in the way of one at this address.
    pub(crate) fn holder(&self, a: Addr) -> Option<Addr>
        ensures { result ≡ holder self.now a }
    {
        first_clash(&self.places, a)
    }

    /// Does nothing. Its contract says what holds of the instruments at every moment.
    pub(crate) fn in_order(&self)
        ensures order { IsInOrder self.now }
        ensures few { length self.now ≤ PLACES_MAX }
        ensures known { AreKnown (λ i. I.behaves i) (λ i. I.nature i) self.now }
    {
        known_all(&self.places);
    }

    /// Puts an instrument at the end.
    pub(crate) fn add(&mut self, at: Addr, stand: Stand<I>)
        requires address { is_bus_address at ≡ true }
        requires few { length self.old < PLACES_MAX }
        requires free { holder self.old at ≡ None }
        ensures { self.new ≡ self.old ++ (record { at = at; occupant = occupant_of stand }) ∷ [] }
    {
        self.places.push_reserved(Place { at, stand });
    }

    /// Takes away the instrument at this address, which is dropped.
    pub(crate) fn remove(&mut self, a: Addr)
        ensures { self.new ≡ filter (λ p. not (stands_at a p)) self.old }
    {
        remove_at(&mut self.places, a);
    }

    /// The indices of the listeners, in order.
    pub(crate) fn hearers(&self, wire: &Wire) -> Hearers
        ensures { result.items ≡ indices (listens wire.now) 0 self.now }
    {
        hearers(&self.places, wire)
    }

    /// Whether a put is held: there is no listener, or some listener can't take a byte.
    pub(crate) fn holds_put(&self, wire: &Wire, hearers: &[u8]) -> bool
        requires { hearers.now ≡ indices (listens wire.now) 0 self.now }
        ensures { result ≡ holds_put wire.now self.now }
    {
        hearers.is_empty() || self.any(wire, Question::Refuses)
    }

    /// Every listener takes a byte.
    pub(crate) fn put(&mut self, wire: &Wire, hearers: &[u8], b: u8, end: bool)
        requires hearers { hearers.now ≡ indices (listens wire.now) 0 self.old }
        requires takes { some_refuses wire.now self.old ≡ false }
        ensures put { BenchWhere (listens wire.now) (TakesByte b end) self.old self.new }
    {
        put_each(&mut self.places, wire, hearers, b, end);
    }

    /// The instrument at this index takes bytes, one after the other, until it can't take one or there is none left, with END on
    /// the last of all or not. Answers how many it took.
    pub(crate) fn put_run(&mut self, index: usize, bytes: &[u8], end: bool) -> usize
        requires { index < length self.old }
        ensures takes { AtPlace index (PlaceTakes (take result (ended Put end bytes.now))) self.old self.new }
        ensures within { result ≤ length bytes.now }
    {
        take_many_at(&mut self.places, index, bytes, end)
    }

    /// The instruments that are meant are told what they answer nothing to.
    pub(crate) fn tell(&mut self, wire: &Wire, whom: Whom, signal: Signal)
        ensures { BenchWhere (is_meant wire.now whom) (Receives signal) self.old self.new }
    {
        tell_all(&mut self.places, wire, whom, signal);
    }

    /// A command reaches the instruments.
    pub(crate) fn command(&mut self, wire: &Wire, command: Command)
        ensures { BenchAfterCommand wire.now command self.old self.new }
    {
        match command {
            Command::SelectedClear => self.tell(wire, Whom::Listeners, Signal::Clear),
            Command::Trigger => self.tell(wire, Whom::Listeners, Signal::Trigger),
            Command::GoToLocal => self.tell(wire, Whom::Listeners, Signal::Local),
            Command::DeviceClear => self.tell(wire, Whom::Everyone, Signal::Clear),
            _ => {}
        }
    }

    /// Remote enable is switched.
    pub(crate) fn remote(&mut self, wire: &Wire, on: bool)
        ensures { BenchAfterRemote on self.old self.new }
    {
        if !on {
            self.tell(wire, Whom::Everyone, Signal::Local);
        }
    }

    /// The index of the talker.
    pub(crate) fn speaker(&self, wire: &Wire) -> Option<usize>
        ensures { result ≡ position (talks wire.now) self.now }
    {
        first_place(&self.places, wire, Question::Talks)
    }

    /// Whether a get is held: there is no talker, or it has no byte to give.
    pub(crate) fn holds_get(&self, wire: &Wire, speaker: Option<usize>) -> bool
        requires { speaker ≡ position (talks wire.now) self.now }
        ensures { result ≡ holds_get wire.now self.now }
    {
        match speaker {
            Some(index) => !self.places[index].can_answer(wire),
            None => true,
        }
    }

    /// The instrument at this index gives bytes, one after the other, into a room: until one has END, or is the stop byte, or
    /// fills the room, or until it has none to give. It never answers that one failed.
    pub(crate) fn give_run(&mut self, index: usize, room: &mut [u8], stop: Option<u8>) -> ManyGot
        requires { index < length self.old }
        ensures apart { AreApart self.old }
        ensures gives { AtPlace index (PlaceGives (gets_steps (take result.got room.new) result.stop)) self.old self.new }
        ensures stops { StopsAt stop (length room.old) (take result.got room.new) result.stop }
        ensures within { result.got ≤ length room.old }
        ensures rest { drop result.got room.new ≡ drop result.got room.old }
        ensures goes { result.stop ≡ Stop.Failed → ⊥ }
    {
        give_many_at(&mut self.places, index, room, stop)
    }

    /// The talker gives a byte: in serial poll mode its status byte, without END.
    pub(crate) fn give(&mut self, wire: &Wire, speaker: Option<usize>) -> (u8, bool)
        requires speaker { speaker ≡ position (talks wire.now) self.old }
        requires gives { holds_get wire.now self.old ≡ false }
        ensures { BenchWhere (talks wire.now) (TalkerGives wire.now.polling (record { value = result.0; end = result.1 })) self.old self.new }
    {
        match speaker {
            Some(index) => give_at(&mut self.places, index, wire),
            None => (0, false),
        }
    }
}

/// Does nothing. Its contract says what is known of the instruments that are no tables.
fn known_all<I: Instrument>(places: &[Place<I>])
    ensures { AreKnown (λ i. I.behaves i) (λ i. I.nature i) (bench_of places.now) }
{
    for place in places {
        place.stand.known();
    }
}

/// The first place at which this is so.
fn first_place<I: Instrument>(places: &[Place<I>], wire: &Wire, question: Question) -> Option<usize>
    ensures first { result ≡ position (λ p. is_so wire.now question (placed_of p)) places.now }
    ensures within { IfSome result (λ i. i < length places.now) }
{
    places.iter().position(|place| place.is_so(wire, question))
}

/// The indices of the listeners, in order.
fn hearers<I: Instrument>(places: &[Place<I>], wire: &Wire) -> Hearers
    requires { length places.now ≤ PLACES_MAX }
    ensures { result.items ≡ indices (λ p. listens wire.now (placed_of p)) 0 places.now }
{
    let mut hearers = Hearers::new();
    for (index, place) in places.iter().enumerate() {
        if place.is_so(wire, Question::Listens) {
            hearers.push(index as u8);
        }
    }
    hearers
}

/// The first address that is in the way of this one.
fn first_clash<I: Instrument>(places: &[Place<I>], a: Addr) -> Option<Addr>
    ensures { result ≡ find (λ h. clashes h a) (map (λ p. p.at) places.now) }
{
    for place in places {
        if clashes(place.at, a) {
            return Some(place.at);
        }
    }
    None
}

/// Whether two instruments can't stand at these: they are one address, or at one primary where one of the two has no
/// secondary.
fn clashes(a: Addr, b: Addr) -> bool
    ensures { result ≡ clashes a b }
{
    a.p == b.p && (a.s.is_none() || b.s.is_none() || a.s == b.s)
}

/// Every listener takes a byte.
fn put_each<I: Instrument>(places: &mut [Place<I>], wire: &Wire, hearers: &[u8], b: u8, end: bool)
    requires hearers { hearers.now ≡ indices (λ p. listens wire.now (placed_of p)) 0 places.old }
    requires takes { some_refuses wire.now (bench_of places.old) ≡ false }
    ensures { BenchWhere (listens wire.now) (TakesByte b end) (bench_of places.old) (bench_of places.new) }
{
    for index in hearers {
        take_at(places, usize::from(*index), wire, b, end);
    }
}

/// The listener at this index takes a byte.
fn take_at<I: Instrument>(places: &mut [Place<I>], index: usize, wire: &Wire, b: u8, end: bool)
    requires within { index < length places.old }
    requires listens { is_at (λ p. listens wire.now (placed_of p)) places.old index ≡ true }
    requires takes { is_at waits places.old index ≡ false }
    ensures { ChangesAt (λ x y. PlaceWhere (listens wire.now) (TakesByte b end) (placed_of x) (placed_of y)) index places.old places.new }
{
    places[index].take(wire, b, end);
}

/// The instrument at this index takes bytes, one after the other, until it can't take one or there is none left.
fn take_many_at<I: Instrument>(
    places: &mut [Place<I>],
    index: usize,
    bytes: &[u8],
    end: bool,
) -> usize
    requires { index < length places.old }
    ensures takes { AtPlace index (PlaceTakes (take result (ended Put end bytes.now))) (bench_of places.old) (bench_of places.new) }
    ensures within { result ≤ length bytes.now }
{
    let place = &mut places[index];
    place.take_many(bytes, end)
}

/// Those that are meant are told what they answer nothing to.
fn tell_all<I: Instrument>(places: &mut [Place<I>], wire: &Wire, whom: Whom, signal: Signal)
    ensures { BenchWhere (is_meant wire.now whom) (Receives signal) (bench_of places.old) (bench_of places.new) }
{
    for place in places.iter_mut() {
        place.receive(wire, whom, signal);
    }
}

/// The talker, which stands at this place, gives a byte.
fn give_at<I: Instrument>(places: &mut [Place<I>], index: usize, wire: &Wire) -> (u8, bool)
    requires apart { AreApart (bench_of places.old) }
    requires within { index < length places.old }
    requires talks { position (λ p. talks wire.now (placed_of p)) places.old ≡ Some index }
    requires gives { holds_get wire.now (bench_of places.old) ≡ false }
    ensures { AtPlace index (TalkerGave wire.now (record { value = result.0; end = result.1 })) (bench_of places.old) (bench_of places.new) }
{
    let place = &mut places[index];
    place.give(wire)
}

/// The instrument at this index gives bytes, one after the other, until the run ends.
fn give_many_at<I: Instrument>(
    places: &mut [Place<I>],
    index: usize,
    room: &mut [u8],
    stop: Option<u8>,
) -> ManyGot
    requires { index < length places.old }
    ensures gives { AtPlace index (PlaceGives (gets_steps (take result.got room.new) result.stop)) (bench_of places.old) (bench_of places.new) }
    ensures stops { StopsAt stop (length room.old) (take result.got room.new) result.stop }
    ensures within { result.got ≤ length room.old }
    ensures rest { drop result.got room.new ≡ drop result.got room.old }
    ensures goes { result.stop ≡ Stop.Failed → ⊥ }
{
    let place = &mut places[index];
    place.give_many(room, stop)
}

/// The instrument at this address is dropped.
fn remove_at<I: Instrument>(places: &mut Vec<Place<I>>, a: Addr)
    ensures left { places.new.items ≡ filter (λ p. not (stands_at a (placed_of p))) places.old.items }
    ensures fewer { vec_len places.new ≤ vec_len places.old }
    ensures room { vec_capacity places.new ≡ vec_capacity places.old }
{
    places.retain(|place| place.at != a);
}
