//! An instrument that is no table, at its place.

ghost use Rattle.std.specs.Prelude.{◌≡◌, ◌≤◌, ◌++◌, true, length, take, drop};
ghost use Rattle.vx_488.specs.declared.transfers.Transfer.TheVariants.{Put};
ghost use Rattle.vx_488.specs.Bursts.{ended, gets_steps, StopsAt};
ghost use Rattle.vx_488.specs.Steps.{Path};
ghost use Rattle.vx_inst.specs.declared.done.Done.TheVariants.{Took, Gave, Polled, Cleared, Triggered, ToLocal, StatusSet, Told};
ghost use Rattle.vx_inst.specs.Laws.{takes_byte, gives_byte, InstTakes, InstGives, status_byte, IsInstPolled, IsCleared, IsTriggered, IsInstTold, with_status};
ghost use Rattle.vx_inst.specs.Runs.{takings, gave};
ghost use Rattle.vx_sim.specs.Histories.{calls_of};
ghost use Rattle.vx_sim.specs.Occupants.{Boxed, handed_in, HasCall, IsKnown, TakesPuts, GivesBy};

use http_server::Log;
use std::marker::Model;
use vx_488::{ManyGot, Stop};
use vx_inst::{Done, Instrument};

/// An instrument with the calls that it had on the bench. These are noted for proofs alone: they take no memory.
#[derive(Drop)]
pub(crate) struct Seat<I: Instrument> {
    inst: I,
    // the instrument as it was handed in
    origin: Log<I, ()>,
    calls: Log<Done, ()>,
}

impl<I: Instrument> Model for Seat<I> {
    ghost use Rattle.vx_sim.specs.Occupants.{Seated};

    ghost Value = { Seated };

    ghost use Rattle.std.specs.Prelude.{[]};
    ghost use Rattle.vx_inst.specs.Shared.{fresh};
    ghost use Rattle.vx_sim.specs.Histories.{first_of, calls_of, IsAfter};

    ghost view = { λ s. record {
      origin = first_of (λ i. I.behaves i []) fresh s.origin.items;
      nature = first_of (λ i. I.nature i) [] s.origin.items;
      calls = calls_of s.calls.items;
      shown = I.behaves s.inst [];
    } };

    ghost invariant = { λ s. IsAfter (λ i. I.behaves i) s.origin.items (calls_of s.calls.items) s.inst };
}

impl<I: Instrument> Seat<I> {
    /// An instrument that is handed in, and had no call yet.
    pub(crate) fn new(inst: I) -> Seat<I>
        ensures { result ≡ handed_in (λ i. I.behaves i) (λ i. I.nature i) inst }
    {
        Seat {
            origin: Log::new().and(&inst, &()),
            calls: Log::new(),
            inst,
        }
    }

    /// Does nothing. Its contract says what is known of the instrument.
    pub(crate) fn known(&self)
        ensures { IsKnown (λ i. I.behaves i) (λ i. I.nature i) self.now }
    {
        let _ = &self.inst;
    }

    pub(crate) fn can_take(&self) -> bool
        ensures { result ≡ takes_byte self.now.shown }
    {
        self.inst.can_take()
    }

    pub(crate) fn take(&mut self, b: u8, end: bool)
        requires { takes_byte self.old.shown ≡ true }
        ensures { HasCall (Took b end) (λ v w. InstTakes v b end w) self.old self.new }
    {
        self.inst.take(b, end);
        self.calls = self.calls.and(&Done::Took { b, end }, &());
    }

    /// Takes bytes, one after the other, until it can't take one or there is none left, with END on the last of all or not.
    /// Answers how many it took.
    pub(crate) fn take_many(&mut self, bytes: &[u8], end: bool) -> usize
        ensures takes { TakesPuts (take result (ended Put end bytes.now)) (Boxed self.old) (Boxed self.new) }
        ensures within { result ≤ length bytes.now }
    {
        let taken = self.inst.take_many(bytes, end);
        note_takings(&mut self.calls, bytes, end, taken);
        taken
    }

    pub(crate) fn can_give(&self) -> bool
        ensures { result ≡ gives_byte self.now.shown }
    {
        self.inst.can_give()
    }

    /// Gives the next byte, and whether END stands on it.
    pub(crate) fn give(&mut self) -> (u8, bool)
        requires { gives_byte self.old.shown ≡ true }
        ensures { HasCall Gave (λ v w. InstGives v (record { value = result.0; end = result.1 }) w) self.old self.new }
    {
        let given = self.inst.give();
        self.calls = self.calls.and(&Done::Gave, &());
        given
    }

    /// Gives bytes, one after the other, into a room: until one has END, or is the stop byte, or fills the room, or until it has
    /// none to give. It never answers that one failed.
    pub(crate) fn give_many(&mut self, room: &mut [u8], stop: Option<u8>) -> ManyGot
        ensures gives { Path GivesBy (Boxed self.old) (gets_steps (take result.got room.new) result.stop) (Boxed self.new) }
        ensures stops { StopsAt stop (length room.old) (take result.got room.new) result.stop }
        ensures within { result.got ≤ length room.old }
        ensures rest { drop result.got room.new ≡ drop result.got room.old }
        ensures goes { result.stop ≡ Stop.Failed → ⊥ }
    {
        let many = self.inst.give_many(room, stop);
        note_givings(&mut self.calls, many.got);
        many
    }

    /// Gives its status byte.
    pub(crate) fn poll(&mut self) -> u8
        ensures status { result ≡ status_byte self.old.shown }
        ensures polled { HasCall Polled IsInstPolled self.old self.new }
    {
        let status = self.inst.poll();
        self.calls = self.calls.and(&Done::Polled, &());
        status
    }

    pub(crate) fn requests(&self) -> bool
        ensures { result ≡ self.now.shown.rqs }
    {
        self.inst.requests()
    }

    pub(crate) fn clear(&mut self)
        ensures { HasCall Cleared IsCleared self.old self.new }
    {
        self.inst.clear();
        self.calls = self.calls.and(&Done::Cleared, &());
    }

    pub(crate) fn trigger(&mut self)
        ensures { HasCall Triggered IsTriggered self.old self.new }
    {
        self.inst.trigger();
        self.calls = self.calls.and(&Done::Triggered, &());
    }

    pub(crate) fn local(&mut self)
        ensures { HasCall ToLocal (λ v w. w ≡ v) self.old self.new }
    {
        self.inst.local();
        self.calls = self.calls.and(&Done::ToLocal, &());
    }

    pub(crate) fn set_status(&mut self, b: u8)
        ensures { HasCall (StatusSet b) (λ v w. w ≡ with_status v b) self.old self.new }
    {
        self.inst.set_status(b);
        self.calls = self.calls.and(&Done::StatusSet(b), &());
    }

    /// Tells it a moment, in milliseconds.
    pub(crate) fn moment(&mut self, now: u64)
        ensures { HasCall (Told now) IsInstTold self.old self.new }
    {
        self.inst.moment(now);
        self.calls = self.calls.and(&Done::Told(now), &());
    }
}

/// Notes that so many of these bytes were taken, with END on the last of all or not.
fn note_takings(calls: &mut Log<Done, ()>, bytes: &[u8], end: bool, taken: usize)
    requires { taken ≤ length bytes.now }
    ensures { calls_of calls.new.items ≡ calls_of calls.old.items ++ takings (take taken (ended Put end bytes.now)) }
{
    let mut noted = 0;
    while noted < taken {
        let last = end && noted + 1 == bytes.len();
        let call = Done::Took {
            b: bytes[noted],
            end: last,
        };
        *calls = calls.and(&call, &());
        noted += 1;
    }
}

/// Notes that so many bytes were given.
fn note_givings(calls: &mut Log<Done, ()>, given: usize)
    ensures { calls_of calls.new.items ≡ calls_of calls.old.items ++ gave given }
{
    for _ in 0..given {
        *calls = calls.and(&Done::Gave, &());
    }
}
