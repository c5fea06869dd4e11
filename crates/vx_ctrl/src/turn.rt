ghost use Rattle.std.specs.Prelude.{◌≡◌, ◌≤◌, ◌<◌, ◌+◌, ◌-◌, ◌^◌, ℕ, true, List, [], ◌++◌, length};
ghost use Rattle.vx_calls.specs.declared.limits.TheConstants.{READ_MAX, WRITE_MAX};
ghost use Rattle.vx_calls.specs.declared.targets.Target.{Target};
ghost use Rattle.vx_488.specs.declared.transfers.TheConstants.{ADDRESS_MAX};
ghost use Rattle.vx_488.specs.declared.transfers.Transfer.{Transfer};
ghost use Rattle.vx_488.specs.declared.wire.Wire.{Wire};
ghost use Rattle.vx_488.specs.Wire.{wire_after};
ghost use Rattle.vx_plan.specs.Transfers.{is_got};
ghost use Rattle.vx_488.specs.declared.asks.TheConstants.{ASK_MAX};
ghost use Rattle.vx_plan.specs.Plan.{Plan, next_slot};
ghost use Rattle.vx_plan.specs.Places.{Reaches, IsReached};
ghost use Rattle.vx_plan.specs.Runs.{IsDataLeft};
ghost use Rattle.vx_plan.specs.declared.tasks.Task.TheVariants.{Write, Read};
ghost use Rattle.vx_plan.specs.Tasks.{plan, IsPlainTask, HasBytes};
ghost use Rattle.vx_plan.specs.Results.{bytes_got, gots, last_of, reason_of};
ghost use Rattle.vx_488.specs.declared.transfers.Transfer.TheVariants.{Got};
ghost use Rattle.vx_488.specs.Bursts.{ended, is_end};
ghost use Rattle.vx_ctrl.specs.Turns.{HasMade, TurnHasRoom, GetsBytes, with_bytes, stored, moved_on, turn_reason, moved_by, reason_by};
ghost use Rattle.vx_ctrl.specs.Asking.{TurnAsks};
ghost use Rattle.vx_ctrl.specs.Runs.{Runs, behind_puts_of, behind_gets_of, behind_slice_of};
ghost use Rattle.vx_ctrl.specs.Goes.{TurnGoes, TurnBegins, HoldsBytes};

use crate::asking::{BusAnswer, ask};
use std::marker::Model;
use vx_488::{Bus, Move, Stop, Transfer, Wire, wire_appends};
use vx_calls::SLICE_MAX;
use vx_plan::{
    Next, Place, Task, data_left, few_transfers, first_place, next_move, place_goes_on, run_goes_on,
};

/// Why a turn stopped for now.
#[derive(Clone, Copy, PartialEq, Eq)]
pub enum Went {
    /// The job is done.
    Finished,
    /// The bus held the next transfer.
    Held,
    /// The bus failed at the next transfer.
    Broken,
    /// It made [`SLICE_MAX`] transfers, and the job isn't done.
    Slice,
}

/// What a part of a turn came to.
#[derive(Clone, Copy)]
enum Advance {
    /// It made so many transfers, at least one, and the turn goes on at once.
    Made(u32),
    /// The turn stops, for this reason.
    Stopped(Went),
}

/// A turn on the bus: a job, how far it has come, and the moment at which it began.
#[derive(Clone, Copy)]
pub struct Turn {
    task: Task,
    place: Place,
    begun: u64,
}

impl Model for Turn {
    ghost use Rattle.vx_ctrl.specs.Turns.{TurnState};

    ghost Value = { TurnState };

    ghost view = { λ t. record { task = t.task; place = t.place; begun = t.begun } };

    ghost inverse = { λ s. record { task = s.task; place = s.place; begun = s.begun } };
}

impl Turn {
    /// A turn that begins now, at this moment in milliseconds, and has made no transfer yet.
    pub fn begin(task: Task, wire: &Wire, now: u64) -> Turn
        requires plain { IsPlainTask task }
        requires own { wire.now.own ≤ ADDRESS_MAX }
        ensures task { result.task ≡ task }
        ensures begun { result.begun ≡ now }
        ensures nothing { (bytes : List ℕ) → HasBytes task bytes
            → HasMade result wire.now bytes [] (plan task bytes wire.now.polling wire.now.own) }
        ensures holds { (room : List ℕ) → HoldsBytes result [] room }
    {
        Turn {
            task,
            place: first_place(wire),
            begun: now,
        }
    }

    /// Goes on until the job is done, the bus holds or fails, or it has made [`SLICE_MAX`] transfers: by one transfer after the
    /// other, and by bursts of data bytes. Behind the last of a slice the bus isn't asked any more.
    ///
    /// `bytes` are those of the job, at most `WRITE_MAX`. The bytes that are got stand in `room` at their places: a read
    /// wants room for as many as it may get, up to `READ_MAX`, a serial poll for one. The bus was cut before.
    pub fn go<B: Bus>(&mut self, bus: &mut B, bytes: &[u8], room: &mut [u8]) -> Went
        requires plain { IsPlainTask self.old.task }
        requires own { self.old.place.own ≤ ADDRESS_MAX }
        requires short { length bytes.now ≤ WRITE_MAX }
        requires room { TurnHasRoom self.old.task (length room.old) }
        requires cut { (B.means bus.old).moves ≡ [] }
        requires asks { (B.means bus.old).asks ≡ 0 }
        requires begun { (w : Wire) × (made : List Transfer) × TurnBegins self.old w bytes.now made (B.means bus.old) }
        // with what it made before it makes one list of its plan
        ensures goes { (w : Wire) (made : List Transfer) → TurnBegins self.old w bytes.now made (B.means bus.old)
            → TurnGoes B.means B.through self.new w bytes.now made (B.means bus.new).moves result bus.old bus.new }
        // and may go on from there
        ensures goes_on { (w : Wire) (made : List Transfer) → TurnBegins self.old w bytes.now made (B.means bus.old)
            → TurnBegins self.new w bytes.now (made ++ (B.means bus.new).moves) (B.means bus.new) }
        ensures task { self.new.task ≡ self.old.task }
        ensures begun { self.new.begun ≡ self.old.begun }
        ensures wire { (B.means bus.new).wire ≡ wire_after (B.means bus.old).wire (B.means bus.new).moves }
        ensures got { room.new ≡ with_bytes self.old.place.moved (bytes_got (B.means bus.new).moves) room.old }
        ensures holds { (w : Wire) (made : List Transfer) → TurnBegins self.old w bytes.now made (B.means bus.old)
            → GetsBytes self.old.task → HoldsBytes self.old made room.old
            → HoldsBytes self.new (made ++ (B.means bus.new).moves) room.new }
    {
        run_goes_on();
        wire_appends();
        let mut left = SLICE_MAX;
        while left > 0 {
            match self.advance(bus, bytes, room, left) {
                Advance::Made(n) => left -= n,
                Advance::Stopped(went) => return went,
            }
        }
        self.behind_slice()
    }

    /// What a turn that made all the transfers of its slice comes to. The bus isn't asked.
    fn behind_slice(&self) -> Went
        requires plain { IsPlainTask self.now.task }
        requires own { self.now.place.own ≤ ADDRESS_MAX }
        requires reached { IsReached self.now.task self.now.place }
        ensures { (bytes : List ℕ) (ts : List Transfer) (left : Plan) → Reaches self.now.task bytes ts left self.now.place
            → result ≡ behind_slice_of (next_slot left) }
    {
        match next_move(&self.task, &self.place) {
            Next::Finished => Went::Finished,
            _ => Went::Slice,
        }
    }

    /// Goes on by a burst of data bytes where they come in a row, and else by one transfer. `most` is how many transfers it may
    /// make at most.
    fn advance<B: Bus>(&mut self, bus: &mut B, bytes: &[u8], room: &mut [u8], most: u32) -> Advance
        requires some { 0 < most }
        requires plain { IsPlainTask self.old.task }
        requires own { self.old.place.own ≤ ADDRESS_MAX }
        requires short { length bytes.now ≤ WRITE_MAX }
        requires room { TurnHasRoom self.old.task (length room.old) }
        requires reached { (ts : List Transfer) × (left : Plan) × Reaches self.old.task bytes.now ts left self.old.place }
        requires asks { (B.means bus.old).asks + most ≤ ASK_MAX }
        ensures { Runs B.means B.through self.old bytes.now room.old self.new room.new most result bus.old bus.new }
    {
        let many = data_left(&self.task, &self.place).min(most) as usize;
        if many == 0 {
            return self.single(bus, bytes, room);
        }
        match self.task {
            Task::Write { end, .. } => self.put_run(bus, bytes, many, end),
            Task::Read { stop, .. } => self.get_run(bus, room, many, stop),
            _ => self.single(bus, bytes, room),
        }
    }

    /// Asks the bus for the next transfer, and makes it a part of what it has made.
    fn single<B: Bus>(&mut self, bus: &mut B, bytes: &[u8], room: &mut [u8]) -> Advance
        requires plain { IsPlainTask self.old.task }
        requires own { self.old.place.own ≤ ADDRESS_MAX }
        requires short { length bytes.now ≤ WRITE_MAX }
        requires room { TurnHasRoom self.old.task (length room.old) }
        requires reached { (ts : List Transfer) × (left : Plan) × Reaches self.old.task bytes.now ts left self.old.place }
        requires asks { (B.means bus.old).asks < ASK_MAX }
        ensures { Runs B.means B.through self.old bytes.now room.old self.new room.new 1 result bus.old bus.new }
    {
        few_transfers();
        place_goes_on();
        match self.ask(bus, bytes) {
            BusAnswer::Moved(t) => {
                self.made(t, room);
                Advance::Made(1)
            }
            BusAnswer::Stopped(went) => Advance::Stopped(went),
        }
    }

    /// Puts so many of a write's next bytes in one burst, with END on the write's last byte or not.
    fn put_run<B: Bus>(&mut self, bus: &mut B, bytes: &[u8], many: usize, end: bool) -> Advance
        requires task { (t : Target) × (len : ℕ) × (self.old.task ≡ Write t len end) }
        requires left { IsDataLeft self.old.task self.old.place (length bytes.now - self.old.place.moved) }
        requires some { 0 < many }
        requires within { self.old.place.moved + many ≤ length bytes.now }
        requires short { length bytes.now ≤ WRITE_MAX }
        requires asks { (B.means bus.old).asks + many ≤ ASK_MAX }
        ensures { (room : List ℕ) → Runs B.means B.through self.old bytes.now room self.new room many result bus.old bus.new }
    {
        let at = self.place.moved as usize;
        let to = at + many;
        let answer = bus.put_many(&bytes[at..to], end && to == bytes.len());
        let moved = answer.moved as u32;
        self.place.moved += moved;
        behind_puts(moved, answer.last)
    }

    /// Gets so many bytes in one burst into the room, at their places, or fewer where the read ends before.
    fn get_run<B: Bus>(
        &mut self,
        bus: &mut B,
        room: &mut [u8],
        many: usize,
        stop: Option<u8>,
    ) -> Advance
        requires task { (t : Target) × (max : ℕ) × (self.old.task ≡ Read t max stop) }
        requires left { (n : ℕ) × IsDataLeft self.old.task self.old.place n × (many ≤ n) }
        requires some { 0 < many }
        requires short { self.old.place.moved + many ≤ READ_MAX }
        requires room { self.old.place.moved + many ≤ length room.old }
        requires asks { (B.means bus.old).asks + many ≤ ASK_MAX }
        ensures { (bytes : List ℕ) → Runs B.means B.through self.old bytes room.old self.new room.new many result bus.old bus.new }
    {
        let at = self.place.moved as usize;
        let answer = bus.get_many(&mut room[at..at + many], stop);
        self.place.last = last_got(self.place.last, &room[at..at + answer.got], answer.stop);
        let got = answer.got as u32;
        self.place.moved += got;
        behind_gets(got, answer.stop)
    }

    /// Asks the bus for what its job wants next.
    fn ask<B: Bus>(&self, bus: &mut B, bytes: &[u8]) -> BusAnswer
        requires plain { IsPlainTask self.now.task }
        requires own { self.now.place.own ≤ ADDRESS_MAX }
        requires reached { (ts : List Transfer) × (left : Plan) × Reaches self.now.task bytes.now ts left self.now.place }
        requires asks { (B.means bus.old).asks < ASK_MAX }
        ensures { (ts : List Transfer) (left : Plan) → Reaches self.now.task bytes.now ts left self.now.place
            → TurnAsks B.means B.through (next_slot left) result bus.old bus.new }
    {
        let next = next_move(&self.task, &self.place);
        ask(bus, next, bytes, self.place.moved)
    }

    /// Makes one transfer a part of what it has made. A byte that was got goes into the room, at its place.
    fn made(&mut self, t: Transfer, room: &mut [u8])
        requires step { self.old.place.step < 2 ^ 8 - 1 }
        requires moved { self.old.place.moved < 2 ^ 32 - 1 }
        requires room { is_got t ≡ true → self.old.place.moved < length room.old }
        ensures turn { self.new ≡ moved_on self.old t }
        ensures stored { room.new ≡ stored self.old.place.moved t room.old }
    {
        let carries_data = match t {
            Transfer::Put { .. } => true,
            Transfer::Got { b, end } => {
                room[self.place.moved as usize] = b;
                self.place.last = Some((b, end));
                true
            }
            Transfer::Cmd(_) => matches!(self.task, Task::Commands { .. }),
            _ => false,
        };
        if carries_data {
            self.place.moved += 1;
        } else {
            self.place.step += 1;
        }
    }

    /// Its job.
    pub fn task(&self) -> Task
        ensures { result ≡ self.now.task }
    {
        self.task
    }

    /// The moment at which the turn began, in milliseconds.
    pub fn begun(&self) -> u64
        ensures { result ≡ self.now.begun }
    {
        self.begun
    }

    /// How many data bytes it has moved.
    pub fn moved(&self) -> u32
        ensures value { result ≡ self.now.place.moved }
        ensures made { (w : Wire) (bytes : List ℕ) (made : List Transfer) (left : Plan) → IsPlainTask self.now.task
            → HasMade self.now w bytes made left → result ≡ moved_by self.now.task made }
    {
        self.place.moved
    }

    /// Why a read's bytes ended (VXI-11, device_read): 1 as many as were asked for, 2 the stop byte, 4 END, or several of
    /// these; 0 for every other job.
    pub fn reason(&self) -> u32
        ensures value { result ≡ turn_reason self.now }
        ensures made { (w : Wire) (bytes : List ℕ) (made : List Transfer) (left : Plan) → IsPlainTask self.now.task
            → HasMade self.now w bytes made left → result ≡ reason_by self.now.task made }
    {
        match self.task {
            Task::Read { max, stop, .. } => read_reason(max, stop, &self.place),
            _ => 0,
        }
    }
}

/// The last byte got behind a burst of these that stopped so, with whether END stood on it; or the one from before.
fn last_got(before: Option<(u8, bool)>, bytes: &[u8], stop: Stop) -> Option<(u8, bool)>
    ensures { result ≡ last_of before (gots (ended Got (is_end stop) bytes.now)) }
{
    match bytes.last() {
        Some(b) => Some((*b, matches!(stop, Stop::End))),
        None => before,
    }
}

/// What a burst of puts came to, of which so many went and the last answer is this.
fn behind_puts(moved: u32, last: Move) -> Advance
    ensures { result ≡ behind_puts_of moved last }
{
    match last {
        Move::Went => Advance::Made(moved),
        Move::Held => Advance::Stopped(Went::Held),
        Move::Failed => Advance::Stopped(Went::Broken),
    }
}

/// What a burst of gets came to, which got so many bytes and stopped for this reason.
fn behind_gets(got: u32, stop: Stop) -> Advance
    ensures { result ≡ behind_gets_of got stop }
{
    match stop {
        Stop::Held => Advance::Stopped(Went::Held),
        Stop::Failed => Advance::Stopped(Went::Broken),
        Stop::Full | Stop::End | Stop::Char => Advance::Made(got),
    }
}

/// Why a read of at most `max` bytes ended at this place.
fn read_reason(max: u32, stop: Option<u8>, place: &Place) -> u32
    ensures { result ≡ reason_of max stop place.now.moved place.now.last }
{
    let full = place.moved == max;
    let stopped = place.last.is_some_and(|(b, _)| Some(b) == stop);
    let ended = place.last.is_some_and(|(_, end)| end);
    u32::from(full) + 2 * u32::from(stopped) + 4 * u32::from(ended)
}
