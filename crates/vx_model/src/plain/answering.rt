//! The answers to calls, line by line of the order of answers.
ghost use Rattle.std.specs.Prelude.{◌≡◌, ◌≤◌, ℕ, List, [], true, false, ◌&&◌, ◌||◌, ◌==◌, nat_le, Some, None, IsSome, IfSome, IfOk, OnErr, if◌then◌else◌};
ghost use Rattle.std.specs.Option.{option_map};
ghost use Rattle.vx_calls.specs.declared.codes.ErrorCode.TheVariants as code;
ghost use Rattle.vx_calls.specs.Reply.{reply_shown};
ghost use Rattle.vx_calls.specs.Reply as reply;
ghost use Rattle.vx_488.specs.Wire.{wire_after};
ghost use Rattle.vx_plan.specs.declared.tasks.Task.{Task};
ghost use Rattle.vx_plan.specs.Plan as plans;
ghost use Rattle.vx_rules.specs.State.{Pending, pending_at};
ghost use Rattle.vx_rules.specs.Calls as calls;
ghost use Rattle.vx_rules.specs.Decide as decides;
ghost use Rattle.vx_rules.specs.Entry as entry;
ghost use Rattle.vx_rules.specs.Lines as lines;
ghost use Rattle.vx_rules.specs.AtomicStep.{atomic_step, may_leave};
ghost use Rattle.vx_rules.specs.Serving.{IsDoable};
ghost use Rattle.vx_model.specs.Stepping.{ModelGoes, IsOrderly, answer_at, stopped_at, turn_at, stood_at, lines_at, refusal_fits, open_job};
ghost use Rattle.vx_model.specs.StepShown.{outside_shown};

use crate::plain::Plain;
use crate::plain::replies::{Done, bytes_got, is_whole_reply, puts_made, same_reply};
use crate::plain::stand::{Stand, stand_on};
use vx_488::Transfer;
use vx_calls::{ErrorCode, ReplyRef};
use vx_plan::{Task, needs};
use vx_rules::passed_calls;
use vx_state::{Admission, NoMemory, has_passed};

/// What comes to an answer from outside: the moment at which the call's turn began and the transfers that it made, whether
/// the bus failed, how a dial went, and the level that a bus status tells.
#[derive(Clone, Copy)]
pub(crate) struct Told<'a> {
    pub(crate) begun: u64,
    pub(crate) moves: &'a [Transfer],
    pub(crate) failed: bool,
    pub(crate) dialed: Option<bool>,
    pub(crate) level: bool,
}

impl Plain {
    /// The call of a connection is answered so.
    pub(crate) fn answer(
        &mut self,
        conn: u32,
        now: u64,
        o: &Told<'_>,
        reply: &ReplyRef<'_>,
    ) -> Result<bool, NoMemory>
        ensures ok { IfOk result (λ yes. ModelGoes (atomic_step self.old
            (entry.Answer conn now o.now.begun o.now.moves.now o.now.failed o.now.dialed o.now.level (reply_shown reply.now))) self.old yes self.new) }
        ensures err { OnErr result (self.new ≡ self.old) }
    {
        if now < self.moment {
            return Ok(false);
        }
        if !self.tables.pending(conn) {
            return Ok(false);
        }
        let settling = o.dialed.is_some();
        match self.tables.lines(conn, None, self.wire.own, settling, now) {
            Admission::Refused(error) => self.refuse(conn, now, o, error, reply),
            Admission::Waiting(_) => Ok(false),
            Admission::Passed => self.passed(conn, now, o, reply),
        }
    }

    /// The first lines refuse the call.
    fn refuse(
        &mut self,
        conn: u32,
        now: u64,
        o: &Told<'_>,
        error: ErrorCode,
        reply: &ReplyRef<'_>,
    ) -> Result<bool, NoMemory>
        requires pending { IsSome (pending_at self.old.tables conn) }
        requires refused { (p : Pending) → pending_at self.old.tables conn ≡ Some p
            → lines_at self.old conn now (outside_shown o.now) p ≡ lines.Refused error }
        ensures ok { IfOk result (λ yes. (p : Pending) → pending_at self.old.tables conn ≡ Some p
            → ModelGoes (answer_at self.old conn now (outside_shown o.now) (reply_shown reply.now) p) self.old yes self.new) }
        ensures err { OnErr result (self.new ≡ self.old) }
    {
        if !is_quiet(o) {
            return Ok(false);
        }
        if !self.may_refuse(conn, now, o) {
            return Ok(false);
        }
        self.stop(conn, now, o.moves, error, reply)
    }

    /// The call ends with this error.
    fn stop(
        &mut self,
        conn: u32,
        now: u64,
        moves: &[Transfer],
        error: ErrorCode,
        reply: &ReplyRef<'_>,
    ) -> Result<bool, NoMemory>
        requires pending { IsSome (pending_at self.old.tables conn) }
        requires orderly { IsOrderly self.old.wire moves.now }
        ensures ok { IfOk result (λ yes. (p : Pending) → pending_at self.old.tables conn ≡ Some p
            → ModelGoes (stopped_at self.old conn now error moves.now (reply_shown reply.now) p) self.old yes self.new) }
        ensures err { OnErr result (self.new ≡ self.old) }
    {
        let got = bytes_got(self.alloc, moves)?;
        let stopped = self
            .tables
            .stopped(conn, error, puts_made(moves), got.as_slice());
        if !same_reply(&stopped, reply) {
            return Ok(false);
        }
        self.close(conn, now, moves);
        Ok(true)
    }

    /// Nothing keeps the call off.
    fn passed(
        &mut self,
        conn: u32,
        now: u64,
        o: &Told<'_>,
        reply: &ReplyRef<'_>,
    ) -> Result<bool, NoMemory>
        requires pending { IsSome (pending_at self.old.tables conn) }
        requires passed { (p : Pending) → pending_at self.old.tables conn ≡ Some p
            → lines_at self.old conn now (outside_shown o.now) p ≡ lines.Passed }
        ensures ok { IfOk result (λ yes. (p : Pending) → pending_at self.old.tables conn ≡ Some p
            → ModelGoes (answer_at self.old conn now (outside_shown o.now) (reply_shown reply.now) p) self.old yes self.new) }
        ensures err { OnErr result (self.new ≡ self.old) }
    {
        if self.tables.asks_dial(conn) {
            Ok(self.dial(conn, now, o, reply))
        } else if self.tables.is_bus_call(conn) {
            self.bus(conn, now, o, reply)
        } else {
            Ok(self.effect(conn, now, o, reply))
        }
    }

    /// A create_intr_chan is answered once a dial was made.
    fn dial(&mut self, conn: u32, now: u64, o: &Told<'_>, reply: &ReplyRef<'_>) -> bool
        requires pending { IsSome (pending_at self.old.tables conn) }
        requires passed { (p : Pending) → pending_at self.old.tables conn ≡ Some p
            → lines_at self.old conn now (outside_shown o.now) p ≡ lines.Passed }
        requires dials { (p : Pending) → pending_at self.old.tables conn ≡ Some p → calls.asks_dial p.call ≡ true }
        ensures { (p : Pending) → pending_at self.old.tables conn ≡ Some p
            → ModelGoes (answer_at self.old conn now (outside_shown o.now) (reply_shown reply.now) p) self.old result self.new }
    {
        let Some(up) = o.dialed else {
            return false;
        };
        if o.failed
            || o.level
            || !self.is_bare(conn, now, o)
            || !same_reply(&dial_reply(up), reply)
        {
            return false;
        }
        passed_calls();
        let _ = self.tables.settle(conn, up);
        self.close(conn, now, o.moves);
        true
    }

    /// A call that needs no bus and no dial has its effect.
    fn effect(&mut self, conn: u32, now: u64, o: &Told<'_>, reply: &ReplyRef<'_>) -> bool
        requires pending { IsSome (pending_at self.old.tables conn) }
        requires passed { (p : Pending) → pending_at self.old.tables conn ≡ Some p
            → lines_at self.old conn now (outside_shown o.now) p ≡ lines.Passed }
        requires dials { (p : Pending) → pending_at self.old.tables conn ≡ Some p → calls.asks_dial p.call ≡ false }
        requires bus { (p : Pending) → pending_at self.old.tables conn ≡ Some p → calls.is_bus_call p.call ≡ false }
        ensures { (p : Pending) → pending_at self.old.tables conn ≡ Some p
            → ModelGoes (answer_at self.old conn now (outside_shown o.now) (reply_shown reply.now) p) self.old result self.new }
    {
        if !is_quiet(o) {
            return false;
        }
        if !self.is_bare(conn, now, o) {
            return false;
        }
        if !same_reply(&self.tables.effect_reply(conn), reply) {
            return false;
        }
        passed_calls();
        let _ = self.tables.effect(conn, self.wire.own);
        self.close(conn, now, o.moves);
        true
    }

    /// A bus call: its turn, or the refusal where the gateway hasn't the role for its job.
    fn bus(
        &mut self,
        conn: u32,
        now: u64,
        o: &Told<'_>,
        reply: &ReplyRef<'_>,
    ) -> Result<bool, NoMemory>
        requires pending { IsSome (pending_at self.old.tables conn) }
        requires passed { (p : Pending) → pending_at self.old.tables conn ≡ Some p
            → lines_at self.old conn now (outside_shown o.now) p ≡ lines.Passed }
        requires dials { (p : Pending) → pending_at self.old.tables conn ≡ Some p → calls.asks_dial p.call ≡ false }
        requires bus { (p : Pending) → pending_at self.old.tables conn ≡ Some p → calls.is_bus_call p.call ≡ true }
        ensures ok { IfOk result (λ yes. (p : Pending) → pending_at self.old.tables conn ≡ Some p
            → ModelGoes (answer_at self.old conn now (outside_shown o.now) (reply_shown reply.now) p) self.old yes self.new) }
        ensures err { OnErr result (self.new ≡ self.old) }
    {
        let Some(job) = self.job(conn) else {
            return Ok(false);
        };
        if needs(&job, &self.wire) {
            return self.turn(conn, now, o, &job, reply);
        }
        if !is_quiet(o) {
            return Ok(false);
        }
        if !self.is_bare(conn, now, o) {
            return Ok(false);
        }
        self.stop(conn, now, o.moves, ErrorCode::BusFault, reply)
    }

    /// The turn of a job for which the gateway has the role: the job was done, or the turn failed or was held too long.
    fn turn(
        &mut self,
        conn: u32,
        now: u64,
        o: &Told<'_>,
        job: &Task,
        reply: &ReplyRef<'_>,
    ) -> Result<bool, NoMemory>
        requires pending { IsSome (pending_at self.old.tables conn) }
        requires doable { (p : Pending) → pending_at self.old.tables conn ≡ Some p → IsDoable job.now (calls.bytes_of p.call) }
        ensures ok { IfOk result (λ yes. (p : Pending) → pending_at self.old.tables conn ≡ Some p
            → ModelGoes (turn_at self.old conn now (outside_shown o.now) (reply_shown reply.now) p job.now) self.old yes self.new) }
        ensures err { OnErr result (self.new ≡ self.old) }
    {
        if o.dialed.is_some() {
            return Ok(false);
        }
        if !begun_between(self.tables.arrival(conn), now, o.begun) {
            return Ok(false);
        }
        match stand_on(job, &self.wire, self.tables.bytes(conn), o.moves) {
            Stand::Whole => self.whole(conn, now, o, job, reply),
            Stand::Part => self.part(conn, now, o, reply),
            Stand::Off => Ok(false),
        }
    }

    /// The job was done.
    fn whole(
        &mut self,
        conn: u32,
        now: u64,
        o: &Told<'_>,
        job: &Task,
        reply: &ReplyRef<'_>,
    ) -> Result<bool, NoMemory>
        requires pending { IsSome (pending_at self.old.tables conn) }
        requires orderly { IsOrderly self.old.wire o.now.moves.now }
        ensures ok { IfOk result (λ yes. (p : Pending) → pending_at self.old.tables conn ≡ Some p
            → ModelGoes (stood_at self.old conn now (outside_shown o.now) (reply_shown reply.now) p job.now plans.Whole) self.old yes self.new) }
        ensures err { OnErr result (self.new ≡ self.old) }
    {
        if o.failed || !level_fits(job, o.level) {
            return Ok(false);
        }
        let got = bytes_got(self.alloc, o.moves)?;
        let done = Done {
            bytes: self.tables.bytes(conn),
            big: self.tables.is_big(conn),
            wire: &self.wire,
            moves: o.moves,
            got: got.as_slice(),
            level: o.level,
        };
        if !is_whole_reply(job, &done, reply) {
            return Ok(false);
        }
        self.close(conn, now, o.moves);
        Ok(true)
    }

    /// A part of the job was done: the bus failed, or held the turn for longer than its time.
    fn part(
        &mut self,
        conn: u32,
        now: u64,
        o: &Told<'_>,
        reply: &ReplyRef<'_>,
    ) -> Result<bool, NoMemory>
        requires pending { IsSome (pending_at self.old.tables conn) }
        requires orderly { IsOrderly self.old.wire o.now.moves.now }
        ensures ok { IfOk result (λ yes. (p : Pending) (job : Task) → pending_at self.old.tables conn ≡ Some p
            → ModelGoes (stood_at self.old conn now (outside_shown o.now) (reply_shown reply.now) p job plans.Part) self.old yes self.new) }
        ensures err { OnErr result (self.new ≡ self.old) }
    {
        if o.level {
            Ok(false)
        } else if o.failed {
            self.stop(conn, now, o.moves, ErrorCode::BusFault, reply)
        } else if has_passed(self.tables.io_timeout(conn), o.begun, now) {
            self.stop(conn, now, o.moves, ErrorCode::Timeout, reply)
        } else {
            Ok(false)
        }
    }

    /// Whether the beginning and the transfers are such as a refused call can have.
    fn may_refuse(&self, conn: u32, now: u64, o: &Told<'_>) -> bool
        requires { IsSome (pending_at self.now.tables conn) }
        ensures fits { (p : Pending) → pending_at self.now.tables conn ≡ Some p
            → result ≡ refusal_fits self.now.tables self.now.wire conn p now (outside_shown o.now) }
        ensures orderly { result ≡ true → IsOrderly self.now.wire o.now.moves.now }
    {
        if !may_tell(self.tables.arrival(conn), now, o.begun) {
            return false;
        }
        if self.tables.is_aborted(conn) {
            self.may_have_made(conn, o.moves) && self.came_first(conn, now, o.moves)
        } else {
            self.has_none(o.moves)
        }
    }

    /// Whether there is no transfer, or the call waits behind no other at this moment.
    fn came_first(&self, conn: u32, now: u64, moves: &[Transfer]) -> bool
        requires { IsSome (pending_at self.now.tables conn) }
        ensures { (p : Pending) → pending_at self.now.tables conn ≡ Some p
            → result ≡ (decides.is_nothing moves.now || lines.is_first self.now.tables self.now.wire.own conn p now) }
    {
        self.has_none(moves) || self.tables.is_first(conn, self.wire.own, now)
    }

    /// Whether the connection, which goes down, may have made these transfers.
    pub(crate) fn may_leave(&self, conn: u32, moves: &[Transfer]) -> bool
        ensures fits { result ≡ may_leave self.now.tables self.now conn moves.now (pending_at self.now.tables conn) }
        ensures orderly { result ≡ true → IsOrderly self.now.wire moves.now }
    {
        if self.tables.pending(conn) {
            self.may_have_made(conn, moves)
        } else {
            self.has_none(moves)
        }
    }

    /// Whether there is no transfer.
    fn has_none(&self, moves: &[Transfer]) -> bool
        ensures fits { result ≡ decides.is_nothing moves.now }
        ensures orderly { result ≡ true → IsOrderly self.now.wire moves.now }
    {
        let _ = &self.wire;
        moves.len() == 0
    }

    /// Whether a call that is ended from outside may have made these transfers: none, or a part of its job where it was
    /// let pass.
    fn may_have_made(&self, conn: u32, moves: &[Transfer]) -> bool
        requires { IsSome (pending_at self.now.tables conn) }
        ensures fits { (p : Pending) → pending_at self.now.tables conn ≡ Some p
            → result ≡ decides.may_have_made self.now.tables self.now.wire conn p moves.now }
        ensures orderly { result ≡ true → IsOrderly self.now.wire moves.now }
    {
        self.has_none(moves) || self.is_part(conn, moves)
    }

    /// Whether these transfers are a part of the call's job, for which the gateway had the role.
    fn is_part(&self, conn: u32, moves: &[Transfer]) -> bool
        requires { IsSome (pending_at self.now.tables conn) }
        ensures fits { (p : Pending) → pending_at self.now.tables conn ≡ Some p
            → result ≡ decides.is_part_of self.now.wire p.call moves.now (open_job self.now.tables self.now.wire conn p) }
        ensures orderly { result ≡ true → IsOrderly self.now.wire moves.now }
    {
        match self.job(conn) {
            Some(job) => { needs(&job, &self.wire) && self.is_part_of(conn, &job, moves) }
            None => false,
        }
    }

    fn is_part_of(&self, conn: u32, job: &Task, moves: &[Transfer]) -> bool
        requires pending { IsSome (pending_at self.now.tables conn) }
        requires doable { (p : Pending) → pending_at self.now.tables conn ≡ Some p → IsDoable job.now (calls.bytes_of p.call) }
        ensures fits { (p : Pending) → pending_at self.now.tables conn ≡ Some p
            → result ≡ decides.is_part (decides.stand_on self.now.wire p.call job.now moves.now) }
        ensures orderly { result ≡ true → IsOrderly self.now.wire moves.now }
    {
        match stand_on(job, &self.wire, self.tables.bytes(conn), moves) {
            Stand::Part => true,
            _ => false,
        }
    }

    /// The job of the call of a connection, where nothing is against the call.
    fn job(&self, conn: u32) -> Option<Task>
        requires { IsSome (pending_at self.now.tables conn) }
        ensures job { (p : Pending) → pending_at self.now.tables conn ≡ Some p
            → result ≡ open_job self.now.tables self.now.wire conn p }
        ensures doable { (p : Pending) → pending_at self.now.tables conn ≡ Some p
            → IfSome result (λ job. IsDoable job (calls.bytes_of p.call)) }
    {
        if self.tables.lets_pass(conn, self.wire.own) {
            self.tables.job(conn)
        } else {
            None
        }
    }

    /// Whether no transfer is told, and no beginning but that of a turn that may have been.
    fn is_bare(&self, conn: u32, now: u64, o: &Told<'_>) -> bool
        requires { IsSome (pending_at self.now.tables conn) }
        ensures fits { (p : Pending) → pending_at self.now.tables conn ≡ Some p
            → result ≡ (decides.may_tell p now o.now.begun && decides.is_nothing o.now.moves.now) }
        ensures orderly { result ≡ true → IsOrderly self.now.wire o.now.moves.now }
    {
        may_tell(self.tables.arrival(conn), now, o.begun) && self.has_none(o.moves)
    }
}

/// Whether no failure, no dial and no level came from outside.
fn is_quiet(o: &Told<'_>) -> bool
    ensures { result ≡ decides.is_quiet (outside_shown o.now) }
{
    !o.failed && o.dialed.is_none() && !o.level
}

/// Whether a turn began between the arrival of its call and now.
fn begun_between(arrival: u64, now: u64, begun: u64) -> bool
    ensures { result ≡ (nat_le arrival begun && nat_le begun now) }
{
    arrival <= begun && begun <= now
}

/// Whether such a beginning is told, or 0.
fn may_tell(arrival: u64, now: u64, begun: u64) -> bool
    ensures { result ≡ ((begun == 0) || (nat_le arrival begun && nat_le begun now)) }
{
    begun == 0 || begun_between(arrival, now, begun)
}

/// The reply of a create_intr_chan for which a dial was made.
fn dial_reply(up: bool) -> ReplyRef<'static>
    ensures { reply_shown result ≡ (if up then reply.Error code.Ok else reply.Error code.NoChannel) }
{
    let error = if up {
        ErrorCode::Ok
    } else {
        ErrorCode::NoChannel
    };
    ReplyRef::Error { error }
}

/// Whether the level that is told is one that the job tells: bus status of SRQ and of NDAC.
fn level_fits(job: &Task, level: bool) -> bool
    ensures { result ≡ decides.level_fits job.now level }
{
    !level || tells_level(job)
}

fn tells_level(job: &Task) -> bool
    ensures { result ≡ decides.tells_level job.now }
{
    match *job {
        Task::Status { selector } => selector == 2 || selector == 3,
        _ => false,
    }
}
