//! A trace so far: the gateway of one thread behind it, and how its next line is taken.
ghost use Rattle.std.specs.Prelude.{◌≡◌, ◌<◌, ◌^◌, ◌==◌, ◌&&◌, not, List, map, IfOk, IfSome, option_map, length, is_some, Some, true};
ghost use Rattle.std.specs.List.{list_any};
ghost use Rattle.vx_calls.specs.declared.codes.ErrorCode.{ErrorCode};
ghost use Rattle.vx_calls.specs.ErrorCode.{same_error};
ghost use Rattle.vx_calls.specs.Call.{call_shown};
ghost use Rattle.vx_calls.specs.Reply.{reply_shown};
ghost use Rattle.vx_488.specs.declared.transfers.Transfer.{Transfer};
ghost use Rattle.vx_codec.specs.Answered.{results_shown};
ghost use Rattle.vx_srq.specs.Shown.{given_shown};
ghost use Rattle.vx_trace.specs.Output.{line_shown};
ghost use Rattle.vx_trace.specs.Output as line;
ghost use Rattle.vx_trace.specs.Text.{is_timed};
ghost use Rattle.vx_rules.specs.SrqState.{Channel};
ghost use Rattle.vx_rules.specs.State.{Pending};
ghost use Rattle.vx_rules.specs.Calls.{proc_of};
ghost use Rattle.vx_rules.specs.AtomicStep.{atomic_step};
ghost use Rattle.vx_model.specs.EntryShown.{entry_shown};
ghost use Rattle.vx_flow.specs.Event as event;
ghost use Rattle.vx_flow.specs.InterleavedState.{moves_of, begun_of, turn_of};
ghost use Rattle.vx_exchange.specs.Doing.{reply_error};
ghost use Rattle.vx_history.specs.Messages.{IsTraceSent, message_shown};
ghost use Rattle.vx_history.specs.Replies.{abort_in, reply_of, results_told, srq_in};
ghost use Rattle.vx_history.specs.Spelling.{IsPuttableOutcome};
ghost use Rattle.vx_history.specs.Stepping.{EndsTake, EndsSaid, EndsStep, IsShortLine, checker_shown, kept_shown, needs_bus, needs_dial, next_shown, timed_shown, turn_behind, turn_shown};
ghost use Rattle.vx_history.specs.CheckState as state;
ghost use Rattle.vx_history.specs.Saying as saying;
ghost use Rattle.vx_history.specs.Taking.{takes};
ghost use Rattle.vx_history.specs.History.{is_over};

use crate::cause::{Cause, Stop};
use crate::kept::{Kept, drop_kept, keep, level_at, tells_level, xid_at};
use crate::message::{Message, keep_null, keep_refusal, meaning_of};
use crate::replies::{abort_in, error_told, reply_of, results_told, srq_in};
use std::alloc::Global;
use vx_488::Transfer;
use vx_calls::{CallRef, ErrorCode, Proc, ReplyRef, Role, Taken};
use vx_codec::Results;
use vx_model::{EntryRef, NoMemory, Plain};
use vx_trace::Line;

/// The TCP port of the abort channel that a gateway tells in a trace.
const ABORT_PORT: u16 = 9011;

/// The turn under way: the connection whose call it is of, and when it began, in milliseconds.
#[derive(Clone, Copy)]
pub(crate) struct Begun {
    pub(crate) conn: u32,
    pub(crate) at: u64,
}

/// What a line asks of the line behind it.
#[derive(Clone, Copy)]
pub(crate) enum Next {
    /// It is the head of the trace.
    Head,
    /// Nothing.
    Free,
    /// The connection ends, by junk.
    Junk { conn: u32 },
    /// The connection's call is answered by the record that is due.
    Due { conn: u32 },
    /// Its device_abort of this link is answered.
    Aborted { conn: u32, xid: u32, lid: u32 },
    /// Its call, of which a dial was made, is answered.
    Dialed { conn: u32, up: bool },
    /// There is none: the trace is at its end.
    Nothing,
}

/// A trace so far.
#[derive(Drop)]
pub(crate) struct Checker {
    pub(crate) alloc: Global,
    pub(crate) plain: Plain,
    pub(crate) turn: Option<Begun>,
    /// The transfers of the turn under way.
    pub(crate) moves: Vec<Transfer>,
    pub(crate) kept: Vec<Kept>,
    /// The greatest moment so far, in milliseconds.
    pub(crate) moment: u64,
    pub(crate) next: Next,
    /// The record that is due, where one is.
    pub(crate) due: Vec<u8>,
}

/// The gateway of one thread takes the entry, or it is the cause.
fn step(plain: &mut Plain, entry: &EntryRef<'_>) -> Result<(), Stop>
    ensures { EndsStep (atomic_step plain.old (entry_shown entry.now)) result plain.new }
{
    match plain.step(entry) {
        Ok(true) => Ok(()),
        Ok(false) => Err(Stop::Spoiled(Cause::Entry)),
        Err(_) => Err(Stop::NoMemory),
    }
}

// ---- the turn under way

/// Whether the turn under way is this connection's.
fn is_turn_of(turn: Option<Begun>, conn: u32) -> bool
    ensures { (moves : List Transfer) → result ≡ is_some (turn_of (turn_shown turn moves) conn) }
{
    match turn {
        Some(begun) => begun.conn == conn,
        None => false,
    }
}

/// When the connection's turn began, in milliseconds; 0 where it has none.
fn begun_of(turn: Option<Begun>, conn: u32) -> u64
    ensures { (moves : List Transfer) → result ≡ begun_of (turn_of (turn_shown turn moves) conn) }
{
    match turn {
        Some(begun) if begun.conn == conn => begun.at,
        _ => 0,
    }
}

/// The transfers of the connection's turn.
fn moves_of(turn: Option<Begun>, moves: &[Transfer], conn: u32) -> &[Transfer]
    ensures { result.now ≡ moves_of (turn_of (turn_shown turn moves.now) conn) }
{
    match turn {
        Some(begun) if begun.conn == conn => moves,
        _ => &[],
    }
}

/// The turn under way behind the end of a connection's call.
fn turn_without(turn: Option<Begun>, conn: u32) -> Option<Begun>
    ensures { (moves : List Transfer) → turn_shown result moves ≡ turn_behind (turn_shown turn moves) conn }
{
    match turn {
        Some(begun) if begun.conn == conn => None,
        _ => turn,
    }
}

// ---- what replies and procedures say

/// Whether a reply tells that the bus failed.
fn is_bus_fault(reply: &ReplyRef<'_>) -> bool
    ensures { result ≡ same_error (reply_error (reply_shown reply.now)) ErrorCode.BusFault }
{
    match *reply {
        ReplyRef::Null => false,
        ReplyRef::CreateLink { error, .. } => error.number() == 17,
        ReplyRef::Write { error, .. } => error.number() == 17,
        ReplyRef::Read { error, .. } => error.number() == 17,
        ReplyRef::Stb { error, .. } => error.number() == 17,
        ReplyRef::Docmd { error, .. } => error.number() == 17,
        ReplyRef::Error { error } => error.number() == 17,
    }
}

fn has_other_than_zero(bytes: &[u8]) -> bool
    ensures { result ≡ list_any (λ b. not (b == 0)) bytes.now }
{
    bytes.iter().any(|b| *b != 0)
}

/// The level that a reply tells: whether one of its bytes isn't 0.
fn level_in(reply: &ReplyRef<'_>) -> bool
    ensures { result ≡ saying.level_in (reply_shown reply.now) }
{
    match *reply {
        ReplyRef::Docmd { bytes, .. } => has_other_than_zero(bytes),
        _ => false,
    }
}

/// Whether the bus failed in an answer of this connection's turn: the reply says so, and the turn has begun.
fn has_failed(reply: &ReplyRef<'_>, turn: Option<Begun>, conn: u32) -> bool
    ensures { (moves : List Transfer) → result ≡ (same_error (reply_error (reply_shown reply.now)) ErrorCode.BusFault && is_some (turn_of (turn_shown turn moves) conn)) }
{
    is_bus_fault(reply) && is_turn_of(turn, conn)
}

/// The level that the answer to the connection's last call tells.
fn level_told(reply: &ReplyRef<'_>, kept: &[Kept], conn: u32) -> bool
    ensures { result ≡ (state.level_at (map kept_shown kept.now) conn && saying.level_in (reply_shown reply.now)) }
{
    level_at(kept, conn) && level_in(reply)
}

/// Whether a call of this procedure needs the bus.
fn is_bus_call(proc: Proc) -> bool
    ensures { result ≡ needs_bus proc }
{
    match proc {
        Proc::Write
        | Proc::Read
        | Proc::ReadStb
        | Proc::Trigger
        | Proc::Clear
        | Proc::Remote
        | Proc::Local
        | Proc::Docmd => true,
        _ => false,
    }
}

/// Whether a call of this procedure asks for a dial.
fn asks_dial(proc: Proc) -> bool
    ensures { result ≡ needs_dial proc }
{
    match proc {
        Proc::CreateIntr => true,
        _ => false,
    }
}

/// Whether an answer of this error to a call that needs the bus is that of a turn: there is none (0), or the turn's time has
/// passed (15).
fn ends_turn(error: u32) -> bool
    ensures { result ≡ saying.ends_turn error }
{
    error == 0 || error == 15
}

impl Checker {
    /// A trace begins.
    pub(crate) fn new(alloc: Global) -> Result<Checker, NoMemory>
        ensures { IfOk result (λ checker. checker_shown checker ≡ state.beginning) }
    {
        Ok(Checker {
            alloc,
            plain: Plain::new(alloc, ABORT_PORT)?,
            turn: None,
            moves: Vec::new(alloc),
            kept: Vec::new(alloc),
            moment: 0,
            next: Next::Head,
            due: Vec::new(alloc),
        })
    }

    /// Whether the trace is at its end.
    pub(crate) fn is_over(&self) -> bool
        ensures { result ≡ is_over (checker_shown self.now).next }
    {
        match self.next {
            Next::Nothing => true,
            _ => false,
        }
    }

    // ---- what is known of a connection

    fn has_call(&self, conn: u32) -> bool
        ensures { result ≡ saying.has_call (checker_shown self.now) conn }
    {
        self.plain.pending(conn).is_some()
    }

    fn has_turn(&self, conn: u32) -> bool
        ensures { result ≡ saying.has_turn (checker_shown self.now) conn }
    {
        is_turn_of(self.turn, conn)
    }

    // ---- what a line says

    /// Nothing happens, and this is asked of the next line.
    fn quiet(&mut self, next: Next) -> Result<(), Stop>
        ensures { EndsSaid self.old (saying.Quiet (next_shown next self.old.due.items)) result self.new }
    {
        self.next = next;
        Ok(())
    }

    /// Nothing happens, and the line may stand here where this holds.
    fn quiet_if(&mut self, holds: bool) -> Result<(), Stop>
        ensures { EndsSaid self.old (saying.quiet_if holds) result self.new }
    {
        if holds {
            self.quiet(Next::Free)
        } else {
            Err(Stop::Spoiled(Cause::Place))
        }
    }

    // ---- events

    /// A connection comes up.
    fn up(&mut self, conn: u32, role: Role) -> Result<(), Stop>
        ensures { EndsSaid self.old (saying.Happens (event.Up conn role)) result self.new }
    {
        step(&mut self.plain, &EntryRef::Up { conn, role })?;
        self.next = Next::Free;
        Ok(())
    }

    /// A connection goes down.
    fn down(&mut self, conn: u32) -> Result<(), Stop>
        ensures { EndsSaid self.old (saying.Happens (event.Down conn)) result self.new }
    {
        let moves = moves_of(self.turn, &self.moves, conn);
        step(&mut self.plain, &EntryRef::Down { conn, moves })?;
        self.turn = turn_without(self.turn, conn);
        drop_kept(&mut self.kept, conn);
        self.next = Next::Free;
        Ok(())
    }

    /// A call comes on a connection.
    fn arrive(&mut self, conn: u32, xid: u32, call: CallRef<'_>) -> Result<(), Stop>
        ensures { EndsSaid self.old (saying.Comes conn xid (call_shown call.entry)) result self.new }
    {
        let kept = Kept {
            conn,
            xid,
            tells_level: tells_level(&call),
        };
        let now = self.moment;
        step(&mut self.plain, &EntryRef::Arrive { conn, call, now })?;
        self.next = Next::Free;
        match keep(&mut self.kept, kept) {
            Ok(()) => Ok(()),
            Err(_) => Err(Stop::NoMemory),
        }
    }

    /// A connection's call is answered so.
    fn answer(&mut self, conn: u32, dialed: Option<bool>, reply: ReplyRef<'_>) -> Result<(), Stop>
        ensures { EndsSaid self.old (saying.Happens (saying.answer_of (checker_shown self.old) conn dialed (reply_shown reply.entry))) result self.new }
    {
        let failed = has_failed(&reply, self.turn, conn);
        let level = level_told(&reply, &self.kept, conn);
        let entry = EntryRef::Answer {
            conn,
            now: self.moment,
            begun: begun_of(self.turn, conn),
            moves: moves_of(self.turn, &self.moves, conn),
            failed,
            dialed,
            level,
            reply,
        };
        match step(&mut self.plain, &entry) {
            Ok(()) => {
                self.turn = turn_without(self.turn, conn);
                self.next = Next::Free;
                Ok(())
            }
            Err(stop) => Err(stop),
        }
    }

    /// A device_abort is answered by this error.
    fn abort(&mut self, conn: u32, lid: u32, reply: ErrorCode) -> Result<(), Stop>
        ensures { EndsSaid self.old (saying.Happens (event.Abort conn lid reply)) result self.new }
    {
        step(&mut self.plain, &EntryRef::Abort { conn, lid, reply })?;
        self.next = Next::Free;
        Ok(())
    }

    /// The SRQ line is looked at.
    fn sample(&mut self, srq: bool) -> Result<(), Stop>
        ensures { EndsSaid self.old (saying.Happens (event.Sample self.old.moment srq)) result self.new }
    {
        let now = self.moment;
        step(&mut self.plain, &EntryRef::Sample { now, srq })?;
        self.next = Next::Free;
        Ok(())
    }

    /// An interrupt is taken from a channel of the connection, or none is there.
    fn take_from(&mut self, conn: u32, chan: u32, taken: Taken) -> Result<(), Stop>
        ensures { EndsSaid self.old (saying.Happens (event.Take conn chan (given_shown taken))) result self.new }
    {
        step(&mut self.plain, &EntryRef::Take { conn, chan, taken })?;
        self.next = Next::Free;
        Ok(())
    }

    /// A connection's turn begins.
    fn begin(&mut self, conn: u32) -> Result<(), Stop>
        ensures { EndsSaid self.old (saying.free_says (checker_shown self.old) (line.Begin conn)) result self.new }
    {
        if !self.has_call(conn) || self.turn.is_some() {
            return Err(Stop::Spoiled(Cause::Place));
        }
        self.turn = Some(Begun {
            conn,
            at: self.moment,
        });
        self.moves.clear();
        self.next = Next::Free;
        Ok(())
    }

    /// It makes these transfers.
    fn bus(&mut self, conn: u32, moves: &[Transfer]) -> Result<(), Stop>
        ensures { EndsSaid self.old (saying.free_says (checker_shown self.old) (line.Bus conn moves.now)) result self.new }
    {
        if !self.has_turn(conn) {
            return Err(Stop::Spoiled(Cause::Place));
        }
        self.next = Next::Free;
        match self.moves.extend_from_slice(moves) {
            Ok(()) => Ok(()),
            Err(_) => Err(Stop::NoMemory),
        }
    }

    // ---- messages

    /// A message comes on a connection.
    fn call(&mut self, conn: u32, bytes: &[u8]) -> Result<(), Stop>
        ensures { EndsSaid self.old (saying.free_says (checker_shown self.old) (line.Call conn bytes.now)) result self.new }
    {
        match self.plain.role(conn) {
            None => Err(Stop::Spoiled(Cause::Place)),
            Some(_) if self.has_call(conn) => Err(Stop::Spoiled(Cause::Place)),
            Some(role) => self.message(conn, meaning_of(bytes, role)),
        }
    }

    /// A message of this meaning comes on a connection.
    fn message(&mut self, conn: u32, message: Message<'_>) -> Result<(), Stop>
        requires { IsTraceSent message }
        ensures { EndsSaid self.old (saying.message_says conn (message_shown message.entry)) result self.new }
    {
        match message {
            Message::Junk => self.quiet(Next::Junk { conn }),
            Message::Refused { xid, refusal } => match keep_refusal(&mut self.due, xid, refusal) {
                Ok(()) => self.quiet(Next::Due { conn }),
                Err(_) => Err(Stop::NoMemory),
            },
            Message::Null { xid } => match keep_null(&mut self.due, xid) {
                Ok(()) => self.quiet(Next::Due { conn }),
                Err(_) => Err(Stop::NoMemory),
            },
            Message::Asks { xid, call } => self.arrive(conn, xid, call),
            Message::Aborts { xid, lid } => self.quiet(Next::Aborted { conn, xid, lid }),
        }
    }

    // ---- answers

    /// A record answers the call that the connection has, with this of a dial.
    fn record(&mut self, conn: u32, dialed: Option<bool>, bytes: &[u8]) -> Result<(), Stop>
        requires { length bytes.now < 2 ^ 31 }
        ensures { EndsSaid self.old (saying.answer_says (checker_shown self.old) conn dialed bytes.now (saying.pending_on (checker_shown self.old) conn)) result self.new }
    {
        match self.plain.pending(conn) {
            Some(proc) => self.out_for(proc, conn, dialed, bytes),
            None => Err(Stop::Spoiled(Cause::Place)),
        }
    }

    /// A record answers a call of this procedure.
    fn out_for(
        &mut self,
        proc: Proc,
        conn: u32,
        dialed: Option<bool>,
        bytes: &[u8],
    ) -> Result<(), Stop>
        requires { length bytes.now < 2 ^ 31 }
        ensures { (p : Pending) → proc_of p.call ≡ proc
            → EndsSaid self.old (saying.answers_with (checker_shown self.old) conn dialed bytes.now p (results_told proc bytes.now)) result self.new }
    {
        match results_told(proc, bytes) {
            Some(told) => self.tell(proc, conn, dialed, bytes, told),
            None => Err(Stop::Spoiled(Cause::Reply)),
        }
    }

    /// These results, told by a record, answer a call of this procedure.
    fn tell(
        &mut self,
        proc: Proc,
        conn: u32,
        dialed: Option<bool>,
        bytes: &[u8],
        told: Results<'_>,
    ) -> Result<(), Stop>
        requires short { length bytes.now < 2 ^ 31 }
        requires puttable { IsPuttableOutcome (results_shown told) }
        ensures { (p : Pending) → proc_of p.call ≡ proc
            → EndsSaid self.old (saying.answers_with (checker_shown self.old) conn dialed bytes.now p (Some (results_shown told.entry))) result self.new }
    {
        if self.lacks_turn(proc, conn, error_told(&told)) {
            Err(Stop::Spoiled(Cause::Place))
        } else {
            self.spell(conn, dialed, bytes, told)
        }
    }

    /// Whether a call of this procedure is answered by this error though its turn hasn't begun.
    fn lacks_turn(&self, proc: Proc, conn: u32, error: u32) -> bool
        ensures { result ≡ (needs_bus proc && saying.ends_turn error && not (saying.has_turn (checker_shown self.now) conn)) }
    {
        is_bus_call(proc) && ends_turn(error) && !self.has_turn(conn)
    }

    /// The record of the reply with these results answers the call.
    fn spell(
        &mut self,
        conn: u32,
        dialed: Option<bool>,
        bytes: &[u8],
        told: Results<'_>,
    ) -> Result<(), Stop>
        requires short { length bytes.now < 2 ^ 31 }
        requires puttable { IsPuttableOutcome (results_shown told) }
        ensures { EndsSaid self.old (saying.answers_by (checker_shown self.old) conn dialed (reply_of (state.xid_at (map kept_shown self.old.kept.items) conn) bytes.now (results_shown told.entry))) result self.new }
    {
        match reply_of(self.alloc, xid_at(&self.kept, conn), bytes, told) {
            Ok(Some(reply)) => self.answer(conn, dialed, reply),
            Ok(None) => Err(Stop::Spoiled(Cause::Reply)),
            Err(_) => Err(Stop::NoMemory),
        }
    }

    /// A record answers a device_abort of this link.
    fn abort_told(&mut self, conn: u32, xid: u32, lid: u32, bytes: &[u8]) -> Result<(), Stop>
        requires { length bytes.now < 2 ^ 31 }
        ensures { EndsSaid self.old (saying.abort_says conn lid (abort_in xid bytes.now)) result self.new }
    {
        match abort_in(self.alloc, xid, bytes) {
            Ok(Some(error)) => self.abort(conn, lid, error),
            Ok(None) => Err(Stop::Spoiled(Cause::Reply)),
            Err(_) => Err(Stop::NoMemory),
        }
    }

    /// A dial was made for the connection's create_intr_chan.
    fn dial(&mut self, conn: u32, up: bool) -> Result<(), Stop>
        ensures { EndsSaid self.old (saying.free_says (checker_shown self.old) (line.DialDone conn up)) result self.new }
    {
        match self.plain.pending(conn) {
            Some(proc) if asks_dial(proc) => self.quiet(Next::Dialed { conn, up }),
            _ => Err(Stop::Spoiled(Cause::Place)),
        }
    }

    /// The record that is due comes.
    fn due(&mut self, bytes: &[u8]) -> Result<(), Stop>
        ensures { EndsSaid self.old (saying.due_says self.old.due.items bytes.now) result self.new }
    {
        if bytes == self.due.as_slice() {
            self.quiet(Next::Free)
        } else {
            Err(Stop::Spoiled(Cause::Reply))
        }
    }

    // ---- interrupts

    /// An interrupt call went out on the connection's channel.
    fn irq(&mut self, conn: u32, bytes: &[u8]) -> Result<(), Stop>
        ensures { EndsSaid self.old (saying.free_says (checker_shown self.old) (line.Irq conn bytes.now)) result self.new }
    {
        match self.plain.channel(conn) {
            Some(chan) => self.irq_from(conn, chan, bytes),
            None => Err(Stop::Spoiled(Cause::Place)),
        }
    }

    /// An interrupt call went out on this channel.
    fn irq_from(&mut self, conn: u32, chan: u32, bytes: &[u8]) -> Result<(), Stop>
        ensures { (c : Channel) → c.number ≡ chan → EndsSaid self.old (saying.front_says conn c (srq_in bytes.now)) result self.new }
    {
        match srq_in(bytes) {
            Some(interrupt) => self.take_from(conn, chan, Taken::Srq(interrupt)),
            None => Err(Stop::Spoiled(Cause::Reply)),
        }
    }

    /// No interrupt waits on the connection's channel.
    fn irq_none(&mut self, conn: u32) -> Result<(), Stop>
        ensures { EndsSaid self.old (saying.free_says (checker_shown self.old) (line.IrqNone conn)) result self.new }
    {
        match self.plain.channel(conn) {
            Some(chan) => self.take_from(conn, chan, Taken::Empty),
            None => Err(Stop::Spoiled(Cause::Place)),
        }
    }

    /// The connection has no interrupt channel.
    fn irq_closed(&mut self, conn: u32) -> Result<(), Stop>
        ensures { EndsSaid self.old (saying.free_says (checker_shown self.old) (line.IrqClosed conn)) result self.new }
    {
        let closed = self.plain.channel(conn).is_none();
        self.quiet_if(closed)
    }

    // ---- lines

    /// The connection's call waits.
    fn waits(&mut self, conn: u32) -> Result<(), Stop>
        ensures { EndsSaid self.old (saying.quiet_if (saying.has_call (checker_shown self.old) conn)) result self.new }
    {
        let has = self.has_call(conn);
        self.quiet_if(has)
    }

    /// A line comes of which nothing is asked.
    fn free(&mut self, line: Line<'_>) -> Result<(), Stop>
        requires { IsShortLine (line_shown line) }
        ensures { EndsSaid self.old (saying.free_says (checker_shown self.old) (line_shown line.entry)) result self.new }
    {
        match line {
            Line::Up { conn, role } => self.up(conn, role),
            Line::Call { conn, bytes } => self.call(conn, bytes),
            Line::Begin { conn } => self.begin(conn),
            Line::Bus { conn, moves } => self.bus(conn, moves),
            Line::DialDone { conn, up } => self.dial(conn, up),
            Line::Out { conn, bytes } => self.record(conn, None, bytes),
            Line::Srq { level } => self.sample(level),
            Line::Irq { conn, bytes } => self.irq(conn, bytes),
            Line::IrqNone { conn } => self.irq_none(conn),
            Line::IrqClosed { conn } => self.irq_closed(conn),
            Line::WaitLock { conn, .. } => self.waits(conn),
            Line::WaitTurn { conn, .. } => self.waits(conn),
            Line::WaitBehind { conn, .. } => self.waits(conn),
            Line::WaitHeld { conn } => self.waits(conn),
            Line::WaitSlice { conn } => self.waits(conn),
            Line::WaitDial { conn } => self.waits(conn),
            Line::GoneDown { conn } => self.down(conn),
            Line::GoneLong { conn } => self.down(conn),
            Line::Done => self.quiet(Next::Nothing),
            _ => Err(Stop::Spoiled(Cause::Place)),
        }
    }

    /// The head of the trace comes.
    fn head(&mut self, line: Line<'_>) -> Result<(), Stop>
        ensures { EndsSaid self.old (saying.head_says (line_shown line.entry)) result self.new }
    {
        match line {
            Line::TraceHead => self.quiet(Next::Free),
            _ => Err(Stop::Spoiled(Cause::Place)),
        }
    }

    /// The connection ends by junk.
    fn junk(&mut self, conn: u32, line: Line<'_>) -> Result<(), Stop>
        ensures { EndsSaid self.old (saying.junk_says conn (line_shown line.entry)) result self.new }
    {
        match line {
            Line::GoneJunk { conn: other } if other == conn => self.down(conn),
            _ => Err(Stop::Spoiled(Cause::Place)),
        }
    }

    /// The record that is due comes on the connection.
    fn reply(&mut self, conn: u32, line: Line<'_>) -> Result<(), Stop>
        ensures { EndsSaid self.old (saying.out_says conn (saying.due_says self.old.due.items) (line_shown line.entry)) result self.new }
    {
        match line {
            Line::Out { conn: other, bytes } if other == conn => self.due(bytes),
            _ => Err(Stop::Spoiled(Cause::Place)),
        }
    }

    /// A record answers the device_abort of this link.
    fn aborted(&mut self, conn: u32, xid: u32, lid: u32, line: Line<'_>) -> Result<(), Stop>
        requires { IsShortLine (line_shown line) }
        ensures { EndsSaid self.old (saying.out_says conn (λ bytes. saying.abort_says conn lid (abort_in xid bytes)) (line_shown line.entry)) result self.new }
    {
        match line {
            Line::Out { conn: other, bytes } if other == conn => {
                self.abort_told(conn, xid, lid, bytes)
            }
            _ => Err(Stop::Spoiled(Cause::Place)),
        }
    }

    /// A record answers the call of which a dial was made.
    fn dialed(&mut self, conn: u32, up: bool, line: Line<'_>) -> Result<(), Stop>
        requires { IsShortLine (line_shown line) }
        ensures { EndsSaid self.old (saying.out_says conn (λ bytes. saying.answer_says (checker_shown self.old) conn (Some up) bytes (saying.pending_on (checker_shown self.old) conn)) (line_shown line.entry)) result self.new }
    {
        match line {
            Line::Out { conn: other, bytes } if other == conn => self.record(conn, Some(up), bytes),
            _ => Err(Stop::Spoiled(Cause::Place)),
        }
    }

    /// A line comes, of which is asked what the line before it asks.
    fn come(&mut self, line: Line<'_>) -> Result<(), Stop>
        requires { IsShortLine (line_shown line) }
        ensures { EndsSaid self.old (saying.says (checker_shown self.old) (checker_shown self.old).next (line_shown line.entry)) result self.new }
    {
        match self.next {
            Next::Head => self.head(line),
            Next::Free => self.free(line),
            Next::Junk { conn } => self.junk(conn, line),
            Next::Due { conn } => self.reply(conn, line),
            Next::Aborted { conn, xid, lid } => self.aborted(conn, xid, lid, line),
            Next::Dialed { conn, up } => self.dialed(conn, up, line),
            Next::Nothing => Err(Stop::Spoiled(Cause::Place)),
        }
    }

    /// A line with a moment comes, in milliseconds.
    fn come_at(&mut self, moment: u64, line: Line<'_>) -> Result<(), Stop>
        requires short { IsShortLine (line_shown line) }
        requires timed { is_timed (line_shown line) ≡ true }
        ensures { EndsTake (takes (checker_shown self.old) (Some (timed_shown (moment, line.entry)))) result (checker_shown self.new) }
    {
        if moment < self.moment {
            return Err(Stop::Spoiled(Cause::Moment));
        }
        self.moment = moment;
        self.come(line)
    }

    /// Takes a line, with its moment in milliseconds.
    fn take_line(&mut self, moment: u64, line: Line<'_>) -> Result<(), Stop>
        requires { IsShortLine (line_shown line) }
        ensures { EndsTake (takes (checker_shown self.old) (Some (timed_shown (moment, line.entry)))) result (checker_shown self.new) }
    {
        if line.is_timed() {
            self.come_at(moment, line)
        } else {
            self.come(line)
        }
    }

    /// Takes the line that a text was read as, with its moment in milliseconds; none where version 2 has no line of this text.
    pub(crate) fn take(&mut self, line: Option<(u64, Line<'_>)>) -> Result<(), Stop>
        requires { IfSome line (λ p. IsShortLine (line_shown p.1)) }
        ensures { EndsTake (takes (checker_shown self.old) (option_map timed_shown line.entry)) result (checker_shown self.new) }
    {
        match line {
            Some((moment, line)) => self.take_line(moment, line),
            None => Err(Stop::Spoiled(Cause::Form)),
        }
    }
}
