//! A gateway that serves one link, as its connection 1.

ghost use Rattle.std.specs.Prelude.{◌≡◌, ◌≤◌, ◌<◌, ◌+◌, ◌-◌, ◌^◌, ◌==◌, ◌++◌, ◌⊎◌, List, ℕ, [], length, take, drop, min, true, false, Some, None, is_some, IfOk, IfErr, IfSome, IfNone, IsSome};
ghost use Rattle.std.specs.List.{list_any};
ghost use Rattle.vx_calls.specs.declared.calls.Role.TheVariants as role;
ghost use Rattle.vx_calls.specs.declared.limits.TheConstants.{RECORD_MAX};
ghost use Rattle.vx_rules.specs.State.{connection_at, pending_at, lives_as};
ghost use Rattle.vx_exchange.specs.declared.record.TheConstants.{REPLY_ROOM};
ghost use Rattle.vx_exchange.specs.Meaning.{meaning, Junk};
ghost use Rattle.vx_loop.specs.Gateway.{Gateway, gateway_of};
ghost use Rattle.vx_loop.specs.LoopState.{IsBeginning, IsUnconnected, OnlyComesUp};
ghost use Rattle.vx_loop.specs.Standing.{IsLoopKept, IsReached, IsLoopRefused, IsLoopReady, Went, TakesTo, WaitsTo};
ghost use Rattle.vx_loop.specs.Serving.{lives, reply_len, LoopServes, Continues, IsReplied, IsFit};

use std::alloc::Global;
use std::marker::Model;
use vx_calls::{RECORD_MAX, Role};
use vx_core::Core;
use vx_exchange::{Opened, PollEnd, REPLY_ROOM, again, come, open, settle};
use vx_inst::Instrument;
use vx_record::{Feed, RecordBuf};
use vx_sim::SimBus;

/// The number of the connection.
const CONN: u32 = 1;

/// A gateway with one connection, what has come of the next record, and the reply that is given.
#[derive(Drop)]
pub(crate) struct Serving<I: Instrument> {
    core: Core<SimBus<I>>,
    buffer: RecordBuf,
    xid: u32,
    reply: Vec<u8>,
    from: usize,
    to: usize,
}

impl<I: Instrument> Model for Serving<I> {
    ghost use Rattle.std.specs.Prelude.{◌≡◌, ◌≤◌, length, take, drop};
    ghost use Rattle.vx_exchange.specs.declared.record.TheConstants.{REPLY_ROOM};
    ghost use Rattle.vx_loop.specs.LoopState.{ServedState};

    ghost Value = { ServedState };

    ghost view = { λ s. record {
      core = s.core;
      buffer = s.buffer;
      xid = s.xid;
      left = drop s.from (take s.to s.reply.items);
    } };

    ghost invariant = { λ s. (length s.reply.items ≡ REPLY_ROOM) × (s.from ≤ s.to) × (s.to ≤ REPLY_ROOM) };
}

/// How long the reply is that a poll wrote; 0 where it wrote none.
fn reply_len(end: PollEnd) -> usize
    ensures { result ≡ reply_len end }
{
    match end {
        PollEnd::Replied { len, .. } => len,
        _ => 0,
    }
}

/// Serves a message, and answers how long its reply is, 0 where there is none yet; none where it is no call.
fn answer<I: Instrument>(
    core: &mut Core<SimBus<I>>,
    message: &[u8],
    xid: &mut u32,
    reply: &mut [u8],
) -> Option<usize>
    requires lives { lives_as core.old.interleaved.state.tables 1 role.Core ≡ true }
    requires idle { pending_at core.old.interleaved.state.tables 1 ≡ None }
    requires calm { core.old.interleaved.turn ≡ None }
    requires reached { IsReached core.old.interleaved }
    requires short { length message.now ≤ RECORD_MAX }
    requires room { length reply.old ≡ REPLY_ROOM }
    ensures junk { IfNone result (core.new ≡ core.old) }
    ensures means { IfNone result (meaning message.now role.Core ≡ Junk) }
    ensures served { IfSome result (λ len. LoopServes (gateway_of core.old) (meaning message.now role.Core) xid.new (gateway_of core.new) (take len reply.new)) }
    ensures within { IfSome result (λ len. len ≤ REPLY_ROOM) }
    ensures room { length reply.new ≡ REPLY_ROOM }
{
    match open(message, Role::Core, reply) {
        Opened::Junk => None,
        Opened::Answered { len } => Some(len),
        Opened::Asks { xid: number, call } => {
            *xid = number;
            let now = core.moment();
            Some(reply_len(come(core, CONN, number, &call, now, reply)))
        }
        Opened::Aborts { .. } => unreachable!(),
    }
}

/// Polls the pending call of this xid, and answers how long its reply is, 0 where there is none yet.
fn poll<I: Instrument>(core: &mut Core<SimBus<I>>, xid: u32, now: u64, reply: &mut [u8]) -> usize
    requires fit { IsFit (gateway_of core.old) }
    requires pending { is_some (pending_at core.old.interleaved.state.tables 1) ≡ true }
    requires late { core.old.interleaved.state.moment ≤ now }
    requires room { length reply.old ≡ REPLY_ROOM }
    ensures continues { Continues (gateway_of core.old) xid now (gateway_of core.new) (take result reply.new) }
    ensures within { result ≤ REPLY_ROOM }
    ensures room { length reply.new ≡ REPLY_ROOM }
{
    reply_len(again(core, CONN, xid, now, reply))
}

/// Has the dial fail that the pending call of this xid asked for, and answers how long its reply is.
fn refuse_dial<I: Instrument>(core: &mut Core<SimBus<I>>, xid: u32, reply: &mut [u8]) -> usize
    requires fit { IsFit (gateway_of core.old) }
    requires dialed { list_any (λ n. n == 1) core.old.interleaved.dialed ≡ true }
    requires room { length reply.old ≡ REPLY_ROOM }
    ensures replied { IsReplied (gateway_of core.old) xid core.old.interleaved.state.moment (Some false) (gateway_of core.new) (take result reply.new) }
    ensures within { result ≤ REPLY_ROOM }
    ensures room { length reply.new ≡ REPLY_ROOM }
{
    let now = core.moment();
    settle(core, CONN, xid, false, now, reply).len
}

/// Copies as many bytes as fit to the front of `into`, and answers how many.
fn copy_front(from: &[u8], into: &mut [u8]) -> usize
    ensures count { result ≡ min (length from.now) (length into.old) }
    ensures bytes { take result into.new ≡ take result from.now }
    ensures len { length into.new ≡ length into.old }
{
    let count = from.len().min(into.len());
    into[..count].copy_from_slice(&from[..count]);
    count
}

impl<I: Instrument> Serving<I> {
    /// Has connection 1 come up on a gateway that had none. All memory is taken here; where there is none, the gateway
    /// comes back.
    pub(crate) fn new(alloc: Global, core: Core<SimBus<I>>) -> Result<Serving<I>, Core<SimBus<I>>>
        requires unconnected { IsUnconnected core.interleaved }
        ensures kept { IfOk result IsLoopKept }
        ensures begins { IfOk result IsBeginning }
        ensures up { IfOk result (λ s. OnlyComesUp (gateway_of core) (gateway_of s.core)) }
        ensures refused { IfErr result (λ back. back ≡ core) }
    {
        let mut core = core;
        let Ok(reply) = vec![in alloc; 0; REPLY_ROOM] else {
            return Err(core);
        };
        let Ok(buffer) = RecordBuf::new(alloc, RECORD_MAX) else {
            return Err(core);
        };
        if core.connect(alloc, Role::Core).is_err() {
            return Err(core);
        }
        Ok(Serving {
            core,
            buffer,
            xid: 0,
            reply,
            from: 0,
            to: 0,
        })
    }

    /// Whether connection 1 doesn't live.
    fn is_down(&self) -> bool
        ensures gone { result ≡ true → (lives_as self.now.core.interleaved.state.tables 1 role.Core ≡ false) × (pending_at self.now.core.interleaved.state.tables 1 ≡ None) }
        ensures there { result ≡ false → IsSome (connection_at self.now.core.interleaved.state.tables 1) }
        ensures lives { result ≡ false → pending_at self.now.core.interleaved.state.tables 1 ≡ None → lives_as self.now.core.interleaved.state.tables 1 role.Core ≡ true }
    {
        !self.is_waiting() && !matches!(self.core.role(CONN), Some(Role::Core))
    }

    /// Whether the connection has ended.
    fn is_gone(&self) -> bool
        ensures ended { result ≡ true → IsLoopKept self.now → (more : List ℕ) → TakesTo self.now self.now more }
        ensures gone { result ≡ true → lives (gateway_of self.now.core) ≡ false }
        ensures there { result ≡ false → IsSome (connection_at self.now.core.interleaved.state.tables 1) }
        ensures lives { result ≡ false → pending_at self.now.core.interleaved.state.tables 1 ≡ None → lives_as self.now.core.interleaved.state.tables 1 role.Core ≡ true }
    {
        self.is_down()
    }

    /// Ends the connection, since these bytes come while a call or its reply is under way. What is left of a reply may still be
    /// given.
    fn end_early(&mut self, from: &[u8])
        requires kept { IsLoopKept self.old }
        requires some { 0 < length from.now }
        requires there { IsSome (connection_at self.old.core.interleaved.state.tables 1) }
        requires alive { pending_at self.old.core.interleaved.state.tables 1 ≡ None → lives (gateway_of self.old.core) ≡ true }
        requires busy { is_some (pending_at self.old.core.interleaved.state.tables 1) ≡ true ⊎ 0 < length self.old.left }
        ensures takes { TakesTo self.old self.new from.now }
        ensures ended { lives (gateway_of self.new.core) ≡ false }
    {
        self.core.disconnect(CONN);
        self.buffer.restart();
    }

    /// Whether bytes of a reply are left to give.
    fn has_left(&self) -> bool
        ensures some { result ≡ true → 0 < length self.now.left }
        ensures none { result ≡ false → self.now.left ≡ [] }
    {
        self.from < self.to
    }

    /// Whether a call has no answer yet, or bytes of a reply are left to give.
    fn is_busy(&self) -> bool
        ensures idle { result ≡ false → (pending_at self.now.core.interleaved.state.tables 1 ≡ None) × (self.now.left ≡ []) }
        ensures busy { result ≡ true → is_some (pending_at self.now.core.interleaved.state.tables 1) ≡ true ⊎ 0 < length self.now.left }
    {
        self.is_waiting() || self.has_left()
    }

    /// Takes bytes up to the end of a record, which is served, and answers how many. There are none where they end a
    /// record that is no call, or is too long: the connection has ended then.
    fn take(&mut self, from: &[u8]) -> Option<usize>
        requires some { 0 < length from.now }
        requires kept { IsLoopKept self.old }
        requires lives { lives_as self.old.core.interleaved.state.tables 1 role.Core ≡ true }
        requires idle { (pending_at self.old.core.interleaved.state.tables 1 ≡ None) × (self.old.left ≡ []) }
        ensures took { IfSome result (λ n. (0 < n) × (n ≤ length from.now) × TakesTo self.old self.new (take n from.now)) }
        ensures stays { IfSome result (λ n. IsLoopReady self.old → (IsLoopRefused self.old from.now → ⊥) × (lives (gateway_of self.new.core) ≡ true)) }
        ensures broke { IfNone result (TakesTo self.old self.new []) }
        ensures cause { IfNone result (IsLoopRefused self.old from.now) }
        ensures ended { IfNone result (lives (gateway_of self.new.core) ≡ false) }
    {
        let fed = self.buffer.feed(from);
        match fed.state {
            Feed::More => Some(fed.took),
            Feed::Whole => {
                let message = self.buffer.whole();
                let served = answer(&mut self.core, message, &mut self.xid, &mut self.reply);
                self.buffer.restart();
                self.from = 0;
                match served {
                    Some(len) => {
                        self.to = len;
                        Some(fed.took)
                    }
                    None => {
                        self.to = 0;
                        self.core.disconnect(CONN);
                        None
                    }
                }
            }
            Feed::TooLong => {
                self.core.disconnect(CONN);
                self.buffer.restart();
                None
            }
        }
    }

    /// Takes bytes as `take` does where the connection is idle. It takes all of them where the connection has ended, and where
    /// it ends now, since a call or its reply is under way.
    pub(crate) fn accept(&mut self, from: &[u8]) -> Option<usize>
        requires some { 0 < length from.now }
        requires kept { IsLoopKept self.old }
        ensures took { IfSome result (λ n. (0 < n) × (n ≤ length from.now) × TakesTo self.old self.new (take n from.now)) }
        ensures stays { IfSome result (λ n. IsLoopReady self.old → (IsLoopRefused self.old from.now → ⊥) × (lives (gateway_of self.new.core) ≡ true)) }
        ensures broke { IfNone result (TakesTo self.old self.new []) }
        ensures cause { IfNone result (IsLoopRefused self.old from.now) }
        ensures ended { IfNone result (lives (gateway_of self.new.core) ≡ false) }
        ensures alive { IfNone result (lives (gateway_of self.old.core) ≡ true) }
        ensures early { IfSome result (λ _. (IsLoopReady self.old → ⊥) → lives (gateway_of self.new.core) ≡ false) }
    {
        if self.is_gone() {
            return Some(from.len());
        }
        if self.is_busy() {
            self.end_early(from);
            return Some(from.len());
        }
        self.take(from)
    }

    /// Whether a call has no answer yet.
    fn is_waiting(&self) -> bool
        ensures { result ≡ is_some (pending_at self.now.core.interleaved.state.tables 1) }
    {
        self.core.pending(CONN)
    }

    /// Whether the last poll of the pending call asked for a dial.
    fn is_dialing(&self) -> bool
        ensures { result ≡ list_any (λ n. n == 1) self.now.core.interleaved.dialed }
    {
        self.core.dialing(CONN)
    }

    /// Has the dial fail that the pending call asked for.
    fn refuse(&mut self)
        requires kept { IsLoopKept self.old }
        requires pending { is_some (pending_at self.old.core.interleaved.state.tables 1) ≡ true }
        requires dialed { list_any (λ n. n == 1) self.old.core.interleaved.dialed ≡ true }
        ensures waits { WaitsTo self.old self.new }
        ensures settled { pending_at self.new.core.interleaved.state.tables 1 ≡ None }
    {
        self.from = 0;
        self.to = refuse_dial(&mut self.core, self.xid, &mut self.reply);
    }

    /// Has the pending call polled a millisecond later, where there is a later moment.
    fn poll(&mut self) -> bool
        requires kept { IsLoopKept self.old }
        requires pending { is_some (pending_at self.old.core.interleaved.state.tables 1) ≡ true }
        ensures waits { WaitsTo self.old self.new }
        ensures last { result ≡ false → (2 ^ 64 - 1 ≤ self.new.core.interleaved.state.moment) × (is_some (pending_at self.new.core.interleaved.state.tables 1) ≡ true) }
        ensures later { result ≡ true → (self.old.core.interleaved.state.moment < self.new.core.interleaved.state.moment) × (self.new.core.interleaved.state.moment < 2 ^ 64) }
    {
        let now = self.core.moment();
        if now == u64::MAX {
            return false;
        }
        self.from = 0;
        self.to = poll(&mut self.core, self.xid, now + 1, &mut self.reply);
        true
    }

    /// Has the pending call polled, with a moment one greater each time, until it is answered; a dial that it asks for fails.
    /// It isn't answered, where the last moment comes first.
    pub(crate) fn wait(&mut self) -> bool
        requires kept { IsLoopKept self.old }
        ensures waits { WaitsTo self.old self.new }
        ensures last { result ≡ false → (2 ^ 64 - 1 ≤ self.new.core.interleaved.state.moment) × (is_some (pending_at self.new.core.interleaved.state.tables 1) ≡ true) }
        ensures answered { result ≡ true → pending_at self.new.core.interleaved.state.tables 1 ≡ None }
    {
        while self.is_waiting() {
            if self.is_dialing() {
                self.refuse();
                return true;
            }
            if !self.poll() {
                return false;
            }
        }
        true
    }

    /// Gives the next bytes of the reply, and answers how many.
    pub(crate) fn give(&mut self, into: &mut [u8]) -> usize
        requires some { 0 < length into.old }
        requires kept { IsLoopKept self.old }
        ensures kept { IsLoopKept self.new }
        ensures count { result ≡ min (length self.old.left) (length into.old) }
        ensures same { (self.new.core ≡ self.old.core) × (self.new.left ≡ drop result self.old.left) }
        ensures within { result ≤ length into.new }
        ensures went { (start : Gateway) (taken given : List ℕ) → Went start self.old taken given → Went start self.new taken (given ++ take result into.new) }
    {
        let count = copy_front(&self.reply[self.from..self.to], into);
        self.from += count;
        count
    }
}
