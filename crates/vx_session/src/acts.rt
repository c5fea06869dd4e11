//! Acts on a core: what each turn does while it holds the gate.
ghost use Rattle.std.specs.Prelude.{◌≡◌, ◌==◌, ◌≤◌, ◌<◌, ℕ, max, Bool, true, List, [], ◌∷◌, length, IsSome, Some, Result};
ghost use Rattle.std.specs.List.{list_any};
ghost use Rattle.vx_calls.specs.declared.calls.Role.TheVariants as role;
ghost use Rattle.vx_calls.specs.Call.{call_shown};
ghost use Rattle.vx_srq.specs.Shown.{given_shown};
ghost use Rattle.vx_rules.specs.State.{connection_at, pending_at, is_idle, lives_as};
ghost use Rattle.vx_rules.specs.AtomicStep.{may_wait};
ghost use Rattle.vx_rules.specs.Calls.{IsShort};
ghost use Rattle.vx_488.specs.Steps.{Told, Cut};
ghost use Rattle.vx_488.specs.Walks.{Walk};
ghost use Rattle.vx_flow.specs.Event.{Down, Abort, Sample};
ghost use Rattle.vx_flow.specs.InterleavedStep.{interleaved_step};
ghost use Rattle.vx_exchange.specs.declared.record.TheConstants.{REPLY_ROOM};
ghost use Rattle.vx_exchange.specs.Doing.{Polled, Came, Settles, Aborts};
ghost use Rattle.vx_group.specs.Groups.{Group};
ghost use Rattle.vx_group.specs.Laws.{group_after};
ghost use Rattle.vx_session.specs.Acting.{Connects, poll_events, poll_steps, come_events, come_steps, last_ending, connect_events, connect_steps, take_events, take_steps, TakeDid};
ghost use Rattle.vx_session.specs.Parts.{settled_events};

use std::alloc::Global;
use vx_488::Bus;
use vx_calls::{CallRef, Role, Taken};
use vx_core::{Connect, Core, became_law};
use vx_exchange::{Aborted, DialAnswered, PollEnd, abort, again, come, settle};
use vx_gate::Act;

/// A call that comes on a connection, and its first poll.
#[derive(Drop)]
pub(crate) struct Come<'c, 'r> {
    pub conn: u32,
    pub xid: u32,
    pub now: u64,
    pub call: &'c CallRef<'c>,
    pub reply: &'r mut [u8],
}

impl<'c, 'r, B: Bus> Act<Core<B>> for Come<'c, 'r> {
    type Answer = PollEnd;

    ghost asks = { λ act core. (is_idle core.interleaved.state.tables act.conn ≡ true) × (may_wait (call_shown act.call.now) ≡ true)
        × IsShort (call_shown act.call.now) × (REPLY_ROOM ≤ length act.reply.now) };

    ghost does = { λ act core answer act' core'. Came B.Bus core act.conn (call_shown act.call.now) (max core.interleaved.state.moment act.now) act.xid act'.reply.now answer core'
        × (length act'.reply.now ≡ length act.reply.now) × (act'.reply.ghost_name ≡ act.reply.ghost_name) };

    ghost adds = { λ act core answer act' core'. group_after core.interleaved
        (come_events core.interleaved act.conn (call_shown act.call.now) (max core.interleaved.state.moment act.now) (B.means core'.bus).moves (last_ending core'.last))
        (come_steps core.interleaved act.conn (call_shown act.call.now) (max core.interleaved.state.moment act.now) (B.means core'.bus).moves (last_ending core'.last)) core'.interleaved.state.moment };

    fn run(&mut self, kept: &mut Core<B>) -> PollEnd {
        became_law::<B>();
        come(kept, self.conn, self.xid, self.call, self.now, self.reply)
    }
}

/// Another poll of a connection's call.
#[derive(Drop)]
pub(crate) struct Again<'a> {
    pub conn: u32,
    pub xid: u32,
    pub now: u64,
    pub reply: &'a mut [u8],
}

impl<'a, B: Bus> Act<Core<B>> for Again<'a> {
    type Answer = PollEnd;

    ghost asks = { λ act core. IsSome (pending_at core.interleaved.state.tables act.conn) × (REPLY_ROOM ≤ length act.reply.now) };

    ghost does = { λ act core answer act' core'. Polled B.Bus core act.conn (max core.interleaved.state.moment act.now) act.xid act'.reply.now answer core'
        × (length act'.reply.now ≡ length act.reply.now) × (act'.reply.ghost_name ≡ act.reply.ghost_name) };

    ghost adds = { λ act core answer act' core'. group_after core.interleaved
        (poll_events core.interleaved act.conn (max core.interleaved.state.moment act.now) (B.means core'.bus).moves (last_ending core'.last))
        (poll_steps core.interleaved act.conn (max core.interleaved.state.moment act.now) (B.means core'.bus).moves (last_ending core'.last)) core'.interleaved.state.moment };

    fn run(&mut self, kept: &mut Core<B>) -> PollEnd {
        became_law::<B>();
        again(kept, self.conn, self.xid, self.now, self.reply)
    }
}

/// The answer of a call whose dial came up, or failed.
#[derive(Drop)]
pub(crate) struct Settle<'a> {
    pub conn: u32,
    pub xid: u32,
    pub up: bool,
    pub now: u64,
    pub reply: &'a mut [u8],
}

impl<'a, B: Bus> Act<Core<B>> for Settle<'a> {
    type Answer = DialAnswered;

    ghost asks = { λ act core. (list_any (λ n. n == act.conn) core.interleaved.dialed ≡ true) × (REPLY_ROOM ≤ length act.reply.now) };

    ghost does = { λ act core answer act' core'. Settles B.Bus core act.conn (max core.interleaved.state.moment act.now) act.xid act.up act'.reply.now answer core'
        × (length act'.reply.now ≡ length act.reply.now) × (act'.reply.ghost_name ≡ act.reply.ghost_name) };

    ghost adds = { λ act core answer act' core'. group_after core.interleaved
        (settled_events act.conn (max core.interleaved.state.moment act.now) act.up answer.error) (Cut ∷ Told (max core.interleaved.state.moment act.now) ∷ []) core'.interleaved.state.moment };

    fn run(&mut self, kept: &mut Core<B>) -> DialAnswered {
        became_law::<B>();
        settle(kept, self.conn, self.xid, self.up, self.now, self.reply)
    }
}

/// A device_abort of a link.
#[derive(Drop)]
pub(crate) struct AbortLink<'a> {
    pub conn: u32,
    pub xid: u32,
    pub lid: u32,
    pub reply: &'a mut [u8],
}

impl<'a, B: Bus> Act<Core<B>> for AbortLink<'a> {
    type Answer = Aborted;

    ghost asks = { λ act core. (lives_as core.interleaved.state.tables act.conn role.Abort ≡ true) × (REPLY_ROOM ≤ length act.reply.now) };

    ghost does = { λ act core answer act' core'. Aborts B.Bus core act.conn act.lid act.xid act'.reply.now answer core'
        × (length act'.reply.now ≡ length act.reply.now) × (act'.reply.ghost_name ≡ act.reply.ghost_name) };

    ghost adds = { λ act core answer act' core'. group_after core.interleaved (Abort act.conn act.lid answer.error ∷ []) (Cut ∷ []) core'.interleaved.state.moment };

    fn run(&mut self, kept: &mut Core<B>) -> Aborted {
        became_law::<B>();
        abort(kept, self.conn, self.xid, self.lid, self.reply)
    }
}

/// The end of a connection.
#[derive(Drop)]
pub(crate) struct Leave {
    pub conn: u32,
}

impl<B: Bus> Act<Core<B>> for Leave {
    type Answer = ();

    ghost asks = { λ act core. IsSome (connection_at core.interleaved.state.tables act.conn) };

    ghost does = { λ act core answer act' core'. interleaved_step core.interleaved (Down act.conn) ≡ Some core'.interleaved };

    ghost adds = { λ act core answer act' core'. group_after core.interleaved (Down act.conn ∷ []) (Cut ∷ []) core'.interleaved.state.moment };

    fn run(&mut self, kept: &mut Core<B>) {
        became_law::<B>();
        kept.disconnect(self.conn);
    }
}

/// A connection of this role that comes up.
#[derive(Drop)]
pub(crate) struct ConnectAs {
    pub alloc: Global,
    pub role: Role,
}

impl<B: Bus> Act<Core<B>> for ConnectAs {
    type Answer = Result<u32, Connect>;

    ghost asks = { λ act core. Unit {0} };

    ghost does = { λ act core answer act' core'. Connects core act.role answer core' };

    ghost adds = { λ act core answer act' core'. group_after core.interleaved (connect_events act.role answer) (connect_steps answer) core'.interleaved.state.moment };

    fn run(&mut self, kept: &mut Core<B>) -> Result<u32, Connect> {
        became_law::<B>();
        kept.connect(self.alloc, self.role)
    }
}

/// A sample of the SRQ line.
#[derive(Drop)]
pub(crate) struct SampleAt {
    pub now: u64,
}

impl<B: Bus> Act<Core<B>> for SampleAt {
    type Answer = ();

    ghost asks = { λ act core. Unit {0} };

    ghost does = { λ act core answer act' core'. (interleaved_step core.interleaved (Sample (max core.interleaved.state.moment act.now) (B.srq_level core'.bus)) ≡ Some core'.interleaved)
        × Walk B.means B.through core.bus (Cut ∷ Told (max core.interleaved.state.moment act.now) ∷ []) core'.bus };

    ghost adds = { λ act core answer act' core'. group_after core.interleaved (Sample (max core.interleaved.state.moment act.now) (B.srq_level core'.bus) ∷ [])
        (Cut ∷ Told (max core.interleaved.state.moment act.now) ∷ []) core'.interleaved.state.moment };

    fn run(&mut self, kept: &mut Core<B>) {
        became_law::<B>();
        kept.sample(self.now);
    }
}

/// An interrupt that is taken from a channel; from a connection that isn't up none is, and nothing happens.
#[derive(Drop)]
pub(crate) struct TakeFrom {
    pub conn: u32,
    pub chan: u32,
}

impl<B: Bus> Act<Core<B>> for TakeFrom {
    type Answer = Taken;

    ghost asks = { λ act core. Unit {0} };

    ghost does = { λ act core answer act' core'. TakeDid core act.conn act.chan (given_shown answer) core' };

    ghost adds = { λ act core answer act' core'. group_after core.interleaved
        (take_events (connection_at core.interleaved.state.tables act.conn) act.conn act.chan (given_shown answer))
        (take_steps (connection_at core.interleaved.state.tables act.conn)) core'.interleaved.state.moment };

    fn run(&mut self, kept: &mut Core<B>) -> Taken {
        became_law::<B>();
        match kept.role(self.conn) {
            None => Taken::Gone,
            Some(_) => kept.take_interrupt(self.conn, self.chan),
        }
    }
}
