//! What a poll of a call may do: its turn on the bus begins, goes on or ends, it has its effect, or a dial is asked for.
ghost use Rattle.std.specs.Prelude.{◌≡◌, ◌≤◌, ◌==◌, ◌++◌, [], ◌∷◌, ℕ, Bool, true, false, not, max, length, ◌+◌, Some, None, IsSome, if◌then◌else◌, ◌||◌, option_map};
ghost use Rattle.vx_calls.specs.declared.limits.TheConstants.{READ_MAX};
ghost use Rattle.vx_plan.specs.declared.tasks.TheConstants.{TURN_MAX};
ghost use Rattle.vx_core.specs.declared.running.Running.{Running};
ghost use Rattle.vx_calls.specs.declared.codes.ErrorCode.TheVariants as code;
ghost use Rattle.vx_calls.specs.Reply.{Reply};
ghost use Rattle.vx_plan.specs.declared.tasks.Task.{Task};
ghost use Rattle.vx_plan.specs.Plan.{Whole};
ghost use Rattle.vx_plan.specs.Roles.{has_role};
ghost use Rattle.vx_plan.specs.Results as results;
ghost use Rattle.vx_rules.specs.SrqState.{channel_at, has_number};
ghost use Rattle.vx_calls.specs.Reply as reply;
ghost use Rattle.vx_rules.specs.State.{Pending, Tables, pending_at};
ghost use Rattle.vx_rules.specs.Calls as calls;
ghost use Rattle.vx_rules.specs.Checks.{named_link};
ghost use Rattle.vx_rules.specs.Dials.{dials_to};
ghost use Rattle.vx_rules.specs.Effects as effects;
ghost use Rattle.vx_flow.specs.InterleavedState as flow;
ghost use Rattle.vx_flow.specs.InterleavedState.{turn_of, moves_of};
ghost use Rattle.vx_flow.specs.InterleavedStep as interleaved;
ghost use Rattle.vx_flow.specs.InterleavedStep.{job_of, turn_stand, without_dial};
ghost use Rattle.vx_flow.specs.declared.progress.Ran.TheVariants as ran;
ghost use Rattle.vx_flow.specs.Poll as poll;
ghost use Rattle.vx_flow.specs.Poll.{Answered};
ghost use Rattle.vx_core.specs.Shown.{interleaved_of, own_of, running_of, turn_shown, closed};
ghost use Rattle.vx_core.specs.Ending.{ended_shown, ended_len};
ghost use Rattle.vx_core.specs.Keeping.{Holds, KeepsDials, IsDialed};
ghost use Rattle.vx_core.specs.Polling.{level_told};
ghost use Rattle.vx_core.specs.Turning.{HasPassed, HasTurn, BeginsTurn, WentOn, turn_waited};

use crate::ended::{Ended, Settled, StoredReply};
use crate::kernel::Kernel;
use crate::replies::{finished, level_told, moved_by};
use crate::running::Running;
use vx_488::Bus;
use vx_calls::{ErrorCode, conflicts};
use vx_ctrl::{Turn, Went};
use vx_flow::Ran;
use vx_plan::{few_transfers, needs};
use vx_rules::passed_calls;

impl<B: Bus> Kernel<B> {
    /// The connection whose turn the call waits for: a bus call waits for every other's, and a lock call for one on a
    /// conflicting target.
    pub fn turn_against(&self, conn: u32) -> Option<u32>
        requires pending { IsSome (pending_at self.now.tables conn) }
        requires holds { Holds B.means self.now }
        ensures { (p : Pending) → pending_at self.now.tables conn ≡ Some p → result ≡ turn_waited (interleaved_of B.means self.now) conn p (interleaved_of B.means self.now).turn }
    {
        match self.running {
            Some(running) if running.conn != conn && self.waits_for(conn, running.conn) => {
                Some(running.conn)
            }
            _ => None,
        }
    }

    /// Whether the call of a connection waits for the turn of another one.
    fn waits_for(&self, conn: u32, other: u32) -> bool
        requires pending { IsSome (pending_at self.now.tables conn) }
        requires under { IsSome (pending_at self.now.tables other) }
        requires turn { (u : flow.Turn) × ((interleaved_of B.means self.now).turn ≡ Some u) × (u.connection ≡ other) × (not (other == conn) ≡ true) }
        requires holds { Holds B.means self.now }
        ensures { (p : Pending) (u : flow.Turn) → pending_at self.now.tables conn ≡ Some p → (interleaved_of B.means self.now).turn ≡ Some u
            → result ≡ interleaved.waits_for self.now.tables (interleaved.wire_for (interleaved_of B.means self.now) conn).own conn p u }
    {
        if self.tables.is_bus_call(conn) {
            return true;
        }
        let asked = self.tables.lock_request(conn, self.own_for(conn));
        let held = self.tables.lock_request(other, self.before.own);
        match (asked, held) {
            (Some(asked), Some(held)) => conflicts(&asked.target, &held.target),
            _ => false,
        }
    }

    /// A call that asks for a dial.
    pub fn dial(&mut self, conn: u32) -> Ended
        requires pending { IsSome (pending_at self.old.tables conn) }
        requires holds { Holds B.means self.old }
        requires passed { HasPassed B.means self.old conn }
        requires dials { (p : Pending) → pending_at self.old.tables conn ≡ Some p → calls.asks_dial p.call ≡ true }
        ensures kept { self.new ≡ record self.old { dialed = without_dial self.old.dialed conn ++ conn ∷ [] } }
        ensures shown { (p : Pending) → pending_at self.old.tables conn ≡ Some p
            → ended_shown result self.new.room ≡ poll.Dialed (dials_to p.call).0 (dials_to p.call).1 }
        ensures within { ended_len result ≡ 0 }
        // a channel number is left for it
        ensures dials { KeepsDials self.new.tables self.new.dialed }
    {
        passed_calls();
        self.tables.sound_law();
        let (host, port) = self.tables.dials_to(conn);
        self.dialed.retain(|dialed| *dialed != conn);
        self.dialed.push_reserved(conn);
        Ended::Dialed {
            host,
            port: port as u16,
        }
    }

    /// A call that needs neither the bus nor a dial.
    pub fn effect(&mut self, conn: u32) -> Ended
        requires pending { IsSome (pending_at self.old.tables conn) }
        requires passed { HasPassed B.means self.old conn }
        requires table { (p : Pending) → pending_at self.old.tables conn ≡ Some p → (calls.is_bus_call p.call || calls.asks_dial p.call) ≡ false }
        ensures effect { (p : Pending) → pending_at self.old.tables conn ≡ Some p → (given : Reply) × (after : Tables)
            × (effects.effect self.old.tables (own_of B.means self.old conn) conn (named_link self.old.tables conn p.call) p.call ≡ Some (given, after))
            × (ended_shown result self.new.room ≡ Answered ran.Still false given) × (self.new ≡ closed (record self.old { tables = after }) conn) }
        ensures within { ended_len result ≤ READ_MAX }
    {
        passed_calls();
        let own = self.own_for(conn);
        let given = StoredReply::of(&self.tables.effect(conn, own));
        self.close(conn);
        Ended::Answered {
            ran: Ran::Still,
            level: false,
            given,
        }
    }

    /// Begins the turn of a bus call, where the gateway has the role for it.
    pub fn begin(&mut self, conn: u32) -> bool
        requires free { self.old.running ≡ None }
        requires pending { IsSome (pending_at self.old.tables conn) }
        requires holds { Holds B.means self.old }
        requires passed { HasPassed B.means self.old conn }
        requires bus { (p : Pending) → pending_at self.old.tables conn ≡ Some p → calls.is_bus_call p.call ≡ true }
        ensures role { (p : Pending) → pending_at self.old.tables conn ≡ Some p → (job : Task) × (job_of self.old.tables conn p ≡ Some job) × (result ≡ has_role job (B.means self.old.bus).wire) }
        ensures begun { result ≡ true → BeginsTurn B.means self.old conn self.new }
        ensures none { result ≡ false → self.new ≡ self.old }
    {
        passed_calls();
        let Some(job) = self.tables.job(conn) else {
            unreachable!()
        };
        let wire = self.bus.wire();
        let has_role = needs(&job, &wire);
        if has_role {
            self.before = wire;
            self.made.clear();
            self.running = Some(Running {
                conn,
                turn: Turn::begin(job, &wire, self.moment),
            });
        }
        has_role
    }

    /// Makes the turn's next transfers, until it is whole or the bus holds or fails.
    pub fn move_on(&mut self, conn: u32) -> (Went, Turn)
        requires { HasTurn B.means self.old conn }
        ensures went { (r : Running) → running_of self.old.running conn ≡ Some r → WentOn B.means B.through self.old r result.0 self.new }
        ensures turn { self.new.running ≡ Some (record { conn = conn; turn = result.1 }) }
    {
        let Some(running) = self.running else {
            unreachable!()
        };
        passed_calls();
        few_transfers();
        let mut turn = running.turn;
        let went = turn.go(&mut self.bus, self.tables.bytes(conn), &mut self.room);
        self.running = Some(Running { conn, turn });
        self.keep_moves();
        (went, turn)
    }

    /// The transfers that the bus made are the turn's.
    fn keep_moves(&mut self)
        requires { length self.old.made + length (B.means self.old.bus).moves ≤ TURN_MAX }
        ensures { self.new ≡ record self.old { made = self.old.made ++ (B.means self.old.bus).moves } }
    {
        match self.made.extend_from_slice(self.bus.moves()) {
            Ok(()) => {}
            Err(_) => unreachable!(),
        }
    }

    /// Whether the time of a held turn has passed.
    pub fn is_over(&self, conn: u32, turn: &Turn) -> bool
        requires { IsSome (pending_at self.now.tables conn) }
        ensures { (p : Pending) → pending_at self.now.tables conn ≡ Some p → result ≡ calls.has_passed (calls.io_timeout_of p.call) turn.now.begun self.now.moment }
    {
        u64::from(self.tables.io_timeout(conn)) <= self.moment.saturating_sub(turn.begun())
    }

    /// The turn is whole.
    pub fn finish(&mut self, conn: u32, turn: &Turn) -> Ended
        requires holds { Holds B.means self.old }
        requires turn { self.old.running ≡ Some (record { conn = conn; turn = turn.now }) }
        requires whole { (u : flow.Turn) → (interleaved_of B.means self.old).turn ≡ Some u → turn_stand (interleaved_of B.means self.old) u u.moves ≡ Whole }
        ensures kept { self.new ≡ record (closed self.old conn) { room = self.new.room } }
        ensures reply { (p : Pending) → pending_at self.old.tables conn ≡ Some p → ended_shown result self.new.room ≡ Answered ran.Finished
            (level_told turn.now.task (B.srq_level self.old.bus) (B.ndac_level self.old.bus))
            (results.whole_reply turn.now.task (calls.bytes_of p.call) self.old.before (calls.is_big p.call)
            (level_told turn.now.task (B.srq_level self.old.bus) (B.ndac_level self.old.bus)) self.old.made) }
        ensures within { ended_len result ≤ READ_MAX }
    {
        let level = level_told(turn.task(), &self.bus);
        let is_big = self.tables.is_big(conn);
        let bytes = self.tables.bytes(conn);
        let given = finished(turn, bytes, &self.before, is_big, level, &mut self.room);
        self.close(conn);
        Ended::Answered {
            ran: Ran::Finished,
            level,
            given,
        }
    }

    /// The call ends with an error, and with it its turn, where that was under way.
    pub fn stop(&mut self, conn: u32, ran: Ran, error: ErrorCode) -> Ended
        requires pending { IsSome (pending_at self.old.tables conn) }
        requires holds { Holds B.means self.old }
        ensures kept { self.new ≡ closed self.old conn }
        ensures reply { (p : Pending) → pending_at self.old.tables conn ≡ Some p → ended_shown result self.new.room ≡ Answered ran false
            (effects.stopped_reply p.call error (moves_of (turn_of (turn_shown self.old.running self.old.made) conn))) }
        ensures within { ended_len result ≤ READ_MAX }
    {
        let (puts, got) = match self.own_turn(conn) {
            Some(running) => moved_by(&running.turn),
            None => (0, 0),
        };
        let given = StoredReply::of(&self.tables.stopped(conn, error, puts, &self.room[..got]));
        self.close(conn);
        Ended::Answered {
            ran,
            level: false,
            given,
        }
    }

    /// The dial of the connection's call was made.
    pub fn settle(&mut self, conn: u32, up: bool) -> Settled
        requires holds { Holds B.means self.old }
        requires dialed { IsDialed self.old.tables conn }
        requires left { has_number self.old.tables.srq_state ≡ true }
        ensures settles { (p : Pending) → pending_at self.old.tables conn ≡ Some p → (after : Tables)
            × (effects.settle self.old.tables conn p.call up ≡ Some (reply.Error result.error, after)) × (self.new ≡ closed (record self.old { tables = after }) conn) }
        ensures error { result.error ≡ (if up then code.Ok else code.NoChannel) }
        ensures chan { result.chan ≡ (if up then option_map (λ c. c.number) (channel_at self.new.tables.srq_state conn) else None) }
    {
        self.tables.settle(conn, up);
        let (error, chan) = if up {
            (ErrorCode::Ok, self.tables.channel(conn))
        } else {
            (ErrorCode::NoChannel, None)
        };
        self.close(conn);
        Settled { error, chan }
    }
}
