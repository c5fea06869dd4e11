//! The gateway of one thread as a plain, slow program: it keeps a state, and takes the entries that are allowed in it.
ghost use Rattle.std.specs.Prelude.{◌≡◌, ◌<◌, ◌≤◌, List, Some, None, IfOk, OnOk, OnErr, is_some, unwrap_or};
ghost use Rattle.std.specs.Option.{option_map};
ghost use Rattle.vx_calls.specs.Call.{call_shown};
ghost use Rattle.vx_calls.specs.Reply.{reply_shown};
ghost use Rattle.vx_rules.specs.SrqState.{channel_at};
ghost use Rattle.vx_srq.specs.Shown.{given_shown};
ghost use Rattle.vx_488.specs.declared.transfers.TheConstants.{ADDRESS_MAX};
ghost use Rattle.vx_488.specs.Wire.{wire_after};
ghost use Rattle.vx_rules.specs.State as state;
ghost use Rattle.vx_rules.specs.Calls.{proc_of};
ghost use Rattle.vx_rules.specs.Entry as entry;
ghost use Rattle.vx_model.specs.EntryShown.{entry_shown};
ghost use Rattle.vx_rules.specs.AtomicStep.{atomic_step};
ghost use Rattle.vx_model.specs.Stepping.{ModelGoes, closed, IsOrderly};

mod answering;
mod replies;
mod stand;

use crate::entry::EntryRef;
use answering::Told;
use replies::same_taken;
use std::alloc::Global;
use std::marker::Model;
use vx_488::{Transfer, Wire};
use vx_calls::{CallRef, ErrorCode, Proc, Role, Taken};
use vx_state::{Connect, NoMemory, Tables, may_wait};

/// The gateway of one thread. A contract sees it as its `State`: the tables, the bus and the greatest moment handed in so
/// far, in milliseconds.
#[derive(Drop)]
pub struct Plain {
    alloc: Global,
    tables: Tables,
    wire: Wire,
    moment: u64,
}

impl Model for Plain {
    ghost use Rattle.vx_rules.specs.State.{State};

    ghost Value = { State };

    ghost use Rattle.vx_model.specs.PlainInside.{state_of, HasAddress};

    ghost view = { state_of };

    ghost invariant = { HasAddress };
}

impl Plain {
    /// A gateway with nothing in it, whose abort channel is at this TCP port (the port that create_link tells).
    pub fn new(alloc: Global, abort_port: u16) -> Result<Plain, NoMemory>
        ensures { IfOk result (λ plain. plain ≡ state.first abort_port) }
    {
        Ok(Plain {
            alloc,
            tables: Tables::new(alloc, abort_port)?,
            wire: Wire::first(),
            moment: 0,
        })
    }

    /// Takes the entry where it is allowed in this state, and answers whether it is. Where it isn't, nothing changes.
    ///
    /// # Errors
    ///
    /// `NoMemory`; then nothing changed.
    pub fn step(&mut self, entry: &EntryRef<'_>) -> Result<bool, NoMemory>
        ensures yes { IfOk result (λ yes. yes ≡ is_some (atomic_step self.old (entry_shown entry.now))) }
        ensures state { OnOk result (self.new ≡ unwrap_or (atomic_step self.old (entry_shown entry.now)) self.old) }
        ensures err { OnErr result (self.new ≡ self.old) }
    {
        self.go(entry)
    }

    /// The same, by kinds of entries.
    fn go(&mut self, entry: &EntryRef<'_>) -> Result<bool, NoMemory>
        ensures ok { IfOk result (λ yes. ModelGoes (atomic_step self.old (entry_shown entry.now)) self.old yes self.new) }
        ensures err { OnErr result (self.new ≡ self.old) }
    {
        match entry {
            EntryRef::Up { conn, role } => self.up(*conn, *role),
            EntryRef::Down { conn, moves } => Ok(self.down(*conn, *moves)),
            EntryRef::Arrive { conn, call, now } => self.arrive(*conn, call, *now),
            EntryRef::Answer {
                conn,
                now,
                begun,
                moves,
                failed,
                dialed,
                level,
                reply,
            } => {
                let told = Told {
                    begun: *begun,
                    moves: *moves,
                    failed: *failed,
                    dialed: *dialed,
                    level: *level,
                };
                self.answer(*conn, *now, &told, reply)
            }
            EntryRef::Abort { conn, lid, reply } => Ok(self.abort(*conn, *lid, *reply)),
            EntryRef::Sample { now, srq } => Ok(self.sample(*now, *srq)),
            EntryRef::Take { conn, chan, taken } => Ok(self.take(*conn, *chan, taken)),
        }
    }

    /// A connection comes up: the number is the next one, and there is room.
    fn up(&mut self, conn: u32, role: Role) -> Result<bool, NoMemory>
        ensures ok { IfOk result (λ yes. ModelGoes (atomic_step self.old (entry.Up conn role)) self.old yes self.new) }
        ensures err { OnErr result (self.new ≡ self.old) }
    {
        if conn != self.tables.next_number() {
            return Ok(false);
        }
        match self.tables.connect(self.alloc, role) {
            Ok(_) => Ok(true),
            Err(Connect::Full) => Ok(false),
            Err(Connect::NoMemory) => Err(NoMemory),
        }
    }

    /// A connection goes down: it lives, and its call may have made these transfers.
    fn down(&mut self, conn: u32, moves: &[Transfer]) -> bool
        ensures { ModelGoes (atomic_step self.old (entry.Down conn moves.now)) self.old result self.new }
    {
        if self.tables.role(conn).is_none() || !self.may_leave(conn, moves) {
            return false;
        }
        self.tables.disconnect(conn);
        self.transfer(moves);
        true
    }

    /// A call comes: the connection is a live core one without a call.
    fn arrive(&mut self, conn: u32, call: &CallRef<'_>, now: u64) -> Result<bool, NoMemory>
        ensures ok { IfOk result (λ yes. ModelGoes (atomic_step self.old (entry.Arrive conn (call_shown call.now) now)) self.old yes self.new) }
        ensures err { OnErr result (self.new ≡ self.old) }
    {
        if now < self.moment || !self.tables.is_idle(conn) || !may_wait(call) {
            return Ok(false);
        }
        self.tables.arrive_any(conn, call, now)?;
        self.moment = now;
        Ok(true)
    }

    /// A device_abort: the connection is a live abort one, and this is the reply.
    fn abort(&mut self, conn: u32, lid: u32, reply: ErrorCode) -> bool
        ensures { ModelGoes (atomic_step self.old (entry.Abort conn lid reply)) self.old result self.new }
    {
        if self.tables.role(conn) != Some(Role::Abort)
            || self.tables.abort_reply(lid).number() != reply.number()
        {
            return false;
        }
        let _ = self.tables.abort(lid);
        true
    }

    /// A sample of the SRQ line.
    fn sample(&mut self, now: u64, srq: bool) -> bool
        ensures { ModelGoes (atomic_step self.old (entry.Sample now srq)) self.old result self.new }
    {
        if now < self.moment {
            return false;
        }
        self.tables.sample(srq);
        self.moment = now;
        true
    }

    /// A take: the connection lives, and this is what the take gives.
    fn take(&mut self, conn: u32, chan: u32, taken: &Taken) -> bool
        ensures { ModelGoes (atomic_step self.old (entry.Take conn chan (given_shown taken.now))) self.old result self.new }
    {
        if self.tables.role(conn).is_none() || !same_taken(&self.tables.given(conn, chan), taken) {
            return false;
        }
        let _ = self.tables.take(conn, chan);
        true
    }

    /// The bus makes these transfers.
    fn transfer(&mut self, moves: &[Transfer])
        requires { (wire_after self.old.wire moves.now).own ≤ ADDRESS_MAX }
        ensures { self.new ≡ record self.old { wire = wire_after self.old.wire moves.now } }
    {
        self.wire = wire_after(self.wire, moves);
    }

    /// The call of a connection is over at this moment, with these transfers.
    fn close(&mut self, conn: u32, now: u64, moves: &[Transfer])
        requires { (wire_after self.old.wire moves.now).own ≤ ADDRESS_MAX }
        ensures { self.new ≡ closed self.old conn now moves.now self.old.tables }
    {
        self.tables.end_call(conn);
        self.transfer(moves);
        self.moment = now;
    }

    /// The role of a connection; none exactly where it doesn't live.
    pub fn role(&self, conn: u32) -> Option<Role>
        ensures { result ≡ state.role_at self.now.tables conn }
    {
        self.tables.role(conn)
    }

    /// The procedure of the call of a connection that has no answer yet; none exactly where there is none.
    pub fn pending(&self, conn: u32) -> Option<Proc>
        ensures { result ≡ option_map (λ p. proc_of p.call) (state.pending_at self.now.tables conn) }
    {
        self.tables.procedure(conn)
    }

    /// The number of the interrupt channel of a connection; none exactly where it has none.
    pub fn channel(&self, conn: u32) -> Option<u32>
        ensures { result ≡ option_map (λ c. c.number) (channel_at self.now.tables.srq_state conn) }
    {
        self.tables.channel(conn)
    }
}

/// The bus after these transfers.
fn wire_after(before: Wire, moves: &[Transfer]) -> Wire
    ensures { result ≡ wire_after before moves.now }
{
    let mut wire = before;
    for t in moves {
        wire.apply(t);
    }
    wire
}
