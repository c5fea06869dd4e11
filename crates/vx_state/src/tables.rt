//! The tables of a gateway: its connections with their pending calls, its links, locks and interrupt channels. The gateway
//! of one thread and the shared core both stand on them.
ghost use Rattle.std.specs.Prelude.{◌≡◌, ◌↔◌, ◌<◌, ◌≤◌, ◌+◌, ◌++◌, [], ◌∷◌, map, length, vec_capacity, true, false, not, is_some, Some, None, IfOk, OnOk, OnErr, IsSome, IsErrOf, option_and_then};
ghost use Rattle.std.specs.Option.{option_map};
ghost use Rattle.std.specs.List.{All};
ghost use Rattle.vx_calls.specs.Call.{call_shown};
ghost use Rattle.vx_srq.specs.Shown.{given_shown};
ghost use Rattle.vx_rules.specs.SrqState as srq_state;
ghost use Rattle.vx_rules.specs.State as state;
ghost use Rattle.vx_rules.specs.Calls.{proc_of, IsShort};
ghost use Rattle.vx_rules.specs.AtomicStep.{may_wait, arrived, abort_reply, abort_tables};
ghost use Rattle.vx_state.specs.Rows.{pending_of, connection_of};
ghost use Rattle.vx_rules.specs.Sound.{IsSound, has_slot};
ghost use Rattle.vx_rules.specs.Serving.{IsPlainLink};

mod checks;
mod docmd;
mod effects;
mod kept;
mod lines;
mod rows;
mod text;

use effects::drop_links;
pub use kept::may_wait;
use kept::{handle_of, text_of, words_of};
pub use lines::{Admission, Bar, Request, has_passed};
use rows::{
    PendingRow, Row, add_arrival, count_role, drop_arrival, drop_row, end_call, find_row,
    is_same_role, keep_call, mark_calls, procedure_of, put_call,
};
use std::alloc::Global;
use std::marker::Model;
use text::Text;
use vx_calls::{CONNECTION_LAST, CallRef, ErrorCode, Handle, Proc, ROLE_MAX, Role, Taken};
use vx_links::Links;
use vx_locks::Locks;
use vx_srq::Srq;

/// Memory ran out.
#[derive(Clone, Copy, Debug, PartialEq, Eq)]
pub struct NoMemory;

/// Why a connection isn't taken.
#[derive(Clone, Copy, PartialEq, Eq)]
pub enum Connect {
    /// 64 connections of the role live, or number 2^31 - 1 was given out.
    Full,
    NoMemory,
}

/// The tables of a gateway. A contract sees them as the plain lists of a state's tables.
///
/// `new` and `connect` make all room; of the other calls `arrive_any` alone takes memory.
#[derive(Drop)]
pub struct Tables {
    rows: Vec<Row>,
    next: u32,
    arrivals: Vec<u32>,
    links: Links,
    locks: Locks,
    srq: Srq,
    abort_port: u16,
}

impl Model for Tables {
    ghost use Rattle.vx_rules.specs.State as state;

    ghost Value = { state.Tables };

    ghost use Rattle.vx_state.specs.Inside.{tables_of, IsKept};

    ghost view = { tables_of };

    ghost invariant = { IsKept };
}

impl Tables {
    /// Tables with nothing in them, of a gateway whose abort channel is at this TCP port (the port that create_link tells).
    pub fn new(alloc: Global, abort_port: u16) -> Result<Tables, NoMemory>
        ensures { IfOk result (λ tables. tables ≡ state.first_tables abort_port) }
    {
        let Ok(links) = Links::new(alloc) else {
            return Err(NoMemory);
        };
        let Ok(locks) = Locks::new(alloc) else {
            return Err(NoMemory);
        };
        let Ok(srq) = Srq::new(alloc) else {
            return Err(NoMemory);
        };
        let Ok(arrivals) = Vec::with_capacity(alloc, ROLE_MAX) else {
            return Err(NoMemory);
        };
        Ok(Tables {
            rows: Vec::new(alloc),
            next: 1,
            arrivals,
            links,
            locks,
            srq,
            abort_port,
        })
    }

    /// Takes a connection of this role, and gives its number: 1, 2, 3 and so on, none twice. A refusal changes nothing.
    pub fn connect(&mut self, alloc: Global, role: Role) -> Result<u32, Connect>
        ensures ok { OnOk result (self.new ≡ state.with_connection self.old role) }
        ensures number { IfOk result (λ conn. conn ≡ self.old.next_connection) }
        ensures full { IsErrOf result Connect.Full ↔ (state.has_room self.old role ≡ false) }
        ensures err { OnErr result (self.new ≡ self.old) }
    {
        if self.next > CONNECTION_LAST || count_role(&self.rows, role) >= ROLE_MAX {
            return Err(Connect::Full);
        }
        let number = self.next;
        match add_row(&mut self.rows, &mut self.srq, alloc, number, role) {
            Ok(()) => {
                self.next += 1;
                Ok(number)
            }
            Err(_) => Err(Connect::NoMemory),
        }
    }

    /// The role of a connection, where it lives.
    pub fn role(&self, conn: u32) -> Option<Role>
        ensures { result ≡ state.role_at self.now conn }
    {
        match find_row(&self.rows, conn) {
            Some(row) => Some(row.role),
            None => None,
        }
    }

    /// Whether a call of this connection has no answer yet.
    pub fn pending(&self, conn: u32) -> bool
        ensures { result ≡ is_some (state.pending_at self.now conn) }
    {
        match find_row(&self.rows, conn) {
            Some(row) => row.asked.is_some(),
            None => false,
        }
    }

    /// The procedure of the call of a connection that has no answer yet.
    pub fn procedure(&self, conn: u32) -> Option<Proc>
        ensures { result ≡ option_map (λ p. proc_of p.call) (state.pending_at self.now conn) }
    {
        match find_row(&self.rows, conn) {
            Some(row) => procedure_of(row),
            None => None,
        }
    }

    /// Whether a call may come on a connection: it is a live core one without a call. `arrive` is told so.
    pub fn is_idle(&self, conn: u32) -> bool
        ensures { result ≡ state.is_idle self.now conn }
    {
        match find_row(&self.rows, conn) {
            Some(row) => is_same_role(row.role, Role::Core) && row.asked.is_none(),
            None => false,
        }
    }

    /// The number that comes next, up to 2^31, which is never given.
    pub fn next_number(&self) -> u32
        ensures number { result ≡ self.now.next_connection }
        ensures range { result ≤ CONNECTION_LAST + 1 }
    {
        self.next
    }

    /// The connection goes, and with it its call, its links with their locks and enables, and its channel.
    pub fn disconnect(&mut self, conn: u32)
        ensures { self.new ≡ state.without_connection self.old conn }
    {
        drop_links(&mut self.links, &mut self.locks, conn);
        self.srq.gone(conn);
        drop_row(&mut self.rows, conn);
        drop_arrival(&mut self.arrivals, conn);
    }

    /// Keeps a call that came on a connection at this moment, in milliseconds.
    pub fn arrive(&mut self, conn: u32, call: &CallRef<'_>, now: u64)
        requires idle { state.is_idle self.old conn ≡ true }
        requires waits { may_wait (call_shown call.now) ≡ true }
        requires short { IsShort (call_shown call.now) }
        ensures { self.new ≡ state.with_pending self.old conn (Some (arrived (call_shown call.now) now)) }
    {
        let asked = PendingRow {
            call: words_of(call),
            arrival: now,
            aborted: false,
        };
        keep_call(&mut self.rows, conn, asked, text_of(call), handle_of(call));
        add_arrival(&mut self.arrivals, conn);
    }

    /// Keeps a call of any length, as `arrive` does, in room that is made for it where it has more bytes than a record.
    ///
    /// # Errors
    ///
    /// `NoMemory`; then nothing changed.
    pub fn arrive_any(&mut self, conn: u32, call: &CallRef<'_>, now: u64) -> Result<(), NoMemory>
        requires idle { state.is_idle self.old conn ≡ true }
        requires waits { may_wait (call_shown call.now) ≡ true }
        ensures ok { OnOk result (self.new ≡ state.with_pending self.old conn (Some (arrived (call_shown call.now) now))) }
        ensures err { OnErr result (self.new ≡ self.old) }
    {
        let Ok(text) = Text::of(*self.rows.allocator(), text_of(call)) else {
            return Err(NoMemory);
        };
        let asked = PendingRow {
            call: words_of(call),
            arrival: now,
            aborted: false,
        };
        put_call(&mut self.rows, conn, asked, text, handle_of(call));
        add_arrival(&mut self.arrivals, conn);
        Ok(())
    }

    /// The connection's call has its answer.
    pub fn end_call(&mut self, conn: u32)
        ensures { self.new ≡ state.with_pending self.old conn None }
    {
        end_call(&mut self.rows, conn);
        drop_arrival(&mut self.arrivals, conn);
    }

    /// Marks each pending call that names this link, where it lives, and says whether it does: `Ok` or `InvalidLink`
    /// (VXI-11, device_abort).
    pub fn abort(&mut self, lid: u32) -> ErrorCode
        ensures reply { result ≡ abort_reply self.old lid }
        ensures tables { self.new ≡ abort_tables self.old lid }
    {
        if self.links.find(lid).is_some() {
            mark_calls(&mut self.rows, lid);
            ErrorCode::Ok
        } else {
            ErrorCode::InvalidLink
        }
    }

    /// What a device_abort of this link answers: `Ok`, or `InvalidLink` where no link of this number lives. Nothing changes.
    pub fn abort_reply(&self, lid: u32) -> ErrorCode
        ensures { result ≡ abort_reply self.now lid }
    {
        if self.links.find(lid).is_some() {
            ErrorCode::Ok
        } else {
            ErrorCode::InvalidLink
        }
    }

    /// A sample of the SRQ line.
    pub fn sample(&mut self, level: bool)
        ensures { self.new ≡ record self.old { srq_state = srq_state.sampled self.old.srq_state level } }
    {
        self.srq.sample(level);
    }

    /// Takes the front of the outbox of the connection's channel of this number, as the interrupt call to make.
    pub fn take(&mut self, conn: u32, chan: u32) -> Taken
        ensures given { given_shown result ≡ srq_state.given self.old.srq_state conn chan }
        ensures taken { self.new ≡ record self.old { srq_state = srq_state.taken self.old.srq_state conn chan } }
    {
        self.srq.take(conn, chan)
    }

    /// What `take` would give. Nothing changes.
    pub fn given(&self, conn: u32, chan: u32) -> Taken
        ensures { given_shown result ≡ srq_state.given self.now.srq_state conn chan }
    {
        self.srq.given(conn, chan)
    }

    /// The number of the connection's channel, where it has one.
    pub fn channel(&self, conn: u32) -> Option<u32>
        ensures { result ≡ option_map (λ c. c.number) (srq_state.channel_at self.now.srq_state conn) }
    {
        match self.srq.channel(conn) {
            Some(channel) => Some(channel.chan),
            None => None,
        }
    }

    /// The level of SRQ at the last sample; false before the first.
    pub fn level(&self) -> bool
        ensures { result ≡ self.now.srq_state.level }
    {
        self.srq.level()
    }

    /// What holds of all tables: numbers of links rise; no link holds two locks, and no two locks are on conflicting
    /// targets; whoever holds a lock or has an enable lives; enables are in order of their links' numbers; core connections
    /// alone have calls, and at most 64 of them live; the arrivals are exactly the connections with a call, each once. It does
    /// nothing when it runs.
    pub fn sound_law(&self)
        ensures { IsSound self.now }
    {
        let _ = &self.rows;
    }

    /// The addresses of all links are at most 30. It does nothing when it runs.
    pub fn has_plain_links(&self)
        ensures { All IsPlainLink self.now.links.links }
    {
        let _ = &self.rows;
    }

    /// The row of a connection with a pending call.
    fn held(&self, conn: u32) -> &Row
        requires { IsSome (state.pending_at self.now conn) }
        ensures pending { pending_of result.now ≡ state.pending_at self.now conn }
        ensures connection { Some (connection_of result.now) ≡ state.connection_at self.now conn }
        ensures port { has_slot self.now.srq_state conn ≡ true }
    {
        match find_row(&self.rows, conn) {
            Some(row) => row,
            None => unreachable!(),
        }
    }
}

/// A connection more, without a call: its row, and its place among those that may have a channel. Where memory runs out nothing
/// that is shown changes.
fn add_row(
    rows: &mut Vec<Row>,
    srq: &mut Srq,
    alloc: Global,
    number: u32,
    role: Role,
) -> Result<(), NoMemory>
    ensures rows { OnOk result (map connection_of rows.new.items ≡ map connection_of rows.old.items ++ record { number = number; role = role; pending = None } ∷ []) }
    ensures ports { OnOk result (srq.new ≡ state.srq_state_with role number srq.old) }
    ensures kept { OnErr result (rows.new.items ≡ rows.old.items) }
    ensures err { OnErr result (srq.new ≡ srq.old) }
{
    match spare_row(rows, alloc, number, role) {
        Ok(row) => match add_port(srq, number, role) {
            Ok(()) => {
                rows.push_reserved(row);
                Ok(())
            }
            Err(_) => Err(NoMemory),
        },
        Err(_) => Err(NoMemory),
    }
}

/// A row without a call, with room for one, and with a place behind these.
fn spare_row(rows: &mut Vec<Row>, alloc: Global, number: u32, role: Role) -> Result<Row, NoMemory>
    ensures row { IfOk result (λ row. connection_of row ≡ record { number = number; role = role; pending = None }) }
    ensures items { rows.new.items ≡ rows.old.items }
    ensures room { OnOk result (length rows.new.items < vec_capacity rows.new) }
{
    match rows.reserve(1) {
        Ok(()) => new_row(alloc, number, role),
        Err(_) => Err(NoMemory),
    }
}

/// A row without a call, with room for one.
fn new_row(alloc: Global, number: u32, role: Role) -> Result<Row, NoMemory>
    ensures { IfOk result (λ row. connection_of row ≡ record { number = number; role = role; pending = None }) }
{
    match Text::new(alloc) {
        Ok(text) => Ok(Row {
            number,
            role,
            asked: None,
            text,
            handle: kept::no_handle(),
        }),
        Err(_) => Err(NoMemory),
    }
}

/// A core connection may have a channel.
fn add_port(srq: &mut Srq, conn: u32, role: Role) -> Result<(), NoMemory>
    ensures ok { OnOk result (srq.new ≡ state.srq_state_with role conn srq.old) }
    ensures err { OnErr result (srq.new ≡ srq.old) }
{
    match role {
        Role::Core => match srq.add(conn) {
            Ok(()) => Ok(()),
            Err(_) => Err(NoMemory),
        },
        Role::Abort => Ok(()),
    }
}
