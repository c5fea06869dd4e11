//! The first lines of the order of answers: an abort, a link that isn't there, the call's own checks, and locks.
ghost use Rattle.std.specs.Prelude.{◌≡◌, ℕ, List, true, Some, None, IsSome, IfSome, length, ◌≤◌, if◌then◌else◌, option_and_then};
ghost use Rattle.std.specs.Option.{option_map};
ghost use Rattle.vx_calls.specs.declared.limits.TheConstants.{WRITE_MAX};
ghost use Rattle.vx_calls.specs.Target.{target};
ghost use Rattle.vx_links.specs.Shown.{link_shown};
ghost use Rattle.vx_rules.specs.State.{Pending, pending_at};
ghost use Rattle.vx_rules.specs.Dials.{dials_to};
ghost use Rattle.vx_rules.specs.Calls as calls;
ghost use Rattle.vx_rules.specs.Checks as checks;
ghost use Rattle.vx_rules.specs.Lines as lines;
ghost use Rattle.vx_rules.specs.Effects.{task_of, task_on};
ghost use Rattle.vx_rules.specs.Docmd as docmd;
ghost use Rattle.vx_state.specs.Held.{kept_call};
ghost use Rattle.vx_rules.specs.Input.{TakesInput, HasInput};
ghost use Rattle.vx_state.specs.Rows.{asked_call, pending_of};
ghost use Rattle.vx_rules.specs.Serving.{IsDoable};
ghost use Rattle.vx_state.specs.Shown.{named_shown, bar_shown, lines_shown, request_shown};
ghost use Rattle.vx_rules.specs.Locks.{holder_of};

use crate::tables::Tables;
use crate::tables::checks::Named;
use crate::tables::docmd::{command_of, command_task};
use crate::tables::kept::Kept;
use crate::tables::rows::{PendingRow, Row, find_row};
use vx_488::ADDRESS_MAX;
use vx_calls::{ErrorCode, Target, conflicts, target_of};
use vx_links::LinkRow;
use vx_plan::Task;

/// An address that no device and no gateway has.
const NOBODY: u8 = ADDRESS_MAX + 1;

/// What keeps a call off its target.
#[derive(Clone, Copy)]
pub enum Bar {
    /// The lock of this other link.
    HeldBy { link: u32 },
    /// The call of this connection, which came first and waits for a lock too, on a conflicting target.
    Behind { conn: u32 },
}

/// The first lines refuse a call, let it wait for what keeps it off, or let it pass.
#[derive(Clone, Copy)]
pub enum Admission {
    Refused(ErrorCode),
    Waiting(Bar),
    Passed,
}

/// What a call is under locks with: a link, 0 for one that isn't made yet, and what it is to.
#[derive(Clone, Copy)]
pub struct Request {
    pub link: u32,
    pub target: Target,
}

impl Tables {
    /// The first lines for the pending call of a connection at this moment, in milliseconds, on a gateway at this own
    /// address, while the turn of this connection is under way, or none. A call that settles a dial counts the channel numbers as
    /// it does.
    pub fn lines(
        &self,
        conn: u32,
        busy: Option<u32>,
        own: u8,
        settling: bool,
        now: u64,
    ) -> Admission
        requires { IsSome (pending_at self.now conn) }
        ensures { (p : Pending) → pending_at self.now conn ≡ Some p → lines_shown result ≡ lines.first_lines_in self.now busy own conn settling p now }
    {
        let row = self.held(conn);
        if asked_of(row).aborted {
            Admission::Refused(ErrorCode::Abort)
        } else {
            self.later_lines(conn, busy, own, settling, now, row)
        }
    }

    /// The lines behind that of the abort, for the pending call of this row.
    fn later_lines(
        &self,
        conn: u32,
        busy: Option<u32>,
        own: u8,
        settling: bool,
        now: u64,
        row: &Row,
    ) -> Admission
        requires { IsSome (pending_of row.now) }
        ensures { (p : Pending) → pending_of row.now ≡ Some p → lines_shown result ≡ lines.later_lines_in self.now busy own conn settling p now }
    {
        let asked = asked_of(row);
        let text = row.text.bytes.as_slice();
        let about = self.named(conn, asked.call);
        match self.check(own, conn, settling, about, asked.call, text) {
            Some(error) => Admission::Refused(error),
            None => {
                let request = lock_request(own, about, asked.call, text);
                lock_lines(asked, now, self.bar_against(conn, busy, now, request))
            }
        }
    }

    /// Whether neither the link, nor a check, nor a lock is against the pending call of a connection. This doesn't depend
    /// on the moment.
    pub fn lets_pass(&self, conn: u32, own: u8) -> bool
        requires { IsSome (pending_at self.now conn) }
        ensures { (p : Pending) → pending_at self.now conn ≡ Some p → result ≡ lines.lets_pass self.now own conn p }
    {
        let row = self.held(conn);
        let asked = asked_of(row);
        self.checks_pass(conn, own, asked, row.text.bytes.as_slice())
    }

    /// Whether the pending call of a connection waits behind no other at this moment, where no turn is under way.
    pub fn is_first(&self, conn: u32, own: u8, now: u64) -> bool
        requires { IsSome (pending_at self.now conn) }
        ensures { (p : Pending) → pending_at self.now conn ≡ Some p → result ≡ lines.is_first self.now own conn p now }
    {
        match self.lock_request(conn, own) {
            Some(request) => self.first_ahead(conn, None, now, &request).is_none(),
            None => true,
        }
    }

    /// What keeps a call of this connection off what it is under locks with: a lock, or else the first call before it.
    fn bar_against(
        &self,
        conn: u32,
        busy: Option<u32>,
        now: u64,
        request: Option<Request>,
    ) -> Option<Bar>
        ensures { option_map bar_shown result ≡ lines.bar_by (option_and_then (λ c. holder_of self.now.locks c.link c.target) (option_map request_shown request))
            (option_and_then (lines.first_ahead self.now busy now conn) (option_map request_shown request)) }
    {
        match request {
            Some(request) => self.bar_to(conn, busy, now, &request),
            None => None,
        }
    }

    fn bar_to(&self, conn: u32, busy: Option<u32>, now: u64, request: &Request) -> Option<Bar>
        ensures { option_map bar_shown result ≡ lines.bar_by (holder_of self.now.locks request.now.link request.now.target)
            (lines.first_ahead self.now busy now conn (request_shown request.now)) }
    {
        match self.locks.blocked(request.link, &request.target) {
            Some(link) => Some(Bar::HeldBy { link }),
            None => match self.first_ahead(conn, busy, now, request) {
                Some(other) => Some(Bar::Behind { conn: other }),
                None => None,
            },
        }
    }

    /// The first connection whose call came before that of this one and stands in line for what conflicts with the request. A
    /// link that holds a lock lets nobody go first.
    fn first_ahead(&self, conn: u32, busy: Option<u32>, now: u64, request: &Request) -> Option<u32>
        ensures { result ≡ lines.first_ahead self.now busy now conn (request_shown request.now) }
    {
        if self.locks.holds(request.link) {
            None
        } else {
            self.first_in_line(conn, busy, now, request.target)
        }
    }

    /// The first of the calls before that of this connection that stands in line for what conflicts with the target.
    fn first_in_line(&self, conn: u32, busy: Option<u32>, now: u64, target: Target) -> Option<u32>
        ensures { result ≡ lines.first_of (lines.ahead self.now busy now conn target) }
    {
        let arrivals = self.arrivals.as_slice();
        for other in arrivals {
            if *other == conn {
                return None;
            }
            if self.is_in_line(*other, busy, now, target) {
                return Some(*other);
            }
        }
        None
    }

    /// Whether the call of a connection stands in line for what conflicts with the target.
    fn is_in_line(&self, conn: u32, busy: Option<u32>, now: u64, target: Target) -> bool
        ensures { result ≡ lines.is_in_line self.now busy now target conn }
    {
        if busy == Some(conn) {
            return false;
        }
        match self.wanted_by(conn, now) {
            Some(wanted) => conflicts(&wanted, &target),
            None => false,
        }
    }

    /// What the call of a connection stands in line for at this moment: the target that it is under locks with, where it may
    /// wait and no device_abort has marked it.
    fn wanted_by(&self, conn: u32, now: u64) -> Option<Target>
        ensures { result ≡ option_and_then (λ p. lines.wanted_by self.now now conn p) (pending_at self.now conn) }
    {
        match find_row(&self.rows, conn) {
            Some(row) => self.wanted_in(conn, now, row),
            None => None,
        }
    }

    /// The same, of the call in the connection's row.
    fn wanted_in(&self, conn: u32, now: u64, row: &Row) -> Option<Target>
        ensures { result ≡ option_and_then (λ p. lines.wanted_by self.now now conn p) (pending_of row.now) }
    {
        match row.asked {
            Some(asked) => self.wanted_now(conn, now, asked, row.text.bytes.as_slice()),
            None => None,
        }
    }

    fn wanted_now(&self, conn: u32, now: u64, asked: PendingRow, text: &[u8]) -> Option<Target>
        ensures { (handle : List ℕ) → result ≡ lines.wanted_by self.now now conn (asked_call asked text.now handle) }
    {
        if !asked.aborted && waits_at(asked, now) {
            let about = self.named(conn, asked.call);
            target_in(lock_request(NOBODY, about, asked.call, text))
        } else {
            None
        }
    }

    fn checks_pass(&self, conn: u32, own: u8, asked: PendingRow, text: &[u8]) -> bool
        ensures { (handle : List ℕ) → result ≡ lines.lets_pass self.now own conn (asked_call asked text.now handle) }
    {
        let about = self.named(conn, asked.call);
        match self.check(own, conn, false, about, asked.call, text) {
            Some(_) => false,
            None => match self.holder_against(own, about, asked.call, text) {
                Some(_) => false,
                None => true,
            },
        }
    }

    /// The first holder of a lock that keeps a call off its target.
    fn holder_against(&self, own: u8, about: Named, call: Kept, text: &[u8]) -> Option<u32>
        ensures { (handle : List ℕ) → result ≡ lines.holder_against self.now own (named_shown about) (kept_call call text.now handle) }
    {
        match lock_request(own, about, call, text) {
            Some(request) => self.locks.blocked(request.link, &request.target),
            None => None,
        }
    }

    /// What the pending call of a connection is under locks with.
    pub fn lock_request(&self, conn: u32, own: u8) -> Option<Request>
        requires { IsSome (pending_at self.now conn) }
        ensures { (p : Pending) → pending_at self.now conn ≡ Some p
            → option_map request_shown result ≡ lines.lock_request own (checks.named_link self.now conn p.call) p.call }
    {
        let row = self.held(conn);
        let asked = asked_of(row);
        let about = self.named(conn, asked.call);
        lock_request(own, about, asked.call, row.text.bytes.as_slice())
    }

    /// The job of the pending call of a connection, where it is a bus call on a live link. The call's link and its own
    /// checks are not against it.
    pub fn job(&self, conn: u32) -> Option<Task>
        requires pending { IsSome (pending_at self.now conn) }
        requires passes { (p : Pending) → pending_at self.now conn ≡ Some p → (own : ℕ) × (lines.lets_pass self.now own conn p ≡ true) }
        ensures job { (p : Pending) → pending_at self.now conn ≡ Some p → result ≡ task_of (checks.named_link self.now conn p.call) p.call }
        ensures doable { (p : Pending) → pending_at self.now conn ≡ Some p → IfSome result (λ task. IsDoable task (calls.bytes_of p.call)) }
    {
        let _ = &self.rows;
        let row = self.held(conn);
        let asked = asked_of(row);
        match self.named(conn, asked.call) {
            Named::On(link) => task_on(link, asked.call, row.text.bytes.as_slice()),
            _ => None,
        }
    }

    /// The bytes that the pending call of a connection brings for the bus.
    pub fn bytes(&self, conn: u32) -> &[u8]
        requires { IsSome (pending_at self.now conn) }
        ensures { (p : Pending) → pending_at self.now conn ≡ Some p → result.now ≡ calls.bytes_of p.call }
    {
        let row = self.held(conn);
        let asked = asked_of(row);
        bytes_of(asked.call, row.text.bytes.as_slice())
    }

    /// How long the turn of the pending call may be held, in milliseconds from its beginning.
    pub fn io_timeout(&self, conn: u32) -> u32
        requires { IsSome (pending_at self.now conn) }
        ensures { (p : Pending) → pending_at self.now conn ≡ Some p → result ≡ calls.io_timeout_of p.call }
    {
        let row = self.held(conn);
        let asked = asked_of(row);
        asked.call.io_timeout()
    }

    /// Whether the numbers in the pending call's data have their high byte first.
    pub fn is_big(&self, conn: u32) -> bool
        requires { IsSome (pending_at self.now conn) }
        ensures { (p : Pending) → pending_at self.now conn ≡ Some p → result ≡ calls.is_big p.call }
    {
        let row = self.held(conn);
        let asked = asked_of(row);
        asked.call.is_big()
    }

    /// Whether the pending call of a connection needs the bus.
    pub fn is_bus_call(&self, conn: u32) -> bool
        requires { IsSome (pending_at self.now conn) }
        ensures { (p : Pending) → pending_at self.now conn ≡ Some p → result ≡ calls.is_bus_call p.call }
    {
        let row = self.held(conn);
        let asked = asked_of(row);
        asked.call.needs_bus()
    }

    /// Whether the pending call of a connection needs a dial.
    pub fn asks_dial(&self, conn: u32) -> bool
        requires { IsSome (pending_at self.now conn) }
        ensures { (p : Pending) → pending_at self.now conn ≡ Some p → result ≡ calls.asks_dial p.call }
    {
        let row = self.held(conn);
        let asked = asked_of(row);
        asked.call.needs_dial()
    }

    /// The IPv4 address and the TCP port that the pending create_intr_chan of a connection names.
    pub fn dials_to(&self, conn: u32) -> (u32, u32)
        requires { IsSome (pending_at self.now conn) }
        ensures { (p : Pending) → pending_at self.now conn ≡ Some p → result ≡ dials_to p.call }
    {
        let row = self.held(conn);
        let asked = asked_of(row);
        asked.call.dials_to()
    }

    /// The moment at which the pending call of a connection came, in milliseconds.
    pub fn arrival(&self, conn: u32) -> u64
        requires { IsSome (pending_at self.now conn) }
        ensures { (p : Pending) → pending_at self.now conn ≡ Some p → result ≡ p.arrival }
    {
        let row = self.held(conn);
        let asked = asked_of(row);
        asked.arrival
    }

    /// Whether a device_abort has marked the pending call of a connection.
    pub fn is_aborted(&self, conn: u32) -> bool
        requires { IsSome (pending_at self.now conn) }
        ensures { (p : Pending) → pending_at self.now conn ≡ Some p → result ≡ p.aborted }
    {
        let row = self.held(conn);
        let asked = asked_of(row);
        asked.aborted
    }
}

/// The pending call of a row, as words.
pub(crate) fn asked_of(row: &Row) -> PendingRow
    requires { IsSome (pending_of row.now) }
    ensures { row.now.asked ≡ Some result }
{
    match row.asked {
        Some(asked) => asked,
        None => unreachable!(),
    }
}

/// The bytes that a call brings for the bus, of the bytes that it came with.
fn bytes_of(call: Kept, text: &[u8]) -> &[u8]
    ensures { (handle : List ℕ) → result.now ≡ calls.bytes_of (kept_call call text.entry.now handle) }
{
    match call {
        Kept::Write { .. } | Kept::Docmd { .. } => text,
        _ => &[],
    }
}

/// A call that is kept off waits, or is refused.
fn lock_lines(asked: PendingRow, now: u64, bar: Option<Bar>) -> Admission
    ensures { (text handle : List ℕ) → lines_shown result ≡ lines.lock_lines (asked_call asked text handle) now (option_map bar_shown bar) }
{
    match bar {
        None => Admission::Passed,
        Some(bar) => {
            if waits_at(asked, now) {
                Admission::Waiting(bar)
            } else {
                Admission::Refused(ErrorCode::Locked)
            }
        }
    }
}

/// Whether a call may wait at this moment: a wait is asked for, and its time hasn't passed.
fn waits_at(asked: PendingRow, now: u64) -> bool
    ensures { (text handle : List ℕ) → result ≡ lines.waits_at (asked_call asked text handle) now }
{
    asked.call.waits() && !has_passed(asked.call.lock_timeout(), asked.arrival, now)
}

fn target_in(request: Option<Request>) -> Option<Target>
    ensures { result ≡ option_map (λ c. c.target) request }
{
    match request {
        Some(request) => Some(request.target),
        None => None,
    }
}

/// Whether so many milliseconds have passed from one moment to another, both in milliseconds.
pub fn has_passed(span: u32, since: u64, now: u64) -> bool
    ensures { result ≡ calls.has_passed span since now }
{
    u64::from(span) <= now.saturating_sub(since)
}

/// What a call is under locks with: bus calls and lock calls are, on the target of their link.
fn lock_request(own: u8, about: Named, call: Kept, text: &[u8]) -> Option<Request>
    ensures { (handle : List ℕ) → option_map request_shown result ≡ lines.lock_request own (named_shown about) (kept_call call text.now handle) }
{
    match about {
        Named::On(link) => request_on(link, call.needs_bus() || call.takes_lock()),
        Named::Nothing => created_request(own, call, text),
        Named::Dead => None,
    }
}

fn request_on(link: LinkRow, is_under: bool) -> Option<Request>
    ensures { option_map request_shown result ≡ (if is_under then Some (record { link = link.lid; target = link.target }) else None) }
{
    if is_under {
        Some(Request {
            link: link.lid,
            target: link.target,
        })
    } else {
        None
    }
}

/// A link that is made with a lock is under locks too.
fn created_request(own: u8, call: Kept, text: &[u8]) -> Option<Request>
    ensures { (handle : List ℕ) → option_map request_shown result ≡ lines.created_request own (kept_call call text.now handle) }
{
    match call {
        Kept::CreateLink { lock, .. } => {
            if lock {
                named_request(target_of(text, own))
            } else {
                None
            }
        }
        _ => None,
    }
}

fn named_request(named: Result<Target, ErrorCode>) -> Option<Request>
    ensures { option_map request_shown result ≡ lines.named_request named }
{
    match named {
        Ok(target) => Some(Request { link: 0, target }),
        Err(_) => None,
    }
}

/// The flags end and termchrset (VXI-11, Device_Flags).
fn sets_end(flags: u32) -> bool
    ensures { result ≡ calls.sets_end flags }
{
    flags / 8 % 2 == 1
}

fn sets_stop(flags: u32) -> bool
    ensures { result ≡ calls.sets_stop flags }
{
    flags / 128 % 2 == 1
}

/// The stop byte of a read, where it has one.
fn stop_of(flags: u32, term: u8) -> Option<u8>
    ensures { result ≡ (if calls.sets_stop flags then Some term else None) }
{
    if sets_stop(flags) { Some(term) } else { None }
}

/// The job of a call on a link. A command takes its input.
fn task_on(link: LinkRow, call: Kept, text: &[u8]) -> Option<Task>
    requires short { (handle : List ℕ) → length (calls.bytes_of (kept_call call text.now handle)) ≤ WRITE_MAX }
    requires takes { (handle : List ℕ) → HasInput (kept_call call text.now handle) }
    ensures { (handle : List ℕ) → result ≡ task_on link.target (kept_call call text.now handle) }
{
    let t = link.target;
    match call {
        Kept::Write { flags, .. } => Some(Task::Write {
            t,
            len: text.len() as u32,
            end: sets_end(flags),
        }),
        Kept::Read {
            request,
            flags,
            term,
            ..
        } => Some(Task::Read {
            t,
            max: request,
            stop: stop_of(flags, term),
        }),
        Kept::ReadStb(_) => Some(Task::Stb { t }),
        Kept::Trigger(_) => Some(Task::Trigger { t }),
        Kept::Clear(_) => Some(Task::Clear { t }),
        Kept::Remote(_) => Some(Task::Remote { t }),
        Kept::Local(_) => Some(Task::Local { t }),
        Kept::Docmd { cmd, big, .. } => docmd_task(cmd, big, text),
        _ => None,
    }
}

/// The job of a device_docmd. Its command takes its input.
fn docmd_task(cmd: u32, big: bool, text: &[u8]) -> Option<Task>
    requires takes { TakesInput cmd big text.now }
    ensures { result ≡ option_map (λ c. docmd.command_task c big text.now) (docmd.command_of cmd) }
{
    match command_of(cmd) {
        Some(command) => Some(command_task(command, big, text)),
        None => None,
    }
}
