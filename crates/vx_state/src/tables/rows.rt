//! The connections that live, as rows.
ghost use Rattle.std.specs.Prelude.{◌≡◌, ◌<◌, ◌≤◌, ◌==◌, not, false, length, map, find, filter, IfSome, None, Some, vec_capacity};
ghost use Rattle.std.specs.List.{position_from, count_by, AllPairs};
ghost use Rattle.std.specs.Option.{option_copied, option_map};
ghost use Rattle.vx_calls.specs.declared.limits.TheConstants.{RECORD_MAX};
ghost use Rattle.vx_rules.specs.Lists.{update_first};
ghost use Rattle.vx_rules.specs.State.{same_role, has_come, with_arrival, without_arrival};
ghost use Rattle.vx_rules.specs.AtomicStep.{mark_on};
ghost use Rattle.vx_rules.specs.Calls.{proc_of};
ghost use Rattle.vx_state.specs.Rows.{connection_of, asked_call, pending_of};

use crate::tables::kept::Kept;
use crate::tables::text::Text;
use vx_calls::{Handle, Proc, Role};

/// A call that has come and has no answer yet, the moment at which it came, in milliseconds, and whether a device_abort
/// has marked it.
#[derive(Clone, Copy)]
pub(crate) struct PendingRow {
    pub(crate) call: Kept,
    pub(crate) arrival: u64,
    pub(crate) aborted: bool,
}

/// A connection that lives.
#[derive(Drop)]
pub(crate) struct Row {
    pub(crate) number: u32,
    pub(crate) role: Role,
    pub(crate) asked: Option<PendingRow>,
    pub(crate) text: Text,
    pub(crate) handle: Handle,
}

/// The place of the connection of this number, among rows in order of number.
fn place_of(rows: &[Row], conn: u32) -> Option<usize>
    requires rising { AllPairs (λ a b. a.number < b.number) rows.now }
    ensures first { result ≡ position_from (λ r. r.number == conn) 0 rows.now }
    ensures inside { IfSome result (λ i. i < length rows.now) }
{
    rows.binary_search_by_key(&conn, |row| row.number).ok()
}

/// Whether two roles are one.
pub(crate) fn is_same_role(a: Role, b: Role) -> bool
    ensures { result ≡ same_role a b }
{
    match (a, b) {
        (Role::Core, Role::Core) | (Role::Abort, Role::Abort) => true,
        _ => false,
    }
}

/// How many of the connections have this role.
pub(crate) fn count_role(rows: &[Row], role: Role) -> usize
    ensures { result ≡ count_by (λ c. same_role c.role role) (map connection_of rows.now) }
{
    let mut count: usize = 0;
    for row in rows {
        count += usize::from(is_same_role(row.role, role));
    }
    count
}

/// The row of the connection of this number.
pub(crate) fn find_row(rows: &[Row], conn: u32) -> Option<&Row>
    requires rising { AllPairs (λ a b. a.number < b.number) rows.now }
    ensures { option_map connection_of (option_copied result) ≡ find (λ c. c.number == conn) (map connection_of rows.now) }
{
    match place_of(rows, conn) {
        Some(place) => Some(&rows[place]),
        None => None,
    }
}

/// The connection's call that waits for its answer is now this one.
pub(crate) fn keep_call(rows: &mut [Row], conn: u32, asked: PendingRow, text: &[u8], handle: Handle)
    requires short { length text.now ≤ RECORD_MAX }
    requires rising { AllPairs (λ a b. a.number < b.number) rows.old }
    ensures { map connection_of rows.new ≡ update_first (λ c. c.number == conn)
        (λ c. record c { pending = Some (asked_call asked text.now handle.bytes.items) }) (map connection_of rows.old) }
{
    if let Some(place) = place_of(rows, conn) {
        let row = &mut rows[place];
        row.text.keep(text);
        row.handle = handle;
        row.asked = Some(asked);
    }
}

/// The same, with bytes that stand in room of their own.
pub(crate) fn put_call(rows: &mut [Row], conn: u32, asked: PendingRow, text: Text, handle: Handle)
    requires rising { AllPairs (λ a b. a.number < b.number) rows.old }
    ensures { map connection_of rows.new ≡ update_first (λ c. c.number == conn)
        (λ c. record c { pending = Some (asked_call asked text.bytes.items handle.bytes.items) }) (map connection_of rows.old) }
{
    if let Some(place) = place_of(rows, conn) {
        let row = &mut rows[place];
        row.text = text;
        row.handle = handle;
        row.asked = Some(asked);
    }
}

/// The procedure of a row's pending call.
pub(crate) fn procedure_of(row: &Row) -> Option<Proc>
    ensures { result ≡ option_map (λ p. proc_of p.call) (pending_of row.now) }
{
    match row.asked {
        Some(asked) => Some(asked.call.procedure()),
        None => None,
    }
}

/// The connection's call has its answer.
pub(crate) fn end_call(rows: &mut [Row], conn: u32)
    requires rising { AllPairs (λ a b. a.number < b.number) rows.old }
    ensures { map connection_of rows.new ≡ update_first (λ c. c.number == conn) (λ c. record c { pending = None }) (map connection_of rows.old) }
{
    if let Some(place) = place_of(rows, conn) {
        rows[place].asked = None;
    }
}

/// The connection goes.
pub(crate) fn drop_row(rows: &mut Vec<Row>, conn: u32)
    ensures { map connection_of rows.new.items ≡ filter (λ c. not (c.number == conn)) (map connection_of rows.old.items) }
{
    rows.retain(|row| row.number != conn);
}

/// A call came on the connection: it is the last of the arrivals. There must be room.
pub(crate) fn add_arrival(arrivals: &mut Vec<u32>, conn: u32)
    requires fresh { has_come arrivals.old.items conn ≡ false }
    requires room { length arrivals.old.items < vec_capacity arrivals.old }
    ensures added { arrivals.new.items ≡ with_arrival arrivals.old.items conn }
    ensures room { vec_capacity arrivals.new ≡ vec_capacity arrivals.old }
{
    arrivals.push_reserved(conn);
}

/// The connection's call is over: it is none of the arrivals.
pub(crate) fn drop_arrival(arrivals: &mut Vec<u32>, conn: u32)
    ensures left { arrivals.new.items ≡ without_arrival arrivals.old.items conn }
    ensures room { vec_capacity arrivals.new ≡ vec_capacity arrivals.old }
{
    arrivals.retain(|other| *other != conn);
}

/// Marks each call that names the link.
pub(crate) fn mark_calls(rows: &mut [Row], lid: u32)
    ensures { map connection_of rows.new ≡ map (mark_on lid) (map connection_of rows.old) }
{
    for row in rows.iter_mut() {
        mark_call(row, lid);
    }
}

fn mark_call(row: &mut Row, lid: u32)
    ensures { connection_of row.new ≡ mark_on lid (connection_of row.old) }
{
    if let Some(asked) = row.asked
        && asked.call.link() == Some(lid)
    {
        row.asked = Some(PendingRow {
            aborted: true,
            ..asked
        });
    }
}
