ghost use Rattle.std.specs.Prelude.{◌≡◌, ◌≢◌, ◌↔◌, ◌+◌, ◌<◌, ◌≤◌, ◌==◌, not, false, length, map, find, is_some, IsTrue, IsErr, IsNone, IfOk, OnOk, OnErr, IfSome};
ghost use Rattle.std.specs.List.{list_any, All, AllPairs, HoldsAt};
ghost use Rattle.std.specs.Option.{option_copied, option_map};
ghost use Rattle.vx_calls.specs.declared.limits.TheConstants.{LINK_LAST, LINK_MAX};
ghost use Rattle.vx_rules.specs.Table.{empty, is_full, link_at, is_live, first_link_of, uses_address, with_link, without_link, is_at};
ghost use Rattle.vx_links.specs.Shown.{link_shown};

use std::alloc::Global;
use std::marker::Model;
use vx_calls::{LINK_LAST, LINK_MAX, Target};

/// Memory ran out.
#[derive(Clone, Copy, Debug, PartialEq, Eq)]
pub struct NoMemory;

/// No link can be made: 1,024 live, or number 2^30 - 1 was given out.
#[derive(Clone, Copy, Debug, PartialEq, Eq)]
pub struct Full;

/// A link that lives: its number, the connection that made it, and what it is to.
#[derive(Clone, Copy, PartialEq, Eq)]
pub struct LinkRow {
    pub lid: u32,
    pub conn: u32,
    pub target: Target,
}

/// The links that live. A contract sees them as a `Table`: the plain list of links in order of their numbers, and the
/// number that comes next.
///
/// `new` makes the room of all rows; no other call takes memory.
#[derive(Drop)]
pub struct Links {
    rows: Vec<LinkRow>,
    next: u32,
}

impl Model for Links {
    ghost use Rattle.vx_rules.specs.Table.{Table};

    ghost Value = { Table };

    ghost use Rattle.vx_links.specs.Inside.{table_of, IsLinkKept};

    ghost view = { table_of };

    ghost invariant = { IsLinkKept };
}

impl Links {
    /// A table with no link in it, whose first number is 1.
    pub fn new(alloc: Global) -> Result<Links, NoMemory>
        ensures { IfOk result (λ links. links ≡ empty) }
    {
        match Vec::with_capacity(alloc, LINK_MAX as usize) {
            Ok(rows) => Ok(Links { rows, next: 1 }),
            Err(_) => Err(NoMemory),
        }
    }

    /// Whether no link can be made: 1,024 live, or number 2^30 - 1 was given out.
    pub fn is_full(&self) -> bool
        ensures { result ≡ is_full self.now }
    {
        self.rows.len() >= LINK_MAX as usize || self.next > LINK_LAST
    }

    /// The number that comes next, up to 2^30, which is never given.
    pub fn next_number(&self) -> u32
        ensures { result ≡ self.now.next }
    {
        self.next
    }

    /// Makes a link of this connection, and gives its number: 1, 2, 3 and so on up to 2^30 - 1, none twice.
    ///
    /// # Errors
    ///
    /// `Full` exactly where `is_full` answers true; then nothing changes.
    pub fn insert(&mut self, conn: u32, target: Target) -> Result<u32, Full>
        ensures added { OnOk result (self.new ≡ with_link self.old conn target) }
        ensures number { IfOk result (λ lid. lid ≡ self.old.next) }
        ensures range { IfOk result (λ lid. (0 < lid) × (lid ≤ LINK_LAST)) }
        ensures fresh { IfOk result (λ lid. is_live self.old lid ≡ false) }
        ensures full { IsErr result ↔ IsTrue (is_full self.old) }
        ensures err { OnErr result (self.new ≡ self.old) }
    {
        if self.is_full() {
            return Err(Full);
        }
        let lid = self.next;
        self.rows.push_reserved(LinkRow { lid, conn, target });
        self.next += 1;
        Ok(lid)
    }

    /// The link of this number, where it lives.
    pub fn find(&self, lid: u32) -> Option<LinkRow>
        ensures link { option_map link_shown result ≡ link_at self.now lid }
        ensures live { is_some result ≡ is_live self.now lid }
        ensures number { IfSome result (λ row. row.lid ≡ lid) }
        ensures given { IfSome result (λ row. (0 < row.lid) × (row.lid < self.now.next)) }
    {
        find_row(&self.rows, lid).copied()
    }

    /// The link of this number goes. Answers whether there was one.
    pub fn remove(&mut self, lid: u32) -> bool
        ensures live { result ≡ is_live self.old lid }
        ensures links { self.new ≡ without_link self.old lid }
    {
        match place_of(&self.rows, lid) {
            Some(place) => {
                self.rows.remove(place);
                true
            }
            None => false,
        }
    }

    /// The link of this connection that has the smallest number.
    pub fn of_connection(&self, conn: u32) -> Option<LinkRow>
        ensures link { option_map link_shown result ≡ first_link_of self.now conn }
        ensures owned { IfSome result (λ row. row.conn ≡ conn) }
        ensures smallest { IfSome result (λ row. All (λ l. l.connection ≡ conn → row.lid ≤ l.number) self.now.links) }
    {
        find_owned(&self.rows, conn).copied()
    }

    /// Whether a live link is to a device of this primary address.
    pub fn uses(&self, p: u8) -> bool
        ensures { result ≡ uses_address self.now p }
    {
        uses_row(&self.rows, p)
    }

    /// What holds of every table: each link's number is below those of the links after it, from 1 on and already given
    /// out; at most 1,024 links live; and the next number is at most one past the greatest. It does nothing when it runs.
    pub fn numbers_rise(&self)
        ensures rising { AllPairs (λ a b. a.number < b.number) self.now.links }
        ensures given { All (λ l. (0 < l.number) × (l.number < self.now.next)) self.now.links }
        ensures few { length self.now.links ≤ LINK_MAX }
        ensures next { (0 < self.now.next) × (self.now.next ≤ LINK_LAST + 1) }
    {
        let _ = &self.rows;
    }
}

/// The row of this number, among rows in order of number.
fn find_row(rows: &[LinkRow], lid: u32) -> Option<&LinkRow>
    requires rising { AllPairs (λ a b. a.lid < b.lid) rows.now }
    ensures { option_copied result ≡ find (λ r. r.lid == lid) rows.now }
{
    match place_of(rows, lid) {
        Some(place) => Some(&rows[place]),
        None => None,
    }
}

/// Where the row of this number stands, among rows in order of number.
fn place_of(rows: &[LinkRow], lid: u32) -> Option<usize>
    requires rising { AllPairs (λ a b. a.lid < b.lid) rows.now }
    ensures place { IfSome result (λ i. (i < length rows.now) × HoldsAt (λ r. r.lid ≡ lid) rows.now i) }
    ensures none { IsNone result → All (λ r. r.lid ≢ lid) rows.now }
{
    rows.binary_search_by_key(&lid, |row| row.lid).ok()
}

/// The first row of this connection.
fn find_owned(rows: &[LinkRow], conn: u32) -> Option<&LinkRow>
    ensures { option_copied result ≡ find (λ r. r.conn == conn) rows.now }
{
    rows.iter().find(|row| row.conn == conn)
}

/// Whether a row is to a device of this primary address.
fn uses_row(rows: &[LinkRow], p: u8) -> bool
    ensures { result ≡ list_any (λ r. is_at p r.target) rows.now }
{
    rows.iter().any(|row| is_at(row.target, p))
}

/// Whether a target is a device of this primary address.
fn is_at(target: Target, p: u8) -> bool
    ensures { result ≡ is_at p target }
{
    match target {
        Target::Interface => false,
        Target::Device { p: primary, .. } => primary == p,
    }
}
