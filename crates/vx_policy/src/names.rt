//! A table of names for devices.
ghost use Rattle.std.specs.Prelude.{◌≡◌, ◌≢◌, ◌≤◌, ◌↔◌, [], ◌∷◌, ◌++◌, Ok, Err, None, Some, length, max, find, IfSome, IfOk, OnOk, OnErr};
ghost use Rattle.std.specs.Option.{option_copied};
ghost use Rattle.std.specs.Str.{bytes_eq};
ghost use Rattle.vx_calls.specs.declared.limits.TheConstants.{DEVICE_MAX};
ghost use Rattle.vx_policy.specs.declared.names.TheConstants.{NAMES_MAX};
ghost use Rattle.vx_policy.specs.Cutting.{cut};
ghost use Rattle.vx_policy.specs.Names.{RefusedAsSaid, are_short, has_name, device_of, equals, names_with};

use crate::made::NoMemory;
use crate::words::cut;
use std::alloc::{AllocError, Global};
use std::marker::Model;
use vx_calls::DEVICE_MAX;

/// How many names a table may have.
pub const NAMES_MAX: usize = 64;

/// Why a name isn't added.
#[derive(Clone, Copy, Debug, PartialEq, Eq)]
pub enum NameRefused {
    /// There is no `=` between it and its device text.
    Form,
    /// It, or the device text that it is to stand for, has more than [`DEVICE_MAX`] bytes.
    TooLong,
    /// The table has this name already.
    Known,
    /// The table has [`NAMES_MAX`] names.
    TooMany,
    /// There was no memory for the two texts.
    NoMemory,
}

/// A name, and the device text that it stands for.
#[derive(Drop)]
struct Row {
    name: Vec<u8>,
    device: Vec<u8>,
}

impl Model for Row {
    ghost use Rattle.std.specs.Prelude.{◌≤◌, ℕ, List, length};
    ghost use Rattle.vx_calls.specs.declared.limits.TheConstants.{DEVICE_MAX};

    ghost Value = { List ℕ × List ℕ };

    ghost view = { λ r. (r.name.items, r.device.items) };

    ghost invariant = { λ r. length r.device.items ≤ DEVICE_MAX };
}

impl Row {
    /// A row of these two texts.
    fn new(alloc: Global, name: &[u8], device: &[u8]) -> Result<Row, AllocError>
        requires { length device.now ≤ DEVICE_MAX }
        ensures { IfOk result (λ row. row ≡ (name.now, device.now)) }
    {
        Ok(Row {
            name: name.to_vec(alloc)?,
            device: device.to_vec(alloc)?,
        })
    }

    /// Whether its name is this text.
    fn is_for(&self, text: &[u8]) -> bool
        ensures { result ≡ bytes_eq self.now.0 text.now }
    {
        self.name.as_slice() == text
    }

    /// Its device text.
    fn device(&self) -> &[u8]
        ensures device { result.now ≡ self.now.1 }
        ensures short { length result.now ≤ DEVICE_MAX }
    {
        self.device.as_slice()
    }
}

/// Whether a name and a device text are no longer than a device text may be.
fn are_short(name: &[u8], device: &[u8]) -> bool
    ensures { result ≡ are_short name.now device.now }
{
    name.len() <= DEVICE_MAX && device.len() <= DEVICE_MAX
}

/// Whether these rows have a name.
fn has_name(rows: &[Row], name: &[u8]) -> bool
    ensures { result ≡ has_name rows.now name.now }
{
    rows.iter().any(|row| row.is_for(name))
}

/// The first row of a name.
fn find_row<'a>(rows: &'a [Row], name: &[u8]) -> Option<&'a Row>
    ensures { option_copied result ≡ find (λ row. bytes_eq row.0 name.now) rows.now }
{
    rows.iter().find(|row| row.is_for(name))
}

/// The names that a lab has for its devices, at most [`NAMES_MAX`], each with the device text that it stands for, in order of adding.
#[derive(Drop)]
pub struct NameTable {
    rows: Vec<Row>,
}

impl Model for NameTable {
    ghost use Rattle.std.specs.Prelude.{◌≤◌, ℕ, List, length, vec_capacity};
    ghost use Rattle.vx_policy.specs.declared.names.TheConstants.{NAMES_MAX};

    ghost Value = { List (List ℕ × List ℕ) };

    ghost view = { λ t. t.rows.items };

    ghost invariant = { λ t. (NAMES_MAX ≤ vec_capacity t.rows) × (length t.rows.items ≤ NAMES_MAX) };
}

impl NameTable {
    /// A table with no name in it. It has room for [`NAMES_MAX`] of them, but for their texts.
    pub fn new(alloc: Global) -> Result<NameTable, NoMemory>
        ensures { IfOk result (λ names. names ≡ []) }
    {
        match Vec::with_capacity(alloc, NAMES_MAX) {
            Ok(rows) => Ok(NameTable { rows }),
            Err(_) => Err(NoMemory),
        }
    }

    /// Adds a name for a device behind those that are there. It takes memory for the two texts, and keeps a copy of each.
    ///
    /// # Errors
    ///
    /// The first that fits of: `TooLong` where a text has more than [`DEVICE_MAX`] bytes; `Known` where the table has the name;
    /// `TooMany` where it has [`NAMES_MAX`] names; `NoMemory`. Then nothing changes.
    pub fn add(&mut self, name: &[u8], device: &[u8]) -> Result<(), NameRefused>
        ensures added { OnOk result (self.new ≡ self.old ++ (name.now, device.now) ∷ []) }
        ensures refused { OnErr result (self.new ≡ self.old) }
        ensures formed { result ≢ Err NameRefused.Form }
        ensures as_said { RefusedAsSaid self.old name.now device.now result }
    {
        if !are_short(name, device) {
            return Err(NameRefused::TooLong);
        }
        if has_name(&self.rows, name) {
            return Err(NameRefused::Known);
        }
        if self.rows.len() >= NAMES_MAX {
            return Err(NameRefused::TooMany);
        }
        match Row::new(*self.rows.allocator(), name, device) {
            Ok(row) => {
                self.rows.push_reserved(row);
                Ok(())
            }
            Err(_) => Err(NameRefused::NoMemory),
        }
    }

    /// Adds the name that a text `NAME=DEVICE` gives: NAME is what stands before its first `=`, and DEVICE what stands behind that.
    ///
    /// # Errors
    ///
    /// `Form` where there is no `=`; else those of [`NameTable::add`]. Then nothing changes.
    pub fn add_text(&mut self, text: &[u8]) -> Result<(), NameRefused>
        ensures added { OnOk result (names_with self.old text.now ≡ Some self.new) }
        ensures refused { OnErr result (self.new ≡ self.old) }
        ensures other { OnErr result ((result ≢ Err NameRefused.NoMemory) → names_with self.old text.now ≡ None) }
        ensures formed { (result ≡ Err NameRefused.Form) ↔ (cut equals text.now ≡ None) }
        ensures as_said { IfSome (cut equals text.now) (λ row. RefusedAsSaid self.old row.0 row.1 result) }
    {
        match cut(text, b'=') {
            Some((name, device)) => self.add(name, device),
            None => Err(NameRefused::Form),
        }
    }

    /// What a text stands for: the device text of the name that it is, or itself where the table doesn't have it. What a name stands
    /// for isn't looked up again.
    pub fn device_of<'a>(&'a self, text: &'a [u8]) -> &'a [u8]
        ensures device { result.now ≡ device_of self.now text.now }
        ensures within { length result.now ≤ max DEVICE_MAX (length text.now) }
    {
        match find_row(&self.rows, text) {
            Some(row) => row.device(),
            None => text,
        }
    }
}
