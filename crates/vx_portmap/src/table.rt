//! The table of mappings.
ghost use Rattle.std.specs.Prelude.{◌≡◌, ◌≤◌, [], ◌∷◌, ◌++◌, find, length, OnOk, OnErr};
ghost use Rattle.std.specs.List.{list_any};
ghost use Rattle.std.specs.Option.{option_copied};
ghost use Rattle.std.specs.Result.{result_err};
ghost use Rattle.vx_portmap.specs.Table.{is_same, add_error, port_at};

use crate::limits::PORTS_MAX;
use arrayvec::ArrayVec;
use std::marker::Model;

/// A version of a program, the protocol over which it is called, and the port where it is (RFC 1833, section 3.1).
#[derive(Clone, Copy, Default, PartialEq, Eq)]
pub struct Mapping {
    pub prog: u32,
    pub vers: u32,
    pub prot: u32,
    pub port: u32,
}

/// Why a mapping isn't added.
#[derive(Clone, Copy, Debug, PartialEq, Eq)]
pub enum AddErr {
    /// The program, the version and the protocol are there already.
    Known,
    /// [`PORTS_MAX`] mappings are there.
    Full,
}

/// The mappings of a port mapper, at most [`PORTS_MAX`], in order of adding. It takes no memory.
#[derive(Drop)]
pub struct Ports {
    mappings: ArrayVec<Mapping, PORTS_MAX>,
}

impl Model for Ports {
    ghost use Rattle.std.specs.Prelude.{List};
    ghost use Rattle.vx_portmap.specs.declared.table.Mapping.{Mapping};

    ghost Value = { List Mapping };

    ghost view = { λ p. p.mappings.items };
}

// Whether the program, the version and the protocol of a mapping are among these.
fn is_known(mappings: &[Mapping], m: &Mapping) -> bool
    ensures { result ≡ list_any (λ n. is_same n m.now) mappings.now }
{
    mappings.iter().any(|n| n.prog == m.prog && n.vers == m.vers && n.prot == m.prot)
}

// The first mapping with this one's program, version and protocol.
fn find_same<'a>(mappings: &'a [Mapping], m: &Mapping) -> Option<&'a Mapping>
    ensures { option_copied result ≡ find (λ n. is_same n m.now) mappings.now }
{
    mappings.iter().find(|n| n.prog == m.prog && n.vers == m.vers && n.prot == m.prot)
}

// Its port, or 0.
fn find_port(mappings: &[Mapping], m: &Mapping) -> u32
    ensures { result ≡ port_at mappings.now m.now }
{
    match find_same(mappings, m).copied() {
        Some(n) => n.port,
        None => 0,
    }
}

impl Ports {
    /// A table with no mapping in it.
    pub fn new() -> Ports
        ensures { result ≡ [] }
    {
        Ports {
            mappings: ArrayVec::new(),
        }
    }

    /// Adds a mapping behind those that are there.
    ///
    /// # Errors
    ///
    /// `Known` where its program, version and protocol are there already; else `Full` where [`PORTS_MAX`] mappings are
    /// there. Then nothing changes.
    pub fn add(&mut self, m: Mapping) -> Result<(), AddErr>
        ensures ok { OnOk result (self.new ≡ self.old ++ m ∷ []) }
        ensures cause { result_err result ≡ add_error self.old m }
        ensures err { OnErr result (self.new ≡ self.old) }
    {
        if is_known(&self.mappings, &m) {
            return Err(AddErr::Known);
        }
        if self.mappings.is_full() {
            return Err(AddErr::Full);
        }
        self.mappings.push(m);
        Ok(())
    }

    /// The port of the mapping with the program, the version and the protocol of `asked`, or 0 where there is none.
    pub(crate) fn port_of(&self, asked: &Mapping) -> u32
        ensures { result ≡ port_at self.now asked.now }
    {
        find_port(&self.mappings, asked)
    }

    /// The mappings, in order of adding.
    pub(crate) fn list(&self) -> &[Mapping]
        ensures list { result.now ≡ self.now }
        ensures few { length result.now ≤ PORTS_MAX }
    {
        self.mappings.as_slice()
    }
}
