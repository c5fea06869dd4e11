ghost use Rattle.std.specs.Prelude.{◌≡◌, ◌<◌, ◌==◌, [], true, length};
ghost use Rattle.vx_488.specs.Address.{place, is_bus_address};
ghost use Rattle.vx_488.specs.Listening.{has_address, with_address, without_address, InOrder};

use crate::transfers::{ADDRESS_MAX, Addr};
use std::marker::Model;

/// How many addresses a bus has: 31 primaries, each alone and with 31 secondaries.
const ADDRESSES: usize = 992;

/// The addresses that listen. A contract sees the list of them, without repeats, in order of primary and then secondary
/// address, the one without a secondary first.
#[derive(Clone, Copy)]
pub struct Listeners {
    // one flag an address, in that order
    flags: [bool; ADDRESSES],
}

impl Model for Listeners {
    ghost use Rattle.std.specs.Prelude.{◌≡◌, List, Bool, length};
    ghost use Rattle.std.proofs.Common.{ap};
    ghost use Rattle.vx_488.specs.declared.transfers.Addr.{Addr};

    ghost Value = { List Addr };

    ghost use Rattle.vx_488.specs.Listening.{flagged, flags_of};
    ghost use Rattle.vx_488.specs.Flags.{flags_of-flagged};

    ghost view = { λ l. flagged 0 l.flags };

    ghost invariant = { λ l. length l.flags ≡ 992 };

    ghost inverse = { λ xs. record { flags = flags_of 992 0 xs } };

    ghost inverse_ok = { λ l h. ap (λ (f : List Bool). record { flags = f }) (flags_of-flagged l.flags h) };
}

impl Listeners {
    /// Nobody listens.
    pub fn none() -> Listeners
        ensures { result ≡ [] }
    {
        Listeners {
            flags: [false; ADDRESSES],
        }
    }

    /// Whether this address listens. No address with a part above 30 does.
    pub fn has(&self, a: Addr) -> bool
        ensures { result ≡ has_address self.now a }
    {
        is_bus_address(a) && self.flags[place(a)]
    }

    /// The list is in order of primary and then secondary address, without repeats, each part at most 30.
    pub fn in_order(&self)
        ensures { InOrder self.now }
    {
        let _ = &self.flags;
    }

    /// Whether nobody listens.
    pub fn is_empty(&self) -> bool
        ensures { result ≡ (length self.now == 0) }
    {
        !self.flags.contains(&true)
    }

    /// This address listens too, unless a part of it is above 30.
    pub fn add(&mut self, a: Addr)
        ensures { self.new ≡ with_address a self.old }
    {
        if is_bus_address(a) {
            self.flags[place(a)] = true;
        }
    }

    /// This address doesn't listen any more.
    pub fn remove(&mut self, a: Addr)
        ensures { self.new ≡ without_address a self.old }
    {
        if is_bus_address(a) {
            self.flags[place(a)] = false;
        }
    }
}

/// Whether both parts of an address are at most 30 (IEEE 488.1, 2.6).
pub fn is_bus_address(a: Addr) -> bool
    ensures { result ≡ is_bus_address a }
{
    a.p <= ADDRESS_MAX && a.s.is_none_or(|s| s <= ADDRESS_MAX)
}

/// An address's place among all, in order of primary and then secondary address.
fn place(a: Addr) -> usize
    requires { is_bus_address a ≡ true }
    ensures value { result ≡ place a }
    ensures within { result < 992 }
{
    let secondary = match a.s {
        None => 0,
        Some(s) => usize::from(s) + 1,
    };
    32 * usize::from(a.p) + secondary
}
