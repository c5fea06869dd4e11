//! The bus, and what it keeps.

ghost use Rattle.std.specs.Prelude.{◌≡◌, []};
ghost use Rattle.vx_upstream.specs.UpstreamState.{is_here, is_time, comes_back, clears};

use crate::orders::Order;
use std::marker::Model;
use vx_488::{ASK_MAX, Ask, Transfer, Wire};
use vx_client::{Client, LinkMade};

/// The levels of SRQ and NDAC as the box told them last, and the moments of the looks at them, in milliseconds.
#[derive(Clone, Copy)]
pub(crate) struct Levels {
    pub(crate) srq: bool,
    pub(crate) srq_asked: u64,
    pub(crate) ndac: bool,
    pub(crate) ndac_asked: u64,
}

/// Whether the box's bus is known to mean the same as the near one.
#[derive(Clone, Copy)]
pub(crate) enum Standing {
    /// It is, as far as the box answered, and the box is asked.
    Here,
    /// An ask failed. It is to be brought back as soon as a moment is told.
    Lost,
    /// A try to bring it back failed. From this moment on, in milliseconds, there may be another.
    Retry(u64),
}

/// Whether the box is asked.
fn is_here(standing: Standing) -> bool
    ensures { result ≡ is_here standing }
{
    match standing {
        Standing::Here => true,
        Standing::Lost | Standing::Retry(_) => false,
    }
}

/// Whether a bus that is away may be brought back at this moment.
fn is_time(standing: Standing, now: u64) -> bool
    ensures { result ≡ is_time standing now }
{
    match standing {
        Standing::Here => false,
        Standing::Lost => true,
        Standing::Retry(from) => from <= now,
    }
}

/// A bus that another box drives, which is asked over a client's link to its GPIB interface.
///
/// A burst of data bytes is one call of the box, and so is any other ask. A byte that the box didn't take, or didn't give,
/// within `patience` milliseconds is held. A command byte, a line, an interface clear and an own address are never held: where
/// the box doesn't answer with error 0 they failed, whatever became of them there.
///
/// After an ask that failed, for whatever cause, what the box's bus means isn't known: this one is away from then on, and so it is after a
/// look at a line that broke off. While it is away each ask fails at once, and nothing is sent for it.
///
/// As it is told a moment it is brought back: at once behind the fault, and a second at least after a try that failed, where moments
/// are milliseconds. The first try uses the link that there is, unless its client is spent; any further one reaches the box anew, and has it
/// make a link, with a lock. Then the box is sent an interface clear, its address, remote enable, and the command bytes that bring its
/// bus to what this one means. Once each of them was answered with error 0 the bus is away no more. No data byte is sent by a try.
/// Whether ATN is on by itself is no part of what a bus means: it stands as the command bytes leave it.
///
/// Where control was passed on, the box's bus is another controller's, and no command may be sent there. Then a bus that is away stays
/// so until an interface clear is asked, which takes control back: that brings it back in the same way.
///
/// The levels of SRQ and NDAC are those that the box told at the last look. Looks are made as the bus is told moments, at SRQ
/// every 10 milliseconds at most, at NDAC every 100. While it is away there are none, and the levels are false, since a level that
/// nobody can see isn't true.
#[derive(Drop)]
pub struct UpstreamBus<L> {
    pub(crate) client: Client<L>,
    pub(crate) made: LinkMade,
    pub(crate) host: String,
    pub(crate) port: u16,
    pub(crate) name: Vec<u8>,
    pub(crate) patience: u32,
    pub(crate) levels: Levels,
    pub(crate) standing: Standing,
    pub(crate) moment: u64,
    pub(crate) wire: Wire,
    pub(crate) moves: Vec<Transfer>,
    pub(crate) asks: u32,
    pub(crate) holds: u64,
    pub(crate) faults: u64,
    pub(crate) refused: Option<Ask>,
    // the room of a read
    pub(crate) into: Vec<u8>,
    // the room of what brings the box's bus back
    pub(crate) orders: Vec<Order>,
}

impl<L> Model for UpstreamBus<L> {
    ghost use Rattle.std.specs.Prelude.{◌≡◌, ◌≤◌, [], length, vec_len, vec_capacity, string_bytes};
    ghost use Rattle.vx_calls.specs.declared.limits.TheConstants.{DEVICE_MAX};
    ghost use Rattle.vx_488.specs.declared.asks.TheConstants.{ASK_MAX};
    ghost use Rattle.vx_upstream.specs.declared.orders.TheConstants.{ORDER_MAX};
    ghost use Rattle.vx_upstream.specs.UpstreamState.{UpstreamState};

    ghost Value = { UpstreamState L };

    ghost view = { λ s. record {
      kept = record {
        means = record {
          wire = s.wire;
          moves = s.moves.items;
          asks = s.asks;
          holds = s.holds;
          faults = s.faults;
          refused = s.refused;
        };
        standing = s.standing;
      };
      client = s.client;
      made = s.made;
      terms = record {
        host = string_bytes s.host;
        port = s.port;
        name = s.name.items;
        patience = s.patience;
      };
      due = [];
      levels = s.levels;
      moment = s.moment;
    } };

    ghost invariant = { λ s. (vec_len s.moves ≤ s.asks) × (ASK_MAX ≤ vec_capacity s.moves) × (length s.into.items ≡ ASK_MAX)
        × (ORDER_MAX ≤ vec_capacity s.orders) × (length s.name.items ≤ DEVICE_MAX) };
}

impl<L> UpstreamBus<L> {
    /// Whether the box is asked.
    pub(crate) fn is_here(&self) -> bool
        ensures value { result ≡ is_here self.now.kept.standing }
        ensures due { self.now.due ≡ [] }
    {
        is_here(self.standing)
    }

    /// Whether the bus is away and is to be brought back.
    pub(crate) fn comes_back(&self) -> bool
        ensures { result ≡ comes_back self.now }
    {
        self.wire.incharge && is_time(self.standing, self.moment)
    }

    /// Whether it is away, and is brought back by an interface clear.
    pub(crate) fn clears(&self) -> bool
        ensures value { result ≡ clears self.now }
        ensures due { self.now.due ≡ [] }
    {
        !self.wire.incharge && is_time(self.standing, self.moment)
    }
}
