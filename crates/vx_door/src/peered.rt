//! Links that know the address of their peer.
ghost use Rattle.vx_door.specs.Peering.{IsPeer};

use vx_io_traits::Link;

/// A link that knows the IPv4 address of its peer.
pub trait Peered: Link {
    /// The address of the present peer, its first part in the high byte; 0 where there is none, or it has an address of another
    /// kind.
    fn peer(&self) -> u32
        ensures { IsPeer (Self.peers self.now) result };
}
