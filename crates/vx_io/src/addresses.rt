//! Addresses of the system as numbers.

use std::net::SocketAddr;

/// An IPv4 address as a number, its first part in the high byte; 0 for an address of another kind.
pub(super) fn number_of(address: &SocketAddr) -> u32 {
    match address {
        SocketAddr::V4(address) => u32::from_be_bytes(address.ip().octets()),
        SocketAddr::V6(_) => 0,
    }
}
