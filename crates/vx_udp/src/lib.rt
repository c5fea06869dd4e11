//! Packets over UDP, for a port mapper: the trusted edge, a few lines.
#![tactic(auto)]

mod packets;

pub use packets::UdpBox;
