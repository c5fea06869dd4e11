//! Limits of the gateway's tables.

/// The most interrupts that wait in a channel's outbox.
pub const OUTBOX_MAX: usize = 1024;
