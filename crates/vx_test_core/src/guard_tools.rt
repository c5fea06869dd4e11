//! What peers of a guard send, and what they are sent. The records are those of RFC 5531, sections 9 and 11, and of VXI-11.

/// A create_link: xid 1, client 42, no lock, the device `gpib0,5`; and a device_write: xid 2, link 1, the byte `A` with END.
pub(crate) const CREATE_AND_WRITE: [u32; 34] = [
    0x80000040, 1, 0, 2, 0x0607AF, 1, 10, 0, 0, 0, 0, 42, 0, 0, 7, 0x67706962, 0x302C3500,
    0x80000040, 2, 0, 2, 0x0607AF, 1, 11, 0, 0, 0, 0, 1, 10000, 0, 8, 1, 0x41000000,
];

/// The reply to the create_link: error 0, link 1, the abort port, and at most 262,144 bytes a write.
pub(crate) const CREATED: [u32; 11] = [0x80000028, 1, 1, 0, 0, 0, 0, 0, 1, 9011, 262144];

/// The replies where the write is denied: it has error 3.
pub(crate) const DENIED: [u32; 20] = [
    0x80000028, 1, 1, 0, 0, 0, 0, 0, 1, 9011, 262144, 0x80000020, 2, 1, 0, 0, 0, 0, 3, 0,
];

/// The replies where both are denied.
pub(crate) const BOTH_DENIED: [u32; 20] = [
    0x80000028, 1, 1, 0, 0, 0, 0, 3, 0, 0, 0, 0x80000020, 2, 1, 0, 0, 0, 0, 3, 0,
];

/// The replies where both are allowed: the second has error 0, and one byte was written.
pub(crate) const WRITTEN: [u32; 20] = [
    0x80000028, 1, 1, 0, 0, 0, 0, 0, 1, 9011, 262144, 0x80000020, 2, 1, 0, 0, 0, 0, 0, 1,
];
