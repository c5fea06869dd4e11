/// How many connections of one role may live at once.
pub const ROLE_MAX: usize = 64;

/// The greatest number of a connection or of an interrupt channel. The least is 1.
pub const CONNECTION_LAST: u32 = 0x7FFF_FFFF;

/// How many links may live at once, over all connections.
pub const LINK_MAX: u32 = 1024;

/// The greatest number of a link. The least is 1.
pub const LINK_LAST: u32 = 0x3FFF_FFFF;

/// The longest data of one device_write, in bytes. No call brings more: [`DOCMD_MAX`] is no greater.
pub const WRITE_MAX: u32 = 262_144;

/// The longest data of one device_read, in bytes, however many it asks for.
pub const READ_MAX: u32 = 65536;

/// The longest input of one device_docmd, in bytes.
pub const DOCMD_MAX: u32 = 65536;

/// The most transfers that the bus makes in one poll of a call. A turn that wants more goes on with the call's next poll, so
/// that nobody holds the bus for a long transfer.
pub const SLICE_MAX: u32 = 256;

/// The longest record on a connection of the gateway, in bytes, its fragments taken together and their headers left out.
pub const RECORD_MAX: usize = 263_168;

/// The longest record of a reply that a client takes, in bytes, counted in the same way.
pub const REPLY_MAX: usize = 66560;

/// The most bytes that a client sends in one device_write, where the server takes so many: a piece of what it writes has
/// the smaller of this and the server's maxRecvSize (VXI-11, create_link).
pub const PIECE_MAX: u32 = 65536;

/// The longest device text of a create_link, in bytes.
pub const DEVICE_MAX: usize = 255;

/// The longest handle of a link, in bytes (VXI-11, device_enable_srq).
pub const HANDLE_MAX: usize = 40;
