/// The greatest bus address, primary or secondary (IEEE 488.1, 2.6).
pub const ADDRESS_MAX: u8 = 30;

/// An address on the bus: a primary and perhaps a secondary one, each 0 to 30 (IEEE 488.1, 2.6).
#[derive(Clone, Copy, PartialEq, Eq)]
pub struct Addr {
    pub p: u8,
    pub s: Option<u8>,
}

/// A line of the bus that a controller sets.
#[derive(Clone, Copy, PartialEq, Eq)]
pub enum Line {
    /// Remote enable.
    Ren,
    /// Attention.
    Atn,
}

/// What went over the bus in one step.
#[derive(Clone, Copy, PartialEq, Eq)]
pub enum Transfer {
    /// A command byte: a byte that the controller sends with ATN on. It means its low seven bits (IEEE 488.1, 2.13).
    Cmd(u8),
    /// A data byte that the gateway sends, and whether END (EOI) stood on it.
    Put { b: u8, end: bool },
    /// A data or status byte that the gateway takes from the talker, and whether END stood on it.
    Got { b: u8, end: bool },
    /// Remote enable goes on or off.
    Ren(bool),
    /// Attention goes on or off by itself.
    Atn(bool),
    /// Interface clear.
    Ifc,
    /// The gateway's own bus address is this from here on.
    Own(u8),
}
