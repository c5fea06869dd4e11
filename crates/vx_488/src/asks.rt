use crate::transfers::Transfer;

/// The most asks that a bus takes between two cuts.
pub const ASK_MAX: u32 = 65552;

/// What an ask that sends something answers.
#[derive(Clone, Copy, PartialEq, Eq)]
pub enum Move {
    /// The transfer was made.
    Went,
    /// It wasn't made yet: somebody on the bus isn't ready.
    Held,
    /// It wasn't made: the bus failed.
    Failed,
}

/// What a get answers.
#[derive(Clone, Copy, PartialEq, Eq)]
pub enum GetOut {
    /// The talker gave this byte, and whether END stood on it.
    Byte { b: u8, end: bool },
    /// No byte came yet: nobody talks, or the talker isn't ready.
    Held,
    /// No byte came: the bus failed.
    Failed,
}

/// What a bus is asked to transfer.
#[derive(Clone, Copy, PartialEq, Eq)]
pub enum Ask {
    /// To send this command byte.
    Cmd(u8),
    /// To send this data byte, with END or without.
    Put { b: u8, end: bool },
    /// To take a byte from the talker.
    Get,
    /// To switch remote enable.
    Ren(bool),
    /// To switch attention.
    Atn(bool),
    /// To send interface clear.
    Ifc,
    /// To make this the gateway's own address.
    Own(u8),
}

impl From<Transfer> for Ask {
    ghost use Rattle.std.specs.Prelude.{◌≡◌};
    ghost use Rattle.vx_488.specs.Steps.{ask_for};

    ghost from_gives = { λ t asked. asked ≡ ask_for t };

    /// The ask that may make this transfer.
    fn from(t: Transfer) -> Ask
        ensures { result ≡ ask_for t }
    {
        match t {
            Transfer::Cmd(b) => Ask::Cmd(b),
            Transfer::Put { b, end } => Ask::Put { b, end },
            Transfer::Got { .. } => Ask::Get,
            Transfer::Ren(on) => Ask::Ren(on),
            Transfer::Atn(on) => Ask::Atn(on),
            Transfer::Ifc => Ask::Ifc,
            Transfer::Own(address) => Ask::Own(address),
        }
    }
}
