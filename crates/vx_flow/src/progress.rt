//! How far a poll of a call goes: why it may end without an answer, and how far it went on with its call's turn.

/// How far a poll went on with its call's turn.
#[derive(Clone, Copy)]
pub enum Ran {
    /// Not at all.
    Still,
    /// To its end.
    Finished,
    /// Until the bus held.
    Paused,
    /// Until the bus failed.
    Broken,
    /// Until it had made as many transfers as one poll may.
    Sliced,
}

/// Why a call isn't answered yet.
#[derive(Clone, Copy, PartialEq, Eq)]
pub enum Why {
    /// The link of this number holds a lock on a conflicting target.
    Locked { by: u32 },
    /// The call of this connection came first, may wait for a lock, and is on a conflicting target.
    Behind { by: u32 },
    /// The turn of this connection on the bus is under way.
    Turn { by: u32 },
    /// The bus held.
    Held,
    /// The poll made as many transfers as one may, and the turn isn't done. It waits for nobody.
    Slice,
}
