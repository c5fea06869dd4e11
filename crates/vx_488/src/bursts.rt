use crate::asks::Move;

/// What a burst of puts came to.
#[derive(Clone, Copy, PartialEq, Eq)]
pub struct Many {
    /// How many of its bytes went.
    pub moved: usize,
    /// What the last ask answered.
    pub last: Move,
}

/// Why a burst of gets stopped.
#[derive(Clone, Copy, PartialEq, Eq)]
pub enum Stop {
    /// Its room is full.
    Full,
    /// END stood on the last byte.
    End,
    /// The last byte is the stop byte.
    Char,
    /// The next byte didn't come yet.
    Held,
    /// The next byte didn't come: the bus failed.
    Failed,
}

/// What a burst of gets came to.
#[derive(Clone, Copy, PartialEq, Eq)]
pub struct ManyGot {
    /// How many bytes came.
    pub got: usize,
    /// Why no more did.
    pub stop: Stop,
}
