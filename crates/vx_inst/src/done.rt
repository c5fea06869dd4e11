/// A call that may change an instrument.
#[derive(Clone, Copy, PartialEq, Eq)]
pub enum Done {
    /// It took a byte, with END or without.
    Took { b: u8, end: bool },
    /// It gave a byte.
    Gave,
    /// It gave its status byte for a serial poll.
    Polled,
    Cleared,
    Triggered,
    /// It went to local control.
    ToLocal,
    /// Its status byte was set.
    StatusSet(u8),
    /// It was told a moment, in milliseconds.
    Told(u64),
}
