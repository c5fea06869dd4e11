//! How a run ends.

/// How a run ended, as the exit status tells it.
#[derive(Clone, Copy, PartialEq, Eq)]
pub(crate) enum Status {
    /// 0: it did what was asked for.
    Done,
    /// 1: the words have another form.
    Usage,
    /// 3: the port can't be had.
    NoPort,
    /// 4: a call of the client failed.
    CallFailed,
    /// 5: there is no memory or no thread, no link came, or one ended otherwise than by its own end.
    Refused,
    /// 6: a row can't be read or told of, or there is no memory to play it.
    NoRow,
}

impl Status {
    /// The exit status.
    pub(crate) fn number(self) -> u8 {
        match self {
            Status::Done => 0,
            Status::Usage => 1,
            Status::NoPort => 3,
            Status::CallFailed => 4,
            Status::Refused => 5,
            Status::NoRow => 6,
        }
    }
}
