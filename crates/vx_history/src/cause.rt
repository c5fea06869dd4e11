//! Why a line of a trace isn't taken.

/// What is against a line of a trace. Where several causes are, the one that stands first here counts.
#[derive(Clone, Copy, PartialEq, Eq)]
pub enum Cause {
    /// Version 2 has no such line.
    Form,
    /// Its moment is below that of an earlier line.
    Moment,
    /// It can't stand at its place.
    Place,
    /// Its bytes aren't the record that they have to be.
    Reply,
    /// The gateway of one thread doesn't do so.
    Entry,
}

/// Why a line isn't taken, or can't be looked at.
#[derive(Clone, Copy)]
pub(crate) enum Stop {
    Spoiled(Cause),
    NoMemory,
}
