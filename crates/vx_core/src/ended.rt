//! How a poll ended, and the reply that the core keeps then, whose bytes stand at the front of its room.
ghost use Rattle.std.specs.Prelude.{◌≡◌, ◌≤◌, ℕ, List, length, take};
ghost use Rattle.vx_calls.specs.Reply.{reply_shown};
ghost use Rattle.vx_core.specs.Given.{given_reply, given_len, reply_bytes};

use vx_calls::{ErrorCode, ReplyRef};
use vx_flow::{Ran, Why};

/// How a poll ended.
#[derive(Clone, Copy)]
pub enum Ended {
    /// With a reply; the level is what a bus status was told.
    Answered {
        ran: Ran,
        level: bool,
        given: StoredReply,
    },
    /// Without one.
    Waited(Why),
    /// With a dial that is asked for.
    Dialed {
        host: u32,
        port: u16,
    },
}

impl Ended {
    ghost use Rattle.vx_core.specs.Ending.{has_run};

    /// Whether the poll went on with its call's turn.
    pub fn has_run(&self) -> bool
        ensures { result ≡ has_run self.now }
    {
        match *self {
            Ended::Answered {
                ran: Ran::Still,
                ..
            } => false,
            Ended::Answered { .. } => true,
            Ended::Waited(Why::Held | Why::Slice) => true,
            Ended::Waited(_) => false,
            Ended::Dialed { .. } => false,
        }
    }
}

/// What became of a create_intr_chan whose dial was made.
#[derive(Clone, Copy, PartialEq, Eq)]
pub struct Settled {
    /// `Ok` where the dial came up, and `NoChannel` where it didn't.
    pub error: ErrorCode,
    /// The number of the new channel, where the dial came up.
    pub chan: Option<u32>,
}

/// A reply. A read's bytes, and those of a device_docmd, are so many at the front of the room.
#[derive(Clone, Copy)]
pub enum StoredReply {
    Null,
    CreateLink {
        error: ErrorCode,
        lid: u32,
        abort_port: u32,
        max: u32,
    },
    Write {
        error: ErrorCode,
        size: u32,
    },
    Read {
        error: ErrorCode,
        reason: u32,
        len: usize,
    },
    Stb {
        error: ErrorCode,
        stb: u8,
    },
    Docmd {
        error: ErrorCode,
        len: usize,
    },
    Error(ErrorCode),
}

impl StoredReply {
    /// A reply without its bytes, which stand at the front of the room.
    pub fn of(reply: &ReplyRef<'_>) -> StoredReply
        ensures reply { (room : List ℕ) → take (length (reply_bytes (reply_shown reply.now))) room ≡ reply_bytes (reply_shown reply.now)
            → given_reply result room ≡ reply_shown reply.now }
        ensures len { given_len result ≡ length (reply_bytes (reply_shown reply.now)) }
    {
        match *reply {
            ReplyRef::Null => StoredReply::Null,
            ReplyRef::CreateLink {
                error,
                lid,
                abort_port,
                max,
            } => StoredReply::CreateLink {
                error,
                lid,
                abort_port,
                max,
            },
            ReplyRef::Write { error, size } => StoredReply::Write { error, size },
            ReplyRef::Read {
                error,
                reason,
                bytes,
            } => StoredReply::Read {
                error,
                reason,
                len: bytes.len(),
            },
            ReplyRef::Stb { error, stb } => StoredReply::Stb { error, stb },
            ReplyRef::Docmd { error, bytes } => StoredReply::Docmd {
                error,
                len: bytes.len(),
            },
            ReplyRef::Error { error } => StoredReply::Error(error),
        }
    }

    /// The reply, with its bytes from the front of the room.
    pub fn lend<'a>(&self, room: &'a [u8]) -> ReplyRef<'a>
        requires { given_len self.now ≤ length room.now }
        ensures { reply_shown result ≡ given_reply self.now room.entry.now }
    {
        match *self {
            StoredReply::Null => ReplyRef::Null,
            StoredReply::CreateLink {
                error,
                lid,
                abort_port,
                max,
            } => ReplyRef::CreateLink {
                error,
                lid,
                abort_port,
                max,
            },
            StoredReply::Write { error, size } => ReplyRef::Write { error, size },
            StoredReply::Read { error, reason, len } => ReplyRef::Read {
                error,
                reason,
                bytes: &room[..len],
            },
            StoredReply::Stb { error, stb } => ReplyRef::Stb { error, stb },
            StoredReply::Docmd { error, len } => ReplyRef::Docmd {
                error,
                bytes: &room[..len],
            },
            StoredReply::Error(error) => ReplyRef::Error { error },
        }
    }
}
