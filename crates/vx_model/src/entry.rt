use vx_488::Transfer;
use vx_calls::{CallRef, ErrorCode, ReplyRef, Role, Taken};

/// What happens to the gateway of one thread. Moments are in milliseconds.
#[derive(Drop)]
pub enum EntryRef<'a> {
    /// A connection of this role comes up and gets this number.
    Up {
        conn: u32,
        role: Role,
    },
    /// A connection goes down, whose turn, where it had one, made these transfers.
    Down {
        conn: u32,
        moves: &'a [Transfer],
    },
    /// A call comes on a connection.
    Arrive {
        conn: u32,
        call: CallRef<'a>,
        now: u64,
    },
    /// The call of a connection is answered. Its turn began at `begun`, or at 0 where there was none, and made these
    /// transfers; `failed` where the bus failed, `dialed` where a dial was made, and `level` the level of SRQ or NDAC that a
    /// bus status tells.
    Answer {
        conn: u32,
        now: u64,
        begun: u64,
        moves: &'a [Transfer],
        failed: bool,
        dialed: Option<bool>,
        level: bool,
        reply: ReplyRef<'a>,
    },
    /// A device_abort on an abort connection.
    Abort {
        conn: u32,
        lid: u32,
        reply: ErrorCode,
    },
    /// The level of the SRQ line is sampled.
    Sample {
        now: u64,
        srq: bool,
    },
    /// An interrupt is asked for, from a channel of a connection.
    Take {
        conn: u32,
        chan: u32,
        taken: Taken,
    },
}
