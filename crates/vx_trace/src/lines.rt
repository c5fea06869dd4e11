ghost use Rattle.std.specs.Prelude.{◌≡◌, ◌↔◌, IsTrue};
ghost use Rattle.vx_trace.specs.Output.{line_shown};
ghost use Rattle.vx_trace.specs.Text.{IsWhole, is_cause, is_first, is_timed};

use vx_488::Transfer;
use vx_calls::Role;

/// The room is too small for the line.
#[derive(Clone, Copy, Debug, PartialEq, Eq)]
pub struct Full;

/// A line of output. `conn` is the number of the connection that it is about. The last six are lines of version 2 alone.
#[derive(Clone, Copy, PartialEq, Eq)]
pub enum Line<'a> {
    /// `bus C T T T`: these transfers, at least one, went over the bus.
    Bus { conn: u32, moves: &'a [Transfer] },
    /// `out C HEX`: a reply, at least one byte, its record mark included.
    Out { conn: u32, bytes: &'a [u8] },
    /// `irq C HEX`: an interrupt call, at least one byte, its record mark included.
    Irq { conn: u32, bytes: &'a [u8] },
    /// `irq C none`: no interrupt waits.
    IrqNone { conn: u32 },
    /// `irq C closed`: there is no interrupt channel.
    IrqClosed { conn: u32 },
    /// `wait C lock L`: the call waits for the lock of this link.
    WaitLock { conn: u32, lid: u32 },
    /// `wait C turn D`: the call waits for the turn of this connection on the bus.
    WaitTurn { conn: u32, by: u32 },
    /// `wait C behind D`: the call waits behind that of this connection, which came first.
    WaitBehind { conn: u32, by: u32 },
    /// `wait C held`: the call waits for the bus.
    WaitHeld { conn: u32 },
    /// `wait C slice`: the call's turn goes on with its next poll.
    WaitSlice { conn: u32 },
    /// `wait C dial`: the call waits for an interrupt channel to be dialed.
    WaitDial { conn: u32 },
    /// `gone C down`: the connection was taken down.
    GoneDown { conn: u32 },
    /// `gone C junk`: the connection ended by a record that isn't a call.
    GoneJunk { conn: u32 },
    /// `gone C long`: the connection ended by a record above the limit.
    GoneLong { conn: u32 },
    /// `done`: the script was played to its end.
    Done,
    /// `fault line N CAUSE`: the step of this line, counted from 1, was refused; `word` is the name of the cause.
    FaultLine { line: u64, word: &'a [u8] },
    /// `fault long`: the script is too long.
    FaultLong,
    /// `usage: vxplay COMMAND`: the words aren't a command.
    Usage,
    /// `vxtrace 2`: what follows has version 2.
    TraceHead,
    /// `up C core` or `up C abort`: the connection came up on this channel.
    Up { conn: u32, role: Role },
    /// `call C HEX`: a whole record came, its message without marks; it may have no byte.
    Call { conn: u32, bytes: &'a [u8] },
    /// `begin C`: the connection's turn on the bus began.
    Begin { conn: u32 },
    /// `dial C ok` or `dial C fail`: the interrupt channel came up, or not.
    DialDone { conn: u32, up: bool },
    /// `srq 0` or `srq 1`: the service request line had this level when it was looked at.
    Srq { level: bool },
}

impl Line<'_> {
    /// Whether this is one of the output lines: a bus line has a transfer, a reply and an interrupt have a byte, and a
    /// fault's word is the name of a cause.
    pub fn is_whole(&self) -> bool
        ensures { IsTrue result ↔ IsWhole (line_shown self.now) }
    {
        match *self {
            Line::Bus { moves, .. } => !moves.is_empty(),
            Line::Out { bytes, .. } | Line::Irq { bytes, .. } => !bytes.is_empty(),
            Line::FaultLine { word, .. } => is_cause(word),
            _ => true,
        }
    }

    /// Whether version 1 of the output has this line.
    pub fn is_first(&self) -> bool
        ensures { result ≡ is_first (line_shown self.now) }
    {
        !matches!(
            self,
            Line::TraceHead
                | Line::Up { .. }
                | Line::Call { .. }
                | Line::Begin { .. }
                | Line::DialDone { .. }
                | Line::Srq { .. }
        )
    }

    /// Whether a moment stands before this line in version 2: before any but the head and the last lines.
    pub fn is_timed(&self) -> bool
        ensures { result ≡ is_timed (line_shown self.now) }
    {
        !matches!(
            self,
            Line::TraceHead | Line::Done | Line::FaultLine { .. } | Line::FaultLong | Line::Usage
        )
    }
}

/// The names of the causes for which a step of a script is refused.
const CAUSES: [&[u8]; 14] = [
    b"form", b"number", b"full", b"conn", b"busy", b"after", b"idle", b"json", b"rule", b"spare",
    b"own", b"taken", b"bench", b"absent",
];

/// Whether a word is the name of a cause.
pub fn is_cause(word: &[u8]) -> bool
    ensures { result ≡ is_cause word.now }
{
    CAUSES.contains(&word)
}
