//! How long a server bears with peers that say nothing, or take nothing, and a reach with its server.

/// How long a server's sockets bear with a peer, in seconds each; 0 for without end.
#[derive(Clone, Copy)]
pub struct Timeouts {
    /// A connection whose host is gone without a word is found out after about so long, and so is a peer that takes nothing of
    /// what is due to it for as long. More than 32,767 s count as so many.
    pub keepalive: u32,
    /// A send of which the peer takes nothing for so long fails.
    pub send: u32,
    /// A receive over the net's own port that gets no byte for so long fails.
    pub idle: u32,
    /// A receive over another port that gets no byte for so long fails, but only where another connection to such a port has waited
    /// for its first receive for a second or two; else it goes on waiting.
    pub abort_idle: u32,
}

impl Timeouts {
    /// Each without end.
    pub const NONE: Timeouts = Timeouts {
        keepalive: 0,
        send: 0,
        idle: 0,
        abort_idle: 0,
    };
}

/// How long a reach bears with the server that it is for, in milliseconds each, at least 1.
#[derive(Clone, Copy)]
pub struct ReachTimeouts {
    /// An address of the server's host that doesn't answer for so long isn't reached.
    pub connect: u32,
    /// A receive that gets no byte for so long fails.
    pub receive: u32,
    /// A send of which the server takes nothing for so long fails.
    pub send: u32,
}
