use crate::calls::Handle;
use crate::codes::ErrorCode;

/// The results of a call. Where the error isn't `Ok`, the other results are those of a call that did nothing, but
/// for the bytes that a write had put and a read had got.
#[derive(Clone, Copy)]
pub enum ReplyRef<'a> {
    Null,
    CreateLink {
        error: ErrorCode,
        lid: u32,
        abort_port: u32,
        max: u32,
    },
    Write {
        error: ErrorCode,
        size: u32,
    },
    Read {
        error: ErrorCode,
        reason: u32,
        bytes: &'a [u8],
    },
    Stb {
        error: ErrorCode,
        stb: u8,
    },
    Docmd {
        error: ErrorCode,
        bytes: &'a [u8],
    },
    Error {
        error: ErrorCode,
    },
}

/// One device_intr_srq that goes out on an interrupt channel: its xid, the program and version that the channel was
/// made with, and the link's handle.
#[derive(Drop)]
pub struct Interrupt {
    pub xid: u32,
    pub prog: u32,
    pub vers: u32,
    pub handle: Handle,
}

/// What a take from an interrupt channel gives: the front of its outbox, nothing, or that the channel is gone.
#[derive(Drop)]
pub enum Taken {
    Srq(Interrupt),
    Empty,
    Gone,
}
