//! What the calls of a client take and answer.

use vx_rpc::RpcRefusal;

/// Why a call gave no results.
#[derive(Clone, Copy, Debug, PartialEq, Eq)]
pub enum ClientErr {
    /// The device answered this error, which isn't 0 (VXI-11, Device_ErrorCode).
    Device(u32),
    /// The server refused the call.
    Rpc(RpcRefusal),
    /// What came is no reply to this call: a record of so many bytes, `REPLY_MAX` + 1 for every longer one.
    BadReply {
        /// How many bytes the record has.
        length: usize,
    },
    /// The input ended before a reply had come.
    Closed,
    /// A receive failed.
    ReadFault,
    /// A send failed.
    WriteFault,
    /// An earlier call ended with one of the four above. Nothing was sent.
    Spent,
}

/// The flags and the timeouts, in milliseconds, that most calls send.
#[derive(Clone, Copy)]
pub struct CallOpts {
    /// 0x01 waitlock, 0x08 end, 0x80 termchrset (VXI-11, Device_Flags).
    pub flags: u32,
    /// How long the device may take.
    pub io_timeout: u32,
    /// How long the call may wait for a lock of another link.
    pub lock_timeout: u32,
}

/// A link that was made (VXI-11, Create_LinkResp).
#[derive(Clone, Copy, PartialEq, Eq)]
pub struct LinkMade {
    /// Its number, which the other calls name.
    pub lid: u32,
    /// The TCP port of the abort channel.
    pub abort_port: u32,
    /// The most bytes of one device_write.
    pub max: u32,
}

/// How a read ended.
#[derive(Clone, Copy, PartialEq, Eq)]
pub struct ReadEnd {
    /// How many bytes were read.
    pub len: usize,
    /// Why the device stopped: 1 REQCNT, 2 CHR, 4 END, or several of them; 0 where none was told.
    pub reason: u32,
}

/// There was no memory for a client; the link comes back.
#[derive(Debug, Drop)]
pub struct NewRefused<L> {
    pub link: L,
}
