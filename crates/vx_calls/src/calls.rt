use arrayvec::ArrayVec;

/// Which of the gateway's two server channels a connection speaks (VXI-11, core and abort channel).
#[derive(Clone, Copy, PartialEq, Eq)]
pub enum Role {
    /// The core channel, program 0x0607AF: links and all that is done through them.
    Core,
    /// The abort channel, program 0x0607B0: device_abort alone.
    Abort,
}

/// The handle that a device_enable_srq leaves with a link and each of its interrupts gives back: 0 to 40 bytes.
#[derive(Drop)]
pub struct Handle {
    pub bytes: ArrayVec<u8, 40>,
}

/// The arguments that device_readstb, device_trigger, device_clear, device_remote and device_local share
/// (VXI-11, Device_GenericParms). The timeouts are in milliseconds.
#[derive(Clone, Copy, PartialEq, Eq)]
pub struct Generic {
    pub lid: u32,
    pub flags: u32,
    pub lock_timeout: u32,
    pub io_timeout: u32,
}

/// A procedure of the core or the abort channel (VXI-11, programs DEVICE_CORE and DEVICE_ASYNC).
#[derive(Clone, Copy, PartialEq, Eq)]
pub enum Proc {
    /// Procedure 0 of each program: no arguments, no results.
    Null,
    CreateLink,
    Write,
    Read,
    ReadStb,
    Trigger,
    Clear,
    Remote,
    Local,
    Lock,
    Unlock,
    EnableSrq,
    Docmd,
    DestroyLink,
    CreateIntr,
    DestroyIntr,
    DeviceAbort,
}

/// A call as its arguments say it. Timeouts are in milliseconds; byte strings are slices of the record that the
/// call came in.
#[derive(Drop)]
pub enum CallRef<'a> {
    Null,
    CreateLink {
        client: i32,
        lock: bool,
        lock_timeout: u32,
        device: &'a [u8],
    },
    Write {
        lid: u32,
        io_timeout: u32,
        lock_timeout: u32,
        flags: u32,
        bytes: &'a [u8],
    },
    Read {
        lid: u32,
        request: u32,
        io_timeout: u32,
        lock_timeout: u32,
        flags: u32,
        term: u8,
    },
    ReadStb(Generic),
    Trigger(Generic),
    Clear(Generic),
    Remote(Generic),
    Local(Generic),
    Lock {
        lid: u32,
        flags: u32,
        lock_timeout: u32,
    },
    Unlock {
        lid: u32,
    },
    EnableSrq {
        lid: u32,
        enable: bool,
        handle: Handle,
    },
    Docmd {
        lid: u32,
        flags: u32,
        io_timeout: u32,
        lock_timeout: u32,
        cmd: u32,
        big: bool,
        size: u32,
        bytes: &'a [u8],
    },
    DestroyLink {
        lid: u32,
    },
    CreateIntr {
        host: u32,
        port: u32,
        prog: u32,
        vers: u32,
        family: u32,
    },
    DestroyIntr,
    DeviceAbort {
        lid: u32,
    },
}
