//! Pending calls as words, without their bytes and handles.
ghost use Rattle.std.specs.Prelude.{◌≡◌, ℕ, List, [], true};
ghost use Rattle.vx_calls.specs.Call.{call_shown};
ghost use Rattle.vx_rules.specs.AtomicStep.{may_wait};
ghost use Rattle.vx_state.specs.Held.{kept_call, text_of, handle_of, is_table_call};
ghost use Rattle.vx_rules.specs.Dials.{dials_to};
ghost use Rattle.vx_rules.specs.Calls.{proc_of, link_named, is_bus_call, is_lock_call, asks_dial, asks_wait, lock_timeout_of, io_timeout_of, is_big, waits_lock};

use arrayvec::ArrayVec;
use vx_calls::{CallRef, Generic, Handle, Proc};

/// A call that has come, as words. Its bytes and its handle stand beside it in the row of its connection.
#[derive(Clone, Copy)]
pub(crate) enum Kept {
    CreateLink {
        client: i32,
        lock: bool,
        lock_timeout: u32,
    },
    Write {
        lid: u32,
        io_timeout: u32,
        lock_timeout: u32,
        flags: u32,
    },
    Read {
        lid: u32,
        request: u32,
        io_timeout: u32,
        lock_timeout: u32,
        flags: u32,
        term: u8,
    },
    ReadStb(Generic),
    Trigger(Generic),
    Clear(Generic),
    Remote(Generic),
    Local(Generic),
    Lock {
        lid: u32,
        flags: u32,
        lock_timeout: u32,
    },
    Unlock {
        lid: u32,
    },
    EnableSrq {
        lid: u32,
        enable: bool,
    },
    Docmd {
        lid: u32,
        flags: u32,
        io_timeout: u32,
        lock_timeout: u32,
        cmd: u32,
        big: bool,
        size: u32,
    },
    DestroyLink {
        lid: u32,
    },
    CreateIntr {
        host: u32,
        port: u32,
        prog: u32,
        vers: u32,
        family: u32,
    },
    DestroyIntr,
}

/// Whether a call may be without an answer, of which `Tables::arrive` is told: device_abort is answered at once, and the
/// null procedure asks nothing.
pub fn may_wait(call: &CallRef<'_>) -> bool
    ensures { result ≡ may_wait (call_shown call.now) }
{
    match call {
        CallRef::Null | CallRef::DeviceAbort { .. } => false,
        _ => true,
    }
}

/// The words of a call that may wait.
pub(crate) fn words_of(call: &CallRef<'_>) -> Kept
    requires { may_wait (call_shown call.now) ≡ true }
    ensures { kept_call result (text_of (call_shown call.now)) (handle_of (call_shown call.now)) ≡ call_shown call.now }
{
    match *call {
        CallRef::CreateLink {
            client,
            lock,
            lock_timeout,
            ..
        } => Kept::CreateLink {
            client,
            lock,
            lock_timeout,
        },
        CallRef::Write {
            lid,
            io_timeout,
            lock_timeout,
            flags,
            ..
        } => Kept::Write {
            lid,
            io_timeout,
            lock_timeout,
            flags,
        },
        CallRef::Read {
            lid,
            request,
            io_timeout,
            lock_timeout,
            flags,
            term,
        } => Kept::Read {
            lid,
            request,
            io_timeout,
            lock_timeout,
            flags,
            term,
        },
        CallRef::ReadStb(generic) => Kept::ReadStb(generic),
        CallRef::Trigger(generic) => Kept::Trigger(generic),
        CallRef::Clear(generic) => Kept::Clear(generic),
        CallRef::Remote(generic) => Kept::Remote(generic),
        CallRef::Local(generic) => Kept::Local(generic),
        _ => other_words_of(call),
    }
}

/// The same of a call that isn't create_link and needs no device.
fn other_words_of(call: &CallRef<'_>) -> Kept
    requires waits { may_wait (call_shown call.now) ≡ true }
    requires other { is_table_call (call_shown call.now) ≡ true }
    ensures { kept_call result (text_of (call_shown call.now)) (handle_of (call_shown call.now)) ≡ call_shown call.now }
{
    match *call {
        CallRef::Lock {
            lid,
            flags,
            lock_timeout,
        } => Kept::Lock {
            lid,
            flags,
            lock_timeout,
        },
        CallRef::Unlock { lid } => Kept::Unlock { lid },
        CallRef::EnableSrq { lid, enable, .. } => Kept::EnableSrq { lid, enable },
        CallRef::Docmd {
            lid,
            flags,
            io_timeout,
            lock_timeout,
            cmd,
            big,
            size,
            ..
        } => Kept::Docmd {
            lid,
            flags,
            io_timeout,
            lock_timeout,
            cmd,
            big,
            size,
        },
        CallRef::DestroyLink { lid } => Kept::DestroyLink { lid },
        CallRef::CreateIntr {
            host,
            port,
            prog,
            vers,
            family,
        } => Kept::CreateIntr {
            host,
            port,
            prog,
            vers,
            family,
        },
        CallRef::DestroyIntr => Kept::DestroyIntr,
        _ => unreachable!(),
    }
}

/// The device text or the data of a call.
pub(crate) fn text_of<'a>(call: &CallRef<'a>) -> &'a [u8]
    ensures { result.now ≡ text_of (call_shown call.now) }
{
    match *call {
        CallRef::CreateLink { device, .. } => device,
        CallRef::Write { bytes, .. } => bytes,
        CallRef::Docmd { bytes, .. } => bytes,
        _ => &[],
    }
}

/// The handle of a call, or an empty one.
pub(crate) fn handle_of(call: &CallRef<'_>) -> Handle
    ensures { result.bytes.items ≡ handle_of (call_shown call.now) }
{
    match call {
        CallRef::EnableSrq { handle, .. } => copied(handle),
        _ => no_handle(),
    }
}

/// The same handle once more.
pub(crate) fn copied(handle: &Handle) -> Handle
    ensures { result.bytes.items ≡ handle.now.bytes.items }
{
    let mut bytes = ArrayVec::new();
    bytes
        .try_extend_from_slice(handle.bytes.as_slice())
        .unwrap();
    Handle { bytes }
}

impl Kept {
    /// The call's procedure.
    pub(crate) fn procedure(self) -> Proc
        ensures { (text handle : List ℕ) → result ≡ proc_of (kept_call self text handle) }
    {
        match self {
            Kept::CreateLink { .. } => Proc::CreateLink,
            Kept::Write { .. } => Proc::Write,
            Kept::Read { .. } => Proc::Read,
            Kept::ReadStb(_) => Proc::ReadStb,
            Kept::Trigger(_) => Proc::Trigger,
            Kept::Clear(_) => Proc::Clear,
            Kept::Remote(_) => Proc::Remote,
            Kept::Local(_) => Proc::Local,
            Kept::Lock { .. } => Proc::Lock,
            Kept::Unlock { .. } => Proc::Unlock,
            Kept::EnableSrq { .. } => Proc::EnableSrq,
            Kept::Docmd { .. } => Proc::Docmd,
            Kept::DestroyLink { .. } => Proc::DestroyLink,
            Kept::CreateIntr { .. } => Proc::CreateIntr,
            Kept::DestroyIntr => Proc::DestroyIntr,
        }
    }

    /// The link that the call names, where it names one.
    pub(crate) fn link(self) -> Option<u32>
        ensures { (text handle : List ℕ) → result ≡ link_named (kept_call self text handle) }
    {
        match self {
            Kept::CreateLink { .. } | Kept::CreateIntr { .. } | Kept::DestroyIntr => None,
            Kept::Write { lid, .. }
            | Kept::Read { lid, .. }
            | Kept::Lock { lid, .. }
            | Kept::Unlock { lid }
            | Kept::EnableSrq { lid, .. }
            | Kept::Docmd { lid, .. }
            | Kept::DestroyLink { lid } => Some(lid),
            Kept::ReadStb(generic)
            | Kept::Trigger(generic)
            | Kept::Clear(generic)
            | Kept::Remote(generic)
            | Kept::Local(generic) => Some(generic.lid),
        }
    }

    /// Whether the call needs the bus.
    pub(crate) fn needs_bus(self) -> bool
        ensures { (text handle : List ℕ) → result ≡ is_bus_call (kept_call self text handle) }
    {
        match self {
            Kept::Write { .. }
            | Kept::Read { .. }
            | Kept::ReadStb(_)
            | Kept::Trigger(_)
            | Kept::Clear(_)
            | Kept::Remote(_)
            | Kept::Local(_)
            | Kept::Docmd { .. } => true,
            _ => false,
        }
    }

    /// Whether the call takes a lock.
    pub(crate) fn takes_lock(self) -> bool
        ensures { (text handle : List ℕ) → result ≡ is_lock_call (kept_call self text handle) }
    {
        match self {
            Kept::CreateLink { lock, .. } => lock,
            Kept::Lock { .. } => true,
            _ => false,
        }
    }

    /// Whether the call needs a dial.
    pub(crate) fn needs_dial(self) -> bool
        ensures { (text handle : List ℕ) → result ≡ asks_dial (kept_call self text handle) }
    {
        match self {
            Kept::CreateIntr { .. } => true,
            _ => false,
        }
    }

    /// The IPv4 address and the TCP port that a create_intr_chan names.
    pub(crate) fn dials_to(self) -> (u32, u32)
        ensures { (text handle : List ℕ) → result ≡ dials_to (kept_call self text handle) }
    {
        match self {
            Kept::CreateIntr { host, port, .. } => (host, port),
            _ => (0, 0),
        }
    }

    /// Whether the call waits for a lock that another link holds.
    pub(crate) fn waits(self) -> bool
        ensures { (text handle : List ℕ) → result ≡ asks_wait (kept_call self text handle) }
    {
        match self {
            Kept::CreateLink { .. } => true,
            Kept::Write { flags, .. }
            | Kept::Read { flags, .. }
            | Kept::Lock { flags, .. }
            | Kept::Docmd { flags, .. } => waits_lock(flags),
            Kept::ReadStb(generic)
            | Kept::Trigger(generic)
            | Kept::Clear(generic)
            | Kept::Remote(generic)
            | Kept::Local(generic) => waits_lock(generic.flags),
            _ => false,
        }
    }

    /// How long at most, in milliseconds.
    pub(crate) fn lock_timeout(self) -> u32
        ensures { (text handle : List ℕ) → result ≡ lock_timeout_of (kept_call self text handle) }
    {
        match self {
            Kept::CreateLink { lock_timeout, .. }
            | Kept::Write { lock_timeout, .. }
            | Kept::Read { lock_timeout, .. }
            | Kept::Lock { lock_timeout, .. }
            | Kept::Docmd { lock_timeout, .. } => lock_timeout,
            Kept::ReadStb(generic)
            | Kept::Trigger(generic)
            | Kept::Clear(generic)
            | Kept::Remote(generic)
            | Kept::Local(generic) => generic.lock_timeout,
            _ => 0,
        }
    }

    /// How long its turn on the bus may be held, in milliseconds from its beginning.
    pub(crate) fn io_timeout(self) -> u32
        ensures { (text handle : List ℕ) → result ≡ io_timeout_of (kept_call self text handle) }
    {
        match self {
            Kept::Write { io_timeout, .. }
            | Kept::Read { io_timeout, .. }
            | Kept::Docmd { io_timeout, .. } => io_timeout,
            Kept::ReadStb(generic)
            | Kept::Trigger(generic)
            | Kept::Clear(generic)
            | Kept::Remote(generic)
            | Kept::Local(generic) => generic.io_timeout,
            _ => 0,
        }
    }

    /// Whether the numbers in its data have their high byte first.
    pub(crate) fn is_big(self) -> bool
        ensures { (text handle : List ℕ) → result ≡ is_big (kept_call self text handle) }
    {
        match self {
            Kept::Docmd { big, .. } => big,
            _ => true,
        }
    }
}

/// The flag waitlock (VXI-11, Device_Flags).
fn waits_lock(flags: u32) -> bool
    ensures { result ≡ waits_lock flags }
{
    flags % 2 == 1
}

/// A handle without bytes.
pub(crate) fn no_handle() -> Handle
    ensures { result.bytes.items ≡ [] }
{
    Handle {
        bytes: ArrayVec::new(),
    }
}
