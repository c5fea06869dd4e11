//! Which bus a call goes to, and as which call.
ghost use Rattle.std.specs.Prelude.{◌≡◌, ◌≤◌, ◌<◌, IsSome, false, length, true};
ghost use Rattle.vx_calls.specs.declared.limits.TheConstants.{DEVICE_MAX};
ghost use Rattle.vx_calls.specs.Call.{call_shown};
ghost use Rattle.vx_rules.specs.Calls.{IsShort, is_bus_call, link_named};
ghost use Rattle.vx_rules.specs.AtomicStep.{may_wait};
ghost use Rattle.vx_desks.specs.Counts.{count_number};
ghost use Rattle.vx_desks.specs.Naming.{bus_of};
ghost use Rattle.vx_desks.specs.Routing.{route_of, route_shown, IsRouted, by_link, fleet_place_of, fleet_with_link, generic_on, text_there};

use crate::routes::counts::Count;
use crate::routes::names::{bus_of, on_first};
use crate::routes::numbers::local;
use arrayvec::ArrayVec;
use vx_calls::{CallRef, DEVICE_MAX, ErrorCode, Generic, Handle, ReplyRef};

/// Where a call of a core connection goes.
#[derive(Drop)]
pub enum Destination<'a> {
    /// To no bus: it is answered by this.
    Refused { answer: ReplyRef<'static> },
    /// To this bus, 0 to 3, as this call there.
    Goes { bus: u8, call: CallRef<'a> },
}

/// The bus of a link that a client names so, and the link's number there. 0, and a link of a bus that isn't served, is link 0, which is
/// none, of bus 0.
pub fn place_of(count: Count, lid: u32) -> (u8, u32)
    ensures place { result ≡ fleet_place_of count lid }
    ensures bus { result.0 < count_number count }
{
    let place = local(lid).unwrap_or((0, 0));
    if count.serves(place.0) { place } else { (0, 0) }
}

/// The link that a call names, where it names one.
fn link_of(call: &CallRef<'_>) -> Option<u32>
    ensures { result ≡ link_named (call_shown call.now) }
{
    match call {
        CallRef::Null
        | CallRef::CreateLink { .. }
        | CallRef::CreateIntr { .. }
        | CallRef::DestroyIntr => None,
        CallRef::Write { lid, .. }
        | CallRef::Read { lid, .. }
        | CallRef::Lock { lid, .. }
        | CallRef::Unlock { lid }
        | CallRef::EnableSrq { lid, .. }
        | CallRef::Docmd { lid, .. }
        | CallRef::DestroyLink { lid }
        | CallRef::DeviceAbort { lid } => Some(*lid),
        CallRef::ReadStb(generic)
        | CallRef::Trigger(generic)
        | CallRef::Clear(generic)
        | CallRef::Remote(generic)
        | CallRef::Local(generic) => Some(generic.lid),
    }
}

/// The parameters that five calls share, for another link.
fn generic_on(generic: &Generic, link: u32) -> Generic
    ensures { result ≡ generic_on generic.now link }
{
    Generic {
        lid: link,
        ..*generic
    }
}

/// The same handle once more.
fn copied(handle: &Handle) -> Handle
    ensures { result.bytes.items ≡ handle.now.bytes.items }
{
    let mut bytes = ArrayVec::new();
    bytes
        .try_extend_from_slice(handle.bytes.as_slice())
        .unwrap();
    Handle { bytes }
}

/// A call that names a link, on another one.
fn on_link<'a>(call: &CallRef<'a>, link: u32) -> CallRef<'a>
    requires { IsSome (link_named (call_shown call.now)) }
    ensures { call_shown result ≡ fleet_with_link (call_shown call.now) link }
{
    match call {
        CallRef::Write {
            io_timeout,
            lock_timeout,
            flags,
            bytes,
            ..
        } => CallRef::Write {
            lid: link,
            io_timeout: *io_timeout,
            lock_timeout: *lock_timeout,
            flags: *flags,
            bytes: *bytes,
        },
        CallRef::Read {
            request,
            io_timeout,
            lock_timeout,
            flags,
            term,
            ..
        } => CallRef::Read {
            lid: link,
            request: *request,
            io_timeout: *io_timeout,
            lock_timeout: *lock_timeout,
            flags: *flags,
            term: *term,
        },
        CallRef::ReadStb(generic) => CallRef::ReadStb(generic_on(generic, link)),
        CallRef::Trigger(generic) => CallRef::Trigger(generic_on(generic, link)),
        CallRef::Clear(generic) => CallRef::Clear(generic_on(generic, link)),
        CallRef::Remote(generic) => CallRef::Remote(generic_on(generic, link)),
        CallRef::Local(generic) => CallRef::Local(generic_on(generic, link)),
        CallRef::Docmd {
            flags,
            io_timeout,
            lock_timeout,
            cmd,
            big,
            size,
            bytes,
            ..
        } => CallRef::Docmd {
            lid: link,
            flags: *flags,
            io_timeout: *io_timeout,
            lock_timeout: *lock_timeout,
            cmd: *cmd,
            big: *big,
            size: *size,
            bytes: *bytes,
        },
        _ => other_on_link(call, link),
    }
}

/// The same of a call that doesn't need the bus.
fn other_on_link<'a>(call: &CallRef<'a>, link: u32) -> CallRef<'a>
    requires linked { IsSome (link_named (call_shown call.now)) }
    requires other { is_bus_call (call_shown call.now) ≡ false }
    ensures { call_shown result ≡ fleet_with_link (call_shown call.now) link }
{
    match call {
        CallRef::Lock {
            flags,
            lock_timeout,
            ..
        } => CallRef::Lock {
            lid: link,
            flags: *flags,
            lock_timeout: *lock_timeout,
        },
        CallRef::Unlock { .. } => CallRef::Unlock { lid: link },
        CallRef::EnableSrq { enable, handle, .. } => CallRef::EnableSrq {
            lid: link,
            enable: *enable,
            handle: copied(handle),
        },
        CallRef::DestroyLink { .. } => CallRef::DestroyLink { lid: link },
        CallRef::DeviceAbort { .. } => CallRef::DeviceAbort { lid: link },
        _ => unreachable!(),
    }
}

/// The bus of a device text, and the text there.
fn text_there<'a>(text: &'a [u8], room: &'a mut [u8]) -> (u8, &'a [u8])
    requires { DEVICE_MAX ≤ length room.old }
    ensures text { (result.0, result.1.now) ≡ text_there text.now }
    ensures bus { result.0 ≤ 3 }
{
    if text.len() > DEVICE_MAX {
        return (0, text);
    }
    match bus_of(text) {
        None => (0, text),
        Some(bus) => (bus, on_first(text, room)),
    }
}

/// Where a call of a core connection goes, of so many buses. A create_link goes to the bus that its device text names, `gpib0` to `gpib3`
/// before the first comma in any case, where the text is one of the bus `gpib0`, and to bus 0 where it names none of these. It is refused
/// where it names one that isn't served: error 3 (VXI-11, device not accessible). A call on a link goes to the link's bus. A
/// create_intr_chan and a destroy_intr_chan are refused. The text there is written to `room`.
pub fn route<'a>(count: Count, call: &CallRef<'a>, room: &'a mut [u8]) -> Destination<'a>
    requires { DEVICE_MAX ≤ length room.old }
    ensures route { route_shown result ≡ route_of count (call_shown call.now) }
    ensures routed { may_wait (call_shown call.now) ≡ true → IsShort (call_shown call.now) → IsRouted count result }
{
    match call {
        CallRef::CreateIntr { .. } => Destination::Refused {
            answer: ReplyRef::Error {
                error: ErrorCode::NotSupported,
            },
        },
        CallRef::DestroyIntr => Destination::Refused {
            answer: ReplyRef::Error {
                error: ErrorCode::NoChannel,
            },
        },
        CallRef::CreateLink {
            client,
            lock,
            lock_timeout,
            device,
        } => {
            let (bus, device) = text_there(*device, room);
            if count.serves(bus) {
                Destination::Goes {
                    bus,
                    call: CallRef::CreateLink {
                        client: *client,
                        lock: *lock,
                        lock_timeout: *lock_timeout,
                        device,
                    },
                }
            } else {
                Destination::Refused {
                    answer: ReplyRef::CreateLink {
                        error: ErrorCode::NotAccessible,
                        lid: 0,
                        abort_port: 0,
                        max: 0,
                    },
                }
            }
        }
        CallRef::Null => Destination::Goes {
            bus: 0,
            call: CallRef::Null,
        },
        _ => by_link(count, call),
    }
}

/// Where a call goes that names a link.
fn by_link<'a>(count: Count, call: &CallRef<'a>) -> Destination<'a>
    requires { IsSome (link_named (call_shown call.now)) }
    ensures route { route_shown result ≡ by_link count (call_shown call.now) (link_named (call_shown call.now)) }
{
    let Some(lid) = link_of(call) else {
        unreachable!()
    };
    let (bus, link) = place_of(count, lid);
    Destination::Goes {
        bus,
        call: on_link(call, link),
    }
}
