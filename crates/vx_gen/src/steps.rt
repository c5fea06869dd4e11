//! The steps of a run that a number makes.
ghost use Rattle.vx_record.specs.Fragments.{record_of};
ghost use Rattle.std.specs.Prelude.{◌≡◌, ◌≤◌, ◌<◌, ◌++◌, length, IsTrue, Some, None};
ghost use Rattle.std.specs.List.{slice_get};
ghost use Rattle.vx_calls.specs.Call.{call_shown};
ghost use Rattle.vx_codec.specs.Asked.{arguments, IsPuttable};
ghost use Rattle.vx_rpc.specs.Wording.{call_message};
ghost use Rattle.vx_script.specs.Command.{In, Plug, Up, step_shown};
ghost use Rattle.vx_script.specs.declared.TheConstants.{ADDRESS_LAST};
ghost use Rattle.vx_script.specs.Words.{is_name};
ghost use Rattle.vx_script.specs.Plain.{IsConnection, IsPlainStep};
ghost use Rattle.vx_gen.specs.declared.records.TheConstants.{ARGUMENTS_MAX, RECORD_ROOM};
ghost use Rattle.vx_gen.specs.Generating.{head, on_core, link_made, channel_made, requests_enabled, call_of, waiting, idle, drawn};

use crate::draws::{connection_of, kind_of};
use crate::records::{RECORD_ROOM, record};
use arrayvec::ArrayVec;
use vx_calls::{CallRef, Generic, Handle, Role};
use vx_script::Step;

/// How many steps stand before the drawn ones.
pub const HEAD_STEPS: u32 = 18;

/// The program of the core channel (VXI-11, DEVICE_CORE).
const CORE: u32 = 0x0607AF;

/// The program of the abort channel (VXI-11, DEVICE_ASYNC).
const ABORT: u32 = 0x0607B0;

/// The program of the interrupt channel (VXI-11, DEVICE_INTR).
const INTR: u32 = 0x0607B1;

/// A call of a procedure of the core channel comes on a connection.
fn ask<'a>(conn: u32, xid: u32, number: u32, call: &CallRef<'_>, room: &'a mut [u8]) -> Step<'a>
    requires conn { IsConnection conn }
    requires puttable { IsPuttable (call_shown call.now) }
    requires short { length (arguments (call_shown call.now)) ≤ ARGUMENTS_MAX }
    requires room { RECORD_ROOM ≤ length room.old }
    ensures value { step_shown result ≡ In conn (record_of (call_message xid 0x0607AF 1 number ++ arguments (call_shown call.now))) }
    ensures plain { IsPlainStep result }
{
    Step::In {
        conn,
        bytes: record(xid, CORE, number, call, room),
    }
}

/// A create_link without lock, to a device of 7 letters.
fn create<'a>(conn: u32, device: &[u8], room: &'a mut [u8]) -> Step<'a>
    requires conn { IsConnection conn }
    requires device { length device.now ≡ 7 }
    requires room { RECORD_ROOM ≤ length room.old }
    ensures value { step_shown result ≡ on_core conn 1 (link_made device.now) }
    ensures plain { IsPlainStep result }
{
    let call = CallRef::CreateLink {
        client: 0,
        lock: false,
        lock_timeout: 0,
        device,
    };
    ask(conn, 1, 10, &call, room)
}

/// A create_intr_chan to port 9012 of this host, over TCP.
fn create_channel<'a>(conn: u32, room: &'a mut [u8]) -> Step<'a>
    requires conn { IsConnection conn }
    requires room { RECORD_ROOM ≤ length room.old }
    ensures value { step_shown result ≡ on_core conn 2 channel_made }
    ensures plain { IsPlainStep result }
{
    let call = CallRef::CreateIntr {
        host: 0x7F00_0001,
        port: 9012,
        prog: INTR,
        vers: 1,
        family: 0,
    };
    ask(conn, 2, 25, &call, room)
}

/// A device_enable_srq of the connection's link, with the handle `s`.
fn enable<'a>(conn: u32, room: &'a mut [u8]) -> Step<'a>
    requires conn { IsConnection conn }
    requires room { RECORD_ROOM ≤ length room.old }
    ensures value { step_shown result ≡ on_core conn 3 (requests_enabled conn) }
    ensures plain { IsPlainStep result }
{
    let mut bytes = ArrayVec::new();
    bytes.push(b's');
    let call = CallRef::EnableSrq {
        lid: conn,
        enable: true,
        handle: Handle { bytes },
    };
    ask(conn, 3, 20, &call, room)
}

/// A spare instrument is attached.
fn plug(p: u8, name: &'static [u8]) -> Step<'static>
    requires address { p ≤ ADDRESS_LAST }
    requires name { IsTrue (is_name name.now) }
    ensures value { step_shown result ≡ Plug p None name.now }
    ensures plain { IsPlainStep result }
{
    Step::Plug { p, s: None, name }
}

/// A connection comes up.
fn up(conn: u32, role: Role) -> Step<'static>
    requires { IsConnection conn }
    ensures value { step_shown result ≡ Up conn role }
    ensures plain { IsPlainStep result }
{
    Step::Up { conn, role }
}

/// The step of the head in this place, counted from 0.
pub fn head_step<'a>(place: u32, room: &'a mut [u8]) -> Step<'a>
    requires place { place < HEAD_STEPS }
    requires room { RECORD_ROOM ≤ length room.old }
    ensures value { slice_get head place ≡ Some (step_shown result) }
    ensures plain { IsPlainStep result }
{
    match place {
        0 => plug(5, b"echo"),
        1 => plug(6, b"slow"),
        2 => plug(7, b"asker"),
        3 => up(1, Role::Core),
        4 => up(2, Role::Core),
        5 => up(3, Role::Core),
        6 => up(4, Role::Core),
        7 => up(5, Role::Abort),
        8 => create(1, b"gpib0,5", room),
        9 => create(2, b"gpib0,6", room),
        10 => create(3, b"gpib0,6", room),
        11 => create(4, b"gpib0,7", room),
        12 => create_channel(1, room),
        13 => Step::Dial { conn: 1, up: true },
        14 => enable(1, room),
        15 => create_channel(4, room),
        16 => Step::Dial { conn: 4, up: true },
        _ => enable(4, room),
    }
}

/// A device_write of one byte, with its END.
fn write(lid: u32) -> CallRef<'static>
    ensures { call_shown result ≡ call_of 0 lid }
{
    CallRef::Write {
        lid,
        io_timeout: 50,
        lock_timeout: 20,
        flags: 9,
        bytes: b"A",
    }
}

/// A device_read of up to 4 bytes.
fn read(lid: u32) -> CallRef<'static>
    ensures { call_shown result ≡ call_of 2 lid }
{
    CallRef::Read {
        lid,
        request: 4,
        io_timeout: 50,
        lock_timeout: 20,
        flags: 1,
        term: 0,
    }
}

/// A device_lock that waits.
fn lock(lid: u32) -> CallRef<'static>
    ensures { call_shown result ≡ call_of 3 lid }
{
    CallRef::Lock {
        lid,
        flags: 1,
        lock_timeout: 20,
    }
}

/// A device_readstb.
fn read_status(lid: u32) -> CallRef<'static>
    ensures { call_shown result ≡ call_of 5 lid }
{
    CallRef::ReadStb(Generic {
        lid,
        flags: 0,
        lock_timeout: 0,
        io_timeout: 10_000,
    })
}

/// The step of a kind on a connection without a call, the k-th that is drawn.
fn idle_step<'a>(k: u32, kind: u32, conn: u32, room: &'a mut [u8]) -> Step<'a>
    requires conn { IsConnection conn }
    requires room { RECORD_ROOM ≤ length room.old }
    ensures value { step_shown result ≡ idle k kind conn }
    ensures plain { IsPlainStep result }
{
    match kind {
        2 => ask(conn, k, 12, &read(conn), room),
        3 => ask(conn, k, 18, &lock(conn), room),
        4 => ask(conn, k, 19, &CallRef::Unlock { lid: conn }, room),
        5 => ask(conn, k, 13, &read_status(conn), room),
        6 => Step::Sample,
        7 => Step::Take { conn },
        _ => ask(conn, k, 11, &write(conn), room),
    }
}

/// The step of a kind on a connection whose call isn't answered yet, the k-th that is drawn.
fn waiting_step<'a>(k: u32, kind: u32, conn: u32, room: &'a mut [u8]) -> Step<'a>
    requires conn { IsConnection conn }
    requires room { RECORD_ROOM ≤ length room.old }
    ensures value { step_shown result ≡ waiting k kind conn }
    ensures plain { IsPlainStep result }
{
    if kind == 7 {
        let call = CallRef::DeviceAbort { lid: conn };
        Step::In {
            conn: 5,
            bytes: record(k, ABORT, 1, &call, room),
        }
    } else {
        Step::Poll { conn }
    }
}

/// The k-th step that is drawn, by its draw and by whether a call of the connection that the draw chooses isn't answered yet.
pub fn drawn_step<'a>(k: u32, draw: u32, is_pending: bool, room: &'a mut [u8]) -> Step<'a>
    requires room { RECORD_ROOM ≤ length room.old }
    ensures value { step_shown result ≡ drawn k draw is_pending }
    ensures plain { IsPlainStep result }
{
    let kind = kind_of(draw);
    let conn = connection_of(draw);
    if is_pending {
        waiting_step(k, kind, conn, room)
    } else {
        idle_step(k, kind, conn, room)
    }
}
