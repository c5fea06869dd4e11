//! Pumps of the channel of a connection with two interrupts in its outbox. The record is the one of RFC 5531, section 9, and of
//! VXI-11, device_intr_srq.
ghost use Rattle.std.specs.Prelude.{◌≡◌, ◌≤◌, true, length, IfSome};
ghost use Rattle.vx_488.specs.Means.{first_means};
ghost use Rattle.vx_calls.specs.Call.{call_shown};
ghost use Rattle.vx_calls.specs.declared.calls.Role.TheVariants as role;
ghost use Rattle.vx_rules.specs.AtomicStep.{may_wait};
ghost use Rattle.vx_rules.specs.Calls.{IsShort};
ghost use Rattle.vx_exchange.specs.declared.record.TheConstants.{REPLY_ROOM};
ghost use Rattle.vx_group.specs.Phases.{Idle};
ghost use Rattle.vx_session.specs.Turning.{phase_at};

use crate::gateway_tools::gateway;
use crate::pump_tools::{echo_bus, handle};
use crate::record_tools::are_words;
use crate::session_tests::Pauses;
use std::alloc::{AllocError, Global};
use std::sync::Wait;
use std::test::Fail;
use vx_488::Bus;
use vx_calls::{CallRef, Role};
use vx_core::Core;
use vx_exchange::{PollEnd, REPLY_ROOM};
use vx_gate::{Pass, Turns};
use vx_memory::{MemClock, MemLink};
use vx_session::{PumpEnd, Request, Worker, come, join, pump, sample_turn, settle};

/// Has a call answered that waits for nothing.
fn ask<R: Wait, B: Bus, T: Turns<Core<B>>>(
    rt: &R,
    turns: &T,
    pass: Pass<Core<B>>,
    conn: u32,
    call: &CallRef<'_>,
    reply: &mut [u8],
) -> Option<Pass<Core<B>>>
    requires gate { pass.gate ≡ T.gate turns.now }
    requires phase { phase_at pass conn ≡ Idle role.Core }
    requires waits { may_wait (call_shown call.now) ≡ true }
    requires short { IsShort (call_shown call.now) }
    requires room { REPLY_ROOM ≤ length reply.old }
    ensures gate { IfSome result (λ p. p.gate ≡ T.gate turns.now) }
    ensures phase { IfSome result (λ p. phase_at p conn ≡ Idle role.Core) }
    ensures len { length reply.new ≡ length reply.old }
{
    let worker = Worker {
        rt,
        turns,
        conn,
        role: Role::Core,
    };
    match come(&worker, pass, &Request { xid: 1, call }, 0, reply) {
        (pass, PollEnd::Replied { .. }) => Some(pass),
        _ => None,
    }
}

/// Has a connection's channel made, of number 1.
fn make_channel<R: Wait, B: Bus, T: Turns<Core<B>>>(
    rt: &R,
    turns: &T,
    pass: Pass<Core<B>>,
    conn: u32,
    reply: &mut [u8],
) -> Option<Pass<Core<B>>>
    requires gate { pass.gate ≡ T.gate turns.now }
    requires phase { phase_at pass conn ≡ Idle role.Core }
    requires room { REPLY_ROOM ≤ length reply.old }
    ensures gate { IfSome result (λ p. p.gate ≡ T.gate turns.now) }
    ensures phase { IfSome result (λ p. phase_at p conn ≡ Idle role.Core) }
    ensures len { length reply.new ≡ length reply.old }
{
    let channel = CallRef::CreateIntr {
        host: 0x7F000001,
        port: 9012,
        prog: 0x0607B1,
        vers: 1,
        family: 0,
    };
    let worker = Worker {
        rt,
        turns,
        conn,
        role: Role::Core,
    };
    let request = Request {
        xid: 2,
        call: &channel,
    };
    match come(&worker, pass, &request, 0, reply) {
        (pass, PollEnd::Dial { .. }) => Some(settle(&worker, pass, 2, true, 0, reply).0),
        _ => None,
    }
}

/// Has a link made to the instrument, and enabled with a handle of this byte.
fn make_link<R: Wait, B: Bus, T: Turns<Core<B>>>(
    rt: &R,
    turns: &T,
    pass: Pass<Core<B>>,
    conn: u32,
    lid: u32,
    byte: u8,
    reply: &mut [u8],
) -> Option<Pass<Core<B>>>
    requires gate { pass.gate ≡ T.gate turns.now }
    requires phase { phase_at pass conn ≡ Idle role.Core }
    requires room { REPLY_ROOM ≤ length reply.old }
    ensures gate { IfSome result (λ p. p.gate ≡ T.gate turns.now) }
    ensures phase { IfSome result (λ p. phase_at p conn ≡ Idle role.Core) }
    ensures len { length reply.new ≡ length reply.old }
{
    let link = CallRef::CreateLink {
        client: 0,
        lock: false,
        lock_timeout: 0,
        device: b"gpib0,5",
    };
    let pass = ask(rt, turns, pass, conn, &link, reply)?;
    let enable = CallRef::EnableSrq {
        lid,
        enable: true,
        handle: handle(&[byte]),
    };
    ask(rt, turns, pass, conn, &enable, reply)
}

/// Makes a connection with an interrupt channel and two links to the instrument, enabled with the handles `a` and `b`; then
/// the line is looked at.
fn enabled<R: Wait, B: Bus, T: Turns<Core<B>>>(
    rt: &R,
    alloc: Global,
    turns: &T,
    pass: Pass<Core<B>>,
    reply: &mut [u8],
) -> Option<Pass<Core<B>>>
    requires gate { pass.gate ≡ T.gate turns.now }
    requires room { REPLY_ROOM ≤ length reply.old }
    ensures { IfSome result (λ p. p.gate ≡ T.gate turns.now) }
{
    let (pass, joined) = join(rt, alloc, turns, pass, Role::Core);
    let Ok(conn) = joined else {
        return None;
    };
    let pass = make_channel(rt, turns, pass, conn, reply)?;
    let pass = make_link(rt, turns, pass, conn, 1, b'a', reply)?;
    let pass = make_link(rt, turns, pass, conn, 2, b'b', reply)?;
    let mut clock = MemClock::new(Vec::new(alloc));
    Some(sample_turn(rt, turns, pass, &mut clock))
}

/// Pumps a channel of connection 1, with two interrupts in the outbox of its channel 1.
fn pump_enabled<R: Wait, B: Bus, T: Turns<Core<B>>>(
    rt: &R,
    alloc: Global,
    turns: &T,
    pass: Pass<Core<B>>,
    chan: u32,
    link: &mut MemLink,
    reply: &mut [u8],
) -> Option<PumpEnd>
    requires gate { pass.gate ≡ T.gate turns.now }
    requires room { REPLY_ROOM ≤ length reply.old }
{
    let pass = enabled(rt, alloc, turns, pass, reply)?;
    let mut pauses = Pauses { count: 0 };
    Some(pump(rt, turns, pass, 1, chan, link, &mut pauses).1)
}

/// The same at a gate of its own, over a bus.
fn run_pump<R: Wait, B: Bus + Drop>(
    rt: &R,
    alloc: Global,
    bus: Option<B>,
    chan: u32,
    link: &mut MemLink,
    reply: &mut [u8],
) -> Option<PumpEnd>
    requires bus { IfSome bus (λ b. B.means b ≡ first_means) }
    requires room { REPLY_ROOM ≤ length reply.old }
{
    let (gate, pass) = gateway(alloc, bus)?;
    pump_enabled(rt, alloc, &gate, pass, chan, link, reply)
}

/// The record of the first interrupt.
const TAKEN: [u32; 13] = [
    0x80000030, 1, 0, 2, 0x0607B1, 1, 30, 0, 0, 0, 0, 1, 0x61000000,
];

/// How the pump of a channel ends whose link fails at its call of this number, and whether the link took these words.
fn pumped<R: Wait>(
    rt: &R,
    alloc: Global,
    chan: u32,
    fails: u64,
    took: &[u32],
) -> Result<(Option<PumpEnd>, bool), AllocError> {
    let mut reply = vec![in alloc; 0; REPLY_ROOM]?;
    let fails = vec![in alloc; fails; 1]?;
    let mut link = MemLink::new(Vec::new(alloc), 1, Vec::new(alloc), fails);
    let end = run_pump(
        rt,
        alloc,
        echo_bus(alloc, 0x40),
        chan,
        &mut link,
        &mut reply,
    );
    Ok((end, are_words(link.bytes(), took)))
}

/// A channel of connection 1, the call of the link that fails, how the pump ends, and what the link took.
static ROWS: [(u32, u64, PumpEnd, &[u32]); 4] = [
    (1, 1, PumpEnd::WriteFault, &[]),
    (1, 2, PumpEnd::WriteFault, &TAKEN),
    (2, 9, PumpEnd::ChannelGone, &[]),
    (0, 9, PumpEnd::ChannelGone, &[]),
];

#[test]
fn a_pump_writes_interrupts(rt: HostRuntime) -> Result<(), Fail> {
    for row in &ROWS {
        let (chan, fails, end, took) = *row;
        let came = pumped(&rt, rt.alloc(), chan, fails, took)?;
        assert!(rt; came == (Some(end), true), "channel {chan}, call {fails}");
    }
    Ok(())
}
