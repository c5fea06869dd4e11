//! Tables of what is done with the instruments of a rack.

use crate::step_tools::{Step, take_steps};
use std::test::Fail;
use vx_inst::INST_MAX;
use vx_rack::*;

// A message comes back with END on its last byte.
const ECHO_STEPS: &[Step] = &[
    Step::Mute,
    Step::Takes(b'A', false),
    Step::Mute,
    Step::Takes(b'B', true),
    Step::Sent(b"C"),
    Step::Gives(b'A', false),
    Step::Gives(b'B', true),
    Step::Gives(b'C', true),
    Step::Mute,
    Step::Triggered,
    Step::Told(5),
    Step::ToLocal,
    Step::Mute,
    Step::Polled(0),
    Step::Set(0xFF),
    Step::Asks(true),
    Step::Takes(b'D', false),
    Step::Cleared,
    Step::Polled(0xFF),
    Step::Asks(false),
    Step::Polled(0xBF),
    Step::Sent(b"EF"),
    Step::Replies(b"EF"),
    // A reply that has no room is dropped whole, and one that just fits isn't.
    Step::Filled(b'x', INST_MAX, false),
    Step::Hears(false),
    Step::Mute,
    Step::Cleared,
    Step::Filled(b'x', INST_MAX, true),
    Step::Sent(b"A"),
    Step::Gives(b'x', false),
    Step::Sent(b"BC"),
    Step::Sent(b"D"),
    Step::Sent(b"E"),
    Step::Drained(INST_MAX, &[(b'x', false), (b'x', true), (b'D', true)]),
];

// Readings are numbered from 1, by message and by trigger.
const METER_STEPS: &[Step] = &[
    Step::Sent(b"READ?"),
    Step::Replies(b"1\n"),
    Step::Triggered,
    Step::Replies(b"2\n"),
    Step::Sent(b"READ?\n"),
    Step::Replies(b"3\n"),
    Step::Sent(b"READ"),
    Step::Sent(b"READ?\n\n"),
    Step::Sent(b"read?"),
    Step::Sent(b"\n"),
    Step::Mute,
    Step::Triggered,
    Step::Takes(b'R', false),
    Step::Cleared,
    Step::Mute,
    Step::Sent(b"READ?"),
    Step::Sent(b"READ?"),
    Step::Replies(b"5\n"),
    Step::Replies(b"6\n"),
    Step::Asks(false),
];

// After each byte a slow instrument waits for a later moment; a poll and a clear leave that as it is.
const SLOW_STEPS: &[Step] = &[
    Step::Told(0),
    Step::Takes(b'A', false),
    Step::Hears(false),
    Step::Told(0),
    Step::Hears(false),
    Step::Polled(0),
    Step::Cleared,
    Step::Hears(false),
    Step::Told(100),
    Step::Polled(0),
    Step::Cleared,
    Step::Takes(b'B', false),
    Step::Told(100),
    Step::Told(99),
    Step::Hears(false),
    Step::Told(101),
    Step::Takes(b'C', true),
    Step::Mute,
    Step::Told(102),
    Step::Gives(b'B', false),
    Step::Mute,
    Step::Hears(false),
    Step::Told(103),
    Step::Gives(b'C', true),
    Step::Told(u64::MAX),
    Step::Mute,
    Step::Takes(b'D', false),
    Step::Told(u64::MAX),
    Step::Hears(false),
];

// The end of a message and a trigger ask for service, and a poll ends the asking.
const ASKER_STEPS: &[Step] = &[
    Step::Asks(false),
    Step::Polled(0),
    Step::Takes(b'A', false),
    Step::Asks(false),
    Step::Takes(b'B', true),
    Step::Asks(true),
    Step::Mute,
    Step::Polled(80),
    Step::Asks(false),
    Step::Polled(16),
    Step::Set(0),
    Step::Triggered,
    Step::Cleared,
    Step::Asks(true),
    Step::Polled(80),
    Step::Set(0x41),
    Step::Asks(true),
    Step::Polled(0x41),
    Step::Polled(0x01),
];

// Readings 1 to 45541 leave room for 4 bytes: the next reading is dropped, and its number isn't given again.
const FULL_METER_STEPS: &[Step] = &[
    Step::TriggeredOften(45542),
    Step::Replies(b"1\n"),
    Step::Triggered,
    Step::Drained(INST_MAX, FULL_METER_ENDS),
];

const FULL_METER_ENDS: &[(u8, bool)] = &[
    (b'4', false),
    (b'5', false),
    (b'5', false),
    (b'4', false),
    (b'3', false),
    (b'\n', true),
];

#[test]
fn echo(rt: HostRuntime) -> Result<(), Fail> {
    let mut inst = Echo::new(rt.alloc())?;
    take_steps(&rt, "echo", &mut inst, ECHO_STEPS);
    Ok(())
}

#[test]
fn meter(rt: HostRuntime) -> Result<(), Fail> {
    let mut inst = Meter::new(rt.alloc())?;
    take_steps(&rt, "meter", &mut inst, METER_STEPS);
    Ok(())
}

#[test]
fn slow(rt: HostRuntime) -> Result<(), Fail> {
    let mut inst = Slow::new(rt.alloc())?;
    take_steps(&rt, "slow", &mut inst, SLOW_STEPS);
    Ok(())
}

#[test]
fn asker(rt: HostRuntime) -> Result<(), Fail> {
    let mut inst = Asker::new(rt.alloc())?;
    take_steps(&rt, "asker", &mut inst, ASKER_STEPS);
    Ok(())
}

#[test]
fn full_meter(rt: HostRuntime) -> Result<(), Fail> {
    let mut inst = Meter::new(rt.alloc())?;
    take_steps(&rt, "full meter", &mut inst, FULL_METER_STEPS);
    Ok(())
}
