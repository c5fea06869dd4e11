//! What a bus asks of an instrument, as data, with the answers that are due.

use std::process::Abort;
use vx_inst::Instrument;

/// What is done with an instrument, or asked of it, and what it must answer.
#[derive(Clone, Copy)]
pub enum Step {
    /// It can take this byte, with END or without.
    Takes(u8, bool),
    /// It takes these bytes, END on the last.
    Sent(&'static [u8]),
    /// Whether it can take a byte.
    Hears(bool),
    /// It can give, and gives this byte, with END or without.
    Gives(u8, bool),
    /// It gives these bytes, END on the last.
    Replies(&'static [u8]),
    /// It can't give a byte.
    Mute,
    /// It answers a serial poll by this byte.
    Polled(u8),
    /// Whether it asks for service.
    Asks(bool),
    /// Its status byte is set.
    Set(u8),
    /// It is told a moment.
    Told(u64),
    Cleared,
    Triggered,
    ToLocal,
    /// It takes this byte so often, each without END but for the last where that is wanted.
    Filled(u8, usize, bool),
    /// It is triggered so often.
    TriggeredOften(usize),
    /// It gives so many bytes, the last of them these, and then no more.
    Drained(usize, &'static [(u8, bool)]),
}

/// Hands a byte to an instrument of any kind, where it can take one.
fn hand<I: Instrument>(inst: &mut I, b: u8, end: bool) -> bool {
    let can = inst.can_take();
    if can {
        inst.take(b, end);
    }
    can
}

/// Gets a byte of one, where it has one.
fn get<I: Instrument>(inst: &mut I) -> Option<(u8, bool)> {
    if inst.can_give() {
        Some(inst.give())
    } else {
        None
    }
}

/// Hands it a message. Answers whether it takes each byte.
fn send<I: Instrument>(inst: &mut I, message: &[u8]) -> bool {
    let mut left = message.len();
    for b in message {
        left = left.saturating_sub(1);
        if !hand(inst, *b, left == 0) {
            return false;
        }
    }
    true
}

/// Gets a reply. Answers whether it is this one, END on its last byte.
fn receive<I: Instrument>(inst: &mut I, reply: &[u8]) -> bool {
    let mut left = reply.len();
    for b in reply {
        left = left.saturating_sub(1);
        if get(inst) != Some((*b, left == 0)) {
            return false;
        }
    }
    true
}

/// Hands it a byte so often. Answers whether it takes each.
fn fill<I: Instrument>(inst: &mut I, b: u8, count: usize, end: bool) -> bool {
    for i in 0..count {
        if !hand(inst, b, end && i == count - 1) {
            return false;
        }
    }
    true
}

/// Gets all but so many of the bytes that there are. Answers how many those are that it got.
fn skip<I: Instrument>(inst: &mut I, count: usize) -> usize {
    for i in 0..count {
        if get(inst).is_none() {
            return i;
        }
    }
    count
}

/// Gets bytes. Answers whether they are these.
fn give_all<I: Instrument>(inst: &mut I, bytes: &[(u8, bool)]) -> bool {
    for each in bytes {
        if get(inst) != Some(*each) {
            return false;
        }
    }
    true
}

/// Gets so many bytes. Answers whether there are no more, and the last are these.
fn drain<I: Instrument>(inst: &mut I, count: usize, last: &[(u8, bool)]) -> bool {
    let front = count - last.len().min(count);
    skip(inst, front) == front && give_all(inst, last) && !inst.can_give()
}

/// Does what an instrument answers nothing to. Answers whether the step is of this sort.
fn tell<I: Instrument>(inst: &mut I, step: Step) -> bool {
    match step {
        Step::Set(status) => inst.set_status(status),
        Step::Told(now) => inst.moment(now),
        Step::Cleared => inst.clear(),
        Step::Triggered => inst.trigger(),
        Step::ToLocal => inst.local(),
        Step::TriggeredOften(count) => {
            for _ in 0..count {
                inst.trigger();
            }
        }
        _ => return false,
    }
    true
}

/// Does a step. Answers whether it is as wanted.
fn take_step<I: Instrument>(inst: &mut I, step: Step) -> bool {
    match step {
        Step::Takes(b, end) => hand(inst, b, end),
        Step::Sent(message) => send(inst, message),
        Step::Hears(can) => inst.can_take() == can,
        Step::Gives(b, end) => get(inst) == Some((b, end)),
        Step::Replies(reply) => receive(inst, reply),
        Step::Mute => !inst.can_give(),
        Step::Polled(status) => inst.poll() == status,
        Step::Asks(asks) => inst.requests() == asks,
        Step::Filled(b, count, end) => fill(inst, b, count, end),
        Step::Drained(count, last) => drain(inst, count, last),
        _ => tell(inst, step),
    }
}

/// Does all steps of a play of this name, each of which must be as wanted.
pub fn take_steps<I: Instrument>(rt: &impl Abort, play: &str, inst: &mut I, steps: &[Step]) {
    for (number, step) in steps.iter().enumerate() {
        assert!(rt; take_step(inst, *step), "{play}, at step {number}");
    }
}
