//! A call to the core, from its coming to its answer.
ghost use Rattle.std.specs.Prelude.{◌≡◌, ◌≤◌, ◌<◌, true, length, take};
ghost use Rattle.vx_exchange.specs.declared.record.TheConstants.{REPLY_ROOM};
ghost use Rattle.vx_group.specs.Phases.{Idle, Asked};
ghost use Rattle.vx_session.specs.Turning.{phase_at};
ghost use Rattle.vx_session.specs.Dialing.{dial_shown};
ghost use Rattle.vx_session.specs.Progress.{Clocked, AnswersCall, AnswersDial};
ghost use Rattle.vx_session.specs.Placing.{IsHistory};
ghost use Rattle.vx_calls.specs.declared.calls.Role.TheVariants as role;
ghost use Rattle.vx_calls.specs.Call.{Call, call_shown};
ghost use Rattle.vx_rules.specs.AtomicStep.{may_wait};
ghost use Rattle.vx_rules.specs.Calls.{IsShort};
ghost use Rattle.vx_session.specs.Origin.{origin};

use crate::turns::{Request, Worker, come, poll_again, settle};
use std::sync::Wait;
use vx_488::Bus;
use vx_core::{Core, Why};
use vx_exchange::PollEnd;
use vx_gate::{Pass, Turns};
use vx_io_traits::{Clock, Dial, DialOut, Pause};

/// Has a call answered: it comes and is polled in one turn, and is polled again, each time in a new turn, until it is answered, or
/// until it asks for a dial, which is made then. Between two polls it is outside the gate, and pauses there where it waits
/// (`rest`). Behind a call of more than a slice it pauses once, before its reply goes out, so that who waits for the bus finds it
/// free. The record of the reply, of so many bytes, stands at the front of `reply`. What the pass has seen then is a beginning of the
/// gateway's history.
pub fn answer_call<R: Wait, B: Bus, T: Turns<Core<B>>, C: Clock, P: Pause, D: Dial>(
    worker: &Worker<'_, R, T>,
    pass: Pass<Core<B>>,
    request: &Request<'_>,
    clock: &mut C,
    pause: &mut P,
    dial: &mut D,
    reply: &mut [u8],
) -> (Pass<Core<B>>, usize)
    requires gate { pass.gate ≡ T.gate worker.now.turns.now }
    requires phase { phase_at pass worker.now.conn ≡ Idle role.Core }
    requires waits { may_wait (call_shown request.now.call.now) ≡ true }
    requires short { IsShort (call_shown request.now.call.now) }
    requires room { REPLY_ROOM ≤ length reply.old }
    ensures answers { AnswersCall (origin B.Bus (T.first worker.now.turns.now)) (Clocked C.tells clock.old clock.new) (C.told clock.new) pass worker.now.conn request.now.xid (call_shown request.now.call.now) (dial_shown D.Dial dial.old) (take result.1 reply.new) result.0 (dial_shown D.Dial dial.new) }
    ensures history { IsHistory (origin B.Bus (T.first worker.now.turns.now)) result.0.seen }
    ensures phase { phase_at result.0 worker.now.conn ≡ Idle role.Core }
    ensures told { C.told clock.old ≤ C.told clock.new }
    ensures some { 0 < result.1 }
    ensures within { result.1 ≤ length reply.new }
    ensures len { length reply.new ≡ length reply.old }
{
    let (mut pass, mut end) = come(worker, pass, request, clock.now(), reply);
    let mut was_sliced = false;
    for _ in worker.rt.forever() {
        match end {
            PollEnd::Replied { len, .. } => {
                if was_sliced {
                    pause.pause();
                }
                return (pass, len);
            }
            PollEnd::Dial { host, port } => {
                let place = Place { host, port };
                return answer_dial(worker, pass, request.xid, place, clock, dial, reply);
            }
            PollEnd::NotYet(why) => {
                was_sliced = was_sliced || matches!(why, Why::Slice);
                rest(pause, why);
                (pass, end) = poll_again(worker, pass, request.xid, clock.now(), reply);
            }
        }
    }
    unreachable!()
}

/// Rests outside the gate before a call is polled again: it pauses where the call waits for a lock, for another call, for a turn
/// or for the bus, and not where its slice is full.
fn rest<P: Pause>(pause: &mut P, why: Why) {
    match why {
        // waits for nobody, and keeps the bus from all until its turn is whole; who drew a ticket meanwhile goes first
        Why::Slice => {}
        Why::Locked { .. } | Why::Behind { .. } | Why::Turn { .. } | Why::Held => pause.pause(),
    }
}

/// The port of a host that a call asks to be dialed.
#[derive(Clone, Copy)]
struct Place {
    host: u32,
    port: u16,
}

/// Makes the dial that a call asked for, has the call answered, and hands a stream that stands on to the pump of the channel
/// that was made.
fn answer_dial<R: Wait, B: Bus, T: Turns<Core<B>>, C: Clock, D: Dial>(
    worker: &Worker<'_, R, T>,
    pass: Pass<Core<B>>,
    xid: u32,
    place: Place,
    clock: &mut C,
    dial: &mut D,
    reply: &mut [u8],
) -> (Pass<Core<B>>, usize)
    requires gate { pass.gate ≡ T.gate worker.now.turns.now }
    requires phase { (call : Call) × (phase_at pass worker.now.conn ≡ Asked call true) }
    requires room { REPLY_ROOM ≤ length reply.old }
    ensures dials { (call : Call) → AnswersDial (origin B.Bus (T.first worker.now.turns.now)) (Clocked C.tells clock.old clock.new) (C.told clock.new) pass worker.now.conn xid call place.host place.port (dial_shown D.Dial dial.old) (take result.1 reply.new) result.0 (dial_shown D.Dial dial.new) }
    ensures history { IsHistory (origin B.Bus (T.first worker.now.turns.now)) result.0.seen }
    ensures phase { phase_at result.0 worker.now.conn ≡ Idle role.Core }
    ensures told { C.told clock.old ≤ C.told clock.new }
    ensures some { 0 < result.1 }
    ensures within { result.1 ≤ length reply.new }
    ensures len { length reply.new ≡ length reply.old }
{
    let up = dial.dial(place.host, place.port) == DialOut::Up;
    let (pass, answered) = settle(worker, pass, xid, up, clock.now(), reply);
    if let Some(chan) = answered.chan {
        dial.hand(worker.rt, worker.conn, chan);
    }
    (pass, answered.len)
}
