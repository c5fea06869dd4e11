//! Worked lists of interleaved events, each with what comes of it by the rules of VXI-11, and lists in which one event
//! is another, which are refused. They stand in `specs/`, and the check computes them: a contract here holds only if
//! each of its rows does.

ghost use Rattle.vx_test_low.specs.Turns.{OneTurnAtATime, EachTurnLinearizes};
ghost use Rattle.vx_test_low.specs.Ends.{ConnectionsGo, CallsAreAborted, TurnsStop};
ghost use Rattle.vx_test_low.specs.Locks.{LocksBesideATurn, LocksWait, LocksKeepOff};
ghost use Rattle.vx_test_low.specs.Interrupts.{EachAnswerHasItsDial, EachRiseQueuesOne};
ghost use Rattle.vx_test_low.specs.Polled.{PollsMakeEvents, PollsWait, SlicesFit};
ghost use Rattle.vx_test_low.specs.Claims.{ClaimsTell};
ghost use Rattle.vx_test_low.specs.Arrivals.{CallsStandInLine};
ghost use Rattle.vx_test_low.specs.InLine.{EarlierCallsComeFirst, WaitersCount, LaterCallsAreKeptOff, TurnsStandInLine};

use vx_flow::claims_law;

/// One turn at a time is on the bus, and each linearizes to one entry.
pub fn turns()
    ensures events { OneTurnAtATime }
    ensures entries { EachTurnLinearizes }
{}

/// Turns that end without a result.
pub fn ends()
    ensures gone { ConnectionsGo }
    ensures aborted { CallsAreAborted }
    ensures stopped { TurnsStop }
{}

/// Locks beside a turn, and locks that keep a call off.
pub fn locks()
    ensures beside { LocksBesideATurn }
    ensures wait { LocksWait }
    ensures keep_off { LocksKeepOff }
{}

/// Dials, and the interrupts of their channels.
pub fn interrupts()
    ensures dials { EachAnswerHasItsDial }
    ensures rises { EachRiseQueuesOne }
{}

/// What polls make, why they wait, and how many transfers they make.
pub fn polls()
    ensures events { PollsMakeEvents }
    ensures waits { PollsWait }
    ensures slices { SlicesFit }
{}

/// Calls without an answer stand in order of their arrival.
pub fn arrivals()
    ensures { CallsStandInLine }
{}

/// Calls that wait for a lock come in order of their arrival.
pub fn in_line()
    ensures first { EarlierCallsComeFirst }
    ensures count { WaitersCount }
    ensures keep_off { LaterCallsAreKeptOff }
    ensures turns { TurnsStandInLine }
{}

/// What the claims of interleaved events say.
pub fn claims()
    ensures { ClaimsTell }
{
    claims_law();
}
