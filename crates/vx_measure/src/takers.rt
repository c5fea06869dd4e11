//! Threads that take turns at a gate, and what they do to its value.
ghost use Rattle.std.specs.Prelude.{◌≡◌, ◌+◌, ◌-◌, ◌%◌, ◌^◌, ◌<◌, ◌≤◌, [], sum, IfOk};
ghost use Rattle.std.specs.Arc.{arc_value};
ghost use Rattle.vx_gate.specs.Gates.{gate_of};

use crate::status::Status;
use crate::words::Turns;
use std::alloc::{AllocError, Global};
use std::sync::{Arc, Wait};
use std::thread::{self, JoinHandle, Threads};
use vx_gate::{Act, Gate, Kept, Pass};

/// The most threads of a run.
const MOST_THREADS: u32 = 64;

/// The number of turns, which wraps at 2^64.
#[derive(Drop)]
struct Tally {
    turns: u64,
}

impl Kept for Tally {
    type Group = u64;

    ghost stands = { λ _ kept log. kept.turns ≡ sum log % 2 ^ 64 };

    ghost may_add = { λ own number. Unit {0} };
}

/// Counts a turn, and answers how many came before it.
#[derive(Drop)]
struct Count;

impl Act<Tally> for Count {
    type Answer = u64;

    ghost asks = { λ act kept. Unit {0} };

    ghost does = { λ act kept answer act' kept'. (answer ≡ kept.turns) × (kept'.turns ≡ (kept.turns + 1) % 2 ^ 64) };

    ghost adds = { λ act kept answer act' kept'. 1 };

    fn run(&mut self, kept: &mut Tally) -> u64 {
        let before = kept.turns;
        kept.turns = before.wrapping_add(1);
        before
    }
}

/// The right of one thread to take turns at the gate.
#[derive(Drop)]
struct Taker {
    gate: Arc<Gate<Tally>, Global>,
    pass: Pass<Tally>,
    ghost same: { pass.gate ≡ gate_of (arc_value gate) },
}

impl Taker {
    /// Takes so many turns, and answers what the last one answered, or 0.
    fn run<R: Wait>(self, rt: &R, turns: u64) -> u64 {
        let Taker { gate, mut pass } = self;
        let mut last = 0;
        for _ in 0..turns {
            (pass, last) = gate.turn(rt, pass, &mut Count);
        }
        last
    }

    /// Cuts off a taker with one part of this one.
    fn part(self) -> Result<(Taker, Taker), AllocError>
        requires { 2 ≤ self.pass.parts }
        ensures { IfOk result (λ takers. takers.0.pass.parts ≡ self.pass.parts - 1) }
    {
        let Taker { gate, pass } = self;
        let theirs = Arc::try_clone(&gate)?;
        let (pass, other) = gate.part(pass);
        Ok((
            Taker { gate, pass },
            Taker {
                gate: theirs,
                pass: other,
            },
        ))
    }
}

/// A gate round a tally of no turns, and the taker with all parts of it.
fn start(alloc: Global) -> Result<Taker, AllocError>
    ensures { IfOk result (λ taker. taker.pass.parts ≡ 4294967296) }
{
    let Ok((gate, pass)) = Gate::start(alloc, Tally { turns: 0 }) else {
        return Err(AllocError);
    };
    let gate = Arc::new(alloc, gate)?;
    Ok(Taker { gate, pass })
}

/// Lets so many threads take so many turns each, and answers how many turns that were.
fn take_turns<R: Threads + Wait + Copy + Send + 'static>(
    rt: R,
    alloc: Global,
    threads: u32,
    turns: u64,
) -> Result<u64, AllocError>
    requires { threads ≤ 64 }
{
    let mut taker = start(alloc)?;
    let mut running: Vec<JoinHandle<u64>> = Vec::new(alloc);
    for _ in 0..threads {
        let (mine, theirs) = taker.part()?;
        taker = mine;
        running.push(thread::spawn(&rt, move || theirs.run(&rt, turns))?)?;
    }
    for thread in running {
        thread.join(&rt);
    }
    Ok(taker.run(&rt, 1))
}

/// Prints how many turns so many threads took, each so many.
pub(crate) fn tell_turns<R: Threads + Wait + Print + AllocGlobal + Copy + Send + 'static>(
    rt: R,
    Turns { threads, turns }: Turns,
) -> Status {
    if threads > MOST_THREADS {
        return Status::Usage;
    }
    match take_turns(rt, rt.alloc(), threads, turns) {
        Ok(all) if println!(rt; "{all}").is_ok() => Status::Done,
        _ => Status::Refused,
    }
}
