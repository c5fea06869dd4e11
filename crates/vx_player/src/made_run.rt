//! A run that a number makes: its steps taken one after the other, and counted.
ghost use Rattle.std.specs.Prelude.{◌≡◌, ◌≤◌, ◌<◌, ℕ, ◌+◌, ◌*◌, ◌-◌, ◌^◌, List, length, cond, is_some, true, OnOk, IfErr};
ghost use Rattle.vx_calls.specs.declared.limits.TheConstants.{SLICE_MAX};
ghost use Rattle.vx_script.specs.Command.{step_shown};
ghost use Rattle.vx_script.specs.Plain.{IsPlainStep};
ghost use Rattle.vx_setup.specs.Rack.{SpareShown};
ghost use Rattle.vx_gen.specs.declared.records.TheConstants.{RECORD_ROOM};
ghost use Rattle.vx_gen.specs.Drawing as draws;
ghost use Rattle.vx_player.specs.Stage.{Stage, beginning};
ghost use Rattle.vx_player.specs.Standing.{IsPlayerReady, PlayerStands};
ghost use Rattle.vx_player.specs.Wanting.{StopsFor};
ghost use Rattle.vx_player.specs.Counting.{no_counts, has_error, tells_interrupt, tells_wait, counts_made, IsPlayerWithin, TakesCounted, Running, HaltsIn};

use crate::note::{Note, StepMade};
use crate::player::Player;
use std::alloc::Global;
use vx_calls::ErrorCode;
use vx_gen::{Ask, Counts, HEAD_STEPS, connection_of, drawn_step, head_step, next_draw};
use vx_inst::Instrument;
use vx_script::Step;
use vx_setup::Refusal;

/// A step that wasn't taken: its number, counted from 1, and why.
#[derive(Clone, Copy)]
pub struct Halt {
    pub number: u64,
    pub stop: Refusal,
}

/// Whether the answer to a call has an error.
fn has_error(answered: Option<ErrorCode>) -> bool
    ensures { result ≡ has_error answered }
{
    match answered {
        None | Some(ErrorCode::Ok) => false,
        Some(_) => true,
    }
}

/// Whether a note tells of an interrupt that was taken.
fn is_interrupt(note: Note) -> bool
    ensures { result ≡ tells_interrupt note }
{
    matches!(note, Note::Interrupt { .. })
}

/// Whether a note tells that a call waits.
fn is_wait(note: Note) -> bool
    ensures { result ≡ tells_wait note }
{
    matches!(note, Note::Waiting { .. } | Note::Dialing { .. })
}

/// The transfers of a step, of which so many stand in the bus's list: none where it polled no call.
fn moved_by(polled: Option<u32>, moves: usize) -> u64
    ensures { result ≡ cond (is_some polled) moves 0 }
{
    match polled {
        Some(_) => moves as u64,
        None => 0,
    }
}

/// The counts with those of a step that made this, after so many transfers.
fn counted(counts: &Counts, made: &StepMade, moves: usize) -> Counts
    requires few { IsPlayerWithin (2 ^ 62) counts.now }
    requires moves { is_some made.now.polled ≡ true → moves ≤ SLICE_MAX }
    ensures counts { result ≡ counts_made counts.now made.now moves }
    ensures grown { (most : ℕ) → IsPlayerWithin most counts.now → IsPlayerWithin (most + SLICE_MAX) result }
{
    Counts {
        answers: counts.answers + u64::from(made.answered.is_some()),
        errors: counts.errors + u64::from(has_error(made.answered)),
        transfers: counts.transfers + moved_by(made.polled, moves),
        interrupts: counts.interrupts + u64::from(is_interrupt(made.note)),
        waits: counts.waits + u64::from(is_wait(made.note)),
    }
}

/// Takes a step, and counts what it made.
fn take<I: Instrument>(
    alloc: Global,
    step: &Step<'_>,
    player: &mut Player<I>,
    counts: &mut Counts,
) -> Result<(), Refusal>
    requires plain { IsPlainStep step.now }
    requires ready { IsPlayerReady player.old }
    requires few { IsPlayerWithin (2 ^ 62) counts.old }
    ensures taken { OnOk result ((stage : Stage) → PlayerStands player.old stage → TakesCounted stage (step_shown step.now) counts.old player.new counts.new) }
    ensures grown { OnOk result ((most : ℕ) → IsPlayerWithin most counts.old → IsPlayerWithin (most + SLICE_MAX) counts.new) }
    ensures stopped { IfErr result (λ stop. (stage : Stage) → PlayerStands player.old stage → StopsFor stage (step_shown step.now) stop) }
{
    let made = player.step(alloc, step)?;
    *counts = counted(counts, &made, player.moves().len());
    Ok(())
}

/// Takes the steps of the head. `room` is for their records.
fn take_head<I: Instrument>(
    alloc: Global,
    player: &mut Player<I>,
    room: &mut [u8],
    counts: &mut Counts,
) -> Result<(), Halt>
    requires begins { PlayerStands player.old (beginning player.old.rack) }
    requires counts { counts.old ≡ no_counts }
    requires room { RECORD_ROOM ≤ length room.old }
    ensures taken { OnOk result ((seed : ℕ) → Running seed player.old.rack HEAD_STEPS player.new counts.new) }
    ensures halted { IfErr result (λ halt. (seed : ℕ) → HaltsIn seed player.old.rack halt) }
{
    let mut place = 0;
    while place < HEAD_STEPS {
        let step = head_step(place, room);
        place += 1;
        match take(alloc, &step, player, counts) {
            Ok(()) => {}
            Err(stop) => {
                return Err(Halt {
                    number: u64::from(place),
                    stop,
                });
            }
        }
    }
    Ok(())
}

/// Takes the moment behind those of k draws.
fn take_moment<I: Instrument>(
    alloc: Global,
    k: u32,
    player: &mut Player<I>,
    counts: &mut Counts,
) -> Result<(), Halt>
    requires running { (seed : ℕ) × (rack : List SpareShown) × Running seed rack (HEAD_STEPS + 2 * k) player.old counts.old }
    requires steps { k < 1000000 }
    ensures taken { OnOk result ((seed : ℕ) → (rack : List SpareShown) → Running seed rack (HEAD_STEPS + 2 * k) player.old counts.old
        → Running seed rack (HEAD_STEPS + 2 * k + 1) player.new counts.new) }
    ensures halted { IfErr result (λ halt. (seed : ℕ) → (rack : List SpareShown) → Running seed rack (HEAD_STEPS + 2 * k) player.old counts.old
        → HaltsIn seed rack halt) }
{
    let step = Step::At(u64::from(k + 1));
    match take(alloc, &step, player, counts) {
        Ok(()) => Ok(()),
        Err(stop) => Err(Halt {
            number: u64::from(HEAD_STEPS + 2 * k + 1),
            stop,
        }),
    }
}

/// Takes the drawn step behind those of k draws and the next moment. `draw` is the next draw.
fn take_drawn<I: Instrument>(
    alloc: Global,
    k: u32,
    draw: u32,
    player: &mut Player<I>,
    room: &mut [u8],
    counts: &mut Counts,
) -> Result<(), Halt>
    requires running { (seed : ℕ) × (rack : List SpareShown) × Running seed rack (HEAD_STEPS + 2 * k + 1) player.old counts.old }
    requires steps { k < 1000000 }
    requires room { RECORD_ROOM ≤ length room.old }
    ensures taken { OnOk result ((seed : ℕ) → (rack : List SpareShown) → draw ≡ draws.draw seed (k + 1) → Running seed rack (HEAD_STEPS + 2 * k + 1) player.old counts.old
        → Running seed rack (HEAD_STEPS + 2 * (k + 1)) player.new counts.new) }
    ensures halted { IfErr result (λ halt. (seed : ℕ) → (rack : List SpareShown) → draw ≡ draws.draw seed (k + 1)
        → Running seed rack (HEAD_STEPS + 2 * k + 1) player.old counts.old → HaltsIn seed rack halt) }
{
    let is_pending = player.is_pending(connection_of(draw));
    let step = drawn_step(k + 1, draw, is_pending, room);
    match take(alloc, &step, player, counts) {
        Ok(()) => Ok(()),
        Err(stop) => Err(Halt {
            number: u64::from(HEAD_STEPS + 2 * k + 2),
            stop,
        }),
    }
}

/// Takes the moment and the drawn step behind those of k draws. `draw` is the next draw.
fn take_round<I: Instrument>(
    alloc: Global,
    k: u32,
    draw: u32,
    player: &mut Player<I>,
    room: &mut [u8],
    counts: &mut Counts,
) -> Result<(), Halt>
    requires running { (seed : ℕ) × (rack : List SpareShown) × Running seed rack (HEAD_STEPS + 2 * k) player.old counts.old }
    requires steps { k < 1000000 }
    requires room { RECORD_ROOM ≤ length room.old }
    ensures taken { OnOk result ((seed : ℕ) → (rack : List SpareShown) → draw ≡ draws.draw seed (k + 1) → Running seed rack (HEAD_STEPS + 2 * k) player.old counts.old
        → Running seed rack (HEAD_STEPS + 2 * (k + 1)) player.new counts.new) }
    ensures halted { IfErr result (λ halt. (seed : ℕ) → (rack : List SpareShown) → draw ≡ draws.draw seed (k + 1)
        → Running seed rack (HEAD_STEPS + 2 * k) player.old counts.old → HaltsIn seed rack halt) }
{
    match take_moment(alloc, k, player, counts) {
        Ok(()) => take_drawn(alloc, k, draw, player, room, counts),
        Err(halt) => Err(halt),
    }
}

/// Takes the steps behind the head. `room` is for their records.
fn take_rounds<I: Instrument>(
    alloc: Global,
    ask: Ask,
    player: &mut Player<I>,
    room: &mut [u8],
    counts: &mut Counts,
) -> Result<(), Halt>
    requires running { (rack : List SpareShown) × Running ask.seed rack HEAD_STEPS player.old counts.old }
    requires steps { ask.steps ≤ 1000000 }
    requires room { RECORD_ROOM ≤ length room.old }
    ensures taken { OnOk result ((rack : List SpareShown) → Running ask.seed rack HEAD_STEPS player.old counts.old
        → Running ask.seed rack (HEAD_STEPS + 2 * ask.steps) player.new counts.new) }
    ensures halted { IfErr result (λ halt. (rack : List SpareShown) → Running ask.seed rack HEAD_STEPS player.old counts.old → HaltsIn ask.seed rack halt) }
{
    let mut draw = ask.seed;
    let mut k = 0;
    while k < ask.steps {
        draw = next_draw(draw);
        match take_round(alloc, k, draw, player, room, counts) {
            Ok(()) => {}
            Err(halt) => return Err(halt),
        }
        k += 1;
    }
    Ok(())
}

/// Takes all steps of a run, with a player that begins. `room` is for their records.
pub fn take_all<I: Instrument>(
    alloc: Global,
    ask: Ask,
    player: &mut Player<I>,
    room: &mut [u8],
    counts: &mut Counts,
) -> Result<(), Halt>
    requires begins { PlayerStands player.old (beginning player.old.rack) }
    requires steps { ask.steps ≤ 1000000 }
    requires counts { counts.old ≡ no_counts }
    requires room { RECORD_ROOM ≤ length room.old }
    ensures taken { OnOk result (Running ask.seed player.old.rack (HEAD_STEPS + 2 * ask.steps) player.new counts.new) }
    ensures halted { IfErr result (λ halt. HaltsIn ask.seed player.old.rack halt) }
{
    match take_head(alloc, player, room, counts) {
        Ok(()) => take_rounds(alloc, ask, player, room, counts),
        Err(halt) => Err(halt),
    }
}
