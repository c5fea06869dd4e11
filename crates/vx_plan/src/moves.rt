//! The moves of each job in order, by how many were made.
ghost use Rattle.std.specs.Prelude.{◌≡◌, ℕ, ◌≤◌, ◌∷◌, [], ◌++◌, map, List, length, if◌then◌else◌};
ghost use Rattle.std.specs.Option.{option_map};
ghost use Rattle.std.specs.List.{slice_get};
ghost use Rattle.vx_488.specs.declared.transfers.Transfer.TheVariants.{Cmd};
ghost use Rattle.vx_plan.specs.Plan.{This};
ghost use Rattle.vx_plan.specs.Tasks.{IsSecondaryPlain, ended_poll, secondary_part, puts};
ghost use Rattle.vx_plan.specs.Places.{slot_wanted};
ghost use Rattle.vx_plan.specs.Moves.{IsStep, is_read_over, poll_tail, tail_after, move_at, puts_left, gets_left};

use crate::tasks::{Next, Place};
use vx_calls::READ_MAX;

/// Go to local.
pub const GTL: u8 = 0x01;
/// Selected device clear.
pub const SDC: u8 = 0x04;
/// Group execute trigger.
pub const GET: u8 = 0x08;
/// Take control.
pub const TCT: u8 = 0x09;
/// Device clear.
pub const DCL: u8 = 0x14;
/// Serial poll enable.
pub const SPE: u8 = 0x18;
/// Serial poll disable.
pub const SPD: u8 = 0x19;
/// My listen address of primary address 0.
pub const MLA: u8 = 0x20;
/// Unlisten.
pub const UNL: u8 = 0x3F;
/// My talk address of primary address 0.
pub const MTA: u8 = 0x40;
/// Untalk.
pub const UNT: u8 = 0x5F;
/// My secondary address 0.
const MSA: u8 = 0x60;

/// Where a step of a job stands against the command bytes that it begins with.
#[derive(Clone, Copy, PartialEq, Eq)]
pub enum Step {
    /// At this one of them.
    Command(u8),
    /// So many steps behind the last of them.
    Behind(u8),
}

impl Step {
    /// The command byte, or this move behind the last one.
    pub fn or(self, behind: Next) -> Next
        ensures { result ≡ move_at self behind }
    {
        match self {
            Step::Command(b) => Next::Command(b),
            Step::Behind(_) => behind,
        }
    }
}

/// The step against the end of serial poll mode, which comes first where it was on.
pub fn poll_end_step(place: &Place) -> Step
    ensures { IsStep (ended_poll place.now.polling) place.now.step result }
{
    if !place.polling {
        Step::Behind(place.step)
    } else if place.step == 0 {
        Step::Command(SPD)
    } else {
        Step::Behind(place.step - 1)
    }
}

/// A step against a primary and perhaps a secondary address.
pub fn address_step(primary: u8, s: Option<u8>, step: u8) -> Step
    requires { IsSecondaryPlain s }
    ensures { IsStep (Cmd primary ∷ secondary_part s) step result }
{
    match (step, s) {
        (0, _) => Step::Command(primary),
        (1, Some(s)) => Step::Command(MSA + s),
        (_, None) => Step::Behind(step - 1),
        (_, Some(_)) => Step::Behind(step - 2),
    }
}

/// The step against all that a job on a device begins with: the end of serial poll mode, these bytes, and an address.
pub fn front_step(place: &Place, head: &[u8], primary: u8, s: Option<u8>) -> Step
    requires few { length head.now ≤ 3 }
    requires plain { IsSecondaryPlain s }
    ensures { IsStep (ended_poll place.now.polling ++ (map Cmd head.now ++ Cmd primary ∷ secondary_part s)) place.now.step result }
{
    match poll_end_step(place) {
        Step::Command(b) => Step::Command(b),
        Step::Behind(step) => head_step(head, primary, s, step),
    }
}

/// A step against these bytes and an address.
fn head_step(head: &[u8], primary: u8, s: Option<u8>, step: u8) -> Step
    requires few { length head.now ≤ 3 }
    requires plain { IsSecondaryPlain s }
    ensures { IsStep (map Cmd head.now ++ Cmd primary ∷ secondary_part s) step result }
{
    let count = head.len() as u8;
    if step < count {
        Step::Command(head[usize::from(step)])
    } else {
        address_step(primary, s, step - count)
    }
}

/// The next of `len` data bytes, where so many were put, with END on the last one or not.
pub fn next_put(len: u32, end: bool, moved: u32) -> Next
    ensures { (bytes : List ℕ) → length bytes ≡ len → slot_wanted result bytes moved ≡ option_map This (slice_get (puts end bytes) moved) }
{
    if moved < len {
        Next::Put {
            end: end && moved + 1 == len,
        }
    } else {
        Next::Finished
    }
}

/// The next byte of a read that has begun, or none where the last byte had END or was the stop byte, or where as many
/// came as were asked for, or as may be.
pub fn next_get(max: u32, stop: Option<u8>, place: &Place) -> Next
    ensures { result ≡ (if is_read_over max stop place.now.last place.now.moved then Next.Finished else Next.Get) }
{
    let stopped = match place.last {
        None => false,
        Some((b, end)) => end || stop == Some(b),
    };
    if stopped || place.moved == max.min(READ_MAX) {
        Next::Finished
    } else {
        Next::Get
    }
}

/// How many bytes a write of `len` has left to put, where this is its next move.
pub fn puts_left(len: u32, moved: u32, next: Next) -> u32
    ensures { result ≡ puts_left len moved next }
{
    match next {
        Next::Put { .. } => len.saturating_sub(moved),
        _ => 0,
    }
}

/// How many bytes a read of at most `max` may still get, where this is its next move.
pub fn gets_left(max: u32, moved: u32, next: Next) -> u32
    ensures { result ≡ gets_left max moved next }
{
    match next {
        Next::Get => max.min(READ_MAX).saturating_sub(moved),
        _ => 0,
    }
}

/// What a serial poll does behind its front: the status byte, and then the end of serial poll mode and of the talker.
pub fn poll_tail(moved: u32, step: u8) -> Next
    ensures { result ≡ poll_tail moved step }
{
    match (moved, step) {
        (0, _) => Next::Get,
        (_, 0) => Next::Command(SPD),
        (_, 1) => Next::Command(UNT),
        _ => Next::Finished,
    }
}

/// The only move of a job, where none was made yet.
pub fn only_move(only: Next, step: u8) -> Next
    ensures { result ≡ tail_after only step }
{
    if step == 0 { only } else { Next::Finished }
}
