//! Where a list of transfers stands in a job.
ghost use Rattle.std.specs.Prelude.{◌≡◌, ◌≤◌, slice_index};
ghost use Rattle.vx_calls.specs.declared.limits.TheConstants.{WRITE_MAX};
ghost use Rattle.vx_488.specs.declared.transfers.TheConstants.{ADDRESS_MAX};
ghost use Rattle.vx_488.specs.declared.transfers.Transfer.TheVariants.{Cmd, Put, Ren, Atn, Own};
ghost use Rattle.vx_plan.specs.Plan as plans;
ghost use Rattle.vx_plan.specs.Transfers.{same_transfer};
ghost use Rattle.vx_plan.specs.Tasks.{plan};
ghost use Rattle.vx_plan.specs.Places.{slot_wanted, place_after};
ghost use Rattle.vx_rules.specs.Serving.{IsDoable};
ghost use Rattle.vx_model.specs.Stepping.{fits_next};
ghost use Rattle.vx_model.specs.StepShown.{stand_shown};

use vx_488::{Transfer, Wire};
use vx_plan::{Next, Place, Task, first_place, next_move, place_goes_on, small_place};

/// A list does all of a job, or a part of it, or leaves it.
#[derive(Clone, Copy, PartialEq, Eq)]
pub(crate) enum Stand {
    Whole,
    Part,
    Off,
}

/// Where these transfers stand in a job with these bytes that began on this bus.
pub(crate) fn stand_on(task: &Task, wire: &Wire, bytes: &[u8], list: &[Transfer]) -> Stand
    requires own { wire.now.own ≤ ADDRESS_MAX }
    requires doable { IsDoable task.now bytes.now }
    ensures { stand_shown result ≡ plans.stand (plan task.now bytes.now wire.now.polling wire.now.own) list.now }
{
    place_goes_on();
    small_place();
    let mut place = first_place(wire);
    for t in list {
        let next = next_move(task, &place);
        if !fits(next, bytes, place.moved, *t) {
            return Stand::Off;
        }
        place = after(task, &place, *t);
    }
    match next_move(task, &place) {
        Next::Finished => Stand::Whole,
        _ => Stand::Part,
    }
}

/// Whether a transfer is what a job wants next, where so many of these bytes were sent.
fn fits(next: Next, bytes: &[u8], moved: u32, t: Transfer) -> bool
    ensures { result ≡ fits_next (slot_wanted next bytes.now moved) t }
{
    match next {
        Next::Command(b) => is_command(t, b),
        Next::CommandByte => is_command(t, byte_at(bytes, moved)),
        Next::Put { end } => is_put(t, byte_at(bytes, moved), end),
        Next::Get => matches!(&t, Transfer::Got { .. }),
        Next::Ren(on) => is_ren(t, on),
        Next::Atn(on) => is_atn(t, on),
        Next::Ifc => matches!(&t, Transfer::Ifc),
        Next::Own(a) => is_own(t, a),
        Next::Finished => false,
    }
}

/// The byte at a place; no job wants one behind the last.
fn byte_at(bytes: &[u8], place: u32) -> u8
    ensures { result ≡ slice_index bytes.now place }
{
    let place = place as usize;
    if place < bytes.len() { bytes[place] } else { 0 }
}

/// Whether a transfer is this command byte.
fn is_command(t: Transfer, b: u8) -> bool
    ensures { result ≡ same_transfer (Cmd b) t }
{
    match t {
        Transfer::Cmd(c) => b == c,
        _ => false,
    }
}

/// Whether a transfer puts this byte, with END or not.
fn is_put(t: Transfer, b: u8, end: bool) -> bool
    ensures { result ≡ same_transfer (Put b end) t }
{
    match t {
        Transfer::Put { b: c, end: last } => b == c && end == last,
        _ => false,
    }
}

/// Whether a transfer switches REN so.
fn is_ren(t: Transfer, on: bool) -> bool
    ensures { result ≡ same_transfer (Ren on) t }
{
    match t {
        Transfer::Ren(to) => on == to,
        _ => false,
    }
}

/// Whether a transfer switches ATN so.
fn is_atn(t: Transfer, on: bool) -> bool
    ensures { result ≡ same_transfer (Atn on) t }
{
    match t {
        Transfer::Atn(to) => on == to,
        _ => false,
    }
}

/// Whether a transfer takes this own address.
fn is_own(t: Transfer, a: u8) -> bool
    ensures { result ≡ same_transfer (Own a) t }
{
    match t {
        Transfer::Own(b) => a == b,
        _ => false,
    }
}

/// The place after one more transfer.
fn after(task: &Task, place: &Place, t: Transfer) -> Place
    requires steps { place.now.step ≤ 8 }
    requires moved { place.now.moved ≤ WRITE_MAX }
    ensures { result ≡ place_after task.now place.now t }
{
    match (*task, t) {
        (_, Transfer::Got { b, end }) => Place {
            moved: place.moved + 1,
            last: Some((b, end)),
            ..*place
        },
        (_, Transfer::Put { .. }) | (Task::Commands { .. }, Transfer::Cmd(_)) => Place {
            moved: place.moved + 1,
            ..*place
        },
        _ => Place {
            step: place.step + 1,
            ..*place
        },
    }
}
