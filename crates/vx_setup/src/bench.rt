//! A bench: the instruments of a text of lines, attached to a bus in order.
ghost use Rattle.std.specs.Prelude.{◌≡◌, ◌≤◌, List, length, map};
ghost use Rattle.vx_script.specs.declared.TheConstants.{LINE_MAX};
ghost use Rattle.vx_script.specs.Command.{Inst, Plug, step_shown};
ghost use Rattle.vx_script.specs.Grammar.{reading};
ghost use Rattle.vx_script.specs.Plain.{IsPlainStep, IsAddress};
ghost use Rattle.vx_setup.specs.Rack.{SpareShown};
ghost use Rattle.vx_sim.specs.Occupants.{handed_in};
ghost use Rattle.vx_setup.specs.Spares.{spare_shown};
ghost use Rattle.vx_setup.specs.SettingUp.{KeepsMeaning, EndsBench};
ghost use Rattle.vx_setup.specs.LineSet.{TakesOrStops, SetupEndsLine};

use crate::shelf::{refused_for, spare_place};
use crate::stops::Refusal;
use crate::table::table_of;
use std::alloc::Global;
use vx_488::Addr;
use vx_inst::Instrument;
use vx_rack::Spare;
use vx_script::{Cause, LINE_MAX, Step, read_step};
use vx_sim::SimBus;
use vx_text::{first_line, zeros};

/// Why a bench isn't set up.
#[derive(Clone, Copy, Debug, PartialEq, Eq)]
pub enum BenchStop {
    /// The line of this number, counted from 1, is outside the grammar, or its step is refused.
    Refused { line: u64, cause: Cause },
    NoMemory,
}

/// Attaches a table instrument that a JSON text describes.
fn inst<I: Instrument>(
    alloc: Global,
    p: u8,
    s: Option<u8>,
    text: &[u8],
    bus: &mut SimBus<I>,
) -> Result<(), Refusal>
    requires address { IsAddress p s }
    ensures taken { (rack : List SpareShown) → TakesOrStops (record { bus = bus.old; rack = rack }) (Inst p s text.now)
        (record { bus = bus.new; rack = rack }) result }
    ensures kept { KeepsMeaning bus.old bus.new }
{
    let inst = table_of(alloc, text)?;
    match bus.attach_table(Addr { p, s }, inst) {
        Ok(()) => Ok(()),
        Err(refused) => Err(refused_for(refused.why)),
    }
}

/// Attaches the first spare instrument of a name, which is then gone from the rack.
fn plug<I: Instrument>(
    p: u8,
    s: Option<u8>,
    name: &[u8],
    bus: &mut SimBus<I>,
    rack: &mut Vec<Spare<I>>,
) -> Result<(), Refusal>
    requires address { IsAddress p s }
    ensures taken { TakesOrStops (record { bus = bus.old; rack = map (spare_shown (handed_in (λ i. I.behaves i) (λ i. I.nature i))) rack.old.items }) (Plug p s name.now)
        (record { bus = bus.new; rack = map (spare_shown (handed_in (λ i. I.behaves i) (λ i. I.nature i))) rack.new.items }) result }
    ensures kept { KeepsMeaning bus.old bus.new }
{
    let Some(place) = spare_place(rack.as_slice(), name) else {
        return Err(Refusal::Refused(Cause::Spare));
    };
    let spare = rack.remove(place);
    match bus.attach_box(Addr { p, s }, spare.inst) {
        Ok(()) => Ok(()),
        Err(refused) => Err(refused_for(refused.why)),
    }
}

/// Attaches the instrument of a step. A step that is for none is no step of a bench.
fn take_step<I: Instrument>(
    alloc: Global,
    step: &Step<'_>,
    bus: &mut SimBus<I>,
    rack: &mut Vec<Spare<I>>,
) -> Result<(), Refusal>
    requires plain { IsPlainStep step.now }
    ensures taken { TakesOrStops (record { bus = bus.old; rack = map (spare_shown (handed_in (λ i. I.behaves i) (λ i. I.nature i))) rack.old.items }) (step_shown step.now)
        (record { bus = bus.new; rack = map (spare_shown (handed_in (λ i. I.behaves i) (λ i. I.nature i))) rack.new.items }) result }
    ensures kept { KeepsMeaning bus.old bus.new }
{
    match *step {
        Step::Inst { p, s, text } => inst(alloc, p, s, text, bus),
        Step::Plug { p, s, name } => plug(p, s, name, bus, rack),
        _ => Err(Refusal::Refused(Cause::Form)),
    }
}

/// Attaches the instrument of a line, where it isn't skipped. `room` is for the bytes of an `in` line.
fn set_line<I: Instrument>(
    alloc: Global,
    line: &[u8],
    room: &mut [u8],
    bus: &mut SimBus<I>,
    rack: &mut Vec<Spare<I>>,
) -> Result<(), Refusal>
    requires room { LINE_MAX ≤ length room.old }
    ensures ended { SetupEndsLine (reading line.now) (record { bus = bus.old; rack = map (spare_shown (handed_in (λ i. I.behaves i) (λ i. I.nature i))) rack.old.items })
        (record { bus = bus.new; rack = map (spare_shown (handed_in (λ i. I.behaves i) (λ i. I.nature i))) rack.new.items }) result }
    ensures kept { KeepsMeaning bus.old bus.new }
{
    if line.len() > LINE_MAX {
        return Err(Refusal::Refused(Cause::Form));
    }
    match read_step(line, &mut room[..line.len()]) {
        Ok(Some(step)) => take_step(alloc, &step, bus, rack),
        Ok(None) => Ok(()),
        Err(cause) => Err(Refusal::Refused(cause)),
    }
}

/// Attaches the instruments of lines, up to the first that isn't taken.
fn set_lines<I: Instrument>(
    alloc: Global,
    text: &[u8],
    room: &mut [u8],
    bus: &mut SimBus<I>,
    rack: &mut Vec<Spare<I>>,
) -> Result<(), BenchStop>
    requires room { LINE_MAX ≤ length room.old }
    ensures ended { EndsBench text.now (record { bus = bus.old; rack = map (spare_shown (handed_in (λ i. I.behaves i) (λ i. I.nature i))) rack.old.items })
        (record { bus = bus.new; rack = map (spare_shown (handed_in (λ i. I.behaves i) (λ i. I.nature i))) rack.new.items }) result }
    ensures kept { KeepsMeaning bus.old bus.new }
{
    let mut rest = text;
    let mut line = 0u64;
    while !rest.is_empty() {
        let (first, behind) = first_line(rest);
        line += 1;
        match set_line(alloc, first, room, bus, rack) {
            Ok(()) => {}
            Err(Refusal::Refused(cause)) => return Err(BenchStop::Refused { line, cause }),
            Err(Refusal::NoMemory) => return Err(BenchStop::NoMemory),
        }
        rest = behind;
    }
    Ok(())
}

/// Attaches the instruments of a bench, in order, to the bus.
///
/// A bench is a text of lines in the grammar of a script. Of its steps `inst` and `plug` are taken; any other is refused as
/// `form`, like a line outside the grammar. A `plug` takes its instrument out of the rack. Where a line is refused the
/// instruments of the lines in front of it are attached; a spare that a refused line names may be gone from the rack. Where
/// memory runs out those of some first lines are attached, and no more changed.
///
/// Only the instruments of the bus change: nothing is asked of it, and no moment is told.
pub fn set_up<I: Instrument>(
    alloc: Global,
    text: &[u8],
    bus: &mut SimBus<I>,
    rack: &mut Vec<Spare<I>>,
) -> Result<(), BenchStop>
    ensures ended { EndsBench text.now (record { bus = bus.old; rack = map (spare_shown (handed_in (λ i. I.behaves i) (λ i. I.nature i))) rack.old.items })
        (record { bus = bus.new; rack = map (spare_shown (handed_in (λ i. I.behaves i) (λ i. I.nature i))) rack.new.items }) result }
    ensures means { bus.new.means ≡ bus.old.means }
    ensures told { bus.new.told ≡ bus.old.told }
    ensures failing { bus.new.failing ≡ bus.old.failing }
{
    let Ok(mut room) = zeros(alloc, LINE_MAX) else {
        return Err(BenchStop::NoMemory);
    };
    set_lines(alloc, text, &mut room, bus, rack)
}
