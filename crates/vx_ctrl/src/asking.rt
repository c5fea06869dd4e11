//! One ask of a bus: for what a job wants next.
ghost use Rattle.std.specs.Prelude.{◌≡◌, ◌<◌, slice_index};
ghost use Rattle.vx_488.specs.declared.asks.TheConstants.{ASK_MAX};
ghost use Rattle.vx_plan.specs.Places.{slot_wanted};
ghost use Rattle.vx_ctrl.specs.Asking.{sent_as, got_as, TurnAsks, IsPlainNext};

use crate::turn::Went;
use vx_488::{Bus, GetOut, Line, Move, Transfer};
use vx_plan::Next;

/// What an ask came to.
#[derive(Clone, Copy, PartialEq, Eq)]
pub enum BusAnswer {
    /// The bus made this transfer.
    Moved(Transfer),
    /// The turn stops, for this reason.
    Stopped(Went),
}

/// What an ask for this transfer came to.
fn sent(t: Transfer, answer: Move) -> BusAnswer
    ensures { result ≡ sent_as t answer }
{
    match answer {
        Move::Went => BusAnswer::Moved(t),
        Move::Held => BusAnswer::Stopped(Went::Held),
        Move::Failed => BusAnswer::Stopped(Went::Broken),
    }
}

/// What a get came to.
fn got(answer: GetOut) -> BusAnswer
    ensures { result ≡ got_as answer }
{
    match answer {
        GetOut::Byte { b, end } => BusAnswer::Moved(Transfer::Got { b, end }),
        GetOut::Held => BusAnswer::Stopped(Went::Held),
        GetOut::Failed => BusAnswer::Stopped(Went::Broken),
    }
}

/// The byte at a place, or 0 behind the last, for which no plan asks.
fn byte_at(bytes: &[u8], at: u32) -> u8
    ensures { result ≡ slice_index bytes.now at }
{
    bytes.get(at as usize).copied().unwrap_or(0)
}

/// Asks a bus for what a job wants next, which has sent so many of its bytes.
pub fn ask<B: Bus>(bus: &mut B, next: Next, bytes: &[u8], moved: u32) -> BusAnswer
    requires asks { (B.means bus.old).asks < ASK_MAX }
    requires own { IsPlainNext next }
    ensures { TurnAsks B.means B.through (slot_wanted next bytes.now moved) result bus.old bus.new }
{
    match next {
        Next::Command(b) => sent(Transfer::Cmd(b), bus.command(b)),
        Next::CommandByte => {
            let b = byte_at(bytes, moved);
            sent(Transfer::Cmd(b), bus.command(b))
        }
        Next::Put { end } => {
            let b = byte_at(bytes, moved);
            sent(Transfer::Put { b, end }, bus.put(b, end))
        }
        Next::Get => got(bus.get()),
        Next::Ren(on) => sent(Transfer::Ren(on), bus.line(Line::Ren, on)),
        Next::Atn(on) => sent(Transfer::Atn(on), bus.line(Line::Atn, on)),
        Next::Ifc => sent(Transfer::Ifc, bus.ifc()),
        Next::Own(address) => sent(Transfer::Own(address), bus.own(address)),
        Next::Finished => BusAnswer::Stopped(Went::Finished),
    }
}
