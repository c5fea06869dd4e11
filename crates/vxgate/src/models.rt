//! The instruments that this program plugs in.
use vx_488::ManyGot;
use vx_inst::Instrument;
use vx_rack::{Asker, Echo, Meter, Slow};

/// An instrument of any of the four models, which behaves as that one does. It stands in for a box round one: a work that holds boxes can't be handed to a
/// thread, since the checker doesn't cover its type.
#[derive(Drop)]
pub enum AnyModel {
    Echo(Echo),
    Meter(Meter),
    Slow(Slow),
    Asker(Asker),
}

impl Instrument for AnyModel {
    ghost use Rattle.vxgate.specs.Models.{behavior_of, nature_of};

    ghost behaves = { behavior_of };

    ghost nature = { nature_of };

    fn can_take(&self) -> bool {
        match self {
            AnyModel::Echo(inst) => inst.can_take(),
            AnyModel::Meter(inst) => inst.can_take(),
            AnyModel::Slow(inst) => inst.can_take(),
            AnyModel::Asker(inst) => inst.can_take(),
        }
    }

    fn take(&mut self, b: u8, end: bool) {
        match self {
            AnyModel::Echo(inst) => inst.take(b, end),
            AnyModel::Meter(inst) => inst.take(b, end),
            AnyModel::Slow(inst) => inst.take(b, end),
            AnyModel::Asker(inst) => inst.take(b, end),
        }
    }

    fn take_many(&mut self, bytes: &[u8], end: bool) -> usize {
        match self {
            AnyModel::Echo(inst) => inst.take_many(bytes, end),
            AnyModel::Meter(inst) => inst.take_many(bytes, end),
            AnyModel::Slow(inst) => inst.take_many(bytes, end),
            AnyModel::Asker(inst) => inst.take_many(bytes, end),
        }
    }

    fn can_give(&self) -> bool {
        match self {
            AnyModel::Echo(inst) => inst.can_give(),
            AnyModel::Meter(inst) => inst.can_give(),
            AnyModel::Slow(inst) => inst.can_give(),
            AnyModel::Asker(inst) => inst.can_give(),
        }
    }

    fn give(&mut self) -> (u8, bool) {
        match self {
            AnyModel::Echo(inst) => inst.give(),
            AnyModel::Meter(inst) => inst.give(),
            AnyModel::Slow(inst) => inst.give(),
            AnyModel::Asker(inst) => inst.give(),
        }
    }

    fn give_many(&mut self, room: &mut [u8], stop: Option<u8>) -> ManyGot {
        match self {
            AnyModel::Echo(inst) => inst.give_many(room, stop),
            AnyModel::Meter(inst) => inst.give_many(room, stop),
            AnyModel::Slow(inst) => inst.give_many(room, stop),
            AnyModel::Asker(inst) => inst.give_many(room, stop),
        }
    }

    fn poll(&mut self) -> u8 {
        match self {
            AnyModel::Echo(inst) => inst.poll(),
            AnyModel::Meter(inst) => inst.poll(),
            AnyModel::Slow(inst) => inst.poll(),
            AnyModel::Asker(inst) => inst.poll(),
        }
    }

    fn requests(&self) -> bool {
        match self {
            AnyModel::Echo(inst) => inst.requests(),
            AnyModel::Meter(inst) => inst.requests(),
            AnyModel::Slow(inst) => inst.requests(),
            AnyModel::Asker(inst) => inst.requests(),
        }
    }

    fn clear(&mut self) {
        match self {
            AnyModel::Echo(inst) => inst.clear(),
            AnyModel::Meter(inst) => inst.clear(),
            AnyModel::Slow(inst) => inst.clear(),
            AnyModel::Asker(inst) => inst.clear(),
        }
    }

    fn trigger(&mut self) {
        match self {
            AnyModel::Echo(inst) => inst.trigger(),
            AnyModel::Meter(inst) => inst.trigger(),
            AnyModel::Slow(inst) => inst.trigger(),
            AnyModel::Asker(inst) => inst.trigger(),
        }
    }

    fn local(&mut self) {
        match self {
            AnyModel::Echo(inst) => inst.local(),
            AnyModel::Meter(inst) => inst.local(),
            AnyModel::Slow(inst) => inst.local(),
            AnyModel::Asker(inst) => inst.local(),
        }
    }

    fn set_status(&mut self, b: u8) {
        match self {
            AnyModel::Echo(inst) => inst.set_status(b),
            AnyModel::Meter(inst) => inst.set_status(b),
            AnyModel::Slow(inst) => inst.set_status(b),
            AnyModel::Asker(inst) => inst.set_status(b),
        }
    }

    fn moment(&mut self, now: u64) {
        match self {
            AnyModel::Echo(inst) => inst.moment(now),
            AnyModel::Meter(inst) => inst.moment(now),
            AnyModel::Slow(inst) => inst.moment(now),
            AnyModel::Asker(inst) => inst.moment(now),
        }
    }
}
