//! The core as what a gate keeps: its history is the groups of events that turns add.
use crate::shared::Core;
use vx_488::Bus;
use vx_gate::Kept;
use vx_group::EventGroup;

impl<B: Bus> Kept for Core<B> {
    ghost use Rattle.vx_group.specs.Owning.{MayAdd};
    ghost use Rattle.vx_core.specs.Standing.{Became};

    type Group = EventGroup;

    ghost stands = { Became B.means B.through };

    ghost may_add = { MayAdd };
}
