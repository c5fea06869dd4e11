//! The groups of events that turns at a gate add to the history of a gateway: for which histories a state stands, what a
//! list of events tells of a connection, which group a pass may add, and the laws of the histories that such groups make.
//!
//! A group is plain data of contracts; no value of it is made when a program runs.
#![tactic(auto)]

mod theorems;

use std::marker::Model;
pub use theorems::{claims_law, first_law, links_law, owned_law, phase_law, stands_law};

/// The type of a group of events.
#[derive(Drop)]
pub struct EventGroup {
    // no value is made
    never: (),
}

impl Model for EventGroup {
    ghost use Rattle.std.specs.Prelude.{[]};
    ghost use Rattle.vx_group.specs.Groups.{Group};

    ghost Value = { Group };

    ghost view = { λ _. record { events = []; steps = []; moment = 0; abort_port = 0 } };
}
