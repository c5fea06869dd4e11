//! The rules of the gateway: the definitions of the gateway of one thread, by which everything else is measured, and their laws.
//! No table stands here as code: `vx_links`, `vx_locks` and `vx_srq` keep the three of them, `vx_state` all of a gateway's.
#![tactic(auto)]

mod limits;
mod theorems;

pub use limits::OUTBOX_MAX;
pub use theorems::{
    arrivals_law, channel_law, connections_law, enables_law, fronts_legal, granted_law,
    link_numbers, links_go, locks_apart, numbers_given_once, numbers_law, one_reply, own_link,
    passed_calls, rise_law, room_law,
};
