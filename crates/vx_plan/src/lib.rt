//! The jobs that the gateway does on an IEEE 488 bus: which transfers each makes, when it is whole, what its reply is,
//! and which role it needs.
#![tactic(auto)]

mod conditions;
mod moves;
mod tasks;
mod theorems;

pub use tasks::{Next, Place, TURN_MAX, Task, data_left, first_place, needs, next_move};
pub use theorems::{
    appends, few_transfers, few_with_data, goes_on, no_other_own, own_stays, part_is_shorter,
    part_lists, place_goes_on, prefix_free, read_moved, run_goes_on, small_place, wants_nothing,
    whole_lists, write_moved,
};
