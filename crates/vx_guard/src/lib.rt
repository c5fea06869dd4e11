//! All that the program does that serves links by written rules; the sessions that the rules guard are those of the desks.
#![tactic(auto)]

mod reading;
mod run;
mod serving;
mod starting;
mod status;

pub use run::guard_run;
pub use vx_desks::{
    Gateway, GuardEnd, GuardRoom, Guarded, Kit, NoMemory, Ruled, guarded_link, guarded_session,
};
