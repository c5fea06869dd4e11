//! All that the program does that serves links over four buses, `gpib0` to `gpib3`; the sessions of connections to them are those of the desks.
#![tactic(auto)]

mod hosting;
mod run;
mod starting;

pub use run::buses_run;
pub use starting::start_buses;
pub use vx_desks::{
    BusPass, Buses, BusesRefused, Count, Fleet, FleetWorker, Gates, GatesRefused, LinkServer,
    Passes, fewer_law, four_law, global, local, many_abort, many_link, many_session,
};
