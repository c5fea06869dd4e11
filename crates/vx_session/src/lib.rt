//! Sessions: what one connection's thread does. It reads records from a link, has each call answered in turns at the gate round
//! the core, writes the replies in the same order, and ends with the connection.
#![tactic(auto)]

mod acts;
mod answering;
mod attending;
mod desks;
mod links;
mod one_bus;
mod pumps;
mod samples;
mod sessions;
mod still;
mod theorems;
mod tools;
mod turns;

pub use answering::answer_call;
pub use attending::Attending;
pub use desks::Desk;
pub use links::{LinkDone, Linked, Tally, abort_link, core_link, serve_core_link, serve_link};
pub use one_bus::OneBus;
pub use pumps::{PumpEnd, pump};
pub use samples::sample_turn;
pub use sessions::{NoMemory, Room, abort_session, core_session, serve_session};
pub use still::NoTools;
pub use theorems::{called_law, room_law, turns_law};
pub use tools::Tools;
pub use turns::{Request, Worker, abort, come, join, leave, poll_again, sample, settle, take};
pub use vx_stream::End;
