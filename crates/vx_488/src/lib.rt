//! The IEEE 488 bus: as a list of transfers, what each of them means for the lines and addresses that a controller keeps,
//! whom it reaches, and who hears its bytes; and as a trait, what the gateway asks of it: transfers that go, are held or
//! fail one at a time, data bytes in bursts too, and the list of those that went. `vx_bus` has a form of it over memory.
#![tactic(auto)]

mod asks;
mod bursts;
mod bus;
mod commands;
mod listeners;
mod theorems;
mod transfers;
mod wire;

pub use asks::{ASK_MAX, Ask, GetOut, Move};
pub use bursts::{Many, ManyGot, Stop};
pub use bus::{Bus, Tweak};
pub use commands::{Command, command_of};
pub use listeners::{Listeners, is_bus_address};
pub use theorems::{address_bytes, addressing, heard_appends, reached_appends, wire_appends};
pub use transfers::{ADDRESS_MAX, Addr, Line, Transfer};
pub use wire::{Pending, Wire};
