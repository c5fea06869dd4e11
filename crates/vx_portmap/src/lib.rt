//! A port mapper (RFC 1833, section 3) over a fixed table: what it answers to a message, over packets and over a stream of
//! records, and all that its program does. Only [`map_run`] takes memory.
#![tactic(auto)]

mod answers;
mod boxes;
mod ends;
mod hosts;
mod limits;
mod mapper;
mod nets;
mod replies;
mod run;
mod sending;
mod serving;
mod streams;
mod table;
mod words;

pub use answers::{MapAnswer, map_answer};
pub use boxes::{Given, Packet, PacketBox, Packets};
pub use ends::MapEnd;
pub use hosts::MapHost;
pub use limits::{MESSAGE_MAX, PORTS_MAX, STREAM_MAX};
pub use nets::MapNet;
pub use run::map_run;
pub use serving::{PacketEnd, map_packets};
pub use streams::map_stream;
pub use table::{AddErr, Mapping, Ports};
