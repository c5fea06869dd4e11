//! What can be known of a link while it is used; bytes that go out on it whole; the records that come in on it, each answered before
//! the next is looked for, to the end of the input or to where the stream is no longer read; and a link that counts what was answered
//! on it. What answers a message is an `Answers` of the session at hand. Sessions, pumps and the port mapper say by these words what
//! they did to their links.
#![tactic(auto)]

mod answers;
mod ends;
mod pieces;
mod sending;
mod streams;
mod visitors;

pub use answers::Answers;
pub use ends::End;
pub use sending::send_all;
pub use streams::{answer_stream, answer_up_to};
pub use visitors::CountingLink;
