//! The exchange of a message on a connection for a reply: what a message means by the connection's role, what becomes of it at
//! the core, and the records that the gateway sends, each as one fragment (RFC 5531, section 11). A record goes into a slice
//! that the caller holds, and no call allocates. It is over any bus; whoever calls it has the connections' streams.
#![tactic(auto)]

mod opened;
mod polls;
mod record;

pub use opened::{Opened, open};
pub use polls::{Aborted, DialAnswered, PollEnd, abort, again, come, settle};
pub use record::{REPLY_ROOM, SRQ_ROOM, put_srq_record, put_success_record};
