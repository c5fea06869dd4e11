//! The calls and replies of the VXI-11 core, abort and interrupt channels as data, the error numbers that they
//! carry, the targets that a device text names, and the limits that every layer of the gateway shares.
#![tactic(auto)]

mod calls;
mod codes;
mod limits;
mod replies;
mod reply_laws;
mod targets;

pub use calls::{CallRef, Generic, Handle, Proc, Role};
pub use codes::ErrorCode;
pub use limits::{
    CONNECTION_LAST, DEVICE_MAX, DOCMD_MAX, HANDLE_MAX, LINK_LAST, LINK_MAX, PIECE_MAX, READ_MAX,
    RECORD_MAX, REPLY_MAX, ROLE_MAX, SLICE_MAX, WRITE_MAX,
};
pub use replies::{Interrupt, ReplyRef, Taken};
pub use reply_laws::{same_reply_is, same_reply_refl};
pub use targets::{Target, conflicts, target_of};
