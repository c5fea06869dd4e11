//! A gate round a value that threads share: one turn at a time, over one history.
//!
//! A turn runs one act on the value and adds exactly one group to the history, the one that the act says it adds.
//! The history exists in the proofs alone. A pass is the right to take turns; it has no bytes, and knows a beginning
//! of the history, what it has seen, and its own groups in it. A pass draws a ticket and looks until its ticket is
//! served, so turns come in the order of their tickets, and no step is tried twice. Whoever has to wait sleeps between
//! its looks, and leaves the processor to others.
#![tactic(auto)]

mod acts;
mod gates;
mod holding;
mod passes;
mod plays;
mod views;
mod waiting;

pub use acts::{Act, Kept};
pub use gates::{Gate, GateRefused, Turns};
pub use passes::{Pass, PassOf};
pub use views::Logged;
