//! What a lab writes down: access rules, the text of a policy, what its rules say of a call, and what the calls of a session are to; and
//! names for devices. It stands on no core; only [`Policy::from_text`], [`KnownLinks::new`] and a [`NameTable`] take memory.
#![tactic(auto)]

mod lines;
mod made;
mod matching;
mod names;
mod policy;
mod rules;
mod texts;
mod theorems;
mod words;

pub use made::{KnownLinks, MadeLink, NoMemory, proc_of};
pub use names::{NAMES_MAX, NameRefused, NameTable};
pub use policy::{Policy, PolicyErr, RULES_MAX, TEXT_MAX, Verdict};
pub use rules::{Peers, Place, Rule};
pub use texts::{LINE_ROOM, deny_line, form_line, served_line};
pub use theorems::{one_reading, one_verdict, replies_read, texts_name};
pub use words::word_of;
