//! The tables of a gateway as code: its connections with their pending calls, its links, locks and interrupt channels, and
//! what each call makes of them by the rules.
#![tactic(auto)]

mod tables;

pub use tables::{Admission, Bar, Connect, NoMemory, Request, Tables, has_passed, may_wait};
