//! The message of the last whole record, in room that is made once.
ghost use Rattle.std.specs.Prelude.{◌≡◌, ◌≤◌, [], length, vec_len, vec_capacity, IfOk};
ghost use Rattle.vx_calls.specs.declared.limits.TheConstants.{RECORD_MAX};

use std::alloc::{AllocError, Global};
use std::marker::Model;
use vx_calls::RECORD_MAX;

/// The message of a record, without marks.
#[derive(Drop)]
pub struct Message {
    bytes: Vec<u8>,
}

impl Model for Message {
    ghost use Rattle.std.specs.Prelude.{◌≤◌, ℕ, List, vec_len, vec_capacity};
    ghost use Rattle.vx_calls.specs.declared.limits.TheConstants.{RECORD_MAX};

    ghost Value = { List ℕ };

    ghost view = { λ m. m.bytes.items };

    ghost invariant = { λ m. (vec_len m.bytes ≤ RECORD_MAX) × (RECORD_MAX ≤ vec_capacity m.bytes) };
}

impl Message {
    /// An empty message, with room for the longest.
    pub fn new(alloc: Global) -> Result<Message, AllocError>
        ensures { IfOk result (λ m. m ≡ []) }
    {
        Ok(Message {
            bytes: Vec::with_capacity(alloc, RECORD_MAX)?,
        })
    }

    /// Keeps a message in place of the one before.
    pub fn keep(&mut self, message: &[u8])
        requires { length message.now ≤ RECORD_MAX }
        ensures { self.new ≡ message.now }
    {
        self.bytes.clear();
        match self.bytes.extend_from_slice(message) {
            Ok(()) => (),
            Err(_) => unreachable!(),
        }
    }

    /// The message.
    pub fn as_slice(&self) -> &[u8]
        ensures value { result.now ≡ self.now }
        ensures len { length result.now ≤ RECORD_MAX }
    {
        self.bytes.as_slice()
    }
}
