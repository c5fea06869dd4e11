ghost use Rattle.std.specs.Prelude.{◌≡◌, ◌≤◌, [], length, vec_capacity, IfOk};
ghost use Rattle.vx_calls.specs.declared.limits.TheConstants.{RECORD_MAX};

use std::alloc::{AllocError, Global};
use vx_calls::RECORD_MAX;

/// The bytes of a pending call, its device text or its data, with room for those of a record.
#[derive(Drop)]
pub(crate) struct Text {
    pub(crate) bytes: Vec<u8>,
    ghost roomy: { RECORD_MAX ≤ vec_capacity bytes },
}

impl Text {
    pub(crate) fn new(alloc: Global) -> Result<Text, AllocError>
        ensures { IfOk result (λ t. t.bytes.items ≡ []) }
    {
        Ok(Text {
            bytes: Vec::with_capacity(alloc, RECORD_MAX)?,
        })
    }

    /// These bytes, however many, in room of their own.
    pub(crate) fn of(alloc: Global, bytes: &[u8]) -> Result<Text, AllocError>
        ensures { IfOk result (λ t. t.bytes.items ≡ bytes.now) }
    {
        let mut kept = Vec::with_capacity(alloc, bytes.len().max(RECORD_MAX))?;
        kept.extend_from_slice(bytes)?;
        Ok(Text { bytes: kept })
    }

    /// Keeps these bytes in place of the ones before.
    pub(crate) fn keep(&mut self, bytes: &[u8])
        requires { length bytes.now ≤ RECORD_MAX }
        ensures { self.new.bytes.items ≡ bytes.now }
    {
        self.bytes.clear();
        match self.bytes.extend_from_slice(bytes) {
            Ok(()) => (),
            Err(_) => unreachable!(),
        }
    }
}
