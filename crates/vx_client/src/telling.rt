//! What the record of a reply tells of the bytes that a device took or gave, with an error or without.

ghost use Rattle.std.specs.Prelude.{◌≡◌, option_map};
ghost use Rattle.vx_codec.specs.Answered.{results_shown};
ghost use Rattle.vx_client.specs.Sizes.{results_told, size_told, bytes_told, reason_told};

use crate::client::Client;
use crate::settling::{bytes, reason};
use vx_calls::Proc;
use vx_codec::{Results, read_results};
use vx_io_traits::Link;
use vx_rpc::{ReplyRead, read_reply};

/// The results that a record brings, read as those of this procedure.
fn results_of<'a>(procedure: Proc, message: &'a [u8]) -> Option<Results<'a>>
    ensures { option_map results_shown result ≡ results_told procedure message.now }
{
    match read_reply(message) {
        ReplyRead::Success { results, .. } => read_results(procedure, results),
        ReplyRead::Refused { .. } => None,
        ReplyRead::Bad => None,
    }
}

impl<L: Link> Client<L> {
    /// How many bytes the record of the last call tells that a device_write took, with an error or without (VXI-11,
    /// Device_WriteResp); 0 where it tells none.
    pub fn size_told(&self) -> u32
        ensures { result ≡ size_told self.now.last }
    {
        match results_of(Proc::Write, self.last()) {
            Some(Results::Write { size, .. }) => size,
            _ => 0,
        }
    }

    /// The bytes that the record of the last call brings, with an error or without, where it was a call of this procedure:
    /// the data of a device_read or of a device_docmd (VXI-11, Device_ReadResp, Device_DocmdResp). None where it brings none.
    pub fn bytes_told(&self, procedure: Proc) -> &[u8]
        ensures { result.now ≡ bytes_told procedure self.now.last }
    {
        match results_of(procedure, self.last()) {
            Some(results) => bytes(results),
            None => &[],
        }
    }

    /// Why a device_read ended, as the record of the last call tells it, with an error or without: 1 REQCNT, 2 CHR, 4 END, or
    /// several of them (VXI-11, Device_ReadResp); 0 where it tells none.
    pub fn reason_told(&self) -> u32
        ensures { result ≡ reason_told self.now.last }
    {
        match results_of(Proc::Read, self.last()) {
            Some(results) => reason(&results),
            None => 0,
        }
    }
}
