//! The calls that take several exchanges: a write in pieces, and a read until it ends.

ghost use Rattle.std.specs.Prelude.{◌≡◌, ◌≤◌, ◌<◌, length, min, IfOk};
ghost use Rattle.vx_client.specs.Exchange.{IsCalled};
ghost use Rattle.vx_client.specs.Ending.{TellsEnd};
ghost use Rattle.vx_client.specs.Meaning.{nothing_of};
ghost use Rattle.vx_client.specs.Chunks.{chunks, write_call, IsWritten};
ghost use Rattle.vx_client.specs.Parts.{ReadsPart, IsRead};

use crate::answers::{CallOpts, ClientErr, LinkMade, ReadEnd};
use crate::client::Client;
use vx_calls::{CallRef, PIECE_MAX};
use vx_io_traits::Link;

/// All flags but END (VXI-11, Device_Flags).
const NO_END: u32 = 0xFFFF_FFF7;

impl<L: Link> Client<L> {
    /// One device_write of at most `PIECE_MAX` bytes with these flags, in place of those of `opts` (VXI-11, device_write).
    /// The timeouts of `opts` are in milliseconds.
    ///
    /// Ok says that the device took all of them: a reply with error 0 and another size is a `BadReply`. Behind the error of
    /// a device, 15 (I/O timeout) too, `size_told` tells how many it took.
    pub fn write_piece(
        &mut self,
        lid: u32,
        opts: &CallOpts,
        flags: u32,
        bytes: &[u8],
    ) -> Result<(), ClientErr>
        requires { length bytes.now ≤ PIECE_MAX }
        ensures called { IsCalled L.stands L.left L.receive_faults L.send_faults self.old self.new (write_call lid opts.now flags bytes.now) 0 nothing_of result }
        ensures last { TellsEnd L.receives L.sends self.new.link result }
    {
        self.order(&CallRef::Write {
            lid,
            io_timeout: opts.io_timeout,
            lock_timeout: opts.lock_timeout,
            flags,
            bytes,
        })
    }

    /// device_write, in pieces of the smaller of `made.max` and `PIECE_MAX` bytes, the last one shorter, and at least
    /// one. The flag END of `opts` stands on the last piece alone. It ends at the first piece that fails.
    pub fn write(&mut self, made: &LinkMade, opts: &CallOpts, bytes: &[u8]) -> Result<(), ClientErr>
        requires { 1 ≤ made.now.max }
        ensures written { IsWritten L.stands L.left L.receive_faults L.send_faults self.old self.new made.now.lid opts.now (chunks (min made.now.max PIECE_MAX) bytes.now) result }
        ensures last { TellsEnd L.receives L.sends self.new.link result }
    {
        let most = made.max.min(PIECE_MAX) as usize;
        let mut rest = bytes;
        while rest.len() > most {
            self.write_piece(made.lid, opts, opts.flags & NO_END, &rest[..most])?;
            rest = &rest[most..];
        }
        self.write_piece(made.lid, opts, opts.flags, rest)
    }

    /// One device_read, for all that `into` holds or as many bytes as one can ask for, 2^32 - 1 (VXI-11, device_read). `term`
    /// is the termination character, which counts where the flag termchrset of `opts` is set. The timeouts of `opts` are in
    /// milliseconds.
    ///
    /// At an Ok the bytes that came stand at the front of `into`. Else `into` is as before, and behind the error of a device,
    /// 15 (I/O timeout) too, `bytes_told` and `reason_told` tell what came with it. A reply with more bytes than were asked
    /// for is a `BadReply`, and so is one with error 0, no reason and no byte where some were asked for.
    pub fn read_part(
        &mut self,
        lid: u32,
        opts: &CallOpts,
        term: u8,
        into: &mut [u8],
    ) -> Result<ReadEnd, ClientErr>
        ensures read { ReadsPart L.stands L.left L.receive_faults L.send_faults lid opts.now term self.old self.new into.old into.new result }
        ensures last { TellsEnd L.receives L.sends self.new.link result }
        ensures within { IfOk result (λ e. e.len ≤ length into.old) }
        ensures some { IfOk result (λ e. e.reason ≡ 0 → 0 < length into.old → 0 < e.len) }
    {
        let request = into.len().min(u32::MAX as usize) as u32;
        let call = CallRef::Read {
            lid,
            request,
            io_timeout: opts.io_timeout,
            lock_timeout: opts.lock_timeout,
            flags: opts.flags,
            term,
        };
        let answer = self.ask(&call, into)?;
        Ok(ReadEnd {
            len: answer.len,
            reason: answer.reason,
        })
    }

    /// device_read until a reason is told or `into` is full, at least once. Each asks for all that is left of `into`, and
    /// each further one follows at least one byte. `term` is the termination character, which counts where the flag
    /// termchrset of `opts` is set.
    ///
    /// A reply with more bytes than were asked for is a `BadReply`, and so is one with error 0, no reason and no byte
    /// where some were asked for. Where a call fails, `into` has what came before it.
    pub fn read(
        &mut self,
        lid: u32,
        opts: &CallOpts,
        term: u8,
        into: &mut [u8],
    ) -> Result<ReadEnd, ClientErr>
        ensures read { IsRead L.stands L.left L.receive_faults L.send_faults lid opts.now term self.old self.new into.old into.new result }
        ensures last { TellsEnd L.receives L.sends self.new.link result }
        ensures within { IfOk result (λ e. e.len ≤ length into.new) }
    {
        let mut len = 0;
        loop {
            let end = self.read_part(lid, opts, term, &mut into[len..])?;
            len += end.len;
            if end.reason != 0 || len == into.len() {
                return Ok(ReadEnd {
                    len,
                    reason: end.reason,
                });
            }
        }
    }
}
