//! The calls of the box.

ghost use Rattle.std.specs.Prelude.{◌≡◌, ◌≢◌, ◌<◌, ◌≤◌, ◌↔◌, [], length, take, drop, min};
ghost use Rattle.vx_calls.specs.declared.limits.TheConstants.{PIECE_MAX};
ghost use Rattle.vx_488.specs.Bursts.{StopsAt};
ghost use Rattle.vx_488.specs.declared.asks.TheConstants.{ASK_MAX};
ghost use Rattle.vx_client.specs.Exchange.{IsCalled};
ghost use Rattle.vx_client.specs.Parts.{read_call, end_of};
ghost use Rattle.vx_upstream.specs.UpstreamState.{opts_of};
ghost use Rattle.vx_upstream.specs.Sending.{words_of, Commands, Orders, Wrote, Reads, ReadMany, AsksLevel, end_flag, stop_flag, stop_byte};

use crate::judging::{
    byte_move, bytes_come, judge, level_of, many_of, order_move, standing_after, tells_end,
};
use crate::upstream::UpstreamBus;
use vx_488::{Many, ManyGot, Move};
use vx_calls::{PIECE_MAX, Proc};
use vx_client::{CallOpts, Client, ClientErr, ReadEnd};
use vx_io_traits::{Link, Reach};

/// Send command (VXI-11.2).
pub(crate) const SEND_COMMAND: u32 = 0x020000;
/// Bus status.
pub(crate) const BUS_STATUS: u32 = 0x020001;
/// ATN control.
pub(crate) const ATN_CONTROL: u32 = 0x020002;
/// REN control.
pub(crate) const REN_CONTROL: u32 = 0x020003;
/// Bus address.
pub(crate) const BUS_ADDRESS: u32 = 0x02000A;
/// IFC control.
pub(crate) const IFC_CONTROL: u32 = 0x020010;

/// END (VXI-11, Device_Flags).
const END: u32 = 8;
/// The stop byte counts.
const TERMCHRSET: u32 = 0x80;

/// The flags of a write, with END or without.
fn flags_of(end: bool) -> u32
    ensures { result ≡ end_flag end }
{
    if end { END } else { 0 }
}

/// The flag of a read that has a stop byte.
fn stop_flag(stop: Option<u8>) -> u32
    ensures { result ≡ stop_flag stop }
{
    match stop {
        None => 0,
        Some(_) => TERMCHRSET,
    }
}

/// The stop byte as a read sends it.
fn stop_byte(stop: Option<u8>) -> u8
    ensures { result ≡ stop_byte stop }
{
    stop.unwrap_or(0)
}

/// A device_read into the first so many places of a room.
fn read_front<L: Link>(
    client: &mut Client<L>,
    lid: u32,
    opts: &CallOpts,
    term: u8,
    into: &mut [u8],
    many: usize,
) -> Result<ReadEnd, ClientErr>
    requires { many ≤ length into.old }
    ensures { IsCalled L.stands L.left L.receive_faults L.send_faults client.old client.new (read_call lid opts.now term many) many end_of result }
{
    client.read_part(lid, opts, term, &mut into[..many])
}

/// The first of these bytes at the front of a room.
fn put_front(room: &mut [u8], bytes: &[u8], many: usize)
    requires here { many ≤ length bytes.now }
    requires room { many ≤ length room.old }
    ensures front { take many room.new ≡ take many bytes.now }
    ensures rest { drop many room.new ≡ drop many room.old }
{
    room[..many].copy_from_slice(&bytes[..many]);
}

impl<L: Reach> UpstreamBus<L> {
    /// The flags and timeouts of a call.
    pub(crate) fn opts(&self, flags: u32) -> CallOpts
        ensures { result ≡ opts_of self.now flags }
    {
        CallOpts {
            flags,
            io_timeout: self.patience,
            lock_timeout: 0,
        }
    }

    /// The most bytes of one device_write.
    pub(crate) fn most(&self) -> usize
        ensures { result ≡ min self.now.made.max PIECE_MAX }
    {
        self.made.max.min(PIECE_MAX) as usize
    }

    /// A device_docmd with at most four bytes of data, and what it answered.
    pub(crate) fn docmd(&mut self, cmd: u32, bytes: &[u8]) -> Result<usize, ClientErr>
        requires { length bytes.now ≤ 4 }
        ensures rest { self.new ≡ record self.old { client = self.new.client } }
        ensures due { self.old.due ≡ [] }
        ensures called { Commands (words_of L.Link L.refused L.tries) cmd bytes.now result self.old self.new }
    {
        let opts = self.opts(0);
        let mut into = [0u8; 4];
        self.client
            .docmd(self.made.lid, &opts, cmd, bytes, &mut into)
    }

    /// A device_docmd of an ask that moves no data byte, and what it came to. Where the bus is away nothing is sent, and it
    /// failed.
    pub(crate) fn order(&mut self, cmd: u32, bytes: &[u8]) -> Move
        requires { length bytes.now ≤ 4 }
        ensures rest { self.new ≡ record self.old { client = self.new.client } }
        ensures due { self.old.due ≡ [] }
        ensures ordered { Orders (words_of L.Link L.refused L.tries) cmd bytes.now result self.old self.new }
        ensures never_held { result ≢ Move.Held }
    {
        if !self.is_here() {
            return Move::Failed;
        }
        let answer = self.docmd(cmd, bytes);
        order_move(&answer)
    }

    /// Asks the box for the level of a line, which was so before. Where that breaks off the bus is away.
    pub(crate) fn level(&mut self, selector: u8, before: bool) -> bool
        ensures rest { self.new ≡ record self.old { client = self.new.client; kept = self.new.kept } }
        ensures means { self.new.kept.means ≡ self.old.kept.means }
        ensures asked { AsksLevel (words_of L.Link L.refused L.tries) selector before result self.old self.new }
    {
        let answer = self.docmd(BUS_STATUS, &[0, selector]);
        self.standing = standing_after(&answer, self.standing);
        level_of(&answer, self.client.bytes_told(Proc::Docmd), before)
    }

    /// A device_write of these bytes, with END on the last one or not, and how many of them went.
    pub(crate) fn write_some(&mut self, bytes: &[u8], end: bool) -> Many
        requires some { 0 < length bytes.now }
        requires short { length bytes.now ≤ PIECE_MAX }
        ensures rest { self.new ≡ record self.old { client = self.new.client } }
        ensures due { self.old.due ≡ [] }
        ensures wrote { Wrote (words_of L.Link L.refused L.tries) bytes.now end result self.old self.new }
        ensures within { result.moved ≤ length bytes.now }
        ensures last { (result.last ≡ Move.Went) ↔ (result.moved ≡ length bytes.now) }
    {
        let flags = flags_of(end);
        let opts = self.opts(flags);
        let answer = self.client.write_piece(self.made.lid, &opts, flags, bytes);
        let size = self.client.size_told();
        many_of(bytes.len(), &answer, size as usize)
    }

    /// A device_read for so many bytes, with a stop byte or without.
    fn ask_bytes(&mut self, many: usize, stop: Option<u8>) -> Result<ReadEnd, ClientErr>
        requires { many ≤ ASK_MAX }
        ensures rest { self.new ≡ record self.old { client = self.new.client } }
        ensures due { self.old.due ≡ [] }
        ensures called { Reads (words_of L.Link L.refused L.tries) many stop result self.old self.new }
    {
        let opts = self.opts(stop_flag(stop));
        let lid = self.made.lid;
        read_front(
            &mut self.client,
            lid,
            &opts,
            stop_byte(stop),
            self.into.as_mut_slice(),
            many,
        )
    }

    /// A device_read for as many bytes as the room holds, with a stop byte or without: those that count stand at its front.
    pub(crate) fn read_some(&mut self, room: &mut [u8], stop: Option<u8>) -> ManyGot
        requires some { 0 < length room.old }
        requires short { length room.old ≤ ASK_MAX }
        ensures rest { self.new ≡ record self.old { client = self.new.client } }
        ensures due { self.old.due ≡ [] }
        ensures read { ReadMany (words_of L.Link L.refused L.tries) (length room.old) stop (take result.got room.new) result self.old self.new }
        ensures stops { StopsAt stop (length room.old) (take result.got room.new) result.stop }
        ensures within { result.got ≤ length room.old }
        ensures left { drop result.got room.new ≡ drop result.got room.old }
    {
        let answer = self.ask_bytes(room.len(), stop);
        let bytes = bytes_come(&answer, self.client.bytes_told(Proc::Read));
        let many = judge(
            bytes,
            room.len(),
            stop,
            tells_end(&answer),
            byte_move(&answer),
        );
        put_front(room, bytes, many.got);
        many
    }
}
