//! A write of a client through a gateway in the same thread.

ghost use Rattle.std.specs.Prelude.{◌≡◌, ◌≤◌, ◌<◌, ◌^◌, min, length, None, IfSome, OnOk};
ghost use Rattle.vx_rules.specs.Calls.{sets_end};
ghost use Rattle.vx_flow.specs.Laws.{marked_bytes};
ghost use Rattle.vx_flow.specs.Sound.{IsSound};
ghost use Rattle.vx_client.specs.State.{client_with_link};
ghost use Rattle.vx_client.specs.Message.{call_record};
ghost use Rattle.vx_client.specs.Exchange.{IsCalled};
ghost use Rattle.vx_client.specs.Ending.{TellsCalls};
ghost use Rattle.vx_client.specs.Meaning.{nothing_of};
ghost use Rattle.vx_client.specs.Chunks.{chunks, write_call, IsWritten};
ghost use Rattle.vx_loop.specs.LoopState.{ServedState, LoopState};
ghost use Rattle.vx_loop.specs.Standing.{LoopStandsFor, MarkedStands, IsUnanswered};
ghost use Rattle.vx_loop.specs.Telling.{IsReceive, IsSend, FindsEnded, OnClosed, OnReadFault, OnWriteFault};
ghost use Rattle.vx_loop.specs.Heard.{IsResting, IsHeard};

use crate::link::LoopLink;
use crate::marked::{Mark, Marked};
use std::marker::Brand;
use std::mem::replace;
use vx_calls::PIECE_MAX;
use vx_client::{CallOpts, Client, ClientErr, LinkMade};
use vx_inst::Instrument;

/// All flags but END (VXI-11, Device_Flags).
const NO_END: u32 = 0xFFFF_FFF7;

/// Puts a link in the place of one that has no gateway.
fn put_back<I: Instrument>(place: &mut LoopLink<I>, link: LoopLink<I>)
    requires { place.old.served ≡ None }
    ensures { place.new ≡ link }
{
    replace(place, link).let_go();
}

/// One device_write over a link that stands aside from the client's own, which is looked at from its state before.
fn write_marked<I: Instrument, M: Mark>(
    client: &mut Client<LoopLink<I>>,
    link: &mut LoopLink<I>,
    lid: u32,
    opts: &CallOpts,
    flags: u32,
    bytes: &[u8],
) -> Result<(), ClientErr>
    requires short { length bytes.now ≤ PIECE_MAX }
    requires start { M.start ≡ link.old }
    ensures called { IsCalled (MarkedStands link.old) (λ _. None) (λ l. l.receive_faults) (λ l. l.send_faults)
        (client_with_link client.old link.old) (client_with_link client.new link.new) (write_call lid opts.now flags bytes.now) 0 nothing_of result }
    ensures told { TellsCalls IsReceive IsSend link.old link.new (call_record client.old.next (write_call lid opts.now flags bytes.now)) result }
    ensures own { client.new.link ≡ client.old.link }
    ensures number { client.old.next < 2 ^ 32 }
{
    let mut marked = Marked::<I, M>::new(replace(link, LoopLink::vacant()));
    let result = client.write_piece_over(&mut marked, lid, opts, flags, bytes);
    put_back(link, marked.into_link());
    result
}

// What holds of every word. It does nothing when it runs.
fn is_word(_n: u32)
    ensures { _n < 2 ^ 32 }
{}

/// One device_write of the client.
fn write_piece<I: Instrument>(
    client: &mut Client<LoopLink<I>>,
    lid: u32,
    opts: &CallOpts,
    flags: u32,
    bytes: &[u8],
) -> Result<(), ClientErr>
    requires short { length bytes.now ≤ PIECE_MAX }
    ensures called { IsCalled LoopStandsFor (λ _. None) (λ l. l.receive_faults) (λ l. l.send_faults) client.old client.new
        (write_call lid opts.now flags bytes.now) 0 nothing_of result }
    ensures sound { (s : ServedState) → IsResting client.old s → IsSound s.core.interleaved }
    ensures heard { OnOk result ((s : ServedState) → IsResting client.old s → IsHeard client.old client.new lid (marked_bytes (sets_end flags) bytes.now) s) }
    ensures closed { OnClosed result ((s : ServedState) → IsResting client.old s → FindsEnded client.new s) }
    ensures fault { OnReadFault result (IfSome client.new.link.served IsUnanswered) }
    ensures sent { OnWriteFault result ((s : ServedState) → IsResting client.old s → ⊥) }
{
    is_word(opts.io_timeout);
    is_word(opts.lock_timeout);
    let mut link = LoopLink::vacant();
    client.swap_link(&mut link);
    link.is_kept();
    let result = write_marked::<I, Brand>(client, &mut link, lid, opts, flags, bytes);
    link.is_kept();
    client.swap_link(&mut link);
    link.let_go();
    result
}

/// `Client::write` over a link to a gateway: device_write in pieces of the smaller of `made.max` and `PIECE_MAX` bytes, the
/// last one shorter, and at least one, with the flag END of `opts` on the last alone.
///
/// On `Ok`, where the client was between two calls as this one began, the connection lived and lives now, with the same
/// links. Where its link is to a device besides, what that device's address heard in this call is `bytes`, in order, with
/// END on the last of them exactly where `opts` asks for it, and no other address heard any of them.
///
/// Where the client was between two calls, `Closed` comes only over a connection that had ended before, and `WriteFault`
/// never. `ReadFault` comes only where a call still waits at the last moment of a `u64`.
pub fn through_client<I: Instrument>(
    client: &mut Client<LoopLink<I>>,
    made: &LinkMade,
    opts: &CallOpts,
    bytes: &[u8],
) -> Result<(), ClientErr>
    requires { 1 ≤ made.now.max }
    ensures written { IsWritten LoopStandsFor (λ _. None) (λ l. l.receive_faults) (λ l. l.send_faults) client.old client.new made.now.lid opts.now
        (chunks (min made.now.max PIECE_MAX) bytes.now) result }
    ensures heard { OnOk result ((s : ServedState) → IsResting client.old s → IsHeard client.old client.new made.now.lid (marked_bytes (sets_end opts.now.flags) bytes.now) s) }
    ensures closed { OnClosed result ((s : ServedState) → IsResting client.old s → FindsEnded client.new s) }
    ensures fault { OnReadFault result (IfSome client.new.link.served IsUnanswered) }
    ensures sent { OnWriteFault result ((s : ServedState) → IsResting client.old s → ⊥) }
{
    let most = made.max.min(PIECE_MAX) as usize;
    let mut rest = bytes;
    while rest.len() > most {
        write_piece(client, made.lid, opts, opts.flags & NO_END, &rest[..most])?;
        rest = &rest[most..];
    }
    write_piece(client, made.lid, opts, opts.flags, rest)
}
