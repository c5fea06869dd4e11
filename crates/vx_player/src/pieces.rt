//! What has come on the streams of the connections, their pieces, and their end.
ghost use Rattle.std.specs.Prelude.{◌≡◌, ◌≢◌, ℕ, None, Some, IfSome, IfNone, OnOk, IfErr, ◌≤◌, ◌<◌, length, true, IfOk, IsSome, [], ◌∷◌};
ghost use Rattle.std.specs.Ordering.{nat_cmp};
ghost use Rattle.std.specs.BTreeMap.{get};
ghost use Rattle.vx_calls.specs.declared.limits.TheConstants.{RECORD_MAX};
ghost use Rattle.vx_record.specs.Buffer.{fresh};
ghost use Rattle.vx_player.specs.Feeding.{FeedsTo, AnswersRecord, FeedsPiece, StopsPiece};
ghost use Rattle.vx_488.specs.Steps.{Cut};
ghost use Rattle.vx_rules.specs.State.{connection_at, lives_as, role_at, pending_at};
ghost use Rattle.vx_flow.specs.Event as event;
ghost use Rattle.vx_exchange.specs.declared.record.TheConstants.{REPLY_ROOM};
ghost use Rattle.vx_player.specs.declared.pieces.Incoming.{Incoming};
ghost use Rattle.vx_player.specs.Gateway.{Gateway, gateway_of, Happens};

use crate::message::Message;
use crate::note::{Gone, Intake, Note, StepMade};
use crate::serve::serve;
use std::alloc::Global;
use std::collections::BTreeMap;
use vx_calls::{RECORD_MAX, Role};
use vx_core::Core;
use vx_inst::Instrument;
use vx_record::{Fed, Feed, RecordBuf};
use vx_script::Cause;
use vx_setup::Refusal;
use vx_sim::SimBus;

/// What has come of a connection's next record, and the xid of the last call that it kept.
#[derive(Drop)]
pub struct Incoming {
    pub buffer: RecordBuf,
    pub xid: u32,
}

/// Takes a piece of a connection's stream into its buffer.
pub fn feed(incoming: &mut BTreeMap<u32, Incoming>, conn: u32, piece: &[u8]) -> Option<Fed>
    requires { IfSome (get nat_cmp incoming.old conn) (λ kept. kept.buffer.state ≡ Feed.More) }
    ensures fed { IfSome result (FeedsTo (get nat_cmp incoming.old conn) piece.now (get nat_cmp incoming.new conn)) }
    ensures none { IfNone result (get nat_cmp incoming.old conn ≡ None) }
    ensures others { (n : ℕ) → n ≢ conn → get nat_cmp incoming.new n ≡ get nat_cmp incoming.old n }
{
    let kept = incoming.get_mut(&conn)?;
    Some(kept.buffer.feed(piece))
}

/// Makes the buffer of a connection that came up.
pub fn begin(
    alloc: Global,
    incoming: &mut BTreeMap<u32, Incoming>,
    conn: u32,
) -> Result<(), Refusal>
    ensures here { OnOk result (get nat_cmp incoming.new conn ≡ Some (record { buffer = fresh RECORD_MAX; xid = 0 })) }
    ensures others { OnOk result ((n : ℕ) → n ≢ conn → get nat_cmp incoming.new n ≡ get nat_cmp incoming.old n) }
    ensures err { IfErr result (λ stop. stop ≡ Refusal.NoMemory) }
{
    let Ok(buffer) = RecordBuf::new(alloc, RECORD_MAX) else {
        return Err(Refusal::NoMemory);
    };
    match incoming.insert(conn, Incoming { buffer, xid: 0 }) {
        Ok(_) => Ok(()),
        Err(_) => Err(Refusal::NoMemory),
    }
}

/// A connection ends.
pub fn end<I: Instrument>(
    core: &mut Core<SimBus<I>>,
    incoming: &mut BTreeMap<u32, Incoming>,
    conn: u32,
)
    requires { IsSome (connection_at core.old.interleaved.state.tables conn) }
    ensures happens { Happens (gateway_of core.old) (event.Down conn ∷ []) (Cut ∷ []) (gateway_of core.new) }
    ensures late { core.new.interleaved.state.moment ≡ core.old.interleaved.state.moment }
    ensures gone { get nat_cmp incoming.new conn ≡ None }
    ensures others { (n : ℕ) → n ≢ conn → get nat_cmp incoming.new n ≡ get nat_cmp incoming.old n }
{
    core.disconnect(conn);
    let _ = incoming.remove(&conn);
}

/// Answers the whole record that came on a connection, and keeps its message.
fn answer<I: Instrument>(
    core: &mut Core<SimBus<I>>,
    incoming: &mut BTreeMap<u32, Incoming>,
    conn: u32,
    role: Role,
    now: u64,
    message: &mut Message,
    reply: &mut [u8],
) -> StepMade
    requires lives { lives_as core.old.interleaved.state.tables conn role ≡ true }
    requires idle { pending_at core.old.interleaved.state.tables conn ≡ None }
    requires whole { IfSome (get nat_cmp incoming.old conn) (λ kept. kept.buffer.state ≡ Feed.Whole) }
    requires limit { IfSome (get nat_cmp incoming.old conn) (λ kept. kept.buffer.limit ≡ RECORD_MAX) }
    requires late { core.old.interleaved.state.moment ≤ now }
    requires room { REPLY_ROOM ≤ length reply.old }
    ensures answered { (kept : Incoming) → get nat_cmp incoming.old conn ≡ Some kept
        → AnswersRecord (gateway_of core.old) conn now role kept reply.new message.new (get nat_cmp incoming.new conn) result core.new }
    ensures late { core.new.interleaved.state.moment ≤ now }
    ensures others { (n : ℕ) → n ≢ conn → get nat_cmp incoming.new n ≡ get nat_cmp incoming.old n }
    ensures len { length reply.new ≡ length reply.old }
{
    let Some(kept) = incoming.get_mut(&conn) else {
        return StepMade::QUIET;
    };
    let whole = kept.buffer.whole();
    message.keep(whole);
    match serve(core, conn, role, whole, kept.xid, now, reply) {
        Some(served) => {
            kept.buffer.next();
            kept.xid = served.xid;
            served.made.of_intake(Intake::Message { conn })
        }
        None => {
            end(core, incoming, conn);
            StepMade::of(Note::Ended {
                conn,
                how: Gone::Junk,
            })
            .of_intake(Intake::Message { conn })
        }
    }
}

/// Takes a piece of the stream of a connection without a call. The message of a record that it brings to its end is kept.
pub fn feed_piece<I: Instrument>(
    core: &mut Core<SimBus<I>>,
    incoming: &mut BTreeMap<u32, Incoming>,
    conn: u32,
    role: Role,
    bytes: &[u8],
    now: u64,
    message: &mut Message,
    reply: &mut [u8],
) -> Result<StepMade, Refusal>
    requires bytes { 0 < length bytes.now }
    requires lives { lives_as core.old.interleaved.state.tables conn role ≡ true }
    requires idle { pending_at core.old.interleaved.state.tables conn ≡ None }
    requires waits { IfSome (get nat_cmp incoming.old conn) (λ kept. kept.buffer.state ≡ Feed.More) }
    requires limit { IfSome (get nat_cmp incoming.old conn) (λ kept. kept.buffer.limit ≡ RECORD_MAX) }
    requires late { core.old.interleaved.state.moment ≤ now }
    requires room { REPLY_ROOM ≤ length reply.old }
    ensures taken { IfOk result (λ made. (kept : Incoming) → get nat_cmp incoming.old conn ≡ Some kept
        → FeedsPiece (gateway_of core.old) conn now role kept bytes.now reply.new message.new (get nat_cmp incoming.new conn) made core.new) }
    ensures known { OnOk result (IsSome (get nat_cmp incoming.old conn)) }
    ensures stopped { IfErr result (λ stop. (kept : Incoming) → get nat_cmp incoming.old conn ≡ Some kept → StopsPiece kept bytes.now stop) }
    ensures late { core.new.interleaved.state.moment ≤ now }
    ensures others { (n : ℕ) → n ≢ conn → get nat_cmp incoming.new n ≡ get nat_cmp incoming.old n }
    ensures len { length reply.new ≡ length reply.old }
{
    match feed(incoming, conn, bytes) {
        None => Err(Refusal::Refused(Cause::Conn)),
        Some(fed) if fed.took < bytes.len() => Err(Refusal::Refused(Cause::After)),
        Some(fed) => match fed.state {
            Feed::More => Ok(StepMade::QUIET),
            Feed::Whole => Ok(answer(core, incoming, conn, role, now, message, reply)),
            Feed::TooLong => {
                end(core, incoming, conn);
                Ok(StepMade::of(Note::Ended {
                    conn,
                    how: Gone::Long,
                }))
            }
        },
    }
}
