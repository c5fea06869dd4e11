//! A message on a connection, exchanged for what there is to tell of it; and the poll of a call that the core keeps.
ghost use Rattle.std.specs.Prelude.{◌≡◌, ◌≤◌, true, None, length, IsSome, IfSome, IfNone};
ghost use Rattle.vx_calls.specs.declared.limits.TheConstants.{RECORD_MAX};
ghost use Rattle.vx_exchange.specs.declared.record.TheConstants.{REPLY_ROOM};
ghost use Rattle.vx_exchange.specs.Meaning.{Junk, meaning};
ghost use Rattle.vx_rules.specs.State.{lives_as, pending_at};
ghost use Rattle.vx_player.specs.declared.note.Intake.TheVariants as intake;
ghost use Rattle.vx_player.specs.Gateway.{gateway_of};
ghost use Rattle.vx_player.specs.Making.{PollMakes};
ghost use Rattle.vx_player.specs.Serving.{MadeBy, PlayerServes};

use crate::note::{Note, StepMade};
use vx_calls::Role;
use vx_core::Core;
use vx_exchange::{Opened, abort, again, come, open};
use vx_inst::Instrument;
use vx_sim::SimBus;

/// What became of a message that isn't junk.
#[derive(Clone, Copy)]
pub struct Served {
    pub made: StepMade,
    /// The xid of the last call that its connection kept, from then on.
    pub xid: u32,
}

/// Answers a message on a connection of this role, at this moment, or says that it is junk. The last call that the connection
/// kept has the xid `last`.
pub fn serve<I: Instrument>(
    core: &mut Core<SimBus<I>>,
    conn: u32,
    role: Role,
    message: &[u8],
    last: u32,
    now: u64,
    reply: &mut [u8],
) -> Option<Served>
    requires lives { lives_as core.old.interleaved.state.tables conn role ≡ true }
    requires idle { pending_at core.old.interleaved.state.tables conn ≡ None }
    requires short { length message.now ≤ RECORD_MAX }
    requires late { core.old.interleaved.state.moment ≤ now }
    requires room { REPLY_ROOM ≤ length reply.old }
    ensures served { IfSome result (λ served. PlayerServes (gateway_of core.old) conn now last (meaning message.now role) reply.new served core.new) }
    ensures junk { IfNone result (meaning message.now role ≡ Junk) }
    ensures stays { IfNone result (gateway_of core.new ≡ gateway_of core.old) }
    ensures late { core.new.interleaved.state.moment ≤ now }
    ensures len { length reply.new ≡ length reply.old }
{
    match open(message, role, reply) {
        Opened::Junk => None,
        Opened::Answered { len } => Some(Served {
            made: StepMade::of(Note::Replied { conn, len }),
            xid: last,
        }),
        Opened::Asks { xid, call } => {
            core.sound_law();
            let end = come(core, conn, xid, &call, now, reply);
            Some(Served {
                made: StepMade::of_poll(conn, end),
                xid,
            })
        }
        Opened::Aborts { xid, lid } => {
            let len = abort(core, conn, xid, lid, reply).len;
            Some(Served {
                made: StepMade::of(Note::Replied { conn, len }),
                xid: last,
            })
        }
    }
}

/// Polls the call that a connection keeps, of this xid, at this moment.
pub fn poll_call<I: Instrument>(
    core: &mut Core<SimBus<I>>,
    conn: u32,
    xid: u32,
    now: u64,
    reply: &mut [u8],
) -> StepMade
    requires pending { IsSome (pending_at core.old.interleaved.state.tables conn) }
    requires late { core.old.interleaved.state.moment ≤ now }
    requires room { REPLY_ROOM ≤ length reply.old }
    ensures made { MadeBy (PollMakes (gateway_of core.old) conn now xid) reply.new result core.new }
    ensures quiet { result.intake ≡ intake.Nothing }
    ensures late { core.new.interleaved.state.moment ≤ now }
    ensures len { length reply.new ≡ length reply.old }
{
    core.sound_law();
    let end = again(core, conn, xid, now, reply);
    StepMade::of_poll(conn, end)
}
