//! The messages of a connection at a desk, each answered by the record of its reply.
ghost use Rattle.vx_calls.specs.declared.limits.TheConstants.{RECORD_MAX};
ghost use Rattle.vx_exchange.specs.declared.record.TheConstants.{REPLY_ROOM};
ghost use Rattle.vx_session.specs.Desks.{Attends};

use crate::desks::Desk;
use crate::turns::Request;
use vx_calls::Role;
use vx_exchange::{Opened, open};
use vx_stream::Answers;

/// A desk that has a connection of this role, as what answers its messages.
#[derive(Drop)]
pub struct Attending<D> {
    pub desk: D,
    pub role: Role,
}

impl<D: Desk> Answers for Attending<D> {
    ghost can = { λ s. D.idle s.desk s.role };

    ghost does = { λ s message reply s'. Attends D.Desk s message reply s' };

    ghost longest = { RECORD_MAX };

    ghost room = { REPLY_ROOM };

    fn answer(self, message: &[u8], reply: &mut [u8]) -> (Self, Option<usize>) {
        let Attending { desk, role } = self;
        match open(message, role, reply) {
            Opened::Junk => (Attending { desk, role }, None),
            Opened::Answered { len } => (Attending { desk, role }, Some(len)),
            Opened::Asks { xid, call } => {
                let request = Request { xid, call: &call };
                let (desk, answered) = desk.ask(&request, reply);
                (Attending { desk, role }, answered)
            }
            Opened::Aborts { xid, lid } => {
                let (desk, len) = desk.abort(xid, lid, reply);
                (Attending { desk, role }, Some(len))
            }
        }
    }
}
