//! A desk that knows devices by names as well.
ghost use Rattle.vx_desks.specs.NamedDesk.{NamedJoins, NamedAsks, NamedAborts, NamedLeaves};

use std::alloc::Global;
use vx_calls::{CallRef, Role};
use vx_core::Connect;
use vx_policy::NameTable;
use vx_session::{Desk, Request};

/// A desk with a table of names. It does all as the desk below it, but that there the device text of a create_link is what the table
/// has for it (VXI-11, create_link).
#[derive(Drop)]
pub struct Named<'t, D> {
    /// The desk below.
    pub desk: D,
    /// The names that it knows devices by.
    pub names: &'t NameTable,
}

impl<'t, D: Desk> Desk for Named<'t, D> {
    ghost number = { λ s. D.number s.desk };

    ghost free = { λ s. D.free s.desk };

    ghost idle = { λ s r. D.idle s.desk r };

    ghost joins = { λ s r answer s'. NamedJoins D.Desk s r answer s' };

    ghost asks = { λ s xid call reply s'. NamedAsks D.Desk s xid call reply s' };

    ghost aborts = { λ s xid lid reply s'. NamedAborts D.Desk s xid lid reply s' };

    ghost leaves = { λ s s'. NamedLeaves D.Desk s s' };

    fn number(&self) -> u32 {
        self.desk.number()
    }

    fn join(self, alloc: Global, role: Role) -> (Self, Result<(), Connect>) {
        let Named { desk, names } = self;
        let (desk, joined) = desk.join(alloc, role);
        (Named { desk, names }, joined)
    }

    fn ask(self, request: &Request<'_>, reply: &mut [u8]) -> (Self, Option<usize>) {
        let Named { desk, names } = self;
        match request.call {
            CallRef::CreateLink {
                client,
                lock,
                lock_timeout,
                device,
            } => {
                let call = CallRef::CreateLink {
                    client: *client,
                    lock: *lock,
                    lock_timeout: *lock_timeout,
                    device: names.device_of(device),
                };
                let request = Request {
                    xid: request.xid,
                    call: &call,
                };
                let (desk, answered) = desk.ask(&request, reply);
                (Named { desk, names }, answered)
            }
            _ => {
                let (desk, answered) = desk.ask(request, reply);
                (Named { desk, names }, answered)
            }
        }
    }

    fn abort(self, xid: u32, lid: u32, reply: &mut [u8]) -> (Self, usize) {
        let Named { desk, names } = self;
        let (desk, len) = desk.abort(xid, lid, reply);
        (Named { desk, names }, len)
    }

    fn leave(self) -> Self {
        let Named { desk, names } = self;
        let desk = desk.leave();
        Named { desk, names }
    }
}
