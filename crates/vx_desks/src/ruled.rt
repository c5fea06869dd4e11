//! A desk whose calls are judged by rules.
ghost use Rattle.std.specs.Prelude.{◌≡◌, ◌≤◌, ◌||◌, length, take, option_map, IfSome};
ghost use Rattle.std.specs.Option.{is_none};
ghost use Rattle.vx_calls.specs.Call.{call_shown};
ghost use Rattle.vx_rules.specs.Calls.{proc_of};
ghost use Rattle.vx_policy.specs.Judging.{judged};
ghost use Rattle.vx_policy.specs.Targets.{call_target};
ghost use Rattle.vx_desks.specs.Judged.{denied_by};
ghost use Rattle.vx_desks.specs.Ruling.{ruled_state, LearnsBy, RuledJoins, RuledAsks, RuledAborts, RuledLeaves};

use crate::denying::{Note, deny};
use std::alloc::Global;
use vx_calls::{CallRef, Role};
use vx_core::Connect;
use vx_policy::{KnownLinks, Policy, Verdict, proc_of};
use vx_session::{Desk, Request};

/// A desk over another, whose calls are judged by the rules of a policy as they come. A call that a rule denies doesn't reach the desk
/// below: it is told to the note, with the desk's number and the rule's, and then its reply has the error `NotAccessible` (3), and
/// all else is zero or empty. Where the note fails there is no reply, and the session ends.
#[derive(Drop)]
pub struct Ruled<'p, 'm, 'n, D, N> {
    pub desk: D,
    pub policy: &'p Policy,
    /// The IPv4 address of the peer, its first part in the high byte.
    pub peer: u32,
    /// The links that its connection made and didn't destroy, as their calls were answered here.
    pub made: &'m mut KnownLinks,
    pub note: &'n mut N,
    /// Whether the note failed.
    pub failed: bool,
}

impl<'p, 'm, 'n, D: Desk, N: Note> Desk for Ruled<'p, 'm, 'n, D, N> {
    ghost number = { λ s. D.number s.desk };

    ghost free = { λ s. D.free s.desk };

    ghost idle = { λ s r. D.idle s.desk r };

    ghost joins = { λ s r answer s'. RuledJoins D.Desk
        (ruled_state N.took s.desk s.policy.now s.peer s.made.now s.note.now s.failed) r answer
        (ruled_state N.took s'.desk s'.policy.now s'.peer s'.made.now s'.note.now s'.failed)
        × (s'.made.ghost_name ≡ s.made.ghost_name) × (s'.note.ghost_name ≡ s.note.ghost_name) };

    ghost asks = { λ s xid call reply s'. RuledAsks D.Desk
        (ruled_state N.took s.desk s.policy.now s.peer s.made.now s.note.now s.failed) xid call reply
        (ruled_state N.took s'.desk s'.policy.now s'.peer s'.made.now s'.note.now s'.failed)
        × (s'.made.ghost_name ≡ s.made.ghost_name) × (s'.note.ghost_name ≡ s.note.ghost_name) };

    ghost aborts = { λ s xid lid reply s'. RuledAborts D.Desk
        (ruled_state N.took s.desk s.policy.now s.peer s.made.now s.note.now s.failed) xid lid reply
        (ruled_state N.took s'.desk s'.policy.now s'.peer s'.made.now s'.note.now s'.failed)
        × (s'.made.ghost_name ≡ s.made.ghost_name) × (s'.note.ghost_name ≡ s.note.ghost_name) };

    ghost leaves = { λ s s'. RuledLeaves D.Desk
        (ruled_state N.took s.desk s.policy.now s.peer s.made.now s.note.now s.failed)
        (ruled_state N.took s'.desk s'.policy.now s'.peer s'.made.now s'.note.now s'.failed)
        × (s'.made.ghost_name ≡ s.made.ghost_name) × (s'.note.ghost_name ≡ s.note.ghost_name) };

    fn number(&self) -> u32 {
        self.desk.number()
    }

    fn join(self, alloc: Global, role: Role) -> (Self, Result<(), Connect>) {
        self.made.clear();
        let (desk, joined) = self.desk.join(alloc, role);
        (Ruled { desk, ..self }, joined)
    }

    fn ask(self, request: &Request<'_>, reply: &mut [u8]) -> (Self, Option<usize>) {
        match denial(self.policy, self.peer, self.made, request.call) {
            Some(rule) => {
                let conn = self.desk.number();
                let denied = deny(conn, rule, request.xid, request.call, self.note, reply);
                let failed = fails(self.failed, denied);
                (Ruled { failed, ..self }, denied)
            }
            None => {
                let (desk, answered) = self.desk.ask(request, reply);
                learn(self.made, request.call, reply, answered);
                (Ruled { desk, ..self }, answered)
            }
        }
    }

    fn abort(self, xid: u32, lid: u32, reply: &mut [u8]) -> (Self, usize) {
        let (desk, len) = self.desk.abort(xid, lid, reply);
        (Ruled { desk, ..self }, len)
    }

    fn leave(self) -> Self {
        let desk = self.desk.leave();
        Ruled { desk, ..self }
    }
}

/// The rule that denies, where the verdict is to deny.
fn denied_by(verdict: Verdict) -> Option<u32>
    ensures { result ≡ denied_by verdict }
{
    if verdict.allow {
        None
    } else {
        Some(verdict.rule)
    }
}

/// The rule that denies a call, where one does. It is judged by its procedure and by what it is to.
fn denial(policy: &Policy, peer: u32, made: &KnownLinks, call: &CallRef<'_>) -> Option<u32>
    ensures { result ≡ denied_by (judged policy.now peer (proc_of (call_shown call.now)) (call_target made.now (call_shown call.now))) }
{
    denied_by(policy.judge(peer, proc_of(call), made.target(call)))
}

/// Learns by the record of the reply to a call, where it has one, which links are known then.
fn learn(made: &mut KnownLinks, call: &CallRef<'_>, reply: &[u8], answered: Option<usize>)
    requires within { IfSome answered (λ n. n ≤ length reply.now) }
    ensures { LearnsBy made.old (call_shown call.now) (option_map (λ n. take n reply.now) answered) made.new }
{
    match answered {
        Some(len) => made.learn(call, &reply[..len]),
        None => {}
    }
}

/// Whether the note failed, now or before, by what became of a denial.
fn fails(failed: bool, denied: Option<usize>) -> bool
    ensures { result ≡ (failed || is_none denied) }
{
    failed || denied.is_none()
}
