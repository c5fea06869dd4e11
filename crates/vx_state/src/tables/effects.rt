//! What the calls that need no bus make of the tables, and their replies.
ghost use Rattle.std.specs.Prelude.{◌≡◌, ℕ, ◌<◌, ◌+◌, ◌||◌, ◌&&◌, ◌==◌, true, false, not, filter, List, Some, None, Ok, IfOk, IsSome, is_some, if◌then◌else◌, length};
ghost use Rattle.vx_calls.specs.declared.codes.ErrorCode.TheVariants as code;
ghost use Rattle.vx_calls.specs.declared.limits.TheConstants.{WRITE_MAX, LINK_MAX};
ghost use Rattle.vx_calls.specs.Reply.{reply_shown};
ghost use Rattle.vx_calls.specs.Reply as reply;
ghost use Rattle.vx_488.specs.declared.transfers.Transfer.{Transfer};
ghost use Rattle.vx_plan.specs.Results.{puts_made, bytes_got};
ghost use Rattle.vx_plan.specs.Tasks.{IsTargetPlain};
ghost use Rattle.vx_rules.specs.Table.{Link, is_full, is_live};
ghost use Rattle.vx_rules.specs.Locks.{holds, holder_of, is_blocked, with_lock, without_lock};
ghost use Rattle.vx_rules.specs.SrqState as srq_state;
ghost use Rattle.vx_rules.specs.State.{Pending, pending_at, link_of, is_lock_of, without_link};
ghost use Rattle.vx_rules.specs.Calls as calls;
ghost use Rattle.vx_rules.specs.Checks.{named_link, check_create};
ghost use Rattle.vx_rules.specs.Lines as lines;
ghost use Rattle.vx_rules.specs.Effects as effects;
ghost use Rattle.vx_state.specs.Held.{kept_call};
ghost use Rattle.vx_rules.specs.Sound.{owns, has_slot};
ghost use Rattle.vx_rules.specs.Serving.{can_settle, settled, served_reply};

use crate::tables::Tables;
use crate::tables::kept::{Kept, copied};
use crate::tables::lines::asked_of;
use vx_calls::{ErrorCode, Handle, ReplyRef, Target, WRITE_MAX, target_of};
use vx_links::Links;
use vx_locks::Locks;

impl Tables {
    /// The effect of the pending call of a connection on a gateway at this own address, and its reply: of a call that
    /// needs no bus and no dial, and that neither its link, nor a check, nor a lock is against. The call stays pending.
    pub fn effect(&mut self, conn: u32, own: u8) -> ReplyRef<'static>
        requires pending { IsSome (pending_at self.old conn) }
        requires table { (p : Pending) → pending_at self.old conn ≡ Some p → (calls.is_bus_call p.call || calls.asks_dial p.call) ≡ false }
        requires passes { (p : Pending) → pending_at self.old conn ≡ Some p → lines.lets_pass self.old own conn p ≡ true }
        ensures { (p : Pending) → pending_at self.old conn ≡ Some p
            → effects.effect self.old own conn (named_link self.old conn p.call) p.call ≡ Some (reply_shown result, self.new) }
    {
        let row = self.held(conn);
        let asked = asked_of(row);
        match asked.call {
            Kept::CreateLink { lock, .. } => {
                let named = target_of(row.text.bytes.as_slice(), own);
                self.create(conn, lock, named)
            }
            Kept::EnableSrq { lid, enable } => {
                let handle = copied(&row.handle);
                self.enable(conn, lid, enable, handle)
            }
            Kept::Lock { lid, .. } => self.take_lock(conn, lid),
            Kept::Unlock { lid } => self.free_lock(lid),
            Kept::DestroyLink { lid } => self.destroy(conn, lid),
            Kept::DestroyIntr => self.close_channel(conn),
            _ => unreachable!(),
        }
    }

    /// The reply of the pending call of a connection where it needs no bus and no dial, and nothing is against it, as
    /// `effect` gives it. Nothing changes.
    pub fn effect_reply(&self, conn: u32) -> ReplyRef<'static>
        requires { IsSome (pending_at self.now conn) }
        ensures { (p : Pending) → pending_at self.now conn ≡ Some p → reply_shown result ≡ served_reply self.now p.call }
    {
        let row = self.held(conn);
        let asked = asked_of(row);
        match asked.call {
            Kept::CreateLink { .. } => link_reply(self.links.next_number(), self.abort_port),
            _ => done(),
        }
    }

    /// create_link: the link with the next number, to what the text names, and its lock where one is asked for.
    fn create(
        &mut self,
        conn: u32,
        lock: bool,
        named: Result<Target, ErrorCode>,
    ) -> ReplyRef<'static>
        requires checks { check_create self.old named ≡ None }
        requires free { lock ≡ true → (t : Target) → named ≡ Ok t → holder_of self.old.locks 0 t ≡ None }
        requires plain { IfOk named IsTargetPlain }
        ensures { effects.create self.old conn lock named ≡ Some (reply_shown result, self.new) }
    {
        match named {
            Ok(target) => self.make_link(conn, lock, target),
            Err(_) => unreachable!(),
        }
    }

    fn make_link(&mut self, conn: u32, lock: bool, target: Target) -> ReplyRef<'static>
        requires room { is_full self.old.links ≡ false }
        requires free { lock ≡ true → holder_of self.old.locks 0 target ≡ None }
        requires plain { IsTargetPlain target }
        ensures { effects.create self.old conn lock (Ok target) ≡ Some (reply_shown result, self.new) }
    {
        let Ok(lid) = self.links.insert(conn, target) else {
            unreachable!()
        };
        take_if(&mut self.locks, lock, lid, target);
        link_reply(lid, self.abort_port)
    }

    /// device_lock: the link's lock, unless it holds it already.
    fn take_lock(&mut self, conn: u32, lid: u32) -> ReplyRef<'static>
        requires on { (l : Link) × (link_of self.old conn lid ≡ Some l) × (holder_of self.old.locks l.number l.target ≡ None) }
        ensures reply { reply_shown result ≡ reply.Error code.Ok }
        ensures tables { (l : Link) → link_of self.old conn lid ≡ Some l → self.new ≡ effects.locked self.old l }
    {
        let Some(link) = self.links.find(lid) else {
            unreachable!()
        };
        lock_unless_held(&mut self.locks, lid, link.target);
        done()
    }

    /// device_unlock: the link's lock goes.
    fn free_lock(&mut self, lid: u32) -> ReplyRef<'static>
        ensures reply { reply_shown result ≡ reply.Error code.Ok }
        ensures tables { self.new ≡ record self.old { locks = without_lock self.old.locks lid } }
    {
        self.locks.free(lid);
        done()
    }

    /// device_enable_srq: the link's enable, in place of its earlier one.
    fn enable(&mut self, conn: u32, lid: u32, on: bool, handle: Handle) -> ReplyRef<'static>
        requires owned { owns self.old.links.links lid conn ≡ true }
        requires added { has_slot self.old.srq_state conn ≡ true }
        ensures reply { reply_shown result ≡ reply.Error code.Ok }
        ensures tables { self.new ≡ record self.old { srq_state = srq_state.with_enable self.old.srq_state (record { link = lid; connection = conn; on = on; handle = handle.bytes.items }) } }
    {
        self.srq.enable(conn, lid, on, handle);
        done()
    }

    /// destroy_link: the link goes, and its lock and its enable with it.
    fn destroy(&mut self, conn: u32, lid: u32) -> ReplyRef<'static>
        requires owned { owns self.old.links.links lid conn ≡ true }
        ensures reply { reply_shown result ≡ reply.Error code.Ok }
        ensures tables { self.new ≡ without_link self.old conn lid }
    {
        let _ = self.links.remove(lid);
        let _ = self.locks.free(lid);
        self.srq.forget(lid);
        done()
    }

    /// destroy_intr_chan: the connection's channel goes.
    fn close_channel(&mut self, conn: u32) -> ReplyRef<'static>
        ensures reply { reply_shown result ≡ reply.Error code.Ok }
        ensures tables { self.new ≡ record self.old { srq_state = srq_state.with_channel self.old.srq_state conn None } }
    {
        let _ = self.srq.close(conn);
        done()
    }

    /// What a dial that was made for the pending create_intr_chan of a connection makes of the tables, and the call's
    /// reply: the channel where it came up. The call's own checks let it pass. It stays pending.
    pub fn settle(&mut self, conn: u32, up: bool) -> ReplyRef<'static>
        requires pending { IsSome (pending_at self.old conn) }
        requires passes { (p : Pending) → pending_at self.old conn ≡ Some p → can_settle self.old conn p.call ≡ true }
        ensures { (p : Pending) → pending_at self.old conn ≡ Some p → effects.settle self.old conn p.call up ≡ Some (reply_shown result, self.new) }
    {
        let row = self.held(conn);
        let asked = asked_of(row);
        match asked.call {
            Kept::CreateIntr { prog, vers, .. } => self.dialed(conn, prog, vers, up),
            _ => unreachable!(),
        }
    }

    fn dialed(&mut self, conn: u32, prog: u32, vers: u32, up: bool) -> ReplyRef<'static>
        requires added { has_slot self.old.srq_state conn ≡ true }
        requires none { is_some (srq_state.channel_at self.old.srq_state conn) ≡ false }
        requires left { srq_state.has_number self.old.srq_state ≡ true }
        ensures { settled self.old conn prog vers up ≡ Some (reply_shown result, self.new) }
    {
        if up {
            self.open_channel(conn, prog, vers)
        } else {
            ReplyRef::Error {
                error: ErrorCode::NoChannel,
            }
        }
    }

    fn open_channel(&mut self, conn: u32, prog: u32, vers: u32) -> ReplyRef<'static>
        requires added { has_slot self.old.srq_state conn ≡ true }
        requires none { is_some (srq_state.channel_at self.old.srq_state conn) ≡ false }
        requires left { srq_state.has_number self.old.srq_state ≡ true }
        ensures reply { reply_shown result ≡ reply.Error code.Ok }
        ensures tables { self.new ≡ record self.old { srq_state = srq_state.with_new_channel self.old.srq_state conn prog vers } }
    {
        let Ok(_) = self.srq.make(conn, prog, vers) else {
            unreachable!()
        };
        done()
    }

    /// The reply of the pending call of a connection where it ends with an error after its turn put so many bytes and got
    /// these.
    pub fn stopped<'a>(&self, conn: u32, error: ErrorCode, puts: u32, got: &'a [u8]) -> ReplyRef<'a>
        requires { IsSome (pending_at self.now conn) }
        ensures { (p : Pending) (moves : List Transfer) → pending_at self.now conn ≡ Some p → puts_made moves ≡ puts → bytes_got moves ≡ got.entry.now
            → reply_shown result ≡ effects.stopped_reply p.call error moves }
    {
        let row = self.held(conn);
        let asked = asked_of(row);
        stopped_reply(asked.call, error, puts, got)
    }
}

/// The reply of a call that ends with an error.
fn stopped_reply<'a>(call: Kept, error: ErrorCode, puts: u32, got: &'a [u8]) -> ReplyRef<'a>
    ensures { (text handle : List ℕ) (moves : List Transfer) → puts_made moves ≡ puts → bytes_got moves ≡ got.entry.now
        → reply_shown result ≡ effects.stopped_reply (kept_call call text handle) error moves }
{
    match call {
        Kept::CreateLink { .. } => ReplyRef::CreateLink {
            error,
            lid: 0,
            abort_port: 0,
            max: 0,
        },
        Kept::Write { .. } => ReplyRef::Write { error, size: puts },
        Kept::Read { .. } => ReplyRef::Read {
            error,
            reason: 0,
            bytes: got,
        },
        Kept::ReadStb(_) => ReplyRef::Stb { error, stb: 0 },
        Kept::Docmd { .. } => ReplyRef::Docmd { error, bytes: &[] },
        _ => ReplyRef::Error { error },
    }
}

/// The reply of a call that succeeds without results.
fn done() -> ReplyRef<'static>
    ensures { reply_shown result ≡ reply.Error code.Ok }
{
    ReplyRef::Error {
        error: ErrorCode::Ok,
    }
}

/// The reply of a create_link that made this link.
fn link_reply(lid: u32, abort_port: u16) -> ReplyRef<'static>
    ensures { reply_shown result ≡ reply.CreateLink code.Ok lid abort_port WRITE_MAX }
{
    ReplyRef::CreateLink {
        error: ErrorCode::Ok,
        lid,
        abort_port: u32::from(abort_port),
        max: WRITE_MAX,
    }
}

/// The link takes a lock, where one is asked for.
fn take_if(locks: &mut Locks, lock: bool, lid: u32, target: Target)
    requires none { lock ≡ true → holds locks.old lid ≡ false }
    requires free { lock ≡ true → is_blocked locks.old lid target ≡ false }
    requires room { lock ≡ true → length locks.old < LINK_MAX }
    ensures { locks.new ≡ (if lock then with_lock locks.old lid target else locks.old) }
{
    if lock {
        locks.take(lid, target);
    }
}

/// The link takes a lock, unless it holds one.
fn lock_unless_held(locks: &mut Locks, lid: u32, target: Target)
    requires free { is_blocked locks.old lid target ≡ false }
    requires room { holds locks.old lid ≡ false → length locks.old < LINK_MAX }
    ensures { locks.new ≡ (if holds locks.old lid then locks.old else with_lock locks.old lid target) }
{
    if !locks.holds(lid) {
        locks.take(lid, target);
    }
}

/// The links of a connection go one by one, and their locks with them.
pub(crate) fn drop_links(links: &mut Links, locks: &mut Locks, conn: u32)
    ensures links { links.new ≡ record links.old { links = filter (λ l. not (l.connection == conn)) links.old.links } }
    ensures locks { locks.new ≡ filter (λ k. not (is_lock_of links.old.links conn k)) locks.old }
{
    links.numbers_rise();
    while let Some(link) = links.of_connection(conn) {
        locks.free(link.lid);
        links.remove(link.lid);
    }
}
