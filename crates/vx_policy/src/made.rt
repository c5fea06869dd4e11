//! The links that a session made, and what its calls are to.
ghost use Rattle.std.specs.Prelude.{◌≡◌, ◌≤◌, ◌<◌, ◌==◌, [], ◌∷◌, ◌++◌, not, length, drop, filter, find, vec_capacity, IfOk};
ghost use Rattle.std.specs.Option.{option_copied, option_map};
ghost use Rattle.vx_calls.specs.declared.limits.TheConstants.{LINK_MAX};
ghost use Rattle.vx_calls.specs.Call.{call_shown};
ghost use Rattle.vx_rules.specs.Calls.{proc_of, link_named};
ghost use Rattle.vx_policy.specs.declared.made.TheConstants.{HEAD};
ghost use Rattle.vx_policy.specs.Targets.{link_made, is_done, target_at, call_target, text_target, made_after};

use std::alloc::Global;
use std::marker::Model;
use vx_calls::{CallRef, LINK_MAX, Proc, Target, target_of};
use vx_codec::{Results, read_results};

/// There was no memory for the table.
#[derive(Clone, Copy, Debug, PartialEq, Eq)]
pub struct NoMemory;

/// An own address that no device text names: the rules tell devices from one another, not from the gateway.
const NO_OWN: u8 = 31;

/// What stands in front of the results in the record of a reply: its mark, and the header of an accepted reply (RFC 5531,
/// section 9), in bytes.
const HEAD: usize = 28;

/// A link that was made, and what it is to.
#[derive(Clone, Copy)]
pub struct MadeLink {
    pub lid: u32,
    pub target: Target,
}

/// The links that a session made and didn't destroy, in order of making. It has room for as many as may live at once, and has no
/// more.
#[derive(Drop)]
pub struct KnownLinks {
    links: Vec<MadeLink>,
}

impl Model for KnownLinks {
    ghost use Rattle.std.specs.Prelude.{◌≤◌, List, length, vec_capacity};
    ghost use Rattle.vx_calls.specs.declared.limits.TheConstants.{LINK_MAX};
    ghost use Rattle.vx_policy.specs.declared.made.MadeLink.{MadeLink};

    ghost Value = { List MadeLink };

    ghost view = { λ m. m.links.items };

    ghost invariant = { λ m. (LINK_MAX ≤ vec_capacity m.links) × (length m.links.items ≤ LINK_MAX) };
}

/// The procedure of a call.
pub fn proc_of(call: &CallRef<'_>) -> Proc
    ensures { result ≡ proc_of (call_shown call.now) }
{
    match call {
        CallRef::Null => Proc::Null,
        CallRef::CreateLink { .. } => Proc::CreateLink,
        CallRef::Write { .. } => Proc::Write,
        CallRef::Read { .. } => Proc::Read,
        CallRef::ReadStb(_) => Proc::ReadStb,
        CallRef::Trigger(_) => Proc::Trigger,
        CallRef::Clear(_) => Proc::Clear,
        CallRef::Remote(_) => Proc::Remote,
        CallRef::Local(_) => Proc::Local,
        CallRef::Lock { .. } => Proc::Lock,
        CallRef::Unlock { .. } => Proc::Unlock,
        CallRef::EnableSrq { .. } => Proc::EnableSrq,
        CallRef::Docmd { .. } => Proc::Docmd,
        CallRef::DestroyLink { .. } => Proc::DestroyLink,
        CallRef::CreateIntr { .. } => Proc::CreateIntr,
        CallRef::DestroyIntr => Proc::DestroyIntr,
        CallRef::DeviceAbort { .. } => Proc::DeviceAbort,
    }
}

/// The link that a call names, where it names one.
fn link_named(call: &CallRef<'_>) -> Option<u32>
    ensures { result ≡ link_named (call_shown call.now) }
{
    match call {
        CallRef::Null
        | CallRef::CreateLink { .. }
        | CallRef::CreateIntr { .. }
        | CallRef::DestroyIntr => None,
        CallRef::Write { lid, .. }
        | CallRef::Read { lid, .. }
        | CallRef::Lock { lid, .. }
        | CallRef::Unlock { lid }
        | CallRef::EnableSrq { lid, .. }
        | CallRef::Docmd { lid, .. }
        | CallRef::DestroyLink { lid }
        | CallRef::DeviceAbort { lid } => Some(*lid),
        CallRef::ReadStb(generic)
        | CallRef::Trigger(generic)
        | CallRef::Clear(generic)
        | CallRef::Remote(generic)
        | CallRef::Local(generic) => Some(generic.lid),
    }
}

/// What a device text names.
fn text_target(text: &[u8]) -> Option<Target>
    ensures { result ≡ text_target text.now }
{
    target_of(text, NO_OWN).ok()
}

/// The results of a reply.
fn results_of(reply: &[u8]) -> &[u8]
    ensures { result.now ≡ drop HEAD reply.now }
{
    if reply.len() < HEAD {
        return &reply[reply.len()..];
    }
    &reply[HEAD..]
}

/// The link that a create_link made, by its reply.
fn link_made(reply: &[u8]) -> Option<u32>
    ensures { result ≡ link_made reply.now }
{
    match read_results(Proc::CreateLink, results_of(reply)) {
        Some(Results::CreateLink { error: 0, lid, .. }) => Some(lid),
        _ => None,
    }
}

/// Whether a destroy_link was answered without an error, by its reply.
fn is_done(reply: &[u8]) -> bool
    ensures { result ≡ is_done reply.now }
{
    matches!(
        read_results(Proc::DestroyLink, results_of(reply)),
        Some(Results::Error { error: 0 })
    )
}

// The link of this number.
fn find_link(links: &[MadeLink], lid: u32) -> Option<&MadeLink>
    ensures { option_copied result ≡ find (λ m. m.lid == lid) links.now }
{
    links.iter().find(|m| m.lid == lid)
}

// What the link of this number is to.
fn target_at(links: &[MadeLink], lid: u32) -> Option<Target>
    ensures { result ≡ target_at links.now lid }
{
    let link = find_link(links, lid).copied()?;
    Some(link.target)
}

// The link of this number goes.
fn forget(links: &mut Vec<MadeLink>, lid: u32)
    ensures left { links.new.items ≡ filter (λ m. not (m.lid == lid)) links.old.items }
    ensures fewer { length links.new.items ≤ length links.old.items }
    ensures room { vec_capacity links.new ≡ vec_capacity links.old }
{
    links.retain(|m| m.lid != lid);
}

impl KnownLinks {
    /// A table with no link in it.
    pub fn new(alloc: Global) -> Result<KnownLinks, NoMemory>
        ensures { IfOk result (λ made. made ≡ []) }
    {
        match Vec::with_capacity(alloc, LINK_MAX as usize) {
            Ok(links) => Ok(KnownLinks { links }),
            Err(_) => Err(NoMemory),
        }
    }

    /// All links go.
    pub fn clear(&mut self)
        ensures { self.new ≡ [] }
    {
        self.links.clear();
    }

    /// What a call is to: what the device text of a create_link names, or what the link is to that another call names, where
    /// it is one of these.
    pub fn target(&self, call: &CallRef<'_>) -> Option<Target>
        ensures { result ≡ call_target self.now (call_shown call.now) }
    {
        match call {
            CallRef::CreateLink { device, .. } => text_target(device),
            _ => target_at(&self.links, link_named(call)?),
        }
    }

    /// A call was answered by this record: a link that it made is known from now on, and one that it destroyed no longer. A link
    /// beyond the [`LINK_MAX`] that may live at once has no place in the table, and is not kept.
    pub fn learn(&mut self, call: &CallRef<'_>, reply: &[u8])
        ensures few { length (made_after self.old (call_shown call.now) reply.now) ≤ LINK_MAX → self.new ≡ made_after self.old (call_shown call.now) reply.now }
        ensures full { LINK_MAX < length (made_after self.old (call_shown call.now) reply.now) → self.new ≡ self.old }
    {
        match call {
            CallRef::CreateLink { device, .. } => {
                if let (Some(lid), Some(target)) = (link_made(reply), text_target(device)) {
                    self.add(MadeLink { lid, target });
                }
            }
            CallRef::DestroyLink { lid } => {
                if is_done(reply) {
                    forget(&mut self.links, *lid);
                }
            }
            _ => {}
        }
    }

    fn add(&mut self, link: MadeLink)
        ensures few { length (self.old ++ link ∷ []) ≤ LINK_MAX → self.new ≡ self.old ++ link ∷ [] }
        ensures full { LINK_MAX < length (self.old ++ link ∷ []) → self.new ≡ self.old }
    {
        if self.links.len() < LINK_MAX as usize {
            self.links.push_reserved(link);
        }
    }
}
