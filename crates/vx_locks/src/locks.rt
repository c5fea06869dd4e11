ghost use Rattle.std.specs.Prelude.{◌≡◌, ◌≢◌, ◌<◌, ◌≤◌, ◌==◌, ℕ, not, true, false, [], length, find, is_some, Option, if◌then◌else◌, option_and_then, IfOk, IfSome};
ghost use Rattle.std.specs.Bool.{IsFalse};
ghost use Rattle.std.specs.List.{list_any, AllPairs};
ghost use Rattle.std.specs.Option.{option_copied};
ghost use Rattle.vx_calls.specs.Target.{conflict};
ghost use Rattle.vx_calls.specs.declared.limits.TheConstants.{LINK_MAX};
ghost use Rattle.vx_locks.specs.Places.{place};
ghost use Rattle.vx_rules.specs.Locks.{holds, is_blocked, holder_of, with_lock, without_lock};

use std::alloc::Global;
use std::marker::Model;
use vx_calls::{LINK_MAX, Target};

/// Memory ran out.
#[derive(Clone, Copy, Debug, PartialEq, Eq)]
pub struct NoMemory;

/// A lock: the link that holds it, and what it is on.
#[derive(Clone, Copy)]
struct LockRow {
    lid: u32,
    target: Target,
}

/// How many places holders have: the interface's first, and behind it one for each value of a primary address.
const PLACES: usize = 257;

/// The place of the interface's holder.
const INTERFACE: usize = 0;

/// The locks that are held. A contract sees them as the plain list of locks in order of grant.
///
/// No two locks conflict, so each place has at most one holder, and a call to a device looks at its own place and at the
/// interface's. `new` makes the room of all locks, as many as links may live; no other call takes memory.
#[derive(Drop)]
pub struct Locks {
    /// In order of grant.
    rows: Vec<LockRow>,
    /// By place.
    holders: Vec<Option<u32>>,
}

impl Model for Locks {
    ghost use Rattle.std.specs.Prelude.{List};
    ghost use Rattle.vx_rules.specs.Locks.{Lock};

    ghost Value = { List Lock };

    ghost use Rattle.vx_locks.specs.Inside.{locks_of, IsLockKept};

    ghost view = { locks_of };

    ghost invariant = { IsLockKept };
}

impl Locks {
    /// No lock is held.
    pub fn new(alloc: Global) -> Result<Locks, NoMemory>
        ensures { IfOk result (λ locks. locks ≡ []) }
    {
        let Ok(rows) = Vec::with_capacity(alloc, LINK_MAX as usize) else {
            return Err(NoMemory);
        };
        let Ok(holders) = vec![in alloc; None; PLACES] else {
            return Err(NoMemory);
        };
        Ok(Locks { rows, holders })
    }

    /// Whether the link holds a lock.
    pub fn holds(&self, lid: u32) -> bool
        ensures { result ≡ holds self.now lid }
    {
        has_row(&self.rows, lid)
    }

    /// The link that keeps this one off the target: the holder of the first lock, in order of grant, of another link on a
    /// conflicting target. Link 0 stands for one that isn't made yet, whose number no other link has.
    pub fn blocked(&self, lid: u32, target: &Target) -> Option<u32>
        ensures holder { result ≡ holder_of self.now lid target.now }
        ensures blocked { is_some result ≡ is_blocked self.now lid target.now }
        ensures other { IfSome result (λ holder. (holder ≢ lid) × (holds self.now holder ≡ true)) }
    {
        match target {
            Target::Interface => self.first_other(lid),
            Target::Device { p, .. } => self.other_near(lid, *p),
        }
    }

    /// The link takes a lock on the target, behind all locks that were granted before. Locks don't nest: it holds none yet.
    pub fn take(&mut self, lid: u32, target: Target)
        requires none { holds self.old lid ≡ false }
        requires free { is_blocked self.old lid target ≡ false }
        requires room { length self.old < LINK_MAX }
        ensures { self.new ≡ with_lock self.old lid target }
    {
        self.rows.push_reserved(LockRow { lid, target });
        self.holders[place_of(target)] = Some(lid);
    }

    /// The link's lock goes. Answers whether there was one.
    pub fn free(&mut self, lid: u32) -> bool
        ensures held { result ≡ holds self.old lid }
        ensures locks { self.new ≡ without_lock self.old lid }
    {
        match find_row(&self.rows, lid).copied() {
            Some(gone) => {
                self.rows.retain(|row| row.lid != lid);
                self.holders[place_of(gone.target)] = None;
                true
            }
            None => false,
        }
    }

    /// The holder of the first lock of another link. No link holds two, so this looks at two rows at most.
    fn first_other(&self, lid: u32) -> Option<u32>
        ensures { result ≡ holder_of self.now lid Target.Interface }
    {
        match first_of_other(&self.rows, lid) {
            Some(row) => Some(row.lid),
            None => None,
        }
    }

    /// The other link that holds the interface, or else the devices of a primary address. No two hold one of these.
    fn other_near(&self, lid: u32, p: u8) -> Option<u32>
        ensures { (s : Option ℕ) → result ≡ holder_of self.now lid (Target.Device p s) }
    {
        let place = place_of(Target::Device { p, s: None });
        other_than(self.holders[INTERFACE].or(self.holders[place]), lid)
    }

    /// What holds of all locks that are held: no link holds two, no two are on conflicting targets, and there are no more
    /// than links may live. It does nothing when it runs.
    pub fn locks_apart(&self)
        ensures links { AllPairs (λ a b. a.link ≢ b.link) self.now }
        ensures targets { AllPairs (λ a b. IsFalse (conflict a.target b.target)) self.now }
        ensures few { length self.now ≤ LINK_MAX }
    {
        let _ = &self.rows;
    }
}

/// Whether a row is this link's.
fn has_row(rows: &[LockRow], lid: u32) -> bool
    ensures { result ≡ list_any (λ r. r.lid == lid) rows.now }
{
    rows.iter().any(|row| row.lid == lid)
}

/// The row of this link.
fn find_row(rows: &[LockRow], lid: u32) -> Option<&LockRow>
    ensures { option_copied result ≡ find (λ r. r.lid == lid) rows.now }
{
    rows.iter().find(|row| row.lid == lid)
}

/// The first row of another link.
fn first_of_other(rows: &[LockRow], lid: u32) -> Option<&LockRow>
    ensures { option_copied result ≡ find (λ r. not (r.lid == lid)) rows.now }
{
    rows.iter().find(|row| row.lid != lid)
}

/// A holder that isn't this link.
fn other_than(holder: Option<u32>, lid: u32) -> Option<u32>
    ensures { result ≡ option_and_then (λ n. if n == lid then None else Some n) holder }
{
    match holder {
        Some(held) => { if held == lid { None } else { Some(held) } }
        None => None,
    }
}

/// The place of the holder of a lock on this target.
fn place_of(target: Target) -> usize
    ensures place { result ≡ place target }
    ensures bound { result < PLACES }
{
    match target {
        Target::Interface => INTERFACE,
        Target::Device { p, .. } => p as usize + 1,
    }
}
