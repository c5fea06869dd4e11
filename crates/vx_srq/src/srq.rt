ghost use Rattle.std.specs.Prelude.{◌≡◌, ℕ, ◌<◌, ◌≤◌, ◌+◌, ◌==◌, not, false, true, length, filter, nat_lt, is_some, is_ok, IfOk, OnOk, OnErr};
ghost use Rattle.std.specs.List.{list_any, All, AllPairs};
ghost use Rattle.std.specs.Option.{option_map, IfSome};
ghost use Rattle.vx_calls.specs.declared.limits.TheConstants.{LINK_MAX, CONNECTION_LAST};
ghost use Rattle.vx_rules.specs.SrqState as srq_state;
ghost use Rattle.vx_srq.specs.Shown.{given_shown};
ghost use Rattle.vx_srq.specs.Told.{channel_told, told_of};

use crate::enables::{EnableRow, put};
use crate::slots::{
    ChannelRow, SlotRow, close_channel, drop_front, find_slot, front, open_channel, rise,
};
use std::alloc::Global;
use std::collections::VecDeque;
use std::marker::Model;
use vx_calls::{CONNECTION_LAST, Handle, LINK_MAX, Taken};
use vx_rules::OUTBOX_MAX;

/// Memory ran out.
#[derive(Clone, Copy, Debug, PartialEq, Eq)]
pub struct NoMemory;

/// No channel number is left: 2^31 - 1 was given out.
#[derive(Clone, Copy, Debug, PartialEq, Eq)]
pub struct NoNumber;

/// An interrupt channel: its number, and the program and version that its calls have.
#[derive(Clone, Copy)]
pub struct Channel {
    pub chan: u32,
    pub prog: u32,
    pub vers: u32,
}

/// The interrupt channels, the enables of links and the level of SRQ. A contract sees them as a `SrqState`: plain lists of
/// connections and of enables, the number of the next channel, and the level at the last sample.
///
/// `new` makes the room of all enables, and `add` that of a connection's outbox; no other call takes memory.
#[derive(Drop)]
pub struct Srq {
    slots: Vec<SlotRow>,
    enables: Vec<EnableRow>,
    next: u32,
    level: bool,
}

impl Model for Srq {
    ghost use Rattle.vx_rules.specs.SrqState.{SrqState};

    ghost Value = { SrqState };

    ghost use Rattle.vx_srq.specs.Inside.{srq_state_of, IsSrqKept};

    ghost view = { srq_state_of };

    ghost invariant = { IsSrqKept };
}

impl Srq {
    /// No connection, no enable, no level, and first channel number 1.
    pub fn new(alloc: Global) -> Result<Srq, NoMemory>
        ensures { IfOk result (λ srq. srq ≡ srq_state.empty) }
    {
        match Vec::with_capacity(alloc, LINK_MAX as usize) {
            Ok(enables) => Ok(Srq {
                slots: Vec::new(alloc),
                enables,
                next: 1,
                level: false,
            }),
            Err(_) => Err(NoMemory),
        }
    }

    /// A connection more, without a channel.
    ///
    /// # Errors
    ///
    /// `NoMemory`; then nothing changed.
    pub fn add(&mut self, conn: u32) -> Result<(), NoMemory>
        ensures added { OnOk result (self.new ≡ srq_state.with_slot self.old conn) }
        ensures err { OnErr result (self.new ≡ self.old) }
    {
        let alloc = *self.slots.allocator();
        let Ok(outbox) = VecDeque::with_capacity(alloc, OUTBOX_MAX) else {
            return Err(NoMemory);
        };
        let slot = SlotRow {
            conn,
            channel: None,
            outbox,
        };
        match self.slots.push(slot) {
            Ok(()) => Ok(()),
            Err(_) => Err(NoMemory),
        }
    }

    /// Whether the connection was added, and didn't go.
    pub fn is_added(&self, conn: u32) -> bool
        ensures { result ≡ srq_state.is_added self.now conn }
    {
        match find_slot(&self.slots, conn) {
            Some(_) => true,
            None => false,
        }
    }

    /// The connection goes, and with it its channel and the enables of its links.
    pub fn gone(&mut self, conn: u32)
        ensures { self.new ≡ srq_state.without_slot self.old conn }
    {
        self.slots.retain(|slot| slot.conn != conn);
        self.enables.retain(|row| row.conn != conn);
    }

    /// The channel of the connection, where it has one.
    pub fn channel(&self, conn: u32) -> Option<Channel>
        ensures { result ≡ option_map channel_told (srq_state.channel_at self.now conn) }
    {
        match find_slot(&self.slots, conn) {
            Some(slot) => told(slot.channel),
            None => None,
        }
    }

    /// Makes a channel for the connection, with an empty outbox, and gives its number: 1, 2, 3 and so on up to
    /// 2^31 - 1, none twice. The connection was added and has no channel.
    ///
    /// # Errors
    ///
    /// `NoNumber` exactly where `has_number` answers false; then nothing changes.
    pub fn make(&mut self, conn: u32, prog: u32, vers: u32) -> Result<u32, NoNumber>
        requires added { srq_state.is_added self.old conn ≡ true }
        requires none { is_some (srq_state.channel_at self.old conn) ≡ false }
        ensures made { OnOk result (self.new ≡ srq_state.with_new_channel self.old conn prog vers) }
        ensures number { IfOk result (λ chan. chan ≡ self.old.next_channel) }
        ensures range { IfOk result (λ chan. (0 < chan) × (chan ≤ CONNECTION_LAST)) }
        ensures left { is_ok result ≡ srq_state.has_number self.old }
        ensures err { OnErr result (self.new ≡ self.old) }
    {
        if !self.has_number() {
            return Err(NoNumber);
        }
        let chan = self.next;
        let channel = ChannelRow {
            chan,
            prog,
            vers,
            xid: 1,
        };
        open_channel(&mut self.slots, conn, channel);
        self.next += 1;
        Ok(chan)
    }

    /// Whether a channel number is left: fewer than 2^31 - 1 were given out.
    pub fn has_number(&self) -> bool
        ensures { result ≡ srq_state.has_number self.now }
    {
        self.next <= CONNECTION_LAST
    }

    /// The number of the next channel, up to 2^31, which is never given.
    pub fn next_channel(&self) -> u32
        ensures number { result ≡ self.now.next_channel }
        ensures range { result ≤ CONNECTION_LAST + 1 }
    {
        self.next
    }

    /// The level of SRQ at the last sample; false before the first.
    pub fn level(&self) -> bool
        ensures { result ≡ self.now.level }
    {
        self.level
    }

    /// The connection's channel goes, with its outbox. Answers whether there was one. The enables of links stay.
    pub fn close(&mut self, conn: u32) -> bool
        ensures open { result ≡ is_some (srq_state.channel_at self.old conn) }
        ensures closed { self.new ≡ srq_state.with_channel self.old conn None }
    {
        let open = self.channel(conn).is_some();
        close_channel(&mut self.slots, conn);
        open
    }

    /// The enable of a link of this connection, in place of its earlier one. The connection was added, and fewer than
    /// 1,024 other links have an entry.
    pub fn enable(&mut self, conn: u32, lid: u32, on: bool, handle: Handle)
        requires added { srq_state.is_added self.old conn ≡ true }
        requires room { length (filter (λ e. not (e.link == lid)) self.old.enables) < LINK_MAX }
        ensures { self.new ≡ srq_state.with_enable self.old (record { link = lid; connection = conn; on = on; handle = handle.bytes.items }) }
    {
        put(
            &mut self.enables,
            EnableRow {
                lid,
                conn,
                on,
                handle,
            },
        );
    }

    /// Whether fewer than 1,024 links have an enable: then there is room for that of any link.
    pub fn has_room(&self) -> bool
        ensures { result ≡ nat_lt (length self.now.enables) LINK_MAX }
    {
        self.enables.len() < LINK_MAX as usize
    }

    /// The enable of a link goes.
    pub fn forget(&mut self, lid: u32)
        ensures { self.new ≡ srq_state.without_enable self.old lid }
    {
        self.enables.retain(|row| row.lid != lid);
    }

    /// A sample of the SRQ line. Where the level goes from off to on, each channel queues the handles of its
    /// connection's enabled links, in order of the links' numbers; one whose outbox would go above 1,024 is closed
    /// instead.
    pub fn sample(&mut self, level: bool)
        ensures { self.new ≡ srq_state.sampled self.old level }
    {
        if level && !self.level {
            rise(&mut self.slots, &self.enables);
        }
        self.level = level;
    }

    /// Takes the front of the outbox of the connection's channel of this number, as the interrupt call to make. Its xid
    /// is 1 for the first take of a channel and one more for each next one, modulo 2^32. `Gone` exactly where the
    /// connection has no channel of this number, `Empty` exactly where nothing waits.
    pub fn take(&mut self, conn: u32, chan: u32) -> Taken
        ensures given { given_shown result ≡ srq_state.given self.old conn chan }
        ensures taken { self.new ≡ srq_state.taken self.old conn chan }
    {
        let taken = front(&self.slots, conn, chan);
        drop_front(&mut self.slots, conn, chan);
        taken
    }

    /// What a take from the connection's channel of this number would give. Nothing changes.
    pub fn given(&self, conn: u32, chan: u32) -> Taken
        ensures { given_shown result ≡ srq_state.given self.now conn chan }
    {
        front(&self.slots, conn, chan)
    }

    /// What holds of every state of service requests: links and their enables rise in number, and at most 1,024 have one; an
    /// outbox has at most 1,024 interrupts; each channel's number was given out, and the next one was not. It does nothing when
    /// it runs.
    pub fn sound_law(&self)
        ensures links { srq_state.LinksRise self.now.enables }
        ensures few { length self.now.enables ≤ LINK_MAX }
        ensures channels { All (srq_state.HasChannelBelow self.now.next_channel) self.now.slots }
        ensures next { (0 < self.now.next_channel) × (self.now.next_channel ≤ CONNECTION_LAST + 1) }
    {
        let _ = &self.slots;
    }
}

/// What a channel tells of itself.
fn told(channel: Option<ChannelRow>) -> Option<Channel>
    ensures { result ≡ option_map told_of channel }
{
    match channel {
        Some(c) => Some(Channel {
            chan: c.chan,
            prog: c.prog,
            vers: c.vers,
        }),
        None => None,
    }
}
