ghost use Rattle.std.specs.Prelude.{◌≡◌, ◌≤◌, ◌==◌, ◌++◌, nat_le, find, map, length, [], true};
ghost use Rattle.std.specs.Option.{option_copied, option_map, option_and_then};
ghost use Rattle.std.specs.List.{All};
ghost use Rattle.std.specs.VecDeque.{deque_capacity};
ghost use Rattle.vx_rules.specs.declared.limits.TheConstants.{OUTBOX_MAX};
ghost use Rattle.vx_rules.specs.SrqState.{slot_with, risen_slot, slot_taken, given_by, front_given, handles_of};
ghost use Rattle.vx_srq.specs.Shown.{channel_shown, slot_shown, enable_shown, handle_shown, given_shown, SrqHasRoom};

use crate::enables::{EnableRow, copied};
use std::collections::VecDeque;
use vx_calls::{Handle, Interrupt, Taken};
use vx_rules::OUTBOX_MAX;

/// A connection's interrupt channel: its number, the program and version that its calls have, and the xid of the next.
#[derive(Clone, Copy)]
pub(crate) struct ChannelRow {
    pub(crate) chan: u32,
    pub(crate) prog: u32,
    pub(crate) vers: u32,
    pub(crate) xid: u32,
}

/// A connection, its channel where it has one, and the room of its outbox. Without a channel nothing reads the outbox.
#[derive(Drop)]
pub(crate) struct SlotRow {
    pub(crate) conn: u32,
    pub(crate) channel: Option<ChannelRow>,
    pub(crate) outbox: VecDeque<Handle>,
}

/// The first slot of this connection.
pub(crate) fn find_slot(slots: &[SlotRow], conn: u32) -> Option<&SlotRow>
    ensures { option_copied result ≡ find (λ r. r.conn == conn) slots.now }
{
    slots.iter().find(|slot| slot.conn == conn)
}

/// Gives the connection this channel, with an empty outbox.
pub(crate) fn open_channel(slots: &mut [SlotRow], conn: u32, channel: ChannelRow)
    requires { All SrqHasRoom slots.old }
    ensures slots { map slot_shown slots.new ≡ map (slot_with conn (Some (channel_shown [] channel))) (map slot_shown slots.old) }
    ensures room { All SrqHasRoom slots.new }
{
    for slot in slots.iter_mut() {
        open_at(slot, conn, channel);
    }
}

fn open_at(slot: &mut SlotRow, conn: u32, channel: ChannelRow)
    requires { SrqHasRoom slot.old }
    ensures slot { slot_shown slot.new ≡ slot_with conn (Some (channel_shown [] channel)) (slot_shown slot.old) }
    ensures room { SrqHasRoom slot.new }
{
    if slot.conn == conn {
        slot.outbox.clear();
        slot.channel = Some(channel);
    }
}

/// Takes the channel of the connection away, and with it its outbox.
pub(crate) fn close_channel(slots: &mut [SlotRow], conn: u32)
    requires { All SrqHasRoom slots.old }
    ensures slots { map slot_shown slots.new ≡ map (slot_with conn None) (map slot_shown slots.old) }
    ensures room { All SrqHasRoom slots.new }
{
    for slot in slots.iter_mut() {
        close_at(slot, conn);
    }
}

fn close_at(slot: &mut SlotRow, conn: u32)
    requires { SrqHasRoom slot.old }
    ensures slot { slot_shown slot.new ≡ slot_with conn None (slot_shown slot.old) }
    ensures room { SrqHasRoom slot.new }
{
    if slot.conn == conn {
        slot.channel = None;
    }
}

/// A rise of SRQ: each channel queues the handles of its connection's enabled links, or is closed where its outbox would
/// go above what it takes.
pub(crate) fn rise(slots: &mut [SlotRow], enables: &[EnableRow])
    requires { All SrqHasRoom slots.old }
    ensures slots { map slot_shown slots.new ≡ map (risen_slot (map enable_shown enables.now)) (map slot_shown slots.old) }
    ensures room { All SrqHasRoom slots.new }
{
    for slot in slots.iter_mut() {
        rise_at(slot, enables);
    }
}

fn rise_at(slot: &mut SlotRow, enables: &[EnableRow])
    requires { SrqHasRoom slot.old }
    ensures slot { slot_shown slot.new ≡ risen_slot (map enable_shown enables.now) (slot_shown slot.old) }
    ensures room { SrqHasRoom slot.new }
{
    if slot.channel.is_some() && !queue(slot.conn, &mut slot.outbox, enables) {
        slot.channel = None;
    }
}

/// Puts the handles of the connection's enabled links behind those that wait. Answers false, and may have put some, where
/// they are more than the outbox takes.
fn queue(conn: u32, outbox: &mut VecDeque<Handle>, enables: &[EnableRow]) -> bool
    requires room { OUTBOX_MAX ≤ deque_capacity outbox.old }
    requires few { length outbox.old.items ≤ OUTBOX_MAX }
    ensures fits { result ≡ nat_le (length (map handle_shown outbox.old.items ++ handles_of (map enable_shown enables.now) conn)) OUTBOX_MAX }
    ensures queued { result ≡ true → map handle_shown outbox.new.items ≡ map handle_shown outbox.old.items ++ handles_of (map enable_shown enables.now) conn }
    ensures room { deque_capacity outbox.new ≡ deque_capacity outbox.old }
    ensures few { length outbox.new.items ≤ OUTBOX_MAX }
{
    for enable in enables {
        if enable.on && enable.conn == conn {
            if outbox.len() >= OUTBOX_MAX {
                return false;
            }
            outbox.push_back_reserved(copied(&enable.handle));
        }
    }
    true
}

/// What a take from the connection's channel of this number gives.
pub(crate) fn front(slots: &[SlotRow], conn: u32, chan: u32) -> Taken
    ensures { given_shown result ≡ given_by (option_and_then (λ r. (slot_shown r).channel) (find (λ r. r.conn == conn) slots.now)) chan }
{
    match find_slot(slots, conn) {
        Some(slot) => front_at(slot, chan),
        None => Taken::Gone,
    }
}

fn front_at(slot: &SlotRow, chan: u32) -> Taken
    ensures { given_shown result ≡ given_by (slot_shown slot.now).channel chan }
{
    match slot.channel {
        Some(channel) if channel.chan == chan => front_of(channel, &slot.outbox),
        _ => Taken::Gone,
    }
}

/// The front of the outbox as the channel's next interrupt.
fn front_of(channel: ChannelRow, outbox: &VecDeque<Handle>) -> Taken
    ensures { given_shown result ≡ front_given (channel_shown outbox.now.items channel) (map handle_shown outbox.now.items) }
{
    match outbox.front() {
        Some(handle) => Taken::Srq(Interrupt {
            xid: channel.xid,
            prog: channel.prog,
            vers: channel.vers,
            handle: copied(handle),
        }),
        None => Taken::Empty,
    }
}

/// Takes the front away from the outbox of the connection's channel of this number.
pub(crate) fn drop_front(slots: &mut [SlotRow], conn: u32, chan: u32)
    requires { All SrqHasRoom slots.old }
    ensures slots { map slot_shown slots.new ≡ map (slot_taken conn chan) (map slot_shown slots.old) }
    ensures room { All SrqHasRoom slots.new }
{
    for slot in slots.iter_mut() {
        drop_at(slot, conn, chan);
    }
}

fn drop_at(slot: &mut SlotRow, conn: u32, chan: u32)
    requires { SrqHasRoom slot.old }
    ensures slot { slot_shown slot.new ≡ slot_taken conn chan (slot_shown slot.old) }
    ensures room { SrqHasRoom slot.new }
{
    if slot.conn != conn {
        return;
    }
    if let Some(channel) = slot.channel
        && channel.chan == chan
        && slot.outbox.pop_front().is_some()
    {
        slot.channel = Some(ChannelRow {
            xid: channel.xid.wrapping_add(1),
            ..channel
        });
    }
}
