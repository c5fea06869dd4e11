//! What brings the box's bus to a wire.

ghost use Rattle.std.specs.Prelude.{◌≡◌, ◌<◌, ◌≤◌, ◌+◌, ◌++◌, vec_len, vec_capacity};
ghost use Rattle.vx_488.specs.Address.{address_at};
ghost use Rattle.vx_upstream.specs.Restoring.{secondary_orders, address_orders, talker_orders, listener_orders, listener_again, orders_at, poll_byte, first_at, sooner, awaited_orders, restoring};

use vx_488::{Addr, Listeners, Pending, Wire};

/// What the box is ordered, by one device_docmd (VXI-11.2).
#[derive(Clone, Copy)]
pub(crate) enum Order {
    /// To clear its interface.
    Clear,
    /// To go to this address.
    Address(u8),
    /// To switch remote enable.
    Remote(bool),
    /// To send this command byte.
    Command(u8),
}

/// How many addresses a bus has: 31 primaries, each alone and with 31 secondaries.
const ADDRESSES: u16 = 992;

/// The most orders that bring a bus to a wire: three, two for the talker, for each listener and for who is awaited, and one for
/// serial poll mode.
pub(crate) const ORDER_MAX: usize = 1992;

/// MLA, MTA and MSA of address 0 (IEEE 488.1, table of multiline interface messages).
const LISTEN: u8 = 0x20;

const TALK: u8 = 0x40;

const SECONDARY: u8 = 0x60;

/// SPE and SPD.
const POLL_ENABLE: u8 = 0x18;

const POLL_DISABLE: u8 = 0x19;

/// The address at this place of all, in order of primary and then secondary address, the one without a secondary first.
fn address_of(place: u16) -> Addr
    requires { place < 992 }
    ensures { result ≡ address_at place }
{
    let p = (place / 32) as u8;
    let s = (place % 32) as u8;
    if s == 0 {
        Addr { p, s: None }
    } else {
        Addr { p, s: Some(s - 1) }
    }
}

/// The secondary address of a device, where it has one.
fn put_secondary(orders: &mut Vec<Order>, s: Option<u8>)
    requires { vec_len orders.old + 1 ≤ vec_capacity orders.old }
    ensures put { orders.new.items ≡ orders.old.items ++ secondary_orders s }
    ensures len { vec_len orders.new ≤ vec_len orders.old + 1 }
    ensures room { vec_capacity orders.new ≡ vec_capacity orders.old }
{
    match s {
        None => {}
        Some(s) => orders.push_reserved(Order::Command(SECONDARY.wrapping_add(s))),
    }
}

/// The address of a device, by the group of its primary one.
fn put_address(orders: &mut Vec<Order>, group: u8, a: Addr)
    requires { vec_len orders.old + 2 ≤ vec_capacity orders.old }
    ensures put { orders.new.items ≡ orders.old.items ++ address_orders group a }
    ensures len { vec_len orders.new ≤ vec_len orders.old + 2 }
    ensures room { vec_capacity orders.new ≡ vec_capacity orders.old }
{
    orders.push_reserved(Order::Command(group.wrapping_add(a.p)));
    put_secondary(orders, a.s);
}

/// The talker.
fn put_talker(orders: &mut Vec<Order>, talker: Option<Addr>)
    requires { vec_len orders.old + 2 ≤ vec_capacity orders.old }
    ensures put { orders.new.items ≡ orders.old.items ++ talker_orders talker }
    ensures len { vec_len orders.new ≤ vec_len orders.old + 2 }
    ensures room { vec_capacity orders.new ≡ vec_capacity orders.old }
{
    match talker {
        None => {}
        Some(a) => put_address(orders, TALK, a),
    }
}

/// A listener, once more.
fn put_again(orders: &mut Vec<Order>, listener: Option<Addr>)
    requires { vec_len orders.old + 2 ≤ vec_capacity orders.old }
    ensures put { orders.new.items ≡ orders.old.items ++ listener_again listener }
    ensures len { vec_len orders.new ≤ vec_len orders.old + 2 }
    ensures room { vec_capacity orders.new ≡ vec_capacity orders.old }
{
    match listener {
        None => {}
        Some(a) => put_address(orders, LISTEN, a),
    }
}

/// The listeners, the last one first.
fn put_listeners(orders: &mut Vec<Order>, listeners: &Listeners)
    requires { vec_len orders.old + 1984 ≤ vec_capacity orders.old }
    ensures put { orders.new.items ≡ orders.old.items ++ listener_orders listeners.now }
    ensures len { vec_len orders.new ≤ vec_len orders.old + 1984 }
    ensures room { vec_capacity orders.new ≡ vec_capacity orders.old }
{
    listeners.in_order();
    let mut place = ADDRESSES;
    while place > 0 {
        place -= 1;
        put_listener(orders, listeners, place);
    }
}

/// The address at a place, where it listens.
fn put_listener(orders: &mut Vec<Order>, listeners: &Listeners, place: u16)
    requires room { vec_len orders.old + 2 ≤ vec_capacity orders.old }
    requires place { place < 992 }
    ensures put { orders.new.items ≡ orders.old.items ++ orders_at listeners.now place }
    ensures len { vec_len orders.new ≤ vec_len orders.old + 2 }
    ensures room { vec_capacity orders.new ≡ vec_capacity orders.old }
{
    let a = address_of(place);
    if !listeners.has(a) {
        return;
    }
    put_address(orders, LISTEN, a);
}

/// The first listener with this primary address.
fn first_at(listeners: &Listeners, p: u8) -> Option<Addr>
    ensures { result ≡ first_at p listeners.now }
{
    listeners.in_order();
    let mut found = None;
    let mut place = ADDRESSES;
    while place > 0 {
        place -= 1;
        found = sooner(listeners, p, place, found);
    }
    found
}

/// The address at a place, where it listens and has this primary address; else the one that was found further on.
fn sooner(listeners: &Listeners, p: u8, place: u16, found: Option<Addr>) -> Option<Addr>
    requires { place < 992 }
    ensures { result ≡ sooner listeners.now p place found }
{
    let a = address_of(place);
    if listeners.has(a) && a.p == p {
        Some(a)
    } else {
        found
    }
}

/// Serial poll mode.
fn poll_byte(polling: bool) -> u8
    ensures { result ≡ poll_byte polling }
{
    if polling { POLL_ENABLE } else { POLL_DISABLE }
}

/// Who is awaited.
fn put_awaited(orders: &mut Vec<Order>, wire: &Wire)
    requires { vec_len orders.old + 2 ≤ vec_capacity orders.old }
    ensures put { orders.new.items ≡ orders.old.items ++ awaited_orders wire.now.pending wire.now.talker wire.now.listeners }
    ensures room { vec_capacity orders.new ≡ vec_capacity orders.old }
{
    match wire.pending {
        Pending::Nothing => {}
        Pending::Talk(_) => put_talker(orders, wire.talker),
        Pending::Listen(p) => put_again(orders, first_at(&wire.listeners, p)),
    }
}

/// All that brings a bus to a wire, in place of what stands in this room.
#[tactic(auto, unfolding(crate::specs::Restoring::restoring))]
pub(crate) fn put_orders(orders: &mut Vec<Order>, wire: &Wire)
    requires { ORDER_MAX ≤ vec_capacity orders.old }
    ensures put { orders.new.items ≡ restoring wire.now }
    ensures room { vec_capacity orders.new ≡ vec_capacity orders.old }
{
    orders.clear();
    orders.push_reserved(Order::Clear);
    orders.push_reserved(Order::Address(wire.own));
    orders.push_reserved(Order::Remote(wire.ren));
    put_talker(orders, wire.talker);
    put_listeners(orders, &wire.listeners);
    orders.push_reserved(Order::Command(poll_byte(wire.polling)));
    put_awaited(orders, wire);
}
