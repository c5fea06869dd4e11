//! How the box's bus is brought to a wire.

ghost use Rattle.std.specs.Prelude.{◌≡◌, ◌≢◌, [], true, false, Ok};
ghost use Rattle.vx_client.specs.State.{client_with_link};
ghost use Rattle.vx_upstream.specs.UpstreamState.{opts_at};
ghost use Rattle.vx_upstream.specs.Sending.{words_of, Reaches};
ghost use Rattle.vx_upstream.specs.Restoring.{restoring};
ghost use Rattle.vx_upstream.specs.Bringing.{access_of, Obeys, Obeyed, is_spent, LinksAnew, LinksNone, BringsAnew, BringsOver, Brings, Tries, tried};
ghost use Rattle.vx_upstream.specs.Stepping.{ClearsBus, ComesBack, moved};

use crate::calls::{BUS_ADDRESS, IFC_CONTROL, REN_CONTROL, SEND_COMMAND};
use crate::orders::{Order, put_orders};
use crate::upstream::{Standing, UpstreamBus};
use vx_488::{Move, Transfer, Wire};
use vx_client::{CallOpts, Client, ClientErr};
use vx_io_traits::{DialOut, Reach};

/// How many milliseconds pass at least between a try that failed and the next.
const RETRY_EVERY: u64 = 1000;

/// Reaches the box by the client's link, which keeps all else.
pub(crate) fn reach_box<L: Reach>(client: &mut Client<L>, host: &str, port: u16) -> DialOut
    ensures over { client.new ≡ client_with_link client.old client.new.link }
    ensures reached { Reaches (words_of L.Link L.refused L.tries) host.now port result client.old.link client.new.link }
{
    client.reach(host, port)
}

/// The device_docmd of an order, and what it answered.
fn obey<L: Reach>(
    client: &mut Client<L>,
    lid: u32,
    opts: &CallOpts,
    order: Order,
) -> Result<usize, ClientErr>
    ensures { Obeys (words_of L.Link L.refused L.tries) lid opts.now order client.old client.new result }
{
    let mut into = [0u8; 4];
    match order {
        Order::Clear => client.docmd(lid, opts, IFC_CONTROL, &[], &mut into),
        Order::Address(a) => client.docmd(lid, opts, BUS_ADDRESS, &[0, 0, 0, a], &mut into),
        Order::Remote(on) => client.docmd(lid, opts, REN_CONTROL, &[0, u8::from(on)], &mut into),
        Order::Command(b) => client.docmd(lid, opts, SEND_COMMAND, &[b], &mut into),
    }
}

/// These orders, one after the other, up to the first that isn't answered with error 0.
fn obey_all<L: Reach>(
    client: &mut Client<L>,
    lid: u32,
    opts: &CallOpts,
    orders: &[Order],
) -> Result<(), ClientErr>
    ensures { Obeyed (words_of L.Link L.refused L.tries) lid opts.now orders.now result client.old client.new }
{
    let mut done = 0;
    while done < orders.len() {
        match obey(client, lid, opts, orders[done]) {
            Ok(_) => done += 1,
            Err(error) => return Err(error),
        }
    }
    Ok(())
}

/// Whether an answer is that nothing was sent, since the client was spent.
fn is_spent(error: ClientErr) -> bool
    ensures { result ≡ is_spent error }
{
    matches!(error, ClientErr::Spent)
}

/// Where a try leaves the bus.
fn tried(done: bool, now: u64) -> Standing
    ensures { result ≡ tried done now }
{
    if done {
        Standing::Here
    } else {
        Standing::Retry(now.saturating_add(RETRY_EVERY))
    }
}

/// What an ask came to that a try was made for.
fn moved(done: bool) -> Move
    ensures value { result ≡ moved done }
    ensures never_held { result ≢ Move.Held }
{
    if done { Move::Went } else { Move::Failed }
}

impl<L: Reach> UpstreamBus<L> {
    /// Sends the orders that bring the box's bus to a wire, over the link that there is.
    fn send_orders(&mut self, wire: &Wire) -> Result<(), ClientErr>
        ensures rest { self.new ≡ record self.old { client = self.new.client } }
        ensures obeyed { Obeyed (words_of L.Link L.refused L.tries) self.old.made.lid (opts_at self.old.terms.patience 0) (restoring wire.now) result self.old.client self.new.client }
    {
        put_orders(&mut self.orders, wire);
        let opts = self.opts(0);
        obey_all(
            &mut self.client,
            self.made.lid,
            &opts,
            self.orders.as_slice(),
        )
    }

    /// Makes a link at the box anew, and says whether there is one.
    fn link_anew(&mut self) -> bool
        ensures rest { self.new ≡ record self.old { client = self.new.client; made = self.new.made } }
        ensures made { result ≡ true → LinksAnew (words_of L.Link L.refused L.tries) self.old.terms self.old.client self.new.client (Ok self.new.made) }
        ensures unmade { result ≡ false → LinksNone (words_of L.Link L.refused L.tries) self.old.terms self.old.client self.new.client }
        ensures same { result ≡ false → self.new.made ≡ self.old.made }
    {
        match reach_box(&mut self.client, self.host.as_str(), self.port) {
            DialOut::Up => {}
            DialOut::Failed => return false,
        }
        self.client.renew();
        match self.client.create_link(true, 0, self.name.as_slice()) {
            Ok(made) => {
                self.made = made;
                true
            }
            Err(_) => false,
        }
    }

    /// Brings the box's bus to a wire over a link that is made anew, and says whether it was brought there.
    fn bring_anew(&mut self, wire: &Wire) -> bool
        ensures rest { self.new ≡ record self.old { client = self.new.client; made = self.new.made } }
        ensures brought { BringsAnew (words_of L.Link L.refused L.tries) self.old.terms (restoring wire.now) result (access_of self.old) (access_of self.new) }
    {
        if !self.link_anew() {
            return false;
        }
        match self.send_orders(wire) {
            Ok(()) => true,
            Err(_) => false,
        }
    }

    /// Brings it there over the link that there is, or where its client is spent over one that is made anew.
    fn bring_over(&mut self, wire: &Wire) -> bool
        ensures rest { self.new ≡ record self.old { client = self.new.client; made = self.new.made } }
        ensures brought { BringsOver (words_of L.Link L.refused L.tries) self.old.terms (restoring wire.now) result (access_of self.old) (access_of self.new) }
    {
        match self.send_orders(wire) {
            Ok(()) => true,
            Err(error) => {
                if is_spent(error) {
                    self.bring_anew(wire)
                } else {
                    false
                }
            }
        }
    }

    /// Brings it there by the first try behind a fault, or by a further one.
    fn bring(&mut self, wire: &Wire) -> bool
        ensures rest { self.new ≡ record self.old { client = self.new.client; made = self.new.made } }
        ensures brought { Brings (words_of L.Link L.refused L.tries) self.old.terms self.old.kept.standing (restoring wire.now) result (access_of self.old) (access_of self.new) }
    {
        match self.standing {
            Standing::Lost => self.bring_over(wire),
            Standing::Here | Standing::Retry(_) => self.bring_anew(wire),
        }
    }

    /// Tries to bring the box's bus to a wire: it is here then, or away until a later moment.
    fn try_for(&mut self, wire: &Wire) -> bool
        ensures rest { self.new ≡ record self.old { client = self.new.client; made = self.new.made; kept = record self.old.kept { standing = self.new.kept.standing } } }
        ensures tries { Tries (words_of L.Link L.refused L.tries) wire.now result self.old self.new }
    {
        let done = self.bring(wire);
        self.standing = tried(done, self.moment);
        done
    }

    /// Brings a bus back that is away, where it is in charge and its time has come.
    pub(crate) fn come_back(&mut self)
        ensures rest { self.new ≡ record self.old { client = self.new.client; made = self.new.made; kept = record self.old.kept { standing = self.new.kept.standing } } }
        ensures back { ComesBack (words_of L.Link L.refused L.tries) self.old self.new }
    {
        if !self.comes_back() {
            return;
        }
        let wire = self.wire;
        self.try_for(&wire);
    }

    /// Has the box clear its interface. Where control was passed on and the bus is away, that brings it back.
    pub(crate) fn clear(&mut self) -> Move
        ensures rest { self.new ≡ record self.old { client = self.new.client; made = self.new.made; kept = record self.old.kept { standing = self.new.kept.standing } } }
        ensures due { self.old.due ≡ [] }
        ensures cleared { ClearsBus (words_of L.Link L.refused L.tries) result self.old self.new }
        ensures never_held { result ≢ Move.Held }
    {
        if self.clears() {
            let mut wire = self.wire;
            wire.apply(&Transfer::Ifc);
            moved(self.try_for(&wire))
        } else {
            self.order(IFC_CONTROL, &[])
        }
    }
}
