//! How a box's bus is taken.

ghost use Rattle.std.specs.Prelude.{◌≡◌, ◌≤◌, length, string_bytes, OnOk, IfOk, IfErr};
ghost use Rattle.vx_calls.specs.declared.limits.TheConstants.{DEVICE_MAX};
ghost use Rattle.vx_488.specs.Means.{first_means};
ghost use Rattle.vx_upstream.specs.UpstreamState.{terms_of};
ghost use Rattle.vx_upstream.specs.Sending.{words_of};
ghost use Rattle.vx_upstream.specs.Opening.{IsLinked, IsUnlinked, IsRested, IsUnrested, IsOpened, IsUnopened};

use crate::calls::{BUS_ADDRESS, IFC_CONTROL, REN_CONTROL};
use crate::orders::ORDER_MAX;
use crate::tries::reach_box;
use crate::upstream::{Levels, Standing, UpstreamBus};
use std::alloc::Global;
use vx_488::{ASK_MAX, Wire};
use vx_client::{Client, ClientErr};
use vx_io_traits::{DialOut, Reach};

/// Why a box's bus can't be had. Where a call is to blame, its error says whether the box refused it, and with which error, or
/// how the link to the box failed.
#[derive(Clone, Copy, Debug, PartialEq, Eq)]
pub enum OpenErr {
    /// There was no memory.
    NoMemory,
    /// The box wasn't reached.
    NoReach,
    /// The box gave no link to its interface.
    NoLink(ClientErr),
    /// It didn't clear its interface.
    NoClear(ClientErr),
    /// It didn't switch remote enable off.
    NoRemoteOff(ClientErr),
    /// It didn't go to address 0.
    NoAddress(ClientErr),
}

impl<L: Reach + Drop> UpstreamBus<L> {
    /// The bus of a box's interface of this name (`gpib0`, say), at rest: the box was reached at this port of this host, its
    /// interface is locked for this client as long as it lives, was cleared, has remote enable off, and the box is at address 0. So it
    /// means what a bus means that nobody has asked yet.
    ///
    /// `patience` is how long the box may take for one call, in milliseconds, which it is told as io_timeout: each ask of the
    /// bus may last so long. Levels are false until the first look.
    ///
    /// All memory is taken first, and then the box is reached: where it isn't, that is `NoReach`. The four calls behind the reach are
    /// create_link, with a lock, and then device_docmd of IFC control, REN control and bus address (VXI-11.2). The first that isn't
    /// answered with error 0 ends it: `NoLink`, `NoClear`, `NoRemoteOff`, `NoAddress`.
    pub fn open(
        alloc: Global,
        link: L,
        host: String,
        port: u16,
        name: &[u8],
        patience: u32,
    ) -> Result<UpstreamBus<L>, OpenErr>
        requires { length name.now ≤ DEVICE_MAX }
        ensures means { IfOk result (λ bus. bus.kept.means ≡ first_means) }
        ensures opened { IfOk result (λ bus. IsOpened (words_of L.Link L.refused L.tries) link (terms_of (string_bytes host) port name.now patience) bus) }
        ensures unopened { IfErr result (λ e. IsUnopened (words_of L.Link L.refused L.tries) link (terms_of (string_bytes host) port name.now patience) e) }
    {
        let mut bus = match UpstreamBus::link_to(alloc, link, host, port, name, patience) {
            Ok(bus) => bus,
            Err(error) => return Err(error),
        };
        match bus.come_to_rest() {
            Ok(()) => Ok(bus),
            Err(error) => Err(error),
        }
    }

    /// The bus of a box that was reached, and to whose interface a link was made, and of which nothing else was asked. All rooms are
    /// made first.
    fn link_to(
        alloc: Global,
        link: L,
        host: String,
        port: u16,
        name: &[u8],
        patience: u32,
    ) -> Result<UpstreamBus<L>, OpenErr>
        requires { length name.now ≤ DEVICE_MAX }
        ensures linked { IfOk result (λ bus. IsLinked (words_of L.Link L.refused L.tries) link (terms_of (string_bytes host) port name.now patience) bus) }
        ensures unlinked { IfErr result (λ e. IsUnlinked (words_of L.Link L.refused L.tries) link (terms_of (string_bytes host) port name.now patience) e) }
    {
        let Ok(moves) = Vec::with_capacity(alloc, ASK_MAX as usize) else {
            return Err(OpenErr::NoMemory);
        };
        let Ok(into) = vec![in alloc; 0u8; ASK_MAX as usize] else {
            return Err(OpenErr::NoMemory);
        };
        let Ok(orders) = Vec::with_capacity(alloc, ORDER_MAX) else {
            return Err(OpenErr::NoMemory);
        };
        let Ok(name) = name.to_vec(alloc) else {
            return Err(OpenErr::NoMemory);
        };
        let Ok(mut client) = Client::new(alloc, link) else {
            return Err(OpenErr::NoMemory);
        };
        match reach_box(&mut client, host.as_str(), port) {
            DialOut::Up => {}
            DialOut::Failed => return Err(OpenErr::NoReach),
        }
        match client.create_link(true, 0, name.as_slice()) {
            Ok(made) => Ok(UpstreamBus {
                client,
                made,
                host,
                port,
                name,
                patience,
                levels: Levels {
                    srq: false,
                    srq_asked: 0,
                    ndac: false,
                    ndac_asked: 0,
                },
                standing: Standing::Here,
                moment: 0,
                wire: Wire::first(),
                moves,
                asks: 0,
                holds: 0,
                faults: 0,
                refused: None,
                into,
                orders,
            }),
            Err(error) => Err(OpenErr::NoLink(error)),
        }
    }
}

impl<L: Reach> UpstreamBus<L> {
    /// Has the box clear its interface, switch remote enable off and go to address 0, up to the first that it doesn't do.
    fn come_to_rest(&mut self) -> Result<(), OpenErr>
        ensures rest { self.new ≡ record self.old { client = self.new.client } }
        ensures rested { OnOk result (IsRested (words_of L.Link L.refused L.tries) self.old self.new.client) }
        ensures unrested { IfErr result (λ e. IsUnrested (words_of L.Link L.refused L.tries) self.old e) }
    {
        match self.docmd(IFC_CONTROL, &[]) {
            Ok(_) => {}
            Err(error) => return Err(OpenErr::NoClear(error)),
        }
        match self.docmd(REN_CONTROL, &[0, 0]) {
            Ok(_) => {}
            Err(error) => return Err(OpenErr::NoRemoteOff(error)),
        }
        match self.docmd(BUS_ADDRESS, &[0, 0, 0, 0]) {
            Ok(_) => Ok(()),
            Err(error) => Err(OpenErr::NoAddress(error)),
        }
    }
}
