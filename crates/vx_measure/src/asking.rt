//! A client over a gateway of its own. A link or a client for which there is no memory hands back what it was to stand on, and is made
//! of that once more.
ghost use Rattle.std.specs.Prelude.{◌≡◌, IfSome};
ghost use Rattle.vx_488.specs.Means.{first_means};
ghost use Rattle.vx_loop.specs.LoopState.{IsUnconnected};

use crate::status::Status;
use std::alloc::Global;
use vx_488::Addr;
use vx_client::{CallOpts, Client, ClientErr};
use vx_core::Core;
use vx_inst::Instrument;
use vx_io::Link;
use vx_loop::{LoopLink, through_client};
use vx_rack::Echo;
use vx_sim::SimBus;

const ABORT_PORT: u16 = 9011;

const TEXT: &str = "*IDN?";

/// With END on the last byte; 10 seconds at the device, in milliseconds; no wait for a lock.
const OPTS: CallOpts = CallOpts {
    flags: 8,
    io_timeout: 10000,
    lock_timeout: 0,
};

/// A bus with this instrument at 5.
fn bus_of<I: Instrument>(alloc: Global, inst: I) -> Option<SimBus<I>>
    ensures { IfSome result (λ bus. bus.means ≡ first_means) }
{
    match SimBus::new(alloc) {
        Ok(mut bus) => match bus.attach_box(Addr { p: 5, s: None }, inst) {
            Ok(()) => Some(bus),
            Err(_) => None,
        },
        Err(_) => None,
    }
}

/// A gateway with this instrument at 5.
fn gateway<I: Instrument>(alloc: Global, inst: I) -> Option<Core<SimBus<I>>>
    ensures { IfSome result (λ core. IsUnconnected core.interleaved) }
{
    let bus = bus_of(alloc, inst)?;
    Core::start(alloc, bus, ABORT_PORT).ok()
}

/// A link to a gateway; where it is refused, one to the gateway that came back.
fn link<I: Instrument>(alloc: Global, core: Core<SimBus<I>>) -> Option<LoopLink<I>>
    requires { IsUnconnected core.interleaved }
{
    match LoopLink::new(alloc, core) {
        Ok(link) => Some(link),
        Err(refused) => LoopLink::new(alloc, refused.core).ok(),
    }
}

/// A client over a link; where it is refused, one over the link that came back.
fn client<L: Link + Drop>(alloc: Global, link: L) -> Option<Client<L>> {
    match Client::new(alloc, link) {
        Ok(client) => Some(client),
        Err(refused) => Client::new(alloc, refused.link).ok(),
    }
}

/// Makes all of it round an instrument, where there is memory.
fn made<I: Instrument>(alloc: Global, inst: I) -> Option<Client<LoopLink<I>>> {
    let core = gateway(alloc, inst)?;
    let link = link(alloc, core)?;
    client(alloc, link)
}

/// Writes the text, reads as many bytes again, and answers whether they are the text.
fn ask<I: Instrument>(
    client: &mut Client<LoopLink<I>>,
    into: &mut [u8],
) -> Result<bool, ClientErr> {
    let made = client.create_link(false, 0, b"gpib0,5")?;
    if made.max == 0 {
        return Ok(false);
    }
    through_client(client, &made, &OPTS, TEXT.as_bytes())?;
    let end = client.read(made.lid, &OPTS, 0, into)?;
    Ok(end.len == TEXT.len() && &*into == TEXT.as_bytes())
}

/// Asks once, and prints the text where it came back.
fn tell_asked<R: Print, I: Instrument>(rt: &R, client: &mut Client<LoopLink<I>>) -> Status {
    let mut into = [0u8; TEXT.len()];
    match ask(client, &mut into) {
        Ok(true) if println!(rt; "{TEXT}").is_ok() => Status::Done,
        _ => Status::CallFailed,
    }
}

/// Asks an instrument once.
fn ask_of<R: Print + AllocGlobal, I: Instrument>(rt: &R, inst: I) -> Status {
    match made(rt.alloc(), inst) {
        Some(mut client) => tell_asked(rt, &mut client),
        None => Status::Refused,
    }
}

/// Asks an instrument that gives back what it is sent, once, and prints the text where it came back.
pub(crate) fn ask_once<R: Print + AllocGlobal>(rt: &R) -> Status {
    match Echo::new(rt.alloc()) {
        Ok(inst) => ask_of(rt, inst),
        Err(_) => Status::Refused,
    }
}
