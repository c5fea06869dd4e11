//! The pump of one interrupt channel.
ghost use Rattle.std.specs.Prelude.{◌≡◌, ◌≤◌, ◌<◌, length};
ghost use Rattle.vx_session.specs.Origin.{origin};
ghost use Rattle.vx_session.specs.Pumping.{Pumps};

use crate::turns::take;
use std::sync::Wait;
use vx_488::Bus;
use vx_calls::Taken;
use vx_core::Core;
use vx_exchange::{SRQ_ROOM, put_srq_record};
use vx_gate::{Pass, Turns};
use vx_io_traits::{Link, Pause};
use vx_stream::send_all;

/// Why a pump ended.
#[derive(Clone, Copy, Debug, PartialEq, Eq)]
pub enum PumpEnd {
    /// A take found the channel gone, or its connection.
    ChannelGone,
    /// A send failed.
    WriteFault,
}

/// Takes interrupts from a channel, whatever pass its connection is of, and writes each as one record of an interrupt call
/// (VXI-11, device_intr_srq), in order. It pauses where the outbox is empty, and ends with the channel or at the link's first
/// fault. No reply is read.
pub fn pump<R: Wait, B: Bus, T: Turns<Core<B>>, L: Link, P: Pause>(
    rt: &R,
    turns: &T,
    pass: Pass<Core<B>>,
    conn: u32,
    chan: u32,
    link: &mut L,
    pause: &mut P,
) -> (Pass<Core<B>>, PumpEnd)
    requires gate { pass.gate ≡ T.gate turns.now }
    ensures { Pumps (origin B.Bus (T.first turns.now)) L.Link pass conn chan link.old result.1 result.0 link.new }
{
    let mut pass = pass;
    let mut record = [0; SRQ_ROOM];
    for _ in rt.forever() {
        let (back, taken) = take(rt, turns, pass, conn, chan);
        pass = back;
        match taken {
            Taken::Gone => return (pass, PumpEnd::ChannelGone),
            Taken::Empty => pause.pause(),
            Taken::Srq(interrupt) => {
                let len = put_srq_record(&interrupt, &mut record);
                if !send_all(link, &record[..len]) {
                    return (pass, PumpEnd::WriteFault);
                }
            }
        }
    }
    unreachable!()
}
