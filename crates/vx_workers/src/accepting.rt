//! The links of the core port: each is handed to the workers that serve them.
ghost use Rattle.std.specs.Prelude.{◌≡◌, true, MatchOption};
ghost use Rattle.vx_io_traits.specs.Faults.{Rose};
ghost use Rattle.vx_startup.specs.Running.{TookLinks, net_shown};

use crate::workers::{Attend, Peer, hand_on};
use crossbeam_channel::Sender;
use std::sync::Wait;
use vx_io_traits::{Accepted, Net};
use vx_startup::{Placed, next_link};
use vx_stream::CountingLink;

/// Takes the links of the net's own port and hands them on, up to the limit, where that isn't 0, or until no more come, and
/// answers how many there were, up to 2^64 - 1; none where a wait failed.
pub fn accept_links<R: Wait, N: Net, V: Attend<CountingLink<Peer<N>>> + Drop>(
    rt: &R,
    net: &mut N,
    limit: u32,
    links: &Sender<CountingLink<Peer<N>>>,
    worker: V,
) -> Option<u64>
where
    Peer<N>: Placed + Drop,
    requires open { N.is_open net.old ≡ true }
    ensures took { MatchOption result (Rose (N.faults net.old) (N.faults net.new))
        (λ number. TookLinks limit (net_shown N.Net net.old) (net_shown N.Net net.new) number) }
{
    let mut worker = worker;
    let mut number = 0u64;
    for _ in rt.forever() {
        match next_link(net, limit, &mut number) {
            Accepted::Peer(link) => {
                worker = hand_on(rt, links, worker, CountingLink::new(link, number));
            }
            Accepted::Ended => return Some(number),
            Accepted::Failed => return None,
        }
    }
    unreachable!()
}
