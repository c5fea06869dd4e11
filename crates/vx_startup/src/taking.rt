//! The ports of a server, and the links that its net gives at the core port.
ghost use Rattle.std.specs.Prelude.{◌≡◌, ◌≤◌, true, MatchOption};
ghost use Rattle.vx_io_traits.specs.Faults.{Rose};
ghost use Rattle.vx_startup.specs.Running.{NetShown, net_shown};
ghost use Rattle.vx_startup.specs.Taking.{TakesNext, TookSoFar};

use vx_io_traits::{Accepted, Bound, DialOut, Listen, Net};

/// Opens the core port and binds the abort port.
pub fn open_ports<N: Net>(net: &mut N, core: u16, abort: u16) -> Option<N::Port>
    ensures given { N.given net.new ≡ N.given net.old }
    ensures ended { N.ended net.new ≡ N.ended net.old }
    ensures counted { N.faults net.old ≤ N.faults net.new }
    ensures opened { MatchOption result (Rose (N.faults net.old) (N.faults net.new)) (λ port. N.is_open net.new ≡ true) }
{
    match net.open(core) {
        DialOut::Failed => None,
        DialOut::Up => match net.bind(abort) {
            Bound::Port(port) => Some(port),
            Bound::Failed => None,
        },
    }
}

/// Waits for the next link of the net's own port, and counts it, up to 2^64 - 1. Where the limit isn't 0 and so many were
/// counted, none is waited for, and it is told that no more come.
pub fn next_link<N: Net>(
    net: &mut N,
    limit: u32,
    number: &mut u64,
) -> Accepted<<N::Port as Listen>::Peer>
    requires open { N.is_open net.old ≡ true }
    ensures open { N.is_open net.new ≡ true }
    ensures took { (before : NetShown) → TookSoFar limit before (net_shown N.Net net.old) number.old
        → TakesNext limit before (net_shown N.Net net.new) number.new result }
{
    if limit > 0 && *number >= u64::from(limit) {
        return Accepted::Ended;
    }
    match net.accept() {
        Accepted::Peer(link) => {
            *number = number.saturating_add(1);
            Accepted::Peer(link)
        }
        Accepted::Ended => Accepted::Ended,
        Accepted::Failed => Accepted::Failed,
    }
}
