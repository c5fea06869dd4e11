//! Nets: what opens ports, and takes the links of peers at one of its own.

ghost use Rattle.std.specs.Prelude.{◌≡◌, ℕ, ◌≤◌, ◌||◌, Bool, true};
ghost use Rattle.vx_io_traits.specs.Faults.{Rose};
ghost use Rattle.vx_io_traits.specs.Rung.{OnDialFailed, is_up};
ghost use Rattle.vx_io_traits.specs.Accepts.{OnAcceptFailed, OnBindFailed, given_after, ended_after};

use super::dials::DialOut;
use super::links::Link;
use super::listeners::{Accepted, Bound, Listen};

/// A net, which opens one port of its own and takes that port's links, and binds other ports.
pub trait Net {
    type Port: Listen;

    // Whether its own port is open.
    ghost is_open: { Self → Bool };

    // How many calls failed: a `u64` that stays at its greatest value.
    ghost faults: { Self → ℕ };

    // How many links its own port gave.
    ghost given: { Self → ℕ };

    // How often its own port told that no more links come: a `u64` that stays at its greatest value.
    ghost ended: { Self → ℕ };

    /// Opens the net's own port, which takes links from now on. Where that fails, a port that was open stays so.
    fn open(&mut self, port: u16) -> DialOut
        ensures counted { faults self.old ≤ faults self.new }
        ensures opened { is_open self.new ≡ (is_up result || is_open self.old) }
        ensures given { given self.new ≡ given self.old }
        ensures ended { ended self.new ≡ ended self.old }
        ensures failed { OnDialFailed result (Rose (faults self.old) (faults self.new)) };

    /// Waits for the next link of its own port, which is open.
    fn accept(&mut self) -> Accepted<<Self::Port as Listen>::Peer>
        requires { is_open self.old ≡ true }
        ensures counted { faults self.old ≤ faults self.new }
        ensures opened { is_open self.new ≡ true }
        ensures given { given self.new ≡ given_after result (given self.old) }
        ensures ended { ended self.new ≡ ended_after result (ended self.old) }
        ensures failed { OnAcceptFailed result (Rose (faults self.old) (faults self.new)) };

    /// Binds another port, which takes links from now on.
    fn bind(&mut self, port: u16) -> Bound<Self::Port>
        ensures counted { faults self.old ≤ faults self.new }
        ensures opened { is_open self.new ≡ is_open self.old }
        ensures given { given self.new ≡ given self.old }
        ensures ended { ended self.new ≡ ended self.old }
        ensures failed { OnBindFailed result (Rose (faults self.old) (faults self.new)) };
}
