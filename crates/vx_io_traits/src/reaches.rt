//! Reaches: what connects to a host and port that a user names, and is then the link to it.

ghost use Rattle.std.specs.Prelude.{◌≡◌, ℕ, ◌≤◌, ◌||◌, ⊤, List, Option, None};
ghost use Rattle.std.specs.Io.KnownBytes.{Keeps};
ghost use Rattle.vx_io_traits.specs.Faults.{Rose};
ghost use Rattle.vx_io_traits.specs.Rung.{OnDialFailed, is_up};
ghost use Rattle.vx_io_traits.specs.Stands.{Stays};
ghost use Rattle.vx_io_traits.specs.Reached.{AnswersAt};
ghost use Rattle.vx_io_traits.specs.declared.dials.DialOut.{DialOut};

use super::dials::DialOut;
use super::links::Link;

/// A link to a host and port that is yet to be named: the link that its last reach with `Up` made. Until then its receives
/// and sends fail.
pub trait Reach: Link {
    // How many reaches were refused: a `u64` that stays at its greatest value.
    ghost refused: { Self → ℕ };

    // The one host and port at which a reach answers `Up`, where it can tell them: the bytes of the host's text, and the
    // port.
    ghost place: { Self → Option (List ℕ × ℕ) } = { λ _. None };

    // What one reach does, where it tells it: the reach before, the bytes of the host's text, the port, the answer, and the reach
    // after.
    ghost tries: { Self → List ℕ → ℕ → DialOut → Self → Type 0 } = { λ _ _ _ _ _. ⊤ };

    /// Connects to a port of a host. It takes and gives no byte, and counts no fault of a receive or a send.
    fn reach(&mut self, host: &str, port: u16) -> DialOut
        ensures counted { refused self.old ≤ refused self.new }
        ensures place { place self.new ≡ place self.old }
        ensures ready { Self.is_ready self.new ≡ (is_up result || Self.is_ready self.old) }
        ensures answers { AnswersAt (place self.old) host.now port result }
        ensures tries { tries self.old host.now port result self.new }
        ensures failed { OnDialFailed result (Rose (refused self.old) (refused self.new)) }
        ensures receives { Self.receive_faults self.new ≡ Self.receive_faults self.old }
        ensures sends { Self.send_faults self.new ≡ Self.send_faults self.old }
        ensures left { Keeps (Self.left self.old) (Self.left self.new) }
        ensures stays { Stays Self.stands self.old self.new };
}
