//! Links: streams of bytes both ways, as a connection over TCP.

ghost use Rattle.std.specs.Prelude.{◌≡◌, ℕ, ◌<◌, ◌≤◌, ⊤, Bool, true, false, List, Option, None, length, take};
ghost use Rattle.std.specs.Io.KnownBytes.{Consumes, IsAtEnd, Keeps};
ghost use Rattle.vx_io_traits.specs.Faults.{Rose};
ghost use Rattle.vx_io_traits.specs.Outs.{IfGot, IfTook, OnEnd, OnReadFailed, OnWriteFailed};
ghost use Rattle.vx_io_traits.specs.Stands.{Gives, Takes, Stays};
ghost use Rattle.vx_io_traits.specs.declared.ReadOut.{ReadOut};
ghost use Rattle.vx_io_traits.specs.declared.ReadOut.TheVariants.{Failed as ReadFailed};
ghost use Rattle.vx_io_traits.specs.declared.WriteOut.{WriteOut};
ghost use Rattle.vx_io_traits.specs.declared.WriteOut.TheVariants.{Failed as WriteFailed};

use super::{ReadOut, WriteOut};

/// A stream of bytes that come in and a stream of bytes that go out.
pub trait Link {
    // It stands for these bytes taken and these bytes given, each from its beginning on, in order.
    ghost stands: { Self → List ℕ → List ℕ → Type 0 };

    // What it has left to give, where it can tell it.
    ghost left: { Self → Option (List ℕ) };

    // How many receives failed, and how many sends: `u64`s that stay at their greatest value.
    ghost receive_faults: { Self → ℕ };

    ghost send_faults: { Self → ℕ };

    // The IPv4 addresses of the peers that it has had, in order, where it can tell them.
    ghost peers: { Self → Option (List ℕ) } = { λ _. None };

    // Whether its calls can move bytes: until then each fails.
    ghost is_ready: { Self → Bool } = { λ _. true };

    // What one receive does, where the link tells it: the link and the slice before, the answer, the slice and the link
    // after. And what one send does.
    ghost receives: { Self → List ℕ → ReadOut → List ℕ → Self → Type 0 } = { λ _ _ _ _ _. ⊤ };

    ghost sends: { Self → List ℕ → WriteOut → Self → Type 0 } = { λ _ _ _ _. ⊤ };

    /// Receives the next bytes into the front of `into`, as many as there are at hand.
    fn receive(&mut self, into: &mut [u8]) -> ReadOut
        requires { 0 < length into.old }
        ensures counted { receive_faults self.old ≤ receive_faults self.new }
        ensures apart { send_faults self.new ≡ send_faults self.old }
        ensures ready { is_ready self.new ≡ is_ready self.old }
        ensures early { is_ready self.old ≡ false → result ≡ ReadFailed }
        ensures receives { receives self.old into.old result into.new self.new }
        ensures peers { Keeps (peers self.old) (peers self.new) }
        ensures got { IfGot result (λ n. (0 < n) × (n ≤ length into.new)
            × Consumes (left self.old) (left self.new) (take n into.new)
            × Gives stands self.old self.new (take n into.new)) }
        ensures end { OnEnd result (IsAtEnd (left self.old) × Keeps (left self.old) (left self.new)
            × Stays stands self.old self.new) }
        ensures failed { OnReadFailed result (Rose (receive_faults self.old) (receive_faults self.new)
            × Keeps (left self.old) (left self.new) × Stays stands self.old self.new) };

    /// Sends a front of `from`, and answers how long that front is.
    fn send(&mut self, from: &[u8]) -> WriteOut
        requires { 0 < length from.now }
        ensures counted { send_faults self.old ≤ send_faults self.new }
        ensures apart { receive_faults self.new ≡ receive_faults self.old }
        ensures ready { is_ready self.new ≡ is_ready self.old }
        ensures early { is_ready self.old ≡ false → result ≡ WriteFailed }
        ensures sends { sends self.old from.now result self.new }
        ensures peers { Keeps (peers self.old) (peers self.new) }
        ensures left { Keeps (left self.old) (left self.new) }
        ensures took { IfTook result (λ n. (0 < n) × (n ≤ length from.now)
            × Takes stands self.old self.new (take n from.now)) }
        ensures failed { OnWriteFailed result (Rose (send_faults self.old) (send_faults self.new)
            × Stays stands self.old self.new) };
}
