//! Streams that were dialed and are handed over to the worker that writes to them.

ghost use Rattle.std.specs.Prelude.{ℕ, List, Option, None};
ghost use Rattle.vx_io_traits.specs.Handing.{HandsOn};

use super::links::Link;
use super::listeners::Handed;
use std::sync::Wait;

/// Streams that are handed over, one after the other. It has no faults.
pub trait Streams {
    type Peer: Link;

    // The streams that it has left to hand over, in order, each as its connection, its channel and its link, where it can
    // tell them.
    ghost left: { Self → Option (List (ℕ × ℕ × Self.Peer)) } = { λ _. None };

    /// Waits for the next stream that was handed over.
    fn next<R: Wait>(&mut self, rt: &R) -> Handed<Self::Peer>
        ensures { HandsOn (left self.old) (left self.new) result };
}
