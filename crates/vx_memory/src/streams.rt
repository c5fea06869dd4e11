//! Streams of a list.

use std::collections::VecDeque;
use std::marker::Model;
use std::sync::Wait;
use vx_io_traits::{Handed, Link, Streams};

/// The streams of a list, each a connection, a channel and a link.
#[derive(Drop)]
pub struct MemStreams<L> {
    streams: VecDeque<(u32, u32, L)>,
}

impl<L> Model for MemStreams<L> {
    ghost use Rattle.std.specs.Prelude.{ℕ, List};

    // The streams that it has left to hand over.
    ghost Value = { List (ℕ × ℕ × L) };

    ghost view = { λ s. s.streams.items };
}

impl<L> MemStreams<L> {
    ghost use Rattle.std.specs.Prelude.{◌≡◌};

    /// The streams of this list: the connection's number, the channel's and the link of each.
    pub fn new(streams: Vec<(u32, u32, L)>) -> MemStreams<L>
        ensures { result ≡ streams.items }
    {
        MemStreams {
            streams: VecDeque::from(streams),
        }
    }
}

impl<L: Link> Streams for MemStreams<L> {
    ghost use Rattle.std.specs.Prelude.{Some};
    ghost use Rattle.vx_io_traits.specs.Handing.{HandsOn};

    type Peer = L;

    ghost left = { λ s. Some s };

    /// Hands the list over in its order, and then answers `Ended`. It never waits.
    fn next<R: Wait>(&mut self, _rt: &R) -> Handed<L>
        ensures { HandsOn (Some self.old) (Some self.new) result }
    {
        match self.streams.pop_front() {
            Some((conn, chan, link)) => Handed::Stream { conn, chan, link },
            None => Handed::Ended,
        }
    }
}
