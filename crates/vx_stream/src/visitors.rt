//! The links that come to a server.
ghost use Rattle.std.specs.Prelude.{◌≡◌};
ghost use Rattle.vx_stream.specs.Visiting.{answered_after};

use std::marker::Model;
use vx_io_traits::{Link, ReadOut, WriteOut};

/// A link that came to a server, with its number among those of its port. It does what its link does, and counts the calls that
/// were answered: the sends that took all that they were given, since each is given what is left of one reply.
#[derive(Drop)]
pub struct CountingLink<L> {
    link: L,
    number: u64,
    answered: u64,
}

impl<L> Model for CountingLink<L> {
    ghost use Rattle.vx_stream.specs.Visiting.{VisitorState};

    ghost Value = { VisitorState L };

    ghost view = { λ v. record { link = v.link; number = v.number; answered = v.answered } };
}

impl<L> CountingLink<L> {
    /// A link that came as this one of its port, of which no call was answered yet.
    pub fn new(link: L, number: u64) -> CountingLink<L>
        ensures link { result.link ≡ link }
        ensures number { result.number ≡ number }
        ensures answered { result.answered ≡ 0 }
    {
        CountingLink {
            link,
            number,
            answered: 0,
        }
    }

    /// Its number.
    pub fn number(&self) -> u64
        ensures { result ≡ self.now.number }
    {
        self.number
    }

    /// How many of its calls were answered, up to 2^64 - 1.
    pub fn answered(&self) -> u64
        ensures { result ≡ self.now.answered }
    {
        self.answered
    }

    /// The link that came.
    pub fn link(&self) -> &L
        ensures { result.now ≡ self.now.link }
    {
        &self.link
    }
}

impl<L: Link> Link for CountingLink<L> {
    ghost use Rattle.std.specs.Prelude.{◌≡◌};
    ghost use Rattle.vx_stream.specs.Visiting.{answered_after};

    ghost stands = { λ v. L.stands v.link };

    ghost left = { λ v. L.left v.link };

    ghost receive_faults = { λ v. L.receive_faults v.link };

    ghost send_faults = { λ v. L.send_faults v.link };

    ghost peers = { λ v. L.peers v.link };

    ghost is_ready = { λ v. L.is_ready v.link };

    // What its link tells, and that no call is answered by a receive.
    ghost receives = { λ old slice answer received new. L.receives old.link slice answer received new.link × (new.answered ≡ old.answered) };

    // What its link tells, and which send answers a call.
    ghost sends = { λ old bytes answer new. L.sends old.link bytes answer new.link
        × (new.answered ≡ answered_after old.answered bytes answer) };

    fn receive(&mut self, into: &mut [u8]) -> ReadOut {
        self.link.receive(into)
    }

    fn send(&mut self, from: &[u8]) -> WriteOut {
        let sent = self.link.send(from);
        self.count(from, sent);
        sent
    }
}

impl<L> CountingLink<L> {
    /// Counts a call where its reply went whole by this send.
    fn count(&mut self, from: &[u8], sent: WriteOut)
        ensures link { self.new.link ≡ self.old.link }
        ensures number { self.new.number ≡ self.old.number }
        ensures answered { self.new.answered ≡ answered_after self.old.answered from.now sent }
    {
        match sent {
            WriteOut::Took(count) if count == from.len() => {
                self.answered = self.answered.saturating_add(1);
            }
            _ => {}
        }
    }
}
