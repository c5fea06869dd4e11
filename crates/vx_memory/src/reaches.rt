//! A reach over memory, which answers `Up` at one host and port.

use std::marker::Model;
use vx_io_traits::{DialOut, Link, Reach, ReadOut, WriteOut};

/// A reach that answers `Up` at one host and port, and is then the link that it was made with. A receive and a send before
/// that fail, and count as faults of it.
#[derive(Drop)]
pub struct MemReach<L> {
    link: L,
    host: String,
    port: u16,
    is_up: bool,
    tried: u64,
    refused: u64,
    early_receives: u64,
    early_sends: u64,
}

impl<L> Model for MemReach<L> {
    ghost use Rattle.std.specs.Prelude.{string_bytes};
    ghost use Rattle.vx_memory.specs.ReachState.{ReachState};

    ghost Value = { ReachState L };

    ghost view = { λ s. record {
      link = s.link;
      host = string_bytes s.host;
      port = s.port;
      is_up = s.is_up;
      tried = s.tried;
      refused = s.refused;
      early_receives = s.early_receives;
      early_sends = s.early_sends;
    } };
}

impl<L> MemReach<L> {
    ghost use Rattle.std.specs.Prelude.{◌≡◌, false, string_bytes};

    /// A reach that answers `Up` at this host and port alone, and is `link` from then on.
    pub fn new(link: L, host: String, port: u16) -> MemReach<L>
        ensures link { result.link ≡ link }
        ensures host { result.host ≡ string_bytes host }
        ensures port { result.port ≡ port }
        ensures is_up { result.is_up ≡ false }
        ensures tried { result.tried ≡ 0 }
        ensures refused { result.refused ≡ 0 }
        ensures early_receives { result.early_receives ≡ 0 }
        ensures early_sends { result.early_sends ≡ 0 }
    {
        MemReach {
            link,
            host,
            port,
            is_up: false,
            tried: 0,
            refused: 0,
            early_receives: 0,
            early_sends: 0,
        }
    }

    /// How many reaches there were: a count that stays at its greatest value.
    pub fn tried(&self) -> u64
        ensures { result ≡ self.now.tried }
    {
        self.tried
    }

    /// The link that it was made with, with what it took and gave since.
    pub fn link(&self) -> &L
        ensures { result.now ≡ self.now.link }
    {
        &self.link
    }

    /// The same, taken out of the reach.
    pub fn into_link(self) -> L
        ensures { result ≡ self.link }
    {
        self.link
    }
}

impl<L: Link> Link for MemReach<L> {
    ghost use Rattle.std.specs.Prelude.{◌≡◌, ◌<◌, ◌≤◌, true, false, length, take};
    ghost use Rattle.std.specs.Io.KnownBytes.{Consumes, IsAtEnd, Keeps};
    ghost use Rattle.vx_io_traits.specs.Faults.{Rose};
    ghost use Rattle.vx_io_traits.specs.Outs.{IfGot, IfTook, OnEnd, OnReadFailed, OnWriteFailed};
    ghost use Rattle.vx_io_traits.specs.Stands.{Gives, Takes, Stays};
    ghost use Rattle.vx_memory.specs.ReachState.{with_early, IsEarlyReceive, IsEarlySend, IsLinkCall};

    ghost stands = { λ s. L.stands s.link };

    ghost left = { λ s. L.left s.link };

    ghost receive_faults = { λ s. with_early s.early_receives (L.receive_faults s.link) };

    ghost send_faults = { λ s. with_early s.early_sends (L.send_faults s.link) };

    ghost peers = { λ s. L.peers s.link };

    ghost is_ready = { λ s. s.is_up };

    // Once it is up, what the link tells of its own call.
    ghost receives = { λ old slice answer received new. old.is_up ≡ true → L.receives old.link slice answer received new.link };

    ghost sends = { λ old bytes answer new. old.is_up ≡ true → L.sends old.link bytes answer new.link };

    /// Receives from the link, or fails before the first reach with `Up`.
    fn receive(&mut self, into: &mut [u8]) -> ReadOut
        requires { 0 < length into.old }

        // What it answers before the first reach with `Up`, and whose call it is later.
        ensures early { self.old.is_up ≡ false → IsEarlyReceive self.old self.new result × (into.new ≡ into.old) }
        ensures later { self.old.is_up ≡ true → IsLinkCall self.old self.new
            × L.receives self.old.link into.old result into.new self.new.link }

        // What every link says.
        ensures counted { with_early self.old.early_receives (L.receive_faults self.old.link)
            ≤ with_early self.new.early_receives (L.receive_faults self.new.link) }
        ensures apart { with_early self.new.early_sends (L.send_faults self.new.link)
            ≡ with_early self.old.early_sends (L.send_faults self.old.link) }
        ensures peers { Keeps (L.peers self.old.link) (L.peers self.new.link) }
        ensures got { IfGot result (λ n. (0 < n) × (n ≤ length into.new)
            × Consumes (L.left self.old.link) (L.left self.new.link) (take n into.new)
            × Gives L.stands self.old.link self.new.link (take n into.new)) }
        ensures end { OnEnd result (IsAtEnd (L.left self.old.link)
            × Keeps (L.left self.old.link) (L.left self.new.link) × Stays L.stands self.old.link self.new.link) }
        ensures failed { OnReadFailed result (Rose (with_early self.old.early_receives (L.receive_faults self.old.link))
            (with_early self.new.early_receives (L.receive_faults self.new.link))
            × Keeps (L.left self.old.link) (L.left self.new.link) × Stays L.stands self.old.link self.new.link) }
    {
        if !self.is_up {
            self.early_receives = self.early_receives.saturating_add(1);
            return ReadOut::Failed;
        }
        self.link.receive(into)
    }

    /// Sends to the link, or fails before the first reach with `Up`.
    fn send(&mut self, from: &[u8]) -> WriteOut
        requires { 0 < length from.now }

        // What it answers before the first reach with `Up`, and whose call it is later.
        ensures early { self.old.is_up ≡ false → IsEarlySend self.old self.new result }
        ensures later { self.old.is_up ≡ true → IsLinkCall self.old self.new × L.sends self.old.link from.now result self.new.link }

        // What every link says.
        ensures counted { with_early self.old.early_sends (L.send_faults self.old.link)
            ≤ with_early self.new.early_sends (L.send_faults self.new.link) }
        ensures apart { with_early self.new.early_receives (L.receive_faults self.new.link)
            ≡ with_early self.old.early_receives (L.receive_faults self.old.link) }
        ensures peers { Keeps (L.peers self.old.link) (L.peers self.new.link) }
        ensures left { Keeps (L.left self.old.link) (L.left self.new.link) }
        ensures took { IfTook result (λ n. (0 < n) × (n ≤ length from.now)
            × Takes L.stands self.old.link self.new.link (take n from.now)) }
        ensures failed { OnWriteFailed result (Rose (with_early self.old.early_sends (L.send_faults self.old.link))
            (with_early self.new.early_sends (L.send_faults self.new.link))
            × Stays L.stands self.old.link self.new.link) }
    {
        if !self.is_up {
            self.early_sends = self.early_sends.saturating_add(1);
            return WriteOut::Failed;
        }
        self.link.send(from)
    }
}

impl<L: Link> Reach for MemReach<L> {
    ghost use Rattle.std.specs.Prelude.{◌≡◌, ◌≤◌};
    ghost use Rattle.std.specs.Io.KnownBytes.{Keeps};
    ghost use Rattle.vx_io_traits.specs.Faults.{Rose};
    ghost use Rattle.vx_io_traits.specs.Rung.{OnDialFailed};
    ghost use Rattle.vx_io_traits.specs.Stands.{Stays};
    ghost use Rattle.vx_io_traits.specs.Reached.{AnswersAt};
    ghost use Rattle.vx_memory.specs.ReachState.{memory_place_of, with_early, after_reach, IsReach};

    ghost refused = { λ s. s.refused };

    ghost place = { memory_place_of };

    ghost tries = { λ old host port answer new. IsReach old answer new };

    /// Answers `Up` exactly where the words are its own; a host is compared byte by byte.
    fn reach(&mut self, host: &str, port: u16) -> DialOut
        // What the reach is afterwards.
        ensures after { IsReach self.old result self.new }

        // What every reach says.
        ensures counted { self.old.refused ≤ self.new.refused }
        ensures place { memory_place_of self.new ≡ memory_place_of self.old }
        ensures answers { AnswersAt (memory_place_of self.old) host.now port result }
        ensures failed { OnDialFailed result (Rose self.old.refused self.new.refused) }
        ensures receives { with_early self.new.early_receives (L.receive_faults self.new.link)
            ≡ with_early self.old.early_receives (L.receive_faults self.old.link) }
        ensures sends { with_early self.new.early_sends (L.send_faults self.new.link)
            ≡ with_early self.old.early_sends (L.send_faults self.old.link) }
        ensures left { Keeps (L.left self.old.link) (L.left self.new.link) }
        ensures stays { Stays L.stands self.old.link self.new.link }
    {
        self.tried = self.tried.saturating_add(1);
        if self.host.as_str() == host && self.port == port {
            self.is_up = true;
            return DialOut::Up;
        }
        self.refused = self.refused.saturating_add(1);
        DialOut::Failed
    }
}
