//! The link.

ghost use Rattle.std.specs.Prelude.{◌≡◌, Some, None, IfOk, IfErr, IfSome};
ghost use Rattle.vx_loop.specs.Gateway.{gateway_of};
ghost use Rattle.vx_loop.specs.LoopState.{ServedState, IsUnconnected, IsBeginning, OnlyComesUp};
ghost use Rattle.vx_loop.specs.Standing.{IsLoopKept};

use crate::served::Serving;
use std::alloc::Global;
use std::marker::Model;
use vx_core::Core;
use vx_inst::Instrument;
use vx_io_traits::{Link, ReadOut, WriteOut};
use vx_sim::SimBus;

/// There was no memory for a link; the gateway comes back.
#[derive(Drop)]
pub struct LoopRefused<I: Instrument> {
    pub core: Core<SimBus<I>>,
}

/// A link to connection 1 of a gateway over a simulated bus. A record that comes to its end is served before the send
/// returns. A receive polls a call that waits, with a moment one greater each time, until it is answered; a dial that the
/// call asks for fails. A poll makes at most 256 transfers, so a write of 64 KiB ages by 256 milliseconds.
///
/// A receive fails where a call waits at the last moment of a `u64`. A send fails where it ends a record that is no call
/// or is too long, and the connection ends. It ends too where bytes come before the whole reply to the last call was
/// received, since no room is made for a second one. Once it has ended, sends take their bytes and let them go, and
/// receives give what is left of a reply and tell the end.
#[derive(Drop)]
pub struct LoopLink<I: Instrument> {
    served: Option<Serving<I>>,
    receive_faults: u64,
    send_faults: u64,
}

impl<I: Instrument> Model for LoopLink<I> {
    ghost use Rattle.std.specs.Prelude.{IfSome};
    ghost use Rattle.vx_loop.specs.LoopState.{LoopState};
    ghost use Rattle.vx_loop.specs.Standing.{IsLoopKept};

    ghost Value = { LoopState };

    ghost view = { λ l. record {
      served = l.served;
      receive_faults = l.receive_faults;
      send_faults = l.send_faults;
    } };

    ghost invariant = { λ l. IfSome l.served IsLoopKept };
}

impl<I: Instrument> LoopLink<I> {
    /// A link to a gateway on which no connection was ever made. All memory is taken here.
    pub fn new(alloc: Global, core: Core<SimBus<I>>) -> Result<LoopLink<I>, LoopRefused<I>>
        requires unconnected { IsUnconnected core.interleaved }
        ensures made { IfOk result (λ l. (s : ServedState) × (l ≡ record { served = Some s; receive_faults = 0; send_faults = 0 }) × IsBeginning s
            × OnlyComesUp (gateway_of core) (gateway_of s.core)) }
        ensures refused { IfErr result (λ r. r.core ≡ core) }
    {
        match Serving::new(alloc, core) {
            Ok(served) => Ok(LoopLink {
                served: Some(served),
                receive_faults: 0,
                send_faults: 0,
            }),
            Err(core) => Err(LoopRefused { core }),
        }
    }

    /// What holds of every link: its gateway is kept. It does nothing when it runs.
    pub(crate) fn is_kept(&self)
        ensures { IfSome self.now.served IsLoopKept }
    {
        let _is_there = self.served.is_some();
    }

    /// A link without a gateway, which stands in the place of one that is looked at apart.
    pub(crate) fn vacant() -> LoopLink<I>
        ensures { result ≡ record { served = None; receive_faults = 0; send_faults = 0 } }
    {
        LoopLink {
            served: None,
            receive_faults: 0,
            send_faults: 0,
        }
    }

    /// Lets a link go that has no gateway.
    pub(crate) fn let_go(self)
        requires { self.served ≡ None }
    {
        match self.served {
            None => {}
            Some(_) => unreachable!(),
        }
    }
}

impl<I: Instrument> Link for LoopLink<I> {
    ghost use Rattle.std.specs.Prelude.{◌≡◌, ◌<◌, ◌≤◌, true, [], None, length, take};
    ghost use Rattle.std.specs.Io.KnownBytes.{Consumes, IsAtEnd, Keeps};
    ghost use Rattle.vx_io_traits.specs.Faults.{Rose};
    ghost use Rattle.vx_io_traits.specs.Outs.{IfGot, IfTook, OnEnd, OnReadFailed, OnWriteFailed};
    ghost use Rattle.vx_io_traits.specs.Stands.{Gives, Takes, Stays};
    ghost use Rattle.std.specs.Prelude.{IfSome};
    ghost use Rattle.vx_loop.specs.Standing.{LoopStandsFor, LoopGoesOn, IsUnanswered, IsDrained, IsLoopRefused, LivesAlike, LivesOn, HasEnded, EndsEarly};
    ghost use Rattle.vx_loop.specs.Gateway.{gateway_of};
    ghost use Rattle.vx_loop.specs.Serving.{lives};
    ghost use Rattle.vx_loop.specs.Telling.{IsReceive, IsSend};

    ghost stands = { LoopStandsFor };

    ghost left = { λ _. None };

    ghost receive_faults = { λ l. l.receive_faults };

    ghost send_faults = { λ l. l.send_faults };

    ghost receives = { IsReceive };

    ghost sends = { IsSend };

    /// Gives the bytes that are left of the last reply, once there is one.
    fn receive(&mut self, into: &mut [u8]) -> ReadOut
        requires { 0 < length into.old }

        // What it did, whatever the link stood for before.
        ensures went { IfGot result (λ n. LoopGoesOn self.old self.new [] (take n into.new)) }
        ensures stayed { OnEnd result (LoopGoesOn self.old self.new [] []) }
        ensures broke { OnReadFailed result (LoopGoesOn self.old self.new [] []) }

        // It fails only where the last moment comes before the answer, and ends only where nothing is left to give.
        ensures last { OnReadFailed result (IfSome self.new.served IsUnanswered) }
        ensures drained { OnEnd result (IfSome self.new.served IsDrained) }

        // It ends no connection.
        ensures lives { LivesAlike self.old.served self.new.served }

        // What every link says.
        ensures counted { self.old.receive_faults ≤ self.new.receive_faults }
        ensures apart { self.new.send_faults ≡ self.old.send_faults }
        ensures receives { IsReceive self.old into.old result into.new self.new }
        ensures peers { Keeps None None }
        ensures got { IfGot result (λ n. (0 < n) × (n ≤ length into.new) × Consumes None None (take n into.new)
            × Gives LoopStandsFor self.old self.new (take n into.new)) }
        ensures end { OnEnd result (IsAtEnd None × Keeps None None × Stays LoopStandsFor self.old self.new) }
        ensures failed { OnReadFailed result (Rose self.old.receive_faults self.new.receive_faults
            × Keeps None None × Stays LoopStandsFor self.old self.new) }
    {
        let Some(served) = &mut self.served else {
            return ReadOut::End;
        };
        if !served.wait() {
            self.receive_faults = self.receive_faults.saturating_add(1);
            return ReadOut::Failed;
        }
        match served.give(into) {
            0 => ReadOut::End,
            count => ReadOut::Got(count),
        }
    }

    /// Takes bytes up to the end of a record.
    fn send(&mut self, from: &[u8]) -> WriteOut
        requires { 0 < length from.now }

        // What it did, whatever the link stood for before.
        ensures went { IfTook result (λ n. LoopGoesOn self.old self.new (take n from.now) []) }
        ensures broke { OnWriteFailed result (LoopGoesOn self.old self.new [] []) }

        // It fails only where the connection lives and the bytes end a record that is no call, or is too long, and the connection
        // has ended then. Where no call waits and nothing of a reply is left besides, it fails in each such case, and the connection
        // lives on in every other. Where a call waits or something is left the connection ends, and an ended one stays so.
        ensures cause { OnWriteFailed result (IfSome self.old.served (λ s. IsLoopRefused s from.now)) }
        ensures alive { OnWriteFailed result (IfSome self.old.served (λ s. lives (gateway_of s.core) ≡ true)) }
        ensures refused { IfTook result (λ _. LivesOn self.old.served self.new.served from.now) }
        ensures ended { OnWriteFailed result (HasEnded self.new.served) }
        ensures early { IfTook result (λ _. EndsEarly self.old.served self.new.served) }

        // What every link says.
        ensures counted { self.old.send_faults ≤ self.new.send_faults }
        ensures apart { self.new.receive_faults ≡ self.old.receive_faults }
        ensures sends { IsSend self.old from.now result self.new }
        ensures peers { Keeps None None }
        ensures left { Keeps None None }
        ensures took { IfTook result (λ n. (0 < n) × (n ≤ length from.now) × Takes LoopStandsFor self.old self.new (take n from.now)) }
        ensures failed { OnWriteFailed result (Rose self.old.send_faults self.new.send_faults × Stays LoopStandsFor self.old self.new) }
    {
        let Some(served) = &mut self.served else {
            return WriteOut::Took(from.len());
        };
        match served.accept(from) {
            Some(count) => WriteOut::Took(count),
            None => {
                self.send_faults = self.send_faults.saturating_add(1);
                WriteOut::Failed
            }
        }
    }
}
