//! A link that is looked at from a start on. These types are for the proofs: a call over such a link tells what it did from
//! the link as it was before to the link as it is afterwards.

ghost use Rattle.std.specs.Prelude.{None};
ghost use Rattle.vx_loop.specs.LoopState.{LoopState};

use crate::link::LoopLink;
use std::marker::{Brand, Model, PhantomData};
use vx_inst::Instrument;
use vx_io_traits::{Link, ReadOut, WriteOut};

// The link as it is at the start. A call at `Brand` picks it from its arguments.
pub(crate) trait Mark {
    ghost start: { LoopState };
}

impl Mark for Brand {
    ghost start = { record { served = None; receive_faults = 0; send_faults = 0 } };
}

/// A link, and its start.
#[derive(Drop)]
pub(crate) struct Marked<I: Instrument, M> {
    link: LoopLink<I>,
    start: PhantomData<M>,
}

impl<I: Instrument, M> Model for Marked<I, M> {
    ghost use Rattle.vx_loop.specs.LoopState.{LoopState};

    ghost Value = { LoopState };

    ghost view = { λ m. m.link };
}

impl<I: Instrument, M> Marked<I, M> {
    ghost use Rattle.std.specs.Prelude.{◌≡◌};

    pub(crate) fn new(link: LoopLink<I>) -> Marked<I, M>
        ensures { result ≡ link }
    {
        Marked {
            link,
            start: PhantomData,
        }
    }

    pub(crate) fn into_link(self) -> LoopLink<I>
        ensures { result ≡ self }
    {
        self.link
    }
}

impl<I: Instrument, M: Mark> Link for Marked<I, M> {
    ghost use Rattle.std.specs.Prelude.{◌≡◌, ◌<◌, ◌≤◌, None, length, take};
    ghost use Rattle.std.specs.Io.KnownBytes.{Consumes, IsAtEnd, Keeps};
    ghost use Rattle.vx_io_traits.specs.Faults.{Rose};
    ghost use Rattle.vx_io_traits.specs.Outs.{IfGot, IfTook, OnEnd, OnReadFailed, OnWriteFailed};
    ghost use Rattle.vx_io_traits.specs.Stands.{Gives, Takes, Stays};
    ghost use Rattle.vx_loop.specs.Standing.{MarkedStands};
    ghost use Rattle.vx_loop.specs.Telling.{IsReceive, IsSend};

    ghost stands = { MarkedStands M.start };

    ghost left = { λ _. None };

    ghost receive_faults = { λ l. l.receive_faults };

    ghost send_faults = { λ l. l.send_faults };

    ghost receives = { IsReceive };

    ghost sends = { IsSend };

    fn receive(&mut self, into: &mut [u8]) -> ReadOut {
        self.link.receive(into)
    }

    fn send(&mut self, from: &[u8]) -> WriteOut {
        self.link.send(from)
    }
}
