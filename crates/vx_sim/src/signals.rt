ghost use Rattle.std.specs.Prelude.{◌≡◌};
ghost use Rattle.vx_sim.specs.Shown.{moved};

use vx_488::{Addr, Transfer};

/// What an instrument is told, and answers nothing to.
#[derive(Clone, Copy)]
pub enum Signal {
    /// A device clear (IEEE 488.1, 2.10).
    Clear,
    /// A trigger (IEEE 488.1, 2.11).
    Trigger,
    /// To go to local control (IEEE 488.1, 2.8).
    Local,
    /// A moment, in milliseconds.
    Moment(u64),
    /// What its status byte is from here on.
    Status(u8),
}

/// Which instruments of a bench are meant.
#[derive(Clone, Copy)]
pub(crate) enum Whom {
    Listeners,
    Everyone,
    At(Addr),
}

/// What is asked of the instruments of a bench.
#[derive(Clone, Copy)]
pub(crate) enum Question {
    /// Whether it is a listener.
    Listens,
    /// Whether it is a listener that can't take a byte.
    Refuses,
    /// Whether it is the talker.
    Talks,
    /// Whether it asks for service.
    Asks,
    /// Whether it stands at this address.
    Stands(Addr),
}

/// Which way data bytes go.
#[derive(Clone, Copy)]
pub(crate) enum Way {
    /// From the gateway to the listeners.
    Put,
    /// From the talker to the gateway.
    Got,
}

impl Way {
    /// A data byte that went so, as a transfer.
    pub(crate) fn transfer(self, b: u8, end: bool) -> Transfer
        ensures { result ≡ moved self b end }
    {
        match self {
            Way::Put => Transfer::Put { b, end },
            Way::Got => Transfer::Got { b, end },
        }
    }
}
