//! What command bytes mean.
ghost use Rattle.std.specs.Prelude.{◌≡◌};
ghost use Rattle.vx_488.specs.Command.{command_of, command_of_code, addressed_or_universal};

/// What a command byte means (IEEE 488.1, 2.13 and its table of multiline interface messages).
#[derive(Clone, Copy, PartialEq, Eq)]
pub enum Command {
    /// GTL, 01: the listeners go to local control.
    GoToLocal,
    /// SDC, 04: the listeners are cleared.
    SelectedClear,
    /// GET, 08: the listeners are triggered.
    Trigger,
    /// TCT, 09: the talker takes control.
    TakeControl,
    /// LLO, 11: every device's local control is locked out.
    LocalLockout,
    /// DCL, 14: every device is cleared.
    DeviceClear,
    /// SPE, 18: serial poll mode goes on.
    PollEnable,
    /// SPD, 19: serial poll mode goes off.
    PollDisable,
    /// MLA, 20 to 3E: the device at this primary address listens.
    Listen(u8),
    /// UNL, 3F: nobody listens any more.
    Unlisten,
    /// MTA, 40 to 5E: the device at this primary address talks.
    Talk(u8),
    /// UNT, 5F: nobody talks any more.
    Untalk,
    /// MSA, 60 to 7E: this is the secondary address of the device that was just made to talk or listen.
    Secondary(u8),
    /// Another command of the primary group, below 20, of which no rule here speaks.
    OtherPrimary,
    /// 7F, which means nothing.
    NoMeaning,
}

/// What a command byte means: its low seven bits decide.
pub fn command_of(b: u8) -> Command
    ensures { result ≡ command_of b }
{
    let code = b & 0x7F;
    match code {
        0x00..=0x1F => addressed_or_universal(code),
        0x20..=0x3E => Command::Listen(code - 0x20),
        0x3F => Command::Unlisten,
        0x40..=0x5E => Command::Talk(code - 0x40),
        0x5F => Command::Untalk,
        0x60..=0x7E => Command::Secondary(code - 0x60),
        _ => Command::NoMeaning,
    }
}

/// What a code of the addressed and universal commands means.
fn addressed_or_universal(code: u8) -> Command
    ensures { result ≡ addressed_or_universal code }
{
    match code {
        0x01 => Command::GoToLocal,
        0x04 => Command::SelectedClear,
        0x08 => Command::Trigger,
        0x09 => Command::TakeControl,
        0x11 => Command::LocalLockout,
        0x14 => Command::DeviceClear,
        0x18 => Command::PollEnable,
        0x19 => Command::PollDisable,
        _ => Command::OtherPrimary,
    }
}
