//! How a run of a guard ends.
ghost use Rattle.std.specs.Prelude.{◌≡◌};
ghost use Rattle.vx_guard.specs.Outcome.{guard_status_number};

/// How a run ended, as the program's exit status tells it.
#[derive(Clone, Copy)]
pub(crate) enum GuardStatus {
    /// 0: as many links were served as were asked for, or no more come.
    Served,
    /// 1: the words have another form.
    Usage,
    /// 2: the policy was refused.
    PolicyFault,
    /// 3: the port couldn't be opened, or the door failed.
    NetFailed,
    /// 5: there was no memory.
    NoMemory,
    /// 6: the sink failed.
    SinkFailed,
    /// 7: the source of the rules failed.
    SourceFailed,
}

impl GuardStatus {
    /// The exit status.
    pub(crate) fn number(self) -> u8
        ensures { result ≡ guard_status_number self }
    {
        match self {
            GuardStatus::Served => 0,
            GuardStatus::Usage => 1,
            GuardStatus::PolicyFault => 2,
            GuardStatus::NetFailed => 3,
            GuardStatus::NoMemory => 5,
            GuardStatus::SinkFailed => 6,
            GuardStatus::SourceFailed => 7,
        }
    }
}
