//! How a server ends.
ghost use Rattle.std.specs.Prelude.{◌≡◌};
ghost use Rattle.vx_startup.specs.Outcome.{server_status_number};

/// How a server ended, as the program's exit status tells it.
#[derive(Clone, Copy, Debug, PartialEq, Eq)]
pub enum ServerStatus {
    /// 0: it served its links.
    Served,
    /// 0: it told its words, or its version.
    Told,
    /// 1: the words are refused.
    Usage,
    /// 2: the bench is too long, or one of its lines is refused.
    BenchFault,
    /// 3: the net failed.
    NetFailed,
    /// 4: a worker was refused.
    WorkerRefused,
    /// 5: memory ran out.
    NoMemory,
    /// 6: the sink failed.
    SinkFailed,
    /// 7: the bench's source failed.
    SourceFailed,
}

impl ServerStatus {
    /// The exit status.
    pub fn number(self) -> u8
        ensures { result ≡ server_status_number self }
    {
        match self {
            ServerStatus::Served | ServerStatus::Told => 0,
            ServerStatus::Usage => 1,
            ServerStatus::BenchFault => 2,
            ServerStatus::NetFailed => 3,
            ServerStatus::WorkerRefused => 4,
            ServerStatus::NoMemory => 5,
            ServerStatus::SinkFailed => 6,
            ServerStatus::SourceFailed => 7,
        }
    }
}
