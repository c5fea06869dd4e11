ghost use Rattle.std.specs.Prelude.{◌≡◌};
ghost use Rattle.vx_calls.specs.ErrorCode.{error_number};

/// What a reply's error word says (VXI-11, Device_ErrorCode). Its number is what stands in the reply.
#[derive(Clone, Copy, Debug, PartialEq, Eq)]
pub enum ErrorCode {
    /// 0: no error.
    Ok,
    /// 1: syntax error in the device text.
    Syntax,
    /// 3: device not accessible.
    NotAccessible,
    /// 4: invalid link identifier.
    InvalidLink,
    /// 5: parameter error.
    Parameter,
    /// 6: channel not established.
    NoChannel,
    /// 8: operation not supported.
    NotSupported,
    /// 9: out of resources.
    NoResources,
    /// 11: device locked by another link.
    Locked,
    /// 12: no lock held by this link.
    NotHeld,
    /// 15: I/O timeout.
    Timeout,
    /// 17: I/O error.
    BusFault,
    /// 21: invalid address.
    InvalidAddress,
    /// 23: abort.
    Abort,
    /// 29: channel already established.
    ChannelUp,
}

impl ErrorCode {
    /// The number that stands for this error in a reply.
    pub fn number(self) -> u32
        ensures { result ≡ error_number self }
    {
        match self {
            ErrorCode::Ok => 0,
            ErrorCode::Syntax => 1,
            ErrorCode::NotAccessible => 3,
            ErrorCode::InvalidLink => 4,
            ErrorCode::Parameter => 5,
            ErrorCode::NoChannel => 6,
            ErrorCode::NotSupported => 8,
            ErrorCode::NoResources => 9,
            ErrorCode::Locked => 11,
            ErrorCode::NotHeld => 12,
            ErrorCode::Timeout => 15,
            ErrorCode::BusFault => 17,
            ErrorCode::InvalidAddress => 21,
            ErrorCode::Abort => 23,
            ErrorCode::ChannelUp => 29,
        }
    }
}
