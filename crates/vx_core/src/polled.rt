use vx_calls::ReplyRef;
use vx_flow::Why;

/// What a poll gives.
#[derive(Clone, Copy)]
pub enum Polled<'a> {
    /// The call's reply, which the core lends until its next call.
    Answer(ReplyRef<'a>),
    /// The call isn't answered yet.
    NotYet(Why),
    /// A connection to this IPv4 address and TCP port is asked for.
    Dial { host: u32, port: u16 },
}
