//! What a server has of the outside world for its workers.
use vx_io_traits::{Clock, Dial, Pause, Streams};

/// Makes what workers need: each gets clocks, pauses, dials and streams of its own.
pub trait Tools {
    type C: Clock + Drop;

    type P: Pause + Drop;

    type D: Dial + Drop;

    type S: Streams + Drop;

    fn clock(&mut self) -> Self::C;

    /// A pause of a session, which waits for calls of others.
    fn pause(&mut self) -> Self::P;

    /// A pause between two looks at what comes by the hour, and not by a call: each is as long as the others.
    fn whole_pause(&mut self) -> Self::P {
        self.pause()
    }

    fn dial(&mut self) -> Self::D;

    /// The streams that the dials hand on.
    fn streams(&mut self) -> Self::S;
}
