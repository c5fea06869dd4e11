//! The log of a server on standard error.
ghost use Rattle.std.specs.Prelude.{◌≡◌, None};

use std::io::Stderr;
use std::marker::Model;
use vx_io::{Sink, StdSink, WriteOut};

/// A log that goes to standard error, or nowhere. It is seen as its count of writes that failed.
#[derive(Drop)]
pub struct ErrorLog {
    sink: StdSink<Stderr>,
    is_on: bool,
}

impl Model for ErrorLog {
    ghost use Rattle.std.specs.Prelude.{ℕ};

    ghost Value = { ℕ };

    ghost view = { λ s. s.sink };
}

impl ErrorLog {
    /// A log that goes to this standard error where it is on, and nowhere where it isn't.
    pub fn new(stderr: Stderr, is_on: bool) -> ErrorLog
        ensures { result ≡ 0 }
    {
        ErrorLog {
            sink: StdSink::new(stderr),
            is_on,
        }
    }
}

impl Sink for ErrorLog {
    ghost taken = { λ _. None };

    ghost faults = { λ s. s };

    /// Writes to standard error. A log that isn't on takes all, and writes nothing.
    fn write(&mut self, from: &[u8]) -> WriteOut {
        if self.is_on {
            self.sink.write(from)
        } else {
            WriteOut::Took(from.len())
        }
    }
}
