//! A text written to its end.
ghost use Rattle.std.specs.Prelude.{◌≤◌};
ghost use Rattle.vx_text.specs.Ends.{sink_shown};
ghost use Rattle.vx_text.specs.Writing.{IsPut};

use vx_io_traits::{Sink, WriteOut};

/// The sink failed.
#[derive(Clone, Copy, Debug)]
pub struct SinkFailed;

/// Writes all of a text.
pub fn put_all<K: Sink>(sink: &mut K, text: &[u8]) -> Result<(), SinkFailed>
    ensures put { IsPut
        (sink_shown K.Sink sink.old) (sink_shown K.Sink sink.new) text.now result }
    ensures counted { K.faults sink.old ≤ K.faults sink.new }
{
    let mut done = 0;
    while done < text.len() {
        match sink.write(&text[done..]) {
            WriteOut::Took(count) => done += count,
            WriteOut::Failed => return Err(SinkFailed),
        }
    }
    Ok(())
}
