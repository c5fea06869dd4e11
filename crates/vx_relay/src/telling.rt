//! The end of a server that doesn't have its box's bus.
ghost use Rattle.std.specs.Prelude.{◌≡◌, ◌≤◌, ◌+◌, ◌++◌, length, take};
ghost use Rattle.vx_text.specs.Ends.{sink_shown};
ghost use Rattle.vx_relay.specs.Lines.{error_text, unopened_line, unopened_text};
ghost use Rattle.vx_relay.specs.Readying.{EndsByOpening};

use vx_client::ClientErr;
use vx_io_traits::Sink;
use vx_startup::{ServerStatus, put_last};
use vx_text::{put_number, put_text};
use vx_upstream::OpenErr;

/// Room for the longest line, in bytes.
const LINE_ROOM: usize = 64;

/// Writes at a place the number of the error by which a box answered, and answers the place behind it.
fn put_error(out: &mut [u8], at: usize, error: ClientErr) -> usize
    requires { at + 24 ≤ length out.old }
    ensures text { take result out.new ≡ take at out.old ++ error_text error }
    ensures end { result ≤ at + 24 }
    ensures len { length out.new ≡ length out.old }
{
    match error {
        ClientErr::Device(number) => {
            let at = put_text(out, at, b" ");
            put_number(out, at, u64::from(number))
        }
        _ => at,
    }
}

/// Writes at a place for which step a box's bus isn't had, and answers the place behind it.
fn put_unopened(out: &mut [u8], at: usize, error: &OpenErr) -> usize
    requires { at + 40 ≤ length out.old }
    ensures text { take result out.new ≡ take at out.old ++ unopened_text error.now }
    ensures end { result ≤ at + 40 }
    ensures len { length out.new ≡ length out.old }
{
    match error {
        OpenErr::NoMemory => put_text(out, at, b"memory"),
        OpenErr::NoReach => put_text(out, at, b"reach"),
        OpenErr::NoLink(error) => {
            let at = put_text(out, at, b"link");
            put_error(out, at, *error)
        }
        OpenErr::NoClear(error) => {
            let at = put_text(out, at, b"clear");
            put_error(out, at, *error)
        }
        OpenErr::NoRemoteOff(error) => {
            let at = put_text(out, at, b"remote");
            put_error(out, at, *error)
        }
        OpenErr::NoAddress(error) => {
            let at = put_text(out, at, b"address");
            put_error(out, at, *error)
        }
    }
}

/// The line of a box whose bus isn't had.
fn unopened_line<'a>(error: &OpenErr, out: &'a mut [u8]) -> &'a [u8]
    requires { LINE_ROOM ≤ length out.old }
    ensures { result.now ≡ unopened_line error.now }
{
    let end = put_text(out, 0, b"fault upstream ");
    let end = put_unopened(out, end, error);
    let end = put_text(out, end, b"\n");
    &out[..end]
}

/// Ends a server that doesn't have its box's bus, with the line that says why.
pub(crate) fn end_unopened<K: Sink>(sink: &mut K, error: OpenErr) -> ServerStatus
    ensures { EndsByOpening error (sink_shown K.Sink sink.old) (sink_shown K.Sink sink.new) result }
{
    match error {
        OpenErr::NoMemory => ServerStatus::NoMemory,
        OpenErr::NoReach
        | OpenErr::NoLink(_)
        | OpenErr::NoClear(_)
        | OpenErr::NoRemoteOff(_)
        | OpenErr::NoAddress(_) => {
            let mut room = [0; LINE_ROOM];
            let line = unopened_line(&error, &mut room);
            put_last(sink, line, ServerStatus::BenchFault)
        }
    }
}
