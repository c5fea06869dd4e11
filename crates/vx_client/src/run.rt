//! All that the program `vxcall` does: the words, the server, the calls, the line that is printed, and the status.

ghost use Rattle.std.specs.Prelude.{◌≡◌, ◌≤◌, ◌++◌, length, map, string_bytes, is_some, IsSome, IfOk};
ghost use Rattle.vx_text.specs.Ends.{sink_shown};
ghost use Rattle.vx_client.specs.Asked.{command_shown, ask_shown, ask_of, line_sent};
ghost use Rattle.vx_client.specs.Gaining.{IsAnswer};
ghost use Rattle.vx_client.specs.Outcome.{IsUncalled, IsOver, IsClientServed, IsClientAskRun, IsClientRun, EndsOver, ClientEndsRun, ClientPutsLine, result_status, client_status_number};

use crate::answers::ClientErr;
use crate::client::Client;
use crate::gains::{GAIN_MAX, Gained, make_calls};
use crate::lines::{LINE_ROOM, line_of};
use crate::words::{Ask, Command, ask_of};
use std::alloc::{AllocError, Global};
use vx_calls::DEVICE_MAX;
use vx_io_traits::{DialOut, Link, Reach, Sink};
use vx_text::put_all;

/// How a call ended, as the program's exit status tells it.
#[derive(Clone, Copy)]
pub(crate) enum ClientStatus {
    /// 0: each call gave its results.
    Done,
    /// 1: the words have another form.
    Usage,
    /// 2: the server was not reached.
    Unreachable,
    /// 3: a call was answered with an error of the device.
    Refused,
    /// 4: a call broke off.
    Broken,
    /// 5: there was no memory.
    NoMemory,
    /// 6: the sink failed.
    SinkFailed,
}

impl ClientStatus {
    /// The exit status.
    fn number(self) -> u8
        ensures { result ≡ client_status_number self }
    {
        match self {
            ClientStatus::Done => 0,
            ClientStatus::Usage => 1,
            ClientStatus::Unreachable => 2,
            ClientStatus::Refused => 3,
            ClientStatus::Broken => 4,
            ClientStatus::NoMemory => 5,
            ClientStatus::SinkFailed => 6,
        }
    }
}

/// The status of what a command came to.
fn status_of(came: Result<Gained, ClientErr>) -> ClientStatus
    ensures { result ≡ result_status came }
{
    match came {
        Ok(_) => ClientStatus::Done,
        Err(ClientErr::Device(_)) => ClientStatus::Refused,
        Err(_) => ClientStatus::Broken,
    }
}

/// The line that a command writes: its text and LF; nothing where it has none.
fn sent_line(alloc: Global, command: Command<'_>) -> Result<Vec<u8>, AllocError>
    ensures { IfOk result (λ line. line.items ≡ line_sent (command_shown command.entry)) }
{
    match command {
        Command::Query(text) | Command::Write(text) => {
            let mut line = text.to_vec(alloc)?;
            line.push(b'\n')?;
            Ok(line)
        }
        _ => Ok(Vec::new(alloc)),
    }
}

/// Writes the line of a call that ends so.
fn put_line<K: Sink>(sink: &mut K, line: &[u8], how: ClientStatus) -> ClientStatus
    ensures { ClientPutsLine how line.now
        (sink_shown K.Sink sink.old) (sink_shown K.Sink sink.new) result }
{
    match put_all(sink, line) {
        Ok(()) => how,
        Err(_) => ClientStatus::SinkFailed,
    }
}

/// Does what is asked over a client, and prints what came of it. `line` is what the command writes, `room` takes what it
/// reads, and `out` the line that is printed.
fn tell<L: Link, K: Sink>(
    client: &mut Client<L>,
    ask: &Ask<'_>,
    line: &[u8],
    room: &mut [u8],
    out: &mut [u8],
    sink: &mut K,
) -> ClientStatus
    requires device { length ask.now.device.now ≤ DEVICE_MAX }
    requires client { IsUncalled client.old }
    requires line { line.now ≡ line_sent (command_shown ask.now.command) }
    requires room { length room.old ≡ GAIN_MAX }
    requires out { LINE_ROOM ≤ length out.old }
    ensures { IsOver L.stands L.left L.receive_faults L.send_faults (ask_shown ask.now) client.old client.new
        (sink_shown K.Sink sink.old) (sink_shown K.Sink sink.new) result }
{
    let came = make_calls(client, ask, line, room);
    let told = line_of(came, room, out);
    put_line(sink, told, status_of(came))
}

/// Does what is asked over a client, and prints what came of it. All memory is taken before the first call.
fn over<L: Link, K: Sink>(
    alloc: Global,
    ask: &Ask<'_>,
    client: &mut Client<L>,
    sink: &mut K,
) -> ClientStatus
    requires device { length ask.now.device.now ≤ DEVICE_MAX }
    requires client { IsUncalled client.old }
    ensures { IsOver L.stands L.left L.receive_faults L.send_faults (ask_shown ask.now) client.old client.new
        (sink_shown K.Sink sink.old) (sink_shown K.Sink sink.new) result }
{
    let Ok(line) = sent_line(alloc, ask.command) else {
        return ClientStatus::NoMemory;
    };
    let Ok(mut room) = vec![in alloc; 0; GAIN_MAX] else {
        return ClientStatus::NoMemory;
    };
    let Ok(mut out) = vec![in alloc; 0; LINE_ROOM] else {
        return ClientStatus::NoMemory;
    };
    tell(
        client,
        ask,
        line.as_slice(),
        room.as_mut_slice(),
        out.as_mut_slice(),
        sink,
    )
}

/// Whether words have the form that `call_run` takes, so that `call_over` may be called with them.
pub fn is_call(words: &[String]) -> bool
    ensures { result ≡ is_some (ask_of (map string_bytes words.now)) }
{
    ask_of(words).is_some()
}

/// Does what the words ask over a client that has made no call, as `call_run` does once it has reached the server. The
/// words have the form that `call_run` takes (`is_call`).
///
/// It answers 0, 3, 4, 5 or 6, as `call_run` does. At 5 it has sent nothing and printed nothing.
pub fn call_over<L: Link, K: Sink>(
    alloc: Global,
    words: &[String],
    client: &mut Client<L>,
    sink: &mut K,
) -> u8
    requires words { IsSome (ask_of (map string_bytes words.now)) }
    requires client { IsUncalled client.old }
    ensures { EndsOver L.stands L.left L.receive_faults L.send_faults (map string_bytes words.now) client.old client.new
        (sink_shown K.Sink sink.old) (sink_shown K.Sink sink.new) result }
{
    match ask_of(words) {
        Some(ask) => over(alloc, &ask, client, sink).number(),
        None => unreachable!(),
    }
}

/// Makes a client over a reach that has reached the server, and does what is asked.
fn serve<R: Reach, K: Sink>(
    alloc: Global,
    ask: &Ask<'_>,
    reach: R,
    sink: &mut K,
) -> (ClientStatus, R)
    requires device { length ask.now.device.now ≤ DEVICE_MAX }
    ensures { IsClientServed R.Reach (ask_shown ask.now) reach result.1
        (sink_shown K.Sink sink.old) (sink_shown K.Sink sink.new) result.0 }
{
    match Client::new(alloc, reach) {
        Ok(mut client) => {
            let status = over(alloc, ask, &mut client, sink);
            (status, client.into_link())
        }
        Err(refused) => (ClientStatus::NoMemory, refused.link),
    }
}

/// Reaches the server, and does what is asked.
fn reach_and_serve<R: Reach, K: Sink>(
    alloc: Global,
    ask: &Ask<'_>,
    reach: R,
    sink: &mut K,
) -> (ClientStatus, R)
    requires device { length ask.now.device.now ≤ DEVICE_MAX }
    ensures { IsClientAskRun R.Reach (ask_shown ask.now) reach result.1
        (sink_shown K.Sink sink.old) (sink_shown K.Sink sink.new) result.0 }
{
    let mut reach = reach;
    match reach.reach(ask.host, ask.port) {
        DialOut::Up => serve(alloc, ask, reach, sink),
        DialOut::Failed => {
            let status = put_line(sink, b"unreachable\n", ClientStatus::Unreachable);
            (status, reach)
        }
    }
}

/// Does what the words ask.
fn run<R: Reach, K: Sink>(
    alloc: Global,
    words: &[String],
    reach: R,
    sink: &mut K,
) -> (ClientStatus, R)
    ensures { IsClientRun R.Reach (map string_bytes words.now) reach result.1
        (sink_shown K.Sink sink.old) (sink_shown K.Sink sink.new) result.0 }
{
    match ask_of(words) {
        Some(ask) => reach_and_serve(alloc, &ask, reach, sink),
        None => {
            let usage = b"usage: vxcall HOST PORT DEVICE COMMAND\n";
            let status = put_line(sink, usage, ClientStatus::Usage);
            (status, reach)
        }
    }
}

/// All that the program `vxcall` does: it asks one thing of one device of a VXI-11 server, and prints one line. What
/// comes back is the exit status and the reach.
///
/// The words are `HOST PORT DEVICE`, and then `query TEXT`, `write TEXT`, `read`, `stb`, `clear` or `trigger`. The port is
/// 1 to 65,535 in decimal digits without a leading zero, and the device's text has at most 255 bytes. A link to the
/// device is made without a lock, the command is done over it, and the link is destroyed; the error of that last call
/// counts for nothing. TEXT is sent with LF behind it and END on that; `query` writes it and then reads. A read takes at
/// most 65,536 bytes. Each call gives the device 10,000 milliseconds, and waits for no lock.
///
/// - 0: what was read, in upper case hexadecimal; the two digits of the status byte; or `done`.
/// - 1, `usage: vxcall HOST PORT DEVICE COMMAND`: the words have another form. Nothing is sent.
/// - 2, `unreachable`: the server was not reached.
/// - 3, `error N`: a call was answered with this error of the device, and no further one was made but the last.
/// - 4, `broken rpc`, `broken reply`, `broken closed`, `broken read` or `broken write`: a call was refused, or its reply
///   was none, or the input ended, or a receive or a send failed.
/// - 5, nothing printed and nothing sent: there was no memory.
/// - 6: the sink failed; a front of the line that was due was written.
pub fn call_run<R: Reach, K: Sink>(
    alloc: Global,
    words: &[String],
    reach: R,
    sink: &mut K,
) -> (u8, R)
    ensures { ClientEndsRun R.Reach (map string_bytes words.now) reach result.1
        (sink_shown K.Sink sink.old) (sink_shown K.Sink sink.new) result.0 }
{
    let (status, reach) = run(alloc, words, reach, sink);
    (status.number(), reach)
}
