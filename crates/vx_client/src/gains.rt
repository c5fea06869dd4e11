//! The calls for what a user asks: a link is made, the command is done over it, and it is destroyed.

ghost use Rattle.std.specs.Prelude.{◌≡◌, ◌≤◌, false, length, IfOk};
ghost use Rattle.vx_client.specs.Asked.{line_sent, command_shown};
ghost use Rattle.vx_client.specs.Gaining.{ReadsAll, SendsLine, Performs, done_of, status_of, ClientAsks, result_shown, IsClientWithin, IsAnswer};

use crate::answers::{CallOpts, ClientErr, LinkMade};
use crate::client::Client;
use crate::words::{Ask, Command};
use vx_calls::DEVICE_MAX;
use vx_io_traits::Link;

/// The most bytes that a command reads.
pub(crate) const GAIN_MAX: usize = 65536;

/// No flags; a device may take 10 seconds, and no call waits for a lock.
const PLAIN: CallOpts = CallOpts {
    flags: 0,
    io_timeout: 10_000,
    lock_timeout: 0,
};

/// The same with the flag end (VXI-11, Device_Flags).
const WITH_END: CallOpts = CallOpts {
    flags: 0x08,
    io_timeout: 10_000,
    lock_timeout: 0,
};

/// What a command gained.
#[derive(Clone, Copy)]
pub(crate) enum Gained {
    /// So many bytes stand at the front of the room.
    Bytes(usize),
    /// The status byte.
    Status(u8),
    /// It was done.
    Done,
}

/// Reads into the room.
fn read<L: Link>(client: &mut Client<L>, lid: u32, room: &mut [u8]) -> Result<Gained, ClientErr>
    requires { length room.old ≡ GAIN_MAX }
    ensures read { ReadsAll L.stands L.left L.receive_faults L.send_faults client.old client.new lid (result_shown room.new result) }
    ensures within { IfOk result (IsClientWithin (length room.new)) }
{
    let end = client.read(lid, &PLAIN, 0, room)?;
    Ok(Gained::Bytes(end.len))
}

/// Writes a line, and then reads into the room.
fn query<L: Link>(
    client: &mut Client<L>,
    made: &LinkMade,
    line: &[u8],
    room: &mut [u8],
) -> Result<Gained, ClientErr>
    requires max { 1 ≤ made.now.max }
    requires room { length room.old ≡ GAIN_MAX }
    ensures sent { SendsLine L.stands L.left L.receive_faults L.send_faults client.old client.new made.now line.now (result_shown room.new result)
        (λ mid. ReadsAll L.stands L.left L.receive_faults L.send_faults mid client.new made.now.lid (result_shown room.new result)) }
    ensures within { IfOk result (IsClientWithin (length room.new)) }
{
    match client.write(made, &WITH_END, line) {
        Ok(()) => read(client, made.lid, room),
        Err(error) => Err(error),
    }
}

/// What a call gained that has no results.
fn done(answer: Result<(), ClientErr>) -> Result<Gained, ClientErr>
    ensures { result ≡ done_of answer }
{
    match answer {
        Ok(()) => Ok(Gained::Done),
        Err(error) => Err(error),
    }
}

/// What a call gained that has a status byte.
fn status(answer: Result<u8, ClientErr>) -> Result<Gained, ClientErr>
    ensures { result ≡ status_of answer }
{
    match answer {
        Ok(byte) => Ok(Gained::Status(byte)),
        Err(error) => Err(error),
    }
}

/// Does a command over a link. `line` is what it writes.
fn perform<L: Link>(
    client: &mut Client<L>,
    made: &LinkMade,
    command: Command<'_>,
    line: &[u8],
    room: &mut [u8],
) -> Result<Gained, ClientErr>
    requires max { 1 ≤ made.now.max }
    requires line { line.now ≡ line_sent (command_shown command) }
    requires room { length room.old ≡ GAIN_MAX }
    ensures performed { Performs L.stands L.left L.receive_faults L.send_faults client.old client.new made.now (command_shown command.entry) (result_shown room.new result) }
    ensures within { IfOk result (IsClientWithin (length room.new)) }
{
    match command {
        Command::Query(_) => query(client, made, line, room),
        Command::Write(_) => done(client.write(made, &WITH_END, line)),
        Command::Read => read(client, made.lid, room),
        Command::Stb => status(client.readstb(made.lid, &PLAIN)),
        Command::Clear => done(client.clear(made.lid, &PLAIN)),
        Command::Trigger => done(client.trigger(made.lid, &PLAIN)),
    }
}

/// Makes a link, does what is asked over it, and destroys it. `line` is what the command writes.
pub(crate) fn make_calls<L: Link>(
    client: &mut Client<L>,
    ask: &Ask<'_>,
    line: &[u8],
    room: &mut [u8],
) -> Result<Gained, ClientErr>
    requires device { length ask.now.device.now ≤ DEVICE_MAX }
    requires line { line.now ≡ line_sent (command_shown ask.now.command) }
    requires room { length room.old ≡ GAIN_MAX }
    requires fit { client.old.spent ≡ false }
    ensures asked { ClientAsks L.stands L.left L.receive_faults L.send_faults client.old client.new ask.now.device.now (command_shown ask.now.command) (result_shown room.new result) }
    ensures within { IfOk result (IsClientWithin (length room.new)) }
    ensures unspent { IsAnswer result }
{
    let made = client.create_link(false, 0, ask.device)?;
    let gained = perform(client, &made, ask.command, line, room);
    let _ = client.destroy_link(made.lid);
    gained
}
