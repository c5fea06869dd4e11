//! The line that is printed for what a command came to.

ghost use Rattle.std.specs.Prelude.{◌≡◌, ◌+◌, ◌*◌, ◌≤◌, ◌<◌, ◌++◌, length, codes, decimal, IfOk};
ghost use Rattle.hex.specs.Hex.{encode_upper};
ghost use Rattle.vx_client.specs.Gaining.{IsClientWithin, IsAnswer, IsError, gain_shown, result_shown};
ghost use Rattle.vx_client.specs.Due.{error_line, gain_line, line_due};

use crate::answers::ClientErr;
use crate::gains::{GAIN_MAX, Gained};
use vx_text::number_line;

/// The longest line, its LF included: that of `GAIN_MAX` bytes.
pub(crate) const LINE_ROOM: usize = 2 * GAIN_MAX + 1;

/// Bytes in upper case hexadecimal, and LF.
fn hex_line<'a>(bytes: &[u8], out: &'a mut [u8]) -> &'a [u8]
    requires { 2 * length bytes.now < length out.old }
    ensures { result.now ≡ encode_upper bytes.now ++ codes "\n" }
{
    let end = 2 * bytes.len();
    let digits = &mut out[..end];
    match hex::encode_to_slice(bytes, digits) {
        Ok(()) => digits.make_ascii_uppercase(),
        Err(_) => unreachable!(),
    }
    out[end] = b'\n';
    &out[..end + 1]
}

/// An error of the device.
fn device_line(error: u32, out: &mut [u8]) -> &[u8]
    requires { LINE_ROOM ≤ length out.old }
    ensures { result.now ≡ codes "error " ++ decimal error ++ codes "\n" }
{
    number_line(b"error ", u64::from(error), out)
}

/// An error of a call.
fn error_line(error: ClientErr, out: &mut [u8]) -> &[u8]
    requires answer { IsError error }
    requires room { LINE_ROOM ≤ length out.old }
    ensures { result.now ≡ error_line error }
{
    match error {
        ClientErr::Device(number) => device_line(number, out),
        ClientErr::Rpc(_) => b"broken rpc\n",
        ClientErr::BadReply { .. } => b"broken reply\n",
        ClientErr::Closed => b"broken closed\n",
        ClientErr::ReadFault => b"broken read\n",
        ClientErr::WriteFault => b"broken write\n",
        ClientErr::Spent => unreachable!(),
    }
}

/// What was gained; bytes that were read stand at the front of the room.
fn gain_line<'a>(gained: Gained, room: &[u8], out: &'a mut [u8]) -> &'a [u8]
    requires within { IsClientWithin (length room.now) gained }
    requires read { length room.now ≤ GAIN_MAX }
    requires room { LINE_ROOM ≤ length out.old }
    ensures { result.now ≡ gain_line (gain_shown room.now gained) }
{
    match gained {
        Gained::Bytes(len) => hex_line(&room[..len], out),
        Gained::Status(byte) => hex_line(&[byte], out),
        Gained::Done => b"done\n",
    }
}

/// The line of either, written to `out` where it isn't the same for all.
pub(crate) fn line_of<'a>(
    came: Result<Gained, ClientErr>,
    room: &[u8],
    out: &'a mut [u8],
) -> &'a [u8]
    requires within { IfOk came (IsClientWithin (length room.now)) }
    requires answer { IsAnswer came }
    requires read { length room.now ≤ GAIN_MAX }
    requires room { LINE_ROOM ≤ length out.old }
    ensures { result.now ≡ line_due (result_shown room.now came) }
{
    match came {
        Ok(gained) => gain_line(gained, room, out),
        Err(error) => error_line(error, out),
    }
}
