//! What a box's answers mean to whoever asks the bus.

ghost use Rattle.std.specs.Prelude.{◌≡◌, ◌≢◌, ◌<◌, ◌≤◌, ◌↔◌, length, take};
ghost use Rattle.std.specs.List.{list_any};
ghost use Rattle.vx_488.specs.Bursts.{StopsAt, is_char, is_end};
ghost use Rattle.vx_upstream.specs.Answering.{order_move, failed_at, held_at, many_of, byte_error, byte_move, bytes_come, tells_end, got_of, got_one, level_in, level_of, standing_after};

use crate::upstream::Standing;
use vx_488::{GetOut, Many, ManyGot, Move, Stop};
use vx_client::{ClientErr, ReadEnd};

/// The error of a box whose io_timeout passed (VXI-11, Device_ErrorCode).
const IO_TIMEOUT: u32 = 15;

/// END, as the reason of a read (VXI-11, Device_ReadResp).
const REASON_END: u32 = 4;

/// What a device_docmd came to that moves no data byte. It is never held, since a box whose time passed doesn't tell
/// whether the byte went: asked again, it might go twice.
pub(crate) fn order_move(answer: &Result<usize, ClientErr>) -> Move
    ensures answer { result ≡ order_move answer.now }
    ensures never_held { result ≢ Move.Held }
{
    match answer {
        Ok(_) => Move::Went,
        Err(_) => Move::Failed,
    }
}

/// A write that failed, where the box tells that it took so many bytes: the last one at least didn't go.
fn failed_at(len: usize, size: usize) -> Many
    requires { 0 < len }
    ensures value { result ≡ failed_at len size }
    ensures within { result.moved < len }
{
    Many {
        moved: size.min(len - 1),
        last: Move::Failed,
    }
}

/// A write that wasn't whole within its time, where the box tells that it took so many bytes.
fn held_at(len: usize, size: usize) -> Many
    requires { 0 < len }
    ensures value { result ≡ held_at len size }
    ensures within { result.moved ≤ len }
    ensures last { (result.last ≡ Move.Went) ↔ (result.moved ≡ len) }
{
    if size < len {
        Many {
            moved: size,
            last: Move::Held,
        }
    } else if size == len {
        Many {
            moved: len,
            last: Move::Went,
        }
    } else {
        failed_at(len, size)
    }
}

/// What a device_write of so many bytes came to, where the last record tells that the box took so many.
pub(crate) fn many_of(len: usize, answer: &Result<(), ClientErr>, size: usize) -> Many
    requires { 0 < len }
    ensures value { result ≡ many_of len answer.now size }
    ensures within { result.moved ≤ len }
    ensures last { (result.last ≡ Move.Went) ↔ (result.moved ≡ len) }
{
    match answer {
        Ok(()) => Many {
            moved: len,
            last: Move::Went,
        },
        Err(ClientErr::Device(IO_TIMEOUT)) => held_at(len, size),
        Err(ClientErr::Device(_)) => failed_at(len, size),
        Err(_) => Many {
            moved: 0,
            last: Move::Failed,
        },
    }
}

/// What an error of a read is as the answer of the get behind its bytes: where the box's time passed, the next byte isn't
/// there yet.
fn byte_error(error: ClientErr) -> Move
    ensures { result ≡ byte_error error }
{
    match error {
        ClientErr::Device(IO_TIMEOUT) => Move::Held,
        _ => Move::Failed,
    }
}

/// What a device_read came to, as the answer of the get behind its bytes.
pub(crate) fn byte_move(answer: &Result<ReadEnd, ClientErr>) -> Move
    ensures { result ≡ byte_move answer.now }
{
    match answer {
        Ok(_) => Move::Went,
        Err(error) => byte_error(*error),
    }
}

/// The bytes that came by a device_read, where its record brings these: none where it broke off.
pub(crate) fn bytes_come<'a>(answer: &Result<ReadEnd, ClientErr>, told: &'a [u8]) -> &'a [u8]
    ensures { result.now ≡ bytes_come answer.now told.now }
{
    match answer {
        Ok(_) | Err(ClientErr::Device(_)) => told,
        Err(_) => &[],
    }
}

/// Whether a device_read tells END.
pub(crate) fn tells_end(answer: &Result<ReadEnd, ClientErr>) -> bool
    ensures { result ≡ tells_end answer.now }
{
    match answer {
        Ok(end) => end.reason & REASON_END != 0,
        Err(_) => false,
    }
}

/// Whether the stop byte is among these.
#[tactic(auto, using(crate::proofs::Stopping::none_is_char))]
fn has_char(bytes: &[u8], stop: Option<u8>) -> bool
    ensures { result ≡ list_any (is_char stop) bytes.now }
{
    match stop {
        None => false,
        Some(c) => bytes.contains(&c),
    }
}

/// Whether this is the stop byte.
fn is_char(b: u8, stop: Option<u8>) -> bool
    ensures { result ≡ is_char stop b }
{
    match stop {
        None => false,
        Some(c) => b == c,
    }
}

/// What these bytes come to as a burst of gets into so much room. More than that, or a stop byte before the last, is no box's
/// to send.
pub(crate) fn judge(bytes: &[u8], room: usize, stop: Option<u8>, ended: bool, how: Move) -> ManyGot
    requires { 0 < room }
    ensures value { result ≡ got_of room stop bytes.now ended how }
    ensures stops { StopsAt stop room (take result.got bytes.now) result.stop }
    ensures here { result.got ≤ length bytes.now }
    ensures room { result.got ≤ room }
{
    let got = bytes.len();
    if got == 0 {
        return ManyGot {
            got,
            stop: match how {
                Move::Held => Stop::Held,
                _ => Stop::Failed,
            },
        };
    }
    if room < got || has_char(&bytes[..got - 1], stop) {
        return ManyGot {
            got: 0,
            stop: Stop::Failed,
        };
    }
    let why = if ended {
        Stop::End
    } else if is_char(bytes[got - 1], stop) {
        Stop::Char
    } else if got == room {
        Stop::Full
    } else {
        match how {
            Move::Failed => Stop::Failed,
            _ => Stop::Held,
        }
    };
    ManyGot { got, stop: why }
}

/// What a burst of gets into one byte came to, where that byte is this one.
pub(crate) fn got_one(many: ManyGot, b: u8) -> GetOut
    ensures { result ≡ got_one many.stop b }
{
    match many.stop {
        Stop::End => GetOut::Byte { b, end: true },
        Stop::Full | Stop::Char => GetOut::Byte { b, end: false },
        Stop::Held => GetOut::Held,
        Stop::Failed => GetOut::Failed,
    }
}

/// Whether a burst of gets stopped at END.
pub(crate) fn is_end(stop: Stop) -> bool
    ensures { result ≡ is_end stop }
{
    matches!(stop, Stop::End)
}

/// The level that the data of a bus status tell (VXI-11.2): it stays where they aren't two bytes.
fn level_in(told: &[u8], before: bool) -> bool
    ensures { result ≡ level_in told.now before }
{
    match told {
        [_, low] => *low != 0,
        _ => before,
    }
}

/// The level behind a look at a line: it stays where the box doesn't tell it.
pub(crate) fn level_of(answer: &Result<usize, ClientErr>, told: &[u8], before: bool) -> bool
    ensures { result ≡ level_of answer.now told.now before }
{
    match answer {
        Ok(_) => level_in(told, before),
        Err(_) => before,
    }
}

/// The standing of a bus behind a look at a line: where the look broke off, the link to the box is lost.
pub(crate) fn standing_after(answer: &Result<usize, ClientErr>, standing: Standing) -> Standing
    ensures { result ≡ standing_after answer.now standing }
{
    match answer {
        Ok(_) | Err(ClientErr::Device(_)) => standing,
        Err(_) => Standing::Lost,
    }
}
