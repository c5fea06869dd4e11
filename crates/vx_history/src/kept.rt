//! The last call of each connection that had one.
ghost use Rattle.std.specs.Prelude.{◌≡◌, ◌==◌, ◌&&◌, [], ◌∷◌, length, map, find, option_copied, option_map, OnOk};
ghost use Rattle.vx_rules.specs.Docmd.{number_in};
ghost use Rattle.vx_calls.specs.Call.{call_shown};
ghost use Rattle.vx_history.specs.CheckState.{xid_at, level_at, kept_at, kept_with, kept_without, selects_level, tells_level};
ghost use Rattle.vx_history.specs.Stepping.{kept_shown};

use vx_calls::CallRef;
use vx_model::NoMemory;

/// The xid of the last call that came on a connection, and whether the answer to it tells a level.
#[derive(Clone, Copy)]
pub(crate) struct Kept {
    pub(crate) conn: u32,
    pub(crate) xid: u32,
    pub(crate) tells_level: bool,
}

fn find_kept(kept: &[Kept], conn: u32) -> Option<&Kept>
    ensures { option_copied result ≡ find (λ k. k.conn == conn) kept.now }
{
    kept.iter().find(|k| k.conn == conn)
}

/// The last call that came on a connection.
fn kept_at(kept: &[Kept], conn: u32) -> Option<&Kept>
    ensures { option_map kept_shown (option_copied result) ≡ kept_at (map kept_shown kept.now) conn }
{
    find_kept(kept, conn)
}

/// The xid of a connection's last call; 0 where it had none.
pub(crate) fn xid_at(kept: &[Kept], conn: u32) -> u32
    ensures { result ≡ xid_at (map kept_shown kept.now) conn }
{
    match kept_at(kept, conn) {
        Some(k) => k.xid,
        None => 0,
    }
}

/// Whether the answer to a connection's last call tells a level.
pub(crate) fn level_at(kept: &[Kept], conn: u32) -> bool
    ensures { result ≡ level_at (map kept_shown kept.now) conn }
{
    match kept_at(kept, conn) {
        Some(k) => k.tells_level,
        None => false,
    }
}

/// Drops a connection's last call.
pub(crate) fn drop_kept(kept: &mut Vec<Kept>, conn: u32)
    ensures { map kept_shown kept.new.items ≡ kept_without (map kept_shown kept.old.items) conn }
{
    kept.retain(|k| k.conn != conn);
}

/// Keeps this call in place of the connection's last one.
pub(crate) fn keep(kept: &mut Vec<Kept>, k: Kept) -> Result<(), NoMemory>
    ensures { OnOk result (map kept_shown kept.new.items ≡ kept_with (map kept_shown kept.old.items) (kept_shown k)) }
{
    drop_kept(kept, k.conn);
    match kept.push(k) {
        Ok(()) => Ok(()),
        Err(_) => Err(NoMemory),
    }
}

/// The command number of bus status (VXI-11.2).
const BUS_STATUS: u32 = 0x02_0001;

/// The number of two bytes, the high one first or last.
fn number_of(big: bool, first: u8, second: u8) -> u16
    ensures { result ≡ number_in big (first ∷ second ∷ []) }
{
    if big {
        256 * u16::from(first) + u16::from(second)
    } else {
        256 * u16::from(second) + u16::from(first)
    }
}

/// Whether a number selects SRQ (2) or NDAC (3).
fn selects_level(number: u16) -> bool
    ensures { result ≡ selects_level number }
{
    number == 2 || number == 3
}

/// Whether the input of a bus status selects SRQ or NDAC.
fn input_selects(big: bool, bytes: &[u8]) -> bool
    ensures { result ≡ ((length bytes.now == 2) && selects_level (number_in big bytes.now)) }
{
    match bytes {
        [first, second] => selects_level(number_of(big, *first, *second)),
        _ => false,
    }
}

/// Whether the answer to a call tells a level of the bus: it is a bus status that selects SRQ or NDAC.
pub(crate) fn tells_level(call: &CallRef<'_>) -> bool
    ensures { result ≡ tells_level (call_shown call.now) }
{
    match *call {
        CallRef::Docmd {
            cmd,
            big,
            bytes,
            ..
        } => cmd == BUS_STATUS && input_selects(big, bytes),
        _ => false,
    }
}
