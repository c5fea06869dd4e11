//! The replies of calls whose turn is whole, or is stopped.
ghost use Rattle.std.specs.Prelude.{◌≡◌, ◌≤◌, ℕ, Bool, List, [], length, take, Some, if◌then◌else◌};
ghost use Rattle.vx_488.specs.declared.transfers.Transfer.{Transfer};
ghost use Rattle.vx_488.specs.declared.wire.Wire.{Wire};
ghost use Rattle.vx_calls.specs.declared.limits.TheConstants.{READ_MAX};
ghost use Rattle.vx_plan.specs.Plan.{Plan, Whole, stand_of};
ghost use Rattle.vx_plan.specs.Tasks.{IsPlainTask, HasBytes, most_bytes};
ghost use Rattle.vx_plan.specs.Results.{whole_reply, status_number, two_bytes, bytes_got, puts_made};
ghost use Rattle.vx_ctrl.specs.Turns.{HasMade, GetsBytes};
ghost use Rattle.vx_ctrl.specs.Goes.{HoldsBytes};
ghost use Rattle.vx_core.specs.Given.{given_reply, given_len};
ghost use Rattle.vx_core.specs.Polling.{level_told};

use crate::ended::StoredReply;
use vx_488::{Bus, Wire};
use vx_calls::ErrorCode;
use vx_ctrl::Turn;
use vx_plan::Task;

/// The level that a job is told: of SRQ or of NDAC for these selectors of bus status, and false for every other.
pub fn level_told<B: Bus>(task: Task, bus: &B) -> bool
    ensures { result ≡ level_told task (B.srq_level bus.now) (B.ndac_level bus.now) }
{
    match task {
        Task::Status { selector: 2 } => bus.srq(),
        Task::Status { selector: 3 } => bus.ndac(),
        _ => false,
    }
}

/// What bus status tells of a selector, 1 to 8, on this bus and with this level.
pub fn status_of(selector: u16, wire: &Wire, level: bool) -> u8
    ensures { result ≡ status_number selector wire.now level }
{
    match selector {
        1 => u8::from(wire.ren),
        2 | 3 => u8::from(level),
        4 => 1,
        5 => u8::from(wire.incharge),
        6 => u8::from(wire.is_talker()),
        7 => u8::from(wire.is_listener()),
        _ => wire.own,
    }
}

/// A number as two bytes at the front of the room, the high one first or last.
fn put_status(number: u8, is_big: bool, room: &mut [u8])
    requires { 2 ≤ length room.old }
    ensures bytes { take 2 room.new ≡ two_bytes is_big number }
    ensures len { length room.new ≡ length room.old }
{
    room[usize::from(is_big)] = number;
    room[usize::from(!is_big)] = 0;
}

/// The bytes of a device_docmd at the front of the room.
fn put_bytes(bytes: &[u8], room: &mut [u8])
    requires { length bytes.now ≤ length room.old }
    ensures bytes { take (length bytes.now) room.new ≡ bytes.now }
    ensures len { length room.new ≡ length room.old }
{
    room[..bytes.len()].copy_from_slice(bytes);
}

/// The reply of a turn that is whole, on the bus as it began. `bytes` are those of its call; a device_docmd has its answer
/// in the room.
pub fn finished(
    turn: &Turn,
    bytes: &[u8],
    wire: &Wire,
    is_big: bool,
    level: bool,
    room: &mut [u8],
) -> StoredReply
    requires plain { IsPlainTask turn.now.task }
    requires sent { HasBytes turn.now.task bytes.now }
    requires short { length bytes.now ≤ most_bytes turn.now.task }
    requires room { length room.old ≡ READ_MAX }
    ensures reply { (w : Wire) (made : List Transfer) (left : Plan) → HasMade turn.now w bytes.now made left → stand_of (Some left) ≡ Whole
        → (GetsBytes turn.now.task → HoldsBytes turn.now made room.old)
        → given_reply result room.new ≡ whole_reply turn.now.task bytes.now wire.now is_big level made }
    ensures len { (w : Wire) (made : List Transfer) (left : Plan) → HasMade turn.now w bytes.now made left → given_len result ≤ READ_MAX }
    ensures room { length room.new ≡ READ_MAX }
{
    let error = ErrorCode::Ok;
    match turn.task() {
        Task::Write { len, .. } => StoredReply::Write { error, size: len },
        Task::Read { .. } => StoredReply::Read {
            error,
            reason: turn.reason(),
            len: turn.moved() as usize,
        },
        Task::Stb { .. } => StoredReply::Stb {
            error,
            stb: room[0],
        },
        Task::Clear { .. } | Task::Trigger { .. } | Task::Remote { .. } | Task::Local { .. } => {
            StoredReply::Error(error)
        }
        Task::Status { selector } => {
            put_status(status_of(selector, wire, level), is_big, room);
            StoredReply::Docmd { error, len: 2 }
        }
        _ => {
            put_bytes(bytes, room);
            StoredReply::Docmd {
                error,
                len: bytes.len(),
            }
        }
    }
}

/// How many bytes a turn has put, and how many it has got.
pub fn moved_by(turn: &Turn) -> (u32, usize)
    requires plain { IsPlainTask turn.now.task }
    ensures moved { (w : Wire) (bytes : List ℕ) (made : List Transfer) (left : Plan) (room : List ℕ) → HasMade turn.now w bytes made left
        → (GetsBytes turn.now.task → HoldsBytes turn.now made room)
        → (puts_made made ≡ result.0) × (bytes_got made ≡ take result.1 room) }
    ensures within { (w : Wire) (bytes : List ℕ) (made : List Transfer) (left : Plan) → HasMade turn.now w bytes made left → result.1 ≤ READ_MAX }
{
    match turn.task() {
        Task::Write { .. } => (turn.moved(), 0),
        Task::Read { .. } | Task::Stb { .. } => (0, turn.moved() as usize),
        _ => (0, 0),
    }
}
