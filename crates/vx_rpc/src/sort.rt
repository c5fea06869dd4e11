ghost use Rattle.std.specs.Prelude.{◌≡◌, ℕ, List, IfSome, IsTrue};
ghost use Rattle.vx_rpc.specs.Procedure.{program, procedure, serves};
ghost use Rattle.vx_rpc.specs.CallMeaning.{call_shown, CallArgsBehind};
ghost use Rattle.vx_rpc.specs.Sorting.{sorting_shown, sorted, sorting, IsServed, RefusesByHeader, ArgsEnd, ArgsBehind};

use crate::header::{CallRead, read_call};
use crate::refusal::RpcRefusal;
use vx_calls::{Proc, Role};

/// What becomes of a message on a channel.
#[derive(Clone, Copy, PartialEq, Eq)]
pub enum Sorted<'a> {
    /// A call of a procedure that the channel has. `args` is the end of the message, unread.
    Call {
        xid: u32,
        proc: Proc,
        args: &'a [u8],
    },
    /// A call to be refused.
    Refuse {
        xid: u32,
        refusal: RpcRefusal,
    },
    /// No call, or one whose header can't be read.
    Junk,
}

/// Sorts a message that came in on a channel of this role, by its header alone: the credential and the verifier may
/// be of any flavor and aren't looked at, and the arguments are left unread (RFC 5531, section 9).
///
/// The first that holds decides: `Junk` for fewer than 12 bytes or a second word other than 0; `RpcMismatch` for an
/// RPC version other than 2; `Junk` where the rest of the header can't be read; `ProgUnavail` for another program
/// than the role's; `ProgMismatch` for another version than 1; `ProcUnavail` for a procedure that the program
/// hasn't; else the call.
pub fn sort_call<'a>(message: &'a [u8], role: Role) -> Sorted<'a>
    ensures sorted { sorting_shown result ≡ sorted message.now role }
    ensures served { IsServed role result }
    ensures refuses { RefusesByHeader result }
    ensures args { ArgsEnd message.now result }
{
    let read = read_call(message);
    sort_read(&read, role)
}

// A message that was read as a call.
fn sort_read<'a>(read: &CallRead<'a>, role: Role) -> Sorted<'a>
    ensures sorted { sorting_shown result ≡ sorting role (call_shown read.now) }
    ensures served { IsServed role result }
    ensures refuses { RefusesByHeader result }
    ensures args { (least : ℕ) → (text : List ℕ) → CallArgsBehind least text read.now → ArgsBehind least text result }
{
    match *read {
        CallRead::Call {
            xid,
            program,
            version,
            procedure,
            args,
        } => {
            let refusal = if program != program_of(role) {
                RpcRefusal::ProgUnavail
            } else if version != 1 {
                RpcRefusal::ProgMismatch
            } else {
                match procedure_of(role, procedure) {
                    Some(proc) => return Sorted::Call { xid, proc, args },
                    None => RpcRefusal::ProcUnavail,
                }
            };
            Sorted::Refuse { xid, refusal }
        }
        CallRead::OtherVersion { xid } => Sorted::Refuse {
            xid,
            refusal: RpcRefusal::RpcMismatch,
        },
        CallRead::Junk => Sorted::Junk,
    }
}

/// The program of a channel.
fn program_of(role: Role) -> u32
    ensures { result ≡ program role }
{
    match role {
        Role::Core => 0x0607AF,
        Role::Abort => 0x0607B0,
    }
}

/// The procedure that a number names on a channel.
fn procedure_of(role: Role, number: u32) -> Option<Proc>
    ensures named { result ≡ procedure role number }
    ensures served { IfSome result (λ proc. IsTrue (serves role proc)) }
{
    match role {
        Role::Core => core_procedure(number),
        Role::Abort => abort_procedure(number),
    }
}

fn core_procedure(number: u32) -> Option<Proc>
    ensures named { result ≡ procedure Role.Core number }
    ensures served { IfSome result (λ proc. IsTrue (serves Role.Core proc)) }
{
    match number {
        0 => Some(Proc::Null),
        10 => Some(Proc::CreateLink),
        11 => Some(Proc::Write),
        12 => Some(Proc::Read),
        13 => Some(Proc::ReadStb),
        14 => Some(Proc::Trigger),
        15 => Some(Proc::Clear),
        16 => Some(Proc::Remote),
        17 => Some(Proc::Local),
        18 => Some(Proc::Lock),
        19 => Some(Proc::Unlock),
        20 => Some(Proc::EnableSrq),
        22 => Some(Proc::Docmd),
        23 => Some(Proc::DestroyLink),
        25 => Some(Proc::CreateIntr),
        26 => Some(Proc::DestroyIntr),
        _ => None,
    }
}

fn abort_procedure(number: u32) -> Option<Proc>
    ensures named { result ≡ procedure Role.Abort number }
    ensures served { IfSome result (λ proc. IsTrue (serves Role.Abort proc)) }
{
    match number {
        0 => Some(Proc::Null),
        1 => Some(Proc::DeviceAbort),
        _ => None,
    }
}
