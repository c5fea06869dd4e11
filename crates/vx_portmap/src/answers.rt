//! The answer to one message.
ghost use Rattle.std.specs.Prelude.{◌≡◌, ◌<◌, ◌≤◌, length, drop, MatchResult, Ok, Err};
ghost use Rattle.vx_portmap.specs.declared.limits.TheConstants.{MESSAGE_MAX};
ghost use Rattle.vx_portmap.specs.Answering.{reply, answer, procedure_answer, one_mapping, mapping_at, shown, IfReply, OnSilent};
ghost use Rattle.vx_portmap.specs.Outcomes.{outcome_numbers};

use crate::replies::{Outcome, put_accepted, put_mismatch};
use crate::table::{Mapping, Ports};
use vx_rpc::{CallRead, read_call};
use vx_xdr::{Reader, XdrErr};

/// What is answered to a message.
#[derive(Clone, Copy, PartialEq, Eq)]
pub enum MapAnswer {
    /// A reply of so many bytes.
    Reply(usize),
    /// Nothing: the message is no call, or one whose header can't be read.
    Silent,
}

/// The program number of the port mapper (RFC 1833, section 3.1).
const PORT_MAPPER: u32 = 100_000;

/// The version of it that is served.
const VERSION: u32 = 2;

// Reads a mapping.
fn read_mapping(r: &mut Reader) -> Result<Mapping, XdrErr>
    ensures { MatchResult result (λ m. mapping_at r.old ≡ Ok (m, r.new)) (λ e. mapping_at r.old ≡ Err e) }
{
    let prog = r.u32()?;
    let vers = r.u32()?;
    let prot = r.u32()?;
    let port = r.u32()?;
    Ok(Mapping {
        prog,
        vers,
        prot,
        port,
    })
}

// Arguments that are one mapping, with no byte behind it.
fn only_mapping(args: &[u8]) -> Option<Mapping>
    ensures { result ≡ one_mapping (mapping_at args.now) }
{
    let mut r = Reader::new(args);
    let Ok(asked) = read_mapping(&mut r) else {
        return None;
    };
    if r.at_end() { Some(asked) } else { None }
}

// What is answered to a procedure.
fn procedure_outcome(ports: &Ports, procedure: u32, args: &[u8]) -> Outcome
    ensures { outcome_numbers ports.now result ≡ procedure_answer ports.now procedure args.now }
{
    match procedure {
        0 if args.is_empty() => Outcome::Null,
        3 => match only_mapping(args) {
            Some(asked) => Outcome::Port(ports.port_of(&asked)),
            None => Outcome::GarbageArgs,
        },
        4 if args.is_empty() => Outcome::Dump,
        0 | 4 => Outcome::GarbageArgs,
        _ => Outcome::ProcUnavail,
    }
}

// What is answered to a call of RPC version 2.
fn outcome(ports: &Ports, program: u32, version: u32, procedure: u32, args: &[u8]) -> Outcome
    ensures { outcome_numbers ports.now result ≡ answer ports.now (record { program = program; version = version; procedure = procedure; args = args.now }) }
{
    if program != PORT_MAPPER {
        return Outcome::ProgUnavail;
    }
    if version != VERSION {
        return Outcome::ProgMismatch;
    }
    procedure_outcome(ports, procedure, args)
}

/// Answers a message by the table: its reply stands at the front of `out`, which keeps what is behind (RFC 1833, section 3).
///
/// `Silent` is for a message of fewer than 12 bytes, one whose second word isn't 0, and a call of RPC version 2 whose header
/// can't be read. Else the first that holds decides: a mismatch of RPC's version, the program isn't 100000, its version isn't
/// 2, the procedure is none of 0, 3 and 4, its arguments can't be read or have bytes behind them, the results. So the table
/// is never changed by a call.
pub fn map_answer(ports: &Ports, message: &[u8], out: &mut [u8]) -> MapAnswer
    requires { MESSAGE_MAX ≤ length out.old }
    ensures answer { shown result out.new ≡ reply ports.now message.now }
    ensures within { IfReply result (λ n. (0 < n) × (n ≤ MESSAGE_MAX)) }
    ensures behind { IfReply result (λ n. drop n out.new ≡ drop n out.old) }
    ensures silent { OnSilent result (out.new ≡ out.old) }
{
    match read_call(message) {
        CallRead::Junk => MapAnswer::Silent,
        CallRead::OtherVersion { xid } => MapAnswer::Reply(put_mismatch(xid, out)),
        CallRead::Call {
            xid,
            program,
            version,
            procedure,
            args,
        } => {
            let outcome = outcome(ports, program, version, procedure, args);
            MapAnswer::Reply(put_accepted(ports, xid, &outcome, out))
        }
    }
}
