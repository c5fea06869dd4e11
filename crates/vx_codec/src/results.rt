ghost use Rattle.std.specs.Prelude.{◌≡◌, ◌<◌, ◌↔◌, IfOk, IfSome, IfNone, OnErr, IsErr, length, option_map, Some};
ghost use Rattle.vx_xdr.specs.Writing.{WritesFirst};
ghost use Rattle.vx_calls.specs.declared.calls.Proc.{Proc};
ghost use Rattle.vx_calls.specs.Reply.{reply_shown};
ghost use Rattle.vx_codec.specs.Row.{Gives};
ghost use Rattle.vx_codec.specs.Answered.{Answers, CommandData, ErrorAlone, IsPuttableReply, LinkMade, Outcome, ReadData, Status, Written, answered, form_of, outcome_at, results, results_shown, reply_form, reply_outcome};

use crate::fields::{Field, bytes, low_byte, number, put_fields};
use vx_calls::{Proc, ReplyRef};
use vx_xdr::{Full, Reader};

/// The results of a call as its client reads them. An error is the number that stands in the reply, whether or not
/// it is one of VXI-11's (Device_ErrorCode).
#[derive(Clone, Copy, PartialEq, Eq)]
pub enum Results<'a> {
    Null,
    CreateLink {
        error: u32,
        lid: u32,
        abort_port: u32,
        max: u32,
    },
    Write {
        error: u32,
        size: u32,
    },
    Read {
        error: u32,
        reason: u32,
        bytes: &'a [u8],
    },
    Stb {
        error: u32,
        stb: u8,
    },
    Docmd {
        error: u32,
        bytes: &'a [u8],
    },
    Error {
        error: u32,
    },
}

fn create_link<'a>(r: &mut Reader<'a>) -> Option<Results<'a>>
    ensures { Gives results_shown result r.new (outcome_at LinkMade r.old) }
{
    Some(Results::CreateLink {
        error: number(r)?,
        lid: number(r)?,
        abort_port: number(r)?,
        max: number(r)?,
    })
}

fn write<'a>(r: &mut Reader<'a>) -> Option<Results<'a>>
    ensures { Gives results_shown result r.new (outcome_at Written r.old) }
{
    Some(Results::Write {
        error: number(r)?,
        size: number(r)?,
    })
}

fn read<'a>(r: &mut Reader<'a>) -> Option<Results<'a>>
    ensures { Gives results_shown result r.new (outcome_at ReadData r.old) }
{
    Some(Results::Read {
        error: number(r)?,
        reason: number(r)?,
        bytes: bytes(r, u32::MAX)?,
    })
}

fn stb<'a>(r: &mut Reader<'a>) -> Option<Results<'a>>
    ensures { Gives results_shown result r.new (outcome_at Status r.old) }
{
    Some(Results::Stb {
        error: number(r)?,
        stb: low_byte(r)?,
    })
}

fn docmd<'a>(r: &mut Reader<'a>) -> Option<Results<'a>>
    ensures { Gives results_shown result r.new (outcome_at CommandData r.old) }
{
    Some(Results::Docmd {
        error: number(r)?,
        bytes: bytes(r, u32::MAX)?,
    })
}

fn error<'a>(r: &mut Reader<'a>) -> Option<Results<'a>>
    ensures { Gives results_shown result r.new (outcome_at ErrorAlone r.old) }
{
    Some(Results::Error { error: number(r)? })
}

fn outcome<'a>(proc: Proc, r: &mut Reader<'a>) -> Option<Results<'a>>
    ensures { Gives results_shown result r.new (outcome_at (form_of proc) r.old) }
{
    match proc {
        Proc::Null => Some(Results::Null),
        Proc::CreateLink => create_link(r),
        Proc::Write => write(r),
        Proc::Read => read(r),
        Proc::ReadStb => stb(r),
        Proc::Docmd => docmd(r),
        _ => error(r),
    }
}

/// The results of the procedure that these bytes are, all of them, or `None` where they spell none (VXI-11, programs
/// DEVICE_CORE and DEVICE_ASYNC).
///
/// Byte strings are parts of `results`. A status byte is the low eight bits of its word.
pub fn read_results<'a>(proc: Proc, results: &'a [u8]) -> Option<Results<'a>>
    ensures exact { option_map results_shown result ≡ answered proc results.now }

    // The bytes spell the results, and where none are found they spell none.
    ensures found { IfSome result (λ found. Answers (form_of proc) (results_shown found) results.now) }
    ensures none { IfNone result ((outcome : Outcome) → Answers (form_of proc) outcome results.now → ⊥) }
{
    let mut r = Reader::new(results);
    let found = outcome(proc, &mut r)?;
    if r.at_end() { Some(found) } else { None }
}

/// Writes the results of a call at the start of `out`, and answers how many bytes they take (VXI-11, programs
/// DEVICE_CORE and DEVICE_ASYNC). `Full`, with nothing written, exactly where they take more than `out` has.
///
/// A status byte is written as a word with zeros above it.
pub fn put_results(reply: &ReplyRef<'_>, out: &mut [u8]) -> Result<usize, Full>
    requires { IsPuttableReply (reply_shown reply.now) }
    ensures ok { IfOk result (λ n. WritesFirst (results (reply_shown reply.now)) out.old n out.new) }
    ensures full { IsErr result ↔ (length out.old < length (results (reply_shown reply.now))) }
    ensures err { OnErr result (out.new ≡ out.old) }

    // What is written is read as the reply again, by each procedure that answers its structure.
    ensures again { (proc : Proc) → form_of proc ≡ reply_form (reply_shown reply.now) → answered proc (results (reply_shown reply.now)) ≡ Some (reply_outcome (reply_shown reply.now)) }
{
    match reply {
        ReplyRef::Null => put_fields(&[], out),
        ReplyRef::CreateLink {
            error,
            lid,
            abort_port,
            max,
        } => put_fields(
            &[
                Field::Word(error.number()),
                Field::Word(*lid),
                Field::Word(*abort_port),
                Field::Word(*max),
            ],
            out,
        ),
        ReplyRef::Write { error, size } => {
            put_fields(&[Field::Word(error.number()), Field::Word(*size)], out)
        }
        ReplyRef::Read {
            error,
            reason,
            bytes,
        } => put_fields(
            &[
                Field::Word(error.number()),
                Field::Word(*reason),
                Field::Bytes(bytes),
            ],
            out,
        ),
        ReplyRef::Stb { error, stb } => put_fields(
            &[Field::Word(error.number()), Field::Word(u32::from(*stb))],
            out,
        ),
        ReplyRef::Docmd { error, bytes } => {
            put_fields(&[Field::Word(error.number()), Field::Bytes(bytes)], out)
        }
        ReplyRef::Error { error } => put_fields(&[Field::Word(error.number())], out),
    }
}
