ghost use Rattle.std.specs.Prelude.{◌≡◌, ◌<◌, ◌≤◌, ◌↔◌, IfOk, IfSome, IfNone, OnErr, IsErr, length, option_map, Some, true};
ghost use Rattle.vx_xdr.specs.Spelling.{opaque};
ghost use Rattle.vx_xdr.specs.Writing.{WritesFirst};
ghost use Rattle.vx_calls.specs.declared.calls.Proc.TheVariants as proc;
ghost use Rattle.vx_calls.specs.Call.{Call, call_shown};
ghost use Rattle.vx_codec.specs.Row.{Gives, field_at, row_at, RowFits};
ghost use Rattle.vx_codec.specs.Asked.{Asks, arguments, asked, bytes_to, call_at, generic, generic_bytes, generic_of, IsPuttable, generic_values, is_other, proc_of};

use crate::fields::{Field, bytes, flag, low_byte, number, put_fields, signed};
use arrayvec::ArrayVec;
use vx_calls::{CallRef, DEVICE_MAX, Generic, HANDLE_MAX, Handle, Proc};
use vx_xdr::{Full, Reader};

fn generic_parms(r: &mut Reader<'_>) -> Option<Generic>
    ensures { Gives (λ g. g) result r.new (option_map (λ found. (generic_of found.0, found.1)) (row_at generic r.old)) }
{
    Some(Generic {
        lid: number(r)?,
        flags: number(r)?,
        lock_timeout: number(r)?,
        io_timeout: number(r)?,
    })
}

fn create_link<'a>(r: &mut Reader<'a>) -> Option<CallRef<'a>>
    ensures { Gives call_shown result r.new (call_at proc.CreateLink r.old) }
{
    Some(CallRef::CreateLink {
        client: signed(r)?,
        lock: flag(r)?,
        lock_timeout: number(r)?,
        device: bytes(r, DEVICE_MAX as u32)?,
    })
}

fn write<'a>(r: &mut Reader<'a>) -> Option<CallRef<'a>>
    ensures { Gives call_shown result r.new (call_at proc.Write r.old) }
{
    Some(CallRef::Write {
        lid: number(r)?,
        io_timeout: number(r)?,
        lock_timeout: number(r)?,
        flags: number(r)?,
        bytes: bytes(r, u32::MAX)?,
    })
}

fn read<'a>(r: &mut Reader<'a>) -> Option<CallRef<'a>>
    ensures { Gives call_shown result r.new (call_at proc.Read r.old) }
{
    Some(CallRef::Read {
        lid: number(r)?,
        request: number(r)?,
        io_timeout: number(r)?,
        lock_timeout: number(r)?,
        flags: number(r)?,
        term: low_byte(r)?,
    })
}

fn read_stb<'a>(r: &mut Reader<'a>) -> Option<CallRef<'a>>
    ensures { Gives call_shown result r.new (call_at proc.ReadStb r.old) }
{
    Some(CallRef::ReadStb(generic_parms(r)?))
}

fn trigger<'a>(r: &mut Reader<'a>) -> Option<CallRef<'a>>
    ensures { Gives call_shown result r.new (call_at proc.Trigger r.old) }
{
    Some(CallRef::Trigger(generic_parms(r)?))
}

fn clear<'a>(r: &mut Reader<'a>) -> Option<CallRef<'a>>
    ensures { Gives call_shown result r.new (call_at proc.Clear r.old) }
{
    Some(CallRef::Clear(generic_parms(r)?))
}

fn remote<'a>(r: &mut Reader<'a>) -> Option<CallRef<'a>>
    ensures { Gives call_shown result r.new (call_at proc.Remote r.old) }
{
    Some(CallRef::Remote(generic_parms(r)?))
}

fn local<'a>(r: &mut Reader<'a>) -> Option<CallRef<'a>>
    ensures { Gives call_shown result r.new (call_at proc.Local r.old) }
{
    Some(CallRef::Local(generic_parms(r)?))
}

fn lock<'a>(r: &mut Reader<'a>) -> Option<CallRef<'a>>
    ensures { Gives call_shown result r.new (call_at proc.Lock r.old) }
{
    Some(CallRef::Lock {
        lid: number(r)?,
        flags: number(r)?,
        lock_timeout: number(r)?,
    })
}

/// A handle of these bytes.
fn handle_of(bytes: &[u8]) -> Handle
    requires { length bytes.now ≤ HANDLE_MAX }
    ensures { result.bytes.items ≡ bytes.now }
{
    let mut kept = ArrayVec::new();
    let _ = kept.try_extend_from_slice(bytes);
    Handle { bytes: kept }
}

fn handle(r: &mut Reader<'_>) -> Option<Handle>
    ensures { Gives (λ h. h.bytes.items) result r.new (field_at (bytes_to HANDLE_MAX) r.old) }
{
    let bytes = bytes(r, HANDLE_MAX as u32)?;
    Some(handle_of(bytes))
}

fn enable_srq<'a>(r: &mut Reader<'a>) -> Option<CallRef<'a>>
    ensures { Gives call_shown result r.new (call_at proc.EnableSrq r.old) }
{
    Some(CallRef::EnableSrq {
        lid: number(r)?,
        enable: flag(r)?,
        handle: handle(r)?,
    })
}

fn docmd<'a>(r: &mut Reader<'a>) -> Option<CallRef<'a>>
    ensures { Gives call_shown result r.new (call_at proc.Docmd r.old) }
{
    Some(CallRef::Docmd {
        lid: number(r)?,
        flags: number(r)?,
        io_timeout: number(r)?,
        lock_timeout: number(r)?,
        cmd: number(r)?,
        big: flag(r)?,
        size: number(r)?,
        bytes: bytes(r, u32::MAX)?,
    })
}

fn create_intr<'a>(r: &mut Reader<'a>) -> Option<CallRef<'a>>
    ensures { Gives call_shown result r.new (call_at proc.CreateIntr r.old) }
{
    Some(CallRef::CreateIntr {
        host: number(r)?,
        port: number(r)?,
        prog: number(r)?,
        vers: number(r)?,
        family: number(r)?,
    })
}

fn unlock<'a>(r: &mut Reader<'a>) -> Option<CallRef<'a>>
    ensures { Gives call_shown result r.new (call_at proc.Unlock r.old) }
{
    Some(CallRef::Unlock { lid: number(r)? })
}

fn destroy_link<'a>(r: &mut Reader<'a>) -> Option<CallRef<'a>>
    ensures { Gives call_shown result r.new (call_at proc.DestroyLink r.old) }
{
    Some(CallRef::DestroyLink { lid: number(r)? })
}

fn device_abort<'a>(r: &mut Reader<'a>) -> Option<CallRef<'a>>
    ensures { Gives call_shown result r.new (call_at proc.DeviceAbort r.old) }
{
    Some(CallRef::DeviceAbort { lid: number(r)? })
}

fn call<'a>(proc: Proc, r: &mut Reader<'a>) -> Option<CallRef<'a>>
    ensures { Gives call_shown result r.new (call_at proc r.old) }
{
    match proc {
        Proc::Null => Some(CallRef::Null),
        Proc::CreateLink => create_link(r),
        Proc::Write => write(r),
        Proc::Read => read(r),
        Proc::ReadStb => read_stb(r),
        Proc::Trigger => trigger(r),
        Proc::Clear => clear(r),
        Proc::Remote => remote(r),
        Proc::Local => local(r),
        Proc::Lock => lock(r),
        Proc::Unlock => unlock(r),
        Proc::EnableSrq => enable_srq(r),
        Proc::Docmd => docmd(r),
        Proc::DestroyLink => destroy_link(r),
        Proc::CreateIntr => create_intr(r),
        Proc::DestroyIntr => Some(CallRef::DestroyIntr),
        Proc::DeviceAbort => device_abort(r),
    }
}

/// The call whose arguments are these bytes, all of them, or `None` where they spell none (VXI-11, programs
/// DEVICE_CORE and DEVICE_ASYNC).
///
/// Byte strings are parts of `args`; a device text has at most `DEVICE_MAX` bytes and a handle at most `HANDLE_MAX`.
pub fn read_args<'a>(proc: Proc, args: &'a [u8]) -> Option<CallRef<'a>>
    ensures exact { option_map call_shown result ≡ asked proc args.now }

    // The bytes spell the call, and where none is found they spell none.
    ensures found { IfSome result (λ call. Asks proc (call_shown call) args.now) }
    ensures none { IfNone result ((call : Call) → Asks proc call args.now → ⊥) }

    // What was read can be written, so it keeps the lengths that its fields allow, and in as many bytes.
    ensures puttable { IfSome result (λ call. IsPuttable (call_shown call)) }
    ensures len { IfSome result (λ call. length (arguments (call_shown call)) ≡ length args.now) }
{
    let mut r = Reader::new(args);
    let found = call(proc, &mut r)?;
    if r.at_end() { Some(found) } else { None }
}

/// Writes the arguments of the call at the start of `out`, and answers how many bytes they take (VXI-11, programs
/// DEVICE_CORE and DEVICE_ASYNC). `Full`, with nothing written, exactly where they take more than `out` has.
///
/// The termination character of a device_read is written as a word with zeros above it.
pub fn put_args(call: &CallRef<'_>, out: &mut [u8]) -> Result<usize, Full>
    requires { IsPuttable (call_shown call.now) }
    ensures ok { IfOk result (λ n. WritesFirst (arguments (call_shown call.now)) out.old n out.new) }
    ensures full { IsErr result ↔ (length out.old < length (arguments (call_shown call.now))) }
    ensures err { OnErr result (out.new ≡ out.old) }

    // What is written is read as the call again.
    ensures again { asked (proc_of (call_shown call.now)) (arguments (call_shown call.now)) ≡ Some (call_shown call.now) }
{
    match call {
        CallRef::Null => put_fields(&[], out),
        CallRef::CreateLink {
            client,
            lock,
            lock_timeout,
            device,
        } => put_fields(
            &[
                Field::Signed(*client),
                Field::Flag(*lock),
                Field::Word(*lock_timeout),
                Field::Bytes(device),
            ],
            out,
        ),
        CallRef::Write {
            lid,
            io_timeout,
            lock_timeout,
            flags,
            bytes,
        } => put_fields(
            &[
                Field::Word(*lid),
                Field::Word(*io_timeout),
                Field::Word(*lock_timeout),
                Field::Word(*flags),
                Field::Bytes(bytes),
            ],
            out,
        ),
        CallRef::Read {
            lid,
            request,
            io_timeout,
            lock_timeout,
            flags,
            term,
        } => put_fields(
            &[
                Field::Word(*lid),
                Field::Word(*request),
                Field::Word(*io_timeout),
                Field::Word(*lock_timeout),
                Field::Word(*flags),
                Field::Word(u32::from(*term)),
            ],
            out,
        ),
        CallRef::ReadStb(generic) => put_generic(*generic, out),
        CallRef::Trigger(generic) => put_generic(*generic, out),
        CallRef::Clear(generic) => put_generic(*generic, out),
        CallRef::Remote(generic) => put_generic(*generic, out),
        CallRef::Local(generic) => put_generic(*generic, out),
        _ => put_other_args(call, out),
    }
}

/// The same of the calls that have neither Device_GenericParms nor make, write to or read from a link.
fn put_other_args(call: &CallRef<'_>, out: &mut [u8]) -> Result<usize, Full>
    requires other { is_other (call_shown call.now) ≡ true }
    requires puttable { IsPuttable (call_shown call.now) }
    ensures ok { IfOk result (λ n. WritesFirst (arguments (call_shown call.now)) out.old n out.new) }
    ensures full { IsErr result ↔ (length out.old < length (arguments (call_shown call.now))) }
    ensures err { OnErr result (out.new ≡ out.old) }
    ensures again { asked (proc_of (call_shown call.now)) (arguments (call_shown call.now)) ≡ Some (call_shown call.now) }
{
    match call {
        CallRef::Lock {
            lid,
            flags,
            lock_timeout,
        } => put_fields(
            &[
                Field::Word(*lid),
                Field::Word(*flags),
                Field::Word(*lock_timeout),
            ],
            out,
        ),
        CallRef::Unlock { lid } => put_fields(&[Field::Word(*lid)], out),
        CallRef::EnableSrq {
            lid,
            enable,
            handle,
        } => put_fields(
            &[
                Field::Word(*lid),
                Field::Flag(*enable),
                Field::Bytes(handle.bytes.as_slice()),
            ],
            out,
        ),
        CallRef::Docmd {
            lid,
            flags,
            io_timeout,
            lock_timeout,
            cmd,
            big,
            size,
            bytes,
        } => put_fields(
            &[
                Field::Word(*lid),
                Field::Word(*flags),
                Field::Word(*io_timeout),
                Field::Word(*lock_timeout),
                Field::Word(*cmd),
                Field::Flag(*big),
                Field::Word(*size),
                Field::Bytes(bytes),
            ],
            out,
        ),
        CallRef::DestroyLink { lid } => put_fields(&[Field::Word(*lid)], out),
        CallRef::CreateIntr {
            host,
            port,
            prog,
            vers,
            family,
        } => put_fields(
            &[
                Field::Word(*host),
                Field::Word(*port),
                Field::Word(*prog),
                Field::Word(*vers),
                Field::Word(*family),
            ],
            out,
        ),
        CallRef::DestroyIntr => put_fields(&[], out),
        CallRef::DeviceAbort { lid } => put_fields(&[Field::Word(*lid)], out),
        _ => unreachable!(),
    }
}

fn put_generic(parms: Generic, out: &mut [u8]) -> Result<usize, Full>
    ensures ok { IfOk result (λ n. WritesFirst (generic_bytes parms) out.old n out.new) }
    ensures full { IsErr result ↔ (length out.old < length (generic_bytes parms)) }
    ensures err { OnErr result (out.new ≡ out.old) }
    ensures fits { RowFits generic (generic_values parms) }
{
    put_fields(
        &[
            Field::Word(parms.lid),
            Field::Word(parms.flags),
            Field::Word(parms.lock_timeout),
            Field::Word(parms.io_timeout),
        ],
        out,
    )
}

/// Writes the argument of device_intr_srq, the handle as an opaque (VXI-11, Device_SrqParms), at the start of `out`,
/// and answers how many bytes it takes. `Full`, with nothing written, exactly where it takes more than `out` has.
pub fn put_srq(handle: &Handle, out: &mut [u8]) -> Result<usize, Full>
    ensures ok { IfOk result (λ n. WritesFirst (opaque handle.now.bytes.items) out.old n out.new) }
    ensures full { IsErr result ↔ (length out.old < length (opaque handle.now.bytes.items)) }
    ensures err { OnErr result (out.new ≡ out.old) }
{
    put_fields(&[Field::Bytes(handle.bytes.as_slice())], out)
}
