ghost use Rattle.std.specs.Prelude.{◌≡◌, ◌+◌, ◌<◌, ◌≤◌, ◌↔◌, IsTrue, IfSome, IfOk, OnErr, IsErr, length};
ghost use Rattle.vx_xdr.specs.Spelling.{Word, Signed, Flag};
ghost use Rattle.vx_xdr.specs.Writing.{Writes, WritesFirst};
ghost use Rattle.vx_codec.specs.Row.{Whole, LowByte, Gives, field_at};
ghost use Rattle.vx_codec.specs.Asked.{bytes_to};
ghost use Rattle.vx_codec.specs.Text.{AreCounted, IsCounted, field_text, fields_text};

use vx_xdr::{Full, Reader, Writer};

/// A value that is written (RFC 4506).
#[derive(Clone, Copy)]
pub(crate) enum Field<'a> {
    Word(u32),
    Signed(i32),
    Flag(bool),
    Bytes(&'a [u8]),
}

#[tactic(auto, unfolding(crate::specs::Row::field_at))]
pub(crate) fn number(r: &mut Reader<'_>) -> Option<u32>
    ensures { Gives (λ v. v) result r.new (field_at (Whole Word) r.old) }
{
    r.u32().ok()
}

#[tactic(auto, unfolding(crate::specs::Row::field_at))]
pub(crate) fn signed(r: &mut Reader<'_>) -> Option<i32>
    ensures { Gives (λ v. v) result r.new (field_at (Whole Signed) r.old) }
{
    r.i32().ok()
}

#[tactic(auto, unfolding(crate::specs::Row::field_at))]
pub(crate) fn flag(r: &mut Reader<'_>) -> Option<bool>
    ensures { Gives (λ v. v) result r.new (field_at (Whole Flag) r.old) }
{
    r.bool().ok()
}

/// The low eight bits of a word of any value.
#[tactic(auto, unfolding(crate::specs::Row::field_at))]
pub(crate) fn low_byte(r: &mut Reader<'_>) -> Option<u8>
    ensures { Gives (λ v. v) result r.new (field_at LowByte r.old) }
{
    let word = r.u32().ok()?;
    Some((word % 256) as u8)
}

#[tactic(auto, unfolding(crate::specs::Row::field_at))]
pub(crate) fn bytes<'a>(r: &mut Reader<'a>, max: u32) -> Option<&'a [u8]>
    ensures value { Gives (λ v. v.now) result r.new (field_at (bytes_to max) r.old) }
    ensures within { IfSome result (λ v. length v.now ≤ max) }
{
    r.opaque(max).ok()
}

fn text_len(field: Field<'_>) -> usize
    requires { IsCounted field }
    ensures { result ≡ length (field_text field.entry) }
{
    match field {
        Field::Bytes(bytes) => 4 + bytes.len().next_multiple_of(4),
        _ => 4,
    }
}

/// Whether `room` bytes are enough for all the fields.
fn fits(fields: &[Field<'_>], room: usize) -> bool
    requires { AreCounted fields.now }
    ensures { IsTrue result ↔ (length (fields_text fields.now) ≤ room) }
{
    let mut left = room;
    for field in fields {
        let len = text_len(*field);
        if left < len {
            return false;
        }
        left -= len;
    }
    true
}

fn put_field(w: &mut Writer, field: Field<'_>, out: &mut [u8])
    requires counted { IsCounted field }
    requires room { w.old + length (field_text field) ≤ length out.old }
    ensures { Writes (field_text field.entry) w.old out.old w.new out.new }
{
    let _ = match field {
        Field::Word(number) => w.u32(out, number),
        Field::Signed(number) => w.i32(out, number),
        Field::Flag(flag) => w.bool(out, flag),
        Field::Bytes(bytes) => w.opaque(out, bytes),
    };
}

/// Writes the fields at the start of `out`, one behind the other, and answers how many bytes they take. `Full`, with
/// nothing written, exactly where they take more than `out` has.
pub(crate) fn put_fields(fields: &[Field<'_>], out: &mut [u8]) -> Result<usize, Full>
    requires { AreCounted fields.now }
    ensures ok { IfOk result (λ n. WritesFirst (fields_text fields.now) out.old n out.new) }
    ensures full { IsErr result ↔ (length out.old < length (fields_text fields.now)) }
    ensures err { OnErr result (out.new ≡ out.old) }
{
    if !fits(fields, out.len()) {
        return Err(Full);
    }
    Ok(put_all(fields, out))
}

fn put_all(fields: &[Field<'_>], out: &mut [u8]) -> usize
    requires counted { AreCounted fields.now }
    requires room { length (fields_text fields.now) ≤ length out.old }
    ensures { WritesFirst (fields_text fields.now) out.old result out.new }
{
    let mut w = Writer::new();
    for field in fields {
        put_field(&mut w, *field, out);
    }
    w.len()
}
