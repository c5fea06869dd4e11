ghost use Rattle.std.specs.Prelude.{◌≡◌, ◌+◌, ◌<◌, ◌≤◌, ◌↔◌, ◌==◌, Ok, Err, IfOk, IfErr, IsTrue, [], length};
ghost use Rattle.std.specs.List.{list_all};
ghost use Rattle.vx_xdr.specs.Spelling.{Word, Signed, Flag, Opaque, pad_len};
ghost use Rattle.vx_xdr.specs.Reading.{Gives, reading, flag_of};

use crate::fault::XdrErr;
use byteorder::{BigEndian, ByteOrder};
use std::marker::Model;

/// Reads values from the front of a slice. A clause sees the bytes that are left.
#[derive(Drop)]
pub struct Reader<'a> {
    bytes: &'a [u8],
}

impl<'a> Model for Reader<'a> {
    ghost use Rattle.std.specs.Prelude.{ℕ, List};

    ghost Value = { List ℕ };

    ghost view = { λ r. r.bytes.now };
}

/// How many zero bytes bring `len` bytes up to a multiple of four: 0 to 3 (RFC 4506, section 4.10).
#[inline]
pub(crate) fn padding_len(len: usize) -> usize
    ensures count { result ≡ pad_len len }
    ensures few { result < 4 }
{
    (4 - len % 4) % 4
}

#[inline]
fn is_zero(bytes: &[u8]) -> bool
    ensures { result ≡ list_all (λ b. b == 0) bytes.now }
{
    bytes.iter().all(|b| *b == 0)
}

#[inline]
fn word_at(bytes: &[u8]) -> Result<(u32, &[u8]), XdrErr>
    ensures { Gives (λ x. (x.0, x.1.now)) result (reading Word bytes.now) }
{
    if bytes.len() < 4 {
        return Err(XdrErr::Short);
    }
    Ok((BigEndian::read_u32(bytes), &bytes[4..]))
}

#[inline]
fn flag(word: u32) -> Result<bool, XdrErr>
    ensures { result ≡ flag_of word }
{
    match word {
        0 => Ok(false),
        1 => Ok(true),
        _ => Err(XdrErr::Bool),
    }
}

#[inline]
fn opaque_at(bytes: &[u8], max: u32) -> Result<(&[u8], &[u8]), XdrErr>
    ensures value { Gives (λ x. (x.0.now, x.1.now)) result (reading (Opaque max) bytes.now) }
    ensures within { IfOk result (λ x. length x.0.now ≤ max) }
{
    let (len, rest) = word_at(bytes)?;
    if max < len {
        return Err(XdrErr::Long);
    }
    let len = len as usize;
    let pad = padding_len(len);
    if rest.len() < len + pad {
        return Err(XdrErr::Short);
    }
    if !is_zero(&rest[len..len + pad]) {
        return Err(XdrErr::Pad);
    }
    Ok((&rest[..len], &rest[len + pad..]))
}

impl<'a> Reader<'a> {
    /// A reader of all of the bytes.
    #[inline]
    pub fn new(bytes: &'a [u8]) -> Reader<'a>
        ensures { result ≡ bytes.now }
    {
        Reader { bytes }
    }

    /// Reads an unsigned integer (RFC 4506, section 4.2). After an `Err`, which is `Short`, nothing has been read.
    #[inline]
    pub fn u32(&mut self) -> Result<u32, XdrErr>
        ensures ok { IfOk result (λ v. reading Word self.old ≡ Ok (v, self.new)) }
        ensures err { IfErr result (λ e. (reading Word self.old ≡ Err e) × (self.new ≡ self.old)) }
    {
        let (value, rest) = word_at(self.bytes)?;
        self.bytes = rest;
        Ok(value)
    }

    /// Reads a signed integer in two's complement (RFC 4506, section 4.1). After an `Err`, which is `Short`, nothing
    /// has been read.
    #[inline]
    pub fn i32(&mut self) -> Result<i32, XdrErr>
        ensures ok { IfOk result (λ v. reading Signed self.old ≡ Ok (v, self.new)) }
        ensures err { IfErr result (λ e. (reading Signed self.old ≡ Err e) × (self.new ≡ self.old)) }
    {
        let (value, rest) = word_at(self.bytes)?;
        self.bytes = rest;
        Ok(value.cast_signed())
    }

    /// Reads a bool, a word that is 0 or 1 (RFC 4506, section 4.4). After an `Err`, `Short` or `Bool`, nothing has
    /// been read.
    #[inline]
    pub fn bool(&mut self) -> Result<bool, XdrErr>
        ensures ok { IfOk result (λ v. reading Flag self.old ≡ Ok (v, self.new)) }
        ensures err { IfErr result (λ e. (reading Flag self.old ≡ Err e) × (self.new ≡ self.old)) }
    {
        let (word, rest) = word_at(self.bytes)?;
        let value = flag(word)?;
        self.bytes = rest;
        Ok(value)
    }

    /// Reads an opaque of at most `max` bytes (RFC 4506, section 4.10) as a part of the slice that is read. A length
    /// word above `max` is `Long`, whatever follows it; then comes `Short`, then `Pad`. After an `Err` nothing has
    /// been read.
    #[inline]
    pub fn opaque(&mut self, max: u32) -> Result<&'a [u8], XdrErr>
        ensures ok { IfOk result (λ v. reading (Opaque max) self.old ≡ Ok (v.now, self.new)) }
        ensures within { IfOk result (λ v. length v.now ≤ max) }
        ensures err { IfErr result (λ e. (reading (Opaque max) self.old ≡ Err e) × (self.new ≡ self.old)) }
    {
        let (value, rest) = opaque_at(self.bytes, max)?;
        self.bytes = rest;
        Ok(value)
    }

    /// Whether no byte is left.
    #[inline]
    pub fn at_end(&self) -> bool
        ensures { IsTrue result ↔ (self.now ≡ []) }
    {
        self.bytes.is_empty()
    }
}
