ghost use Rattle.std.specs.Prelude.{◌≡◌, ◌+◌, ◌-◌, ◌<◌, ◌≤◌, ◌↔◌, ◌^◌, OnOk, OnErr, IsErr, length};
ghost use Rattle.vx_xdr.specs.Spelling.{Word, Signed, Flag, opaque, pad_len, spelling, word};
ghost use Rattle.vx_xdr.specs.Writing.{Writes, overwritten};

use crate::fault::Full;
use crate::reader::padding_len;
use byteorder::{BigEndian, ByteOrder};
use std::marker::Model;

/// A place in a slice, at which each call writes a value. A clause sees the place, in bytes from the slice's start.
#[derive(Drop)]
pub struct Writer {
    at: usize,
}

impl Model for Writer {
    ghost use Rattle.std.specs.Prelude.{ℕ};

    ghost Value = { ℕ };

    ghost view = { λ w. w.at };
}

#[inline]
fn put_word(out: &mut [u8], at: usize, value: u32)
    requires { at + 4 ≤ length out.old }
    ensures { out.new ≡ overwritten out.old at (word value) }
{
    BigEndian::write_u32(&mut out[at..], value);
}

#[inline]
fn put_bytes(out: &mut [u8], at: usize, bytes: &[u8])
    requires { at + length bytes.now ≤ length out.old }
    ensures { out.new ≡ overwritten out.old at bytes.now }
{
    out[at..at + bytes.len()].copy_from_slice(bytes);
}

// The length word, the bytes and `pad` zeros.
fn put_opaque(out: &mut [u8], at: usize, v: &[u8], pad: usize)
    requires short { length v.now < 2 ^ 32 }
    requires pad_is { pad ≡ pad_len (length v.now) }
    requires room { at + length (opaque v.now) ≤ length out.old }
    ensures { out.new ≡ overwritten out.old at (opaque v.now) }
{
    put_word(out, at, v.len() as u32);
    put_bytes(out, at + 4, v);
    put_bytes(out, at + 4 + v.len(), &[0; 3][..pad]);
}

impl Writer {
    /// A writer at place 0.
    #[inline]
    pub fn new() -> Writer
        ensures { result ≡ 0 }
    {
        Writer { at: 0 }
    }

    /// Writes an unsigned integer as four bytes (RFC 4506, section 4.2). `Full`, with nothing changed, exactly where
    /// fewer are left.
    #[inline]
    pub fn u32(&mut self, out: &mut [u8], v: u32) -> Result<(), Full>
        requires { self.old ≤ length out.old }
        ensures ok { OnOk result (Writes (spelling Word v) self.old out.old self.new out.new) }
        ensures full { IsErr result ↔ (length out.old < self.old + length (spelling Word v)) }
        ensures err { OnErr result ((self.new ≡ self.old) × (out.new ≡ out.old)) }
    {
        if out.len() - self.at < 4 {
            return Err(Full);
        }
        put_word(out, self.at, v);
        self.at += 4;
        Ok(())
    }

    /// Writes a signed integer as four bytes in two's complement (RFC 4506, section 4.1). `Full`, with nothing
    /// changed, exactly where fewer are left.
    #[inline]
    pub fn i32(&mut self, out: &mut [u8], v: i32) -> Result<(), Full>
        requires { self.old ≤ length out.old }
        ensures ok { OnOk result (Writes (spelling Signed v) self.old out.old self.new out.new) }
        ensures full { IsErr result ↔ (length out.old < self.old + length (spelling Signed v)) }
        ensures err { OnErr result ((self.new ≡ self.old) × (out.new ≡ out.old)) }
    {
        self.u32(out, v.cast_unsigned())
    }

    /// Writes a bool as the word 0 or 1 (RFC 4506, section 4.4). `Full`, with nothing changed, exactly where fewer
    /// than four bytes are left.
    #[inline]
    pub fn bool(&mut self, out: &mut [u8], v: bool) -> Result<(), Full>
        requires { self.old ≤ length out.old }
        ensures ok { OnOk result (Writes (spelling Flag v) self.old out.old self.new out.new) }
        ensures full { IsErr result ↔ (length out.old < self.old + length (spelling Flag v)) }
        ensures err { OnErr result ((self.new ≡ self.old) × (out.new ≡ out.old)) }
    {
        self.u32(out, u32::from(v))
    }

    /// Writes an opaque: its length word, its bytes, and zeros up to a multiple of four (RFC 4506, section 4.10).
    /// `Full`, with nothing changed, exactly where fewer bytes are left than that.
    pub fn opaque(&mut self, out: &mut [u8], v: &[u8]) -> Result<(), Full>
        requires place { self.old ≤ length out.old }
        requires short { length v.now < 2 ^ 32 }
        ensures ok { OnOk result (Writes (opaque v.now) self.old out.old self.new out.new) }
        ensures full { IsErr result ↔ (length out.old < self.old + length (opaque v.now)) }
        ensures err { OnErr result ((self.new ≡ self.old) × (out.new ≡ out.old)) }
    {
        let pad = padding_len(v.len());
        let size = 4 + v.len() + pad;
        if out.len() - self.at < size {
            return Err(Full);
        }
        put_opaque(out, self.at, v, pad);
        self.at += size;
        Ok(())
    }

    /// The place: how many bytes stand before it.
    #[inline]
    pub fn len(&self) -> usize
        ensures { result ≡ self.now }
    {
        self.at
    }
}
