//! The standard library's readers and writers as a source and a sink: the trusted edge, a few lines each.

ghost use Rattle.std.specs.Prelude.{◌≡◌, ◌<◌, ◌≤◌, IfOk, IfSome, None, length};
ghost use Rattle.vx_io_traits.specs.Faults.{one_more};
ghost use Rattle.vx_io_traits.specs.Outs.{IfGot, IfTook, OnEnd, OnReadFailed, OnWriteFailed};

use std::io::{Error, ErrorKind, Read, Write};
use std::marker::Model;
use vx_io_traits::{ReadOut, Sink, Source, WriteOut};

/// How often in all a call is made that a signal interrupts.
pub(super) const TRIES: u32 = 64;

/// A source over a reader, as standard input. No contract knows its bytes; it is seen as its count of faults.
#[derive(Drop)]
pub struct StdSource<R> {
    reader: R,
    faults: u64,
}

impl<R> Model for StdSource<R> {
    ghost use Rattle.std.specs.Prelude.{ℕ};

    ghost Value = { ℕ };

    ghost view = { λ s. s.faults };
}

impl<R: Read> StdSource<R> {
    /// A source over `reader`, with no fault yet.
    pub fn new(reader: R) -> StdSource<R>
        ensures { result ≡ 0 }
    {
        StdSource { reader, faults: 0 }
    }
}

impl<R: Read> Source for StdSource<R> {
    ghost left = { λ _. None };

    ghost faults = { λ s. s };

    /// One read of the reader, straight into the slice. A read that errs counts a fault, and so does one that a
    /// signal interrupts each of 64 times.
    fn read(&mut self, into: &mut [u8]) -> ReadOut
        requires { 0 < length into.old }
        ensures counted { self.old ≤ self.new }
        ensures got { IfGot result (λ n. (0 < n) × (n ≤ length into.new) × (self.new ≡ self.old)) }
        ensures end { OnEnd result (self.new ≡ self.old) }
        ensures failed { OnReadFailed result (self.new ≡ one_more self.old) }
    {
        match read_retrying(&mut self.reader, into) {
            Some(0) => ReadOut::End,
            Some(count) => ReadOut::Got(count),
            None => {
                self.faults = self.faults.saturating_add(1);
                ReadOut::Failed
            }
        }
    }
}

/// A sink over a writer, as standard output. No contract knows what it took; it is seen as its count of faults.
#[derive(Drop)]
pub struct StdSink<W> {
    writer: W,
    faults: u64,
}

impl<W> Model for StdSink<W> {
    ghost use Rattle.std.specs.Prelude.{ℕ};

    ghost Value = { ℕ };

    ghost view = { λ s. s.faults };
}

impl<W: Write> StdSink<W> {
    /// A sink over `writer`, with no fault yet.
    pub fn new(writer: W) -> StdSink<W>
        ensures { result ≡ 0 }
    {
        StdSink { writer, faults: 0 }
    }
}

impl<W: Write> Sink for StdSink<W> {
    ghost taken = { λ _. None };

    ghost faults = { λ s. s };

    /// One write of the writer. A write that errs or takes nothing counts a fault, and so does one that a signal
    /// interrupts each of 64 times.
    fn write(&mut self, from: &[u8]) -> WriteOut
        requires { 0 < length from.now }
        ensures counted { self.old ≤ self.new }
        ensures took { IfTook result (λ n. (0 < n) × (n ≤ length from.now) × (self.new ≡ self.old)) }
        ensures failed { OnWriteFailed result (self.new ≡ one_more self.old) }
    {
        match write_retrying(&mut self.writer, from) {
            Some(count) if count > 0 => WriteOut::Took(count),
            _ => {
                self.faults = self.faults.saturating_add(1);
                WriteOut::Failed
            }
        }
    }
}

/// How many bytes a read gave, 0 at the end, or how it failed.
pub(super) fn try_read<R: Read>(reader: &mut R, into: &mut [u8]) -> Result<usize, ErrorKind>
    ensures { IfOk result (λ n. n ≤ length into.new) }
{
    for _ in 0..TRIES {
        match reader.read(into) {
            Ok(count) => return Ok(count),
            Err(error) if is_interrupted(&error) => {}
            Err(error) => return Err(error.kind()),
        }
    }
    Err(ErrorKind::Interrupted)
}

/// How many bytes a read gave, 0 at the end, or none where it failed.
pub(super) fn read_retrying<R: Read>(reader: &mut R, into: &mut [u8]) -> Option<usize>
    ensures { IfSome result (λ n. n ≤ length into.new) }
{
    try_read(reader, into).ok()
}

/// How many bytes a write took, or none where it failed.
pub(super) fn write_retrying<W: Write>(writer: &mut W, from: &[u8]) -> Option<usize>
    ensures { IfSome result (λ n. n ≤ length from.now) }
{
    for _ in 0..TRIES {
        match writer.write(from) {
            Ok(count) => return Some(count),
            Err(error) if is_interrupted(&error) => {}
            Err(_) => return None,
        }
    }
    None
}

fn is_interrupted(error: &Error) -> bool {
    error.kind() == ErrorKind::Interrupted
}
