//! Streams of records, each cut at each place.

ghost use Rattle.std.specs.Prelude.{◌≡◌, IfOk};
ghost use Rattle.vx_record.specs.declared.Feed.{Feed};

use std::alloc::{AllocError, Global};
use std::test::Fail;
use vx_record::*;

// A buffer's limit, a stream composed by hand, and what comes of it wherever it is cut: the bytes of its whole records, each
// behind its length, the last state, and how many stream bytes came since the last whole record.
static STREAMS: [(usize, &[u8], (&[u8], Feed, usize)); 13] = [
    // Nothing; a header that comes in; a header of a fragment of no bytes that isn't the last.
    (9, b"", (b"", Feed::More, 0)),
    (9, b"\x80\x00\x00", (b"", Feed::More, 3)),
    (9, b"\x00\x00\x00\x00", (b"", Feed::More, 4)),
    // Ten bytes of a fragment that isn't the last.
    (10, b"\x00\x00\x00\x0Aabcdefghij", (b"", Feed::More, 14)),
    // A record of no bytes, alone and of three fragments.
    (0, b"\x80\x00\x00\x00", (b"\x00", Feed::Whole, 0)),
    (0, b"\0\0\0\0\0\0\0\0\x80\0\0\0", (b"\x00", Feed::Whole, 0)),
    // A record at the limit, in one fragment and in two; the bytes of the next behind it.
    (3, b"\x80\0\0\x03abc", (b"\x03abc", Feed::Whole, 0)),
    (
        3,
        b"\0\0\0\x01a\x80\0\0\x02bc\x80\0",
        (b"\x03abc", Feed::More, 2),
    ),
    // One above it, in one fragment and in two; what stands behind the header doesn't count.
    (3, b"\x80\0\0\x04abcd", (b"", Feed::TooLong, 4)),
    (3, b"\0\0\0\x01a\x80\0\0\x03bcd", (b"", Feed::TooLong, 9)),
    (3, b"\x80\0\0\x01a\0\0\0\xFFb", (b"\x01a", Feed::TooLong, 4)),
    // Two records in one piece.
    (
        9,
        b"\x80\0\0\x02ab\x80\0\0\x01c",
        (b"\x02ab\x01c", Feed::Whole, 0),
    ),
    // A record of 54 bytes, as its header says.
    (
        263_168,
        b"\x80\0\0\x36\x01\x02\x03\x04\x05\x06\x07\x08\x09\x0a\x0b\x0c\x0d\x0e\x0f\x10\x11\x12\x13\x14\x15\x16\x17\x18\x19\x1a\x1b\x1c\x1d\x1e\x1f\x20\x21\x22\x23\x24\x25\x26\x27\x28\x29\x2a\x2b\x2c\x2d\x2e\x2f\x30\x31\x32\x33\x34\x35\x36",
        (
            b"\x36\x01\x02\x03\x04\x05\x06\x07\x08\x09\x0a\x0b\x0c\x0d\x0e\x0f\x10\x11\x12\x13\x14\x15\x16\x17\x18\x19\x1a\x1b\x1c\x1d\x1e\x1f\x20\x21\x22\x23\x24\x25\x26\x27\x28\x29\x2a\x2b\x2c\x2d\x2e\x2f\x30\x31\x32\x33\x34\x35\x36",
            Feed::Whole,
            0,
        ),
    ),
];

/// Puts the whole record behind `records`, behind its length.
fn keep(buf: &RecordBuf, records: &mut Vec<u8>) -> Result<(), AllocError>
    requires { buf.now.state ≡ Feed.Whole }
{
    let whole = buf.whole();
    records.push((whole.len() % 256) as u8)?;
    records.extend_from_slice(whole)
}

/// Takes a piece of a stream, record by record, and answers the state behind it.
fn take(buf: &mut RecordBuf, mut piece: &[u8], records: &mut Vec<u8>) -> Result<Feed, AllocError>
    requires { buf.old.state ≡ Feed.More }
    ensures { IfOk result (λ state. (state ≡ Feed.TooLong → ⊥) → buf.new.state ≡ Feed.More) }
{
    let mut state = Feed::More;
    while !piece.is_empty() {
        let fed = buf.feed(piece);
        piece = &piece[fed.took..];
        match fed.state {
            Feed::More => return Ok(Feed::More),
            Feed::TooLong => return Ok(Feed::TooLong),
            Feed::Whole => {
                keep(buf, records)?;
                buf.next();
                state = Feed::Whole;
            }
        }
    }
    Ok(state)
}

/// Plays a stream in two pieces, and answers the last state and the rest.
fn play(
    buf: &mut RecordBuf,
    stream: &[u8],
    cut: usize,
    records: &mut Vec<u8>,
) -> Result<(Feed, usize), AllocError>
    requires { buf.old.state ≡ Feed.More }
{
    let (front, back) = stream.split_at(cut.min(stream.len()));
    let mut state = take(buf, front, records)?;
    if state != Feed::TooLong && !back.is_empty() {
        state = take(buf, back, records)?;
    }
    Ok((state, buf.rest()))
}

/// A buffer of `limit` bytes.
fn buffer(alloc: Global, limit: usize) -> Result<RecordBuf, Fail>
    ensures { IfOk result (λ buf. buf.state ≡ Feed.More) }
{
    RecordBuf::new(alloc, limit).map_err(|_| "no memory".into())
}

/// Plays a stream in two pieces through a buffer of `limit` bytes.
fn played(
    alloc: Global,
    limit: usize,
    stream: &[u8],
    cut: usize,
    records: &mut Vec<u8>,
) -> Result<(Feed, usize), Fail> {
    records.clear();
    let mut buf = buffer(alloc, limit)?;
    Ok(play(&mut buf, stream, cut, records)?)
}

/// The first place at which a stream is cut and comes to something else.
fn first_cut(
    alloc: Global,
    limit: usize,
    stream: &[u8],
    want: (&[u8], Feed, usize),
) -> Result<Option<usize>, Fail> {
    let mut records = Vec::new(alloc);
    for cut in 0..=stream.len() {
        let (state, rest) = played(alloc, limit, stream, cut, &mut records)?;
        if (records.as_slice(), state, rest) != want {
            return Ok(Some(cut));
        }
    }
    Ok(None)
}

#[test]
fn streams_cut_anywhere(rt: HostRuntime) -> Result<(), Fail> {
    for (row, (limit, stream, want)) in STREAMS.iter().enumerate() {
        let wrong = first_cut(rt.alloc(), *limit, stream, *want)?;
        assert!(rt; wrong.is_none(), "in row {row}, cut at {wrong:?}");
    }
    Ok(())
}
