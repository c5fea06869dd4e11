//! Values as RFC 4506 spells them.

use vx_xdr::*;

/// A value, with the most bytes that a text is read with.
#[derive(Clone, Copy)]
enum Value {
    Word(u32),
    Signed(i32),
    Bool(bool),
    Text(u32, &'static [u8]),
}

use Value::{Bool, Signed, Text, Word};

// The file that RFC 4506 spells out in its section 7.
const FILE: [u8; 48] = [
    0, 0, 0, 9, b's', b'i', b'l', b'l', b'y', b'p', b'r', b'o', b'g', 0, 0, 0, 0, 0, 0, 2, 0, 0, 0,
    4, b'l', b'i', b's', b'p', 0, 0, 0, 4, b'j', b'o', b'h', b'n', 0, 0, 0, 6, b'(', b'q', b'u',
    b'i', b't', b')', 0, 0,
];

// Its name, the kind of the file, two texts, and its data.
static FILE_VALUES: [Value; 5] = [
    Text(255, b"sillyprog"),
    Word(2),
    Text(255, b"lisp"),
    Text(5, b"john"),
    Text(6, b"(quit)"),
];

static NUMBERS: [Value; 4] = [Signed(-1), Signed(i32::MIN), Signed(262_144), Bool(true)];

const SPELLED: &[u8] = b"\xff\xff\xff\xff\x80\0\0\0\0\x04\0\0\0\0\0\x01";

/// Puts a value, where the writer's place is within the room.
fn put(w: &mut Writer, out: &mut [u8], value: Value) -> Result<(), Full> {
    if w.len() > out.len() {
        return Err(Full);
    }
    match value {
        Word(number) => w.u32(out, number),
        Signed(number) => w.i32(out, number),
        Bool(is) => w.bool(out, is),
        Text(_, bytes) if bytes.len() < 1 << 32 => w.opaque(out, bytes),
        Text(..) => Err(Full),
    }
}

/// Puts the values, one behind the other: how many bytes they have.
fn put_all(values: &[Value], out: &mut [u8]) -> Result<usize, Full> {
    let mut w = Writer::new();
    for value in values {
        put(&mut w, out, *value)?;
    }
    Ok(w.len())
}

/// Whether the value is read.
fn is_read(r: &mut Reader<'_>, value: Value) -> bool {
    match value {
        Word(number) => r.u32() == Ok(number),
        Signed(number) => r.i32() == Ok(number),
        Bool(is) => r.bool() == Ok(is),
        Text(most, bytes) => r.opaque(most) == Ok(bytes),
    }
}

/// Whether these bytes are read as the values, and no more.
fn are_read(bytes: &[u8], values: &[Value]) -> bool {
    let mut r = Reader::new(bytes);
    for value in values {
        if !is_read(&mut r, *value) {
            return false;
        }
    }
    r.at_end()
}

/// Whether the values are written as these bytes, and not into a byte less.
fn are_written(values: &[Value], bytes: &[u8]) -> bool {
    let mut out = [7; 48];
    let len = bytes.len().min(48);
    let written = put_all(values, &mut out) == Ok(len) && &out[..len] == bytes;
    written && put_all(values, &mut out[..len.saturating_sub(1)]) == Err(Full)
}

#[test]
fn values_both_ways(rt: HostRuntime) {
    let file = (
        are_written(&FILE_VALUES, &FILE),
        are_read(&FILE, &FILE_VALUES),
    );
    let numbers = (are_written(&NUMBERS, SPELLED), are_read(SPELLED, &NUMBERS));
    assert!(rt; file == (true, true), "the file of the standard");
    assert!(rt; numbers == (true, true), "numbers");
}

const NO_BOOL: &[u8] = b"\0\0\0\x02";

const PADDED: &[u8] = b"\0\0\0\x05\x01\x02\x03\x04\x05\0\0\x09";

// The bytes, the most of an opaque, or none of a bool, and the fault.
static FAULTS: [(&[u8], Option<u32>, XdrErr); 6] = [
    (NO_BOOL, None, XdrErr::Bool),
    (b"\0\0\0", None, XdrErr::Short),
    (PADDED, Some(4), XdrErr::Long),
    (b"\0\0\0\x05", Some(4), XdrErr::Long),
    (
        b"\0\0\0\x05\x01\x02\x03\x04\x05\0\0",
        Some(5),
        XdrErr::Short,
    ),
    (PADDED, Some(5), XdrErr::Pad),
];

fn fault(bytes: &[u8], most: Option<u32>) -> Option<XdrErr> {
    let mut r = Reader::new(bytes);
    match most {
        Some(most) => r.opaque(most).err(),
        None => r.bool().err(),
    }
}

#[test]
fn faults_in_order(rt: HostRuntime) {
    for (row, (bytes, most, want)) in FAULTS.iter().enumerate() {
        assert!(rt; fault(bytes, *most) == Some(*want), "in row {row}");
    }
}
