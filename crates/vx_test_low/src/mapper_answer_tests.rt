//! What is answered to one message.

ghost use Rattle.std.specs.Prelude.{◌≤◌, length};

use crate::mapper_tools::{ABORT, CORE, both};
use crate::word_tools::spelled;
use std::alloc::{AllocError, Global};
use std::test::Fail;
use vx_portmap::*;

// Messages and their replies; no word is no reply.
static ANSWERS: [(&[u32], &[u32]); 27] = [
    // GETPORT of the core program over TCP, of the abort program, and of the core program with another port.
    (
        &[9, 0, 2, 100000, 2, 3, 0, 0, 0, 0, 0x0607AF, 1, 6, 0],
        &[9, 1, 0, 0, 0, 0, 9010],
    ),
    (
        &[9, 0, 2, 100000, 2, 3, 0, 0, 0, 0, 0x0607B0, 1, 6, 0],
        &[9, 1, 0, 0, 0, 0, 9011],
    ),
    (
        &[9, 0, 2, 100000, 2, 3, 0, 0, 0, 0, 0x0607AF, 1, 6, 77],
        &[9, 1, 0, 0, 0, 0, 9010],
    ),
    // Over UDP, of another version, of another program: there is no port.
    (
        &[9, 0, 2, 100000, 2, 3, 0, 0, 0, 0, 0x0607AF, 1, 17, 0],
        &[9, 1, 0, 0, 0, 0, 0],
    ),
    (
        &[9, 0, 2, 100000, 2, 3, 0, 0, 0, 0, 0x0607AF, 2, 6, 0],
        &[9, 1, 0, 0, 0, 0, 0],
    ),
    (
        &[9, 0, 2, 100000, 2, 3, 0, 0, 0, 0, 0x0607B1, 1, 6, 0],
        &[9, 1, 0, 0, 0, 0, 0],
    ),
    // SET with the same arguments, UNSET, CALLIT, and a procedure that no port mapper has.
    (
        &[9, 0, 2, 100000, 2, 1, 0, 0, 0, 0, 0x0607AF, 1, 6, 0],
        &[9, 1, 0, 0, 0, 3],
    ),
    (&[9, 0, 2, 100000, 2, 2, 0, 0, 0, 0], &[9, 1, 0, 0, 0, 3]),
    (&[9, 0, 2, 100000, 2, 5, 0, 0, 0, 0], &[9, 1, 0, 0, 0, 3]),
    (&[9, 0, 2, 100000, 2, 6, 0, 0, 0, 0], &[9, 1, 0, 0, 0, 3]),
    // The null procedure, and DUMP.
    (&[7, 0, 2, 100000, 2, 0, 0, 0, 0, 0], &[7, 1, 0, 0, 0, 0]),
    (
        &[9, 0, 2, 100000, 2, 4, 0, 0, 0, 0],
        &[
            9, 1, 0, 0, 0, 0, 1, 0x0607AF, 1, 6, 9010, 1, 0x0607B0, 1, 6, 9011, 0,
        ],
    ),
    // Arguments that end too early, or too late.
    (
        &[9, 0, 2, 100000, 2, 3, 0, 0, 0, 0, 0x0607AF, 1, 6],
        &[9, 1, 0, 0, 0, 4],
    ),
    (
        &[9, 0, 2, 100000, 2, 3, 0, 0, 0, 0, 0x0607AF, 1, 6, 0, 0],
        &[9, 1, 0, 0, 0, 4],
    ),
    (&[9, 0, 2, 100000, 2, 0, 0, 0, 0, 0, 0], &[9, 1, 0, 0, 0, 4]),
    (&[9, 0, 2, 100000, 2, 4, 0, 0, 0, 0, 0], &[9, 1, 0, 0, 0, 4]),
    // Another program, also of another version; versions 3 and 4 of the program, also with a procedure that it hasn't.
    (&[9, 0, 2, 100001, 2, 4, 0, 0, 0, 0], &[9, 1, 0, 0, 0, 1]),
    (&[9, 0, 2, 100001, 3, 4, 0, 0, 0, 0], &[9, 1, 0, 0, 0, 1]),
    (
        &[9, 0, 2, 100000, 3, 4, 0, 0, 0, 0],
        &[9, 1, 0, 0, 0, 2, 2, 2],
    ),
    (
        &[9, 0, 2, 100000, 4, 1, 0, 0, 0, 0],
        &[9, 1, 0, 0, 0, 2, 2, 2],
    ),
    // Another version of RPC, with and without the rest of a header.
    (&[9, 0, 3, 100000, 2, 4, 0, 0, 0, 0], &[9, 1, 1, 0, 2, 2]),
    (&[9, 0, 1], &[9, 1, 1, 0, 2, 2]),
    // A credential of another flavor.
    (
        &[9, 0, 2, 100000, 2, 0, 1, 4, 0xFFFFFFFF, 0, 0],
        &[9, 1, 0, 0, 0, 0],
    ),
    // A reply, a message of 8 bytes, and headers that end too early or have a credential of more than 400 bytes.
    (&[9, 1, 2, 100000, 2, 4, 0, 0, 0, 0], &[]),
    (&[9, 0], &[]),
    (&[9, 0, 2, 100000, 2, 4, 0, 0, 0], &[]),
    (&[9, 0, 2, 100000, 2, 4, 0, 401, 0, 0], &[]),
];

/// What is answered: the front of `out` that was written, or nothing.
fn answered<'a>(ports: &Ports, message: &[u8], out: &'a mut [u8]) -> &'a [u8]
    requires { MESSAGE_MAX ≤ length out.old }
{
    match map_answer(ports, message, out) {
        MapAnswer::Reply(len) => &out[..len],
        MapAnswer::Silent => &[],
    }
}

/// Whether these words are answered by those.
fn is_answer(alloc: Global, ports: &Ports, row: &(&[u32], &[u32])) -> Result<bool, AllocError> {
    let message = spelled(alloc, row.0)?;
    let reply = spelled(alloc, row.1)?;
    let mut out = [0u8; MESSAGE_MAX];
    Ok(answered(ports, &message, &mut out) == reply.as_slice())
}

// The same where there are no mappings: no port is found, and none is listed.
static NONE: [(&[u32], &[u32]); 2] = [
    (
        &[9, 0, 2, 100000, 2, 3, 0, 0, 0, 0, 0x0607AF, 1, 6, 0],
        &[9, 1, 0, 0, 0, 0, 0],
    ),
    (&[9, 0, 2, 100000, 2, 4, 0, 0, 0, 0], &[9, 1, 0, 0, 0, 0, 0]),
];

#[test]
fn messages_are_answered_by_the_table(rt: HostRuntime) -> Result<(), Fail> {
    let (both, none) = (both(), Ports::new());
    for (number, row) in ANSWERS.iter().enumerate() {
        let is_answer = is_answer(rt.alloc(), &both, row)?;
        assert!(rt; is_answer, "in row {number}");
    }
    for (number, row) in NONE.iter().enumerate() {
        let is_answer = is_answer(rt.alloc(), &none, row)?;
        assert!(rt; is_answer, "in row {number} of no mappings");
    }
    Ok(())
}

/// Adds 20 mappings of as many programs, and answers how many of them the table took.
fn fill(ports: &mut Ports) -> usize {
    let mut taken: usize = 0;
    for prog in 1..21 {
        let mapping = Mapping { prog, ..CORE };
        if ports.add(mapping) == Ok(()) {
            taken = taken.saturating_add(1);
        }
    }
    taken
}

/// What adds of a known mapping, of one at another port and over another protocol answer, how many more there is room for, and
/// what adds of another and of a known one answer then.
fn add_all(ports: &mut Ports) -> ([Result<(), AddErr>; 3], usize, [Result<(), AddErr>; 2]) {
    let first = [
        ports.add(CORE),
        ports.add(Mapping { port: 80, ..ABORT }),
        ports.add(Mapping { prot: 17, ..CORE }),
    ];
    let taken = fill(ports);
    let full = [ports.add(Mapping { vers: 2, ..CORE }), ports.add(CORE)];
    (first, taken, full)
}

#[test]
fn a_mapping_is_added_once_and_while_there_is_room(rt: HostRuntime) -> Result<(), Fail> {
    let dump = spelled(rt.alloc(), &[9, 0, 2, 100000, 2, 4, 0, 0, 0, 0])?;
    let mut ports = both();
    let added = add_all(&mut ports);
    let known = Err(AddErr::Known);
    let wanted = ([known, known, Ok(())], 13, [Err(AddErr::Full), known]);
    assert!(rt; added == wanted);
    let mut out = [0u8; MESSAGE_MAX];
    let answer = map_answer(&ports, &dump, &mut out);
    assert!(rt; answer == MapAnswer::Reply(348));
    Ok(())
}
