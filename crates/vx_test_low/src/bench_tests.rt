//! Benches on a bus with nothing on it, with two spare instruments of the name `echo`.

use crate::row_tools::compare;
use arrayvec::ArrayString;
use std::alloc::Global;
use vx_488::Addr;
use vx_rack::{Echo, Spare};
use vx_script::Cause;
use vx_setup::*;
use vx_sim::SimBus;

/// A spare instrument of the name `echo`.
fn spare_echo(alloc: Global) -> Option<Spare<Echo>> {
    let name = ArrayString::from("echo").ok()?;
    let inst = Echo::new(alloc).ok()?;
    Some(Spare { name, inst })
}

/// Adds two of them to a rack.
fn push_echoes(alloc: Global, rack: &mut Vec<Spare<Echo>>) -> Option<()> {
    for _ in 0..2 {
        rack.push(spare_echo(alloc)?).ok()?;
    }
    Some(())
}

/// How a bench ends, how many spares are left, and whether instruments stand at 5, at 6 and at 7,8 then.
type Ended = (Option<BenchStop>, usize, [bool; 3]);

/// Whether an instrument stands at an address.
fn stands(bus: &mut SimBus<Echo>, p: u8, s: Option<u8>) -> bool {
    bus.set_status(Addr { p, s }, 0).is_ok()
}

/// Sets a bench up on a bus.
fn set_on(
    alloc: Global,
    text: &[u8],
    bus: &mut SimBus<Echo>,
    rack: &mut Vec<Spare<Echo>>,
) -> Ended {
    let stop = set_up(alloc, text, bus, rack).err();
    let stand = [
        stands(bus, 5, None),
        stands(bus, 6, None),
        stands(bus, 7, Some(8)),
    ];
    (stop, rack.len(), stand)
}

/// Sets one up with two spares, where there is memory for them.
fn end_on(alloc: Global, text: &[u8], bus: &mut SimBus<Echo>) -> Option<Ended> {
    let mut rack = Vec::new(alloc);
    push_echoes(alloc, &mut rack)?;
    Some(set_on(alloc, text, bus, &mut rack))
}

/// Sets one up on a bus with nothing on it.
fn end_of(alloc: Global, text: &[u8]) -> Option<Ended> {
    let mut bus = SimBus::new(alloc).ok()?;
    end_on(alloc, text, &mut bus)
}

const NONE: [bool; 3] = [false; 3];

const FIVE: [bool; 3] = [true, false, false];

const FIVE_SIX: [bool; 3] = [true, true, false];

const FIVE_SEVEN: [bool; 3] = [true, false, true];

/// A bench's text, the line that is refused and why, how many spares are left, and where instruments stand.
type Bench = (&'static [u8], Option<(u64, Cause)>, usize, [bool; 3]);

static BENCHES: [Bench; 24] = [
    (b"", None, 2, NONE),
    (b"\n# a bench\n\n#", None, 2, NONE),
    (
        b"inst 5 {\"rules\":[{\"in\":\"*IDN?\",\"out\":\"ACME,1\\n\"}]}\n# an echo\n\nplug 7,8 echo",
        None,
        1,
        FIVE_SEVEN,
    ),
    (b"plug 6 echo\nplug 5 echo\n", None, 0, FIVE_SIX),
    // Steps that are none of a bench, and lines outside the grammar; the skipped ones count.
    (b"at 1\n", Some((1, Cause::Form)), 2, NONE),
    (b"up 1 core\n", Some((1, Cause::Form)), 2, NONE),
    (b"in 1 80\nplug 5 echo\n", Some((1, Cause::Form)), 2, NONE),
    (b"down 1\n", Some((1, Cause::Form)), 2, NONE),
    (b"poll 1\n", Some((1, Cause::Form)), 2, NONE),
    (b"take 1\n", Some((1, Cause::Form)), 2, NONE),
    (b"dial 1 ok\n", Some((1, Cause::Form)), 2, NONE),
    (
        b"\n#\nplug 5 echo\nsample\n",
        Some((4, Cause::Form)),
        1,
        FIVE,
    ),
    (b"plug 5 echo\npull 5\n", Some((2, Cause::Form)), 1, FIVE),
    (b"plug 5 echo\nset 5 41\n", Some((2, Cause::Form)), 1, FIVE),
    (b"fail 1\n", Some((1, Cause::Form)), 2, NONE),
    (
        b"plug 5 echo\n\nplug 31 echo\n",
        Some((3, Cause::Form)),
        1,
        FIVE,
    ),
    (b"plug 5 echo\r\n", Some((1, Cause::Form)), 2, NONE),
    // Instruments that aren't attached.
    (b"plug 0 echo\n", Some((1, Cause::Own)), 1, NONE),
    (
        b"plug 5 echo\nplug 5 echo\n",
        Some((2, Cause::Taken)),
        0,
        FIVE,
    ),
    (b"plug 5 nobody\n", Some((1, Cause::Spare)), 2, NONE),
    (
        b"plug 5 echo\nplug 6 echo\nplug 7,8 echo\n",
        Some((3, Cause::Spare)),
        0,
        FIVE_SIX,
    ),
    (b"inst 5 []\n", Some((1, Cause::Rule)), 2, NONE),
    (b"inst 5 {\n", Some((1, Cause::Json)), 2, NONE),
    (b"inst 5 \n", Some((1, Cause::Json)), 2, NONE),
];

/// The end of a bench of which this line is refused.
fn stop_of(refused: Option<(u64, Cause)>) -> Option<BenchStop> {
    match refused {
        Some((line, cause)) => Some(BenchStop::Refused { line, cause }),
        None => None,
    }
}

#[test]
fn benches(rt: HostRuntime) {
    for (row, (text, refused, left, stand)) in BENCHES.iter().enumerate() {
        let ended = Some((stop_of(*refused), *left, *stand));
        compare(&rt, row, &end_of(rt.alloc(), text), &ended);
    }
}
