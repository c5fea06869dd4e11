//! What becomes of packets.

use crate::mapper_tools::both;
use crate::packet_box_tools::{MemPackets, Move};
use crate::word_tools::all_spelled;
use std::alloc::{AllocError, Global};
use std::test::Fail;
use vx_portmap::*;

// Packets, as words; the numbers of the box's calls that fail; the limit; how it ends; and what goes through the box.
struct Row {
    packets: &'static [&'static [u32]],
    fails: &'static [u64],
    limit: u32,
    end: PacketEnd,
    moved: &'static [Move<'static>],
}

const GETPORT: &[u32] = &[9, 0, 2, 100000, 2, 3, 0, 0, 0, 0, 0x0607AF, 1, 6, 0];

const PORT: &[u32] = &[9, 1, 0, 0, 0, 0, 9010];

const NULL: &[u32] = &[7, 0, 2, 100000, 2, 0, 0, 0, 0, 0];

const DONE: &[u32] = &[7, 1, 0, 0, 0, 0];

const REPLY: &[u32] = &[9, 1, 0, 0, 0, 0];

static ROWS: [Row; 9] = [
    // One packet, and none.
    Row {
        packets: &[GETPORT],
        fails: &[],
        limit: 1,
        end: PacketEnd::Served,
        moved: &[(false, GETPORT), (true, PORT)],
    },
    Row {
        packets: &[GETPORT],
        fails: &[],
        limit: 0,
        end: PacketEnd::Served,
        moved: &[],
    },
    // More than the limit. Each reply goes before the next packet is taken.
    Row {
        packets: &[NULL, GETPORT, NULL],
        fails: &[],
        limit: 2,
        end: PacketEnd::Served,
        moved: &[(false, NULL), (true, DONE), (false, GETPORT), (true, PORT)],
    },
    // A reply, and a packet of no bytes, which have none.
    Row {
        packets: &[GETPORT, REPLY, &[], NULL],
        fails: &[],
        limit: 4,
        end: PacketEnd::Served,
        moved: &[
            (false, GETPORT),
            (true, PORT),
            (false, REPLY),
            (false, &[]),
            (false, NULL),
            (true, DONE),
        ],
    },
    // Fewer than the limit.
    Row {
        packets: &[GETPORT, NULL],
        fails: &[],
        limit: 3,
        end: PacketEnd::Ended,
        moved: &[(false, GETPORT), (true, PORT), (false, NULL), (true, DONE)],
    },
    // The second take fails, and the first.
    Row {
        packets: &[GETPORT, NULL],
        fails: &[3],
        limit: 2,
        end: PacketEnd::ReadFault,
        moved: &[(false, GETPORT), (true, PORT)],
    },
    Row {
        packets: &[GETPORT],
        fails: &[1],
        limit: 1,
        end: PacketEnd::ReadFault,
        moved: &[],
    },
    // The second give fails, also at the limit.
    Row {
        packets: &[GETPORT, NULL, NULL],
        fails: &[4],
        limit: 3,
        end: PacketEnd::WriteFault,
        moved: &[(false, GETPORT), (true, PORT), (false, NULL)],
    },
    Row {
        packets: &[GETPORT, NULL],
        fails: &[4],
        limit: 2,
        end: PacketEnd::WriteFault,
        moved: &[(false, GETPORT), (true, PORT), (false, NULL)],
    },
];

/// Whether packets are answered as a row says.
fn is_so(alloc: Global, row: &Row) -> Result<bool, AllocError> {
    let fails = row.fails.to_vec(alloc)?;
    let packets = all_spelled(alloc, row.packets)?;
    let mut packets = MemPackets::new(alloc, packets, fails);
    let end = map_packets(&both(), &mut packets, row.limit);
    let ended = u64::from(row.end == PacketEnd::Ended);
    Ok(end == row.end && packets.ended() == ended && packets.moved_so(alloc, row.moved)?)
}

#[test]
fn packets_are_answered_in_order(rt: HostRuntime) -> Result<(), Fail> {
    for (number, row) in ROWS.iter().enumerate() {
        let is_so = is_so(rt.alloc(), row)?;
        assert!(rt; is_so, "in row {number}");
    }
    Ok(())
}
