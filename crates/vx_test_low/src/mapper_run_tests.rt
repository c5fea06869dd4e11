//! What the port mapper's program does, over a net in memory.

use crate::packet_box_tools::MemPackets;
use crate::word_tools::{all_spelled, spelled};
use std::alloc::{AllocError, Global};
use std::test::Fail;
use vx_memory::{MemDoor, MemSink};
use vx_portmap::{MapHost, map_run};

type Host = MapHost<MemDoor, MemPackets>;

// The words; the streams of the door's peers and the box's packets, as words; the numbers of the door's calls, of the box's and of
// the sink's that fail; the status, what is printed, and what the first peer is sent and the first packet that is given, as words;
// and the ports that the door and the box are opened at.
#[derive(Clone, Copy)]
struct Row {
    words: &'static [&'static str],
    streams: &'static [&'static [u32]],
    packets: &'static [&'static [u32]],
    door_fails: &'static [u64],
    box_fails: &'static [u64],
    sink_fails: &'static [u64],
    status: u8,
    text: &'static str,
    sent: &'static [u32],
    given: &'static [u32],
    ports: (Option<u16>, Option<u16>),
}

const GETPORT: &[u32] = &[9, 0, 2, 100000, 2, 3, 0, 0, 0, 0, 0x0607AF, 1, 6, 0];

const PORT: &[u32] = &[9, 1, 0, 0, 0, 0, 9010];

// the same two behind their records' marks
const MARKED_GETPORT: &[u32] = &[
    0x80000038, 9, 0, 2, 100000, 2, 3, 0, 0, 0, 0, 0x0607AF, 1, 6, 0,
];

const MARKED_PORT: &[u32] = &[0x8000001C, 9, 1, 0, 0, 0, 0, 9010];

const STREAM: &[&str] = &["stream", "111", "9010", "9011", "1"];

const PACKETS: &[&str] = &["packets", "111", "9010", "9011", "1"];

const USAGE: &str = "usage: vxmap KIND PORT CORE ABORT N\n";

const ROW: Row = Row {
    words: STREAM,
    streams: &[MARKED_GETPORT],
    packets: &[GETPORT],
    door_fails: &[],
    box_fails: &[],
    sink_fails: &[],
    status: 0,
    text: "mapping 111\nserved 1\n",
    sent: MARKED_PORT,
    given: &[],
    ports: (Some(111), None),
};

/// The port isn't opened.
const CLOSED: Row = Row {
    text: "",
    sent: &[],
    ports: (None, None),
    ..ROW
};

static ROWS: [Row; 14] = [
    ROW,
    Row {
        words: PACKETS,
        sent: &[],
        given: PORT,
        ports: (None, Some(111)),
        ..ROW
    },
    // The door and the box have fewer.
    Row {
        words: &["stream", "1", "9010", "9011", "1000000"],
        text: "mapping 1\nserved 1\n",
        ports: (Some(1), None),
        ..ROW
    },
    Row {
        words: &["packets", "65535", "9010", "9011", "3"],
        text: "mapping 65535\nserved 1\n",
        sent: &[],
        given: PORT,
        ports: (None, Some(65535)),
        ..ROW
    },
    Row {
        streams: &[],
        packets: &[],
        text: "mapping 111\nserved 0\n",
        sent: &[],
        ..ROW
    },
    // The port can't be opened; the next peer can't be met.
    Row {
        door_fails: &[1],
        status: 3,
        ..CLOSED
    },
    Row {
        door_fails: &[2],
        status: 3,
        text: "mapping 111\n",
        sent: &[],
        ..ROW
    },
    // A fault of the peer's stream ends that stream alone.
    Row {
        door_fails: &[3],
        sent: &[],
        ..ROW
    },
    // The box can't be opened; a take fails; a give fails.
    Row {
        words: PACKETS,
        box_fails: &[1],
        status: 3,
        ..CLOSED
    },
    Row {
        words: PACKETS,
        box_fails: &[2],
        status: 3,
        text: "mapping 111\n",
        sent: &[],
        ports: (None, Some(111)),
        ..ROW
    },
    Row {
        words: PACKETS,
        box_fails: &[3],
        status: 3,
        text: "mapping 111\n",
        sent: &[],
        ports: (None, Some(111)),
        ..ROW
    },
    // The sink fails in its first write, and in its second.
    Row {
        sink_fails: &[1],
        status: 6,
        text: "",
        sent: &[],
        ..ROW
    },
    Row {
        sink_fails: &[2],
        status: 6,
        text: "mapping 111\n",
        ..ROW
    },
    Row {
        words: &["stream", "0", "9010", "9011", "1"],
        status: 1,
        text: USAGE,
        ..CLOSED
    },
];

// Words of another form.
static OTHER_WORDS: [&[&str]; 12] = [
    &[],
    &["stream"],
    &["stream", "111", "9010", "9011"],
    &["stream", "111", "9010", "9011", "1", "1"],
    &["streams", "111", "9010", "9011", "1"],
    &["Packets", "111", "9010", "9011", "1"],
    &["stream", "65536", "9010", "9011", "1"],
    &["stream", "111", "0", "9011", "1"],
    &["stream", "111", "9010", "65536", "1"],
    &["stream", "111", "9010", "9011", "0"],
    &["stream", "111", "9010", "9011", "1000001"],
    &["stream", "0111", "9010", "9011", "+1"],
];

fn words_of(alloc: Global, words: &[&str]) -> Result<Vec<String>, AllocError> {
    let mut all = Vec::new(alloc);
    for word in words {
        all.push(String::from_str(alloc, word)?)?;
    }
    Ok(all)
}

/// The net of a row.
fn host_of(alloc: Global, row: &Row) -> Result<Host, Fail> {
    let peers = all_spelled(alloc, row.streams)?;
    let door = MemDoor::new(alloc, peers, row.door_fails.to_vec(alloc)?).map_err(|_| "no memory")?;
    let packets = all_spelled(alloc, row.packets)?;
    Ok(MapHost::new(
        door,
        MemPackets::new(alloc, packets, row.box_fails.to_vec(alloc)?),
    ))
}

/// Whether the first peer was sent these bytes, and the first packet that was given has those; nothing where there are none.
fn went_out(host: &Host, sent: &[u8], given: &[u8]) -> bool {
    let (door, packets) = host.parts();
    door.sent(0).unwrap_or(&[]) == sent && packets.first_given() == given
}

/// Whether the door and the box were opened at these ports.
fn were_opened(host: &Host, ports: (Option<u16>, Option<u16>)) -> bool {
    let (door, packets) = host.parts();
    door.port() == ports.0 && packets.port() == ports.1
}

/// Whether a row comes out as it is written.
fn comes_out(alloc: Global, row: &Row) -> Result<bool, Fail> {
    let sent = spelled(alloc, row.sent)?;
    let given = spelled(alloc, row.given)?;
    let words = words_of(alloc, row.words)?;
    let mut sink = MemSink::new(Vec::new(alloc), row.sink_fails.to_vec(alloc)?);
    let mut host = host_of(alloc, row)?;
    let status = map_run(alloc, &words, &mut host, &mut sink);
    let is_told = status == row.status && sink.bytes() == row.text.as_bytes();
    Ok(is_told && went_out(&host, &sent, &given) && were_opened(&host, row.ports))
}

#[test]
fn each_run_comes_out(rt: HostRuntime) -> Result<(), Fail> {
    for (number, row) in ROWS.iter().enumerate() {
        let comes_out = comes_out(rt.alloc(), row)?;
        assert!(rt; comes_out, "in row {number}");
    }
    Ok(())
}

// They are answered by the usage line alone.
#[test]
fn words_of_another_form(rt: HostRuntime) -> Result<(), Fail> {
    for (number, words) in OTHER_WORDS.iter().enumerate() {
        let row = Row {
            words,
            status: 1,
            text: USAGE,
            ..CLOSED
        };
        let comes_out = comes_out(rt.alloc(), &row)?;
        assert!(rt; comes_out, "in row {number}");
    }
    Ok(())
}
