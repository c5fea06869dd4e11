//! Servers whose bus is behind another box and whose workers never run: the causes of each status, and what is written. The box's replies
//! are composed by hand from their words; the mark of a record stands first.
use crate::box_tests::{REST, box_of};
use crate::serve_tests::{Idle, PLAIN, SERVED};
use crate::served_tests::{Counts, Ends, Row, Setting, counts_of, is_ended, setting_of};
use std::alloc::{AllocError, Global};
use std::sync::Wait;
use vx_io_traits::{Listen, Net, Reach, Streams};
use vx_relay::relay_run;
use vx_serve::{Logs, Placed, Rules};
use vx_session::Tools;

/// A server with these words and this bench, over a box at the host `box` and port 9010 that gives these words; how it ends, and what it
/// writes.
#[derive(Clone, Copy)]
struct Relay {
    words: &'static str,
    bench: &'static str,
    gives: &'static [u32],
    status: u8,
    text: &'static str,
}

/// A server whose words are refused.
const REFUSED: Relay = Relay {
    words: "",
    bench: "",
    gives: &[],
    status: 1,
    text: "usage: vxgate --upstream HOST PORT [NAME] OPTIONS\n",
};

/// A server that nothing disturbs.
const UP: Relay = Relay {
    words: "box 9010",
    bench: "",
    gives: REST,
    status: 0,
    text: "listening 9010 9011\nserved 0\n",
};

static RELAYS: [Relay; 17] = [
    // words that name no box
    REFUSED,
    Relay {
        words: "box",
        ..REFUSED
    },
    Relay {
        words: "box 0",
        ..REFUSED
    },
    Relay {
        words: "box 09010",
        ..REFUSED
    },
    Relay {
        words: "box 65536",
        ..REFUSED
    },
    // words behind a box that are refused, or that ask for a text
    Relay {
        words: "box 9010 gpib0 more",
        ..REFUSED
    },
    Relay {
        words: "box 9010 --patience 0",
        ..REFUSED
    },
    Relay {
        words: "box 9010 --version",
        text: "vxgate 0.1.0\n",
        ..UP
    },
    // a bench
    Relay {
        bench: "plug 5 asker\n",
        status: 2,
        text: "fault line 1 form\n",
        ..UP
    },
    // a box that isn't there
    Relay {
        words: "bux 9010",
        status: 2,
        text: "fault upstream reach\n",
        ..UP
    },
    Relay {
        words: "box 9011",
        status: 2,
        text: "fault upstream reach\n",
        ..UP
    },
    // one that says nothing
    Relay {
        gives: &[],
        status: 2,
        text: "fault upstream link\n",
        ..UP
    },
    // one whose interface is locked
    Relay {
        words: "box 9010 hpib",
        gives: &[0x80000028, 1, 1, 0, 0, 0, 0, 11, 0, 0, 0],
        status: 2,
        text: "fault upstream link 11\n",
        ..UP
    },
    // one that closes behind its link
    Relay {
        gives: &[0x80000028, 1, 1, 0, 0, 0, 0, 0, 7, 9012, 1024],
        status: 2,
        text: "fault upstream clear\n",
        ..UP
    },
    // one whose bus is had: without a name, with one, and with options behind either
    UP,
    Relay {
        words: "box 9010 --core 1 --patience=1000",
        text: "listening 1 9011\nserved 0\n",
        ..UP
    },
    Relay {
        words: "box 9010 hpib --limit 3",
        ..UP
    },
];

/// The row of a server that is told of by all that is different from one over a bench.
fn row_of(relay: &Relay) -> Row {
    Row {
        words: relay.words,
        bench: relay.bench,
        ends: Ends {
            status: relay.status,
            text: relay.text,
            ..SERVED
        },
        ..PLAIN
    }
}

/// Runs a server with these over a link to its box, and answers its status and the number of its tally.
fn run<R: Wait, N: Net, X: Tools + Logs + Rules, L: Reach + Drop>(
    rt: &R,
    alloc: Global,
    setting: &mut Setting<N, X>,
    link: L,
) -> (u8, u64)
where
    N::Port: Drop,
    <N::Port as Listen>::Peer: Placed + Drop,
    <X::S as Streams>::Peer: Drop,
{
    let (status, tally) = relay_run(
        rt,
        alloc,
        setting.words.as_slice(),
        &mut setting.source,
        link,
        &mut setting.net,
        &mut Idle::new(0),
        &mut setting.tools,
        &mut setting.sink,
    );
    (status, tally.number())
}

/// Whether a server with these ends as a row says.
fn ends_with<R: Wait, N: Net + Drop, X: Tools + Logs + Rules + Drop, L: Reach + Drop>(
    rt: &R,
    alloc: Global,
    row: &Row,
    counts: &Counts,
    setting: Setting<N, X>,
    link: L,
) -> bool
where
    N::Port: Drop,
    <N::Port as Listen>::Peer: Placed + Drop,
    <X::S as Streams>::Peer: Drop,
{
    let mut setting = setting;
    let ended = run(rt, alloc, &mut setting, link);
    is_ended(row, counts, &setting.sink, ended)
}

/// Whether a server ends as it says, where there is memory for it.
fn ends_so<R: Wait>(rt: &R, alloc: Global, relay: &Relay) -> Result<bool, AllocError> {
    let row = row_of(relay);
    let counts = counts_of(alloc)?;
    let link = box_of(alloc, relay.gives, &[])?;
    let setting = setting_of(alloc, &row, &counts)?;
    Ok(ends_with(rt, alloc, &row, &counts, setting, link))
}

#[test]
fn servers_over_a_box_end_as_they_say(rt: HostRuntime) {
    for (place, relay) in RELAYS.iter().enumerate() {
        let is_so = ends_so(&rt, rt.alloc(), relay);
        assert!(rt; is_so == Ok(true), "row {place}");
    }
}
