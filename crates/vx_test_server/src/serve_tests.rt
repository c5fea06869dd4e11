//! Servers whose workers never run: the causes of each status, and what is written.
use crate::served_tests::{Ends, Log, Row, Side, ends_so};
use std::alloc::Global;
use std::process::Abort;
use std::sync::Wait;
use vx_io_traits::{Spawner, Started, Work};
use vx_serve::BENCH_MAX;

/// Drops each work. It refuses the one of this number, counted from 1, where it isn't 0.
#[derive(Drop)]
pub(crate) struct Idle {
    refuses: u64,
    starts: u64,
    faults: u64,
}

impl Idle {
    pub fn new(refuses: u64) -> Idle {
        Idle {
            refuses,
            starts: 0,
            faults: 0,
        }
    }
}

impl<J: Work + Drop> Spawner<J> for Idle {
    ghost faults = { λ s. s.faults };

    fn start(&mut self, _job: J) -> Started {
        self.starts = self.starts.saturating_add(1);
        if self.starts == self.refuses {
            self.faults = self.faults.saturating_add(1);
            return Started::Refused;
        }
        Started::Up
    }
}

/// How undisturbed servers end.
pub(crate) const SERVED: Ends = Ends {
    status: 0,
    text: "listening 9010 9011\nserved 0\n",
    number: 0,
    bytes: [0, 0, 0],
};

/// How those end whose words are refused.
const USAGE: Ends = Ends {
    status: 1,
    text: "usage: vxgate OPTIONS\n",
    ..SERVED
};

/// A server that nothing disturbs.
pub(crate) const PLAIN: Row = Row {
    words: "",
    rules: None,
    bench: "",
    lines: 0,
    core: &[],
    abort: &[],
    reads: &[],
    writes: &[],
    fails: &[],
    refuses: 0,
    ends: SERVED,
    log: Log::Nothing,
};

/// Words that are taken, that are refused, or that ask for a text.
static WORDS: [Row; 6] = [
    PLAIN,
    Row {
        words: "--core 1 --abort=65535 --limit 7",
        ends: Ends {
            text: "listening 1 65535\nserved 0\n",
            ..SERVED
        },
        ..PLAIN
    },
    // words that are refused
    Row {
        words: "--workers 65",
        ends: USAGE,
        ..PLAIN
    },
    Row {
        words: "--core 0",
        ends: USAGE,
        ..PLAIN
    },
    Row {
        words: "serve",
        ends: USAGE,
        ..PLAIN
    },
    // where the words don't ask to serve, the bench isn't read
    Row {
        words: "--version",
        reads: &[1],
        ends: Ends {
            text: "vxgate 0.1.0\n",
            ..SERVED
        },
        ..PLAIN
    },
];

/// Benches.
static BENCHES: [Row; 11] = [
    Row {
        bench: "# a comment\n\nplug 5 asker\n",
        ..PLAIN
    },
    Row {
        bench: "inst 5 {\"rules\":[]}\ninst 6,1 {\"rules\":[]}\n",
        ..PLAIN
    },
    Row {
        bench: "at 1",
        ends: Ends {
            status: 2,
            text: "fault line 1 form\n",
            ..SERVED
        },
        ..PLAIN
    },
    Row {
        bench: "plug 5 asker\nup 1 core\n",
        ends: Ends {
            status: 2,
            text: "fault line 2 form\n",
            ..SERVED
        },
        ..PLAIN
    },
    Row {
        bench: "plug 5 asker\n\nplug 6 asker\n",
        ends: Ends {
            status: 2,
            text: "fault line 3 spare\n",
            ..SERVED
        },
        ..PLAIN
    },
    Row {
        bench: "plug 0 asker",
        ends: Ends {
            status: 2,
            text: "fault line 1 own\n",
            ..SERVED
        },
        ..PLAIN
    },
    Row {
        bench: "inst 5 []",
        ends: Ends {
            status: 2,
            text: "fault line 1 rule\n",
            ..SERVED
        },
        ..PLAIN
    },
    Row {
        bench: "inst 5 {",
        ends: Ends {
            status: 2,
            text: "fault line 1 json\n",
            ..SERVED
        },
        ..PLAIN
    },
    Row {
        bench: "inst 5 {\"rules\":[]}\nplug 5 asker\n",
        ends: Ends {
            status: 2,
            text: "fault line 2 taken\n",
            ..SERVED
        },
        ..PLAIN
    },
    // as long as a bench may be, and longer
    Row {
        lines: BENCH_MAX,
        ..PLAIN
    },
    Row {
        lines: BENCH_MAX + 1,
        ends: Ends {
            status: 2,
            text: "fault long\n",
            ..SERVED
        },
        ..PLAIN
    },
];

/// Sources, nets, spawners and sinks that fail.
static FAULTS: [Row; 10] = [
    // the source fails, at once or later
    Row {
        lines: 1,
        reads: &[1],
        ends: Ends {
            status: 7,
            text: "",
            ..SERVED
        },
        ..PLAIN
    },
    Row {
        lines: 5000,
        reads: &[2],
        ends: Ends {
            status: 7,
            text: "",
            ..SERVED
        },
        ..PLAIN
    },
    // the net fails: at the core port, at the abort port before any worker, at the first wait
    Row {
        fails: &[1],
        ends: Ends {
            status: 3,
            text: "",
            ..SERVED
        },
        ..PLAIN
    },
    Row {
        fails: &[2],
        refuses: 1,
        ends: Ends {
            status: 3,
            text: "",
            ..SERVED
        },
        ..PLAIN
    },
    Row {
        fails: &[3],
        ends: Ends {
            status: 3,
            text: "listening 9010 9011\n",
            ..SERVED
        },
        ..PLAIN
    },
    // the first worker is refused, or the last: 16 of core links and 16 of streams, 64 of abort links, the acceptor and the sampler
    Row {
        refuses: 1,
        ends: Ends {
            status: 4,
            text: "",
            ..SERVED
        },
        ..PLAIN
    },
    Row {
        refuses: 98,
        ends: Ends {
            status: 4,
            text: "",
            ..SERVED
        },
        ..PLAIN
    },
    // the sink fails, at its first line or its second, or at the usage line
    Row {
        writes: &[1],
        ends: Ends {
            status: 6,
            text: "",
            ..SERVED
        },
        ..PLAIN
    },
    Row {
        writes: &[2],
        ends: Ends {
            status: 6,
            text: "listening 9010 9011\n",
            ..SERVED
        },
        ..PLAIN
    },
    Row {
        words: "--workers 65",
        writes: &[1],
        ends: Ends {
            status: 6,
            text: "",
            ..SERVED
        },
        ..PLAIN
    },
];

/// Words are met before the bench, the bench before the ports, and the ports before the workers.
static TWICE: [Row; 3] = [
    Row {
        words: "--core 0",
        bench: "at 1",
        fails: &[1],
        refuses: 1,
        ends: USAGE,
        ..PLAIN
    },
    Row {
        bench: "at 1",
        fails: &[1],
        refuses: 1,
        ends: Ends {
            status: 2,
            text: "fault line 1 form\n",
            ..SERVED
        },
        ..PLAIN
    },
    Row {
        fails: &[1],
        refuses: 1,
        ends: Ends {
            status: 3,
            text: "",
            ..SERVED
        },
        ..PLAIN
    },
];

/// Workers that never ran leave no end of the channel, so each link comes back, and the server serves it itself: up to the
/// limit, or all that there are. The replies are those of links 1, 2 and 3, which differ in one byte from the first.
static LINKS: [Row; 2] = [
    Row {
        words: "--limit 2",
        core: &[Side::Short; 3],
        ends: Ends {
            text: "listening 9010 9011\nserved 2\n",
            number: 2,
            bytes: [87, 0, 0],
            ..SERVED
        },
        log: Log::TwoLinks,
        ..PLAIN
    },
    Row {
        core: &[Side::Short; 3],
        ends: Ends {
            text: "listening 9010 9011\nserved 3\n",
            number: 3,
            bytes: [130, 0, 0],
            ..SERVED
        },
        log: Log::ThreeLinks,
        ..PLAIN
    },
];

/// Sees that the server of each of these rows ends as it says.
fn all_end_so<R: Abort + Wait>(rt: &R, alloc: Global, name: &str, rows: &[Row]) {
    for (place, row) in rows.iter().enumerate() {
        let is_so = ends_so(rt, alloc, row, &mut Idle::new(row.refuses));
        assert!(rt; is_so == Some(true), "{name} {place}");
    }
}

#[test]
fn servers_end_so(rt: HostRuntime) {
    all_end_so(&rt, rt.alloc(), "words", &WORDS);
    all_end_so(&rt, rt.alloc(), "bench", &BENCHES);
    all_end_so(&rt, rt.alloc(), "fault", &FAULTS);
    all_end_so(&rt, rt.alloc(), "first cause", &TWICE);
    all_end_so(&rt, rt.alloc(), "links that come back", &LINKS);
}
