//! The lines of the log, as they are written.

use std::alloc::{AllocError, Global};
use vx_calls::Proc;
use vx_io_traits::{Clock, Sink};
use vx_memory::{MemClock, MemSink};
use vx_startup::{Channel, Journal, News, Place, Reason};

/// What is told of a connection: at which moment, of which one, where its peer is, and the line that is written.
#[derive(Clone, Copy)]
struct Told {
    moment: u64,
    channel: Channel,
    number: u64,
    host: u32,
    port: u16,
    news: News,
    line: &'static str,
}

/// What is told of a connection that came.
const CAME: Told = Told {
    moment: 12_034,
    channel: Channel::Core,
    number: 3,
    host: 0xC0A8_0114,
    port: 40_124,
    news: News::Came,
    line: "12034 core 3 192.168.1.20:40124 came\n",
};

static ROWS: [Told; 11] = [
    CAME,
    Told {
        news: News::Denied {
            rule: 256,
            proc: Proc::DestroyIntr,
        },
        line: "12034 core 3 192.168.1.20:40124 denied: unintr, rule 256\n",
        ..CAME
    },
    // no rule allows it
    Told {
        news: News::Denied {
            rule: 0,
            proc: Proc::Write,
        },
        line: "12034 core 3 192.168.1.20:40124 denied: write, rule 0\n",
        ..CAME
    },
    // a clock may tell an earlier moment
    Told {
        moment: 12_033,
        news: News::Ended {
            reason: Reason::Closed,
            calls: 12,
        },
        line: "12033 core 3 192.168.1.20:40124 ended: closed by its peer, 12 calls\n",
        ..CAME
    },
    Told {
        host: 0x0102_0304,
        news: News::Ended {
            reason: Reason::Junk,
            calls: 0,
        },
        line: "12034 core 3 1.2.3.4:40124 ended: a record is no call, 0 calls\n",
        ..CAME
    },
    Told {
        host: 0x8000_0001,
        news: News::Ended {
            reason: Reason::TooLong,
            calls: 1,
        },
        line: "12034 core 3 128.0.0.1:40124 ended: a record is too long, 1 calls\n",
        ..CAME
    },
    Told {
        host: 0x0000_00FF,
        news: News::Ended {
            reason: Reason::ReadFault,
            calls: 10,
        },
        line: "12034 core 3 0.0.0.255:40124 ended: receiving failed, 10 calls\n",
        ..CAME
    },
    Told {
        host: 0xFF00_0000,
        news: News::Ended {
            reason: Reason::WriteFault,
            calls: 99,
        },
        line: "12034 core 3 255.0.0.0:40124 ended: sending failed, 99 calls\n",
        ..CAME
    },
    Told {
        number: 65,
        port: 1,
        news: News::Full,
        line: "12034 core 65 192.168.1.20:1 refused: 64 are connected\n",
        ..CAME
    },
    // of a peer that the system doesn't tell
    Told {
        moment: 0,
        channel: Channel::Abort,
        number: 1,
        host: 0,
        port: 0,
        news: News::NoMemory,
        line: "0 abort 1 0.0.0.0:0 refused: no memory\n",
    },
    // the longest line
    Told {
        moment: u64::MAX,
        channel: Channel::Abort,
        number: u64::MAX,
        host: u32::MAX,
        port: u16::MAX,
        news: News::Ended {
            reason: Reason::CutShort,
            calls: u64::MAX,
        },
        line: "18446744073709551615 abort 18446744073709551615 255.255.255.255:65535 ended: closed by its peer within a record, 18446744073709551615 calls\n",
    },
];

/// A log of which nothing was told yet, whose clock tells the moments of these rows.
fn journal_of(alloc: Global, rows: &[Told]) -> Result<Journal<MemClock, MemSink>, AllocError> {
    let mut moments = Vec::new(alloc);
    for row in rows {
        moments.push(row.moment)?;
    }
    Ok(Journal {
        clock: MemClock::new(moments),
        sink: MemSink::new(Vec::new(alloc), Vec::new(alloc)),
    })
}

/// The lines of these rows.
fn lines_of(alloc: Global, rows: &[Told]) -> Result<Vec<u8>, AllocError> {
    let mut due = Vec::new(alloc);
    for row in rows {
        due.extend_from_slice(row.line.as_bytes())?;
    }
    Ok(due)
}

/// Whether a log takes what all of these rows tell.
fn is_told<C: Clock, K: Sink>(journal: &mut Journal<C, K>, rows: &[Told]) -> bool {
    let mut is_told = true;
    for row in rows {
        let place = Place {
            host: row.host,
            port: row.port,
        };
        is_told &= journal
            .tell(row.channel, row.number, place, row.news)
            .is_ok();
    }
    is_told
}

/// Whether a log has the lines of these rows, and no others, once all of them were told.
fn is_written(alloc: Global, rows: &[Told]) -> Result<bool, AllocError> {
    let due = lines_of(alloc, rows)?;
    let mut journal = journal_of(alloc, rows)?;
    let is_told = is_told(&mut journal, rows);
    Ok(is_told && journal.sink.bytes() == due.as_slice())
}

#[test]
fn the_log_has_a_line_for_each(rt: HostRuntime) {
    assert!(rt; is_written(rt.alloc(), &ROWS) == Ok(true));
}
