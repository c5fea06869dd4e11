//! What is asked of the system once for each stream that a port gives: that it finds out a host that is gone, and that its receives
//! and sends end after a time. The one unsafe call of the crate is here.

use super::timeouts::Timeouts;
use libc::net as c;
use std::net::TcpStream;
use std::os::fd::AsRawFd;
use std::time::Duration;

/// The longest time for which a silent host is borne with, in seconds: the system takes no longer pause between two of its probes.
const KEEPALIVE_MAX: u32 = 32_767;

/// How many probes a silent host gets.
const PROBES: u32 = 4;

/// What the system does so that a host that is gone is found out.
#[derive(Clone, Copy)]
enum Watch {
    /// It sends probes where the stream is silent.
    Probes,
    /// So many seconds of silence come before the first.
    Before,
    /// So many come between two.
    Between,
    /// So many stay unanswered, at most.
    Count,
    /// So many milliseconds pass at most until something that was sent is acknowledged.
    Whole,
}

/// Asks the system for this of a stream, and tells whether it was refused.
fn ask(stream: &TcpStream, what: Watch, number: u32) -> bool {
    let fd = stream.as_raw_fd();
    let mut value = [0u8; 16];
    value[..4].copy_from_slice(&number.to_ne_bytes());
    // each call names its option, so that the check can tell that the contract takes it
    let status = unsafe {
        match what {
            Watch::Probes => c::setsockopt(fd, c::SOL_SOCKET, c::SO_KEEPALIVE, &value, 4),
            Watch::Before => c::setsockopt(fd, c::IPPROTO_TCP, c::TCP_KEEPIDLE, &value, 4),
            Watch::Between => c::setsockopt(fd, c::IPPROTO_TCP, c::TCP_KEEPINTVL, &value, 4),
            Watch::Count => c::setsockopt(fd, c::IPPROTO_TCP, c::TCP_KEEPCNT, &value, 4),
            Watch::Whole => c::setsockopt(fd, c::IPPROTO_TCP, c::TCP_USER_TIMEOUT, &value, 4),
        }
    };
    status < 0
}

/// Has the system find out a host that is gone after so many seconds, where that isn't 0. Four probes go out an eighth of the time
/// apart, the first after half of it, so that one that is lost on the way ends no connection. The time in which a probe, or bytes,
/// must be acknowledged is half a second short of the whole: the system compares when the next probe would be due, which is at the
/// whole.
fn keep_alive(stream: &TcpStream, seconds: u32) {
    if seconds == 0 {
        return;
    }
    let whole = seconds.min(KEEPALIVE_MAX);
    let between = (whole / 8).max(1);
    let before = whole.saturating_sub(between.saturating_mul(PROBES)).max(1);
    let _ = ask(stream, Watch::Probes, 1);
    let _ = ask(stream, Watch::Before, before);
    let _ = ask(stream, Watch::Between, between);
    let _ = ask(stream, Watch::Count, PROBES);
    let _ = ask(
        stream,
        Watch::Whole,
        whole.saturating_mul(1000).saturating_sub(500),
    );
}

/// So many seconds, or none where there are 0.
pub(super) fn time_of(seconds: u32) -> Option<Duration> {
    if seconds == 0 {
        return None;
    }
    Some(Duration::from_secs(u64::from(seconds)))
}

/// Has the system bear with the peer of a stream for so long, and end a receive after this time. What it refuses isn't in force: the
/// stream is taken as it is.
pub(super) fn bear_with(stream: &TcpStream, timeouts: &Timeouts, receive: u32) {
    keep_alive(stream, timeouts.keepalive);
    if let Some(time) = time_of(timeouts.send) {
        let _ = stream.set_write_timeout(Some(time));
    }
    if let Some(time) = time_of(receive) {
        let _ = stream.set_read_timeout(Some(time));
    }
}
