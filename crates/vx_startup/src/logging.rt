//! The log of a server: a line for each connection that comes, that ends, and that is refused, and for each call that is denied, with
//! the moment and the peer.
ghost use Rattle.std.specs.Prelude.{◌≡◌, ℕ, ◌+◌, ◌≤◌, ◌++◌, length, take};
ghost use Rattle.vx_text.specs.Ends.{sink_shown};
ghost use Rattle.vx_text.specs.Writing.{IsPut};
ghost use Rattle.vx_door.specs.Peering.{IsPeer};
ghost use Rattle.vx_startup.specs.Logging.{IsTold, address_text, channel_word, log_line, news_text, place_text, reason};

use vx_calls::Proc;
use vx_io_traits::{Clock, Link, Sink};
use vx_policy::word_of;
use vx_text::{SinkFailed, put_all, put_number, put_text};

/// Room for the longest line of a log, in bytes, where each of its numbers may have 20 digits.
const LOG_ROOM: usize = 240;

/// Which port a connection came to.
#[derive(Clone, Copy, PartialEq, Eq)]
pub enum Channel {
    /// That of the core channel.
    Core,
    /// That of the abort channel.
    Abort,
}

/// Why a connection that was served ended.
#[derive(Clone, Copy, PartialEq, Eq)]
pub enum Reason {
    /// Its peer closed it behind a whole record, or before the first.
    Closed,
    /// Its peer closed it within a record.
    CutShort,
    /// A record is no call.
    Junk,
    /// A record is too long.
    TooLong,
    /// A receive failed: the connection was reset, or its peer said nothing for too long.
    ReadFault,
    /// A send failed: the connection was reset, or its peer took nothing for too long.
    WriteFault,
}

/// What is told of a connection.
#[derive(Clone, Copy, PartialEq, Eq)]
pub enum News {
    /// It came.
    Came,
    /// It ended, for this reason, and so many of its calls were answered.
    Ended { reason: Reason, calls: u64 },
    /// It was refused: as many are connected as may be.
    Full,
    /// It was refused for want of memory.
    NoMemory,
    /// A call of this procedure was denied, by the rule of this number; 0 where no rule allows it.
    Denied { rule: u32, proc: Proc },
}

/// Where the peer of a connection is: its IPv4 address as a number, its first part in the high byte, and its port. Each is 0 where the
/// system doesn't tell it.
#[derive(Clone, Copy, PartialEq, Eq)]
pub struct Place {
    pub host: u32,
    pub port: u16,
}

/// What knows where its peer is.
pub trait Placed: Link {
    /// Where its peer was as it came; its host is that of its peer, where the link tells its peers.
    fn place(&self) -> Place
        ensures { IsPeer (Self.peers self.now) result.host };
}

/// Where the lines of a log go: each worker of a server has an end of its own.
pub trait Logs {
    type L: Sink + Drop;

    fn log(&mut self) -> Self::L;
}

impl Channel {
    /// The channel, in a word.
    fn word(self) -> &'static [u8]
        ensures word { result.now ≡ channel_word self }
        ensures size { length result.now ≤ 5 }
    {
        match self {
            Channel::Core => b"core",
            Channel::Abort => b"abort",
        }
    }
}

impl Reason {
    /// The reason, in words.
    fn words(self) -> &'static [u8]
        ensures words { result.now ≡ reason self }
        ensures size { length result.now ≤ 40 }
    {
        match self {
            Reason::Closed => b"closed by its peer",
            Reason::CutShort => b"closed by its peer within a record",
            Reason::Junk => b"a record is no call",
            Reason::TooLong => b"a record is too long",
            Reason::ReadFault => b"receiving failed",
            Reason::WriteFault => b"sending failed",
        }
    }
}

/// Writes at a place how a connection ended, and answers the place behind it.
fn put_end(out: &mut [u8], at: usize, reason: Reason, calls: u64) -> usize
    requires { at + 80 ≤ length out.old }
    ensures text { take result out.new ≡ take at out.old ++ news_text (News.Ended reason calls) }
    ensures end { result ≤ at + 80 }
    ensures len { length out.new ≡ length out.old }
{
    let at = put_text(out, at, b" ended: ");
    let at = put_text(out, at, reason.words());
    let at = put_text(out, at, b", ");
    let at = put_number(out, at, calls);
    put_text(out, at, b" calls")
}

/// Writes at a place that a call was denied, and answers the place behind it.
fn put_denied(out: &mut [u8], at: usize, rule: u32, proc: Proc) -> usize
    requires { at + 80 ≤ length out.old }
    ensures text { take result out.new ≡ take at out.old ++ news_text (News.Denied rule proc) }
    ensures end { result ≤ at + 80 }
    ensures len { length out.new ≡ length out.old }
{
    let at = put_text(out, at, b" denied: ");
    let at = put_text(out, at, word_of(proc));
    let at = put_text(out, at, b", rule ");
    put_number(out, at, u64::from(rule))
}

/// Writes at a place what is told of a connection, and answers the place behind it.
fn put_news(out: &mut [u8], at: usize, news: News) -> usize
    requires { at + 80 ≤ length out.old }
    ensures text { take result out.new ≡ take at out.old ++ news_text news }
    ensures end { result ≤ at + 80 }
    ensures len { length out.new ≡ length out.old }
{
    match news {
        News::Came => put_text(out, at, b" came"),
        News::Ended { reason, calls } => put_end(out, at, reason, calls),
        News::Full => put_text(out, at, b" refused: 64 are connected"),
        News::NoMemory => put_text(out, at, b" refused: no memory"),
        News::Denied { rule, proc } => put_denied(out, at, rule, proc),
    }
}

/// Writes an address at a place, and answers the place behind it.
fn put_address(out: &mut [u8], at: usize, host: u32) -> usize
    requires { at + 83 ≤ length out.old }
    ensures text { take result out.new ≡ take at out.old ++ address_text host }
    ensures end { result ≤ at + 83 }
    ensures len { length out.new ≡ length out.old }
{
    let at = put_number(out, at, u64::from(host / 16_777_216));
    let at = put_text(out, at, b".");
    let at = put_number(out, at, u64::from(host / 65_536 % 256));
    let at = put_text(out, at, b".");
    let at = put_number(out, at, u64::from(host / 256 % 256));
    let at = put_text(out, at, b".");
    put_number(out, at, u64::from(host % 256))
}

/// Writes where a peer is at a place, and answers the place behind it.
fn put_peer(out: &mut [u8], at: usize, peer: Place) -> usize
    requires { at + 104 ≤ length out.old }
    ensures text { take result out.new ≡ take at out.old ++ place_text peer }
    ensures end { result ≤ at + 104 }
    ensures len { length out.new ≡ length out.old }
{
    let at = put_address(out, at, peer.host);
    let at = put_text(out, at, b":");
    put_number(out, at, u64::from(peer.port))
}

/// The line of a connection: the moment, its channel, its number there, where its peer is, and what is told of it.
fn log_line(
    moment: u64,
    channel: Channel,
    number: u64,
    place: Place,
    news: News,
    out: &mut [u8],
) -> &[u8]
    requires { LOG_ROOM ≤ length out.old }
    ensures { result.now ≡ log_line moment channel number place news }
{
    let end = put_number(out, 0, moment);
    let end = put_text(out, end, b" ");
    let end = put_text(out, end, channel.word());
    let end = put_text(out, end, b" ");
    let end = put_number(out, end, number);
    let end = put_text(out, end, b" ");
    let end = put_peer(out, end, place);
    let end = put_news(out, end, news);
    let end = put_text(out, end, b"\n");
    &out[..end]
}

/// The log of one worker: where its lines go, and the clock that tells the moment of each, in milliseconds. The clock is called for
/// nothing else.
#[derive(Drop)]
pub struct Journal<C: Clock, K: Sink> {
    pub clock: C,
    pub sink: K,
}

impl<C: Clock, K: Sink> Journal<C, K> {
    /// Writes the line of a connection, with the moment that the clock tells now.
    pub fn tell(
        &mut self,
        channel: Channel,
        number: u64,
        place: Place,
        news: News,
    ) -> Result<(), SinkFailed>
        ensures put { (moment : ℕ) × IsTold C.Clock self.old.clock moment self.new.clock
            × IsPut (sink_shown K.Sink self.old.sink) (sink_shown K.Sink self.new.sink) (log_line moment channel number place news) result }
        ensures counted { K.faults self.old.sink ≤ K.faults self.new.sink }
    {
        let moment = self.clock.now();
        let mut room = [0; LOG_ROOM];
        let line = log_line(moment, channel, number, place, news, &mut room);
        put_all(&mut self.sink, line)
    }
}
