//! A gateway whose bus is another gateway's, over a link in memory, beside a gateway with the bus itself: what they answer, and what becomes
//! of faults between the two.

ghost use Rattle.std.specs.Prelude.{◌≡◌};
ghost use Rattle.vx_488.specs.Means.{first_means};

use crate::bench_tools::bus_with;
use crate::box_tools::{BoxLink, CALM, Conduct, Count, box_link, count_of};
use crate::word_tools::{push_words, words};
use std::alloc::{AllocError, Global};
use std::sync::Arc;
use std::sync::atomic::Ordering;
use vx_488::Bus;
use vx_core::Core;
use vx_inst::Instrument;
use vx_io_traits::{Link, Reach, ReadOut};
use vx_rack::Slow;
use vx_sim::SimBus;
use vx_upstream::UpstreamBus;

/// The port of the abort channel.
const PORT: u16 = 9011;

/// How long the far box may take for one call, in milliseconds.
const PATIENCE: u32 = 3;

type Far = BoxLink<SimBus<Slow>>;

/// A link to a gateway over a bus, of this conduct. Its records are counted here.
fn linked<B: Bus + Drop>(alloc: Global, bus: B, conduct: Conduct, sent: Count) -> Option<BoxLink<B>>
    requires { B.means bus ≡ first_means }
{
    match Core::start(alloc, bus, PORT) {
        Ok(core) => box_link(alloc, core, conduct, sent),
        Err(_) => None,
    }
}

/// The same where the bus has an instrument at 5, if there is one.
fn far_from<I: Instrument>(
    alloc: Global,
    inst: Option<I>,
    conduct: Conduct,
    sent: Count,
) -> Option<BoxLink<SimBus<I>>> {
    linked(alloc, bus_with(alloc, inst)?, conduct, sent)
}

/// The same with an instrument that gives back what it is sent, and takes and gives at most a byte a millisecond. So a burst over the chain
/// ends with each of its bytes.
fn far(alloc: Global, conduct: Conduct, sent: Count) -> Option<Far> {
    far_from(alloc, Slow::new(alloc).ok(), conduct, sent)
}

/// A link to a gateway whose bus is that of the one that a link leads to, at this host. So many milliseconds pass with each record.
fn chained<L: Reach + Drop>(
    alloc: Global,
    link: L,
    host: String,
    pace: u64,
    sent: Count,
) -> Option<BoxLink<UpstreamBus<L>>> {
    match UpstreamBus::open(alloc, link, host, PORT, b"gpib0", PATIENCE) {
        Ok(bus) => linked(alloc, bus, Conduct { pace, ..CALM }, sent),
        Err(_) => None,
    }
}

/// The same at a host of its own, where there is that link.
fn near<L: Reach + Drop>(
    alloc: Global,
    link: Option<L>,
    pace: u64,
) -> Option<BoxLink<UpstreamBus<L>>> {
    let host = String::from_str(alloc, "far").ok()?;
    let sent = count_of(alloc)?;
    chained(alloc, link?, host, pace, sent)
}

/// A call of the core channel: the number of its procedure, the words of its arguments, and how many words more are behind these, which
/// count up from 0.
type Act = (u32, &'static [u32], u32);

/// The record of a call.
fn record(alloc: Global, act: &Act) -> Result<Vec<u8>, AllocError> {
    let (procedure, arguments, more) = *act;
    let count = (arguments.len().min(16) as u32).saturating_add(more);
    let mark = 0x8000_0028u32.saturating_add(count.saturating_mul(4));
    let front = [mark, 1, 0, 2, 0x0607AF, 1, procedure, 0, 0, 0, 0];
    let mut bytes = words(alloc, &front, arguments)?;
    for number in 0..more {
        push_words(&mut bytes, &[number])?;
    }
    Ok(bytes)
}

/// Makes a call over a link. How many bytes come of its reply, which stand at the front of the room then.
fn ask<L: Link>(
    alloc: Global,
    link: &mut L,
    act: &Act,
    room: &mut [u8; 1100],
) -> Result<usize, AllocError> {
    let record = record(alloc, act)?;
    if !record.is_empty() {
        link.send(record.as_slice());
    }
    match link.receive(room) {
        ReadOut::Got(count) => Ok(count.min(1100)),
        _ => Ok(0),
    }
}

// Links 1 to 3 are to device 5, to the interface and to device 9. 10 create_link, 11 device_write, 12 device_read, 13 device_readstb, 14
// device_trigger, 15 device_clear, 16 device_remote, 17 device_local, 22 device_docmd, 23 destroy_link. Of device_docmd 020000 is send
// command, 020001 bus status, 020002 ATN, 020003 REN, 020004 pass control, 02000A own address, 020010 interface clear.
static SESSION: [Act; 44] = [
    (10, &[0, 0, 0, 7, 0x67706962, 0x302C3500], 0), // gpib0,5
    (10, &[0, 0, 0, 5, 0x67706962, 0x30000000], 0), // gpib0
    (10, &[0, 0, 0, 7, 0x67706962, 0x302C3900], 0), // gpib0,9
    (16, &[1, 0, 0, 2000], 0),
    (11, &[1, 2000, 0, 8, 5, 0x48454C4C, 0x4F000000], 0), // HELLO
    (12, &[1, 100, 2000, 0, 0, 0], 0),
    (12, &[1, 100, 2000, 0, 0, 0], 0),
    (13, &[1, 0, 0, 2000], 0),
    (11, &[1, 2000, 0, 0, 2, 0x41420000], 0), // AB without END
    (11, &[1, 2000, 0, 8, 3, 0x43444500], 0), // CDE
    (12, &[1, 2, 2000, 0, 0, 0], 0),
    (12, &[1, 2, 2000, 0, 0, 0], 0),
    (12, &[1, 2, 2000, 0, 0, 0], 0),
    (14, &[1, 0, 0, 2000], 0),
    (15, &[1, 0, 0, 2000], 0),
    (11, &[1, 2000, 0, 8, 700], 175),
    (12, &[1, 1000, 2000, 0, 0, 0], 0),
    (22, &[2, 0, 2000, 0, 0x020000, 1, 1, 3, 0x3F402500], 0),
    (11, &[2, 2000, 0, 8, 2, 0x58590000], 0), // XY
    (22, &[2, 0, 2000, 0, 0x020000, 1, 1, 3, 0x3F204500], 0),
    (12, &[2, 100, 2000, 0, 0, 0], 0),
    (22, &[2, 0, 2000, 0, 0x020001, 1, 1, 2, 0x00010000], 0),
    (22, &[2, 0, 2000, 0, 0x020001, 1, 1, 2, 0x00020000], 0),
    (22, &[2, 0, 2000, 0, 0x020001, 1, 1, 2, 0x00030000], 0),
    (22, &[2, 0, 2000, 0, 0x020001, 1, 1, 2, 0x00050000], 0),
    (22, &[2, 0, 2000, 0, 0x020001, 1, 1, 2, 0x00080000], 0),
    (22, &[2, 0, 2000, 0, 0x020002, 1, 1, 2, 0x00010000], 0),
    (22, &[2, 0, 2000, 0, 0x020003, 1, 1, 2, 0x00010000], 0),
    (22, &[2, 0, 2000, 0, 0x02000A, 1, 1, 4, 7], 0),
    (22, &[2, 0, 2000, 0, 0x020001, 1, 1, 2, 0x00080000], 0),
    (22, &[2, 0, 2000, 0, 0x020004, 1, 1, 4, 5], 0),
    (22, &[2, 0, 2000, 0, 0x020001, 1, 1, 2, 0x00050000], 0),
    (22, &[2, 0, 2000, 0, 0x020010, 1, 1, 0], 0),
    (22, &[2, 0, 2000, 0, 0x020001, 1, 1, 2, 0x00050000], 0),
    (11, &[3, 2000, 0, 8, 6, 0x4E4F424F, 0x44590000], 0), // NOBODY
    (11, &[3, 2000, 0, 8, 0], 0),
    (12, &[1, 100, 2000, 0, 0x80, 0x43], 0),
    (11, &[1, 2000, 0, 8, 5, 0x41424344, 0x45000000], 0), // ABCDE
    (12, &[1, 100, 2000, 0, 0x80, 0x43], 0),
    (12, &[1, 100, 2000, 0, 0, 0], 0),
    (17, &[1, 0, 0, 2000], 0),
    (12, &[3, 100, 2000, 0, 0, 0], 0),
    (23, &[1], 0),
    (23, &[3], 0),
];

/// What is done over a link to a gateway, and what comes of it.
trait Errand<T: Drop> {
    fn run<L: Link>(&self, alloc: Global, link: &mut L) -> Result<T, AllocError>;
}

/// Does it over a link that isn't up yet, where there is one.
fn over<T: Drop, E: Errand<T>, L: Reach + Drop>(
    alloc: Global,
    link: Option<L>,
    errand: &E,
) -> Option<T> {
    let mut link = link?;
    link.reach("near", PORT);
    errand.run(alloc, &mut link).ok()
}

/// The same over a gateway with the bus of the one that a link leads to. So many milliseconds pass with each record.
fn over_near<T: Drop, E: Errand<T>, L: Reach + Drop>(
    alloc: Global,
    link: Option<L>,
    pace: u64,
    errand: &E,
) -> Option<T> {
    over(alloc, near(alloc, link, pace), errand)
}

/// The same over a gateway with the bus of the far box, which is of this conduct.
fn in_chain<T: Drop, E: Errand<T>>(
    alloc: Global,
    conduct: Conduct,
    sent: Count,
    pace: u64,
    errand: &E,
) -> Option<T> {
    over_near(alloc, far(alloc, conduct, sent), pace, errand)
}

/// To ask for all of a session, of which the records of the replies come.
#[derive(Drop)]
struct Session;

impl Errand<Vec<u8>> for Session {
    fn run<L: Link>(&self, alloc: Global, link: &mut L) -> Result<Vec<u8>, AllocError> {
        replies(alloc, link)
    }
}

/// The records of the replies of a session.
fn replies<L: Link>(alloc: Global, link: &mut L) -> Result<Vec<u8>, AllocError> {
    let mut text = Vec::new(alloc);
    let mut room = [0u8; 1100];
    for act in &SESSION {
        let count = ask(alloc, link, act, &mut room)?;
        text.extend_from_slice(&room[..count.min(1100)])?;
    }
    Ok(text)
}

/// What a gateway with the bus answers.
fn alone(alloc: Global) -> Option<Vec<u8>> {
    let sent = count_of(alloc)?;
    over(alloc, far(alloc, CALM, sent), &Session)
}

/// What one with the other's bus answers.
fn chain_replies(alloc: Global) -> Option<Vec<u8>> {
    let sent = count_of(alloc)?;
    in_chain(alloc, CALM, sent, 0, &Session)
}

/// Whether both are the same, and are whole.
fn are_the_same(alloc: Global) -> Option<bool> {
    let first = alone(alloc)?;
    let second = chain_replies(alloc)?;
    Some(2000 < first.len() && first.as_slice() == second.as_slice())
}

#[test]
fn a_chain_gives_the_same_replies(rt: HostRuntime) {
    assert!(rt; are_the_same(rt.alloc()) == Some(true));
}

// ---- faults

// What is asked where a connection to the far box breaks. An instrument that gives back what it hears was sent each byte once. Two reads
// more stand behind those that may fail: for what a read that failed left.
static FAULTY: [Act; 11] = [
    (11, &[1, 20, 0, 8, 5, 0x41424344, 0x45000000], 0), // ABCDE
    READ,
    (11, &[1, 20, 0, 8, 2, 0x58590000], 0), // XY
    READ,
    (11, &[1, 20, 0, 8, 1, 0x5A000000], 0), // Z
    READ,
    READ,
    READ,
    (11, &[1, 20, 0, 8, 1, 0x21000000], 0), // !
    READ,
    READ,
];

const READ: Act = (12, &[1, 100, 20, 0, 0, 0], 0);

const HEARD: &[u8] = b"ABCDEXYZ!";

/// The error of the record of a reply to a device_write or a device_read, and the bytes that this brought; none where it is no reply.
fn told(reply: &[u8]) -> Option<(u8, &[u8])> {
    let error = *reply.get(31)?;
    let bytes = match reply.get(39) {
        Some(count) => reply.get(40..)?.get(..usize::from(*count))?,
        None => &[],
    };
    Some((error, bytes))
}

/// What calls came to: how many had error 17 (I/O error), how many another but 15 (I/O timeout), or no reply; and the bytes that were read.
#[derive(Drop)]
struct Came {
    faults: u32,
    others: u32,
    text: Vec<u8>,
}

/// What these calls come to, over a link to device 5.
fn count<L: Link>(alloc: Global, link: &mut L) -> Result<Came, AllocError> {
    let mut room = [0u8; 1100];
    let mut came = Came {
        faults: 0,
        others: 0,
        text: Vec::new(alloc),
    };
    ask(alloc, link, &SESSION[0], &mut room)?;
    for act in &FAULTY {
        let many = ask(alloc, link, act, &mut room)?;
        match told(&room[..many.min(1100)]) {
            Some((0, bytes)) => came.text.extend_from_slice(bytes)?,
            Some((15, _)) => {}
            Some((17, _)) => came.faults = came.faults.saturating_add(1),
            _ => came.others = came.others.saturating_add(1),
        }
    }
    Ok(came)
}

/// Whether bytes are some of what is sent, each once and in order, with the last of it.
fn is_once(bytes: &[u8]) -> bool {
    let mut rest = bytes;
    let mut is_last = false;
    for heard in HEARD {
        match rest.strip_prefix([*heard].as_slice()) {
            Some(after) => {
                rest = after;
                is_last = true;
            }
            None => is_last = false,
        }
    }
    is_last && rest.is_empty()
}

/// To make those calls.
#[derive(Drop)]
struct Faulty;

impl Errand<Came> for Faulty {
    fn run<L: Link>(&self, alloc: Global, link: &mut L) -> Result<Came, AllocError> {
        count(alloc, link)
    }
}

/// What they come to where the far box is of this conduct.
fn broken(alloc: Global, conduct: Conduct) -> Option<Came> {
    let sent = count_of(alloc)?;
    in_chain(alloc, conduct, sent, 1, &Faulty)
}

/// Whether a bus isn't had whose connection breaks at the record of this number, at one of the four that open the bus; or whether calls
/// come to what they should where it does so at one of those behind, or at none, 0.
fn comes_back(alloc: Global, number: u64, conduct: Conduct) -> bool {
    match broken(alloc, conduct) {
        None => 1 <= number && number <= 4,
        Some(came) => {
            let is_whole = came.faults == 0 && came.text.as_slice() == HEARD;
            let is_due = if number == 0 {
                is_whole
            } else {
                4 < number && came.faults <= 1
            };
            is_due && came.others == 0 && is_once(came.text.as_slice())
        }
    }
}

// Four records open the bus. Behind them stand those of the calls: commands, data, reads. The connection breaks before a record is handed over,
// or behind it once its call was done.
#[test]
fn a_broken_connection_comes_back(rt: HostRuntime) {
    for number in 0..32u64 {
        let before = Conduct {
            before: number,
            ..CALM
        };
        let behind = Conduct {
            behind: number,
            ..CALM
        };
        let is_so = comes_back(rt.alloc(), number, before)
            && (number < 5 || comes_back(rt.alloc(), number, behind));
        assert!(rt; is_so, "record {number}");
    }
}

/// A write of `A`.
const WRITE: Act = (11, &[1, 20, 0, 8, 1, 0x41000000], 0);

/// Whether each of twelve writes to device 5 is done or not, as is due: the second and the next eight aren't, and cost the far box nothing
/// but the second.
fn are_written<L: Link>(alloc: Global, link: &mut L, sent: &Count) -> Result<bool, AllocError> {
    let mut room = [0u8; 1100];
    let mut all = true;
    ask(alloc, link, &SESSION[0], &mut room)?;
    for number in 0..12 {
        let before = sent.load(Ordering::SeqCst);
        let many = ask(alloc, link, &WRITE, &mut room)?;
        let is_done = matches!(told(&room[..many.min(1100)]), Some((0, _)));
        let is_quiet = sent.load(Ordering::SeqCst) == before;
        let is_away = number != 0 && number < 10;
        all &= is_done != is_away && (is_quiet || !is_away || number < 2);
    }
    Ok(all)
}

/// To make those writes, over a far box whose records are counted here.
#[derive(Drop)]
struct Writes {
    sent: Count,
}

impl Errand<bool> for Writes {
    fn run<L: Link>(&self, alloc: Global, link: &mut L) -> Result<bool, AllocError> {
        are_written(alloc, link, &self.sent)
    }
}

/// Whether they are, one each 300 milliseconds, where the connection breaks in the second and the next two reaches are refused.
fn away(alloc: Global) -> Option<bool> {
    let sent = count_of(alloc)?;
    let seen = Arc::try_clone(&sent).ok()?;
    let conduct = Conduct {
        before: 16,
        refuses: (2, 3),
        ..CALM
    };
    in_chain(alloc, conduct, seen, 300, &Writes { sent })
}

// A write is three commands and one byte, and each look at SRQ and NDAC another record. A try that brings the bus back is create_link, three
// orders, MTA or MLA of each who is addressed and SPD.
#[test]
fn a_box_that_is_away_is_asked_nothing(rt: HostRuntime) {
    assert!(rt; away(rt.alloc()) == Some(true));
}
