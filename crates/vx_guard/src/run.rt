//! All that the program `vxguard` does: the words, the rules, the port, the links that come there, the lines that are printed, and the
//! status.
ghost use Rattle.std.specs.Prelude.{◌≡◌, [], map, string_bytes, vec_len};
ghost use Rattle.vx_488.specs.Means.{first_means};
ghost use Rattle.vx_peers.specs.Asked.{IsPeerInRange};
ghost use Rattle.vx_text.specs.Ends.{sink_shown};
ghost use Rattle.vx_session.specs.Origin.{origin};
ghost use Rattle.vx_lone.specs.Lone.{handed, lone};
ghost use Rattle.vx_guard.specs.Outcome.{IsEnd, IsPortRun, IsRuledRun, IsGuardAskRun, IsGuardRun, GuardEndsRun, guard_ends};
ghost use Rattle.vx_guard.specs.Peers.{CanServe, guard_shown};

use crate::reading::{put_line, rules_of};
use crate::serving::Guard;
use crate::starting::{bus_of, start};
use crate::status::GuardStatus;
use std::alloc::Global;
use std::marker::Brand;
use std::sync::Wait;
use vx_488::Bus;
use vx_core::Core;
use vx_desks::{Gateway, GuardRoom, Kit};
use vx_door::{Door, Peered};
use vx_gate::{Pass, Turns};
use vx_inst::Instrument;
use vx_io_traits::{Clock, Dial, Pause, Sink, Source};
use vx_lone::Racked;
use vx_peers::{Ask, DoorEnd, PortEnd, WhyStopped, ask_of, serve_port};
use vx_policy::{LINE_ROOM, Policy, served_line};
use vx_rack::Spare;
use vx_session::Tools;

/// The runtime of a run, and its memory.
#[derive(Drop)]
struct System<'a, R> {
    rt: &'a R,
    alloc: Global,
}

/// Tells how many links were served, where the port was opened and neither the door nor the note failed.
fn tell<K: Sink>(sink: &mut K, end: PortEnd) -> GuardStatus
    ensures { IsEnd end (sink_shown K.Sink sink.old) (sink_shown K.Sink sink.new) result }
{
    match end {
        PortEnd::Unopened => GuardStatus::NetFailed,
        PortEnd::Served {
            why: WhyStopped::Server,
            ..
        } => GuardStatus::SinkFailed,
        PortEnd::Served {
            why: WhyStopped::Door(DoorEnd::Failed),
            ..
        } => GuardStatus::NetFailed,
        PortEnd::Served {
            why: WhyStopped::Door(DoorEnd::Served | DoorEnd::Ended),
            number,
        } => {
            let mut out = [0u8; LINE_ROOM];
            put_line(sink, served_line(number, &mut out), GuardStatus::Served)
        }
    }
}

/// Serves the links that come to the port that is asked for, and prints how many there were.
fn serve_ask<
    R: Wait,
    B: Bus,
    T: Turns<Core<B>>,
    N: Door + Peered,
    C: Clock + Drop,
    P: Pause + Drop,
    D: Dial + Drop,
    K: Sink,
>(
    gateway: Gateway<'_, R, T>,
    pass: Pass<Core<B>>,
    policy: &Policy,
    ask: &Ask,
    net: &mut N,
    kit: &mut Kit<C, P, D>,
    sink: &mut K,
) -> GuardStatus
    requires range { IsPeerInRange ask.now }
    requires can { CanServe (T.gate gateway.turns.now) pass }
    requires fresh { (pass.seen ≡ []) × (pass.own ≡ []) }
    ensures { IsPortRun (guard_shown (origin B.Bus (T.first gateway.entry.turns.now)) C.Clock N.Link N.Door) policy.now (record { opens = N.opens; ready = N.is_ready }) ask.now net.old net.new
        (sink_shown K.Sink sink.old) (sink_shown K.Sink sink.new) result }
{
    let mut held = Some(pass);
    let guard = Guard {
        gateway,
        held: &mut held,
        policy,
        kit,
        note: sink,
        failed: false,
    };
    let (Guard { note, .. }, end) = serve_port(ask, guard, net);
    tell(note, end)
}

/// What a guard uses for one link after another, of these tools; none where there was no memory for its room.
fn kit_of<X: Tools>(alloc: Global, tools: &mut X) -> Option<Kit<X::C, X::P, X::D>> {
    let Ok(room) = GuardRoom::new(alloc) else {
        return None;
    };
    Some(Kit {
        clock: tools.clock(),
        pause: tools.pause(),
        dial: tools.dial(),
        room,
    })
}

/// Does what is asked by these rules, over a bus that nobody asked yet.
fn run_over<
    R: Wait,
    B: Bus + Drop,
    N: Door + Peered,
    C: Clock + Drop,
    P: Pause + Drop,
    D: Dial + Drop,
    K: Sink,
>(
    system: &System<'_, R>,
    ask: &Ask,
    policy: &Policy,
    net: &mut N,
    kit: &mut Kit<C, P, D>,
    sink: &mut K,
    bus: B,
) -> GuardStatus
    requires range { IsPeerInRange ask.now }
    requires fresh { B.means bus ≡ first_means }
    ensures { IsRuledRun (λ first. guard_shown (origin B.Bus first) C.Clock N.Link N.Door) policy.now (record { opens = N.opens; ready = N.is_ready }) ask.now net.old net.new
        (sink_shown K.Sink sink.old) (sink_shown K.Sink sink.new) result }
{
    match start(system.alloc, bus) {
        Some((gate, pass)) => {
            let gateway = Gateway {
                rt: system.rt,
                alloc: system.alloc,
                turns: &gate,
            };
            serve_ask(gateway, pass, policy, ask, net, kit, sink)
        }
        None => GuardStatus::NoMemory,
    }
}

/// Does what is asked by these rules. All memory but that for a connection is taken before the port is opened. `M` names the rack.
fn run_racked<R: Wait, N: Door + Peered, X: Tools, K: Sink, I: Instrument, M: Racked>(
    system: &System<'_, R>,
    ask: &Ask,
    policy: &Policy,
    net: &mut N,
    tools: &mut X,
    sink: &mut K,
    rack: Vec<Spare<I>>,
) -> GuardStatus
    requires range { IsPeerInRange ask.now }
    requires rack { vec_len rack ≡ 1 }
    requires racked { M.rack ≡ handed (λ i. I.behaves i) (λ i. I.nature i) rack.items }
    ensures { IsRuledRun (λ first. guard_shown (origin (lone M.rack) first) X.C.Clock N.Link N.Door) policy.now (record { opens = N.opens; ready = N.is_ready }) ask.now net.old net.new
        (sink_shown K.Sink sink.old) (sink_shown K.Sink sink.new) result }
{
    let Some(mut kit) = kit_of(system.alloc, tools) else {
        return GuardStatus::NoMemory;
    };
    match bus_of::<I, M>(system.alloc, rack) {
        Some(bus) => run_over(system, ask, policy, net, &mut kit, sink, bus),
        None => GuardStatus::NoMemory,
    }
}

/// Does what is asked by these rules, over a bus with the spare of the rack.
fn run_ruled<R: Wait, N: Door + Peered, X: Tools, K: Sink, I: Instrument>(
    system: &System<'_, R>,
    ask: &Ask,
    policy: &Policy,
    net: &mut N,
    tools: &mut X,
    sink: &mut K,
    rack: Vec<Spare<I>>,
) -> GuardStatus
    requires range { IsPeerInRange ask.now }
    requires rack { vec_len rack ≡ 1 }
    ensures { IsRuledRun (λ first. guard_shown (origin (lone (handed (λ i. I.behaves i) (λ i. I.nature i) rack.items)) first) X.C.Clock N.Link N.Door) policy.now (record { opens = N.opens; ready = N.is_ready }) ask.now net.old net.new
        (sink_shown K.Sink sink.old) (sink_shown K.Sink sink.new) result }
{
    run_racked::<R, N, X, K, I, Brand>(system, ask, policy, net, tools, sink, rack)
}

/// Reads the rules, and does what is asked by them.
fn run_ask<R: Wait, N: Door + Peered, X: Tools, S: Source, K: Sink, I: Instrument>(
    system: &System<'_, R>,
    ask: &Ask,
    rules: &mut S,
    net: &mut N,
    tools: &mut X,
    sink: &mut K,
    rack: Vec<Spare<I>>,
) -> GuardStatus
    requires range { IsPeerInRange ask.now }
    requires rack { vec_len rack ≡ 1 }
    ensures { IsGuardAskRun (λ first. guard_shown (origin (lone (handed (λ i. I.behaves i) (λ i. I.nature i) rack.items)) first) X.C.Clock N.Link N.Door) (record { opens = N.opens; ready = N.is_ready }) ask.now net.old net.new
        (guard_ends S.Source K.Sink rules.old rules.new sink.old sink.new) result }
{
    match rules_of(system.alloc, rules, sink) {
        Ok(policy) => run_ruled(system, ask, &policy, net, tools, sink, rack),
        Err(how) => how,
    }
}

/// Does what the words ask.
fn run<R: Wait, N: Door + Peered, X: Tools, S: Source, K: Sink, I: Instrument>(
    system: &System<'_, R>,
    words: &[String],
    rules: &mut S,
    net: &mut N,
    tools: &mut X,
    sink: &mut K,
    rack: Vec<Spare<I>>,
) -> GuardStatus
    requires rack { vec_len rack ≡ 1 }
    ensures { IsGuardRun (λ first. guard_shown (origin (lone (handed (λ i. I.behaves i) (λ i. I.nature i) rack.items)) first) X.C.Clock N.Link N.Door) (record { opens = N.opens; ready = N.is_ready }) (map string_bytes words.now) net.old net.new
        (guard_ends S.Source K.Sink rules.old rules.new sink.old sink.new) result }
{
    match ask_of(words) {
        Some(ask) => run_ask(system, &ask, rules, net, tools, sink, rack),
        None => put_line(sink, b"usage: vxguard PORT N\n", GuardStatus::Usage),
    }
}

/// All that the program `vxguard` does: it serves VXI-11 core links by written rules, and answers the exit status.
///
/// The words are `PORT N`, with a port 1 to 65,535 and N 1 to 1,000,000, in decimal digits without a leading zero. The rules are read
/// from their source to its end ([`Policy::from_text`] says their form). The gateway has one instrument, the one spare of the rack, at
/// primary address 5, and tells 9011 as the port of its abort channel. N links are served at PORT one after another, each by a session
/// that is guarded by the rules ([`guarded_session`](crate::guarded_session)); the line of each denial goes to the sink. At the end the
/// sink gets `served N`, with the number of links that were served: those asked for, or fewer where no more come. A link for whose
/// connection there is no memory gets nothing and counts.
///
/// - 0: the lines of all denials, and the last line, were written.
/// - 1, `usage: vxguard PORT N`: the words have another form. The rules aren't read.
/// - 2: the policy was refused, and nothing is opened. `fault long`: it has more than 1,048,576 bytes. `fault line N form`: line N is
///   the first of another form than a rule. `fault many`: none is, and there are more than 256 rules.
/// - 3: the port couldn't be opened, or a wait for a link failed.
/// - 5, nothing printed and nothing opened: there was no memory.
/// - 6: the sink failed. Where that was in the line of a denial, no further link is served.
/// - 7, nothing printed and nothing opened: the source of the rules failed.
///
/// A fault of a link ends its session alone. One port is opened, once: that of the words, as a door tells it that tells its openings. That
/// the spare stands on the bus at that address, and nothing else, is part of what is said of each poll ([`LoneBus`](vx_lone::LoneBus)), and
/// that 9011 is told is part of what is said of the gateway.
pub fn guard_run<R: Wait, N: Door + Peered, X: Tools, S: Source, K: Sink, I: Instrument>(
    rt: &R,
    alloc: Global,
    words: &[String],
    rules: &mut S,
    net: &mut N,
    tools: &mut X,
    sink: &mut K,
    rack: Vec<Spare<I>>,
) -> u8
    requires rack { vec_len rack ≡ 1 }
    ensures { GuardEndsRun (λ first. guard_shown (origin (lone (handed (λ i. I.behaves i) (λ i. I.nature i) rack.items)) first) X.C.Clock N.Link N.Door) (record { opens = N.opens; ready = N.is_ready }) (map string_bytes words.now) net.old net.new
        (guard_ends S.Source K.Sink rules.old rules.new sink.old sink.new) result }
{
    let system = System { rt, alloc };
    run(&system, words, rules, net, tools, sink, rack).number()
}
