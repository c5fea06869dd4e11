//! All that the program `vxmap` does: the words, the port, what comes there, the lines that are printed, and the status.
ghost use Rattle.std.specs.Prelude.{◌≡◌, map, string_bytes};
ghost use Rattle.vx_record.specs.Buffer.{fresh};
ghost use Rattle.vx_door.specs.Shown.{door_shown};
ghost use Rattle.vx_portmap.specs.declared.limits.TheConstants.{MESSAGE_MAX};
ghost use Rattle.vx_text.specs.Ends.{sink_shown};
ghost use Rattle.vx_portmap.specs.Packing.{box_shown};
ghost use Rattle.vx_portmap.specs.Asked.{IsMapInRange};
ghost use Rattle.vx_portmap.specs.Outcome.{MapOpens, Works, IsMapServed, IsMapAskRun, IsMapRun, MapEndsRun, door_end, packets_end, mappings};

use crate::limits::MESSAGE_MAX;
use crate::mapper::Mapper;
use crate::nets::MapNet;
use crate::serving::{PacketEnd, serve_packets};
use crate::table::{Mapping, Ports};
use crate::words::{Ask, Kind, ask_of};
use std::alloc::Global;
use vx_io_traits::{DialOut, Sink};
use vx_peers::{DoorEnd, DoorStatus, put_line, serve_all};
use vx_record::RecordBuf;
use vx_text::{DIGITS_MAX, number_line, put_all};

/// Room for the longer of the lines with a number, its LF included.
const LINE_ROOM: usize = 8 + DIGITS_MAX + 1;

/// The programs of the core and of the abort channel, and their version (VXI-11, DEVICE_CORE and DEVICE_ASYNC).
const CORE: u32 = 0x0607AF;

const ABORT: u32 = 0x0607B0;

const VERSION: u32 = 1;

/// TCP, as the port mapper numbers protocols (RFC 1833, section 3.1).
const TCP: u32 = 6;

/// How the work ended.
#[derive(Clone, Copy)]
pub(crate) enum WorkEnd {
    /// As many were served as were asked for, or no more come.
    Done,
    /// The door or the box failed.
    Failed,
}

/// The mapping of a channel's program to its port.
fn mapping(prog: u32, port: u16) -> Mapping
    ensures { result ≡ record { prog = prog; vers = 1; prot = 6; port = port } }
{
    Mapping {
        prog,
        vers: VERSION,
        prot: TCP,
        port: u32::from(port),
    }
}

/// The table with both channels at the ports that are asked for.
fn table_of(ask: &Ask) -> Ports
    ensures { result ≡ mappings ask.now }
{
    let mut ports = Ports::new();
    let _ = ports.add(mapping(CORE, ask.core));
    let _ = ports.add(mapping(ABORT, ask.abort));
    ports
}

/// Opens the port that is asked for.
fn open<N: MapNet>(ask: &Ask, net: &mut N) -> DialOut
    ensures { MapOpens (record {
      ways = N.Link;
      tells = N.tells;
      waits = N.meets;
      door = door_shown N.Door;
      box = box_shown N.packets_left N.packets_given N.packets_moved N.packets_ended N.take_faults N.give_faults;
      box_faults = N.box_faults;
      opening = record { opens = N.opens; ready = N.is_ready };
      opens_box = N.opens_box;
    }) ask.now.kind ask.now.port net.old result net.new }
{
    match ask.kind {
        Kind::Stream => net.open(ask.port),
        Kind::Packets => net.packets(ask.port),
    }
}

fn end_of_door(end: DoorEnd) -> WorkEnd
    ensures { result ≡ door_end end }
{
    match end {
        DoorEnd::Served | DoorEnd::Ended => WorkEnd::Done,
        DoorEnd::Failed => WorkEnd::Failed,
    }
}

fn end_of_packets(end: PacketEnd) -> WorkEnd
    ensures { result ≡ packets_end end }
{
    match end {
        PacketEnd::Served | PacketEnd::Ended => WorkEnd::Done,
        PacketEnd::ReadFault | PacketEnd::WriteFault => WorkEnd::Failed,
    }
}

/// Serves what comes at the port that was opened, and answers how many were served.
fn work<N: MapNet>(ask: &Ask, ports: Ports, incoming: RecordBuf, net: &mut N) -> (WorkEnd, u32)
    requires range { IsMapInRange ask.now }
    requires incoming { incoming ≡ fresh MESSAGE_MAX }
    ensures { Works (record {
      ways = N.Link;
      tells = N.tells;
      waits = N.meets;
      door = door_shown N.Door;
      box = box_shown N.packets_left N.packets_given N.packets_moved N.packets_ended N.take_faults N.give_faults;
      box_faults = N.box_faults;
      opening = record { opens = N.opens; ready = N.is_ready };
      opens_box = N.opens_box;
    }) ask.now.kind ports ask.now.number net.old result.0 result.1 net.new }
{
    match ask.kind {
        Kind::Stream => {
            let mapper = Mapper::new(ports, incoming);
            let (_, end, number) = serve_all(mapper, net, ask.number);
            (end_of_door(end), number)
        }
        Kind::Packets => {
            let (end, number) = serve_packets(&ports, net, ask.number);
            (end_of_packets(end), number)
        }
    }
}

/// Serves at a port that was opened, and prints both lines.
fn serve<N: MapNet, K: Sink>(
    ask: &Ask,
    ports: Ports,
    incoming: RecordBuf,
    net: &mut N,
    sink: &mut K,
) -> DoorStatus
    requires range { IsMapInRange ask.now }
    requires incoming { incoming ≡ fresh MESSAGE_MAX }
    requires table { ports ≡ mappings ask.now }
    ensures { IsMapServed (record {
      ways = N.Link;
      tells = N.tells;
      waits = N.meets;
      door = door_shown N.Door;
      box = box_shown N.packets_left N.packets_given N.packets_moved N.packets_ended N.take_faults N.give_faults;
      box_faults = N.box_faults;
      opening = record { opens = N.opens; ready = N.is_ready };
      opens_box = N.opens_box;
    }) ask.now net.old net.new
        (sink_shown K.Sink sink.old) (sink_shown K.Sink sink.new) result }
{
    let mut out = [0u8; LINE_ROOM];
    let line = number_line(b"mapping ", u64::from(ask.port), &mut out);
    if put_all(sink, line).is_err() {
        return DoorStatus::SinkFailed;
    }
    match work(ask, ports, incoming, net) {
        (WorkEnd::Failed, _) => DoorStatus::NetFailed,
        (WorkEnd::Done, number) => {
            let line = number_line(b"served ", u64::from(number), &mut out);
            put_line(sink, line, DoorStatus::Served)
        }
    }
}

/// Does what is asked. All memory is taken before the port is opened.
fn run_ask<N: MapNet, K: Sink>(alloc: Global, ask: &Ask, net: &mut N, sink: &mut K) -> DoorStatus
    requires range { IsMapInRange ask.now }
    ensures { IsMapAskRun (record {
      ways = N.Link;
      tells = N.tells;
      waits = N.meets;
      door = door_shown N.Door;
      box = box_shown N.packets_left N.packets_given N.packets_moved N.packets_ended N.take_faults N.give_faults;
      box_faults = N.box_faults;
      opening = record { opens = N.opens; ready = N.is_ready };
      opens_box = N.opens_box;
    }) ask.now net.old net.new
        (sink_shown K.Sink sink.old) (sink_shown K.Sink sink.new) result }
{
    let Ok(incoming) = RecordBuf::new(alloc, MESSAGE_MAX) else {
        return DoorStatus::NoMemory;
    };
    match open(ask, net) {
        DialOut::Up => serve(ask, table_of(ask), incoming, net, sink),
        DialOut::Failed => DoorStatus::NetFailed,
    }
}

fn run<N: MapNet, K: Sink>(alloc: Global, words: &[String], net: &mut N, sink: &mut K) -> DoorStatus
    ensures { IsMapRun (record {
      ways = N.Link;
      tells = N.tells;
      waits = N.meets;
      door = door_shown N.Door;
      box = box_shown N.packets_left N.packets_given N.packets_moved N.packets_ended N.take_faults N.give_faults;
      box_faults = N.box_faults;
      opening = record { opens = N.opens; ready = N.is_ready };
      opens_box = N.opens_box;
    }) (map string_bytes words.now) net.old net.new
        (sink_shown K.Sink sink.old) (sink_shown K.Sink sink.new) result }
{
    match ask_of(words) {
        Some(ask) => run_ask(alloc, &ask, net, sink),
        None => {
            let usage = b"usage: vxmap KIND PORT CORE ABORT N\n";
            put_line(sink, usage, DoorStatus::Usage)
        }
    }
}

/// All that the program `vxmap` does: it answers the calls of port mapper version 2 (RFC 1833, section 3) with the ports of a
/// VXI-11 gateway, and answers the exit status.
///
/// The words are `stream PORT CORE ABORT N`, for N streams of records at PORT one after another, or `packets PORT CORE ABORT N`,
/// for N packets. CORE and ABORT are the gateway's ports. Ports are 1 to 65,535 and N is 1 to 1,000,000, in decimal digits
/// without a leading zero. The programs of the core and of the abort channel, version 1 over TCP, are the whole table. It prints
/// `mapping PORT` once the port is open, and at the end `served N` with the number of streams or packets that it served: those
/// asked for, or fewer where no more come.
///
/// - 0: both lines.
/// - 1, `usage: vxmap KIND PORT CORE ABORT N`: the words have another form. Nothing is opened.
/// - 3: the port couldn't be opened, and nothing is printed; or a wait for a peer, or a take or a give of a packet failed behind
///   the first line.
/// - 5, nothing printed and nothing opened: there was no memory.
/// - 6: the sink failed; a front of what was due was written.
///
/// A fault of a peer's stream ends that stream alone. One port is opened, once: that of the words, as a net tells it that tells its
/// openings.
pub fn map_run<N: MapNet, K: Sink>(alloc: Global, words: &[String], net: &mut N, sink: &mut K) -> u8
    ensures { MapEndsRun (record {
      ways = N.Link;
      tells = N.tells;
      waits = N.meets;
      door = door_shown N.Door;
      box = box_shown N.packets_left N.packets_given N.packets_moved N.packets_ended N.take_faults N.give_faults;
      box_faults = N.box_faults;
      opening = record { opens = N.opens; ready = N.is_ready };
      opens_box = N.opens_box;
    }) (map string_bytes words.now) net.old net.new
        (sink_shown K.Sink sink.old) (sink_shown K.Sink sink.new) result }
{
    run(alloc, words, net, sink).number()
}
