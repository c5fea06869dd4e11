//! The command that `clap` reads the words by.

ghost use Rattle.std.specs.Prelude.{◌≡◌, IfOk, false};
ghost use Rattle.clap.specs.Words.{app_of, rule_of};
ghost use Rattle.vx_startup.specs.Form.{file_option, flag, number_option, serving, text_option, timing, vxgate, with_rules};

use clap::builder::ValueParser;
use clap::{Arg, ArgAction, Command};
use std::alloc::{AllocError, Global};

/// The greatest port of TCP.
const PORT_MAX: u64 = 65_535;
/// The most milliseconds between two samples.
const SAMPLE_MAX: u64 = 60_000;
/// The most workers.
const WORKERS_MAX: u64 = 64;
/// The greatest limit of connections.
const LIMIT_MAX: u64 = 1_000_000;
/// The most seconds of a time for a peer: a day.
const SECONDS_MAX: u64 = 86_400;
/// The most milliseconds of a time for a box.
const PATIENCE_MAX: u64 = 1_000;

/// What the program is, as its help begins.
const ABOUT: &str = "A VXI-11 gateway to a GPIB bus

It serves VXI-11 clients over TCP. The bus and its instruments are simulated, as the bench on standard input says:
  vxgate < examples/bench.txt
With no bench, nothing stands on the bus:
  vxgate < /dev/null
The bus can be that of another VXI-11 box in place of the simulated one, behind its interface NAME, gpib0 where none is
named. These words come first, and there is no bench:
  vxgate --upstream HOST PORT [NAME] [OPTIONS] < /dev/null
It prints `listening CORE ABORT` once clients can come, and runs until Ctrl-C.

A VISA client finds the instrument at primary address 5 as TCPIP::host::gpib0,5::INSTR, and asks a port mapper at
port 111 for the port first: --map is one, or beside this program, run
  vxmap stream 111 9010 9011 1000000
vxcall wants no port mapper:
  vxcall 127.0.0.1 9010 gpib0,5 query '*IDN?'";

/// The option `--NAME VALUE`, whose value is a number from `least` to `most`, and `usual` where the option is left out.
fn number_option<'a>(
    alloc: Global,
    name: &'a str,
    value: &'a str,
    help: &'a str,
    usual: &'a str,
    least: u64,
    most: u64,
) -> Arg<'a>
    ensures rule { rule_of result ≡ number_option name.entry.now usual.entry.now least most }
    ensures local { result.global ≡ false }
{
    Arg::new(alloc, name)
        .long(name)
        .action(ArgAction::Set)
        .value_name(value)
        .help(help)
        .default_value(usual)
        .value_parser(ValueParser::unsigned(least, most))
}

/// The flag `--NAME`.
fn flag<'a>(alloc: Global, name: &'a str, help: &'a str) -> Arg<'a>
    ensures rule { rule_of result ≡ flag name.entry.now }
    ensures local { result.global ≡ false }
{
    Arg::new(alloc, name)
        .long(name)
        .action(ArgAction::SetTrue)
        .help(help)
        .value_parser(ValueParser::bool())
}

/// The option `--NAME VALUE`, which may be given again and again, and whose value is any text.
fn text_option<'a>(alloc: Global, name: &'a str, value: &'a str, help: &'a str) -> Arg<'a>
    ensures rule { rule_of result ≡ text_option name.entry.now }
    ensures local { result.global ≡ false }
{
    Arg::new(alloc, name)
        .long(name)
        .action(ArgAction::Append)
        .value_name(value)
        .help(help)
}

/// The option `--NAME FILE`, which may be given once, and whose value is any text.
fn file_option<'a>(alloc: Global, name: &'a str, help: &'a str) -> Arg<'a>
    ensures rule { rule_of result ≡ file_option name.entry.now }
    ensures local { result.global ≡ false }
{
    Arg::new(alloc, name)
        .long(name)
        .action(ArgAction::Set)
        .value_name("FILE")
        .help(help)
}

/// A command with the options of what is served: the ports, the samples, the workers and the limit.
fn serving<'a>(alloc: Global, command: Command<'a>) -> Result<Command<'a>, AllocError>
    ensures { IfOk result (λ c. app_of c ≡ with_rules (app_of command.entry) serving) }
{
    let core = "TCP port of the core channel, to which clients connect first, 1 to 65535";
    let abort = "TCP port of the abort channel, whose number clients are told, 1 to 65535";
    let sample =
        "Milliseconds between two looks at the SRQ line of the bus, 1 to 60000: a service request comes up to so much later";
    let workers = "Core connections served at a time, 1 to 64; others wait until one ends";
    let limit = "Core connections after which the program ends, 1 to 1000000, or 0: it never does";
    command
        .arg(number_option(alloc, "core", "PORT", core, "9010", 1, PORT_MAX))?
        .arg(number_option(alloc, "abort", "PORT", abort, "9011", 1, PORT_MAX))?
        .arg(number_option(alloc, "sample", "MS", sample, "10", 1, SAMPLE_MAX))?
        .arg(number_option(alloc, "workers", "N", workers, "16", 1, WORKERS_MAX))?
        .arg(number_option(alloc, "limit", "N", limit, "0", 0, LIMIT_MAX))
}

/// A command with the options of peers that are gone, that take nothing or say nothing, of a box, of the log, of the port mapper, of
/// names for devices and of access rules.
fn timing<'a>(alloc: Global, command: Command<'a>) -> Result<Command<'a>, AllocError>
    ensures { IfOk result (λ c. app_of c ≡ with_rules (app_of command.entry) timing) }
{
    let keepalive =
        "End a connection whose host answers nothing for so many seconds, as one without power, 1 to 86400, or 0: never";
    let send =
        "End a connection whose client takes nothing of a reply for so many seconds, 1 to 86400, or 0: never";
    let idle =
        "End a core connection after so many seconds without a byte, between records or within one, but not while a call of it is served, 1 to 86400, or 0: never";
    let abort_idle =
        "End an abort connection after so many seconds without a byte, but only where another waits to be served, 1 to 86400, or 0: never";
    let log =
        "Tell on standard error, a line each, which connections come, are refused and end, and why";
    let patience =
        "Milliseconds that the box of --upstream may take for one call before others have their turn, 1 to 1000";
    let map =
        "Tell the ports as a port mapper too, at port 111 over TCP and UDP, where that port can be had";
    let name =
        "Another name for a device, as inst0=gpib0,5: a client that asks for NAME is given a link to DEVICE. It may be given up to 64 times";
    let rules = "Judge each call by the access rules of FILE";
    command
        .arg(number_option(
            alloc,
            "keepalive",
            "SECONDS",
            keepalive,
            "120",
            0,
            SECONDS_MAX,
        ))?
        .arg(number_option(alloc, "send-timeout", "SECONDS", send, "60", 0, SECONDS_MAX))?
        .arg(number_option(alloc, "idle", "SECONDS", idle, "0", 0, SECONDS_MAX))?
        .arg(number_option(
            alloc,
            "abort-idle",
            "SECONDS",
            abort_idle,
            "5",
            0,
            SECONDS_MAX,
        ))?
        .arg(number_option(alloc, "patience", "MS", patience, "10", 1, PATIENCE_MAX))?
        .arg(flag(alloc, "log", log))?
        .arg(flag(alloc, "map", map))?
        .arg(text_option(alloc, "name", "NAME=DEVICE", name))?
        .arg(file_option(alloc, "rules", rules))
}

/// The command `vxgate`, with its ten options of a number, its two flags, its names and its rules.
pub(crate) fn vxgate<'a>(alloc: Global) -> Result<Command<'a>, AllocError>
    ensures { IfOk result (λ c. app_of c ≡ vxgate) }
{
    let bare = Command::new(alloc, "vxgate")
        .no_binary_name(true)
        .version("0.1.0")
        .about(ABOUT);
    timing(alloc, serving(alloc, bare)?)
}
