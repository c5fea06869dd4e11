//! Words, and what is asked by them, with ample memory.

use crate::client_tools::line_words;
use std::alloc::{AllocError, Global};
use vx_startup::{Asked, Options, read_words};

/// What no words set.
const USUAL: Options = Options {
    core: 9010,
    abort: 9011,
    sample: 10,
    workers: 16,
    limit: 0,
    keepalive: 120,
    send_timeout: 60,
    idle: 0,
    abort_idle: 5,
    patience: 10,
    log: false,
    map: false,
};

/// Lines of words that ask to serve, and what each sets.
static SERVED: [(&str, Options); 38] = [
    // no word sets an option
    ("", USUAL),
    ("--", USUAL),
    // each option sets its number
    ("--core 1", Options { core: 1, ..USUAL }),
    (
        "--core 65535",
        Options {
            core: 65535,
            ..USUAL
        },
    ),
    ("--core=9010", USUAL),
    ("--abort 1", Options { abort: 1, ..USUAL }),
    (
        "--abort=65535",
        Options {
            abort: 65535,
            ..USUAL
        },
    ),
    ("--sample 1", Options { sample: 1, ..USUAL }),
    (
        "--sample 60000",
        Options {
            sample: 60000,
            ..USUAL
        },
    ),
    (
        "--workers 1",
        Options {
            workers: 1,
            ..USUAL
        },
    ),
    (
        "--workers 64",
        Options {
            workers: 64,
            ..USUAL
        },
    ),
    ("--limit 0", USUAL),
    (
        "--limit 1000000",
        Options {
            limit: 1000000,
            ..USUAL
        },
    ),
    (
        "--keepalive 0",
        Options {
            keepalive: 0,
            ..USUAL
        },
    ),
    (
        "--keepalive 86400",
        Options {
            keepalive: 86400,
            ..USUAL
        },
    ),
    (
        "--send-timeout=0",
        Options {
            send_timeout: 0,
            ..USUAL
        },
    ),
    (
        "--send-timeout 86400",
        Options {
            send_timeout: 86400,
            ..USUAL
        },
    ),
    ("--idle 1", Options { idle: 1, ..USUAL }),
    (
        "--idle=86400",
        Options {
            idle: 86400,
            ..USUAL
        },
    ),
    ("--idle 0", USUAL),
    (
        "--abort-idle 0",
        Options {
            abort_idle: 0,
            ..USUAL
        },
    ),
    (
        "--abort-idle 86400",
        Options {
            abort_idle: 86400,
            ..USUAL
        },
    ),
    ("--log", Options { log: true, ..USUAL }),
    (
        "--patience 1",
        Options {
            patience: 1,
            ..USUAL
        },
    ),
    (
        "--patience=1000",
        Options {
            patience: 1000,
            ..USUAL
        },
    ),
    ("--map", Options { map: true, ..USUAL }),
    // a name sets none
    ("--name inst0=gpib0,5", USUAL),
    ("--name=inst0=gpib0,5", USUAL),
    ("--name inst0=gpib0,5 --name inst1=gpib0,5", USUAL),
    (
        "--name inst0=gpib0,5 --log --name=inst1=inst0",
        Options { log: true, ..USUAL },
    ),
    // nor does a file of rules
    ("--rules lab.rules", USUAL),
    ("--rules=lab.rules --log", Options { log: true, ..USUAL }),
    // all of them, in any order
    (
        "--core 1024 --abort 1025 --sample 250 --workers 4 --limit 7",
        Options {
            core: 1024,
            abort: 1025,
            sample: 250,
            workers: 4,
            limit: 7,
            ..USUAL
        },
    ),
    (
        "--limit=7 --workers=4 --sample=250 --abort=1025 --core=1024",
        Options {
            core: 1024,
            abort: 1025,
            sample: 250,
            workers: 4,
            limit: 7,
            ..USUAL
        },
    ),
    (
        "--log --keepalive 1 --core 1024 --send-timeout 2 --idle 3 --abort-idle 4",
        Options {
            core: 1024,
            keepalive: 1,
            send_timeout: 2,
            idle: 3,
            abort_idle: 4,
            log: true,
            ..USUAL
        },
    ),
    (
        "--abort-idle=4 --idle=3 --send-timeout=2 --log --keepalive=1",
        Options {
            keepalive: 1,
            send_timeout: 2,
            idle: 3,
            abort_idle: 4,
            log: true,
            ..USUAL
        },
    ),
    // a number may have a plus and zeros
    (
        "--workers +4",
        Options {
            workers: 4,
            ..USUAL
        },
    ),
    (
        "--workers 0004",
        Options {
            workers: 4,
            ..USUAL
        },
    ),
];

/// Lines that are refused.
static REFUSED: [&str; 61] = [
    // above or below a range
    "--core 0",
    "--core 65536",
    "--abort 0",
    "--abort 65536",
    "--sample 0",
    "--sample 60001",
    "--workers 0",
    "--workers 65",
    "--limit 1000001",
    "--limit 18446744073709551616",
    "--keepalive 86401",
    "--send-timeout 86401",
    "--idle 86401",
    "--abort-idle 86401",
    "--patience 0",
    "--patience 1001",
    "--keepalive=-1",
    // no number
    "--core x",
    "--core 9010x",
    "--core 0x1F90",
    "--core 1.0",
    "--core=-1",
    "--core=",
    "--core=+",
    // no value, or another option where it should stand
    "--workers",
    "--core --abort 1",
    "--core -1",
    "--idle",
    // a flag has no value
    "--log 1",
    "--log=true",
    "--map=true",
    // an option twice
    "--log --log",
    "--idle 5 --idle 5",
    "--workers 4 --workers 4",
    "--core=1 --core 2",
    // the text of a name has no `=`, or it is no text
    "--name inst0",
    "--name=",
    "--name inst0=gpib0,5 --name inst1",
    "--name",
    "--name --log",
    // a name twice
    "--name inst0=gpib0,5 --name inst0=gpib0,5",
    "--name inst0=gpib0,5 --name=inst1=gpib0,6 --name=inst0=gpib0,7",
    // a number out of its range beside a name
    "--name inst0=gpib0,5 --workers 65",
    // no file of rules, or two
    "--rules",
    "--rules --log",
    "--rules lab.rules --rules lab.rules",
    "--rules lab.rules house.rules",
    // other words, and the program's name
    "inst0=gpib0,5",
    "--name inst0=gpib0,5 inst1=gpib0,6",
    "--names inst0=gpib0,5",
    "--port 9010",
    "--work 4",
    "-w 4",
    "--Core 1",
    "serve",
    "vxgate",
    "help",
    "--core 1 2",
    "-- --core",
    // the first fault counts
    "--workers 65 --help",
    "--port --help",
];

/// Lines that give names, a text, and what it stands for then.
static NAMED: [(&str, &str, &str); 17] = [
    // one name
    ("--name inst0=gpib0,5", "inst0", "gpib0,5"),
    ("--name=inst0=gpib0,5", "inst0", "gpib0,5"),
    // a text that is no name
    ("", "inst0", "inst0"),
    ("--name inst0=gpib0,5", "inst1", "inst1"),
    ("--name inst0=gpib0,5", "INST0", "INST0"),
    ("--name inst0=gpib0,5", "gpib0,5", "gpib0,5"),
    // two names, among other options
    (
        "--name inst0=gpib0,5 --name inst1=gpib0,6",
        "inst0",
        "gpib0,5",
    ),
    (
        "--name inst0=gpib0,5 --name inst1=gpib0,6",
        "inst1",
        "gpib0,6",
    ),
    (
        "--core 1 --name=inst0=gpib0,5 --log --name inst1=gpib0,6",
        "inst0",
        "gpib0,5",
    ),
    (
        "--core 1 --name=inst0=gpib0,5 --log --name inst1=gpib0,6",
        "inst1",
        "gpib0,6",
    ),
    // what a name stands for isn't looked up again
    ("--name inst1=inst0 --name inst0=gpib0,5", "inst1", "inst0"),
    // two names of one device
    (
        "--name inst0=gpib0,5 --name inst1=gpib0,5",
        "inst1",
        "gpib0,5",
    ),
    // the first `=` ends the name
    ("--name=x=y", "x", "y"),
    ("--name=x=y=z", "x", "y=z"),
    ("--name=x==", "x", "="),
    // a name and a device may have no byte
    ("--name=x=", "x", ""),
    ("--name==gpib0", "", "gpib0"),
];

/// Lines, and the file of rules that each names; none where it names none.
static FILES: [(&str, Option<&str>); 5] = [
    ("", None),
    ("--name inst0=gpib0,5 --log", None),
    ("--rules lab.rules", Some("lab.rules")),
    (
        "--log --rules=/etc/lab.rules --workers 4",
        Some("/etc/lab.rules"),
    ),
    ("--rules=", Some("")),
];

/// How many bytes a name and its device text have, and whether they are taken: each has at most 255.
static LENGTHS: [(u32, u32, bool); 5] = [
    (255, 1, true),
    (1, 255, true),
    (255, 255, true),
    (256, 1, false),
    (1, 256, false),
];

/// 65 names of one byte.
const SHORT: &str = "ABCDEFGHIJKLMNOPQRSTUVWXYZabcdefghijklmnopqrstuvwxyz0123456789+-/";

/// Lines that ask for the version.
static VERSIONS: [&str; 2] = ["--version", "-V"];

/// The version.
const VERSION: &str = "vxgate 0.1.0\n";

/// Lines that ask for the help.
static HELPS: [&str; 4] = ["--help", "-h", "--workers 64 --help", "--help --port"];

/// What the help tells, among others.
static PARTS: [&str; 30] = [
    "A VXI-11 gateway to a GPIB bus\n",
    "TCPIP::host::gpib0,5::INSTR",
    "Usage: vxgate [OPTIONS]\n",
    "--core <PORT>",
    "[default: 9010]",
    "--abort <PORT>",
    "[default: 9011]",
    "--sample <MS>",
    "[default: 10]",
    "--workers <N>",
    "[default: 16]",
    "--limit <N>",
    "[default: 0]",
    "--keepalive <SECONDS>",
    "[default: 120]",
    "--send-timeout <SECONDS>",
    "[default: 60]",
    "--idle <SECONDS>",
    "--abort-idle <SECONDS>",
    "[default: 5]",
    "--patience <MS>",
    "--log",
    "--map",
    "--name <NAME=DEVICE>",
    "--rules <FILE>",
    "inst0=gpib0,5",
    "vxgate < ",
    "vxgate --upstream HOST PORT [NAME] [OPTIONS] < ",
    "-h, --help",
    "-V, --version",
];

/// What a line asks for.
fn asked(alloc: Global, line: &str) -> Result<Asked, AllocError> {
    let words = line_words(alloc, line)?;
    Ok(read_words(alloc, words.as_slice()))
}

/// Whether a line asks to serve with these options.
fn is_served(alloc: Global, line: &str, options: &Options) -> Result<bool, AllocError> {
    match asked(alloc, line)? {
        Asked::Serve(set, _, _) => Ok(set == *options),
        _ => Ok(false),
    }
}

/// Whether a line is refused.
fn is_refused(alloc: Global, line: &str) -> Result<bool, AllocError> {
    match asked(alloc, line)? {
        Asked::Usage => Ok(true),
        _ => Ok(false),
    }
}

/// Whether a line asks to serve, and by its names a text stands for this device.
fn stands_for(alloc: Global, line: &str, text: &str, device: &str) -> Result<bool, AllocError> {
    match asked(alloc, line)? {
        Asked::Serve(_, names, _) => Ok(names.device_of(text.as_bytes()) == device.as_bytes()),
        _ => Ok(false),
    }
}

/// Whether a line asks to serve by the rules of this file, or without rules.
fn is_ruled(alloc: Global, line: &str, due: Option<&str>) -> Result<bool, AllocError> {
    match asked(alloc, line)? {
        Asked::Serve(_, _, file) => Ok(file.as_deref() == due),
        _ => Ok(false),
    }
}

/// Puts a byte behind a line, so many times.
fn push_often(line: &mut String, byte: char, count: u32) -> Result<(), AllocError> {
    for _ in 0..count {
        line.push(byte)?;
    }
    Ok(())
}

/// A line that gives a name of so many bytes to a device text of so many.
fn long_line(alloc: Global, name: u32, device: u32) -> Result<String, AllocError> {
    let mut line = String::from_str(alloc, "--name=")?;
    push_often(&mut line, 'n', name)?;
    line.push('=')?;
    push_often(&mut line, 'd', device)?;
    Ok(line)
}

/// Whether such a line is taken, and whether it is refused.
fn long_is_so(alloc: Global, name: u32, device: u32) -> Result<(bool, bool), AllocError> {
    let line = long_line(alloc, name, device)?;
    Ok((is_served(alloc, &line, &USUAL)?, is_refused(alloc, &line)?))
}

/// A line of the first so many names of one byte, all for one device.
fn many_line(alloc: Global, count: usize) -> Result<String, AllocError> {
    let mut line = String::from_str(alloc, "--log")?;
    for name in SHORT.chars().take(count) {
        line.push_str(" --name=")?;
        line.push(name)?;
        line.push_str("=gpib0")?;
    }
    Ok(line)
}

/// Whether a line of so many names is taken, and whether it is refused.
fn many_is_so(alloc: Global, count: usize) -> Result<(bool, bool), AllocError> {
    let line = many_line(alloc, count)?;
    let options = Options { log: true, ..USUAL };
    Ok((
        is_served(alloc, &line, &options)?,
        is_refused(alloc, &line)?,
    ))
}

/// The text that a line asks for; none where it asks for something else.
fn text_of(alloc: Global, line: &str) -> Result<Option<String>, AllocError> {
    match asked(alloc, line)? {
        Asked::Tell(text) => Ok(Some(text)),
        _ => Ok(None),
    }
}

/// Whether a line is answered with the version.
fn tells_version(alloc: Global, line: &str) -> Result<bool, AllocError> {
    match text_of(alloc, line)? {
        Some(text) => Ok(text.as_str() == VERSION),
        None => Ok(false),
    }
}

/// Whether a text has each part of the help.
fn is_help(text: &str) -> bool {
    let mut is_so = true;
    for part in &PARTS {
        is_so &= text.contains(*part);
    }
    is_so
}

/// Whether a line is answered with each part of the help.
fn tells_help(alloc: Global, line: &str) -> Result<bool, AllocError> {
    match text_of(alloc, line)? {
        Some(text) => Ok(is_help(text.as_str())),
        None => Ok(false),
    }
}

#[test]
fn words_set_options(rt: HostRuntime) {
    for (line, options) in &SERVED {
        let is_so = is_served(rt.alloc(), line, options);
        assert!(rt; is_so == Ok(true), "{line}");
    }
}

#[test]
fn other_words_are_refused(rt: HostRuntime) {
    for line in &REFUSED {
        let is_so = is_refused(rt.alloc(), line);
        assert!(rt; is_so == Ok(true), "{line}");
    }
}

#[test]
fn names_stand_for_devices(rt: HostRuntime) {
    for (line, text, device) in &NAMED {
        let is_so = stands_for(rt.alloc(), line, text, device);
        assert!(rt; is_so == Ok(true), "{line}: {text}");
    }
}

#[test]
fn a_file_of_rules_is_named(rt: HostRuntime) {
    for (line, file) in &FILES {
        let is_so = is_ruled(rt.alloc(), line, *file);
        assert!(rt; is_so == Ok(true), "{line}");
    }
}

#[test]
fn long_names_are_refused(rt: HostRuntime) {
    for (name, device, taken) in &LENGTHS {
        let is_so = long_is_so(rt.alloc(), *name, *device);
        assert!(rt; is_so == Ok((*taken, !*taken)), "{name} and {device}");
    }
}

// There may be 64 names.
#[test]
fn too_many_names_are_refused(rt: HostRuntime) {
    assert!(rt; many_is_so(rt.alloc(), 64) == Ok((true, false)));
    assert!(rt; many_is_so(rt.alloc(), 65) == Ok((false, true)));
}

#[test]
fn the_version_is_told(rt: HostRuntime) {
    for line in &VERSIONS {
        let is_so = tells_version(rt.alloc(), line);
        assert!(rt; is_so == Ok(true), "{line}");
    }
}

#[test]
fn help_tells_each_option(rt: HostRuntime) {
    for line in &HELPS {
        let is_so = tells_help(rt.alloc(), line);
        assert!(rt; is_so == Ok(true), "{line}");
    }
}
