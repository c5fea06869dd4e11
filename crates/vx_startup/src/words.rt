//! What words ask of the server.

ghost use Rattle.std.specs.Prelude.{◌≡◌, ◌≢◌, [], ◌∷◌, true, Err, IfOk, None, OnErr, OnOk, Some, codes, map, option_map, string_bytes};
ghost use Rattle.clap.specs.Words.{found_of, kind_of, rows_of};
ghost use Rattle.vx_policy.specs.Names.{names_with_all};
ghost use Rattle.vx_policy.specs.declared.names.NameRefused.TheVariants as NameRefused;
ghost use Rattle.vx_startup.specs.Meant.{ServerAnswers, IsServerInRange, IsSetBy, Sets, name_texts, names_given, refused, rules_file, rules_given, told, usual, verdict};
ghost use Rattle.vx_startup.specs.Parts.{IsGiven, Refuses, Serves};

use crate::command::vxgate;
use clap::error::ErrorKind;
use clap::{ArgMatches, Error};
use std::alloc::{AllocError, Global};
use vx_policy::{NameRefused, NameTable};

/// What the words set.
#[derive(Clone, Copy, PartialEq, Eq)]
pub struct Options {
    /// The port of the core channel, 1 to 65,535.
    pub core: u16,
    /// The port of the abort channel, 1 to 65,535.
    pub abort: u16,
    /// Milliseconds between two samples of the SRQ line, 1 to 60,000.
    pub sample: u32,
    /// How many core connections are served at a time, 1 to 64.
    pub workers: u32,
    /// After how many core connections the server ends, up to 1,000,000, or 0 for no end.
    pub limit: u32,
    /// Seconds for which a connection's host may answer nothing, up to 86,400, or 0 for without end.
    pub keepalive: u32,
    /// Seconds for which a connection's client may take nothing of a reply, up to 86,400, or 0 for without end.
    pub send_timeout: u32,
    /// Seconds for which a core connection of which no call is served may send no byte, between records or within one, up to
    /// 86,400, or 0 for without end.
    pub idle: u32,
    /// Seconds for which an abort connection may send no byte where another waits to be served, up to 86,400, or 0 for without
    /// end.
    pub abort_idle: u32,
    /// Milliseconds for which a box behind which the bus is may take for one call, 1 to 1,000.
    pub patience: u32,
    /// Whether each connection that comes, ends or is refused is told.
    pub log: bool,
    /// Whether the ports are told by a port mapper too.
    pub map: bool,
}

/// What words ask for.
#[derive(Drop)]
pub enum Asked {
    /// To serve with these options; with these names for devices, one for each `--name`, in order; and with the file of its access
    /// rules, where `--rules` names one.
    Serve(Options, NameTable, Option<String>),
    /// To print this text of `--help` or `--version` on standard output.
    Tell(String),
    /// Nothing: `clap` refuses them, or the text of a `--name` gives no name that may be added to those before it.
    Usage,
    /// Memory ran out while they were read.
    NoMemory,
}

/// The numbers that words give, and which flags they have.
fn options_of(matches: &ArgMatches<'_>) -> Options
    requires { IsGiven (found_of matches.now) }
    ensures sets { Sets (rows_of (found_of matches.now)) result }
    ensures range { IsServerInRange result }
{
    Options {
        core: matches.get_one::<u16>("core").unwrap(),
        abort: matches.get_one::<u16>("abort").unwrap(),
        sample: matches.get_one::<u32>("sample").unwrap(),
        workers: matches.get_one::<u32>("workers").unwrap(),
        limit: matches.get_one::<u32>("limit").unwrap(),
        keepalive: matches.get_one::<u32>("keepalive").unwrap(),
        send_timeout: matches.get_one::<u32>("send-timeout").unwrap(),
        idle: matches.get_one::<u32>("idle").unwrap(),
        abort_idle: matches.get_one::<u32>("abort-idle").unwrap(),
        patience: matches.get_one::<u32>("patience").unwrap(),
        log: matches.get_flag("log"),
        map: matches.get_flag("map"),
    }
}

/// Adds the names that texts give, in order.
fn add_texts(names: &mut NameTable, texts: &[&str]) -> Result<(), NameRefused>
    ensures added { OnOk result (names_with_all names.old (map (λ t. t.now) texts.now) ≡ Some names.new) }
    ensures other { OnErr result ((result ≢ Err NameRefused.NoMemory)
        → names_with_all names.old (map (λ t. t.now) texts.now) ≡ None) }
{
    for text in texts {
        names.add_text(text.as_bytes())?;
    }
    Ok(())
}

/// The names that words give, or why one of them isn't added to those before it.
fn names_of(alloc: Global, matches: &ArgMatches<'_>) -> Result<NameTable, NameRefused>
    ensures given { IfOk result (λ names. names_with_all [] (name_texts (rows_of (found_of matches.now))) ≡ Some names) }
    ensures other { OnErr result ((result ≢ Err NameRefused.NoMemory)
        → names_with_all [] (name_texts (rows_of (found_of matches.now))) ≡ None) }
{
    let Ok(mut names) = NameTable::new(alloc) else {
        return Err(NameRefused::NoMemory);
    };
    if let Some(texts) = matches.get_strs("name") {
        add_texts(&mut names, texts)?;
    }
    Ok(names)
}

/// The file of access rules that words name, where they name one.
fn file_of(alloc: Global, matches: &ArgMatches<'_>) -> Result<Option<String>, AllocError>
    ensures { IfOk result (λ file. rules_file (rows_of (found_of matches.now)) ≡ option_map string_bytes file) }
{
    match matches.get_str("rules") {
        Some(file) => Ok(Some(String::from_str(alloc, file)?)),
        None => Ok(None),
    }
}

/// What is asked for where `clap` gives matches.
fn served(alloc: Global, matches: &ArgMatches<'_>) -> Asked
    requires { IsGiven (found_of matches.now) }
    ensures { Serves (rows_of (found_of matches.now)) result }
{
    let names = match names_of(alloc, matches) {
        Ok(names) => names,
        Err(NameRefused::NoMemory) => return Asked::NoMemory,
        Err(_) => return Asked::Usage,
    };
    match file_of(alloc, matches) {
        Ok(file) => Asked::Serve(options_of(matches), names, file),
        Err(_) => Asked::NoMemory,
    }
}

/// What is asked for where `clap` gives no matches.
fn refused(alloc: Global, error: &Error) -> Asked
    ensures { Refuses (kind_of error.now) result }
{
    match error.kind() {
        ErrorKind::OutOfMemory => Asked::NoMemory,
        ErrorKind::DisplayHelp | ErrorKind::DisplayVersion => match error.to_string(alloc) {
            Ok(text) => Asked::Tell(text),
            Err(_) => Asked::NoMemory,
        },
        _ => Asked::Usage,
    }
}

/// Reads the words behind the program's name.
pub fn read_words(alloc: Global, words: &[String]) -> Asked
    ensures answer { ServerAnswers (map string_bytes words.now) result }
{
    let Ok(command) = vxgate(alloc) else {
        return Asked::NoMemory;
    };
    match command.try_get_matches_from(words) {
        Ok(matches) => served(alloc, &matches),
        Err(error) => refused(alloc, &error),
    }
}

/// A law: what some words mean. Each clause is worked out from what `clap` says of its commands.
pub fn words_law()
    ensures none { IsSetBy [] usual }
    ensures some { IsSetBy (codes "--workers" ∷ codes "64" ∷ codes "--core=1" ∷ []) (record usual { workers = 64; core = 1 }) }
    ensures times { IsSetBy (codes "--abort-idle=86400" ∷ codes "--keepalive" ∷ codes "0" ∷ codes "--send-timeout=1" ∷ codes "--idle" ∷ codes "600" ∷ [])
        (record usual { keepalive = 0; send_timeout = 1; idle = 600; abort_idle = 86400 }) }
    ensures log { IsSetBy (codes "--log" ∷ []) (record usual { log = true }) }
    ensures map { IsSetBy (codes "--map" ∷ codes "--patience=1000" ∷ []) (record usual { patience = 1000; map = true }) }
    ensures names { names_given (codes "--name" ∷ codes "inst0=gpib0,5" ∷ codes "--name=x=y=z" ∷ [])
        ≡ Some ((codes "inst0", codes "gpib0,5") ∷ (codes "x", codes "y=z") ∷ []) }
    ensures nameless { names_given (codes "--name=inst0" ∷ []) ≡ None }
    ensures ruled { rules_given (codes "--rules" ∷ codes "lab.rules" ∷ []) ≡ Some (codes "lab.rules") }
    ensures unruled { rules_given [] ≡ None }
    ensures impatient { verdict (codes "--patience=0" ∷ []) ≡ refused }
    ensures above { verdict (codes "--workers" ∷ codes "65" ∷ []) ≡ refused }
    ensures below { verdict (codes "--sample=0" ∷ []) ≡ refused }
    ensures late { verdict (codes "--idle=86401" ∷ []) ≡ refused }
    ensures valued { verdict (codes "--log=true" ∷ []) ≡ refused }
    ensures twice { verdict (codes "--limit" ∷ codes "1" ∷ codes "--limit" ∷ codes "1" ∷ []) ≡ refused }
    ensures stray { verdict (codes "serve" ∷ []) ≡ refused }
    ensures help { verdict (codes "--help" ∷ []) ≡ told }
    ensures version { verdict (codes "--version" ∷ []) ≡ told }
{}
