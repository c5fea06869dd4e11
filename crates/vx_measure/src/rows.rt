//! The rows of the player and of the checker: the scripts of the folder that the program runs in are played, the traces there are judged,
//! and it is told of which of them is printed otherwise than is written down.
//!
//! A file `NAME.vxs` is a script, and a file `NAME.lift` one that is lifted to version 2; a file `NAME.each` holds a script of one
//! line in each of its lines; a file `NAME.args` has the words of a call without a script, one a line. Beside it the file `NAME.out`
//! has what each of them must print, and behind that a last line `status N`, with the exit status. For `plug` lines there are two
//! spare instruments of each model that takes bytes: `echo`, `slow` and `asker`.
//!
//! Where it is written down that a script is played to its end, its trace is judged too, and must be legal. A script of version 1 is
//! lifted to version 2 for it.
//!
//! A file `NAME.trace` is a trace, which is judged twice: read whole, and read in pieces of a few bytes. Beside it the file
//! `NAME.verdict` has what the check of it must print, and behind that such a last line.
ghost use Rattle.std.specs.Prelude.{◌<◌};

use crate::status::Status;
use arrayvec::ArrayString;
use std::alloc::{AllocError, AllocFailed, Global};
use std::fs::{self, read_dir};
use std::io;
use std::rt::Files;
use vx_check::check_run;
use vx_inst::Instrument;
use vx_memory::{MemSink, MemSource};
use vx_play::play_run;
use vx_rack::{Asker, Echo, NoMemory, Slow, Spare};

/// How many spare instruments there are of each model.
const SPARES: usize = 2;

/// How many bytes of a trace are read at once: as many as there are, and few.
const READ_WHOLE: usize = 65_536;

const READ_FEW: usize = 7;

/// The same of a script.
const READ_SCRIPT: usize = 100;

/// The last lines that are written down of a script that is played to its end.
const PLAYED: &[u8] = b"done\nstatus 0\n";

/// What is written down of a legal trace.
const LEGAL: &[u8] = b"legal\nstatus 0\n";

/// An instrument of any model.
type Boxed = Box<dyn Instrument + Send>;

/// There was no memory.
#[derive(Drop)]
struct Unmade;

impl From<AllocError> for Unmade {
    fn from(_: AllocError) -> Unmade {
        Unmade
    }
}

impl<T: Drop> From<AllocFailed<T>> for Unmade {
    fn from(_: AllocFailed<T>) -> Unmade {
        Unmade
    }
}

impl From<NoMemory> for Unmade {
    fn from(_: NoMemory) -> Unmade {
        Unmade
    }
}

/// Adds a spare instrument under a name of at most 16 bytes.
fn add(rack: &mut Vec<Spare<Boxed>>, name: &str, inst: Boxed) -> Result<(), AllocError> {
    let mut text = ArrayString::new();
    if text.try_push_str(name).is_ok() {
        rack.push(Spare { name: text, inst })?;
    }
    Ok(())
}

/// A source of these bytes, of which it gives at most so many at once.
fn source_of(alloc: Global, bytes: &[u8], read: usize) -> Result<MemSource, AllocError>
    requires { 0 < read }
{
    Ok(MemSource::new(bytes.to_vec(alloc)?, read, Vec::new(alloc)))
}

/// Plays a script with these words, and answers its status. What it prints goes to the sink.
fn play(
    alloc: Global,
    words: &[String],
    script: &mut MemSource,
    sink: &mut MemSink,
) -> Result<u8, Unmade> {
    let mut rack = Vec::new(alloc);
    for _ in 0..SPARES {
        add(&mut rack, "echo", Box::new(alloc, Echo::new(alloc)?)?)?;
        add(&mut rack, "slow", Box::new(alloc, Slow::new(alloc)?)?)?;
        add(&mut rack, "asker", Box::new(alloc, Asker::new(alloc)?)?)?;
    }
    Ok(play_run(alloc, words, script, sink, rack))
}

/// Whether a text and a line with the status behind it are what is written down.
fn is_written(alloc: Global, text: &[u8], status: u8, written: &[u8]) -> Result<bool, AllocError> {
    let last = format!(in alloc; "status {status}\n")?;
    Ok(written.strip_suffix(last.as_bytes()) == Some(text))
}

/// The words of which each stands in a line.
fn words_of(alloc: Global, lines: &str) -> Result<Vec<String>, AllocError> {
    let mut words = Vec::new(alloc);
    for line in lines.lines() {
        words.push(String::from_str(alloc, line)?)?;
    }
    Ok(words)
}

/// Plays a script with words that stand in lines, and answers its status. What it prints goes to the sink.
fn play_lines(
    alloc: Global,
    words: &str,
    script: &[u8],
    sink: &mut MemSink,
) -> Result<u8, AllocError> {
    let words = words_of(alloc, words)?;
    let mut source = source_of(alloc, script, READ_SCRIPT)?;
    match play(alloc, &words, &mut source, sink) {
        Ok(status) => Ok(status),
        Err(Unmade) => Err(AllocError),
    }
}

/// Whether a script prints otherwise than is written down, with words that stand in lines.
fn differs(alloc: Global, words: &str, script: &[u8], written: &[u8]) -> Result<bool, AllocError> {
    let mut sink = MemSink::new(Vec::new(alloc), Vec::new(alloc));
    let status = play_lines(alloc, words, script, &mut sink)?;
    Ok(!is_written(alloc, sink.bytes(), status, written)?)
}

/// Whether a trace is judged otherwise than is written down, where at most so many bytes are read at once.
fn is_other(alloc: Global, trace: &[u8], read: usize, written: &[u8]) -> Result<bool, AllocError>
    requires { 0 < read }
{
    let mut source = source_of(alloc, trace, read)?;
    let mut sink = MemSink::new(Vec::new(alloc), Vec::new(alloc));
    let status = check_run(alloc, &[], &mut source, &mut sink);
    Ok(!is_written(alloc, sink.bytes(), status, written)?)
}

/// Whether the trace of a script of version 2 isn't legal.
fn is_illegal_lifted(alloc: Global, script: &[u8]) -> Result<bool, AllocError> {
    let mut trace = MemSink::new(Vec::new(alloc), Vec::new(alloc));
    play_lines(alloc, "run", script, &mut trace)?;
    is_other(alloc, trace.bytes(), READ_WHOLE, LEGAL)
}

/// Whether the trace of a script isn't legal. A script that can't be lifted to version 2 is played as it stands.
fn is_illegal(alloc: Global, script: &[u8]) -> Result<bool, AllocError> {
    let mut lifted = MemSink::new(Vec::new(alloc), Vec::new(alloc));
    let status = play_lines(alloc, "lift", script, &mut lifted)?;
    is_illegal_lifted(alloc, if status == 0 { lifted.bytes() } else { script })
}

/// How many scripts were played and traces judged, and how many of them print otherwise than is written down; and of how many scripts
/// the trace is legal.
#[derive(Clone, Copy, Default)]
struct Tally {
    rows: u64,
    differ: u64,
    legal: u64,
}

impl Tally {
    fn count(&mut self, differs: bool) {
        self.rows = self.rows.saturating_add(1);
        self.differ = self.differ.saturating_add(u64::from(differs));
    }

    fn judge(&mut self, illegal: bool) {
        self.legal = self.legal.saturating_add(u64::from(!illegal));
        self.differ = self.differ.saturating_add(u64::from(illegal));
    }
}

/// What a file holds.
#[derive(Clone, Copy)]
enum Kind {
    /// A script, and the word that says what is done with it.
    Script(&'static str),
    /// A script in each line.
    Each,
    /// The words of a call without a script.
    Words,
    Trace,
}

/// The name of a row, and what its file holds, by the ending of the file's name.
fn kind_of(file: &str) -> Option<(&str, Kind)> {
    if let Some(name) = file.strip_suffix(".vxs") {
        Some((name, Kind::Script("run")))
    } else if let Some(name) = file.strip_suffix(".lift") {
        Some((name, Kind::Script("lift")))
    } else if let Some(name) = file.strip_suffix(".each") {
        Some((name, Kind::Each))
    } else if let Some(name) = file.strip_suffix(".args") {
        Some((name, Kind::Words))
    } else if let Some(name) = file.strip_suffix(".trace") {
        Some((name, Kind::Trace))
    } else {
        None
    }
}

/// A row: its name, what its file holds, and what is written down of it.
#[derive(Clone, Copy)]
struct Row<'a> {
    name: &'a str,
    given: &'a [u8],
    written: &'a [u8],
}

/// Plays the one script of a row, or does with it what another word says. Where it is played to its end, its trace is judged too.
fn play_whole<R: Print + AllocGlobal>(
    rt: &R,
    row: Row<'_>,
    word: &str,
    tally: &mut Tally,
) -> io::Result<()> {
    let differs = differs(rt.alloc(), word, row.given, row.written)?;
    tally.count(differs);
    if differs {
        println!(rt; "differs {}", row.name)?;
    }
    if row.written.ends_with(PLAYED) {
        let illegal = is_illegal(rt.alloc(), row.given)?;
        tally.judge(illegal);
        if illegal {
            println!(rt; "illegal {}", row.name)?;
        }
    }
    Ok(())
}

/// Plays each line of a row.
fn play_each<R: Print + AllocGlobal>(rt: &R, row: Row<'_>, tally: &mut Tally) -> io::Result<()> {
    for (place, script) in row.given.split_inclusive(|b| *b == b'\n').enumerate() {
        let differs = differs(rt.alloc(), "run", script, row.written)?;
        tally.count(differs);
        if differs {
            println!(rt; "differs {} {place}", row.name)?;
        }
    }
    Ok(())
}

/// Makes the one call of a row of words.
fn play_words<R: Print + AllocGlobal>(rt: &R, row: Row<'_>, tally: &mut Tally) -> io::Result<()> {
    let Ok(words) = str::from_utf8(row.given) else {
        return Err(io::Error::from(io::ErrorKind::InvalidData));
    };
    let differs = differs(rt.alloc(), words, &[], row.written)?;
    tally.count(differs);
    if differs {
        println!(rt; "differs {}", row.name)?;
    }
    Ok(())
}

/// Judges the trace of a row.
fn judge<R: Print + AllocGlobal>(rt: &R, row: Row<'_>, tally: &mut Tally) -> io::Result<()> {
    let whole = is_other(rt.alloc(), row.given, READ_WHOLE, row.written)?;
    let pieces = is_other(rt.alloc(), row.given, READ_FEW, row.written)?;
    tally.count(whole);
    tally.count(pieces);
    if whole || pieces {
        println!(rt; "differs {}", row.name)?;
    }
    Ok(())
}

/// What is written down of a row.
fn written_of<R: Files + AllocGlobal>(rt: &R, name: &str, kind: Kind) -> io::Result<Vec<u8>> {
    let ending = match kind {
        Kind::Trace => "verdict",
        Kind::Script(_) | Kind::Each | Kind::Words => "out",
    };
    fs::read(rt, format!(in rt.alloc(); "{name}.{ending}")?)
}

/// Does what a file is there for.
fn take_file<R: Files + Print + AllocGlobal>(
    rt: &R,
    file: &str,
    tally: &mut Tally,
) -> io::Result<()> {
    let Some((name, kind)) = kind_of(file) else {
        return Ok(());
    };
    let given = fs::read(rt, file)?;
    let written = written_of(rt, name, kind)?;
    let row = Row {
        name,
        given: &given,
        written: &written,
    };
    match kind {
        Kind::Script(word) => play_whole(rt, row, word, tally),
        Kind::Each => play_each(rt, row, tally),
        Kind::Words => play_words(rt, row, tally),
        Kind::Trace => judge(rt, row, tally),
    }
}

/// The names of the files in the folder, in order.
fn files_of<R: Files + AllocGlobal + Clone + Drop>(rt: &R) -> io::Result<Vec<String>> {
    let mut files = Vec::new(rt.alloc());
    for entry in read_dir(rt, ".")? {
        files.push(String::from_str(rt.alloc(), entry?.file_name())?)?;
    }
    files.sort()?;
    Ok(files)
}

/// Takes all files of the folder, and prints how many rows there are, and how many of them differ.
fn take_all<R: Files + Print + AllocGlobal + Clone + Drop>(rt: &R) -> io::Result<()> {
    let mut tally = Tally::default();
    for file in &files_of(rt)? {
        take_file(rt, file, &mut tally)?;
    }
    let Tally {
        rows,
        differ,
        legal,
    } = tally;
    println!(rt; "{rows} rows, {legal} legal, {differ} differ")
}

/// Plays and judges all rows of the folder, and tells of them.
pub(crate) fn tell_rows<R: Files + Print + AllocGlobal + Clone + Drop>(rt: &R) -> Status {
    match take_all(rt) {
        Ok(()) => Status::Done,
        Err(_) => Status::NoRow,
    }
}
