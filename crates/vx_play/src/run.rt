//! A whole play: the words, the source read to its end, its lines one after the other, and the last line; or a whole run that a
//! number makes.
ghost use Rattle.std.specs.Prelude.{◌≡◌, ◌+◌, ◌≤◌, List, length, map, string_bytes, Some};
ghost use Rattle.vx_script.specs.declared.Version.{Version};
ghost use Rattle.vx_script.specs.declared.Version.TheVariants as version;
ghost use Rattle.vx_script.specs.declared.Version.TheVariants.{Two};
ghost use Rattle.vx_script.specs.Command.{step_shown};
ghost use Rattle.vx_setup.specs.Script.{commands, script, script_from, version_of_lines};
ghost use Rattle.vx_text.specs.Ends.{source_shown, sink_shown};
ghost use Rattle.vx_text.specs.TextLines.{lines};
ghost use Rattle.vx_run.specs.RunText.{head_text};
ghost use Rattle.vx_player.specs.Stage.{Stage, beginning};
ghost use Rattle.vx_setup.specs.Rack.{SpareShown};
ghost use Rattle.vx_sim.specs.Occupants.{handed_in};
ghost use Rattle.vx_setup.specs.Spares.{spare_shown};
ghost use Rattle.vx_text.specs.Reading.{GivesUpTo};
ghost use Rattle.vx_text.specs.Writing.{IsPut};
ghost use Rattle.vx_player.specs.Standing.{IsPlayerReady, PlayerStands, HasLineRoom};
ghost use Rattle.vx_player.specs.Printing.{made_text, HasMadeRanges};
ghost use Rattle.vx_play.specs.StepPlayed.{EndsStep};
ghost use Rattle.vx_play.specs.LinePlayed.{PlayEndsLine};
ghost use Rattle.vx_play.specs.Ended.{EndsLines, EndsScript, PutsLast};
ghost use Rattle.vx_play.specs.RunEnded.{PlayEndsRun};
ghost use Rattle.vx_play.specs.StepsEnded.{EndsSteps};
ghost use Rattle.vx_run.specs.Item.{last_line};
ghost use Rattle.vx_play.specs.Outcome.{PlayEndsSo, EndsLifted, IsOutcome, order_of, play_status_number};
ghost use Rattle.vx_play.specs.Laws.{Completes, CompletesLift, CompletesRun};
ghost use Rattle.vx_play.specs.declared.run.TheConstants.{FAULT_ROOM};
ghost use Rattle.vx_script.specs.declared.Cause.TheVariants as cause;
ghost use Rattle.vx_script.specs.Plain.{IsPlainStep};

use std::alloc::Global;
use vx_gen::{Ask, Counts, RECORD_ROOM, SUMMARY_ROOM, TITLE_ROOM, ask_of, summary, title};
use vx_inst::Instrument;
use vx_io_traits::{Sink, Source};
use vx_lift::{LiftEnd, lift_script};
use vx_player::{
    Player, Printer, StepMade, begun_line, intake_line, moves_line, note_line, take_all,
};
use vx_rack::Spare;
use vx_script::{Cause, LINE_MAX, LINE2_MAX, Step, Version, read_step, read_step2, version_of};
use vx_setup::Refusal;
use vx_text::{Input, SinkFailed, first_line, put_all, read_all, zeros};
use vx_trace::{Line, put_line};

/// The longest script, in bytes.
pub const SCRIPT_MAX: usize = 67_108_864;

/// Room for the line of a fault, in bytes: `fault line`, a line's number of 20 digits, a cause of 6 letters, two spaces and LF.
const FAULT_ROOM: usize = 39;

/// How a play ended, as the program's exit status tells it.
#[derive(Clone, Copy, PartialEq, Eq)]
pub enum PlayStatus {
    /// 0: the script was played to its end.
    Done,
    /// 1: the words aren't a command.
    Usage,
    /// 2: the source failed.
    SourceFailed,
    /// 3: a line is outside the grammar, or its step is refused.
    Fault,
    /// 4: the sink failed.
    SinkFailed,
    /// 5: memory ran out.
    NoMemory,
    /// 6: the script is too long.
    TooLong,
}

impl PlayStatus {
    /// The exit status.
    fn number(self) -> u8
        ensures { result ≡ play_status_number self }
    {
        match self {
            PlayStatus::Done => 0,
            PlayStatus::Usage => 1,
            PlayStatus::SourceFailed => 2,
            PlayStatus::Fault => 3,
            PlayStatus::SinkFailed => 4,
            PlayStatus::NoMemory => 5,
            PlayStatus::TooLong => 6,
        }
    }
}

/// How the lines of a script ended.
#[derive(Clone, Copy)]
pub enum Ending {
    Whole,
    Fault { line: u64, cause: Cause },
    SinkFailed,
    NoMemory,
}

/// How a line ended.
#[derive(Clone, Copy)]
pub enum LineEnd {
    Played,
    Refused(Cause),
    SinkFailed,
    NoMemory,
}

/// Writes the lines of a step that was taken.
fn put_made<I: Instrument, K: Sink>(
    player: &Player<I>,
    made: StepMade,
    version: Version,
    printer: &mut Printer,
    sink: &mut K,
) -> Result<(), SinkFailed>
    requires { HasLineRoom player.now made }
    ensures put { IsPut
        (sink_shown K.Sink sink.old) (sink_shown K.Sink sink.new) (made_text version player.now made) result }
    ensures printable { version ≡ Two → HasMadeRanges player.now made }
    ensures counted { K.faults sink.old ≤ K.faults sink.new }
{
    let moves = moves_line(made.polled, player.moves());
    let note = note_line(made.note, player.room());
    match version {
        Version::One => put_all(sink, printer.lines(None, &None, &None, &moves, &note)),
        Version::Two => {
            let intake = intake_line(made.intake, player.message());
            let begun = begun_line(made.polled, player.began());
            let moment = Some(player.moment());
            put_all(sink, printer.lines(moment, &intake, &begun, &moves, &note))
        }
    }
}

/// Takes a step, and writes its text.
fn play_step<I: Instrument, K: Sink>(
    alloc: Global,
    step: &Step<'_>,
    version: Version,
    player: &mut Player<I>,
    printer: &mut Printer,
    sink: &mut K,
) -> LineEnd
    requires plain { IsPlainStep step.now }
    requires ready { IsPlayerReady player.old }
    ensures ended { (stage : Stage) → PlayerStands player.old stage → EndsStep version (step_shown step.now) stage player.new
        (sink_shown K.Sink sink.old) (sink_shown K.Sink sink.new) result }
    ensures counted { K.faults sink.old ≤ K.faults sink.new }
{
    match player.step(alloc, step) {
        Ok(made) => match put_made(player, made, version, printer, sink) {
            Ok(()) => LineEnd::Played,
            Err(_) => LineEnd::SinkFailed,
        },
        Err(Refusal::Refused(cause)) => LineEnd::Refused(cause),
        Err(Refusal::NoMemory) => LineEnd::NoMemory,
    }
}

/// Plays a line of a script of version 1: its step is taken, and its text written. `room` is for the bytes of an `in`.
fn play_plain<I: Instrument, K: Sink>(
    alloc: Global,
    line: &[u8],
    player: &mut Player<I>,
    printer: &mut Printer,
    room: &mut [u8],
    sink: &mut K,
) -> LineEnd
    requires room { LINE_MAX ≤ length room.old }
    requires ready { IsPlayerReady player.old }
    ensures ended { (stage : Stage) → PlayerStands player.old stage → PlayEndsLine version.One (commands version.One line.now) stage player.new
        (sink_shown K.Sink sink.old) (sink_shown K.Sink sink.new) result }
    ensures counted { K.faults sink.old ≤ K.faults sink.new }
{
    if line.len() > LINE_MAX {
        return LineEnd::Refused(Cause::Form);
    }
    match read_step(line, &mut room[..line.len()]) {
        Ok(Some(step)) => play_step(alloc, &step, Version::One, player, printer, sink),
        Ok(None) => LineEnd::Played,
        Err(cause) => LineEnd::Refused(cause),
    }
}

/// Plays a line of a script of version 2: its moment comes, its step is taken, and its text written. `room` is for the bytes of
/// an `in`.
fn play_timed<I: Instrument, K: Sink>(
    alloc: Global,
    line: &[u8],
    player: &mut Player<I>,
    printer: &mut Printer,
    room: &mut [u8],
    sink: &mut K,
) -> LineEnd
    requires room { LINE2_MAX ≤ length room.old }
    requires ready { IsPlayerReady player.old }
    ensures ended { (stage : Stage) → PlayerStands player.old stage → PlayEndsLine version.Two (commands version.Two line.now) stage player.new
        (sink_shown K.Sink sink.old) (sink_shown K.Sink sink.new) result }
    ensures counted { K.faults sink.old ≤ K.faults sink.new }
{
    if line.len() > LINE2_MAX {
        return LineEnd::Refused(Cause::Form);
    }
    match read_step2(line, &mut room[..line.len()]) {
        Ok(Some((moment, step))) => {
            player.at(moment);
            play_step(alloc, &step, Version::Two, player, printer, sink)
        }
        Ok(None) => LineEnd::Played,
        Err(cause) => LineEnd::Refused(cause),
    }
}

/// Plays a line of a script of this version.
fn play_line<I: Instrument, K: Sink>(
    alloc: Global,
    line: &[u8],
    version: Version,
    player: &mut Player<I>,
    printer: &mut Printer,
    room: &mut [u8],
    sink: &mut K,
) -> LineEnd
    requires room { LINE2_MAX ≤ length room.old }
    requires ready { IsPlayerReady player.old }
    ensures ended { (stage : Stage) → PlayerStands player.old stage → PlayEndsLine version (commands version line.now) stage player.new
        (sink_shown K.Sink sink.old) (sink_shown K.Sink sink.new) result }
    ensures counted { K.faults sink.old ≤ K.faults sink.new }
{
    match version {
        Version::One => play_plain(alloc, line, player, printer, room, sink),
        Version::Two => play_timed(alloc, line, player, printer, room, sink),
    }
}

/// The version of a script, by its first line.
fn version_in(script: &[u8]) -> Version
    ensures { result ≡ version_of_lines (lines script.now) }
{
    if script.is_empty() {
        return Version::One;
    }
    version_of(first_line(script).0)
}

/// The lines of a script of this version that have steps, and how many stand in front of them.
fn stepped(text: &[u8], version: Version) -> (&[u8], u64)
    requires { version ≡ version_of_lines (lines text.now) }
    ensures script { script text.now ≡ script_from version (result.1 + 1) (lines result.0.now) }
    ensures within { result.1 + length result.0.now ≤ length text.now }
{
    match version {
        Version::One => (text, 0),
        Version::Two => (first_line(text).1, 1),
    }
}

/// Writes the line that a text of this version begins with.
fn put_head<K: Sink>(
    version: Version,
    printer: &mut Printer,
    sink: &mut K,
) -> Result<(), SinkFailed>
    ensures put { IsPut
        (sink_shown K.Sink sink.old) (sink_shown K.Sink sink.new) (head_text version) result }
    ensures counted { K.faults sink.old ≤ K.faults sink.new }
{
    match version {
        Version::One => put_all(sink, &[]),
        Version::Two => put_all(sink, printer.line(&Line::TraceHead)),
    }
}

/// Plays the lines of a script up to the first that isn't taken.
fn play_lines<I: Instrument, K: Sink>(
    alloc: Global,
    script: &[u8],
    player: &mut Player<I>,
    printer: &mut Printer,
    room: &mut [u8],
    sink: &mut K,
) -> Ending
    requires room { LINE2_MAX ≤ length room.old }
    requires begins { PlayerStands player.old (beginning player.old.rack) }
    ensures ended { EndsLines script.now player.old.rack
        (sink_shown K.Sink sink.old) (sink_shown K.Sink sink.new) result }
    ensures counted { K.faults sink.old ≤ K.faults sink.new }
{
    let version = version_in(script);
    let Ok(()) = put_head(version, printer, sink) else {
        return Ending::SinkFailed;
    };
    let (mut rest, mut line) = stepped(script, version);
    while !rest.is_empty() {
        let (first, behind) = first_line(rest);
        line += 1;
        match play_line(alloc, first, version, player, printer, room, sink) {
            LineEnd::Played => {}
            LineEnd::Refused(cause) => return Ending::Fault { line, cause },
            LineEnd::SinkFailed => return Ending::SinkFailed,
            LineEnd::NoMemory => return Ending::NoMemory,
        }
        rest = behind;
    }
    Ending::Whole
}

/// Writes the last line of a play that ends so.
fn put_last<K: Sink>(sink: &mut K, line: &[u8], how: PlayStatus) -> PlayStatus
    ensures put { PutsLast how line.now
        (sink_shown K.Sink sink.old) (sink_shown K.Sink sink.new) result }
    ensures counted { K.faults sink.old ≤ K.faults sink.new }
{
    match put_all(sink, line) {
        Ok(()) => how,
        Err(_) => PlayStatus::SinkFailed,
    }
}

/// Plays a script with a player that begins, and writes its last line. `room` is for the bytes of an `in`.
fn play_over<I: Instrument, K: Sink>(
    alloc: Global,
    script: &[u8],
    player: &mut Player<I>,
    printer: &mut Printer,
    room: &mut [u8],
    sink: &mut K,
) -> PlayStatus
    requires room { LINE2_MAX ≤ length room.old }
    requires begins { PlayerStands player.old (beginning player.old.rack) }
    ensures ended { (rack : List SpareShown) → player.old.rack ≡ rack → EndsScript script.now rack
        (sink_shown K.Sink sink.old) (sink_shown K.Sink sink.new) result }
{
    match play_lines(alloc, script, player, printer, room, sink) {
        Ending::Whole => put_last(sink, printer.line(&Line::Done), PlayStatus::Done),
        Ending::Fault { line, cause } => {
            let word = cause.word();
            put_last(
                sink,
                printer.line(&Line::FaultLine { line, word }),
                PlayStatus::Fault,
            )
        }
        Ending::SinkFailed => PlayStatus::SinkFailed,
        Ending::NoMemory => PlayStatus::NoMemory,
    }
}

/// Plays a script with a player that begins, in room that is made for it, and writes its last line.
fn play_in_room<I: Instrument, K: Sink>(
    alloc: Global,
    script: &[u8],
    player: &mut Player<I>,
    sink: &mut K,
) -> PlayStatus
    requires begins { PlayerStands player.old (beginning player.old.rack) }
    ensures ended { (rack : List SpareShown) → player.old.rack ≡ rack → EndsScript script.now rack
        (sink_shown K.Sink sink.old) (sink_shown K.Sink sink.new) result }
{
    let Ok(mut printer) = Printer::new(alloc) else {
        return PlayStatus::NoMemory;
    };
    let Ok(mut room) = zeros(alloc, LINE2_MAX) else {
        return PlayStatus::NoMemory;
    };
    play_over(alloc, script, player, &mut printer, &mut room, sink)
}

/// Plays a script with these spare instruments, and writes its last line.
fn play_script<I: Instrument, K: Sink>(
    alloc: Global,
    script: &[u8],
    sink: &mut K,
    rack: Vec<Spare<I>>,
) -> PlayStatus
    ensures ended { EndsScript script.now (map (spare_shown (handed_in (λ i. I.behaves i) (λ i. I.nature i))) rack.items)
        (sink_shown K.Sink sink.old) (sink_shown K.Sink sink.new) result }
{
    match Player::new(alloc, rack) {
        Ok(mut player) => play_in_room(alloc, script, &mut player, sink),
        Err(_) => PlayStatus::NoMemory,
    }
}

/// Writes the last line of a run of which the step of this number isn't taken.
fn put_stop<K: Sink>(sink: &mut K, printer: &mut Printer, number: u64, stop: Refusal) -> PlayStatus
    ensures refused { (cause : Cause) → stop ≡ Refusal.Refused cause → PutsLast PlayStatus.Fault (last_line (Some (record { line = number; cause = cause })))
        (sink_shown K.Sink sink.old) (sink_shown K.Sink sink.new) result }
    ensures memory { stop ≡ Refusal.NoMemory → (result ≡ PlayStatus.NoMemory) × (sink.new ≡ sink.old) }
{
    match stop {
        Refusal::Refused(cause) => {
            let line = Line::FaultLine {
                line: number,
                word: cause.word(),
            };
            put_last(sink, printer.line(&line), PlayStatus::Fault)
        }
        Refusal::NoMemory => PlayStatus::NoMemory,
    }
}

/// Takes the steps of a run that a number makes, with a player that begins, and writes its lines behind the first.
fn make_over<I: Instrument, K: Sink>(
    alloc: Global,
    ask: Ask,
    player: &mut Player<I>,
    printer: &mut Printer,
    sink: &mut K,
) -> PlayStatus
    requires begins { PlayerStands player.old (beginning player.old.rack) }
    requires steps { ask.steps ≤ 1000000 }
    ensures ended { (rack : List SpareShown) → player.old.rack ≡ rack → EndsSteps ask rack
        (sink_shown K.Sink sink.old) (sink_shown K.Sink sink.new) result }
{
    let mut counts = Counts::default();
    match take_all(alloc, ask, player, &mut [0; RECORD_ROOM], &mut counts) {
        Ok(()) => put_last(
            sink,
            summary(&counts, &mut [0; SUMMARY_ROOM]),
            PlayStatus::Done,
        ),
        Err(halt) => put_stop(sink, printer, halt.number, halt.stop),
    }
}

/// Takes the steps of a run with a player that begins, and writes its lines behind the first, by a printer that is made for it.
fn make_with<I: Instrument, K: Sink>(
    alloc: Global,
    ask: Ask,
    player: &mut Player<I>,
    sink: &mut K,
) -> PlayStatus
    requires begins { PlayerStands player.old (beginning player.old.rack) }
    requires steps { ask.steps ≤ 1000000 }
    ensures ended { (rack : List SpareShown) → player.old.rack ≡ rack → EndsSteps ask rack
        (sink_shown K.Sink sink.old) (sink_shown K.Sink sink.new) result }
{
    match Printer::new(alloc) {
        Ok(mut printer) => make_over(alloc, ask, player, &mut printer, sink),
        Err(_) => PlayStatus::NoMemory,
    }
}

/// Takes the steps of a run with these spare instruments, and writes its lines behind the first.
fn make_steps<I: Instrument, K: Sink>(
    alloc: Global,
    ask: Ask,
    sink: &mut K,
    rack: Vec<Spare<I>>,
) -> PlayStatus
    requires steps { ask.steps ≤ 1000000 }
    ensures ended { EndsSteps ask (map (spare_shown (handed_in (λ i. I.behaves i) (λ i. I.nature i))) rack.items)
        (sink_shown K.Sink sink.old) (sink_shown K.Sink sink.new) result }
{
    match Player::new(alloc, rack) {
        Ok(mut player) => make_with(alloc, ask, &mut player, sink),
        Err(_) => PlayStatus::NoMemory,
    }
}

/// Makes the run that words ask for, with these spare instruments.
fn make_run<I: Instrument, K: Sink>(
    alloc: Global,
    ask: Ask,
    sink: &mut K,
    rack: Vec<Spare<I>>,
) -> PlayStatus
    requires steps { ask.steps ≤ 1000000 }
    ensures ended { PlayEndsRun ask (map (spare_shown (handed_in (λ i. I.behaves i) (λ i. I.nature i))) rack.items)
        (sink_shown K.Sink sink.old) (sink_shown K.Sink sink.new) result }
{
    match put_all(sink, title(ask, &mut [0; TITLE_ROOM])) {
        Ok(()) => make_steps(alloc, ask, sink, rack),
        Err(_) => PlayStatus::SinkFailed,
    }
}

/// What words ask for that read the source.
#[derive(Clone, Copy)]
pub enum Order {
    /// A script is played.
    Play,
    /// A script of version 1 is lifted to one of version 2.
    Lift,
}

/// What the words ask for, where they ask for what reads the source.
fn order_of(words: &[String]) -> Option<Order>
    ensures { result ≡ order_of (map string_bytes words.now) }
{
    match words {
        [word] if word.as_bytes() == b"run".as_slice() => Some(Order::Play),
        [word] if word.as_bytes() == b"lift".as_slice() => Some(Order::Lift),
        _ => None,
    }
}

/// Lifts a script, and writes the line of its fault, where it has one.
fn lift<K: Sink>(alloc: Global, script: &[u8], sink: &mut K) -> PlayStatus
    ensures ended { EndsLifted script.now
        (sink_shown K.Sink sink.old) (sink_shown K.Sink sink.new) result }
{
    match lift_script(alloc, script, sink) {
        LiftEnd::Whole => PlayStatus::Done,
        LiftEnd::Fault { line } => {
            let mut room = [0; FAULT_ROOM];
            put_last(sink, form_line(line, &mut room), PlayStatus::Fault)
        }
        LiftEnd::SinkFailed => PlayStatus::SinkFailed,
        LiftEnd::NoMemory => PlayStatus::NoMemory,
    }
}

/// The line of a script's first line outside the grammar, at the front of the room.
fn form_line(line: u64, room: &mut [u8]) -> &[u8]
    requires room { FAULT_ROOM ≤ length room.old }
    ensures { result.now ≡ last_line (Some (record { line = line; cause = cause.Form })) }
{
    let fault = Line::FaultLine {
        line,
        word: Cause::Form.word(),
    };
    match put_line(&fault, room) {
        Ok(len) => &room[..len],
        Err(_) => unreachable!(),
    }
}

/// Plays or lifts the script that the source gives, or makes a run, as the words ask.
fn play<S: Source, K: Sink, I: Instrument>(
    alloc: Global,
    words: &[String],
    source: &mut S,
    sink: &mut K,
    rack: Vec<Spare<I>>,
) -> PlayStatus
    ensures outcome { IsOutcome (map string_bytes words.now) (map (spare_shown (handed_in (λ i. I.behaves i) (λ i. I.nature i))) rack.items) (record {
      source = source_shown S.Source source.old;
      source_after = source_shown S.Source source.new;
      sink = sink_shown K.Sink sink.old;
      sink_after = sink_shown K.Sink sink.new;
    }) result }
{
    match order_of(words) {
        Some(order) => match read_all(alloc, source, SCRIPT_MAX) {
            Input::Whole(script) => match order {
                Order::Play => play_script(alloc, &script, sink, rack),
                Order::Lift => lift(alloc, &script, sink),
            },
            Input::TooLong => put_last(sink, b"fault long\n", PlayStatus::TooLong),
            Input::Failed => PlayStatus::SourceFailed,
            Input::NoMemory => PlayStatus::NoMemory,
        },
        None => match ask_of(words) {
            Some(ask) => make_run(alloc, ask, sink, rack),
            None => put_last(sink, b"usage: vxplay COMMAND\n", PlayStatus::Usage),
        },
    }
}

/// All that the program `vxplay` does: its words, its input, its output, and the spare instruments that `plug` lines name;
/// what comes back is the exit status.
///
/// The words `gen SEED N`, with SEED 0 to 2147483647 and N 1 to 1,000,000 in decimal digits without a leading zero, make a run
/// from a number. Its first line is written before anything else, and its other lines when it has ended; the source isn't read.
/// It ends with 0, 3, 4 or 5: at 3 the first line and a `fault line` with the number of the step that was refused were written,
/// and at 5 nothing behind the first line.
///
/// The word `run` alone plays a script. It reads the source to its end, plays its lines one after the other, writes what
/// each line makes before it takes the next, and ends with a last line:
///
/// - 0, `done`: every line was played.
/// - 1, `usage: vxplay COMMAND`: the words aren't a command; the source isn't read.
/// - 2, nothing written: the source failed.
/// - 3, `fault line N CAUSE`: line N, counted from 1, is outside the grammar or its step is refused. What stands in front of
///   it was played, and nothing is written of the line itself but its fault.
/// - 4: the sink failed; a front of what was due was written.
/// - 5: memory ran out; what the steps in front made was written, or nothing.
/// - 6, `fault long`: the source has more than 67,108,864 bytes.
///
/// A script whose first line is `vxscript 2` has version 2, and what is written of it too: `vxtrace 2` first, and then each line
/// with the moment of its step in front. Any other script has version 1.
///
/// The word `lift` alone reads a script of version 1 and writes it as one of version 2, each step behind the greatest moment so far,
/// and ends as a play does, but for the last lines: at 0 nothing stands behind the lifted script; at 3, where a line is outside the
/// grammar of version 1, what stands in front of it was lifted, and `fault line N form` was written; at 5 nothing was written.
pub fn play_run<S: Source, K: Sink, I: Instrument>(
    alloc: Global,
    words: &[String],
    source: &mut S,
    sink: &mut K,
    rack: Vec<Spare<I>>,
) -> u8
    ensures outcome { PlayEndsSo (map string_bytes words.now) (map (spare_shown (handed_in (λ i. I.behaves i) (λ i. I.nature i))) rack.items) (record {
      source = source_shown S.Source source.old;
      source_after = source_shown S.Source source.new;
      sink = sink_shown K.Sink sink.old;
      sink_after = sink_shown K.Sink sink.new;
    }) result }

    // Whatever comes of it, no more than 67,108,865 bytes are read.
    ensures read { GivesUpTo (SCRIPT_MAX + 1)
        (source_shown S.Source source.old) (source_shown S.Source source.new) }

    // A script that the source tells is played whole, or memory is wanting, where neither the source nor the sink fails.
    ensures complete { Completes (map string_bytes words.now) (map (spare_shown (handed_in (λ i. I.behaves i) (λ i. I.nature i))) rack.items) (record {
      source = source_shown S.Source source.old;
      source_after = source_shown S.Source source.new;
      sink = sink_shown K.Sink sink.old;
      sink_after = sink_shown K.Sink sink.new;
    }) result }

    // A script that the source tells is lifted whole, or up to its first line outside the grammar, or memory is wanting, where neither
    // the source nor the sink fails.
    ensures lifts { CompletesLift (map string_bytes words.now) (record {
      source = source_shown S.Source source.old;
      source_after = source_shown S.Source source.new;
      sink = sink_shown K.Sink sink.old;
      sink_after = sink_shown K.Sink sink.new;
    }) result }

    // A run is made whole or up to a step that is refused, or memory is wanting, where the sink doesn't fail.
    ensures made { CompletesRun (map string_bytes words.now) (map (spare_shown (handed_in (λ i. I.behaves i) (λ i. I.nature i))) rack.items) (record {
      source = source_shown S.Source source.old;
      source_after = source_shown S.Source source.new;
      sink = sink_shown K.Sink sink.old;
      sink_after = sink_shown K.Sink sink.new;
    }) result }
{
    play(alloc, words, source, sink, rack).number()
}
