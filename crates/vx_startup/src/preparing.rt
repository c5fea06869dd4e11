//! What a server does before it comes to its ports: it reads its words and its bench, and sets the bench up.
ghost use Rattle.std.specs.Prelude.{◌≡◌, List, IfErr, IfOk, Option, String, map, string_bytes};
ghost use Rattle.std.specs.declared.alloc.Global.{Global};
ghost use Rattle.vx_text.specs.Ends.{End, source_shown, sink_shown};
ghost use Rattle.vx_text.specs.Reading.{IsInput};
ghost use Rattle.vx_text.specs.declared.input.Input.TheVariants.{Whole};
ghost use Rattle.vx_sim.specs.Means.{first_means};
ghost use Rattle.vx_setup.specs.Rack.{SpareShown};
ghost use Rattle.vx_sim.specs.Occupants.{handed_in};
ghost use Rattle.vx_setup.specs.Spares.{spare_shown};
ghost use Rattle.vx_startup.specs.declared.words.Asked.TheVariants.{Serve};
ghost use Rattle.vx_startup.specs.declared.words.Options.{Options};
ghost use Rattle.vx_startup.specs.Meant.{ServerAnswers, IsServerInRange};
ghost use Rattle.vx_startup.specs.Outcome.{ServerEnds, EndsBenched, EndsOptioned};
ghost use Rattle.vx_startup.specs.Preparing.{Early, IsBench, IsQuiet, IsServerReady};

use crate::status::ServerStatus;
use crate::telling::{end_bench, put_last};
use crate::words::{Asked, Options, read_words};
use std::alloc::Global;
use vx_inst::Instrument;
use vx_io_traits::{Sink, Source};
use vx_policy::NameTable;
use vx_rack::Spare;
use vx_setup::set_up;
use vx_sim::SimBus;
use vx_text::{Input, read_all};

/// The longest bench, in bytes.
pub const BENCH_MAX: usize = 1_048_576;

/// The options and the names that words set, or how the server ends that they don't ask to serve.
fn options_of<K: Sink>(
    alloc: Global,
    words: &[String],
    sink: &mut K,
) -> Result<(Options, NameTable), ServerStatus>
    ensures set { IfOk result (λ r. (file : Option (String Global)) × ServerAnswers (map string_bytes words.now) (Serve r.0 r.1 file)) }
    ensures silent { IfOk result (λ r. IsQuiet (sink_shown K.Sink sink.old) (sink_shown K.Sink sink.new)) }
    ensures early { IfErr result (λ how. (rack : List SpareShown) (source : End) → Early (ServerEnds (map string_bytes words.now) rack source source)
        (sink_shown K.Sink sink.old) (sink_shown K.Sink sink.new) how) }
{
    match read_words(alloc, words) {
        Asked::Serve(options, names, _) => Ok((options, names)),
        Asked::Tell(text) => Err(put_last(sink, text.as_bytes(), ServerStatus::Told)),
        Asked::Usage => Err(put_last(sink, b"usage: vxgate OPTIONS\n", ServerStatus::Usage)),
        Asked::NoMemory => Err(ServerStatus::NoMemory),
    }
}

/// The text of the bench, or how the server ends that has none.
fn bench_of<S: Source, K: Sink>(
    alloc: Global,
    bench: &mut S,
    sink: &mut K,
) -> Result<Vec<u8>, ServerStatus>
    ensures read { IfOk result (λ text. IsInput BENCH_MAX
        (source_shown S.Source bench.old) (source_shown S.Source bench.new) (Whole text)) }
    ensures silent { IfOk result (λ text. IsQuiet (sink_shown K.Sink sink.old) (sink_shown K.Sink sink.new)) }
    ensures early { IfErr result (λ how. (o : Options) (rack : List SpareShown) → Early (EndsOptioned o rack
        (source_shown S.Source bench.old) (source_shown S.Source bench.new))
        (sink_shown K.Sink sink.old) (sink_shown K.Sink sink.new) how) }
{
    match read_all(alloc, bench, BENCH_MAX) {
        Input::Whole(text) => Ok(text),
        Input::TooLong => Err(put_last(sink, b"fault long\n", ServerStatus::BenchFault)),
        Input::Failed => Err(ServerStatus::SourceFailed),
        Input::NoMemory => Err(ServerStatus::NoMemory),
    }
}

/// The bus with the instruments of the bench, or how the server ends whose bench isn't set up. The spares that were taken
/// are gone from the rack.
fn bus_of<I: Instrument, K: Sink>(
    alloc: Global,
    text: &[u8],
    rack: &mut Vec<Spare<I>>,
    sink: &mut K,
) -> Result<SimBus<I>, ServerStatus>
    ensures fresh { IfOk result (λ bus. bus.means ≡ first_means) }
    ensures set { IfOk result (λ bus. IsBench text.now (map (spare_shown (handed_in (λ i. I.behaves i) (λ i. I.nature i))) rack.old.items)) }
    ensures silent { IfOk result (λ bus. IsQuiet (sink_shown K.Sink sink.old) (sink_shown K.Sink sink.new)) }
    ensures early { IfErr result (λ how. (o : Options) → Early (EndsBenched text.now (map (spare_shown (handed_in (λ i. I.behaves i) (λ i. I.nature i))) rack.old.items) o)
        (sink_shown K.Sink sink.old) (sink_shown K.Sink sink.new) how) }
{
    let Ok(mut bus) = SimBus::new(alloc) else {
        return Err(ServerStatus::NoMemory);
    };
    match set_up(alloc, text, &mut bus, rack) {
        Ok(()) => Ok(bus),
        Err(stop) => Err(end_bench(sink, stop)),
    }
}

/// Reads the words, and then the bench to its end, and sets it up: the options of a server, its names and its bus. Or how the
/// server ends that doesn't come to its ports; the lines that are due then were written.
pub fn prepare<S: Source, K: Sink, I: Instrument>(
    alloc: Global,
    words: &[String],
    bench: &mut S,
    rack: &mut Vec<Spare<I>>,
    sink: &mut K,
) -> Result<(Options, NameTable, SimBus<I>), ServerStatus>
    ensures range { IfOk result (λ r. IsServerInRange r.0) }
    ensures fresh { IfOk result (λ r. r.2.means ≡ first_means) }
    ensures ready { IfOk result (λ r. IsServerReady (map string_bytes words.now) (map (spare_shown (handed_in (λ i. I.behaves i) (λ i. I.nature i))) rack.old.items)
        (source_shown S.Source bench.old) (source_shown S.Source bench.new) r.0 r.1) }
    ensures silent { IfOk result (λ r. IsQuiet (sink_shown K.Sink sink.old) (sink_shown K.Sink sink.new)) }
    ensures early { IfErr result (λ how. Early (ServerEnds (map string_bytes words.now) (map (spare_shown (handed_in (λ i. I.behaves i) (λ i. I.nature i))) rack.old.items)
        (source_shown S.Source bench.old) (source_shown S.Source bench.new))
        (sink_shown K.Sink sink.old) (sink_shown K.Sink sink.new) how) }
{
    let (options, names) = options_of(alloc, words, sink)?;
    let text = bench_of(alloc, bench, sink)?;
    let bus = bus_of(alloc, &text, rack, sink)?;
    Ok((options, names, bus))
}
