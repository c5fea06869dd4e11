//! The rules of a guard, read from their source.
ghost use Rattle.std.specs.Prelude.{◌≡◌, IfOk, IfErr, OnOk};
ghost use Rattle.vx_text.specs.Ends.{source_shown, sink_shown};
ghost use Rattle.vx_guard.specs.Outcome.{GivesRules, IsUnruled, GuardPutsLine, IsGuardTold, guard_ends};

use crate::status::GuardStatus;
use std::alloc::Global;
use vx_io_traits::{Sink, Source};
use vx_policy::{LINE_ROOM, Policy, PolicyErr, TEXT_MAX, form_line};
use vx_text::{Input, put_all, read_all};

/// Writes a line of a run that ends so.
pub(crate) fn put_line<K: Sink>(sink: &mut K, line: &[u8], how: GuardStatus) -> GuardStatus
    ensures { GuardPutsLine how line.now
        (sink_shown K.Sink sink.old) (sink_shown K.Sink sink.new) result }
{
    match put_all(sink, line) {
        Ok(()) => how,
        Err(_) => GuardStatus::SinkFailed,
    }
}

/// Tells why a text is no policy.
fn refuse<K: Sink>(sink: &mut K, why: PolicyErr) -> GuardStatus
    ensures { IsGuardTold why (sink_shown K.Sink sink.old) (sink_shown K.Sink sink.new) result }
{
    match why {
        PolicyErr::Form { line } => {
            let mut out = [0u8; LINE_ROOM];
            put_line(sink, form_line(line, &mut out), GuardStatus::PolicyFault)
        }
        PolicyErr::TooMany => put_line(sink, b"fault many\n", GuardStatus::PolicyFault),
        PolicyErr::NoMemory => GuardStatus::NoMemory,
    }
}

/// Reads the rules from their source, to its end, or tells why there are none.
#[tactic(auto, using(crate::proofs::Told::text_told, crate::proofs::Told::long_told))]
pub(crate) fn rules_of<S: Source, K: Sink>(
    alloc: Global,
    rules: &mut S,
    sink: &mut K,
) -> Result<Policy, GuardStatus>
    ensures gives { IfOk result (λ policy. GivesRules
        (source_shown S.Source rules.old) (source_shown S.Source rules.new) policy) }
    ensures silent { OnOk result (sink.new ≡ sink.old) }
    ensures none { IfErr result (λ how. IsUnruled
        (guard_ends S.Source K.Sink rules.old rules.new sink.old sink.new) how) }
{
    match read_all(alloc, rules, TEXT_MAX) {
        Input::Whole(text) => match Policy::from_text(alloc, &text) {
            Ok(policy) => Ok(policy),
            Err(why) => Err(refuse(sink, why)),
        },
        Input::TooLong => Err(put_line(sink, b"fault long\n", GuardStatus::PolicyFault)),
        Input::Failed => Err(GuardStatus::SourceFailed),
        Input::NoMemory => Err(GuardStatus::NoMemory),
    }
}
