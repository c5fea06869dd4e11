//! The lines of a policy.
ghost use Rattle.std.specs.Prelude.{◌≡◌, IfSome, None, option_map};
ghost use Rattle.vx_policy.specs.Cutting.{words, SaysBy};
ghost use Rattle.vx_policy.specs.Grammar.{PolicySays, is_skipped};
ghost use Rattle.vx_policy.specs.Reading.{IsLine};
ghost use Rattle.vx_policy.specs.declared.rules.Rule.{Rule};

use crate::rules::Rule;
use crate::words::{allow_of, cut, peers_of, place_of, proc_of};

/// What a line is.
#[derive(Clone, Copy)]
pub(crate) enum Line {
    /// One that says nothing.
    Skipped,
    /// A rule.
    Says(Rule),
    /// One of no form that a line may have.
    Other,
}

/// The four words of a rule.
fn words_of(line: &[u8]) -> Option<(&[u8], &[u8], &[u8], &[u8])>
    ensures { option_map (λ r. (r.0.now, r.1.now, r.2.now, r.3.now)) result ≡ words line.now }
{
    let (allow, rest) = cut(line, b' ')?;
    let (peers, rest) = cut(rest, b' ')?;
    let (proc, place) = cut(rest, b' ')?;
    Some((allow, peers, proc, place))
}

/// The rule of these words.
fn rule_of(allow: &[u8], peers: &[u8], proc: &[u8], place: &[u8]) -> Option<Rule>
    ensures some { IfSome result (SaysBy allow.now peers.now proc.now place.now) }
    ensures none { result ≡ None → (rule : Rule) → SaysBy allow.now peers.now proc.now place.now rule → ⊥ }
{
    Some(Rule {
        allow: allow_of(allow)?,
        peers: peers_of(peers)?,
        proc: proc_of(proc)?,
        place: place_of(place)?,
    })
}

/// The rule that a line says.
fn said_by(line: &[u8]) -> Option<Rule>
    ensures some { IfSome result (λ rule. PolicySays line.now rule) }
    ensures none { result ≡ None → (rule : Rule) → PolicySays line.now rule → ⊥ }
{
    let (allow, peers, proc, place) = words_of(line)?;
    rule_of(allow, peers, proc, place)
}

fn is_skipped(line: &[u8]) -> bool
    ensures { result ≡ is_skipped line.now }
{
    match line {
        [] => true,
        [first, ..] => *first == b'#',
    }
}

/// What a line is.
pub(crate) fn line_of(line: &[u8]) -> Line
    ensures { IsLine line.now result }
{
    if is_skipped(line) {
        return Line::Skipped;
    }
    match said_by(line) {
        Some(rule) => Line::Says(rule),
        None => Line::Other,
    }
}
