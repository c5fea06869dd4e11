//! A policy: its text, and what it says of a call.
ghost use Rattle.std.specs.Prelude.{◌≡◌, ◌≤◌, ℕ, List, length, MatchResult};
ghost use Rattle.vx_text.specs.TextLines.{lines};
ghost use Rattle.vx_policy.specs.declared.rules.Rule.{Rule};
ghost use Rattle.vx_policy.specs.declared.policy.TheConstants.{RULES_MAX, TEXT_MAX};
ghost use Rattle.vx_policy.specs.Grammar.{Reads};
ghost use Rattle.vx_policy.specs.Reading.{IsRead, IsPolicyBad, AnswersRules, AnswersBad, PolicyAdds, Counted, NotCounted};
ghost use Rattle.vx_policy.specs.Judging.{judged};

use crate::lines::{Line, line_of};
use crate::matching::matches;
use crate::rules::Rule;
use std::alloc::Global;
use std::marker::Model;
use vx_calls::{Proc, Target};
use vx_text::first_line;

/// How many rules a policy may have.
pub const RULES_MAX: usize = 256;

/// How many bytes its text may have.
pub const TEXT_MAX: usize = 1_048_576;

/// Why a text is no policy.
#[derive(Clone, Copy, Debug, PartialEq, Eq)]
pub enum PolicyErr {
    /// This line, the first such, has no form that a line may have. Lines are counted from 1, skipped ones too.
    Form { line: u32 },
    /// Each line has such a form, and more than [`RULES_MAX`] of them are rules.
    TooMany,
    /// There was no memory.
    NoMemory,
}

/// What a policy says of a call: whether it may reach the core, and the number of the rule that says so. Rules are counted from
/// 1, without the lines that are skipped; 0 is for a call that no rule matches.
#[derive(Clone, Copy, PartialEq, Eq)]
pub struct Verdict {
    pub allow: bool,
    pub rule: u32,
}

/// Written rules, at most [`RULES_MAX`].
#[derive(Drop)]
pub struct Policy {
    rules: Vec<Rule>,
}

impl Model for Policy {
    ghost use Rattle.std.specs.Prelude.{◌≤◌, List, length};
    ghost use Rattle.vx_policy.specs.declared.rules.Rule.{Rule};
    ghost use Rattle.vx_policy.specs.declared.policy.TheConstants.{RULES_MAX};

    ghost Value = { List Rule };

    ghost view = { λ p. p.rules.items };

    ghost invariant = { λ p. length p.rules.items ≤ RULES_MAX };
}

/// Keeps a rule behind those that are there, where there is room for one more by the limit.
fn keep(rules: &mut Vec<Rule>, rule: Rule) -> Result<(), PolicyErr>
    ensures { PolicyAdds rules.old.items rule result rules.new.items }
{
    if rules.len() >= RULES_MAX {
        return Ok(());
    }
    match rules.push(rule) {
        Ok(()) => Ok(()),
        Err(_) => Err(PolicyErr::NoMemory),
    }
}

/// Reads the rules of a text: the first [`RULES_MAX`] of them, and how many there are.
fn read_rules(alloc: Global, text: &[u8]) -> Result<(Vec<Rule>, usize), PolicyErr>
    requires { length text.now ≤ TEXT_MAX }
    ensures { MatchResult result (λ read. Counted (lines text.now) read.0.items read.1) (NotCounted (lines text.now)) }
{
    let mut rules = Vec::new(alloc);
    let mut count = 0;
    let mut line = 0;
    let mut rest = text;
    while !rest.is_empty() {
        let (first, behind) = first_line(rest);
        line += 1;
        match line_of(first) {
            Line::Skipped => {}
            Line::Other => return Err(PolicyErr::Form { line }),
            Line::Says(rule) => {
                keep(&mut rules, rule)?;
                count += 1;
            }
        }
        rest = behind;
    }
    Ok((rules, count))
}

/// What these rules say of a call, counted from 1.
fn judge_rules(rules: &[Rule], peer: u32, proc: Proc, target: Option<Target>) -> Verdict
    requires { length rules.now ≤ RULES_MAX }
    ensures { result ≡ judged rules.now peer proc target }
{
    let mut rule = 1;
    let mut rest = rules;
    while let [first, later @ ..] = rest {
        if matches(first, peer, proc, target) {
            return Verdict {
                allow: first.allow,
                rule,
            };
        }
        rule += 1;
        rest = later;
    }
    Verdict {
        allow: false,
        rule: 0,
    }
}

impl Policy {
    /// The policy of a text.
    ///
    /// The text has lines, each ended by LF; a last piece without one is a line too. A line that is empty or begins with `#` is
    /// skipped. Each other is a rule: `allow` or `deny`, PEER, PROC and TARGET, with one space between. PEER is `*` or
    /// a.b.c.d/n, in decimal numbers without leading zeros, up to 255 and up to 32. PROC is `*`, `create`, `write`, `read`,
    /// `stb`, `trigger`, `clear`, `remote`, `local`, `lock`, `unlock`, `srq`, `docmd`, `destroy`, `intr` or `unintr`. TARGET is
    /// `*`, `bus`, or a primary address 0 to 30.
    ///
    /// # Errors
    ///
    /// `Form` for the first line of another form; `TooMany` where there is none and there are more than [`RULES_MAX`] rules;
    /// `NoMemory`.
    pub fn from_text(alloc: Global, text: &[u8]) -> Result<Policy, PolicyErr>
        requires { length text.now ≤ TEXT_MAX }
        ensures read { IsRead text.now result }
        ensures rules { (rules : List Rule) → Reads (lines text.now) rules → AnswersRules rules result }
        ensures bad { (line : ℕ) → IsPolicyBad (lines text.now) line → AnswersBad line result }
    {
        match read_rules(alloc, text) {
            Ok((rules, count)) => {
                if count > RULES_MAX {
                    return Err(PolicyErr::TooMany);
                }
                Ok(Policy { rules })
            }
            Err(why) => Err(why),
        }
    }

    /// What the rules say of a call of this procedure from the peer of this IPv4 address, its first part in the high byte, to
    /// this target, where the call has one.
    ///
    /// The first rule that matches decides. A rule matches a peer whose first n bits are those of its address, the procedure
    /// that it names, and the interface for `bus` or the devices of its primary address; `*` matches all, also where there is
    /// no target. Where none matches the call is denied, by rule 0.
    pub fn judge(&self, peer: u32, proc: Proc, target: Option<Target>) -> Verdict
        ensures { result ≡ judged self.now peer proc target }
    {
        judge_rules(self.rules.as_slice(), peer, proc, target)
    }
}
