//! The rules that a JSON value spells.

ghost use Rattle.std.specs.Prelude.{◌≡◌, true, false, Bool, Some, None, is_none, is_ok, option_map, IfOk, IfErr, IfSome, ◌<◌, length, Err};
ghost use Rattle.std.specs.List.{All, position_from};
ghost use Rattle.serde_json.specs.View.{view, items_view};
ghost use Rattle.vx_table.specs.Spelling.{text_within, asked_of, reply_of, status_of, delay_of, rule_of, rules_from, rules_of};
ghost use Rattle.vx_table.specs.Rows.{spelled_rule};

use crate::{ASKED_MAX, REPLY_MAX, RULES_MAX, TableErr};
use serde_json::Value;

/// A rule as a value spells it.
#[derive(Clone, Copy)]
pub(crate) struct Spelled<'v> {
    pub(crate) asked: &'v str,
    pub(crate) reply: &'v str,
    pub(crate) status: Option<u8>,
    // milliseconds
    pub(crate) delay: u32,
}

/// The rules of a table that a value spells, each of a rule's form.
pub(crate) fn items_of(value: &Value) -> Result<&Vec<Value>, TableErr>
    ensures refused { IfErr result (λ why. rules_of (view value.now) ≡ Err why) }
    ensures array { IfOk result (λ items. rules_of (view value.now) ≡ rules_from 1 (items_view items.now.items)) }
    ensures whole { IfOk result (λ _. is_ok (rules_of (view value.now)) ≡ true) }
    ensures good { IfOk result (λ items. All (λ v. is_none (rule_of (view v)) ≡ false) items.now.items) }
{
    let Some(rules) = value.get("rules") else {
        return Err(TableErr::NotObject);
    };
    let Some(items) = rules.as_array() else {
        return Err(TableErr::NotObject);
    };
    if items.len() > RULES_MAX {
        return Err(TableErr::TooMany);
    }
    match first_bad(items) {
        Some(place) => Err(TableErr::BadRule(place + 1)),
        None => Ok(items),
    }
}

/// The place of the first value that isn't of a rule's form.
fn first_bad(items: &[Value]) -> Option<usize>
    ensures first { result ≡ position_from (λ v. is_none (rule_of (view v))) 0 items.now }
    ensures within { IfSome result (λ place. place < length items.now) }
{
    items.iter().position(|item| is_bad(item))
}

/// Whether a value isn't of a rule's form.
fn is_bad(value: &Value) -> bool
    ensures { result ≡ is_none (rule_of (view value.now)) }
{
    rule_of(value).is_none()
}

/// The rule that a value spells, where it is of a rule's form.
pub(crate) fn rule_of(value: &Value) -> Option<Spelled<'_>>
    ensures { option_map spelled_rule result ≡ rule_of (view value.now) }
{
    Some(Spelled {
        asked: asked_of(value)?,
        reply: reply_of(value)?,
        status: status_of(value)?,
        delay: delay_of(value)?,
    })
}

/// The message that a rule is for.
fn asked_of(value: &Value) -> Option<&str>
    ensures { option_map (λ text. text.now) result ≡ asked_of (view value.now) }
{
    match value.get("in") {
        Some(text) => text_within(text, ASKED_MAX),
        None => None,
    }
}

/// A rule's reply, of no bytes where none is given.
fn reply_of(value: &Value) -> Option<&str>
    ensures { option_map (λ text. text.now) result ≡ reply_of (view value.now) }
{
    match value.get("out") {
        Some(text) => text_within(text, REPLY_MAX),
        None => Some(""),
    }
}

/// The status byte that a rule sets, if any.
fn status_of(value: &Value) -> Option<Option<u8>>
    ensures { result ≡ status_of (view value.now) }
{
    match value.get("stb") {
        Some(number) => u8::try_from(number.as_u64()?).ok().map(Some),
        None => Some(None),
    }
}

/// A rule's delay in milliseconds, 0 where none is given.
fn delay_of(value: &Value) -> Option<u32>
    ensures { result ≡ delay_of (view value.now) }
{
    match value.get("delay") {
        Some(number) => u32::try_from(number.as_u64()?).ok(),
        None => Some(0),
    }
}

/// A string of at most this many bytes.
fn text_within(value: &Value, most: usize) -> Option<&str>
    ensures { option_map (λ text. text.now) result ≡ text_within most (view value.now) }
{
    let text = value.as_str()?;
    if text.len() <= most { Some(text) } else { None }
}
