//! The rows of a table.

ghost use Rattle.std.specs.Prelude.{◌≡◌, ◌<◌, true, false, Bool, map, Some, is_none, length, IfOk, IfSome};
ghost use Rattle.std.specs.Str.{bytes_eq};
ghost use Rattle.std.specs.List.{All, position_from};
ghost use Rattle.serde_json.specs.View.{view};
ghost use Rattle.vx_inst.specs.Laws.{IsInstTold, IsInstSound};
ghost use Rattle.vx_table.specs.Table.{acted};
ghost use Rattle.vx_table.specs.Spelling.{rule_of};
ghost use Rattle.vx_table.specs.Rows.{spelled_rule};

use crate::spelled::{Spelled, rule_of};
use serde_json::Value;
use std::alloc::{AllocError, Global};
use std::marker::Model;
use vx_inst::Body;

/// A rule of a table.
#[derive(Drop)]
pub(crate) struct Row {
    asked: String,
    reply: String,
    status: Option<u8>,
    // milliseconds
    delay: u32,
}

impl Model for Row {
    ghost use Rattle.vx_table.specs.Table.{Rule};

    ghost Value = { Rule };

    ghost use Rattle.std.specs.Prelude.{string_bytes};

    ghost view = { λ r. record { asked = string_bytes r.asked; reply = string_bytes r.reply; status = r.status; delay = r.delay } };
}

impl Row {
    /// The rule that is spelled so.
    fn new(alloc: Global, spelled: Spelled<'_>) -> Result<Row, AllocError>
        ensures { IfOk result (λ row. row ≡ spelled_rule spelled.entry) }
    {
        Ok(Row {
            asked: String::from_str(alloc, spelled.asked)?,
            reply: String::from_str(alloc, spelled.reply)?,
            status: spelled.status,
            delay: spelled.delay,
        })
    }

    /// Whether it is for this message.
    fn is_for(&self, message: &[u8]) -> bool
        ensures { result ≡ bytes_eq self.now.asked message.now }
    {
        self.asked.as_bytes() == message
    }

    /// Its delay, in milliseconds.
    pub(crate) fn delay(&self) -> u32
        ensures { result ≡ self.now.delay }
    {
        self.delay
    }

    /// Acts on the body of its instrument.
    pub(crate) fn act(&self, body: &mut Body)
        ensures acted { body.new ≡ acted body.old self.now }
        ensures replied { IsInstTold body.old body.new }
        ensures sound { IsInstSound body.new }
    {
        body.reply(self.reply.as_bytes());
        if let Some(status) = self.status {
            body.set_status(status);
        }
    }
}

/// The place of the first rule for a message.
pub(crate) fn place_of(rows: &[Row], message: &[u8]) -> Option<usize>
    ensures first { result ≡ position_from (λ r. bytes_eq r.asked message.now) 0 rows.now }
    ensures within { IfSome result (λ place. place < length rows.now) }
{
    rows.iter().position(|row| row.is_for(message))
}

/// The rules that values spell.
pub(crate) fn rows_of(alloc: Global, items: &[Value]) -> Result<Vec<Row>, AllocError>
    requires { All (λ v. is_none (rule_of (view v)) ≡ false) items.now }
    ensures { IfOk result (λ rows. map Some rows.items ≡ map (λ v. rule_of (view v)) items.now) }
{
    let mut rows = Vec::new(alloc);
    for item in items {
        rows.push(row_of(alloc, item)?)?;
    }
    Ok(rows)
}

/// The rule that a value spells.
fn row_of(alloc: Global, value: &Value) -> Result<Row, AllocError>
    requires { is_none (rule_of (view value.now)) ≡ false }
    ensures { IfOk result (λ row. Some row ≡ rule_of (view value.now)) }
{
    Row::new(alloc, rule_of(value).unwrap())
}
