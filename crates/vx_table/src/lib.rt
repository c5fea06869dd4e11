//! Instruments described in JSON: each has a table of messages and what it answers to them.
//!
//! An instrument takes memory only where it is made.
#![tactic(auto)]

ghost use Rattle.std.specs.Prelude.{◌≡◌, ◌<◌, ◌↔◌, true, ℕ, List, [], length, Ok, Err, IfOk};
ghost use Rattle.std.specs.List.{slice_get};
ghost use Rattle.serde_json.specs.View.{view};
ghost use Rattle.vx_inst.specs.declared.done.Done.TheVariants.{Took, Gave, Polled, Cleared, Triggered, ToLocal, StatusSet, Told};
ghost use Rattle.vx_inst.specs.Behavior.{after};
ghost use Rattle.vx_inst.specs.Laws.{takes_byte, gives_byte, IsInstSound, InstTakes, InstGives, status_byte, IsInstPolled, IsCleared, IsTriggered, IsInstTold, IsLonger, with_status};
ghost use Rattle.vx_table.specs.declared.TableErr.TheVariants.{NotObject, TooMany, BadRule, NoMemory};
ghost use Rattle.vx_table.specs.Table.{Rule, fresh_table, table_after_take, table_after_give, table_after_poll, table_after_clear, table_with_status, table_after_moment, table_behavior, finished, begun, after_delay, without_line_feed};
ghost use Rattle.vx_table.specs.Spelling.{rules_of};

mod row;
mod spelled;

use row::{Row, place_of, rows_of};
use serde_json::Value;
use spelled::items_of;
use std::alloc::{AllocError, Global};
use std::marker::Model;
use vx_inst::{Body, Instrument};

/// The most rules of a table.
pub const RULES_MAX: usize = 256;

/// The most bytes of the message that a rule is for.
pub const ASKED_MAX: usize = 4096;

/// The most bytes of a rule's reply.
pub const REPLY_MAX: usize = 65536;

/// Why a value makes no table instrument.
#[derive(Clone, Copy, Debug, PartialEq, Eq)]
pub enum TableErr {
    /// It isn't an object with an array `rules`.
    NotObject,
    /// It has more than [`RULES_MAX`] rules.
    TooMany,
    /// The rule of this number, counted from 1, is the first that isn't of a rule's form.
    BadRule(usize),
    /// There was no memory for it.
    NoMemory,
}

impl From<AllocError> for TableErr {
    ghost from_gives = { λ _ why. why ≡ NoMemory };

    fn from(_: AllocError) -> TableErr {
        TableErr::NoMemory
    }
}

/// The rule that waits: its place in the table, and the moment from which its delay counts, in milliseconds.
#[derive(Clone, Copy)]
struct Waiting {
    place: usize,
    since: u64,
}

/// An instrument whose replies stand in a table. At the end of a message the first rule for it acts, at once or after its
/// delay, during which the instrument isn't ready.
#[derive(Drop)]
pub struct TableInst {
    body: Body,
    rows: Vec<Row>,
    waiting: Option<Waiting>,
    // milliseconds
    told: u64,
}

impl Model for TableInst {
    ghost use Rattle.vx_table.specs.Table.{TableState};

    ghost Value = { TableState };

    ghost use Rattle.std.specs.Prelude.{◌≡◌, ◌<◌, ◌≤◌, true, is_none, length, option_and_then, IfSome};
    ghost use Rattle.vx_table.specs.Rows.{delayed_of};

    ghost view = { λ t. record {
      seen = record t.body { ready = is_none t.waiting };
      rules = t.rows.items;
      delayed = option_and_then (delayed_of t.rows.items) t.waiting;
      told = t.told;
    } };

    ghost invariant = { λ t. (t.body.ready ≡ true) × IfSome t.waiting (λ w. (w.place < length t.rows.items) × (w.since ≤ t.told)) };
}

impl TableInst {
    /// One with the rules that a value spells: an object whose `rules` is an array of at most [`RULES_MAX`] objects. Each of
    /// these has a string `in` of at most [`ASKED_MAX`] bytes, and may have a string `out` of at most [`REPLY_MAX`] bytes, a
    /// status byte `stb` from 0 to 255 and a `delay` from 0 to 4294967295 milliseconds. Its room is made here, once the value
    /// is found to be of this form: any other is refused for what it lacks, and never for want of memory.
    pub fn from_json(alloc: Global, value: &Value) -> Result<TableInst, TableErr>
        ensures made { IfOk result (λ inst. (rules : List Rule) × (rules_of (view value.now) ≡ Ok rules) × (inst ≡ fresh_table rules)) }
        ensures not_object { result ≡ Err NotObject ↔ rules_of (view value.now) ≡ Err NotObject }
        ensures too_many { result ≡ Err TooMany ↔ rules_of (view value.now) ≡ Err TooMany }
        ensures bad_rule { (number : ℕ) → result ≡ Err (BadRule number) ↔ rules_of (view value.now) ≡ Err (BadRule number) }
    {
        let items = items_of(value)?;
        let rows = rows_of(alloc, items)?;
        let body = Body::new(alloc)?;
        Ok(TableInst {
            body,
            rows,
            waiting: None,
            told: 0,
        })
    }

    /// Ends the message that it took: the first rule for it acts, or waits.
    #[inline(never)]
    fn finish(&mut self)
        ensures finished { self.new ≡ finished self.old }
        ensures over { self.new.seen.inbox ≡ [] }
        ensures longer { IsLonger self.old.seen.out self.new.seen.out }
        ensures sound { IsInstSound self.new.seen }
    {
        let place = place_of(&self.rows, without_line_feed(self.body.message()));
        self.body.forget();
        match place {
            Some(place) => self.begin(place),
            None => {}
        }
    }

    /// The rule at this place acts, or waits where it has a delay.
    fn begin(&mut self, place: usize)
        requires within { place < length self.old.rules }
        ensures begun { self.new ≡ begun self.old (slice_get self.old.rules place) }
        ensures replied { IsInstTold self.old.seen self.new.seen }
        ensures sound { IsInstSound self.new.seen }
    {
        self.body.stay();
        if self.rows[place].delay() == 0 {
            self.rows[place].act(&mut self.body);
        } else {
            self.waiting = Some(Waiting {
                place,
                since: self.told,
            });
        }
    }

    /// The rule that waits acts, where its delay has passed.
    fn act_if_due(&mut self)
        ensures due { self.new ≡ after_delay self.old self.old.delayed }
        ensures replied { IsInstTold self.old.seen self.new.seen }
        ensures sound { IsInstSound self.new.seen }
    {
        self.body.stay();
        if let Some(Waiting { place, since }) = self.waiting {
            if self.told - since >= u64::from(self.rows[place].delay()) {
                self.waiting = None;
                self.rows[place].act(&mut self.body);
            }
        }
    }
}

/// A message without its line feed, where it ends in one.
fn without_line_feed(message: &[u8]) -> &[u8]
    ensures { result.now ≡ without_line_feed message.now }
{
    let Some((last, front)) = message.split_last() else {
        return message;
    };
    if *last == b'\n' { front } else { message }
}

impl Instrument for TableInst {
    ghost behaves = { table_behavior };

    fn can_take(&self) -> bool {
        self.body.can_take() && self.waiting.is_none()
    }

    /// Takes a byte. At END the rule for the message acts, or waits.
    fn take(&mut self, b: u8, end: bool)
        requires { takes_byte self.old.seen ≡ true }
        ensures rule { self.new ≡ table_after_take self.old b end }
        ensures takes { InstTakes self.old.seen b end self.new.seen }
        ensures does { table_behavior self.new ≡ after (Took b end) (table_behavior self.old) }
        ensures sound { IsInstSound self.new.seen }
    {
        self.body.keep(b);
        if end {
            self.finish();
        }
    }

    fn can_give(&self) -> bool {
        self.body.can_give() && self.waiting.is_none()
    }

    fn give(&mut self) -> (u8, bool)
        requires { gives_byte self.old.seen ≡ true }
        ensures gives { InstGives self.old.seen (record { value = result.0; end = result.1 }) self.new.seen }
        ensures rule { self.new ≡ table_after_give self.old }
        ensures does { table_behavior self.new ≡ after Gave (table_behavior self.old) }
        ensures sound { IsInstSound self.new.seen }
    {
        self.body.give()
    }

    fn poll(&mut self) -> u8
        ensures status { result ≡ status_byte self.old.seen }
        ensures polled { IsInstPolled self.old.seen self.new.seen }
        ensures rule { self.new ≡ table_after_poll self.old }
        ensures does { table_behavior self.new ≡ after Polled (table_behavior self.old) }
        ensures sound { IsInstSound self.new.seen }
    {
        self.body.poll()
    }

    fn requests(&self) -> bool {
        self.body.requests()
    }

    /// Forgets what it took and what it has to give, and the rule that waits. It is ready then.
    fn clear(&mut self)
        ensures cleared { IsCleared self.old.seen self.new.seen }
        ensures rule { self.new ≡ table_after_clear self.old }
        ensures does { table_behavior self.new ≡ after Cleared (table_behavior self.old) }
        ensures sound { IsInstSound self.new.seen }
    {
        self.body.clear();
        self.waiting = None;
    }

    /// Does nothing.
    fn trigger(&mut self)
        ensures triggered { IsTriggered self.old.seen self.new.seen }
        ensures rule { self.new ≡ self.old }
        ensures does { table_behavior self.new ≡ after Triggered (table_behavior self.old) }
        ensures sound { IsInstSound self.new.seen }
    {
        self.body.stay();
    }

    fn local(&mut self)
        ensures same { self.new ≡ self.old }
        ensures does { table_behavior self.new ≡ after ToLocal (table_behavior self.old) }
        ensures sound { IsInstSound self.new.seen }
    {
        self.body.stay();
    }

    fn set_status(&mut self, b: u8)
        ensures set { self.new ≡ table_with_status self.old b }
        ensures does { table_behavior self.new ≡ after (StatusSet b) (table_behavior self.old) }
        ensures sound { IsInstSound self.new.seen }
    {
        self.body.set_status(b);
    }

    /// Tells it a moment, in milliseconds: the rule that waits acts once its delay has passed.
    fn moment(&mut self, now: u64)
        ensures told { IsInstTold self.old.seen self.new.seen }
        ensures rule { self.new ≡ table_after_moment self.old now }
        ensures does { table_behavior self.new ≡ after (Told now) (table_behavior self.old) }
        ensures sound { IsInstSound self.new.seen }
    {
        self.told = self.told.max(now);
        self.act_if_due();
    }
}
