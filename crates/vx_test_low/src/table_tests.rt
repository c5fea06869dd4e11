//! Tables of texts that spell table instruments or don't, and of what the instruments do.

use crate::row_tools::compare;
use crate::step_tools::{Step, take_steps};
use serde_json::Value;
use std::alloc::Global;
use std::test::Fail;
use vx_inst::INST_MAX;
use vx_table::*;

/// A text of pieces: a front, a piece that stands there so often, and the rest.
type Text = (&'static str, &'static str, usize, &'static str);

fn spelled(alloc: Global, text: &Text) -> Result<String, Fail> {
    let (front, piece, count, rest) = *text;
    let mut spelled = String::from_str(alloc, front)?;
    for _ in 0..count {
        spelled.push_str(piece)?;
    }
    spelled.push_str(rest)?;
    Ok(spelled)
}

/// The instrument that a text of JSON describes, or why it describes none.
fn made(alloc: Global, text: &Text) -> Result<Result<TableInst, TableErr>, Fail> {
    let text = spelled(alloc, text)?;
    let value = Value::from_str(alloc, &text)?;
    Ok(TableInst::from_json(alloc, &value))
}

const FIRST: &str = r#"{"rules":[{"in":"a"}"#;

const NEXT: &str = r#",{"in":"a"}"#;

const REPLY: &str = r#"{"rules":[{"in":"a","out":""#;

const END: &str = r#""}]}"#;

// Texts, and why each describes no instrument. Others are rows of `vx_measure`.
static TEXTS: [(Text, Option<TableErr>); 12] = [
    // Each value that isn't a table, or has a bad rule behind good ones; and one that makes an instrument.
    (("[]", "", 0, ""), Some(TableErr::NotObject)),
    (("{}", "", 0, ""), Some(TableErr::NotObject)),
    ((r#"{"rules":{}}"#, "", 0, ""), Some(TableErr::NotObject)),
    (
        (r#"{"rules":[{"out":"x"}]}"#, "", 0, ""),
        Some(TableErr::BadRule(1)),
    ),
    ((FIRST, ",7]}", 1, ""), Some(TableErr::BadRule(2))),
    ((FIRST, ",[],{}]}", 1, ""), Some(TableErr::BadRule(2))),
    (
        (r#"{"rules":[{"in":"*IDN?","out":"ACME,1\n"}]}"#, "", 0, ""),
        None,
    ),
    // A table has at most 256 rules, and a reply at most 65,536 bytes.
    ((FIRST, NEXT, 255, "]}"), None),
    ((FIRST, NEXT, 256, "]}"), Some(TableErr::TooMany)),
    ((FIRST, NEXT, 254, ",{}]}"), Some(TableErr::BadRule(256))),
    ((REPLY, "a", 65536, END), None),
    ((REPLY, "a", 65537, END), Some(TableErr::BadRule(1))),
];

#[test]
fn texts(rt: HostRuntime) -> Result<(), Fail> {
    for (row, (text, why)) in TEXTS.iter().enumerate() {
        compare(&rt, row, &made(rt.alloc(), text)?.err(), why);
    }
    Ok(())
}

const REPLIES_TEXT: Text = (
    r#"{"rules":[{"in":"*IDN?","out":"ACME,1\n"},{"in":"*IDN?","out":"no"},{"in":"A\n","out":"B"},{"in":"","out":"C"},{"in":"N"}]}"#,
    "",
    0,
    "",
);

// The first rule for a message acts. One line feed at the end of a message doesn't count.
const REPLIES: &[Step] = &[
    Step::Sent(b"*IDN?"),
    Step::Replies(b"ACME,1\n"),
    Step::Mute,
    Step::Sent(b"*IDN?\n"),
    Step::Replies(b"ACME,1\n"),
    Step::Mute,
    Step::Sent(b"*IDN?\n\n"),
    Step::Replies(b""),
    Step::Mute,
    Step::Sent(b"*idn?"),
    Step::Replies(b""),
    Step::Mute,
    Step::Sent(b"*IDN"),
    Step::Replies(b""),
    Step::Mute,
    Step::Sent(b"A"),
    Step::Replies(b""),
    Step::Mute,
    Step::Sent(b"A\n"),
    Step::Replies(b""),
    Step::Mute,
    Step::Sent(b"A\n\n"),
    Step::Replies(b"B"),
    Step::Mute,
    Step::Sent(b"\n"),
    Step::Replies(b"C"),
    Step::Mute,
    Step::Sent(b"N"),
    Step::Replies(b""),
    Step::Mute,
    Step::Triggered,
    Step::ToLocal,
    Step::Mute,
    Step::Polled(0),
];

const STATUS_TEXT: Text = (r#"{"rules":[{"in":"A","stb":80},{"in":"B"}]}"#, "", 0, "");

// A rule sets the status byte; bit 6 asks for service.
const STATUS: &[Step] = &[
    Step::Asks(false),
    Step::Sent(b"A"),
    Step::Asks(true),
    Step::Mute,
    Step::Sent(b"B"),
    Step::Polled(80),
    Step::Asks(false),
    Step::Polled(16),
    Step::Set(0xFF),
    Step::Polled(0xFF),
    Step::Polled(0xBF),
];

const DELAY_TEXT: Text = (
    r#"{"rules":[{"in":"A","out":"BC","stb":65,"delay":100},{"in":"D","out":"E"}]}"#,
    "",
    0,
    "",
);

// A rule with a delay acts when that has passed since the last moment told, and not before.
const DELAY: &[Step] = &[
    Step::Told(50),
    Step::Told(40),
    Step::Sent(b"D"),
    Step::Sent(b"A"),
    Step::Told(50),
    Step::Hears(false),
    Step::Mute,
    Step::Asks(false),
    Step::Triggered,
    Step::ToLocal,
    Step::Told(149),
    Step::Hears(false),
    Step::Mute,
    Step::Asks(false),
    Step::Triggered,
    Step::ToLocal,
    Step::Told(0),
    Step::Hears(false),
    Step::Mute,
    Step::Asks(false),
    Step::Triggered,
    Step::ToLocal,
    Step::Told(150),
    Step::Hears(true),
    Step::Replies(b"E"),
    Step::Replies(b"BC"),
    Step::Mute,
    Step::Polled(65),
    Step::Polled(1),
    Step::Sent(b"A"),
    Step::Told(u64::MAX),
    Step::Replies(b"BC"),
    Step::Sent(b"A"),
    Step::Told(u64::MAX),
    Step::Mute,
];

const CLEAR_TEXT: Text = (
    r#"{"rules":[{"in":"A","out":"B","stb":1,"delay":100},{"in":"C","out":"D"}]}"#,
    "",
    0,
    "",
);

// A clear drops what was taken, what there is to give and the rule that waits.
const CLEAR: &[Step] = &[
    Step::Set(0x42),
    Step::Sent(b"C"),
    Step::Sent(b"A"),
    Step::Cleared,
    Step::Hears(true),
    Step::Mute,
    Step::Told(100),
    Step::Mute,
    Step::Polled(0x42),
    Step::Polled(0x02),
    Step::Takes(b'x', false),
    Step::Cleared,
    Step::Sent(b"C"),
    Step::Replies(b"D"),
];

// A reply that has no room is dropped whole, and one that just fits isn't; the status byte is set all the same.
const ROOM: &[Step] = &[
    Step::Sent(b"D"),
    Step::Sent(b"D"),
    Step::Sent(b"D"),
    Step::Sent(b"D"),
    Step::Gives(b'x', false),
    Step::Sent(b"A"),
    Step::Polled(65),
    Step::Gives(b'x', false),
    Step::Sent(b"A"),
    Step::Drained(INST_MAX, &[(b'x', true), (b'B', false), (b'C', true)]),
];

const ROOM_TEXT: Text = (
    r#"{"rules":[{"in":"A","out":"BC","stb":65},{"in":"D","out":""#,
    "x",
    65536,
    END,
);

// Names, texts, and steps with the instruments that they describe.
static PLAYS: [(&str, Text, &[Step]); 5] = [
    ("replies", REPLIES_TEXT, REPLIES),
    ("status", STATUS_TEXT, STATUS),
    ("delay", DELAY_TEXT, DELAY),
    ("clear", CLEAR_TEXT, CLEAR),
    ("room", ROOM_TEXT, ROOM),
];

#[test]
fn plays(rt: HostRuntime) -> Result<(), Fail> {
    for (name, text, steps) in &PLAYS {
        let mut inst = made(rt.alloc(), text)??;
        take_steps(&rt, name, &mut inst, steps);
    }
    Ok(())
}
