//! Texts of policies, and what their rules say of calls.

use std::alloc::Global;
use std::test::Fail;
use vx_calls::{Proc, Target};
use vx_policy::{Policy, PolicyErr, Verdict};

/// What a text is.
#[derive(Clone, Copy, PartialEq, Eq)]
enum Known {
    Policy,
    Form(u32),
    TooMany,
}

// Texts, how often each stands in its policy, and what that is.
static TEXTS: [(&[u8], usize, Known); 30] = [
    (b"", 1, Known::Policy),
    (b"\n\n# no rule\n", 1, Known::Policy),
    (b"deny * write 5\nallow 127.0.0.0/8 * *\n", 1, Known::Policy),
    // a last piece without LF is a line
    (b"allow * * *", 1, Known::Policy),
    (b"allow * * 30", 1, Known::Policy),
    (b"allow * * 31", 1, Known::Form(1)),
    (b"allow * * 05", 1, Known::Form(1)),
    (b"allow * * bus", 1, Known::Policy),
    (b"allow 255.255.255.255/32 unintr 0", 1, Known::Policy),
    (b"allow 0.0.0.0/0 intr *", 1, Known::Policy),
    (b"allow 256.0.0.0/8 * *", 1, Known::Form(1)),
    (b"allow 127.0.0.0/33 * *", 1, Known::Form(1)),
    (b"allow 127.0.0.0 * *", 1, Known::Form(1)),
    (b"allow 127.0.0.00/8 * *", 1, Known::Form(1)),
    (b"allow 127.0.0/8 * *", 1, Known::Form(1)),
    (b"allow  * * *", 1, Known::Form(1)),
    (b"allow * * * ", 1, Known::Form(1)),
    (b" allow * * *", 1, Known::Form(1)),
    (b"allow * * *\r\n", 1, Known::Form(1)),
    (b"allow * abort *", 1, Known::Form(1)),
    (b"allow * null *", 1, Known::Form(1)),
    (b"allow * * +5", 1, Known::Form(1)),
    (b"Allow * * *", 1, Known::Form(1)),
    // skipped lines count, and the first line of another form is named
    (b"# a\n\nallow * * *\nallow\ndeny\n", 1, Known::Form(4)),
    (b"deny * create * # none\n", 1, Known::Form(1)),
    (b"allow * * *\n", 256, Known::Policy),
    (b"allow * * *\n", 257, Known::TooMany),
    (b"# a\nallow * * *\n\n", 256, Known::Policy),
    (b"# a\nallow * * *\n\n", 257, Known::TooMany),
    (b"#\n", 300, Known::Policy),
];

/// What the text is that this one makes as often.
fn read(alloc: Global, text: &[u8], times: usize) -> Option<Known> {
    let mut all = Vec::new(alloc);
    for _ in 0..times {
        all.extend_from_slice(text).ok()?;
    }
    if all.len() > 1_048_576 {
        return None;
    }
    match Policy::from_text(alloc, &all) {
        Ok(_) => Some(Known::Policy),
        Err(PolicyErr::Form { line }) => Some(Known::Form(line)),
        Err(PolicyErr::TooMany) => Some(Known::TooMany),
        Err(PolicyErr::NoMemory) => None,
    }
}

#[test]
fn texts(rt: HostRuntime) -> Result<(), Fail> {
    for row in &TEXTS {
        let (text, times, what) = *row;
        assert!(rt;
            read(rt.alloc(), text, times) == Some(what),
            "{text:?} {times}"
        );
    }
    Ok(())
}

const LOOPBACK: u32 = 0x7F00_0001;

const TEN: u32 = 0x0A00_0001;

/// Devices without a secondary address.
const FIVE: Option<Target> = Some(Target::Device { p: 5, s: None });

const SIX: Option<Target> = Some(Target::Device { p: 6, s: None });

// Policies, calls by their peer, procedure and target, and whether which rule allows or denies each.
static CALLS: [(&[u8], u32, Proc, Option<Target>, bool, u32); 20] = [
    (
        b"deny * write 5\nallow 127.0.0.0/8 * *",
        LOOPBACK,
        Proc::Write,
        FIVE,
        false,
        1,
    ),
    (
        b"deny * write 5\nallow 127.0.0.0/8 * *",
        LOOPBACK,
        Proc::Read,
        FIVE,
        true,
        2,
    ),
    (
        b"deny * write 5\nallow 127.0.0.0/8 * *",
        TEN,
        Proc::Read,
        FIVE,
        false,
        0,
    ),
    (
        b"deny * write 5\nallow 127.0.0.0/8 * *",
        LOOPBACK,
        Proc::Write,
        SIX,
        true,
        2,
    ),
    // rules are counted without the lines that are skipped
    (
        b"# a\n\ndeny * write 5\n#\nallow * * *",
        TEN,
        Proc::Read,
        FIVE,
        true,
        2,
    ),
    // the first that matches decides
    (b"allow * * *\ndeny * * *", TEN, Proc::Read, FIVE, true, 1),
    // no rule
    (b"", LOOPBACK, Proc::Read, FIVE, false, 0),
    // no bit, all bits, and bits within a byte
    (b"allow 1.2.3.4/0 * *", TEN, Proc::Read, FIVE, true, 1),
    (b"allow 10.0.0.1/32 * *", TEN, Proc::Read, FIVE, true, 1),
    (b"allow 10.0.0.0/32 * *", TEN, Proc::Read, FIVE, false, 0),
    (b"allow 11.9.9.9/7 * *", TEN, Proc::Read, FIVE, true, 1),
    (b"allow 12.0.0.0/7 * *", TEN, Proc::Read, FIVE, false, 0),
    (b"allow 1.0.0.10/8 * *", TEN, Proc::Read, FIVE, false, 0),
    // the interface, and a call without a target
    (
        b"allow * * bus",
        TEN,
        Proc::Docmd,
        Some(Target::Interface),
        true,
        1,
    ),
    (b"allow * * bus", TEN, Proc::Docmd, FIVE, false, 0),
    (
        b"allow * * 5",
        TEN,
        Proc::Docmd,
        Some(Target::Interface),
        false,
        0,
    ),
    (
        b"allow * * 5\nallow * * bus\ndeny * * *",
        TEN,
        Proc::CreateIntr,
        None,
        false,
        3,
    ),
    (b"allow * intr *", TEN, Proc::CreateIntr, None, true, 1),
    // a secondary address isn't looked at
    (
        b"allow * read 5",
        TEN,
        Proc::Read,
        Some(Target::Device { p: 5, s: Some(6) }),
        true,
        1,
    ),
    (b"allow * read 5", TEN, Proc::ReadStb, FIVE, false, 0),
];

/// What a policy says of a call.
fn judged(
    alloc: Global,
    text: &[u8],
    peer: u32,
    proc: Proc,
    at: Option<Target>,
) -> Option<Verdict> {
    if text.len() > 1_048_576 {
        return None;
    }
    let policy = Policy::from_text(alloc, text).ok()?;
    Some(policy.judge(peer, proc, at))
}

#[test]
fn calls(rt: HostRuntime) -> Result<(), Fail> {
    for row in &CALLS {
        let (text, peer, proc, at, allow, rule) = *row;
        let verdict = judged(rt.alloc(), text, peer, proc, at);
        assert!(rt;
            verdict == Some(Verdict { allow, rule }),
            "{text:?} {peer:x}"
        );
    }
    Ok(())
}
