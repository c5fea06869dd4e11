//! How a pass spends the time until its ticket is served, outside the line and in it, and who is woken after a turn.
//!
//! Whoever holds a ticket while it sleeps, or while another program has its processor, keeps all behind it waiting. So a pass
//! waits outside, without a ticket, while somebody is in line: then the line is short, and mostly awake.
//!
//! To sleep, to wake and to peek are no steps of the rule: they take no seat and tell nothing, so only a look shows that a
//! ticket is served. A wake too many costs a look, and one too few at most the longest sleep.
ghost use Rattle.std.specs.Prelude.{◌≡◌, ◌<◌};
ghost use Rattle.vx_gate.specs.Places.{IsTable};

use crate::acts::Kept;
use crate::holding::{OUTSIDE, Room, SERVING, TICKET};
use std::hint;
use std::sync::Wait;
use std::time::Duration;

// What the word that is slept on outside the line has for ever.
const CLOSED: u32 = 0;

// The kernel compares a word by the 32 low bits.
const COMPARED: u64 = 1 << 32;

// Looks of a pass outside the line before it sleeps there, some 100 microseconds: in less the line is mostly empty for a moment.
const LOOKS_OUTSIDE: u32 = 3_000;

// Looks behind each sleep there, some 10 microseconds: beside somebody who takes turn after turn a single one would mostly find that
// one in line, and in these there is a moment between two turns.
const LOOKS_BEHIND_SLEEP: u32 = 300;

// Sleeps of a pass outside the line. After them it draws a ticket, however long the line is: so it waits for others no more.
const SLEEPS_OUTSIDE: u32 = 50;

// The longest sleep outside the line, in milliseconds.
const LONGEST_SLEEP: u64 = 1;

// Looks of a pass in line before it sleeps, some 30 microseconds: a turn is mostly shorter, and a sleep dearer.
const LOOKS_IN_LINE: u32 = 1_000;

// Of so many turns that leave nobody in line one wakes who sleeps outside, since nothing shows whether somebody does.
const QUIET_TURNS: u64 = 16;

// How many tickets that were drawn aren't served yet, where this one is.
fn in_line<K: Kept>(room: &Room<K>, served: u64) -> u64
    requires { IsTable room.now.table_id }
{
    room.peek(TICKET).wrapping_sub(served)
}

// Whether nobody is in line at one of so many looks.
fn is_free<K: Kept>(room: &Room<K>, looks: u32) -> bool
    requires { IsTable room.now.table_id }
{
    for _ in 0..looks {
        if in_line(room, room.peek(SERVING)) == 0 {
            return true;
        }
        hint::spin_loop();
    }
    false
}

// Waits outside until nobody is in line, or for as long as a pass waits there.
pub(crate) fn stay_outside<K: Kept, R: Wait>(rt: &R, room: &Room<K>)
    requires { IsTable room.now.table_id }
{
    let mut looks = LOOKS_OUTSIDE;
    for _ in 0..SLEEPS_OUTSIDE {
        if is_free(room, looks) {
            return;
        }
        room.park_timeout(rt, OUTSIDE, CLOSED, Duration::from_millis(LONGEST_SLEEP));
        looks = LOOKS_BEHIND_SLEEP;
    }
}

// Lets some time pass after a look that found another ticket served, and returns the number of looks so far.
pub(crate) fn pause<K: Kept, R: Wait>(rt: &R, room: &Room<K>, served: u64, looks: u32) -> u32
    requires { IsTable room.now.table_id }
{
    if looks < LOOKS_IN_LINE {
        hint::spin_loop();
        return looks + 1;
    }
    // The kernel compares the word with what was seen, so a turn that ends meanwhile isn't missed.
    room.park(rt, SERVING, (served % COMPARED) as u32);
    looks
}

// Wakes who sleeps in line, now that this ticket is served, or now and then, where nobody is in line, one who sleeps outside.
pub(crate) fn wake<K: Kept>(room: &Room<K>, served: u64)
    requires { IsTable room.now.table_id }
{
    if in_line(room, served) > 0 {
        room.wake_all(SERVING);
    } else if served % QUIET_TURNS == 0 {
        room.wake_one(OUTSIDE);
    }
}
