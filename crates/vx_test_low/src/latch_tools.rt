//! An instrument that keeps little, and may tell where it is dropped.

ghost use Rattle.vx_inst.specs.Laws.{IsStatus};

use std::alloc::Global;
use std::sync::Arc;
use std::sync::atomic::{AtomicU64, Ordering};
use vx_inst::Instrument;

/// Counts, where it is dropped.
pub struct Counter {
    pub drops: Arc<AtomicU64, Global>,
}

impl Drop for Counter {
    fn drop(self) {
        let Counter { drops } = self;
        drops.fetch_add(1, Ordering::SeqCst);
    }
}

/// An instrument that keeps a byte until END comes, and has one byte to give from the beginning.
#[derive(Drop)]
pub struct Latch {
    taken: Option<u8>,
    given: Option<u8>,
    stb: u8,
    asks: bool,
    counter: Option<Counter>,
    ghost status: { IsStatus stb },
}

impl Instrument for Latch {
    ghost use Rattle.std.specs.Prelude.{true, map, is_none};
    ghost use Rattle.std.specs.Option.{option_to_list};
    ghost use Rattle.vx_test_low.specs.Toys.{latch_behavior};

    ghost behaves = { λ latch. latch_behavior (record { inbox = option_to_list latch.taken; out = map (λ b. record { value = b; end = true }) (option_to_list latch.given); stb = latch.stb; rqs = latch.asks; ready = is_none latch.taken }) };

    fn can_take(&self) -> bool {
        self.taken.is_none()
    }

    fn take(&mut self, b: u8, end: bool) {
        self.taken = if end { None } else { Some(b) };
    }

    fn can_give(&self) -> bool {
        self.taken.is_none() && self.given.is_some()
    }

    fn give(&mut self) -> (u8, bool) {
        match self.given.take() {
            Some(b) => (b, true),
            None => (0, true),
        }
    }

    fn poll(&mut self) -> u8 {
        let asked = self.asks;
        self.asks = false;
        if asked { self.stb + 64 } else { self.stb }
    }

    fn requests(&self) -> bool {
        self.asks
    }

    fn clear(&mut self) {
        self.taken = None;
        self.given = None;
    }

    fn trigger(&mut self) {
        self.asks = true;
    }

    fn local(&mut self) {}

    fn set_status(&mut self, b: u8) {
        self.stb = b / 128 * 128 + b % 64;
        self.asks = b / 64 % 2 == 1;
    }

    fn moment(&mut self, _now: u64) {}
}

/// A latch that has 10 to give, with this status byte.
pub fn make_latch(stb: u8, counter: Option<Counter>) -> Latch
    requires { IsStatus stb }
{
    Latch {
        taken: None,
        given: Some(10),
        stb,
        asks: false,
        counter,
    }
}
