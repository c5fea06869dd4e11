ghost use Rattle.std.specs.Prelude.{◌≡◌, true, [], ◌∷◌, ◌++◌, codes, IfOk};
ghost use Rattle.vx_inst.specs.declared.done.Done.TheVariants.{Took, Gave, Polled, Cleared, Triggered, ToLocal, StatusSet, Told};
ghost use Rattle.vx_inst.specs.Behavior.{after};
ghost use Rattle.vx_inst.specs.Laws.{takes_byte, gives_byte, IsInstSound, InstTakes, InstGives, status_byte, IsInstPolled, IsCleared, IsTriggered, IsInstTold, with_status};
ghost use Rattle.vx_inst.specs.Shared.{after_give, after_poll, after_clear};
ghost use Rattle.vx_rack.specs.Meters.{fresh_meter, finished, with_seen, after_reading, asks_reading, meter_after_take, meter_behavior};

use crate::NoMemory;
use std::alloc::Global;
use std::marker::Model;
use vx_inst::{Body, Instrument};
use vx_text::{DIGITS_MAX, number_line};

/// An instrument that takes a reading at each trigger and for each message `READ?`, which may have a line feed behind it.
/// The reply is the reading's number in decimal digits, from 1 on, and a line feed. The number stays at the greatest `u64`.
#[derive(Drop)]
pub struct Meter {
    body: Body,
    count: u64,
}

impl Model for Meter {
    ghost use Rattle.vx_rack.specs.Meters.{MeterState};

    ghost Value = { MeterState };

    ghost view = { λ m. record { seen = m.body; count = m.count } };
}

impl Meter {
    /// One that took no reading yet. Its room is made here.
    pub fn new(alloc: Global) -> Result<Meter, NoMemory>
        ensures { IfOk result (λ meter. meter ≡ fresh_meter) }
    {
        let Ok(body) = Body::new(alloc) else {
            return Err(NoMemory);
        };
        Ok(Meter { body, count: 0 })
    }

    /// Ends the message that it took, which has its reply where it asks for a reading.
    #[inline(never)]
    fn finish(&mut self)
        ensures finished { self.new ≡ finished self.old }
        ensures sound { IsInstSound self.new.seen }
    {
        let asked = asks_reading(self.body.message());
        self.body.forget();
        if asked {
            self.read();
        }
    }

    /// Takes a reading, and replies its number.
    fn read(&mut self)
        ensures read { self.new ≡ after_reading self.old }
        ensures sound { IsInstSound self.new.seen }
    {
        self.count = self.count.saturating_add(1);
        self.body
            .reply(number_line(b"", self.count, &mut [0; LINE_MAX]));
    }
}

/// The longest line of a number: the digits of the greatest `u64` and a line feed.
const LINE_MAX: usize = DIGITS_MAX + 1;

/// Whether a message asks for a reading.
fn asks_reading(message: &[u8]) -> bool
    ensures { result ≡ asks_reading message.now }
{
    message == b"READ?".as_slice() || message == b"READ?\n".as_slice()
}

impl Instrument for Meter {
    ghost behaves = { meter_behavior };

    ghost nature = { λ m. codes "meter" ++ m.count ∷ [] };

    fn can_take(&self) -> bool {
        self.body.can_take()
    }

    /// Takes a byte. At END a message that asks for a reading has its reply.
    fn take(&mut self, b: u8, end: bool)
        requires { takes_byte self.old.seen ≡ true }
        ensures rule { self.new ≡ meter_after_take self.old b end }
        ensures takes { InstTakes self.old.seen b end self.new.seen }
        ensures does { meter_behavior self.new ≡ after (Took b end) (meter_behavior self.old) }
        ensures sound { IsInstSound self.new.seen }
    {
        self.body.keep(b);
        if end {
            self.finish();
        }
    }

    fn can_give(&self) -> bool {
        self.body.can_give()
    }

    fn give(&mut self) -> (u8, bool)
        requires { gives_byte self.old.seen ≡ true }
        ensures gives { InstGives self.old.seen (record { value = result.0; end = result.1 }) self.new.seen }
        ensures rule { self.new ≡ with_seen self.old (after_give self.old.seen) }
        ensures does { meter_behavior self.new ≡ after Gave (meter_behavior self.old) }
        ensures sound { IsInstSound self.new.seen }
    {
        self.body.give()
    }

    fn poll(&mut self) -> u8
        ensures status { result ≡ status_byte self.old.seen }
        ensures polled { IsInstPolled self.old.seen self.new.seen }
        ensures rule { self.new ≡ with_seen self.old (after_poll self.old.seen) }
        ensures does { meter_behavior self.new ≡ after Polled (meter_behavior self.old) }
        ensures sound { IsInstSound self.new.seen }
    {
        self.body.poll()
    }

    fn requests(&self) -> bool {
        self.body.requests()
    }

    /// Forgets what it took and what it has to give. The next reading has the number that it had.
    fn clear(&mut self)
        ensures cleared { IsCleared self.old.seen self.new.seen }
        ensures rule { self.new ≡ with_seen self.old (after_clear self.old.seen) }
        ensures does { meter_behavior self.new ≡ after Cleared (meter_behavior self.old) }
        ensures sound { IsInstSound self.new.seen }
    {
        self.body.clear();
    }

    /// Takes a reading.
    fn trigger(&mut self)
        ensures triggered { IsTriggered self.old.seen self.new.seen }
        ensures rule { self.new ≡ after_reading self.old }
        ensures does { meter_behavior self.new ≡ after Triggered (meter_behavior self.old) }
        ensures sound { IsInstSound self.new.seen }
    {
        self.read();
    }

    fn local(&mut self)
        ensures same { self.new ≡ self.old }
        ensures does { meter_behavior self.new ≡ after ToLocal (meter_behavior self.old) }
        ensures sound { IsInstSound self.new.seen }
    {
        self.body.stay();
    }

    fn set_status(&mut self, b: u8)
        ensures set { self.new ≡ with_seen self.old (with_status self.old.seen b) }
        ensures does { meter_behavior self.new ≡ after (StatusSet b) (meter_behavior self.old) }
        ensures sound { IsInstSound self.new.seen }
    {
        self.body.set_status(b);
    }

    /// Does nothing.
    fn moment(&mut self, _now: u64)
        ensures told { IsInstTold self.old.seen self.new.seen }
        ensures rule { self.new ≡ self.old }
        ensures does { meter_behavior self.new ≡ after (Told _now) (meter_behavior self.old) }
        ensures sound { IsInstSound self.new.seen }
    {
        self.body.stay();
    }
}
