ghost use Rattle.std.specs.Prelude.{◌≡◌, true, codes, IfOk};
ghost use Rattle.vx_inst.specs.declared.done.Done.TheVariants.{Took, Gave, Polled, Cleared, Triggered, Told};
ghost use Rattle.vx_inst.specs.Behavior.{after};
ghost use Rattle.vx_inst.specs.Laws.{takes_byte, gives_byte, IsInstSound, InstTakes, InstGives, status_byte, IsInstPolled, IsCleared, IsTriggered, IsInstTold, with_status};
ghost use Rattle.vx_inst.specs.Shared.{fresh, after_give, after_poll, after_clear};
ghost use Rattle.vx_rack.specs.Askers.{asker_after_take, asking, asker_behavior};

use crate::NoMemory;
use std::alloc::Global;
use std::marker::Model;
use vx_inst::{Body, Instrument};

/// An instrument that asks for service at the end of each message and at each trigger, with status byte 16, and never
/// replies.
#[derive(Drop)]
pub struct Asker {
    body: Body,
}

/// Its status byte as it asks for service, with bit 6: a message is available.
const ASKING: u8 = 80;

impl Model for Asker {
    ghost use Rattle.vx_inst.specs.View.{View};

    ghost Value = { View };

    ghost view = { λ a. a.body };
}

impl Asker {
    /// One that doesn't ask yet. Its room is made here.
    pub fn new(alloc: Global) -> Result<Asker, NoMemory>
        ensures { IfOk result (λ asker. asker ≡ fresh) }
    {
        let Ok(body) = Body::new(alloc) else {
            return Err(NoMemory);
        };
        Ok(Asker { body })
    }
}

impl Instrument for Asker {
    ghost behaves = { asker_behavior };

    ghost nature = { λ _. codes "asker" };

    fn can_take(&self) -> bool {
        self.body.can_take()
    }

    /// Takes a byte. At END it asks for service.
    fn take(&mut self, b: u8, end: bool)
        requires { takes_byte self.old ≡ true }
        ensures rule { self.new ≡ asker_after_take self.old b end }
        ensures takes { InstTakes self.old b end self.new }
        ensures does { asker_behavior self.new ≡ after (Took b end) (asker_behavior self.old) }
        ensures sound { IsInstSound self.new }
    {
        if end {
            self.body.forget();
            self.body.set_status(ASKING);
        } else {
            self.body.keep(b);
        }
    }

    fn can_give(&self) -> bool {
        self.body.can_give()
    }

    fn give(&mut self) -> (u8, bool)
        requires { gives_byte self.old ≡ true }
        ensures gives { InstGives self.old (record { value = result.0; end = result.1 }) self.new }
        ensures rule { self.new ≡ after_give self.old }
        ensures does { asker_behavior self.new ≡ after Gave (asker_behavior self.old) }
        ensures sound { IsInstSound self.new }
    {
        self.body.give()
    }

    fn poll(&mut self) -> u8
        ensures status { result ≡ status_byte self.old }
        ensures polled { IsInstPolled self.old self.new }
        ensures rule { self.new ≡ after_poll self.old }
        ensures does { asker_behavior self.new ≡ after Polled (asker_behavior self.old) }
        ensures sound { IsInstSound self.new }
    {
        self.body.poll()
    }

    fn requests(&self) -> bool {
        self.body.requests()
    }

    fn clear(&mut self)
        ensures cleared { IsCleared self.old self.new }
        ensures rule { self.new ≡ after_clear self.old }
        ensures does { asker_behavior self.new ≡ after Cleared (asker_behavior self.old) }
        ensures sound { IsInstSound self.new }
    {
        self.body.clear();
    }

    /// Asks for service.
    fn trigger(&mut self)
        ensures triggered { IsTriggered self.old self.new }
        ensures rule { self.new ≡ asking self.old }
        ensures does { asker_behavior self.new ≡ after Triggered (asker_behavior self.old) }
        ensures sound { IsInstSound self.new }
    {
        self.body.set_status(ASKING);
    }

    fn local(&mut self) {
        self.body.stay();
    }

    fn set_status(&mut self, b: u8) {
        self.body.set_status(b);
    }

    /// Does nothing.
    fn moment(&mut self, _now: u64)
        ensures told { IsInstTold self.old self.new }
        ensures rule { self.new ≡ self.old }
        ensures does { asker_behavior self.new ≡ after (Told _now) (asker_behavior self.old) }
        ensures sound { IsInstSound self.new }
    {
        self.body.stay();
    }
}
