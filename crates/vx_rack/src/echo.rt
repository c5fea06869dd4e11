ghost use Rattle.std.specs.Prelude.{◌≡◌, true, codes, IfOk};
ghost use Rattle.vx_inst.specs.declared.done.Done.TheVariants.{Took, Gave, Polled, Cleared, Triggered, Told};
ghost use Rattle.vx_inst.specs.Behavior.{after};
ghost use Rattle.vx_inst.specs.Laws.{takes_byte, gives_byte, IsInstSound, InstTakes, InstGives, status_byte, IsInstPolled, IsCleared, IsTriggered, IsInstTold, with_status};
ghost use Rattle.vx_inst.specs.Shared.{fresh, echo_after_take, after_give, after_poll, after_clear};
ghost use Rattle.vx_rack.specs.Echoes.{echo_behavior};

use crate::NoMemory;
use std::alloc::Global;
use std::marker::Model;
use vx_inst::{Body, Instrument};

/// An instrument that gives back each message that it is sent.
#[derive(Drop)]
pub struct Echo {
    body: Body,
}

impl Model for Echo {
    ghost use Rattle.vx_inst.specs.View.{View};

    ghost Value = { View };

    ghost view = { λ e. e.body };
}

impl Echo {
    /// One with nothing taken and nothing to give. Its room is made here.
    pub fn new(alloc: Global) -> Result<Echo, NoMemory>
        ensures { IfOk result (λ echo. echo ≡ fresh) }
    {
        let Ok(body) = Body::new(alloc) else {
            return Err(NoMemory);
        };
        Ok(Echo { body })
    }
}

impl Instrument for Echo {
    ghost behaves = { echo_behavior };

    ghost nature = { λ _. codes "echo" };

    fn can_take(&self) -> bool {
        self.body.can_take()
    }

    /// Takes a byte. At END the message is the reply.
    fn take(&mut self, b: u8, end: bool)
        requires { takes_byte self.old ≡ true }
        ensures rule { self.new ≡ echo_after_take self.old b end }
        ensures takes { InstTakes self.old b end self.new }
        ensures does { echo_behavior self.new ≡ after (Took b end) (echo_behavior self.old) }
        ensures sound { IsInstSound self.new }
    {
        self.body.take_echoing(b, end);
    }

    fn can_give(&self) -> bool {
        self.body.can_give()
    }

    fn give(&mut self) -> (u8, bool)
        requires { gives_byte self.old ≡ true }
        ensures gives { InstGives self.old (record { value = result.0; end = result.1 }) self.new }
        ensures rule { self.new ≡ after_give self.old }
        ensures does { echo_behavior self.new ≡ after Gave (echo_behavior self.old) }
        ensures sound { IsInstSound self.new }
    {
        self.body.give()
    }

    fn poll(&mut self) -> u8
        ensures status { result ≡ status_byte self.old }
        ensures polled { IsInstPolled self.old self.new }
        ensures rule { self.new ≡ after_poll self.old }
        ensures does { echo_behavior self.new ≡ after Polled (echo_behavior self.old) }
        ensures sound { IsInstSound self.new }
    {
        self.body.poll()
    }

    fn requests(&self) -> bool {
        self.body.requests()
    }

    fn clear(&mut self)
        ensures cleared { IsCleared self.old self.new }
        ensures rule { self.new ≡ after_clear self.old }
        ensures does { echo_behavior self.new ≡ after Cleared (echo_behavior self.old) }
        ensures sound { IsInstSound self.new }
    {
        self.body.clear();
    }

    /// Does nothing.
    fn trigger(&mut self)
        ensures triggered { IsTriggered self.old self.new }
        ensures rule { self.new ≡ self.old }
        ensures does { echo_behavior self.new ≡ after Triggered (echo_behavior self.old) }
        ensures sound { IsInstSound self.new }
    {
        self.body.stay();
    }

    fn local(&mut self) {
        self.body.stay();
    }

    fn set_status(&mut self, b: u8) {
        self.body.set_status(b);
    }

    /// Does nothing.
    fn moment(&mut self, _now: u64)
        ensures told { IsInstTold self.old self.new }
        ensures rule { self.new ≡ self.old }
        ensures does { echo_behavior self.new ≡ after (Told _now) (echo_behavior self.old) }
        ensures sound { IsInstSound self.new }
    {
        self.body.stay();
    }
}
