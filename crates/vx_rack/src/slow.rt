ghost use Rattle.std.specs.Prelude.{◌≡◌, true, [], ◌∷◌, ◌++◌, codes, IfOk};
ghost use Rattle.vx_inst.specs.declared.done.Done.TheVariants.{Took, Gave, Polled, Cleared, Triggered, ToLocal, StatusSet, Told};
ghost use Rattle.vx_inst.specs.Behavior.{after};
ghost use Rattle.vx_inst.specs.Laws.{takes_byte, gives_byte, IsInstSound, InstTakes, InstGives, status_byte, IsInstPolled, IsCleared, IsTriggered, IsInstTold, with_status};
ghost use Rattle.vx_inst.specs.Shared.{after_poll, after_clear};
ghost use Rattle.vx_rack.specs.Slows.{fresh_slow, slow_with_seen, slow_after_take, slow_after_give, slow_after_moment, slow_behavior};

use crate::NoMemory;
use std::alloc::Global;
use std::marker::Model;
use vx_inst::{Body, Instrument};

/// An instrument that gives back each message that it is sent, and after each byte that it takes or gives isn't ready until
/// a moment later than the last one that it was told.
#[derive(Drop)]
pub struct Slow {
    body: Body,
    ready: bool,
    // milliseconds
    told: u64,
}

impl Model for Slow {
    ghost use Rattle.vx_rack.specs.Slows.{SlowState};

    ghost Value = { SlowState };

    ghost view = { λ s. record { seen = record s.body { ready = s.ready }; told = s.told } };

    ghost use Rattle.std.specs.Prelude.{◌≡◌, true};

    ghost invariant = { λ s. s.body.ready ≡ true };
}

impl Slow {
    /// One that is ready, with nothing taken and nothing to give, at moment 0. Its room is made here.
    pub fn new(alloc: Global) -> Result<Slow, NoMemory>
        ensures { IfOk result (λ slow. slow ≡ fresh_slow) }
    {
        let Ok(body) = Body::new(alloc) else {
            return Err(NoMemory);
        };
        Ok(Slow {
            body,
            ready: true,
            told: 0,
        })
    }
}

impl Instrument for Slow {
    ghost behaves = { slow_behavior };

    ghost nature = { λ s. codes "slow" ++ s.told ∷ [] };

    fn can_take(&self) -> bool {
        self.body.can_take() && self.ready
    }

    /// Takes a byte, and isn't ready then. At END the message is the reply.
    fn take(&mut self, b: u8, end: bool)
        requires { takes_byte self.old.seen ≡ true }
        ensures rule { self.new ≡ slow_after_take self.old b end }
        ensures takes { InstTakes self.old.seen b end self.new.seen }
        ensures does { slow_behavior self.new ≡ after (Took b end) (slow_behavior self.old) }
        ensures sound { IsInstSound self.new.seen }
    {
        self.body.take_echoing(b, end);
        self.ready = false;
    }

    fn can_give(&self) -> bool {
        self.body.can_give() && self.ready
    }

    /// Gives the next byte, and whether END stands on it, and isn't ready then.
    fn give(&mut self) -> (u8, bool)
        requires { gives_byte self.old.seen ≡ true }
        ensures gives { InstGives self.old.seen (record { value = result.0; end = result.1 }) self.new.seen }
        ensures rule { self.new ≡ slow_after_give self.old }
        ensures does { slow_behavior self.new ≡ after Gave (slow_behavior self.old) }
        ensures sound { IsInstSound self.new.seen }
    {
        let given = self.body.give();
        self.ready = false;
        given
    }

    /// Gives its status byte for a serial poll. It is as ready as before.
    fn poll(&mut self) -> u8
        ensures status { result ≡ status_byte self.old.seen }
        ensures polled { IsInstPolled self.old.seen self.new.seen }
        ensures rule { self.new ≡ slow_with_seen self.old (after_poll self.old.seen) }
        ensures does { slow_behavior self.new ≡ after Polled (slow_behavior self.old) }
        ensures sound { IsInstSound self.new.seen }
    {
        self.body.poll()
    }

    fn requests(&self) -> bool {
        self.body.requests()
    }

    /// Forgets what it took and what it has to give. It is as ready as before.
    fn clear(&mut self)
        ensures cleared { IsCleared self.old.seen self.new.seen }
        ensures rule { self.new ≡ slow_with_seen self.old (after_clear self.old.seen) }
        ensures does { slow_behavior self.new ≡ after Cleared (slow_behavior self.old) }
        ensures sound { IsInstSound self.new.seen }
    {
        self.body.clear();
    }

    /// Does nothing.
    fn trigger(&mut self)
        ensures triggered { IsTriggered self.old.seen self.new.seen }
        ensures rule { self.new ≡ self.old }
        ensures does { slow_behavior self.new ≡ after Triggered (slow_behavior self.old) }
        ensures sound { IsInstSound self.new.seen }
    {
        self.body.stay();
    }

    fn local(&mut self)
        ensures same { self.new ≡ self.old }
        ensures does { slow_behavior self.new ≡ after ToLocal (slow_behavior self.old) }
        ensures sound { IsInstSound self.new.seen }
    {
        self.body.stay();
    }

    fn set_status(&mut self, b: u8)
        ensures set { self.new ≡ slow_with_seen self.old (with_status self.old.seen b) }
        ensures does { slow_behavior self.new ≡ after (StatusSet b) (slow_behavior self.old) }
        ensures sound { IsInstSound self.new.seen }
    {
        self.body.set_status(b);
    }

    /// Tells it a moment, in milliseconds: one later than the last makes it ready.
    fn moment(&mut self, now: u64)
        ensures told { IsInstTold self.old.seen self.new.seen }
        ensures rule { self.new ≡ slow_after_moment self.old now }
        ensures does { slow_behavior self.new ≡ after (Told now) (slow_behavior self.old) }
        ensures sound { IsInstSound self.new.seen }
    {
        self.body.stay();
        self.ready = self.ready || now > self.told;
        self.told = self.told.max(now);
    }
}
