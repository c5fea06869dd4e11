//! Changes of what hangs on the simulated bus, as acts on the core.
ghost use Rattle.std.specs.Prelude.{◌≡◌, ◌≤◌, true};
ghost use Rattle.vx_488.specs.Address.{is_bus_address};
ghost use Rattle.vx_sim.specs.Occupants.{Table, Boxed};

use std::alloc::Global;
use vx_488::{Addr, Tweak};
use vx_inst::Instrument;
use vx_sim::{Attach, SimBus};
use vx_table::TableInst;

/// Attaches a table instrument, which is taken out of here, at an address whose parts are at most 30. Where it can't stand
/// there it is dropped.
#[derive(Drop)]
pub struct AttachTable {
    at: Addr,
    inst: Option<TableInst>,
    ghost plain: { is_bus_address at ≡ true },
}

impl AttachTable {
    pub fn new(at: Addr, inst: TableInst) -> AttachTable
        requires { is_bus_address at ≡ true }
        ensures at { result.at ≡ at }
        ensures inst { result.inst ≡ Some inst }
    {
        AttachTable {
            at,
            inst: Some(inst),
        }
    }
}

impl<I: Instrument> Tweak<SimBus<I>> for AttachTable {
    ghost use Rattle.std.specs.Prelude.{option_map};
    ghost use Rattle.vx_sim.specs.Occupants.{Table};
    ghost use Rattle.vx_player.specs.Tweaking.{AttachesOne};

    type Answer = Option<Attach>;

    ghost changes = { λ act old answer after new. AttachesOne act.at (option_map (λ t. Table t) act.inst) old answer new };

    fn apply(&mut self, bus: &mut SimBus<I>) -> Option<Attach> {
        match self.inst.take() {
            None => None,
            Some(inst) => match bus.attach_table(self.at, inst) {
                Ok(()) => None,
                Err(refused) => Some(refused.why),
            },
        }
    }
}

/// Attaches any other instrument in the same way.
#[derive(Drop)]
pub struct AttachSpare<I: Instrument> {
    at: Addr,
    inst: Option<I>,
    ghost plain: { is_bus_address at ≡ true },
}

impl<I: Instrument> AttachSpare<I> {
    pub fn new(at: Addr, inst: I) -> AttachSpare<I>
        requires { is_bus_address at ≡ true }
        ensures at { result.at ≡ at }
        ensures inst { result.inst ≡ Some inst }
    {
        AttachSpare {
            at,
            inst: Some(inst),
        }
    }
}

impl<I: Instrument> Tweak<SimBus<I>> for AttachSpare<I> {
    ghost use Rattle.std.specs.Prelude.{option_map};
    ghost use Rattle.vx_sim.specs.Occupants.{Boxed, handed_in};
    ghost use Rattle.vx_player.specs.Tweaking.{AttachesOne};

    type Answer = Option<Attach>;

    ghost changes = { λ act old answer after new. AttachesOne act.at (option_map (λ i. Boxed (handed_in (λ j. I.behaves j) (λ j. I.nature j) i)) act.inst) old answer new };

    fn apply(&mut self, bus: &mut SimBus<I>) -> Option<Attach> {
        match self.inst.take() {
            None => None,
            Some(inst) => match bus.attach_box(self.at, inst) {
                Ok(()) => None,
                Err(refused) => Some(refused.why),
            },
        }
    }
}

/// Takes the instrument at an address, whose parts are at most 30, off the bus, and says whether there was one.
#[derive(Clone, Copy)]
pub struct Pull {
    at: Addr,
    ghost plain: { is_bus_address at ≡ true },
}

impl Pull {
    pub fn new(at: Addr) -> Pull
        requires { is_bus_address at ≡ true }
        ensures { result.at ≡ at }
    {
        Pull { at }
    }
}

impl<I: Instrument> Tweak<SimBus<I>> for Pull {
    ghost use Rattle.std.specs.Prelude.{◌≡◌};
    ghost use Rattle.vx_sim.specs.Attaching.{without_place};
    ghost use Rattle.vx_player.specs.Tweaking.{ChangesAt};

    type Answer = bool;

    ghost changes = { λ act old answer after new. ChangesAt act.at (λ o n. n ≡ without_place act.at o) old answer new };

    fn apply(&mut self, bus: &mut SimBus<I>) -> bool {
        bus.pull(self.at).is_ok()
    }
}

/// Sets the status byte of the instrument at an address, and says whether there is one.
#[derive(Clone, Copy)]
pub struct SetStatus {
    pub at: Addr,
    pub b: u8,
}

impl<I: Instrument> Tweak<SimBus<I>> for SetStatus {
    ghost use Rattle.vx_sim.specs.Attaching.{IsSet};
    ghost use Rattle.vx_player.specs.Tweaking.{ChangesAt};

    type Answer = bool;

    ghost changes = { λ act old answer after new. ChangesAt act.at (IsSet act.at act.b) old answer new };

    fn apply(&mut self, bus: &mut SimBus<I>) -> bool {
        bus.set_status(self.at, self.b).is_ok()
    }
}

/// Makes the n-th moving call of the bus from now fail, n being at least 1.
#[derive(Clone, Copy)]
pub struct FailAfter {
    n: u32,
    ghost counted: { 1 ≤ n },
}

impl FailAfter {
    pub fn new(n: u32) -> FailAfter
        requires { 1 ≤ n }
        ensures { result.n ≡ n }
    {
        FailAfter { n }
    }
}

impl<I: Instrument> Tweak<SimBus<I>> for FailAfter {
    ghost use Rattle.std.specs.Prelude.{◌≡◌, Some};

    type Answer = ();

    ghost changes = { λ act old answer after new. new ≡ record old { failing = Some act.n } };

    fn apply(&mut self, bus: &mut SimBus<I>) {
        bus.fail_after(self.n);
    }
}
