//! The bus.

ghost use Rattle.std.specs.Prelude.{◌≡◌, List, [], IfOk};
ghost use Rattle.vx_488.specs.Means.{first_means};
ghost use Rattle.vx_sim.specs.Attaching.{IsAttached};
ghost use Rattle.vx_sim.specs.Occupants.{Seated, Boxed, handed_in};
ghost use Rattle.vx_sim.specs.SimState.{first_state};
ghost use Rattle.vx_lone.specs.Lone.{place, IsOneOf};

use std::alloc::Global;
use std::marker::{Brand, Model, PhantomData};
use vx_488::{Addr, Bus, GetOut, Line, Many, ManyGot, Move, Transfer, Wire};
use vx_inst::Instrument;
use vx_sim::{NoMemory, SimBus};

/// The address of the one instrument.
const PLACE: Addr = Addr { p: 5, s: None };

/// Which instruments a rack has, as they are handed in. No value of it is made: a call at [`Brand`] picks them from its arguments.
pub trait Racked {
    ghost rack: { List Seated };
}

impl Racked for Brand {
    ghost rack = { [] };
}

/// A simulated bus on which one instrument of the rack of `M` stands, at primary address 5, and nothing else.
#[derive(Drop)]
pub struct LoneBus<I: Instrument, M: Racked> {
    bus: SimBus<I>,
    rack: PhantomData<M>,
}

impl<I: Instrument, M: Racked> Model for LoneBus<I, M> {
    ghost use Rattle.vx_sim.specs.SimState.{SimState};
    ghost use Rattle.vx_lone.specs.Lone.{StandsAlone};

    ghost Value = { SimState };

    ghost view = { λ b. b.bus };

    ghost invariant = { λ b. StandsAlone M.rack b.bus.bench };
}

impl<I: Instrument, M: Racked> LoneBus<I, M> {
    /// A bus that nobody has asked yet, with this instrument of the rack on it. Its room is made here.
    #[tactic(auto, using(crate::proofs::Stays::attached_alone))]
    pub fn new(alloc: Global, inst: I) -> Result<LoneBus<I, M>, NoMemory>
        requires { IsOneOf M.rack (handed_in (λ i. I.behaves i) (λ i. I.nature i) inst) }
        ensures fresh { IfOk result (λ bus. bus.means ≡ first_means) }
        ensures stands { IfOk result (λ bus. IsAttached place (Boxed (handed_in (λ i. I.behaves i) (λ i. I.nature i) inst)) first_state bus) }
    {
        let mut bus = SimBus::new(alloc)?;
        match bus.attach_box(PLACE, inst) {
            Ok(()) => Ok(LoneBus {
                bus,
                rack: PhantomData,
            }),
            Err(_) => Err(NoMemory),
        }
    }
}

impl<I: Instrument, M: Racked> Bus for LoneBus<I, M> {
    ghost use Rattle.vx_sim.specs.Bench.{some_asks, some_refuses};
    ghost use Rattle.vx_lone.specs.Lone.{IsLoneStep};

    ghost means = { λ s. s.means };

    ghost srq_level = { λ s. some_asks s.bench };

    ghost ndac_level = { λ s. some_refuses s.means.wire s.bench };

    ghost through = { IsLoneStep M.rack };

    #[tactic(auto, using(crate::proofs::Stays::step_stays, crate::proofs::Stays::step_lone))]
    fn command(&mut self, b: u8) -> Move {
        self.bus.command(b)
    }

    #[tactic(auto, using(crate::proofs::Stays::step_stays, crate::proofs::Stays::step_lone))]
    fn put(&mut self, b: u8, end: bool) -> Move {
        self.bus.put(b, end)
    }

    #[tactic(auto, using(crate::proofs::Stays::step_stays, crate::proofs::Stays::step_lone))]
    fn get(&mut self) -> GetOut {
        self.bus.get()
    }

    #[tactic(auto, using(crate::proofs::Stays::walk_stays, crate::proofs::Stays::walk_lone))]
    fn put_many(&mut self, bytes: &[u8], end: bool) -> Many {
        self.bus.put_many(bytes, end)
    }

    #[tactic(auto, using(crate::proofs::Stays::walk_stays, crate::proofs::Stays::walk_lone))]
    fn get_many(&mut self, room: &mut [u8], stop: Option<u8>) -> ManyGot {
        self.bus.get_many(room, stop)
    }

    #[tactic(auto, using(crate::proofs::Stays::step_stays, crate::proofs::Stays::step_lone))]
    fn line(&mut self, l: Line, on: bool) -> Move {
        self.bus.line(l, on)
    }

    #[tactic(auto, using(crate::proofs::Stays::step_stays, crate::proofs::Stays::step_lone))]
    fn ifc(&mut self) -> Move {
        self.bus.ifc()
    }

    #[tactic(auto, using(crate::proofs::Stays::step_stays, crate::proofs::Stays::step_lone))]
    fn own(&mut self, address: u8) -> Move {
        self.bus.own(address)
    }

    fn srq(&self) -> bool {
        self.bus.srq()
    }

    fn ndac(&self) -> bool {
        self.bus.ndac()
    }

    fn moment(&mut self, now: u64) {
        self.bus.moment(now);
    }

    #[tactic(auto, using(crate::proofs::Stays::step_stays, crate::proofs::Stays::step_lone))]
    fn cut(&mut self) {
        self.bus.cut();
    }

    fn moves(&self) -> &[Transfer] {
        self.bus.moves()
    }

    fn wire(&self) -> Wire {
        self.bus.wire()
    }
}
