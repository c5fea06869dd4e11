//! Laws of the simulated bus. These functions do nothing: their contracts are what they are for.
ghost use Rattle.vx_sim.specs.Laws.{HeardLaw};

/// Each instrument takes, in order, the bytes that its address hears of the transfers, and no others, on a bus that goes
/// through steps which reach the instruments by bytes alone.
pub fn heard_is_taken()
    ensures { HeardLaw }
{}
