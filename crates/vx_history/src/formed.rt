//! A law of the traces of runs. The function does nothing: its contract is what it is for.
ghost use Rattle.vx_history.specs.Formed.{FormedLaw, FormedLegalLaw, ToldLaw};

use crate::theorems::{lawful_histories, replies_are_read};
use vx_codec::asked_is_spelled;
use vx_rpc::calls_are_spelled;
use vx_trace::one_end2;

/// The trace of a formed run tells its events, which linearize to a legal history. A run is formed where each step makes in the
/// gateway what a step may make, with any levels, holds and faults of the bus.
pub fn formed_runs()
    ensures tells { FormedLaw }
    ensures told { ToldLaw }
    ensures legal { FormedLegalLaw }
{
    one_end2();
    replies_are_read();
    asked_is_spelled();
    calls_are_spelled();
    lawful_histories();
}
