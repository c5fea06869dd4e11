//! The law of lifts. The function does nothing: its contract is what it is for.
ghost use Rattle.vx_play.specs.LiftLaw.{LiftLaw};

use vx_lift::lines_of_lifts;
use vx_script::{timed_grammar, within_limit};

/// What a script of version 1 is lifted to has a play for each play of the script, with equal events, and the other way round.
pub fn plays_of_lifts()
    ensures { LiftLaw }
{
    lines_of_lifts();
    within_limit();
    timed_grammar();
}
