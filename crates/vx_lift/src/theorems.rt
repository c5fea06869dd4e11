//! A law of lifts. The function does nothing: its contract is what it is for.
ghost use Rattle.vx_lift.specs.LiftedLines.{LiftedLinesLaw};

use vx_script::within_limit;

/// The lines of a lifted script are the head, and the lines that its lines are lifted to.
pub fn lines_of_lifts()
    ensures { LiftedLinesLaw }
{
    within_limit();
}
