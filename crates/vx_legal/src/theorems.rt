//! The law that joins the player and the checker. The function does nothing: its contract is what it is for.
ghost use Rattle.vx_legal.specs.Joined.{PlaysAreLegal, RunsAreLegal, PlaysAreAnswered};

use vx_history::formed_runs;

/// A script of version 2 that is played to its end is written as a trace that tells a legal history, that of the play's events. So where
/// `play_run` ends with 0 at the word `run`, this is what it wrote of such a script; and where `check_run` is given just that, it answers
/// with 0 and `legal`, or with 5 where memory ran out.
pub fn plays_are_legal()
    ensures plays { PlaysAreLegal }
    ensures runs { RunsAreLegal }
    ensures answered { PlaysAreAnswered }
{
    formed_runs();
}
