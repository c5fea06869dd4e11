//! Laws of what traces tell. These functions do nothing: their contracts are what they are for.
ghost use Rattle.vx_history.specs.Laws.{OneHistoryLaw, OneFrontLaw, LegalSoFarLaw, LawfulLaw, ReplyLaw, ReplyIsLaw};

use vx_codec::answered_again;
use vx_trace::one_text2;

/// The bytes of a trace tell one thing, and so do those that a longer trace begins with.
pub fn one_history()
    ensures whole { OneHistoryLaw }
    ensures front { OneFrontLaw }
{
    one_text2();
}

/// The events of lines that are all taken linearize to a history of the gateway of one thread, which ends in the state that is kept. So the
/// history of a whole trace is legal.
pub fn lawful_histories()
    ensures so_far { LegalSoFarLaw }
    ensures whole { LawfulLaw }
{}

/// A reply's record is read as that reply, and no other record is.
pub fn replies_are_read()
    ensures read { ReplyLaw }
    ensures is { ReplyIsLaw }
{
    answered_again();
}
