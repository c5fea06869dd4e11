//! A client over a link to a gateway. These functions do nothing: their contracts are what they are for, and a caller that
//! cites a law calls its function.

ghost use Rattle.vx_loop.specs.Resting.{FirstLaw, CallLaw, RestLaw};

/// When `through_client` may be called so that its clause says what was heard. A new client over a new link stands for
/// whole records, each answered, and so does that client after each of its calls that doesn't leave it spent. Such a client
/// is between calls: it keeps no byte that came and isn't spent, and its link has no pending call, no part of a record and
/// no byte of a reply left to give.
pub fn resting_law()
    ensures first { FirstLaw }
    ensures call { CallLaw }
    ensures rests { RestLaw }
{}
