//! Laws of a policy's text, of its verdicts, and of what is read of replies and device texts, each the contract of a function that
//! does nothing.
ghost use Rattle.vx_policy.specs.Laws.{OneReading, FirstDecides, NoneDenies, MadeRead, DoneRead, NamedAlike};

use vx_codec::answered_again;

/// A text says no two lists of rules.
pub fn one_reading()
    ensures { OneReading }
{}

/// The first rule that matches decides, and where none does the call is denied.
pub fn one_verdict()
    ensures first { FirstDecides }
    ensures none { NoneDenies }
{}

/// What is read of the record of a reply is what the reply tells: of a create_link the link that it made, of a destroy_link
/// whether it has no error.
pub fn replies_read()
    ensures made { MadeRead }
    ensures done { DoneRead }
{
    answered_again();
}

/// A device text that names a target on a gateway, whatever its own address, names the same to the rules, which tell devices
/// from one another and not from the gateway.
pub fn texts_name()
    ensures { NamedAlike }
{}
