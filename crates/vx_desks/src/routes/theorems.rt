//! Laws of the numbers of links and of the number of buses, as contracts of functions that do nothing: a caller that cites a law calls its
//! function.
ghost use Rattle.vx_desks.specs.CountLaws.{FourLaw, UnservedTextLaw, UnservedLaw};
ghost use Rattle.vx_desks.specs.Given.{LinksLaw, OnceLaw};
ghost use Rattle.vx_group.specs.Laws.{ClaimsOfGroupsLaw, OwnedLaw};

use vx_488::Bus;
use vx_group::{claims_law, owned_law};
use vx_rules::numbers_given_once;

/// What holds of the histories of four buses: all that is claimed of each; the calls of a connection are made by one pass alone; each
/// number that one gives to a link has a number over all buses, and no number is given twice.
pub fn fleet_law()
    ensures claims { ClaimsOfGroupsLaw }
    ensures owned { OwnedLaw }
    ensures links { LinksLaw }
    ensures once { OnceLaw }
{
    claims_law();
    owned_law();
    numbers_given_once();
}

/// To a fleet of four buses each bus that a device text or the number of a link names is one that it serves.
pub fn four_law()
    ensures { FourLaw }
{}

/// A create_link whose device text names a bus that a fleet doesn't serve is answered by error 3, without a bus. To the history of such a
/// bus the messages that the fleet served added no group.
pub fn fewer_law<B: Bus>()
    ensures texts { UnservedTextLaw }
    ensures histories { UnservedLaw B.Bus }
{}
