//! A law of desks with names. Its function does nothing: its contract is what it is for, and a caller that cites the law calls it.
ghost use Rattle.vx_desks.specs.NameLaws.{NoNamesLaw, NoNamesMeaningLaw, NoNamesSessionLaw, NoNamesLinkLaw};

use vx_io_traits::Link;
use vx_session::Desk;

/// Where the table is empty, each call is what it is, and each message means what it means. So a session, and a whole link, at a desk with names is then one at the desk
/// below, word for word.
pub fn names_law<D: Desk, L: Link>()
    ensures calls { NoNamesLaw }
    ensures messages { NoNamesMeaningLaw }
    ensures sessions { NoNamesSessionLaw D.Desk L.Link }
    ensures links { NoNamesLinkLaw D.Desk L.Link }
{}
