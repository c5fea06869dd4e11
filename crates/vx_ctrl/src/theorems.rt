//! Laws of walks of a bus. These functions do nothing: their contracts are what they are for, and a caller that cites a
//! law calls its function.
ghost use Rattle.vx_ctrl.specs.Laws.{WalkAppendsLaw, WentLaw};

use vx_488::Bus;

/// A walk of a bus over two lists of steps is one over the first, and one over the second from there on.
pub fn walk_appends<B: Bus>()
    ensures { WalkAppendsLaw B.means B.through }
{}

/// What a bus's meaning is after transfers that all went.
pub fn walk_went<B: Bus>()
    ensures { WentLaw B.means B.through }
{}
