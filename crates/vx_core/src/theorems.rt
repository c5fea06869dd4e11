//! Laws of cores and their histories. These functions do nothing: their contracts are what they are for, and a caller that cites a
//! law calls its function.
ghost use Rattle.vx_core.specs.Laws.{BecameOnLaw};

use vx_488::Bus;
use vx_group::stands_law;

/// A core that became of a first one by a history goes on with it: behind events that are allowed and steps of its bus it became of
/// the same by the history and the group of these events and steps.
pub fn became_law<B: Bus>()
    ensures { BecameOnLaw B.means B.through }
{
    stands_law();
}
