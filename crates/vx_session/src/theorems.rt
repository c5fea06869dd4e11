//! Laws of the connections that live behind a history, and of their links. These functions do nothing: their contracts are what they are for, and a
//! caller that cites a law calls its function.
ghost use Rattle.vx_core.specs.CoreState.{CoreState};
ghost use Rattle.vx_session.specs.Origin.{origin};
ghost use Rattle.vx_session.specs.RoomLaws.{CountsLaw, FewLaw, RoomLaw};
ghost use Rattle.vx_session.specs.LinkLaws.{CalledLinksLaw};
ghost use Rattle.vx_session.specs.TurnLaws.{JoinedLaw, RefusedLaw, LeftLaw, ClearFirstLaw, ClearLaw, NeverFullLaw};

use vx_488::Bus;
use vx_group::phase_law;

/// How many connections live behind a history, and which number comes next, by how many came up and went down in it. Where as
/// many went down as came up, and fewer than 2,147,483,647 came up, there is room for one more of each role.
pub fn room_law()
    ensures counts { CountsLaw }
    ensures few { FewLaw }
    ensures room { RoomLaw }
{}

/// What the turns by which a connection comes up, is refused, or goes add to how many a pass has had come up and go down. Where a
/// pass is the only one of its gate, and each of its connections went down again, no connect is refused as full, unless
/// 2,147,483,647 came up before.
pub fn turns_law<B: Bus>()
    ensures joined { (first : CoreState B) → JoinedLaw (origin B.Bus first) }
    ensures refused { (first : CoreState B) → RefusedLaw (origin B.Bus first) }
    ensures left { (first : CoreState B) → LeftLaw (origin B.Bus first) }
    ensures first { ClearFirstLaw }
    ensures clear { ClearLaw }
    ensures never_full { (first : CoreState B) → NeverFullLaw (origin B.Bus first) }
{}

/// What a call leaves of its connection, by the groups that it added: the connection is idle, and its links are those that the call's
/// reply tells. A create_link without an error made one, of a number up to 2^30 - 1, and its device text names a target; a destroy_link
/// without an error destroyed one. The reply is the one in its record.
pub fn called_law<B: Bus>()
    ensures { (first : CoreState B) → CalledLinksLaw (origin B.Bus first) }
{
    phase_law();
}
