//! The laws that a guarded session stands on.
ghost use Rattle.vx_desks.specs.RuledLaws.{GuardLaws};

use vx_488::Bus;
use vx_group::{claims_law, links_law, owned_law};
use vx_policy::{replies_read, texts_name};
use vx_session::called_law;

/// All of them. This function does nothing: its contract is what it is for.
pub(crate) fn guard_laws<B: Bus>()
    ensures { GuardLaws B.Bus }
{
    claims_law();
    owned_law();
    links_law();
    called_law::<B>();
    replies_read();
    texts_name();
}
