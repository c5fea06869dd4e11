//! Links at any desk.

use std::alloc::Global;
use std::sync::Wait;
use vx_calls::Role;
use vx_memory::MemLink;
use vx_session::{Desk, Linked, Room, serve_link};

/// Serves a core link at a desk, and answers how its work ended.
pub(crate) fn serve_at_desk<R: Wait, D: Desk + Drop>(
    rt: &R,
    alloc: Global,
    desk: D,
    link: &mut MemLink,
    room: &mut Room,
) -> Linked
    requires { D.free desk }
{
    let (_desk, how) = serve_link(rt, alloc, desk, Role::Core, link, room);
    how
}
