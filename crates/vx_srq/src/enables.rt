ghost use Rattle.std.specs.Prelude.{◌≡◌, ◌<◌, ◌==◌, ◌+◌, nat_lt, map, filter, not, length, vec_capacity};
ghost use Rattle.std.specs.List.{position};
ghost use Rattle.vx_srq.specs.Shown.{enable_shown};
ghost use Rattle.vx_rules.specs.SrqState.{enable_put, LinksRise};

use arrayvec::ArrayVec;
use vx_calls::Handle;

/// What a link's device_enable_srq left: the connection that the link belongs to, whether it is enabled, and its handle.
#[derive(Drop)]
pub(crate) struct EnableRow {
    pub(crate) lid: u32,
    pub(crate) conn: u32,
    pub(crate) on: bool,
    pub(crate) handle: Handle,
}

/// The same handle once more.
pub(crate) fn copied(handle: &Handle) -> Handle
    ensures { result.bytes.items ≡ handle.now.bytes.items }
{
    let mut bytes = ArrayVec::new();
    bytes
        .try_extend_from_slice(handle.bytes.as_slice())
        .unwrap();
    Handle { bytes }
}

/// Puts the row at its place in the order of links, in place of the link's earlier one. There must be room.
pub(crate) fn put(rows: &mut Vec<EnableRow>, row: EnableRow)
    requires rising { LinksRise (map enable_shown rows.old.items) }
    requires room { length (filter (λ r. not (r.lid == row.lid)) rows.old.items) < vec_capacity rows.old }
    ensures rows { map enable_shown rows.new.items ≡ enable_put (enable_shown row) (map enable_shown rows.old.items) }
    ensures len { length rows.new.items ≡ length (filter (λ r. not (r.lid == row.lid)) rows.old.items) + 1 }
    ensures room { vec_capacity rows.new ≡ vec_capacity rows.old }
{
    let lid = row.lid;
    rows.retain(|other| other.lid != lid);
    let at = first_above(rows, lid).unwrap_or(rows.len());
    rows.insert(at, row).unwrap();
}

/// The place of the first row whose link has a greater number.
fn first_above(rows: &[EnableRow], lid: u32) -> Option<usize>
    ensures { result ≡ position (λ r. nat_lt lid r.lid) rows.now }
{
    rows.iter().position(|row| row.lid > lid)
}
