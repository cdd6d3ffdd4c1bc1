//! The mounts of a view in the order of their dests. In a view of many mounts this order serves to find the mount that a path leads to. Each dest has a link to
//! the longest other dest that is a prefix of it. A binary search finds the last dest that does not come after the path. If the links are followed from that
//! dest, the first dest that is a prefix of the path is the longest such dest.

ghost use Rattle.std.specs.Prelude.{◌≡◌, ◌<◌, ◌+◌, true, length, IfOk};
ghost use Rattle.llb_tree.specs.Path.{is_within};
ghost use Rattle.llb_mount.specs.View.{IsView, dests};
ghost use Rattle.llb_mount.specs.Route.{IsRoute};
ghost use Rattle.llb_mount.specs.DestOrder.{dest_of, Rises, HasFirst, IsPlace, Climbs, IsNear, IsOrder, AtRoot};

use crate::fault::Memory;
use crate::shown_tree::Shown;
use llb_tree::Path;
use std::alloc::Global;

// An entry of the list in the order of the dests: the number of a mount, and the index in this list of the longest other dest that is a prefix of the mount's
// dest. The first entry is the root, which has no such other dest.
#[derive(Clone, Copy)]
pub(crate) struct Row {
    mount: usize,
    above: usize,
}

// Returns how many dests do not come after a path, by a binary search.
fn place_of(mounts: &[Shown], rows: &[Row], path: &Path) -> usize
    requires { Rises (dests mounts.now) rows.now }
    ensures { IsPlace (dests mounts.now) rows.now path.now result }
{
    let mut low = 0;
    let mut high = rows.len();
    while low < high {
        let middle = low + (high - low) / 2;
        if path.cmp(&mounts[rows[middle].mount].dest).is_lt() {
            high = middle;
        } else {
            low = middle + 1;
        }
    }
    low
}

// Returns the index in `rows` of the longest dest that is a prefix of a path. This is the first such dest from index `from` along the links: the link of a row,
// `above`, is the index of the longest other dest that is a prefix of the row's dest.
fn nearest(mounts: &[Shown], rows: &[Row], from: usize, path: &Path) -> usize
    requires rises { Rises (dests mounts.now) rows.now }
    requires root { AtRoot (dests mounts.now) rows.now }
    requires there { from < length rows.now }
    requires climbs { Climbs (dests mounts.now) rows.now (from + 1) }
    requires near { IsNear (dests mounts.now) rows.now (from + 1) path.now from }
    ensures near { IsNear (dests mounts.now) rows.now (from + 1) path.now result }
    ensures prefix { is_within (dest_of (dests mounts.now) rows.now result) path.now ≡ true }
{
    let names = path.names();
    let mut at = from;
    while !names.starts_with(mounts[rows[at].mount].dest.names()) {
        at = rows[at].above;
    }
    at
}

// Returns a `Row` for each mount, in the order of the dests. Each `above` is still 0; `link` sets them afterwards.
fn sorted(alloc: Global, mounts: &[Shown]) -> Result<Vec<Row>, Memory>
    requires { IsView mounts.now }
    ensures rises { IfOk result (λ rows. Rises (dests mounts.now) rows.items) }
    ensures all { IfOk result (λ rows. HasFirst (length mounts.now) rows.items) }
{
    let mut rows = Vec::with_capacity(alloc, mounts.len())?;
    for mount in 0..mounts.len() {
        let place = place_of(mounts, &rows, &mounts[mount].dest);
        rows.insert(place, Row { mount, above: 0 })?;
    }
    Ok(rows)
}

// Sets the link `above` of each row but the first: the index in `rows` of the longest other dest that is a prefix of the row's dest.
fn link(mounts: &[Shown], rows: &mut [Row])
    requires view { IsView mounts.now }
    requires rises { Rises (dests mounts.now) rows.old }
    requires all { HasFirst (length mounts.now) rows.old }
    ensures { IsOrder (dests mounts.now) rows.new }
{
    for at in 1..rows.len() {
        let mount = rows[at].mount;
        let above = nearest(mounts, rows, at - 1, &mounts[mount].dest);
        rows[at] = Row { mount, above };
    }
}

/// Returns a row for each mount of a view, in the order of the dests. The link of a row is the index of the row of the longest other dest that is a prefix of
/// the row's dest (0 in the first row, which is the root's). Fails with 62 `Memory` alone.
pub(crate) fn ordered(alloc: Global, mounts: &[Shown]) -> Result<Vec<Row>, Memory>
    requires { IsView mounts.now }
    ensures { IfOk result (λ rows. IsOrder (dests mounts.now) rows.items) }
{
    let mut rows = sorted(alloc, mounts)?;
    link(mounts, &mut rows);
    Ok(rows)
}

/// Returns the number of the mount with the longest dest that is a prefix of the path, and how many names that dest has. Does not allocate. Compares the path
/// with about log2 N dests (N is the number of mounts) in the binary search, and then only with dests that are prefixes of one dest.
pub(crate) fn route_by(mounts: &[Shown], rows: &[Row], path: &Path) -> (u32, u32)
    requires view { IsView mounts.now }
    requires order { IsOrder (dests mounts.now) rows.now }
    ensures { IsRoute mounts.now path.now result }
{
    let place = place_of(mounts, rows, path);
    let at = nearest(mounts, rows, place - 1, path);
    let mount = rows[at].mount;
    (mount as u32, mounts[mount].dest.names().len() as u32)
}
