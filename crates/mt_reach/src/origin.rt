//! Where a mount comes from, what takes it away, and which mounts pin a directory.
ghost use Rattle.std.specs.Prelude.{◌≡◌, IfOk, IsOkUnless};
ghost use Rattle.mt_skel.specs.Skeleton.{path_eq};
ghost use Rattle.mt_reach.specs.Reasons.{members_of, holders_of, takes_away, takers_of, standing_names};

use crate::path::Path;
use crate::reason::gets_at;
use crate::row::{SeenDirectory, SeenRow};
use crate::rows::SeenRows;
use mt_mounts::mount::MountId;
use mt_peers::state::GroupId;
use mt_skel::fault::Fault;

/// The members of a peer group, by rising ID. Refused as `NoMemory` alone.
pub fn members_of(rows: &SeenRows, group: GroupId) -> Result<Vec<MountId>, Fault>
    ensures members { IfOk result (λ ids. ids.items ≡ members_of rows.now group) }
    ensures memory { IsOkUnless result Fault.NoMemory }
{
    let mut ids = Vec::new(rows.allocator());
    'rows: for row in rows.rows() {
        if row.group == Some(group) {
            ids.push(row.id)?;
        }
    }
    Ok(ids)
}

/// The mounts that show a directory, or something in it, by rising ID: what pins it, whether a path leads there or not. All
/// mounts of a filesystem hold its root. Refused as `NoMemory` alone.
pub fn holders_of(rows: &SeenRows, directory: &SeenDirectory) -> Result<Vec<MountId>, Fault>
    ensures holders { IfOk result (λ ids. ids.items ≡ holders_of rows.now directory.now) }
    ensures memory { IsOkUnless result Fault.NoMemory }
{
    let mut ids = Vec::new(rows.allocator());
    'rows: for row in rows.rows() {
        if row.root.overlaps(directory) {
            ids.push(row.id)?;
        }
    }
    Ok(ids)
}

/// The names from the root of the filesystem down to where a mount stands on another one. Refused as `NoMemory` alone.
fn standing_names(parent: &SeenRow, row: &SeenRow) -> Result<Path, Fault>
    ensures names { IfOk result (λ path. path ≡ standing_names parent.now row.now) }
    ensures memory { IsOkUnless result Fault.NoMemory }
{
    parent
        .root
        .path
        .copy()?
        .with_rest(&row.point, parent.point.len())
}

/// Whether an unmount of the mount `other` takes away the mount `row`, which stands on `parent`. Refused as `NoMemory` alone.
fn takes_away(
    rows: &SeenRows,
    row: &SeenRow,
    parent: &SeenRow,
    other: &SeenRow,
) -> Result<bool, Fault>
    ensures takes { IfOk result (λ takes. takes ≡ takes_away rows.now row.now parent.now other.now) }
    ensures memory { IsOkUnless result Fault.NoMemory }
{
    if other.id == row.id {
        return Ok(false);
    }
    let Some(below) = rows.parent_row(other) else {
        return Ok(false);
    };
    if !is_same_place(below, other, parent, row)? {
        return Ok(false);
    }
    gets_at(rows, below, parent)
}

/// Whether two mounts stand at the same directory, each of another mount. Refused as `NoMemory` alone.
fn is_same_place(
    below: &SeenRow,
    other: &SeenRow,
    parent: &SeenRow,
    row: &SeenRow,
) -> Result<bool, Fault>
    ensures same { IfOk result (λ same. same ≡ path_eq (standing_names below.now other.now) (standing_names parent.now row.now)) }
    ensures memory { IsOkUnless result Fault.NoMemory }
{
    let left = standing_names(below, other)?;
    let right = standing_names(parent, row)?;
    Ok(left.is_same(&right))
}

/// The mounts whose unmount takes a mount away, by rising ID: what stands at the same directory of a mount from which its parent
/// gets. Refused as `NoMemory` alone.
pub fn takers_of(rows: &SeenRows, row: &SeenRow) -> Result<Vec<MountId>, Fault>
    ensures takers { IfOk result (λ ids. ids.items ≡ takers_of rows.now row.now) }
    ensures memory { IsOkUnless result Fault.NoMemory }
{
    let mut ids = Vec::new(rows.allocator());
    let Some(parent) = rows.parent_row(row) else {
        return Ok(ids);
    };
    'rows: for other in rows.rows() {
        if takes_away(rows, row, parent, other)? {
            ids.push(other.id)?;
        }
    }
    Ok(ids)
}
