//! Walks of paths over the rows of a namespace.
//!
//! Each step looks at all rows, of which most are of another parent.
ghost use Rattle.std.specs.Prelude.{◌≡◌, [], None, Some, option_copied, IfOk, IsOkUnless, MatchOption};
ghost use Rattle.mt_reach.specs.Walking.{stands_at, stacked_at, stack_top, walked_from, is_root_row, root_row, end_of, stack_end_of, mount_in_front, directory_at};

use crate::path::Path;
use crate::row::{SeenDirectory, SeenRow};
use crate::rows::SeenRows;
use mt_mounts::mount::SpaceId;
use mt_skel::fault::Fault;

/// Whether a mount stands on another one at a mount point.
fn is_standing(parent: &SeenRow, point: &Path, row: &SeenRow) -> bool
    ensures { result ≡ stands_at parent.now point.now row.now }
{
    row.stands_on(parent) && row.point.is_same(point)
}

/// The mount that stands on another one at a mount point, if one does. Takes no memory.
pub fn stacked_at<'a>(rows: &'a SeenRows, point: &Path, parent: &SeenRow) -> Option<&'a SeenRow>
    ensures { MatchOption result (stacked_at rows.now point.now parent.now ≡ None) (λ row. stacked_at rows.now point.now parent.now ≡ Some row.now) }
{
    'rows: for row in rows.rows() {
        if is_standing(parent, point, row) {
            return Some(row);
        }
    }
    None
}

/// The topmost of the mounts that are stacked on one at a mount point. Takes no memory.
pub(crate) fn stack_top<'a>(rows: &'a SeenRows, point: &Path, start: &'a SeenRow) -> &'a SeenRow
    ensures { result.now ≡ stack_top rows.now point.now start.now }
{
    let mut here = start;
    'stack: for _step in 0..rows.len() {
        let Some(row) = stacked_at(rows, point, here) else {
            return here;
        };
        here = row;
    }
    here
}

/// The mount on which a walk of a path ends that begins at this mount, the root mount of its namespace; each name leads on to the
/// topmost mount there. Every directory is taken to be there. Refused as `NoMemory` alone.
#[tactic(auto, using(crate::proofs::WalkedLaws::walked_step))]
pub fn walk_rows<'a>(
    rows: &'a SeenRows,
    root: &'a SeenRow,
    path: &Path,
) -> Result<&'a SeenRow, Fault>
    ensures walked { IfOk result (λ end. end.now ≡ walked_from rows.now root.now [] path.now) }
    ensures memory { IsOkUnless result Fault.NoMemory }
{
    let mut here = root;
    let mut done = Path::root(rows.allocator());
    'names: for name in path.names() {
        done = done.with(name.copy()?)?;
        here = stack_top(rows, &done, here);
    }
    Ok(here)
}

/// Whether a mount is the root mount of a namespace.
fn is_root(rows: &SeenRows, space: SpaceId, row: &SeenRow) -> bool
    ensures { result ≡ is_root_row rows.now space row.now }
{
    row.space == space && row.point.is_root() && rows.parent_row(row).is_none()
}

/// The root mount of a namespace, if its table has one: it stands at the root, and on nothing that the table has. Takes no memory.
pub fn root_row(rows: &SeenRows, space: SpaceId) -> Option<&SeenRow>
    ensures { MatchOption result (root_row rows.now space ≡ None) (λ row. root_row rows.now space ≡ Some row.now) }
{
    'rows: for row in rows.rows() {
        if is_root(rows, space, row) {
            return Some(row);
        }
    }
    None
}

/// The mount on which a path ends in a namespace; `None` where its table has no root mount. Every directory is taken to be there.
/// Refused as `NoMemory` alone.
pub fn end_of<'a>(
    rows: &'a SeenRows,
    space: SpaceId,
    path: &Path,
) -> Result<Option<&'a SeenRow>, Fault>
    ensures end { IfOk result (λ end. option_copied end ≡ end_of rows.now space path.now) }
    ensures memory { IsOkUnless result Fault.NoMemory }
{
    let Some(root) = root_row(rows, space) else {
        return Ok(None);
    };
    let end = walk_rows(rows, root, path)?;
    Ok(Some(end))
}

/// The topmost mount of those that are stacked where a path ends, as [`end_of`] but for the root of a namespace, on which a mount
/// may stand. Refused as `NoMemory` alone.
pub fn stack_end_of<'a>(
    rows: &'a SeenRows,
    space: SpaceId,
    path: &Path,
) -> Result<Option<&'a SeenRow>, Fault>
    ensures top { IfOk result (λ top. option_copied top ≡ stack_end_of rows.now space path.now) }
    ensures memory { IsOkUnless result Fault.NoMemory }
{
    let Some(end) = end_of(rows, space, path)? else {
        return Ok(None);
    };
    Ok(Some(stack_top(rows, path, end)))
}

/// The mount to which the path leads that is a mount's mount point: the mount itself, or else what is in front of it; `None` where
/// its table has no root mount. Refused as `NoMemory` alone.
pub fn mount_in_front<'a>(rows: &'a SeenRows, row: &SeenRow) -> Result<Option<&'a SeenRow>, Fault>
    ensures front { IfOk result (λ end. option_copied end ≡ mount_in_front rows.now row.now) }
    ensures memory { IsOkUnless result Fault.NoMemory }
{
    end_of(rows, row.space, &row.point)
}

/// The directory of a mount that is at a point of its namespace, which is its mount point or below that. Refused as `NoMemory`
/// alone.
pub fn directory_at(row: &SeenRow, point: &Path) -> Result<SeenDirectory, Fault>
    ensures directory { IfOk result (λ directory. directory ≡ directory_at row.now point.now) }
    ensures memory { IsOkUnless result Fault.NoMemory }
{
    let path = row.root.path.copy()?.with_rest(point, row.point.len())?;
    Ok(SeenDirectory {
        device: row.root.device,
        unlinked: row.root.unlinked,
        path,
    })
}
