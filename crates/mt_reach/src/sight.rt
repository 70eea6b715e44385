//! Whether a path leads to a new mount and to its copies once they stand.
ghost use Rattle.std.specs.Prelude.{◌≡◌, [], IfOk, IsOkUnless};
ghost use Rattle.mt_reach.specs.Sight.{point_on, has_copy, front_from};

use crate::path::Path;
use crate::row::{SeenDirectory, SeenRow};
use crate::rows::SeenRows;
use crate::walking::stack_top;
use mt_mounts::mount::MountId;
use mt_skel::fault::Fault;
use mt_skel::list::is_among;

/// Where a walk ends once copies stand.
#[derive(Clone, Copy)]
pub struct Front<'a> {
    /// A mount that was there before.
    pub row: &'a SeenRow,
    /// Whether the walk ends on the copy that came to it, and not on itself.
    pub is_copy: bool,
}

/// The mount point of a directory on a mount that shows it. Refused as `NoMemory` alone.
pub fn point_on(row: &SeenRow, directory: &SeenDirectory) -> Result<Path, Fault>
    ensures point { IfOk result (λ point. point ≡ point_on row.now directory.now) }
    ensures memory { IsOkUnless result Fault.NoMemory }
{
    let point = row.point.copy()?;
    point.with_rest(&directory.path, row.root.path.len())
}

/// Whether a copy comes to the directory of a mount, with this mount point. Refused as `NoMemory` alone.
fn has_copy(
    directory: &SeenDirectory,
    ids: &[MountId],
    point: &Path,
    row: &SeenRow,
) -> Result<bool, Fault>
    ensures copy { IfOk result (λ has. has ≡ has_copy directory.now ids.now point.now row.now) }
    ensures memory { IsOkUnless result Fault.NoMemory }
{
    let place = point_on(row, directory)?;
    Ok(point.is_same(&place) && is_among(ids, row.id))
}

/// Where a walk of a path ends that begins at the root mount of a namespace, once a new mount and its copies stand in a directory
/// of the mounts with these IDs: the place itself, and those that are reached from there. What stood at the place of a copy is on
/// top of that then. A path leads to a copy where the walk of its mount point ([`point_on`]) ends on it; else the walk ends on
/// what is in front of it. Refused as `NoMemory` alone.
#[tactic(auto, using(crate::proofs::WalkedLaws::front_step, crate::proofs::WalkedLaws::front_met))]
pub fn front_of<'a>(
    rows: &'a SeenRows,
    directory: &SeenDirectory,
    ids: &[MountId],
    root: &'a SeenRow,
    path: &Path,
) -> Result<Front<'a>, Fault>
    ensures front { IfOk result (λ f. record { row = f.row.now; is_copy = f.is_copy } ≡ front_from rows.now directory.now ids.now root.now [] path.now) }
    ensures memory { IsOkUnless result Fault.NoMemory }
{
    let mut here = root;
    let mut done = Path::root(rows.allocator());
    'names: for name in path.names() {
        done = done.with(name.copy()?)?;
        here = stack_top(rows, &done, here);
        if has_copy(directory, ids, &done, here)? {
            return Ok(Front {
                row: here,
                is_copy: true,
            });
        }
    }
    Ok(Front {
        row: here,
        is_copy: false,
    })
}
