//! Which namespaces are made with locks.
//!
//! What came with a copy of a namespace into another user namespace is locked there (mount_namespaces(7), restrictions on mount
//! namespaces), and no mountinfo tells it. A mount counts as one that came so if the first table has a row of the same mount
//! point, root and device. Only where that is so of all mounts, a namespace is made with locks, as a less privileged copy of
//! one in which its mounts were made; there a member of a peer group would become a slave, so none may be one.
ghost use Rattle.std.specs.Prelude.{◌≡◌};
ghost use Rattle.std.specs.List.{list_all};
ghost use Rattle.mt_import.specs.Locking.{tells_same_mount, is_in_table, came_as_copy};
ghost use Rattle.mt_import.specs.Plans.{rows_made_from, is_lockable};

use crate::host_mount::HostMount;
use crate::mount::Mount;
use crate::space::{Space, Way, is_made};

/// Whether a row tells the same mount point, root and device as another one.
fn tells_same_mount(row: &HostMount, other: &HostMount) -> bool
    ensures { result ≡ tells_same_mount row.now other.now }
{
    other.point.as_slice() == row.point.as_slice()
        && other.root.as_slice() == row.root.as_slice()
        && other.device.as_slice() == row.device.as_slice()
}

/// Whether a mount came with a copy of the first namespace, of which these are the rows.
fn is_in_table(first: &[HostMount], row: &HostMount) -> bool
    ensures { result ≡ is_in_table first.now row.now }
{
    first.iter().any(|other| tells_same_mount(row, other))
}

/// Whether a mount came with a copy of the first namespace, and a less privileged copy of it is as it is itself.
fn came_as_copy(first: &[HostMount], row: &HostMount) -> bool
    ensures { result ≡ came_as_copy first.now row.now }
{
    row.shared.is_none() && is_in_table(first, row)
}

/// Whether all these mounts that are made may be locked.
fn all_came_along(first: &[HostMount], mounts: &[Mount<'_>], ways: &[Way]) -> bool
    ensures { result ≡ list_all (came_as_copy first.now) (rows_made_from ways.now 0 mounts.now) }
{
    'mounts: for (number, mount) in mounts.iter().enumerate() {
        if is_made(ways, number) && !came_as_copy(first, mount.row) {
            return false;
        }
    }
    true
}

/// Whether the namespace of a table is made with locks, where these are the rows of the first table: it is foreign, it is not the
/// one of which the others are copies, and all its mounts that are made may be locked.
pub(crate) fn is_lockable(first: &[HostMount], space: &Space<'_>) -> bool
    ensures { result ≡ is_lockable first.now space.now }
{
    let tree = &space.tree;
    space.is_shown()
        && tree.is_foreign()
        && space.original > 1
        && all_came_along(first, tree.mounts(), space.ways.as_slice())
}
