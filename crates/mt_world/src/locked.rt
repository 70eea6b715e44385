//! What is locked in the world of tables.
//!
//! What came with a copy of a namespace into another user namespace is locked there (mount_namespaces(7), restrictions on mount
//! namespaces), and no row tells it. A mount counts as one that came so if the first table has a row of the same mount point,
//! root and device. Where that is so of all mounts of a foreign namespace, and none of them is in a peer group, all are locked.
ghost use Rattle.std.specs.Prelude.{◌≡◌, not, IfOk, OnOk, IsOkUnless};
ghost use Rattle.std.specs.List.{filter};
ghost use Rattle.mt_propagate.specs.World.{world_view};
ghost use Rattle.mt_propagate.specs.WellFormed.{IsWellFormed};
ghost use Rattle.mt_world.specs.Locked.{is_counterpart, came_along, may_be_locked, all_may_be_locked, with_table_locks, with_foreign_locks};

use crate::row::TableRow;
use mt_guard::copying::own_locks;
use mt_guard::relocking::relock;
use mt_mounts::mount::SpaceId;
use mt_propagate::world::World;
use mt_skel::fault::Fault;
use std::alloc::Global;

/// Whether another row is one of the first table, and tells the same mount point, root and device as this one.
fn is_counterpart(row: &TableRow, other: &TableRow) -> bool
    ensures { result ≡ is_counterpart row.now other.now }
{
    other.space == 1
        && other.point.is_same(&row.point)
        && other.root.is_same(&row.root)
        && other.device.bytes() == row.device.bytes()
}

/// Whether a mount came with a copy of the namespace of the first table.
fn came_along(rows: &[TableRow], row: &TableRow) -> bool
    ensures { result ≡ came_along rows.now row.now }
{
    rows.iter().any(|other| is_counterpart(row, other))
}

/// Whether a mount came so, and is in no peer group.
fn may_be_locked(rows: &[TableRow], row: &TableRow) -> bool
    ensures { result ≡ may_be_locked rows.now row.now }
{
    row.state.group.is_none() && came_along(rows, row)
}

/// Whether all mounts of the table of a number may be locked.
fn all_may_be_locked(rows: &[TableRow], space: SpaceId) -> bool
    ensures { result ≡ all_may_be_locked rows.now space }
{
    rows.iter()
        .all(|row| row.space != space || may_be_locked(rows, row))
}

/// Locks all mounts of the table of a number, if they may be: whether they are. Refused as `NoMemory` alone.
fn lock_table(world: &mut World, rows: &[TableRow], space: SpaceId) -> Result<bool, Fault>
    requires well_formed { IsWellFormed (world_view world.old) }
    ensures well_formed { IsWellFormed (world_view world.new) }
    ensures locked { IfOk result (λ is. is ≡ all_may_be_locked rows.now space) }
    ensures world { OnOk result (world_view world.new ≡ with_table_locks rows.now space (world_view world.old)) }
    ensures memory { IsOkUnless result Fault.NoMemory }
{
    if !all_may_be_locked(rows, space) {
        return Ok(false);
    }
    let locks = own_locks(world, space)?;
    relock(world, locks);
    Ok(true)
}

/// Locks all mounts of each of the foreign namespaces where they may be locked, in the world of rows, and answers the other
/// ones: what is locked there is not known. Refused as `NoMemory` alone.
pub fn lock_foreign(
    alloc: Global,
    world: &mut World,
    rows: &[TableRow],
    foreign: &[SpaceId],
) -> Result<Vec<SpaceId>, Fault>
    requires well_formed { IsWellFormed (world_view world.old) }
    ensures well_formed { IsWellFormed (world_view world.new) }
    ensures unknown { IfOk result (λ unknown. unknown.items ≡ filter (λ n. not (all_may_be_locked rows.now n)) foreign.now) }
    ensures world { OnOk result (world_view world.new ≡ with_foreign_locks rows.now foreign.now (world_view world.old)) }
    ensures memory { IsOkUnless result Fault.NoMemory }
{
    let mut unknown = Vec::new(alloc);
    'spaces: for space in foreign {
        if !lock_table(world, rows, *space)? {
            unknown.push(*space)?;
        }
    }
    Ok(unknown)
}
