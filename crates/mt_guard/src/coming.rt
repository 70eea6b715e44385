//! What comes locked.
ghost use Rattle.std.specs.Prelude.{◌≡◌, ◌*◌, ◌<◌, ◌^◌, [], ◌++◌, map, IfOk, OnOk, IsOkUnless};
ghost use Rattle.mt_locks.specs.Locks.{changed_locks};
ghost use Rattle.mt_propagate.specs.World.{world_view, space_of};
ghost use Rattle.mt_propagate.specs.Named.{mount_or_unknown};
ghost use Rattle.mt_propagate.specs.Limits.{too_many_mounts};
ghost use Rattle.mt_guard.specs.Coming.{numbered_from, is_foreign, locks_with, locks_of_copy, copies_locks, original_locks};

use mt_locks::locks::Locks;
use mt_locks::mount_locks::MountLocks;
use mt_mounts::mount::{Mount, MountId, SpaceId};
use mt_propagate::copies::mount_or_unknown;
use mt_propagate::limits::too_many_mounts;
use mt_propagate::world::{World, space_of};
use mt_skel::fault::Fault;

/// The same locks, each of the next mount.
fn numbered(world: &World, rows: &[MountLocks]) -> Result<Vec<MountLocks>, Fault>
    requires numbers { world.now.next_mount < 2 ^ 63 }
    ensures numbered { IfOk result (λ all. all.items ≡ numbered_from world.now.next_mount rows.now) }
    ensures memory { IsOkUnless result Fault.NoMemory }
{
    let mut all = Vec::with_capacity(world.forest.allocator(), rows.len())?;
    let mut next = world.next_mount;
    for row in rows {
        all.push(MountLocks {
            mount: next,
            ..*row
        })?;
        next += 1;
    }
    Ok(all)
}

/// What will be locked where mounts come with these locks, and maybe a namespace with this owner.
pub(crate) fn with_coming(
    world: &World,
    rows: &[MountLocks],
    owner: Option<(SpaceId, SpaceId)>,
) -> Result<Locks, Fault>
    requires numbers { world.now.next_mount < 2 ^ 63 }
    ensures locks { IfOk result (λ locks. locks ≡ changed_locks [] (numbered_from world.now.next_mount rows.now) owner world.now.locks) }
    ensures memory { IsOkUnless result Fault.NoMemory }
{
    let came = numbered(world, rows)?;
    world.locks.changed(&[], &came, owner)
}

/// Whether a namespace belongs to another user namespace than one in which a command is done.
fn is_foreign(world: &World, here: SpaceId, space: SpaceId) -> bool
    ensures { result ≡ is_foreign (world_view world.now) here space }
{
    world.locks.owner_of(space) != world.locks.owner_of(here)
}

/// What is locked of a mount, with its place or without.
fn locks_with(world: &World, place: bool, id: MountId) -> MountLocks
    ensures { result ≡ locks_with (world_view world.now) place id }
{
    MountLocks {
        place,
        ..world.locks.of(id)
    }
}

/// What is locked of a copy of a mount, which is the top of what is copied or not, in a foreign namespace or not.
fn locks_of_copy(world: &World, foreign: bool, top: MountId, mount: &Mount) -> MountLocks
    ensures { result ≡ locks_of_copy (world_view world.now) foreign top mount.now }
{
    let place = mount.id != top && (world.locks.is_locked(mount.id) || foreign);
    let locks = locks_with(world, place, mount.id);
    if foreign {
        locks.with_all_attrs(&mount.attrs)
    } else {
        locks
    }
}

/// Appends what is locked of copies of these mounts, in a foreign namespace or not.
pub(crate) fn push_copies(
    world: &World,
    foreign: bool,
    top: MountId,
    mounts: &[Mount],
    rows: &mut Vec<MountLocks>,
) -> Result<(), Fault>
    ensures rows { OnOk result (rows.new.items ≡ rows.old.items ++ map (locks_of_copy (world_view world.now) foreign top) mounts.now) }
    ensures memory { IsOkUnless result Fault.NoMemory }
{
    for mount in mounts {
        rows.push(locks_of_copy(world, foreign, top, mount))?;
    }
    Ok(())
}

/// Appends what is locked of copies of these mounts at a target, of what is done in a namespace.
fn push_at(
    world: &World,
    here: SpaceId,
    top: MountId,
    mounts: &[Mount],
    target: MountId,
    rows: &mut Vec<MountLocks>,
) -> Result<(), Fault>
    ensures rows { OnOk result (rows.new.items ≡ rows.old.items ++ map (locks_of_copy (world_view world.now) (is_foreign (world_view world.now) here (space_of (world_view world.now) target)) top) mounts.now) }
    ensures memory { IsOkUnless result Fault.NoMemory }
{
    let foreign = is_foreign(world, here, space_of(world, target));
    push_copies(world, foreign, top, mounts, rows)?;
    Ok(())
}

/// Whether this many mounts at each of so many others are too many.
fn are_too_many(world: &World, targets: usize, mounts: usize) -> bool
    ensures { result ≡ too_many_mounts (world_view world.now) (targets * mounts) }
{
    let Some(more) = targets.checked_mul(mounts) else {
        return true;
    };
    too_many_mounts(world, more)
}

/// What is locked of copies of these mounts at each of these targets, of what is done in a namespace; none if they are
/// too many.
pub(crate) fn copies_locks(
    world: &World,
    here: SpaceId,
    top: MountId,
    mounts: &[Mount],
    targets: &[MountId],
) -> Result<Vec<MountLocks>, Fault>
    ensures rows { IfOk result (λ rows. rows.items ≡ copies_locks (world_view world.now) here top mounts.now targets.now) }
    ensures memory { IsOkUnless result Fault.NoMemory }
{
    let mut rows = Vec::new(world.forest.allocator());
    if are_too_many(world, targets.len(), mounts.len()) {
        return Ok(rows);
    }
    for target in targets {
        push_at(world, here, top, mounts, *target, &mut rows)?;
    }
    Ok(rows)
}

/// What is locked of a mount's copy in a copy of its namespace, where all that came is locked or not.
fn original_locks(world: &World, all: bool, mount: &Mount) -> MountLocks
    ensures { result ≡ original_locks (world_view world.now) all mount.now }
{
    let place = world.locks.is_locked(mount.id) || all && mount.place.is_some();
    let locks = locks_with(world, place, mount.id);
    if all {
        locks.with_all_attrs(&mount.attrs)
    } else {
        locks
    }
}

/// What is locked of the copies of these mounts in a copy of their namespace.
pub(crate) fn copied_locks(
    world: &World,
    all: bool,
    mounts: &[Mount],
) -> Result<Vec<MountLocks>, Fault>
    ensures rows { IfOk result (λ rows. rows.items ≡ map (original_locks (world_view world.now) all) mounts.now) }
    ensures memory { IsOkUnless result Fault.NoMemory }
{
    let mut rows = Vec::with_capacity(world.forest.allocator(), mounts.len())?;
    for mount in mounts {
        rows.push(original_locks(world, all, mount))?;
    }
    Ok(rows)
}

/// The mounts with these IDs.
pub(crate) fn mounts_with(world: &World, ids: &[MountId]) -> Result<Vec<Mount>, Fault>
    ensures mounts { IfOk result (λ mounts. mounts.items ≡ map (mount_or_unknown (world_view world.now)) ids.now) }
    ensures memory { IsOkUnless result Fault.NoMemory }
{
    let mut mounts = Vec::with_capacity(world.forest.allocator(), ids.len())?;
    for id in ids {
        mounts.push(mount_or_unknown(world, *id))?;
    }
    Ok(mounts)
}
