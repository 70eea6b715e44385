//! Commands that change mounts where they are: pivot and setattr.
ghost use Rattle.std.specs.Prelude.{◌≡◌, ◌≢◌, IfOk, IfErr, IsOkUnless, Ok, Err};
ghost use Rattle.mt_propagate.specs.World.{world_view};
ghost use Rattle.mt_guard.specs.Judging.{pivot_judged, change_judged, keep_judged};

use crate::refusing::unlocks_some;
use mt_locks::locks::Locks;
use mt_mounts::mount::SpaceId;
use mt_propagate::named::{is_mount_root, is_root_mount, is_root_place};
use mt_propagate::world::World;
use mt_setattr::change::Change;
use mt_setattr::setting::{changes_inside, clashes};
use mt_skel::fault::Fault;
use mt_skel::name::Name;

/// What will be locked where nothing comes and nothing is unlocked.
///
/// It refuses nothing, but as `NoMemory`.
pub fn same_locks(world: &World) -> Result<Locks, Fault>
    ensures done { IfOk result (λ locks. keep_judged (world_view world.now) ≡ Ok locks) }
    ensures memory { IsOkUnless result Fault.NoMemory }
{
    world.locks.copy()
}

/// What will be locked where a mount becomes the root mount of its namespace: what is locked.
///
/// Refused as a pivot is for its paths and the mount that is named, then as `Locked` if that mount is locked on its place,
/// and as `NoMemory`.
pub fn pivot_locks(
    world: &World,
    space: SpaceId,
    new: &[Name],
    old: &[Name],
) -> Result<Locks, Fault>
    ensures done { IfOk result (λ locks. pivot_judged (world_view world.now) space new.now old.now ≡ Ok locks) }
    ensures refused { IfErr result (λ fault. fault ≢ Fault.NoMemory → pivot_judged (world_view world.now) space new.now old.now ≡ Err fault) }
{
    if world.is_tree(space) {
        return Err(Fault::Detached);
    }
    let named = world.forest.walk(&world.skel, space, new)?;
    if !is_mount_root(world, named) {
        return Err(Fault::NotMountRoot);
    }
    if is_root_mount(world, named) {
        return Err(Fault::RootPlace);
    }
    let place = world.forest.walk(&world.skel, space, old)?;
    if is_root_place(world, place) {
        return Err(Fault::RootPlace);
    }
    if world.locks.is_locked(named.mount) {
        return Err(Fault::Locked);
    }
    same_locks(world)
}

/// What will be locked where attributes are changed: what is locked.
///
/// Refused as such a change is, then as `LockedAttr` if it takes away what is locked of a mount, and as `NoMemory`.
pub fn change_locks(
    world: &World,
    space: SpaceId,
    path: &[Name],
    change: &Change,
) -> Result<Locks, Fault>
    ensures done { IfOk result (λ locks. change_judged (world_view world.now) space path.now change.now ≡ Ok locks) }
    ensures refused { IfErr result (λ fault. fault ≢ Fault.NoMemory → change_judged (world_view world.now) space path.now change.now ≡ Err fault) }
{
    let place = world.forest.walk(&world.skel, space, path)?;
    if !is_mount_root(world, place) {
        return Err(Fault::NotMountRoot);
    }
    if clashes(change) {
        return Err(Fault::BadAttr);
    }
    if changes_inside(world, space, place, change) {
        return Err(Fault::Detached);
    }
    if unlocks_some(world, change, place.mount) {
        return Err(Fault::LockedAttr);
    }
    same_locks(world)
}
