//! Commands by which mounts go: umount and detach.
ghost use Rattle.std.specs.Prelude.{◌≡◌, ◌≢◌, IfOk, IfErr, Ok, Err};
ghost use Rattle.mt_propagate.specs.World.{world_view};
ghost use Rattle.mt_guard.specs.Judging.{unlocked_judged, unmount_judged, detach_judged};

use mt_locks::locks::Locks;
use mt_mounts::mount::{Place, SpaceId};
use mt_propagate::named::{is_mount_root, is_root_mount};
use mt_propagate::world::World;
use mt_skel::fault::Fault;
use mt_skel::name::Name;
use mt_unmount::detaching::met_mounts;

/// What will be locked where an unmount names the mount at a place.
///
/// Refused as `NotMountRoot` if it is below the root of that mount, `RootPlace` if that is a root mount, `Locked` if it is
/// locked on its place, and as `NoMemory`.
fn unlocked_at(world: &World, place: Place) -> Result<Locks, Fault>
    ensures done { IfOk result (λ locks. unlocked_judged (world_view world.now) place ≡ Ok locks) }
    ensures refused { IfErr result (λ fault. fault ≢ Fault.NoMemory → unlocked_judged (world_view world.now) place ≡ Err fault) }
{
    if !is_mount_root(world, place) {
        return Err(Fault::NotMountRoot);
    }
    if is_root_mount(world, place) {
        return Err(Fault::RootPlace);
    }
    if world.locks.is_locked(place.mount) {
        return Err(Fault::Locked);
    }
    let met = met_mounts(world, place.mount)?;
    world.locks.changed(&met, &[], None)
}

/// What will be locked where a mount is unmounted.
///
/// Refused as an unmount is for its path and the mount that is named, then as `Locked` if that mount is locked on its place,
/// and as `NoMemory`.
pub fn unmount_locks(world: &World, space: SpaceId, path: &[Name]) -> Result<Locks, Fault>
    ensures done { IfOk result (λ locks. unmount_judged (world_view world.now) space path.now ≡ Ok locks) }
    ensures refused { IfErr result (λ fault. fault ≢ Fault.NoMemory → unmount_judged (world_view world.now) space path.now ≡ Err fault) }
{
    if world.is_tree(space) {
        return Err(Fault::Detached);
    }
    let place = world.forest.walk(&world.skel, space, path)?;
    unlocked_at(world, place)
}

/// What will be locked where a mount is detached.
///
/// Refused as a detach is for its path and the mount that is named, then as `Locked` if that mount is locked on its place,
/// and as `NoMemory`.
pub fn detach_locks(world: &World, space: SpaceId, path: &[Name]) -> Result<Locks, Fault>
    ensures done { IfOk result (λ locks. detach_judged (world_view world.now) space path.now ≡ Ok locks) }
    ensures refused { IfErr result (λ fault. fault ≢ Fault.NoMemory → detach_judged (world_view world.now) space path.now ≡ Err fault) }
{
    if world.is_tree(space) {
        return Err(Fault::Detached);
    }
    let end = world.forest.walk(&world.skel, space, path)?;
    unlocked_at(world, world.forest.top(end))
}
