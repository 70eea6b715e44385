//! Namespaces of copies: copies of namespaces and opened trees, which commands make, and those that came whole from elsewhere.
ghost use Rattle.std.specs.Prelude.{◌≡◌, ◌≢◌, ◌<◌, ◌^◌, cond, IfOk, IfErr, IsOkUnless, Ok, Err};
ghost use Rattle.mt_locks.specs.Locks.{owner_of};
ghost use Rattle.mt_propagate.specs.World.{world_view};
ghost use Rattle.mt_propagate.specs.WellFormed.{IsWellFormed};
ghost use Rattle.mt_guard.specs.Changing.{own_locks};
ghost use Rattle.mt_guard.specs.Coming.{next_owner};
ghost use Rattle.mt_guard.specs.Judging.{open_judged, copy_judged};

use crate::coming::{copied_locks, mounts_with, push_copies, with_coming};
use crate::refusing::uncovers;
use mt_bind::binding::{is_unbindable, members_at};
use mt_locks::locks::Locks;
use mt_mounts::mount::SpaceId;
use mt_propagate::world::World;
use mt_skel::fault::Fault;
use mt_skel::name::Name;

/// The owner of the next namespace, if it is not 0.
fn next_owner(world: &World, owner: SpaceId) -> Option<(SpaceId, SpaceId)>
    ensures { result ≡ next_owner (world_view world.now) owner }
{
    if owner == 0 {
        None
    } else {
        Some((world.next_space, owner))
    }
}

/// The owner of a copy of a namespace: where all is locked, the copy itself.
fn owner_of_copy(world: &World, space: SpaceId, all: bool) -> SpaceId
    ensures { result ≡ cond all world.now.next_space (owner_of world.now.locks space) }
{
    if all {
        world.next_space
    } else {
        world.locks.owner_of(space)
    }
}

/// What will be locked where a path of a namespace is opened as a detached tree, which gets the owner of the namespace.
///
/// Refused as an opening is for its path and its source, then as `LockedInside` if a mount that is locked on its place would
/// be left out, and as `NoMemory`.
pub fn open_locks(
    world: &World,
    space: SpaceId,
    path: &[Name],
    recursive: bool,
) -> Result<Locks, Fault>
    requires well_formed { IsWellFormed (world_view world.now) }
    requires numbers { world.now.next_mount < 2 ^ 63 }
    ensures done { IfOk result (λ locks. open_judged (world_view world.now) space path.now recursive ≡ Ok locks) }
    ensures refused { IfErr result (λ fault. fault ≢ Fault.NoMemory → open_judged (world_view world.now) space path.now recursive ≡ Err fault) }
{
    let from = world.forest.walk(&world.skel, space, path)?;
    if is_unbindable(world, from.mount) {
        return Err(Fault::Unbindable);
    }
    let members = members_at(world, from, recursive)?;
    if uncovers(world, from, &members) {
        return Err(Fault::LockedInside);
    }
    let mounts = mounts_with(world, &members)?;
    let mut rows = Vec::with_capacity(world.forest.allocator(), mounts.len())?;
    push_copies(world, false, from.mount, &mounts, &mut rows)?;
    let owner = next_owner(world, world.locks.owner_of(space));
    with_coming(world, &rows, owner)
}

/// What will be locked where a namespace is copied: with `all` into a less privileged one, which is its own owner and where
/// all places and attributes that it begins with are locked.
///
/// It refuses nothing, but as `NoMemory`.
pub fn copy_locks(world: &World, space: SpaceId, all: bool) -> Result<Locks, Fault>
    requires numbers { world.now.next_mount < 2 ^ 63 }
    ensures done { IfOk result (λ locks. copy_judged (world_view world.now) space all ≡ Ok locks) }
    ensures memory { IsOkUnless result Fault.NoMemory }
{
    let mounts = world.forest.mounts_in(space)?;
    let rows = copied_locks(world, all, &mounts)?;
    let owner = owner_of_copy(world, space, all);
    with_coming(world, &rows, next_owner(world, owner))
}

/// What will be locked where all mounts of a namespace came with a copy into another user namespace: all their places and
/// attributes, and the namespace is its own owner.
///
/// It refuses nothing, but as `NoMemory`.
pub fn own_locks(world: &World, space: SpaceId) -> Result<Locks, Fault>
    ensures locks { IfOk result (λ locks. locks ≡ own_locks (world_view world.now) space) }
    ensures memory { IsOkUnless result Fault.NoMemory }
{
    let mounts = world.forest.mounts_in(space)?;
    let rows = copied_locks(world, true, &mounts)?;
    world.locks.changed(&[], &rows, Some((space, space)))
}
