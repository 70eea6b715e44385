//! Commands by which mounts come to a place: mount, bind, move, and the attaching of a tree.
ghost use Rattle.std.specs.Prelude.{◌≡◌, ◌≢◌, ◌<◌, ◌^◌, [], ◌∷◌, None, IfOk, IfErr, IsOkUnless, Ok, Err};
ghost use Rattle.mt_locks.specs.Locks.{changed_locks};
ghost use Rattle.mt_propagate.specs.World.{world_view};
ghost use Rattle.mt_propagate.specs.WellFormed.{IsWellFormed};
ghost use Rattle.mt_propagate.specs.Plans.{fresh_source};
ghost use Rattle.mt_propagate.specs.Receivers.{targets as all_targets};
ghost use Rattle.mt_setattr.specs.Words.{new_with};
ghost use Rattle.mt_guard.specs.Coming.{numbered_from, copies_locks};
ghost use Rattle.mt_guard.specs.Judging.{mount_judged, bind_judged, move_judged, attach_judged};

use crate::coming::{copies_locks, mounts_with, with_coming};
use crate::refusing::uncovers;
use mt_bind::binding::{is_unbindable, members_at};
use mt_locks::locks::Locks;
use mt_mounts::mount::{Mount, MountId, Place, SpaceId};
use mt_propagate::named::{is_mount_root, is_root_mount, is_root_place};
use mt_propagate::receivers::targets;
use mt_propagate::world::World;
use mt_setattr::change::SetWords;
use mt_skel::fault::Fault;
use mt_skel::name::Name;

/// The mount of a place, and its propagation targets.
fn destinations(world: &World, place: Place) -> Result<Vec<MountId>, Fault>
    ensures destinations { IfOk result (λ ids. ids.items ≡ place.mount ∷ all_targets (world_view world.now) place) }
    ensures memory { IsOkUnless result Fault.NoMemory }
{
    let targets = targets(world, place)?;
    let mut ids = Vec::with_capacity(world.forest.allocator(), targets.len() + 1)?;
    ids.push(place.mount)?;
    ids.extend_from_slice(&targets)?;
    Ok(ids)
}

/// What will be locked once these mounts were copied to a place and to its targets, or only to those.
fn with_copies(
    world: &World,
    here: SpaceId,
    top: MountId,
    mounts: &[Mount],
    targets: &[MountId],
) -> Result<Locks, Fault>
    requires numbers { world.now.next_mount < 2 ^ 63 }
    ensures locks { IfOk result (λ locks. locks ≡ changed_locks [] (numbered_from world.now.next_mount (copies_locks (world_view world.now) here top mounts.now targets.now)) None world.now.locks) }
    ensures memory { IsOkUnless result Fault.NoMemory }
{
    let rows = copies_locks(world, here, top, mounts, targets)?;
    with_coming(world, &rows, None)
}

/// A fresh mount with these attributes, which has the ID 0.
fn fresh(world: &World, set: &SetWords) -> Result<Vec<Mount>, Fault>
    ensures fresh { IfOk result (λ mounts. mounts.items ≡ (fresh_source 0 (new_with set.now)).mounts) }
    ensures memory { IsOkUnless result Fault.NoMemory }
{
    let mut mounts = Vec::with_capacity(world.forest.allocator(), 1)?;
    mounts.push(Mount {
        id: 0,
        space: 0,
        place: None,
        root: 0,
        attrs: set.attrs(),
    })?;
    Ok(mounts)
}

/// What will be locked where a filesystem is mounted with these attributes.
///
/// It refuses nothing, but as `NoMemory`.
pub fn mount_locks(
    world: &World,
    space: SpaceId,
    path: &[Name],
    set: &SetWords,
) -> Result<Locks, Fault>
    requires numbers { world.now.next_mount < 2 ^ 63 }
    ensures done { IfOk result (λ locks. mount_judged (world_view world.now) space path.now set.now ≡ Ok locks) }
    ensures memory { IsOkUnless result Fault.NoMemory }
{
    let Ok(place) = world.forest.walk(&world.skel, space, path) else {
        return with_coming(world, &[], None);
    };
    let mounts = fresh(world, set)?;
    let ids = destinations(world, place)?;
    with_copies(world, space, 0, &mounts, &ids)
}

/// What will be locked where mounts are bound.
///
/// Refused as a bind is for its paths and its source, then as `LockedInside` if a mount that is locked on its place would be
/// left out, and as `NoMemory`.
pub fn bind_locks(
    world: &World,
    space: SpaceId,
    recursive: bool,
    from: &[Name],
    to: &[Name],
) -> Result<Locks, Fault>
    requires well_formed { IsWellFormed (world_view world.now) }
    requires numbers { world.now.next_mount < 2 ^ 63 }
    ensures done { IfOk result (λ locks. bind_judged (world_view world.now) space recursive from.now to.now ≡ Ok locks) }
    ensures refused { IfErr result (λ fault. fault ≢ Fault.NoMemory → bind_judged (world_view world.now) space recursive from.now to.now ≡ Err fault) }
{
    let source = world.forest.walk(&world.skel, space, from)?;
    let place = world.forest.walk(&world.skel, space, to)?;
    if is_root_place(world, place) {
        return Err(Fault::RootPlace);
    }
    if is_unbindable(world, source.mount) {
        return Err(Fault::Unbindable);
    }
    let members = members_at(world, source, recursive)?;
    if uncovers(world, source, &members) {
        return Err(Fault::LockedInside);
    }
    let mounts = mounts_with(world, &members)?;
    let ids = destinations(world, place)?;
    with_copies(world, space, source.mount, &mounts, &ids)
}

/// What will be locked where a mount is moved with all that stand on it.
///
/// Refused as a move is for its paths and the mount that is named, then as `Locked` if that mount is locked on its place,
/// and as `NoMemory`.
pub fn move_locks(world: &World, space: SpaceId, from: &[Name], to: &[Name]) -> Result<Locks, Fault>
    requires well_formed { IsWellFormed (world_view world.now) }
    requires numbers { world.now.next_mount < 2 ^ 63 }
    ensures done { IfOk result (λ locks. move_judged (world_view world.now) space from.now to.now ≡ Ok locks) }
    ensures refused { IfErr result (λ fault. fault ≢ Fault.NoMemory → move_judged (world_view world.now) space from.now to.now ≡ Err fault) }
{
    if world.is_tree(space) {
        return Err(Fault::Detached);
    }
    let source = world.forest.walk(&world.skel, space, from)?;
    if !is_mount_root(world, source) {
        return Err(Fault::NotMountRoot);
    }
    if is_root_mount(world, source) {
        return Err(Fault::RootPlace);
    }
    let place = world.forest.walk(&world.skel, space, to)?;
    if is_root_place(world, place) {
        return Err(Fault::RootPlace);
    }
    if world.locks.is_locked(source.mount) {
        return Err(Fault::Locked);
    }
    let members = world.forest.subtree(source.mount)?;
    let mounts = mounts_with(world, &members)?;
    let ids = targets(world, place)?;
    with_copies(world, space, source.mount, &mounts, &ids)
}

/// What will be locked where a detached tree is attached.
///
/// It refuses nothing, but as `NoMemory`.
pub fn attach_locks(
    world: &World,
    tree: SpaceId,
    space: SpaceId,
    path: &[Name],
) -> Result<Locks, Fault>
    requires numbers { world.now.next_mount < 2 ^ 63 }
    ensures done { IfOk result (λ locks. attach_judged (world_view world.now) tree space path.now ≡ Ok locks) }
    ensures memory { IsOkUnless result Fault.NoMemory }
{
    let Ok(place) = world.forest.walk(&world.skel, space, path) else {
        return with_coming(world, &[], None);
    };
    let top = world.forest.root(tree).unwrap_or(0);
    let mounts = world.forest.mounts_in(tree)?;
    let ids = targets(world, place)?;
    with_copies(world, space, top, &mounts, &ids)
}
