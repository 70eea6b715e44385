//! Unmounts.
ghost use Rattle.std.specs.Prelude.{◌≡◌, ◌≢◌, ◌++◌, Ok, Err, IfOk, IfErr, OnOk, OnErr, IsOkUnless};
ghost use Rattle.std.specs.List.{list_any};
ghost use Rattle.mt_mounts.specs.Forest.{stands_on};
ghost use Rattle.mt_propagate.specs.World.{world_view};
ghost use Rattle.mt_propagate.specs.WellFormed.{IsWellFormed};
ghost use Rattle.mt_propagate.specs.Touched.{since_view};
ghost use Rattle.mt_unmount.specs.Unmounting.{may_go, going_at, removed, is_removed, unmounted};
ghost use Rattle.mt_unmount.specs.Taking.{AreGone};

use crate::gone::Gone;
use crate::taking::{place_of, take_away};
use mt_mounts::mount::{Mount, MountId, Place, SpaceId, root_place};
use mt_propagate::named::{is_mount_root, is_root_mount};
use mt_propagate::receivers::receivers;
use mt_propagate::world::World;
use mt_skel::fault::Fault;
use mt_skel::name::Name;
use mt_skel::skel::Dir;

/// Whether a mount stands on this one.
fn has_child(world: &World, id: MountId) -> bool
    ensures { result ≡ list_any (stands_on id) world.now.forest.mounts }
{
    world.forest.child_count(id) > 0
}

/// Whether a mount goes with one at the same directory: nothing stands on it, or only one mount, at
/// its root.
fn may_go(world: &World, mount: &Mount) -> bool
    requires well_formed { IsWellFormed (world_view world.now) }
    ensures { result ≡ may_go (world_view world.now) mount.now }
{
    let children = world.forest.child_count(mount.id);
    if children > 1 {
        return false;
    }
    children == 0 || world.forest.standing_at(root_place(mount)).is_some()
}

/// Appends the mounts that go at these targets, each of which stands at this directory.
fn push_going(
    world: &World,
    targets: &[MountId],
    dir: Dir,
    ids: &mut Vec<MountId>,
) -> Result<(), Fault>
    requires well_formed { IsWellFormed (world_view world.now) }
    ensures ids { OnOk result (ids.new.items ≡ ids.old.items ++ going_at (world_view world.now) targets.now dir) }
    ensures memory { IsOkUnless result Fault.NoMemory }
{
    for target in targets {
        let place = Place {
            mount: *target,
            dir,
        };
        if let Some(mount) = world.forest.standing_at(place) {
            if may_go(world, &mount) {
                ids.push(mount.id)?;
            }
        }
    }
    Ok(())
}

/// The mounts that go with one: it, and at each target of its place the mount at the same directory,
/// if that may go.
fn removed(world: &World, id: MountId) -> Result<Vec<MountId>, Fault>
    requires well_formed { IsWellFormed (world_view world.now) }
    ensures removed { IfOk result (λ ids. ids.items ≡ removed (world_view world.now) id) }
    ensures memory { IsOkUnless result Fault.NoMemory }
{
    let mut ids = Vec::new(world.forest.allocator());
    ids.push(id)?;
    if let Some(place) = place_of(world, id) {
        let targets = receivers(world, place)?;
        push_going(world, &targets, place.dir, &mut ids)?;
    }
    Ok(ids)
}

/// The same mounts, each once.
fn gone(world: &World, id: MountId) -> Result<Gone, Fault>
    requires well_formed { IsWellFormed (world_view world.now) }
    ensures gone { IfOk result (AreGone (is_removed (world_view world.now) id)) }
    ensures memory { IsOkUnless result Fault.NoMemory }
{
    let ids = removed(world, id)?;
    Ok(Gone::new(ids))
}

/// Unmounts the mount that the path names in a namespace, and at each propagation target of its
/// place the mount at the same directory, unless another stands on that below its root. What stands
/// on the root of a mount that goes slides to the place that becomes free.
///
/// Refused as `NoNamespace`, `Detached` if the namespace is a detached tree, `NoEntry` if a component is not there,
/// `NotMountRoot` if the path ends below the root of a mount, `RootPlace` if it names the root mount, `Busy` if a mount
/// stands on the named one, and as `NoMemory`; then nothing has changed.
pub fn unmount(world: &mut World, space: SpaceId, path: &[Name]) -> Result<(), Fault>
    requires well_formed { IsWellFormed (world_view world.old) }
    ensures done { OnOk result (unmounted (world_view world.old) space path.now ≡ Ok (world_view world.new)) }
    ensures refused { IfErr result (λ fault. fault ≢ Fault.NoMemory → unmounted (world_view world.old) space path.now ≡ Err fault) }
    ensures unchanged { OnErr result (world_view world.new ≡ world_view world.old) }
    ensures kept { IsWellFormed (world_view world.new) }
    ensures since { since_view world.new ≡ since_view world.old }
{
    if world.is_tree(space) {
        return Err(Fault::Detached);
    }
    let place = world.forest.walk(&world.skel, space, path)?;
    if !is_mount_root(world, place) {
        return Err(Fault::NotMountRoot);
    }
    if is_root_mount(world, place) {
        return Err(Fault::RootPlace);
    }
    if has_child(world, place.mount) {
        return Err(Fault::Busy);
    }
    let gone = gone(world, place.mount)?;
    take_away(world, &gone)?;
    Ok(())
}
