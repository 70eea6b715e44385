//! Pivots: another mount of a namespace becomes its root mount, and the old one goes to a place below it.
ghost use Rattle.std.specs.Prelude.{◌≡◌, ◌≢◌, ◌≤◌, ◌||◌, false, is_some, IfErr, OnOk, OnErr, Ok, Err};
ghost use Rattle.std.specs.Option.{option_map_or};
ghost use Rattle.mt_mounts.specs.Forest.{is_below, parent};
ghost use Rattle.mt_propagate.specs.World.{world_view, group_of};
ghost use Rattle.mt_propagate.specs.WellFormed.{IsWellFormed};
ghost use Rattle.mt_propagate.specs.Touched.{since_view};
ghost use Rattle.mt_bind.specs.Pivoting.{MayPivot, pivoted, with_pivot};

use crate::moving::{has_shared_parent, is_shared};
use mt_mounts::forest::Forest;
use mt_mounts::mount::{Mount, MountId, Place, SpaceId};
use mt_propagate::named::{is_mount_root, is_root_mount, is_root_place};
use mt_propagate::world::World;
use mt_skel::fault::Fault;
use mt_skel::name::Name;

/// Whether a mount is another one or stands on it, at whatever height.
fn is_below(forest: &Forest, top: MountId, id: MountId) -> bool
    ensures { result ≡ is_below forest.now.mounts top id }
{
    let mut here = id;
    'up: for _step in 0..forest.len() {
        if here == top {
            return true;
        }
        let Some(parent) = forest.parent(here) else {
            return false;
        };
        here = parent;
    }
    here == top
}

/// Whether a mount is another one or stands on it, at whatever height.
pub fn is_in_tree_of(world: &World, top: MountId, id: MountId) -> bool
    ensures { result ≡ is_below world.now.forest.mounts top id }
{
    is_below(&world.forest, top, id)
}

/// Whether the mount on which a mount stands is in a peer group, or the mount of a place is.
fn has_shared(world: &World, id: MountId, place: Place) -> bool
    ensures { result ≡ (option_map_or (λ k. is_some (group_of (world_view world.now) k)) (parent world.now.forest.mounts id) false || is_some (group_of (world_view world.now) place.mount)) }
{
    has_shared_parent(world, id) || is_shared(world, place.mount)
}

/// Takes the place of a mount away, and gives that of the old root mount. It needs no memory:
/// `Forest::reserve` has made room, as for three changes.
fn exchange(world: &mut World, new: MountId, old: MountId, place: Place)
    requires well_formed { IsWellFormed (world_view world.old) }
    requires pivot { MayPivot (world_view world.old) new old place }
    requires room { 3 ≤ world.old.forest.room }
    ensures world { world_view world.new ≡ with_pivot (world_view world.old) new old place }
    ensures kept { IsWellFormed (world_view world.new) }
    ensures since { since_view world.new ≡ since_view world.old }
{
    let Some(mount) = world.forest.get(new) else {
        return;
    };
    world.forest.remove(new);
    world.forest.reattach(old, place);
    world.forest.insert(Mount {
        place: None,
        ..mount
    });
}

/// Makes the mount that one path names the root mount of its namespace, and moves the old root mount, with everything
/// else that stands on it, to where another path ends. Nothing propagates. Both paths are looked up before that, and
/// may be the same: then the old root mount stands on the new one, at its root.
///
/// Refused as `NoNamespace`, `Detached` if the namespace is a detached tree, `NoEntry` if a component of the path is not
/// there, `NotMountRoot` if it ends below a mount's root, `RootPlace` if it names the root mount, `NoEntry` and `RootPlace` of the other path, `SharedParent` if
/// the mount stands on one in a peer group or the place's mount is in one, `IntoItself` if the place's mount is neither
/// that mount nor below it, and as `NoMemory`; then nothing has changed.
pub fn pivot_root(
    world: &mut World,
    space: SpaceId,
    new: &[Name],
    old: &[Name],
) -> Result<(), Fault>
    requires well_formed { IsWellFormed (world_view world.old) }
    ensures done { OnOk result (pivoted (world_view world.old) space new.now old.now ≡ Ok (world_view world.new)) }
    ensures refused { IfErr result (λ fault. fault ≢ Fault.NoMemory → pivoted (world_view world.old) space new.now old.now ≡ Err fault) }
    ensures unchanged { OnErr result (world_view world.new ≡ world_view world.old) }
    ensures kept { IsWellFormed (world_view world.new) }
    ensures since { since_view world.new ≡ since_view world.old }
{
    if world.is_tree(space) {
        return Err(Fault::Detached);
    }
    let Some(root) = world.forest.root(space) else {
        return Err(Fault::NoNamespace);
    };
    let named = world.forest.walk(&world.skel, space, new)?;
    if !is_mount_root(world, named) {
        return Err(Fault::NotMountRoot);
    }
    if is_root_mount(world, named) {
        return Err(Fault::RootPlace);
    }
    let place = world.forest.walk(&world.skel, space, old)?;
    if is_root_place(world, place) {
        return Err(Fault::RootPlace);
    }
    if has_shared(world, named.mount, place) {
        return Err(Fault::SharedParent);
    }
    if !is_below(&world.forest, named.mount, place.mount) {
        return Err(Fault::IntoItself);
    }
    world.forest.reserve(3)?;
    exchange(world, named.mount, root, place);
    Ok(())
}
