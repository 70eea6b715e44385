//! Moves: a mount and all that stand on it go to another place.
ghost use Rattle.std.specs.Prelude.{◌≡◌, ◌≢◌, ◌^◌, ◌<◌, ◌&&◌, false, is_some, IfErr, OnOk, OnErr, Ok, Err};
ghost use Rattle.std.specs.List.{list_any};
ghost use Rattle.std.specs.Option.{option_map_or};
ghost use Rattle.mt_mounts.specs.Forest.{parent};
ghost use Rattle.mt_propagate.specs.World.{world_view, group_of, state_of};
ghost use Rattle.mt_propagate.specs.WellFormed.{IsWellFormed};
ghost use Rattle.mt_propagate.specs.Touched.{since_view};
ghost use Rattle.mt_bind.specs.Mounting.{moved};

use crate::binding::is_unbindable;
use mt_mounts::mount::{MountId, Place, SpaceId};
use mt_propagate::carry::{carry_out, ready};
use mt_propagate::copies::Sources;
use mt_propagate::named::{is_mount_root, is_root_mount, is_root_place};
use mt_propagate::plan::make_plan;
use mt_propagate::world::{World, state_of};
use mt_skel::fault::Fault;
use mt_skel::list::is_among;
use mt_skel::name::Name;

/// Whether a mount is in a peer group.
pub(crate) fn is_shared(world: &World, id: MountId) -> bool
    ensures { result ≡ is_some (group_of (world_view world.now) id) }
{
    state_of(world, id).group.is_some()
}

/// Whether the mount on which a mount stands is in a peer group.
pub(crate) fn has_shared_parent(world: &World, id: MountId) -> bool
    ensures { result ≡ option_map_or (λ k. is_some (group_of (world_view world.now) k)) (parent world.now.forest.mounts id) false }
{
    match world.forest.parent(id) {
        Some(parent) => is_shared(world, parent),
        None => false,
    }
}

/// Whether one of these mounts is unbindable.
fn has_unbindable(world: &World, ids: &[MountId]) -> bool
    ensures { result ≡ list_any (λ k. (state_of (world_view world.now) k).unbindable) ids.now }
{
    for id in ids {
        if is_unbindable(world, *id) {
            return true;
        }
    }
    false
}

/// Whether one of these mounts is unbindable and the place where they go is on a shared mount.
pub(crate) fn is_unbindable_inside(world: &World, place: Place, ids: &[MountId]) -> bool
    ensures { result ≡ is_some (group_of (world_view world.now) place.mount) && list_any (λ k. (state_of (world_view world.now) k).unbindable) ids.now }
{
    is_shared(world, place.mount) && has_unbindable(world, ids)
}

/// Moves the mount that one path names, with all that stand on it, to where another path ends, and
/// makes copies of them at each propagation target of that place. The mounts keep their IDs.
///
/// Refused as `NoNamespace`, `Detached` if the namespace is a detached tree, `NoEntry` if a component of the path is not
/// there, `NotMountRoot` if it ends below a mount's root, `RootPlace` if it names a root mount, `NoEntry` and `RootPlace`
/// of the other path, `SharedParent` if the mount stands on one in a peer group, `IntoItself` if the place is in the tree
/// that moves, `UnbindableInside` if the place's mount is in a peer group and one that moves is unbindable, `TooMany` above
/// 4,096 mounts times the room, and as `NoMemory`; then nothing has changed.
pub fn move_mount(
    world: &mut World,
    space: SpaceId,
    from: &[Name],
    to: &[Name],
) -> Result<(), Fault>
    requires well_formed { IsWellFormed (world_view world.old) }
    requires numbers { (world.old.next_mount < 2 ^ 63) × (world.old.peers.next < 2 ^ 63) }
    ensures done { OnOk result (moved (world_view world.old) space from.now to.now ≡ Ok (world_view world.new)) }
    ensures refused { IfErr result (λ fault. fault ≢ Fault.NoMemory → moved (world_view world.old) space from.now to.now ≡ Err fault) }
    ensures unchanged { OnErr result (world_view world.new ≡ world_view world.old) }
    ensures kept { IsWellFormed (world_view world.new) }
    ensures since { since_view world.new ≡ since_view world.old }
{
    if world.is_tree(space) {
        return Err(Fault::Detached);
    }
    let source = world.forest.walk(&world.skel, space, from)?;
    if !is_mount_root(world, source) {
        return Err(Fault::NotMountRoot);
    }
    if is_root_mount(world, source) {
        return Err(Fault::RootPlace);
    }
    let place = world.forest.walk(&world.skel, space, to)?;
    if is_root_place(world, place) {
        return Err(Fault::RootPlace);
    }
    if has_shared_parent(world, source.mount) {
        return Err(Fault::SharedParent);
    }
    let members = world.forest.subtree(source.mount)?;
    if is_among(&members, place.mount) {
        return Err(Fault::IntoItself);
    }
    if is_unbindable_inside(world, place, &members) {
        return Err(Fault::UnbindableInside);
    }
    let sources = Sources::Tree {
        top: source.mount,
        root: source.dir,
        members,
        moved: true,
    };
    let plan = make_plan(world, &sources, place)?;
    ready(world, &plan)?;
    carry_out(world, plan);
    Ok(())
}
