//! Detached trees come to stand at places.
ghost use Rattle.std.specs.Prelude.{◌≡◌, ◌≢◌, ◌<◌, ◌^◌, true, IfErr, OnOk, OnErr, Ok, Err};
ghost use Rattle.mt_propagate.specs.Plans.{source_of, copied_source};
ghost use Rattle.mt_propagate.specs.World.{world_view, root_dir};
ghost use Rattle.mt_propagate.specs.WellFormed.{IsWellFormed};
ghost use Rattle.mt_propagate.specs.Touched.{since_view};
ghost use Rattle.mt_bind.specs.Attaching.{attached};

use crate::dropping::ids_in;
use crate::moving::is_unbindable_inside;
use mt_mounts::mount::{MountId, SpaceId};
use mt_propagate::carry::{carry_out, ready};
use mt_propagate::copies::{Sources, mount_or_unknown};
use mt_propagate::named::is_root_place;
use mt_propagate::plan::make_plan;
use mt_propagate::world::World;
use mt_skel::fault::Fault;
use mt_skel::name::Name;

/// All mounts of a tree, of which these are the IDs, with its root mount as their top.
fn whole_tree(world: &World, top: MountId, ids: Vec<MountId>) -> Sources
    ensures { source_of (world_view world.now) result ≡ copied_source (world_view world.now) top (root_dir (world_view world.now) top) ids.items true }
{
    Sources::Tree {
        top,
        root: mount_or_unknown(world, top).root,
        members: ids,
        moved: true,
    }
}

/// Moves all mounts of a detached tree to where a path ends in a namespace, which may be another tree, and makes copies of
/// them at each propagation target of that place. The mounts keep their IDs, and each that has a group or a master keeps
/// it. The tree is no namespace any more, and its number is not given again.
///
/// Refused as `NoNamespace` if there is no such tree, `NotDetached` if that is no detached tree, `NoNamespace` and
/// `NoEntry` of the path, `RootPlace` if the path is `/`, `IntoItself` if it is of the tree itself, `UnbindableInside` if
/// the place's mount is in a peer group and one that moves is unbindable, `TooMany` above 4,096 mounts times the room, and
/// as `NoMemory`; then nothing has changed.
pub fn move_tree(
    world: &mut World,
    tree: SpaceId,
    space: SpaceId,
    path: &[Name],
) -> Result<(), Fault>
    requires well_formed { IsWellFormed (world_view world.old) }
    requires numbers { (world.old.next_mount < 2 ^ 63) × (world.old.peers.next < 2 ^ 63) }
    ensures done { OnOk result (attached (world_view world.old) tree space path.now ≡ Ok (world_view world.new)) }
    ensures refused { IfErr result (λ fault. fault ≢ Fault.NoMemory → attached (world_view world.old) tree space path.now ≡ Err fault) }
    ensures unchanged { OnErr result (world_view world.new ≡ world_view world.old) }
    ensures kept { IsWellFormed (world_view world.new) }
    ensures since { since_view world.new ≡ since_view world.old }
{
    let Some(top) = world.forest.root(tree) else {
        return Err(Fault::NoNamespace);
    };
    if !world.is_tree(tree) {
        return Err(Fault::NotDetached);
    }
    let place = world.forest.walk(&world.skel, space, path)?;
    if is_root_place(world, place) {
        return Err(Fault::RootPlace);
    }
    if space == tree {
        return Err(Fault::IntoItself);
    }
    let ids = ids_in(world, tree)?;
    if is_unbindable_inside(world, place, &ids) {
        return Err(Fault::UnbindableInside);
    }
    let sources = whole_tree(world, top, ids);
    let plan = make_plan(world, &sources, place)?;
    ready(world, &plan)?;
    carry_out(world, plan);
    Ok(())
}
