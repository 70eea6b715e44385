//! Whether a mount can be added to a world.
ghost use Rattle.std.specs.Prelude.{◌≡◌};
ghost use Rattle.mt_propagate.specs.World.{world_view};
ghost use Rattle.mt_world.specs.Fitting.{why_unfit, why_unplaced, why_second_root};

use crate::misfit::Misfit;
use mt_mounts::mount::{Mount, Place, SpaceId};
use mt_propagate::limits::{too_many_mounts, too_many_spaces};
use mt_propagate::world::World;

/// Why a root mount cannot be added to a namespace, if it cannot.
fn why_second_root(world: &World, space: SpaceId) -> Option<Misfit>
    ensures { result ≡ why_second_root (world_view world.now) space }
{
    if world.forest.root(space).is_some() {
        return Some(Misfit::SecondRoot);
    }
    if too_many_spaces(world) {
        return Some(Misfit::NoRoom);
    }
    None
}

/// Why a mount of a namespace cannot stand at a place, if it cannot.
fn why_unplaced(world: &World, space: SpaceId, place: Place) -> Option<Misfit>
    ensures { result ≡ why_unplaced (world_view world.now) space place }
{
    let Some(parent) = world.forest.get(place.mount) else {
        return Some(Misfit::NoParent);
    };
    if parent.space != space {
        return Some(Misfit::NoParent);
    }
    if !world.skel.holds(parent.root, place.dir) {
        return Some(Misfit::Elsewhere);
    }
    if world.forest.at(place).is_some() {
        return Some(Misfit::SamePlace);
    }
    None
}

/// Why a mount cannot be added to a world, if it cannot: the first reason there is.
pub(crate) fn why_unfit(world: &World, mount: &Mount) -> Option<Misfit>
    ensures { result ≡ why_unfit (world_view world.now) mount.now }
{
    if world.forest.get(mount.id).is_some() {
        return Some(Misfit::SameId);
    }
    if too_many_mounts(world, 1) {
        return Some(Misfit::NoRoom);
    }
    match mount.place {
        Some(place) => why_unplaced(world, mount.space, place),
        None => why_second_root(world, mount.space),
    }
}
