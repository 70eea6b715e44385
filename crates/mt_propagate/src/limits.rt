//! How many mounts and namespaces there can be.
ghost use Rattle.std.specs.Prelude.{◌≡◌};
ghost use Rattle.mt_propagate.specs.World.{world_view};
ghost use Rattle.mt_propagate.specs.Limits.{too_many_mounts, too_many_spaces};

use crate::world::World;

/// The most mounts in all, where the room is 1.
const MOST_MOUNTS: usize = 4_096;

/// The most namespaces, where the room is 1.
const MOST_SPACES: usize = 64;

/// Whether with this many more mounts there are more than 4,096 for each unit of the room.
pub fn too_many_mounts(world: &World, more: usize) -> bool
    ensures { result ≡ too_many_mounts (world_view world.now) more }
{
    let mounts = world.forest.len();
    let most = MOST_MOUNTS * world.skel.room();
    mounts > most || more > most - mounts
}

/// Whether there are 64 namespaces already for each unit of the room.
pub fn too_many_spaces(world: &World) -> bool
    ensures { result ≡ too_many_spaces (world_view world.now) }
{
    world.forest.spaces() >= MOST_SPACES * world.skel.room()
}
