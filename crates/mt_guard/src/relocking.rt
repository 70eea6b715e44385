//! What is locked once a command is done.
ghost use Rattle.std.specs.Prelude.{◌≡◌};
ghost use Rattle.mt_propagate.specs.World.{world_view};
ghost use Rattle.mt_propagate.specs.Touched.{since_view};
ghost use Rattle.mt_guard.specs.Changing.{with_locks};

use mt_locks::locks::Locks;
use mt_propagate::world::World;

/// Puts locks into a world: those of the mounts that are there, and the owners of the namespaces that are there. Takes no
/// memory.
pub fn relock(world: &mut World, locks: Locks)
    ensures world { world_view world.new ≡ with_locks locks (world_view world.old) }
    ensures since { since_view world.new ≡ since_view world.old }
{
    let kept = locks.kept(&world.forest);
    world.locks = kept;
}
