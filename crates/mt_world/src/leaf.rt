//! One mount more.
ghost use Rattle.std.specs.Prelude.{◌≡◌, None, OnOk, OnErr, IsOkUnless};
ghost use Rattle.mt_propagate.specs.World.{world_view};
ghost use Rattle.mt_propagate.specs.WellFormed.{IsWellFormed};
ghost use Rattle.mt_world.specs.Fitting.{why_unfit};
ghost use Rattle.mt_world.specs.Leaves.{IsGiven, with_leaf};

use mt_mounts::mount::Mount;
use mt_propagate::world::{PRIVATE, World};
use mt_skel::fault::Fault;

/// Adds a private mount on which no other one stands, with an ID that was given out. Refused as `NoMemory` alone; then nothing has changed.
pub(crate) fn add_leaf(world: &mut World, mount: Mount) -> Result<(), Fault>
    requires well_formed { IsWellFormed (world_view world.old) }
    requires given { IsGiven (world_view world.old) mount }
    requires fits { why_unfit (world_view world.old) mount ≡ None }
    ensures done { OnOk result (world_view world.new ≡ with_leaf (world_view world.old) mount) }
    ensures kept { IsWellFormed (world_view world.new) }
    ensures unchanged { OnErr result (world_view world.new ≡ world_view world.old) }
    ensures memory { IsOkUnless result Fault.NoMemory }
{
    world.forest.reserve(1)?;
    world.peers.reserve(1)?;
    world.forest.insert(mount);
    world.peers.join(mount.id, PRIVATE);
    Ok(())
}
