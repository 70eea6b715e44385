//! The end of namespaces.
ghost use Rattle.std.specs.Prelude.{◌≡◌, ◌≢◌, ◌≤◌, map, length, IfOk, IfErr, OnOk, OnErr, IsOkUnless, Ok, Err};
ghost use Rattle.mt_mounts.specs.Forest.{id_of};
ghost use Rattle.mt_peers.specs.Peers.{peering_of};
ghost use Rattle.mt_peers.specs.WellFormed.{IsPeering};
ghost use Rattle.mt_propagate.specs.World.{world_view};
ghost use Rattle.mt_propagate.specs.WellFormed.{IsWellFormed};
ghost use Rattle.mt_propagate.specs.Touched.{since_view};
ghost use Rattle.mt_bind.specs.Spaces.{originals, drop_space};
ghost use Rattle.mt_bind.specs.Dropping.{without_mounts};

use mt_mounts::mount::{MountId, SpaceId};
use mt_propagate::carry::remove_all;
use mt_propagate::world::World;
use mt_skel::fault::Fault;

/// The IDs of the mounts of a namespace, rising.
pub(crate) fn ids_in(world: &World, space: SpaceId) -> Result<Vec<MountId>, Fault>
    ensures ids { IfOk result (λ ids. ids.items ≡ map id_of (originals (world_view world.now) space)) }
    ensures memory { IsOkUnless result Fault.NoMemory }
{
    let mounts = world.forest.mounts_in(space)?;
    let mut ids = Vec::with_capacity(world.forest.allocator(), mounts.len())?;
    for mount in &mounts {
        ids.push(mount.id)?;
    }
    Ok(ids)
}

/// Makes room to take this many mounts away and to change the states of all, and changes nothing.
fn make_room(world: &mut World, count: usize) -> Result<(), Fault>
    ensures mounts { OnOk result (count ≤ world.new.forest.room) }
    ensures states { OnOk result (length world.new.peers.peers ≤ world.new.peers.room) }
    ensures memory { IsOkUnless result Fault.NoMemory }
    ensures world { world_view world.new ≡ world_view world.old }
    ensures since { since_view world.new ≡ since_view world.old }
{
    world.forest.reserve(count)?;
    world.reserve_states()
}

/// Takes these mounts away with their states, before any other gets another master. [`make_room`] has made room.
fn drop_mounts(world: &mut World, ids: &[MountId])
    requires order { IsPeering (peering_of world.old.peers) }
    requires mounts { length ids.now ≤ world.old.forest.room }
    requires states { length world.old.peers.peers ≤ world.old.peers.room }
    ensures world { world_view world.new ≡ without_mounts (world_view world.old) ids.now }
    ensures since { since_view world.new ≡ since_view world.old }
{
    remove_all(&mut world.forest, ids);
    world.peers.leave_in_order(ids);
}

/// Takes a namespace away with all its mounts. Nothing propagates: mounts of other namespaces stay,
/// and those whose master has lost its last member get another one, or none. The number of the
/// namespace is not given again.
///
/// Refused as `NoNamespace` and as `NoMemory`; then nothing has changed.
pub fn drop_space(world: &mut World, space: SpaceId) -> Result<(), Fault>
    requires well_formed { IsWellFormed (world_view world.old) }
    ensures done { OnOk result (drop_space (world_view world.old) space ≡ Ok (world_view world.new)) }
    ensures refused { IfErr result (λ fault. fault ≢ Fault.NoMemory → drop_space (world_view world.old) space ≡ Err fault) }
    ensures unchanged { OnErr result (world_view world.new ≡ world_view world.old) }
    ensures kept { IsWellFormed (world_view world.new) }
    ensures since { since_view world.new ≡ since_view world.old }
{
    if world.forest.root(space).is_none() {
        return Err(Fault::NoNamespace);
    }
    let ids = ids_in(world, space)?;
    make_room(world, ids.len())?;
    drop_mounts(world, &ids);
    world.end_tree(space);
    Ok(())
}
