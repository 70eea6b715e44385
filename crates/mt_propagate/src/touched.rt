//! The mounts that changed since changes began to be noted.
ghost use Rattle.std.specs.Prelude.{◌≡◌, ℕ, ◌||◌, IsTrue, IfOk, IsOkUnless};
ghost use Rattle.mt_skel.specs.Keyed.{among, rises};
ghost use Rattle.mt_propagate.specs.World.{world_view};
ghost use Rattle.mt_propagate.specs.WellFormed.{IsWellFormed};
ghost use Rattle.mt_propagate.specs.Touched.{AreNoted, IsTouched, since_of, since_view};

use crate::sorted::in_order;
use crate::turned_groups::push_turned_below;
use crate::world::World;
use mt_mounts::mount::MountId;
use mt_skel::fault::Fault;
use std::alloc::Global;

/// The IDs of two lists; if both lists are the same, as they are after most commands, those of one.
fn joined(alloc: Global, first: &[MountId], second: &[MountId]) -> Result<Vec<MountId>, Fault>
    ensures joined { IfOk result (λ ids. (i : ℕ) → among ids.items i ≡ (among first.now i || among second.now i)) }
    ensures memory { IsOkUnless result Fault.NoMemory }
{
    let mut ids = Vec::from_slice(alloc, first)?;
    if second == first {
        return Ok(ids);
    }
    ids.extend_from_slice(second)?;
    Ok(ids)
}

/// The IDs that the forest or the peers noted.
fn noted(before: &World, after: &World) -> Result<Vec<MountId>, Fault>
    requires since { since_view after.now ≡ since_of (world_view before.now) }
    ensures noted { IfOk result (λ ids. AreNoted (world_view before.now) (world_view after.now) ids.items) }
    ensures memory { IsOkUnless result Fault.NoMemory }
{
    let alloc = after.forest.allocator();
    joined(alloc, after.forest.touched(), after.peers.touched())
}

/// The mounts that are not in `after` as they are in `before`, with which `after` was equal at its last
/// [`begin`](World::begin), or when it was made: those that came, went or were changed, those with another state, and
/// those that may tell another group above their master. They are listed by rising ID, each once. A mount that was
/// changed back may be there too. No other mount is looked at, except for those of groups that have slaves and of which
/// a mount came, went or got another master.
pub fn touched(before: &World, after: &World) -> Result<Vec<MountId>, Fault>
    requires since { since_view after.now ≡ since_of (world_view before.now) }
    requires before { IsWellFormed (world_view before.now) }
    requires after { IsWellFormed (world_view after.now) }
    ensures touched { IfOk result (λ ids. IsTouched (world_view before.now) (world_view after.now) ids.items) }
    ensures rising { IfOk result (λ ids. IsTrue (rises (λ k. k) ids.items)) }
    ensures memory { IsOkUnless result Fault.NoMemory }
{
    let changed = noted(before, after)?;
    let mut ids = in_order(changed);
    push_turned_below(&mut ids, before, after)?;
    Ok(in_order(ids))
}
