//! The mounts below peer groups, at whatever height.
ghost use Rattle.std.specs.Prelude.{◌≡◌, ℕ, ◌++◌, false, nat_eq, IsTrue, OnOk, IfOk, IsOkUnless};
ghost use Rattle.std.specs.List.{filter_map, flat_map, list_any};
ghost use Rattle.mt_skel.specs.Keyed.{among};
ghost use Rattle.mt_peers.specs.Peers.{slaves};
ghost use Rattle.mt_peers.specs.Masters.{masters_up, reaches};
ghost use Rattle.mt_peers.specs.Members.{group_at};
ghost use Rattle.mt_peers.specs.Entered.{entered};
ghost use Rattle.mt_peers.specs.WellFormed.{IsPeering};
ghost use Rattle.mt_propagate.specs.World.{world_view, space_of};
ghost use Rattle.mt_propagate.specs.Turned.{is_below_group};

use crate::order::Order;
use crate::receivers::{entered, group_of, push_some};
use crate::world::{World, space_of};
use mt_mounts::mount::{MountId, SpaceId};
use mt_peers::state::GroupId;
use mt_skel::fault::Fault;

/// Appends the groups that are entered at slaves of a group, when the search began at `start`.
fn push_entered(
    groups: &mut Vec<GroupId>,
    world: &World,
    start: GroupId,
    slaves: &[MountId],
) -> Result<(), Fault>
    ensures groups { OnOk result (groups.new.items ≡ groups.old.items ++ filter_map (λ i. entered world.now.peers.peers start i (group_at world.now.peers.peers i)) slaves.now) }
    ensures memory { IsOkUnless result Fault.NoMemory }
{
    'slaves: for id in slaves {
        let own = group_of(world, *id);
        push_some(groups, entered(&world.peers, start, *id, own))?;
    }
    Ok(())
}

/// A peer group and all below it, at whatever height, each once.
fn groups_below(world: &World, group: GroupId) -> Result<Vec<GroupId>, Fault>
    ensures groups { IfOk result (λ groups. (h : ℕ) → among groups.items h ≡ reaches world.now.peers.peers h group) }
    ensures memory { IsOkUnless result Fault.NoMemory }
{
    let mut groups = Vec::new(world.peers.allocator());
    groups.push(group)?;
    let mut visited = 0usize;
    'groups: while visited < groups.len() {
        let slaves = world.peers.slaves(groups[visited])?;
        push_entered(&mut groups, world, group, &slaves)?;
        visited += 1;
    }
    Ok(groups)
}

/// Appends the slaves of these groups.
fn push_slaves(ids: &mut Vec<MountId>, world: &World, groups: &[GroupId]) -> Result<(), Fault>
    ensures ids { OnOk result (ids.new.items ≡ ids.old.items ++ flat_map (slaves world.now.peers.peers) groups.now) }
    ensures memory { IsOkUnless result Fault.NoMemory }
{
    'groups: for group in groups {
        let slaves = world.peers.slaves(*group)?;
        ids.extend_from_slice(&slaves)?;
    }
    Ok(())
}

/// Whether one of these groups is above another group. Takes no memory.
fn has_one_above(world: &World, groups: &Order, group: GroupId) -> bool
    ensures { result ≡ list_any (λ h. list_any (nat_eq h) groups.now) (masters_up world.now.peers.peers group) }
{
    for above in world.peers.masters_up(group) {
        if groups.has(above) {
            return true;
        }
    }
    false
}

/// Appends the mounts below a group, unless one of these groups is above it, since they are found below that one as
/// well.
fn push_below(
    ids: &mut Vec<MountId>,
    world: &World,
    groups: &Order,
    group: GroupId,
) -> Result<(), Fault>
    ensures kept { OnOk result ((i : ℕ) → IsTrue (among ids.old.items i) → IsTrue (among ids.new.items i)) }
    ensures below { OnOk result (list_any (λ h. list_any (nat_eq h) groups.now) (masters_up world.now.peers.peers group) ≡ false → (i : ℕ) → IsTrue (is_below_group world.now.peers.peers group i) → IsTrue (among ids.new.items i)) }
    ensures memory { IsOkUnless result Fault.NoMemory }
{
    if has_one_above(world, groups, group) {
        return Ok(());
    }
    let below = groups_below(world, group)?;
    push_slaves(ids, world, &below)?;
    Ok(())
}

/// Appends the mounts below these groups, at whatever height. No group is gone over twice.
pub(crate) fn push_all_below(
    ids: &mut Vec<MountId>,
    world: &World,
    groups: &[GroupId],
) -> Result<(), Fault>
    requires order { IsPeering (world_view world.now).peering }
    ensures kept { OnOk result ((i : ℕ) → IsTrue (among ids.old.items i) → IsTrue (among ids.new.items i)) }
    ensures below { OnOk result ((g i : ℕ) → IsTrue (among groups.now g) → IsTrue (is_below_group world.now.peers.peers g i) → IsTrue (among ids.new.items i)) }
    ensures memory { IsOkUnless result Fault.NoMemory }
{
    let order = Order::new(Vec::from_slice(world.peers.allocator(), groups)?);
    'groups: for group in groups {
        push_below(ids, world, &order, *group)?;
    }
    Ok(())
}

/// Appends those of these mounts that are in some namespaces.
fn push_those_in(
    ids: &mut Vec<MountId>,
    world: &World,
    mounts: &[MountId],
    spaces: &[SpaceId],
) -> Result<(), Fault>
    ensures kept { OnOk result ((i : ℕ) → IsTrue (among ids.old.items i) → IsTrue (among ids.new.items i)) }
    ensures those { OnOk result ((i : ℕ) → IsTrue (among mounts.now i) → IsTrue (list_any (nat_eq (space_of (world_view world.now) i)) spaces.now) → IsTrue (among ids.new.items i)) }
    ensures memory { IsOkUnless result Fault.NoMemory }
{
    let order = Order::new(Vec::from_slice(world.peers.allocator(), spaces)?);
    'mounts: for id in mounts {
        if order.has(space_of(world, *id)) {
            ids.push(*id)?;
        }
    }
    Ok(())
}

/// Appends the mounts below these groups, at whatever height, that are in some namespaces.
pub(crate) fn push_below_in(
    ids: &mut Vec<MountId>,
    world: &World,
    groups: &[GroupId],
    spaces: &[SpaceId],
) -> Result<(), Fault>
    requires order { IsPeering (world_view world.now).peering }
    ensures kept { OnOk result ((i : ℕ) → IsTrue (among ids.old.items i) → IsTrue (among ids.new.items i)) }
    ensures below { OnOk result ((g i : ℕ) → IsTrue (among groups.now g) → IsTrue (is_below_group world.now.peers.peers g i) → IsTrue (list_any (nat_eq (space_of (world_view world.now) i)) spaces.now) → IsTrue (among ids.new.items i)) }
    ensures memory { IsOkUnless result Fault.NoMemory }
{
    let mut below = Vec::new(world.peers.allocator());
    push_all_below(&mut below, world, groups)?;
    push_those_in(ids, world, &below, spaces)?;
    Ok(())
}
