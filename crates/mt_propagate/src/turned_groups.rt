//! Peer groups that are seen differently after a change, and the mounts below them, which may tell another group above
//! their master.
ghost use Rattle.std.specs.Prelude.{◌≡◌, ℕ, ◌||◌, false, map, nat_eq, IsTrue, OnOk, IfOk, IsOkUnless};
ghost use Rattle.std.specs.List.{flat_map};
ghost use Rattle.std.specs.Option.{option_map_or};
ghost use Rattle.mt_skel.specs.Keyed.{among};
ghost use Rattle.mt_propagate.specs.World.{world_view, space_of, is_space};
ghost use Rattle.mt_propagate.specs.FromGroup.{is_seen};
ghost use Rattle.mt_propagate.specs.WellFormed.{IsWellFormed};
ghost use Rattle.mt_propagate.specs.Touched.{AreNoted, IsTouched};
ghost use Rattle.mt_propagate.specs.Turned.{IsSteady, IsQuiet, IsLedAlike, is_alike, groups_of_changed, lasts, lasting_group, groups_lasting};

use crate::below_groups::{push_all_below, push_below_in};
use crate::receivers::group_of;
use crate::sorted::in_order;
use crate::world::{World, space_of, state_of};
use mt_mounts::mount::{MountId, SpaceId};
use mt_peers::state::GroupId;
use mt_skel::fault::Fault;

/// The namespaces of these mounts, in their order.
fn spaces_of(world: &World, ids: &[MountId]) -> Result<Vec<SpaceId>, Fault>
    ensures spaces { IfOk result (λ spaces. spaces.items ≡ map (space_of (world_view world.now)) ids.now) }
    ensures memory { IsOkUnless result Fault.NoMemory }
{
    let mut spaces = Vec::new(world.peers.allocator());
    for id in ids {
        spaces.push(space_of(world, *id))?;
    }
    Ok(spaces)
}

/// The namespaces in which a peer group has members, rising, each once.
fn spaces_seen(world: &World, group: GroupId) -> Result<Vec<SpaceId>, Fault>
    ensures seen { IfOk result (λ spaces. (n : ℕ) → among spaces.items n ≡ is_seen (world_view world.now) n group) }
    ensures memory { IsOkUnless result Fault.NoMemory }
{
    let members = world.peers.members(group)?;
    Ok(in_order(spaces_of(world, &members)?))
}

/// Whether a peer group has the same master before and after, and members in the same namespaces.
fn is_steady(before: &World, after: &World, group: GroupId) -> Result<bool, Fault>
    ensures steady { IfOk result (λ steady. IsTrue steady → IsSteady (world_view before.now) (world_view after.now) group) }
    ensures memory { IsOkUnless result Fault.NoMemory }
{
    if before.peers.master_of(group) != after.peers.master_of(group) {
        return Ok(false);
    }
    Ok(spaces_seen(before, group)? == spaces_seen(after, group)?)
}

/// Whether a mount has the same group, master and namespace before and after.
fn is_alike(before: &World, after: &World, id: MountId) -> bool
    ensures { result ≡ is_alike (world_view before.now) (world_view after.now) id }
{
    let old = state_of(before, id);
    let new = state_of(after, id);
    old.group == new.group
        && old.master == new.master
        && space_of(before, id) == space_of(after, id)
}

/// Appends a group, if there is one and it is not the last of them.
fn push_next(groups: &mut Vec<GroupId>, group: Option<GroupId>) -> Result<(), Fault>
    ensures groups { OnOk result ((g : ℕ) → among groups.new.items g ≡ (among groups.old.items g || option_map_or (nat_eq g) group false)) }
    ensures memory { IsOkUnless result Fault.NoMemory }
{
    let Some(group) = group else {
        return Ok(());
    };
    if groups.last() != Some(&group) {
        groups.push(group)?;
    }
    Ok(())
}

/// Appends the groups of a mount before and after, unless it has the same group, master and namespace, or one is the
/// last of them.
fn push_groups(
    groups: &mut Vec<GroupId>,
    before: &World,
    after: &World,
    id: MountId,
) -> Result<(), Fault>
    ensures groups { OnOk result ((g : ℕ) → among groups.new.items g ≡ (among groups.old.items g || among (groups_of_changed (world_view before.now) (world_view after.now) id) g)) }
    ensures memory { IsOkUnless result Fault.NoMemory }
{
    let (old, new) = (group_of(before, id), group_of(after, id));
    let is_groupless = old.is_none() && new.is_none();
    if is_groupless || (old == new && is_alike(before, after, id)) {
        return Ok(());
    }
    push_next(groups, old)?;
    push_next(groups, new)
}

/// The groups that some of these mounts joined or left, or stay in with another master, rising, each once.
fn changed_groups(before: &World, after: &World, ids: &[MountId]) -> Result<Vec<GroupId>, Fault>
    ensures groups { IfOk result (λ groups. (g : ℕ) → among groups.items g ≡ among (flat_map (groups_of_changed (world_view before.now) (world_view after.now)) ids.now) g) }
    ensures memory { IsOkUnless result Fault.NoMemory }
{
    let mut groups = Vec::new(after.peers.allocator());
    for id in ids {
        push_groups(&mut groups, before, after, *id)?;
    }
    Ok(in_order(groups))
}

/// Whether a namespace is there.
fn is_space(world: &World, space: SpaceId) -> bool
    ensures { result ≡ is_space (world_view world.now) space }
{
    world.forest.root(space).is_some()
}

/// Whether a namespace is there both before and after.
fn lasts(before: &World, after: &World, space: SpaceId) -> bool
    ensures { result ≡ lasts (world_view before.now) (world_view after.now) space }
{
    is_space(before, space) && is_space(after, space)
}

/// The peer group of a mount in a world, if its namespace there lasts.
fn lasting_group(world: &World, before: &World, after: &World, id: MountId) -> Option<GroupId>
    ensures { result ≡ lasting_group (world_view world.now) (world_view before.now) (world_view after.now) id }
{
    let group = group_of(world, id)?;
    if lasts(before, after, space_of(world, id)) {
        Some(group)
    } else {
        None
    }
}

/// Appends the groups of a mount before and after that it has in namespaces that last, unless it has the same group, master
/// and namespace.
fn push_lasting(
    groups: &mut Vec<GroupId>,
    before: &World,
    after: &World,
    id: MountId,
) -> Result<(), Fault>
    ensures groups { OnOk result ((g : ℕ) → among groups.new.items g ≡ (among groups.old.items g || among (groups_lasting (world_view before.now) (world_view after.now) id) g)) }
    ensures memory { IsOkUnless result Fault.NoMemory }
{
    let (old, new) = (
        lasting_group(before, before, after, id),
        lasting_group(after, before, after, id),
    );
    let is_groupless = old.is_none() && new.is_none();
    if is_groupless || is_alike(before, after, id) {
        return Ok(());
    }
    push_next(groups, old)?;
    push_next(groups, new)
}

/// The groups that some of these mounts joined or left, or stay in with another master, in namespaces that last, rising,
/// each once.
fn lasting_groups(before: &World, after: &World, ids: &[MountId]) -> Result<Vec<GroupId>, Fault>
    ensures groups { IfOk result (λ groups. (g : ℕ) → among groups.items g ≡ among (flat_map (groups_lasting (world_view before.now) (world_view after.now)) ids.now) g) }
    ensures memory { IsOkUnless result Fault.NoMemory }
{
    let mut groups = Vec::new(after.peers.allocator());
    for id in ids {
        push_lasting(&mut groups, before, after, *id)?;
    }
    Ok(in_order(groups))
}

/// Appends a peer group that has slaves, if it has another master before than after.
fn push_led(
    groups: &mut Vec<GroupId>,
    before: &World,
    after: &World,
    group: GroupId,
) -> Result<(), Fault>
    ensures kept { OnOk result ((g : ℕ) → IsTrue (among groups.old.items g) → IsTrue (among groups.new.items g)) }
    ensures led { OnOk result (among groups.new.items group ≡ false → IsLedAlike (world_view before.now) (world_view after.now) group) }
    ensures memory { IsOkUnless result Fault.NoMemory }
{
    if after.peers.first_slave(group).is_none()
        || before.peers.master_of(group) == after.peers.master_of(group)
    {
        return Ok(());
    }
    groups.push(group)?;
    Ok(())
}

/// Those of these groups that have slaves and another master before than after.
fn led_groups(before: &World, after: &World, groups: &[GroupId]) -> Result<Vec<GroupId>, Fault>
    ensures led { IfOk result (λ led. (g : ℕ) → IsTrue (among groups.now g) → among led.items g ≡ false → IsLedAlike (world_view before.now) (world_view after.now) g) }
    ensures memory { IsOkUnless result Fault.NoMemory }
{
    let mut led = Vec::new(after.peers.allocator());
    'groups: for group in groups {
        push_led(&mut led, before, after, *group)?;
    }
    Ok(led)
}

/// Appends a peer group that has slaves, unless it is steady.
fn push_turned(
    groups: &mut Vec<GroupId>,
    before: &World,
    after: &World,
    group: GroupId,
) -> Result<(), Fault>
    ensures kept { OnOk result ((g : ℕ) → IsTrue (among groups.old.items g) → IsTrue (among groups.new.items g)) }
    ensures turned { OnOk result (among groups.new.items group ≡ false → IsQuiet (world_view before.now) (world_view after.now) group) }
    ensures memory { IsOkUnless result Fault.NoMemory }
{
    if after.peers.first_slave(group).is_none() || is_steady(before, after, group)? {
        return Ok(());
    }
    groups.push(group)?;
    Ok(())
}

/// Those of these groups that have slaves and are not steady.
fn turned_groups(before: &World, after: &World, groups: &[GroupId]) -> Result<Vec<GroupId>, Fault>
    ensures turned { IfOk result (λ turned. (g : ℕ) → IsTrue (among groups.now g) → among turned.items g ≡ false → IsQuiet (world_view before.now) (world_view after.now) g) }
    ensures memory { IsOkUnless result Fault.NoMemory }
{
    let mut turned = Vec::new(after.peers.allocator());
    'groups: for group in groups {
        push_turned(&mut turned, before, after, *group)?;
    }
    Ok(turned)
}

/// The namespaces of these mounts before and after, rising, each once.
fn spaces_around(before: &World, after: &World, ids: &[MountId]) -> Result<Vec<SpaceId>, Fault>
    ensures spaces { IfOk result (λ spaces. (n : ℕ) → among spaces.items n ≡ (among (map (space_of (world_view before.now)) ids.now) n || among (map (space_of (world_view after.now)) ids.now) n)) }
    ensures memory { IsOkUnless result Fault.NoMemory }
{
    let mut spaces = spaces_of(before, ids)?;
    let others = spaces_of(after, ids)?;
    spaces.extend_from_slice(&others)?;
    Ok(in_order(spaces))
}

/// Appends, to the mounts that came, went or changed, those that may tell another group above their master because of
/// it: those below a group that got another master; and below a group that has members in a namespace only before or only
/// after, those in the namespaces of the mounts that came, went or changed. Of a namespace that comes or goes all mounts do
/// so too, and it does not matter which groups are seen there. If no mount has a master, none is looked at.
pub(crate) fn push_turned_below(
    ids: &mut Vec<MountId>,
    before: &World,
    after: &World,
) -> Result<(), Fault>
    requires before { IsWellFormed (world_view before.now) }
    requires after { IsWellFormed (world_view after.now) }
    requires noted { AreNoted (world_view before.now) (world_view after.now) ids.old.items }
    ensures touched { OnOk result (IsTouched (world_view before.now) (world_view after.now) ids.new.items) }
    ensures memory { IsOkUnless result Fault.NoMemory }
{
    if !after.peers.has_slaves() {
        return Ok(());
    }
    let groups = changed_groups(before, after, ids)?;
    let led = led_groups(before, after, &groups)?;
    let lasting = lasting_groups(before, after, ids)?;
    let turned = turned_groups(before, after, &lasting)?;
    let spaces = spaces_around(before, after, ids)?;
    push_all_below(ids, after, &led)?;
    push_below_in(ids, after, &turned, &spaces)?;
    Ok(())
}
