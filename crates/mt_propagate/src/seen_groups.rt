//! Which peer groups are seen in a namespace, that is, have a member there.
ghost use Rattle.std.specs.Prelude.{◌≡◌, ◌==◌, cond, Some, None, IfOk, IfSome, IsOkUnless};
ghost use Rattle.std.specs.List.{list_any};
ghost use Rattle.std.specs.Option.{option_and_then};
ghost use Rattle.mt_peers.specs.Coming.{coming};
ghost use Rattle.mt_propagate.specs.World.{world_view, space_of};
ghost use Rattle.mt_propagate.specs.FromGroup.{from_group, is_seen, nearest_seen};

use crate::world::{World, space_of, state_of};
use indexmap::IndexMap;
use mt_mounts::mount::{MountId, SpaceId};
use mt_peers::iter::PeersOf;
use mt_peers::state::GroupId;
use mt_skel::fault::Fault;
use std::marker::Model;

/// Whether one of the mounts that come is in a namespace.
fn any_in(world: &World, space: SpaceId, mounts: PeersOf<'_>) -> bool
    ensures { result ≡ list_any (λ i. space_of (world_view world.now) i == space) (coming mounts.entry) }
{
    for id in mounts {
        if space_of(world, id) == space {
            return true;
        }
    }
    false
}

/// Whether a peer group has a member in a namespace. Goes over its members up to the first there.
fn is_seen(world: &World, space: SpaceId, group: GroupId) -> bool
    ensures { result ≡ is_seen (world_view world.now) space group }
{
    any_in(world, space, world.peers.peers_of(group))
}

/// The nearest group that is seen in a namespace, from a group upwards.
fn nearest_seen(world: &World, space: SpaceId, group: GroupId) -> Option<GroupId>
    ensures { result ≡ nearest_seen (world_view world.now) space group }
{
    if is_seen(world, space, group) {
        return Some(group);
    }
    for above in world.peers.masters_up(group) {
        if is_seen(world, space, above) {
            return Some(above);
        }
    }
    None
}

/// The group, unless it is the master, which a mount tells anyway.
fn beside(master: GroupId, group: Option<GroupId>) -> Option<GroupId>
    ensures { result ≡ option_and_then (λ g. cond (g == master) None (Some g)) group }
{
    let group = group?;
    if group == master { None } else { Some(group) }
}

/// The group that the tag `propagate_from` of a mount names: the nearest from its master upwards that has a member in
/// the mount's namespace. `None` if that is the master itself, if no group above has one, and for a mount without a
/// master. Takes no memory.
pub fn from_group(world: &World, id: MountId) -> Option<GroupId>
    ensures { result ≡ from_group (world_view world.now) id }
{
    let master = state_of(world, id).master?;
    // Where no group is above the master, none can be told.
    let _above = world.peers.master_of(master)?;
    beside(master, nearest_seen(world, space_of(world, id), master))
}

/// A namespace, and the peer group from which upwards a group is looked for that is seen there.
#[derive(Clone, Copy, PartialEq, Eq, Hash)]
struct Search {
    space: SpaceId,
    group: GroupId,
}

/// A world, and which groups were found to be the nearest that are seen in a namespace. So the members of the groups
/// above a master are looked at only once for each namespace, however many slaves it has there.
pub struct SeenGroups<'a> {
    world: &'a World,
    found: IndexMap<Search, Option<GroupId>>,
}

impl<'a> Model for SeenGroups<'a> {
    ghost use Rattle.mt_propagate.specs.declared.world.World.{World};
    ghost use Rattle.mt_propagate.specs.World.{world_view};

    ghost Value = { World };

    ghost use Rattle.mt_propagate.specs.Searches.{AreNearest};

    ghost view = { λ s. s.world.now };

    ghost invariant = { λ s. AreNearest (world_view s.world.now) s.found };
}

impl<'a> Drop for SeenGroups<'a> {
    fn drop(self) {
        let SeenGroups {
            world: _world,
            found: _found,
        } = self;
    }
}

impl<'a> SeenGroups<'a> {
    /// Nothing is found yet. It takes memory only once a mount has a master.
    pub fn new(world: &'a World) -> Self
        ensures { result ≡ world.now }
    {
        SeenGroups {
            world,
            found: IndexMap::new(world.forest.allocator()),
        }
    }

    /// The world of these groups.
    pub fn world(&self) -> &'a World
        ensures { result.now ≡ self.now }
    {
        self.world
    }

    /// What was found from a group upwards, if that was looked for.
    fn found(&self, search: Search) -> Option<Option<GroupId>>
        ensures { IfSome result (λ group. group ≡ nearest_seen (world_view self.now) search.space search.group) }
    {
        self.found.get(&search).copied()
    }

    /// The nearest group that is seen in a namespace, from a group upwards.
    fn nearest(&mut self, search: Search) -> Result<Option<GroupId>, Fault>
        ensures nearest { IfOk result (λ group. group ≡ nearest_seen (world_view self.old) search.space search.group) }
        ensures kept { self.new ≡ self.old }
        ensures memory { IsOkUnless result Fault.NoMemory }
    {
        if let Some(group) = self.found(search) {
            return Ok(group);
        }
        let group = nearest_seen(self.world, search.space, search.group);
        self.found.insert(search, group)?;
        Ok(group)
    }

    /// What [`from_group`] answers of a mount.
    pub fn from_group(&mut self, id: MountId) -> Result<Option<GroupId>, Fault>
        ensures group { IfOk result (λ group. group ≡ from_group (world_view self.old) id) }
        ensures kept { self.new ≡ self.old }
        ensures memory { IsOkUnless result Fault.NoMemory }
    {
        let Some(group) = state_of(self.world, id).master else {
            return Ok(None);
        };
        // Where no group is above the master, none can be told.
        if self.world.peers.master_of(group).is_none() {
            return Ok(None);
        }
        let space = space_of(self.world, id);
        let nearest = self.nearest(Search { space, group })?;
        Ok(beside(group, nearest))
    }
}
