//! What was found in a world while its rows were made.
ghost use Rattle.std.specs.Prelude.{◌≡◌, ◌++◌, Some, IfOk, OnOk, IsOkUnless};
ghost use Rattle.mt_skel.specs.Front.{IsFront};
ghost use Rattle.mt_mounts.specs.Forest.{mount_at};
ghost use Rattle.mt_propagate.specs.World.{world_view, state_of};
ghost use Rattle.mt_propagate.specs.FromGroup.{from_group};
ghost use Rattle.mt_propagate.specs.WellFormed.{IsWellFormed};
ghost use Rattle.mt_info.specs.RowLine.{path_text};
ghost use Rattle.mt_info.specs.Table.{mount_point};

use crate::points::{Points, Step};
use mt_mounts::mount::{Mount, MountId};
use mt_peers::state::{GroupId, State};
use mt_propagate::seen_groups::SeenGroups;
use mt_propagate::world::World;
use mt_skel::fault::Fault;
use mt_skel::names::Names;
use std::marker::Model;

/// A world, and what was found in it for the rows of its mounts: the groups that are seen in their namespaces, and
/// where mounts above them stand. So what many rows of one world need is looked for only once.
pub struct Findings<'a> {
    groups: SeenGroups<'a>,
    points: Points<'a>,
    // Lent to `points`.
    way: Vec<Step>,
}

impl<'a> Model for Findings<'a> {
    ghost use Rattle.std.specs.Prelude.{◌≡◌};
    ghost use Rattle.mt_propagate.specs.declared.world.World.{World};

    ghost Value = { World };

    ghost view = { λ f. f.groups };

    ghost invariant = { λ f. f.points ≡ f.groups };
}

impl<'a> Drop for Findings<'a> {
    fn drop(self) {
        let Findings {
            groups: _groups,
            points: _points,
            way: _way,
        } = self;
    }
}

impl<'a> Findings<'a> {
    /// Nothing is found yet. It takes no memory before a row is made.
    pub fn new(world: &'a World) -> Self
        ensures { result ≡ world.now }
    {
        Findings {
            groups: SeenGroups::new(world),
            points: Points::new(world),
            way: Vec::new(world.forest.allocator()),
        }
    }

    /// The world in which these were found.
    pub fn world(&self) -> &'a World
        ensures { result.now ≡ self.now }
    {
        self.groups.world()
    }

    /// The group that the tag `propagate_from` of a mount in this state names, if it has one.
    pub(crate) fn from_group(
        &mut self,
        id: MountId,
        state: &State,
    ) -> Result<Option<GroupId>, Fault>
        requires { state.now ≡ state_of (world_view self.old) id }
        ensures group { IfOk result (λ group. group ≡ from_group (world_view self.old) id) }
        ensures kept { self.new ≡ self.old }
        ensures memory { IsOkUnless result Fault.NoMemory }
    {
        if state.master.is_none() {
            return Ok(None);
        }
        self.groups.from_group(id)
    }

    /// Where a mount stands, from the root of its namespace down.
    pub(crate) fn point(&mut self, mount: &Mount) -> Result<Names, Fault>
        requires well_formed { IsWellFormed (world_view self.old) }
        requires there { mount_at self.old.forest.mounts mount.now.id ≡ Some mount.now }
        ensures point { IfOk result (λ point. point ≡ mount_point (world_view self.old) mount.now.id) }
        ensures kept { self.new ≡ self.old }
        ensures memory { IsOkUnless result Fault.NoMemory }
    {
        self.points.point(&mut self.way, mount)
    }

    /// Appends the path where a mount stands, from the root of its namespace down.
    pub(crate) fn push_point(&mut self, text: &mut Vec<u8>, mount: &Mount) -> Result<(), Fault>
        requires well_formed { IsWellFormed (world_view self.old) }
        requires there { mount_at self.old.forest.mounts mount.now.id ≡ Some mount.now }
        ensures text { OnOk result (text.new.items ≡ text.old.items ++ path_text (mount_point (world_view self.old) mount.now.id)) }
        ensures kept { IsFront text.old.items text.new.items }
        ensures same { self.new ≡ self.old }
        ensures memory { IsOkUnless result Fault.NoMemory }
    {
        self.points.push_point(text, &mut self.way, mount)
    }
}
