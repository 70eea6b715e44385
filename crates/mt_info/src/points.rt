//! Where mounts stand: their mount points, from those that are known above them.
//!
//! The point of a mount is that of its parent, followed by the names from the parent's root down to the mount. So the
//! way up from a mount ends where a point is known, and points along long ways are kept for later mounts.
ghost use Rattle.std.specs.Prelude.{◌≡◌, ◌++◌, ◌∷◌, ◌-◌, ℕ, List, length, drop, reverse, unwrap_or, option_copied, [], IfOk, OnOk, IsOkUnless, MatchOption, Some, IsTrue, ⊤};
ghost use Rattle.std.specs.List.{flat_map, list_all};
ghost use Rattle.mt_skel.specs.Front.{IsFront};
ghost use Rattle.mt_skel.specs.Escapes.{escaped};
ghost use Rattle.mt_skel.specs.Skeleton.{directory};
ghost use Rattle.mt_mounts.specs.Forest.{mount_at};
ghost use Rattle.mt_propagate.specs.World.{world_view};
ghost use Rattle.mt_propagate.specs.WellFormed.{IsWellFormed};
ghost use Rattle.mt_info.specs.RowLine.{path_text};
ghost use Rattle.mt_info.specs.Table.{mount_point};
ghost use Rattle.mt_info.specs.Steps.{is_step, step_names};

use indexmap::IndexMap;
use mt_mounts::mount::{Mount, MountId};
use mt_propagate::world::World;
use mt_skel::escape::push_escaped;
use mt_skel::fault::Fault;
use mt_skel::names::Names;
use mt_skel::skel::{Dir, Skel};
use std::alloc::AllocError;
use std::marker::Model;

/// A way with more steps is long: the point in its middle is kept.
const LONG: usize = 8;

/// A step down: from the root of a mount to the directory where another one stands on it.
#[derive(Clone, Copy)]
pub(crate) struct Step {
    parent: MountId,
    root: Dir,
    dir: Dir,
}

/// A world, and the mount points of some of its mounts.
pub(crate) struct Points<'a> {
    world: &'a World,
    known: IndexMap<MountId, Names>,
    // Whether a way was long already: of the first one nothing is kept, since there may be no other.
    went_far: bool,
}

impl<'a> Model for Points<'a> {
    ghost use Rattle.mt_propagate.specs.declared.world.World.{World};
    ghost use Rattle.mt_propagate.specs.World.{world_view};
    ghost use Rattle.mt_info.specs.Points.{ArePoints};

    ghost Value = { World };

    ghost view = { λ p. p.world.now };

    ghost invariant = { λ p. ArePoints (world_view p.world.now) p.known };
}

impl<'a> Drop for Points<'a> {
    fn drop(self) {
        let Points {
            world: _world,
            known: _known,
            went_far: _went_far,
        } = self;
    }
}

impl<'a> Points<'a> {
    /// No point is known. It takes memory only once a way is long.
    pub(crate) fn new(world: &'a World) -> Self
        ensures { result ≡ world.now }
    {
        Points {
            world,
            known: IndexMap::new(world.forest.allocator()),
            went_far: false,
        }
    }

    /// Where a mount stands, if that is known.
    fn known(&self, id: MountId) -> Option<&Names>
        ensures { MatchOption result ⊤ (λ point. point.now ≡ mount_point (world_view self.now) id) }
    {
        self.known.get(&id)
    }

    /// The way up from a mount, to where a point is known, or to the root mount: its steps, the lowest first, and the
    /// point, if one is known.
    fn way_up(&self, way: &mut Vec<Step>, mount: &Mount) -> Result<Option<&Names>, AllocError>
        requires well_formed { IsWellFormed (world_view self.now) }
        requires there { mount_at self.now.forest.mounts mount.now.id ≡ Some mount.now }
        ensures point { IfOk result (λ above. mount_point (world_view self.now) mount.now.id ≡ unwrap_or (option_copied above) [] ++ flat_map (step_names self.now.skel) (reverse way.new.items)) }
        ensures steps { OnOk result (IsTrue (list_all (is_step self.now.skel) way.new.items)) }
    {
        way.clear();
        let forest = &self.world.forest;
        let mut here = *mount;
        'up: for _step in 0..forest.len() {
            let Some(place) = here.place else {
                return Ok(None);
            };
            let parent = forest.get(place.mount).unwrap();
            way.push(Step {
                parent: parent.id,
                root: parent.root,
                dir: place.dir,
            })?;
            if let Some(point) = self.known(parent.id) {
                return Ok(Some(point));
            }
            here = parent;
        }
        Ok(None)
    }

    /// The way down to a mount: as [`way_up`](Points::way_up), the uppermost step first.
    fn way_down(&self, way: &mut Vec<Step>, mount: &Mount) -> Result<Option<&Names>, AllocError>
        requires well_formed { IsWellFormed (world_view self.now) }
        requires there { mount_at self.now.forest.mounts mount.now.id ≡ Some mount.now }
        ensures point { IfOk result (λ above. mount_point (world_view self.now) mount.now.id ≡ unwrap_or (option_copied above) [] ++ flat_map (step_names self.now.skel) way.new.items) }
        ensures steps { OnOk result (IsTrue (list_all (is_step self.now.skel) way.new.items)) }
    {
        let above = self.way_up(way, mount)?;
        way.reverse();
        Ok(above)
    }

    /// Where a mount stands; `way` has the way down to it then.
    fn made(&self, way: &mut Vec<Step>, mount: &Mount) -> Result<Names, Fault>
        requires well_formed { IsWellFormed (world_view self.now) }
        requires there { mount_at self.now.forest.mounts mount.now.id ≡ Some mount.now }
        ensures point { IfOk result (λ point. point ≡ mount_point (world_view self.now) mount.now.id) }
        ensures memory { IsOkUnless result Fault.NoMemory }
    {
        let above = match self.way_down(way, mount)? {
            Some(above) => above.copy()?,
            None => Names::root(self.world.forest.allocator()),
        };
        let point = add_steps(above, &self.world.skel, way.as_slice())?;
        // The copy has no more memory than it needs.
        point.copy()
    }

    /// Appends the path where a mount stands; `way` has the way down to it then.
    fn push_made(
        &self,
        text: &mut Vec<u8>,
        way: &mut Vec<Step>,
        mount: &Mount,
    ) -> Result<(), AllocError>
        requires well_formed { IsWellFormed (world_view self.now) }
        requires there { mount_at self.now.forest.mounts mount.now.id ≡ Some mount.now }
        ensures text { OnOk result (text.new.items ≡ text.old.items ++ path_text (mount_point (world_view self.now) mount.now.id)) }
        ensures kept { IsFront text.old.items text.new.items }
    {
        let start = text.len();
        let above = self.way_down(way, mount)?;
        push_above(text, above)?;
        push_steps(text, &self.world.skel, way.as_slice())?;
        push_root(text, start)
    }

    /// Keeps where a mount stands.
    fn learn(&mut self, id: MountId) -> Result<(), Fault>
        requires { IsWellFormed (world_view self.old) }
        ensures kept { self.new ≡ self.old }
        ensures memory { IsOkUnless result Fault.NoMemory }
    {
        let Some(mount) = self.world.forest.get(id) else {
            return Ok(());
        };
        let mut way = Vec::new(self.world.forest.allocator());
        let point = self.made(&mut way, &mount)?;
        self.known.insert(id, point)?;
        Ok(())
    }

    /// Keeps the point in the middle of a way, if it is long and not the first such way, so that the next way there is
    /// half as long.
    fn learn_from(&mut self, way: &[Step]) -> Result<(), Fault>
        requires { IsWellFormed (world_view self.old) }
        ensures kept { self.new ≡ self.old }
        ensures memory { IsOkUnless result Fault.NoMemory }
    {
        if way.len() <= LONG {
            return Ok(());
        }
        if !self.went_far {
            self.went_far = true;
            return Ok(());
        }
        self.learn(way[way.len() / 2].parent)
    }

    /// Where a mount stands, from the root of its namespace down. What is in `way` is lost: it is lent so that not each
    /// point takes memory of its own.
    pub(crate) fn point(&mut self, way: &mut Vec<Step>, mount: &Mount) -> Result<Names, Fault>
        requires well_formed { IsWellFormed (world_view self.old) }
        requires there { mount_at self.old.forest.mounts mount.now.id ≡ Some mount.now }
        ensures point { IfOk result (λ point. point ≡ mount_point (world_view self.old) mount.now.id) }
        ensures kept { self.new ≡ self.old }
        ensures memory { IsOkUnless result Fault.NoMemory }
    {
        let point = self.made(way, mount)?;
        self.learn_from(way.as_slice())?;
        Ok(point)
    }

    /// Appends the path where a mount stands, from the root of its namespace down. What is in `way` is lost.
    pub(crate) fn push_point(
        &mut self,
        text: &mut Vec<u8>,
        way: &mut Vec<Step>,
        mount: &Mount,
    ) -> Result<(), Fault>
        requires well_formed { IsWellFormed (world_view self.old) }
        requires there { mount_at self.old.forest.mounts mount.now.id ≡ Some mount.now }
        ensures text { OnOk result (text.new.items ≡ text.old.items ++ path_text (mount_point (world_view self.old) mount.now.id)) }
        ensures kept { IsFront text.old.items text.new.items }
        ensures same { self.new ≡ self.old }
        ensures memory { IsOkUnless result Fault.NoMemory }
    {
        self.push_made(text, way, mount)?;
        self.learn_from(way.as_slice())
    }
}

/// How many of the last names of its directory a step adds.
fn count(skel: &Skel, step: Step) -> usize
    requires { IsTrue (is_step skel.now step) }
    ensures { drop (length (directory skel.now step.dir).path - result) (directory skel.now step.dir).path ≡ step_names skel.now step }
{
    if step.root == step.dir {
        return 0;
    }
    let below = skel.depth(step.dir);
    let outer = skel.depth(step.root);
    below.saturating_sub(outer)
}

/// A path with the names of a step at its end.
fn add_step(path: Names, skel: &Skel, step: Step) -> Result<Names, AllocError>
    requires { IsTrue (is_step skel.now step) }
    ensures { IfOk result (λ names. names ≡ path ++ step_names skel.now step) }
{
    let count = count(skel, step);
    let names = skel.add_path(path, step.dir, count)?;
    Ok(names)
}

/// A path with the names of steps, one below the other, at its end.
fn add_steps(path: Names, skel: &Skel, way: &[Step]) -> Result<Names, AllocError>
    requires { IsTrue (list_all (is_step skel.now) way.now) }
    ensures { IfOk result (λ names. names ≡ path ++ flat_map (step_names skel.now) way.now) }
{
    let mut names = path;
    'steps: for step in way {
        names = add_step(names, skel, *step)?;
    }
    Ok(names)
}

/// Appends the names of a point, if there is one, each preceded by a slash and with its escapes.
fn push_above(text: &mut Vec<u8>, above: Option<&Names>) -> Result<(), AllocError>
    ensures text { OnOk result (text.new.items ≡ text.old.items ++ flat_map (λ n. 47 ∷ escaped n) (unwrap_or (option_copied above.entry) [])) }
    ensures kept { IsFront text.old.items text.new.items }
{
    let Some(point) = above else {
        return Ok(());
    };
    push_escaped(text, point.text())?;
    Ok(())
}

/// Appends the names of a step, each preceded by a slash and with its escapes.
fn push_step(text: &mut Vec<u8>, skel: &Skel, step: Step) -> Result<(), AllocError>
    requires { IsTrue (is_step skel.now step) }
    ensures text { OnOk result (text.new.items ≡ text.old.items ++ flat_map (λ n. 47 ∷ escaped n) (step_names skel.now step)) }
    ensures kept { IsFront text.old.items text.new.items }
{
    let count = count(skel, step);
    skel.push_path(text, step.dir, count)?;
    Ok(())
}

/// Appends the names of steps, one below the other.
fn push_steps(text: &mut Vec<u8>, skel: &Skel, way: &[Step]) -> Result<(), AllocError>
    requires { IsTrue (list_all (is_step skel.now) way.now) }
    ensures text { OnOk result (text.new.items ≡ text.old.items ++ flat_map (λ n. 47 ∷ escaped n) (flat_map (step_names skel.now) way.now)) }
    ensures kept { IsFront text.old.items text.new.items }
{
    'steps: for step in way {
        push_step(text, skel, *step)?;
    }
    Ok(())
}

/// Completes the text of a path after its names, each preceded by a slash: if there were none, so that the text is as
/// long as it was before them, a slash is appended.
pub(crate) fn push_root(text: &mut Vec<u8>, start: usize) -> Result<(), AllocError>
    ensures text { OnOk result ((front : List ℕ) (names : List (List ℕ)) → length front ≡ start → text.old.items ≡ front ++ flat_map (λ n. 47 ∷ escaped n) names → text.new.items ≡ front ++ path_text names) }
    ensures kept { IsFront text.old.items text.new.items }
{
    if text.len() == start {
        text.push(b'/')?;
    }
    Ok(())
}
