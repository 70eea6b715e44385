//! Directories of mounts, and the paths that lead to them.
ghost use Rattle.std.specs.Prelude.{◌≡◌, ◌++◌, IfOk, IfSome, IsOkUnless, IsTrue};
ghost use Rattle.mt_skel.specs.Skeleton.{is_directory, is_filesystem, directory};
ghost use Rattle.mt_propagate.specs.World.{world_view};
ghost use Rattle.mt_trace.specs.Walks.{spot_settled, settled_from, spot_below, names_inside};

use crate::standing::Standing;
use crate::told::{Halt, Told};
use mt_mounts::mount::{Mount, MountId, Place, SpaceId, root_place};
use mt_propagate::world::World;
use mt_skel::fault::Fault;
use mt_skel::name::Name;
use mt_skel::names::Names;
use mt_skel::skel::{Dir, FsId};

/// A step on the way from a place up to the root of its namespace: a directory, and the root of the mount that shows it.
#[derive(Clone, Copy)]
struct Step {
    dir: Dir,
    root: Dir,
}

/// Whether a directory is there.
#[tactic(auto, using(crate::proofs::SpotLaws::holds_itself))]
pub fn is_there(world: &World, dir: Dir) -> bool
    ensures { result ≡ is_directory (world_view world.now).skel dir }
{
    world.skel.holds(dir, dir)
}

/// Names with others at their end.
fn with_all(names: Names, more: &[Name]) -> Result<Names, Fault>
    ensures joined { IfOk result (λ joined. joined ≡ names ++ more.now) }
    ensures memory { IsOkUnless result Fault.NoMemory }
{
    let mut names = names;
    'each: for name in more {
        names = names.with(name)?;
    }
    Ok(names)
}

/// Names with some more at their end. Refused as `NoMemory` alone.
pub fn names_joined(names: Names, more: &Names) -> Result<Names, Fault>
    ensures joined { IfOk result (λ joined. joined ≡ names ++ more.now) }
    ensures memory { IsOkUnless result Fault.NoMemory }
{
    let more = more.to_vec()?;
    with_all(names, &more)
}

/// The way from a place up to the root of its namespace, the lowest step first. `None` if its mount is not there.
fn way_up(world: &World, place: Place) -> Result<Option<(SpaceId, Vec<Step>)>, Fault> {
    let mut steps = Vec::new(world.forest.allocator());
    let mut here = place;
    for _step in 0..=world.forest.len() {
        let Some(mount) = world.forest.get(here.mount) else {
            return Ok(None);
        };
        steps.push(Step {
            dir: here.dir,
            root: mount.root,
        })?;
        match mount.place {
            Some(place) => here = place,
            None => return Ok(Some((mount.space, steps))),
        }
    }
    Ok(None)
}

/// The names that such steps have from the top down.
fn names_down(world: &World, steps: Vec<Step>) -> Result<Names, Fault> {
    let mut steps = steps;
    steps.reverse();
    let mut names = Names::root(world.forest.allocator());
    for step in &steps {
        names = with_step(world, names, *step)?;
    }
    Ok(names)
}

/// Names with those of a step at their end, from the root of its mount down to its directory.
fn with_step(world: &World, names: Names, step: Step) -> Result<Names, Fault> {
    if !is_there(world, step.dir) || !is_there(world, step.root) {
        return Ok(names);
    }
    let above = world.skel.depth(step.root);
    let count = world.skel.depth(step.dir).saturating_sub(above);
    Ok(world.skel.add_path(names, step.dir, count)?)
}

/// The namespace of a standing, and the names from its root down to it, whether a path leads there or not. `None` if its mount is not
/// there. Refused as `NoMemory` alone.
pub fn names_to(world: &World, standing: &Standing) -> Result<Option<(SpaceId, Names)>, Fault> {
    let Some((space, steps)) = way_up(world, standing.place)? else {
        return Ok(None);
    };
    let names = names_down(world, steps)?;
    Ok(Some((space, names_joined(names, &standing.below)?)))
}

/// The names from the root of its filesystem down to a standing. `None` if its directory is not there. Refused as `NoMemory` alone.
pub fn names_inside(world: &World, standing: &Standing) -> Result<Option<Names>, Fault>
    ensures inside { IfOk result (λ inside. inside ≡ names_inside (world_view world.now) standing.now) }
    ensures memory { IsOkUnless result Fault.NoMemory }
{
    let dir = standing.place.dir;
    if !is_there(world, dir) {
        return Ok(None);
    }
    let names = names_down_to(world, dir)?;
    let names = names_joined(names, &standing.below)?;
    Ok(Some(names))
}

/// The names from the root of its filesystem down to a directory. Refused as `NoMemory` alone.
fn names_down_to(world: &World, dir: Dir) -> Result<Names, Fault>
    requires { IsTrue (is_directory (world_view world.now).skel dir) }
    ensures names { IfOk result (λ names. names ≡ (directory (world_view world.now).skel dir).path) }
    ensures memory { IsOkUnless result Fault.NoMemory }
{
    let root = Names::root(world.forest.allocator());
    let names = world.skel.add_path(root, dir, world.skel.depth(dir))?;
    Ok(names)
}

/// Where a path leads in a namespace.
fn end_of(world: &World, space: SpaceId, names: &Names) -> Result<Option<Place>, Fault> {
    match world.forest.walk(&world.skel, space, &names.to_vec()?) {
        Ok(place) => Ok(Some(place)),
        Err(Fault::NoMemory) => Err(Fault::NoMemory),
        Err(_) => Ok(None),
    }
}

/// The path that leads to a place, with its namespace. Told as [`Told::Gone`] if the mount of the place was taken away, and as
/// [`Told::Covered`] if no path leads there.
pub fn path_of_place(world: &World, place: Place) -> Result<(SpaceId, Names), Halt> {
    let standing = Standing::at(world.forest.allocator(), place);
    let Some((space, names)) = names_to(world, &standing)? else {
        return Err(Halt::Told(Told::Gone));
    };
    if end_of(world, space, &names)? == Some(place) {
        Ok((space, names))
    } else {
        Err(Halt::Told(Told::Covered))
    }
}

/// The path that leads to a place or to what stands on it, with its namespace. Told as [`path_of_place`] does.
pub fn path_to_stack(world: &World, place: Place) -> Result<(SpaceId, Names), Halt> {
    let standing = Standing::at(world.forest.allocator(), place);
    let Some((space, names)) = names_to(world, &standing)? else {
        return Err(Halt::Told(Told::Gone));
    };
    match end_of(world, space, &names)? {
        Some(end) if world.forest.top(end) == place => Ok((space, names)),
        _ => Err(Halt::Told(Told::Covered)),
    }
}

/// A standing of which more directories are there by now: nothing that was mounted since counts. Refused as `NoMemory` alone.
pub fn settled_standing(world: &World, standing: &Standing) -> Result<Standing, Fault>
    ensures settled { IfOk result (λ settled. settled ≡ spot_settled (world_view world.now) standing.now) }
    ensures memory { IsOkUnless result Fault.NoMemory }
{
    let names = standing.below.to_vec()?;
    let start = Standing::at(world.forest.allocator(), standing.place);
    settled_from(world, start, &names)
}

/// Where names lead from a standing, one after another: nothing that is mounted there counts.
fn settled_from(world: &World, start: Standing, names: &[Name]) -> Result<Standing, Fault>
    ensures settled { IfOk result (λ settled. settled ≡ settled_from (world_view world.now) start names.now) }
    ensures memory { IsOkUnless result Fault.NoMemory }
{
    let mut settled = start;
    'each: for name in names {
        settled = down(world, settled, name)?;
    }
    Ok(settled)
}

/// The directory of a name in a standing: nothing that is mounted there counts.
fn down(world: &World, standing: Standing, name: &Name) -> Result<Standing, Fault>
    ensures below { IfOk result (λ below. below ≡ spot_below (world_view world.now) standing name.now) }
    ensures memory { IsOkUnless result Fault.NoMemory }
{
    if standing.is_made() {
        if let Some(dir) = world.skel.child(standing.place.dir, name) {
            let mount = standing.place.mount;
            return Ok(Standing::at(world.forest.allocator(), Place { mount, dir }));
        }
    }
    let Standing { place, below } = standing;
    let below = below.with(name)?;
    Ok(Standing { place, below })
}

/// The directory of a name in a standing, without what is mounted there. Refused as `NoMemory` alone.
pub fn child_standing(world: &World, standing: &Standing, name: &Name) -> Result<Standing, Fault>
    ensures child { IfOk result (λ child. child ≡ spot_below (world_view world.now) standing.now name.now) }
    ensures memory { IsOkUnless result Fault.NoMemory }
{
    down(world, standing.copy()?, name)
}

/// The directory in which the last name of a standing is, of the same mount. `None` at the root of a filesystem.
fn directory_above(world: &World, standing: &Standing) -> Result<Option<Standing>, Fault> {
    let alloc = world.forest.allocator();
    if !standing.is_made() {
        let names = standing.below.to_vec()?;
        let Some((_last, above)) = names.split_last() else {
            return Ok(None);
        };
        let mut below = Names::root(alloc);
        for name in above {
            below = below.with(name)?;
        }
        return Ok(Some(Standing {
            place: standing.place,
            below,
        }));
    }
    match parent_of(world, standing.place.dir)? {
        Some(dir) => {
            let mount = standing.place.mount;
            Ok(Some(Standing::at(alloc, Place { mount, dir })))
        }
        None => Ok(None),
    }
}

/// The directory that has another one in it. `None` of the root of a filesystem.
fn parent_of(world: &World, dir: Dir) -> Result<Option<Dir>, Fault> {
    if !is_there(world, dir) {
        return Ok(None);
    }
    let path = world.skel.path_of(dir)?;
    let Some((_last, above)) = path.split_last() else {
        return Ok(None);
    };
    let mut here = world.skel.root(world.skel.fs_of(dir));
    for name in above {
        here = world.skel.child(here, name).unwrap_or(here);
    }
    Ok(Some(here))
}

/// Whether a standing is the root directory of its mount.
pub fn is_root_standing(mount: &Mount, standing: &Standing) -> bool {
    standing.is_made() && standing.place.dir == mount.root
}

/// Where `..` leads in a process with this root (path_resolution(7)): to the directory above, and from the root of a mount to that above
/// its mount point; at the root of the process, and at that of its namespace, it stays. Told as [`Told::Gone`] where a mount was
/// taken away.
pub fn standing_above(
    world: &World,
    root: &Standing,
    standing: Standing,
) -> Result<Standing, Halt> {
    let mut here = standing;
    for _step in 0..=world.forest.len() {
        if here.is_same(root) {
            return Ok(here);
        }
        let Some(mount) = world.forest.get(here.place.mount) else {
            return Err(Halt::Told(Told::Gone));
        };
        if !is_root_standing(&mount, &here) {
            return match directory_above(world, &here)? {
                Some(above) => Ok(above),
                None => Ok(here),
            };
        }
        match mount.place {
            Some(place) => here = Standing::at(world.forest.allocator(), place),
            None => return Ok(here),
        }
    }
    Ok(here)
}

/// Where the root directory of a mount is.
pub fn root_place_of(world: &World, id: MountId) -> Option<Place> {
    let mount = world.forest.get(id)?;
    Some(root_place(&mount))
}

/// Where the root directory of the root mount of a namespace is, if the namespace is there.
pub fn space_root(world: &World, space: SpaceId) -> Option<Place> {
    let id = world.forest.root(space)?;
    root_place_of(world, id)
}

/// The filesystem of a directory, if it is there.
pub fn filesystem_holding(world: &World, dir: Dir) -> Option<FsId>
    ensures there { IfSome result (λ fs. IsTrue (is_filesystem (world_view world.now).skel fs)) }
{
    if is_there(world, dir) {
        Some(world.skel.fs_of(dir))
    } else {
        None
    }
}

/// The filesystem that a mount shows, if the mount is there.
pub fn shown_filesystem(world: &World, id: MountId) -> Option<FsId>
    ensures there { IfSome result (λ fs. IsTrue (is_filesystem (world_view world.now).skel fs)) }
{
    let mount = world.forest.get(id)?;
    filesystem_holding(world, mount.root)
}

/// The filesystems that mounts show. Refused as `NoMemory` alone.
pub fn filesystems_shown(world: &World) -> Result<Vec<FsId>, Fault> {
    let mounts = world.forest.mounts()?;
    let mut shown = Vec::new(world.forest.allocator());
    for mount in &mounts {
        if let Some(fs) = filesystem_holding(world, mount.root) {
            shown.push(fs)?;
        }
    }
    Ok(shown)
}

/// Whether the filesystem that a mount shows is of this type.
pub fn is_of_kind(world: &World, id: MountId, kind: &[u8]) -> bool {
    match shown_filesystem(world, id) {
        Some(fs) => world.skel.kind(fs).bytes() == kind,
        None => false,
    }
}

/// The namespace of a mount. Told as [`Told::Gone`] if the mount was taken away.
pub fn space_of_mount(world: &World, id: MountId) -> Result<SpaceId, Halt> {
    match world.forest.get(id) {
        Some(mount) => Ok(mount.space),
        None => Err(Halt::Told(Told::Gone)),
    }
}
