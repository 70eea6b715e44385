//! A mount for each master that no row is in, in a hidden namespace.
ghost use Rattle.std.specs.Prelude.{◌≡◌, ◌+◌, ◌≤◌, ◌<◌, ◌^◌, IfOk, IfSome, OnOk, IsOkUnless, IsTrue};
ghost use Rattle.mt_skel.specs.Skeleton.{is_directory};
ghost use Rattle.mt_propagate.specs.World.{world_view};
ghost use Rattle.mt_world.specs.Hidden.{HasMoreHidden, IsHidden};
ghost use Rattle.mt_world.specs.Leaves.{IsSound};

use crate::fit::why_unfit;
use crate::joined::{fs_at, join};
use crate::leaf::add_leaf;
use crate::misfit::Misfit;
use crate::row::{MOST_NUMBER, TableRow};
use indexmap::IndexSet;
use mt_mounts::mount::{Attrs, Mount, MountId, Place, SpaceId, root_place};
use mt_peers::state::{GroupId, State};
use mt_propagate::world::World;
use mt_skel::fault::Fault;
use mt_skel::skel::Dir;
use std::alloc::Global;

/// The peer groups of the rows that are kept.
fn groups_of(alloc: Global, kept: &[&TableRow]) -> Result<IndexSet<GroupId>, Fault>
    ensures memory { IsOkUnless result Fault.NoMemory }
{
    let mut groups = IndexSet::new(alloc);
    for row in kept {
        if let Some(group) = row.state.group {
            groups.insert(group)?;
        }
    }
    Ok(groups)
}

/// Adds a mount of a directory to a namespace, at a place, with a number of its own; `None` where it cannot be.
#[tactic(auto, using(crate::proofs::HiddenLaws::later_well))]
fn add_mount(
    world: &mut World,
    space: SpaceId,
    place: Option<Place>,
    root: Dir,
) -> Result<Option<Mount>, Fault>
    requires sound { IsSound (world_view world.old) }
    requires numbers { (1 ≤ space) × (space < world.old.next_space) × (world.old.next_mount ≤ 2 ^ 62) }
    requires there { IsTrue (is_directory world.old.skel root) }
    ensures sound { IsSound (world_view world.new) }
    ensures beside { HasMoreHidden space (world_view world.old) (world_view world.new) }
    ensures numbers { world.new.next_mount ≤ 2 ^ 62 }
    ensures spaces { OnOk result (world.new.next_space ≡ world.old.next_space) }
    ensures mount { IfOk result (λ made. IfSome made (λ mount. IsHidden (world_view world.old) (world_view world.new) mount)) }
    ensures memory { IsOkUnless result Fault.NoMemory }
{
    let id = world.next_mount;
    if id > MOST_NUMBER {
        return Ok(None);
    }
    let mount = Mount {
        id,
        space,
        place,
        root,
        attrs: Attrs::new(),
    };
    if why_unfit(world, &mount).is_some() {
        return Ok(None);
    }
    world.next_mount += 1;
    add_leaf(world, mount)?;
    Ok(Some(mount))
}

/// The root directory of the filesystem that a mount shows.
fn root_of(world: &World, id: MountId) -> Option<Dir>
    requires { IsSound (world_view world.now) }
    ensures { IfSome result (λ root. IsTrue (is_directory world.now.skel root)) }
{
    let mount = world.forest.get(id)?;
    let fs = world.skel.fs_of(mount.root);
    Some(world.skel.root(fs))
}

/// Adds a member of a peer group to a namespace, which shows the filesystem that a mount shows, on the root of the last one that was
/// added, or as the root mount. Where the next one stands.
fn hide(
    world: &mut World,
    space: SpaceId,
    place: Option<Place>,
    group: GroupId,
    slave: MountId,
) -> Result<Option<Place>, Fault>
    requires sound { IsSound (world_view world.old) }
    requires numbers { (1 ≤ space) × (space < world.old.next_space) × (world.old.next_mount ≤ 2 ^ 62) }
    ensures sound { IsSound (world_view world.new) }
    ensures beside { HasMoreHidden space (world_view world.old) (world_view world.new) }
    ensures numbers { world.new.next_mount ≤ 2 ^ 62 }
    ensures spaces { OnOk result (world.new.next_space ≡ world.old.next_space) }
    ensures memory { IsOkUnless result Fault.NoMemory }
{
    let Some(root) = root_of(world, slave) else {
        return Ok(place);
    };
    let Some(mount) = add_mount(world, space, place, root)? else {
        return Ok(place);
    };
    let state = State {
        group: Some(group),
        master: None,
        unbindable: false,
    };
    let _why = join(world, mount.id, state)?;
    Ok(Some(root_place(&mount)))
}

/// The master of a row, if no row that is kept is in it.
fn unseen_master(row: &TableRow, groups: &IndexSet<GroupId>) -> Option<GroupId> {
    let master = row.state.master?;
    if groups.contains(&master) {
        None
    } else {
        Some(master)
    }
}

/// Adds a mount to a namespace for the master of a row that is kept, if no row that is kept is in it, and none was added for it. Where the next
/// one stands.
fn hide_master(
    world: &mut World,
    space: SpaceId,
    place: Option<Place>,
    row: &TableRow,
    groups: &IndexSet<GroupId>,
) -> Result<Option<Place>, Fault>
    requires sound { IsSound (world_view world.old) }
    requires numbers { (1 ≤ space) × (space < world.old.next_space) × (world.old.next_mount ≤ 2 ^ 62) }
    ensures sound { IsSound (world_view world.new) }
    ensures beside { HasMoreHidden space (world_view world.old) (world_view world.new) }
    ensures numbers { world.new.next_mount ≤ 2 ^ 62 }
    ensures spaces { OnOk result (world.new.next_space ≡ world.old.next_space) }
    ensures memory { IsOkUnless result Fault.NoMemory }
{
    let Some(master) = unseen_master(row, groups) else {
        return Ok(place);
    };
    if world.peers.first_member(master).is_some() {
        return Ok(place);
    }
    let next = hide(world, space, place, master, row.id)?;
    Ok(next)
}

/// The rows that are kept.
fn kept_rows<'a>(
    alloc: Global,
    rows: &'a [TableRow],
    left: &[Option<Misfit>],
) -> Result<Vec<&'a TableRow>, Fault>
    ensures memory { IsOkUnless result Fault.NoMemory }
{
    let mut kept = Vec::new(alloc);
    let mut others = left.iter();
    for row in rows {
        if let Some(None) = others.next() {
            kept.push(row)?;
        }
    }
    Ok(kept)
}

/// Makes a mount for each master of the rows that are kept in which none of them is: all in one namespace, which gets the next number.
#[tactic(auto, using(crate::proofs::RaisedLaws::raised_beside))]
pub(crate) fn hide_masters(
    alloc: Global,
    world: &mut World,
    rows: &[TableRow],
    left: &[Option<Misfit>],
) -> Result<(), Fault>
    requires sound { IsSound (world_view world.old) }
    requires numbers { (world.old.next_mount ≤ 2 ^ 62) × (world.old.next_space ≤ 2 ^ 62) }
    ensures sound { IsSound (world_view world.new) }
    ensures beside { HasMoreHidden world.old.next_space (world_view world.old) (world_view world.new) }
    ensures numbers { world.new.next_mount ≤ 2 ^ 62 }
    ensures spaces { OnOk result (world.new.next_space ≡ world.old.next_space + 1) }
    ensures memory { IsOkUnless result Fault.NoMemory }
{
    let kept = kept_rows(alloc, rows, left)?;
    let groups = groups_of(alloc, kept.as_slice())?;
    let space = world.next_space;
    world.next_space += 1;
    let mut place = None;
    'rows: for row in kept.as_slice() {
        place = hide_master(world, space, place, row, &groups)?;
    }
    Ok(())
}
