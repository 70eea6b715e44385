//! Detaching a mount with all mounts below it.
ghost use Rattle.std.specs.Prelude.{◌≡◌, ◌≢◌, ◌++◌, ℕ, not, Ok, Err, IfOk, IfErr, OnOk, OnErr, IsOkUnless};
ghost use Rattle.std.specs.List.{filter, flat_map};
ghost use Rattle.mt_skel.specs.Keyed.{among};
ghost use Rattle.mt_mounts.specs.Forest.{parents_up};
ghost use Rattle.mt_propagate.specs.World.{world_view};
ghost use Rattle.mt_propagate.specs.WellFormed.{IsWellFormed};
ghost use Rattle.mt_propagate.specs.Touched.{since_view};
ghost use Rattle.mt_unmount.specs.Detaching.{standing_at, received, candidates, is_detached, met_mounts, is_free, goes_up, is_taken, detached};
ghost use Rattle.mt_unmount.specs.Taking.{AreGone};

use crate::gone::Gone;
use crate::holding::held;
use crate::taking::{place_of, take_away};
use mt_mounts::mount::{MountId, Place, SpaceId};
use mt_propagate::named::{is_mount_root, is_root_mount};
use mt_propagate::receivers::receivers;
use mt_propagate::world::World;
use mt_skel::fault::Fault;
use mt_skel::name::Name;
use mt_skel::skel::Dir;

/// Appends the mounts that stand at this directory of these mounts.
fn push_standing(
    world: &World,
    targets: &[MountId],
    dir: Dir,
    ids: &mut Vec<MountId>,
) -> Result<(), Fault>
    ensures ids { OnOk result (ids.new.items ≡ ids.old.items ++ standing_at (world_view world.now) targets.now dir) }
    ensures memory { IsOkUnless result Fault.NoMemory }
{
    for target in targets {
        let place = Place {
            mount: *target,
            dir,
        };
        if let Some(id) = world.forest.at(place) {
            ids.push(id)?;
        }
    }
    Ok(())
}

/// Appends what a mount receives: at each target of its place the mount at the same directory.
fn push_received(world: &World, id: MountId, ids: &mut Vec<MountId>) -> Result<(), Fault>
    ensures ids { OnOk result (ids.new.items ≡ ids.old.items ++ received (world_view world.now) id) }
    ensures memory { IsOkUnless result Fault.NoMemory }
{
    if let Some(place) = place_of(world, id) {
        let targets = receivers(world, place)?;
        push_standing(world, &targets, place.dir, ids)?;
    }
    Ok(())
}

/// Appends what each of these mounts receives.
fn push_all_received(world: &World, tree: &[MountId], ids: &mut Vec<MountId>) -> Result<(), Fault>
    ensures ids { OnOk result (ids.new.items ≡ ids.old.items ++ flat_map (received (world_view world.now)) tree.now) }
    ensures memory { IsOkUnless result Fault.NoMemory }
{
    for id in tree {
        push_received(world, *id, ids)?;
    }
    Ok(())
}

/// The candidates: the tree of a mount, and what each mount of it receives.
fn candidates(world: &World, id: MountId) -> Result<Vec<MountId>, Fault>
    ensures candidates { IfOk result (λ ids. ids.items ≡ candidates (world_view world.now) id) }
    ensures memory { IsOkUnless result Fault.NoMemory }
{
    let tree = world.forest.subtree(id)?;
    let mut ids = Vec::new(world.forest.allocator());
    ids.extend_from_slice(&tree)?;
    push_all_received(world, &tree, &mut ids)?;
    Ok(ids)
}

/// The candidates that may go: everything inside them is a candidate.
fn loose(world: &World, id: MountId) -> Result<Gone, Fault>
    requires well_formed { IsWellFormed (world_view world.now) }
    ensures loose { IfOk result (AreGone (is_detached (world_view world.now) id)) }
    ensures memory { IsOkUnless result Fault.NoMemory }
{
    let candidates = Gone::new(candidates(world, id)?);
    let held = Gone::new(held(world, &candidates)?);
    Ok(candidates.without(&held))
}

/// The mounts that an unmount of one meets: it, and what it receives.
pub fn met_mounts(world: &World, id: MountId) -> Result<Vec<MountId>, Fault>
    ensures met { IfOk result (λ ids. ids.items ≡ met_mounts (world_view world.now) id) }
    ensures memory { IsOkUnless result Fault.NoMemory }
{
    let mut ids = Vec::new(world.forest.allocator());
    ids.push(id)?;
    push_received(world, id, &mut ids)?;
    Ok(ids)
}

/// The mounts that are locked on their places and were not met: those that do not go for themselves.
fn bound(world: &World, id: MountId) -> Result<Gone, Fault>
    ensures bound { IfOk result (λ bound. (j : ℕ) → not (among bound j) ≡ is_free (world_view world.now) id j) }
    ensures memory { IsOkUnless result Fault.NoMemory }
{
    let locked = Gone::new(world.locks.locked_ids()?);
    let met = Gone::new(met_mounts(world, id)?);
    Ok(locked.without(&met))
}

/// Whether a mount goes, where these may go and those do not go for themselves: told by the mounts from it up.
fn goes(world: &World, loose: &Gone, bound: &Gone, id: MountId) -> bool
    ensures { result ≡ goes_up (among loose.now) (λ j. not (among bound.now j)) (parents_up world.now.forest.mounts id) }
{
    let mut here = id;
    'up: for _step in 0..world.forest.len() {
        if !loose.has(here) {
            return false;
        }
        if !bound.has(here) {
            return true;
        }
        let Some(parent) = world.forest.parent(here) else {
            return false;
        };
        here = parent;
    }
    loose.has(here) && !bound.has(here)
}

/// Those that may go and do not.
fn staying(world: &World, loose: &Gone, bound: &Gone) -> Result<Vec<MountId>, Fault>
    ensures staying { IfOk result (λ ids. ids.items ≡ filter (λ i. not (goes_up (among loose.now) (λ j. not (among bound.now j)) (parents_up world.now.forest.mounts i))) loose.now) }
    ensures memory { IsOkUnless result Fault.NoMemory }
{
    let mut ids = Vec::new(world.forest.allocator());
    for id in loose.ids() {
        if !goes(world, loose, bound, *id) {
            ids.push(*id)?;
        }
    }
    Ok(ids)
}

/// The candidates that go: those that may, and go for themselves or with the mount on which they stand.
fn gone(world: &World, id: MountId) -> Result<Gone, Fault>
    requires well_formed { IsWellFormed (world_view world.now) }
    ensures gone { IfOk result (AreGone (is_taken (world_view world.now) id)) }
    ensures memory { IsOkUnless result Fault.NoMemory }
{
    let loose = loose(world, id)?;
    let bound = bound(world, id)?;
    let staying = Gone::new(staying(world, &loose, &bound)?);
    Ok(loose.without(&staying))
}

/// Detaches the mount that the path names in a namespace, the topmost one there, with all mounts below it, and what
/// each mount of this tree receives: at each propagation target of its place, the mount at the same directory. A
/// received mount stays if inside it, that is, at a directory other than its root or below what stands there, is a
/// mount that is neither in the tree nor received. So does one that is locked on its place, if the mount on which it
/// stands stays, unless the named mount itself receives it. What stands on the root of a mount that goes slides to the
/// place that becomes free.
///
/// Refused as `NoNamespace`, `Detached` if the namespace is a detached tree, `NoEntry` if a component is not there,
/// `NotMountRoot` if the path ends below the root of a mount, `RootPlace` if it names the root mount, and as `NoMemory`;
/// then nothing has changed.
pub fn detach(world: &mut World, space: SpaceId, path: &[Name]) -> Result<(), Fault>
    requires well_formed { IsWellFormed (world_view world.old) }
    ensures done { OnOk result (detached (world_view world.old) space path.now ≡ Ok (world_view world.new)) }
    ensures refused { IfErr result (λ fault. fault ≢ Fault.NoMemory → detached (world_view world.old) space path.now ≡ Err fault) }
    ensures unchanged { OnErr result (world_view world.new ≡ world_view world.old) }
    ensures kept { IsWellFormed (world_view world.new) }
    ensures since { since_view world.new ≡ since_view world.old }
{
    if world.is_tree(space) {
        return Err(Fault::Detached);
    }
    let end = world.forest.walk(&world.skel, space, path)?;
    let place = world.forest.top(end);
    if !is_mount_root(world, place) {
        return Err(Fault::NotMountRoot);
    }
    if is_root_mount(world, place) {
        return Err(Fault::RootPlace);
    }
    let gone = gone(world, place.mount)?;
    take_away(world, &gone)?;
    Ok(())
}
