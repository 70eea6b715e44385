//! Which mounts a recursive bind copies.
ghost use Rattle.std.specs.Prelude.{◌≡◌, map, IfOk, OnOk, IsOkUnless};
ghost use Rattle.std.specs.List.{filter};
ghost use Rattle.mt_mounts.specs.Forest.{id_of};
ghost use Rattle.mt_propagate.specs.World.{world_view};
ghost use Rattle.mt_propagate.specs.WellFormed.{IsWellFormed};
ghost use Rattle.mt_bind.specs.Sources.{leads_within, is_bound_along};
ghost use Rattle.mt_bind.specs.Judged.{IsJudged};

use crate::binding::is_unbindable;
use indexmap::IndexMap;
use mt_mounts::mount::{MountId, Place};
use mt_propagate::world::World;
use mt_skel::fault::Fault;
use mt_skel::skel::Dir;

/// What was found of mounts on the ways up: whether a recursive bind copies them.
struct Judgements {
    found: IndexMap<MountId, bool>,
}

impl Drop for Judgements {
    fn drop(self) {
        let Judgements { found: _found } = self;
    }
}

/// Whether a mount stands at a directory or below it. True if there is no mount to ask about.
fn leads_within(world: &World, dir: Dir, mount: Option<MountId>) -> bool
    ensures { result ≡ leads_within (world_view world.now) dir mount }
{
    let Some(id) = mount else {
        return true;
    };
    let Some(mount) = world.forest.get(id) else {
        return false;
    };
    match mount.place {
        Some(place) => world.skel.holds(dir, place.dir),
        None => false,
    }
}

/// Whether a recursive bind of a directory copies a mount: it is the directory's own mount, or it
/// stands on that one at whatever height, within the directory, and neither it nor a mount between
/// the two is unbindable. The way up ends at a mount for which this was found before.
fn is_bound_along(world: &World, from: Place, judged: &IndexMap<MountId, bool>, id: MountId) -> bool
    requires well_formed { IsWellFormed (world_view world.now) }
    requires judged { IsJudged (world_view world.now) from judged.now }
    ensures { result ≡ is_bound_along (world_view world.now) from id }
{
    let mut here = id;
    let mut passed = None;
    'parents: for _step in 0..world.forest.len() {
        if here == from.mount {
            return leads_within(world, from.dir, passed);
        }
        if let Some(bound) = judged.get(&here).copied() {
            return bound;
        }
        if is_unbindable(world, here) {
            return false;
        }
        let Some(parent) = world.forest.parent(here) else {
            return false;
        };
        passed = Some(here);
        here = parent;
    }
    here == from.mount && leads_within(world, from.dir, passed)
}

/// Keeps what was found of a mount, for it and for those that were passed on its way up: only the last of them can be
/// unbindable, so that it is true of them all.
fn keep_passed(
    world: &World,
    from: Place,
    judged: &mut IndexMap<MountId, bool>,
    id: MountId,
    bound: bool,
) -> Result<(), Fault>
    requires well_formed { IsWellFormed (world_view world.now) }
    requires judged { IsJudged (world_view world.now) from judged.old }
    requires bound { bound ≡ is_bound_along (world_view world.now) from id }
    ensures judged { OnOk result (IsJudged (world_view world.now) from judged.new) }
    ensures memory { IsOkUnless result Fault.NoMemory }
{
    let mut here = id;
    'passed: for _step in 0..world.forest.len() {
        if here == from.mount {
            return Ok(());
        }
        if judged.contains_key(&here) {
            return Ok(());
        }
        judged.insert(here, bound)?;
        if is_unbindable(world, here) {
            return Ok(());
        }
        let Some(parent) = world.forest.parent(here) else {
            return Ok(());
        };
        here = parent;
    }
    Ok(())
}

/// Whether a recursive bind of a directory copies a mount. What is found on the way is kept, so that no mount is passed
/// twice.
fn judge(
    world: &World,
    from: Place,
    judged: &mut IndexMap<MountId, bool>,
    id: MountId,
) -> Result<bool, Fault>
    requires well_formed { IsWellFormed (world_view world.now) }
    requires judged { IsJudged (world_view world.now) from judged.old }
    ensures bound { IfOk result (λ bound. bound ≡ is_bound_along (world_view world.now) from id) }
    ensures judged { OnOk result (IsJudged (world_view world.now) from judged.new) }
    ensures memory { IsOkUnless result Fault.NoMemory }
{
    let bound = is_bound_along(world, from, judged, id);
    keep_passed(world, from, judged, id, bound)?;
    Ok(bound)
}

/// The mounts that a recursive bind of a directory copies, by rising ID: those of the directory's own mount and of all
/// that stand on it are judged, and no others.
pub(crate) fn members_within(world: &World, from: Place) -> Result<Vec<MountId>, Fault>
    requires well_formed { IsWellFormed (world_view world.now) }
    ensures members { IfOk result (λ ids. ids.items ≡ map id_of (filter (λ m. is_bound_along (world_view world.now) from m.id) world.now.forest.mounts)) }
    ensures memory { IsOkUnless result Fault.NoMemory }
{
    let below = world.forest.subtree(from.mount)?;
    let found = IndexMap::with_capacity(world.forest.allocator(), below.len())?;
    let mut judged = Judgements { found };
    let mut members = Vec::with_capacity(world.forest.allocator(), below.len())?;
    for id in &below {
        let bound = judge(world, from, &mut judged.found, *id)?;
        if bound {
            members.push(*id)?;
        }
    }
    Ok(members)
}
