//! Which candidates of a detach stay: those that have a mount inside that is not a candidate.
//!
//! A mount holds the one on which it stands if it is not a candidate, or if another one holds it. These are found by
//! going up from the mounts that stand on candidates and are not candidates, each once. So only the candidates and what
//! stands on them are gone over.
ghost use Rattle.std.specs.Prelude.{◌≡◌, ◌++◌, ℕ, nat_eq, IfOk, OnOk, IsOkUnless};
ghost use Rattle.std.specs.List.{flat_map};
ghost use Rattle.mt_skel.specs.Keyed.{among};
ghost use Rattle.mt_propagate.specs.World.{world_view};
ghost use Rattle.mt_propagate.specs.WellFormed.{IsWellFormed};
ghost use Rattle.mt_unmount.specs.Holding.{staying_on, candidate_under, around, AreHolding, AreHeld};
ghost use Rattle.std.specs.Option.{option_map_or};
ghost use Rattle.indexmap.specs.IndexSet.{insert_key};

use crate::gone::Gone;
use crate::taking::place_of;
use indexmap::IndexSet;
use mt_mounts::mount::MountId;
use mt_propagate::named::is_mount_root;
use mt_propagate::world::World;
use mt_skel::fault::Fault;

/// Adds the mounts that stand on one and are not candidates.
fn push_staying(
    world: &World,
    candidates: &Gone,
    id: MountId,
    ids: &mut Vec<MountId>,
) -> Result<(), Fault>
    ensures ids { OnOk result (ids.new.items ≡ ids.old.items ++ staying_on (world_view world.now) (among candidates.now) id) }
    ensures memory { IsOkUnless result Fault.NoMemory }
{
    let children = world.forest.children_of(id)?;
    for child in &children {
        if !candidates.has(*child) {
            ids.push(*child)?;
        }
    }
    Ok(())
}

/// The mounts that stand on candidates and are not candidates.
fn staying(world: &World, candidates: &Gone) -> Result<Vec<MountId>, Fault>
    ensures staying { IfOk result (λ ids. ids.items ≡ flat_map (staying_on (world_view world.now) (among candidates.now)) candidates.now) }
    ensures memory { IsOkUnless result Fault.NoMemory }
{
    let mut ids = Vec::new(world.forest.allocator());
    for id in candidates.ids() {
        push_staying(world, candidates, *id, &mut ids)?;
    }
    Ok(ids)
}

/// These mounts, each once.
fn started(world: &World, ids: &[MountId]) -> Result<IndexSet<MountId>, Fault>
    ensures same { IfOk result (λ set. (j : ℕ) → among set.keys j ≡ among ids.now j) }
    ensures memory { IsOkUnless result Fault.NoMemory }
{
    let mut set = IndexSet::new(world.forest.allocator());
    for id in ids {
        set.insert(*id)?;
    }
    Ok(set)
}

/// The candidate that a mount stands on.
fn candidate_under(world: &World, candidates: &Gone, id: MountId) -> Option<MountId>
    ensures { result ≡ candidate_under (world_view world.now) (among candidates.now) id }
{
    let parent = world.forest.parent(id)?;
    if candidates.has(parent) {
        Some(parent)
    } else {
        None
    }
}

/// Adds a mount after the others, if there is one and it is not among them.
fn add(set: &mut IndexSet<MountId>, id: Option<MountId>) -> Result<(), Fault>
    ensures keys { OnOk result (set.new.keys ≡ option_map_or (insert_key nat_eq set.old.keys) id set.old.keys) }
    ensures memory { IsOkUnless result Fault.NoMemory }
{
    if let Some(id) = id {
        set.insert(id)?;
    }
    Ok(())
}

/// The mounts that hold others where these are candidates.
fn holding(world: &World, candidates: &Gone) -> Result<IndexSet<MountId>, Fault>
    requires well_formed { IsWellFormed (world_view world.now) }
    ensures holding { IfOk result (λ set. AreHolding (world_view world.now) (among candidates.now) set.keys) }
    ensures memory { IsOkUnless result Fault.NoMemory }
{
    let staying = staying(world, candidates)?;
    let mut set = started(world, &staying)?;
    let mut visited = 0usize;
    'holding: while visited < set.len() {
        let id = set.as_slice()[visited];
        let under = candidate_under(world, candidates, id);
        add(&mut set, under)?;
        visited += 1;
    }
    Ok(set)
}

/// The mount within whose root a mount stands, at another directory.
fn around(world: &World, id: MountId) -> Option<MountId>
    ensures { result ≡ around (world_view world.now) id }
{
    let place = place_of(world, id)?;
    if is_mount_root(world, place) {
        None
    } else {
        Some(place.mount)
    }
}

/// The candidates that have a mount inside that is not a candidate, in any order, and maybe other mounts. One may be
/// there more than once.
pub(crate) fn held(world: &World, candidates: &Gone) -> Result<Vec<MountId>, Fault>
    requires well_formed { IsWellFormed (world_view world.now) }
    ensures held { IfOk result (λ ids. AreHeld (world_view world.now) (among candidates.now) (among ids.items)) }
    ensures memory { IsOkUnless result Fault.NoMemory }
{
    let holding = holding(world, candidates)?;
    let mut ids = Vec::new(world.forest.allocator());
    for id in holding.as_slice() {
        if let Some(around) = around(world, *id) {
            ids.push(around)?;
        }
    }
    Ok(ids)
}
