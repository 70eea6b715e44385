//! What a command has changed in the tables of namespaces.
ghost use Rattle.std.specs.Prelude.{◌≡◌, ℕ, IfOk, IsTrue, IsOkUnless};
ghost use Rattle.mt_skel.specs.Keyed.{rises};
ghost use Rattle.mt_propagate.specs.World.{world_view};
ghost use Rattle.mt_propagate.specs.WellFormed.{IsWellFormed};
ghost use Rattle.mt_propagate.specs.Touched.{since_of, since_view};
ghost use Rattle.mt_info.specs.Table.{table_of};
ghost use Rattle.mt_events.specs.Difference.{HoldsChanged};

use mt_events::mirror::Mirror;
use mt_events::post::Post;
use mt_events::touched::change_of;
use mt_info::row::Row;
use mt_info::table::{Table, row_of};
use mt_info::touched::rows_touched;
use mt_mounts::mount::{MountId, SpaceId};
use mt_propagate::touched::touched;
use mt_propagate::world::World;
use mt_skel::fault::Fault;
use std::alloc::Global;

/// What a command changes in the table of a namespace: the rows before it of the mounts that change, and the change.
#[derive(Drop)]
pub struct SpaceChange {
    /// What is known of the table before.
    pub before: Mirror,
    /// The change.
    pub post: Post,
}

/// The mounts whose rows may differ, by rising ID. Refused as `NoMemory` alone.
fn changed_rows(before: &World, after: &World) -> Result<Vec<MountId>, Fault>
    requires since { since_view after.now ≡ since_of (world_view before.now) }
    requires skel { (world_view after.now).skel ≡ (world_view before.now).skel }
    requires before { IsWellFormed (world_view before.now) }
    requires after { IsWellFormed (world_view after.now) }
    ensures rising { IfOk result (λ ids. IsTrue (rises (λ k. k) ids.items)) }
    ensures held { IfOk result (λ ids. (n : ℕ) → HoldsChanged (table_of (world_view before.now) n) (table_of (world_view after.now) n) ids.items) }
    ensures memory { IsOkUnless result Fault.NoMemory }
{
    let ids = touched(before, after)?;
    let rows = rows_touched(before, after, &ids)?;
    Ok(rows)
}

/// What changes from one world to another one, which has noted it, in each namespace that is there in the second.
pub(crate) fn changes_between(
    alloc: Global,
    before: &World,
    after: &World,
) -> Result<Vec<SpaceChange>, Fault>
    requires since { since_view after.now ≡ since_of (world_view before.now) }
    requires skel { (world_view after.now).skel ≡ (world_view before.now).skel }
    requires before { IsWellFormed (world_view before.now) }
    requires after { IsWellFormed (world_view after.now) }
    ensures memory { IsOkUnless result Fault.NoMemory }
{
    let mut changes = Vec::new(alloc);
    let ids = changed_rows(before, after)?;
    let spaces = spaces_of(alloc, before, after, &ids)?;
    for space in &spaces {
        if let Some(change) = change_in(alloc, before, after, *space, &ids)? {
            changes.push(change)?;
        }
    }
    Ok(changes)
}

/// Adds the namespace of a mount, unless it is there.
fn push_space(spaces: &mut Vec<SpaceId>, world: &World, id: MountId) -> Result<(), Fault>
    ensures memory { IsOkUnless result Fault.NoMemory }
{
    if let Some(mount) = world.forest.get(id) {
        if !spaces.contains(&mount.space) {
            spaces.push(mount.space)?;
        }
    }
    Ok(())
}

/// The namespaces of mounts, before and after, that are there after.
fn spaces_of(
    alloc: Global,
    before: &World,
    after: &World,
    ids: &[MountId],
) -> Result<Vec<SpaceId>, Fault>
    ensures memory { IsOkUnless result Fault.NoMemory }
{
    let mut spaces = Vec::new(alloc);
    for id in ids {
        push_space(&mut spaces, before, *id)?;
        push_space(&mut spaces, after, *id)?;
    }
    spaces.retain(|space| after.forest.root(*space).is_some());
    spaces.sort_unstable();
    Ok(spaces)
}

/// The rows of those of these mounts that are in a namespace.
fn rows_in(alloc: Global, world: &World, space: SpaceId, ids: &[MountId]) -> Result<Vec<Row>, Fault>
    requires { IsWellFormed (world_view world.now) }
    ensures memory { IsOkUnless result Fault.NoMemory }
{
    let mut rows = Vec::new(alloc);
    for id in ids {
        if let Some(mount) = world.forest.get(*id) {
            if mount.space == space {
                rows.push(row_of(world, *id)?)?;
            }
        }
    }
    Ok(rows)
}

/// What changes in the table of a namespace, if something does.
fn change_in(
    alloc: Global,
    before: &World,
    after: &World,
    space: SpaceId,
    ids: &[MountId],
) -> Result<Option<SpaceChange>, Fault>
    requires before { IsWellFormed (world_view before.now) }
    requires after { IsWellFormed (world_view after.now) }
    requires rising { IsTrue (rises (λ k. k) ids.now) }
    requires held { (n : ℕ) → HoldsChanged (table_of (world_view before.now) n) (table_of (world_view after.now) n) ids.now }
    ensures memory { IsOkUnless result Fault.NoMemory }
{
    let Some(delta) = change_of(before, after, space, ids)? else {
        return Ok(None);
    };
    let Some(table) = Table::from_rows(rows_in(alloc, before, space, ids)?) else {
        return Ok(None);
    };
    Ok(Some(SpaceChange {
        before: Mirror::new(space, 0, table),
        post: Post::telling(space, 1, delta),
    }))
}
