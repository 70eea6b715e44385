//! What changed in the table of a namespace, from the mounts that a change touched.
ghost use Rattle.std.specs.Prelude.{◌≡◌, ◌++◌, not, ◌&&◌, false, IfOk, IfSome, OnOk, IsOkUnless, IsTrue};
ghost use Rattle.std.specs.List.{filter};
ghost use Rattle.std.specs.Option.{option_to_list};
ghost use Rattle.mt_skel.specs.Keyed.{rises, row_at, has};
ghost use Rattle.mt_propagate.specs.World.{world_view};
ghost use Rattle.mt_propagate.specs.WellFormed.{IsWellFormed};
ghost use Rattle.mt_info.specs.Table.{row_id, table_of};
ghost use Rattle.mt_events.specs.Difference.{difference, is_empty, some_change, HoldsChanged};
ghost use Rattle.mt_events.specs.Posts.{itself, is_change};
ghost use Rattle.mt_events.specs.ByMount.{collected, new_row};

use crate::change::some_change;
use crate::post::{Delta, Ids};
use mt_info::differ::is_other;
use mt_info::findings::Findings;
use mt_info::row::Row;
use mt_info::table::{Table, row_seen};
use mt_mounts::mount::{MountId, SpaceId};
use mt_propagate::world::World;
use mt_skel::fault::Fault;

/// Whether a mount is in a namespace.
pub(crate) fn is_in(world: &World, space: SpaceId, id: MountId) -> bool
    requires well_formed { IsWellFormed (world_view world.now) }
    ensures { result ≡ has row_id id (table_of (world_view world.now) space) }
{
    match world.forest.get(id) {
        Some(mount) => mount.space == space,
        None => false,
    }
}

/// The row of a mount in the table of a namespace, or `None` exactly if it is not in that table.
fn row_in(seen: &mut Findings<'_>, space: SpaceId, id: MountId) -> Result<Option<Row>, Fault>
    requires well_formed { IsWellFormed (world_view seen.old) }
    ensures row { IfOk result (λ row. row ≡ row_at row_id id (table_of (world_view seen.old) space)) }
    ensures kept { seen.new ≡ seen.old }
    ensures memory { IsOkUnless result Fault.NoMemory }
{
    let Some(mount) = seen.world().forest.get(id) else {
        return Ok(None);
    };
    if mount.space != space {
        return Ok(None);
    }
    Ok(Some(row_seen(seen, id)?))
}

/// The row of a mount after, or `None` exactly where it is not there or as it was.
pub(crate) fn new_row(
    before: &mut Findings<'_>,
    after: &mut Findings<'_>,
    space: SpaceId,
    id: MountId,
) -> Result<Option<Row>, Fault>
    requires before { IsWellFormed (world_view before.old) }
    requires after { IsWellFormed (world_view after.old) }
    ensures row { IfOk result (λ row. row ≡ new_row (table_of (world_view before.old) space) (table_of (world_view after.old) space) id) }
    ensures before_kept { before.new ≡ before.old }
    ensures after_kept { after.new ≡ after.old }
    ensures memory { IsOkUnless result Fault.NoMemory }
{
    let Some(row) = row_in(after, space, id)? else {
        return Ok(None);
    };
    if is_other(before.world(), after.world(), id) {
        return Ok(Some(row));
    }
    let Some(old) = row_in(before, space, id)? else {
        return Ok(Some(row));
    };
    if old.same(&row) {
        return Ok(None);
    }
    Ok(Some(row))
}

/// Those of the touched mounts that are in the namespace before but not after.
fn gone(
    before: &World,
    after: &World,
    space: SpaceId,
    touched: &[MountId],
) -> Result<Vec<MountId>, Fault>
    requires before { IsWellFormed (world_view before.now) }
    requires after { IsWellFormed (world_view after.now) }
    ensures gone { IfOk result (λ ids. ids.items ≡ filter (λ i. has row_id i (table_of (world_view before.now) space) && not (has row_id i (table_of (world_view after.now) space))) touched.now) }
    ensures memory { IsOkUnless result Fault.NoMemory }
{
    let mut ids = Vec::new(before.forest.allocator());
    'mounts: for id in touched {
        if is_in(before, space, *id) && !is_in(after, space, *id) {
            ids.push(*id)?;
        }
    }
    Ok(ids)
}

/// Appends the row of a mount after, if it is new or not as it was.
fn push_new(
    rows: &mut Vec<Row>,
    before: &mut Findings<'_>,
    after: &mut Findings<'_>,
    space: SpaceId,
    id: MountId,
) -> Result<(), Fault>
    requires before { IsWellFormed (world_view before.old) }
    requires after { IsWellFormed (world_view after.old) }
    ensures rows { OnOk result (rows.new.items ≡ rows.old.items ++ option_to_list (new_row (table_of (world_view before.old) space) (table_of (world_view after.old) space) id)) }
    ensures before_kept { before.new ≡ before.old }
    ensures after_kept { after.new ≡ after.old }
    ensures memory { IsOkUnless result Fault.NoMemory }
{
    let Some(row) = new_row(before, after, space, id)? else {
        return Ok(());
    };
    rows.push(row)?;
    Ok(())
}

/// The rows, after the change, of the touched mounts that are new or not as they were.
fn new_rows(
    before: &World,
    after: &World,
    space: SpaceId,
    touched: &[MountId],
) -> Result<Vec<Row>, Fault>
    requires before { IsWellFormed (world_view before.now) }
    requires after { IsWellFormed (world_view after.now) }
    ensures rows { IfOk result (λ rows. rows.items ≡ collected (new_row (table_of (world_view before.now) space) (table_of (world_view after.now) space)) touched.now) }
    ensures memory { IsOkUnless result Fault.NoMemory }
{
    let mut rows = Vec::new(after.forest.allocator());
    let mut old = Findings::new(before);
    let mut new = Findings::new(after);
    'mounts: for id in touched {
        push_new(&mut rows, &mut old, &mut new, space, *id)?;
    }
    Ok(rows)
}

/// The difference of the tables of a namespace, empty or not.
fn delta_of(
    before: &World,
    after: &World,
    space: SpaceId,
    touched: &[MountId],
) -> Result<Delta, Fault>
    requires before { IsWellFormed (world_view before.now) }
    requires after { IsWellFormed (world_view after.now) }
    requires rising { IsTrue (rises itself touched.now) }
    requires touched { HoldsChanged (table_of (world_view before.now) space) (table_of (world_view after.now) space) touched.now }
    ensures delta { IfOk result (λ delta. delta ≡ difference (table_of (world_view before.now) space) (table_of (world_view after.now) space)) }
    ensures told { IfOk result (λ delta. is_empty delta ≡ false → IsTrue (is_change delta.gone delta.rows)) }
    ensures memory { IsOkUnless result Fault.NoMemory }
{
    let ids = gone(before, after, space, touched)?;
    let rows = new_rows(before, after, space, touched)?;
    Ok(Delta {
        gone: Ids::new(ids),
        rows: Table::new(rows),
    })
}

/// What changed in the table of a namespace from one world to another, or `None` exactly if the table is the same.
/// `touched` has, by rising ID, every mount whose row changed, and may have more; no other mount is looked at. A
/// namespace that is not there counts as the empty table. If something changed, it can be told by a post
/// (`Post::telling`).
pub fn change_of(
    before: &World,
    after: &World,
    space: SpaceId,
    touched: &[MountId],
) -> Result<Option<Delta>, Fault>
    requires before { IsWellFormed (world_view before.now) }
    requires after { IsWellFormed (world_view after.now) }
    requires rising { IsTrue (rises itself touched.now) }
    requires touched { HoldsChanged (table_of (world_view before.now) space) (table_of (world_view after.now) space) touched.now }
    ensures change { IfOk result (λ change. change ≡ some_change (difference (table_of (world_view before.now) space) (table_of (world_view after.now) space))) }
    ensures told { IfOk result (λ change. IfSome change (λ delta. IsTrue (is_change delta.gone delta.rows))) }
    ensures memory { IsOkUnless result Fault.NoMemory }
{
    let delta = delta_of(before, after, space, touched)?;
    Ok(some_change(delta))
}
