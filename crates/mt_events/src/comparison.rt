//! Whether the table of a namespace changed, if nobody asks how: rows are made only to compare them.
ghost use Rattle.std.specs.Prelude.{◌≡◌, not, IfOk, IsOkUnless, IsTrue};
ghost use Rattle.std.specs.List.{list_any};
ghost use Rattle.mt_skel.specs.Keyed.{rises};
ghost use Rattle.mt_propagate.specs.World.{world_view};
ghost use Rattle.mt_propagate.specs.WellFormed.{IsWellFormed};
ghost use Rattle.mt_info.specs.Table.{table_of};
ghost use Rattle.mt_events.specs.Difference.{difference, is_empty, HoldsChanged};
ghost use Rattle.mt_events.specs.Posts.{itself};
ghost use Rattle.mt_events.specs.ByMount.{is_news};

use crate::touched::{is_in, new_row};
use mt_info::differ::is_other;
use mt_info::findings::Findings;
use mt_mounts::mount::{MountId, SpaceId};
use mt_propagate::world::World;
use mt_skel::fault::Fault;

/// Whether a mount came or left, or has other attributes or another state, so that its rows differ, without making
/// them. Takes no memory.
fn is_plain_news(before: &World, after: &World, space: SpaceId, id: MountId) -> bool
    requires before { IsWellFormed (world_view before.now) }
    requires after { IsWellFormed (world_view after.now) }
    ensures news { IsTrue result → IsTrue (is_news (table_of (world_view before.now) space) (table_of (world_view after.now) space) id) }
{
    let was_there = is_in(before, space, id);
    let is_there = is_in(after, space, id);
    if !was_there {
        return is_there;
    }
    if !is_there {
        return true;
    }
    is_other(before, after, id)
}

/// Whether a mount left the namespace, or its row is new or not as it was.
fn is_news(
    before: &mut Findings<'_>,
    after: &mut Findings<'_>,
    space: SpaceId,
    id: MountId,
) -> Result<bool, Fault>
    requires before { IsWellFormed (world_view before.old) }
    requires after { IsWellFormed (world_view after.old) }
    ensures news { IfOk result (λ news. news ≡ is_news (table_of (world_view before.old) space) (table_of (world_view after.old) space) id) }
    ensures before_kept { before.new ≡ before.old }
    ensures after_kept { after.new ≡ after.old }
    ensures memory { IsOkUnless result Fault.NoMemory }
{
    let was_there = is_in(before.world(), space, id);
    let is_there = is_in(after.world(), space, id);
    if !was_there {
        return Ok(is_there);
    }
    if !is_there {
        return Ok(true);
    }
    Ok(new_row(before, after, space, id)?.is_some())
}

/// Whether any of these mounts left the namespace, or has a row that is new or not as it was. For most commands the
/// first one shows that.
fn any_news(
    before: &World,
    after: &World,
    space: SpaceId,
    touched: &[MountId],
) -> Result<bool, Fault>
    requires before { IsWellFormed (world_view before.now) }
    requires after { IsWellFormed (world_view after.now) }
    ensures news { IfOk result (λ news. news ≡ list_any (is_news (table_of (world_view before.now) space) (table_of (world_view after.now) space)) touched.now) }
    ensures memory { IsOkUnless result Fault.NoMemory }
{
    if let Some(first) = touched.first() {
        if is_plain_news(before, after, space, *first) {
            return Ok(true);
        }
    }
    let mut old = Findings::new(before);
    let mut new = Findings::new(after);
    'mounts: for id in touched {
        if is_news(&mut old, &mut new, space, *id)? {
            return Ok(true);
        }
    }
    Ok(false)
}

/// Whether the table of a namespace differs between two worlds, that is, whether
/// [`change_of`](crate::touched::change_of) has something to tell. `touched` has, by rising ID, every mount whose row
/// changed, and may have more; it is gone over up to the first that did. A namespace that is not there counts as the
/// empty table.
pub fn is_changed(
    before: &World,
    after: &World,
    space: SpaceId,
    touched: &[MountId],
) -> Result<bool, Fault>
    requires before { IsWellFormed (world_view before.now) }
    requires after { IsWellFormed (world_view after.now) }
    requires rising { IsTrue (rises itself touched.now) }
    requires touched { HoldsChanged (table_of (world_view before.now) space) (table_of (world_view after.now) space) touched.now }
    ensures changed { IfOk result (λ changed. changed ≡ not (is_empty (difference (table_of (world_view before.now) space) (table_of (world_view after.now) space)))) }
    ensures memory { IsOkUnless result Fault.NoMemory }
{
    let changed = any_news(before, after, space, touched)?;
    Ok(changed)
}
