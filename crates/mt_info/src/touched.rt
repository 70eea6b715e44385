//! The mounts whose rows may differ, from those that a change touched.
ghost use Rattle.std.specs.Prelude.{◌≡◌, ◌++◌, ℕ, cond, [], IfOk, OnOk, IsOkUnless, IsTrue};
ghost use Rattle.mt_skel.specs.Keyed.{among, rises};
ghost use Rattle.mt_mounts.specs.Forest.{subtree};
ghost use Rattle.mt_propagate.specs.World.{world_view};
ghost use Rattle.mt_propagate.specs.WellFormed.{IsWellFormed};
ghost use Rattle.mt_propagate.specs.Touched.{IsTouched};
ghost use Rattle.mt_info.specs.MayDiffer.{place_stays, is_elsewhere, has_moved, moves_along, moves_first, may_differ};

use mt_mounts::mount::{Mount, MountId, Place};
use mt_propagate::sorted::in_order;
use mt_propagate::world::World;
use mt_skel::fault::Fault;

/// Whether a mount stands where it stood, or nowhere both before and after.
fn place_stays(before: Option<Place>, after: Option<Place>) -> bool
    ensures { result ≡ place_stays before after }
{
    match before {
        Some(old) => match after {
            Some(new) => old.mount == new.mount && old.dir == new.dir,
            None => false,
        },
        None => after.is_none(),
    }
}

/// Whether a mount that is there before and after stands at another place, or shows another directory.
pub fn is_elsewhere(before: Option<Mount>, after: Option<Mount>) -> bool
    ensures { result ≡ is_elsewhere before after }
{
    let (Some(old), Some(new)) = (before, after) else {
        return false;
    };
    !(place_stays(old.place, new.place) && old.root == new.root)
}

/// Whether a mount of two worlds is elsewhere in the second.
fn has_moved(before: &World, after: &World, id: MountId) -> bool
    ensures { result ≡ has_moved (world_view before.now) (world_view after.now) id }
{
    is_elsewhere(before.forest.get(id), after.forest.get(id))
}

/// Whether a mount stands, at whatever height, on one that moved. It goes up from the mount, and takes no memory.
fn moves_along(before: &World, after: &World, id: MountId) -> bool
    ensures { result ≡ moves_along (world_view before.now) (world_view after.now) id }
{
    let mut here = id;
    'steps: for _step in 0..after.forest.len() {
        let Some(up) = after.forest.parent(here) else {
            return false;
        };
        if has_moved(before, after, up) {
            return true;
        }
        here = up;
    }
    false
}

/// Appends the tree of a mount that moved, unless it stands on one that moved too, whose tree
/// contains it.
fn push_moved(
    rows: &mut Vec<MountId>,
    before: &World,
    after: &World,
    id: MountId,
) -> Result<(), Fault>
    ensures rows { OnOk result (rows.new.items ≡ rows.old.items ++ cond (moves_first (world_view before.now) (world_view after.now) id) (subtree after.now.forest.mounts id) []) }
    ensures memory { IsOkUnless result Fault.NoMemory }
{
    if has_moved(before, after, id) && !moves_along(before, after, id) {
        let below = after.forest.subtree(id)?;
        rows.extend_from_slice(&below)?;
    }
    Ok(())
}

/// The mounts whose rows may differ between two worlds, by rising ID, given in `touched` those that changed, in any
/// order: these, and all that are below one of them that moved. No other mount is looked at, except for those on the
/// way up from one that moved.
pub fn rows_touched(
    before: &World,
    after: &World,
    touched: &[MountId],
) -> Result<Vec<MountId>, Fault>
    requires after { IsWellFormed (world_view after.now) }
    requires touched { IsTouched (world_view before.now) (world_view after.now) touched.now }
    ensures rising { IfOk result (λ rows. IsTrue (rises (λ k. k) rows.items)) }
    ensures rows { IfOk result (λ rows. (j : ℕ) → among rows.items j ≡ may_differ (world_view before.now) (world_view after.now) touched.now j) }
    ensures memory { IsOkUnless result Fault.NoMemory }
{
    let mut rows = Vec::from_slice(after.forest.allocator(), touched)?;
    'mounts: for id in touched {
        push_moved(&mut rows, before, after, *id)?;
    }
    Ok(in_order(rows))
}
