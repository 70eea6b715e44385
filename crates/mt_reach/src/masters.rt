//! The masters of peer groups, each as the first member of the group tells it.
ghost use Rattle.std.specs.Prelude.{◌≡◌, ℕ, nat_eq, cond, Some, None, IfOk, OnOk, IsOkUnless};
ghost use Rattle.std.specs.Option.{option_or};
ghost use Rattle.indexmap.specs.IndexMap.{get};
ghost use Rattle.mt_peers.specs.Peers.{names};
ghost use Rattle.mt_reach.specs.Rows.{peers_in};
ghost use Rattle.mt_reach.specs.Masters.{AreMasters};

use crate::row::SeenRow;
use indexmap::IndexMap;
use mt_peers::state::GroupId;
use mt_skel::fault::Fault;
use std::alloc::Global;

/// The masters of groups: of each that has a member.
pub(crate) type Masters = IndexMap<GroupId, Option<GroupId>>;

/// Keeps the master of a mount for its group, if that has none yet.
fn learn_master(masters: &mut Masters, row: &SeenRow) -> Result<(), Fault>
    ensures masters { OnOk result ((g : ℕ) → get nat_eq masters.new g ≡ option_or (get nat_eq masters.old g) (cond (names row.now.group g) (Some row.now.master) None)) }
    ensures memory { IsOkUnless result Fault.NoMemory }
{
    let Some(group) = row.group else {
        return Ok(());
    };
    if masters.contains_key(&group) {
        return Ok(());
    }
    masters.insert(group, row.master)?;
    Ok(())
}

/// The masters of all groups that have a member among these rows. Refused as `NoMemory` alone.
pub(crate) fn masters_of(alloc: Global, rows: &[SeenRow]) -> Result<Masters, Fault>
    ensures masters { IfOk result (λ masters. AreMasters (peers_in rows.now) masters) }
    ensures memory { IsOkUnless result Fault.NoMemory }
{
    let mut masters = IndexMap::new(alloc);
    'rows: for row in rows {
        learn_master(&mut masters, row)?;
    }
    Ok(masters)
}
