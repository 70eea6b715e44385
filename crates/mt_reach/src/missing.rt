//! Whether a mount gets what happens in a group, as far as rows tell.
//!
//! A table that was not read may have the members of a group. What is above that group its slaves tell in part: the nearest group
//! with a member in their own namespace.
ghost use Rattle.std.specs.Prelude.{◌≡◌, ◌++◌, IfOk, OnOk, IsOkUnless};
ghost use Rattle.std.specs.List.{find, list_any};
ghost use Rattle.mt_reach.specs.Missing.{nearest_told, groups_told, gets_told, if_missing, missing_groups, is_in_space, is_untold, fits_above, may_be_above, gets_as_told};

use crate::reason::push_groups;
use crate::row::SeenRow;
use crate::rows::SeenRows;
use crate::upward::{Step, Upward, seen_or_told};
use mt_mounts::mount::SpaceId;
use mt_peers::state::GroupId;
use mt_skel::fault::Fault;

/// Whether a mount gets what happens in a group, as far as rows tell.
#[derive(Clone, Copy, PartialEq, Eq, Debug)]
pub enum Gets {
    /// It is in the group, or the group is above it.
    Yes,
    /// The group is not above it.
    No,
    /// A group without a member is above it, and the group may be above that.
    Unknown,
}

/// The nearest group above a mount that has a member, or is told. Takes no memory.
fn nearest_told(rows: &SeenRows, row: &SeenRow) -> Option<GroupId>
    ensures { result ≡ nearest_told rows.now row.now }
{
    let master = row.master?;
    seen_or_told(rows, master)
}

/// The groups from there upwards. Refused as `NoMemory` alone.
fn groups_told(rows: &SeenRows, row: &SeenRow) -> Result<Vec<GroupId>, Fault>
    ensures groups { IfOk result (λ groups. groups.items ≡ groups_told rows.now row.now) }
    ensures memory { IsOkUnless result Fault.NoMemory }
{
    let mut groups = Vec::new(rows.allocator());
    if let Some(group) = nearest_told(rows, row) {
        push_groups(rows, Step::ToTold, group, &mut groups)?;
    }
    Ok(groups)
}

/// Whether a mount surely gets what happens in a group. Refused as `NoMemory` alone.
fn gets_told(rows: &SeenRows, group: GroupId, row: &SeenRow) -> Result<bool, Fault>
    ensures gets { IfOk result (λ gets. gets ≡ gets_told rows.now group row.now) }
    ensures memory { IsOkUnless result Fault.NoMemory }
{
    if row.group == Some(group) {
        return Ok(true);
    }
    let Some(nearest) = nearest_told(rows, row) else {
        return Ok(false);
    };
    Upward::new(rows, Step::ToTold, group).is_met(nearest)
}

/// Appends a master, if there is one and no row tells a member of it. Refused as `NoMemory` alone.
fn push_missing(
    rows: &SeenRows,
    master: Option<GroupId>,
    groups: &mut Vec<GroupId>,
) -> Result<(), Fault>
    ensures groups { OnOk result (groups.new.items ≡ groups.old.items ++ if_missing rows.now master) }
    ensures memory { IsOkUnless result Fault.NoMemory }
{
    let Some(master) = master else {
        return Ok(());
    };
    if !rows.has_member(master) {
        groups.push(master)?;
    }
    Ok(())
}

/// The masters on the way up from a mount of which no row tells a member. Refused as `NoMemory` alone.
pub fn missing_groups(rows: &SeenRows, row: &SeenRow) -> Result<Vec<GroupId>, Fault>
    ensures missing { IfOk result (λ groups. groups.items ≡ missing_groups rows.now row.now) }
    ensures memory { IsOkUnless result Fault.NoMemory }
{
    let told = groups_told(rows, row)?;
    let mut groups = Vec::new(rows.allocator());
    push_missing(rows, row.master, &mut groups)?;
    'told: for group in &told {
        push_missing(rows, rows.master_of(*group), &mut groups)?;
    }
    Ok(groups)
}

/// Whether a group has a member in a namespace. Takes no memory.
fn is_in_space(rows: &SeenRows, space: SpaceId, group: GroupId) -> bool
    ensures { result ≡ is_in_space rows.now space group }
{
    'rows: for row in rows.rows() {
        if row.space == space && row.group == Some(group) {
            return true;
        }
    }
    false
}

/// The first of some groups that has a member in a namespace. Takes no memory.
fn first_in_space(rows: &SeenRows, space: SpaceId, groups: &[GroupId]) -> Option<GroupId>
    ensures { result ≡ find (is_in_space rows.now space) groups.now }
{
    'groups: for group in groups {
        if is_in_space(rows, space, *group) {
            return Some(*group);
        }
    }
    None
}

/// Whether a group has a master, and nothing is told of what is above it. Takes no memory.
fn is_untold(rows: &SeenRows, group: GroupId) -> bool
    ensures { result ≡ is_untold rows.now group }
{
    let Some(master) = rows.master_of(group) else {
        return false;
    };
    seen_or_told(rows, master).is_none()
}

/// Whether one of some groups is such. Takes no memory.
fn any_untold(rows: &SeenRows, groups: &[GroupId]) -> bool
    ensures { result ≡ list_any (is_untold rows.now) groups.now }
{
    'groups: for group in groups {
        if is_untold(rows, *group) {
            return true;
        }
    }
    false
}

/// Whether a group may be above the master of a mount. Refused as `NoMemory` alone.
fn fits_above(rows: &SeenRows, group: GroupId, row: &SeenRow) -> Result<bool, Fault>
    ensures fits { IfOk result (λ fits. fits ≡ fits_above rows.now group row.now) }
    ensures memory { IsOkUnless result Fault.NoMemory }
{
    let mut line = Vec::new(rows.allocator());
    push_groups(rows, Step::ToTold, group, &mut line)?;
    match first_in_space(rows, row.space, line.as_slice()) {
        Some(first) => Ok(row.via == Some(first)),
        None => Ok(row.via.is_none() || any_untold(rows, line.as_slice())),
    }
}

/// Whether a group may be above one without a member. Refused as `NoMemory` alone.
fn may_be_above(rows: &SeenRows, group: GroupId, missing: GroupId) -> Result<bool, Fault>
    ensures may { IfOk result (λ may. may ≡ may_be_above rows.now group missing) }
    ensures memory { IsOkUnless result Fault.NoMemory }
{
    'rows: for row in rows.rows() {
        if row.master == Some(missing) && !fits_above(rows, group, row)? {
            return Ok(false);
        }
    }
    Ok(true)
}

/// Whether a group may be above one of some without a member. Refused as `NoMemory` alone.
fn may_be_above_any(rows: &SeenRows, group: GroupId, missing: &[GroupId]) -> Result<bool, Fault>
    ensures may { IfOk result (λ may. may ≡ list_any (may_be_above rows.now group) missing.now) }
    ensures memory { IsOkUnless result Fault.NoMemory }
{
    'missing: for other in missing {
        if may_be_above(rows, group, *other)? {
            return Ok(true);
        }
    }
    Ok(false)
}

/// Whether a mount gets what happens in a group, as far as rows tell. Refused as `NoMemory` alone.
pub fn gets_as_told(rows: &SeenRows, group: GroupId, row: &SeenRow) -> Result<Gets, Fault>
    ensures gets { IfOk result (λ gets. gets ≡ gets_as_told rows.now group row.now) }
    ensures memory { IsOkUnless result Fault.NoMemory }
{
    if gets_told(rows, group, row)? {
        return Ok(Gets::Yes);
    }
    let missing = missing_groups(rows, row)?;
    if may_be_above_any(rows, group, missing.as_slice())? {
        return Ok(Gets::Unknown);
    }
    Ok(Gets::No)
}
