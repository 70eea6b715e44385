//! Why a mount gets nothing of what is mounted on another one that shows the same directory.
ghost use Rattle.std.specs.Prelude.{◌≡◌, ◌++◌, cond, is_none, IfOk, OnOk, IsOkUnless};
ghost use Rattle.std.specs.List.{find};
ghost use Rattle.std.specs.Option.{option_map_or};
ghost use Rattle.mt_skel.specs.Keyed.{among};
ghost use Rattle.mt_reach.specs.Tree.{steps_up};
ghost use Rattle.mt_reach.specs.Reasons.{gets_at, groups_above, is_untied, common_group, reason_why};

use crate::reached::gets;
use crate::row::SeenRow;
use crate::rows::SeenRows;
use crate::upward::{Step, Upward, step_up};
use mt_peers::state::GroupId;
use mt_skel::fault::Fault;
use mt_skel::list::is_among;

/// Why what is mounted on a mount does not come to another one that shows the directory.
#[derive(Clone, Copy)]
pub enum WhyNot {
    /// The first has neither group nor master: nothing propagates from it.
    SourcePrivate,
    /// The first is unbindable: nothing propagates from it.
    SourceUnbindable,
    /// The first gets from the other, and gives nothing back.
    StartsInSlave,
    /// Both get from this group, and neither from the other.
    Siblings(GroupId),
    /// The first is a slave of groups from which the other does not get, and in no group.
    OnlySlave,
    /// The other has neither group nor master: it receives nothing.
    Private,
    /// The other is unbindable: it receives nothing.
    Unbindable,
    /// The other has a group or a master, and no chain of masters leads from there to the first one's group.
    OtherGroup,
}

/// Whether a mount gets what happens at another one. Refused as `NoMemory` alone.
pub fn gets_at(rows: &SeenRows, source: &SeenRow, row: &SeenRow) -> Result<bool, Fault>
    ensures gets { IfOk result (λ gets. gets ≡ gets_at rows.now source.now row.now) }
    ensures memory { IsOkUnless result Fault.NoMemory }
{
    if source.id == row.id {
        return Ok(false);
    }
    let Some(group) = source.group else {
        return Ok(false);
    };
    let mut upward = Upward::new(rows, Step::ToMaster, group);
    gets(&mut upward, row)
}

/// Appends a group and those above it. Fails for want of memory alone.
pub(crate) fn push_groups(
    rows: &SeenRows,
    step: Step,
    group: GroupId,
    groups: &mut Vec<GroupId>,
) -> Result<(), Fault>
    ensures groups { OnOk result (groups.new.items ≡ groups.old.items ++ steps_up rows.now step group) }
    ensures memory { IsOkUnless result Fault.NoMemory }
{
    let mut here = group;
    'up: for _step in 0..=rows.len() {
        groups.push(here)?;
        let Some(master) = step_up(rows, step, here) else {
            return Ok(());
        };
        here = master;
    }
    Ok(())
}

/// The groups from which a mount gets: its own, and then its masters upwards. Refused as `NoMemory` alone.
pub fn groups_above(rows: &SeenRows, row: &SeenRow) -> Result<Vec<GroupId>, Fault>
    ensures groups { IfOk result (λ groups. groups.items ≡ groups_above rows.now row.now) }
    ensures memory { IsOkUnless result Fault.NoMemory }
{
    let mut groups = Vec::new(rows.allocator());
    if let Some(group) = row.group {
        groups.push(group)?;
    }
    if let Some(master) = row.master {
        push_groups(rows, Step::ToMaster, master, &mut groups)?;
    }
    Ok(groups)
}

/// Whether a mount has neither group nor master.
fn is_untied(row: &SeenRow) -> bool
    ensures { result ≡ is_untied row.now }
{
    row.group.is_none() && row.master.is_none()
}

/// The first of the numbers that is among others.
fn first_among(numbers: &[GroupId], others: &[GroupId]) -> Option<GroupId>
    ensures { result ≡ find (among others.now) numbers.now }
{
    'numbers: for number in numbers {
        if is_among(others, *number) {
            return Some(*number);
        }
    }
    None
}

/// The nearest group above a mount from which another one gets as well. Refused as `NoMemory` alone.
fn common_group(rows: &SeenRows, source: &SeenRow, row: &SeenRow) -> Result<Option<GroupId>, Fault>
    ensures common { IfOk result (λ common. common ≡ common_group rows.now source.now row.now) }
    ensures memory { IsOkUnless result Fault.NoMemory }
{
    let groups = groups_above(rows, row)?;
    let others = groups_above(rows, source)?;
    Ok(first_among(groups.as_slice(), others.as_slice()))
}

/// Why what is mounted on the first mount does not come to the second, which shows the directory. Refused as `NoMemory` alone.
pub fn reason_why(rows: &SeenRows, source: &SeenRow, row: &SeenRow) -> Result<WhyNot, Fault>
    ensures why { IfOk result (λ why. why ≡ reason_why rows.now source.now row.now) }
    ensures memory { IsOkUnless result Fault.NoMemory }
{
    if is_untied(source) {
        return Ok(apart_as(
            source.unbindable,
            WhyNot::SourceUnbindable,
            WhyNot::SourcePrivate,
        ));
    }
    if source.group.is_some() && is_untied(row) {
        return Ok(apart_as(row.unbindable, WhyNot::Unbindable, WhyNot::Private));
    }
    if gets_at(rows, row, source)? {
        return Ok(WhyNot::StartsInSlave);
    }
    let common = common_group(rows, source, row)?;
    Ok(unless_common(common, source))
}

/// One of two reasons.
fn apart_as(unbindable: bool, yes: WhyNot, no: WhyNot) -> WhyNot
    ensures { result ≡ cond unbindable yes no }
{
    if unbindable { yes } else { no }
}

/// The reason where neither gets from the other.
fn unless_common(common: Option<GroupId>, source: &SeenRow) -> WhyNot
    ensures { result ≡ option_map_or (λ g. WhyNot.Siblings g) common (cond (is_none source.now.group) WhyNot.OnlySlave WhyNot.OtherGroup) }
{
    match common {
        Some(group) => WhyNot::Siblings(group),
        None => apart_as(
            source.group.is_none(),
            WhyNot::OnlySlave,
            WhyNot::OtherGroup,
        ),
    }
}
