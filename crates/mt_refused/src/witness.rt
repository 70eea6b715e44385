//! The mounts that are named for a refusal.
ghost use Rattle.std.specs.Prelude.{◌≡◌, ◌∷◌, [], ◌++◌, IfOk, OnOk, IsOkUnless};
ghost use Rattle.mt_refused.specs.Witnesses.{is_space_root, root_mounts, is_below_path, standing_below, below_path, covering, members_with, unbindable_onto, witnesses};

use crate::asked::{Which, asked_path};
use crate::hindrance::Hindrance;
use mt_book::command::Command;
use mt_mounts::mount::MountId;
use mt_reach::origin::members_of;
use mt_reach::path::Path;
use mt_reach::refusals;
use mt_reach::row::SeenRow;
use mt_reach::rows::SeenRows;
use mt_reach::walking::stacked_at;
use mt_skel::fault::Fault;
use std::alloc::{AllocError, Global};

/// Whether a mount is the root mount of its namespace.
fn is_space_root(rows: &SeenRows, row: &SeenRow) -> bool
    ensures { result ≡ is_space_root rows.now row.now }
{
    row.point.is_root() && rows.parent_row(row).is_none()
}

/// The root mounts of all namespaces, by rising ID. Refused as `NoMemory` alone.
fn root_mounts(alloc: Global, rows: &SeenRows) -> Result<Vec<MountId>, Fault>
    ensures roots { IfOk result (λ ids. ids.items ≡ root_mounts rows.now) }
    ensures memory { IsOkUnless result Fault.NoMemory }
{
    let mut ids = Vec::new(alloc);
    'rows: for row in rows.rows() {
        if is_space_root(rows, row) {
            ids.push(row.id)?;
        }
    }
    Ok(ids)
}

/// Whether a mount stands on another one, at a path or below it.
fn is_below_path(on: &SeenRow, path: &Path, row: &SeenRow) -> bool
    ensures { result ≡ is_below_path on.now path.now row.now }
{
    row.stands_on(on) && row.point.starts_with(path)
}

/// Appends the mounts that stand on one at a path or below it, by rising ID. Refused as `NoMemory` alone.
fn push_below(
    rows: &SeenRows,
    on: &SeenRow,
    path: &Path,
    ids: &mut Vec<MountId>,
) -> Result<(), Fault>
    ensures below { OnOk result (ids.new.items ≡ ids.old.items ++ standing_below rows.now path.now on.now) }
    ensures memory { IsOkUnless result Fault.NoMemory }
{
    'rows: for row in rows.rows() {
        if is_below_path(on, path, row) {
            ids.push(row.id)?;
        }
    }
    Ok(())
}

/// A mount, and those that stand on it where the first path ends, or below that. Refused as `NoMemory` alone.
fn below_path(
    alloc: Global,
    rows: &SeenRows,
    command: &Command,
    on: MountId,
) -> Result<Vec<MountId>, Fault>
    ensures below { IfOk result (λ ids. ids.items ≡ on ∷ below_path rows.now command.now on) }
    ensures memory { IsOkUnless result Fault.NoMemory }
{
    let mut ids = one(alloc, on)?;
    let Some(names) = asked_path(command, Which::First) else {
        return Ok(ids);
    };
    let Some(row) = rows.get(on) else {
        return Ok(ids);
    };
    let path = Path::of(names, alloc)?;
    push_below(rows, row, &path, &mut ids)?;
    Ok(ids)
}

/// One mount. Fails for want of memory alone.
fn one(alloc: Global, id: MountId) -> Result<Vec<MountId>, AllocError>
    ensures { IfOk result (λ ids. ids.items ≡ id ∷ []) }
{
    let mut ids = Vec::new(alloc);
    ids.push(id)?;
    Ok(ids)
}

/// A root mount, and what stands on its root. Refused as `NoMemory` alone.
fn covering(alloc: Global, rows: &SeenRows, root: MountId) -> Result<Vec<MountId>, Fault>
    ensures covering { IfOk result (λ ids. ids.items ≡ root ∷ covering rows.now root) }
    ensures memory { IsOkUnless result Fault.NoMemory }
{
    let mut ids = one(alloc, root)?;
    let Some(row) = rows.get(root) else {
        return Ok(ids);
    };
    let point = Path::root(alloc);
    let Some(cover) = stacked_at(rows, &point, row) else {
        return Ok(ids);
    };
    ids.push(cover.id)?;
    Ok(ids)
}

/// The members of a mount's peer group, itself among them, by rising ID; none where it is in no group. Refused as `NoMemory` alone.
fn members_with(alloc: Global, rows: &SeenRows, id: MountId) -> Result<Vec<MountId>, Fault>
    ensures members { IfOk result (λ ids. ids.items ≡ members_with rows.now id) }
    ensures memory { IsOkUnless result Fault.NoMemory }
{
    match rows.group_of(id) {
        Some(group) => members_of(rows, group),
        None => Ok(Vec::new(alloc)),
    }
}

/// The unbindable mounts of a tree, and where it would stand. Refused as `NoMemory` alone.
fn unbindable_onto(rows: &SeenRows, tree: MountId, onto: MountId) -> Result<Vec<MountId>, Fault>
    ensures inside { IfOk result (λ ids. ids.items ≡ unbindable_onto rows.now tree onto) }
    ensures memory { IsOkUnless result Fault.NoMemory }
{
    let mut ids = refusals::unbindable_inside(rows, tree, onto)?;
    ids.push(onto)?;
    Ok(ids)
}

/// The mounts that are named for a hindrance. Refused as `NoMemory` alone.
pub(crate) fn witnesses(
    alloc: Global,
    rows: &SeenRows,
    command: &Command,
    hindrance: Hindrance,
) -> Result<Vec<MountId>, Fault>
    ensures named { IfOk result (λ ids. ids.items ≡ witnesses rows.now command.now hindrance) }
    ensures memory { IsOkUnless result Fault.NoMemory }
{
    match hindrance {
        Hindrance::NoNamespace(_space) => root_mounts(alloc, rows),
        Hindrance::OffRoot(on) => below_path(alloc, rows, command, on),
        Hindrance::RootPlace { root, .. } => covering(alloc, rows, root),
        Hindrance::Unbindable(on) => Ok(one(alloc, on)?),
        Hindrance::SharedParent(on) => members_with(alloc, rows, on),
        Hindrance::SharedPlace(on) => members_with(alloc, rows, on),
        Hindrance::IntoItself { tree, onto } => refusals::into_itself(rows, tree, onto),
        Hindrance::LeftOutside { new, onto } => refusals::left_outside(rows, new, onto),
        Hindrance::UnbindableInside { tree, onto } => unbindable_onto(rows, tree, onto),
        Hindrance::Busy(on) => refusals::standing_on(rows, on),
        Hindrance::TwoTimes | Hindrance::Clash => Ok(Vec::new(alloc)),
        Hindrance::Locked(mount) => Ok(one(alloc, mount)?),
        Hindrance::LockedInside(on) => below_path(alloc, rows, command, on),
        Hindrance::LockedAttr(mount) => Ok(one(alloc, mount)?),
    }
}
