//! The lines that say what would change a refusal.
//!
//! A path is said only where a walk of it ends on the mount that is meant.
ghost use Rattle.std.specs.Prelude.{◌≡◌, ◌++◌, OnOk, IfOk, IsOkUnless};
ghost use Rattle.mt_refused.specs.Remedies.{only_of, is_front, setattr_remedy, unnamed_remedy, private_help, bind_remedy, bind_help, name_remedy, name_help, off_root_help, root_place_help, elsewhere_help, inside_help, bindable_help, unbindable_inside_help, umount_remedy, umount_help, umounts_help, detach_remedy, detach_help, busy_help, unshared_help, remedies};

use crate::asked::{Which, is_set, takes_mounts};
use crate::hindrance::Hindrance;
use crate::locked::{push_keep, push_leave, push_whole};
use crate::page::Page;
use crate::part::{Part, push_parts};
use mt_mounts::mount::{MountId, SpaceId};
use mt_reach::refusals::{tree_below, unbindable_inside};
use mt_reach::row::SeenRow;
use mt_reach::walking::mount_in_front;
use mt_skel::fault::Fault;
use std::alloc::AllocError;

/// Whether the path that is a mount's mount point leads to it. Refused as `NoMemory` alone.
fn is_front(page: &Page<'_>, row: &SeenRow) -> Result<bool, Fault>
    ensures front { IfOk result (λ is. is ≡ is_front page.now row.now) }
    ensures memory { IsOkUnless result Fault.NoMemory }
{
    match mount_in_front(page.rows, row)? {
        Some(front) => Ok(front.id == row.id),
        None => Ok(false),
    }
}

/// The mount of a list of one.
fn only_of(ids: &[MountId]) -> Option<MountId>
    ensures { result ≡ only_of ids.now }
{
    match ids {
        [id] => Some(*id),
        _ => None,
    }
}

/// Says that `setattr` makes a mount private.
fn push_setattr(
    text: &mut Vec<u8>,
    page: &Page<'_>,
    row: &SeenRow,
    note: &[u8],
) -> Result<(), AllocError>
    ensures { OnOk result (text.new.items ≡ text.old.items ++ setattr_remedy page.now note.now row.now) }
{
    push_parts(
        text,
        page,
        &[
            Part::Text(b"  to change that: setattr "),
            Part::Number(row.space),
            Part::Text(b" "),
            Part::Point(row.id),
            Part::Text(b" prop=private"),
            Part::Text(note),
            Part::Text(b"\n"),
        ],
    )
}

/// Says that no path leads to a mount.
fn push_unnamed(text: &mut Vec<u8>, page: &Page<'_>, id: MountId) -> Result<(), AllocError>
    ensures { OnOk result (text.new.items ≡ text.old.items ++ unnamed_remedy page.now id) }
{
    push_parts(
        text,
        page,
        &[
            Part::Text(b"  to change that: take away first what hides "),
            Part::Mount(id),
            Part::Text(b"\n"),
        ],
    )
}

/// Says how a mount is made private, with a note. Refused as `NoMemory` alone.
fn push_private(text: &mut Vec<u8>, page: &Page<'_>, note: &[u8], id: MountId) -> Result<(), Fault>
    ensures text { OnOk result (text.new.items ≡ text.old.items ++ private_help page.now note.now id) }
    ensures memory { IsOkUnless result Fault.NoMemory }
{
    let Some(row) = page.rows.get(id) else {
        return Ok(());
    };
    if is_front(page, row)? {
        Ok(push_setattr(text, page, row, note)?)
    } else {
        Ok(push_unnamed(text, page, id)?)
    }
}

/// Says that a bind makes a mount of a directory.
fn push_bind(text: &mut Vec<u8>, page: &Page<'_>, space: SpaceId) -> Result<(), AllocError>
    ensures { OnOk result (text.new.items ≡ text.old.items ++ bind_remedy page.now space) }
{
    push_parts(
        text,
        page,
        &[
            Part::Text(b"  to change that: bind "),
            Part::Number(space),
            Part::Text(b" "),
            Part::Path(Which::First),
            Part::Text(b" "),
            Part::Path(Which::First),
            Part::Text(b" makes it one\n"),
        ],
    )
}

/// Says that a bind makes a mount of the directory of a mount, where it does and helps.
fn push_bind_help(text: &mut Vec<u8>, page: &Page<'_>, row: &SeenRow) -> Result<(), AllocError>
    ensures { OnOk result (text.new.items ≡ text.old.items ++ bind_help page.now row.now) }
{
    if takes_mounts(page.command) || row.unbindable {
        return Ok(());
    }
    push_bind(text, page, row.space)
}

/// Says where the mount of a directory stands.
fn push_name(text: &mut Vec<u8>, page: &Page<'_>, id: MountId) -> Result<(), AllocError>
    ensures { OnOk result (text.new.items ≡ text.old.items ++ name_remedy page.now id) }
{
    push_parts(
        text,
        page,
        &[
            Part::Text(b"  to change that: name "),
            Part::Point(id),
            Part::Text(b", which is its mount\n"),
        ],
    )
}

/// Says where the mount of a directory stands, where its path leads there, and it is no root mount or that may be named. Refused
/// as `NoMemory` alone.
fn push_name_help(text: &mut Vec<u8>, page: &Page<'_>, row: &SeenRow) -> Result<(), Fault>
    ensures text { OnOk result (text.new.items ≡ text.old.items ++ name_help page.now row.now) }
    ensures memory { IsOkUnless result Fault.NoMemory }
{
    if !is_set(page.command) && page.rows.parent_row(row).is_none() {
        return Ok(());
    }
    if is_front(page, row)? {
        Ok(push_name(text, page, row.id)?)
    } else {
        Ok(())
    }
}

/// Says what makes a mount of a directory, and which mount it is on. Refused as `NoMemory` alone.
fn push_off_root(text: &mut Vec<u8>, page: &Page<'_>, on: MountId) -> Result<(), Fault>
    ensures text { OnOk result (text.new.items ≡ text.old.items ++ off_root_help page.now on) }
    ensures memory { IsOkUnless result Fault.NoMemory }
{
    let Some(row) = page.rows.get(on) else {
        return Ok(());
    };
    push_bind_help(text, page, row)?;
    push_name_help(text, page, row)
}

/// Says what changes the root of a namespace.
fn push_root_place(text: &mut Vec<u8>, page: &Page<'_>) -> Result<(), AllocError>
    ensures { OnOk result (text.new.items ≡ text.old.items ++ root_place_help page.now) }
{
    if takes_mounts(page.command) {
        text.extend_from_slice(
            b"  to change that: pivot to another root, and then detach this one\n",
        )
    } else {
        text.extend_from_slice(b"  to change that: another path; only a pivot changes the root\n")
    }
}

/// Says where a tree may go.
fn push_elsewhere(text: &mut Vec<u8>, page: &Page<'_>, tree: MountId) -> Result<(), AllocError>
    ensures { OnOk result (text.new.items ≡ text.old.items ++ elsewhere_help page.now tree) }
{
    push_parts(
        text,
        page,
        &[
            Part::Text(b"  to change that: a place that is neither on "),
            Part::Mount(tree),
            Part::Text(b" nor on what stands on it\n"),
        ],
    )
}

/// Says where the old root may go.
fn push_inside(text: &mut Vec<u8>, page: &Page<'_>, new: MountId) -> Result<(), AllocError>
    ensures { OnOk result (text.new.items ≡ text.old.items ++ inside_help page.now new) }
{
    push_parts(
        text,
        page,
        &[
            Part::Text(b"  to change that: a directory of "),
            Part::Mount(new),
            Part::Text(b", or of what stands on it\n"),
        ],
    )
}

/// Says how unbindable mounts are made private. Refused as `NoMemory` alone.
fn push_bindable(text: &mut Vec<u8>, page: &Page<'_>, ids: &[MountId]) -> Result<(), Fault>
    ensures text { OnOk result (text.new.items ≡ text.old.items ++ bindable_help page.now ids.now) }
    ensures memory { IsOkUnless result Fault.NoMemory }
{
    if let Some(id) = only_of(ids) {
        return push_private(text, page, b"", id);
    }
    text.extend_from_slice(b"  to change that: setattr prop=private of each unbindable one\n")?;
    Ok(())
}

/// Says how a tree may come to stand on a mount. Refused as `NoMemory` alone.
fn push_unbindable_inside(
    text: &mut Vec<u8>,
    page: &Page<'_>,
    tree: MountId,
    onto: MountId,
) -> Result<(), Fault>
    ensures text { OnOk result (text.new.items ≡ text.old.items ++ unbindable_inside_help page.now tree onto) }
    ensures memory { IsOkUnless result Fault.NoMemory }
{
    let ids = unbindable_inside(page.rows, tree, onto)?;
    push_bindable(text, page, ids.as_slice())?;
    push_private(text, page, b", where it would stand", onto)
}

/// Says that an unmount of a mount comes first. Refused as `NoMemory` alone.
fn push_umount_of(text: &mut Vec<u8>, page: &Page<'_>, row: &SeenRow) -> Result<(), AllocError>
    ensures { OnOk result (text.new.items ≡ text.old.items ++ umount_remedy page.now row.now) }
{
    push_parts(
        text,
        page,
        &[
            Part::Text(b"  to change that: umount "),
            Part::Number(row.space),
            Part::Text(b" "),
            Part::Point(row.id),
            Part::Text(b" first\n"),
        ],
    )
}

/// Says that a mount goes first, where its path leads there. Refused as `NoMemory` alone.
fn push_umount(text: &mut Vec<u8>, page: &Page<'_>, id: MountId) -> Result<(), Fault>
    ensures text { OnOk result (text.new.items ≡ text.old.items ++ umount_help page.now id) }
    ensures memory { IsOkUnless result Fault.NoMemory }
{
    let Some(row) = page.rows.get(id) else {
        return Ok(());
    };
    if is_front(page, row)? {
        Ok(push_umount_of(text, page, row)?)
    } else {
        Ok(())
    }
}

/// Says which mounts go first. Refused as `NoMemory` alone.
fn push_umounts(text: &mut Vec<u8>, page: &Page<'_>, ids: &[MountId]) -> Result<(), Fault>
    ensures text { OnOk result (text.new.items ≡ text.old.items ++ umounts_help page.now ids.now) }
    ensures memory { IsOkUnless result Fault.NoMemory }
{
    if let Some(id) = only_of(ids) {
        return push_umount(text, page, id);
    }
    text.extend_from_slice(
        b"  to change that: umount what stands on it first, from the top down\n",
    )?;
    Ok(())
}

/// Says that a detach takes a mount with all that stands on it.
fn push_detach_of(text: &mut Vec<u8>, page: &Page<'_>, row: &SeenRow) -> Result<(), AllocError>
    ensures { OnOk result (text.new.items ≡ text.old.items ++ detach_remedy page.now row.now) }
{
    push_parts(
        text,
        page,
        &[
            Part::Text(b"  to change that: detach "),
            Part::Number(row.space),
            Part::Text(b" "),
            Part::Point(row.id),
            Part::Text(b" takes all of them\n"),
        ],
    )
}

/// Says that a detach takes a mount, where its path leads there. Refused as `NoMemory` alone.
fn push_detach(text: &mut Vec<u8>, page: &Page<'_>, id: MountId) -> Result<(), Fault>
    ensures text { OnOk result (text.new.items ≡ text.old.items ++ detach_help page.now id) }
    ensures memory { IsOkUnless result Fault.NoMemory }
{
    let Some(row) = page.rows.get(id) else {
        return Ok(());
    };
    if is_front(page, row)? {
        Ok(push_detach_of(text, page, row)?)
    } else {
        Ok(())
    }
}

/// Says what lets a mount with others on it go. Refused as `NoMemory` alone.
fn push_busy(text: &mut Vec<u8>, page: &Page<'_>, on: MountId) -> Result<(), Fault>
    ensures text { OnOk result (text.new.items ≡ text.old.items ++ busy_help page.now on) }
    ensures memory { IsOkUnless result Fault.NoMemory }
{
    let ids = tree_below(page.rows, on)?;
    push_umounts(text, page, ids.as_slice())?;
    push_detach(text, page, on)
}

/// Says how a shared mount is made private, or a slave. Refused as `NoMemory` alone.
fn push_unshared(text: &mut Vec<u8>, page: &Page<'_>, on: MountId) -> Result<(), Fault>
    ensures text { OnOk result (text.new.items ≡ text.old.items ++ unshared_help page.now on) }
    ensures memory { IsOkUnless result Fault.NoMemory }
{
    let note = b" (or prop=slave, which still gets what the others mount)";
    push_private(text, page, note, on)
}

/// Appends the lines that say what would change a refusal, which may be none. Refused as `NoMemory` alone.
pub(crate) fn push_remedies(
    text: &mut Vec<u8>,
    page: &Page<'_>,
    hindrance: Hindrance,
) -> Result<(), Fault>
    ensures text { OnOk result (text.new.items ≡ text.old.items ++ remedies page.now hindrance) }
    ensures memory { IsOkUnless result Fault.NoMemory }
{
    match hindrance {
        Hindrance::NoNamespace(_space) => Ok(()),
        Hindrance::OffRoot(on) => push_off_root(text, page, on),
        Hindrance::RootPlace { .. } => Ok(push_root_place(text, page)?),
        Hindrance::Unbindable(on) => push_private(text, page, b"", on),
        Hindrance::SharedParent(on) => push_unshared(text, page, on),
        Hindrance::SharedPlace(on) => push_unshared(text, page, on),
        Hindrance::IntoItself { tree, .. } => Ok(push_elsewhere(text, page, tree)?),
        Hindrance::LeftOutside { new, .. } => Ok(push_inside(text, page, new)?),
        Hindrance::UnbindableInside { tree, onto } => push_unbindable_inside(
            text, page, tree, onto,
        ),
        Hindrance::Busy(on) => push_busy(text, page, on),
        Hindrance::TwoTimes => {
            Ok(text.extend_from_slice(b"  to change that: one access time\n")?)
        }
        Hindrance::Clash => {
            Ok(text.extend_from_slice(b"  to change that: one access time, with clr=atime\n")?)
        }
        Hindrance::Locked(_mount) => Ok(push_leave(text)?),
        Hindrance::LockedInside(_on) => Ok(push_whole(text, page)?),
        Hindrance::LockedAttr(_mount) => Ok(push_keep(text)?),
    }
}
