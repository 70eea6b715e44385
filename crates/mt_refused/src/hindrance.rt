//! Why a command is refused, by the rows of the tables alone.
ghost use Rattle.std.specs.Prelude.{◌≡◌, IfOk, IsOkUnless};
ghost use Rattle.std.specs.Option.{option_and_then};
ghost use Rattle.mt_refused.specs.Hindrances.{if_any, lacks_root, no_namespace, off_root_met, root_place_met_at, first_root_place, root_place_met, unbindable, parent_of_first, place_of_second, shared, into_itself_met, left_outside_met, tree_onto, unbindable_inside_met, busy, clash, locked, locked_inside, locked_attr, hindrance_of};
ghost use Rattle.mt_setattr.specs.Change.{clashes};

use crate::asked::{Which, asked_space, asked_tree, copies_mounts, is_pivot};
use crate::ending::{end_at, moved_top, place_ended};
use mt_book::command::Command;
use mt_mounts::mount::{MountId, SpaceId};
use mt_reach::refusals;
use mt_reach::rows::SeenRows;
use mt_reach::walking::root_row;
use mt_setattr::change::Change;
use mt_skel::fault::Fault;
use std::alloc::Global;

/// Why a command is refused.
#[derive(Clone, Copy, PartialEq, Eq, Debug)]
pub enum Hindrance {
    /// `NoNamespace`: no table is that of this namespace.
    NoNamespace(SpaceId),
    /// `NotMountRoot`: the first path ends in a directory of this mount, and not at its root.
    OffRoot(MountId),
    /// `RootPlace`: a path ends at the root of this mount, which is the root mount of its namespace.
    RootPlace { which: Which, root: MountId },
    /// `Unbindable`: the source is on this mount.
    Unbindable(MountId),
    /// `SharedParent`: what would be moved, or become the root, stands on this mount, which is in a peer group.
    SharedParent(MountId),
    /// `SharedParent` of a pivot: the old root would stand on this mount, which is in a peer group.
    SharedPlace(MountId),
    /// `IntoItself`: the mount `tree` would be moved onto itself, or onto one that stands on it.
    IntoItself { tree: MountId, onto: MountId },
    /// `IntoItself` of a pivot: the old root would stand on the mount `onto`, which is not in the tree of the new root.
    LeftOutside { new: MountId, onto: MountId },
    /// `UnbindableInside`: the tree of a mount has unbindable ones, and the mount `onto` is in a peer group.
    UnbindableInside { tree: MountId, onto: MountId },
    /// `Busy`: mounts stand on this one.
    Busy(MountId),
    /// `BadAttr` of a mount: two access times are set.
    TwoTimes,
    /// `BadAttr` of a change: two access times are set, or one without `clr=atime`.
    Clash,
    /// `Locked`: this mount is locked on its place.
    Locked(MountId),
    /// `LockedInside`: the source is on this mount, and one that is locked on it would be left out.
    LockedInside(MountId),
    /// `LockedAttr`: of this mount, or in its tree, an attribute is locked that would change.
    LockedAttr(MountId),
}

/// A hindrance, where it has mounts.
fn if_any(ids: &[MountId], hindrance: Hindrance) -> Option<Hindrance>
    ensures { result ≡ if_any ids.now hindrance }
{
    if ids.is_empty() {
        None
    } else {
        Some(hindrance)
    }
}

/// Why a namespace is not there, if it is asked for. Takes no memory.
fn lacks_root(rows: &SeenRows, space: Option<SpaceId>) -> Option<Hindrance>
    ensures { result ≡ option_and_then (lacks_root rows.now) space }
{
    let space = space?;
    match root_row(rows, space) {
        Some(_row) => None,
        None => Some(Hindrance::NoNamespace(space)),
    }
}

/// Why the tree that a command attaches, or the namespace of its paths, is not there. Takes no memory.
fn no_namespace(rows: &SeenRows, command: &Command) -> Option<Hindrance>
    ensures { result ≡ no_namespace rows.now command.now }
{
    let tree = lacks_root(rows, asked_tree(command));
    if tree.is_some() {
        return tree;
    }
    lacks_root(rows, asked_space(command))
}

/// Why the first path names no mount. Refused as `NoMemory` alone.
fn off_root_met(
    alloc: Global,
    rows: &SeenRows,
    command: &Command,
) -> Result<Option<Hindrance>, Fault>
    ensures why { IfOk result (λ why. why ≡ off_root_met rows.now command.now) }
    ensures memory { IsOkUnless result Fault.NoMemory }
{
    let Some(end) = place_ended(alloc, rows, command, Which::First)? else {
        return Ok(None);
    };
    match refusals::off_root(rows, end.mount, &end.directory) {
        Some(on) => Ok(Some(Hindrance::OffRoot(on))),
        None => Ok(None),
    }
}

/// Why one of the paths ends at a root place. Refused as `NoMemory` alone.
fn root_place_met_at(
    alloc: Global,
    rows: &SeenRows,
    command: &Command,
    which: Which,
) -> Result<Option<Hindrance>, Fault>
    ensures why { IfOk result (λ why. why ≡ root_place_met_at rows.now command.now which) }
    ensures memory { IsOkUnless result Fault.NoMemory }
{
    let Some(end) = place_ended(alloc, rows, command, which)? else {
        return Ok(None);
    };
    match refusals::at_root_place(rows, end.mount, &end.directory) {
        Some(root) => Ok(Some(Hindrance::RootPlace { which, root })),
        None => Ok(None),
    }
}

/// Why the first path, but for what is copied, ends at a root place. Refused as `NoMemory` alone.
fn first_root_place(
    alloc: Global,
    rows: &SeenRows,
    command: &Command,
) -> Result<Option<Hindrance>, Fault>
    ensures why { IfOk result (λ why. why ≡ first_root_place rows.now command.now) }
    ensures memory { IsOkUnless result Fault.NoMemory }
{
    if copies_mounts(command) {
        return Ok(None);
    }
    root_place_met_at(alloc, rows, command, Which::First)
}

/// Why a path ends at a root place: the first one, but for what is copied, or the second. Refused as `NoMemory` alone.
fn root_place_met(
    alloc: Global,
    rows: &SeenRows,
    command: &Command,
) -> Result<Option<Hindrance>, Fault>
    ensures why { IfOk result (λ why. why ≡ root_place_met rows.now command.now) }
    ensures memory { IsOkUnless result Fault.NoMemory }
{
    let first = first_root_place(alloc, rows, command)?;
    if first.is_some() {
        return Ok(first);
    }
    root_place_met_at(alloc, rows, command, Which::Second)
}

/// Why the source cannot be bound. Refused as `NoMemory` alone.
fn unbindable(alloc: Global, rows: &SeenRows, command: &Command) -> Result<Option<Hindrance>, Fault>
    ensures why { IfOk result (λ why. why ≡ unbindable rows.now command.now) }
    ensures memory { IsOkUnless result Fault.NoMemory }
{
    let Some(on) = end_at(alloc, rows, command, Which::First)? else {
        return Ok(None);
    };
    match rows.get(on) {
        Some(row) if row.unbindable => Ok(Some(Hindrance::Unbindable(on))),
        _ => Ok(None),
    }
}

/// Why the mount of the first path stands on a shared one. Refused as `NoMemory` alone.
fn parent_of_first(
    alloc: Global,
    rows: &SeenRows,
    command: &Command,
) -> Result<Option<Hindrance>, Fault>
    ensures why { IfOk result (λ why. why ≡ parent_of_first rows.now command.now) }
    ensures memory { IsOkUnless result Fault.NoMemory }
{
    let Some(mount) = end_at(alloc, rows, command, Which::First)? else {
        return Ok(None);
    };
    match refusals::shared_parent(rows, mount) {
        Some(parent) => Ok(Some(Hindrance::SharedParent(parent))),
        None => Ok(None),
    }
}

/// Why the second path of a pivot ends on a shared mount. Refused as `NoMemory` alone.
fn place_of_second(
    alloc: Global,
    rows: &SeenRows,
    command: &Command,
) -> Result<Option<Hindrance>, Fault>
    ensures why { IfOk result (λ why. why ≡ place_of_second rows.now command.now) }
    ensures memory { IsOkUnless result Fault.NoMemory }
{
    if !is_pivot(command) {
        return Ok(None);
    }
    let Some(on) = end_at(alloc, rows, command, Which::Second)? else {
        return Ok(None);
    };
    match rows.group_of(on) {
        Some(_group) => Ok(Some(Hindrance::SharedPlace(on))),
        None => Ok(None),
    }
}

/// Why a shared mount is in the way of a move or a pivot. Refused as `NoMemory` alone.
fn shared(alloc: Global, rows: &SeenRows, command: &Command) -> Result<Option<Hindrance>, Fault>
    ensures why { IfOk result (λ why. why ≡ shared rows.now command.now) }
    ensures memory { IsOkUnless result Fault.NoMemory }
{
    let first = parent_of_first(alloc, rows, command)?;
    if first.is_some() {
        return Ok(first);
    }
    place_of_second(alloc, rows, command)
}

/// Why a mount cannot be moved onto another one. Refused as `NoMemory` alone.
fn into_itself_met(
    rows: &SeenRows,
    tree: MountId,
    onto: MountId,
) -> Result<Option<Hindrance>, Fault>
    ensures why { IfOk result (λ why. why ≡ into_itself_met rows.now tree onto) }
    ensures memory { IsOkUnless result Fault.NoMemory }
{
    let ids = refusals::into_itself(rows, tree, onto)?;
    Ok(if_any(ids.as_slice(), Hindrance::IntoItself { tree, onto }))
}

/// Why the old root cannot stand on a mount. Refused as `NoMemory` alone.
fn left_outside_met(
    rows: &SeenRows,
    new: MountId,
    onto: MountId,
) -> Result<Option<Hindrance>, Fault>
    ensures why { IfOk result (λ why. why ≡ left_outside_met rows.now new onto) }
    ensures memory { IsOkUnless result Fault.NoMemory }
{
    let ids = refusals::left_outside(rows, new, onto)?;
    Ok(if_any(ids.as_slice(), Hindrance::LeftOutside { new, onto }))
}

/// Why the top of what is moved cannot go to where the second path ends. Refused as `NoMemory` alone.
fn tree_onto(alloc: Global, rows: &SeenRows, command: &Command) -> Result<Option<Hindrance>, Fault>
    ensures why { IfOk result (λ why. why ≡ tree_onto rows.now command.now) }
    ensures memory { IsOkUnless result Fault.NoMemory }
{
    let Some(tree) = moved_top(alloc, rows, command)? else {
        return Ok(None);
    };
    let Some(onto) = end_at(alloc, rows, command, Which::Second)? else {
        return Ok(None);
    };
    if is_pivot(command) {
        left_outside_met(rows, tree, onto)
    } else {
        into_itself_met(rows, tree, onto)
    }
}

/// Why a tree with unbindable mounts cannot go there. Refused as `NoMemory` alone.
fn unbindable_inside_met(
    alloc: Global,
    rows: &SeenRows,
    command: &Command,
) -> Result<Option<Hindrance>, Fault>
    ensures why { IfOk result (λ why. why ≡ unbindable_inside_met rows.now command.now) }
    ensures memory { IsOkUnless result Fault.NoMemory }
{
    let Some(tree) = moved_top(alloc, rows, command)? else {
        return Ok(None);
    };
    let Some(onto) = end_at(alloc, rows, command, Which::Second)? else {
        return Ok(None);
    };
    let ids = refusals::unbindable_inside(rows, tree, onto)?;
    Ok(if_any(ids.as_slice(), Hindrance::UnbindableInside { tree, onto }))
}

/// Why the mount of the first path cannot be unmounted. Refused as `NoMemory` alone.
fn busy(alloc: Global, rows: &SeenRows, command: &Command) -> Result<Option<Hindrance>, Fault>
    ensures why { IfOk result (λ why. why ≡ busy rows.now command.now) }
    ensures memory { IsOkUnless result Fault.NoMemory }
{
    let Some(on) = end_at(alloc, rows, command, Which::First)? else {
        return Ok(None);
    };
    let ids = refusals::standing_on(rows, on)?;
    Ok(if_any(ids.as_slice(), Hindrance::Busy(on)))
}

/// Whether a change sets two access times, or one for which it makes no room.
fn clashes(change: &Change) -> bool
    ensures { result ≡ clashes change.now }
{
    let set = &change.set;
    let sets_time = set.relatime || set.noatime || set.strictatime;
    sets_time && !change.clr.atime || set.sets_two_times()
}

/// Why the attributes of a new mount, or those of a change, contradict one another. Takes no memory.
fn clash(command: &Command) -> Option<Hindrance>
    ensures { result ≡ clash command.now }
{
    match command {
        Command::MountWith { set, .. } if set.sets_two_times() => Some(Hindrance::TwoTimes),
        Command::SetAttr { change, .. } if clashes(change) => Some(Hindrance::Clash),
        _ => None,
    }
}

/// Why the mount of the first path is not taken from its place. Refused as `NoMemory` alone.
fn locked(alloc: Global, rows: &SeenRows, command: &Command) -> Result<Option<Hindrance>, Fault>
    ensures why { IfOk result (λ why. why ≡ locked rows.now command.now) }
    ensures memory { IsOkUnless result Fault.NoMemory }
{
    match end_at(alloc, rows, command, Which::First)? {
        Some(mount) => Ok(Some(Hindrance::Locked(mount))),
        None => Ok(None),
    }
}

/// Why the mount of the first path is not copied so. Refused as `NoMemory` alone.
fn locked_inside(
    alloc: Global,
    rows: &SeenRows,
    command: &Command,
) -> Result<Option<Hindrance>, Fault>
    ensures why { IfOk result (λ why. why ≡ locked_inside rows.now command.now) }
    ensures memory { IsOkUnless result Fault.NoMemory }
{
    match end_at(alloc, rows, command, Which::First)? {
        Some(on) => Ok(Some(Hindrance::LockedInside(on))),
        None => Ok(None),
    }
}

/// Why the attributes of the mount of the first path do not change so. Refused as `NoMemory` alone.
fn locked_attr(
    alloc: Global,
    rows: &SeenRows,
    command: &Command,
) -> Result<Option<Hindrance>, Fault>
    ensures why { IfOk result (λ why. why ≡ locked_attr rows.now command.now) }
    ensures memory { IsOkUnless result Fault.NoMemory }
{
    match end_at(alloc, rows, command, Which::First)? {
        Some(mount) => Ok(Some(Hindrance::LockedAttr(mount))),
        None => Ok(None),
    }
}

/// Why a command is refused so, by the rows of all tables before it; `None` where the rows say no such thing of it, as when
/// somebody else has changed them in between, and of the refusals that are not of mounts. Every directory is taken to be there.
/// No row tells what is locked: of a refusal for a lock the mount is answered that the command names. Refused as `NoMemory` alone.
pub fn hindrance_of(
    alloc: Global,
    rows: &SeenRows,
    command: &Command,
    refusal: Fault,
) -> Result<Option<Hindrance>, Fault>
    ensures why { IfOk result (λ why. why ≡ hindrance_of rows.now command.now refusal) }
    ensures memory { IsOkUnless result Fault.NoMemory }
{
    match refusal {
        Fault::NoNamespace => Ok(no_namespace(rows, command)),
        Fault::NotMountRoot => off_root_met(alloc, rows, command),
        Fault::RootPlace => root_place_met(alloc, rows, command),
        Fault::Unbindable => unbindable(alloc, rows, command),
        Fault::SharedParent => shared(alloc, rows, command),
        Fault::IntoItself => tree_onto(alloc, rows, command),
        Fault::UnbindableInside => unbindable_inside_met(alloc, rows, command),
        Fault::Busy => busy(alloc, rows, command),
        Fault::BadAttr => Ok(clash(command)),
        Fault::Locked => locked(alloc, rows, command),
        Fault::LockedInside => locked_inside(alloc, rows, command),
        Fault::LockedAttr => locked_attr(alloc, rows, command),
        _ => Ok(None),
    }
}
