//! Where the paths of a command end, by the rows alone.
ghost use Rattle.std.specs.Prelude.{◌≡◌, IfOk, IsOkUnless, option_copied};
ghost use Rattle.mt_refused.specs.Endings.{end_of_path, place_ended, end_at, tree_root, moved_top};

use crate::asked::{Which, asked_path, asked_space, asked_tree, is_detach};
use mt_book::command::Command;
use mt_mounts::mount::{MountId, SpaceId};
use mt_reach::path::Path;
use mt_reach::row::{SeenDirectory, SeenRow};
use mt_reach::rows::SeenRows;
use mt_reach::walking::{directory_at, end_of, root_row, stack_end_of};
use mt_skel::fault::Fault;
use std::alloc::Global;

/// Where a path ends: the mount, and the directory.
#[derive(Drop)]
pub(crate) struct Ending {
    pub(crate) mount: MountId,
    pub(crate) directory: SeenDirectory,
}

/// The mount on which a path ends; of a detach the topmost one there. Refused as `NoMemory` alone.
fn end_of_path<'a>(
    rows: &'a SeenRows,
    command: &Command,
    space: SpaceId,
    path: &Path,
) -> Result<Option<&'a SeenRow>, Fault>
    ensures end { IfOk result (λ end. option_copied end ≡ end_of_path rows.now command.now space path.now) }
    ensures memory { IsOkUnless result Fault.NoMemory }
{
    if is_detach(command) {
        stack_end_of(rows, space, path)
    } else {
        end_of(rows, space, path)
    }
}

/// Where a path of a command ends; `None` where it has no such path, or no table is that of its namespace. Every directory is
/// taken to be there. Refused as `NoMemory` alone.
pub(crate) fn place_ended(
    alloc: Global,
    rows: &SeenRows,
    command: &Command,
    which: Which,
) -> Result<Option<Ending>, Fault>
    ensures place_ended { IfOk result (λ ended. ended ≡ place_ended rows.now command.now which) }
    ensures memory { IsOkUnless result Fault.NoMemory }
{
    let Some(space) = asked_space(command) else {
        return Ok(None);
    };
    let Some(names) = asked_path(command, which) else {
        return Ok(None);
    };
    let path = Path::of(names, alloc)?;
    let Some(row) = end_of_path(rows, command, space, &path)? else {
        return Ok(None);
    };
    let directory = directory_at(row, &path)?;
    Ok(Some(Ending {
        mount: row.id,
        directory,
    }))
}

/// The mount on which a path of a command ends. Refused as `NoMemory` alone.
pub(crate) fn end_at(
    alloc: Global,
    rows: &SeenRows,
    command: &Command,
    which: Which,
) -> Result<Option<MountId>, Fault>
    ensures end { IfOk result (λ end. end ≡ end_at rows.now command.now which) }
    ensures memory { IsOkUnless result Fault.NoMemory }
{
    match place_ended(alloc, rows, command, which)? {
        Some(place_ended) => Ok(Some(place_ended.mount)),
        None => Ok(None),
    }
}

/// The root mount of the tree that a command attaches, if it does that. Takes no memory.
fn tree_root(rows: &SeenRows, command: &Command) -> Option<MountId>
    ensures { result ≡ tree_root rows.now command.now }
{
    let tree = asked_tree(command)?;
    match root_row(rows, tree) {
        Some(row) => Some(row.id),
        None => None,
    }
}

/// The top of what a command moves: the root mount of a tree that is attached, or the mount where the first path ends. Refused
/// as `NoMemory` alone.
pub(crate) fn moved_top(
    alloc: Global,
    rows: &SeenRows,
    command: &Command,
) -> Result<Option<MountId>, Fault>
    ensures top { IfOk result (λ top. top ≡ moved_top rows.now command.now) }
    ensures memory { IsOkUnless result Fault.NoMemory }
{
    let root = tree_root(rows, command);
    if root.is_some() {
        return Ok(root);
    }
    end_at(alloc, rows, command, Which::First)
}
