//! What a script tells of the rows for which it makes no mount, or another one than they tell.
ghost use Rattle.std.specs.Prelude.{◌≡◌, ◌++◌, OnOk};
ghost use Rattle.std.specs.List.{flat_map, AllByRecursion};
ghost use Rattle.mt_import.specs.Script.{left_row_text, mount_comment};
ghost use Rattle.mt_import.specs.Telling.{rows_text, tree_rows, mounts_text, rootless_text, lockless_text, space_comments, HasMakingOrder};

use crate::host_mount::HostMount;
use crate::mount::Mount;
use crate::options::are_known;
use crate::reason::{Reason, Why};
use crate::script::Script;
use crate::space::{Space, Way};
use crate::writer::{Done, note, one_behind, table_comment};

/// Tells a row that is left out, and why, if it is.
#[tactic(auto, unfolding(crate::specs::Script::left_out_text))]
fn tell_row(script: &mut Script, table: usize, row: &HostMount, left: Why) -> Done
    ensures { OnOk result (script.new ≡ script.old ++ left_row_text table row.now left) }
{
    let Some(why) = left else {
        return Ok(());
    };
    let text = one_behind(script.alloc(), b"is left out: ", why.text())?;
    note(script, table, row, text.as_slice())
}

/// Tells the rows of a table that have no mount in its tree.
fn tell_rows(script: &mut Script, table: usize, rows: &[HostMount], left: &[Why]) -> Done
    ensures { OnOk result (script.new ≡ script.old ++ rows_text table rows.now left.now) }
{
    let mut others = left.iter();
    'rows: for row in rows {
        let left = match others.next() {
            Some(why) => *why,
            None => Some(Reason::Ring),
        };
        tell_row(script, table, row, left)?;
    }
    Ok(())
}

/// Tells the rows of the tables that have no mount in the trees.
pub(crate) fn tell_tables(script: &mut Script, spaces: &[Space<'_>]) -> Done
    ensures { OnOk result (script.new ≡ script.old ++ flat_map tree_rows spaces.now) }
{
    'spaces: for space in spaces {
        let tree = &space.tree;
        tell_rows(script, tree.table, tree.rows(), tree.left.as_slice())?;
    }
    Ok(())
}

/// Tells a mount that is left out, or one with options that no mount has here.
#[tactic(auto, unfolding(crate::specs::Script::options_comment))]
fn tell_mount(script: &mut Script, table: usize, row: &HostMount, left: Why) -> Done
    ensures { OnOk result (script.new ≡ script.old ++ mount_comment table row.now left) }
{
    if left.is_some() {
        return tell_row(script, table, row, left);
    }
    if are_known(row.options.as_slice()) {
        return Ok(());
    }
    note(script, table, row, b"has options that are left out")
}

/// Tells the mounts of a table that are left out, and those with options that no mount has here.
fn tell_mounts(script: &mut Script, table: usize, mounts: &[Mount<'_>], ways: &[Way]) -> Done
    ensures { OnOk result (script.new ≡ script.old ++ mounts_text table mounts.now ways.now) }
{
    let mut others = ways.iter();
    'mounts: for mount in mounts {
        let left = match others.next() {
            Some(way) => way.left,
            None => Some(Reason::NoRoom),
        };
        tell_mount(script, table, mount.row, left)?;
    }
    Ok(())
}

/// Tells that no namespace is made of a table, if none is.
fn tell_rootless(script: &mut Script, is_shown: bool, table: usize) -> Done
    ensures { OnOk result (script.new ≡ script.old ++ rootless_text is_shown table) }
{
    if is_shown {
        return Ok(());
    }
    table_comment(script, table, b" has no root mount", b"")
}

/// Tells that the locks of a namespace are not known, if they are not.
fn tell_lockless(script: &mut Script, has_unknown_locks: bool, table: usize) -> Done
    ensures { OnOk result (script.new ≡ script.old ++ lockless_text has_unknown_locks table) }
{
    if !has_unknown_locks {
        return Ok(());
    }
    let text = b" is of another user namespace, and its locks are not known";
    table_comment(script, table, text, b"")
}

/// Tells what is not made of a table.
fn tell_space(script: &mut Script, space: &Space<'_>) -> Done
    ensures tree { OnOk result (HasMakingOrder space.now) }
    ensures pushed { OnOk result (script.new ≡ script.old ++ space_comments space.now) }
{
    let tree = &space.tree;
    let table = tree.table;
    tell_mounts(script, table, tree.mounts(), space.ways.as_slice())?;
    tell_rootless(script, space.is_shown(), table)?;
    tell_lockless(script, space.has_unknown_locks(), table)?;
    Ok(())
}

/// Tells what is not made of all tables, each of which has its tree.
pub(crate) fn tell_spaces(script: &mut Script, spaces: &[Space<'_>]) -> Done
    ensures trees { OnOk result (AllByRecursion HasMakingOrder spaces.now) }
    ensures pushed { OnOk result (script.new ≡ script.old ++ flat_map space_comments spaces.now) }
{
    'spaces: for space in spaces {
        tell_space(script, space)?;
    }
    Ok(())
}
