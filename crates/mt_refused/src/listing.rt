//! The rows of the mounts that are named for a hindrance.
ghost use Rattle.std.specs.Prelude.{◌≡◌, ◌++◌, OnOk, IsOkUnless};
ghost use Rattle.std.specs.List.{flat_map};
ghost use Rattle.mt_skel.specs.Escapes.{escaped};
ghost use Rattle.mt_refused.specs.Titles.{number_text};
ghost use Rattle.mt_refused.specs.Listings.{directory_text, bracketed_root, source_text, group_field_text, alone_text, propagation_fields, other_space_text, hidden_text, cover_text, head_text, told_text, cover_end, told_line, more_text, listed_rows};

use crate::asked::asked_space;
use crate::page::Page;
use crate::part::push_names;
use mt_info::print::push_number;
use mt_mounts::mount::MountId;
use mt_peers::state::GroupId;
use mt_reach::row::{SeenDirectory, SeenRow};
use mt_reach::walking::mount_in_front;
use mt_skel::escape::push_escaped;
use mt_skel::fault::Fault;
use std::alloc::AllocError;

/// How many rows are listed at most.
const MOST_ROWS: usize = 8;

/// Appends names with their escapes, one behind the other.
fn push_bare(text: &mut Vec<u8>, directory: &SeenDirectory) -> Result<(), AllocError>
    ensures { OnOk result (text.new.items ≡ text.old.items ++ flat_map escaped directory.now.path) }
{
    'names: for name in directory.path.names() {
        push_escaped(text, name.bytes())?;
    }
    Ok(())
}

/// Appends a directory: its path, or what is shown where it has none.
fn push_directory(text: &mut Vec<u8>, directory: &SeenDirectory) -> Result<(), AllocError>
    ensures { OnOk result (text.new.items ≡ text.old.items ++ directory_text directory.now) }
{
    if directory.unlinked {
        push_bare(text, directory)
    } else {
        push_names(text, &directory.path)
    }
}

/// Appends the directory that a mount shows in brackets, unless it is the root of its filesystem.
fn push_root(text: &mut Vec<u8>, directory: &SeenDirectory) -> Result<(), AllocError>
    ensures { OnOk result (text.new.items ≡ text.old.items ++ bracketed_root directory.now) }
{
    if directory.path.is_root() {
        return Ok(());
    }
    text.extend_from_slice(b"[")?;
    push_directory(text, directory)?;
    text.extend_from_slice(b"]")
}

/// Appends the source of a mount, and the directory of it.
fn push_source(text: &mut Vec<u8>, row: &SeenRow) -> Result<(), AllocError>
    ensures { OnOk result (text.new.items ≡ text.old.items ++ source_text row.now) }
{
    text.extend_from_slice(b" ")?;
    push_escaped(text, row.source.bytes())?;
    push_root(text, &row.root)
}

/// Appends a word and a group, if there is one.
fn push_tag(
    text: &mut Vec<u8>,
    page: &Page<'_>,
    word: &[u8],
    group: Option<GroupId>,
) -> Result<(), AllocError>
    ensures { OnOk result (text.new.items ≡ text.old.items ++ group_field_text page.now.titles word.now group) }
{
    match group {
        Some(group) => {
            text.extend_from_slice(word)?;
            page.titles.push_group(text, group)
        }
        None => Ok(()),
    }
}

/// Appends a word where a mount is unbindable, or has neither group nor master.
fn push_alone(text: &mut Vec<u8>, row: &SeenRow) -> Result<(), AllocError>
    ensures { OnOk result (text.new.items ≡ text.old.items ++ alone_text row.now) }
{
    if row.unbindable {
        text.extend_from_slice(b" unbindable")
    } else if row.group.is_none() && row.master.is_none() {
        text.extend_from_slice(b" private")
    } else {
        Ok(())
    }
}

/// Appends how a mount propagates.
fn push_tags(text: &mut Vec<u8>, page: &Page<'_>, row: &SeenRow) -> Result<(), AllocError>
    ensures { OnOk result (text.new.items ≡ text.old.items ++ propagation_fields page.now.titles row.now) }
{
    push_tag(text, page, b" shared:", row.group)?;
    push_tag(text, page, b" master:", row.master)?;
    push_tag(text, page, b" propagate_from:", row.via)?;
    push_alone(text, row)
}

/// Appends the namespace of a mount, unless it is that of the command.
fn push_elsewhere(text: &mut Vec<u8>, page: &Page<'_>, row: &SeenRow) -> Result<(), AllocError>
    ensures { OnOk result (text.new.items ≡ text.old.items ++ other_space_text page.now row.now) }
{
    if asked_space(page.command) == Some(row.space) {
        return Ok(());
    }
    text.extend_from_slice(b" in ")?;
    page.titles.push_space(text, row.space)
}

/// Appends words and the number of a mount.
fn push_number_behind(
    text: &mut Vec<u8>,
    page: &Page<'_>,
    words: &[u8],
    id: MountId,
) -> Result<(), AllocError>
    ensures { OnOk result (text.new.items ≡ text.old.items ++ (words.now ++ number_text page.now.titles.last_mount id)) }
{
    text.extend_from_slice(words)?;
    page.titles.push_mount(text, id)
}

/// Appends the mount that hides another one, if one does.
fn push_hidden(
    text: &mut Vec<u8>,
    page: &Page<'_>,
    row: &SeenRow,
    front: &SeenRow,
) -> Result<(), AllocError>
    ensures { OnOk result (text.new.items ≡ text.old.items ++ hidden_text page.now.titles row.now front.now) }
{
    if front.id == row.id {
        Ok(())
    } else {
        push_number_behind(text, page, b", hidden by mount ", front.id)
    }
}

/// Appends the number of a mount, its mount point, and its source.
fn push_head(text: &mut Vec<u8>, page: &Page<'_>, row: &SeenRow) -> Result<(), AllocError>
    ensures { OnOk result (text.new.items ≡ text.old.items ++ head_text page.now.titles row.now) }
{
    text.extend_from_slice(b"    ")?;
    page.titles.push_mount(text, row.id)?;
    text.extend_from_slice(b" ")?;
    push_names(text, &row.point)?;
    push_source(text, row)
}

/// Appends a row, but for what hides it.
fn push_told(text: &mut Vec<u8>, page: &Page<'_>, row: &SeenRow) -> Result<(), AllocError>
    ensures { OnOk result (text.new.items ≡ text.old.items ++ told_text page.now row.now) }
{
    push_head(text, page, row)?;
    push_tags(text, page, row)?;
    push_elsewhere(text, page, row)
}

/// Appends what hides a mount, if something does. Refused as `NoMemory` alone.
fn push_cover(text: &mut Vec<u8>, page: &Page<'_>, row: &SeenRow) -> Result<(), Fault>
    ensures text { OnOk result (text.new.items ≡ text.old.items ++ cover_text page.now row.now) }
    ensures memory { IsOkUnless result Fault.NoMemory }
{
    match mount_in_front(page.rows, row)? {
        Some(front) => Ok(push_hidden(text, page, row, front)?),
        None => Ok(()),
    }
}

/// Appends what hides a mount, if something does, and a line end. Refused as `NoMemory` alone.
fn push_end(text: &mut Vec<u8>, page: &Page<'_>, row: &SeenRow) -> Result<(), Fault>
    ensures text { OnOk result (text.new.items ≡ text.old.items ++ cover_end page.now row.now) }
    ensures memory { IsOkUnless result Fault.NoMemory }
{
    push_cover(text, page, row)?;
    text.extend_from_slice(b"\n")?;
    Ok(())
}

/// Appends the line of a mount, if there is a row of it. Refused as `NoMemory` alone.
pub(crate) fn push_line(text: &mut Vec<u8>, page: &Page<'_>, id: MountId) -> Result<(), Fault>
    ensures text { OnOk result (text.new.items ≡ text.old.items ++ told_line page.now id) }
    ensures memory { IsOkUnless result Fault.NoMemory }
{
    let Some(row) = page.rows.get(id) else {
        return Ok(());
    };
    push_told(text, page, row)?;
    push_end(text, page, row)
}

/// Appends the lines of mounts. Refused as `NoMemory` alone.
fn push_lines(text: &mut Vec<u8>, page: &Page<'_>, ids: &[MountId]) -> Result<(), Fault>
    ensures text { OnOk result (text.new.items ≡ text.old.items ++ flat_map (told_line page.now) ids.now) }
    ensures memory { IsOkUnless result Fault.NoMemory }
{
    'ids: for id in ids {
        push_line(text, page, *id)?;
    }
    Ok(())
}

/// Appends how many rows more there are.
fn push_more(text: &mut Vec<u8>, count: u64) -> Result<(), AllocError>
    ensures { OnOk result (text.new.items ≡ text.old.items ++ more_text count) }
{
    text.extend_from_slice(b"    and ")?;
    push_number(text, count)?;
    text.extend_from_slice(b" more\n")
}

/// Appends the lines of mounts, of the first eight alone where there are more, and then how many more. Refused as `NoMemory`
/// alone.
pub(crate) fn push_listing(
    text: &mut Vec<u8>,
    page: &Page<'_>,
    ids: &[MountId],
) -> Result<(), Fault>
    ensures text { OnOk result (text.new.items ≡ text.old.items ++ listed_rows page.now ids.now) }
    ensures memory { IsOkUnless result Fault.NoMemory }
{
    if ids.len() <= MOST_ROWS {
        return push_lines(text, page, ids);
    }
    push_lines(text, page, &ids[..MOST_ROWS])?;
    push_more(text, (ids.len() - MOST_ROWS) as u64)?;
    Ok(())
}
