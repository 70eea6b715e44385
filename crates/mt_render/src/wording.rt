//! A post in words, a line for each mount.
ghost use Rattle.std.specs.Prelude.{◌≡◌, ◌++◌, OnOk, IsTrue};
ghost use Rattle.std.specs.List.{flat_map};
ghost use Rattle.mt_skel.specs.Keyed.{rises};
ghost use Rattle.mt_info.specs.Table.{row_id};
ghost use Rattle.mt_render.specs.Wording.{mount_words, space_words, left_words, shown_line, left_text, kind_words, new_text, standing, changed_text, row_text, named_text};

use crate::field::push_changes;
use crate::named::push_name_words;
use crate::propagation::push_propagation;
use mt_events::mirror::Mirror;
use mt_events::post::Post;
use mt_info::print::{push_label, push_number, push_options, push_path};
use mt_info::row::Row;
use mt_info::table::find_row;
use mt_mounts::mount::{MountId, SpaceId};
use mt_terminal::terminal::terminal_text;
use std::alloc::AllocError;

/// A namespace by its number, and its name.
#[derive(Clone, Copy)]
struct Named<'a> {
    number: SpaceId,
    name: &'a [u8],
}

/// Appends what a post says of its namespace, in words: first a line for each mount that left, by rising ID, and then
/// one for each row, by rising ID. The mirror has the table before the post: from it are the mount points of the mounts
/// that left, and what of a mount is not as it was, with what it was. Each name is written with its escapes, so that each
/// line is that of one mount, and as a terminal is given it. A name of the namespace that is not empty stands in
/// parentheses behind its number on each line.
#[tactic(auto, unfolding(crate::specs::Wording::named_text))]
pub(crate) fn push_named(
    text: &mut Vec<u8>,
    mirror: &Mirror,
    post: &Post,
    name: &[u8],
) -> Result<(), AllocError>
    ensures told { OnOk result (text.new.items ≡ text.old.items ++ named_text name.now mirror.now post.now) }
{
    let rows = mirror.table().rows();
    let space = Named {
        number: post.space,
        name,
    };
    push_left(text, rows, space, post.gone.as_slice())?;
    push_rows(text, rows, space, post.rows.rows())?;
    Ok(())
}

/// Appends the lines of mounts that left.
fn push_left(
    text: &mut Vec<u8>,
    rows: &[Row],
    space: Named<'_>,
    gone: &[MountId],
) -> Result<(), AllocError>
    requires { IsTrue (rises row_id rows.now) }
    ensures { OnOk result (text.new.items ≡ text.old.items ++ flat_map (left_text rows.now space.entry.name.now space.entry.number) gone.now) }
{
    'gone: for id in gone {
        push_left_line(text, rows, space, *id)?;
    }
    Ok(())
}

/// Appends the lines of rows that are new or not as they were.
fn push_rows(
    text: &mut Vec<u8>,
    rows: &[Row],
    space: Named<'_>,
    news: &[Row],
) -> Result<(), AllocError>
    requires { IsTrue (rises row_id rows.now) }
    ensures { OnOk result (text.new.items ≡ text.old.items ++ flat_map (row_text rows.now space.entry.name.now space.entry.number) news.now) }
{
    'news: for row in news {
        push_row_line(text, rows, space, row)?;
    }
    Ok(())
}

/// Appends the ID of a mount and its mount point.
fn push_mount(text: &mut Vec<u8>, row: &Row) -> Result<(), AllocError>
    ensures { OnOk result (text.new.items ≡ text.old.items ++ mount_words row.now) }
{
    push_number(text, row.id)?;
    text.extend_from_slice(b" ")?;
    push_path(text, &row.point)?;
    Ok(())
}

/// Appends in which namespace a mount is.
fn push_space(text: &mut Vec<u8>, space: Named<'_>) -> Result<(), AllocError>
    ensures { OnOk result (text.new.items ≡ text.old.items ++ space_words space.entry.name.now space.entry.number) }
{
    text.extend_from_slice(b" in namespace ")?;
    push_number(text, space.number)?;
    push_name_words(text, space.name)?;
    Ok(())
}

/// Appends the ID of a mount that left, and its mount point where a row tells it.
fn push_left_mount(text: &mut Vec<u8>, rows: &[Row], id: MountId) -> Result<(), AllocError>
    requires { IsTrue (rises row_id rows.now) }
    ensures { OnOk result (text.new.items ≡ text.old.items ++ left_words rows.now id) }
{
    match find_row(rows, id) {
        Some(row) => push_mount(text, row),
        None => push_number(text, id),
    }
}

/// Appends a line as a terminal is given it. Fails for want of memory alone.
pub fn push_shown(text: &mut Vec<u8>, line: &[u8]) -> Result<(), AllocError>
    ensures { OnOk result (text.new.items ≡ text.old.items ++ shown_line line.now) }
{
    text.extend_from_slice(&terminal_text(*text.allocator(), line)?)?;
    text.extend_from_slice(b"\n")?;
    Ok(())
}

/// Appends the line of a mount that left.
#[tactic(auto, unfolding(crate::specs::Wording::left_text))]
fn push_left_line(
    text: &mut Vec<u8>,
    rows: &[Row],
    space: Named<'_>,
    id: MountId,
) -> Result<(), AllocError>
    requires { IsTrue (rises row_id rows.now) }
    ensures { OnOk result (text.new.items ≡ text.old.items ++ left_text rows.now space.entry.name.now space.entry.number id) }
{
    let mut line = Vec::new(*text.allocator());
    line.extend_from_slice(b"- ")?;
    push_left_mount(&mut line, rows, id)?;
    push_space(&mut line, space)?;
    push_shown(text, &line)
}

/// Appends what a new mount is: its type, its options, and how it propagates.
fn push_kind(text: &mut Vec<u8>, row: &Row) -> Result<(), AllocError>
    ensures { OnOk result (text.new.items ≡ text.old.items ++ kind_words row.now) }
{
    text.extend_from_slice(b" ")?;
    push_label(text, &row.kind)?;
    text.extend_from_slice(b" ")?;
    push_options(text, &row.attrs)?;
    text.extend_from_slice(b" ")?;
    push_propagation(text, row)?;
    Ok(())
}

/// Appends the line of a mount that is new.
#[tactic(auto, unfolding(crate::specs::Wording::new_text))]
fn push_new_line(text: &mut Vec<u8>, space: Named<'_>, row: &Row) -> Result<(), AllocError>
    ensures { OnOk result (text.new.items ≡ text.old.items ++ new_text space.entry.name.now space.entry.number row.now) }
{
    let mut line = Vec::new(*text.allocator());
    line.extend_from_slice(b"+ ")?;
    push_mount(&mut line, row)?;
    push_kind(&mut line, row)?;
    push_space(&mut line, space)?;
    push_shown(text, &line)
}

/// Appends the mount point of a mount that stands where it stood. Fails for want of memory alone.
pub fn push_standing(text: &mut Vec<u8>, before: &Row, after: &Row) -> Result<(), AllocError>
    ensures { OnOk result (text.new.items ≡ text.old.items ++ standing before.now after.now) }
{
    if before.point.is_same(&after.point) {
        push_path(text, &after.point)?;
        text.extend_from_slice(b" ")?;
    }
    Ok(())
}

/// Appends the line of a mount that was there before.
#[tactic(auto, unfolding(crate::specs::Wording::changed_text))]
fn push_changed_line(
    text: &mut Vec<u8>,
    space: Named<'_>,
    before: &Row,
    after: &Row,
) -> Result<(), AllocError>
    ensures { OnOk result (text.new.items ≡ text.old.items ++ changed_text space.entry.name.now space.entry.number before.now after.now) }
{
    let mut line = Vec::new(*text.allocator());
    line.extend_from_slice(b"~ ")?;
    push_number(&mut line, after.id)?;
    line.extend_from_slice(b" ")?;
    push_standing(&mut line, before, after)?;
    push_changes(&mut line, before, after)?;
    push_space(&mut line, space)?;
    push_shown(text, &line)
}

/// Appends the line of a row, new or not as it was.
fn push_row_line(
    text: &mut Vec<u8>,
    rows: &[Row],
    space: Named<'_>,
    row: &Row,
) -> Result<(), AllocError>
    requires { IsTrue (rises row_id rows.now) }
    ensures { OnOk result (text.new.items ≡ text.old.items ++ row_text rows.now space.entry.name.now space.entry.number row.now) }
{
    match find_row(rows, row.id) {
        Some(before) => push_changed_line(text, space, before, row),
        None => push_new_line(text, space, row),
    }
}
