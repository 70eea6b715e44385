//! The pieces of a line.
ghost use Rattle.std.specs.Prelude.{◌≡◌, ◌++◌, OnOk};
ghost use Rattle.std.specs.List.{flat_map};
ghost use Rattle.mt_info.specs.RowLine.{path_text};
ghost use Rattle.mt_refused.specs.Parts.{point_text, mount_told, asked_text, group_text, counted_text, called_text, piece_told};

use crate::asked::{Which, asked_path, path_name};
use crate::page::Page;
use mt_info::print::{push_number, push_path};
use mt_mounts::mount::MountId;
use mt_reach::path::Path;
use mt_reach::text::SeenText;
use mt_skel::escape::push_escaped;
use std::alloc::AllocError;

/// A piece of a line.
#[derive(Clone, Copy)]
pub(crate) enum Part<'a> {
    /// These bytes.
    Text(&'a [u8]),
    /// A number.
    Number(u64),
    /// How many there are: one of what the first says, or several of what the second says.
    Count(u64, &'a [u8], &'a [u8]),
    /// A mount, by its number and its mount point.
    Mount(MountId),
    /// A mount point.
    Point(MountId),
    /// The peer group of a mount.
    GroupOf(MountId),
    /// A path of the command, with what it is called.
    Asked(Which),
    /// A path of the command alone.
    Path(Which),
    /// A path of rows.
    Names(&'a Path),
    /// A name, with its escapes.
    Name(&'a [u8]),
}

/// Appends the path of these names: each behind a slash and with its escapes, or a slash alone where there is none.
fn push_components(text: &mut Vec<u8>, names: &[SeenText]) -> Result<(), AllocError>
    ensures { OnOk result (text.new.items ≡ text.old.items ++ path_text names.now) }
{
    if names.is_empty() {
        return text.extend_from_slice(b"/");
    }
    'components: for name in names {
        text.extend_from_slice(b"/")?;
        push_escaped(text, name.bytes())?;
    }
    Ok(())
}

/// Appends a path.
pub(crate) fn push_names(text: &mut Vec<u8>, path: &Path) -> Result<(), AllocError>
    ensures { OnOk result (text.new.items ≡ text.old.items ++ path_text path.now) }
{
    push_components(text, path.names())
}

/// Appends the mount point of a mount.
fn push_point(text: &mut Vec<u8>, page: &Page<'_>, id: MountId) -> Result<(), AllocError>
    ensures { OnOk result (text.new.items ≡ text.old.items ++ point_text page.now id) }
{
    match page.rows.get(id) {
        Some(row) => push_names(text, &row.point),
        None => Ok(()),
    }
}

/// Appends a mount, by its number and its mount point.
fn push_mount(text: &mut Vec<u8>, page: &Page<'_>, id: MountId) -> Result<(), AllocError>
    ensures { OnOk result (text.new.items ≡ text.old.items ++ mount_told page.now id) }
{
    text.extend_from_slice(b"mount ")?;
    page.titles.push_mount(text, id)?;
    text.extend_from_slice(b" at ")?;
    push_point(text, page, id)
}

/// Appends the peer group of a mount.
fn push_group_of(text: &mut Vec<u8>, page: &Page<'_>, id: MountId) -> Result<(), AllocError>
    ensures { OnOk result (text.new.items ≡ text.old.items ++ group_text page.now id) }
{
    match page.rows.group_of(id) {
        Some(group) => page.titles.push_group(text, group),
        None => Ok(()),
    }
}

/// Appends a path of the command.
fn push_asked(text: &mut Vec<u8>, page: &Page<'_>, which: Which) -> Result<(), AllocError>
    ensures { OnOk result (text.new.items ≡ text.old.items ++ asked_text page.now which) }
{
    match asked_path(page.command, which) {
        Some(path) => push_path(text, path),
        None => Ok(()),
    }
}

/// Appends how many there are, and of what.
fn push_count(text: &mut Vec<u8>, count: u64, one: &[u8], many: &[u8]) -> Result<(), AllocError>
    ensures { OnOk result (text.new.items ≡ text.old.items ++ counted_text count one.now many.now) }
{
    push_number(text, count)?;
    if count == 1 {
        text.extend_from_slice(one)
    } else {
        text.extend_from_slice(many)
    }
}

/// Appends a path of the command behind what it is called.
fn push_called(text: &mut Vec<u8>, page: &Page<'_>, which: Which) -> Result<(), AllocError>
    ensures { OnOk result (text.new.items ≡ text.old.items ++ called_text page.now which) }
{
    text.extend_from_slice(path_name(page.command, which))?;
    push_asked(text, page, which)
}

/// Appends a piece.
fn push_part(text: &mut Vec<u8>, page: &Page<'_>, part: Part<'_>) -> Result<(), AllocError>
    ensures { OnOk result (text.new.items ≡ text.old.items ++ piece_told page.now part.entry) }
{
    match part {
        Part::Text(bytes) => text.extend_from_slice(bytes),
        Part::Number(number) => push_number(text, number),
        Part::Count(count, one, many) => push_count(text, count, one, many),
        Part::Mount(id) => push_mount(text, page, id),
        Part::Point(id) => push_point(text, page, id),
        Part::GroupOf(id) => push_group_of(text, page, id),
        Part::Asked(which) => push_called(text, page, which),
        Part::Path(which) => push_asked(text, page, which),
        Part::Names(path) => push_names(text, path),
        Part::Name(name) => push_escaped(text, name),
    }
}

/// Appends pieces.
pub(crate) fn push_parts(
    text: &mut Vec<u8>,
    page: &Page<'_>,
    parts: &[Part<'_>],
) -> Result<(), AllocError>
    ensures { OnOk result (text.new.items ≡ text.old.items ++ flat_map (piece_told page.now) parts.now) }
{
    'parts: for part in parts {
        push_part(text, page, *part)?;
    }
    Ok(())
}
