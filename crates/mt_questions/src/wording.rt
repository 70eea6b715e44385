//! Words of answers: namespaces, paths, mounts.
ghost use Rattle.std.specs.Prelude.{◌≡◌, ◌==◌, ◌++◌, cond, [], codes, OnOk, IfOk, decimal};
ghost use Rattle.std.specs.Str.{bytes_eq};
ghost use Rattle.mt_questions.specs.Tables.{called_name};
ghost use Rattle.mt_questions.specs.Wording.{called, numbered_space, slashed, path_words, unlinked_words, directory_words, device_words, group_words, is_private, groups_tags, unbindable_tag, private_tag, tags_words, row_words, words_of_mount, at_words, id_and_point};

use crate::table::SeenTables;
use mt_info::print::push_number;
use mt_mounts::mount::{MountId, SpaceId};
use mt_peers::state::GroupId;
use mt_reach::path::Path;
use mt_reach::row::{Device, SeenDirectory, SeenRow};
use mt_reach::text::SeenText;
use mt_skel::escape::push_escaped;
use mt_terminal::terminal::terminal_text;
use std::alloc::{AllocError, Global};

/// Appends what people call a namespace.
pub(crate) fn push_called(
    text: &mut Vec<u8>,
    tables: &SeenTables,
    space: SpaceId,
) -> Result<(), AllocError>
    ensures { OnOk result (text.new.items ≡ text.old.items ++ called tables.now space) }
{
    let name = terminal_text(*text.allocator(), tables.called_name(space))?;
    text.extend_from_slice(&name)
}

/// A number in decimal digits.
fn digits_of(alloc: Global, number: u64) -> Result<Vec<u8>, AllocError>
    ensures { IfOk result (λ digits. digits.items ≡ decimal number) }
{
    let mut digits = Vec::new(alloc);
    push_number(&mut digits, number)?;
    Ok(digits)
}

/// Whether a name is this number.
fn is_number(alloc: Global, name: &[u8], number: u64) -> Result<bool, AllocError>
    ensures { IfOk result (λ is. is ≡ bytes_eq name.now (decimal number)) }
{
    let digits = digits_of(alloc, number)?;
    Ok(name == digits.as_slice())
}

/// Appends what people call a namespace in parentheses, unless that is its number.
fn push_bracketed(text: &mut Vec<u8>, tables: &SeenTables, space: SpaceId) -> Result<(), AllocError>
    ensures { OnOk result (text.new.items ≡ text.old.items ++ cond (bytes_eq (called_name tables.now space) (decimal space)) [] (codes " (" ++ called tables.now space ++ codes ")")) }
{
    if is_number(*text.allocator(), tables.called_name(space), space)? {
        return Ok(());
    }
    text.extend_from_slice(b" (")?;
    push_called(text, tables, space)?;
    text.extend_from_slice(b")")
}

/// Appends the number of a namespace, and in parentheses what people call it, unless that is the number.
#[tactic(auto, unfolding(crate::specs::Wording::numbered_space))]
pub(crate) fn push_numbered(
    text: &mut Vec<u8>,
    tables: &SeenTables,
    space: SpaceId,
) -> Result<(), AllocError>
    ensures { OnOk result (text.new.items ≡ text.old.items ++ numbered_space tables.now space) }
{
    push_number(text, space)?;
    push_bracketed(text, tables, space)?;
    Ok(())
}

/// Appends names, each behind a slash and with its escapes.
fn push_slashed(text: &mut Vec<u8>, names: &[SeenText]) -> Result<(), AllocError>
    ensures { OnOk result (text.new.items ≡ text.old.items ++ slashed names.now) }
{
    'names: for name in names {
        text.push(b'/')?;
        push_escaped(text, name.bytes())?;
    }
    Ok(())
}

/// Appends a path.
pub(crate) fn push_path(text: &mut Vec<u8>, path: &Path) -> Result<(), AllocError>
    ensures { OnOk result (text.new.items ≡ text.old.items ++ path_words path.now) }
{
    match path.names() {
        [] => text.extend_from_slice(b"/"),
        names => push_slashed(text, names),
    }
}

/// Appends what is shown that is no directory of its filesystem.
fn push_unlinked(text: &mut Vec<u8>, names: &[SeenText]) -> Result<(), AllocError>
    ensures { OnOk result (text.new.items ≡ text.old.items ++ unlinked_words names.now) }
{
    let Some((first, rest)) = names.split_first() else {
        return text.extend_from_slice(b"/");
    };
    push_escaped(text, first.bytes())?;
    push_slashed(text, rest)
}

/// Appends what a mount shows.
#[tactic(auto, unfolding(crate::specs::Wording::directory_words))]
pub(crate) fn push_directory(
    text: &mut Vec<u8>,
    directory: &SeenDirectory,
) -> Result<(), AllocError>
    ensures { OnOk result (text.new.items ≡ text.old.items ++ directory_words directory.now) }
{
    if directory.unlinked {
        push_unlinked(text, directory.path.names())
    } else {
        push_path(text, &directory.path)
    }
}

/// Appends a device.
#[tactic(auto, unfolding(crate::specs::Wording::device_words))]
pub(crate) fn push_device(text: &mut Vec<u8>, device: Device) -> Result<(), AllocError>
    ensures { OnOk result (text.new.items ≡ text.old.items ++ device_words device) }
{
    push_number(text, device.major)?;
    text.push(b':')?;
    push_number(text, device.minor)?;
    Ok(())
}

/// Appends a word with a number, if there is one.
pub(crate) fn push_tag(
    text: &mut Vec<u8>,
    word: &[u8],
    group: Option<GroupId>,
) -> Result<(), AllocError>
    ensures { OnOk result (text.new.items ≡ text.old.items ++ group_words word.now group) }
{
    let Some(group) = group else {
        return Ok(());
    };
    text.extend_from_slice(word)?;
    push_number(text, group)?;
    Ok(())
}

/// A word if something holds, and else none.
pub(crate) fn word_if(holds: bool, word: &[u8]) -> &[u8]
    ensures { result.now ≡ cond holds word.now [] }
{
    if holds { word } else { b"" }
}

/// Appends words, a number, and words.
pub(crate) fn push_between(
    text: &mut Vec<u8>,
    front: &[u8],
    number: u64,
    behind: &[u8],
) -> Result<(), AllocError>
    ensures { OnOk result (text.new.items ≡ text.old.items ++ (front.now ++ decimal number ++ behind.now)) }
{
    text.extend_from_slice(front)?;
    push_number(text, number)?;
    text.extend_from_slice(behind)
}

/// Appends words, and a number.
pub(crate) fn push_after(text: &mut Vec<u8>, front: &[u8], number: u64) -> Result<(), AllocError>
    ensures { OnOk result (text.new.items ≡ text.old.items ++ (front.now ++ decimal number)) }
{
    text.extend_from_slice(front)?;
    push_number(text, number)?;
    Ok(())
}

/// Appends a number, and words.
pub(crate) fn push_before(text: &mut Vec<u8>, number: u64, behind: &[u8]) -> Result<(), AllocError>
    ensures { OnOk result (text.new.items ≡ text.old.items ++ (decimal number ++ behind.now)) }
{
    push_number(text, number)?;
    text.extend_from_slice(behind)
}

/// One of two words, by whether there is one of something.
pub(crate) fn one_or<'a>(count: usize, one: &'a [u8], more: &'a [u8]) -> &'a [u8]
    ensures { result.now ≡ cond (count == 1) one.now more.now }
{
    if count == 1 { one } else { more }
}

/// Whether a mount is private.
fn is_private(row: &SeenRow) -> bool
    ensures { result ≡ is_private row.now }
{
    row.group.is_none() && row.master.is_none() && !row.unbindable
}

/// Appends the groups that a mount tells, each word behind a comma.
#[tactic(auto, unfolding(crate::specs::Wording::groups_tags))]
fn push_groups(text: &mut Vec<u8>, row: &SeenRow) -> Result<(), AllocError>
    ensures { OnOk result (text.new.items ≡ text.old.items ++ groups_tags row.now) }
{
    push_tag(text, b", shared:", row.group)?;
    push_tag(text, b", master:", row.master)?;
    push_tag(text, b", propagate_from:", row.via)
}

/// Appends that a mount is unbindable, if it is.
#[tactic(auto, unfolding(crate::specs::Wording::unbindable_tag))]
fn push_unbindable(text: &mut Vec<u8>, row: &SeenRow) -> Result<(), AllocError>
    ensures { OnOk result (text.new.items ≡ text.old.items ++ unbindable_tag row.now) }
{
    text.extend_from_slice(word_if(row.unbindable, b", unbindable"))
}

/// Appends that a mount is private, if it is.
#[tactic(auto, unfolding(crate::specs::Wording::private_tag))]
fn push_private(text: &mut Vec<u8>, row: &SeenRow) -> Result<(), AllocError>
    ensures { OnOk result (text.new.items ≡ text.old.items ++ private_tag row.now) }
{
    text.extend_from_slice(word_if(is_private(row), b", private"))
}

/// Appends how a mount propagates, each word behind a comma.
#[tactic(auto, unfolding(crate::specs::Wording::tags_words))]
pub(crate) fn push_tags(text: &mut Vec<u8>, row: &SeenRow) -> Result<(), AllocError>
    ensures { OnOk result (text.new.items ≡ text.old.items ++ tags_words row.now) }
{
    push_groups(text, row)?;
    push_unbindable(text, row)?;
    push_private(text, row)
}

/// Appends a mount: its ID, its mount point and what people call its namespace.
#[tactic(auto, unfolding(crate::specs::Wording::row_words))]
pub(crate) fn push_row(
    text: &mut Vec<u8>,
    tables: &SeenTables,
    row: &SeenRow,
) -> Result<(), AllocError>
    ensures { OnOk result (text.new.items ≡ text.old.items ++ row_words tables.now row.now) }
{
    push_number(text, row.id)?;
    text.extend_from_slice(b" ")?;
    push_path(text, &row.point)?;
    text.extend_from_slice(b" in ")?;
    push_called(text, tables, row.space)?;
    Ok(())
}

/// Appends the mount with this ID.
pub(crate) fn push_mount(
    text: &mut Vec<u8>,
    tables: &SeenTables,
    id: MountId,
) -> Result<(), AllocError>
    ensures { OnOk result (text.new.items ≡ text.old.items ++ words_of_mount tables.now id) }
{
    match tables.rows.get(id) {
        Some(row) => push_row(text, tables, row),
        None => push_number(text, id),
    }
}

/// Appends where a mount stands.
fn push_at(text: &mut Vec<u8>, row: &SeenRow) -> Result<(), AllocError>
    ensures { OnOk result (text.new.items ≡ text.old.items ++ at_words row.now) }
{
    text.extend_from_slice(b" at ")?;
    push_path(text, &row.point)?;
    Ok(())
}

/// Appends the ID of a mount, and where it stands.
#[tactic(auto, unfolding(crate::specs::Wording::id_and_point))]
pub(crate) fn push_standing(
    text: &mut Vec<u8>,
    tables: &SeenTables,
    id: MountId,
) -> Result<(), AllocError>
    ensures { OnOk result (text.new.items ≡ text.old.items ++ id_and_point tables.now id) }
{
    push_number(text, id)?;
    match tables.rows.get(id) {
        Some(row) => push_at(text, row),
        None => Ok(()),
    }
}

/// Appends words, and the ID of a mount and where it stands.
pub(crate) fn push_headed_standing(
    text: &mut Vec<u8>,
    tables: &SeenTables,
    front: &[u8],
    id: MountId,
) -> Result<(), AllocError>
    ensures { OnOk result (text.new.items ≡ text.old.items ++ (front.now ++ id_and_point tables.now id)) }
{
    text.extend_from_slice(front)?;
    push_standing(text, tables, id)
}

/// Appends words, the ID of a mount and where it stands, and words.
pub(crate) fn push_around_standing(
    text: &mut Vec<u8>,
    tables: &SeenTables,
    front: &[u8],
    id: MountId,
    behind: &[u8],
) -> Result<(), AllocError>
    ensures { OnOk result (text.new.items ≡ text.old.items ++ (front.now ++ id_and_point tables.now id ++ behind.now)) }
{
    text.extend_from_slice(front)?;
    push_standing(text, tables, id)?;
    text.extend_from_slice(behind)
}
