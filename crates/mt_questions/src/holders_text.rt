//! What is answered to the question what pins a filesystem or a directory, as lines of a text.
ghost use Rattle.std.specs.Prelude.{◌≡◌, ◌++◌, codes, length, OnOk, IfOk};
ghost use Rattle.std.specs.List.{filter, flat_map};
ghost use Rattle.mt_questions.specs.OriginText.{mounts_words, front_words, count_words, goes_words, shows_words, pins_words, holder_line_of, holder_line, is_held_in, is_held, pinning_count, spaces_words, sum_words, holders_lines, holders_text, source_words, directory_title};

use crate::holders::Holder;
use crate::origin_text::{push_headed_mounts, push_part};
use crate::table::{NamedSpace, SeenTables};
use crate::wording::{
    one_or, push_device, push_directory, push_headed_standing, push_numbered, push_path, push_row,
    push_tags,
};
use mt_info::print::push_number;
use mt_mounts::mount::{MountId, SpaceId};
use mt_reach::path::Path;
use mt_reach::row::{SeenDirectory, SeenRow};
use mt_skel::escape::push_escaped;
use std::alloc::{AllocError, Global};

/// Appends what is in front of a mount.
#[tactic(auto, unfolding(crate::specs::OriginText::front_words))]
fn push_front(
    text: &mut Vec<u8>,
    tables: &SeenTables,
    front: Option<MountId>,
) -> Result<(), AllocError>
    ensures { OnOk result (text.new.items ≡ text.old.items ++ front_words tables.now front) }
{
    match front {
        Some(id) => push_headed_standing(text, tables, b"; hidden by mount ", id),
        None => Ok(()),
    }
}

/// Appends how many mounts stand on one.
#[tactic(auto, unfolding(crate::specs::OriginText::count_words))]
fn push_count(text: &mut Vec<u8>, count: usize) -> Result<(), AllocError>
    ensures { OnOk result (text.new.items ≡ text.old.items ++ count_words count) }
{
    if count == 0 {
        return Ok(());
    }
    text.extend_from_slice(b"; ")?;
    push_number(text, count as u64)?;
    text.extend_from_slice(one_or(count, b" mount stands on it", b" mounts stand on it"))
}

/// Appends the mounts with which a mount goes.
fn push_some_goes(
    text: &mut Vec<u8>,
    tables: &SeenTables,
    ids: &[MountId],
) -> Result<(), AllocError>
    ensures { OnOk result (text.new.items ≡ text.old.items ++ (codes "; goes with " ++ mounts_words tables.now ids.now)) }
{
    push_headed_mounts(text, tables, b"; goes with ", ids)
}

/// Appends with what a mount goes.
fn push_goes(text: &mut Vec<u8>, tables: &SeenTables, ids: &[MountId]) -> Result<(), AllocError>
    ensures { OnOk result (text.new.items ≡ text.old.items ++ goes_words tables.now ids.now) }
{
    match ids {
        [] => Ok(()),
        ids => push_some_goes(text, tables, ids),
    }
}

/// Appends a mount, and the directory that it shows.
#[tactic(auto, unfolding(crate::specs::OriginText::shows_words))]
fn push_shown_by(text: &mut Vec<u8>, tables: &SeenTables, row: &SeenRow) -> Result<(), AllocError>
    ensures { OnOk result (text.new.items ≡ text.old.items ++ shows_words tables.now row.now) }
{
    text.extend_from_slice(b"  ")?;
    push_row(text, tables, row)?;
    text.extend_from_slice(b" shows ")?;
    push_directory(text, &row.root)
}

/// Appends what a mount shows.
#[tactic(auto, unfolding(crate::specs::OriginText::pins_words))]
fn push_showing(text: &mut Vec<u8>, tables: &SeenTables, row: &SeenRow) -> Result<(), AllocError>
    ensures { OnOk result (text.new.items ≡ text.old.items ++ pins_words tables.now row.now) }
{
    push_shown_by(text, tables, row)?;
    text.extend_from_slice(b" of ")?;
    push_device(text, row.root.device)?;
    push_tags(text, row)
}

/// Appends the line of a mount that pins.
fn push_holder_of(
    text: &mut Vec<u8>,
    tables: &SeenTables,
    holder: &Holder,
    row: &SeenRow,
) -> Result<(), AllocError>
    ensures { OnOk result (text.new.items ≡ text.old.items ++ holder_line_of tables.now holder.now row.now) }
{
    push_showing(text, tables, row)?;
    push_front(text, tables, holder.front)?;
    push_count(text, holder.standing)?;
    push_goes(text, tables, holder.takers.as_slice())?;
    text.extend_from_slice(b"\n")
}

/// Appends the line of a mount that pins, by its ID.
fn push_holder(text: &mut Vec<u8>, tables: &SeenTables, holder: &Holder) -> Result<(), AllocError>
    ensures { OnOk result (text.new.items ≡ text.old.items ++ holder_line tables.now holder.now) }
{
    match tables.rows.get(holder.mount) {
        Some(row) => push_holder_of(text, tables, holder, row),
        None => Ok(()),
    }
}

/// Appends such lines.
fn push_each_holder(
    text: &mut Vec<u8>,
    tables: &SeenTables,
    holders: &[Holder],
) -> Result<(), AllocError>
    ensures { OnOk result (text.new.items ≡ text.old.items ++ flat_map (holder_line tables.now) holders.now) }
{
    'holders: for holder in holders {
        push_holder(text, tables, holder)?;
    }
    Ok(())
}

/// Whether a mount that pins is in a namespace.
fn is_held_in(tables: &SeenTables, space: SpaceId, holder: &Holder) -> bool
    ensures { result ≡ is_held_in tables.now space holder.now }
{
    match tables.rows.get(holder.mount) {
        Some(row) => row.space == space,
        None => false,
    }
}

/// Whether a mount that pins is in this namespace.
fn is_held(tables: &SeenTables, holders: &[Holder], name: &NamedSpace) -> bool
    ensures { result ≡ is_held tables.now holders.now name.now }
{
    'holders: for holder in holders {
        if is_held_in(tables, name.space, holder) {
            return true;
        }
    }
    false
}

/// In how many of the namespaces mounts pin.
fn held_count(tables: &SeenTables, holders: &[Holder], names: &[NamedSpace]) -> usize
    ensures { result ≡ length (filter (is_held tables.now holders.now) names.now) }
{
    let mut count = 0usize;
    'names: for name in names {
        if is_held(tables, holders, name) {
            count += 1;
        }
    }
    count
}

/// Appends how many mounts there are.
#[tactic(auto, unfolding(crate::specs::OriginText::pinning_count))]
fn push_mounts_in(text: &mut Vec<u8>, count: usize) -> Result<(), AllocError>
    ensures { OnOk result (text.new.items ≡ text.old.items ++ pinning_count count) }
{
    push_number(text, count as u64)?;
    text.extend_from_slice(one_or(count, b" mount in ", b" mounts in "))
}

/// Appends how many namespaces there are.
#[tactic(auto, unfolding(crate::specs::OriginText::spaces_words))]
fn push_spaces(text: &mut Vec<u8>, count: usize) -> Result<(), AllocError>
    ensures { OnOk result (text.new.items ≡ text.old.items ++ spaces_words count) }
{
    push_number(text, count as u64)?;
    text.extend_from_slice(one_or(count, b" namespace:\n", b" namespaces:\n"))
}

/// Appends how many mounts pin, and in how many namespaces.
#[tactic(auto, unfolding(crate::specs::OriginText::sum_words))]
fn push_sum(text: &mut Vec<u8>, tables: &SeenTables, holders: &[Holder]) -> Result<(), AllocError>
    ensures { OnOk result (text.new.items ≡ text.old.items ++ sum_words tables.now holders.now) }
{
    push_mounts_in(text, holders.len())?;
    push_number(
        text,
        held_count(tables, holders, tables.names.as_slice()) as u64,
    )?;
    text.extend_from_slice(b" of ")?;
    push_spaces(text, tables.names.len())
}

/// Appends how many mounts pin, and each.
fn push_some_holders(
    text: &mut Vec<u8>,
    tables: &SeenTables,
    holders: &[Holder],
) -> Result<(), AllocError>
    ensures { OnOk result (text.new.items ≡ text.old.items ++ (sum_words tables.now holders.now ++ flat_map (holder_line tables.now) holders.now)) }
{
    push_sum(text, tables, holders)?;
    push_each_holder(text, tables, holders)
}

/// Appends the mounts that pin.
fn push_holders(
    text: &mut Vec<u8>,
    tables: &SeenTables,
    holders: &[Holder],
) -> Result<(), AllocError>
    ensures { OnOk result (text.new.items ≡ text.old.items ++ holders_lines tables.now holders.now) }
{
    match holders {
        [] => text.extend_from_slice(b"no mount of these tables shows it.\n"),
        holders => push_some_holders(text, tables, holders),
    }
}

/// The lines of an answer under a title. Fails for want of memory alone.
#[tactic(auto, unfolding(crate::specs::OriginText::holders_text))]
pub fn holders_text(
    alloc: Global,
    tables: &SeenTables,
    title: &[u8],
    holders: &[Holder],
) -> Result<Vec<u8>, AllocError>
    ensures text { IfOk result (λ text. text.items ≡ holders_text tables.now title.now holders.now) }
{
    let mut text = Vec::new(alloc);
    text.extend_from_slice(title)?;
    text.extend_from_slice(b": ")?;
    push_holders(&mut text, tables, holders)?;
    Ok(text)
}

/// Appends a directory of a mount by the source of that, and its device.
#[tactic(auto, unfolding(crate::specs::OriginText::source_words))]
fn push_directory_of(
    text: &mut Vec<u8>,
    row: &SeenRow,
    directory: &SeenDirectory,
) -> Result<(), AllocError>
    ensures { OnOk result (text.new.items ≡ text.old.items ++ source_words row.now directory.now) }
{
    push_escaped(text, row.source.bytes())?;
    push_part(text, directory)?;
    text.extend_from_slice(b", device ")?;
    push_device(text, directory.device)
}

/// The title of a directory where a path of a namespace ends on a mount. Fails for want of memory alone.
#[tactic(auto, unfolding(crate::specs::OriginText::directory_title))]
pub fn directory_title(
    alloc: Global,
    tables: &SeenTables,
    space: SpaceId,
    path: &Path,
    row: &SeenRow,
    directory: &SeenDirectory,
) -> Result<Vec<u8>, AllocError>
    ensures title { IfOk result (λ title. title.items ≡ directory_title tables.now space path.now row.now directory.now) }
{
    let mut title = Vec::new(alloc);
    push_path(&mut title, path)?;
    title.extend_from_slice(b" in ")?;
    push_numbered(&mut title, tables, space)?;
    title.extend_from_slice(b" is ")?;
    push_directory_of(&mut title, row, directory)?;
    Ok(title)
}
