//! What is answered to the question where a mount comes, as lines of a text.
ghost use Rattle.std.specs.Prelude.{◌≡◌, ◌++◌, take, codes, OnOk, IfOk};
ghost use Rattle.std.specs.List.{flat_map};
ghost use Rattle.mt_questions.specs.Wording.{called, device_words, directory_words};
ghost use Rattle.mt_questions.specs.ReachText.{place_words, opening_line, pass_line, pass_lines, passes_count, some_passes, passes_lines, called_list, more_words, unshown_words, some_without, without_line, tables_words, some_elsewhere, elsewhere_words, closing_line, showing_lines, other_lines, reach_lines, refused_line, lines_at, reach_text};

use crate::apart_text::push_apart;
use crate::copy_text::push_copies;
use crate::reach::ReachAnswer;
use crate::table::SeenTables;
use crate::untold_text::{push_missing, push_untold};
use crate::wording::{
    one_or, push_before, push_between, push_called, push_device, push_directory, push_numbered,
    push_path, push_row, push_tags, word_if,
};
use mt_info::print::push_number;
use mt_mounts::mount::{MountId, SpaceId};
use mt_peers::state::GroupId;
use mt_reach::row::{SeenDirectory, SeenRow};
use std::alloc::{AllocError, Global};

/// How many mounts are told that get what happens, and do not show the directory.
const TOLD_PASSES: usize = 2;

/// How many namespaces are named in which no mount shows the directory.
pub(crate) const MOST_NAMED: usize = 8;

/// Appends on which mount the new one stands.
#[tactic(auto, unfolding(crate::specs::ReachText::place_words))]
fn push_place(text: &mut Vec<u8>, place: &SeenRow) -> Result<(), AllocError>
    ensures { OnOk result (text.new.items ≡ text.old.items ++ place_words place.now) }
{
    push_between(text, b" stands on mount ", place.id, b" (")?;
    push_path(text, &place.point)?;
    push_tags(text, place)?;
    text.extend_from_slice(b").\n")
}

/// Appends the place of the new mount, and what stands there.
#[tactic(auto, unfolding(crate::specs::ReachText::opening_line))]
fn push_first(
    text: &mut Vec<u8>,
    tables: &SeenTables,
    answer: &ReachAnswer,
    place: &SeenRow,
) -> Result<(), AllocError>
    ensures { OnOk result (text.new.items ≡ text.old.items ++ opening_line tables.now answer.now place.now) }
{
    text.extend_from_slice(b"A mount at ")?;
    push_path(text, &answer.path)?;
    text.extend_from_slice(b" in ")?;
    push_numbered(text, tables, answer.space)?;
    push_place(text, place)
}

/// Appends a mount that gets what happens, and does not show the directory.
fn push_pass_line(text: &mut Vec<u8>, tables: &SeenTables, row: &SeenRow) -> Result<(), AllocError>
    ensures { OnOk result (text.new.items ≡ text.old.items ++ pass_line tables.now row.now) }
{
    text.extend_from_slice(b"    ")?;
    push_row(text, tables, row)?;
    text.extend_from_slice(b" shows ")?;
    push_directory(text, &row.root)?;
    text.extend_from_slice(b"\n")?;
    Ok(())
}

/// Appends such a mount by its ID.
fn push_pass(text: &mut Vec<u8>, tables: &SeenTables, id: MountId) -> Result<(), AllocError>
    ensures { OnOk result (text.new.items ≡ text.old.items ++ pass_lines tables.now id) }
{
    match tables.rows.get(id) {
        Some(row) => push_pass_line(text, tables, row),
        None => Ok(()),
    }
}

/// Appends such mounts.
fn push_each_pass(
    text: &mut Vec<u8>,
    tables: &SeenTables,
    ids: &[MountId],
) -> Result<(), AllocError>
    ensures { OnOk result (text.new.items ≡ text.old.items ++ flat_map (pass_lines tables.now) ids.now) }
{
    'ids: for id in ids {
        push_pass(text, tables, *id)?;
    }
    Ok(())
}

/// The first elements of a list, so many at most.
pub(crate) fn first_of(list: &[u64], most: usize) -> &[u64]
    ensures { result.now ≡ take most list.now }
{
    if list.len() <= most {
        return list;
    }
    &list[..most]
}

/// Appends how many such mounts there are.
#[tactic(auto, unfolding(crate::specs::ReachText::passes_count))]
fn push_passes_count(text: &mut Vec<u8>, count: usize) -> Result<(), AllocError>
    ensures { OnOk result (text.new.items ≡ text.old.items ++ passes_count count) }
{
    push_before(
        text,
        count as u64,
        b" more would get it, and do not show the directory:\n",
    )
}

/// Appends how many such mounts there are, and the first of them.
fn push_some_passes(
    text: &mut Vec<u8>,
    tables: &SeenTables,
    ids: &[MountId],
) -> Result<(), AllocError>
    ensures { OnOk result (text.new.items ≡ text.old.items ++ some_passes tables.now ids.now) }
{
    push_passes_count(text, ids.len())?;
    push_each_pass(text, tables, first_of(ids, TOLD_PASSES))?;
    text.extend_from_slice(word_if(ids.len() > TOLD_PASSES, b"    ..\n"))
}

/// Appends the mounts that get what happens, and do not show the directory.
fn push_passes(text: &mut Vec<u8>, tables: &SeenTables, ids: &[MountId]) -> Result<(), AllocError>
    ensures { OnOk result (text.new.items ≡ text.old.items ++ passes_lines tables.now ids.now) }
{
    match ids {
        [] => Ok(()),
        ids => push_some_passes(text, tables, ids),
    }
}

/// Appends further names of namespaces.
fn push_more_called(
    text: &mut Vec<u8>,
    tables: &SeenTables,
    spaces: &[SpaceId],
) -> Result<(), AllocError>
    ensures { OnOk result (text.new.items ≡ text.old.items ++ flat_map (λ m. codes ", " ++ called tables.now m) spaces.now) }
{
    'spaces: for space in spaces {
        text.extend_from_slice(b", ")?;
        push_called(text, tables, *space)?;
    }
    Ok(())
}

/// Appends the names of namespaces.
pub(crate) fn push_called_list(
    text: &mut Vec<u8>,
    tables: &SeenTables,
    spaces: &[SpaceId],
) -> Result<(), AllocError>
    ensures { OnOk result (text.new.items ≡ text.old.items ++ called_list tables.now spaces.now) }
{
    let Some((first, rest)) = spaces.split_first() else {
        return Ok(());
    };
    push_called(text, tables, *first)?;
    push_more_called(text, tables, rest)
}

/// Appends how many namespaces are not named.
#[tactic(auto, unfolding(crate::specs::ReachText::more_words))]
pub(crate) fn push_more(text: &mut Vec<u8>, count: usize) -> Result<(), AllocError>
    ensures { OnOk result (text.new.items ≡ text.old.items ++ more_words count) }
{
    if count <= MOST_NAMED {
        return Ok(());
    }
    text.extend_from_slice(b" and ")?;
    push_number(text, (count - MOST_NAMED) as u64)?;
    text.extend_from_slice(b" more")
}

/// Appends words, the device of a directory, words, the directory, and words.
fn push_told_directory(
    text: &mut Vec<u8>,
    front: &[u8],
    middle: &[u8],
    directory: &SeenDirectory,
    behind: &[u8],
) -> Result<(), AllocError>
    ensures { OnOk result (text.new.items ≡ text.old.items ++ (front.now ++ device_words directory.now.device ++ middle.now ++ directory_words directory.now ++ behind.now)) }
{
    text.extend_from_slice(front)?;
    push_device(text, directory.device)?;
    text.extend_from_slice(middle)?;
    push_directory(text, directory)?;
    text.extend_from_slice(behind)
}

/// Appends what no mount of some namespaces shows.
#[tactic(auto, unfolding(crate::specs::ReachText::unshown_words))]
fn push_unshown(text: &mut Vec<u8>, directory: &SeenDirectory) -> Result<(), AllocError>
    ensures { OnOk result (text.new.items ≡ text.old.items ++ unshown_words directory.now) }
{
    push_told_directory(
        text,
        b"No mount of ",
        b" that holds ",
        directory,
        b" is in: ",
    )
}

/// Appends the first of such namespaces, and how many more there are.
fn push_some_without(
    text: &mut Vec<u8>,
    tables: &SeenTables,
    directory: &SeenDirectory,
    spaces: &[SpaceId],
) -> Result<(), AllocError>
    ensures { OnOk result (text.new.items ≡ text.old.items ++ some_without tables.now directory.now spaces.now) }
{
    push_unshown(text, directory)?;
    push_called_list(text, tables, first_of(spaces, MOST_NAMED))?;
    push_more(text, spaces.len())?;
    text.extend_from_slice(b"\n")
}

/// Appends the namespaces in which no mount shows the directory.
fn push_without(
    text: &mut Vec<u8>,
    tables: &SeenTables,
    directory: &SeenDirectory,
    spaces: &[SpaceId],
) -> Result<(), AllocError>
    ensures { OnOk result (text.new.items ≡ text.old.items ++ without_line tables.now directory.now spaces.now) }
{
    match spaces {
        [] => Ok(()),
        spaces => push_some_without(text, tables, directory, spaces),
    }
}

/// Appends how many tables were read.
#[tactic(auto, unfolding(crate::specs::ReachText::tables_words))]
fn push_count(text: &mut Vec<u8>, count: usize) -> Result<(), AllocError>
    ensures { OnOk result (text.new.items ≡ text.old.items ++ tables_words count) }
{
    if count == 1 {
        return text.extend_from_slice(b"Only this table was read");
    }
    push_between(text, b"Only these ", count as u64, b" tables were read")
}

/// Appends that these groups have mounts elsewhere.
fn push_some_elsewhere(text: &mut Vec<u8>, groups: &[GroupId]) -> Result<(), AllocError>
    ensures { OnOk result (text.new.items ≡ text.old.items ++ some_elsewhere groups.now) }
{
    text.extend_from_slice(b"; ")?;
    push_missing(text, groups)?;
    text.extend_from_slice(one_or(groups.len(), b" has", b" have"))?;
    text.extend_from_slice(b" mounts elsewhere")
}

/// Appends which groups have mounts elsewhere.
#[tactic(auto, unfolding(crate::specs::ReachText::elsewhere_words))]
fn push_groups_elsewhere(text: &mut Vec<u8>, groups: &[GroupId]) -> Result<(), AllocError>
    ensures { OnOk result (text.new.items ≡ text.old.items ++ elsewhere_words groups.now) }
{
    match groups {
        [] => Ok(()),
        groups => push_some_elsewhere(text, groups),
    }
}

/// Appends how much was read, unless that is all there is.
pub(crate) fn push_last(
    text: &mut Vec<u8>,
    tables: &SeenTables,
    groups: &[GroupId],
) -> Result<(), AllocError>
    ensures { OnOk result (text.new.items ≡ text.old.items ++ closing_line tables.now groups.now) }
{
    if tables.complete {
        return Ok(());
    }
    push_count(text, tables.names.len())?;
    push_groups_elsewhere(text, groups)?;
    text.extend_from_slice(b".\n")
}

/// Appends the mounts that show the directory.
#[tactic(auto, unfolding(crate::specs::ReachText::showing_lines))]
fn push_showing(
    text: &mut Vec<u8>,
    tables: &SeenTables,
    answer: &ReachAnswer,
    place: &SeenRow,
) -> Result<(), AllocError>
    ensures { OnOk result (text.new.items ≡ text.old.items ++ showing_lines tables.now answer.now place.now) }
{
    push_copies(text, tables, place, answer.copies.as_slice())?;
    push_untold(text, tables, answer.untold.as_slice())?;
    push_apart(
        text,
        tables,
        &answer.directory,
        place,
        answer.apart.as_slice(),
    )
}

/// Appends what does not show the directory, and how much was read.
#[tactic(auto, unfolding(crate::specs::ReachText::other_lines))]
fn push_rest(
    text: &mut Vec<u8>,
    tables: &SeenTables,
    answer: &ReachAnswer,
) -> Result<(), AllocError>
    ensures { OnOk result (text.new.items ≡ text.old.items ++ other_lines tables.now answer.now) }
{
    push_passes(text, tables, answer.passes.as_slice())?;
    push_without(text, tables, &answer.directory, answer.without.as_slice())?;
    push_last(text, tables, answer.missing.as_slice())
}

/// Appends what comes behind the first line.
#[tactic(auto, unfolding(crate::specs::ReachText::reach_lines))]
fn push_reach(
    text: &mut Vec<u8>,
    tables: &SeenTables,
    answer: &ReachAnswer,
    place: &SeenRow,
) -> Result<(), AllocError>
    ensures { OnOk result (text.new.items ≡ text.old.items ++ reach_lines tables.now answer.now place.now) }
{
    push_showing(text, tables, answer, place)?;
    push_rest(text, tables, answer)?;
    Ok(())
}

/// Appends that the root of a namespace is no place for a mount.
#[tactic(auto, unfolding(crate::specs::ReachText::refused_line))]
fn push_refused(text: &mut Vec<u8>) -> Result<(), AllocError>
    ensures { OnOk result (text.new.items ≡ text.old.items ++ refused_line) }
{
    text.extend_from_slice(
        b"It is refused as RootPlace: the root of the namespace's root mount is no place for a mount.\n",
    )
}

/// Appends the lines of an answer.
fn push_lines(
    text: &mut Vec<u8>,
    tables: &SeenTables,
    answer: &ReachAnswer,
    place: &SeenRow,
) -> Result<(), AllocError>
    ensures { OnOk result (text.new.items ≡ text.old.items ++ lines_at tables.now answer.now place.now) }
{
    push_first(text, tables, answer, place)?;
    if !answer.path.is_root() {
        return push_reach(text, tables, answer, place);
    }
    push_refused(text)
}

/// The lines of an answer. Fails for want of memory alone.
#[tactic(auto, unfolding(crate::specs::ReachText::reach_text))]
pub fn reach_text(
    alloc: Global,
    tables: &SeenTables,
    answer: &ReachAnswer,
) -> Result<Vec<u8>, AllocError>
    ensures text { IfOk result (λ text. text.items ≡ reach_text tables.now answer.now) }
{
    let mut text = Vec::new(alloc);
    let Some(place) = tables.rows.get(answer.mount) else {
        return Ok(text);
    };
    push_lines(&mut text, tables, answer, place)?;
    Ok(text)
}
