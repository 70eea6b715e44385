//! What is answered to the question where a mount comes from, as lines of a text.
ghost use Rattle.std.specs.Prelude.{◌≡◌, ◌++◌, codes, OnOk, IfOk};
ghost use Rattle.std.specs.List.{flat_map};
ghost use Rattle.mt_reach.specs.Reasons.{members_of};
ghost use Rattle.mt_questions.specs.Wording.{directory_words, words_of_mount};
ghost use Rattle.mt_questions.specs.OriginText.{mounts_list, mounts_words, mounts_or, shown_part, shown_words, stands_words, type_words, mount_line, peers_line, master_line, nearest_line, upper_line, masters_lines, no_taker, some_takers, takers_words, takers_line, directory_on, no_mount_line, origin_lines, origin_text};

use crate::origin::MountOrigin;
use crate::reach_text::{MOST_NAMED, first_of, push_more};
use crate::table::SeenTables;
use crate::wording::{
    push_between, push_directory, push_mount, push_numbered, push_path, push_tags,
};
use mt_mounts::mount::MountId;
use mt_peers::state::GroupId;
use mt_reach::origin::members_of;
use mt_reach::row::{SeenDirectory, SeenRow};
use mt_skel::escape::push_escaped;
use std::alloc::{AllocError, Global};

/// Appends further mounts, each behind a comma.
fn push_more_mounts(
    text: &mut Vec<u8>,
    tables: &SeenTables,
    ids: &[MountId],
) -> Result<(), AllocError>
    ensures { OnOk result (text.new.items ≡ text.old.items ++ flat_map (λ j. codes ", " ++ words_of_mount tables.now j) ids.now) }
{
    'ids: for id in ids {
        text.extend_from_slice(b", ")?;
        push_mount(text, tables, *id)?;
    }
    Ok(())
}

/// Appends mounts.
fn push_mounts_list(
    text: &mut Vec<u8>,
    tables: &SeenTables,
    ids: &[MountId],
) -> Result<(), AllocError>
    ensures { OnOk result (text.new.items ≡ text.old.items ++ mounts_list tables.now ids.now) }
{
    let Some((first, rest)) = ids.split_first() else {
        return Ok(());
    };
    push_mount(text, tables, *first)?;
    push_more_mounts(text, tables, rest)
}

/// Appends the first of some mounts, and how many more there are.
#[tactic(auto, unfolding(crate::specs::OriginText::mounts_words))]
fn push_mounts(text: &mut Vec<u8>, tables: &SeenTables, ids: &[MountId]) -> Result<(), AllocError>
    ensures { OnOk result (text.new.items ≡ text.old.items ++ mounts_words tables.now ids.now) }
{
    push_mounts_list(text, tables, first_of(ids, MOST_NAMED))?;
    push_more(text, ids.len())
}

/// Appends the first of some mounts, or that there are none.
fn push_mounts_or(
    text: &mut Vec<u8>,
    tables: &SeenTables,
    none: &[u8],
    ids: &[MountId],
) -> Result<(), AllocError>
    ensures { OnOk result (text.new.items ≡ text.old.items ++ mounts_or tables.now none.now ids.now) }
{
    match ids {
        [] => text.extend_from_slice(none),
        ids => push_mounts(text, tables, ids),
    }
}

/// Appends a directory in brackets.
fn push_bracketed_part(text: &mut Vec<u8>, directory: &SeenDirectory) -> Result<(), AllocError>
    ensures { OnOk result (text.new.items ≡ text.old.items ++ (codes "[" ++ directory_words directory.now ++ codes "]")) }
{
    text.extend_from_slice(b"[")?;
    push_directory(text, directory)?;
    text.extend_from_slice(b"]")
}

/// Appends the directory that a mount shows in brackets, if that is not the root of its filesystem.
pub(crate) fn push_part(text: &mut Vec<u8>, directory: &SeenDirectory) -> Result<(), AllocError>
    ensures { OnOk result (text.new.items ≡ text.old.items ++ shown_part directory.now directory.now.path) }
{
    match directory.path.names() {
        [] => Ok(()),
        [_, ..] => push_bracketed_part(text, directory),
    }
}

/// Appends what a mount shows.
#[tactic(auto, unfolding(crate::specs::OriginText::shown_words))]
pub(crate) fn push_shown(text: &mut Vec<u8>, row: &SeenRow) -> Result<(), AllocError>
    ensures { OnOk result (text.new.items ≡ text.old.items ++ shown_words row.now) }
{
    push_escaped(text, row.source.bytes())?;
    push_part(text, &row.root)
}

/// Appends the type of a mount's filesystem, and how the mount propagates.
#[tactic(auto, unfolding(crate::specs::OriginText::type_words))]
fn push_kind(text: &mut Vec<u8>, row: &SeenRow) -> Result<(), AllocError>
    ensures { OnOk result (text.new.items ≡ text.old.items ++ type_words row.now) }
{
    text.extend_from_slice(b" (")?;
    push_escaped(text, row.kind.bytes())?;
    push_tags(text, row)?;
    text.extend_from_slice(b").\n")
}

/// Appends where a mount stands.
#[tactic(auto, unfolding(crate::specs::OriginText::stands_words))]
fn push_standing_in(
    text: &mut Vec<u8>,
    tables: &SeenTables,
    answer: &MountOrigin,
    row: &SeenRow,
) -> Result<(), AllocError>
    ensures { OnOk result (text.new.items ≡ text.old.items ++ stands_words tables.now answer.now row.now) }
{
    push_between(text, b"Mount ", row.id, b" at ")?;
    push_path(text, &row.point)?;
    text.extend_from_slice(b" in ")?;
    push_numbered(text, tables, answer.space)
}

/// Appends what a mount is.
#[tactic(auto, unfolding(crate::specs::OriginText::mount_line))]
fn push_mount_line(
    text: &mut Vec<u8>,
    tables: &SeenTables,
    answer: &MountOrigin,
    row: &SeenRow,
) -> Result<(), AllocError>
    ensures { OnOk result (text.new.items ≡ text.old.items ++ mount_line tables.now answer.now row.now) }
{
    push_standing_in(text, tables, answer, row)?;
    text.extend_from_slice(b" shows ")?;
    push_shown(text, row)?;
    push_kind(text, row)
}

/// Appends the other members of a mount's group.
#[tactic(auto, unfolding(crate::specs::OriginText::peers_line))]
fn push_peers(
    text: &mut Vec<u8>,
    tables: &SeenTables,
    row: &SeenRow,
    ids: &[MountId],
) -> Result<(), AllocError>
    ensures { OnOk result (text.new.items ≡ text.old.items ++ peers_line tables.now row.now ids.now) }
{
    let Some(group) = row.group else {
        return Ok(());
    };
    push_between(text, b"  peers in group ", group, b": ")?;
    push_mounts_or(text, tables, b"none in these tables", ids)?;
    text.extend_from_slice(b"\n")
}

/// The members of a group.
fn members(tables: &SeenTables, group: GroupId) -> Result<Vec<MountId>, AllocError>
    ensures { IfOk result (λ ids. ids.items ≡ members_of tables.now.rows group) }
{
    match members_of(&tables.rows, group) {
        Ok(ids) => Ok(ids),
        Err(_) => Err(AllocError),
    }
}

/// Appends a master, and its members.
#[tactic(auto, unfolding(crate::specs::OriginText::master_line))]
fn push_master(
    text: &mut Vec<u8>,
    tables: &SeenTables,
    word: &[u8],
    group: GroupId,
) -> Result<(), AllocError>
    ensures { OnOk result (text.new.items ≡ text.old.items ++ master_line tables.now word.now group) }
{
    let members = members(tables, group)?;
    push_between(text, word, group, b": ")?;
    push_mounts_or(
        text,
        tables,
        b"no mount in these tables",
        members.as_slice(),
    )?;
    text.extend_from_slice(b"\n")?;
    Ok(())
}

/// Appends the nearest master, and its members.
#[tactic(auto, unfolding(crate::specs::OriginText::nearest_line))]
fn push_nearest(text: &mut Vec<u8>, tables: &SeenTables, group: GroupId) -> Result<(), AllocError>
    ensures { OnOk result (text.new.items ≡ text.old.items ++ nearest_line tables.now group) }
{
    push_master(text, tables, b"  gets from group ", group)
}

/// Appends a further master, and its members.
#[tactic(auto, unfolding(crate::specs::OriginText::upper_line))]
fn push_upper(text: &mut Vec<u8>, tables: &SeenTables, group: GroupId) -> Result<(), AllocError>
    ensures { OnOk result (text.new.items ≡ text.old.items ++ upper_line tables.now group) }
{
    push_master(text, tables, b"  which gets from group ", group)
}

/// Appends further masters.
fn push_more_masters(
    text: &mut Vec<u8>,
    tables: &SeenTables,
    groups: &[GroupId],
) -> Result<(), AllocError>
    ensures { OnOk result (text.new.items ≡ text.old.items ++ flat_map (upper_line tables.now) groups.now) }
{
    'groups: for group in groups {
        push_upper(text, tables, *group)?;
    }
    Ok(())
}

/// Appends the masters of a mount upwards.
fn push_masters(
    text: &mut Vec<u8>,
    tables: &SeenTables,
    groups: &[GroupId],
) -> Result<(), AllocError>
    ensures { OnOk result (text.new.items ≡ text.old.items ++ masters_lines tables.now groups.now) }
{
    let Some((first, rest)) = groups.split_first() else {
        return Ok(());
    };
    push_nearest(text, tables, *first)?;
    push_more_masters(text, tables, rest)
}

/// Appends words, and the first of some mounts.
pub(crate) fn push_headed_mounts(
    text: &mut Vec<u8>,
    tables: &SeenTables,
    front: &[u8],
    ids: &[MountId],
) -> Result<(), AllocError>
    ensures { OnOk result (text.new.items ≡ text.old.items ++ (front.now ++ mounts_words tables.now ids.now)) }
{
    text.extend_from_slice(front)?;
    push_mounts(text, tables, ids)
}

/// Appends words, the first of some mounts, and words.
fn push_around_mounts(
    text: &mut Vec<u8>,
    tables: &SeenTables,
    front: &[u8],
    ids: &[MountId],
    behind: &[u8],
) -> Result<(), AllocError>
    ensures { OnOk result (text.new.items ≡ text.old.items ++ (front.now ++ mounts_words tables.now ids.now ++ behind.now)) }
{
    text.extend_from_slice(front)?;
    push_mounts(text, tables, ids)?;
    text.extend_from_slice(behind)
}

/// Appends that nothing else takes a mount away.
#[tactic(auto, unfolding(crate::specs::OriginText::no_taker))]
fn push_no_taker(text: &mut Vec<u8>) -> Result<(), AllocError>
    ensures { OnOk result (text.new.items ≡ text.old.items ++ no_taker) }
{
    text.extend_from_slice(b"  only an unmount of itself takes it away\n")
}

/// Appends the mounts whose unmount takes a mount away.
#[tactic(auto, unfolding(crate::specs::OriginText::some_takers))]
fn push_some_takers(
    text: &mut Vec<u8>,
    tables: &SeenTables,
    ids: &[MountId],
) -> Result<(), AllocError>
    ensures { OnOk result (text.new.items ≡ text.old.items ++ some_takers tables.now ids.now) }
{
    push_around_mounts(
        text,
        tables,
        b"  goes too when this is unmounted: ",
        ids,
        b"\n",
    )
}

/// Appends what takes a mount away.
fn push_takers(text: &mut Vec<u8>, tables: &SeenTables, ids: &[MountId]) -> Result<(), AllocError>
    ensures { OnOk result (text.new.items ≡ text.old.items ++ takers_words tables.now ids.now) }
{
    match ids {
        [] => push_no_taker(text),
        ids => push_some_takers(text, tables, ids),
    }
}

/// Appends what takes a mount away, if that can be.
#[tactic(auto, unfolding(crate::specs::OriginText::takers_line))]
fn push_takers_line(
    text: &mut Vec<u8>,
    tables: &SeenTables,
    answer: &MountOrigin,
) -> Result<(), AllocError>
    ensures { OnOk result (text.new.items ≡ text.old.items ++ takers_line tables.now answer.now) }
{
    if answer.is_root {
        return text.extend_from_slice(b"  it is the root mount of its namespace\n");
    }
    push_takers(text, tables, answer.takers.as_slice())
}

/// Appends words, and a directory of a mount.
#[tactic(auto, unfolding(crate::specs::OriginText::directory_on))]
fn push_directory_on(
    text: &mut Vec<u8>,
    word: &[u8],
    directory: &SeenDirectory,
    row: &SeenRow,
) -> Result<(), AllocError>
    ensures { OnOk result (text.new.items ≡ text.old.items ++ directory_on word.now directory.now row.now) }
{
    text.extend_from_slice(word)?;
    push_directory(text, directory)?;
    push_between(text, b" of mount ", row.id, b" (")?;
    push_path(text, &row.point)?;
    text.extend_from_slice(b").\n")
}

/// Appends that a path names no mount.
fn push_no_mount(
    text: &mut Vec<u8>,
    tables: &SeenTables,
    answer: &MountOrigin,
    row: &SeenRow,
) -> Result<(), AllocError>
    ensures { OnOk result (text.new.items ≡ text.old.items ++ no_mount_line tables.now answer.now row.now) }
{
    push_path(text, &answer.path)?;
    text.extend_from_slice(b" in ")?;
    push_numbered(text, tables, answer.space)?;
    push_directory_on(
        text,
        b" is no mount: it is directory ",
        &answer.directory,
        row,
    )
}

/// Appends the lines of an answer.
fn push_origin(
    text: &mut Vec<u8>,
    tables: &SeenTables,
    answer: &MountOrigin,
    row: &SeenRow,
) -> Result<(), AllocError>
    ensures { OnOk result (text.new.items ≡ text.old.items ++ origin_lines tables.now answer.now row.now) }
{
    if !answer.is_mount {
        push_no_mount(text, tables, answer, row)?;
        return Ok(());
    }
    push_mount_line(text, tables, answer, row)?;
    push_peers(text, tables, row, answer.peers.as_slice())?;
    push_masters(text, tables, answer.masters.as_slice())?;
    push_takers_line(text, tables, answer)?;
    Ok(())
}

/// The lines of an answer. Fails for want of memory alone.
#[tactic(auto, unfolding(crate::specs::OriginText::origin_text))]
pub fn origin_text(
    alloc: Global,
    tables: &SeenTables,
    answer: &MountOrigin,
) -> Result<Vec<u8>, AllocError>
    ensures text { IfOk result (λ text. text.items ≡ origin_text tables.now answer.now) }
{
    let mut text = Vec::new(alloc);
    let Some(row) = tables.rows.get(answer.mount) else {
        return Ok(text);
    };
    push_origin(&mut text, tables, answer, row)?;
    Ok(text)
}
