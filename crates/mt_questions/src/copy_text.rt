//! The copies of a new mount, as lines.
ghost use Rattle.std.specs.Prelude.{◌≡◌, ◌++◌, cond, is_none, length, MatchOption, None, Some, OnOk, codes, decimal};
ghost use Rattle.std.specs.List.{find, flat_map};
ghost use Rattle.mt_peers.specs.Peers.{names};
ghost use Rattle.mt_questions.specs.Wording.{id_and_point};
ghost use Rattle.mt_questions.specs.ReachText.{count_of_others, spot_words, member_words, between_words, chain_words, own_words, masters_words, way_words, sight_words, stop_line, stop_words, copy_told, copy_lines, none_words, copies_lines};

use crate::copies::{ReachedMount, Sight, Spot, Way};
use crate::table::SeenTables;
use crate::wording::{
    one_or, push_after, push_around_standing, push_between, push_called, push_path, push_row,
    push_tag,
};
use mt_info::print::push_number;
use mt_mounts::mount::MountId;
use mt_peers::state::GroupId;
use mt_reach::row::SeenRow;
use mt_reach::rows::SeenRows;
use std::alloc::AllocError;

/// Appends a count of other mounts, and ends the line.
fn push_others(text: &mut Vec<u8>, count: usize) -> Result<(), AllocError>
    ensures { OnOk result (text.new.items ≡ text.old.items ++ count_of_others count) }
{
    push_number(text, count as u64)?;
    text.extend_from_slice(one_or(count, b" other:\n", b" others:\n"))
}

/// Appends where a copy would stand.
#[tactic(auto, unfolding(crate::specs::ReachText::spot_words))]
pub(crate) fn push_spot(
    text: &mut Vec<u8>,
    tables: &SeenTables,
    spot: &Spot,
) -> Result<(), AllocError>
    ensures { OnOk result (text.new.items ≡ text.old.items ++ spot_words tables.now spot.now) }
{
    push_path(text, &spot.point)?;
    text.extend_from_slice(b" in ")?;
    push_called(text, tables, spot.space)?;
    push_between(text, b"  on mount ", spot.mount, b": ")
}

/// The first member of a group.
fn first_member(rows: &SeenRows, group: GroupId) -> Option<&SeenRow>
    ensures { MatchOption result (find (λ r. names r.group group) rows.now ≡ None) (λ row. find (λ r. names r.group group) rows.now ≡ Some row.now) }
{
    'rows: for row in rows.rows() {
        if row.group == Some(group) {
            return Some(row);
        }
    }
    None
}

/// Appends the first member of a group.
fn push_member(text: &mut Vec<u8>, tables: &SeenTables, group: GroupId) -> Result<(), AllocError>
    ensures { OnOk result (text.new.items ≡ text.old.items ++ member_words tables.now group) }
{
    match first_member(&tables.rows, group) {
        Some(row) => push_row(text, tables, row),
        None => text.extend_from_slice(b"no mount in these tables"),
    }
}

/// Appends a group between two others, with its first member.
fn push_one_between(
    text: &mut Vec<u8>,
    tables: &SeenTables,
    group: GroupId,
) -> Result<(), AllocError>
    ensures { OnOk result (text.new.items ≡ text.old.items ++ between_words tables.now group) }
{
    push_between(text, b"group ", group, b" (")?;
    push_member(text, tables, group)?;
    text.extend_from_slice(b"), that of ")
}

/// Appends such groups.
fn push_all_between(
    text: &mut Vec<u8>,
    tables: &SeenTables,
    groups: &[GroupId],
) -> Result<(), AllocError>
    ensures { OnOk result (text.new.items ≡ text.old.items ++ flat_map (between_words tables.now) groups.now) }
{
    'groups: for group in groups {
        push_one_between(text, tables, *group)?;
    }
    Ok(())
}

/// Appends the groups up to that of the place.
fn push_chain(
    text: &mut Vec<u8>,
    tables: &SeenTables,
    groups: &[GroupId],
    place: &SeenRow,
) -> Result<(), AllocError>
    ensures { OnOk result (text.new.items ≡ text.old.items ++ chain_words tables.now groups.now place.now) }
{
    text.extend_from_slice(b"slave of ")?;
    push_all_between(text, tables, groups)?;
    push_tag(text, b"group ", place.group)?;
    Ok(())
}

/// Appends the group of a mount, in which what comes goes on.
fn push_own(text: &mut Vec<u8>, tables: &SeenTables, id: MountId) -> Result<(), AllocError>
    ensures { OnOk result (text.new.items ≡ text.old.items ++ own_words tables.now id) }
{
    match tables.rows.get(id) {
        Some(row) => push_tag(text, b"; in group ", row.group),
        None => Ok(()),
    }
}

/// Appends the masters of the mount of a copy, words, and its own group.
fn push_masters(
    text: &mut Vec<u8>,
    tables: &SeenTables,
    copy: &ReachedMount,
    place: &SeenRow,
    words: &[u8],
) -> Result<(), AllocError>
    ensures { OnOk result (text.new.items ≡ text.old.items ++ masters_words tables.now copy.now place.now words.now) }
{
    push_chain(text, tables, copy.between.as_slice(), place)?;
    text.extend_from_slice(words)?;
    push_own(text, tables, copy.spot.mount)
}

/// Appends how the mount of a copy gets what happens at the place.
#[tactic(auto, unfolding(crate::specs::ReachText::way_words))]
fn push_way(
    text: &mut Vec<u8>,
    tables: &SeenTables,
    copy: &ReachedMount,
    place: &SeenRow,
) -> Result<(), AllocError>
    ensures { OnOk result (text.new.items ≡ text.old.items ++ way_words tables.now copy.now place.now copy.now.way) }
{
    match copy.way {
        Way::Peer => push_tag(text, b"peer, group ", place.group),
        Way::Masters => push_masters(text, tables, copy, place, b""),
        Way::Told => push_masters(text, tables, copy, place, b", as propagate_from tells"),
    }
}

/// Appends what a path leads to instead of a copy.
fn push_behind(text: &mut Vec<u8>, tables: &SeenTables, id: MountId) -> Result<(), AllocError>
    ensures { OnOk result (text.new.items ≡ text.old.items ++ (codes " [hidden by mount " ++ id_and_point tables.now id ++ codes "]")) }
{
    push_around_standing(text, tables, b" [hidden by mount ", id, b"]")
}

/// Appends which copy a path leads to instead of one.
fn push_behind_copy(text: &mut Vec<u8>, id: MountId) -> Result<(), AllocError>
    ensures { OnOk result (text.new.items ≡ text.old.items ++ (codes " [hidden by the copy on mount " ++ decimal id ++ codes "]")) }
{
    push_between(text, b" [hidden by the copy on mount ", id, b"]")
}

/// Appends what a path leads to.
#[tactic(auto, unfolding(crate::specs::ReachText::sight_words))]
fn push_sight(text: &mut Vec<u8>, tables: &SeenTables, sight: Sight) -> Result<(), AllocError>
    ensures { OnOk result (text.new.items ≡ text.old.items ++ sight_words tables.now sight) }
{
    match sight {
        Sight::Seen => Ok(()),
        Sight::NoRoot => text.extend_from_slice(b" [no path: its table has no root mount]"),
        Sight::AtRoot => {
            text.extend_from_slice(b" [on the root of the namespace: no path leads there]")
        }
        Sight::BehindCopy(id) => push_behind_copy(text, id),
        Sight::Behind(id) => push_behind(text, tables, id),
    }
}

/// Appends the line that keeps a copy from coming to a mount.
fn push_stop_line(text: &mut Vec<u8>, row: &SeenRow) -> Result<(), AllocError>
    ensures { OnOk result (text.new.items ≡ text.old.items ++ stop_line row.now) }
{
    push_between(text, b"      stop it: setattr ", row.space, b" ")?;
    push_path(text, &row.point)?;
    text.extend_from_slice(b" prop=private\n")
}

/// Appends the line that keeps a copy from coming, if there is one.
fn push_stop(text: &mut Vec<u8>, tables: &SeenTables, copy: &ReachedMount) -> Result<(), AllocError>
    ensures { OnOk result (text.new.items ≡ text.old.items ++ stop_words tables.now copy.now) }
{
    if !copy.stops {
        return Ok(());
    }
    match tables.rows.get(copy.spot.mount) {
        Some(row) => push_stop_line(text, row),
        None => Ok(()),
    }
}

/// Appends a copy.
fn push_copy_line(
    text: &mut Vec<u8>,
    tables: &SeenTables,
    place: &SeenRow,
    copy: &ReachedMount,
) -> Result<(), AllocError>
    ensures { OnOk result (text.new.items ≡ text.old.items ++ copy_told tables.now place.now copy.now) }
{
    text.extend_from_slice(b"  + ")?;
    push_spot(text, tables, &copy.spot)?;
    push_way(text, tables, copy, place)?;
    push_sight(text, tables, copy.sight)?;
    text.extend_from_slice(b"\n")
}

/// Appends a copy, and what keeps it from coming.
#[tactic(auto, unfolding(crate::specs::ReachText::copy_lines))]
fn push_copy(
    text: &mut Vec<u8>,
    tables: &SeenTables,
    place: &SeenRow,
    copy: &ReachedMount,
) -> Result<(), AllocError>
    ensures { OnOk result (text.new.items ≡ text.old.items ++ copy_lines tables.now place.now copy.now) }
{
    push_copy_line(text, tables, place, copy)?;
    push_stop(text, tables, copy)
}

/// Appends such copies.
fn push_each_copy(
    text: &mut Vec<u8>,
    tables: &SeenTables,
    place: &SeenRow,
    copies: &[ReachedMount],
) -> Result<(), AllocError>
    ensures { OnOk result (text.new.items ≡ text.old.items ++ flat_map (copy_lines tables.now place.now) copies.now) }
{
    'copies: for copy in copies {
        push_copy(text, tables, place, copy)?;
    }
    Ok(())
}

/// What keeps a mount without a group from giving anything on.
fn state_words(row: &SeenRow) -> &'static [u8]
    ensures { result.now ≡ cond row.now.unbindable (codes " is unbindable") (cond (is_none row.now.master) (codes " is private") (codes " is a slave, and in no group")) }
{
    if row.unbindable {
        return b" is unbindable";
    }
    if row.master.is_none() {
        b" is private"
    } else {
        b" is a slave, and in no group"
    }
}

/// Appends why there is no copy.
fn push_none(text: &mut Vec<u8>, place: &SeenRow) -> Result<(), AllocError>
    ensures { OnOk result (text.new.items ≡ text.old.items ++ none_words place.now) }
{
    let Some(group) = place.group else {
        push_path(text, &place.point)?;
        return text.extend_from_slice(state_words(place));
    };
    push_after(
        text,
        b"no other mount that shows this directory gets from group ",
        group,
    )
}

/// Appends that there is no copy, and why.
fn push_no_copy(text: &mut Vec<u8>, place: &SeenRow) -> Result<(), AllocError>
    ensures { OnOk result (text.new.items ≡ text.old.items ++ (codes "It comes to no other mount: " ++ none_words place.now ++ codes ".\n")) }
{
    text.extend_from_slice(b"It comes to no other mount: ")?;
    push_none(text, place)?;
    text.extend_from_slice(b".\n")
}

/// Appends how many copies there are, and each.
fn push_some_copies(
    text: &mut Vec<u8>,
    tables: &SeenTables,
    place: &SeenRow,
    copies: &[ReachedMount],
) -> Result<(), AllocError>
    ensures { OnOk result (text.new.items ≡ text.old.items ++ (codes "It comes to " ++ count_of_others (length copies.now) ++ flat_map (copy_lines tables.now place.now) copies.now)) }
{
    text.extend_from_slice(b"It comes to ")?;
    push_others(text, copies.len())?;
    push_each_copy(text, tables, place, copies)
}

/// Appends all copies.
pub(crate) fn push_copies(
    text: &mut Vec<u8>,
    tables: &SeenTables,
    place: &SeenRow,
    copies: &[ReachedMount],
) -> Result<(), AllocError>
    ensures { OnOk result (text.new.items ≡ text.old.items ++ copies_lines tables.now place.now copies.now) }
{
    match copies {
        [] => push_no_copy(text, place),
        copies => push_some_copies(text, tables, place, copies),
    }
}
