//! The mounts that show a directory and get nothing of what is made in it, as lines: why not, and what helps.
ghost use Rattle.std.specs.Prelude.{◌≡◌, ◌++◌, [], cond, codes, IfOk, OnOk};
ghost use Rattle.std.specs.List.{flat_map};
ghost use Rattle.mt_reach.specs.Sight.{point_on};
ghost use Rattle.mt_questions.specs.Wording.{called, id_and_point};
ghost use Rattle.mt_questions.specs.ReachText.{made_on, made_words, elsewhere_lines, share_words, call_words, bind_words, joining_words, is_needed, join_line, join_lines, apart_told, apart_line, apart_lines_of, some_apart, apart_lines};

use crate::copy_text::push_spot;
use crate::remedy::{ApartMount, Elsewhere, Join, Joining};
use crate::table::SeenTables;
use crate::why_text::push_why;
use crate::wording::{push_around_standing, push_between, push_called, push_path, push_standing};
use mt_mounts::mount::{MountId, SpaceId};
use mt_reach::path::Path;
use mt_reach::row::{SeenDirectory, SeenRow};
use mt_reach::sight::point_on;
use std::alloc::AllocError;

/// The mount point of a directory on a mount that shows it.
fn place_on(row: &SeenRow, directory: &SeenDirectory) -> Result<Path, AllocError>
    ensures { IfOk result (λ point. point ≡ point_on row.now directory.now) }
{
    match point_on(row, directory) {
        Ok(point) => Ok(point),
        Err(_) => Err(AllocError),
    }
}

/// Appends the directory on a mount as a place where the mount could be made.
fn push_made_on(
    text: &mut Vec<u8>,
    tables: &SeenTables,
    directory: &SeenDirectory,
    row: &SeenRow,
) -> Result<(), AllocError>
    ensures { OnOk result (text.new.items ≡ text.old.items ++ made_on tables.now directory.now row.now) }
{
    let point = place_on(row, directory)?;
    text.extend_from_slice(b"      made at ")?;
    push_path(text, &point)?;
    text.extend_from_slice(b" in ")?;
    push_called(text, tables, row.space)?;
    Ok(())
}

/// Appends the directory on the mount with this ID.
fn push_made_at(
    text: &mut Vec<u8>,
    tables: &SeenTables,
    directory: &SeenDirectory,
    id: MountId,
) -> Result<(), AllocError>
    ensures { OnOk result (text.new.items ≡ text.old.items ++ made_words tables.now directory.now id) }
{
    match tables.rows.get(id) {
        Some(row) => push_made_on(text, tables, directory, row),
        None => Ok(()),
    }
}

/// Appends the directory on the mount with this ID, and words behind it.
fn push_made(
    text: &mut Vec<u8>,
    tables: &SeenTables,
    directory: &SeenDirectory,
    id: MountId,
    words: &[u8],
) -> Result<(), AllocError>
    ensures { OnOk result (text.new.items ≡ text.old.items ++ (made_words tables.now directory.now id ++ words.now)) }
{
    push_made_at(text, tables, directory, id)?;
    text.extend_from_slice(words)?;
    Ok(())
}

/// Appends which mount is in front.
fn push_in_front(text: &mut Vec<u8>, tables: &SeenTables, id: MountId) -> Result<(), AllocError>
    ensures { OnOk result (text.new.items ≡ text.old.items ++ (codes "      no path leads there: mount " ++ id_and_point tables.now id ++ codes " is in front\n")) }
{
    push_around_standing(
        text,
        tables,
        b"      no path leads there: mount ",
        id,
        b" is in front\n",
    )
}

/// Appends where else a mount could be made.
fn push_elsewhere(
    text: &mut Vec<u8>,
    tables: &SeenTables,
    directory: &SeenDirectory,
    elsewhere: Elsewhere,
) -> Result<(), AllocError>
    ensures { OnOk result (text.new.items ≡ text.old.items ++ elsewhere_lines tables.now directory.now elsewhere) }
{
    match elsewhere {
        Elsewhere::Both(id) => push_made(text, tables, directory, id, b" it comes to both\n"),
        Elsewhere::Alone(id) => push_made(text, tables, directory, id, b" it comes here\n"),
        Elsewhere::InFront(id) => push_in_front(text, tables, id),
        Elsewhere::Nowhere => Ok(()),
    }
}

/// Appends the line that makes a mount shared.
#[tactic(auto, unfolding(crate::specs::ReachText::share_words))]
fn push_share(text: &mut Vec<u8>, from: &SeenRow) -> Result<(), AllocError>
    ensures { OnOk result (text.new.items ≡ text.old.items ++ share_words from.now) }
{
    push_between(text, b"setattr ", from.space, b" ")?;
    push_path(text, &from.point)?;
    text.extend_from_slice(b" prop=shared, ")?;
    Ok(())
}

/// Appends the line that makes a mount shared, if it has to be.
fn push_share_if(text: &mut Vec<u8>, shares: bool, from: &SeenRow) -> Result<(), AllocError>
    ensures { OnOk result (text.new.items ≡ text.old.items ++ cond shares (share_words from.now) []) }
{
    if !shares {
        return Ok(());
    }
    push_share(text, from)
}

/// Appends a verb, a namespace and a path.
#[tactic(auto, unfolding(crate::specs::ReachText::call_words))]
fn push_call(text: &mut Vec<u8>, verb: &[u8], row: &SeenRow, path: &Path) -> Result<(), AllocError>
    ensures { OnOk result (text.new.items ≡ text.old.items ++ call_words verb.now row.now path.now) }
{
    push_between(text, verb, row.space, b" ")?;
    push_path(text, path)?;
    Ok(())
}

/// Appends the lines that make a mount anew by a bind from another.
#[tactic(auto, unfolding(crate::specs::ReachText::bind_words))]
fn push_bind(text: &mut Vec<u8>, from: &SeenRow, to: &SeenRow) -> Result<(), AllocError>
    ensures { OnOk result (text.new.items ≡ text.old.items ++ bind_words from.now to.now) }
{
    let point = place_on(from, &to.root)?;
    push_call(text, b"umount ", to, &to.point)?;
    push_call(text, b", bind ", to, &point)?;
    text.extend_from_slice(b" ")?;
    push_path(text, &to.point)?;
    Ok(())
}

/// Appends that a mount is to be made anew from another.
fn push_anew(
    text: &mut Vec<u8>,
    tables: &SeenTables,
    from: &SeenRow,
    to: &SeenRow,
) -> Result<(), AllocError>
    ensures { OnOk result (text.new.items ≡ text.old.items ++ (codes "make " ++ id_and_point tables.now to.now.id ++ codes " anew from " ++ id_and_point tables.now from.now.id)) }
{
    text.extend_from_slice(b"make ")?;
    push_standing(text, tables, to.id)?;
    text.extend_from_slice(b" anew from ")?;
    push_standing(text, tables, from.id)?;
    Ok(())
}

/// Appends words, what people call a namespace, and words.
fn push_around_called(
    text: &mut Vec<u8>,
    tables: &SeenTables,
    front: &[u8],
    space: SpaceId,
    behind: &[u8],
) -> Result<(), AllocError>
    ensures { OnOk result (text.new.items ≡ text.old.items ++ (front.now ++ called tables.now space ++ behind.now)) }
{
    text.extend_from_slice(front)?;
    push_called(text, tables, space)?;
    text.extend_from_slice(behind)
}

/// Appends that what runs in a namespace is to be started again.
fn push_again(text: &mut Vec<u8>, tables: &SeenTables, to: &SeenRow) -> Result<(), AllocError>
    ensures { OnOk result (text.new.items ≡ text.old.items ++ (codes "start " ++ called tables.now to.now.space ++ codes " again with this directory as slave or shared")) }
{
    push_around_called(
        text,
        tables,
        b"start ",
        to.space,
        b" again with this directory as slave or shared",
    )
}

/// Appends how a mount is made anew from another.
#[tactic(auto, unfolding(crate::specs::ReachText::joining_words))]
fn push_joining(
    text: &mut Vec<u8>,
    tables: &SeenTables,
    from: &SeenRow,
    to: &SeenRow,
    how: Joining,
) -> Result<(), AllocError>
    ensures { OnOk result (text.new.items ≡ text.old.items ++ joining_words tables.now from.now to.now how) }
{
    match how {
        Joining::Unneeded => Ok(()),
        Joining::Bind => push_bind(text, from, to),
        Joining::Anew => push_anew(text, tables, from, to),
        Joining::Again => push_again(text, tables, to),
    }
}

/// Whether mounts are to be joined.
fn is_needed(how: Joining) -> bool
    ensures { result ≡ is_needed how }
{
    !matches!(how, Joining::Unneeded)
}

/// Appends the line that says how two mounts would be joined.
fn push_join_line(
    text: &mut Vec<u8>,
    tables: &SeenTables,
    join: Join,
    from: &SeenRow,
    to: &SeenRow,
) -> Result<(), AllocError>
    ensures { OnOk result (text.new.items ≡ text.old.items ++ join_line tables.now join from.now to.now) }
{
    text.extend_from_slice(b"      to join them: ")?;
    push_share_if(text, join.shares, from)?;
    push_joining(text, tables, from, to, join.how)?;
    text.extend_from_slice(b"\n")?;
    Ok(())
}

/// Appends how two mounts would be joined, if that helps.
fn push_join(text: &mut Vec<u8>, tables: &SeenTables, join: Join) -> Result<(), AllocError>
    ensures { OnOk result (text.new.items ≡ text.old.items ++ join_lines tables.now join) }
{
    if !is_needed(join.how) {
        return Ok(());
    }
    let Some(from) = tables.rows.get(join.from) else {
        return Ok(());
    };
    let Some(to) = tables.rows.get(join.to) else {
        return Ok(());
    };
    push_join_line(text, tables, join, from, to)
}

/// Appends a mount to which nothing comes, and why.
fn push_nothing(
    text: &mut Vec<u8>,
    tables: &SeenTables,
    place: &SeenRow,
    apart: &ApartMount,
    row: &SeenRow,
) -> Result<(), AllocError>
    ensures { OnOk result (text.new.items ≡ text.old.items ++ apart_told tables.now place.now apart.now row.now) }
{
    text.extend_from_slice(b"  - ")?;
    push_spot(text, tables, &apart.spot)?;
    push_why(text, tables, place, row, apart.why)?;
    text.extend_from_slice(b"\n")?;
    Ok(())
}

/// Appends a mount to which nothing comes, why, and what helps.
#[tactic(auto, unfolding(crate::specs::ReachText::apart_line))]
fn push_apart_line(
    text: &mut Vec<u8>,
    tables: &SeenTables,
    directory: &SeenDirectory,
    place: &SeenRow,
    apart: &ApartMount,
    row: &SeenRow,
) -> Result<(), AllocError>
    ensures { OnOk result (text.new.items ≡ text.old.items ++ apart_line tables.now directory.now place.now apart.now row.now) }
{
    push_nothing(text, tables, place, apart, row)?;
    push_elsewhere(text, tables, directory, apart.elsewhere)?;
    push_join(text, tables, apart.join)
}

/// Appends the lines of such a mount.
fn push_apart_of(
    text: &mut Vec<u8>,
    tables: &SeenTables,
    directory: &SeenDirectory,
    place: &SeenRow,
    apart: &ApartMount,
) -> Result<(), AllocError>
    ensures { OnOk result (text.new.items ≡ text.old.items ++ apart_lines_of tables.now directory.now place.now apart.now) }
{
    match tables.rows.get(apart.spot.mount) {
        Some(row) => push_apart_line(text, tables, directory, place, apart, row),
        None => Ok(()),
    }
}

/// Appends the lines of such mounts.
fn push_each_apart(
    text: &mut Vec<u8>,
    tables: &SeenTables,
    directory: &SeenDirectory,
    place: &SeenRow,
    apart: &[ApartMount],
) -> Result<(), AllocError>
    ensures { OnOk result (text.new.items ≡ text.old.items ++ flat_map (apart_lines_of tables.now directory.now place.now) apart.now) }
{
    'apart: for one in apart {
        push_apart_of(text, tables, directory, place, one)?;
    }
    Ok(())
}

/// Appends words, and such mounts.
fn push_headed_apart(
    text: &mut Vec<u8>,
    tables: &SeenTables,
    head: &[u8],
    directory: &SeenDirectory,
    place: &SeenRow,
    apart: &[ApartMount],
) -> Result<(), AllocError>
    ensures { OnOk result (text.new.items ≡ text.old.items ++ (head.now ++ flat_map (apart_lines_of tables.now directory.now place.now) apart.now)) }
{
    text.extend_from_slice(head)?;
    push_each_apart(text, tables, directory, place, apart)
}

/// Appends what such mounts are, and each.
#[tactic(auto, unfolding(crate::specs::ReachText::some_apart))]
fn push_some_apart(
    text: &mut Vec<u8>,
    tables: &SeenTables,
    directory: &SeenDirectory,
    place: &SeenRow,
    apart: &[ApartMount],
) -> Result<(), AllocError>
    ensures { OnOk result (text.new.items ≡ text.old.items ++ some_apart tables.now directory.now place.now apart.now) }
{
    push_headed_apart(
        text,
        tables,
        b"These show the same directory, and it does not come there:\n",
        directory,
        place,
        apart,
    )
}

/// Appends the mounts that show the directory, and to which nothing comes.
pub(crate) fn push_apart(
    text: &mut Vec<u8>,
    tables: &SeenTables,
    directory: &SeenDirectory,
    place: &SeenRow,
    apart: &[ApartMount],
) -> Result<(), AllocError>
    ensures { OnOk result (text.new.items ≡ text.old.items ++ apart_lines tables.now directory.now place.now apart.now) }
{
    match apart {
        [] => Ok(()),
        apart => push_some_apart(text, tables, directory, place, apart),
    }
}
