//! A post as JSON, an object a line for each mount.
ghost use Rattle.std.specs.Prelude.{◌≡◌, ◌++◌, false, codes, OnOk, IfOk, IsTrue};
ghost use Rattle.std.specs.List.{flat_map};
ghost use Rattle.serde_json.specs.Data.{no_members, put};
ghost use Rattle.serde_json.specs.View.{members_view};
ghost use Rattle.serde_json.specs.Written.{members_have_float};
ghost use Rattle.mt_skel.specs.Keyed.{rises};
ghost use Rattle.mt_info.specs.Table.{row_id};
ghost use Rattle.mt_info.specs.SameRow.{atime_eq, attrs_eq, bool_eq};
ghost use Rattle.mt_render.specs.Members.{number_data, with_mount};
ghost use Rattle.mt_render.specs.Events.{event_line, left_members, left_event, new_event, stands_as_before, change_event, changed_members, changed_event, row_event, post_events};

use crate::members::{Members, put_name, put_number, put_row, put_text};
use crate::objects::{flat_node, push_value};
use mt_events::mirror::Mirror;
use mt_events::post::Post;
use mt_info::row::Row;
use mt_info::table::find_row;
use mt_mounts::mount::{Atime, Attrs, MountId, SpaceId};
use serde_json::{Map, Value, put};
use std::alloc::{AllocError, Global};

/// Appends the line of what happened to a mount in a namespace, behind the members of the mount.
fn push_event(
    text: &mut Vec<u8>,
    event: &str,
    name: &[u8],
    space: SpaceId,
    mut members: Members,
) -> Result<(), AllocError>
    requires { members_have_float (members_view members.entries) ≡ false }
    ensures { OnOk result (text.new.items ≡ text.old.items ++ event_line event.now name.now space (members_view members.entries)) }
{
    let alloc = *text.allocator();
    put_text(&mut members, alloc, "event", event.as_bytes())?;
    put_number(&mut members, alloc, "namespace", space)?;
    put_name(&mut members, alloc, name)?;
    push_value(text, &Value::from(members))
}

/// The members of a mount.
fn row_members(alloc: Global, row: &Row) -> Result<Members, AllocError>
    ensures { IfOk result (λ members. members_view members.entries ≡ with_mount row.now no_members) }
{
    let mut members = Map::new(alloc);
    put_row(&mut members, alloc, row)?;
    Ok(members)
}

/// The members of a mount of which its ID alone is known.
fn id_members(alloc: Global, id: MountId) -> Result<Members, AllocError>
    ensures { IfOk result (λ members. members_view members.entries ≡ put (codes "id") (number_data id) no_members) }
{
    let mut members = Map::new(alloc);
    put_number(&mut members, alloc, "id", id)?;
    Ok(members)
}

/// The members of a mount that left.
fn left_members(alloc: Global, rows: &[Row], id: MountId) -> Result<Members, AllocError>
    requires { IsTrue (rises row_id rows.now) }
    ensures { IfOk result (λ members. members_view members.entries ≡ left_members rows.now id) }
{
    match find_row(rows, id) {
        Some(row) => row_members(alloc, row),
        None => id_members(alloc, id),
    }
}

/// Appends the line of a mount that left.
#[tactic(auto, unfolding(crate::specs::Events::left_event))]
fn push_left_event(
    text: &mut Vec<u8>,
    rows: &[Row],
    name: &[u8],
    space: SpaceId,
    id: MountId,
) -> Result<(), AllocError>
    requires { IsTrue (rises row_id rows.now) }
    ensures { OnOk result (text.new.items ≡ text.old.items ++ left_event rows.now name.now space id) }
{
    let members = left_members(*text.allocator(), rows, id)?;
    push_event(text, "umount", name, space, members)
}

/// Appends the line of a mount that is new.
#[tactic(auto, unfolding(crate::specs::Events::new_event))]
fn push_new_event(
    text: &mut Vec<u8>,
    name: &[u8],
    space: SpaceId,
    row: &Row,
) -> Result<(), AllocError>
    ensures { OnOk result (text.new.items ≡ text.old.items ++ new_event name.now space row.now) }
{
    let members = row_members(*text.allocator(), row)?;
    push_event(text, "mount", name, space, members)
}

/// Whether a flag is as it was.
fn is_kept(before: bool, after: bool) -> bool
    ensures { result ≡ bool_eq before after }
{
    before == after
}

/// Whether access times are updated as they were.
fn are_times_kept(before: Atime, after: Atime) -> bool
    ensures { result ≡ atime_eq before after }
{
    before == after
}

/// Whether two mounts have the same attributes.
fn are_same(left: Attrs, right: Attrs) -> bool
    ensures { result ≡ attrs_eq left right }
{
    is_kept(left.ro, right.ro)
        && is_kept(left.nosuid, right.nosuid)
        && is_kept(left.nodev, right.nodev)
        && is_kept(left.noexec, right.noexec)
        && is_kept(left.nosymfollow, right.nosymfollow)
        && is_kept(left.nodiratime, right.nodiratime)
        && are_times_kept(left.atime, right.atime)
}

/// Whether a mount stands where it stood: at the same path, and on the same mount.
fn stands_as_before(before: &Row, after: &Row) -> bool
    ensures { result ≡ stands_as_before before.now after.now }
{
    before.point.is_same(&after.point) && before.parent == after.parent
}

/// What happened to a mount that was there before.
fn change_event(before: &Row, after: &Row) -> &'static str
    ensures { result.now ≡ change_event before.now after.now }
{
    if !stands_as_before(before, after) {
        "move"
    } else if !are_same(before.attrs, after.attrs) {
        "remount"
    } else {
        "change"
    }
}

/// The members of a mount as it is, and as it was.
fn changed_members(alloc: Global, before: &Row, after: &Row) -> Result<Members, AllocError>
    ensures { IfOk result (λ members. members_view members.entries ≡ changed_members before.now after.now) }
{
    let old = flat_node(alloc, before)?;
    let mut members = row_members(alloc, after)?;
    put(&mut members, alloc, "old", old)?;
    Ok(members)
}

/// Appends the line of a mount that was there before.
#[tactic(auto, unfolding(crate::specs::Events::changed_event))]
fn push_changed_event(
    text: &mut Vec<u8>,
    name: &[u8],
    space: SpaceId,
    before: &Row,
    after: &Row,
) -> Result<(), AllocError>
    ensures { OnOk result (text.new.items ≡ text.old.items ++ changed_event name.now space before.now after.now) }
{
    let members = changed_members(*text.allocator(), before, after)?;
    push_event(text, change_event(before, after), name, space, members)
}

/// Appends the line of a row, new or not as it was.
fn push_row_event(
    text: &mut Vec<u8>,
    rows: &[Row],
    name: &[u8],
    space: SpaceId,
    row: &Row,
) -> Result<(), AllocError>
    requires { IsTrue (rises row_id rows.now) }
    ensures { OnOk result (text.new.items ≡ text.old.items ++ row_event rows.now name.now space row.now) }
{
    match find_row(rows, row.id) {
        Some(before) => push_changed_event(text, name, space, before, row),
        None => push_new_event(text, name, space, row),
    }
}

/// Appends the lines of mounts that left.
fn push_left_events(
    text: &mut Vec<u8>,
    rows: &[Row],
    name: &[u8],
    space: SpaceId,
    gone: &[MountId],
) -> Result<(), AllocError>
    requires { IsTrue (rises row_id rows.now) }
    ensures { OnOk result (text.new.items ≡ text.old.items ++ flat_map (left_event rows.now name.now space) gone.now) }
{
    'gone: for id in gone {
        push_left_event(text, rows, name, space, *id)?;
    }
    Ok(())
}

/// Appends the lines of rows that are new or not as they were.
fn push_row_events(
    text: &mut Vec<u8>,
    rows: &[Row],
    name: &[u8],
    space: SpaceId,
    news: &[Row],
) -> Result<(), AllocError>
    requires { IsTrue (rises row_id rows.now) }
    ensures { OnOk result (text.new.items ≡ text.old.items ++ flat_map (row_event rows.now name.now space) news.now) }
{
    'news: for row in news {
        push_row_event(text, rows, name, space, row)?;
    }
    Ok(())
}

/// Appends what a post says of its namespace as JSON, given the mirror before it: first a line for each mount that left,
/// by rising ID, and then one for each row, by rising ID. Fails for want of memory alone.
#[tactic(auto, unfolding(crate::specs::Events::post_events))]
pub(crate) fn push_events(
    text: &mut Vec<u8>,
    mirror: &Mirror,
    post: &Post,
    name: &[u8],
) -> Result<(), AllocError>
    ensures { OnOk result (text.new.items ≡ text.old.items ++ post_events name.now mirror.now post.now) }
{
    let rows = mirror.table().rows();
    push_left_events(text, rows, name, post.space, post.gone.as_slice())?;
    push_row_events(text, rows, name, post.space, post.rows.rows())?;
    Ok(())
}
