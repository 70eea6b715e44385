//! What changes in one namespace.
ghost use Rattle.std.specs.Prelude.{◌≡◌, ◌++◌, IfOk, OnOk, IsTrue};
ghost use Rattle.std.specs.List.{flat_map};
ghost use Rattle.mt_skel.specs.Keyed.{rises, has};
ghost use Rattle.mt_info.specs.Table.{row_id};
ghost use Rattle.mt_what_if.specs.Spaces.{text_if_gone, text_if_new, told_change, has_changed, change_in, row_changes, abridged_changes, space_lines, space_heading, with_heading, all_lines, space_changes};

use crate::abridged::{Told, push_abridged};
use crate::along::{goes_along, push_alongs};
use crate::known_space::KnownSpace;
use crate::lines::{push_changed_line, push_gone_line, push_new_line};
use crate::numbers::Numbers;
use crate::unsure::push_unsures;
use crate::words::push_changes;
use mt_info::row::Row;
use mt_info::table::find_row;
use mt_mounts::mount::MountId;
use mt_peers::peers::Peers;
use mt_render::wording::push_shown;
use std::alloc::{AllocError, Global};

/// Whether a mount has a row.
fn has_row(rows: &[Row], id: MountId) -> bool
    requires { IsTrue (rises row_id rows.now) }
    ensures { result ≡ has row_id id rows.now }
{
    find_row(rows, id).is_some()
}

/// Appends the line of a mount, if it left.
fn push_if_gone(
    text: &mut Vec<u8>,
    numbers: Numbers,
    after: &[Row],
    row: &Row,
) -> Result<(), AllocError>
    requires { IsTrue (rises row_id after.now) }
    ensures { OnOk result (text.new.items ≡ text.old.items ++ text_if_gone numbers after.now row.now) }
{
    if has_row(after, row.id) {
        return Ok(());
    }
    push_gone_line(text, numbers, row)
}

/// Appends the line of a mount, if it is new.
fn push_if_new(
    text: &mut Vec<u8>,
    numbers: Numbers,
    before: &[Row],
    row: &Row,
) -> Result<(), AllocError>
    requires { IsTrue (rises row_id before.now) }
    ensures { OnOk result (text.new.items ≡ text.old.items ++ text_if_new numbers before.now row.now) }
{
    if has_row(before, row.id) {
        return Ok(());
    }
    push_new_line(text, numbers, row)
}

/// Appends the lines of the mounts that left.
fn push_gone(
    text: &mut Vec<u8>,
    numbers: Numbers,
    before: &[Row],
    after: &[Row],
) -> Result<(), AllocError>
    requires { IsTrue (rises row_id after.now) }
    ensures { OnOk result (text.new.items ≡ text.old.items ++ flat_map (text_if_gone numbers after.now) before.now) }
{
    'rows: for row in before {
        push_if_gone(text, numbers, after, row)?;
    }
    Ok(())
}

/// Appends the lines of the mounts that are new.
fn push_news(
    text: &mut Vec<u8>,
    numbers: Numbers,
    before: &[Row],
    after: &[Row],
) -> Result<(), AllocError>
    requires { IsTrue (rises row_id before.now) }
    ensures { OnOk result (text.new.items ≡ text.old.items ++ flat_map (text_if_new numbers before.now) after.now) }
{
    'rows: for row in after {
        push_if_new(text, numbers, before, row)?;
    }
    Ok(())
}

/// The change of a mount that is not as it was.
fn told_change(alloc: Global, numbers: Numbers, was: &Row, is: &Row) -> Result<Told, AllocError>
    ensures { IfOk result (λ told. told ≡ told_change numbers was.now is.now) }
{
    let mut change = Vec::new(alloc);
    push_changes(&mut change, numbers.uncounted(), was, is)?;
    let mut line = Vec::new(alloc);
    push_changed_line(&mut line, numbers, was, is)?;
    Ok(Told { change, line })
}

/// Whether a mount is not as it was, and does not only move along.
fn has_changed(
    alloc: Global,
    before: &[Row],
    after: &[Row],
    was: &Row,
    is: &Row,
) -> Result<bool, AllocError>
    requires before { IsTrue (rises row_id before.now) }
    requires after { IsTrue (rises row_id after.now) }
    ensures { IfOk result (λ changed. changed ≡ has_changed before.now after.now was.now is.now) }
{
    if was.same(is) {
        return Ok(false);
    }
    Ok(!goes_along(alloc, before, after, was, is)?)
}

/// Adds the change of a mount, if it was there before, is not as it was, and does not only move along.
#[tactic(auto, unfolding(crate::specs::Spaces::change_in))]
fn push_change(
    told: &mut Vec<Told>,
    numbers: Numbers,
    before: &[Row],
    after: &[Row],
    row: &Row,
) -> Result<(), AllocError>
    requires before { IsTrue (rises row_id before.now) }
    requires after { IsTrue (rises row_id after.now) }
    ensures { OnOk result (told.new.items ≡ told.old.items ++ change_in numbers before.now after.now row.now) }
{
    let alloc = *told.allocator();
    let Some(was) = find_row(before, row.id) else {
        return Ok(());
    };
    if has_changed(alloc, before, after, was, row)? {
        told.push(told_change(alloc, numbers, was, row)?)?;
    }
    Ok(())
}

/// The changes of the mounts that were there before.
fn row_changes(
    alloc: Global,
    numbers: Numbers,
    before: &[Row],
    after: &[Row],
) -> Result<Vec<Told>, AllocError>
    requires before { IsTrue (rises row_id before.now) }
    requires after { IsTrue (rises row_id after.now) }
    ensures { IfOk result (λ told. told.items ≡ row_changes numbers before.now after.now) }
{
    let mut told = Vec::new(alloc);
    'rows: for row in after {
        push_change(&mut told, numbers, before, after, row)?;
    }
    Ok(told)
}

/// Appends the changes of the mounts that were there before.
fn push_changed(
    text: &mut Vec<u8>,
    numbers: Numbers,
    before: &[Row],
    after: &[Row],
) -> Result<(), AllocError>
    requires before { IsTrue (rises row_id before.now) }
    requires after { IsTrue (rises row_id after.now) }
    ensures { OnOk result (text.new.items ≡ text.old.items ++ abridged_changes numbers before.now after.now) }
{
    let told = row_changes(*text.allocator(), numbers, before, after)?;
    push_abridged(text, &told)
}

/// Appends the lines of all that changes from one table of a namespace to another one.
#[tactic(auto, unfolding(crate::specs::Spaces::space_lines))]
fn push_space_lines(
    text: &mut Vec<u8>,
    numbers: Numbers,
    before: &[Row],
    after: &[Row],
) -> Result<(), AllocError>
    requires before { IsTrue (rises row_id before.now) }
    requires after { IsTrue (rises row_id after.now) }
    ensures { OnOk result (text.new.items ≡ text.old.items ++ space_lines numbers before.now after.now) }
{
    push_gone(text, numbers, before, after)?;
    push_changed(text, numbers, before, after)?;
    push_alongs(text, before, after)?;
    push_news(text, numbers, before, after)?;
    Ok(())
}

/// Appends the name of a namespace, as the heading of its changes.
fn push_heading(text: &mut Vec<u8>, name: &[u8]) -> Result<(), AllocError>
    ensures { OnOk result (text.new.items ≡ text.old.items ++ space_heading name.now) }
{
    let mut line = Vec::new(*text.allocator());
    line.extend_from_slice(b"  ")?;
    line.extend_from_slice(name)?;
    line.extend_from_slice(b":")?;
    push_shown(text, &line)
}

/// Appends lines under the name of a namespace, if there are any.
fn push_with_heading(text: &mut Vec<u8>, name: &[u8], lines: &[u8]) -> Result<(), AllocError>
    ensures { OnOk result (text.new.items ≡ text.old.items ++ with_heading name.now lines.now) }
{
    match lines {
        [] => Ok(()),
        [_first, ..] => {
            push_heading(text, name)?;
            text.extend_from_slice(lines)
        }
    }
}

/// Appends the lines of all that changes in a namespace, and last what these tables do not tell.
fn push_all_lines(
    text: &mut Vec<u8>,
    numbers: Numbers,
    peers: &Peers,
    space: &KnownSpace,
    before: &[Row],
    after: &[Row],
) -> Result<(), AllocError>
    requires before { IsTrue (rises row_id before.now) }
    requires after { IsTrue (rises row_id after.now) }
    ensures { OnOk result (text.new.items ≡ text.old.items ++ all_lines numbers peers.now.peers space.now before.now after.now) }
{
    let named = !space.is_unnamed();
    push_space_lines(text, numbers, before, after)?;
    push_unsures(text, numbers, peers, named, before, after)
}

/// Appends what changes from one table of a namespace to another one: a line with its name, and below it the mounts that left,
/// those that are not as they were, and those that are new, and last what these tables do not tell. Nothing, where nothing changes.
/// Both tables are by rising ID, and the states are those of the second one. Fails for want of memory alone.
pub(crate) fn push_space(
    text: &mut Vec<u8>,
    numbers: Numbers,
    peers: &Peers,
    space: &KnownSpace,
    before: &[Row],
    after: &[Row],
) -> Result<(), AllocError>
    requires before { IsTrue (rises row_id before.now) }
    requires after { IsTrue (rises row_id after.now) }
    ensures { OnOk result (text.new.items ≡ text.old.items ++ space_changes numbers peers.now.peers space.now before.now after.now) }
{
    let mut lines = Vec::new(*text.allocator());
    push_all_lines(&mut lines, numbers, peers, space, before, after)?;
    push_with_heading(text, &space.name, &lines)
}
