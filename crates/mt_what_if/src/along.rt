//! Mounts that only move along with those that they stand on.
ghost use Rattle.std.specs.Prelude.{◌≡◌, ◌++◌, drop, IfOk, OnOk, IsTrue, count_by};
ghost use Rattle.mt_skel.specs.Keyed.{rises};
ghost use Rattle.mt_info.specs.Table.{row_id};
ghost use Rattle.mt_what_if.specs.Along.{is_point, is_point_alone, below_text, stands_alike, goes_along, is_along, along_words, along_text};

use mt_info::print::push_number;
use mt_info::row::Row;
use mt_info::table::find_row;
use mt_render::field::{Field, fields_changed};
use mt_skel::names::Names;
use std::alloc::{AllocError, Global};

/// Whether a field is the mount point.
fn is_point(field: Field) -> bool
    ensures { result ≡ is_point field }
{
    match field {
        Field::Point => true,
        Field::Parent
        | Field::Root
        | Field::ReadOnly
        | Field::Nosuid
        | Field::Nodev
        | Field::Noexec
        | Field::Nosymfollow
        | Field::Nodiratime
        | Field::AccessTimes
        | Field::Propagation => false,
    }
}

/// Whether the mount point is the only one of these fields.
fn is_point_alone(changed: &[Field]) -> bool
    ensures { result ≡ is_point_alone changed.now }
{
    match changed {
        [field] => is_point(*field),
        [] => false,
        [_first, _second, ..] => false,
    }
}

/// What comes after so many bytes of a text, if it has more.
fn rest_from(text: &[u8], start: usize) -> &[u8]
    ensures { result.now ≡ drop start text.now }
{
    if start >= text.len() {
        return &[];
    }
    &text[start..]
}

/// The names from the mount point of a parent down to one of a mount on it, each after a slash.
fn below_text<'a>(above: &Names, point: &'a Names) -> &'a [u8]
    ensures { result.now ≡ below_text above.now point.now }
{
    rest_from(point.text(), above.text().len())
}

/// Whether a mount stands where it stood, as seen from the mount point of its parent.
fn stands_alike(before: &[Row], after: &[Row], was: &Row, is: &Row) -> bool
    requires before { IsTrue (rises row_id before.now) }
    requires after { IsTrue (rises row_id after.now) }
    ensures { result ≡ stands_alike before.now after.now was.now is.now }
{
    let Some(old) = find_row(before, was.parent) else {
        return false;
    };
    let Some(new) = find_row(after, is.parent) else {
        return false;
    };
    below_text(&old.point, &was.point) == below_text(&new.point, &is.point)
}

/// Whether of a mount only the mount point is not as it was, and it stands where it stood on its parent.
pub(crate) fn goes_along(
    alloc: Global,
    before: &[Row],
    after: &[Row],
    was: &Row,
    is: &Row,
) -> Result<bool, AllocError>
    requires before { IsTrue (rises row_id before.now) }
    requires after { IsTrue (rises row_id after.now) }
    ensures { IfOk result (λ along. along ≡ goes_along before.now after.now was.now is.now) }
{
    let changed = fields_changed(alloc, was, is)?;
    Ok(is_point_alone(&changed) && stands_alike(before, after, was, is))
}

/// Whether a row is of a mount that only moved along.
#[tactic(auto, unfolding(crate::specs::Along::is_along))]
fn is_along(alloc: Global, before: &[Row], after: &[Row], row: &Row) -> Result<bool, AllocError>
    requires before { IsTrue (rises row_id before.now) }
    requires after { IsTrue (rises row_id after.now) }
    ensures { IfOk result (λ along. along ≡ is_along before.now after.now row.now) }
{
    match find_row(before, row.id) {
        Some(was) => goes_along(alloc, before, after, was, row),
        None => Ok(false),
    }
}

/// How many rows are of mounts that only moved along.
fn count_along(alloc: Global, before: &[Row], after: &[Row]) -> Result<usize, AllocError>
    requires before { IsTrue (rises row_id before.now) }
    requires after { IsTrue (rises row_id after.now) }
    ensures { IfOk result (λ count. count ≡ count_by (is_along before.now after.now) after.now) }
{
    let mut count = 0usize;
    'rows: for row in after {
        if is_along(alloc, before, after, row)? {
            count += 1;
        }
    }
    Ok(count)
}

/// Appends that so many mounts moved along.
fn push_along_words(text: &mut Vec<u8>, count: usize) -> Result<(), AllocError>
    ensures { OnOk result (text.new.items ≡ text.old.items ++ along_words count) }
{
    if count == 1 {
        text.extend_from_slice(b" mount below goes along\n")
    } else {
        text.extend_from_slice(b" mounts below go along\n")
    }
}

/// Appends how many mounts only moved along, if there is one.
fn push_along(text: &mut Vec<u8>, count: usize) -> Result<(), AllocError>
    ensures { OnOk result (text.new.items ≡ text.old.items ++ along_text count) }
{
    if count == 0 {
        return Ok(());
    }
    text.extend_from_slice(b"    ~ ")?;
    push_number(text, count as u64)?;
    push_along_words(text, count)
}

/// Appends how many mounts of a namespace only moved along, if there is one.
pub(crate) fn push_alongs(
    text: &mut Vec<u8>,
    before: &[Row],
    after: &[Row],
) -> Result<(), AllocError>
    requires before { IsTrue (rises row_id before.now) }
    requires after { IsTrue (rises row_id after.now) }
    ensures { OnOk result (text.new.items ≡ text.old.items ++ along_text (count_by (is_along before.now after.now) after.now)) }
{
    let count = count_along(*text.allocator(), before, after)?;
    push_along(text, count)
}
