//! What of a mount is not as it was, in words.
ghost use Rattle.std.specs.Prelude.{◌≡◌, ◌++◌, OnOk};
ghost use Rattle.mt_what_if.specs.Words.{tag_told, tags_told, without_comma, propagation_words, parent_word, value, field_change, further, field_changes, changes};

use crate::numbers::Numbers;
use mt_info::row::Row;
use mt_peers::state::GroupId;
use mt_render::field::{Field, field_name, fields_changed, push_field};
use std::alloc::AllocError;

/// Appends the name of an optional field and its group after a comma, if there is a group.
fn push_tag(
    text: &mut Vec<u8>,
    numbers: Numbers,
    name: &[u8],
    group: Option<GroupId>,
) -> Result<(), AllocError>
    ensures { OnOk result (text.new.items ≡ text.old.items ++ tag_told numbers name.now group) }
{
    let Some(group) = group else {
        return Ok(());
    };
    text.extend_from_slice(b",")?;
    text.extend_from_slice(name)?;
    numbers.push_group(text, group)?;
    Ok(())
}

/// Appends the optional fields of a row, each after a comma.
fn push_tags(text: &mut Vec<u8>, numbers: Numbers, row: &Row) -> Result<(), AllocError>
    ensures { OnOk result (text.new.items ≡ text.old.items ++ tags_told numbers row.now) }
{
    push_tag(text, numbers, b"shared:", row.shared)?;
    push_tag(text, numbers, b"master:", row.master)?;
    push_tag(text, numbers, b"propagate_from:", row.via)?;
    if row.unbindable {
        text.extend_from_slice(b",unbindable")?;
    }
    Ok(())
}

/// Appends optional fields that stand each after a comma, without the first comma, or `private` where there is none.
fn push_without_comma(text: &mut Vec<u8>, tags: &[u8]) -> Result<(), AllocError>
    ensures { OnOk result (text.new.items ≡ text.old.items ++ without_comma tags.now) }
{
    match tags {
        [] => text.extend_from_slice(b"private"),
        [_comma, words @ ..] => text.extend_from_slice(words),
    }
}

/// Appends how a mount propagates.
pub(crate) fn push_propagation(
    text: &mut Vec<u8>,
    numbers: Numbers,
    row: &Row,
) -> Result<(), AllocError>
    ensures { OnOk result (text.new.items ≡ text.old.items ++ propagation_words numbers row.now) }
{
    let mut tags = Vec::new(*text.allocator());
    push_tags(&mut tags, numbers, row)?;
    push_without_comma(text, &tags)?;
    Ok(())
}

/// Appends the number of the mount that a mount stands on, if there is one.
fn push_parent(text: &mut Vec<u8>, numbers: Numbers, row: &Row) -> Result<(), AllocError>
    ensures { OnOk result (text.new.items ≡ text.old.items ++ parent_word numbers row.now) }
{
    if row.parent == row.id {
        text.extend_from_slice(b"none")?;
    } else {
        numbers.push_mount(text, row.parent)?;
    }
    Ok(())
}

/// Appends what a field of a row says.
fn push_value(
    text: &mut Vec<u8>,
    numbers: Numbers,
    row: &Row,
    field: Field,
) -> Result<(), AllocError>
    ensures { OnOk result (text.new.items ≡ text.old.items ++ value numbers row.now field) }
{
    match field {
        Field::Parent => push_parent(text, numbers, row),
        Field::Propagation => push_propagation(text, numbers, row),
        Field::Point
        | Field::Root
        | Field::ReadOnly
        | Field::Nosuid
        | Field::Nodev
        | Field::Noexec
        | Field::Nosymfollow
        | Field::Nodiratime
        | Field::AccessTimes => push_field(text, row, field),
    }
}

/// Appends what a field was, and what it is.
fn push_change(
    text: &mut Vec<u8>,
    numbers: Numbers,
    before: &Row,
    after: &Row,
    field: Field,
) -> Result<(), AllocError>
    ensures { OnOk result (text.new.items ≡ text.old.items ++ field_change numbers before.now after.now field) }
{
    text.extend_from_slice(field_name(field))?;
    push_value(text, numbers, before, field)?;
    text.extend_from_slice(b" -> ")?;
    push_value(text, numbers, after, field)?;
    Ok(())
}

/// Appends what each of these fields was and is, each after a comma.
fn push_further(
    text: &mut Vec<u8>,
    numbers: Numbers,
    before: &Row,
    after: &Row,
    changed: &[Field],
) -> Result<(), AllocError>
    ensures { OnOk result (text.new.items ≡ text.old.items ++ further numbers before.now after.now changed.now) }
{
    'changed: for field in changed {
        text.extend_from_slice(b", ")?;
        push_change(text, numbers, before, after, *field)?;
    }
    Ok(())
}

/// Appends what each of these fields was and is, with commas between them, or that nothing changed.
fn push_field_changes(
    text: &mut Vec<u8>,
    numbers: Numbers,
    before: &Row,
    after: &Row,
    changed: &[Field],
) -> Result<(), AllocError>
    ensures { OnOk result (text.new.items ≡ text.old.items ++ field_changes numbers before.now after.now changed.now) }
{
    match changed {
        [first, others @ ..] => {
            push_change(text, numbers, before, after, *first)?;
            push_further(text, numbers, before, after, others)
        }
        [] => text.extend_from_slice(b"as before"),
    }
}

/// Appends what of a mount is not as it was.
#[tactic(auto, unfolding(crate::specs::Words::changes))]
pub(crate) fn push_changes(
    text: &mut Vec<u8>,
    numbers: Numbers,
    before: &Row,
    after: &Row,
) -> Result<(), AllocError>
    ensures { OnOk result (text.new.items ≡ text.old.items ++ changes numbers before.now after.now) }
{
    let changed = fields_changed(*text.allocator(), before, after)?;
    push_field_changes(text, numbers, before, after, &changed)?;
    Ok(())
}
