//! What of a mount is not as it was, in words.
ghost use Rattle.std.specs.Prelude.{◌≡◌, ◌++◌, cond, OnOk, IfOk};
ghost use Rattle.std.specs.List.{filter};
ghost use Rattle.mt_render.specs.Wording.{propagation_differs, field_differs, fields_changed, atime_word, field_name, field_words, change_words, further_words, listed, changes_text};

use crate::propagation::push_propagation;
use mt_info::print::{push_number, push_path};
use mt_info::row::Row;
use mt_mounts::mount::Atime;
use std::alloc::{AllocError, Global};

/// A field of a row of which it is told that it is not as it was.
#[derive(Clone, Copy, PartialEq, Eq, Debug)]
pub enum Field {
    /// The mount point.
    Point,
    /// The parent.
    Parent,
    /// The directory that is shown.
    Root,
    /// Whether nothing can be written.
    ReadOnly,
    /// The attribute `nosuid`.
    Nosuid,
    /// The attribute `nodev`.
    Nodev,
    /// The attribute `noexec`.
    Noexec,
    /// The attribute `nosymfollow`.
    Nosymfollow,
    /// The attribute `nodiratime`.
    Nodiratime,
    /// When times of access are updated.
    AccessTimes,
    /// How the mount propagates: the optional fields.
    Propagation,
}

/// The fields, in the order in which they are told.
const FIELDS: [Field; 11] = [
    Field::Point,
    Field::Parent,
    Field::Root,
    Field::ReadOnly,
    Field::Nosuid,
    Field::Nodev,
    Field::Noexec,
    Field::Nosymfollow,
    Field::Nodiratime,
    Field::AccessTimes,
    Field::Propagation,
];

/// Whether two rows differ in one of the optional fields.
fn propagation_differs(before: &Row, after: &Row) -> bool
    ensures { result ≡ propagation_differs before.now after.now }
{
    before.shared != after.shared
        || before.master != after.master
        || before.via != after.via
        || before.unbindable != after.unbindable
}

/// Whether two rows differ in a field.
fn field_differs(before: &Row, after: &Row, field: Field) -> bool
    ensures { result ≡ field_differs before.now after.now field }
{
    match field {
        Field::Point => !before.point.is_same(&after.point),
        Field::Parent => before.parent != after.parent,
        Field::Root => !before.root.is_same(&after.root),
        Field::ReadOnly => before.attrs.ro != after.attrs.ro,
        Field::Nosuid => before.attrs.nosuid != after.attrs.nosuid,
        Field::Nodev => before.attrs.nodev != after.attrs.nodev,
        Field::Noexec => before.attrs.noexec != after.attrs.noexec,
        Field::Nosymfollow => before.attrs.nosymfollow != after.attrs.nosymfollow,
        Field::Nodiratime => before.attrs.nodiratime != after.attrs.nodiratime,
        Field::AccessTimes => before.attrs.atime != after.attrs.atime,
        Field::Propagation => propagation_differs(before, after),
    }
}

/// Those of some fields in which two rows differ.
fn changed_fields(
    alloc: Global,
    fields: &[Field],
    before: &Row,
    after: &Row,
) -> Result<Vec<Field>, AllocError>
    ensures { IfOk result (λ changed. changed.items ≡ filter (field_differs before.now after.now) fields.now) }
{
    let mut changed = Vec::new(alloc);
    'fields: for field in fields {
        if field_differs(before, after, *field) {
            changed.push(*field)?;
        }
    }
    Ok(changed)
}

/// The fields in which two rows differ, in the order in which they are told. Fails for want of memory alone.
#[tactic(auto, unfolding(crate::specs::Wording::fields_changed))]
pub fn fields_changed(alloc: Global, before: &Row, after: &Row) -> Result<Vec<Field>, AllocError>
    ensures { IfOk result (λ changed. changed.items ≡ fields_changed before.now after.now) }
{
    let changed = changed_fields(alloc, &FIELDS, before, after)?;
    Ok(changed)
}

/// The name of a kind of access times.
fn atime_word(atime: Atime) -> &'static [u8]
    ensures { result.now ≡ atime_word atime }
{
    match atime {
        Atime::Relatime => b"relatime",
        Atime::Noatime => b"noatime",
        Atime::Strictatime => b"strictatime",
    }
}

/// What stands in front of what a field says, where that does not tell which field it is.
pub fn field_name(field: Field) -> &'static [u8]
    ensures { result.now ≡ field_name field }
{
    match field {
        Field::Parent => b"parent ",
        Field::Root => b"root ",
        Field::Point
        | Field::ReadOnly
        | Field::Nosuid
        | Field::Nodev
        | Field::Noexec
        | Field::Nosymfollow
        | Field::Nodiratime
        | Field::AccessTimes
        | Field::Propagation => b"",
    }
}

/// One of two words.
fn either(holds: bool, word: &'static [u8], opposite: &'static [u8]) -> &'static [u8]
    ensures { result.now ≡ cond holds word.now opposite.now }
{
    if holds { word } else { opposite }
}

/// Appends what a field of a row says. Fails for want of memory alone.
pub fn push_field(text: &mut Vec<u8>, row: &Row, field: Field) -> Result<(), AllocError>
    ensures { OnOk result (text.new.items ≡ text.old.items ++ field_words row.now field) }
{
    let attrs = row.attrs;
    match field {
        Field::Point => push_path(text, &row.point),
        Field::Parent => push_number(text, row.parent),
        Field::Root => push_path(text, &row.root),
        Field::ReadOnly => text.extend_from_slice(either(attrs.ro, b"ro", b"rw")),
        Field::Nosuid => text.extend_from_slice(either(attrs.nosuid, b"nosuid", b"suid")),
        Field::Nodev => text.extend_from_slice(either(attrs.nodev, b"nodev", b"dev")),
        Field::Noexec => text.extend_from_slice(either(attrs.noexec, b"noexec", b"exec")),
        Field::Nosymfollow => {
            text.extend_from_slice(either(attrs.nosymfollow, b"nosymfollow", b"symfollow"))
        }
        Field::Nodiratime => {
            text.extend_from_slice(either(attrs.nodiratime, b"nodiratime", b"diratime"))
        }
        Field::AccessTimes => text.extend_from_slice(atime_word(attrs.atime)),
        Field::Propagation => push_propagation(text, row),
    }
}

/// Appends what a field was, and what it is.
fn push_change(
    text: &mut Vec<u8>,
    before: &Row,
    after: &Row,
    field: Field,
) -> Result<(), AllocError>
    ensures { OnOk result (text.new.items ≡ text.old.items ++ change_words before.now after.now field) }
{
    text.extend_from_slice(field_name(field))?;
    push_field(text, before, field)?;
    text.extend_from_slice(b" -> ")?;
    push_field(text, after, field)?;
    Ok(())
}

/// Appends what each of these fields was and is, each behind a comma.
fn push_further(
    text: &mut Vec<u8>,
    before: &Row,
    after: &Row,
    changed: &[Field],
) -> Result<(), AllocError>
    ensures { OnOk result (text.new.items ≡ text.old.items ++ further_words before.now after.now changed.now) }
{
    'changed: for field in changed {
        text.extend_from_slice(b", ")?;
        push_change(text, before, after, *field)?;
    }
    Ok(())
}

/// Appends what each of these fields was and is, joined by commas, or that nothing changed.
fn push_fields(
    text: &mut Vec<u8>,
    before: &Row,
    after: &Row,
    changed: &[Field],
) -> Result<(), AllocError>
    ensures { OnOk result (text.new.items ≡ text.old.items ++ listed before.now after.now changed.now) }
{
    match changed {
        [first, others @ ..] => {
            push_change(text, before, after, *first)?;
            push_further(text, before, after, others)
        }
        [] => text.extend_from_slice(b"as before"),
    }
}

/// Appends what of the second row is not as in the first.
#[tactic(auto, unfolding(crate::specs::Wording::changes_text))]
pub(crate) fn push_changes(text: &mut Vec<u8>, before: &Row, after: &Row) -> Result<(), AllocError>
    ensures { OnOk result (text.new.items ≡ text.old.items ++ changes_text before.now after.now) }
{
    let changed = fields_changed(*text.allocator(), before, after)?;
    push_fields(text, before, after, &changed)?;
    Ok(())
}
