//! The line of a mount that left, is new or is not as it was.
ghost use Rattle.std.specs.Prelude.{◌≡◌, ◌++◌, OnOk};
ghost use Rattle.mt_what_if.specs.Lines.{mount_and_point, new_mount_words, line_of_left, line_of_new, line_of_changed};

use crate::numbers::Numbers;
use crate::words::{push_changes, push_propagation};
use mt_info::print::{push_label, push_options, push_path};
use mt_info::row::Row;
use mt_render::wording::{push_shown, push_standing};
use std::alloc::AllocError;

/// Appends the number of a mount and its mount point.
pub(crate) fn push_mount(text: &mut Vec<u8>, numbers: Numbers, row: &Row) -> Result<(), AllocError>
    ensures { OnOk result (text.new.items ≡ text.old.items ++ mount_and_point numbers row.now) }
{
    numbers.push_mount(text, row.id)?;
    text.extend_from_slice(b" ")?;
    push_path(text, &row.point)?;
    Ok(())
}

/// Appends what a new mount is: its type, its options, and how it propagates.
fn push_kind(text: &mut Vec<u8>, numbers: Numbers, row: &Row) -> Result<(), AllocError>
    ensures { OnOk result (text.new.items ≡ text.old.items ++ new_mount_words numbers row.now) }
{
    text.extend_from_slice(b" ")?;
    push_label(text, &row.kind)?;
    text.extend_from_slice(b" ")?;
    push_options(text, &row.attrs)?;
    text.extend_from_slice(b" ")?;
    push_propagation(text, numbers, row)?;
    Ok(())
}

/// Appends the line of a mount that left.
#[tactic(auto, unfolding(crate::specs::Lines::line_of_left))]
pub(crate) fn push_gone_line(
    text: &mut Vec<u8>,
    numbers: Numbers,
    row: &Row,
) -> Result<(), AllocError>
    ensures { OnOk result (text.new.items ≡ text.old.items ++ line_of_left numbers row.now) }
{
    let mut line = Vec::new(*text.allocator());
    line.extend_from_slice(b"    - ")?;
    push_mount(&mut line, numbers, row)?;
    line.extend_from_slice(b" ")?;
    push_label(&mut line, &row.kind)?;
    push_shown(text, &line)
}

/// Appends the line of a mount that is new.
#[tactic(auto, unfolding(crate::specs::Lines::line_of_new))]
pub(crate) fn push_new_line(
    text: &mut Vec<u8>,
    numbers: Numbers,
    row: &Row,
) -> Result<(), AllocError>
    ensures { OnOk result (text.new.items ≡ text.old.items ++ line_of_new numbers row.now) }
{
    let mut line = Vec::new(*text.allocator());
    line.extend_from_slice(b"    + ")?;
    push_mount(&mut line, numbers, row)?;
    push_kind(&mut line, numbers, row)?;
    push_shown(text, &line)
}

/// Appends the line of a mount that is not as it was.
#[tactic(auto, unfolding(crate::specs::Lines::line_of_changed))]
pub(crate) fn push_changed_line(
    text: &mut Vec<u8>,
    numbers: Numbers,
    before: &Row,
    after: &Row,
) -> Result<(), AllocError>
    ensures { OnOk result (text.new.items ≡ text.old.items ++ line_of_changed numbers before.now after.now) }
{
    let mut line = Vec::new(*text.allocator());
    line.extend_from_slice(b"    ~ ")?;
    numbers.push_mount(&mut line, after.id)?;
    line.extend_from_slice(b" ")?;
    push_standing(&mut line, before, after)?;
    push_changes(&mut line, numbers, before, after)?;
    push_shown(text, &line)
}
