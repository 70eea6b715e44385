//! The labels of mounts in a graph.
ghost use Rattle.std.specs.Prelude.{◌≡◌, ◌++◌, OnOk};
ghost use Rattle.mt_skel.specs.Escapes.{escaped};
ghost use Rattle.mt_render.specs.Labels.{is_plain, label_byte, label_text, numbered_point, label};
ghost use Rattle.mt_render.specs.Trees.{shown_root};

use crate::propagation::push_propagation;
use crate::trees::push_shown_root;
use mt_info::print::{push_label, push_number, push_options, push_path};
use mt_info::row::Row;
use std::alloc::AllocError;

/// Whether a byte stands for itself in a label.
fn is_plain(byte: u8) -> bool
    ensures { result ≡ is_plain byte }
{
    32 <= byte && byte <= 126 && byte != b'"' && byte != b'&' && byte != b'\\'
}

/// Appends a byte of a label.
fn push_label_byte(text: &mut Vec<u8>, byte: u8) -> Result<(), AllocError>
    ensures { OnOk result (text.new.items ≡ text.old.items ++ label_byte byte) }
{
    if is_plain(byte) {
        text.push(byte)?;
        return Ok(());
    }
    text.extend_from_slice(b"\\\\")?;
    if byte != b'\\' {
        text.push(b'0' + byte / 64)?;
        text.push(b'0' + byte / 8 % 8)?;
        text.push(b'0' + byte % 8)?;
    }
    Ok(())
}

/// Appends bytes of a label.
pub(crate) fn push_label_bytes(text: &mut Vec<u8>, bytes: &[u8]) -> Result<(), AllocError>
    ensures { OnOk result (text.new.items ≡ text.old.items ++ label_text bytes.now) }
{
    for byte in bytes {
        push_label_byte(text, *byte)?;
    }
    Ok(())
}

/// Appends the number of a mount and the path where it stands, in a label.
fn push_numbered_point(text: &mut Vec<u8>, row: &Row) -> Result<(), AllocError>
    ensures { OnOk result (text.new.items ≡ text.old.items ++ numbered_point row.now) }
{
    push_number(text, row.id)?;
    text.extend_from_slice(b" ")?;
    let mut path = Vec::new(*text.allocator());
    push_path(&mut path, &row.point)?;
    push_label_bytes(text, &path)?;
    Ok(())
}

/// Appends the type of a mount's filesystem and the directory that it shows, in a label.
fn push_kind(text: &mut Vec<u8>, row: &Row) -> Result<(), AllocError>
    ensures { OnOk result (text.new.items ≡ text.old.items ++ label_text (escaped row.now.kind ++ shown_root row.now.root)) }
{
    let mut kind = Vec::new(*text.allocator());
    push_label(&mut kind, &row.kind)?;
    push_shown_root(&mut kind, row)?;
    push_label_bytes(text, &kind)
}

/// Appends the label of a mount.
pub(crate) fn push_node_label(text: &mut Vec<u8>, row: &Row) -> Result<(), AllocError>
    ensures { OnOk result (text.new.items ≡ text.old.items ++ label row.now) }
{
    push_numbered_point(text, row)?;
    text.extend_from_slice(b"\\n")?;
    push_kind(text, row)?;
    text.extend_from_slice(b"\\n")?;
    push_options(text, &row.attrs)?;
    text.extend_from_slice(b"\\n")?;
    push_propagation(text, row)?;
    Ok(())
}
