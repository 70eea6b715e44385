//! Pieces of the data's text.
ghost use Rattle.std.specs.Prelude.{◌≡◌, ◌++◌, OnOk};
ghost use Rattle.mt_render.specs.PageData.{string_text, member, told, parted, elements, inert_byte, inert};

use mt_terminal::json::quoted_text;
use serde_json::Value;
use std::alloc::AllocError;

/// Appends bytes as a string of JSON, with U+FFFD in the place of each sequence that is no UTF-8, and no character that a
/// terminal obeys.
fn push_string(text: &mut Vec<u8>, bytes: &[u8]) -> Result<(), AllocError>
    ensures { OnOk result (text.new.items ≡ text.old.items ++ string_text bytes.now) }
{
    let alloc = *text.allocator();
    let value = Value::from(String::from_utf8_lossy(alloc, bytes)?);
    text.extend_from_slice(&quoted_text(alloc, &value.to_vec(alloc)?)?)
}

/// Appends what leads to a string, its key, and the string.
pub(crate) fn push_member(text: &mut Vec<u8>, lead: &[u8], bytes: &[u8]) -> Result<(), AllocError>
    ensures { OnOk result (text.new.items ≡ text.old.items ++ member lead.now bytes.now) }
{
    text.extend_from_slice(lead)?;
    push_string(text, bytes)
}

/// The same, but for an empty string nothing.
pub(crate) fn push_told(text: &mut Vec<u8>, lead: &[u8], bytes: &[u8]) -> Result<(), AllocError>
    ensures { OnOk result (text.new.items ≡ text.old.items ++ told lead.now bytes.now) }
{
    match bytes {
        [] => Ok(()),
        [_, ..] => push_member(text, lead, bytes),
    }
}

/// Appends a byte, or for a line end what parts elements.
fn push_parted(text: &mut Vec<u8>, separator: &[u8], byte: u8) -> Result<(), AllocError>
    ensures { OnOk result (text.new.items ≡ text.old.items ++ parted separator.now byte) }
{
    if byte == b'\n' {
        text.extend_from_slice(separator)
    } else {
        text.push(byte)?;
        Ok(())
    }
}

/// Appends lines as elements, with this in the place of each line end but the last.
pub(crate) fn push_elements(
    text: &mut Vec<u8>,
    separator: &[u8],
    lines: &[u8],
) -> Result<(), AllocError>
    ensures { OnOk result (text.new.items ≡ text.old.items ++ elements separator.now lines.now) }
{
    let front = &lines[..lines.len().saturating_sub(1)];
    'bytes: for byte in front {
        push_parted(text, separator, *byte)?;
    }
    Ok(())
}

/// Appends a byte, or the code of the character that could end a script element.
fn push_inert_byte(text: &mut Vec<u8>, byte: u8) -> Result<(), AllocError>
    ensures { OnOk result (text.new.items ≡ text.old.items ++ inert_byte byte) }
{
    if byte == b'<' {
        text.extend_from_slice(b"\\u003c")
    } else {
        text.push(byte)?;
        Ok(())
    }
}

/// Appends a text of JSON with no `<`, which means the same: that character stands in strings alone.
pub(crate) fn push_inert(text: &mut Vec<u8>, bytes: &[u8]) -> Result<(), AllocError>
    ensures { OnOk result (text.new.items ≡ text.old.items ++ inert bytes.now) }
{
    'bytes: for byte in bytes {
        push_inert_byte(text, *byte)?;
    }
    Ok(())
}
