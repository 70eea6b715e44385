//! Text of JSON for a terminal: characters that it would obey stand there by their codes.
ghost use Rattle.std.specs.Prelude.{◌≡◌, ◌++◌, OnOk, IfOk};
ghost use Rattle.mt_terminal.specs.Terminal.{hex_code, quoted_piece, quoted_text};

use crate::terminal::{hex_digit, is_obeyed};
use bstr::decode_utf8;
use std::alloc::{AllocError, Global};

/// Appends the code of a character below 65,536 in four hexadecimal digits.
fn push_code(text: &mut Vec<u8>, code: u32) -> Result<(), AllocError>
    ensures { OnOk result (text.new.items ≡ text.old.items ++ hex_code code) }
{
    text.extend_from_slice(b"\\u")?;
    text.push(hex_digit((code / 4_096 % 16) as u8))?;
    text.push(hex_digit((code / 256 % 16) as u8))?;
    text.push(hex_digit((code / 16 % 16) as u8))?;
    text.push(hex_digit((code % 16) as u8))?;
    Ok(())
}

/// Appends the bytes of a character, or of what is none.
fn push_quoted(text: &mut Vec<u8>, character: Option<char>, bytes: &[u8]) -> Result<(), AllocError>
    ensures { OnOk result (text.new.items ≡ text.old.items ++ quoted_piece character bytes.now) }
{
    match character {
        Some(character) if is_obeyed(character) => push_code(text, u32::from(character)),
        _ => text.extend_from_slice(bytes),
    }
}

/// A text of JSON with the same meaning, in which no character stands that a terminal obeys: each is written as `\u` and
/// the four hexadecimal digits of its code, as it may be in a string, where alone such characters stand. Fails for want of
/// memory alone.
#[tactic(auto, using(crate::proofs::SizeLaws::size_within), unfolding(crate::specs::Terminal::quoted_text))]
pub fn quoted_text(alloc: Global, bytes: &[u8]) -> Result<Vec<u8>, AllocError>
    ensures { IfOk result (λ text. text.items ≡ quoted_text bytes.now) }
{
    let mut text = Vec::new(alloc);
    let mut rest = bytes;
    'bytes: for _byte in bytes {
        let (character, size) = decode_utf8(rest);
        let (piece, behind) = rest.split_at(size);
        push_quoted(&mut text, character, piece)?;
        rest = behind;
    }
    Ok(text)
}
